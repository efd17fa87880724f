//! Which numbers of records are believed.
ghost use Rattle.std.specs.Prelude.{◌≡◌, ◌+◌, ◌<◌, ◌^◌, nat_lt};
ghost use Rattle.journal.specs.Places.{furthest, believed, numbered_behind};
ghost use Rattle.journal.specs.Reading.{numbering_of};

use link::Answer;

// The fewest bytes that a record takes: one of its number, one more of its frame, and its zero.
const LEAST: u64 = 3;

// The number of the next record, the position after the last record that moved it, and how many bytes were read.
#[derive(Clone, Copy, Drop)]
pub(crate) struct Count {
    pub next: u64,
    pub through: u64,
    pub heard: u64,
}

// Whether a number is further ahead than the bytes before its stretch account for.
fn is_ahead(count: Count, before: u64, number: u64) -> bool
    ensures { result ≡ nat_lt (furthest (numbering_of count) before) number }
{
    number > count.next && number - count.next > before.saturating_sub(count.through) / LEAST
}

// The result of a stretch after so many bytes, as it is handed on.
pub(crate) fn believe<T: Drop>(
    count: Count,
    before: u64,
    answer: Answer<(u64, T)>,
) -> Answer<(u64, T)>
    ensures { result ≡ believed (numbering_of count) before answer }
{
    match answer {
        Answer::Value((number, value)) => {
            if is_ahead(count, before, number) {
                return Answer::Damaged;
            }
            Answer::Value((number, value))
        }
        Answer::Damaged => Answer::Damaged,
        Answer::TooLong => Answer::TooLong,
        Answer::Cut => Answer::Cut,
    }
}

// The numbers after a result that is handed on at the bytes that were read.
pub(crate) fn count_on<T>(count: Count, answer: &Answer<(u64, T)>) -> Count
    ensures numbers { numbering_of result ≡ numbered_behind (numbering_of count) count.heard
        answer.now }
    ensures heard { result.heard ≡ count.heard }
{
    match answer {
        Answer::Value((number, _)) => {
            if *number < count.next {
                return count;
            }
            Count {
                next: number.saturating_add(1),
                through: count.heard,
                heard: count.heard,
            }
        }
        Answer::Damaged => count,
        Answer::TooLong => count,
        Answer::Cut => count,
    }
}
