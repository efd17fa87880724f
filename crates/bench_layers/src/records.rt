//! What the calls above frames share of the record of `messages.rt`.

use crate::answers::{Found, Parts};
use crate::messages::{Owned, count_record, total};
use link::Answer;

/// The record as it is decoded in place.
pub(crate) type Lent<'a> = (u32, u64, &'a str, Option<u16>, Vec<u16>);

/// The sentinel of the rows that aren't for zero.
pub(crate) const OTHER: u8 = 10;

/// Counts the result of a stretch.
pub(crate) fn count_answer(answer: Answer<Owned>, found: &mut Found) {
    match answer {
        Answer::Value(record) => count_record(record, found),
        Answer::Damaged | Answer::TooLong | Answer::Cut => {
            found.refused = found.refused.wrapping_add(1);
        }
    }
}

/// What a record holds.
pub(crate) fn parts_of(record: Lent<'_>) -> Parts {
    let (number, big, text, perhaps, list) = record;
    Parts {
        number,
        big,
        text_len: text.len(),
        has: perhaps.is_some(),
        perhaps: perhaps.unwrap_or(0),
        list_len: list.len(),
        sum: total(&list),
    }
}

/// The same of one with a text of its own.
pub(crate) fn parts_of_owned(record: Owned) -> Parts {
    let (number, big, text, perhaps, list) = record;
    Parts {
        number,
        big,
        text_len: text.len(),
        has: perhaps.is_some(),
        perhaps: perhaps.unwrap_or(0),
        list_len: list.len(),
        sum: total(&list),
    }
}
