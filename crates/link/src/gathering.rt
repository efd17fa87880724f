//! Receiving by postcard's accumulator.
ghost use Rattle.std.specs.Prelude.{◌≡◌, ◌+◌, ◌<◌, ◌≤◌, OnOk, OnErr, List, [], ◌∷◌, ℕ};
ghost use Rattle.cobs.specs.Sentinel.{masked};
ghost use Rattle.postcard.specs.Gathers.{held_of, sentinel_of};
ghost use Rattle.line_io.specs.Transfers.{HasRead};
ghost use Rattle.line_io.specs.declared.transfers.End.TheVariants.{NoMemory as LacksMemory};
ghost use Rattle.link.specs.Listening.{IsFilled};
ghost use Rattle.link.specs.Each.{UsesFew};
ghost use Rattle.link.specs.Gathering.{GathersPieces, LacksPlace, AreSameByAccumulator, HasGathered, AreGatheredBy, AccumulatorFitsInMemory};

use crate::receiver::NoMemory;
use line_io::{End, Inlet};
use postcard::DeserializeOwned;
use postcard::accumulator::{CobsAccumulator, FeedResult};
use postcard_tree::Readable;
use std::alloc::Global;

// The length of one read's buffer.
const ROOM: usize = 1024;

/// What was received by postcard's accumulator.
///
/// # Example
/// ```rust
/// let got = receive_by_accumulator::<u32, _, 4>(alloc, reader);
/// got.end == end && got.values.as_slice() == values
/// ```
#[derive(Drop)]
pub struct Gathered<T, R> {
    /// The values, in the order of their frames.
    pub values: Vec<T>,
    /// Why it ended. `NoMemory`: the list couldn't be extended.
    pub end: End,
    /// The reader, after this call's reads.
    pub reader: R,
}

// Feeds a chunk until nothing is left of it, and keeps the values.
fn gather<T: DeserializeOwned, const N: usize>(
    alloc: Global,
    accumulator: &mut CobsAccumulator<N>,
    values: &mut Vec<T>,
    piece: &[u8],
) -> Result<(), NoMemory>
    requires { 0 < N }
    ensures ok { OnOk result (GathersPieces T.form.takes T.form.reads T.form.growing N
        (held_of accumulator.old) (masked (sentinel_of accumulator.old) piece.now ∷ [])
        (held_of accumulator.new) [] values.old.items values.new.items) }
    ensures err { OnErr result (LacksPlace T.form.takes T.form.reads T.form.growing N
        (held_of accumulator.old)
        (masked (sentinel_of accumulator.old) piece.now ∷ []) values.old.items values.new.items) }
    ensures full { OnErr result (IsFilled values.new) }
    ensures sentinel { sentinel_of accumulator.new ≡ sentinel_of accumulator.old }
{
    let mut rest = piece;
    while !rest.is_empty() {
        match accumulator.feed::<T>(alloc, rest) {
            FeedResult::Consumed => return Ok(()),
            FeedResult::OverFull(left) => rest = left,
            FeedResult::DeserError(left) => rest = left,
            FeedResult::Success { value, remaining } => {
                if values.reserve(1).is_err() {
                    return Err(NoMemory);
                }
                values.push_reserved(value);
                rest = remaining;
            }
        }
    }
    Ok(())
}

// Feeds what a reader gives, to its end, and keeps the values.
fn collect<T: DeserializeOwned, R: Inlet, const N: usize>(
    alloc: Global,
    reader: &mut R,
    accumulator: &mut CobsAccumulator<N>,
    values: &mut Vec<T>,
) -> End
    requires { 0 < N }
    ensures gathered { (bytes : List ℕ)
        × HasRead (R.line reader.old) (R.line reader.new) result bytes
        × HasGathered T.form.takes T.form.reads T.form.growing N
        (sentinel_of accumulator.old) (held_of accumulator.old) bytes
        (held_of accumulator.new) values.old.items values.new.items result }
    ensures full { result ≡ LacksMemory → IsFilled values.new }
    ensures calls { UsesFew (R.line reader.old) (R.line reader.new) 1 }
    ensures once { (R.line reader.new).faults ≤ (R.line reader.old).faults + 1 }
{
    let mut room = [0u8; ROOM];
    loop {
        match reader.read(&mut room) {
            None => return End::ReadFault,
            Some(0) => return End::Ended,
            Some(n) => {
                if gather(alloc, accumulator, values, &room[..n]).is_err() {
                    return End::NoMemory;
                }
            }
        }
    }
}

// What `roads` of `link_laws` says of some values, for all. It does nothing.
fn gathered_alike<T: Readable>()
    ensures { AreSameByAccumulator T.form.takes T.form.reads T.form.growing }
{
    cobs::laws::message_of_a_frame();
    cobs::laws::frames_of_a_message();
    postcard_tree::laws::short_is_a_spelling();
}

/// The values of everything that a reader gives, by the loop that postcard documents for its accumulator.
///
/// A frame with its zero has at most N bytes. What isn't a value is left out without a report. If the stretches fit, the values are
/// those among the results of `receive`, but for values that could not be allocated.
///
/// # Errors
/// `end` is `ReadFault`, or `NoMemory` if the list could not be extended: the values before are there, and none is missing of those
/// of the bytes before the last read of up to 1024. A value that can't be allocated is left out. No read follows one that failed.
///
/// # Requires
/// N is at least 1, and an accumulator of N bytes fits in memory (`AccumulatorFitsInMemory`); a concrete N costs nothing.
///
/// # Allocates
/// The list, and what the values need.
///
/// # Example
/// ```rust
/// let reader = In::new(&line, 3, Some(8));
/// check(&rt, gathers(rt.alloc(), reader, &[300], End::ReadFault));
/// ```
pub fn receive_by_accumulator<T: DeserializeOwned, R: Inlet, const N: usize>(
    alloc: Global,
    reader: R,
) -> Gathered<T, R>
    requires some { 0 < N }
    requires fits { AccumulatorFitsInMemory N.row }
    ensures received { AreGatheredBy T.form N 0 R.line reader result }
    ensures full { result.end ≡ LacksMemory → IsFilled result.values }
    ensures calls { UsesFew (R.line reader) (R.line result.reader) 1 }
    ensures once { (R.line result.reader).faults ≤ (R.line reader).faults + 1 }
{
    receive_by_accumulator_with_sentinel::<T, R, N>(alloc, reader, 0)
}

/// As `receive_by_accumulator`, with this sentinel.
///
/// # Errors
/// As [`receive_by_accumulator`].
///
/// # Requires
/// N is at least 1, and an accumulator of N bytes fits in memory (`AccumulatorFitsInMemory`); a concrete N costs nothing.
///
/// # Allocates
/// The list, and what the values need.
pub fn receive_by_accumulator_with_sentinel<T: DeserializeOwned, R: Inlet, const N: usize>(
    alloc: Global,
    reader: R,
    sentinel: u8,
) -> Gathered<T, R>
    requires some { 0 < N }
    requires fits { AccumulatorFitsInMemory N.row }
    ensures received { AreGatheredBy T.form N sentinel R.line reader result }
    ensures full { result.end ≡ LacksMemory → IsFilled result.values }
    ensures calls { UsesFew (R.line reader) (R.line result.reader) 1 }
    ensures once { (R.line result.reader).faults ≤ (R.line reader).faults + 1 }
{
    let mut reader = reader;
    let mut accumulator = CobsAccumulator::<N>::new_with_sentinel(sentinel);
    let mut values = Vec::new(alloc);
    let end = collect::<T, R, N>(alloc, &mut reader, &mut accumulator, &mut values);
    gathered_alike::<T>();
    Gathered {
        values,
        end,
        reader,
    }
}
