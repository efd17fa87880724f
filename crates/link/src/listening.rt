//! Receiving everything that a reader gives.
ghost use Rattle.std.specs.Prelude.{◌≡◌, ℕ, ◌+◌, ◌≤◌, []};
ghost use Rattle.link.specs.Receivers.{IsBehind};
ghost use Rattle.link.specs.Listening.{ReceiverFitsInMemory, IsReceivedBy, IsReceivedByOwned, IsUnmade, ordinary, strictly};
ghost use Rattle.link.specs.Firsts.{listed_end};

use crate::decoding::Decoding;
use crate::judging::{MessageReader, OfType, Ordinary, Strict};
use crate::listed::Listed;
use crate::owned::OwnedReceiver;
use crate::receiver::{Answer, NoMemory, Receiver};
use crate::reception::Reception;
use line_io::{End, Inlet};
use postcard::{DeserializeOwned, Exact};
use std::alloc::Global;

/// What was received, why it ended, and the reader.
///
/// # Example
/// ```rust
/// let Received {
///     answers,
///     end,
///     reader: _,
/// } = receive::<Reading, _, 16>(alloc, In::new(&bytes, 64, None));
/// ```
#[derive(Drop)]
pub struct Received<T, R> {
    /// The results, in the order of their stretches.
    ///
    /// | `end` | They are |
    /// |---|---|
    /// | `Ended` | those of all bytes that were read, with `Cut` for a stretch that no sentinel ended |
    /// | `ReadFault` | the same, without `Cut` |
    /// | `NoMemory` | those before the first missing one: its value couldn't be allocated, or the list is full to its allocated capacity; none is missing of the bytes before the last read of up to 1024 |
    ///
    /// If `receive_owned` couldn't allocate its receiver, nothing was read.
    pub answers: Vec<Answer<T>>,
    /// Why it ended. `NoMemory`: a value, the list, or the receiver of `receive_owned` couldn't be allocated.
    pub end: End,
    /// The reader, after this call's reads.
    pub reader: R,
}

// How a reception into a list ended.
fn ended_as(end: Option<End>, full: bool) -> End
    ensures { result ≡ listed_end end full }
{
    if full {
        return End::NoMemory;
    }
    match end {
        Some(end) => end,
        None => End::NoMemory,
    }
}

// The results of everything that a reader gives, by a receiver that has received nothing and a reader of messages: `receive_each_with`
// into a list that stops at the first out of memory, so that there is one loop.
fn receive_by<V: Drop, M: MessageReader<V>, R: Inlet, D: Decoding>(
    alloc: Global,
    messages: &M,
    reader: R,
    receiver: &mut Reception<D>,
) -> Received<V, R>
    ensures received { (limit s : ℕ) → IsBehind D.inside limit s receiver.old []
        → IsReceivedBy (M.judging messages.now) limit s R.line reader result }
    ensures once { (R.line result.reader).faults ≤ (R.line reader).faults + 1 }
{
    messages.show();
    let mut reader = reader;
    let mut list = Listed {
        answers: Vec::new(alloc),
        full: false,
    };
    let end = receiver.receive_each_with(alloc, messages, &mut reader, &mut list);
    let Listed { answers, full } = list;
    Received {
        answers,
        end: ended_as(end, full),
        reader,
    }
}

/// Receives everything that a reader gives, until it ends or fails, with frames of at most N bytes.
///
/// It reads chunks of up to 1024 bytes; their sizes change no result. At most one call of the reader a byte, and one that ends the
/// reading; none follows a fault. To act on each message as it comes use `receive_each_with`.
///
/// # Errors
/// `end` is `ReadFault` or `NoMemory`; `answers` then are the first ones, as `Received` says.
///
/// # Requires
/// A receiver of N bytes fits in memory (`ReceiverFitsInMemory`); a concrete N costs nothing.
///
/// # Allocates
/// The list, and what the values need.
///
/// # Example
/// ```rust
/// let received = receive::<Reading, _, 16>(rt.alloc(), reader);
/// for answer in &received.answers {
///     println!(rt; "{answer:?}")?;
/// }
/// ```
pub fn receive<T: DeserializeOwned, R: Inlet, const N: usize>(
    alloc: Global,
    reader: R,
) -> Received<T, R>
    requires { ReceiverFitsInMemory N.row }
    ensures received { IsReceivedBy (ordinary T.form) N 0 R.line reader result }
    ensures once { (R.line result.reader).faults ≤ (R.line reader).faults + 1 }
{
    receive_with_sentinel::<T, R, N>(alloc, reader, 0)
}

/// As `receive`, with this sentinel.
///
/// # Errors
/// As [`receive`].
///
/// # Requires
/// A receiver of N bytes fits in memory (`ReceiverFitsInMemory`); a concrete N costs nothing.
///
/// # Allocates
/// The list, and what the values need.
pub fn receive_with_sentinel<T: DeserializeOwned, R: Inlet, const N: usize>(
    alloc: Global,
    reader: R,
    sentinel: u8,
) -> Received<T, R>
    requires { ReceiverFitsInMemory N.row }
    ensures received { IsReceivedBy (ordinary T.form) N sentinel R.line reader result }
    ensures once { (R.line result.reader).faults ≤ (R.line reader).faults + 1 }
{
    let mut receiver = Receiver::<N>::new_with_sentinel(sentinel);
    receive_by(alloc, &Ordinary(OfType), reader, &mut receiver)
}

/// As `receive`, but only the exact frame that sending a value writes is a `Value`; any other is `Damaged`.
///
/// # Errors
/// As [`receive`].
///
/// # Requires
/// A receiver of N bytes fits in memory (`ReceiverFitsInMemory`); a concrete N costs nothing.
///
/// # Allocates
/// The list, and what the values need.
pub fn receive_strict<T: DeserializeOwned + Exact, R: Inlet, const N: usize>(
    alloc: Global,
    reader: R,
) -> Received<T, R>
    requires { ReceiverFitsInMemory N.row }
    ensures received { IsReceivedBy (strictly T.form) N 0 R.line reader result }
    ensures once { (R.line result.reader).faults ≤ (R.line reader).faults + 1 }
{
    receive_strict_with_sentinel::<T, R, N>(alloc, reader, 0)
}

/// As `receive_strict`, with this sentinel.
///
/// # Errors
/// As [`receive`].
///
/// # Requires
/// A receiver of N bytes fits in memory (`ReceiverFitsInMemory`); a concrete N costs nothing.
///
/// # Allocates
/// The list, and what the values need.
pub fn receive_strict_with_sentinel<T: DeserializeOwned + Exact, R: Inlet, const N: usize>(
    alloc: Global,
    reader: R,
    sentinel: u8,
) -> Received<T, R>
    requires { ReceiverFitsInMemory N.row }
    ensures received { IsReceivedBy (strictly T.form) N sentinel R.line reader result }
    ensures once { (R.line result.reader).faults ≤ (R.line reader).faults + 1 }
{
    let mut receiver = Receiver::<N>::new_with_sentinel(sentinel);
    receive_by(alloc, &Strict(OfType), reader, &mut receiver)
}

// The result if no receiver could be allocated: nothing was read.
fn unmade<T, R>(alloc: Global, reader: R) -> Received<T, R>
    ensures { IsUnmade reader result.reader result.end result.answers.items }
{
    Received {
        answers: Vec::new(alloc),
        end: End::NoMemory,
        reader,
    }
}

/// As `receive_with_sentinel`, with a limit that is set at run time.
///
/// # Errors
/// As [`receive`]. If a receiver of that limit could not be allocated, nothing is read, and `end` is `NoMemory`.
///
/// # Allocates
/// The receiver's buffer, the list, and what the values need.
///
/// # Example
/// ```rust
/// let got = receive_owned::<bool, _>(alloc, In::new(&line, 2, None), 3, 0);
/// wants.heard(got, &[Answer::TooLong, Answer::Value(true)]);
/// ```
pub fn receive_owned<T: DeserializeOwned, R: Inlet>(
    alloc: Global,
    reader: R,
    limit: usize,
    sentinel: u8,
) -> Received<T, R>
    ensures received { IsReceivedByOwned (ordinary T.form) limit sentinel R.line reader result }
    ensures once { (R.line result.reader).faults ≤ (R.line reader).faults + 1 }
{
    match OwnedReceiver::new(alloc, limit, sentinel) {
        Ok(mut receiver) => receive_by(alloc, &Ordinary(OfType), reader, &mut receiver),
        Err(NoMemory) => unmade(alloc, reader),
    }
}

/// As `receive_strict_with_sentinel`, with a limit that is set at run time.
///
/// # Errors
/// As `receive_owned`.
///
/// # Allocates
/// The receiver's buffer, the list, and what the values need.
pub fn receive_owned_strict<T: DeserializeOwned + Exact, R: Inlet>(
    alloc: Global,
    reader: R,
    limit: usize,
    sentinel: u8,
) -> Received<T, R>
    ensures received { IsReceivedByOwned (strictly T.form) limit sentinel R.line reader result }
    ensures once { (R.line result.reader).faults ≤ (R.line reader).faults + 1 }
{
    match OwnedReceiver::new(alloc, limit, sentinel) {
        Ok(mut receiver) => receive_by(alloc, &Strict(OfType), reader, &mut receiver),
        Err(NoMemory) => unmade(alloc, reader),
    }
}
