//! Reading a log from its first byte to its end.
ghost use Rattle.std.specs.Prelude.{◌≡◌, ℕ, ◌+◌, ◌-◌, ◌^◌, ◌<◌, ◌≤◌, true, Err, List, [], ◌∷◌, ◌++◌, length, IfOk, IfErr, IsErr, OnOk, IfSome};
ghost use Rattle.line_io.specs.Transfers.{Failed};
ghost use Rattle.link.specs.Listening.{ReceiverFitsInMemory};
ghost use Rattle.link.specs.declared.receiver.Answer.{Answer};
ghost use Rattle.journal.specs.Reading.{HandsOnBelieved, HearsLog, HearsMore, HasHanded, HaltsBehind, ReadCause, IsHanded, IsHandedTo, HearsPart, HandedUntil, ReadByCalls, StoppedAt, log_reading, numbering_of, visited};

use crate::numbers::{Count, believe, count_on};
use crate::stores::Store;
use crate::visitors::Visitor;
use link::{Answer, MessageReader, NoMemory, Pushed, Receiver};
use std::alloc::Global;
use thiserror::Error;

// How many bytes are asked for in one read.
const ROOM: usize = 1024;

/// Why a log wasn't read to its end.
///
/// Example: see [`read_all`].
#[derive(Clone, Copy, PartialEq, Eq, Debug, Drop, Error)]
pub enum ReadError {
    /// A read failed, or the store has no call left.
    #[error("read failed")]
    Fault,
    /// A value couldn't be allocated.
    #[error("no memory")]
    NoMemory,
    /// The visitor halted.
    #[error("halted")]
    Halted,
}

// Hands on the result of a push, if there is one, as it is believed. The stretch has so many bytes before the last one read.
fn hand_on<T: Drop, V: Visitor<T>>(
    visitor: &mut V,
    count: Count,
    stretch: usize,
    answer: Result<Option<Answer<(u64, T)>>, NoMemory>,
) -> Result<Count, ReadError>
    ensures on { IfOk result
        (λ later. HandsOnBelieved (visited V.took V.halts visitor.old visitor.new) answer
        ((count.heard - 1) - stretch) count.heard (numbering_of count) (numbering_of later)) }
    ensures heard { IfOk result (λ later. later.heard ≡ count.heard) }
    ensures cause { IfErr result (λ e. ReadCause ⊥ true (V.halts visitor.old) e) }
    ensures memory { result ≡ Err ReadError.NoMemory → IsErr answer }
    ensures so_far { IfErr result (λ e.
        HandedUntil (λ v. v ≡ visitor.old) V.halts visitor.new e) }
    ensures stopped { IfErr result (λ e. StoppedAt e answer) }
{
    match answer {
        Ok(None) => Ok(count),
        Ok(Some(answer)) => {
            let before = count.heard.saturating_sub(1).saturating_sub(stretch as u64);
            let answer = believe(count, before, answer);
            let later = count_on(count, &answer);
            match visitor.visit(answer) {
                Ok(()) => Ok(later),
                Err(_) => Err(ReadError::Halted),
            }
        }
        Err(_) => Err(ReadError::NoMemory),
    }
}

// The same count after more bytes.
fn hear_on(count: Count, used: usize) -> Count
    requires { count.heard + used < 2 ^ 64 }
    ensures numbers { numbering_of result ≡ numbering_of count }
    ensures heard { result.heard ≡ count.heard + used }
{
    Count {
        next: count.next,
        through: count.through,
        heard: count.heard + used as u64,
    }
}

// Processes a chunk, and hands on its results.
fn hear<T: Drop, M: MessageReader<(u64, T)>, V: Visitor<T>, const N: usize>(
    alloc: Global,
    messages: &M,
    receiver: &mut Receiver<N>,
    visitor: &mut V,
    count: Count,
    piece: &[u8],
) -> Result<Count, ReadError>
    requires { count.heard + length piece.now < 2 ^ 64 }
    ensures heard { IfOk result
        (λ later. (first : ℕ) (stream : List ℕ) (answers : List (Answer (ℕ × T)))
        → HearsLog (log_reading (M.judging messages.now) N first) receiver.old answers count stream
        → HearsMore (log_reading (M.judging messages.now) N first)
        (visited V.took V.halts visitor.old visitor.new)
        receiver.new answers later (stream ++ piece.now)) }
    ensures on { IfOk result (λ later. later.heard ≡ count.heard + length piece.now) }
    ensures handed { OnOk result (HasHanded V.took visitor.old visitor.new) }
    ensures so_far { IfErr result (λ e. (first : ℕ) (stream : List ℕ)
        (answers : List (Answer (ℕ × T)))
        → HearsLog (log_reading (M.judging messages.now) N first) receiver.old answers count stream
        → HearsPart (log_reading (M.judging messages.now) N first)
        (visited V.took V.halts visitor.old visitor.new) answers stream piece.now e) }
    ensures cause { IfErr result (λ e. ReadCause ⊥ (M.judging messages.now).growing
        (HaltsBehind V.took V.halts visitor.old) e) }
{
    let mut rest = piece;
    let mut count = count;
    while !rest.is_empty() {
        let Pushed {
            used,
            stretch,
            answer,
        } = receiver.push_with::<(u64, T), M>(alloc, messages, rest);
        count = hand_on(visitor, hear_on(count, used), stretch, answer)?;
        let (_, after) = rest.split_at(used);
        rest = after;
    }
    Ok(count)
}

/// Reads a log to its end, hands the results to the visitor, and returns the number after the greatest, which is at least `first`.
///
/// What follows the last zero has no result. The way of reading is as for [`Journal::open`](crate::Journal::open): a record too
/// far ahead is `Damaged`. The store isn't changed. It makes at most one read for each byte, and one more.
///
/// # Errors
/// The visitor, or the one that halted, was handed exactly what is read of the log's first bytes, in order. Each call of the store
/// but one gave at least one of these bytes, and none gave more than 1024.
/// - `Fault`: a read failed, or the store has no call left.
/// - `NoMemory`: a value couldn't be allocated. The next byte is the zero that ends its frame.
/// - `Halted`: the visitor halted. The next byte brings about the result at which it did.
///
/// # Requires
/// A receiver of N bytes fits in memory (`ReceiverFitsInMemory`); a concrete N costs nothing.
///
/// # Allocates
/// What the values and the visitor need.
///
/// # Example
/// ```rust
/// let mut sum = Sum { total: 0 };
/// let by = &Strict(OfType);
/// let next = read_all::<Entry, _, _, _, 24>(rt.alloc(), &mut store, 0, by, &mut sum);
/// check(&rt, matches!(next, Err(ReadError::Halted)));
/// ```
pub fn read_all<T: Drop, M: MessageReader<(u64, T)>, S: Store, V: Visitor<T>, const N: usize>(
    alloc: Global,
    store: &mut S,
    first: u64,
    messages: &M,
    visitor: &mut V,
) -> Result<u64, ReadError>
    requires { ReceiverFitsInMemory N.row }
    ensures read { IfOk result (λ next. IfSome (S.line store.old).told (λ bytes.
        IsHanded (log_reading (M.judging messages.now) N first)
        (visited V.took V.halts visitor.old visitor.new) next bytes)) }
    ensures so_far { IfErr result (λ e. IfSome (S.line store.old).told (λ bytes.
        IsHandedTo (log_reading (M.judging messages.now) N first)
        (visited V.took V.halts visitor.old visitor.new)
        (ReadByCalls (S.line store.old) (S.line store.new) 1) e bytes)) }
    ensures cause { IfErr result (λ e. ReadCause (Failed (S.line store.old) (S.line store.new))
        (M.judging messages.now).growing (HaltsBehind V.took V.halts visitor.old) e) }
    ensures few { IfSome (S.line store.old).told (λ bytes. (S.line store.old).calls_left
        ≤ (S.line store.new).calls_left + (length bytes + 1)) }
    ensures held { (S.line store.new).told ≡ (S.line store.old).told }
    ensures settled { S.settled store.new ≡ S.settled store.old }
    ensures quiet { OnOk result ((S.line store.new).faults ≡ (S.line store.old).faults) }
    ensures more { (S.line store.old).faults ≤ (S.line store.new).faults }
    ensures calls { (S.line store.new).calls_left ≤ (S.line store.old).calls_left }
{
    let mut receiver = Receiver::<N>::new();
    let mut room = [0u8; ROOM];
    let mut count = Count {
        next: first,
        through: 0,
        heard: 0,
    };
    loop {
        match store.read_at(count.heard, &mut room) {
            None => return Err(ReadError::Fault),
            Some(0) => return Ok(count.next),
            Some(n) => {
                let piece = &room[..n];
                count = hear::<T, M, V, N>(alloc, messages, &mut receiver, visitor, count, piece)?;
            }
        }
    }
}
