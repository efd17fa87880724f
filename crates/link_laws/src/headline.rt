//! The main theorem: what is received of what was sent, by the contracts of `Sender`, `send_each` and `receive` together.
//!
//! These calls are to be read rather than used. Each is a few calls of `link` in a row, proved by their contracts and the laws of this
//! crate. There are two parts, since the bytes of a line exist only once they are written:
//!
//! - What senders in turn leave is the line of a run of these sends, each perhaps interrupted at any byte: `send_in_turn`,
//!   `send_each_in_turn`.
//! - A receiver of the line of a run reports what `told` says of it: `receive_run`, and by values `receive_values`.
//!
//! How the bytes get from one to the other is the caller's own; `example_exchange` does it over memory. Each call also states all that
//! its calls of `link` promise, whatever comes and however it ends.
ghost use Rattle.std.specs.Prelude.{◌≡◌, ◌<◌, List, length, Some};
ghost use Rattle.link.specs.Fates.{SenderFitsInMemory, new_sender};
ghost use Rattle.link_laws.specs.Together.{LeavesTwo, LeavesSessions, HearsValues};
ghost use Rattle.std.specs.List.{AllZip};
ghost use Rattle.link.specs.Pushes.{Matches};
ghost use Rattle.link.specs.Run.{Send, IsRun, line, told};
ghost use Rattle.link.specs.Listening.{ReceiverFitsInMemory, IsReceivedBy, IsReceivedByOwned, ordinary};
ghost use Rattle.line_io.specs.declared.transfers.End.TheVariants.{Ended};

use line_io::{Inlet, Outlet};
use link::{
    Fate, Received, SendError, Sender, receive_owned, receive_with_sentinel,
    send_each_with_sentinel,
};
use postcard::{DeserializeOwned, Lawful};
use std::alloc::Global;

/// As `receive`; if the reader gives the line of a run, the results are what `told` says of the run.
///
/// # Requires
/// A receiver of N bytes fits in memory (`ReceiverFitsInMemory`); a concrete N costs nothing.
///
/// # Allocates
/// The list, and what the values need.
///
/// # Example
/// ```rust
/// let all = headline::receive_run::<u32, _, 16>(rt.alloc(), In::new(&LINE, 2, None));
/// check(&rt, hears(&all, &[Answer::Damaged, Answer::Value(300)]));
/// ```
pub fn receive_run<T: DeserializeOwned, R: Inlet, const N: usize>(
    alloc: Global,
    reader: R,
) -> Received<T, R>
    requires { ReceiverFitsInMemory N.row }
    ensures run { (run : List (List Send)) → IsRun T.form.takes N 0 run
        → (R.line reader).told ≡ Some (line 0 run) → result.end ≡ Ended
        → AllZip (Matches T.form.reads) result.answers.items (told 0 run) }
    ensures received { IsReceivedBy (ordinary T.form) N 0 R.line reader result }
{
    receive_run_with_sentinel::<T, R, N>(alloc, reader, 0)
}

/// As `receive_run`, with this sentinel.
///
/// # Requires
/// A receiver of N bytes fits in memory (`ReceiverFitsInMemory`); a concrete N costs nothing.
///
/// # Allocates
/// The list, and what the values need.
pub fn receive_run_with_sentinel<T: DeserializeOwned, R: Inlet, const N: usize>(
    alloc: Global,
    reader: R,
    sentinel: u8,
) -> Received<T, R>
    requires { ReceiverFitsInMemory N.row }
    ensures run { (run : List (List Send)) → IsRun T.form.takes N sentinel run
        → (R.line reader).told ≡ Some (line sentinel run) → result.end ≡ Ended
        → AllZip (Matches T.form.reads) result.answers.items (told sentinel run) }
    ensures received { IsReceivedBy (ordinary T.form) N sentinel R.line reader result }
{
    crate::told::<T>();
    receive_with_sentinel::<T, R, N>(alloc, reader, sentinel)
}

/// As `receive_run`, by `receive_owned`, with a limit that is set at run time.
///
/// # Allocates
/// The receiver's buffer, the list, and what the values need.
pub fn receive_owned_run<T: DeserializeOwned, R: Inlet>(
    alloc: Global,
    reader: R,
    limit: usize,
    sentinel: u8,
) -> Received<T, R>
    ensures run { (run : List (List Send)) → IsRun T.form.takes limit sentinel run
        → (R.line reader).told ≡ Some (line sentinel run) → result.end ≡ Ended
        → AllZip (Matches T.form.reads) result.answers.items (told sentinel run) }
    ensures received { IsReceivedByOwned (ordinary T.form) limit sentinel R.line reader result }
{
    crate::told::<T>();
    receive_owned(alloc, reader, limit, sentinel)
}

/// As `receive`; if the reader gives the line of a run of values with frames of at most N bytes, the results are what `told` says of the
/// run, and the values among them are alike those sent.
///
/// # Requires
/// A receiver of N bytes fits in memory (`ReceiverFitsInMemory`); a concrete N costs nothing.
///
/// # Allocates
/// The list, and what the values need.
///
/// # Example
/// ```rust
/// let all = headline::receive_values::<u32, _, 16>(rt.alloc(), In::new(&LINE, 3, None));
/// check(&rt, hears(&all, &[Answer::Damaged, Answer::Value(300)]));
/// ```
pub fn receive_values<T: Lawful + DeserializeOwned, R: Inlet, const N: usize>(
    alloc: Global,
    reader: R,
) -> Received<T, R>
    requires { ReceiverFitsInMemory N.row }
    ensures values { HearsValues T.form N 0 (R.line reader).told result.end
        result.answers.items }
    ensures received { IsReceivedBy (ordinary T.form) N 0 R.line reader result }
{
    receive_values_with_sentinel::<T, R, N>(alloc, reader, 0)
}

/// As `receive_values`, with this sentinel.
///
/// # Requires
/// A receiver of N bytes fits in memory (`ReceiverFitsInMemory`); a concrete N costs nothing.
///
/// # Allocates
/// The list, and what the values need.
pub fn receive_values_with_sentinel<T: Lawful + DeserializeOwned, R: Inlet, const N: usize>(
    alloc: Global,
    reader: R,
    sentinel: u8,
) -> Received<T, R>
    requires { ReceiverFitsInMemory N.row }
    ensures values { HearsValues T.form N sentinel (R.line reader).told result.end
        result.answers.items }
    ensures received { IsReceivedBy (ordinary T.form) N sentinel R.line reader result }
{
    crate::carries::<T>();
    receive_with_sentinel::<T, R, N>(alloc, reader, sentinel)
}

/// The results of two senders in turn, and the writer.
///
/// # Example
/// ```rust
/// fn is_sent_again(all: &InTurn<Out<'_>>) -> bool {
///     is_broken(all.first) && all.second.is_ok() && all.writer.moved() == 7
/// }
/// ```
#[derive(Drop)]
pub struct InTurn<W> {
    /// The result of the first one.
    pub first: Result<(), SendError>,
    /// The result of the second one.
    pub second: Result<(), SendError>,
    /// The writer, after all writes.
    pub writer: W,
}

/// Sends one value by one sender and another value by the next, over one line. What they leave is the line of a run of these two sends,
/// by their results, each perhaps interrupted at any byte.
///
/// # Requires
/// N is at least 1, and the sender fits in memory (`SenderFitsInMemory`); a concrete N costs nothing.
///
/// # Example
/// ```rust
/// let all = headline::send_in_turn::<u32, _, 8>(
///     Out::new(&mut room, 16, Some((2, Fault::Fail))),
///     &300,
///     &300,
/// );
/// let passed = is_sent_again(&all);
/// ```
pub fn send_in_turn<T: Lawful, W: Outlet, const N: usize>(
    writer: W,
    first: &T,
    second: &T,
) -> InTurn<W>
    requires some { 0 < N }
    requires sender { SenderFitsInMemory W.row N.row }
    ensures { LeavesTwo T.form N (new_sender 0 (W.line writer)) (W.line result.writer)
        (first.now, result.first) (second.now, result.second) }
{
    send_in_turn_with_sentinel::<T, W, N>(writer, first, second, 0)
}

/// As `send_in_turn`, with this sentinel.
///
/// # Requires
/// As [`send_in_turn`].
pub fn send_in_turn_with_sentinel<T: Lawful, W: Outlet, const N: usize>(
    writer: W,
    first: &T,
    second: &T,
    sentinel: u8,
) -> InTurn<W>
    requires some { 0 < N }
    requires sender { SenderFitsInMemory W.row N.row }
    ensures { LeavesTwo T.form N (new_sender sentinel (W.line writer)) (W.line result.writer)
        (first.now, result.first) (second.now, result.second) }
{
    crate::carries::<T>();
    let mut one = Sender::<W, N>::new_with_sentinel(writer, sentinel);
    let first = one.send(first);
    let mut other = Sender::<W, N>::new_with_sentinel(one.into_inner(), sentinel);
    let second = other.send(second);
    let writer = other.into_inner();
    InTurn {
        first,
        second,
        writer,
    }
}

/// Sends values by one sender and others by the next, over one line. What they leave is the line of a run of all these sends, by the
/// fate of each, each perhaps interrupted at any byte.
///
/// # Requires
/// As many fates as values, for each sender. N is at least 1, and the sender fits in memory (`SenderFitsInMemory`); a concrete N costs
/// nothing.
pub fn send_each_in_turn<T: Lawful, W: Outlet, const N: usize>(
    writer: W,
    firsts: &[T],
    first_fates: &mut [Fate],
    seconds: &[T],
    second_fates: &mut [Fate],
) -> W
    requires first_places { length firsts.now ≡ length first_fates.old }
    requires second_places { length seconds.now ≡ length second_fates.old }
    requires some { 0 < N }
    requires sender { SenderFitsInMemory W.row N.row }
    ensures { LeavesSessions T.form N (new_sender 0 (W.line writer)) (W.line result)
        (firsts.now, first_fates.new) (seconds.now, second_fates.new) }
{
    send_each_in_turn_with_sentinel::<T, W, N>(
        writer,
        firsts,
        first_fates,
        seconds,
        second_fates,
        0,
    )
}

/// As `send_each_in_turn`, with this sentinel.
///
/// # Requires
/// As [`send_each_in_turn`].
pub fn send_each_in_turn_with_sentinel<T: Lawful, W: Outlet, const N: usize>(
    writer: W,
    firsts: &[T],
    first_fates: &mut [Fate],
    seconds: &[T],
    second_fates: &mut [Fate],
    sentinel: u8,
) -> W
    requires first_places { length firsts.now ≡ length first_fates.old }
    requires second_places { length seconds.now ≡ length second_fates.old }
    requires some { 0 < N }
    requires sender { SenderFitsInMemory W.row N.row }
    ensures { LeavesSessions T.form N (new_sender sentinel (W.line writer)) (W.line result)
        (firsts.now, first_fates.new) (seconds.now, second_fates.new) }
{
    crate::carries::<T>();
    let after_first = send_each_with_sentinel::<T, W, N>(writer, firsts, first_fates, sentinel);
    send_each_with_sentinel::<T, W, N>(after_first, seconds, second_fates, sentinel)
}
