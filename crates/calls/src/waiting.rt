//! Waiting for the reply to a call.
ghost use Rattle.std.specs.Prelude.{◌≡◌, ◌<◌, [], ◌∷◌, length, None, Some, IsSome, true, false, ⊤};
ghost use Rattle.link.specs.Receivers.{SameTerms};
ghost use Rattle.link.specs.Each.{Listens, MayLackMemory, listener_place};
ghost use Rattle.line_io.specs.declared.transfers.End.TheVariants.{ReadFault};
ghost use Rattle.calls.specs.Asking.{asker_of, sender_of};
ghost use Rattle.calls.specs.Waits.{waiter_of, is_over, anew, WaitingHears, WaitsAnew, WaitsUntil, waiting_laws};

use crate::client::Client;
use line_io::{Inlet, Outlet};
use link::{Answer, Decoding, End, Hearer, MessageReader, Reception};
use postcard::Serialize;
use std::alloc::Global;

/// A client and the reply to its call, as a hearer of replies. It has enough if no call is pending.
///
/// Example: see [`Replies`].
#[derive(Drop)]
pub struct Waiting<W, Q, R, const N: usize> {
    /// What has called.
    pub client: Client<W, Q, N>,
    /// The last reply that was accepted, to the call that is over. `wait_with` drops it if another call is pending.
    pub said: Option<R>,
}

impl<W: Outlet, Q: Serialize + Drop, R: Drop, const N: usize> Waiting<W, Q, R, N> {
    // Drops the reply to an earlier call, if a call is pending.
    fn forget(&mut self)
        ensures waiter { waiter_of self.new ≡ anew (waiter_of self.old) }
        ensures sender { sender_of self.new.client ≡ sender_of self.old.client }
    {
        if !self.client.pending().is_none() {
            self.said = None;
        }
    }
}

impl<W: Outlet, Q: Serialize + Drop, R: Drop, const N: usize> Hearer<(u64, R)>
    for Waiting<W, Q, R, N> {
    ghost hears = { WaitingHears };

    ghost laws = { waiting_laws };

    ghost enough = { λ w. is_over (asker_of w.client) };

    ghost settled = { λ w. ⊤ };

    fn hear(&mut self, answer: Answer<(u64, R)>)
        ensures { WaitingHears self.old (answer ∷ []) self.new }
    {
        if let Some(said) = self.client.hear(answer) {
            self.said = Some(said);
        }
    }

    fn pause(&mut self)
        ensures heard { WaitingHears self.old [] self.new }
        ensures settles { ⊤ }
    {}

    fn has_enough(&self) -> bool
        ensures { result ≡ is_over (asker_of self.now.client) }
    {
        self.client.pending().is_none()
    }
}

/// Receives until no call is pending, and returns `None` then; otherwise why reading stopped.
///
/// If the call isn't pending any more its reply is in `said`; if it is, nothing was accepted, and `said` is empty. A reply to an
/// earlier call is dropped first; replies under other numbers are passed over. A read brings at most what `room` holds, and is
/// processed to its end. It uses at most one call of the reader for each byte, and one more; none if no call is pending. Sends
/// nothing.
///
/// # Errors
/// - `Ended`: the reader's end, and the call is pending.
/// - `ReadFault`: a read failed, and the call is pending. The receiver keeps its state: if the reader had nothing yet, for example
///   because of a time limit, call this again, perhaps after `again`.
/// - `NoMemory`: a reply couldn't be allocated, and at least one result is missing. The reply may have been accepted all the same,
///   in the same read.
///
/// # Requires
/// `room`, the buffer for reads, isn't empty.
///
/// # Allocates
/// What the replies need.
///
/// # Example
/// ```rust
/// check(&rt, waiting.client.call(said).is_ok());
/// let end = wait_with(
///     rt.alloc(),
///     &mut receiver,
///     &Ordinary(OfType),
///     &mut reader,
///     &mut waiting,
///     &mut room,
/// );
/// check(&rt, end.is_none());
/// check(&rt, is_reply(waiting.said.take(), said));
/// ```
pub fn wait_with<
    Q: Serialize + Drop,
    R: Drop,
    M: MessageReader<(u64, R)>,
    W: Outlet,
    I: Inlet,
    D: Decoding,
    const N: usize,
>(
    alloc: Global,
    receiver: &mut Reception<D>,
    messages: &M,
    reader: &mut I,
    waiting: &mut Waiting<W, Q, R, N>,
    room: &mut [u8],
) -> Option<End>
    requires { 0 < length room.old }
    ensures heard { Listens D.inside (M.judging messages.now) WaitsAnew
        (I.line reader.old) (I.line reader.new) receiver.old receiver.new
        waiting.old waiting.new result }
    ensures asked { WaitsUntil D.inside (M.judging messages.now) (length room.old)
        (listener_place I.line reader.old receiver.old waiting.old)
        (listener_place I.line reader.new receiver.new waiting.new) result }
    ensures over { result ≡ None → is_over (asker_of waiting.new.client) ≡ true }
    ensures fault { result ≡ Some ReadFault → is_over (asker_of waiting.new.client) ≡ false }
    ensures taken { is_over (asker_of waiting.old.client) ≡ false
        → is_over (asker_of waiting.new.client) ≡ true → IsSome (waiter_of waiting.new).said }
    ensures untaken { is_over (asker_of waiting.old.client) ≡ false
        → is_over (asker_of waiting.new.client) ≡ false → (waiter_of waiting.new).said ≡ None }
    ensures memory { MayLackMemory (M.judging messages.now).growing result }
    ensures same { SameTerms D.inside receiver.old receiver.new }
{
    waiting.forget();
    receiver.listen_until_with(alloc, messages, reader, waiting, room)
}
