//! Calling, and calling again.
ghost use Rattle.std.specs.Prelude.{◌≡◌, ◌↔◌, IsTrue, ℕ, ◌<◌, Some, None, false, MatchOption};
ghost use Rattle.link.specs.declared.receiver.Answer.TheVariants.{Value};
ghost use Rattle.link.specs.Senders.{writer_of, clean_of, sentinel_of, sender_place, HasSent};
ghost use Rattle.calls.specs.Asking.{asker_of, sender_of, number_of, stepped, ends, IsCalled, IsRepeated};

use crate::client::{CallError, Client};
use line_io::Outlet;
use link::{Answer, SendError, Sender};
use postcard::{Readable, Serialize};

impl<W: Outlet, Q: Serialize + Drop, const N: usize> Client<W, Q, N> {
    /// A client that sends its requests by this sender, and whose first call has the number `first`.
    ///
    /// `first` must be above all numbers that the server has received, for example from a file: lower ones are passed over.
    pub fn new(sender: Sender<W, N>, first: u64) -> Client<W, Q, N>
        ensures asker { asker_of result ≡ record { next = first; pending = None } }
        ensures sender { sender_of result ≡ sender }
    {
        Client {
            sender,
            next: first,
            pending: None,
        }
    }

    /// The number of the next call. If it is the greatest `u64`, no number is left.
    pub fn next(&self) -> u64
        ensures { result ≡ (asker_of self.now).next }
    {
        self.next
    }

    /// The number of the pending call, if there is one.
    pub fn pending(&self) -> Option<u64>
        ensures { result ≡ number_of (asker_of self.now).pending }
    {
        match &self.pending {
            Some(pending) => Some(pending.0),
            None => None,
        }
    }

    /// Sends a request under the next number; the call is pending until its reply is accepted.
    ///
    /// An earlier call that is pending is given up: its reply isn't accepted any more. Allocates nothing.
    ///
    /// # Errors
    /// - `Full`: no number is left. Nothing was sent, and nothing has changed.
    /// - `Unsent(Refused)`: the request can't be encoded, or its frame has more than N bytes. Nothing was sent, and nothing has
    ///   changed.
    /// - `Unsent(Line)`: a write failed. The call is pending all the same, since the server may have received it; `again` repeats
    ///   it.
    ///
    /// # Example
    /// ```rust
    /// let mut client = Client::<Line, u32, 4>::new(sender(rt.alloc(), 0), 5);
    /// let sent = client.call(u32::MAX);
    /// check(
    ///     &rt,
    ///     matches!(sent, Err(CallError::Unsent(SendError::Refused(_)))),
    /// );
    /// check(&rt, client.pending().is_none());
    /// ```
    pub fn call(&mut self, request: Q) -> Result<(), CallError>
        ensures called { IsCalled (asker_of self.old) (asker_of self.new) request result
            (sender_of self.new ≡ sender_of self.old)
            (λ p r. HasSent N (⟦<(u64, Q) as Readable>⟧.form.writes p)
            (⟦<(u64, Q) as Readable>⟧.form.valid p)
            (sender_place W.line (sender_of self.old))
            (sender_place W.line (sender_of self.new)) r) }
    {
        if self.next == u64::MAX {
            return Err(CallError::Full);
        }
        let pending = (self.next, request);
        match self.sender.send(&pending) {
            Ok(()) => {
                self.next += 1;
                self.pending = Some(pending);
                Ok(())
            }
            Err(SendError::Line) => {
                self.next += 1;
                self.pending = Some(pending);
                Err(CallError::Unsent(SendError::Line))
            }
            Err(SendError::Refused(error)) => Err(CallError::Unsent(SendError::Refused(error))),
        }
    }

    /// Sends the pending call again, under its number. The server executes it at most once, however often it is sent.
    ///
    /// # Errors
    /// - `Idle`: no call is pending. Nothing was sent.
    /// - `Unsent`: as for `call`. The call stays pending.
    ///
    /// # Example
    /// ```rust
    /// check(&rt, client.call(7).is_ok());
    /// check(&rt, client.again().is_ok());
    /// ```
    pub fn again(&mut self) -> Result<(), CallError>
        ensures repeated { IsRepeated (asker_of self.old) (asker_of self.new) result
            (sender_of self.new ≡ sender_of self.old)
            (λ p r. HasSent N (⟦<(u64, Q) as Readable>⟧.form.writes p)
            (⟦<(u64, Q) as Readable>⟧.form.valid p)
            (sender_place W.line (sender_of self.old))
            (sender_place W.line (sender_of self.new)) r) }
    {
        match &self.pending {
            None => Err(CallError::Idle),
            Some(pending) => match self.sender.send(pending) {
                Ok(()) => Ok(()),
                Err(error) => Err(CallError::Unsent(error)),
            },
        }
    }

    // Whether the pending call has this number.
    fn is_pending(&self, number: u64) -> bool
        ensures { IsTrue result ↔ (number_of (asker_of self.now).pending ≡ Some number) }
    {
        match &self.pending {
            Some(pending) => pending.0 == number,
            None => false,
        }
    }

    /// Processes a result of the line, and returns the reply if this is the one to the pending call, which is over then.
    ///
    /// Anything else changes nothing, and the result is `None`: damage, and replies under other numbers.
    ///
    /// # Example
    /// ```rust
    /// client.hear::<u32>(Answer::Damaged).is_none()
    ///     && client.hear(Answer::Value((4, 3u32))).is_none()
    ///     && client.hear(Answer::Value((6, 3u32))).is_none()
    ///     && is_reply(client.hear(Answer::Value((5, 3u32))), 3)
    ///     && client.hear(Answer::Value((5, 3u32))).is_none()
    /// ```
    pub fn hear<R: Drop>(&mut self, answer: Answer<(u64, R)>) -> Option<R>
        ensures accepts { MatchOption result (asker_of self.new ≡ asker_of self.old)
            (λ said. (n : ℕ) × (q : Q) × ((asker_of self.old).pending ≡ Some (n, q))
            × (answer ≡ Value (n, said)) × (asker_of self.new ≡ stepped (asker_of self.old) ends)) }
        ensures taken { (n : ℕ) (q : Q) (said : R) → (asker_of self.old).pending ≡ Some (n, q)
            → answer ≡ Value (n, said) → result ≡ Some said }
        ensures sender { sender_of self.new ≡ sender_of self.old }
    {
        let Answer::Value((number, said)) = answer else {
            return None;
        };
        if !self.is_pending(number) {
            return None;
        }
        self.pending = None;
        Some(said)
    }

    /// Gives up the pending call: its reply isn't accepted any more.
    pub fn give_up(&mut self)
        ensures asker { asker_of self.new ≡ stepped (asker_of self.old) ends }
        ensures sender { sender_of self.new ≡ sender_of self.old }
    {
        self.pending = None;
    }

    /// The writer of the sender.
    pub fn get_ref(&self) -> &W
        ensures { result.now ≡ writer_of (sender_of self.now) }
    {
        self.sender.get_ref()
    }

    /// Replaces the writer, for example after a line broke, and returns the old one with all that was written to it.
    ///
    /// The pending call stays, and `again` sends it by the new writer. Further bytes must follow those that were sent before.
    pub fn replace_inner(&mut self, writer: W) -> W
        ensures before { result ≡ writer_of (sender_of self.old) }
        ensures writer { writer_of (sender_of self.new) ≡ writer }
        ensures clean { clean_of (sender_of self.new) ≡ clean_of (sender_of self.old) }
        ensures sentinel { sentinel_of (sender_of self.new) ≡ sentinel_of (sender_of self.old) }
        ensures asker { asker_of self.new ≡ asker_of self.old }
    {
        self.sender.replace_inner(writer)
    }

    /// Returns the writer, with all that was written to it.
    pub fn into_inner(self) -> W
        ensures { result ≡ writer_of (sender_of self) }
    {
        let Client {
            sender,
            next: _,
            pending: _,
        } = self;
        sender.into_inner()
    }
}
