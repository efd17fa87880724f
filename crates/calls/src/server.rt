//! Executing requests, each number at most once.
ghost use Rattle.std.specs.Prelude.{◌≡◌, ℕ, Option, Some, None};
ghost use Rattle.link.specs.Senders.{writer_of, clean_of, sentinel_of, sender_place, HasSent};
ghost use Rattle.calls.specs.Calls.{Execution};
ghost use Rattle.calls.specs.Serving.{kept_as, kept_of, sender_of, IsStanding, IsServed, IsPassed, IsReplied};

use line_io::Outlet;
use link::{SendError, Sender};
use postcard::{Readable, Serialize};

/// What a server executes requests with.
///
/// # Example
/// ```rust
/// impl Application<u32, u32> for Adder {
///     ghost executes = { λ old asks says new. ⊤ };
///
///     ghost passes = { λ number last. None };
///
///     fn execute(&mut self, amount: &u32) -> u32
///         ensures { ⊤ }
///     {
///         self.sum = self.sum.saturating_add(*amount);
///         self.sum
///     }
///
///     fn pass(_number: u64, _last: u64) -> Option<u32>
///         ensures { result ≡ None }
///     {
///         None
///     }
/// }
/// ```
pub trait Application<Q, R> {
    /// The effect of a request on the application, and its reply.
    ghost executes: { Self → Q → R → Self → Type 0 };

    /// The notice for a request that is passed over, by its number and that of the last call; or nothing.
    ghost passes: { ℕ → ℕ → Option R };

    /// Executes a request, and returns what its reply says. The server keeps the request, to recognise it if it comes again.
    fn execute(&mut self, request: &Q) -> R
        ensures { executes self.old request.now result self.new };

    /// The notice for a request that isn't executed, because the last executed call has the number `last`, which is the same or
    /// higher. It is sent under the greatest number, which no call has, so that the client learns why no reply comes. `None`:
    /// nothing is sent.
    fn pass(number: u64, last: u64) -> Option<R>
        ensures { result ≡ passes number last };
}

/// What a server did with a request.
///
/// # Example
/// ```rust
/// match served {
///     Served::Executed(sent) => match sent {
///         Ok(()) => 'E',
///         Err(SendError::Line) => 'e',
///         Err(_) => '?',
///     },
/// ```
#[derive(Clone, Copy, PartialEq, Debug, Drop)]
pub enum Served {
    /// It was executed, and its reply was sent, with this result of the sender.
    Executed(Result<(), SendError>),
    /// It is the last one executed, by its number and the `==` of its type: its reply was sent again.
    Again(Result<(), SendError>),
    /// Another request was executed under the same number: nothing was done. The notice was sent, if the application has one; not the
    /// kept reply, which this request's client would take for its own.
    Other(Option<Result<(), SendError>>),
    /// Its number is below the last one: nothing was done. The notice was sent, if the application has one.
    Passed(Option<Result<(), SendError>>),
    /// Its number is the greatest, which no call has: nothing was done or sent.
    NoCall,
}

// A request compared with the last one that was executed: under the greatest number, under a higher one than the last, the same
// request, another one under the same number, or under a lower number than the last.
#[derive(Clone, Copy)]
enum Standing {
    Greatest,
    Above,
    Same,
    Changed,
    Below(u64),
}

/// The call that a server executed last.
///
/// Example: see [`Server::resume`].
#[derive(Drop)]
pub struct LastCall<Q, R> {
    /// The request.
    pub request: Q,
    /// The call's number, and its reply.
    pub reply: (u64, R),
}

/// Executes requests whose numbers are above those before, and replies.
///
/// **By itself it takes its own replies for requests** if the line gives back what is sent and a reply can be read as a request. It
/// executes none, since each has its call's number, but sends a reply that equals its request again and again. It also executes
/// what damage or another program made of a message. Take [`Numbered`](crate::Numbered) requests and put
/// [`Checked`](crate::Checked) before its [`Service`](crate::Service): no echo is taken for a request then, and of the others only
/// what meets its CRC-32 by chance.
///
/// Example: see [`Server::resume`].
#[derive(Drop)]
pub struct Server<W, Q, R, const N: usize> {
    pub(crate) sender: Sender<W, N>,
    pub(crate) last: Option<LastCall<Q, R>>,
}

impl<W: Outlet, Q: PartialEq + Drop, R: Serialize + Drop, const N: usize> Server<W, Q, R, N> {
    /// A server that has executed nothing, and sends its replies by this sender.
    pub fn new(sender: Sender<W, N>) -> Server<W, Q, R, N>
        ensures kept { kept_of result ≡ None }
        ensures sender { sender_of result ≡ sender }
    {
        Server { sender, last: None }
    }

    /// A server that continues after the call `last` of an earlier server, if there is one: neither that call nor a lower number is
    /// executed again, also after a restart.
    ///
    /// # Example
    /// ```rust
    /// let last = LastCall {
    ///     request: 4u64,
    ///     reply: (9, 4u64),
    /// };
    /// let mut server = Server::<Line, u64, u64, 16>::resume(sender(rt.alloc(), 0), Some(last));
    /// ```
    pub fn resume(sender: Sender<W, N>, last: Option<LastCall<Q, R>>) -> Server<W, Q, R, N>
        ensures kept { kept_of result ≡ kept_as last }
        ensures sender { sender_of result ≡ sender }
    {
        Server { sender, last }
    }

    /// The call that was executed last, if there is one; `resume` continues after it.
    pub fn last(&self) -> &Option<LastCall<Q, R>>
        ensures { kept_as result.now ≡ kept_of self.now }
    {
        &self.last
    }

    /// Executes a request if its number is new, and sends the reply.
    ///
    /// | Number | What happens | Returns |
    /// |---|---|---|
    /// | above the last executed one | executed; the reply is kept and sent | `Executed` |
    /// | the last one, the same request | the kept reply is sent again | `Again` |
    /// | the last one, another request | not executed; the notice is sent, if there is one | `Other` |
    /// | below the last one | the same | `Passed` |
    /// | the greatest, which no call has | nothing is done or sent | `NoCall` |
    ///
    /// The notice is [`Application::pass`]. Requests are compared by the `==` of their type: one that isn't equal to itself, such
    /// as NaN, gets no second reply. A reply that couldn't be sent is kept too, so the client can ask again. Allocates nothing of
    /// its own.
    ///
    /// # Example
    /// ```rust
    /// letter(server.answer(&mut adder, 9, 4u32)) == 'E'
    ///     && letter(server.answer(&mut adder, 8, 4u32)) == 'P'
    ///     && letter(server.answer(&mut adder, 9, 70u32)) == 'O'
    ///     && letter(server.answer(&mut adder, 9, 4u32)) == 'A'
    ///     && letter(server.answer(&mut adder, 10, 1u32)) == 'E'
    ///     && adder.executed == 2
    /// ```
    pub fn answer<A: Application<Q, R>>(
        &mut self,
        application: &mut A,
        number: u64,
        request: Q,
    ) -> Served
        ensures served { IsServed A.executes Q.eq (application.old, kept_of self.old)
            (application.new, kept_of self.new) (number, request) result }
        ensures replied { IsReplied A.passes (sender_of self.new ≡ sender_of self.old)
            (λ p r. HasSent N (⟦<(u64, R) as Readable>⟧.form.writes p)
            (⟦<(u64, R) as Readable>⟧.form.valid p)
            (sender_place W.line (sender_of self.old))
            (sender_place W.line (sender_of self.new)) r)
            (kept_of self.new) number result }
    {
        match self.standing(number, &request) {
            Standing::Above => {
                let reply = (number, application.execute(&request));
                let sent = self.sender.send(&reply);
                self.last = Some(LastCall { request, reply });
                Served::Executed(sent)
            }
            Standing::Same => Served::Again(self.send_last()),
            Standing::Changed => Served::Other(self.say_passed::<A>(number, number)),
            Standing::Below(last) => Served::Passed(self.say_passed::<A>(number, last)),
            Standing::Greatest => Served::NoCall,
        }
    }

    // Compares a request with the last one that was executed.
    fn standing(&self, number: u64, request: &Q) -> Standing
        ensures { IsStanding Q.eq (kept_of self.now) number request.now result }
    {
        if number == u64::MAX {
            return Standing::Greatest;
        }
        match &self.last {
            None => Standing::Above,
            Some(last) => {
                if number < last.reply.0 {
                    return Standing::Below(last.reply.0);
                }
                if number > last.reply.0 {
                    return Standing::Above;
                }
                if last.request == *request {
                    return Standing::Same;
                }
                Standing::Changed
            }
        }
    }

    // Sends the kept reply, if there is one.
    fn send_last(&mut self) -> Result<(), SendError>
        ensures sent { (e : Execution Q R) → kept_of self.old ≡ Some e
            → HasSent N (⟦<(u64, R) as Readable>⟧.form.writes (e.number, e.says))
            (⟦<(u64, R) as Readable>⟧.form.valid (e.number, e.says))
            (sender_place W.line (sender_of self.old))
            (sender_place W.line (sender_of self.new)) result }
        ensures kept { kept_of self.new ≡ kept_of self.old }
    {
        match &self.last {
            None => Ok(()),
            Some(last) => self.sender.send(&last.reply),
        }
    }

    // Sends the notice for a request that is passed over, if the application has one.
    fn say_passed<A: Application<Q, R>>(
        &mut self,
        number: u64,
        last: u64,
    ) -> Option<Result<(), SendError>>
        ensures passed { IsPassed (A.passes number last) (sender_of self.new ≡ sender_of self.old)
            (λ p r. HasSent N (⟦<(u64, R) as Readable>⟧.form.writes p)
            (⟦<(u64, R) as Readable>⟧.form.valid p)
            (sender_place W.line (sender_of self.old))
            (sender_place W.line (sender_of self.new)) r) result }
        ensures kept { kept_of self.new ≡ kept_of self.old }
    {
        match A::pass(number, last) {
            None => None,
            Some(said) => Some(self.sender.send(&(u64::MAX, said))),
        }
    }

    /// The writer of the sender.
    pub fn get_ref(&self) -> &W
        ensures { result.now ≡ writer_of (sender_of self.now) }
    {
        self.sender.get_ref()
    }

    /// Replaces the writer, for example after a line broke, and returns the old one with all that was written to it.
    ///
    /// The last call is kept. Further bytes must follow those that were sent before.
    pub fn replace_inner(&mut self, writer: W) -> W
        ensures before { result ≡ writer_of (sender_of self.old) }
        ensures writer { writer_of (sender_of self.new) ≡ writer }
        ensures clean { clean_of (sender_of self.new) ≡ clean_of (sender_of self.old) }
        ensures sentinel { sentinel_of (sender_of self.new) ≡ sentinel_of (sender_of self.old) }
        ensures kept { kept_of self.new ≡ kept_of self.old }
    {
        self.sender.replace_inner(writer)
    }

    /// Returns the writer, with all that was written to it.
    pub fn into_inner(self) -> W
        ensures { result ≡ writer_of (sender_of self) }
    {
        let Server { sender, last: _ } = self;
        sender.into_inner()
    }
}
