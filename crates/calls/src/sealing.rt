//! Messages under a sum: a changed message, an echo and another interface's message are damage.
ghost use Rattle.std.specs.Prelude.{◌≡◌, [], ◌∷◌};
ghost use Rattle.calls.specs.Sealing.{compared, HearsCompared, compared_laws, replied_inside, compared_reply, HearsReplies, replies_laws, ExecutesNumbered, passes_numbered};

use crate::server::Application;
use link::{Answer, Hearer};
use sealed::Keyed;

/// A request or a reply with a second copy of its call's number, and a sum of both under the key of the interface.
///
/// The key is one number for both sides, and no line carries it. A message under another key is damage: of the same type always, of
/// another type but for one case in 2^32. The number inside is compared with the one outside by [`Checked`] and [`Replies`].
///
/// # Example
/// ```rust
/// type Message = Numbered<u32, KEY>;
/// ```
pub type Numbered<T, const KEY: u32> = Keyed<(u64, T), KEY>;

/// A hearer of requests, for a server: passes a message on as `Damaged` if the number inside isn't the one outside, and everything
/// else as it is.
///
/// # Example
/// ```rust
/// let mut server = Checked {
///     hearer: Service {
///         application: Numbering {
///             application: Adder { sum: 0 },
///         },
///         server: Server::<_, Message, Message, FRAME>::new(Sender::new(Writes::new(
///             rt.stdout(),
///         ))),
///         unsent: false,
///     },
/// };
/// ```
#[derive(Drop)]
pub struct Checked<H> {
    /// What receives the compared results.
    pub hearer: H,
}

// A result of the line, damaged if its two numbers differ.
fn compare<T: Drop, const KEY: u32>(
    answer: Answer<(u64, Numbered<T, KEY>)>,
) -> Answer<(u64, Numbered<T, KEY>)>
    ensures { result ≡ compared answer }
{
    if let Answer::Value((number, message)) = &answer {
        if *number != message.0.0 {
            return Answer::Damaged;
        }
    }
    answer
}

impl<T: Drop, H: Hearer<(u64, Numbered<T, KEY>)>, const KEY: u32> Hearer<(u64, Numbered<T, KEY>)>
    for Checked<H> {
    ghost hears = { HearsCompared H.hears };

    ghost laws = { compared_laws H.hears H.laws };

    ghost enough = { λ c. H.enough c.hearer };

    ghost settled = { λ c. H.settled c.hearer };

    fn hear(&mut self, answer: Answer<(u64, Numbered<T, KEY>)>)
        ensures { HearsCompared H.hears self.old (answer ∷ []) self.new }
    {
        self.hearer.hear(compare(answer));
    }

    fn pause(&mut self)
        ensures heard { HearsCompared H.hears self.old [] self.new }
        ensures settles { H.settled self.new.hearer }
    {
        self.hearer.pause();
    }

    fn has_enough(&self) -> bool
        ensures { result ≡ H.enough self.now.hearer }
    {
        self.hearer.has_enough()
    }
}

// The number inside a reply to the call with this number: one above it, so that no reply is encoded as a request.
fn inside_reply(number: u64) -> u64
    ensures { result ≡ replied_inside number }
{
    if number == u64::MAX {
        return 0;
    }
    number + 1
}

/// A hearer of replies, for a client: passes a message on as `Damaged` if the number inside isn't the one after the number outside,
/// and everything else as it is.
///
/// So a request that the line gives back, as a line with two wires does, isn't taken for a reply.
///
/// # Example
/// ```rust
/// let mut asking = Replies {
///     hearer: Waiting::<_, Message, Message, FRAME> {
///         client: Client::new(sender, number),
///         said: None,
///     },
/// };
/// ```
#[derive(Drop)]
pub struct Replies<H> {
    /// What receives the compared results.
    pub hearer: H,
}

// A reply, damaged if its number inside isn't the one after the number outside.
fn compare_reply<T: Drop, const KEY: u32>(
    answer: Answer<(u64, Numbered<T, KEY>)>,
) -> Answer<(u64, Numbered<T, KEY>)>
    ensures { result ≡ compared_reply answer }
{
    if let Answer::Value((number, message)) = &answer {
        if inside_reply(*number) != message.0.0 {
            return Answer::Damaged;
        }
    }
    answer
}

impl<T: Drop, H: Hearer<(u64, Numbered<T, KEY>)>, const KEY: u32> Hearer<(u64, Numbered<T, KEY>)>
    for Replies<H> {
    ghost hears = { HearsReplies H.hears };

    ghost laws = { replies_laws H.hears H.laws };

    ghost enough = { λ c. H.enough c.hearer };

    ghost settled = { λ c. H.settled c.hearer };

    fn hear(&mut self, answer: Answer<(u64, Numbered<T, KEY>)>)
        ensures { HearsReplies H.hears self.old (answer ∷ []) self.new }
    {
        self.hearer.hear(compare_reply(answer));
    }

    fn pause(&mut self)
        ensures heard { HearsReplies H.hears self.old [] self.new }
        ensures settles { H.settled self.new.hearer }
    {
        self.hearer.pause();
    }

    fn has_enough(&self) -> bool
        ensures { result ≡ H.enough self.now.hearer }
    {
        self.hearer.has_enough()
    }
}

/// An application for [`Numbered`] messages: executes what was asked, and puts the number after the request's into the reply, 0
/// into a notice.
///
/// Example: see [`Checked`].
#[derive(Drop)]
pub struct Numbering<A> {
    /// What executes the requests without their numbers.
    pub application: A,
}

impl<Q, R, A: Application<Q, R>, const KEY: u32> Application<Numbered<Q, KEY>, Numbered<R, KEY>>
    for Numbering<A> {
    ghost executes = { ExecutesNumbered A.executes };

    ghost passes = { λ number last. passes_numbered (A.passes number last) };

    fn execute(&mut self, request: &Numbered<Q, KEY>) -> Numbered<R, KEY>
        ensures { ExecutesNumbered A.executes self.old request.now result self.new }
    {
        let Keyed((number, asked)) = request;
        Keyed((inside_reply(*number), self.application.execute(asked)))
    }

    fn pass(number: u64, last: u64) -> Option<Numbered<R, KEY>>
        ensures { result ≡ passes_numbered (A.passes number last) }
    {
        match A::pass(number, last) {
            None => None,
            Some(said) => Some(Keyed((0, said))),
        }
    }
}
