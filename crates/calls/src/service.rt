//! A server as a hearer.
ghost use Rattle.std.specs.Prelude.{◌≡◌, [], ◌∷◌, false, ⊤};
ghost use Rattle.link.specs.Senders.{sender_place, HasSent};
ghost use Rattle.calls.specs.Serving.{sender_of, serving, service_state, TakesAnswer, ServiceHears, unsent_by, unsent_by_result};
ghost use Rattle.calls.specs.ServedLaws.{service_laws};

use crate::server::{Application, Served, Server};
use line_io::Outlet;
use link::{Answer, Hearer, SendError};
use postcard::{Readable, Serialize};

/// An application and the server that executes its requests, as a hearer of requests.
///
/// Example: see [`Checked`].
#[derive(Drop)]
pub struct Service<A, W, Q, R, const N: usize> {
    /// What executes the requests.
    pub application: A,
    /// What keeps the last call, and sends the replies.
    pub server: Server<W, Q, R, N>,
    /// Whether a reply or a notice wasn't sent whole since the caller put `false` here.
    pub unsent: bool,
}

// Whether a reply wasn't sent whole, this one included.
fn after_sending(unsent: bool, sent: Result<(), SendError>) -> bool
    ensures { result ≡ unsent_by_result unsent sent }
{
    match sent {
        Ok(()) => unsent,
        Err(_) => true,
    }
}

// The same, by what the server did.
fn after_serving(unsent: bool, served: Served) -> bool
    ensures { result ≡ unsent_by unsent served }
{
    match served {
        Served::Executed(sent) | Served::Again(sent) => after_sending(unsent, sent),
        Served::Other(Some(sent)) | Served::Passed(Some(sent)) => after_sending(unsent, sent),
        Served::Other(None) | Served::Passed(None) | Served::NoCall => unsent,
    }
}

impl<Q: PartialEq + Drop, R: Serialize + Drop, A, W: Outlet, const N: usize> Service<
    A,
    W,
    Q,
    R,
    N,
> {
    // Processes one result of the line.
    fn take(&mut self, answer: Answer<(u64, Q)>)
    where
        A: Application<Q, R>,
        ensures { TakesAnswer (serving A.executes Q.eq A.passes)
            (service_state W.line self.old) (service_state W.line self.new)
            (sender_of self.new.server ≡ sender_of self.old.server)
            (λ p r. HasSent N (⟦<(u64, R) as Readable>⟧.form.writes p)
            (⟦<(u64, R) as Readable>⟧.form.valid p)
            (sender_place W.line (sender_of self.old.server))
            (sender_place W.line (sender_of self.new.server)) r)
            answer }
    {
        if let Answer::Value((number, request)) = answer {
            let served = self.server.answer(&mut self.application, number, request);
            self.unsent = after_serving(self.unsent, served);
        }
    }
}

impl<
    Q: PartialEq + Drop,
    R: Serialize + Drop,
    A: Application<Q, R>,
    W: Outlet,
    const N: usize,
> Hearer<(u64, Q)> for Service<A, W, Q, R, N> {
    ghost hears = { λ old answers new. ServiceHears (serving A.executes Q.eq A.passes) W.line
        ⟦<(u64, R) as Readable>⟧.form old answers new };

    ghost laws = { service_laws (serving A.executes Q.eq A.passes) W.line
        ⟦<(u64, R) as Readable>⟧.form };

    ghost enough = { λ s. false };

    ghost settled = { λ s. ⊤ };

    fn hear(&mut self, answer: Answer<(u64, Q)>)
        ensures { ServiceHears (serving A.executes Q.eq A.passes) W.line
            ⟦<(u64, R) as Readable>⟧.form self.old (answer ∷ []) self.new }
    {
        self.take(answer);
    }

    fn pause(&mut self)
        ensures heard { ServiceHears (serving A.executes Q.eq A.passes) W.line
            ⟦<(u64, R) as Readable>⟧.form self.old [] self.new }
        ensures settles { ⊤ }
    {}

    fn has_enough(&self) -> bool
        ensures { result ≡ false }
    {
        false
    }
}
