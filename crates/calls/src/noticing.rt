//! Receiving the notice for a request that was passed over.
ghost use Rattle.std.specs.Prelude.{◌≡◌, [], ◌∷◌};
ghost use Rattle.calls.specs.Notices.{told_apart, HearsOthers, enough_noticed, notices_laws};

use link::{Answer, Hearer};

/// A hearer that takes the notices out of the replies, keeps the last one, and passes everything else on.
///
/// A notice comes under the greatest number, which no call has: it is what the server's application says of a request that was
/// passed over ([`Application::pass`](crate::Application::pass)). It has enough while it keeps a notice, or if its hearer has.
/// A notice may be of an earlier request, so it has to say of which.
///
/// # Example
/// ```rust
/// let mut asking = Noticing {
///     hearer: Waiting { client, said: None },
///     notice: None,
/// };
/// asking.hear(Answer::Value((u64::MAX, 9u64)));
/// check(&rt, asking.has_enough());
/// check(&rt, is_number(asking.notice.take(), 9));
/// ```
#[derive(Drop)]
pub struct Noticing<H, R> {
    /// What receives everything else.
    pub hearer: H,
    /// The last notice, until the caller takes it.
    pub notice: Option<R>,
}

// A notice, or another result.
fn notice_of<R>(answer: Answer<(u64, R)>) -> Result<R, Answer<(u64, R)>>
    ensures { result ≡ told_apart answer }
{
    match answer {
        Answer::Value((number, said)) => {
            if number == u64::MAX {
                return Ok(said);
            }
            Err(Answer::Value((number, said)))
        }
        Answer::Damaged => Err(Answer::Damaged),
        Answer::TooLong => Err(Answer::TooLong),
        Answer::Cut => Err(Answer::Cut),
    }
}

impl<R: Drop, H: Hearer<(u64, R)>> Hearer<(u64, R)> for Noticing<H, R> {
    ghost hears = { HearsOthers H.hears };

    ghost laws = { notices_laws H.hears H.laws };

    ghost enough = { λ n. enough_noticed n.notice (H.enough n.hearer) };

    ghost settled = { λ n. H.settled n.hearer };

    fn hear(&mut self, answer: Answer<(u64, R)>)
        ensures { HearsOthers H.hears self.old (answer ∷ []) self.new }
    {
        match notice_of(answer) {
            Ok(said) => self.notice = Some(said),
            Err(other) => self.hearer.hear(other),
        }
    }

    fn pause(&mut self)
        ensures heard { HearsOthers H.hears self.old [] self.new }
        ensures settles { H.settled self.new.hearer }
    {
        self.hearer.pause();
    }

    fn has_enough(&self) -> bool
        ensures { result ≡ enough_noticed self.now.notice (H.enough self.now.hearer) }
    {
        if self.notice.is_some() {
            return true;
        }
        self.hearer.has_enough()
    }
}
