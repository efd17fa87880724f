//! What hears vectors that were sent in turn, of which some may be lost: one for which no memory was found, and those in whose
//! frame nobody listened.
ghost use Rattle.std.specs.Prelude.{◌≡◌, false, ⊤};
ghost use Rattle.link.specs.Each.{HeardAnyhow, heard_anyhow};

use link::{Answer, Hearer};

/// How many of the vectors that were sent were received, in their order.
#[derive(Drop)]
pub struct Hearing {
    sent: &'static [&'static [u8]],
    pub heard: usize,
    /// Where the next one may stand.
    pub next: usize,
    pub pauses: usize,
    /// Whether nothing else was received.
    pub is_right: bool,
}

impl Hearing {
    pub fn new(sent: &'static [&'static [u8]]) -> Hearing {
        Hearing {
            sent,
            heard: 0,
            next: 0,
            pauses: 0,
            is_right: true,
        }
    }

    /// Whether so many were received, and no other before the last of them.
    pub fn has_first(&self, count: usize) -> bool {
        self.is_right && self.heard == count && self.next == count
    }
}

// Where a vector stands among those that were sent, from this place on.
fn place_of(answer: &Answer<Vec<u8>>, sent: &[&[u8]], from: usize) -> Option<usize> {
    let Answer::Value(value) = answer else {
        return None;
    };
    for (at, bytes) in sent.iter().enumerate() {
        if from <= at && value.as_slice() == *bytes {
            return Some(at);
        }
    }
    None
}

impl Hearer<Vec<u8>> for Hearing {
    ghost hears = { HeardAnyhow };

    ghost laws = { heard_anyhow };

    ghost enough = { λ h. false };

    ghost settled = { λ _. ⊤ };

    fn hear(&mut self, answer: Answer<Vec<u8>>)
        ensures { ⊤ }
    {
        match place_of(&answer, self.sent, self.next) {
            Some(at) => {
                self.heard = self.heard.saturating_add(1);
                self.next = at.saturating_add(1);
            }
            None => self.is_right = false,
        }
    }

    fn pause(&mut self)
        ensures heard { ⊤ }
        ensures settles { ⊤ }
    {
        self.pauses = self.pauses.saturating_add(1);
    }

    fn has_enough(&self) -> bool
        ensures { result ≡ false }
    {
        false
    }
}
