//! A list of results, as long as it can be extended.
ghost use Rattle.std.specs.Prelude.{◌≡◌, [], ◌∷◌, ⊤};
ghost use Rattle.link.specs.Firsts.{KeepsFirst, keeps_laws};

use crate::each::Hearer;
use crate::receiver::Answer;

// Keeps the results. Once one has no space, it is full, has had enough, and keeps no more.
#[derive(Drop)]
pub(crate) struct Listed<T> {
    pub answers: Vec<Answer<T>>,
    pub full: bool,
}

impl<T: Drop> Hearer<T> for Listed<T> {
    ghost hears = { λ old answers new.
        KeepsFirst old.answers new.answers old.full new.full answers };

    ghost laws = { keeps_laws (λ l. l.answers) (λ l. l.full) };

    ghost enough = { λ l. l.full };

    ghost settled = { λ _. ⊤ };

    fn hear(&mut self, answer: Answer<T>)
        ensures { KeepsFirst self.old.answers self.new.answers
            self.old.full self.new.full (answer ∷ []) }
    {
        if self.full {
            return;
        }
        if self.answers.reserve(1).is_err() {
            self.full = true;
            return;
        }
        self.answers.push_reserved(answer);
    }

    fn pause(&mut self)
        ensures heard { KeepsFirst self.old.answers self.new.answers
            self.old.full self.new.full [] }
        ensures settles { ⊤ }
    {}

    fn has_enough(&self) -> bool
        ensures { result ≡ self.now.full }
    {
        self.full
    }
}
