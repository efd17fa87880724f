//! Where each `use` leads.
use super::Scopes;
use super::meaning::Meaning;
use declaration_parser::tokens::{Word, word_of};

/// In how many passes what a `use` means may change. If it still does, each is doubtful.
const PASSES: usize = 16;

impl<'a> Scopes<'a> {
    /// Notes where each `use` leads, until nothing changes, since its path may begin with what others bring in.
    pub(super) fn find_leads(&mut self) {
        for _ in 0..PASSES {
            let mut is_changed = false;
            for place in 0..self.imports.len() {
                is_changed = self.find_lead(place) || is_changed;
            }
            if !is_changed {
                return;
            }
        }
        for place in 0..self.imports.len() {
            self.put_lead(place, Meaning::Doubtful);
        }
    }

    /// Notes where a `use` leads, and gives whether that is elsewhere than before. Its own name doesn't hide what it names.
    fn find_lead(&mut self, place: usize) -> bool {
        let Some(it) = self.imports.get(place).copied() else {
            return false;
        };
        self.put_lead(place, Meaning::Nothing);
        let before = match (word_of(it.last), self.way(it.scope, &it.path, it.last)) {
            (Word::Own, _) if it.is_crate => self.root_of(self.module_of(it.scope)),
            (_, Meaning::Nothing) => Meaning::Outside,
            (_, before) => before,
        };
        self.put_lead(place, before);
        before != it.before
    }

    fn put_lead(&mut self, place: usize, before: Meaning) {
        if let Some(it) = self.imports.get_mut(place) {
            it.before = before;
        }
    }
}
