//! Types that are written by hand where they aren't derived: on one side, or under a condition.
use super::Parser;
use crate::tokens::{DESERIALIZE, DOLLAR, Name, SERIALIZE, Tokens, Word, Words};
use crate::words::BY_HAND;
use std::alloc::{AllocError, Global};

/// One of serde's traits, all its names, and the names that files implement it for by hand.
#[derive(Drop)]
pub struct Implemented {
    name: Name,
    names: Vec<Name>,
    /// Of each name whether it is such a one. If that of `$` is, macros implement the trait for what they are handed.
    types: Vec<bool>,
}

/// All names of one of serde's traits: its own, and those that a `use` gives it.
fn names_of(alloc: Global, name: Name, tokens: &Tokens) -> Result<Vec<Name>, AllocError> {
    let mut names = Vec::new(alloc);
    names.push(name)?;
    for place in 0..tokens.all.len() {
        let by = place.saturating_add(1);
        if tokens.at(place).name == name && tokens.at(by).word == Word::As {
            names.push(tokens.at(by.saturating_add(1)).name)?;
        }
    }
    Ok(names)
}

impl Implemented {
    /// What files implement by hand of `Serialize`, and of `Deserialize`, so that each file is read once for all types.
    pub fn all(alloc: Global, tokens: &Tokens) -> Result<Vec<Implemented>, AllocError> {
        let mut all = Vec::new(alloc);
        all.push(Implemented::of(alloc, SERIALIZE, tokens)?)?;
        all.push(Implemented::of(alloc, DESERIALIZE, tokens)?)?;
        Ok(all)
    }

    /// The types that implement a trait of this name. Since an item may name another's, all are gone over while more is found.
    fn of(alloc: Global, name: Name, tokens: &Tokens) -> Result<Implemented, AllocError> {
        let mut found = Implemented {
            name,
            names: names_of(alloc, name, tokens)?,
            types: vec![in alloc; false; tokens.texts.len()]?,
        };
        for _ in &tokens.texts {
            if !found.add_more(tokens) {
                break;
            }
        }
        Ok(found)
    }

    /// Adds the types that are found at each word; whether there is one more.
    fn add_more(&mut self, tokens: &Tokens) -> bool {
        let to = tokens.all.len();
        let mut is_more = false;
        for from in 0..to {
            let types = self.found_at(tokens, Words { from, to });
            is_more = self.add(tokens, types) || is_more;
        }
        is_more
    }

    /// Adds these names of types; whether one is new.
    fn add(&mut self, tokens: &Tokens, types: Words) -> bool {
        let mut is_more = false;
        for place in types.from..types.to {
            if let Some(it) = self.types.get_mut(tokens.at(place).name) {
                is_more = is_more || !*it;
                *it = true;
            }
        }
        is_more
    }

    /// Names of types that words say: another one of a type that was found, what a macro is handed, or what an `impl` is for.
    fn found_at(&self, tokens: &Tokens, words: Words) -> Words {
        let rest = words.behind_first();
        let next = tokens.first(rest);
        match (tokens.front(words), next.word) {
            (_, Word::As) if self.has(tokens.nth(words, 2).name) => words.before(rest),
            // what a macro is handed, which one of another crate may say by its name
            (_, Word::Not) if self.has(DOLLAR) || tokens.first_text(words).contains("serialize") =>
                tokens.held(rest),
            (Word::Alias, _) if self.has(next.name) => {
                rest.before(tokens.up_to(rest, &[Word::Semicolon]))
            }
            (Word::Implementation, _) => self.implementing(tokens, words),
            _ => Words::default(),
        }
    }

    /// The names that the `impl` at the start is for, if it is of this trait: of a type, all of the path that leads to it.
    fn implementing(&self, tokens: &Tokens, words: Words) -> Words {
        let whole = words.before(tokens.type_up_to(words, &[Word::Brace, Word::Semicolon]));
        let of = tokens.type_up_to(whole, &[Word::For]);
        let named = tokens.parted(whole.before(of), &[], &self.names, true);
        if named.is_empty() {
            return Words::default();
        }
        let path = of.behind_first();
        // a `<` at the start begins a path, as in `<Lamp as Kept>::State`
        path.before(tokens.up_to(path.behind_first(), &[Word::Less, Word::Where]))
    }

    /// Whether a type of this name was found.
    fn has(&self, name: Name) -> bool {
        matches!(self.types.get(name), Some(true))
    }
}

impl Parser<'_, '_> {
    /// Refuses a type that is written by hand on a side that isn't derived, or is so under a condition.
    pub(super) fn check_by_hand(&mut self) {
        for side in self.job.by_hand {
            let is_sure = self.marking.marks.has(side.name) && !self.marking.is_conditional;
            if self.marking.is_derived && !is_sure && side.has(self.at.name) {
                self.at.refuse(side.name, BY_HAND);
            }
        }
    }
}
