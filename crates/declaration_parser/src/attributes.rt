//! Attributes, and calls of macros.
use crate::tokens::{NO_NAME, Tokens, Word, Words};

/// Goes over attributes and marks, of which those in a `cfg_attr` are by themselves, also in one within another. What has no
/// words is none.
#[derive(Clone, Copy, Default, Drop)]
pub struct AttributeWalk {
    rest: Words,
    parts: Words,
    condition: Words,
    /// Whether one within another began: all that precedes a part is then its condition.
    is_nested: bool,
}

impl AttributeWalk {
    /// Those among these words.
    pub fn of(rest: Words) -> AttributeWalk {
        AttributeWalk {
            rest,
            ..AttributeWalk::default()
        }
    }

    /// The words of the next one, and the condition under which it is there; empty if there is none. All are gone over after as
    /// many as there are words.
    pub fn next(&mut self, tokens: &Tokens) -> (Words, Words) {
        if !self.parts.is_empty() {
            return self.next_part(tokens);
        }
        let behind = self.rest.behind_first();
        let (words, rest) = match tokens.attribute(self.rest) {
            Some((inside, rest)) => (tokens.behind_attributes(inside), rest),
            None => (self.rest.before(behind), behind),
        };
        self.rest = rest;
        if !matches!(tokens.front(words), Word::Conditional) {
            return (words, Words::default());
        }
        (self.condition, self.parts) = tokens.first_part(tokens.held(words));
        self.is_nested = false;
        (Words::default(), Words::default())
    }

    /// The next one of a `cfg_attr`. Of one within it the parts follow, up to the mark that ends it.
    fn next_part(&mut self, tokens: &Tokens) -> (Words, Words) {
        let rest = tokens.up_to(self.parts, &[Word::Comma, Word::Close]);
        let words = tokens.behind_attributes(self.parts.before(rest));
        self.parts = rest.behind_first();
        if matches!(tokens.front(words), Word::Conditional) {
            let (_, inside) = tokens.first_part(tokens.held(words));
            self.parts.from = inside.from.max(words.behind_first().from);
            self.is_nested = true;
            return (Words::default(), Words::default());
        }
        if self.is_nested {
            return (words, self.condition.before(words));
        }
        (words, self.condition)
    }
}

impl Tokens {
    /// What is between the brackets of the attribute at the start, which is of what follows it.
    pub fn attribute(&self, words: Words) -> Option<(Words, Words)> {
        let brackets = words.behind_first();
        match (self.front(words), self.front(brackets)) {
            (Word::Hash, Word::Bracket) => self.group(brackets),
            _ => None,
        }
    }

    /// What follows the attributes and marks at the start. A comment may be such an attribute wherever it stands.
    pub fn behind_attributes(&self, words: Words) -> Words {
        let mut rest = words;
        for _ in 0..words.len() {
            rest = match (self.attribute(rest), self.front(rest)) {
                (Some((_, behind)), _) => behind,
                (None, Word::Mark) => rest.behind_first(),
                _ => break,
            };
        }
        rest
    }

    /// What a call of a macro, or an attribute of all that a file has, holds at the start, and what follows it. The words before
    /// what it holds have no brackets.
    pub fn passed_over(&self, words: Words) -> Option<(Words, Words)> {
        let mark = words.behind_first();
        let rest = mark.behind_first();
        if !matches!(self.front(mark), Word::Not) {
            return None;
        }
        let has_name = self.name_at(rest) != NO_NAME;
        self.group(if has_name { rest.behind_first() } else { rest })
    }

    /// The content of the marks after the first word. Between which they are is one to serde.
    pub fn held(&self, words: Words) -> Words {
        self.group(words.behind_first()).unwrap_or_default().0
    }
}
