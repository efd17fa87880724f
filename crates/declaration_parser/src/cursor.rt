//! Reading tokens one after another, up to the first thing that is wrong.
use crate::faults::Faults;
use crate::tokens::{NO_NAME, Name, Token, Tokens, Word, Words};
use std::alloc::Global;

/// Takes tokens from the start. What is wrong is noted and hides the tokens after it, so nobody has to ask after each step.
#[derive(Drop)]
pub struct Cursor<'a> {
    pub tokens: &'a Tokens,
    /// The tokens that aren't read yet.
    pub rest: Words,
    /// The file of the last token that was read, and its line.
    pub file: usize,
    pub line: usize,
    /// The type that is read, its variant and its field, by place and name: each is empty outside of one.
    pub name: Name,
    pub variant: Name,
    pub field: Option<(usize, Name)>,
    /// Whether what is wrong is noted without its line, since it isn't in a file.
    pub is_without_line: bool,
    /// What is wrong, a line each.
    pub faults: Faults,
    /// Whether something is wrong.
    pub is_wrong: bool,
}

impl<'a> Cursor<'a> {
    /// At the start of words of a file.
    pub fn new(alloc: Global, tokens: &'a Tokens, file: usize, rest: Words) -> Cursor<'a> {
        Cursor {
            tokens,
            rest,
            file,
            line: 0,
            name: NO_NAME,
            variant: NO_NAME,
            field: None,
            is_without_line: false,
            faults: Faults::new(alloc),
            is_wrong: false,
        }
    }

    /// Which word the next token is, which stays.
    pub fn peek(&self) -> Word {
        self.tokens.front(self.rest)
    }

    /// Takes the next token; none at the end.
    pub fn step(&mut self) -> Token {
        let token = self.tokens.first(self.rest);
        if !self.rest.is_empty() {
            self.rest = self.rest.behind_first();
            self.line = token.line;
        }
        token
    }

    /// Takes the next token if it is this word.
    pub fn take(&mut self, wanted: Word) -> bool {
        let found = self.peek() == wanted;
        if found {
            self.step();
        }
        found
    }

    /// Takes the next token, and refuses it unless it is what is wanted, which this says.
    pub fn want(&mut self, is_wanted: bool, wanted: &str) {
        let next = self.step();
        if !is_wanted {
            match self.tokens.text(next.name) {
                "" => self.wrong(&[wanted, ", but nothing follows"]),
                name => self.wrong(&[wanted, " in place of `", name, "`"]),
            }
        }
    }

    /// Takes this word, which must be next, as this says.
    pub fn owe(&mut self, word: Word, wanted: &str) {
        let is_wanted = self.peek() == word;
        self.want(is_wanted, wanted);
    }

    /// Notes what is wrong at the last token, unless it follows something that is wrong.
    pub fn wrong(&mut self, pieces: &[&str]) {
        if !self.is_wrong {
            self.note_field();
            self.faults.put_all(pieces);
            self.faults.put("\n");
            self.is_wrong = true;
            self.rest.from = self.rest.to;
        }
    }

    /// Notes why a name is wrong: what is said after it.
    pub fn refuse(&mut self, name: Name, why: &str) {
        self.wrong(&["`", self.tokens.text(name), why]);
    }

    /// Notes the line, and which type is read, which variant and which field of it, as far as one is.
    fn note_field(&mut self) {
        if self.is_without_line {
            return;
        }
        self.faults
            .put_line(self.tokens.name_of_file(self.file), self.line);
        if self.name == NO_NAME {
            return;
        }
        let (name, variant) = (self.tokens.text(self.name), self.tokens.text(self.variant));
        let colons = if variant.is_empty() { "" } else { "::" };
        self.faults.put_all(&["`", name, colons, variant]);
        if let Some((place, name)) = self.field {
            self.faults.put_all(&[".", self.tokens.text(name)]);
            if name == NO_NAME {
                self.faults.put_number(place);
            }
        }
        self.faults.put("`: ");
    }

    /// Takes what precedes the first of these words that no type encloses.
    pub fn take_up_to(&mut self, ends: &[Word]) -> Words {
        let begun = self.rest;
        self.rest = self.tokens.type_up_to(begun, ends);
        begun.before(self.rest)
    }

    /// Turns to these tokens, unless something is wrong.
    pub fn turn_to(&mut self, rest: Words) {
        if !self.is_wrong {
            self.rest = rest;
        }
    }

    /// Appends to a list.
    pub fn push<T: Drop>(&mut self, list: &mut Vec<T>, item: T) {
        self.faults.note(list.push(item).is_err());
    }

    /// The same, unless something is wrong.
    pub fn keep<T: Drop>(&mut self, list: &mut Vec<T>, item: T) {
        if !self.is_wrong {
            self.push(list, item);
        }
    }
}
