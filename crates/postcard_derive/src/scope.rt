//! Where the names of a file come from, and how the paths that they are in are read.
use declaration_parser::declaration::Declaration;
use declaration_parser::derives::{has_own, has_serdes};
use declaration_parser::texts::{first_letter, is_listed};
use declaration_parser::tokens::{NO_NAME, Name, Token, Tokens, Word, is_start, word_of};
use std::alloc::{AllocError, Global};

/// The names that a file has.
#[derive(Drop)]
pub struct Origins<'a> {
    pub tokens: &'a Tokens,
    /// Each name with where it is from: the first word of the `use` that brings it in, or `self` if the file declares it.
    origins: Vec<(Name, Name)>,
}

impl<'a> Origins<'a> {
    /// The names that the file of these tokens has.
    pub fn of(alloc: Global, tokens: &'a Tokens) -> Result<Origins<'a>, AllocError> {
        let own = tokens.found_name("self");
        let mut origins = Vec::new(alloc);
        let mut before = Token::default();
        let mut head = NO_NAME;
        for token in &tokens.all {
            let word = tokens.text(before.name);
            let is_declared = is_listed(word, "struct enum union type mod trait const");
            let (name, from) = match token.word {
                _ if is_declared => (token.name, own),
                Word::Semicolon | Word::Comma | Word::Close => (before.name, head),
                _ => (NO_NAME, NO_NAME),
            };
            if from != NO_NAME {
                origins.push((name, from))?;
            }
            match (before.word, token.word) {
                (Word::Import, Word::Colon) => continue,
                (Word::Import, _) => head = token.name,
                // of `extern crate`
                (Word::Crate, _) if head == NO_NAME && token.is_name => head = token.name,
                (_, Word::Semicolon) => head = NO_NAME,
                _ => {}
            }
            before = *token;
        }
        Ok(Origins { tokens, origins })
    }

    /// Where a name is from; none if the file doesn't have it.
    pub fn origin(&self, name: Name) -> Name {
        for (known, from) in &self.origins {
            if *known == name {
                return *from;
            }
        }
        NO_NAME
    }

    /// Whether a `use` brings in a name from what isn't a module in this file.
    pub fn has_of_others(&self, name: Name) -> bool {
        for (known, from) in &self.origins {
            let is_own = word_of(*from) == Word::Own || word_of(self.origin(*from)) == Word::Own;
            if *known == name && !is_own {
                return true;
            }
        }
        false
    }

    /// Whether the file may have something else by the name of a crate, or of one of serde's derives; of a `*`, whether it brings in
    /// all of a module of the crate, which this file may not have. What `super` has is mostly in this file.
    pub fn hides(&self, wanted: &str) -> bool {
        for (name, from) in &self.origins {
            let origin = self.origin(*from);
            let (name, krate) = (self.tokens.text(*name), self.tokens.text(*from));
            let hides = match (wanted, name) {
                ("*", "*") if word_of(origin) == Word::Own && !is_capital(krate) => true,
                ("*", "*") => matches!(word_of(*from), Word::Crate | Word::Own),
                ("Serialize" | "Deserialize", "*") => has_own(krate),
                _ if name != wanted => false,
                ("Serialize" | "Deserialize", _) if is_start(*from) || has_serdes(krate) => false,
                ("Serialize" | "Deserialize", _) => !is_start(origin)
                    && !has_serdes(self.tokens.text(origin)),
                _ => krate != wanted,
            };
            if hides {
                return true;
            }
        }
        false
    }

    /// Whether a type's word has to be brought in, also one that nobody declares; or a bound's, unless the implementations have it.
    pub fn is_brought_in(&self, it: &Declaration, word: PathWord, is_bound: bool) -> bool {
        let name = word.name;
        let (from, text) = (self.origin(name), self.tokens.text(name));
        match (is_bound, word.leads) {
            _ if word.is_led || is_start(name) || it.parameters.contains(&name) => false,
            (true, _) => from != NO_NAME && !is_listed(text, "Flavor Readable Serialize Shaped"),
            (_, true) => from != NO_NAME,
            // of the language, unless the file has another
            _ if is_listed(text, "Box Option Result String Vec") => is_start(from),
            _ => is_capital(text),
        }
    }
}

/// A word of a type or of a bound.
#[derive(Clone, Copy, Drop)]
pub struct PathWord {
    pub name: Name,
    /// Whether `::` precedes it, and whether `::` follows it.
    pub is_led: bool,
    pub leads: bool,
}

/// The word at a place.
pub fn path_word(tokens: &Tokens, place: usize) -> PathWord {
    PathWord {
        name: tokens.at(place).name,
        is_led: are_at(tokens, place.saturating_sub(2), ": :"),
        leads: are_at(tokens, place.saturating_add(1), ": :"),
    }
}

/// Whether the tokens from a place on are these, which have blanks between them.
pub fn are_at(tokens: &Tokens, place: usize, wanted: &str) -> bool {
    for (count, text) in wanted.split(' ').enumerate() {
        let token = tokens.at(place.saturating_add(count));
        if tokens.text(token.name) != text {
            return false;
        }
    }
    true
}

/// Whether a word begins with a capital letter.
pub fn is_capital(word: &str) -> bool {
    matches!(first_letter(word), Some(first) if first.is_uppercase())
}
