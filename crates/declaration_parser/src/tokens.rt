//! The words and marks of files, which are numbers: a text by its place among all, words by their places among all tokens.
use std::alloc::{AllocError, Global};
use std::collections::BTreeMap;

/// A text of the files by its place among all texts: equal texts have one place, and the empty text the first.
pub type Name = usize;

/// The empty text.
pub const NO_NAME: Name = 0;

// Those of serde's derives, and of what a macro's rules hand on.
pub const SERIALIZE: Name = 1;

pub const DESERIALIZE: Name = 2;

pub const DOLLAR: Name = 3;

/// The texts that are compared, in the order of their names, and which words they are.
const WORDS: &[(&str, Word)] = &[
    ("", Word::Other),
    ("Serialize", Word::OfSerde),
    ("Deserialize", Word::OfSerde),
    ("$", Word::Dollar),
    ("!", Word::Not),
    ("#", Word::Hash),
    ("&", Word::And),
    ("*", Word::Star),
    (",", Word::Comma),
    ("-", Word::Minus),
    (":", Word::Colon),
    (";", Word::Semicolon),
    ("<", Word::Less),
    ("=", Word::Equals),
    (">", Word::Greater),
    ("(", Word::Paren),
    ("[", Word::Bracket),
    ("{", Word::Brace),
    (")", Word::Close),
    ("]", Word::Close),
    ("}", Word::Close),
    ("as", Word::As),
    ("break", Word::BeforeValue),
    ("cfg", Word::Condition),
    ("cfg_attr", Word::Conditional),
    ("const", Word::Constant),
    ("crate", Word::Crate),
    ("derive", Word::Derive),
    ("else", Word::BeforeValue),
    ("enum", Word::Enum),
    ("extern", Word::External),
    ("fn", Word::Function),
    ("for", Word::For),
    ("if", Word::BeforeValue),
    ("impl", Word::Implementation),
    ("in", Word::In),
    ("macro_rules", Word::Rules),
    ("match", Word::BeforeValue),
    ("mod", Word::Module),
    ("mut", Word::Mutable),
    ("path", Word::Path),
    ("pub", Word::Public),
    ("return", Word::BeforeValue),
    ("self", Word::Own),
    ("serde", Word::Serde),
    ("static", Word::Static),
    ("struct", Word::Struct),
    ("super", Word::Super),
    ("trait", Word::Implementation),
    ("type", Word::Alias),
    ("union", Word::Union),
    ("use", Word::Import),
    ("where", Word::Where),
    ("while", Word::BeforeValue),
    ("with", Word::With),
    ("Self", Word::OwnType),
];

/// Which of the words that are compared a token is. `Close` closes what one of the three before it opens.
#[derive(Clone, Copy, Default, PartialEq, Eq, Drop)]
pub enum Word {
    Not,
    Hash,
    Dollar,
    And,
    Star,
    Comma,
    Minus,
    Colon,
    Semicolon,
    Less,
    Equals,
    Greater,
    Paren,
    Bracket,
    Brace,
    Close,
    As,
    /// What an expression follows: a `!` negates it.
    BeforeValue,
    Condition,
    Conditional,
    Constant,
    Crate,
    Derive,
    Enum,
    External,
    For,
    Function,
    Implementation,
    In,
    Module,
    Mutable,
    OfSerde,
    Own,
    OwnType,
    Path,
    Public,
    Rules,
    Serde,
    Static,
    Struct,
    Super,
    Alias,
    Union,
    Import,
    Where,
    With,
    /// A comment that marks a declaration.
    Mark,
    /// A name that is written `r#name`, whose text is without that.
    Raw,
    Lifetime,
    #[default]
    Other,
}

/// A word, a lifetime, a number, a text, a character or a mark, and the line where it begins. A comment `// message` is one
/// token, one that says how a field is sent those of an attribute. A text is between `"`, whatever it was written between. A
/// name is in Unicode's form NFC, as Rust compares names.
#[derive(Clone, Copy, Default, Drop)]
pub struct Token {
    pub name: Name,
    pub word: Word,
    /// Whether it is a name, also one of the language.
    pub is_name: bool,
    pub line: usize,
    /// How many tokens the group has that it opens, with its two marks; 0 if it opens none, or one that isn't closed.
    pub span: usize,
}

/// Words one after another: from a place among all tokens up to another.
#[derive(Clone, Copy, Default, PartialEq, Eq, Drop)]
pub struct Words {
    pub from: usize,
    pub to: usize,
}

/// A file: its name, which is empty if it has none, its words, and what is wrong with its comments and texts, a line each.
#[derive(Drop)]
pub struct File {
    pub name: String,
    pub words: Words,
    pub faults: String,
}

/// The tokens of files, one file after another, and their texts.
#[derive(Drop)]
pub struct Tokens {
    pub all: Vec<Token>,
    pub texts: Vec<String>,
    pub files: Vec<File>,
    names: BTreeMap<String, Name>,
}

/// Which of the words that are compared a text of this name is.
pub fn word_of(name: Name) -> Word {
    match WORDS.get(name) {
        Some((_, word)) => *word,
        None => Word::Other,
    }
}

/// Whether a name of a path stands for a module by where it is used.
pub fn is_start(name: Name) -> bool {
    matches!(word_of(name), Word::Crate | Word::Own | Word::Super)
}

impl Words {
    /// Whether there are none.
    pub fn is_empty(self) -> bool {
        self.from >= self.to
    }

    /// How many there are.
    pub fn len(self) -> usize {
        self.to.saturating_sub(self.from)
    }

    /// What follows so many of them.
    pub fn skip(self, count: usize) -> Words {
        let from = self.from.saturating_add(count).min(self.to);
        Words { from, ..self }
    }

    /// What follows the first alone.
    pub fn behind_first(self) -> Words {
        self.skip(1)
    }

    /// What precedes the last of these words, which are the rest.
    pub fn before(self, rest: Words) -> Words {
        let to = rest.from;
        Words { to, ..self }
    }
}

impl Tokens {
    /// No files yet. [`with_file`](Tokens::with_file) adds one.
    ///
    /// # Errors
    /// `AllocError` when out of memory.
    pub fn new(alloc: Global) -> Result<Tokens, AllocError> {
        let mut tokens = Tokens {
            all: Vec::new(alloc),
            texts: Vec::new(alloc),
            files: Vec::new(alloc),
            names: BTreeMap::new(alloc),
        };
        for (text, _) in WORDS {
            tokens.name_of(alloc, text)?;
        }
        Ok(tokens)
    }

    /// The name of a text, which is kept.
    pub fn name_of(&mut self, alloc: Global, text: &str) -> Result<Name, AllocError> {
        if let Some(name) = self.names.get(text) {
            return Ok(*name);
        }
        let name = self.texts.len();
        self.texts.push(String::from_str(alloc, text)?)?;
        self.names.insert(String::from_str(alloc, text)?, name)?;
        Ok(name)
    }

    /// The name of a text that a file has; none if no file has it.
    pub fn found_name(&self, text: &str) -> Name {
        self.names.get(text).copied().unwrap_or(NO_NAME)
    }

    /// The text of a name.
    pub fn text(&self, name: Name) -> &str {
        match self.texts.get(name) {
            Some(text) => text.as_str(),
            None => "",
        }
    }

    /// The name of a file by its place; empty if there is none.
    pub fn name_of_file(&self, file: usize) -> &str {
        match self.files.get(file) {
            Some(file) => file.name.as_str(),
            None => "",
        }
    }

    /// The file of the token at a place, by its own place.
    pub fn file_at(&self, place: usize) -> usize {
        for (index, file) in self.files.iter().enumerate() {
            if place < file.words.to {
                return index;
            }
        }
        self.files.len()
    }

    /// The token at a place.
    pub fn at(&self, place: usize) -> Token {
        self.all.get(place).copied().unwrap_or_default()
    }

    /// The first of these; none if there is none.
    pub fn first(&self, words: Words) -> Token {
        if words.is_empty() {
            return Token::default();
        }
        self.at(words.from)
    }

    /// The token after so many of these; none if there are fewer.
    pub fn nth(&self, words: Words, count: usize) -> Token {
        self.first(words.skip(count))
    }

    /// The last of these.
    pub fn last(&self, words: Words) -> Token {
        self.nth(words, words.len().saturating_sub(1))
    }

    /// Which word the first is.
    pub fn front(&self, words: Words) -> Word {
        self.first(words).word
    }

    /// The text of the first; empty if there is none.
    pub fn first_text(&self, words: Words) -> &str {
        self.text(self.first(words).name)
    }

    /// The name that the first is, if it is one.
    pub fn name_at(&self, words: Words) -> Name {
        let first = self.first(words);
        if first.is_name { first.name } else { NO_NAME }
    }

    /// The content of the group that the first token opens, and what follows it; nothing if it opens none that is closed.
    pub fn group(&self, words: Words) -> Option<(Words, Words)> {
        let span = self.first(words).span;
        if span < 2 {
            return None;
        }
        let close = words.skip(span - 1);
        Some((words.behind_first().before(close), close.behind_first()))
    }

    /// What follows the first, or the group that it opens.
    pub fn behind(&self, words: Words) -> Words {
        words.skip(self.first(words).span.max(1))
    }

    /// What begins with the first of these words that nothing encloses; nothing if none is there.
    pub fn up_to(&self, words: Words, ends: &[Word]) -> Words {
        self.parted(words, ends, &[], false)
    }

    /// The same of types: `<` and `>` enclose too, but for the `>` of an arrow.
    pub fn type_up_to(&self, words: Words, ends: &[Word]) -> Words {
        self.parted(words, ends, &[], true)
    }

    /// The same of either, also up to the first of these names.
    pub fn parted(&self, words: Words, ends: &[Word], names: &[Name], is_type: bool) -> Words {
        let mut rest = words;
        let mut depth: usize = 0;
        for _ in words.from..words.to {
            let first = self.first(rest);
            let is_end = ends.contains(&first.word) || names.contains(&first.name);
            if rest.is_empty() || (depth == 0 && is_end) {
                break;
            }
            match first.word {
                Word::Less if is_type => depth = depth.saturating_add(1),
                Word::Greater if is_type => depth = depth.saturating_sub(1),
                Word::Minus if is_type => rest = rest.behind_first(),
                _ => {}
            }
            rest = self.behind(rest);
        }
        rest
    }

    /// What precedes the first comma that nothing encloses, and what follows it.
    pub fn first_part(&self, words: Words) -> (Words, Words) {
        let rest = self.up_to(words, &[Word::Comma]);
        (words.before(rest), rest.behind_first())
    }

    /// Whether these are the same words.
    pub fn are_same(&self, words: Words, others: Words) -> bool {
        for place in 0..words.len() {
            let (one, other) = (self.nth(words, place), self.nth(others, place));
            if one.name != other.name || one.word != other.word {
                return false;
            }
        }
        words.len() == others.len()
    }

    /// Whether a name is among words.
    pub fn has_name(&self, words: Words, name: Name) -> bool {
        for place in words.from..words.to {
            if self.at(place).name == name {
                return true;
            }
        }
        false
    }

    /// Whether a name follows one of these words anywhere.
    pub fn follows(&self, name: Name, words: &[Word]) -> bool {
        for place in 0..self.all.len() {
            let (first, next) = (self.at(place), self.at(place.saturating_add(1)));
            if next.name == name && words.contains(&first.word) {
                return true;
            }
        }
        false
    }

    /// Whether a word is among words.
    pub fn has_word(&self, words: Words, word: Word) -> bool {
        for place in words.from..words.to {
            if self.at(place).word == word {
                return true;
            }
        }
        false
    }
}
