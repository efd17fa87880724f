//! From the text of a file to its tokens.
ghost use Rattle.std.specs.Prelude.{IfOk, length};
ghost use Rattle.declaration_parser.specs.Standing.{EndsInFile};

use crate::faults::Faults;
use crate::marks::{is_mark, way_of};
use crate::texts::{first_letter, is_listed, is_of_word};
use crate::tokens::{File, Name, Token, Tokens, Word, Words, word_of};
use crate::words::{ALMOST, ALMOST_WAY};
use std::alloc::{AllocError, Global};
use unicode_ident::is_xid_start;
use unicode_normalization::to_nfc;

/// Words of attributes, and derives. They are no words of the language, so that they are the same behind `r#`.
const OF_ATTRIBUTES: &str = "Deserialize Serialize cfg cfg_attr derive path serde with";

/// What is said of a mark in what is skipped.
const INSIDE: &str = "` stands in a comment or a text, where it marks nothing: take it out\n";

/// Takes tokens from the start of a text. If memory runs out, the calls go on, and `faults` says so at the end.
#[derive(Drop)]
struct Reader<'a> {
    alloc: Global,
    file: &'a str,
    tokens: Tokens,
    rest: &'a str,
    /// The line of what is read, counted from 1, and whether code precedes it there.
    line: usize,
    is_behind_code: bool,
    /// The places of the tokens that opened groups which aren't closed yet.
    open: Vec<usize>,
    faults: Faults,
}

/// A text without a first line that says what runs it. An attribute of the file isn't one, before which there may be comments.
fn behind_shebang(text: &str) -> &str {
    let rest = text.strip_prefix("#!").unwrap_or("[").trim_start();
    if rest.starts_with('[') || rest.starts_with("//") || rest.starts_with("/*") {
        return text;
    }
    let line = text.lines().next().unwrap_or("");
    behind(text, line.len())
}

fn behind(text: &str, length: usize) -> &str {
    text.get(length..).unwrap_or("")
}

/// What precedes this rest of a text.
fn front_of<'a>(text: &'a str, rest: &str) -> &'a str {
    text.get(..text.len().saturating_sub(rest.len()))
        .unwrap_or("")
}

fn behind_one(text: &str) -> &str {
    let mut characters = text.chars();
    characters.next();
    characters.as_str()
}

fn hashes(text: &str) -> usize {
    front_of(text, text.trim_start_matches('#')).len()
}

/// What follows the comment that begins a text with `/*`, if a `*/` ends it.
fn behind_comment(text: &str) -> Option<&str> {
    let mut rest = text;
    let mut depth: usize = 0;
    for _ in 0..text.len() {
        if rest.starts_with("/*") {
            depth = depth.saturating_add(1);
        } else if rest.starts_with("*/") {
            depth = depth.saturating_sub(1);
        } else {
            rest = behind_one(rest);
            continue;
        }
        rest = behind(rest, 2);
        if depth == 0 {
            return Some(rest);
        }
    }
    None
}

/// What follows the text between `"`, which one with so many `#` after it ends. Without a number a `\` hides what follows it.
fn behind_text(text: &str, wanted: Option<usize>) -> Option<&str> {
    let mut rest = behind(text, 1);
    for _ in 0..text.len() {
        match first_letter(rest)? {
            '\\' if wanted.is_none() => rest = behind_one(behind(rest, 1)),
            '"' if hashes(behind(rest, 1)) >= wanted.unwrap_or(0) => return Some(behind(rest, 1)),
            _ => rest = behind_one(rest),
        }
    }
    None
}

/// What follows the character or the lifetime that begins a text with `'`. What is escaped ends with its line at the latest.
fn behind_quoted(text: &str) -> &str {
    let inside = behind(text, 1);
    let second = behind_one(inside);
    if inside.starts_with('\\') {
        let ended = behind_one(second).split_once(['\'', '\n']);
        ended.unwrap_or_default().1
    } else if second.starts_with('\'') {
        behind_one(second)
    } else {
        let name = inside.strip_prefix("r#").unwrap_or(inside);
        name.trim_start_matches(is_of_word)
    }
}

impl Tokens {
    /// Returns these tokens with those of one more file behind them. What is wrong is reported with the file's name, unless that is empty.
    ///
    /// # Errors
    /// `AllocError` when out of memory.
    pub fn with_file(self, alloc: Global, file: &str, text: &str) -> Result<Tokens, AllocError>
        ensures last { IfOk result (λ tokens. EndsInFile tokens (length self.all.items)) }
    {
        let text = text.strip_prefix('\u{feff}').unwrap_or(text);
        let from = self.all.len();
        let mut reader = Reader {
            alloc,
            file,
            tokens: self,
            rest: behind_shebang(text),
            line: 1,
            is_behind_code: false,
            open: Vec::new(alloc),
            faults: Faults::new(alloc),
        };
        for _ in 0..text.len() {
            if reader.rest.is_empty() {
                break;
            }
            reader.read_next();
        }
        let name = String::from_str(alloc, file)?;
        let faults = reader.faults.finished()?;
        reader.tokens.ended(from, name, faults)
    }

    /// These tokens as those of one more file from this place on.
    fn ended(self, from: usize, name: String, faults: String) -> Result<Tokens, AllocError>
        ensures { IfOk result (λ tokens. EndsInFile tokens from) }
    {
        let mut tokens = self;
        let to = tokens.all.len();
        let file = File {
            name,
            words: Words { from, to },
            faults,
        };
        tokens.files.push(file)?;
        Ok(tokens)
    }
}

impl<'a> Reader<'a> {
    /// Reads what is next: a blank, a comment or a token.
    fn read_next(&mut self) {
        let text = self.rest;
        match first_letter(text) {
            Some(first) if first.is_whitespace() => _ = self.take_to(behind_one(text)),
            // Rust takes marks of the direction of writing as blanks too
            Some('\u{200e}' | '\u{200f}') => _ = self.take_to(behind_one(text)),
            Some('"') => self.read_text(text, None),
            Some('\'') => self.read_token(behind_quoted(text)),
            Some(first) if is_of_word(first) => self.read_word(),
            _ if text.starts_with("//") => self.read_comment(),
            _ if text.starts_with("/*") => _ = self.take_closed(behind_comment(text)),
            _ => self.read_token(behind_one(text)),
        }
    }

    /// Reads a comment up to the end of its line. One that marks what is after it is a token. What one says of how the field after
    /// it is sent is an attribute: `#[with = ".."]`, or, if it only seems meant to, `#[with ..]` with all its words as one token.
    fn read_comment(&mut self) {
        let whole = self.rest.lines().next().unwrap_or("");
        self.rest = behind(self.rest, whole.len());
        let comment = whole.trim_end();
        if is_mark(comment) {
            return if self.is_behind_code {
                self.refuse(comment, ALMOST)
            } else {
                self.put(comment, Some(Word::Mark), self.line)
            };
        }
        let Some((equals, words)) = way_of(comment) else {
            return;
        };
        if self.is_behind_code {
            if !equals.is_empty() {
                self.refuse(comment, ALMOST_WAY);
                self.faults.put("\n");
            }
            return;
        }
        for word in ["#", "[", "with", equals, words, "]"] {
            if !word.is_empty() {
                self.put(word, None, self.line);
            }
        }
    }

    fn refuse(&mut self, word: &str, why: &str) {
        self.faults.refuse(self.file, self.line, word, why);
    }

    /// Reads a word, also one behind `r#`, or a text or a character with letters before it.
    fn read_word(&mut self) {
        let after = self.rest.trim_start_matches(is_of_word);
        let word = front_of(self.rest, after);
        let hashes = hashes(after);
        let raw = behind(after, hashes);
        match first_letter(after) {
            Some('"' | '#') if raw.starts_with('"') && is_listed(word, "r br cr") => {
                self.read_text(raw, Some(hashes));
            }
            Some('"') if is_listed(word, "b c") => self.read_text(after, None),
            Some('\'') if word == "b" => {
                self.take_to(after);
                self.read_token(behind_quoted(after));
            }
            Some('#') if hashes == 1 && word == "r" => {
                self.take_to(raw);
                let name = self.take_to(raw.trim_start_matches(is_of_word));
                self.put(name, Some(Word::Raw), self.line);
            }
            _ => self.read_token(after),
        }
    }

    /// Reads the text that begins with this `"`, and which one with so many `#` ends.
    fn read_text(&mut self, begun: &'a str, wanted: Option<usize>) {
        let line = self.line;
        self.take_to(begun);
        let text = self.take_closed(behind_text(begun, wanted));
        self.take_to(behind(self.rest, wanted.unwrap_or(0)));
        self.put(text, None, line);
    }

    fn read_token(&mut self, rest: &'a str) {
        let line = self.line;
        let text = self.take_to(rest);
        self.put(text, None, line);
    }

    /// Takes a comment or a text up to this rest; all if nothing ends it, which is refused.
    fn take_closed(&mut self, rest: Option<&'a str>) -> &'a str {
        if rest.is_none() {
            self.faults.put_line(self.file, self.line);
            self.faults
                .put("a comment or a text begins here that isn't ended\n");
        }
        self.take_to(rest.unwrap_or(""))
    }

    /// Takes what precedes this rest, counts its lines, and refuses a mark in it.
    fn take_to(&mut self, rest: &'a str) -> &'a str {
        let text = front_of(self.rest, rest);
        self.rest = rest;
        for line in text.split_inclusive('\n') {
            if is_mark(line.trim()) {
                self.refuse(line.trim(), INSIDE);
            }
            if line.ends_with('\n') {
                self.line = self.line.saturating_add(1);
                self.is_behind_code = false;
            }
        }
        text
    }

    /// The name of a text. To Rust its letters are one name however their dots and accents are written.
    fn name_of(&mut self, text: &str) -> Result<Name, AllocError> {
        if text.is_ascii() || text.starts_with('"') {
            return self.tokens.name_of(self.alloc, text);
        }
        match to_nfc(self.alloc, text) {
            Ok(name) => self.tokens.name_of(self.alloc, name.as_str()),
            Err(_) => Err(AllocError),
        }
    }

    /// Appends a token: this word, or which one its text is.
    fn put(&mut self, text: &str, word: Option<Word>, line: usize) {
        self.is_behind_code = true;
        let Ok(name) = self.name_of(text) else {
            return self.faults.note(true);
        };
        let first = first_letter(text).unwrap_or(' ');
        let word = match word {
            Some(Word::Raw) if is_listed(text, OF_ATTRIBUTES) => word_of(name),
            Some(word) => word,
            None if first == '\'' && !text.ends_with('\'') => Word::Lifetime,
            None => word_of(name),
        };
        self.push(Token {
            name,
            word,
            is_name: is_xid_start(first) || first == '_',
            line,
            span: 0,
        });
    }

    /// Drops a comma before the end of what `all` or `any` holds, where it says nothing.
    fn drop_comma(&mut self) {
        let count = self.tokens.all.len();
        let last = self.tokens.at(count.saturating_sub(1));
        if let Some(first) = self.open.last().copied()
            && matches!(last.word, Word::Comma)
            && let before = self.tokens.at(first.saturating_sub(1)).name
            && is_listed(self.tokens.text(before), "all any")
        {
            _ = self.tokens.all.pop();
        }
    }

    /// Appends a token. One that ends a group says in the one that begins it how many tokens there are.
    fn push(&mut self, token: Token) {
        match token.word {
            Word::Paren | Word::Bracket | Word::Brace => {
                self.faults
                    .note(self.open.push(self.tokens.all.len()).is_err());
            }
            Word::Close => {
                self.drop_comma();
                let place = self.tokens.all.len();
                let first = self.open.pop().unwrap_or(place);
                if let Some(token) = self.tokens.all.get_mut(first) {
                    token.span = place.saturating_sub(first).saturating_add(1);
                }
            }
            _ => {}
        }
        self.faults.note(self.tokens.all.push(token).is_err());
    }
}
