//! The items of files, found in one pass, and the scopes that they are in.
use crate::attributes::AttributeWalk;
use crate::tokens::{NO_NAME, Name, Tokens, Word, Words};
use std::alloc::Global;

/// What ends the words of an item before its body.
pub const BODY: &[Word] = &[Word::Brace, Word::Semicolon];

/// What a scope is.
#[derive(Clone, Copy, PartialEq, Eq, Drop)]
pub enum Kind {
    File,
    Module,
    /// A module with a file of its own, at its name, and one whose file has another name or is in another folder.
    Outline,
    Misnamed,
    /// Beside a module: that it stands under a condition; and beside one that is misnamed, a file that it may have.
    Conditional,
    Elsewhere,
    /// The body of a function, which sees what surrounds it.
    Body,
    /// What belongs to a type or a trait: no name of it is seen.
    Impl,
}

/// A file, a module that is written in one, or a body.
#[derive(Clone, Copy, Drop)]
pub struct Scope {
    pub kind: Kind,
    pub name: Name,
    /// The file by its place among all.
    pub file: usize,
    /// The scope round it; of a file its own.
    pub outer: usize,
    /// The place of the token after it; 0 of what has no tokens.
    pub end: usize,
    /// Of a module who sees it, as [`Item::shown`] says it.
    pub shown: Word,
}

/// What an item is.
#[derive(Clone, Copy, Default, PartialEq, Eq, Drop)]
pub enum ItemKind {
    Type,
    Alias,
    Constant,
    /// A variable of the whole program, with words as a constant has them.
    Static,
    Import,
    Crate,
    /// The rules of a macro, a call, and a call within the words of another item or an attribute of the whole file.
    Rules,
    Call,
    Hidden,
    /// What declares no name, after attributes.
    #[default]
    Other,
}

/// An item.
#[derive(Clone, Copy, Default, Drop)]
pub struct Item {
    /// Its place among all items of all files.
    pub place: usize,
    pub kind: ItemKind,
    pub scope: usize,
    /// Its attributes and marks, and who sees it: `pub`, or the word that limits that; no word without it.
    pub attributes: Words,
    pub shown: Word,
    /// Its words after the one that says what it is; all of a call, and none of what declares no name.
    pub words: Words,
    /// What a call holds.
    pub inside: Words,
}

/// Goes over the tokens of files. If memory runs out for something, `failed` says so.
#[derive(Drop)]
pub struct Walk<'a> {
    tokens: &'a Tokens,
    pub scopes: Vec<Scope>,
    pub items: Vec<Item>,
    /// The scope that is gone over, who sees the item that is read, and the places behind the words of an item, in which there
    /// is no other, and behind the module whose files are in another folder.
    scope: usize,
    shown: Word,
    quiet: usize,
    moved: usize,
    pub failed: bool,
}

impl Item {
    /// Whether it has an attribute of this name, also under a condition.
    pub fn has(&self, tokens: &Tokens, name: Word) -> bool {
        let mut walk = AttributeWalk::of(self.attributes);
        for _ in 0..=self.attributes.len() {
            let (words, _) = walk.next(tokens);
            if tokens.front(words) == name {
                return true;
            }
        }
        false
    }
}

impl<'a> Walk<'a> {
    /// The items and scopes of files. The first scopes are those of the files, and have no names.
    pub fn of(alloc: Global, tokens: &'a Tokens) -> Walk<'a> {
        let mut walk = Walk {
            tokens,
            scopes: Vec::new(alloc),
            items: Vec::new(alloc),
            scope: 0,
            shown: Word::Other,
            quiet: 0,
            moved: 0,
            failed: false,
        };
        for place in 0..tokens.files.len() {
            walk.scope = place;
            walk.add_scope(Kind::File, NO_NAME, 0);
        }
        for (place, file) in tokens.files.iter().enumerate() {
            walk.scope = place;
            walk.read_file(file.words);
        }
        walk
    }

    /// Adds a scope in this one, which ends there, and gives its place.
    fn add_scope(&mut self, kind: Kind, name: Name, end: usize) -> usize {
        let place = self.scopes.len();
        let outer = self.scope;
        let file = match self.scopes.get(outer) {
            Some(it) => it.file,
            None => outer,
        };
        let scope = Scope {
            kind,
            name,
            file,
            outer,
            end,
            shown: self.shown,
        };
        self.failed = self.scopes.push(scope).is_err() || self.failed;
        place
    }

    /// Adds the items of a file that has these words.
    fn read_file(&mut self, words: Words) {
        let mut rest = words;
        for _ in 0..words.len() {
            if rest.is_empty() {
                break;
            }
            rest = self.read_front(rest);
        }
    }

    /// Adds the item at the start, and gives the tokens to go on with: in its words, if there may be attributes in them.
    fn read_front(&mut self, tokens: Words) -> Words {
        self.leave(tokens.from);
        let words = self.tokens.behind_attributes(tokens);
        let attributes = tokens.before(words);
        let mut item = Item {
            place: self.items.len(),
            scope: self.scope,
            attributes,
            ..Item::default()
        };
        let rest = self.read_words(&mut item, words);
        if item.kind != ItemKind::Other || !attributes.is_empty() {
            self.failed = self.items.push(item).is_err() || self.failed;
        }
        rest
    }

    /// Turns to the scope of the token at a place.
    fn leave(&mut self, place: usize) {
        for _ in 0..self.scopes.len() {
            match self.scopes.get(self.scope) {
                Some(it) if it.kind != Kind::File && place >= it.end => self.scope = it.outer,
                _ => break,
            }
        }
    }

    /// Reads what follows attributes: a call of a macro, words of an item, or what begins one.
    fn read_words(&mut self, item: &mut Item, words: Words) -> Words {
        let is_quiet = words.from < self.quiet;
        let first = self.tokens.first(words);
        let word = first.word;
        let is_named = first.is_name && !matches!(word, Word::BeforeValue | Word::In);
        if let Some((inside, rest)) = self.tokens.passed_over(words)
            && (!is_quiet || rest.from <= self.quiet)
            && (matches!(word, Word::Hash) || is_named)
        {
            item.kind = match word {
                Word::Rules => ItemKind::Rules,
                _ if is_quiet || matches!(word, Word::Hash) => ItemKind::Hidden,
                _ => ItemKind::Call,
            };
            item.words = words.before(rest);
            item.inside = inside;
            return rest;
        }
        if is_quiet {
            return words.behind_first();
        }
        let rest = behind_public(self.tokens, words);
        self.shown = match words.before(rest).len() {
            0 => Word::Other,
            1 => Word::Public,
            _ => self.tokens.nth(words, 2).word,
        };
        item.shown = self.shown;
        self.read_item(item, rest)
    }

    /// Reads what an item begins with, and gives what follows: at its name.
    fn read_item(&mut self, it: &mut Item, words: Words) -> Words {
        let rest = words.behind_first();
        let next = self.tokens.first(rest);
        let named = next.is_name && !matches!(next.word, Word::As | Word::BeforeValue | Word::In);
        let kind = match self.tokens.front(words) {
            Word::Module if named => return self.read_module(it, rest),
            Word::Function if named => return self.read_body(Kind::Body, words),
            Word::Brace => return self.read_body(Kind::Body, words),
            Word::Implementation => return self.read_body(Kind::Impl, words),
            Word::Struct | Word::Enum | Word::Union if named => ItemKind::Type,
            Word::Alias if named => ItemKind::Alias,
            Word::Constant if named => ItemKind::Constant,
            Word::Static if named => ItemKind::Static,
            Word::Import if !matches!(next.word, Word::Less) => ItemKind::Import,
            Word::External if matches!(next.word, Word::Crate | Word::Mutable) => ItemKind::Crate,
            // Attributes may follow a `pub` that begins none of these.
            _ => return if it.shown == Word::Other { rest } else { words },
        };
        self.take(it, kind, rest);
        rest
    }

    /// Takes the words of an item from its name on, up to a type's body or a semicolon. What the value of a constant or a static
    /// holds may declare types for itself.
    fn take(&mut self, item: &mut Item, kind: ItemKind, words: Words) {
        let words = match (kind, self.tokens.front(words)) {
            (ItemKind::Static | ItemKind::Crate, Word::Crate | Word::Mutable) =>
                words.behind_first(),
            _ => words,
        };
        let has_value = matches!(kind, ItemKind::Constant | ItemKind::Static);
        // a path may follow `*const` and `&raw const`
        let is_path = matches!(self.tokens.nth(words, 2).word, Word::Colon)
            && !matches!(self.tokens.nth(words, 3).word, Word::Colon);
        if has_value && (is_path || !matches!(self.tokens.nth(words, 1).word, Word::Colon)) {
            return;
        }
        let rest = match kind {
            ItemKind::Type => self.tokens.type_up_to(words, BODY),
            _ => self.tokens.up_to(words, &[Word::Semicolon]),
        };
        item.kind = kind;
        item.words = words.before(rest);
        self.quiet = self.tokens.behind(rest).from;
        if has_value {
            self.quiet = self.tokens.up_to(item.words, &[Word::Equals]).from;
            self.scope = self.add_scope(Kind::Body, NO_NAME, rest.from);
        }
    }

    /// Reads what has a body or a semicolon, which lengths in braces may precede, and gives what follows its first word.
    fn read_body(&mut self, kind: Kind, words: Words) -> Words {
        let body = self.tokens.type_up_to(words, BODY);
        self.quiet = body.behind_first().from;
        if let Some((_, after)) = self.tokens.group(body) {
            self.scope = self.add_scope(kind, NO_NAME, after.from);
        }
        words.behind_first()
    }

    /// Adds the files that a module may have: those its attributes name, with `"` round them, and one of its name in any folder.
    fn add_elsewhere(&mut self, attributes: Words, name: Name) {
        self.add_scope(Kind::Elsewhere, name, 0);
        for place in attributes.from..attributes.to.saturating_sub(2) {
            if matches!(self.tokens.at(place).word, Word::Path) {
                self.add_scope(Kind::Elsewhere, self.tokens.at(place + 2).name, 0);
            }
        }
    }

    /// Reads a module, at its name, and gives what is in it or follows it.
    fn read_module(&mut self, item: &mut Item, words: Words) -> Words {
        let name = self.tokens.first(words).name;
        let rest = words.behind_first();
        if item.has(self.tokens, Word::Condition) {
            self.add_scope(Kind::Conditional, name, 0);
        }
        let is_moved = rest.from < self.moved;
        let is_misnamed = is_moved || item.has(self.tokens, Word::Path);
        match (self.tokens.group(rest), is_misnamed) {
            (None, false) => self.add_scope(Kind::Outline, name, 0),
            (None, true) => {
                self.add_elsewhere(item.attributes, name);
                self.add_scope(Kind::Misnamed, name, 0)
            }
            (Some((inside, after)), _) => {
                self.scope = self.add_scope(Kind::Module, name, after.from);
                if (is_misnamed || is_moved_within(self.tokens, inside)) && !is_moved {
                    self.moved = after.from;
                }
                return rest.behind_first();
            }
        };
        rest
    }
}

/// Whether what a module begins with moves its files, as `#![path = ".."]` does.
fn is_moved_within(tokens: &Tokens, words: Words) -> bool {
    let mut rest = words;
    for _ in 0..words.len() {
        match tokens.passed_over(rest) {
            Some((inside, _)) if tokens.has_word(inside, Word::Path) => return true,
            Some((_, behind)) => rest = behind,
            None => break,
        }
    }
    false
}

/// What follows `pub`, with what it is limited to. A type in parentheses may follow it too, as in `pub (crate::Id)`.
pub fn behind_public(tokens: &Tokens, words: Words) -> Words {
    if !matches!(tokens.front(words), Word::Public) {
        return words;
    }
    let rest = words.behind_first();
    match (tokens.front(rest), tokens.group(rest)) {
        (Word::Paren, Some((inside, behind))) => match tokens.front(inside) {
            Word::In => behind,
            Word::Crate | Word::Super | Word::Own if inside.len() == 1 => behind,
            _ => rest,
        },
        _ => rest,
    }
}
