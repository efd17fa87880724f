//! From tokens to declarations.
pub mod by_hand;
mod said;

use crate::cursor::Cursor;
use crate::declaration::{Body, Declaration, Field, Fields, Form, VariantOf};
use crate::head::Marking;
use crate::items::{BODY, Item, behind_public};
use crate::texts::is_listed;
use crate::tokens::{NO_NAME, Name, Tokens, Word, Words};
use crate::words::{
    MOST_FIELDS, MOST_OF_VARIANT, NO_MARK, OF_IMPLEMENTATIONS, ONLY_FIELD, OPEN, OTHER_DERIVE, RAW,
    TWICE, USED,
};
use by_hand::Implemented;
use std::alloc::Global;
use std::collections::BTreeSet;

/// What declarations are read for.
#[derive(Clone, Copy, Drop)]
pub enum Purpose {
    /// To write implementations: names that these use are refused, raw names, fields that are left out, and too many.
    Implementations,
    /// To make schemas.
    Schemas,
}

/// What the declarations of a file are read with.
#[derive(Clone, Copy, Drop)]
pub struct Job<'a, 'b> {
    pub alloc: Global,
    pub purpose: Purpose,
    pub tokens: &'a Tokens,
    pub file: usize,
    pub by_hand: &'b [Implemented],
}

/// Reads a declaration from the start of tokens.
#[derive(Drop)]
pub struct Parser<'a, 'b> {
    job: Job<'a, 'b>,
    /// What marks the declaration.
    marking: Marking<'a>,
    /// What is read, and what is wrong with it.
    pub at: Cursor<'a>,
}

impl<'a, 'b> Parser<'a, 'b> {
    /// A parser of the words of a declaration, after the attributes and comments that mark it so.
    pub fn new(job: Job<'a, 'b>, marking: Marking<'a>, head: Words, rest: Words) -> Self {
        let mut at = Cursor::new(job.alloc, job.tokens, job.file, rest);
        at.line = job.tokens.last(head).line;
        if let Some((line, word)) = marking.wrong {
            at.line = line;
            at.wrong(&["`", word, NO_MARK]);
        }
        Parser { job, marking, at }
    }

    /// Says what is wrong if implementations are to be written.
    fn refuse_in_code(&mut self, is_wrong: bool, pieces: &[&str]) {
        if is_wrong && matches!(self.job.purpose, Purpose::Implementations) {
            self.at.wrong(pieces);
        }
    }

    /// Says why a word is wrong.
    fn refuse_word(&mut self, word: &str, why: &str) {
        self.at.wrong(&["`", word, why]);
    }

    /// Takes attributes, and gives all of them.
    fn attributes(&mut self) -> Words {
        let begun = self.at.rest;
        for _ in 0..begun.len() {
            let Some((words, behind)) = self.at.tokens.attribute(self.at.rest) else {
                break;
            };
            self.at.line = self.at.tokens.first(words).line;
            self.at.rest = behind;
        }
        begun.before(self.at.rest)
    }

    /// Takes a name that may be written `r#name`, and isn't one that the implementations use, if it can't be.
    fn name_of(&mut self, is_free: bool) -> Name {
        let tokens = self.at.tokens;
        let word = tokens.first(self.at.rest);
        let name = tokens.text(word.name);
        self.at.want(word.is_name, "a name is wanted");
        let is_raw = matches!(word.word, Word::Raw);
        self.refuse_in_code(is_raw, &["`r#", name, RAW]);
        let is_used = !is_free && is_listed(name, OF_IMPLEMENTATIONS);
        self.refuse_in_code(is_used, &["`", name, USED]);
        word.name
    }

    /// Adds the name of a field or a variant to those before it, and refuses it if one of these has it.
    fn take_name(&mut self, names: &mut BTreeSet<Name>, name: Name) {
        match names.insert(name) {
            Ok(false) if name != NO_NAME => self.at.refuse(name, TWICE),
            added => self.at.faults.note(added.is_err()),
        }
    }

    /// Takes a discriminant or a field's default, which isn't sent. A `<` in it that begins no shift may hide where it ends.
    fn pass_value(&mut self) {
        if !self.at.take(Word::Equals) {
            return;
        }
        let (tokens, value) = (self.at.tokens, self.at.rest);
        let rest = tokens.up_to(value, &[Word::Comma]);
        let less = tokens.up_to(value.before(rest), &[Word::Less]);
        let is_shift = less.from != value.from && tokens.nth(less, 1).word == Word::Less;
        self.at.rest = rest;
        if !less.is_empty() && !is_shift && tokens.type_up_to(value, &[Word::Comma]) != rest {
            self.refuse_word("<", OPEN);
        }
    }

    /// Takes a field; nothing if it isn't sent.
    fn item(&mut self, place: usize, named: bool) -> Option<Field> {
        let is_written = self.at.variant != NO_NAME && self.marking.marks.written;
        let is_most = place == MOST_FIELDS || (is_written && place == MOST_OF_VARIANT);
        self.refuse_in_code(
            is_most,
            &["more than 36 fields, or than 5 in a variant: make some of them a struct"],
        );
        let tokens = self.at.tokens;
        let attributes = self.attributes();
        self.at.rest = behind_public(tokens, self.at.rest);
        let mut name = NO_NAME;
        if named {
            name = self.name_of(false);
            self.at.owe(Word::Colon, "`:` is wanted");
        }
        self.at.field = Some((place, name));
        let said = self.said(attributes);
        let is_left_out = self.is_left_out(said);
        let ends = &[Word::Comma, Word::Greater, Word::Semicolon, Word::Equals];
        let of = self.at.take_up_to(ends);
        if of.is_empty() {
            self.at.wrong(&["a type is wanted"]);
        } else {
            self.at.line = tokens.last(of).line;
        }
        self.pass_value();
        self.at.field = None;
        let field = Field {
            place,
            name,
            of,
            layout: said.layout,
        };
        (!is_left_out).then_some(field)
    }

    /// Turns to what is in the group at the start, and gives what follows that.
    fn enter(&mut self) -> Words {
        let Some((inside, behind)) = self.at.tokens.group(self.at.rest) else {
            self.at.want(false, "closed brackets are wanted");
            return Words::default();
        };
        self.at.rest = inside;
        behind
    }

    /// Takes the comma before what is next in a list, if something is.
    fn go_on(&mut self) {
        if !self.at.rest.is_empty() {
            self.at.owe(Word::Comma, "`,` is wanted");
        }
    }

    /// Takes fields in braces, in parentheses, or none.
    fn fields(&mut self) -> Fields {
        let form = match self.at.peek() {
            Word::Brace => Form::Named,
            Word::Paren => Form::Tuple,
            _ => Form::Unit,
        };
        let mut fields = Fields {
            form,
            items: Vec::new(self.job.alloc),
            count: 0,
        };
        if matches!(form, Form::Unit) {
            return fields;
        }
        let behind = self.enter();
        let mut names = BTreeSet::new(self.job.alloc);
        for place in 0..self.at.rest.len() {
            if self.at.rest.is_empty() {
                break;
            }
            if let Some(item) = self.item(place, matches!(form, Form::Named)) {
                self.take_name(&mut names, item.name);
                self.at.keep(&mut fields.items, item);
            }
            fields.count = place.saturating_add(1);
            self.go_on();
        }
        self.at.turn_to(behind);
        fields
    }

    /// Takes the variants of an enum, which has one at least.
    fn variants(&mut self) -> Vec<VariantOf> {
        let mut variants = Vec::new(self.job.alloc);
        let mut names = BTreeSet::new(self.job.alloc);
        let behind = self.enter();
        if self.at.rest.is_empty() {
            self.at
                .wrong(&["an enum without variants has no values: leave it out"]);
        }
        for _ in 0..self.at.rest.len() {
            if self.at.rest.is_empty() {
                break;
            }
            let attributes = self.attributes();
            let name = self.name_of(true);
            self.at.variant = name;
            self.take_name(&mut names, name);
            self.said(attributes);
            let fields = self.fields();
            self.pass_value();
            self.at.keep(&mut variants, VariantOf { name, fields });
            self.go_on();
        }
        self.at.variant = NO_NAME;
        self.at.turn_to(behind);
        variants
    }

    /// Takes the lifetimes and type parameters, and gives them, and those that are lengths.
    fn parameters(&mut self) -> (Vec<Name>, Vec<Name>) {
        let (mut parameters, mut lengths) = (Vec::new(self.job.alloc), Vec::new(self.job.alloc));
        if !self.at.take(Word::Less) {
            return (parameters, lengths);
        }
        for _ in 0..self.at.rest.len() {
            if matches!(self.at.peek(), Word::Greater) {
                break;
            }
            self.attributes();
            let is_length = self.at.take(Word::Constant);
            let name = match self.at.peek() {
                Word::Lifetime => self.at.step().name,
                _ => self.name_of(false),
            };
            self.at.take_up_to(&[Word::Comma, Word::Greater]);
            self.at.keep(&mut parameters, name);
            if is_length {
                self.at.keep(&mut lengths, name);
            }
            if !self.at.take(Word::Comma) {
                break;
            }
        }
        self.at.owe(Word::Greater, "`>` is wanted");
        (parameters, lengths)
    }

    /// Takes `where` and gives its bounds, in which there may be lengths in braces, up to the fields or a semicolon.
    fn bounds(&mut self) -> Words {
        if !self.at.take(Word::Where) {
            return Words::default();
        }
        self.at.take_up_to(BODY)
    }

    /// Takes what is declared, and the bounds that follow fields in parentheses.
    fn body(&mut self, kind: Word, bounds: &mut Words) -> Body {
        if matches!(kind, Word::Enum) {
            return Body::Enum(self.variants());
        }
        let fields = self.fields();
        if matches!(fields.form, Form::Tuple) && fields.count == 1 && fields.items.is_empty() {
            self.refuse_word("skip", ONLY_FIELD);
        }
        if !matches!(fields.form, Form::Named) {
            let after = self.bounds();
            *bounds = if bounds.is_empty() { after } else { *bounds };
            self.at.owe(Word::Semicolon, "`;` is wanted");
        }
        Body::Struct(fields)
    }

    /// Takes a declaration, which an item is and which has these words, after its attributes.
    pub fn declaration(&mut self, item: &Item, words: Words) -> Declaration {
        let tokens = self.at.tokens;
        self.at.rest = behind_public(tokens, self.at.rest);
        let kind = self.at.peek();
        let is_one = matches!(kind, Word::Struct | Word::Enum);
        self.at.want(is_one, "a struct or an enum is wanted");
        self.at.name = self.name_of(false);
        let line = self.at.line;
        // What is wrong hides what follows it, and those who use the type need its parameters.
        let begun = self.at.rest;
        let ends = &[Word::Where, Word::Paren, Word::Brace, Word::Semicolon];
        let generics = begun.before(tokens.type_up_to(begun, ends));
        let (parameters, lengths) = self.parameters();
        self.at.line = line;
        let said = self.said(item.attributes);
        if let Some(derive) = self.marking.other {
            self.at.line = derive.line;
            self.at.refuse(derive.name, OTHER_DERIVE);
        }
        self.check_by_hand();
        let mut bounds = self.bounds();
        let body = self.body(kind, &mut bounds);
        self.at.line = line;
        self.check_transparent(said, &body);
        Declaration {
            attributes: item.attributes,
            words,
            name: self.at.name,
            file: self.at.file,
            item: item.place,
            line,
            parameters,
            lengths,
            generics,
            bounds,
            body,
            marks: self.marking.marks,
            sure: self.marking.sure,
            wrong: String::new(self.job.alloc),
        }
    }
}
