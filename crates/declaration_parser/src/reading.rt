//! The marked declarations of files.
ghost use Rattle.std.specs.Prelude.{◌≡◌, ℕ, IfOk, [], string_bytes};
ghost use Rattle.declaration_parser.specs.Marked.{NoMark, is_mark_at};
ghost use Rattle.declaration_parser.specs.Silent.{SaysNothing};
ghost use Rattle.declaration_parser.specs.Standing.{AreInOrder, MarksAreDeclared};

use crate::declaration::Declaration;
use crate::derives::{is_derived, renamed_derive};
use crate::faults::Faults;
use crate::head::Marking;
use crate::items::{BODY, Item, ItemKind, Walk};
use crate::marks::is_mark;
use crate::parser::by_hand::Implemented;
use crate::parser::{Job, Parser, Purpose};
use crate::tokens::{DESERIALIZE, SERIALIZE, Tokens, Word, Words};
use crate::words::{ALMOST, IN_MACRO, IN_WORDS, RENAMES};
use std::alloc::{AllocError, Global};

/// Whether the token at a place is a comment that marks.
fn marks(tokens: &Tokens, place: usize) -> bool
    ensures { result ≡ is_mark_at tokens.now place }
{
    if let Some(token) = tokens.all.get(place)
        && let Some(text) = tokens.texts.get(token.name)
    {
        return is_mark(text.as_str());
    }
    false
}

/// Says why the token at a place is wrong.
fn refuse(tokens: &Tokens, place: usize, why: &str, faults: &mut Faults)
    ensures { ¬ SaysNothing faults.new }
{
    let token = tokens.at(place);
    let file = tokens.name_of_file(tokens.file_at(place));
    faults.refuse(file, token.line, tokens.text(token.name), why);
}

/// Refuses a mark, or all that a macro's call holds, and returns up to where.
fn refuse_mark(tokens: &Tokens, items: &[Item], place: usize, faults: &mut Faults) -> usize
    ensures { ¬ SaysNothing faults.new }
{
    for call in items {
        if call.inside.from <= place && place < call.inside.to {
            refuse(tokens, call.words.from, IN_MACRO, faults);
            return call.inside.to;
        }
    }
    refuse(tokens, place, ALMOST, faults);
    place
}

/// Refuses the marks among words, of which those up to an end are a declaration's.
fn refuse_marks(tokens: &Tokens, items: &[Item], words: Words, end: usize, faults: &mut Faults)
    ensures silent { SaysNothing faults.new → SaysNothing faults.old }
    ensures no_mark { SaysNothing faults.new → NoMark tokens.now words.from words.to }
{
    let mut told = 0;
    for place in words.from..words.to {
        if place < told || !marks(tokens, place) {
            continue;
        }
        if place < end {
            refuse(tokens, place, IN_WORDS, faults);
        } else {
            told = refuse_mark(tokens, items, place, faults);
        }
    }
}

/// Refuses each mark that isn't before one of these declarations.
fn refuse_others(tokens: &Tokens, items: &[Item], found: &[Declaration], faults: &mut Faults)
    ensures silent { SaysNothing faults.new → SaysNothing faults.old }
    ensures declared { SaysNothing faults.new → MarksAreDeclared tokens.now found.now }
{
    let mut from = 0;
    let mut end = 0;
    for it in found {
        let to = it.attributes.from;
        refuse_marks(tokens, items, Words { from, to }, end, faults);
        from = it.attributes.to;
        end = it.words.to;
    }
    let to = tokens.all.len();
    refuse_marks(tokens, items, Words { from, to }, end, faults);
}

/// Whether the call of a macro holds one of serde's derives, and no comment that marks, which is found with the others.
fn holds_derive(tokens: &Tokens, call: &Item) -> bool {
    matches!(call.kind, ItemKind::Call | ItemKind::Hidden)
        && !tokens.has_word(call.inside, Word::Mark)
        && (is_derived(tokens, call.inside, SERIALIZE)
            || is_derived(tokens, call.inside, DESERIALIZE))
}

/// Adds what is wrong with the comments and texts of files, and with the names of derives.
fn add_files(tokens: &Tokens, faults: &mut Faults) {
    for file in &tokens.files {
        faults.put(file.faults.as_str());
        if let Some(place) = renamed_derive(tokens, file.words) {
            refuse(tokens, place, RENAMES, faults);
        }
    }
}

/// Says that nothing is marked, if there is nothing else to say.
fn refuse_nothing(tokens: &Tokens, finds_none: bool, faults: &mut Faults)
    ensures { SaysNothing faults.new → SaysNothing faults.old }
{
    if !finds_none || !faults.is_empty() {
        return;
    }
    let count = tokens.files.len();
    let file = if count == 1 { 0 } else { count };
    faults.put_line(tokens.name_of_file(file), 1);
    faults.put("nothing is marked: write `// message` in a line of its own before a declaration\n");
}

/// The marked declarations that were read, and what is wrong with others.
#[derive(Drop)]
struct Reading {
    found: Vec<Declaration>,
    /// The place after the last of them.
    end: usize,
    faults: Faults,
}

impl Reading {
    /// Keeps a declaration that follows the others.
    fn keep(&mut self, it: Declaration)
        ensures { AreInOrder 0 self.old.found.items self.old.end
            → AreInOrder 0 self.new.found.items self.new.end }
    {
        let (attributes, words) = (it.attributes, it.words);
        if self.end <= attributes.from
            && attributes.from <= attributes.to
            && attributes.to == words.from
            && words.from <= words.to
        {
            match self.found.push(it) {
                Ok(()) => self.end = words.to,
                Err(_) => self.faults.note(true),
            }
        }
    }

    /// Reads an item of a file that ends at a place: a declaration, if it is marked, up to its body or a semicolon. What is wrong
    /// with a declaration is kept with it.
    fn read_item(&mut self, job: Job<'_, '_>, item: &Item, to: usize)
        ensures { AreInOrder 0 self.old.found.items self.old.end
            → AreInOrder 0 self.new.found.items self.new.end }
    {
        let (tokens, attributes) = (job.tokens, item.attributes);
        // what a declaration has taken isn't read anew
        if attributes.from < self.end {
            return;
        }
        let marking = Marking::of(tokens, attributes);
        if !marking.marks.written && !marking.marks.read && marking.wrong.is_none() {
            if holds_derive(tokens, item) {
                refuse(tokens, item.words.from, IN_MACRO, &mut self.faults);
            }
            return;
        }
        let from = attributes.to;
        let body = tokens.type_up_to(Words { from, to }, BODY);
        let to = tokens.behind(body).from;
        let words = Words { from, to };
        let mut parser = Parser::new(job, marking, attributes, words);
        let mut declaration = parser.declaration(item, words);
        declaration.wrong = parser.at.faults.apart_from(&mut self.faults);
        self.keep(declaration);
    }

    /// Reads the items of files.
    fn read_items(&mut self, job: Job<'_, '_>, walk: &Walk<'_>)
        ensures { AreInOrder 0 self.old.found.items self.old.end
            → AreInOrder 0 self.new.found.items self.new.end }
    {
        for item in &walk.items {
            if let Some(scope) = walk.scopes.get(item.scope)
                && let Some(it) = job.tokens.files.get(scope.file)
            {
                let file = scope.file;
                self.read_item(Job { file, ..job }, item, it.words.to);
            }
        }
    }
}

/// What files declare.
#[derive(Drop)]
pub struct AllDeclared<'a> {
    /// What is marked.
    pub all: Vec<Declaration>,
    /// All items, and the scopes that they are in.
    pub walk: Walk<'a>,
    /// What is wrong with others, a line each; or that none is marked.
    pub faults: String,
}

/// Returns what files declare, in order.
///
/// If nothing is wrong, each mark is before a declaration.
pub fn declarations(
    alloc: Global,
    purpose: Purpose,
    tokens: &Tokens,
) -> Result<AllDeclared<'_>, AllocError>
    ensures in_order { IfOk result (λ r. (end : ℕ) × AreInOrder 0 r.all.items end) }
    ensures declared { IfOk result (λ r. string_bytes r.faults ≡ []
        → MarksAreDeclared tokens.now r.all.items) }
{
    let by_hand = Implemented::all(alloc, tokens)?;
    let mut reading = Reading {
        found: Vec::new(alloc),
        end: 0,
        faults: Faults::new(alloc),
    };
    add_files(tokens, &mut reading.faults);
    let walk = Walk::of(alloc, tokens);
    let job = Job {
        alloc,
        purpose,
        tokens,
        file: 0,
        by_hand: &by_hand,
    };
    reading.read_items(job, &walk);
    let (all, mut faults) = (reading.found, reading.faults);
    refuse_others(tokens, &walk.items, &all, &mut faults);
    faults.note(walk.failed);
    refuse_nothing(tokens, all.is_empty(), &mut faults);
    let faults = faults.finished()?;
    Ok(AllDeclared { all, walk, faults })
}
