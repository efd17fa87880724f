//! The names of files: what each module declares, and what a `use` brings into it.
mod answers;
mod candidates;
pub mod folders;
mod meaning;
mod path;
mod reading;
mod uses;
mod ways;

use crate::known::is_everywhere;
pub use answers::Found;
pub use candidates::Space;
use declaration_parser::declaration::Declaration;
use declaration_parser::items::{self, Kind, Scope, Walk};
use declaration_parser::tokens::{NO_NAME, Name, Tokens, Word, Words};
use meaning::Meaning;
pub use path::Path;
use std::alloc::{AllocError, Global};
use std::collections::{BTreeMap, BTreeSet};

/// What a name stands for where it is declared.
#[derive(Clone, Copy, Drop)]
pub enum What {
    /// The marked type at this place among all declarations.
    Marked(usize),
    /// A type that isn't marked.
    Unmarked,
    /// The words of an alias after its name.
    Alias(Words),
    /// A constant: the words of its type, and those that it is computed of.
    Constant(Words, Words),
    /// A type that isn't taken, for this reason; and a constant.
    Refused(&'static str),
    RefusedConstant(&'static str),
}

/// A name that a scope declares.
#[derive(Clone, Copy, Drop)]
struct Item {
    name: Name,
    what: What,
    scope: usize,
    is_conditional: bool,
}

/// What a `use` brings into a scope: the last name of a path, by this name; by none all of it, as `*` does.
#[derive(Clone, Copy, Default, Drop)]
struct Import {
    name: Name,
    path: Path,
    last: Name,
    scope: usize,
    is_crate: bool,
    is_conditional: bool,
    /// Whether it brings in no constant, as `{self}` doesn't.
    is_module: bool,
    shown: Word,
    /// What the names before the last mean, or the last one if it is alone; of a `*` what it brings all in of.
    before: Meaning,
}

/// The names of files. If memory runs out for one, [`failed`](Scopes::failed) says so.
#[derive(Drop)]
pub struct Scopes<'a> {
    alloc: Global,
    tokens: &'a Tokens,
    scopes: Vec<Scope>,
    items: Vec<Item>,
    imports: Vec<Import>,
    /// Which declarations are marked, by their places among the items of files.
    marked: BTreeMap<usize, usize>,
    /// Where these are, and whether one of the same name is there before.
    stands: BTreeMap<usize, (usize, bool)>,
    marked_names: BTreeSet<(Name, usize)>,
    /// The names that are declared, or brought in from what isn't known.
    named: BTreeSet<Name>,
    /// The names of items, modules and of what a `use` brings in, each with its scope; no name where a `*` is.
    members: BTreeSet<(Name, usize)>,
    /// The word that limits who sees one of them, if it isn't `pub`. A name that a scope has twice counts as private then; `*` is
    /// left out if one of the scope's is `pub`.
    hidden: BTreeMap<(Name, usize), Word>,
    /// The modules that begin with a condition.
    at_times: BTreeSet<usize>,
    /// The rules of macros, whose names are their third words.
    rules: Vec<items::Item>,
    /// The names that are handed to macros, each with the scope, and those that a module hands to one before others.
    handed: BTreeSet<(Name, usize)>,
    handed_first: BTreeSet<Name>,
    /// Tables of endpoints and topics of postcard-rpc's, which aren't read.
    pub endpoints: Vec<Words>,
    pub failed: bool,
}

impl<'a> Scopes<'a> {
    /// The names of files that are these modules and have these items, of which these declarations are marked.
    pub fn new(
        alloc: Global,
        tokens: &'a Tokens,
        modules: &[Name],
        walk: Walk<'a>,
        declared: &[Declaration],
    ) -> Result<Scopes<'a>, AllocError> {
        let mut names = Scopes {
            alloc,
            tokens,
            named: BTreeSet::new(alloc),
            scopes: walk.scopes,
            items: Vec::new(alloc),
            imports: Vec::new(alloc),
            marked: BTreeMap::new(alloc),
            stands: BTreeMap::new(alloc),
            marked_names: BTreeSet::new(alloc),
            members: BTreeSet::new(alloc),
            hidden: BTreeMap::new(alloc),
            at_times: BTreeSet::new(alloc),
            rules: Vec::new(alloc),
            handed: BTreeSet::new(alloc),
            handed_first: BTreeSet::new(alloc),
            endpoints: Vec::new(alloc),
            failed: walk.failed,
        };
        names.find_modules(modules, declared);
        names.read_items(&walk.items, false);
        names.find_leads();
        // which may be of macros that a `use` brings in
        names.read_items(&walk.items, true);
        names.find_leads();
        if names.failed {
            return Err(AllocError);
        }
        Ok(names)
    }

    /// Names the modules that files are, and notes the names of modules in others, and what is marked.
    fn find_modules(&mut self, modules: &[Name], declared: &[Declaration]) {
        for (index, it) in declared.iter().enumerate() {
            self.failed = self.marked.insert(it.item, index).is_err() || self.failed;
        }
        for place in 0..self.scopes.len() {
            if let (Some(it), Some(name)) = (self.scopes.get_mut(place), modules.get(place)) {
                it.name = *name;
            }
            let it = self.scope(place);
            if it.name != NO_NAME {
                let is_file = it.outer == place;
                let shown = if is_file { Word::Public } else { it.shown };
                self.put_member(it.name, it.outer, shown);
            }
        }
    }

    fn put_member(&mut self, name: Name, scope: usize, shown: Word) {
        let member = (name, scope);
        let is_new = !self.members.contains(&member);
        self.failed = self.members.insert(member).is_err() || self.failed;
        if shown != Word::Public && (name != NO_NAME || is_new) {
            let shown = if is_new { shown } else { Word::Other };
            self.failed = self.hidden.insert(member, shown).is_err() || self.failed;
        } else if name == NO_NAME && shown == Word::Public {
            self.hidden.remove(&member);
        }
    }

    /// The scope at a place; one in no file if there is none.
    pub fn scope(&self, place: usize) -> Scope {
        match self.scopes.get(place) {
            Some(it) => *it,
            None => Scope {
                kind: Kind::File,
                name: NO_NAME,
                file: self.tokens.files.len(),
                outer: place,
                end: 0,
                shown: Word::Public,
            },
        }
    }

    /// Adds a scope for words that are in no file, which sees what the files declare.
    pub fn add_outside(&mut self) -> usize {
        let place = self.scopes.len();
        let scope = self.scope(place);
        self.failed = self.scopes.push(scope).is_err() || self.failed;
        place
    }

    /// The scope of a marked declaration, unless it is in another item's words, and whether another in it precedes it by its name.
    pub fn stand(&self, index: usize) -> Option<(usize, bool)> {
        self.stands.get(&index).copied()
    }

    /// Whether a file declares a name, or brings it in from what isn't known.
    pub fn has(&self, name: Name) -> bool {
        self.named.contains(&name)
    }

    /// Whether a module has a name that every file has by itself, since none gives it to anything else.
    pub fn is_untouched(&self, scope: usize, name: Name) -> bool {
        let mut members = self.members.range((name, 0)..=(name, usize::MAX));
        let is_taken = self.has(name) || members.next().is_some() || self.is_inner(scope);
        !is_taken && is_everywhere(self.tokens.text(name))
    }

    fn has_star(&self, scope: usize) -> bool {
        self.members.contains(&(NO_NAME, scope))
    }

    /// Whether a scope is in a module, as a body is.
    fn is_inner(&self, scope: usize) -> bool {
        matches!(self.scope(scope).kind, Kind::Body | Kind::Impl)
    }
}
