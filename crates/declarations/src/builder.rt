//! From declared types to the nodes of a table.
ghost use Rattle.std.specs.Prelude.{IfOk};
ghost use Rattle.declarations.specs.Tables.{HasItsTypes, NamesItsNodes};
ghost use Rattle.schema_table.specs.Telling.{NamesTellParts};

mod lengths;
mod types;

use crate::known::{KnownForm, NOWHERE};
use crate::names::Scopes;
use crate::{CheckedSources, Error, Named, Names, Schema};
use declaration_parser::cursor::Cursor;
use declaration_parser::declaration::{Body, Declaration, Field, Fields, Form, Layout, VariantOf};
use declaration_parser::derives::OF_OTHER_CRATE;
use declaration_parser::tokens::{DESERIALIZE, NO_NAME, Name, SERIALIZE, Tokens, Words};
use schema_table::Node;
use std::alloc::{AllocError, Global};
use std::collections::{BTreeMap, BTreeSet};
use std::slice;

/// How deep the words of one type may nest, as `Vec<Option<u8>>` nests three deep.
const DEEPEST: u32 = 64;

/// Where words are: their scope, and the type whose parameters they may name; nowhere if they name none.
#[derive(Clone, Copy, PartialEq, Eq, Drop)]
struct Context {
    scope: usize,
    own: usize,
}

/// What stands for a parameter: words, and where they are.
#[derive(Clone, Copy, Drop)]
struct Given {
    name: Name,
    is_length: bool,
    words: Words,
    at: Context,
}

/// A declared type that the table has: which, what stands for its parameters, its place, and how deep its words may nest.
#[derive(Drop)]
struct Made {
    index: usize,
    of: Vec<Given>,
    place: usize,
    depth: u32,
}

/// Makes nodes of the words of types. What is wrong is noted and hides the words after it in the same field.
#[derive(Drop)]
pub struct Builder<'a> {
    alloc: Global,
    tokens: &'a Tokens,
    /// What is declared, and the scope of words that are in no file, but asked for.
    all: &'a [Declaration],
    names: &'a Scopes<'a>,
    asked: usize,
    /// The declared types that the table has, in the order in which they were met; each is made in its turn.
    made: Vec<Made>,
    /// The places of these, by what tells each from others.
    owns: BTreeMap<Vec<usize>, usize>,
    /// The words of a type that aren't read yet, where they are, and what is wrong in those that are read.
    at: Context,
    words: Cursor<'a>,
    /// How many numbers more the length that is read may be computed of.
    left: u32,
    /// The constant that can't be one of its numbers, and why; no name if there is none, or if the length goes too far.
    doubt: (Name, &'static str),
    /// Whether types were said to nest too deep.
    is_too_deep: bool,
    schema: Schema,
    /// Of each node whether it can be read.
    readable: Vec<bool>,
    /// The places of integers that are as wide as addresses.
    sized: Vec<usize>,
}

/// Notes that nodes can't be read whose types can't be, from the last node to the first; and whether there were some.
fn find_unreadable(nodes: &[Node], readable: &mut [bool]) -> bool {
    let mut found = false;
    for (place, node) in nodes.iter().enumerate().rev() {
        let parts = match node {
            Node::Struct(parts) | Node::Enum(parts) => parts.as_slice(),
            Node::Option(inner)
            | Node::List(inner)
            | Node::ListUpTo(_, inner)
            | Node::Array(_, inner) => slice::from_ref(inner),
            _ => &[],
        };
        for part in parts {
            if !matches!(readable.get(*part), Some(true))
                && let Some(it) = readable.get_mut(place)
            {
                found = found || *it;
                *it = false;
            }
        }
    }
    found
}

/// The lines of a text, but none twice, as a type with parameters has them that is made again.
fn each_once(alloc: Global, text: &str) -> Result<String, AllocError> {
    let (mut lines, mut once) = (BTreeSet::new(alloc), String::new(alloc));
    for line in text.split_inclusive('\n') {
        if lines.insert(line)? {
            once.push_str(line)?;
        }
    }
    Ok(once)
}

/// What a path begins with that names a layout: each has to lead out of the files.
fn roots_of(layout: Layout) -> &'static str {
    match layout {
        Layout::Little | Layout::Big => "postcard",
        Layout::Buffer => "serde_bytes",
        Layout::Array => "BigArray serde_big_array serde_arrays",
        Layout::Own => "",
    }
}

impl<'a> Builder<'a> {
    /// A table without nodes, of what these files declare.
    pub fn new(
        alloc: Global,
        tokens: &'a Tokens,
        all: &'a [Declaration],
        names: &'a Scopes<'a>,
        asked: usize,
    ) -> Builder<'a> {
        let own = NOWHERE;
        Builder {
            alloc,
            tokens,
            all,
            names,
            asked,
            made: Vec::new(alloc),
            owns: BTreeMap::new(alloc),
            at: Context { scope: asked, own },
            words: Cursor::new(alloc, tokens, 0, Words::default()),
            left: 0,
            doubt: (NO_NAME, ""),
            is_too_deep: false,
            schema: Schema {
                types: Vec::new(alloc),
                nodes: Vec::new(alloc),
                names: Vec::new(alloc),
            },
            readable: Vec::new(alloc),
            sized: Vec::new(alloc),
        }
    }

    /// Notes what is wrong at the last word, unless something is already. The place is none of the table's.
    fn wrong(&mut self, pieces: &[&str]) -> usize {
        self.words.wrong(pieces);
        NOWHERE
    }

    /// Notes why a name is wrong: what is said after it.
    fn refuse(&mut self, name: Name, why: &str) -> usize {
        self.words.refuse(name, why);
        NOWHERE
    }

    /// Turns to words that are there.
    fn turn_to(&mut self, at: Context) {
        self.at = at;
        self.words.is_without_line = at.scope == self.asked;
        self.words.file = self.names.scope(at.scope).file;
    }

    /// Appends a node, and gives its place.
    fn add(&mut self, node: Node, names: Names) -> usize {
        let place = self.schema.nodes.len();
        self.words.push(&mut self.schema.nodes, node);
        self.words.push(&mut self.schema.names, names);
        self.words.push(&mut self.readable, true);
        place
    }

    /// Puts a node at a place that the table has, and gives that.
    fn put(&mut self, place: usize, node: Node, names: Names) -> usize {
        if let Some(old) = self.schema.nodes.get_mut(place) {
            *old = node;
        }
        if let Some(old) = self.schema.names.get_mut(place) {
            *old = names;
        }
        place
    }

    fn text_of(&mut self, name: &str) -> String {
        let mut text = String::new(self.alloc);
        self.words.faults.note(text.push_str(name).is_err());
        text
    }

    fn put_name(&mut self, names: &mut Vec<String>, name: &str) {
        let text = self.text_of(name);
        self.words.push(names, text);
    }

    /// Gives the place of the type that words say which are asked for. Without words it begins the table with all declared types
    /// without parameters, and says what is wrong with the files, which `faults` says, and with the other types.
    pub fn begin(&mut self, words: Option<Words>, faults: &str) -> usize {
        if let Some(words) = words {
            return self.place(words, self.at, DEEPEST);
        }
        self.words.faults.put(faults);
        for (index, it) in self.all.iter().enumerate() {
            // lifetimes precede other parameters
            if let Some(last) = it.parameters.last()
                && !self.tokens.text(*last).starts_with('\'')
            {
                self.is_refused(it);
                continue;
            }
            self.instance(index, DEEPEST);
            let (name, line) = (self.text_of(self.tokens.text(it.name)), it.line);
            self.words
                .push(&mut self.schema.types, Named { name, line });
        }
        0
    }

    /// Whether a declaration is refused by its own words, of which it says what is wrong.
    fn is_refused(&mut self, it: &Declaration) -> bool {
        self.words.faults.put(it.wrong.as_str());
        !it.wrong.is_empty()
    }

    /// Makes a declared type at its place, unless it can't be read.
    fn make(&mut self, own: usize, index: usize, place: usize, depth: u32) {
        let Some(it) = self.all.get(index) else {
            return;
        };
        if self.is_refused(it) {
            return;
        }
        let stand = self.names.stand(index);
        let (scope, is_second) = stand.unwrap_or((self.asked, false));
        self.turn_to(Context { scope, own });
        self.words.is_without_line = false;
        self.words.file = it.file;
        self.words.is_wrong = false;
        self.words.name = it.name;
        self.words.variant = NO_NAME;
        self.words.field = None;
        self.words.line = it.line;
        if stand.is_none() {
            self.wrong(&[
                "a declaration in the words of another item isn't read: write it beside that",
            ]);
        } else if is_second {
            self.wrong(&["the file declares this name twice: leave out what isn't on the wire"]);
        }
        for derive in [SERIALIZE, DESERIALIZE] {
            if it.is_by_use(derive) && self.names.has_other_derive(scope, derive) {
                self.refuse(derive, OF_OTHER_CRATE);
            }
        }
        if self.words.is_wrong {
            return;
        }
        let (node, names) = match &it.body {
            Body::Struct(fields) => self.group(fields, depth),
            Body::Enum(variants) => self.choice(variants, depth),
        };
        self.put(place, node, names);
    }

    /// A struct of these fields.
    fn group(&mut self, fields: &Fields, depth: u32) -> (Node, Names) {
        let mut places = Vec::new(self.alloc);
        let mut names = Vec::new(self.alloc);
        for field in &fields.items {
            let place = self.field(field, depth);
            self.words.push(&mut places, place);
            self.put_name(&mut names, self.tokens.text(field.name));
        }
        let names = match fields.form {
            Form::Unit => Names::Unit,
            Form::Tuple if fields.items.len() == 1 && fields.count == 1 => Names::Newtype,
            Form::Tuple => Names::Tuple,
            Form::Named => Names::Fields(names),
        };
        (Node::Struct(places), names)
    }

    /// An enum of these variants. One with a field without a name holds its type, any other a struct.
    fn choice(&mut self, variants: &[VariantOf], depth: u32) -> (Node, Names) {
        let mut places = Vec::new(self.alloc);
        let mut names = Vec::new(self.alloc);
        for VariantOf { name, fields } in variants {
            self.words.variant = *name;
            let place = match (fields.form, fields.items.as_slice(), fields.count) {
                (Form::Tuple, [only], 1) => self.field(only, depth),
                (Form::Unit, ..) => self.add(Node::Struct(Vec::new(self.alloc)), Names::Empty),
                _ => {
                    let (node, names) = self.group(fields, depth);
                    self.add(node, names)
                }
            };
            self.words.push(&mut places, place);
            self.put_name(&mut names, self.tokens.text(*name));
        }
        (Node::Enum(places), Names::Variants(names))
    }

    /// The place of the type of a field, whose bytes an attribute may lay out.
    fn field(&mut self, field: &Field, depth: u32) -> usize {
        self.words.is_wrong = false;
        self.words.field = Some((field.place, field.name));
        let place = self.place(field.of, self.at, depth);
        if self.words.is_wrong {
            return NOWHERE;
        }
        self.words.line = self.tokens.first(field.of).line;
        let roots = roots_of(field.layout);
        for root in roots.split_whitespace() {
            let name = self.tokens.found_name(root);
            if !self.names.is_foreign(self.at.scope, name, roots) {
                return self.wrong(&[
                    "`with` names something of these files or of another crate here: write the type that is on the wire",
                ]);
            }
        }
        match (field.layout, self.schema.nodes.get(place)) {
            (Layout::Little, _) => self.ordered(KnownForm::Little, field.of, place),
            (Layout::Big, _) => self.ordered(KnownForm::Big, field.of, place),
            (Layout::Own, _)
            | (Layout::Buffer, Some(Node::Bytes))
            | (Layout::Array, Some(Node::Array(..))) => place,
            (Layout::Buffer, Some(Node::Option(inner)))
                if matches!(self.schema.nodes.get(*inner), Some(Node::Bytes)) => place,
            (Layout::Buffer, _) => self.wrong(&[
                "`serde_bytes` sends how many bytes there are before them: write `ByteBuf` in its place",
            ]),
            _ => self.wrong(&["`with` is of an array here: write the type that is on the wire"]),
        }
    }

    /// Makes the types that are still to be made, and those that these need; then it is known what can be read.
    fn make_owed(&mut self) {
        for own in 0..usize::MAX {
            let Some(it) = self.made.get(own) else {
                break;
            };
            let (index, place, depth) = (it.index, it.place, it.depth);
            self.make(own, index, place, depth);
        }
        for _ in 0..self.schema.nodes.len() {
            if !find_unreadable(&self.schema.nodes, &mut self.readable) {
                break;
            }
        }
    }

    /// The table with all types that are still to be made, and what is wrong, a line each. Each node has names.
    pub fn finished(self) -> Result<CheckedSources, Error>
        ensures told { IfOk result (λ made. NamesTellParts made.schema) }
        ensures named { IfOk result (λ made. NamesItsNodes made.schema) }
        ensures declared { IfOk result (λ made. HasItsTypes made.schema) }
    {
        let mut builder = self;
        builder.make_owed();
        let wrong = each_once(builder.alloc, builder.words.faults.finished()?.as_str())?;
        let schema = builder.schema;
        let count = schema.nodes.len();
        // Each has a node and names, unless memory ran out.
        if schema.names.len() != count || schema.types.len() > count {
            return Err(Error::OutOfMemory);
        }
        // Its declaration is refused where two fields or variants have one name.
        if !schema.names_tell_parts(builder.alloc)? {
            let why = "two fields or two variants of a type have one name\n";
            return Err(Error::Wrong(String::from_str(builder.alloc, why)?));
        }
        let readable = builder.readable;
        Ok(CheckedSources {
            schema,
            readable,
            wrong,
        })
    }
}
