//! The declarations of message types, by their words among the tokens that they were read from.
use crate::tokens::{Name, SERIALIZE, Words};

/// How the bytes of a field are arranged.
#[derive(Clone, Copy, Default, PartialEq, Eq, Drop)]
pub enum Layout {
    /// As its type has it.
    #[default]
    Own,
    /// An integer's, the lowest first, all of them.
    Little,
    /// The highest first.
    Big,
    /// As a buffer's, after their count.
    Buffer,
    /// As an array's.
    Array,
}

/// A field.
#[derive(Clone, Copy, Drop)]
pub struct Field {
    /// Its place among the fields.
    pub place: usize,
    /// Its name; empty if it has none.
    pub name: Name,
    /// The words of its type.
    pub of: Words,
    /// How its bytes are arranged, if an attribute says it.
    pub layout: Layout,
}

/// How fields are written.
#[derive(Clone, Copy, Drop)]
pub enum Form {
    /// Not at all.
    Unit,
    /// By their places, in parentheses.
    Tuple,
    /// By their names, in braces.
    Named,
}

/// The fields of a struct or of a variant.
#[derive(Drop)]
pub struct Fields {
    pub form: Form,
    /// Those that are sent.
    pub items: Vec<Field>,
    /// How many are declared.
    pub count: usize,
}

/// A variant of an enum.
#[derive(Drop)]
pub struct VariantOf {
    pub name: Name,
    pub fields: Fields,
}

/// What is declared.
#[derive(Drop)]
pub enum Body {
    Struct(Fields),
    Enum(Vec<VariantOf>),
}

/// What a declaration is marked for: one of them at least.
#[derive(Clone, Copy, Default, Drop)]
pub struct Marks {
    pub written: bool,
    pub read: bool,
}

impl Marks {
    /// Whether the derive of this name is one of them.
    pub fn has(&self, derive: Name) -> bool {
        match derive {
            SERIALIZE => self.written,
            _ => self.read,
        }
    }

    /// Adds one of them.
    pub fn add(&mut self, is_written: bool) {
        self.written = self.written || is_written;
        self.read = self.read || !is_written;
    }
}

/// A message type.
#[derive(Drop)]
pub struct Declaration {
    /// Its comments and attributes.
    pub attributes: Words,
    /// The words after these.
    pub words: Words,
    pub name: Name,
    /// The file that it is in, by its place, and its own place among the items of all files.
    pub file: usize,
    pub item: usize,
    /// The line of its name.
    pub line: usize,
    /// Its lifetimes and type parameters.
    pub parameters: Vec<Name>,
    /// Those of them that are lengths.
    pub lengths: Vec<Name>,
    /// The words of all, with `<` and `>`, and those of the bounds after `where`.
    pub generics: Words,
    pub bounds: Words,
    pub body: Body,
    pub marks: Marks,
    /// Those of the marks that no `use` can make another crate's: of comments, and of derives by their paths.
    pub sure: Marks,
    /// Why it can't be read, a line each; empty if it can.
    pub wrong: String,
}

impl Declaration {
    /// Whether a derive of this name marks it, which a `use` may make another crate's.
    pub fn is_by_use(&self, derive: Name) -> bool {
        self.marks.has(derive) && !self.sure.has(derive)
    }
}
