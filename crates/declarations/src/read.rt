//! From files of declarations to a table.
ghost use Rattle.std.specs.Prelude.{◌≡◌, ◌<◌, length, IfOk};
ghost use Rattle.declarations.specs.Tables.{HasItsTypes, NamesItsNodes};
ghost use Rattle.schema_table.specs.Telling.{NamesTellParts};

use crate::Schema;
use crate::builder::Builder;
use crate::names::Scopes;
use crate::names::folders::module_of_file;
use declaration_parser::parser::Purpose;
use declaration_parser::reading::{AllDeclared, declarations};
use declaration_parser::tokens::{Name, Tokens};
use std::alloc::{AllocError, Global};
use std::slice;

/// A file of declarations.
#[derive(Drop)]
pub struct Source {
    /// The name that errors begin with; empty if it has none.
    pub file: String,
    /// Its text.
    pub text: String,
}

/// Why declarations have no schema.
#[derive(Debug, Drop)]
pub enum Error {
    /// Something can't be taken: lines like ``line 3: `Level` isn't declared``, each with its line feed.
    Wrong(String),
    /// Out of memory.
    OutOfMemory,
}

impl From<AllocError> for Error {
    fn from(_: AllocError) -> Error {
        Error::OutOfMemory
    }
}

/// What files declare, and whether it can be read.
#[derive(Drop)]
pub struct CheckedSources {
    /// One table of all types. It begins with those that are declared without parameters.
    pub schema: Schema,
    /// Of each node whether it can be read.
    pub readable: Vec<bool>,
    /// What is wrong: lines like ``line 3: `Level` isn't declared``, each with its line feed; empty if nothing is.
    pub wrong: String,
}

/// The tokens of files, and the names of the modules that they are: a crate's has `_` for the `-` of its folder.
fn tokens_in(alloc: Global, sources: &[Source]) -> Result<(Tokens, Vec<Name>), AllocError> {
    let mut tokens = Tokens::new(alloc)?;
    let mut modules = Vec::new(alloc);
    for source in sources {
        tokens = tokens.with_file(alloc, source.file.as_str(), source.text.as_str())?;
        let module = module_of_file(source.file.as_str()).replace(alloc, '-', "_")?;
        modules.push(tokens.name_of(alloc, module.as_str())?)?;
    }
    Ok((tokens, modules))
}

/// The table of a type by its words, whose place there is noted; without words of all declared types without parameters.
fn table_of(
    alloc: Global,
    sources: &[Source],
    words: Option<&str>,
    place: &mut usize,
) -> Result<CheckedSources, Error>
    ensures told { IfOk result (λ made. NamesTellParts made.schema) }
    ensures named { IfOk result (λ made. NamesItsNodes made.schema) }
    ensures declared { IfOk result (λ made. HasItsTypes made.schema) }
{
    let (tokens, modules) = tokens_in(alloc, sources)?;
    let mut tokens = tokens.with_file(alloc, "", words.unwrap_or(""))?;
    let asked = match tokens.files.pop() {
        Some(file) if words.is_some() => Some(file.words),
        _ => None,
    };
    let AllDeclared { all, walk, faults } = declarations(alloc, Purpose::Schemas, &tokens)?;
    let mut names = Scopes::new(alloc, &tokens, &modules, walk, &all)?;
    let outside = names.add_outside();
    let mut builder = Builder::new(alloc, &tokens, &all, &names, outside);
    *place = builder.begin(asked, faults.as_str());
    builder.finished()
}

/// Returns one table of the marked declarations of a text: those after a line `// message`, or with `Serialize` or
/// `Deserialize` among their derives. A type may hold itself.
///
/// # Errors
/// - `Wrong`: a line for each thing that can't be read, with its line in `text`.
/// - `OutOfMemory`.
pub fn read_schema(alloc: Global, text: &str) -> Result<Schema, Error>
    ensures told { IfOk result (λ table. NamesTellParts table) }
    ensures named { IfOk result (λ table. NamesItsNodes table) }
    ensures declared { IfOk result (λ table. HasItsTypes table) }
{
    let file = String::new(alloc);
    let text = String::from_str(alloc, text)?;
    read_sources(alloc, slice::from_ref(&Source { file, text }))
}

/// Returns what [`read_schema`] does, of the declarations of all these files.
///
/// # Errors
/// As [`read_schema`]; each line begins with the file's name, if it has one.
pub fn read_sources(alloc: Global, sources: &[Source]) -> Result<Schema, Error>
    ensures told { IfOk result (λ table. NamesTellParts table) }
    ensures named { IfOk result (λ table. NamesItsNodes table) }
    ensures declared { IfOk result (λ table. HasItsTypes table) }
{
    unless_wrong(check_sources(alloc, sources)?)
}

/// The table, if nothing is wrong.
fn unless_wrong(made: CheckedSources) -> Result<Schema, Error>
    ensures { IfOk result (λ table. table ≡ made.schema) }
{
    if !made.wrong.is_empty() {
        return Err(Error::Wrong(made.wrong));
    }
    Ok(made.schema)
}

/// Returns the table of a type, given by words such as `Reading`, `Framed<Accel>`, `[Rgb8; 24]` or `v1::Config`, and its place
/// there. Only what they reach has to be readable.
///
/// # Errors
/// - `Wrong`: the words are no type that can be read. If a name isn't there, it has the nearest one, and all that there are.
/// - `OutOfMemory`.
pub fn read_type(alloc: Global, sources: &[Source], words: &str) -> Result<(Schema, usize), Error>
    ensures told { IfOk result (λ r. NamesTellParts r.0) }
    ensures named { IfOk result (λ r. NamesItsNodes r.0) }
    ensures within { IfOk result (λ r. r.1 < length r.0.nodes.items) }
{
    let mut place = 0;
    let schema = unless_wrong(table_of(alloc, sources, Some(words), &mut place)?)?;
    if place >= schema.nodes.len() {
        return Err(Error::OutOfMemory);
    }
    Ok((schema, place))
}

/// Returns the table of all declared types without parameters, which can be read, and what is wrong with the files and the others.
///
/// # Errors
/// - `Wrong`: no file is given.
/// - `OutOfMemory`.
pub fn check_sources(alloc: Global, sources: &[Source]) -> Result<CheckedSources, Error>
    ensures told { IfOk result (λ made. NamesTellParts made.schema) }
    ensures named { IfOk result (λ made. NamesItsNodes made.schema) }
    ensures declared { IfOk result (λ made. HasItsTypes made.schema) }
{
    if sources.is_empty() {
        return Err(Error::Wrong(String::from_str(alloc, "no file of declarations is named\n")?));
    }
    table_of(alloc, sources, None, &mut 0)
}
