//! From declarations to the type of the messages.
ghost use Rattle.std.specs.Prelude.{◌≡◌, ◌++◌, codes, IfOk, IfErr, if◌then◌else◌};
ghost use Rattle.wire_c.specs.Flags.{is_set};
ghost use Rattle.wire_c.specs.Texts.{IsOfDeclarations, IsUnrefused, SaysNoText};

use crate::terms::{Told, is_flag};
use declarations::{Error, Schema, Source, read_type};
use std::alloc::Global;
use std::slice;
use wire_lib::DEPTH;
use wire_lib::sizes::bound_lists;
use wire_lib::summed::add_summed;
use wire_lib::words::EMPTY;

/// Why a call has no result.
///
/// Example: see [`write`](crate::writing::write).
#[derive(Debug, Drop)]
pub enum WireFailure {
    /// The declarations or the words of the type can't be taken: lines that say why.
    Wrong(String),
    /// Lines aren't of the type, or exceed a limit: a line `line K: ..` for each, with the way to what is wrong.
    Refused(String),
    /// Out of memory.
    OutOfMemory,
}

/// A type in its table.
#[derive(Drop)]
pub(crate) struct TypeAt {
    pub schema: Schema,
    pub place: usize,
    pub depth: u32,
}

// That a text isn't UTF-8.
fn not_text(alloc: Global, what: &str) -> WireFailure
    ensures unrefused { IsUnrefused result }
    ensures says { SaysNoText what.now result }
{
    match format!(in alloc; "{what} isn't UTF-8\n") {
        Ok(lines) => WireFailure::Wrong(lines),
        Err(_) => WireFailure::OutOfMemory,
    }
}

// The table of a type, and its place there.
fn read_words(told: Told<'_>) -> Result<(Schema, usize), WireFailure>
    ensures unrefused { IfErr result IsUnrefused }
    ensures wrong { IfErr result
        (IsOfDeclarations told.entry.declarations.now told.entry.type_words.now) }
{
    let alloc = told.alloc;
    let Ok(text) = str::from_utf8(told.declarations) else {
        return Err(not_text(alloc, "the text of the declarations"));
    };
    let Ok(words) = str::from_utf8(told.type_words) else {
        return Err(not_text(alloc, "the type"));
    };
    let Ok(text) = String::from_str(alloc, text) else {
        return Err(WireFailure::OutOfMemory);
    };
    let source = Source {
        file: String::new(alloc),
        text,
    };
    match read_type(alloc, slice::from_ref(&source), words) {
        Ok(it) => Ok(it),
        Err(Error::Wrong(lines)) => Err(WireFailure::Wrong(lines)),
        Err(Error::OutOfMemory) => Err(WireFailure::OutOfMemory),
    }
}

/// The type that is written. Lists of elements that take no bytes are bounded, as `wire` bounds them without a word.
pub(crate) fn written_type(told: Told<'_>) -> Result<TypeAt, WireFailure>
    ensures depth { IfOk result (λ it. it.depth ≡ 60) }
    ensures unrefused { IfErr result IsUnrefused }
    ensures wrong { IfErr result
        (IsOfDeclarations told.entry.declarations.now told.entry.type_words.now) }
{
    let (mut schema, place) = match read_words(told) {
        Ok(it) => it,
        Err(failure) => return Err(failure),
    };
    let Ok(()) = bound_lists(told.alloc, &mut schema.nodes, EMPTY) else {
        return Err(WireFailure::OutOfMemory);
    };
    Ok(TypeAt {
        schema,
        place,
        depth: DEPTH,
    })
}

/// The type that is read: with its checksum, if there is one.
pub(crate) fn read_type_of(told: Told<'_>) -> Result<TypeAt, WireFailure>
    ensures depth { IfOk result
        (λ it. it.depth ≡ (if is_set told.entry.terms.crc32 then 61 else 60)) }
    ensures unrefused { IfErr result IsUnrefused }
    ensures wrong { IfErr result
        (IsOfDeclarations told.entry.declarations.now told.entry.type_words.now) }
{
    let TypeAt {
        mut schema,
        place,
        depth,
    } = match written_type(told) {
        Ok(it) => it,
        Err(failure) => return Err(failure),
    };
    if !is_flag(told.terms.crc32) {
        return Ok(TypeAt {
            schema,
            place,
            depth,
        });
    }
    let Ok(place) = add_summed(told.alloc, &mut schema, place) else {
        return Err(WireFailure::OutOfMemory);
    };
    Ok(TypeAt {
        schema,
        place,
        depth: depth.saturating_add(1),
    })
}
