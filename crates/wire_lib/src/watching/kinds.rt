//! The kinds of messages of a type: the variants of an enum, else the type itself.
ghost use Rattle.std.specs.Prelude.{◌≡◌, ◌++◌, ◌∷◌, [], ℕ, IfOk, OnOk, string_bytes};
ghost use Rattle.std.specs.List.{All, slice_get};
ghost use Rattle.schema_table.specs.Looks.{is_empty_named};
ghost use Rattle.schema_table.specs.Telling.{names_at, node_at};
ghost use Rattle.wire_lib.specs.Kinds.{IsTextBeside, kind_in, kinds_of, part_beside, payload_in, shortened, type_name as name_in};
ghost use Rattle.wire_lib.specs.Tables.{row_names};

use crate::receive::Reading;
use crate::watching::table::Row;
use schema_table::{Names, Schema};
use schemas::{Node, Value};
use std::alloc::{AllocError, Global};
use wire_print::print::{Look, print};

/// How many bytes are kept of a message's text.
pub const LONGEST: usize = 1024;

/// The name of a kind whose type has none.
const MESSAGE: &str = "message";

/// Appends a row for a kind of this name.
fn push_row(alloc: Global, rows: &mut Vec<Row>, name: &str) -> Result<(), AllocError>
    requires { All (λ row. row.count ≡ 0) rows.old.items }
    ensures none { OnOk result (All (λ row. row.count ≡ 0) rows.new.items) }
    ensures names { OnOk result
        (row_names rows.new.items ≡ row_names rows.old.items ++ name.now ∷ []) }
{
    let name = String::from_str(alloc, name)?;
    Ok(rows.push(Row::new(name, alloc))?)
}

/// Returns a row for each kind of messages of the type at index `place`: one for each variant of an enum, else one.
///
/// # Errors
/// Out of memory.
///
/// # Allocates
/// The rows, and their names.
pub fn rows_of(alloc: Global, schema: &Schema, place: usize) -> Result<Vec<Row>, AllocError>
    ensures none { IfOk result (λ rows. All (λ row. row.count ≡ 0) rows.items) }
    ensures kinds { IfOk result (λ rows. row_names rows.items ≡ kinds_of schema.now place) }
{
    let mut rows = Vec::new(alloc);
    let Some(Names::Variants(names)) = schema.names.get(place) else {
        push_row(alloc, &mut rows, type_name(schema, place))?;
        return Ok(rows);
    };
    for name in names {
        push_row(alloc, &mut rows, name.as_str())?;
    }
    Ok(rows)
}

/// The name of the type at that index, or `message` if it has none.
fn type_name(schema: &Schema, place: usize) -> &str
    ensures { result.now ≡ name_in (slice_get schema.now.types.items place) }
{
    match schema.types.get(place) {
        Some(it) => it.name.as_str(),
        None => MESSAGE,
    }
}

/// Returns the index of a value's row.
pub fn kind_of(value: &Value) -> usize
    ensures { result ≡ kind_in value.now }
{
    match value {
        Value::Variant(index, _) => *index as usize,
        _ => 0,
    }
}

/// The index of a variant's payload.
fn payload_of(schema: &Schema, place: usize, index: u32) -> Option<usize>
    ensures { result ≡ payload_in (node_at schema.now place) index }
{
    match schema.nodes.get(place) {
        Some(Node::Enum(payloads)) => match payloads.get(index as usize) {
            Some(payload) => Some(*payload),
            None => None,
        },
        _ => None,
    }
}

/// What stands beside a value's kind, with the index of its type: a variant's payload, else the whole value.
fn part_of<'a>(schema: &Schema, place: usize, value: &'a Value) -> (usize, &'a Value)
    ensures { (result.0, result.1.now) ≡ part_beside schema.now place value.now }
{
    match value {
        Value::Variant(index, held) => match payload_of(schema, place, *index) {
            Some(payload) => (payload, &**held),
            None => (place, value),
        },
        _ => (place, value),
    }
}

/// Whether the type at that index has no fields.
fn is_fieldless(schema: &Schema, place: usize) -> bool
    ensures { result ≡ is_empty_named (names_at schema.now place) }
{
    matches!(schema.names.get(place), Some(Names::Empty))
}

/// A text; of a long one its first [`LONGEST`] bytes or a few more, and `..`.
fn short(alloc: Global, text: &str) -> Result<String, AllocError>
    ensures { IfOk result (λ kept. string_bytes kept ≡ shortened text.now) }
{
    let mut kept = String::new(alloc);
    for character in text.chars() {
        if kept.len() >= LONGEST {
            kept.push_str("..")?;
            return Ok(kept);
        }
        kept.push(character)?;
    }
    Ok(kept)
}

/// Returns a value's text beside its kind: the JSON of a variant's payload, empty without fields; else the whole value's JSON. Of a
/// long text it has the first [`LONGEST`] bytes or a few more, and `..`.
///
/// # Errors
/// Out of memory.
///
/// # Allocates
/// The text, of at most a few more than [`LONGEST`] bytes. The whole JSON is freed.
pub fn text_of(reading: Reading<'_>, value: &Value) -> Result<String, AllocError>
    ensures { IfOk result (λ text. IsTextBeside reading.entry value.now (string_bytes text)) }
{
    let Reading {
        alloc,
        schema,
        hex,
        depth,
        ..
    } = reading;
    let (at, held) = part_of(schema, reading.place, value);
    if is_fieldless(schema, at) {
        return Ok(String::new(alloc));
    }
    let bytes = print(alloc, schema, at, Look { hex, depth }, held)?;
    match str::from_utf8(bytes.as_slice()) {
        Ok(text) => short(alloc, text),
        Err(_) => Ok(String::new(alloc)),
    }
}
