//! What printing and parsing have to agree on about the JSON of a type.
ghost use Rattle.std.specs.Prelude.{◌≡◌, ◌&&◌, IfSome, None, Some, length};
ghost use Rattle.schema_table.specs.Telling.{names_at, node_at};
ghost use Rattle.schema_table.specs.Looks.{is_byte_node, is_float_named, is_empty_named, is_map_named, is_newtype_named, inside_of, only_field as field_at, null_type, null_within, are_empty_named, plain_key_node, key_type, key_within, pair_node, first_is_key};

use crate::node::Node;
use crate::schema::{Names, Schema};

/// The key of a present optional value whose own JSON could be `null`.
pub const PRESENT: &str = "Some";

/// The prefix of the string for a NaN other than the usual one; its bits follow in hexadecimal.
pub const NAN_PREFIX: &str = "NaN:";

/// The sign bit of an `f32`.
pub const SIGN: u32 = 0x8000_0000;

/// The exponent bits of an infinity; greater without the sign is a NaN.
pub const EXPONENT: u32 = 0x7f80_0000;

/// The sign bit of an `f64`.
pub const DOUBLE_SIGN: u64 = 0x8000_0000_0000_0000;

/// The exponent bits of an infinity, as [`EXPONENT`].
pub const DOUBLE_EXPONENT: u64 = 0x7ff0_0000_0000_0000;

/// The type at index `place`; `None` if there is none.
pub fn node_of(schema: &Schema, place: usize) -> Option<&Node>
    ensures some { IfSome result (λ node. node_at schema.now place ≡ Some node.now) }
    ensures none { result ≡ None → node_at schema.now place ≡ None }
{
    schema.nodes.get(place)
}

/// The names of the type at index `place`; `None` if there is none.
pub fn names_of(schema: &Schema, place: usize) -> Option<&Names>
    ensures some { IfSome result (λ names. names_at schema.now place ≡ Some names.now) }
    ensures none { result ≡ None → names_at schema.now place ≡ None }
{
    schema.names.get(place)
}

/// Whether the type at index `place` is a newtype.
fn is_newtype(schema: &Schema, place: usize) -> bool
    ensures { result ≡ is_newtype_named (names_at schema.now place) }
{
    matches!(schema.names.get(place), Some(Names::Newtype))
}

/// The index of the only field of a struct; `None` for another type, or another number of fields.
pub fn only_field(schema: &Schema, place: usize) -> Option<usize>
    ensures { result ≡ field_at (node_at schema.now place) }
{
    match schema.nodes.get(place) {
        Some(Node::Struct(fields)) => match fields.as_slice() {
            [only] => Some(*only),
            _ => None,
        },
        _ => None,
    }
}

/// Returns the index of the type inside a newtype; `None` for another type.
pub fn inside_newtype(schema: &Schema, place: usize) -> Option<usize>
    ensures { result ≡ inside_of schema.now place }
{
    if !is_newtype(schema, place) {
        return None;
    }
    only_field(schema, place)
}

/// Whether a value of the type at index `place` can have the JSON `null`, newtypes apart.
fn is_null(schema: &Schema, place: usize) -> bool
    ensures { result ≡ null_type schema.now place }
{
    matches!(schema.names.get(place), Some(Names::Unit | Names::Empty))
        || is_newtype(schema, place)
        || matches!(schema.nodes.get(place), Some(Node::Option(_)) | None)
}

/// Returns whether a value of the type at index `place` can have the JSON `null`: an option, `()`, or a newtype of one of these.
pub fn may_be_null(schema: &Schema, place: usize) -> bool
    ensures { result ≡ null_within (length schema.now.nodes.items) schema.now place }
{
    let mut at = place;
    for _ in 0..schema.nodes.len() {
        match inside_newtype(schema, at) {
            Some(inner) => at = inner,
            None => return is_null(schema, at),
        }
    }
    true
}

/// Whether a node's values can be the keys of an object, newtypes and enums apart.
fn is_plain_key(node: &Node) -> bool
    ensures { result ≡ plain_key_node node.now }
{
    !matches!(
        node,
        Node::Bytes
            | Node::Option(_)
            | Node::List(_)
            | Node::ListUpTo(..)
            | Node::Array(..)
            | Node::Struct(_)
            | Node::Enum(_)
    )
}

/// Whether no variant has fields, by the indices of their payloads.
fn are_empty(schema: &Schema, payloads: &[usize]) -> bool
    ensures { result ≡ are_empty_named schema.now payloads.now }
{
    for payload in payloads {
        if !is_empty(schema, *payload) {
            return false;
        }
    }
    true
}

/// Whether the values of the type at index `place` can be keys of an object, newtypes apart.
fn is_own_key(schema: &Schema, place: usize) -> bool
    ensures { result ≡ key_type schema.now place }
{
    if is_float(schema, place) {
        return false;
    }
    match schema.nodes.get(place) {
        Some(Node::Enum(payloads)) => are_empty(schema, payloads),
        Some(node) => is_plain_key(node),
        None => false,
    }
}

/// Whether the values of the type at index `place` can be keys of an object: texts, characters, booleans, integers, variants
/// without fields, and newtypes of these.
fn is_key(schema: &Schema, place: usize) -> bool
    ensures { result ≡ key_within (length schema.now.nodes.items) schema.now place }
{
    let mut at = place;
    for _ in 0..schema.nodes.len() {
        match inside_newtype(schema, at) {
            Some(inner) => at = inner,
            None => return is_own_key(schema, at),
        }
    }
    false
}

/// The indices of the types of a pair; `None` for a type that isn't a struct of two fields.
pub fn pair_of(schema: &Schema, pair: usize) -> Option<(usize, usize)>
    ensures { result ≡ pair_node (node_at schema.now pair) }
{
    match schema.nodes.get(pair) {
        Some(Node::Struct(fields)) => match fields.as_slice() {
            [key, inner] => Some((*key, *inner)),
            _ => None,
        },
        _ => None,
    }
}

/// Returns whether a map with these pairs, the struct at index `pair`, is an object in JSON: its keys can be texts.
pub fn has_text_keys(schema: &Schema, pair: usize) -> bool
    ensures { result ≡ first_is_key schema.now (pair_node (node_at schema.now pair)) }
{
    match pair_of(schema, pair) {
        Some((key, _)) => is_key(schema, key),
        None => false,
    }
}

/// Whether a list is a map by its names.
fn is_map(schema: &Schema, place: usize) -> bool
    ensures { result ≡ is_map_named (names_at schema.now place) }
{
    matches!(schema.names.get(place), Some(Names::Map))
}

/// Returns whether the list at index `place`, of the type at index `inner`, is a map that is an object in JSON.
pub fn is_object(schema: &Schema, place: usize, inner: usize) -> bool
    ensures { result ≡ (is_map_named (names_at schema.now place)
        && first_is_key schema.now (pair_node (node_at schema.now inner))) }
{
    is_map(schema, place) && has_text_keys(schema, inner)
}

/// Returns whether the type at index `place` is `u8`.
pub fn is_byte(schema: &Schema, place: usize) -> bool
    ensures { result ≡ is_byte_node (node_at schema.now place) }
{
    matches!(schema.nodes.get(place), Some(Node::U8))
}

/// Returns whether the integer at index `place` holds the bits of a float.
pub fn is_float(schema: &Schema, place: usize) -> bool
    ensures { result ≡ is_float_named (names_at schema.now place) }
{
    matches!(schema.names.get(place), Some(Names::Float))
}

/// Returns whether a variant has no fields, by the index of its payload.
pub fn is_empty(schema: &Schema, payload: usize) -> bool
    ensures { result ≡ is_empty_named (names_at schema.now payload) }
{
    matches!(schema.names.get(payload), Some(Names::Empty))
}
