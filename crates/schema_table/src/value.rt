//! Values that are read by a schema.

use crate::Integer;

/// A value as its type has it; the names of fields and variants are the reader's.
///
/// # Example
/// ```rust
/// Value::Absent => line.push_str("none"),
/// Value::Present(inner) => say_present(inner, line),
/// Value::List(items) => say_inside("[", items, ']', line),
/// Value::Group(items) => say_inside("(", items, ')', line),
/// Value::Variant(index, inner) => say_variant(*index, inner, line),
/// ```
#[derive(Drop)]
pub enum Value {
    /// `true` or `false`.
    Bool(bool),
    /// A byte.
    U8(u8),
    /// A signed byte.
    I8(i8),
    /// A number of 16 bits.
    U16(u16),
    /// A number of 32 bits.
    U32(u32),
    /// A number of 64 bits.
    U64(u64),
    /// A number of 128 bits.
    U128(u128),
    /// A signed number of 16 bits.
    I16(i16),
    /// A signed number of 32 bits.
    I32(i32),
    /// A signed number of 64 bits.
    I64(i64),
    /// A signed number of 128 bits.
    I128(i128),
    /// An integer as its bytes, the lowest first.
    LE(Integer),
    /// An integer as its bytes, the highest first.
    BE(Integer),
    /// A character.
    Char(char),
    /// A text.
    Text(String),
    /// Bytes.
    Bytes(Vec<u8>),
    /// An option without a value.
    Absent,
    /// An option's value.
    Present(Box<Value>),
    /// Elements that have a count on the wire; of a map, its pairs as they came.
    List(Vec<Value>),
    /// The elements of an array, or the fields of a tuple or a struct.
    Group(Vec<Value>),
    /// A variant's index, and what it holds.
    Variant(u32, Box<Value>),
}
