//! What a message type is, as nodes of one table that name one another by their places.

use crate::IntegerType;

/// A type. The types inside it are given by their places in the table, so a type may hold itself.
///
/// # Example
/// ```rust
/// self.add(Node::Option(U8));
/// self.add(Node::Option(16));
/// self.add(Node::Option(BOOL));
/// self.add(Node::List(BOOL));
/// self.add(Node::Array(2, OPTION));
/// ```
#[derive(Drop)]
pub enum Node {
    /// `bool`.
    Bool,
    /// `u8`.
    U8,
    /// `i8`.
    I8,
    /// `u16`.
    U16,
    /// `u32`.
    U32,
    /// `u64`, `usize`.
    U64,
    /// `u128`.
    U128,
    /// `i16`.
    I16,
    /// `i32`.
    I32,
    /// `i64`, `isize`.
    I64,
    /// `i128`.
    I128,
    /// `LE<T>`, by the type of its integer.
    LE(IntegerType),
    /// `BE<T>`.
    BE(IntegerType),
    /// `char`.
    Char,
    /// `String`, `&str`.
    Text,
    /// `ArrayString<N>`: a text of at most so many bytes.
    TextUpTo(u64),
    /// `Vec<u8>`, `&[u8]`.
    Bytes,
    /// `Option<T>`.
    Option(usize),
    /// `Vec<T>`; also a map, by the type of its pairs.
    List(usize),
    /// `ArrayVec<T, N>`: the maximum number of elements, and their type.
    ListUpTo(u64, usize),
    /// `[T; N]`: the number of elements, and their type.
    Array(u64, usize),
    /// A tuple or a struct, by the types of its fields; without fields, `()`.
    Struct(Vec<usize>),
    /// An enum, by the types of what its variants hold; a `Result`, by those of its value and its error.
    Enum(Vec<usize>),
}
