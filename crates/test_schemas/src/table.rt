//! One table of the types that the rows are of.
use schemas::{IntegerType, Node};
use std::alloc::{AllocError, Global};

/// How deep the values of the rows may nest.
pub(crate) const DEPTH: u32 = 6;

// The places of the types.
pub(crate) const BOOL: usize = 0;

pub(crate) const U8: usize = 1;

pub(crate) const I8: usize = 2;

pub(crate) const U16: usize = 3;

pub(crate) const U32: usize = 4;

pub(crate) const U64: usize = 5;

pub(crate) const U128: usize = 6;

pub(crate) const I16: usize = 7;

pub(crate) const I32: usize = 8;

pub(crate) const I64: usize = 9;

pub(crate) const I128: usize = 10;

pub(crate) const CHAR: usize = 11;

pub(crate) const TEXT: usize = 12;

pub(crate) const BYTES: usize = 13;
/// `Option<u8>`
pub(crate) const OPTION: usize = 14;
/// `Option<Option<bool>>`
pub(crate) const OPTION_TWICE: usize = 15;
/// `Vec<bool>`
pub(crate) const LIST: usize = 17;
/// `[Option<u8>; 2]`
pub(crate) const ARRAY: usize = 18;
/// `()`
pub(crate) const NOTHING: usize = 19;
/// `Vec<(u8, u16)>`
pub(crate) const PAIRS: usize = 21;
/// `(bool, i16, char, u64)`
pub(crate) const TUPLE: usize = 22;
/// `Result<(), String>`
pub(crate) const RESULT: usize = 23;
/// `DataEnum` of `example_by_hand`
pub(crate) const ENUM: usize = 24;
/// `Option<Vec<Result<(u8, String), [u16; 2]>>>`
pub(crate) const NESTED: usize = 31;
/// `BTreeMap<u16, String>`
pub(crate) const MAP: usize = 32;
/// `Chain` of `example_by_hand`, which holds itself
pub(crate) const CHAIN: usize = 34;
/// A type of itself alone.
pub(crate) const ITSELF: usize = 36;
/// A type whose place has no node.
pub(crate) const NOWHERE: usize = 37;
/// An enum without variants.
pub(crate) const NEVER: usize = 38;
/// `LE<u16>`
pub(crate) const LE_U16: usize = 39;
/// `BE<u16>`
pub(crate) const BE_U16: usize = 40;
/// `LE<i32>`
pub(crate) const LE_I32: usize = 41;
/// `BE<i64>`
pub(crate) const BE_I64: usize = 42;
/// `LE<u128>`
pub(crate) const LE_U128: usize = 43;
/// `ArrayVec<bool, 2>`
pub(crate) const SHORT_LIST: usize = 44;
/// `ArrayString<3>`
pub(crate) const SHORT_TEXT: usize = 45;

// The nodes of the table that is made. Where memory runs out the other calls go on, and the table isn't given at the end.
#[derive(Drop)]
struct Nodes {
    alloc: Global,
    nodes: Vec<Node>,
    failed: bool,
}

impl Nodes {
    fn note(&mut self, failed: bool) {
        self.failed = self.failed || failed;
    }

    fn add(&mut self, node: Node) {
        let failed = self.nodes.push(node).is_err();
        self.note(failed);
    }

    fn places(&mut self, places: &[usize]) -> Vec<usize> {
        let mut list = Vec::new(self.alloc);
        let failed = list.extend_from_slice(places).is_err();
        self.note(failed);
        list
    }

    fn add_struct(&mut self, fields: &[usize]) {
        let fields = self.places(fields);
        self.add(Node::Struct(fields));
    }

    fn add_enum(&mut self, payloads: &[usize]) {
        let payloads = self.places(payloads);
        self.add(Node::Enum(payloads));
    }

    // The types of no parts.
    fn add_leaves(&mut self) {
        self.add(Node::Bool);
        self.add(Node::U8);
        self.add(Node::I8);
        self.add(Node::U16);
        self.add(Node::U32);
        self.add(Node::U64);
        self.add(Node::U128);
        self.add(Node::I16);
        self.add(Node::I32);
        self.add(Node::I64);
        self.add(Node::I128);
        self.add(Node::Char);
        self.add(Node::Text);
        self.add(Node::Bytes);
    }

    // The types at 14 to 19.
    fn add_simple(&mut self) {
        self.add(Node::Option(U8));
        self.add(Node::Option(16));
        self.add(Node::Option(BOOL));
        self.add(Node::List(BOOL));
        self.add(Node::Array(2, OPTION));
        self.add_struct(&[]);
    }

    // The types at 20 to 26.
    fn add_messages(&mut self) {
        self.add_struct(&[U8, U16]);
        self.add(Node::List(20));
        self.add_struct(&[BOOL, I16, CHAR, U64]);
        self.add_enum(&[NOTHING, TEXT]);
        self.add_enum(&[U16, U64, U8, 20, 25, 26]);
        self.add_struct(&[U8, U32]);
        self.add_struct(&[U16, U8]);
    }

    // The types at 27 to 33.
    fn add_nested(&mut self) {
        self.add_struct(&[U8, TEXT]);
        self.add(Node::Array(2, U16));
        self.add_enum(&[27, 28]);
        self.add(Node::List(29));
        self.add(Node::Option(30));
        self.add(Node::List(33));
        self.add_struct(&[U16, TEXT]);
    }

    // The types that hold themselves or what isn't there.
    fn add_bad_types(&mut self) {
        self.add_enum(&[NOTHING, 35]);
        self.add_struct(&[U8, CHAIN]);
        self.add_struct(&[ITSELF]);
        self.add(Node::Option(usize::MAX));
        self.add_enum(&[]);
    }

    // The types at 39 to 45.
    fn add_bounded(&mut self) {
        self.add(Node::LE(IntegerType::U16));
        self.add(Node::BE(IntegerType::U16));
        self.add(Node::LE(IntegerType::I32));
        self.add(Node::BE(IntegerType::I64));
        self.add(Node::LE(IntegerType::U128));
        self.add(Node::ListUpTo(2, BOOL));
        self.add(Node::TextUpTo(3));
    }
}

/// The table.
pub(crate) fn table(alloc: Global) -> Result<Vec<Node>, AllocError> {
    let mut made = Nodes {
        alloc,
        nodes: Vec::new(alloc),
        failed: false,
    };
    made.add_leaves();
    made.add_simple();
    made.add_messages();
    made.add_nested();
    made.add_bad_types();
    made.add_bounded();
    if made.failed {
        return Err(AllocError);
    }
    Ok(made.nodes)
}
