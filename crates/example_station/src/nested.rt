//! Messages that hold one another.
mod wire;

use postcard::fixint::{BE, LE};
use std::collections::BTreeMap;

/// A text and its kind.
// message
#[derive(Drop)]
pub struct Text {
    pub text: String,
    pub kind: u8,
}

/// A point.
// message
#[derive(Clone, Copy, Default, PartialEq, Eq, Drop)]
pub struct Point {
    pub x: i16,
    pub is_seen: bool,
}

/// A drawing, whose size has a bound: structs in an array and in an option, numbers of fixed width, and one that takes as many
/// bytes as it needs.
// message
#[derive(PartialEq, Eq, Drop)]
pub struct Drawing {
    pub corners: [Point; 3],
    pub center: Option<Point>,
    pub short: LE<u16>,
    pub word: BE<u32>,
    pub whole: u128,
    pub long: LE<u128>,
}

/// Holders of structs: a list, an option, a map and a box.
// message
#[derive(Drop)]
pub struct Holders {
    pub texts: Vec<Text>,
    pub first: Option<Text>,
    pub numbered: BTreeMap<u16, Text>,
    pub boxed: Box<Text>,
}

/// Levels of any type and number, and when and by how much they were taken: both as their bytes.
// message
#[derive(Drop)]
pub struct Sample<T: Clone, const N: usize> {
    // with = "postcard::fixint::le"
    pub at: u32,
    // with = "postcard::fixint::be"
    pub offset: i16,
    pub levels: [T; N],
}

/// A text that borrows from what was read.
// message
#[derive(Drop)]
pub struct Lent<'a> {
    pub text: &'a str,
    pub kind: u8,
}

/// Holds such texts, perhaps borrowed from two sources, and a value of its own.
// message
#[derive(Drop)]
pub struct Borrower<'a, 'b, T> {
    pub lent: Lent<'a>,
    pub all: Vec<Lent<'b>>,
    pub own: Option<T>,
}

/// Six tuples in one another.
pub type Six = ((((((Text, u8), u8), u8), u8), u8), u8);

/// Six more round them.
// message
#[derive(Drop)]
pub struct Deep(pub ((((((Six, u8), u8), u8), u8), u8), u8));

/// What goes over a line: structs in variants, and numbers as their bytes.
// message
#[derive(Drop)]
pub enum Message {
    Text(Text),
    Drawing(Drawing),
    Holders(Holders),
    Seen {
        by: Option<Text>,
        at: Point,
    },
    Lost(
        // with = "postcard::fixint::be"
        u64,
    ),
    Kept {
        parts: std::option::Option<u8>,
        // with = "postcard::fixint::le"
        sum: u16,
    },
    Numbers(BE<u32>, LE<u128>, u128),
}
