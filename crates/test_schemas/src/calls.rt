//! Each call once, tables that are bad, and counts without elements.
use crate::checks::{are_equal, check, check_row, is_end};
use crate::saying::{say_read, say_refused};
use crate::table::{CHAIN, ENUM, ITSELF, LIST, NESTED, NEVER, NOWHERE, OPTION, TEXT, U64, table};
use postcard_de::Deserializer;
use postcard_de::de_flavors::io::IOReader;
use postcard_tree::Result;
use schemas::{Node, Value, from_bytes, read_value, take_from_bytes};
use std::alloc::{AllocError, Global};
use std::process::Abort;

fn is_said(line: std::result::Result<String, AllocError>, wanted: &str) -> bool {
    match line {
        Ok(line) => line.as_str() == wanted,
        Err(_) => false,
    }
}

// Whether it is this value, or this error.
fn is_answer(alloc: Global, answer: Result<Value>, wanted: &str) -> bool {
    match answer {
        Ok(value) => is_said(say_read(alloc, &value, 0), wanted),
        Err(cause) => is_said(say_refused(alloc, cause), wanted),
    }
}

#[test]
fn the_rest_is_ignored(rt: HostRuntime) {
    let alloc = rt.alloc();
    let nodes = table(alloc).expect(&rt, "a table");
    let read = from_bytes(alloc, &nodes, ENUM, 3, &[0, 0xFF, 3, 9]);
    check(&rt, is_answer(alloc, read, "0:511 +0"));
}

#[test]
fn the_rest_is_handed_back(rt: HostRuntime) {
    let alloc = rt.alloc();
    let nodes = table(alloc).expect(&rt, "a table");
    let is_right = match take_from_bytes(alloc, &nodes, OPTION, 2, &[1, 0xEF, 0xC8, 7]) {
        Ok((_, rest)) => are_equal(rest, &[0xC8, 7]),
        Err(_) => false,
    };
    check(&rt, is_right);
}

#[test]
fn from_a_reader(rt: HostRuntime) {
    let alloc = rt.alloc();
    let nodes = table(alloc).expect(&rt, "a table");
    let bytes = [3, 0x48, 0x69, 0x21, 5];
    let mut buffer = [0u8; 3];
    let mut d = Deserializer::from_flavor(alloc, IOReader::new(&bytes[..], &mut buffer));
    check(
        &rt,
        is_answer(alloc, read_value(&mut d, &nodes, TEXT, 1), "s(486921) +0"),
    );
}

// A type, how deep, the bytes, and the result.
type Row = (usize, u32, &'static [u8], &'static str);

fn check_rows(rt: &impl Abort, alloc: Global, rows: &[Row]) {
    let nodes = table(alloc).expect(rt, "a table");
    for (place, depth, bytes, wanted) in rows {
        let read = from_bytes(alloc, &nodes, *place, *depth, bytes);
        check_row(rt, wanted, is_answer(alloc, read, wanted));
    }
}

const DEPTHS: [Row; 8] = [
    (U64, 0, &[7], "!SerdeDeCustom"),
    (U64, 1, &[7], "7 +0"),
    (OPTION, 1, &[1, 7], "!SerdeDeCustom"),
    (OPTION, 1, &[0], "none +0"),
    (OPTION, 2, &[1, 7], "some(7) +0"),
    (NESTED, 4, &[1, 1, 0, 3, 0], "!SerdeDeCustom"),
    (NESTED, 5, &[1, 1, 0, 3, 0], "some([0:(3,s())]) +0"),
    (NESTED, 2, &[1, 0], "some([]) +0"),
];

#[test]
fn as_deep_as_may_be(rt: HostRuntime) {
    check_rows(&rt, rt.alloc(), &DEPTHS);
}

const OF_THEMSELVES: [Row; 4] = [
    (CHAIN, 2, &[0], "0:() +0"),
    (CHAIN, 6, &[1, 5, 1, 6, 0], "1:(5,1:(6,0:())) +0"),
    (CHAIN, 5, &[1, 5, 1, 6, 0], "!SerdeDeCustom"),
    (ITSELF, 1000, &[0], "!SerdeDeCustom"),
];

#[test]
fn types_that_hold_themselves(rt: HostRuntime) {
    check_rows(&rt, rt.alloc(), &OF_THEMSELVES);
}

const PLACES: [Row; 5] = [
    (46, 9, &[0], "!SerdeDeCustom"),
    (usize::MAX, 9, &[], "!SerdeDeCustom"),
    (NOWHERE, 9, &[0], "none +0"),
    (NOWHERE, 9, &[1, 0], "!SerdeDeCustom"),
    (NEVER, 9, &[0], "!SerdeDeCustom"),
];

#[test]
fn places_without_a_node(rt: HostRuntime) {
    check_rows(&rt, rt.alloc(), &PLACES);
}

// As many as can be counted, and none of them.
const MOST: [u8; 10] = [0xFF, 0xFF, 0xFF, 0xFF, 0xFF, 0xFF, 0xFF, 0xFF, 0xFF, 1];

// A type, how deep, and a count alone.
const COUNTS: [(usize, u32, &[u8]); 6] = [
    (0, 2, &MOST),
    (2, 2, &[0x80]),
    (3, 1, &MOST),
    (4, 1, &MOST),
    (5, 2, &MOST),
    (6, 1, &MOST),
];

// There is never memory for so many: a result other than the end would show that it was requested.
#[test]
fn a_count_alone_asks_for_nothing(rt: HostRuntime) {
    let alloc = rt.alloc();
    let nodes = [
        Node::List(1),
        Node::U128,
        Node::Array(u64::MAX, 1),
        Node::Text,
        Node::Bytes,
        Node::ListUpTo(u64::MAX, 1),
        Node::TextUpTo(u64::MAX),
    ];
    for (place, depth, bytes) in COUNTS {
        check(&rt, is_end(from_bytes(alloc, &nodes, place, depth, bytes)));
    }
}

fn is_list_of(value: &Value, count: usize) -> bool {
    match value {
        Value::List(items) => items.len() == count,
        _ => false,
    }
}

#[test]
fn a_list_of_many(rt: HostRuntime) {
    let alloc = rt.alloc();
    let nodes = table(alloc).expect(&rt, "a table");
    let mut bytes = Vec::from_array(alloc, [0xA0u8, 0x8D, 0x06]).expect(&rt, "a count");
    bytes.resize(100_003, 1).expect(&rt, "the elements");
    let is_right = match take_from_bytes(alloc, &nodes, LIST, 2, &bytes) {
        Ok((value, rest)) => is_list_of(&value, 100_000) && rest.is_empty(),
        Err(_) => false,
    };
    check(&rt, is_right);
}
