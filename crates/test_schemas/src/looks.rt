//! Values as JSON and back. Bytes and texts of the rows are by the rules of postcard and serde_json.
use crate::checks::{are_equal, check, check_at, is_written_as};
use declarations::{Schema, read_schema};
use schemas::{Value, from_bytes};
use std::alloc::Global;
use std::process::Abort;
use wire_json::parse::parse;
use wire_json::wrong::ParseError;
use wire_lib::DEPTH;
use wire_print::print::{Look, print};

/// The types that the rows name, after the one that is read.
const BESIDE: &str = "
// message
struct Off;
// message
struct Maybe(Option<u8>);
// message
enum Light { Dark, Lit(u8), Both(u8, u16), At { x: u8 }, Nothing(()), Braces {}, Parens() }
// message
struct Point { y: i8, x: i8 }
// message
enum Chain { End, More(u32, Box<Chain>) }
";

// A type, the digits of a value's bytes, and its JSON.
type Row = (&'static str, &'static str, &'static str);

/// A schema whose first type holds this one alone, so that its values look the same.
pub(crate) fn schema_of(alloc: Global, name: &str) -> Option<Schema> {
    match format!(in alloc; "// message\nstruct Whole({name});{BESIDE}") {
        Ok(text) => read_schema(alloc, text.as_str()).ok(),
        Err(_) => None,
    }
}

fn is_printed_as(alloc: Global, schema: &Schema, hex: bool, value: &Value, text: &str) -> bool {
    match print(alloc, schema, 0, Look { hex, depth: DEPTH }, value) {
        Ok(line) => are_equal(&line, text.as_bytes()),
        Err(_) => false,
    }
}

// Whether the value that these bytes are is printed as this text.
fn is_shown(alloc: Global, schema: &Schema, hex: bool, bytes: &[u8], text: &str) -> bool {
    match from_bytes(alloc, &schema.nodes, 0, DEPTH, bytes) {
        Ok(value) => is_printed_as(alloc, schema, hex, &value, text),
        Err(_) => false,
    }
}

// Whether the value that this text is is sent as these bytes.
fn is_sent(alloc: Global, schema: &Schema, text: &str, bytes: &[u8]) -> bool {
    match parse(alloc, schema, 0, DEPTH, text.as_bytes()) {
        Ok(value) => is_written_as(alloc, &value, bytes),
        Err(_) => false,
    }
}

// Whether the bytes print as the text, and the text is sent as the bytes.
fn agree(alloc: Global, schema: &Schema, hex: bool, digits: &str, text: &str) -> bool {
    match hex::decode(alloc, digits) {
        Ok(bytes) => {
            is_shown(alloc, schema, hex, &bytes, text) && is_sent(alloc, schema, text, &bytes)
        }
        Err(_) => false,
    }
}

fn check_look(rt: &impl Abort, alloc: Global, hex: bool, (name, digits, text): Row) {
    let is_right = match schema_of(alloc, name) {
        Some(schema) => agree(alloc, &schema, hex, digits, text),
        None => false,
    };
    check_at(rt, name, text, is_right);
}

fn check_looks(rt: &impl Abort, alloc: Global, rows: &[Row]) {
    for row in rows {
        check_look(rt, alloc, false, *row);
    }
}

const NUMBERS: [Row; 14] = [
    ("bool", "01", "true"),
    ("bool", "00", "false"),
    ("u8", "ff", "255"),
    ("i8", "80", "-128"),
    ("u16", "ffff03", "65535"),
    ("i16", "ffff03", "-32768"),
    ("u32", "ffffffff0f", "4294967295"),
    ("i32", "01", "-1"),
    ("u64", "ffffffffffffffffff01", "18446744073709551615"),
    ("i64", "8280808080808020", "9007199254740993"),
    ("usize", "ac02", "300"),
    ("isize", "03", "-2"),
    (
        "u128",
        "ffffffffffffffffffffffffffffffffffff03",
        "340282366920938463463374607431768211455",
    ),
    (
        "i128",
        "ffffffffffffffffffffffffffffffffffff03",
        "-170141183460469231731687303715884105728",
    ),
];

#[test]
fn numbers(rt: HostRuntime) {
    check_looks(&rt, rt.alloc(), &NUMBERS);
}

const INTEGERS_AS_THEIR_BYTES: [Row; 12] = [
    ("LE<u16>", "cdab", "43981"),
    ("BE<u16>", "abcd", "43981"),
    ("LE<i16>", "feff", "-2"),
    ("BE<i16>", "fffe", "-2"),
    ("LE<u32>", "0000c03f", "1069547520"),
    ("BE<u32>", "00000001", "1"),
    ("LE<i32>", "00000080", "-2147483648"),
    ("BE<i32>", "7fffffff", "2147483647"),
    ("LE<u64>", "ffffffffffffffff", "18446744073709551615"),
    ("BE<i64>", "8000000000000000", "-9223372036854775808"),
    (
        "LE<u128>",
        "00000000000000000000000000000080",
        "170141183460469231731687303715884105728",
    ),
    (
        "BE<i128>",
        "80000000000000000000000000000000",
        "-170141183460469231731687303715884105728",
    ),
];

#[test]
fn integers_as_their_bytes(rt: HostRuntime) {
    check_looks(&rt, rt.alloc(), &INTEGERS_AS_THEIR_BYTES);
}

const OF_A_GREATEST_LENGTH: [Row; 8] = [
    ("ArrayVec<u16, 2>", "00", "[]"),
    ("ArrayVec<u16, 2>", "0201ac02", "[1,300]"),
    ("ArrayVec<u8, 2>", "02ff00", "[255,0]"),
    ("ArrayVec<ArrayString<1>, 1>", "010161", r#"["a"]"#),
    ("ArrayVec<(), 0>", "00", "[]"),
    ("ArrayString<2>", "02c3a9", r#""é""#),
    ("ArrayString<2>", "00", r#""""#),
    ("BTreeMap<ArrayString<2>, u8>", "0102616205", r#"{"ab":5}"#),
];

// Whether there is such a type, and these digits are no bytes of its values.
fn is_refused(alloc: Global, name: &str, digits: &str) -> bool {
    match (schema_of(alloc, name), hex::decode(alloc, digits)) {
        (Some(schema), Ok(bytes)) => from_bytes(alloc, &schema.nodes, 0, DEPTH, &bytes).is_err(),
        _ => false,
    }
}

#[test]
fn of_a_greatest_length(rt: HostRuntime) {
    let alloc = rt.alloc();
    check_looks(&rt, alloc, &OF_A_GREATEST_LENGTH);
    check(&rt, is_refused(alloc, "ArrayVec<u8, 1>", "020102"));
    check(&rt, is_refused(alloc, "ArrayString<1>", "02c3a9"));
}

const TEXTS_AND_OPTIONS: [Row; 16] = [
    ("char", "02c3a9", r#""é""#),
    ("String", "03225c0a", r#""\"\\\n""#),
    ("&'a str", "00", r#""""#),
    ("&'a [u8]", "00", "[]"),
    ("Option<u8>", "00", "null"),
    ("Option<u8>", "0105", "5"),
    ("Option<Option<u8>>", "00", "null"),
    ("Option<Option<u8>>", "0100", r#"{"Some":null}"#),
    ("Option<Option<u8>>", "010105", r#"{"Some":5}"#),
    ("Option<()>", "00", "null"),
    ("Option<()>", "01", r#"{"Some":null}"#),
    ("Option<Maybe>", "0100", r#"{"Some":null}"#),
    ("Option<Maybe>", "010107", r#"{"Some":7}"#),
    ("()", "", "null"),
    ("Result<u8, String>", "0005", r#"{"Ok":5}"#),
    ("Result<u8, String>", "010161", r#"{"Err":"a"}"#),
];

#[test]
fn texts_and_options(rt: HostRuntime) {
    check_looks(&rt, rt.alloc(), &TEXTS_AND_OPTIONS);
}

const LISTS_AND_MAPS: [Row; 9] = [
    ("Vec<u8>", "0201ff", "[1,255]"),
    ("Vec<u16>", "020102", "[1,2]"),
    ("[u8; 3]", "010203", "[1,2,3]"),
    ("[bool; 0]", "", "[]"),
    ("(u8, bool)", "0501", "[5,true]"),
    ("(u8,)", "05", "[5]"),
    ("BTreeMap<String, u8>", "02016101016202", r#"{"a":1,"b":2}"#),
    ("BTreeMap<String, u8>", "02016101016102", r#"{"a":1,"a":2}"#),
    ("BTreeMap<u8, bool>", "010501", r#"{"5":true}"#),
];

#[test]
fn lists_and_maps(rt: HostRuntime) {
    check_looks(&rt, rt.alloc(), &LISTS_AND_MAPS);
    check_look(&rt, rt.alloc(), true, ("Vec<u8>", "0201ff", "\"01ff\""));
}

const NAMED_TYPES: [Row; 10] = [
    ("Off", "", "null"),
    ("Light", "00", r#""Dark""#),
    ("Light", "0105", r#"{"Lit":5}"#),
    ("Light", "020506", r#"{"Both":[5,6]}"#),
    ("Light", "0307", r#"{"At":{"x":7}}"#),
    ("Light", "04", r#"{"Nothing":null}"#),
    ("Light", "05", r#"{"Braces":{}}"#),
    ("Light", "06", r#"{"Parens":[]}"#),
    ("Point", "01ff", r#"{"y":1,"x":-1}"#),
    ("Chain", "0101010200", r#"{"More":[1,{"More":[2,"End"]}]}"#),
];

#[test]
fn named_types(rt: HostRuntime) {
    check_looks(&rt, rt.alloc(), &NAMED_TYPES);
}

// Whether there is such a type, and this text is none of its values.
fn is_wrong(alloc: Global, name: &str, text: &str) -> bool {
    match schema_of(alloc, name) {
        Some(schema) => matches!(
            parse(alloc, &schema, 0, DEPTH, text.as_bytes()),
            Err(ParseError::Wrong(_))
        ),
        None => false,
    }
}

const WRONG: [(&str, &str); 28] = [
    ("u8", "256"),
    ("u8", "-1"),
    ("u8", "1.0"),
    ("i16", "32768"),
    ("u128", "340282366920938463463374607431768211456"),
    ("u8", "\"5\""),
    ("bool", "1"),
    ("char", "\"ab\""),
    ("char", "\"\""),
    ("Vec<u8>", "\"0\""),
    ("Vec<u8>", "[256]"),
    ("Option<Option<u8>>", "5"),
    ("[u8; 3]", "[1,2]"),
    ("(u8, bool)", "[5]"),
    ("()", "0"),
    ("Light", "\"Lit\""),
    ("Light", "\"Bright\""),
    ("Point", "{\"y\":1}"),
    ("Point", "{\"y\":1,\"y\":2}"),
    ("Point", "{\"y\":1,\"x\":2,\"z\":3}"),
    ("LE<u16>", "65536"),
    ("BE<i16>", "-32769"),
    ("LE<u32>", "\"1\""),
    ("ArrayVec<u8, 1>", "[1,2]"),
    ("ArrayString<1>", "\"é\""),
    ("BTreeMap<ArrayString<1>, u8>", "{\"ab\":5}"),
    ("u8", "5 5"),
    ("u8", ""),
];

#[test]
fn refusals(rt: HostRuntime) {
    for (name, text) in &WRONG {
        check_at(&rt, name, text, is_wrong(rt.alloc(), name, text));
    }
}

#[test]
fn fields_in_any_order(rt: HostRuntime) {
    let alloc = rt.alloc();
    let is_right = match schema_of(alloc, "Point") {
        Some(schema) => is_sent(alloc, &schema, r#"{"x":-1,"y":1}"#, &[0x01, 0xFF]),
        None => false,
    };
    check(&rt, is_right);
}
