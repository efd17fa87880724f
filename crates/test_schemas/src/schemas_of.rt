//! Tables of declarations: the expected lines are by the rules of `schemas`' README and of serde.
use crate::checks::{check, check_row};
use declarations::{Error, Names, Schema, read_schema};
use postcard_tree::{Last, Own};
use schema_table::Named;
use schemas::{HasIntegerType, HasPayloadSchemas, Integer, IntegerType, Node, SchemaForm};
use std::alloc::{AllocError, Global};
use std::process::Abort;

/// Appends places, or names, with a space before each.
fn put_places(line: &mut String, places: &[usize]) -> Result<(), AllocError> {
    for place in places {
        write!(line, " {place}")?;
    }
    Ok(())
}

fn put_names(line: &mut String, names: &[String]) -> Result<(), AllocError> {
    for name in names {
        write!(line, " {name}")?;
    }
    Ok(())
}

/// How the line of an integer type's node ends.
fn word_of(of: IntegerType) -> &'static str {
    match of {
        IntegerType::U16 => " u16",
        IntegerType::U32 => " u32",
        IntegerType::U64 => " u64",
        IntegerType::U128 => " u128",
        IntegerType::I16 => " i16",
        IntegerType::I32 => " i32",
        IntegerType::I64 => " i64",
        IntegerType::I128 => " i128",
    }
}

/// How the line of a node begins: its kind.
fn kind_of(node: &Node) -> &'static str {
    match node {
        Node::Bool => "bool",
        Node::U8 => "u8",
        Node::I8 => "i8",
        Node::U16 => "u16",
        Node::U32 => "u32",
        Node::U64 => "u64",
        Node::U128 => "u128",
        Node::I16 => "i16",
        Node::I32 => "i32",
        Node::I64 => "i64",
        Node::I128 => "i128",
        Node::LE(_) => "le",
        Node::BE(_) => "be",
        Node::Char => "char",
        Node::Text => "text",
        Node::TextUpTo(_) => "text up to",
        Node::Bytes => "bytes",
        Node::Option(_) => "option",
        Node::List(_) => "list",
        Node::ListUpTo(..) => "list up to",
        Node::Array(..) => "array",
        Node::Struct(_) => "struct",
        Node::Enum(_) => "enum",
    }
}

/// Appends what a node holds: its number, and the places in it.
fn put_held(line: &mut String, node: &Node) -> Result<(), AllocError> {
    match node {
        Node::LE(of) | Node::BE(of) => line.push_str(word_of(*of)),
        Node::TextUpTo(most) => write!(line, " {most}"),
        Node::Option(inner) | Node::List(inner) => write!(line, " {inner}"),
        Node::ListUpTo(count, inner) | Node::Array(count, inner) => {
            write!(line, " {count} {inner}")
        }
        Node::Struct(places) | Node::Enum(places) => put_places(line, places),
        _ => Ok(()),
    }
}

/// How what a node's values are called by begins.
fn word_of_names(names: &Names) -> &'static str {
    match names {
        Names::Nothing => "",
        Names::Float => ", float",
        Names::Empty => ", empty",
        Names::Unit => ", unit",
        Names::Newtype => ", newtype",
        Names::Tuple => ", tuple",
        Names::Map => ", map",
        Names::Fields(_) => ", fields",
        Names::Variants(_) => ", variants",
    }
}

/// Appends what a node's values are called by, and ends the line.
fn put_called(line: &mut String, names: &Names) -> Result<(), AllocError> {
    line.push_str(word_of_names(names))?;
    if let Names::Fields(names) | Names::Variants(names) = names {
        put_names(line, names)?;
    }
    line.push_str("\n")
}

/// A line for each node of a table.
fn put_lines(line: &mut String, schema: &Schema) -> Result<(), AllocError> {
    for (node, names) in schema.nodes.iter().zip(schema.names.iter()) {
        line.push_str(kind_of(node))?;
        put_held(line, node)?;
        put_called(line, names)?;
    }
    Ok(())
}

/// Whether these are the lines of a table, each node of which has names.
fn are_lines(alloc: Global, schema: &Schema, wanted: &str) -> bool {
    let mut lines = String::new(alloc);
    let are_named = schema.names.len() == schema.nodes.len();
    are_named && put_lines(&mut lines, schema).is_ok() && lines.as_str() == wanted
}

/// Whether these lines are returned for a text: those of its table, or what is wrong.
fn is_told(alloc: Global, text: &str, wanted: &str) -> bool {
    match read_schema(alloc, text) {
        Ok(schema) => are_lines(alloc, &schema, wanted),
        Err(Error::Wrong(lines)) => lines.as_str() == wanted,
        Err(Error::OutOfMemory) => false,
    }
}

// A text of declarations, and what is returned for it.
type Row = (&'static str, &'static str);

fn check_rows(rt: &impl Abort, alloc: Global, rows: &[Row]) {
    for (text, wanted) in rows {
        check_row(rt, text, is_told(alloc, text, wanted));
    }
}

const KINDS: [Row; 13] = [
    (
        "// message\npub struct Reading {\n    pub level: i16,\n    light: Light,\n}\n#[derive(Debug, Serialize)]\nenum Light {\n    Dark,\n    Lit(u8),\n    Both(u8, u16),\n    At { x: u8 },\n}\n",
        "struct 2 1, fields level light\nenum 3 4 7 9, variants Dark Lit Both At\ni16\nstruct, empty\nu8\nu8\nu16\nstruct 5 6, tuple\nu8\nstruct 8, fields x\n",
    ),
    ("struct Ignored;\n// message\nstruct Off;", "struct, unit\n"),
    ("// message\nstruct Id(u64);", "struct 1, newtype\nu64\n"),
    (
        "// message\nstruct Both<'a>(&'a str, &'a [u8]);",
        "struct 1 3, tuple\ntext\nu8\nbytes\n",
    ),
    (
        "// message\nstruct T(Vec<u8>, Vec<i8>);",
        "struct 2 4, tuple\nu8\nbytes\ni8\nlist 3\n",
    ),
    (
        "// message\nstruct T([u8; 4], Option<char>);",
        "struct 2 4, tuple\nu8\narray 4 1\nchar\noption 3\n",
    ),
    (
        "// message\nstruct T((), (bool,), (bool), (u8, i8));",
        "struct 1 3 4 7, tuple\nstruct, unit\nbool\nstruct 2, tuple\nbool\nu8\ni8\nstruct 5 6, tuple\n",
    ),
    (
        "// message\nstruct T(Result<u8, String>);",
        "struct 3, newtype\nu8\ntext\nenum 1 2, variants Ok Err\n",
    ),
    (
        "// message\nstruct T(BTreeMap<String, usize>);",
        "struct 4, newtype\ntext\nu64\nstruct 1 2, tuple\nlist 3, map\n",
    ),
    (
        "// message\nstruct T(ArrayVec<i8, 4>, ArrayString<9>);",
        "struct 2 3, tuple\ni8\nlist up to 4 1\ntext up to 9\n",
    ),
    (
        "// message\nstruct T(LE<u32>, BE<i128>);",
        "struct 1 2, tuple\nle u32\nbe i128\n",
    ),
    (
        "// message\nenum List { End, More(u32, Box<List>) }",
        "enum 1 3, variants End More\nstruct, empty\nu32\nstruct 2 0, tuple\n",
    ),
    (
        "// message\nstruct A(Option<Box<B>>);\n// message\nstruct B { a: Vec<A>, n: i128, m: u128 }",
        "struct 2, newtype\nstruct 3 4 5, fields a n m\noption 1\nlist 0\ni128\nu128\n",
    ),
];

#[test]
fn kinds(rt: HostRuntime) {
    check_rows(&rt, rt.alloc(), &KINDS);
}

const WRONG: [Row; 9] = [
    (
        "// message\nstruct A(B);\n\n// message\nstruct C(\n    D,\n);",
        "line 2: `A.0`: `B` isn't declared and marked here: name the file of its declaration too, or write the type that is on the wire\nline 6: `C.0`: `D` isn't declared and marked here: name the file of its declaration too, or write the type that is on the wire\n",
    ),
    (
        "// message\nstruct A(u8);\n// message\nenum A { B }",
        "line 4: `A`: the file declares this name twice: leave out what isn't on the wire\n",
    ),
    (
        "// message\nstruct A<T>(T);\n// message\nstruct B(A<C>);",
        "line 4: `A.0`: `C` isn't declared and marked here: name the file of its declaration too, or write the type that is on the wire\n",
    ),
    (
        "// message\nstruct A([u8; N]);",
        "line 2: `A.0`: `N` is no length: write a number of at most 4294967295\n",
    ),
    (
        "// message\nstruct A(ArrayVec<u8, N>);",
        "line 2: `A.0`: `N` is no length: write a number of at most 4294967295\n",
    ),
    (
        "// message\nstruct A(LE<u8>);",
        "line 2: `A.0`: `u8` isn't an integer of 16 to 128 bits: write one, or its bytes as an array\n",
    ),
    (
        "// message\nstruct A(Option);",
        "line 2: `A.0`: write what the type holds in `<` and `>`, as in `Option<u8>` and `ArrayVec<u8, 4>`\n",
    ),
    (
        "// message\nstruct A { #[serde(flatten)] a: u8 }",
        "line 2: `A.a`: `flatten` can't be sent by postcard, which has no names: write the fields themselves\n",
    ),
    (
        "struct A;",
        "line 1: nothing is marked: write `// message` in a line of its own before a declaration\n",
    ),
];

#[test]
fn refusals(rt: HostRuntime) {
    check_rows(&rt, rt.alloc(), &WRONG);
}

#[test]
fn places(rt: HostRuntime) {
    let read = read_schema(rt.alloc(), "// message\nstruct A;\n// message\nstruct B;");
    let is_right = match &read {
        Ok(schema) => schema.place_of("B") == Some(1) && schema.place_of("C").is_none(),
        Err(_) => false,
    };
    check(&rt, is_right);
}

// Whether a type is declared in this line.
fn is_in_line(named: &Named, line: usize) -> bool {
    named.line == line
}

#[test]
fn lines_of_types(rt: HostRuntime) {
    let read = read_schema(rt.alloc(), "// message\nstruct A;\n// message\nstruct B;");
    let is_right = match &read {
        Ok(schema) => match schema.types.as_slice() {
            [first, second] => is_in_line(first, 2) && is_in_line(second, 4),
            _ => false,
        },
        Err(_) => false,
    };
    check(&rt, is_right);
}

#[test]
fn integers_with_their_types(rt: HostRuntime) {
    check(
        &rt,
        <u16 as HasIntegerType>::integer_type() == IntegerType::U16,
    );
    check(&rt, 5u16.integer() == Integer::U16(5));
}

#[test]
fn nodes_of_forms(rt: HostRuntime) {
    let mut nodes = Vec::new(rt.alloc());
    let mut payloads = Vec::new(rt.alloc());
    let added = <Own as SchemaForm<u16>>::add_form_schema(rt.alloc(), &mut nodes);
    check(&rt, matches!(&added, Ok(0)));
    let added = <Last<u16> as HasPayloadSchemas>::add_payloads(
        rt.alloc(),
        &mut nodes,
        &mut payloads,
    );
    check(
        &rt,
        added.is_ok() && nodes.len() == 2 && payloads.len() == 1,
    );
}
