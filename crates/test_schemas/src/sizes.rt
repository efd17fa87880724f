//! Greatest sizes. Those of the rows are by the rules of postcard: a number of 16, 32, 64 or 128 bits takes up to 3, 5, 10 or 19
//! bytes, a count, a length and a variant's index as many as the largest of them needs, and a character up to 4 after its length.
use crate::checks::check_row;
use crate::looks::schema_of;
use declarations::Schema;
use std::alloc::Global;
use wire_lib::sizes::greatest_sizes;

// A type, and how many bytes its values take at most, if that is so.
type Row = (&'static str, Option<u64>);

// Whether the first type's values take so many bytes at most.
fn has_size(alloc: Global, schema: &Schema, size: Option<u64>) -> bool {
    match greatest_sizes(alloc, &schema.nodes) {
        Ok(sizes) => matches!(sizes.as_slice(), [first, ..] if *first == size),
        Err(_) => false,
    }
}

fn is_size_of(alloc: Global, name: &str, size: Option<u64>) -> bool {
    match schema_of(alloc, name) {
        Some(schema) => has_size(alloc, &schema, size),
        None => false,
    }
}

const SIZES: [Row; 19] = [
    ("bool", Some(1)),
    ("u16", Some(3)),
    ("i32", Some(5)),
    ("u64", Some(10)),
    ("u128", Some(19)),
    ("LE<u64>", Some(8)),
    ("char", Some(5)),
    ("()", Some(0)),
    ("(u8, u16)", Some(4)),
    ("(u16, u8, u32, u8)", Some(10)),
    ("Point", Some(2)),
    ("Option<u64>", Some(11)),
    ("[u16; 3]", Some(9)),
    ("Light", Some(5)),
    ("ArrayVec<u16, 200>", Some(602)),
    ("ArrayString<2>", Some(3)),
    ("String", None),
    ("(u8, Vec<u8>)", None),
    ("Chain", None),
];

#[test]
fn greatest(rt: HostRuntime) {
    for (name, size) in &SIZES {
        check_row(&rt, name, is_size_of(rt.alloc(), name, *size));
    }
}
