//! Out of memory: if an allocation is refused, each call says so or returns its whole result.
use crate::checks::{are_equal, check, is_out_of_memory};
use crate::table::{DEPTH, NESTED, TEXT, table};
use postcard::{to_slice, to_stdvec};
use schemas::{Node, Value, take_from_bytes};
use std::alloc::Global;

// An option of a list of results: of two numbers, and of a number and a text.
const BYTES: [u8; 12] = [
    0x01, 0x02, 0x01, 0x88, 0x55, 0x79, 0x00, 0x03, 0x03, 0x29, 0x2B, 0x70,
];

// Written into memory that is there, so nothing is allocated.
fn is_spelled(value: &Value, bytes: &[u8]) -> bool {
    let mut room = [0u8; 16];
    match to_slice(value, &mut room) {
        Ok(written) => are_equal(written, bytes),
        Err(_) => false,
    }
}

fn is_written_or_wants(alloc: Global, value: &Value, bytes: &[u8]) -> bool {
    match to_stdvec(alloc, value) {
        Ok(written) => are_equal(&written, bytes),
        Err(cause) => is_out_of_memory(cause),
    }
}

fn is_whole_or_wants(alloc: Global, nodes: &[Node], place: usize, bytes: &[u8]) -> bool {
    match take_from_bytes(alloc, nodes, place, DEPTH, bytes) {
        Ok((value, rest)) => {
            rest.is_empty()
                && is_spelled(&value, bytes)
                && is_written_or_wants(alloc, &value, bytes)
        }
        Err(cause) => is_out_of_memory(cause),
    }
}

#[test]
fn said_by_reading(rt: HostRuntime) {
    let alloc = rt.alloc();
    if let Ok(nodes) = table(alloc) {
        check(&rt, is_whole_or_wants(alloc, &nodes, NESTED, &BYTES));
        check(
            &rt,
            is_whole_or_wants(alloc, &nodes, TEXT, &[3, 0x48, 0x69, 0x21]),
        );
    }
}
