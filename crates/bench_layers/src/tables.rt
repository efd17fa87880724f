//! Records that are read by a table of types as C functions.
ghost use Rattle.std.specs.Prelude.{◌≡◌, ◌≤◌, length};

use crate::answers::{Answer, Found, NONE_FOUND, REFUSED};
use crate::messages::Owned;
use schemas::{Value, schema_of};
use std::alloc::Global;

/// How deep values nest at most.
const DEPTH: u32 = 8;

/// Puts a leaf's number, or a text's length, to a sum.
fn sum_leaf(value: &Value, sum: u64) -> u64 {
    match value {
        Value::U16(n) => sum.wrapping_add(u64::from(*n)),
        Value::U32(n) => sum.wrapping_add(u64::from(*n)),
        Value::U64(n) => sum.wrapping_add(*n),
        Value::Text(text) => sum.wrapping_add(text.len() as u64),
        _ => sum,
    }
}

/// The same of a field: of a list each element's.
fn sum_field(value: &Value, sum: u64) -> u64 {
    match value {
        Value::List(elements) => {
            let mut sum = sum;
            for element in elements {
                sum = sum_leaf(element, sum);
            }
            sum
        }
        Value::Present(inner) => sum_leaf(inner, sum),
        _ => sum_leaf(value, sum),
    }
}

/// The same of a record.
fn sum_record(value: &Value) -> u64 {
    let mut sum = 0u64;
    if let Value::Group(fields) = value {
        for field in fields {
            sum = sum_field(field, sum);
        }
    }
    sum
}

/// Makes the table of the record's type, and answers how many nodes it has; 0 where there is no memory.
#[unsafe(no_mangle)]
pub extern "C" fn schemas_c_table(alloc: Global) -> usize {
    match schema_of::<Owned>(alloc) {
        Ok((nodes, _)) => nodes.len(),
        Err(_) => 0,
    }
}

/// Makes the table, reads the record by it so many times, and counts each.
#[unsafe(no_mangle)]
pub extern "C" fn schemas_c_read(alloc: Global, source: &[u8], times: u32, found: &mut Found) {
    *found = NONE_FOUND;
    let Ok((nodes, place)) = schema_of::<Owned>(alloc) else {
        return;
    };
    let mut counts = NONE_FOUND;
    for _ in 0..times {
        match schemas::from_bytes(alloc, &nodes, place, DEPTH, source) {
            Ok(value) => {
                counts.values = counts.values.wrapping_add(1);
                counts.sum = counts.sum.wrapping_add(sum_record(&value));
            }
            Err(_) => counts.refused = counts.refused.wrapping_add(1),
        }
    }
    *found = counts;
}

/// Writes a value to the front of the room.
fn write_value(value: &Value, room: &mut [u8]) -> Answer
    ensures within { result.count ≤ length room.old }
    ensures room { length room.new ≡ length room.old }
{
    match postcard::to_slice(value, room) {
        Ok(front) => Answer {
            done: true,
            count: front.len(),
        },
        Err(_) => REFUSED,
    }
}

/// Reads the record by the table once, and writes the value that was read so many times, and once more. It isn't done where it isn't
/// read, nor where there is no room.
#[unsafe(no_mangle)]
pub extern "C" fn schemas_c_write(
    alloc: Global,
    source: &[u8],
    times: u32,
    room: &mut [u8],
) -> Answer
    ensures within { result.count ≤ length room.old }
{
    let Ok((nodes, place)) = schema_of::<Owned>(alloc) else {
        return REFUSED;
    };
    let Ok(value) = schemas::from_bytes(alloc, &nodes, place, DEPTH, source) else {
        return REFUSED;
    };
    for _ in 0..times {
        write_value(&value, room);
    }
    write_value(&value, room)
}
