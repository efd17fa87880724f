//! The record by the calls of `postcard` that stand beside `to_slice` and `from_bytes`, as C
//! functions.
ghost use Rattle.std.specs.Prelude.{◌≤◌, length};

use crate::answers::{Answer, Parts, REFUSED};
use crate::messages::Owned;
use crate::records::{Lent, OTHER, parts_of, parts_of_owned};
use arrayvec::ArrayVec;
use std::alloc::Global;

/// How many bytes an array takes.
const ROOM: usize = 256;

/// How long a vector is.
fn in_vec(written: postcard::Result<Vec<u8>>) -> Answer {
    match written {
        Ok(bytes) => Answer {
            done: true,
            count: bytes.len(),
        },
        Err(_) => REFUSED,
    }
}

/// How long a vector of an array is.
fn in_array(written: postcard::Result<ArrayVec<u8, ROOM>>) -> Answer {
    match written {
        Ok(bytes) => Answer {
            done: true,
            count: bytes.len(),
        },
        Err(_) => REFUSED,
    }
}

/// Writes the record by `to_extend` to a vector that holds nothing (0), by `to_vec` (1), by `to_io`
/// (2), by `to_vec_cobs` (3), or by `to_allocvec_cobs` (4), and answers how long that is. It isn't
/// done by another number, nor where the text isn't UTF-8 or there is no memory.
#[unsafe(no_mangle)]
pub extern "C" fn postcard_c_write_by(
    alloc: Global,
    way: u32,
    number: u32,
    big: u64,
    text: &[u8],
    has: bool,
    perhaps: u16,
    list: &[u16],
) -> Answer {
    let Ok(text) = std::str::from_utf8(text) else {
        return REFUSED;
    };
    let perhaps = if has { Some(perhaps) } else { None };
    let record = (number, big, text, perhaps, list);
    match way {
        0 => in_vec(postcard::to_extend(&record, Vec::new(alloc))),
        1 => in_array(postcard::to_vec(&record)),
        2 => in_array(postcard::to_io(&record, ArrayVec::new())),
        3 => in_array(postcard::to_vec_cobs(&record)),
        4 => in_vec(postcard::to_allocvec_cobs(alloc, &record)),
        _ => REFUSED,
    }
}

/// Writes the record's frame for another sentinel by `to_slice_cobs_with_sentinel`. It isn't done
/// where the text isn't UTF-8, nor where there is no room.
#[unsafe(no_mangle)]
pub extern "C" fn postcard_c_write_frame_for(
    number: u32,
    big: u64,
    text: &[u8],
    has: bool,
    perhaps: u16,
    list: &[u16],
    room: &mut [u8],
) -> Answer
    ensures within { result.count ≤ length room.old }
{
    let Ok(text) = std::str::from_utf8(text) else {
        return REFUSED;
    };
    let perhaps = if has { Some(perhaps) } else { None };
    let record = (number, big, text, perhaps, list);
    match postcard::to_slice_cobs_with_sentinel(&record, room, OTHER) {
        Ok(front) => Answer {
            done: true,
            count: front.len(),
        },
        Err(_) => REFUSED,
    }
}

/// Reads the record of a frame for another sentinel by `from_bytes_cobs_with_sentinel`. Answers
/// whether there is one.
#[unsafe(no_mangle)]
pub extern "C" fn postcard_c_read_frame_for(
    alloc: Global,
    frame: &mut [u8],
    parts: &mut Parts,
) -> bool {
    match postcard::from_bytes_cobs_with_sentinel::<Lent<'_>>(alloc, frame, OTHER) {
        Ok(record) => {
            *parts = parts_of(record);
            true
        }
        Err(_) => false,
    }
}

/// Reads the record by `take_from_bytes`. Answers whether there is one.
#[unsafe(no_mangle)]
pub extern "C" fn postcard_c_take(alloc: Global, source: &[u8], parts: &mut Parts) -> bool {
    match postcard::take_from_bytes::<Lent<'_>>(alloc, source) {
        Ok((record, _)) => {
            *parts = parts_of(record);
            true
        }
        Err(_) => false,
    }
}

/// Reads the record, with a text of its own, by `from_bytes_owned`. Answers whether there is one.
#[unsafe(no_mangle)]
pub extern "C" fn postcard_c_read_owned(alloc: Global, source: &[u8], parts: &mut Parts) -> bool {
    match postcard::from_bytes_owned::<Owned>(alloc, source) {
        Ok(record) => {
            *parts = parts_of_owned(record);
            true
        }
        Err(_) => false,
    }
}

/// Reads the record from a reader, over an array, by `from_io`. Answers whether there is one.
#[unsafe(no_mangle)]
pub extern "C" fn postcard_c_read_io(alloc: Global, source: &[u8], parts: &mut Parts) -> bool {
    let mut room = [0; ROOM];
    match postcard::from_io::<Lent<'_>, &[u8]>(alloc, (source, &mut room)) {
        Ok((record, _)) => {
            *parts = parts_of(record);
            true
        }
        Err(_) => false,
    }
}
