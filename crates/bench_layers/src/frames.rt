//! Records in frames of their own, and their sizes, as C functions.
ghost use Rattle.std.specs.Prelude.{◌≤◌, length};

use crate::answers::{Answer, Parts, REFUSED};
use crate::records::{Lent, parts_of};
use link::frame_into;
use std::alloc::Global;

/// Writes the record's frame and a zero by `postcard::to_slice_cobs`. It isn't done where the text isn't UTF-8, nor where there is no
/// room.
#[unsafe(no_mangle)]
pub extern "C" fn postcard_c_write_frame(
    number: u32,
    big: u64,
    text: &[u8],
    has: bool,
    perhaps: u16,
    list: &[u16],
    room: &mut [u8],
) -> Answer
    ensures within { result.count ≤ length room.old }
{
    let Ok(text) = std::str::from_utf8(text) else {
        return REFUSED;
    };
    let perhaps = if has { Some(perhaps) } else { None };
    match postcard::to_slice_cobs(&(number, big, text, perhaps, list), room) {
        Ok(front) => Answer {
            done: true,
            count: front.len(),
        },
        Err(_) => REFUSED,
    }
}

/// Reads the record of a frame by `postcard::from_bytes_cobs`, which decodes it where it lies, and lets it go again. Answers whether
/// there is one.
#[unsafe(no_mangle)]
pub extern "C" fn postcard_c_read_frame(
    alloc: Global,
    frame: &mut [u8],
    parts: &mut Parts,
) -> bool {
    match postcard::from_bytes_cobs::<Lent<'_>>(alloc, frame) {
        Ok(record) => {
            *parts = parts_of(record);
            true
        }
        Err(_) => false,
    }
}

/// How many bytes the record is written as. It isn't done where the text isn't UTF-8.
#[unsafe(no_mangle)]
pub extern "C" fn postcard_c_size(
    number: u32,
    big: u64,
    text: &[u8],
    has: bool,
    perhaps: u16,
    list: &[u16],
) -> Answer {
    let Ok(text) = std::str::from_utf8(text) else {
        return REFUSED;
    };
    let perhaps = if has { Some(perhaps) } else { None };
    let size = postcard::experimental::serialized_size(&(number, big, text, perhaps, list));
    match size {
        Ok(count) => Answer { done: true, count },
        Err(_) => REFUSED,
    }
}

/// Writes the record by `postcard::to_allocvec`, and answers how long that is. It isn't done where the text isn't UTF-8, nor where
/// there is no memory.
#[unsafe(no_mangle)]
pub extern "C" fn postcard_c_allocvec(
    alloc: Global,
    number: u32,
    big: u64,
    text: &[u8],
    has: bool,
    perhaps: u16,
    list: &[u16],
) -> Answer {
    let Ok(text) = std::str::from_utf8(text) else {
        return REFUSED;
    };
    let perhaps = if has { Some(perhaps) } else { None };
    match postcard::to_allocvec(alloc, &(number, big, text, perhaps, list)) {
        Ok(bytes) => Answer {
            done: true,
            count: bytes.len(),
        },
        Err(_) => REFUSED,
    }
}

/// Writes the record's frame by `link::frame_into`. It isn't done where the text isn't UTF-8, nor where there is no room.
#[unsafe(no_mangle)]
pub extern "C" fn link_c_frame_into(
    number: u32,
    big: u64,
    text: &[u8],
    has: bool,
    perhaps: u16,
    list: &[u16],
    room: &mut [u8],
) -> Answer {
    let Ok(text) = std::str::from_utf8(text) else {
        return REFUSED;
    };
    if room.is_empty() {
        return REFUSED;
    }
    let perhaps = if has { Some(perhaps) } else { None };
    match frame_into(&(number, big, text, perhaps, list), room) {
        Ok(count) => Answer { done: true, count },
        Err(_) => REFUSED,
    }
}
