//! Sealed records in frames, and the sum by itself, as C functions.
ghost use Rattle.std.specs.Prelude.{◌≡◌, ◌≤◌, length};
ghost use Rattle.sealed.specs.Checksum.{sum_of_bytes};

use crate::answers::{Answer, Parts, REFUSED};
use crate::records::{Lent, parts_of};
use sealed::{Sealed, crc32};
use std::alloc::Global;

/// Writes the sealed record's frame and a zero by `postcard::to_slice_cobs`. It isn't done where the text isn't UTF-8, nor where there
/// is no room.
#[unsafe(no_mangle)]
pub extern "C" fn sealed_c_write(
    number: u32,
    big: u64,
    text: &[u8],
    has: bool,
    perhaps: u16,
    list: &[u16],
    room: &mut [u8],
) -> Answer
    ensures within { result.count ≤ length room.old }
{
    let Ok(text) = std::str::from_utf8(text) else {
        return REFUSED;
    };
    let perhaps = if has { Some(perhaps) } else { None };
    match postcard::to_slice_cobs(&Sealed((number, big, text, perhaps, list)), room) {
        Ok(front) => Answer {
            done: true,
            count: front.len(),
        },
        Err(_) => REFUSED,
    }
}

/// Reads the sealed record of a frame by `postcard::from_bytes_cobs`, which decodes it where it lies, and lets it go again. Answers
/// whether there is one.
#[unsafe(no_mangle)]
pub extern "C" fn sealed_c_read(alloc: Global, frame: &mut [u8], parts: &mut Parts) -> bool {
    match postcard::from_bytes_cobs::<Sealed<Lent<'_>>>(alloc, frame) {
        Ok(Sealed(record)) => {
            *parts = parts_of(record);
            true
        }
        Err(_) => false,
    }
}

/// The sum of bytes.
#[unsafe(no_mangle)]
pub extern "C" fn sealed_c_sum(bytes: &[u8]) -> u32
    ensures { result ≡ sum_of_bytes bytes.now }
{
    crc32(bytes)
}
