//! Sealed values as bytes.

use crate::bytes::{are_bytes, check};
use postcard::{Error, Readable};
use sealed::{AsKeyed, AsSealed, Keyed, Sealed, crc32};
use std::alloc::Global;

// The sum of the text 123456789, which is published, and those of nothing and of one zero.
#[test]
fn published_sums(rt: HostRuntime) {
    check(
        &rt,
        crc32(b"123456789") == 0xCBF4_3926 && crc32(b"") == 0 && crc32(&[0]) == 0xD202_EF8D,
    );
}

// A number with the sum of its two bytes after it, as zlib gives that.
const SEALED: [u8; 6] = [0xAC, 0x02, 0x36, 0x80, 0x65, 0xAD];

// Whether the sealed number is refused so with another byte at one place; or read, where nothing refuses it.
fn reads_with(alloc: Global, at: usize, byte: u8, refused: Option<Error>) -> bool {
    let mut bytes = SEALED;
    bytes[at % 6] = byte;
    match postcard::from_bytes::<Sealed<u32>>(alloc, &bytes) {
        Ok(Sealed(value)) => refused.is_none() && value == 300,
        Err(e) => refused == Some(e),
    }
}

// At 1, 0x82: the number goes on into its seal, which is a byte short then.
const CHANGED: [(usize, u8, Option<Error>); 4] = [
    (1, 2, None),
    (1, 3, Some(Error::DeserializeBadCrc)),
    (4, 0, Some(Error::DeserializeBadCrc)),
    (1, 0x82, Some(Error::DeserializeUnexpectedEnd)),
];

// Whether 300 is written so.
fn is_written() -> bool {
    let mut room = [0u8; 16];
    match postcard::to_slice(&Sealed(300u32), &mut room) {
        Ok(front) => are_bytes(front, &SEALED),
        Err(_) => false,
    }
}

#[test]
fn sealed_number(rt: HostRuntime) {
    check(&rt, is_written());
    for (at, byte, refused) in CHANGED {
        check(&rt, reads_with(rt.alloc(), at, byte, refused));
    }
}

// A frame of 65 bytes and its zero. Its first code says where the first zero of the message is; a flipped bit there moves the
// blocks after it, so the message changes in several places, and its last four bytes are the CRC-32 of the rest all the same.
const FRAME: [u8; 66] = [
    0x02, 0x92, 0x07, 0x02, 0xEE, 0x02, 0x95, 0x09, 0x55, 0x02, 0xDC, 0x09, 0xB2, 0xED, 0x45, 0x96,
    0x07, 0xDE, 0x72, 0xC5, 0x06, 0x36, 0x6B, 0x07, 0xFB, 0x24, 0x02, 0xA7, 0x03, 0x6F, 0x18, 0x22,
    0x70, 0xB6, 0x37, 0x90, 0xBF, 0x72, 0x6A, 0x43, 0x8C, 0x78, 0xD2, 0xFF, 0x94, 0x14, 0xA7, 0x6D,
    0x1F, 0x58, 0xB7, 0xF3, 0x8D, 0x35, 0x0B, 0x57, 0x87, 0x9C, 0x53, 0x37, 0x12, 0x8A, 0xE4, 0x84,
    0xA9, 0x00,
];

// Whether the frame with such a first code is refused so; or holds a sealed value, and these are its bytes after the first.
fn goes_on(alloc: Global, code: u8, wanted: Result<(u8, u8), Error>) -> bool {
    let mut frame = FRAME;
    frame[0] = code;
    match postcard::from_bytes_cobs::<Sealed<[u8; 60]>>(alloc, &mut frame) {
        Ok(sealed) => wanted == Ok((sealed.0[1], sealed.0[2])),
        Err(e) => wanted == Err(e),
    }
}

// With 4 as the first code these bytes are no frame.
#[test]
fn flipped_bit_of_a_code_is_not_told(rt: HostRuntime) {
    check(&rt, goes_on(rt.alloc(), 2, Ok((0, 2))));
    check(&rt, goes_on(rt.alloc(), 3, Ok((7, 0))));
    check(
        &rt,
        goes_on(rt.alloc(), 4, Err(Error::DeserializeBadEncoding)),
    );
}

// The key of an interface: the CRC-32 of its name and version.
const KEY: u32 = 0xA0E4_4147;

#[test]
fn another_key_is_not_read(rt: HostRuntime) {
    let mut room = [0u8; 16];
    let is_refused = match postcard::to_slice(&Keyed::<u32, KEY>(300), &mut room) {
        Ok(front) => matches!(
            postcard::from_bytes::<Sealed<u32>>(rt.alloc(), front),
            Err(Error::DeserializeBadCrc)
        ),
        Err(_) => false,
    };
    check(&rt, crc32(b"sum 1") == KEY && is_refused);
}

// What is done for all types of one form.
fn is_sealed<T: Readable<Form = AsSealed>>(_value: &T) -> bool {
    true
}

fn is_keyed<T: Readable<Form = AsKeyed>>(_value: &T) -> bool {
    true
}

#[test]
fn forms(rt: HostRuntime) {
    check(&rt, is_sealed(&Sealed(300u32)));
    check(&rt, is_keyed(&Keyed::<u32, KEY>(300)));
}
