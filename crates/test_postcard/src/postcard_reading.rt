//! `postcard`, reading: worked rows by each call.
use crate::checks::{are_equal, check_all, fails, gives, is_text};
use postcard::fixint::{be, le};
use postcard::laws::round_trip;
use postcard::{Deserializer, Error, Result as Answer, from_io};
use std::alloc::Global;

// 0xABCD from its last byte on, and -2 from its first.
const FIXED: [u8; 4] = [0xCD, 0xAB, 0xFF, 0xFE];

#[test]
fn fixed(rt: HostRuntime) {
    let mut d = Deserializer::from_bytes(rt.alloc(), &FIXED);
    check_all(
        &rt,
        [
            gives(le::deserialize::<u16, _>(&mut d), 0xABCD),
            gives(be::deserialize::<i16, _>(&mut d), -2),
        ],
    );
}

// Two texts, "ab" and "cd".
const TEXTS: [u8; 6] = [2, 0x61, 0x62, 2, 0x63, 0x64];

// Whether both texts are read by a reader, and these bytes of the buffer are left.
fn reads_texts(alloc: Global, buffer: &mut [u8], left: &[u8]) -> Answer<bool> {
    match from_io::<(&str, &str), _>(alloc, (&TEXTS[..], buffer)) {
        Ok(((a, b), (_, rest))) => Ok(
            is_text(a, "ab") && is_text(b, "cd") && are_equal(rest, left),
        ),
        Err(cause) => Err(cause),
    }
}

// Whether both are read as texts of their own, and all of the buffer is left.
fn reads_own_texts(alloc: Global, buffer: &mut [u8], left: usize) -> bool {
    match from_io::<(String, String), _>(alloc, (&TEXTS[..], buffer)) {
        Ok(((a, b), (unread, rest))) => {
            is_text(&a, "ab") && is_text(&b, "cd") && unread.is_empty() && rest.len() == left
        }
        Err(_) => false,
    }
}

// What a value borrows is kept at the start of the buffer, and the rest of it stays.
#[test]
fn by_reader(rt: HostRuntime) {
    let alloc = rt.alloc();
    let cut = reads_texts(alloc, &mut [0; 3], &[]);
    check_all(
        &rt,
        [
            gives(reads_texts(alloc, &mut [0; 4], &[]), true),
            gives(reads_texts(alloc, &mut [9; 6], &[9, 9]), true),
            fails(cut, Error::DeserializeUnexpectedEnd),
            reads_own_texts(alloc, &mut [0; 2], 2),
        ],
    );
}

// Whether a number and a text are those that are written below.
fn are_written(read: (u16, Option<&str>)) -> bool {
    read.0 == 42439 && matches!(read.1, Some(text) if is_text(text, "Hi!"))
}

#[test]
fn written_and_read(rt: HostRuntime) {
    let mut room = [0u8; 12];
    let is_same = match round_trip(rt.alloc(), &(42439u16, Some("Hi!")), &[7], &mut room) {
        Ok((read, rest)) => are_written(read) && are_equal(rest, &[7]),
        Err(_) => false,
    };
    let mut small = [0u8; 4];
    let refused = round_trip(rt.alloc(), &(42439u16, None::<&str>), &[7], &mut small);
    check_all(&rt, [is_same, fails(refused, Error::SerializeBufferFull)]);
}
