//! Bytes that are made to hurt: counts without end, and prefixes. Padded numbers and stretches that are too long are lines of
//! `replay_link`.
use crate::checks::{check, fails_by, is_answer};
use link::{Answer, Receiver};
use postcard::{Error, from_bytes, from_bytes_owned, take_from_bytes};
use std::alloc::Global;

// 2^64 - 1, and a number that is greater than any.
const GREATEST: [u8; 10] = [0xFF, 0xFF, 0xFF, 0xFF, 0xFF, 0xFF, 0xFF, 0xFF, 0xFF, 1];

const TOO_GREAT: [u8; 10] = [0xFF, 0xFF, 0xFF, 0xFF, 0xFF, 0xFF, 0xFF, 0xFF, 0xFF, 2];

// Whether each call refuses bytes so, for types that allocate and for one that lends.
fn is_refused(alloc: Global, bytes: &[u8], cause: Error) -> bool {
    fails_by(from_bytes::<Vec<u8>>(alloc, bytes), cause)
        && fails_by(from_bytes::<&[u8]>(alloc, bytes), cause)
        && fails_by(from_bytes::<String>(alloc, bytes), cause)
        && fails_by(from_bytes_owned::<Vec<u8>>(alloc, bytes), cause)
        && fails_by(take_from_bytes::<Vec<u8>>(alloc, bytes), cause)
}

// A frame whose message is the greatest count.
const FRAMED_COUNT: [u8; 12] = [
    11, 0xFF, 0xFF, 0xFF, 0xFF, 0xFF, 0xFF, 0xFF, 0xFF, 0xFF, 1, 0,
];

/// Messages of such a count, and a frame for a type that lends.
#[test]
fn endless_counts(rt: HostRuntime) {
    let (end, padding) = (Error::DeserializeUnexpectedEnd, Error::DeserializeBadVarint);
    let is_end = is_refused(rt.alloc(), &GREATEST, end);
    check(&rt, is_end && is_refused(rt.alloc(), &TOO_GREAT, padding));
    let mut receiver = Receiver::<16>::new();
    let pushed = receiver.push_ref::<&[u8]>(rt.alloc(), &FRAMED_COUNT);
    check(&rt, is_answer(&pushed.answer, &Answer::Damaged));
}

// The tuple (1, 10, "Hello!").
const TUPLE: [u8; 9] = [0x01, 0x0A, 0x06, 0x48, 0x65, 0x6C, 0x6C, 0x6F, 0x21];

/// Each proper prefix of a tuple ends too early.
#[test]
fn fronts(rt: HostRuntime) {
    for k in 0..9 {
        let read = from_bytes::<(u8, u32, &str)>(rt.alloc(), &TUPLE[..k]);
        check(&rt, fails_by(read, Error::DeserializeUnexpectedEnd));
    }
}
