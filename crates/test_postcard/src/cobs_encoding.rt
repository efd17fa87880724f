//! `cobs`, encoding: maximum lengths, chunks, errors, and any sentinel.
use crate::checks::{all_true, are_equal, begin_with, check, check_all};
use arrayvec::ArrayVec;
use cobs::*;

// 10, 11, 0, 12
const MESSAGE: [u8; 4] = [10, 11, 0, 12];

#[test]
fn greatest_lengths_and_a_front(rt: HostRuntime) {
    let lengths = [
        max_encoding_length(0),
        max_encoding_length(253),
        max_encoding_length(254),
        max_encoding_length(255),
        max_encoding_length(508),
        max_encoding_length(509),
    ];
    check(
        &rt,
        lengths == [1, 254, 255, 257, 510, 512] && max_encoding_overhead(509) == 3,
    );
    let mut room = [0u8; 5];
    let mut front = FrameFront::begin_with_sentinel(&mut room, 255);
    check_all(
        &rt,
        [
            front.push(&mut room, &[1]).is_ok(),
            front.length() == 2,
            begin_with(&room, &[0xFD, 0xFE]),
        ],
    );
}

// No byte after a frame is changed, by a whole message or in place; and none at all if there is no space.
#[test]
fn what_is_behind_a_frame_stays(rt: HostRuntime) {
    let mut small = [9u8; 6];
    let mut dest = [9u8; 8];
    let mut standing = [9u8, 10, 11, 0, 12, 9, 9, 9];
    let mut masked = [0u8, 1];
    check_all(
        &rt,
        [
            try_encode_including_sentinels(&MESSAGE, &mut small).is_err(),
            are_equal(&small, &[9; 6]),
            try_encode(&MESSAGE, &mut dest).is_ok(),
            are_equal(&dest, &[3, 10, 11, 2, 12, 9, 9, 9]),
            encode_in_place(&mut standing, 4, 0) == 5,
            are_equal(&standing, &[3, 10, 11, 2, 12, 9, 9, 9]),
            encode_in_place(&mut masked, 1, 255) == 2,
            are_equal(&masked, &[0xFD, 0xFE]),
        ],
    );
}

// A message of so many bytes, of which each one at a multiple of a number is zero.
fn message(len: usize, every: usize) -> ArrayVec<u8, 300> {
    let mut bytes = ArrayVec::new();
    let mut to_zero: usize = 0;
    for _ in 0..len {
        if to_zero == 0 {
            to_zero = every;
        }
        to_zero = to_zero.saturating_sub(1);
        if bytes.try_push(if to_zero == 0 { 0 } else { 7 }).is_err() {
            break;
        }
    }
    bytes
}

// Whether bytes go on unchanged behind a frame of so many.
fn stays(room: &[u8], len: usize) -> bool {
    let Some(rest) = room.get(len..) else {
        return false;
    };
    for byte in rest {
        if *byte != 9 {
            return false;
        }
    }
    !rest.is_empty()
}

// Whether a frame leaves what is behind it, made at once and by an encoder, of a message that is cut there.
fn leaves(message: &[u8], cut: usize, sentinel: u8) -> bool {
    let mut dest = [9u8; 310];
    let at_once = match try_encode(message, &mut dest) {
        Ok(len) => stays(&dest, len),
        Err(_) => false,
    };
    let mut room = [9u8; 310];
    let mut encoder = CobsEncoder::new_with_sentinel(&mut room, sentinel);
    let (front, rest) = message.split_at(cut.min(message.len()));
    let is_taken = encoder.push(front).is_ok() && encoder.push(rest).is_ok();
    let len = encoder.finalize();
    at_once && is_taken && stays(&room, len)
}

// Nor is one changed behind frames of up to 300 bytes, which are copied by up to 64 bytes at once.
#[test]
fn what_is_behind_a_long_frame_stays(rt: HostRuntime) {
    for every in [1usize, 3, 60, 301] {
        for len in 0..300usize {
            let message = message(len, every);
            let is_left = leaves(&message, len, 0) && leaves(&message, len, 10);
            check(&rt, is_left && leaves(&message, len / 2, 0));
        }
    }
}

// Whether an encoder takes two chunks and an empty one, refuses a byte too many and then an empty chunk too, and has no frame.
fn is_spent(room: &mut [u8], first: &[u8], second: &[u8], more: &[u8]) -> bool {
    if room.is_empty() {
        return false;
    }
    let mut encoder = CobsEncoder::new(room);
    all_true([
        encoder.push(first).is_ok(),
        encoder.push(second).is_ok(),
        encoder.push(&[]).is_ok(),
        encoder.push(more).is_err(),
        encoder.push(&[]).is_err(),
        encoder.frame_length() == 0,
        encoder.finalize() == 0,
    ])
}

// Ones over more than a block, in a buffer of a byte less; and a full block and one byte more, after which not even an empty
// chunk is taken.
#[test]
fn refused_in_pieces(rt: HostRuntime) {
    check(
        &rt,
        is_spent(&mut [9; 301], &[1; 100], &[1; 154], &[1; 46])
            && is_spent(&mut [9; 255], &[], &[1; 254], &[1]),
    );
}
