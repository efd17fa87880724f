//! `postcard`, frames: a long value, an exact buffer, and an accumulator by itself.
use crate::checks::{are_equal, check, check_all, check_at, fails, gives, is_array};
use postcard::accumulator::{CobsAccumulator, FeedResult};
use postcard::{
    Error, Result, from_bytes_cobs, to_allocvec, to_allocvec_cobs, to_stdvec_cobs, to_vec_cobs,
};
use std::alloc::Global;

// A number, many of them, and the largest.
type Long = (u32, [u32; 32], u64);

const LONG: Long = (0xABCDEF00, [0x01234567; 32], u64::MAX);

const TEN: [u8; 10] = [0xCC; 10];

const FRAME_OF_TEN: [u8; 12] = [
    11, 0xCC, 0xCC, 0xCC, 0xCC, 0xCC, 0xCC, 0xCC, 0xCC, 0xCC, 0xCC, 0,
];

// Whether a vector holds so many bytes and has no place beyond them.
fn is_exact(written: Result<Vec<u8>>, len: usize) -> bool {
    match written {
        Ok(vec) => vec.len() == len && vec.capacity() == len,
        Err(_) => false,
    }
}

#[test]
fn long_values_and_exact_room(rt: HostRuntime) {
    let is_back = match to_stdvec_cobs(rt.alloc(), &LONG) {
        Ok(mut written) => gives(from_bytes_cobs::<Long>(rt.alloc(), &mut written), LONG),
        Err(_) => false,
    };
    check_all(
        &rt,
        [
            is_back,
            matches!(&to_allocvec_cobs(rt.alloc(), &LONG), Ok(frame) if frame.len() == 145),
            is_array(to_vec_cobs::<_, 12>(&TEN), &FRAME_OF_TEN),
            fails(to_vec_cobs::<_, 11>(&TEN), Error::SerializeBufferFull),
            // Short vectors have no place to spare.
            is_exact(to_allocvec(rt.alloc(), &300u32), 2),
            is_exact(to_allocvec_cobs(rt.alloc(), &300u32), 4),
        ],
    );
}

// Whether an accumulator took all, and waits for more.
pub(crate) fn is_consumed(answer: FeedResult<'_, u8>) -> bool {
    matches!(answer, FeedResult::Consumed)
}

// Whether a frame was too long, with so many bytes left after it.
fn is_over_full(answer: FeedResult<'_, u8>, left: usize) -> bool {
    matches!(answer, FeedResult::OverFull(rest) if rest.len() == left)
}

// Whether a frame was refused, with so many bytes left after it.
pub(crate) fn is_refused(answer: FeedResult<'_, u8>, left: usize) -> bool {
    matches!(answer, FeedResult::DeserError(rest) if rest.len() == left)
}

// Whether a frame was of this value, with so many bytes left after it.
pub(crate) fn is_value(answer: FeedResult<'_, u8>, wanted: u8, left: usize) -> bool {
    match answer {
        FeedResult::Success { value, remaining } => value == wanted && remaining.len() == left,
        _ => false,
    }
}

#[test]
fn lent_bytes_and_refused_frames(rt: HostRuntime) {
    let mut accumulator: CobsAccumulator<4> = CobsAccumulator::default();
    let is_lent = match accumulator.feed_ref::<&[u8]>(rt.alloc(), &[3, 1, 8, 0]) {
        FeedResult::Success { value, remaining } => are_equal(value, &[8]) && remaining.is_empty(),
        _ => false,
    };
    check(&rt, is_lent);
    // Whole frames that are refused: one of a block that is cut, one of no bytes, one that doesn't fit.
    let mut accumulator: CobsAccumulator<10> = CobsAccumulator::new();
    let cut = accumulator.feed(rt.alloc(), &[11, 1, 1, 1, 1, 1, 1, 1, 1, 0, 5]);
    let is_cut = is_refused(cut, 1);
    let empty = accumulator.feed(rt.alloc(), &[0, 2, 7, 0, 1, 1, 1, 1, 1]);
    let is_empty = is_refused(empty, 8);
    let long = accumulator.feed(rt.alloc(), &[11, 1, 1, 1, 1, 1, 1, 1, 1, 1, 1, 0, 5]);
    check_all(&rt, [is_cut, is_empty, is_over_full(long, 1)]);
}

// Whether the frame of 300 times 01, in two chunks, is returned after the second.
fn is_gathered(alloc: Global, front: &[u8], rest: &[u8]) -> bool {
    let mut accumulator: CobsAccumulator<305> = CobsAccumulator::new();
    match accumulator.feed::<Vec<u8>>(alloc, front) {
        FeedResult::Consumed => {}
        _ => return false,
    }
    match accumulator.feed::<Vec<u8>>(alloc, rest) {
        FeedResult::Success { value, remaining } => are_equal(&value, &[1; 300])
            && remaining.is_empty(),
        _ => false,
    }
}

#[test]
fn a_frame_whole_and_in_two(rt: HostRuntime) {
    let mut frame = [1u8; 305];
    frame[0] = 0xFF;
    frame[1] = 0xAC;
    frame[2] = 0x02;
    frame[255] = 49;
    frame[304] = 0;
    for cut in 0..305 {
        check_at(
            &rt,
            cut,
            is_gathered(rt.alloc(), &frame[..cut], &frame[cut..]),
        );
    }
}
