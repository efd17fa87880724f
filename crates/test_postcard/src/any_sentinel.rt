//! `postcard` for any sentinel: the calls with `_cobs`, and the accumulator.
use crate::checks::{are_equal, check_all, fails, gives, is_array, is_slice, is_vector};
use crate::postcard_frames::{is_consumed, is_refused, is_value};
use postcard::accumulator::CobsAccumulator;
use postcard::{
    Error, from_bytes_cobs_with_sentinel, take_from_bytes_cobs_with_sentinel,
    to_allocvec_cobs_with_sentinel, to_slice_cobs_with_sentinel, to_stdvec_cobs_with_sentinel,
    to_vec_cobs_with_sentinel,
};

// The number 300 as a frame for the sentinel 10.
const FRAME: [u8; 4] = [0x09, 0xA6, 0x08, 0x0A];

#[test]
fn in_slices_arrays_and_vectors(rt: HostRuntime) {
    let mut room = [9u8; 4];
    let small = to_vec_cobs_with_sentinel::<_, 3>(&300u32, 0x0A);
    check_all(
        &rt,
        [
            is_slice(
                to_slice_cobs_with_sentinel(&false, &mut room, 1),
                &[0, 0, 1],
            ),
            is_array(to_vec_cobs_with_sentinel::<_, 4>(&300u32, 0x0A), &FRAME),
            fails(small, Error::SerializeBufferFull),
            is_vector(
                to_allocvec_cobs_with_sentinel(rt.alloc(), &300u32, 0x0A),
                &FRAME,
            ),
            is_vector(
                to_stdvec_cobs_with_sentinel(rt.alloc(), &300u32, 0x0A),
                &FRAME,
            ),
        ],
    );
}

#[test]
fn and_back(rt: HostRuntime) {
    let mut frame = FRAME;
    let mut line = [0x09, 0xA6, 0x08, 0x0A, 7, 8];
    let is_read = match take_from_bytes_cobs_with_sentinel::<u32>(rt.alloc(), &mut line, 0x0A) {
        Ok((value, rest)) => value == 300 && are_equal(rest, &[7, 8]),
        Err(_) => false,
    };
    check_all(
        &rt,
        [
            is_read,
            gives(
                from_bytes_cobs_with_sentinel::<u32>(rt.alloc(), &mut frame, 0x0A),
                300,
            ),
        ],
    );
    let mut accumulator = CobsAccumulator::<4>::new_with_sentinel(0xFF);
    check_all(
        &rt,
        [
            is_value(accumulator.feed(rt.alloc(), &[0xFD, 0xFE, 0xFF]), 1, 0),
            is_consumed(accumulator.feed(rt.alloc(), &[0xFD])),
            is_refused(accumulator.feed_ref(rt.alloc(), &[0xFF, 0]), 1),
        ],
    );
}
