//! `cobs`: decoders over a borrowed buffer, an array and a vector, also for any sentinel.
use crate::checks::{
    all_true, are_equal, begin_with, check, check_all, fails, gives, goes_on, takes,
};
use arrayvec::ArrayVec;
use cobs::{
    CobsDecoder, CobsDecoderHeapless, CobsDecoderOwned, DecodeError, decode_clear,
    decode_clear_in_place,
};

// 10, 11, 0, 12 as a frame for the sentinel 10
const FRAME: [u8; 5] = [9, 0, 1, 8, 6];

// A decoder goes on after a byte of its buffer that is changed in mid-frame.
#[test]
fn lent_buffers(rt: HostRuntime) {
    let mut buffer = [0u8; 4];
    let mut decoder = CobsDecoder::new(&mut buffer);
    let begun = goes_on(decoder.push(&[5, 1, 2]));
    if let [first, ..] = decoder.dest_mut() {
        *first = 9;
    }
    check_all(
        &rt,
        [
            begun,
            takes(decoder.push(&[3, 4, 0, 7]), 3, 4),
            are_equal(decoder.dest(), &[9, 2, 3, 4]),
        ],
    );
    // A frame of two bytes is refused, and its end once more.
    let mut buffer = [0u8; 1];
    let mut decoder = CobsDecoder::new(&mut buffer);
    let small = DecodeError::TargetBufTooSmall;
    check_all(
        &rt,
        [
            fails(decoder.push(&[3, 10, 11, 0]), small),
            fails(decoder.push(&[0]), small),
            are_equal(decoder.dest(), &[10]),
        ],
    );
}

#[test]
fn arrays(rt: HostRuntime) {
    let mut vec: ArrayVec<u8, 4> = ArrayVec::new();
    vec.push(7);
    let mut decoder = CobsDecoderHeapless::new_with_vec(vec);
    let begun = are_equal(decoder.dest(), &[7, 0, 0, 0]) && goes_on(decoder.feed(3));
    decoder.reset();
    check_all(
        &rt,
        [
            begun,
            takes(decoder.push(&[2, 6, 0]), 3, 1),
            are_equal(decoder.dest(), &[6, 0, 0, 0]),
        ],
    );
    let mut decoder: CobsDecoderHeapless<4> = CobsDecoderHeapless::new();
    let dest = decoder.dest_mut();
    let length = dest.len();
    dest[3] = 8;
    let empty: CobsDecoderHeapless<0> = CobsDecoderHeapless::new();
    let mut short: CobsDecoderHeapless<1> = CobsDecoderHeapless::default();
    check_all(
        &rt,
        [
            length == 4,
            are_equal(decoder.dest(), &[0, 0, 0, 8]),
            empty.dest().len() == 0,
            are_equal(short.dest(), &[0]),
            goes_on(short.feed(1)),
            gives(short.feed(0), Some(0)),
        ],
    );
}

// A frame that was cut out before: of a sentinel; one that doesn't fit; one that ends inside a block; and a long one.
#[test]
fn frames_without_sentinels(rt: HostRuntime) {
    let mut room = [0; 4];
    let mut long = [2; 300];
    long[0] = 255;
    let mut message = [0; 300];
    check_all(
        &rt,
        [
            gives(decode_clear(&[8, 8, 8, 15], &mut room, 10), 3),
            are_equal(&room, &[2, 0, 5, 0]),
            fails(
                decode_clear(&[3, 1, 1, 3, 1, 1], &mut room, 0),
                DecodeError::TargetBufTooSmall,
            ),
            fails(
                decode_clear(&[3, 1], &mut room, 0),
                DecodeError::InvalidFrame { decoded_bytes: 1 },
            ),
            fails(
                decode_clear(&long[..254], &mut message, 0),
                DecodeError::InvalidFrame { decoded_bytes: 253 },
            ),
            gives(decode_clear(&long[..255], &mut message, 0), 254),
        ],
    );
}

// The same in place: of a zero and of another sentinel, one that ends inside a block, one of 255 bytes and a longer one.
#[test]
fn frames_without_sentinels_in_place(rt: HostRuntime) {
    let mut plain = [3, 7, 8, 2, 9];
    let mut frame = [8, 8, 8, 15];
    let mut long = [2; 300];
    long[0] = 255;
    let mut longer = long;
    long[254] = 7;
    check_all(
        &rt,
        [
            gives(decode_clear_in_place(&mut plain, 0), 4),
            begin_with(&plain, &[7, 8, 0, 9]),
            gives(decode_clear_in_place(&mut frame, 10), 3),
            are_equal(&frame, &[2, 0, 5, 15]),
            fails(
                decode_clear_in_place(&mut [3, 1], 0),
                DecodeError::InvalidFrame { decoded_bytes: 1 },
            ),
            gives(decode_clear_in_place(&mut long[..255], 0), 254),
            long[253] == 7,
            gives(decode_clear_in_place(&mut longer[..299], 0), 297),
            are_equal(&longer[254..258], &[2, 0, 2, 0]),
        ],
    );
}

// Decoders of a sentinel: over a borrowed buffer, and over an array after a reset.
#[test]
fn another_sentinel(rt: HostRuntime) {
    let mut room = [0u8; 4];
    let mut lent = CobsDecoder::new_with_sentinel(&mut room, 10);
    let mut decoder = CobsDecoderHeapless::<4>::new_with_sentinel(10);
    let at_once = all_true([decoder.sentinel() == 10, goes_on(decoder.push(&[9, 0, 1]))]);
    decoder.reset();
    check_all(
        &rt,
        [
            goes_on(lent.push(&FRAME)),
            gives(lent.feed(10), Some(4)),
            are_equal(lent.dest(), &[10, 11, 0, 12]),
            at_once,
            goes_on(decoder.push(&FRAME)),
            gives(decoder.feed(10), Some(4)),
            are_equal(decoder.dest(), &[10, 11, 0, 12]),
        ],
    );
}

// Whether a decoder that is reset in a frame takes the next one whole.
fn begins_again(decoder: &mut CobsDecoderOwned) -> bool {
    let cut = goes_on(decoder.push(&FRAME[..3]));
    decoder.reset();
    all_true([
        cut,
        goes_on(decoder.push(&FRAME)),
        gives(decoder.feed(10), Some(4)),
        are_equal(decoder.dest(), &[10, 11, 0, 12]),
    ])
}

// Whether the buffer of a decoder of three bytes can be changed, also in a frame that is then given up.
fn is_changed(decoder: &mut CobsDecoderOwned) -> bool {
    let begun = goes_on(decoder.feed(2));
    decoder.reset();
    let taken = takes(decoder.push(&[2, 6, 2, 5, 0, 1]), 5, 3);
    let is_held = are_equal(decoder.dest(), &[6, 0, 5]);
    if let [_, second, _] = decoder.dest_mut() {
        *second = 4;
    }
    all_true([begun, taken, is_held, are_equal(decoder.dest(), &[6, 4, 5])])
}

// Whether a decoder returns this for each change of its size, and then holds these bytes.
fn changes_size(decoder: &mut CobsDecoderOwned, sizes: &[(usize, bool, &[u8])]) -> bool {
    for (size, is_found, held) in sizes {
        if !decoder.is_idle() || decoder.resize(*size).is_ok() != *is_found {
            return false;
        }
        if !are_equal(decoder.dest(), held) {
            return false;
        }
    }
    true
}

// A frame that two bytes don't hold, refused once at the byte that is too many and once at its end.
const THREE: [u8; 5] = [4, 1, 2, 3, 0];

fn is_refused(decoder: &mut CobsDecoderOwned) -> bool {
    all_true([
        decoder.is_idle(),
        fails(decoder.push(&THREE), DecodeError::TargetBufTooSmall),
        !decoder.is_idle(),
        fails(decoder.feed(0), DecodeError::TargetBufTooSmall),
    ])
}

// The start of a buffer stays through each change of size.
const LESS: [(usize, bool, &[u8]); 1] = [(2, true, &[6, 4])];

const MORE: [(usize, bool, &[u8]); 1] = [(4, true, &[1, 2, 0, 0])];

const OTHERS: [(usize, bool, &[u8]); 3] = [
    (usize::MAX, false, &[1, 2, 3, 0]),
    (1, true, &[1]),
    (3, true, &[1, 0, 0]),
];

#[test]
fn vectors(rt: HostRuntime) {
    let goes_on_again = match CobsDecoderOwned::new_with_sentinel(rt.alloc(), 4, 10) {
        Ok(mut decoder) => begins_again(&mut decoder),
        Err(_) => false,
    };
    let is_right = match CobsDecoderOwned::new(rt.alloc(), 3) {
        Ok(mut decoder) => all_true([
            are_equal(decoder.dest(), &[0, 0, 0]),
            decoder.sentinel() == 0,
            goes_on(decoder.feed(3)),
            goes_on(decoder.push(&[9, 9])),
            gives(decoder.feed(0), Some(2)),
            are_equal(decoder.dest(), &[9, 9, 0]),
            takes_all(&mut decoder),
        ]),
        Err(_) => false,
    };
    check(&rt, goes_on_again && is_right);
}

// Whether a decoder of three bytes takes its frames in through each change of its buffer.
fn takes_all(decoder: &mut CobsDecoderOwned) -> bool {
    all_true([
        is_changed(decoder),
        changes_size(decoder, &LESS),
        is_refused(decoder),
        changes_size(decoder, &MORE),
        takes(decoder.push(&THREE), 5, 3),
        changes_size(decoder, &OTHERS),
    ])
}
