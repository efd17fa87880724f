//! `cobs`, decoding: each row of the decoder's table, frames in place, and frames cut anywhere.
use crate::checks::{are_equal, check, check_all, check_at, decodes, fails, gives};
use cobs::DecodeResult::{DataComplete, DataContinue, DataStart, NoData};
use cobs::DecoderState::{Grab, GrabChain, Idle};
use cobs::*;

// A state, a byte, what is returned for it, and the state after it.
type Step = (
    DecoderState,
    u8,
    Result<DecodeResult, DecodeError>,
    DecoderState,
);

const REFUSED: Result<DecodeResult, DecodeError> = Err(DecodeError::InvalidFrame {
    decoded_bytes: 0,
});

const STEPS: [Step; 14] = [
    // between frames
    (Idle, 0, Ok(NoData), Idle),
    (Idle, 3, Ok(DataStart), Grab(2)),
    (Idle, 255, Ok(DataStart), GrabChain(254)),
    // at a code
    (Grab(0), 0, Ok(DataComplete), Idle),
    (GrabChain(0), 0, Ok(DataComplete), Idle),
    (Grab(0), 1, Ok(DataContinue(0)), Grab(0)),
    (Grab(0), 255, Ok(DataContinue(0)), GrabChain(254)),
    (GrabChain(0), 7, Ok(NoData), Grab(6)),
    (GrabChain(0), 255, Ok(NoData), GrabChain(254)),
    // in a block
    (Grab(9), 5, Ok(DataContinue(5)), Grab(8)),
    (GrabChain(1), 255, Ok(DataContinue(255)), GrabChain(0)),
    (Grab(255), 5, Ok(DataContinue(5)), Grab(254)),
    (Grab(1), 0, REFUSED, Idle),
    (GrabChain(254), 0, REFUSED, Idle),
];

#[test]
fn table(rt: HostRuntime) {
    for (state, byte, answer, next) in &STEPS {
        let mut now = *state;
        check(&rt, now.feed(*byte) == *answer && now == *next);
    }
}

#[test]
fn in_place(rt: HostRuntime) {
    let mut buf = [3u8, 10, 11, 2, 12, 0, 7];
    let mut padded = [0u8, 1];
    let mut cut = [3u8, 1];
    let mut masked = [9u8, 0, 1, 8, 6, 10, 3];
    let mut line = [9u8, 0, 1, 8, 6, 10, 9, 0];
    let mut broken = [9u8, 1, 10, 7];
    let refused = DecodeError::InvalidFrame { decoded_bytes: 1 };
    check_all(
        &rt,
        [
            decodes(decode_in_place_report(&mut buf), 5, 4),
            are_equal(&buf, &[10, 11, 0, 12, 12, 0, 7]),
            decodes(decode_in_place_report(&mut padded), 0, 0),
            fails(decode_in_place(&mut cut), refused),
            gives(decode_in_place_with_sentinel(&mut masked, 10), 4),
            are_equal(&masked, &[10, 11, 0, 12, 12, 0, 9]),
            decodes(decode_in_place_report_with_sentinel(&mut line, 10), 5, 4),
            are_equal(&line, &[10, 11, 0, 12, 6, 10, 9, 0]),
            fails(
                decode_in_place_report_with_sentinel(&mut broken, 10),
                refused,
            ),
            broken.ends_with(&[10, 7]),
        ],
    );
}

#[test]
fn refusals_with_sentinel(rt: HostRuntime) {
    let mut small = [0u8; 3];
    let broken = DecodeError::InvalidFrame { decoded_bytes: 1 };
    check_all(
        &rt,
        [
            fails(
                decode_with_sentinel(&[9, 0, 1, 8, 6], &mut small, 10),
                DecodeError::TargetBufTooSmall,
            ),
            fails(
                decode_vec_with_sentinel(rt.alloc(), &[3, 1], 0),
                DecodeVecError::Decode(broken),
            ),
        ],
    );
}

// 252 and then 253 ones, in the frame with one more block and in the shortest one.
fn two_frames() -> [u8; 513] {
    let mut stream = [1u8; 513];
    stream[0] = 255;
    stream[1] = 252;
    stream[256] = 0;
    stream[257] = 255;
    stream[258] = 252;
    stream[512] = 0;
    stream
}

// Takes in a chunk of that stream to its end, and returns how many messages came, if they were those.
fn taken(decoder: &mut CobsDecoder<'_>, piece: &[u8]) -> Option<usize> {
    let mut message = [1u8; 254];
    message[0] = 252;
    let mut rest = piece;
    for found in 0..3 {
        match decoder.push(rest) {
            Ok(Some(report)) if are_equal(decoder.dest(), &message) => {
                rest = &rest[report.parsed_size()..];
            }
            Ok(None) => return Some(found),
            _ => return None,
        }
    }
    None
}

// Whether the stream gives so many messages before a cut, and so many after it.
fn gives_messages(stream: &[u8], cut: usize, before: usize, behind: usize) -> bool {
    let mut buffer = [0u8; 254];
    let mut decoder = CobsDecoder::new(&mut buffer);
    let (front, rest) = stream.split_at(cut.min(stream.len()));
    taken(&mut decoder, front) == Some(before) && taken(&mut decoder, rest) == Some(behind)
}

#[test]
fn either_frame_cut_anywhere(rt: HostRuntime) {
    let stream = two_frames();
    for cut in 0..514 {
        let (before, behind) = match cut {
            0..=256 => (0, 2),
            257..=512 => (1, 1),
            _ => (2, 0),
        };
        check_at(&rt, cut, gives_messages(&stream, cut, before, behind));
    }
}

// A zero is decoded from each code of an empty block but the last one.
#[test]
fn zeros_only(rt: HostRuntime) {
    let ones = [1u8; 200];
    let zeros = [0u8; 199];
    for len in 1..201 {
        let mut dest = [7u8; 200];
        check_all(
            &rt,
            [
                decodes(decode(&ones[..len], &mut dest), len, len - 1),
                are_equal(&dest[..len - 1], &zeros[..len - 1]),
                dest[len - 1] == 7,
            ],
        );
    }
    let mut small = [7u8; 150];
    check_all(
        &rt,
        [
            fails(decode(&ones, &mut small), DecodeError::TargetBufTooSmall),
            are_equal(&small, &zeros[..150]),
        ],
    );
}
