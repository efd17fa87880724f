//! Out of memory: in a run in which an allocation is refused, each call says so or gives its whole answer, and what comes after it
//! stands.
//!
//! The test also passes where the first growth is refused, or the second, and so on. In the gate none is refused.
use crate::checks::check;
use crate::codec::checks::Heard;
use crate::codec::lines::{Line, Pieces};
use crate::codec::reading::{hear_short, hear_strictly};
use crate::codec::writing::Letters;
use bytes::BytesMut;
use link_codec::EncodeError;
use std::alloc::{AllocGlobal, Global};
use std::random::RandomSource;
use tokio_util::codec::Encoder;

// a, b, and a prefix of c.
const LINE: [u8; 11] = [0, 3, 1, 0x61, 0, 3, 1, 0x62, 0, 3, 1];

// All; or one value gone, or a buffer that didn't grow, an end, and the rest; or no reader.
const WHOLE: [&[u8]; 8] = [
    b"ab-..", b"!.b-.", b"a!.-.", b"#.ab-.", b"a#.b-.", b"ab#.-.", b"ab-#..", b"",
];

// Whether the line is answered so.
fn is_one(heard: &Heard) -> bool {
    for wanted in WHOLE {
        if heard.letters.is(wanted) {
            return true;
        }
    }
    false
}

// Whether it is, in chunks of one, four and eleven bytes; and strictly, if there was memory for the decoder.
fn is_said<R: RandomSource + AllocGlobal>(rt: &R) -> bool {
    for most in [1, 4, 11] {
        let pieces = Pieces::new(most, 5, true, None);
        if !is_one(&hear_short(
            rt,
            Line {
                bytes: &LINE,
                pieces,
            },
        )) {
            return false;
        }
    }
    let pieces = Pieces::new(4, 5, true, None);
    match hear_strictly(
        rt,
        Line {
            bytes: &LINE,
            pieces,
        },
        4,
        0,
    ) {
        Some(heard) => is_one(&heard),
        None => true,
    }
}

// Whether a text is written; or its buffer didn't grow, and it is written when it is sent again.
fn writes(alloc: Global, encoder: &mut Letters) -> bool {
    let mut line = BytesMut::new(alloc);
    let was_clean = encoder.is_clean();
    match encoder.encode("a", &mut line) {
        Ok(()) => true,
        Err(EncodeError::Io(_)) => {
            line.is_empty()
                && encoder.is_clean() == was_clean
                && encoder.encode("a", &mut line).is_ok()
        }
        Err(EncodeError::Refused(_)) => false,
    }
}

#[test]
fn said_by_readers_and_encoders(rt: HostRuntime) {
    check(&rt, is_said(&rt));
    let mut encoder = Letters::new();
    check(&rt, writes(rt.alloc(), &mut encoder) && encoder.is_clean());
    check(&rt, writes(rt.alloc(), &mut encoder) && encoder.is_clean());
}
