//! Framed writers: what they write, in chunks of any length, after a fault, and of values that are refused.
use crate::checks::{are_equal, check};
use crate::codec::lines::{Paper, Pieces};
use bytes::BytesMut;
use futures::Sink;
use futures::task::Poll;
use futures::test::MockTask;
use link_codec::{EncodeError, LinkEncoder};
use postcard::Error;
use std::alloc::AllocGlobal;
use std::random::RandomSource;
use tokio_util::codec::{Encoder, FramedWrite};

// A sentinel, and the frames of a and of b.
const LINE: [u8; 9] = [0, 3, 1, 0x61, 0, 3, 1, 0x62, 0];

// The same where the sentinel is 0A.
const MARKED: [u8; 9] = [0x0A, 0x09, 0x0B, 0x6B, 0x0A, 0x09, 0x0B, 0x68, 0x0A];

/// The frame of a letter is as long as it may be.
pub type Letters = LinkEncoder<3>;

// Sends two texts, and flushes until no poll waits or fails: how many polls waited, how many found a fault, and whether the line is there
// then.
fn send<R: RandomSource + AllocGlobal>(rt: &R, pieces: Pieces) -> (usize, usize, bool) {
    let mut sent = (0usize, 0usize, false);
    let Ok(task) = MockTask::new(rt) else {
        return sent;
    };
    let Ok(mut writer) = FramedWrite::new(rt.alloc(), Paper::new(pieces), Letters::new()) else {
        return sent;
    };
    if writer.start_send("a").is_err() || writer.start_send("b").is_err() {
        return sent;
    }
    for _ in 0..32 {
        match task.enter(|cx| Sink::<&str>::poll_flush(&mut writer, cx)) {
            Poll::Ready(Ok(())) => break,
            Poll::Ready(Err(_)) => sent.1 = sent.1.saturating_add(1),
            Poll::Pending => sent.0 = sent.0.saturating_add(1),
        }
    }
    sent.2 = writer.get_ref().front.is(&LINE);
    sent
}

// Whether all goes out in chunks of any length; and byte by byte with polls that wait, on after a fault, and without one.
fn is_sent<R: RandomSource + AllocGlobal>(rt: &R) -> bool {
    for seed in 0..9u8 {
        if !matches!(send(rt, Pieces::new(seed, seed, false, None)), (0, 0, true)) {
            return false;
        }
    }
    for calls in 0..9usize {
        // one poll waits before each byte, and one before the fault
        if !matches!(
            send(rt, Pieces::new(1, 0, true, Some(calls))),
            (10, 1, true)
        ) {
            return false;
        }
    }
    matches!(send(rt, Pieces::new(1, 0, true, None)), (9, 0, true))
}

#[test]
fn in_pieces_and_on_behind_a_fault(rt: HostRuntime) {
    check(&rt, is_sent(&rt));
}

// Whether a text is refused because its frame is too long, by an encoder that is clean or not, and stays so.
fn refuses(encoder: &mut Letters, line: &mut BytesMut, is_clean: bool) -> bool {
    match encoder.encode("aa", line) {
        Err(EncodeError::Refused(Error::SerializeBufferFull)) => encoder.is_clean() == is_clean,
        _ => false,
    }
}

// Whether texts that are refused leave nothing between those that aren't.
fn leaves_nothing(encoder: &mut Letters, line: &mut BytesMut, wanted: &[u8]) -> bool {
    refuses(encoder, line, false)
        && line.is_empty()
        && encoder.encode("a", line).is_ok()
        && refuses(encoder, line, true)
        && encoder.encode(&"b", line).is_ok()
        && are_equal(line.as_slice(), wanted)
}

#[test]
fn a_refused_text_leaves_nothing(rt: HostRuntime) {
    let mut line = BytesMut::new(rt.alloc());
    let is_left_out = leaves_nothing(&mut Letters::new(), &mut line, &LINE);
    line.clear();
    let mut marking = Letters::new_with_sentinel(0x0A);
    check(
        &rt,
        is_left_out && leaves_nothing(&mut marking, &mut line, &MARKED),
    );
}
