//! Both ways over one connection, through a pipe in memory that has room for three bytes.
use crate::checks::check;
use crate::codec::checks::{Heard, letter, next};
use crate::codec::writing::Letters;
use futures::Sink;
use futures::task::Poll;
use futures::test::MockTask;
use link_codec::{LinkCodec, StrictLinkDecoder};
use std::alloc::Global;
use tokio::io::{DuplexStream, duplex};
use tokio_util::codec::Framed;

type End = Framed<DuplexStream, LinkCodec<StrictLinkDecoder<String, 4>, 3>>;

fn end(alloc: Global, stream: DuplexStream) -> Option<End> {
    let codec = LinkCodec {
        decoder: StrictLinkDecoder::new(),
        encoder: Letters::new(),
    };
    Framed::new(alloc, stream, codec).ok()
}

// Whether all that one end was given to send has gone out, by one poll of a flush, or of a close.
fn is_flushed(task: &MockTask, end: &mut End, closes: bool) -> bool {
    let flushed = task.enter(|cx| match closes {
        true => Sink::<&str>::poll_close(end, cx),
        false => Sink::<&str>::poll_flush(end, cx),
    });
    matches!(flushed, Poll::Ready(Ok(())))
}

// Flushes one end and polls the other in turn, until so many letters are received.
fn carry(task: &MockTask, from: &mut End, to: &mut End, heard: &mut Heard, count: usize) -> bool {
    for _ in 0..16 {
        let is_done = is_flushed(task, from, false);
        heard.push(letter(next(task, to)));
        if is_done && heard.letters.count == count {
            return true;
        }
    }
    false
}

fn sends(end: &mut End, text: &'static str) -> bool {
    end.start_send(text).is_ok()
}

// Whether a goes over and b, then c the other way and d, and then one end closes, and the other is told.
fn talk(task: &MockTask, near: &mut End, far: &mut End) -> bool {
    let mut heard = Heard::new();
    let is_carried = sends(near, "a")
        && sends(near, "b")
        && carry(task, near, far, &mut heard, 2)
        && sends(far, "c")
        && sends(near, "d")
        && carry(task, far, near, &mut heard, 3)
        && carry(task, near, far, &mut heard, 4)
        && heard.letters.is(b"abcd");
    is_carried && is_flushed(task, near, true) && letter(next(task, far)) == b'.'
}

// Whether two ends of a pipe talk so.
fn ends_talk(alloc: Global, task: &MockTask) -> bool {
    let Ok((near, far)) = duplex(alloc, 3) else {
        return false;
    };
    match (end(alloc, near), end(alloc, far)) {
        (Some(mut near), Some(mut far)) => talk(task, &mut near, &mut far),
        _ => false,
    }
}

#[test]
fn in_turn(rt: HostRuntime) {
    match MockTask::new(&rt) {
        Ok(task) => check(&rt, ends_talk(rt.alloc(), &task)),
        Err(_) => check(&rt, false),
    }
}
