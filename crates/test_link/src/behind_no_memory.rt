//! What stands where a value or a list found no memory, and what is received after it.
//!
//! The tests whose names begin with `said` are also run with each allocation refused in turn, by `.ci/refusals`: then one answer is
//! missing, and no more. In the gate none is refused, and none is missing.
ghost use Rattle.std.specs.Prelude.{◌<◌};

use crate::checks::{all_true, check};
use crate::refused_growths::are_first;
use crate::vectors_in_turn::Hearing;
use line_io::memory::In;
use link::{End, OfType, Ordinary, Receiver, receive, receive_by_accumulator};
use std::alloc::Global;

// Four vectors and their frames. In the longer two there stands the frame of a vector that nobody sent: whoever begins to listen
// inside them receives it.
const SENT: [&[u8]; 4] = [&[9], &[3, 1, 7], &[2], &[3, 1, 8]];

const LINE: [u8; 20] = [3, 1, 9, 0, 5, 3, 3, 1, 7, 0, 3, 1, 2, 0, 5, 3, 3, 1, 8, 0];

/// What one read of a line that idles has come to.
#[derive(Clone, Copy, Drop)]
enum Turn {
    More,
    Nothing,
    Failed,
    Lost,
}

fn listen(
    alloc: Global,
    receiver: &mut Receiver<16>,
    reader: &mut In<'_>,
    hearer: &mut Hearing,
) -> Turn {
    let mut room = [0u8; 64];
    match receiver.listen_with(alloc, &Ordinary(OfType), reader, hearer, &mut room) {
        // the answers of this read were reported; there may be more
        None => Turn::More,
        // the read took nothing: the time is over, or the line has ended
        Some(End::Ended) => Turn::Nothing,
        // it failed, or was interrupted
        Some(End::ReadFault) => Turn::Failed,
        // a value found no memory: its answer alone is missing
        Some(End::NoMemory) => Turn::Lost,
    }
}

/// How many values found no memory until the line had ended.
fn listen_out(
    alloc: Global,
    receiver: &mut Receiver<16>,
    reader: &mut In<'_>,
    hearer: &mut Hearing,
) -> usize {
    let mut lost = 0usize;
    for _ in 0..32 {
        match listen(alloc, receiver, reader, hearer) {
            Turn::More => {}
            Turn::Lost => lost = lost.saturating_add(1),
            Turn::Nothing | Turn::Failed => break,
        }
    }
    lost
}

/// A receiver that continues to listen receives all but the lost one, and nothing else.
fn is_heard_on(alloc: Global, each: usize) -> bool
    requires { 0 < each }
{
    let mut receiver = Receiver::<16>::new();
    let mut reader = In::new(&LINE, each, None);
    let mut hearing = Hearing::new(&SENT);
    let lost = listen_out(alloc, &mut receiver, &mut reader, &mut hearing);
    let whole = hearing.heard.saturating_add(lost) == 4;
    hearing.is_right && whole && reader.moved() == 20 && receiver.is_between()
}

/// Where a reception ended at a lost value, the receiver stands after all that was read: who continues to listen receives nothing else than was
/// sent.
fn is_behind(alloc: Global, each: usize) -> bool
    requires { 0 < each }
{
    let mut receiver = Receiver::<16>::new();
    let mut reader = In::new(&LINE, each, None);
    let mut hearing = Hearing::new(&SENT);
    let end = receiver.receive_each_with(alloc, &Ordinary(OfType), &mut reader, &mut hearing);
    let whole = end == Some(End::Ended) && hearing.heard == 4;
    let lost = end == Some(End::NoMemory) && hearing.heard < 4;
    let _ = listen_out(alloc, &mut receiver, &mut reader, &mut hearing);
    hearing.is_right && (whole || lost) && reader.moved() == 20 && receiver.is_between()
}

/// By either call, in chunks of some sizes.
#[test]
fn said_by_listening(rt: HostRuntime) {
    let alloc = rt.alloc();
    let found = [
        is_heard_on(alloc, 1),
        is_heard_on(alloc, 7),
        is_heard_on(alloc, 20),
        is_behind(alloc, 1),
        is_behind(alloc, 7),
        is_behind(alloc, 20),
    ];
    check(&rt, all_true(found));
}

// The frames of six vectors of one byte: more than the first growth of a list has room for.
const SIX: [u8; 24] = [
    3, 1, 1, 0, 3, 1, 2, 0, 3, 1, 3, 0, 3, 1, 4, 0, 3, 1, 5, 0, 3, 1, 6, 0,
];

/// Byte by byte, so that a reception ends at the byte at which memory was wanting: each frame before that one is answered, by its value.
/// The accumulator's loop leaves a value without memory out, and ends where its list finds none.
#[test]
fn said_by_lists(rt: HostRuntime) {
    let got = receive::<Vec<u8>, _, 16>(rt.alloc(), In::new(&SIX, 1, None));
    let missing = usize::from(got.end == End::NoMemory);
    let answered = got.answers.len().saturating_add(missing);
    let are_all = answered == got.reader.moved() / 4 && are_first(&got.answers);
    check(&rt, are_all && (missing == 1 || answered == 6));
    let got = receive_by_accumulator::<Vec<u8>, _, 16>(rt.alloc(), In::new(&SIX, 1, None));
    let frames = got.reader.moved() / 4;
    let count = got.values.len();
    let is_right = match got.end {
        End::NoMemory => count.saturating_add(1) == frames,
        End::Ended => frames == 6 && 5 <= count && count <= 6,
        End::ReadFault => false,
    };
    check(&rt, is_right);
}
