//! `link`, receiving, with each kind of sentinel and of limit: what is lent, stretches cut anywhere, readers that fail, limits that
//! are set anew, and what is left in place. Answers to plain streams are lines of `replay_link`.
ghost use Rattle.std.specs.Prelude.{◌≤◌, length};

use crate::checks::{all_true, are_bytes, check, check_at, is_answer, is_lent, is_told};
use line_io::memory::In;
use link::{
    Answer, End, NoMemory, OwnedReceiver, Pushed, Receiver, read_in_place,
    read_in_place_with_sentinel, receive, receive_by_accumulator,
};
use std::alloc::Global;

/// A stretch that is too long by one byte, and then ends.
#[test]
fn too_long_by_one(rt: HostRuntime) {
    let mut receiver = Receiver::<4>::new();
    let pushed = receiver.push::<()>(rt.alloc(), &[5, 1, 1, 1, 1]);
    check(&rt, pushed.used == 5 && !receiver.is_between());
    check(&rt, is_answer(&pushed.answer, &Answer::TooLong));
    let ended = receiver.push::<()>(rt.alloc(), &[0]);
    check(&rt, matches!(&ended.answer, Ok(None)));
    check(&rt, receiver.is_between());
    check(&rt, receiver.finish::<()>().is_none());
}

// From which byte to which a chunk of an idle line goes, and the value that it brings, if any, after so many bytes.
const IDLE: [(usize, usize, Option<(bool, usize)>); 3] = [
    (0, 110, Some((true, 103))),
    (103, 110, Some((false, 4))),
    (107, 108, None),
];

// Whether a chunk brings the value of a stretch of two bytes, after so many bytes.
fn brings_value(
    alloc: Global,
    receiver: &mut Receiver<4>,
    piece: &[u8],
    wanted: &Option<(bool, usize)>,
) -> bool {
    let Pushed {
        used,
        stretch,
        answer,
        ..
    } = receiver.push::<bool>(alloc, piece);
    match (&answer, wanted) {
        (Ok(Some(Answer::Value(value))), Some((wanted, count))) => {
            *value == *wanted && used == *count && stretch == 2
        }
        (Ok(None), None) => true,
        _ => false,
    }
}

// Whether each chunk of an idle line is answered so, and the last one begins a stretch.
fn skips_idle(alloc: Global, sentinel: u8) -> bool {
    let mut bytes = [sentinel; 110];
    bytes[100] = 2 ^ sentinel;
    bytes[101] = 1 ^ sentinel;
    bytes[104] = 1 ^ sentinel;
    bytes[105] = 1 ^ sentinel;
    bytes[107] = 2 ^ sentinel;
    let mut receiver = Receiver::<4>::new_with_sentinel(sentinel);
    for (from, to, wanted) in &IDLE {
        match bytes.get(*from..*to) {
            Some(piece) if brings_value(alloc, &mut receiver, piece, wanted) => {}
            _ => return false,
        }
    }
    !receiver.is_between()
}

/// A line that was idle: a hundred sentinels, a value, one more and a value, and a frame that the end cuts.
#[test]
fn skips_idle_bytes(rt: HostRuntime) {
    check(
        &rt,
        skips_idle(rt.alloc(), 0) && skips_idle(rt.alloc(), 0x55),
    );
}

/// By a receiver with a limit of its type, before a stretch that the bytes cut; with another sentinel; and by one whose limit is set
/// at run time.
#[test]
fn lends(rt: HostRuntime) {
    let mut receiver = Receiver::<8>::new();
    let lent = receiver.push_ref::<&str>(rt.alloc(), &[4, 2, 104, 105, 0, 2, 5]);
    check(&rt, is_lent(&lent, 5, &"hi"));
    let used = receiver.push_ref::<&str>(rt.alloc(), &[2, 5]).used;
    check(&rt, used == 2 && !receiver.is_between());
    check(&rt, receiver.finish::<u8>() == Some(Answer::Cut));
    let mut receiver = Receiver::<8>::new_with_sentinel(1);
    let lent = receiver.push_ref::<&[u8]>(rt.alloc(), &[2, 0, 8, 1]);
    let passed = is_lent(&lent, 4, &[9].as_slice());
    check(&rt, passed && receiver.is_between());
    let Ok(mut receiver) = OwnedReceiver::new(rt.alloc(), 4, 0x0A) else {
        return check(&rt, false);
    };
    let lent = receiver.push_ref::<&str>(rt.alloc(), &[0x0E, 0x08, 0x62, 0x63, 0x0A]);
    let passed = is_lent(&lent, 5, &"hi");
    check(&rt, passed && receiver.is_between());
}

// Whether a frame of `true` is taken.
fn takes_true(alloc: Global, receiver: &mut OwnedReceiver) -> bool {
    let pushed = receiver.push::<bool>(alloc, &[2, 1, 0]);
    is_answer(&pushed.answer, &Answer::Value(true))
}

// Whether one byte is too much, until its stretch ends.
fn takes_nothing(alloc: Global, receiver: &mut OwnedReceiver) -> bool {
    let pushed = receiver.push_strict::<()>(alloc, &[1]);
    let ended = receiver.push::<bool>(alloc, &[0]);
    is_answer(&pushed.answer, &Answer::TooLong) && matches!(&ended.answer, Ok(None))
}

// Whether a receiver of two bytes goes by a limit that is lowered, and by one that is raised again.
fn goes_by_its_limit(alloc: Global, receiver: &mut OwnedReceiver) -> bool {
    takes_true(alloc, receiver)
        && receiver.is_between()
        && receiver.set_limit(0).is_ok()
        && takes_nothing(alloc, receiver)
        && receiver.is_between()
        && receiver.set_limit(2).is_ok()
        && receiver.limit() == 2
        && takes_true(alloc, receiver)
}

#[test]
fn limit_set_anew(rt: HostRuntime) {
    let Ok(mut receiver) = OwnedReceiver::new(rt.alloc(), 2, 0) else {
        return check(&rt, false);
    };
    let passed = goes_by_its_limit(rt.alloc(), &mut receiver);
    check(&rt, passed && receiver.finish::<()>().is_none());
}

/// A list asks for some places, not for many. Two bytes of a stretch, and then a read that fails, bring no answer.
#[test]
fn lists_take_few_places(rt: HostRuntime) {
    let received = receive::<bool, _, 8>(rt.alloc(), In::new(&[2, 1, 0], 3, None));
    let gathered = receive_by_accumulator::<bool, _, 8>(rt.alloc(), In::new(&[2, 1, 0], 3, None));
    let failed = receive::<bool, _, 8>(rt.alloc(), In::new(&[2, 1], 1, Some(2)));
    let found = [
        received.answers.len() == 1,
        received.answers.capacity() <= 64,
        gathered.values.len() == 1,
        gathered.values.capacity() <= 64,
        failed.answers.is_empty(),
        failed.end == End::ReadFault,
    ];
    check(&rt, all_true(found));
}

// Whether the next stretch is answered so, with so many bytes after it.
fn reads(
    alloc: Global,
    bytes: &mut [u8],
    sentinel: u8,
    wanted: Answer<bool>,
    behind: usize,
) -> bool {
    if sentinel != 0 {
        return match read_in_place_with_sentinel::<bool>(alloc, bytes, sentinel) {
            Some((answer, rest)) => is_told(&answer, &wanted) && rest.len() == behind,
            None => false,
        };
    }
    match read_in_place::<bool>(alloc, bytes) {
        Some((answer, rest)) => is_told(&answer, &wanted) && rest.len() == behind,
        None => false,
    }
}

// Whether a value is read, the sentinel before it is still there, and a stretch after it that isn't ended stays as it was.
fn leaves_the_unfinished(alloc: Global, sentinel: u8) -> bool {
    let last = [sentinel, 3 ^ sentinel, 1 ^ sentinel];
    let mut bytes = [sentinel; 6];
    bytes[1] = 2 ^ sentinel;
    bytes[2] = 1 ^ sentinel;
    bytes[3..].copy_from_slice(&last);
    reads(alloc, &mut bytes, sentinel, Answer::Value(true), 2)
        && bytes[0] == sentinel
        && are_bytes(&bytes[3..], &last)
        && reads(alloc, &mut bytes[4..], sentinel, Answer::Cut, 0)
        && bytes[0] == sentinel
        && are_bytes(&bytes[3..], &last)
}

#[test]
fn reads_in_place(rt: HostRuntime) {
    let alloc = rt.alloc();
    let are_left = leaves_the_unfinished(alloc, 0) && leaves_the_unfinished(alloc, 0x0A);
    check(
        &rt,
        are_left && read_in_place::<bool>(alloc, &mut []).is_none(),
    );
}

// Whether the next answer in a chunk, ordinarily or strictly, is a value of 252 ones, a damaged stretch or none, as it is wanted; and
// how many bytes it took.
fn next(
    alloc: Global,
    receiver: &mut Receiver<256>,
    piece: &[u8],
    strict: bool,
    is_value: Option<bool>,
) -> (usize, bool)
    ensures { result.0 ≤ length piece.now }
{
    let Pushed { used, answer, .. } = if strict {
        receiver.push_strict::<Vec<u8>>(alloc, piece)
    } else {
        receiver.push::<Vec<u8>>(alloc, piece)
    };
    let is_right = match (answer, is_value) {
        (Ok(Some(Answer::Value(bytes))), Some(true)) => are_bytes(&bytes, &[1; 252]),
        (Ok(Some(Answer::Damaged)), Some(false)) => true,
        (Ok(None), None) => true,
        _ => false,
    };
    (used, is_right)
}

// Whether a chunk, taken in to its end, brings these values and damaged stretches, and no more.
fn brings(
    alloc: Global,
    receiver: &mut Receiver<256>,
    piece: &[u8],
    strict: bool,
    are_values: &[bool],
) -> bool {
    let mut rest = piece;
    for is_value in are_values {
        let (used, is_right) = next(alloc, receiver, rest, strict, Some(*is_value));
        if !is_right {
            return false;
        }
        rest = &rest[used..];
    }
    next(alloc, receiver, rest, strict, None).1
}

// Whether the stream in two chunks brings these answers, so many of them by its first one.
fn is_heard(alloc: Global, chunks: (&[u8], &[u8]), before: usize, strict: bool) -> bool {
    let are_values = [!strict, true];
    let (first, last) = are_values.split_at(before.min(2));
    let mut receiver = Receiver::<256>::new();
    brings(alloc, &mut receiver, chunks.0, strict, first)
        && brings(alloc, &mut receiver, chunks.1, strict, last)
}

/// Two frames of 252 ones: the first has a code too many, and is damaged strictly.
#[test]
fn either_frame_cut_anywhere(rt: HostRuntime) {
    let mut stream = [1u8; 513];
    stream[0] = 255;
    stream[1] = 252;
    stream[256] = 0;
    stream[257] = 255;
    stream[258] = 252;
    stream[512] = 0;
    for cut in 0..514 {
        let before = usize::from(256 < cut).saturating_add(usize::from(512 < cut));
        let chunks = stream.split_at(cut);
        let plainly = is_heard(rt.alloc(), chunks, before, false);
        check_at(
            &rt,
            cut,
            plainly && is_heard(rt.alloc(), chunks, before, true),
        );
    }
}

// Whether an accumulator gathers these numbers from a reader until it ends so.
fn gathers(alloc: Global, reader: In<'_>, values: &[u32], end: End) -> bool {
    let got = receive_by_accumulator::<u32, _, 4>(alloc, reader);
    got.end == end && got.values.as_slice() == values
}

#[test]
fn by_accumulator(rt: HostRuntime) {
    let line = [0u8, 3, 0, 3, 0xAC, 2, 0, 2, 5, 0, 3, 0xAC];
    for each in 1..12 {
        let reader = In::new(&line, each, None);
        check(&rt, gathers(rt.alloc(), reader, &[300, 5], End::Ended));
    }
    let reader = In::new(&line, 3, Some(8));
    check(&rt, gathers(rt.alloc(), reader, &[300], End::ReadFault));
}
