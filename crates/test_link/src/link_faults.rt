//! `link`, over writers and readers that fail at each byte: what goes out, and what is received of it before a reader fails.
//! What is received of it all, in chunks of each size, are lines of `replay_link`.
ghost use Rattle.std.specs.Prelude.{◌<◌};

use crate::checks::{all_true, are_fates, check, check_at, holds, is_broken, is_too_long};
use crate::devices::{Taking, reader_of, writer_of};
use line_io::memory::{Fault, In, Out};
use line_io::{Outlet, Writes};
use link::{Answer, End, Fate, Sender, receive, receive_strict, send_each};
use std::alloc::Global;
use std::io::ErrorKind;

/// 300 (a `u32`) by a new sender, interrupted after so many bytes, and then sent whole by the same sender.
#[derive(Clone, Copy, Drop)]
struct Row {
    broken: usize,
    line: &'static [u8],
    /// What is received of the line, each answer at so many bytes.
    answers: &'static [(usize, Answer<u32>)],
}

const ROWS: [Row; 5] = [
    Row {
        broken: 0,
        line: b"\x00\x03\xAC\x02\x00",
        answers: &[(5, Answer::Value(300))],
    },
    Row {
        broken: 1,
        line: b"\x00\x00\x03\xAC\x02\x00",
        answers: &[(6, Answer::Value(300))],
    },
    Row {
        broken: 2,
        line: b"\x00\x03\x00\x03\xAC\x02\x00",
        answers: &[(3, Answer::Damaged), (7, Answer::Value(300))],
    },
    Row {
        broken: 3,
        line: b"\x00\x03\xAC\x00\x03\xAC\x02\x00",
        answers: &[(4, Answer::Damaged), (8, Answer::Value(300))],
    },
    Row {
        broken: 4,
        line: b"\x00\x03\xAC\x02\x00\x03\xAC\x02\x00",
        answers: &[(5, Answer::Value(300)), (9, Answer::Value(300))],
    },
];

/// Whether 300 is interrupted by a line.
fn is_broken_off<W: Outlet>(sender: &mut Sender<W, 8>) -> bool {
    is_broken(sender.send(&300u32)) && !sender.is_clean()
}

/// Whether 300 is interrupted by a line, and goes out where it is sent again.
fn is_sent_again<W: Outlet>(sender: &mut Sender<W, 8>) -> bool {
    is_broken_off(sender) && sender.send(&300u32).is_ok() && sender.is_clean()
}

/// Whether a reader failed, and these are the answers to so many bytes of a row's line, but for a `Cut`.
fn are_heard(row: &Row, count: usize, answers: &[Answer<u32>], end: End) -> bool {
    let mut number = 0usize;
    for (at, answer) in row.answers {
        if *at <= count {
            if answers.get(number) != Some(answer) {
                return false;
            }
            number = number.saturating_add(1);
        }
    }
    end == End::ReadFault && answers.len() == number
}

/// Whether a sender over memory that interrupts a row's send leaves so many bytes, or the row's line where it sends again.
fn sends(row: &Row, each: usize, fault: Option<(usize, Fault)>, again: bool) -> bool
    requires { 0 < each }
{
    let mut room = [0u8; 16];
    let mut sender = Sender::<_, 8>::new(Out::new(&mut room, each, fault));
    let passed = if again {
        is_sent_again(&mut sender)
    } else {
        is_broken_off(&mut sender)
    };
    let count = sender.into_inner().moved();
    passed
        && if again {
            holds(&room, count, row.line)
        } else {
            count == row.broken
        }
}

/// Whether a session over memory that interrupts its first send leaves the row's line.
fn sends_each(row: &Row, each: usize, fault: Option<(usize, Fault)>) -> bool
    requires { 0 < each }
{
    let mut room = [0u8; 16];
    let mut fates = [Fate::Refused; 2];
    let out = Out::new(&mut room, each, fault);
    let count = send_each::<u32, _, 8>(out, &[300, 300], &mut fates).moved();
    holds(&room, count, row.line) && are_fates(&fates, &[Fate::Broken, Fate::Done])
}

/// Whether a row's sends are right over memory that takes some bytes a call.
fn sends_in_each_size(row: &Row, kind: Fault) -> bool {
    let fault = Some((row.broken, kind));
    for each in 1..6 {
        if !sends(row, each, fault, true)
            || !sends(row, each, fault, false)
            || !sends_each(row, each, fault)
        {
            return false;
        }
    }
    true
}

/// Whether a sender over a writer that is in trouble once leaves the row's line.
fn sends_narrowly(row: &Row, trouble: Option<ErrorKind>) -> bool {
    let mut sender = Sender::<_, 8>::new(writer_of(1, row.broken, trouble));
    let passed = is_sent_again(&mut sender);
    has_left(sender.into_inner(), row.line) && passed
}

/// Whether a writer was left this line.
fn has_left(line: Writes<Taking>, wanted: &[u8]) -> bool {
    let narrow = line.into_inner();
    holds(&narrow.first, narrow.taken, wanted)
}

#[test]
fn sends_around_a_fault(rt: HostRuntime) {
    for row in &ROWS {
        let found = [
            sends_in_each_size(row, Fault::Fail),
            sends_in_each_size(row, Fault::Nothing),
            sends_narrowly(row, Some(ErrorKind::Interrupted)),
            sends_narrowly(row, Some(ErrorKind::Other)),
            sends_narrowly(row, None),
        ];
        check_at(&rt, row.broken, all_true(found));
    }
}

/// A frame of one byte, and one that is longer, by a sender of one byte.
#[test]
fn sends_by_the_least_sender(rt: HostRuntime) {
    let mut sender = Sender::<_, 1>::new(writer_of(1, usize::MAX, None));
    let passed = sender.send(&()).is_ok() && is_too_long(sender.send(&true)) && sender.is_clean();
    check(&rt, passed && has_left(sender.into_inner(), &[0, 1, 0]));
}

/// Whether so many bytes of a row's line, in chunks, are received until a fault, ordinarily and strictly.
fn hears(alloc: Global, row: &Row, count: usize, each: usize) -> bool
    requires { 0 < each }
{
    let got = receive::<u32, _, 8>(alloc, In::new(row.line, each, Some(count)));
    let strictly = receive_strict::<u32, _, 8>(alloc, In::new(row.line, each, Some(count)));
    got.reader.moved() == count
        && are_heard(row, count, &got.answers, got.end)
        && are_heard(row, count, &strictly.answers, strictly.end)
}

/// Whether so many bytes of a row's line are received in chunks of each size, and until a reader is interrupted.
fn hears_in_each_size(alloc: Global, row: &Row, count: usize) -> bool {
    for each in 1..10 {
        if !hears(alloc, row, count, each) {
            return false;
        }
    }
    let slow = reader_of(row.line, 1, count, ErrorKind::Interrupted);
    let got = receive::<u32, _, 8>(alloc, slow);
    are_heard(row, count, &got.answers, got.end)
}

#[test]
fn hears_until_a_fault(rt: HostRuntime) {
    for row in &ROWS {
        for count in 0..=row.line.len() {
            check_at(&rt, count, hears_in_each_size(rt.alloc(), row, count));
        }
    }
}
