//! What is received of three readings over a line that fails at a byte of the second's, worked by hand.
//!
//! The frames are 03 07 67, 03 08 69 and 03 09 6B, so the line is 00 03 07 67 00 03 08 69 00 03 09 6B 00: the second send has the
//! bytes from the sixth to the ninth.
use crate::{Exchanged, Reading, SentAgain, exchange, send_again};
use link::{Answer, SendError};
use std::process::Abort;

const A: Reading = Reading {
    sensor: 7,
    temperature: -52,
};

const B: Reading = Reading {
    sensor: 8,
    temperature: -53,
};

const C: Reading = Reading {
    sensor: 9,
    temperature: -54,
};

// Ends a test that isn't right.
fn check(rt: &impl Abort, is_right: bool) {
    assert!(rt; is_right);
}

// Whether an answer is this reading; or damage, where none is wanted.
fn is_heard(answer: &Answer<Reading>, wanted: &Option<Reading>) -> bool {
    match answer {
        Answer::Value(reading) => match wanted {
            Some(wanted) => *reading == *wanted,
            None => false,
        },
        Answer::Damaged => wanted.is_none(),
        _ => false,
    }
}

// Whether these answers are all, in order.
fn are_heard(answers: &[Answer<Reading>], wanted: &[Option<Reading>]) -> bool {
    for (answer, wanted) in answers.iter().zip(wanted) {
        if !is_heard(answer, wanted) {
            return false;
        }
    }
    answers.len() == wanted.len()
}

// Whether a send was interrupted.
fn broke_off(sent: &Result<(), SendError>) -> bool {
    matches!(sent, Err(SendError::Line))
}

// Whether all three are sent and received.
fn all_go_over(all: &Exchanged) -> bool {
    all.first.is_ok()
        && all.second.is_ok()
        && all.third.is_ok()
        && are_heard(&all.answers, &[Some(A), Some(B), Some(C)])
}

#[test]
fn all_are_heard(rt: HostRuntime) {
    check(&rt, all_go_over(&exchange(rt.alloc(), None, &A, &B, &C)));
}

// Whether the second is interrupted, and these are received.
fn breaks_off(all: &Exchanged, wanted: &[Option<Reading>]) -> bool {
    all.first.is_ok()
        && broke_off(&all.second)
        && all.third.is_ok()
        && are_heard(&all.answers, wanted)
}

// After how many bytes the line fails once, and what is received.
type Row = (usize, &'static [Option<Reading>]);

const BROKEN: [Row; 3] = [
    (5, &[Some(A), Some(C)]),
    (7, &[Some(A), None, Some(C)]),
    (8, &[Some(A), Some(B), Some(C)]),
];

#[test]
fn the_second_breaks_off(rt: HostRuntime) {
    for (before, wanted) in BROKEN {
        let all = exchange(rt.alloc(), Some(before), &A, &B, &C);
        check(&rt, breaks_off(&all, wanted));
    }
}

// Whether the first send is interrupted and the second isn't, and these are received.
fn goes_over_again(all: &SentAgain, wanted: &[Option<Reading>]) -> bool {
    broke_off(&all.first) && all.second.is_ok() && are_heard(&all.answers, wanted)
}

const AGAIN: [Row; 3] = [
    (1, &[Some(A)]),
    (3, &[None, Some(A)]),
    (4, &[Some(A), Some(A)]),
];

#[test]
fn one_is_sent_again(rt: HostRuntime) {
    for (before, wanted) in AGAIN {
        let all = send_again(rt.alloc(), before, &A);
        check(&rt, goes_over_again(&all, wanted));
    }
}
