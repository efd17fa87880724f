//! `link`, from senders to a receiver: the headline, in which a send is interrupted. Lines of `replay_link` say what is received of
//! other sends that are interrupted, ordinarily and strictly.
use crate::checks::{are_fates, check, holds, is_broken};
use line_io::memory::{Fault, In, Out};
use link::{Answer, Fate, Received};
use link_laws::headline;
use link_laws::headline::InTurn;

// A send of 300 that was interrupted, and one that went out.
const LINE: [u8; 7] = [0, 3, 0, 3, 0xAC, 2, 0];

// Whether these answers were received.
fn hears(received: &Received<u32, In<'_>>, answers: &[Answer<u32>]) -> bool {
    received.answers.as_slice() == answers
}

// Whether the first send of 300 was interrupted, and the second went out.
fn is_sent_again(all: &InTurn<Out<'_>>) -> bool {
    is_broken(all.first) && all.second.is_ok() && all.writer.moved() == 7
}

/// Two sends, and two sessions.
#[test]
fn sends_in_turn(rt: HostRuntime) {
    let mut room = [0u8; 16];
    let all = headline::send_in_turn::<u32, _, 8>(
        Out::new(&mut room, 16, Some((2, Fault::Fail))),
        &300,
        &300,
    );
    let passed = is_sent_again(&all);
    drop(all);
    check(&rt, passed && holds(&room, 7, &LINE));
    let mut room = [0u8; 16];
    let mut first = [Fate::Refused; 2];
    let mut second = [Fate::Refused; 1];
    let writer = headline::send_each_in_turn::<u32, _, 8>(
        Out::new(&mut room, 16, Some((4, Fault::Fail))),
        &[5, 300],
        &mut first,
        &[7],
        &mut second,
    );
    let count = writer.moved();
    check(
        &rt,
        holds(&room, count, &[0, 2, 5, 0, 0, 2, 7, 0])
            && are_fates(&first, &[Fate::Done, Fate::Broken])
            && are_fates(&second, &[Fate::Done]),
    );
}

/// As values, and as a run.
#[test]
fn receives_what_was_sent(rt: HostRuntime) {
    let all = headline::receive_values::<u32, _, 16>(rt.alloc(), In::new(&LINE, 3, None));
    check(&rt, hears(&all, &[Answer::Damaged, Answer::Value(300)]));
    let all = headline::receive_run::<u32, _, 16>(rt.alloc(), In::new(&LINE, 2, None));
    check(&rt, hears(&all, &[Answer::Damaged, Answer::Value(300)]));
}
