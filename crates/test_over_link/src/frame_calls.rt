//! What is sent, and what is received of a damaged line, by `frames` and `frames_small`: bytes by hand, from the rules.

use crate::checks::check;
use frames::{
    FrameEvent, FramePush, FrameReceiver, FrameSender, WrongBuffer, encode, encode_with_sentinel,
    seal, unseal,
};
use frames_small::{SmallReceiver, SmallSender};
use line_io::memory::Out;
use std::alloc::Global;

// `hi` with its length; a send that was interrupted inside its block; three bytes whose count says nine; nine bytes, which are too many;
// `yo`.
const LINE: [u8; 30] = [
    0, 4, 2, b'h', b'i', 0, 9, 7, 0, 5, 9, 1, 2, 3, 0, 1, 1, 1, 1, 1, 1, 1, 1, 1, 0, 4, 2, b'y',
    b'o', 0,
];

const MESSAGE: FrameEvent = FrameEvent::Message {
    start: 1,
    length: 2,
};

// At which byte each event comes, of how long a stretch, and which it is.
const HEARD: [(usize, usize, FrameEvent); 5] = [
    (5, 4, MESSAGE),
    (8, 2, FrameEvent::Damaged),
    (14, 5, FrameEvent::Damaged),
    (23, 8, FrameEvent::TooLong),
    (29, 4, MESSAGE),
];

// Whether these events are received of the line, byte by byte.
fn is_heard(alloc: Global) -> bool {
    let mut receiver = FrameReceiver::new(0);
    let mut buffer = [0u8; 8];
    let mut count: usize = 0;
    for (at, byte) in LINE.iter().enumerate() {
        let Ok(push) = receiver.push_byte(alloc, &mut buffer, *byte) else {
            return false;
        };
        if let Some(event) = push.event {
            if count >= 5 || HEARD[count] != (at, push.stretch, event) {
                return false;
            }
            count += 1;
        }
    }
    count == 5 && receiver.begun_bytes() == 0 && !receiver.finish()
}

// Whether a chunk results in this first event, at the end of six bytes.
fn brings(alloc: Global, piece: &[u8], wanted: FrameEvent, plain: bool) -> bool {
    let mut receiver = FrameReceiver::new(0);
    let mut buffer = [0u8; 8];
    let pushed = if plain {
        receiver.push_plain(&mut buffer, piece)
    } else {
        receiver.push(alloc, &mut buffer, piece)
    };
    match pushed {
        Ok(push) => push.used == 6 && push.event == Some(wanted),
        Err(_) => false,
    }
}

#[test]
fn damaged_line_and_pieces(rt: HostRuntime) {
    let alloc = rt.alloc();
    // a plain send of `pay`, zero, `me` that was interrupted after five bytes, and the next one's zero
    let pay = FrameEvent::Message {
        start: 0,
        length: 3,
    };
    let are_right = is_heard(alloc)
        && brings(alloc, &LINE, MESSAGE, false)
        && brings(alloc, &[0, 4, b'p', b'a', b'y', 0], pay, true);
    check(&rt, are_right);
}

#[test]
fn one_message(rt: HostRuntime) {
    let mut receiver = FrameReceiver::new(0);
    let mut buffer = [0u8; 8];
    let push = receiver.push(rt.alloc(), &mut buffer, &[0, 4, 2, b'h', b'i', 0, 9]);
    let event = Some(FrameEvent::Message {
        start: 1,
        length: 2,
    });
    let used = 6;
    let stretch = 4;
    check(
        &rt,
        push == Ok(FramePush {
            used,
            stretch,
            event,
        }),
    );
    check(&rt, buffer[1..3] == [b'h', b'i']);
    check(&rt, receiver.push_plain(&mut buffer, &[9, 9]).is_ok());
    let another = receiver.push_plain(&mut buffer[..1], &[9]);
    check(&rt, another == Err(WrongBuffer));
}

#[test]
fn small(rt: HostRuntime) {
    let mut sender = SmallSender::new(0);
    let mut line = [0u8; 6];
    let mut outlet = Out::new(&mut line, 1, None);
    check(&rt, sender.send(&mut outlet, b"hi").is_ok());
    check(&rt, line == [0, 4, 2, b'h', b'i', 0]);
    let mut receiver = SmallReceiver::new(0);
    let mut buffer = [0u8; 4];
    let mut event = None;
    for byte in line {
        match receiver.push_byte(&mut buffer, byte) {
            Ok(push) => event = push.event,
            Err(_) => check(&rt, false),
        }
    }
    check(&rt, event == Some(MESSAGE) && buffer[1..3] == [b'h', b'i']);
}

#[test]
fn sends(rt: HostRuntime) {
    let mut sender = FrameSender::new(0);
    let mut room = [0u8; 6];
    check(&rt, sender.send(b"hi", &mut room[..5]).is_err());
    check(
        &rt,
        sender.send(b"hi", &mut room) == Ok(6) && room == [0, 4, 2, b'h', b'i', 0],
    );
    sender.went_out();
    check(
        &rt,
        sender.send_plain(b"hi", &mut room) == Ok(4) && room == [3, b'h', b'i', 0, b'i', 0],
    );
}

#[test]
fn frames_and_sums(rt: HostRuntime) {
    // four bytes are encoded by zero and by 0A
    let mut room = [0u8; 6];
    let is_plain = encode(&[10, 11, 0, 12], &mut room) == Ok(5) && room == [3, 10, 11, 2, 12, 0];
    let masked = encode_with_sentinel(&[10, 11, 0, 12], &mut room, 10);
    check(
        &rt,
        is_plain && masked == Ok(5) && room == [9, 0, 1, 8, 6, 0],
    );
    // a message is sealed and unsealed, one that was changed isn't, and one that has no room isn't sealed
    let mut message = [b'h', b'i', 0, 0, 0, 0];
    let is_sealed = seal(&mut message, 2) == Ok(6) && unseal(&message) == Some(2);
    message[0] = b'H';
    check(
        &rt,
        is_sealed && unseal(&message).is_none() && seal(&mut message, 3).is_err(),
    );
}
