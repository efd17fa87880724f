//! Sending over memory, and listening to it, as C functions.
ghost use Rattle.std.specs.Prelude.{◌≡◌, false, ⊤};
ghost use Rattle.link.specs.Each.{HeardAnyhow, heard_anyhow};

use crate::answers::{Counted, Found, NONE_FOUND};
use crate::messages::Owned;
use crate::records::{OTHER, count_answer};
use line_io::memory::{In, Out};
use link::{Answer, Fate, Hearer, OfType, Ordinary, Receiver, Sender, send_each};
use std::alloc::Global;

/// How many bytes a stretch has at most.
const LIMIT: usize = 512;

/// How many bytes one write or read moves at most.
const EACH: usize = 4096;

/// A hearer that counts.
#[derive(Drop)]
struct Hearing {
    found: Found,
}

impl Hearer<Owned> for Hearing {
    ghost hears = { HeardAnyhow };

    ghost laws = { heard_anyhow };

    ghost enough = { λ _. false };

    ghost settled = { λ _. ⊤ };

    fn hear(&mut self, answer: Answer<Owned>)
        ensures { ⊤ }
    {
        count_answer(answer, &mut self.found);
    }

    fn pause(&mut self)
        ensures heard { ⊤ }
        ensures settles { ⊤ }
    {}

    fn has_enough(&self) -> bool
        ensures { result ≡ false }
    {
        false
    }
}

/// Receives all that a line gives by `receive_each_with`, of which each read gives `each` bytes, and counts the answers. Nothing is
/// found where `each` is 0.
#[unsafe(no_mangle)]
pub extern "C" fn link_c_receive_each(
    alloc: Global,
    stream: &[u8],
    each: usize,
    found: &mut Found,
) {
    *found = NONE_FOUND;
    if each == 0 {
        return;
    }
    let mut reader = In::new(stream, each, None);
    let mut receiver = Receiver::<LIMIT>::new();
    let mut hearing = Hearing { found: NONE_FOUND };
    let _end = receiver.receive_each_with(alloc, &Ordinary(OfType), &mut reader, &mut hearing);
    *found = hearing.found;
}

/// The same read by read, by `listen_with` into one room.
#[unsafe(no_mangle)]
pub extern "C" fn link_c_listen(alloc: Global, stream: &[u8], each: usize, found: &mut Found) {
    *found = NONE_FOUND;
    if each == 0 {
        return;
    }
    let mut reader = In::new(stream, each, None);
    let mut receiver = Receiver::<LIMIT>::new();
    let mut hearing = Hearing { found: NONE_FOUND };
    let mut room = [0u8; EACH];
    for _ in 0..=stream.len() {
        let end = receiver.listen_with(
            alloc,
            &Ordinary(OfType),
            &mut reader,
            &mut hearing,
            &mut room,
        );
        if end.is_some() {
            break;
        }
    }
    *found = hearing.found;
}

/// The same by `listen_until_with`, by a hearer that never has enough.
#[unsafe(no_mangle)]
pub extern "C" fn link_c_listen_until(
    alloc: Global,
    stream: &[u8],
    each: usize,
    found: &mut Found,
) {
    *found = NONE_FOUND;
    if each == 0 {
        return;
    }
    let mut reader = In::new(stream, each, None);
    let mut receiver = Receiver::<LIMIT>::new();
    let mut hearing = Hearing { found: NONE_FOUND };
    let mut room = [0u8; EACH];
    let _end = receiver.listen_until_with(
        alloc,
        &Ordinary(OfType),
        &mut reader,
        &mut hearing,
        &mut room,
    );
    *found = hearing.found;
}

/// Sends so many values, each a number and this text, to the front of the room. Nothing is done where the text isn't UTF-8.
#[unsafe(no_mangle)]
pub extern "C" fn link_c_send(text: &[u8], count: u32, room: &mut [u8], counted: &mut Counted) {
    let Ok(text) = std::str::from_utf8(text) else {
        return;
    };
    let mut sender = Sender::<Out<'_>, 64>::new(Out::new(room, EACH, None));
    let mut calls = 0u64;
    for which in 0..count {
        if sender.send(&(which, text)).is_ok() {
            calls = calls.wrapping_add(1);
        }
    }
    *counted = Counted {
        calls,
        sum: 0,
        written: sender.into_inner().moved(),
    };
}

/// The same by a sender for another sentinel.
#[unsafe(no_mangle)]
pub extern "C" fn link_c_send_for(text: &[u8], count: u32, room: &mut [u8], counted: &mut Counted) {
    let Ok(text) = std::str::from_utf8(text) else {
        return;
    };
    let writer = Out::new(room, EACH, None);
    let mut sender = Sender::<Out<'_>, 64>::new_with_sentinel(writer, OTHER);
    let mut calls = 0u64;
    for which in 0..count {
        if sender.send(&(which, text)).is_ok() {
            calls = calls.wrapping_add(1);
        }
    }
    *counted = Counted {
        calls,
        sum: 0,
        written: sender.into_inner().moved(),
    };
}

/// How many values are sent.
fn count_done(fates: &[Fate]) -> u64 {
    let mut done = 0u64;
    for fate in fates {
        if *fate == Fate::Done {
            done = done.wrapping_add(1);
        }
    }
    done
}

/// Sends as many values by `send_each`, eight at once, each a number and this text, to the front of
/// the room. Nothing is done where the text isn't UTF-8.
#[unsafe(no_mangle)]
pub extern "C" fn link_c_send_each(
    text: &[u8],
    count: u32,
    room: &mut [u8],
    counted: &mut Counted,
) {
    let Ok(text) = std::str::from_utf8(text) else {
        return;
    };
    let mut writer = Out::new(room, EACH, None);
    let mut calls = 0u64;
    for eight in 0..count / 8 {
        let first = eight.wrapping_mul(8);
        let mut values = [(first, text); 8];
        for i in 0..8u32 {
            values[i as usize].0 = first.wrapping_add(i);
        }
        let mut fates = [Fate::Broken; 8];
        writer = send_each::<(u32, &str), Out<'_>, 64>(writer, &values, &mut fates);
        calls = calls.wrapping_add(count_done(&fates));
    }
    *counted = Counted {
        calls,
        sum: 0,
        written: writer.moved(),
    };
}
