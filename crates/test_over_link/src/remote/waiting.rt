//! What a client has received of its call where a reply finds no memory.
//!
//! The test is also run with each allocation refused in turn, by `.ci/refusals`: then one answer is missing, and no more. In the gate none
//! is refused, and none is missing.
ghost use Rattle.std.specs.Prelude.{◌<◌};

use crate::checks::{are_equal, check};
use crate::remote::served::{Line, sender};
use calls::{Client, Waiting, wait_with};
use line_io::memory::In;
use link::{End, OfType, Ordinary, Receiver};
use std::alloc::Global;

// Replies to the calls 4, 5 and 6, vectors of one byte, on one line.
const REPLIES: [u8; 15] = [4, 4, 1, 1, 0, 4, 5, 1, 9, 0, 4, 6, 1, 3, 0];

type Asking = Waiting<Line, u32, Vec<u8>, 16>;

// Waits on after values that find no memory, until the reply was said or the line has ended: how many found none.
fn wait_out(alloc: Global, reader: &mut In<'_>, waiting: &mut Asking) -> usize {
    let mut receiver = Receiver::<16>::new();
    let mut room = [0u8; 64];
    let mut lost = 0usize;
    for _ in 0..8 {
        match wait_with(
            alloc,
            &mut receiver,
            &Ordinary(OfType),
            reader,
            waiting,
            &mut room,
        ) {
            Some(End::NoMemory) => lost = lost.saturating_add(1),
            _ => break,
        }
    }
    lost
}

// Whether the reply to call 5 was said, and the call is over; or that reply found no memory, and the call is pending.
fn is_waited_out(alloc: Global, each: usize) -> bool
    requires { 0 < each }
{
    let mut client = Client::new(sender(alloc, 0), 5);
    if client.call(7u32).is_err() {
        // the line had no memory for the call
        return true;
    }
    let mut waiting = Asking { client, said: None };
    let mut reader = In::new(&REPLIES, each, None);
    let lost = wait_out(alloc, &mut reader, &mut waiting);
    let Waiting { client, said } = waiting;
    let is_over = client.pending().is_none();
    match said {
        Some(said) => is_over && lost <= 1 && are_equal(&said, &[9]),
        None => !is_over && lost == 1 && reader.moved() == 15,
    }
}

#[test]
fn said_by_waiting(rt: HostRuntime) {
    let alloc = rt.alloc();
    let are_waited_out = is_waited_out(alloc, 1)
        && is_waited_out(alloc, 7)
        && is_waited_out(alloc, 15);
    check(&rt, are_waited_out);
}
