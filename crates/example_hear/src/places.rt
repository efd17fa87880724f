//! Where the damage lies: each byte is pushed by itself, and `stretch` says of how many bytes a result is.
use crate::reading::Reading;
use line_io::Inlet;
use link::{Answer, NoMemory, Receiver};
use std::io;

fn tell(rt: &HostRuntime, answer: Answer<Reading>, from: u64, to: u64) -> io::Result<()> {
    match answer {
        Answer::Value(reading) => println!(rt; "{reading:?}"),
        Answer::Damaged => println!(rt; "damaged at {from}..{to}"),
        Answer::TooLong => println!(rt; "too long from {from} on"),
        Answer::Cut => println!(rt; "cut at {to}"),
    }
}

/// Prints each reading as soon as its last byte was read, and from which byte to which one the damage lies.
pub fn print_places<I: Inlet>(rt: &HostRuntime, line: &mut I) -> io::Result<()> {
    let mut receiver = Receiver::<16>::new();
    let mut room = [0u8; 256];
    // the offset of the byte that comes next
    let mut at = 0u64;
    for _ in 0..u64::MAX {
        let Some(count @ 1..) = line.read(&mut room) else {
            break;
        };
        for byte in &room[..count] {
            let pushed = receiver.push::<Reading>(rt.alloc(), &[*byte]);
            match pushed.answer {
                Ok(Some(answer)) => tell(rt, answer, at.saturating_sub(pushed.stretch as u64), at)?,
                Ok(None) => {}
                Err(NoMemory) => println!(rt; "no memory")?,
            }
            at = at.saturating_add(1);
        }
    }
    match receiver.finish() {
        Some(answer) => tell(rt, answer, at, at),
        None => Ok(()),
    }
}
