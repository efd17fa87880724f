//! Replays test vectors of `postcard`: makes the calls that each line of standard input mentions, prints each line
//! that differs with what was returned, and then how many lines passed and failed.
#![tactic(auto)]

mod accumulating;
mod containers;
mod messages;
mod reading;
mod sizes;
mod writing;

use replay::{Findings, Replays, Trouble, Words, replay_all};
use std::alloc::Global;
use std::io;
use std::process::ExitCode;

/// Lines that speak of `postcard`.
struct Lines;

impl Replays for Lines {
    fn replay(
        &self,
        alloc: Global,
        kind: &str,
        words: &mut Words<'_>,
        findings: &mut Findings,
    ) -> Result<(), Trouble> {
        match kind {
            "max_size" => sizes::replay_size(alloc, words, findings),
            "write" => messages::replay_write(alloc, words, findings),
            "read" => messages::replay_read(alloc, words, findings),
            "read_frame" => messages::replay_read_frame(alloc, words, findings),
            "accumulate" => accumulating::replay_accumulate(alloc, words, findings),
            _ => Err(Trouble::Unreadable),
        }
    }
}

fn main(rt: HostRuntime) -> io::Result<ExitCode> {
    replay_all(&Lines, rt.alloc(), rt.reader(), io::writer(&rt))
}
