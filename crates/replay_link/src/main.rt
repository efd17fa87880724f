//! Replays test vectors of `link`: answers each line of standard input by the calls that it speaks of, prints each line
//! that differs with what was answered, and then how many lines passed and failed.
#![tactic(auto)]

mod answers;
mod gathering;
mod in_place;
mod linked;
mod named;
mod pushing;
mod receiving;
mod rows;
mod sending;

use replay::{Findings, Replays, Trouble, Words, replay_all};
use std::alloc::Global;
use std::io;
use std::process::ExitCode;

/// Lines that speak of `link`.
struct Lines;

impl Replays for Lines {
    fn replay(
        &self,
        alloc: Global,
        kind: &str,
        words: &mut Words<'_>,
        findings: &mut Findings,
    ) -> Result<(), Trouble> {
        match kind {
            "stream" => linked::replay_stream(alloc, words, findings),
            "in_place" => linked::replay_stretches(alloc, words, findings),
            "gathered" => linked::replay_gathered(alloc, words, findings),
            "sends" => linked::replay_sends(alloc, words, findings),
            "owned" => linked::replay_owned(alloc, words, findings),
            _ => Err(Trouble::Unreadable),
        }
    }
}

fn main(rt: HostRuntime) -> io::Result<ExitCode> {
    replay_all(&Lines, rt.alloc(), rt.reader(), io::writer(&rt))
}
