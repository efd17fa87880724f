//! Replays test vectors of `cobs`: makes the calls that each line of standard input mentions, prints each line
//! that differs with what was returned, and then how many lines passed and failed.
#![tactic(auto)]

mod decoding;
mod encoding;
mod lent;
mod sentinels;
mod streams;

use replay::{Findings, Replays, Trouble, Words, replay_all};
use std::alloc::Global;
use std::io;
use std::process::ExitCode;

/// Lines that speak of `cobs`.
struct Lines;

impl Replays for Lines {
    fn replay(
        &self,
        alloc: Global,
        kind: &str,
        words: &mut Words<'_>,
        findings: &mut Findings,
    ) -> Result<(), Trouble> {
        match kind {
            "cobs_encode" => encoding::replay_encode(alloc, words, findings),
            "cobs_sentinel" => sentinels::replay_sentinel(alloc, words, findings),
            "cobs_decode" => decoding::replay_decode(alloc, words, findings),
            "cobs_in_place" => decoding::replay_in_place(alloc, words, findings),
            "cobs_stream" => streams::replay_stream(alloc, words, findings),
            _ => Err(Trouble::Unreadable),
        }
    }
}

fn main(rt: HostRuntime) -> io::Result<ExitCode> {
    replay_all(&Lines, rt.alloc(), rt.reader(), io::writer(&rt))
}
