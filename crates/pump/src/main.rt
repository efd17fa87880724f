//! A pump to call over a line: `pump device` executes what `pump console` calls.
//!
//! The commands, what the device does with each, how they are written as words, and both sides of the line.
#![tactic(auto)]

mod about;
mod arguments;
mod asking;
mod console;
mod device;
mod messages;
mod numbers;
mod program;
mod serving;
mod words;

use crate::messages::{Command, PumpReport};
use crate::program::run;
use calls::Numbered;
use std::process::ExitCode;

/// The greatest length of a frame, on both lines. The longest message is the notice for a call that was passed over, with its number
/// outside and inside and a sum: 45 bytes, whose frame has 46.
pub const FRAME: usize = 48;

/// The key of both lines: the CRC-32 of `pump 1`. It changes with the messages, so that no pump of another version accepts them.
pub const KEY: u32 = 0xD235_A0CB;

/// A command with its number, under the key.
pub type AskedCommand = Numbered<Command, KEY>;

/// A report with its number, under the key.
pub type Said = Numbered<PumpReport, KEY>;

fn main(rt: HostRuntime) -> ExitCode {
    ExitCode::from(run(&rt))
}
