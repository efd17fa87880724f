//! The functions of `bindings/c/frames_small.h`: a receiver that takes one byte a call and decodes it at once, a sender that writes one
//! byte a call, and a CRC-32 without a table. They promise what `frames` promises.
//!
//! | To | Use |
//! |---|---|
//! | receive byte by byte | `SmallReceiver`: `push_byte`, of counted messages; `push_byte_plain` |
//! | send over a line that may break, without a buffer | `SmallSender`: `send`, `send_plain` |
//! | notice changed bytes | `seal`, then send; receive, then `unseal`; `crc32` |
#![tactic(auto)]

mod checksum;
mod counting;
mod receiving;
mod sending;

pub use crate::checksum::{crc32, seal, unseal};
pub use crate::receiving::SmallReceiver;
pub use crate::sending::SmallSender;
