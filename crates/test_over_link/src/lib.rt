//! Tests of what uses `link`, by public calls alone: `frames`, `frames_small`; `link_codec`, polled by hand over memory; `calls`; and
//! the message types of `example_station`, which go over a line.
//!
//! They are in a crate of their own because a crate with tests is proved twice, once with and once without them.
#![tactic(auto)]

#[cfg(test)]
mod checks;
#[cfg(test)]
mod codec;
#[cfg(test)]
mod crossing;
#[cfg(test)]
mod frame_calls;
#[cfg(test)]
mod remote;
#[cfg(test)]
mod station_messages;
#[cfg(test)]
mod station_uses;
