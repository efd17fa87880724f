//! Tests of lines, by public calls alone: the devices of `line_io`, `link`, whatever a stranger may send, memory that isn't
//! found in every call that asks for it, and the runs of `framed`.
//!
//! They stand in a crate of their own because a crate with tests is proved twice, once with and once without them, and
//! beside `test_postcard` because one process proves a crate's tests as a whole.
#![tactic(auto)]

#[cfg(test)]
mod behind_no_memory;
#[cfg(test)]
mod checks;
#[cfg(test)]
mod device_calls;
#[cfg(test)]
mod devices;
#[cfg(test)]
mod framed_runs;
#[cfg(test)]
mod framed_words;
#[cfg(test)]
mod lent_texts;
#[cfg(test)]
mod line_devices;
#[cfg(test)]
mod link_faults;
#[cfg(test)]
mod link_hearers;
#[cfg(test)]
mod link_lines;
#[cfg(test)]
mod link_receiving;
#[cfg(test)]
mod link_sending;
#[cfg(test)]
mod link_texts;
#[cfg(test)]
mod malicious;
#[cfg(test)]
mod message_readers;
#[cfg(test)]
mod refused_growths;
#[cfg(test)]
mod vectors_in_turn;
