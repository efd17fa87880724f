//! Tests of `cobs`, `postcard_tree`, `postcard_ser`, `postcard_de`, `postcard` and `example_by_hand`, by their public calls alone:
//! outside vectors and worked rows, each call once on its happy path, each generic one at a concrete type, writers, readers
//! and memory that fail, buffers that stay as they were, and the texts of these crates' errors.
//!
//! They are in a crate of their own because a crate with tests is proved twice, once with and once without them.
#![tactic(auto)]

#[cfg(test)]
mod any_sentinel;
#[cfg(test)]
mod checks;
#[cfg(test)]
mod cobs_decoders;
#[cfg(test)]
mod cobs_decoding;
#[cfg(test)]
mod cobs_encoding;
#[cfg(test)]
mod cobs_examples;
#[cfg(test)]
mod de;
#[cfg(test)]
mod large;
#[cfg(test)]
mod menus;
#[cfg(test)]
mod messages;
#[cfg(test)]
mod postcard_frames;
#[cfg(test)]
mod postcard_reading;
#[cfg(test)]
mod postcard_writing;
#[cfg(test)]
mod ser_calls;
#[cfg(test)]
mod ser_flavors;
#[cfg(test)]
mod ser_frames;
#[cfg(test)]
mod ser_span;
#[cfg(test)]
mod ser_texts;
#[cfg(test)]
mod texts;
#[cfg(test)]
mod tree;
