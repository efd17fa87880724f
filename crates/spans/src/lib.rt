//! A caller's buffer and a cursor in it, by raw memory.
//!
//! The flavors of `postcard` that fill a slice, or read from a slice or a reader, keep their bytes in a
//! [`Span`](memory::Span). [`memory`] says why it is sound.
#![tactic(auto)]

pub mod memory;
