//! Frames of bytes over the caller's buffers, for programs that aren't written in Rattle (by `frames_c`).
//!
//! A message is sent *counted*, preceded by its length as postcard encodes a byte string, unless a call says `plain`. Whatever is
//! interrupted, no part of a counted message is received as a message. If a plain send is interrupted, a prefix of its message may
//! be received as one.
//!
//! No call keeps a reference, allocates, waits or ends the process. State is in the caller's structs, which hold numbers only, and
//! a receiver's bytes are in a buffer that the caller passes in at each call.
//!
//! | To | Use |
//! |---|---|
//! | encode a message, or decode a frame | `encode`, `decode` and their variants |
//! | receive from chunks, or byte by byte | `FrameReceiver`: `push`, `push_byte` |
//! | send over a line that may break | `FrameSender`: `send`, then `went_out` once all was sent |
//! | notice changed bytes | `seal`, `unseal` |
#![tactic(auto)]

mod checksum;
mod counting;
mod decoding;
pub mod laws;
mod receiving;
mod rooms;
mod sending;
mod whole;

pub use crate::checksum::{seal, unseal};
pub use crate::receiving::{FrameEvent, FramePush, FrameReceiver, WrongBuffer};
pub use crate::sending::FrameSender;
pub use crate::whole::{
    decode, decode_in_place, decode_with_sentinel, encode, encode_with_sentinel, encoded_length,
    most_encoded_length,
};
