//! The calls of `frames` as C functions of one line each, with numbers where C has no enums.
//!
//! Each promises what `frames` promises, in the same definitions. None requires anything of its caller but what C's types can't say:
//! that a pointer points to as many bytes as its length, and that what is written overlaps nothing else. The header
//! `bindings/c/frames.h` looks for null pointers. A static library can't be tested by a crate, nor its edits tried: laws and edits are in
//! `frames`.
#![tactic(auto)]

mod answers;
mod receiving;
mod sending;
mod status;
mod whole;

pub use crate::answers::{FramesEvent, FramesRead, FramesWritten};
pub use crate::receiving::{
    frames_c_begun, frames_c_finish, frames_c_push, frames_c_push_byte, frames_c_push_byte_plain,
    frames_c_push_plain, frames_c_receiver,
};
pub use crate::sending::{
    frames_c_crc32, frames_c_seal, frames_c_send, frames_c_send_plain, frames_c_sender,
    frames_c_sent, frames_c_unseal,
};
pub use crate::whole::{
    frames_c_decode, frames_c_decode_in_place, frames_c_decode_with_sentinel, frames_c_encode,
    frames_c_encode_with_sentinel, frames_c_encoded_length, frames_c_most_encoded_length,
};
