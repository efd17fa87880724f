//! The calls of the libraries as C functions, for the benchmark in `bench/`: of `cobs`, `postcard`, `sealed`, `schemas`, `link`,
//! `link_codec`, `calls` and `journal`.
#![tactic(auto)]

mod answers;
mod blocks;
mod messages;

pub use crate::answers::{Answer, Counted, Found, Parts};
pub use crate::blocks::{
    cobs_c_before_sentinel, cobs_c_decode, cobs_c_decode_in_place,
    cobs_c_decode_in_place_with_sentinel, cobs_c_decode_vec, cobs_c_decode_with_sentinel,
    cobs_c_encode_in_place, cobs_c_encode_vec, cobs_c_encode_with_sentinel, cobs_c_encoded_length,
    cobs_c_feed, cobs_c_push, cobs_c_push_with_sentinel, cobs_c_state_feed, cobs_c_state_push,
    cobs_c_stream, cobs_c_try_encode,
};
pub use crate::messages::{postcard_c_read, postcard_c_stream, postcard_c_write};

// `bench/run --before` leaves out what follows: an earlier commit may lack these calls.
mod codec;
mod frames;
mod listening;
mod log;
mod receiving;
mod records;
mod remote;
mod serving;
mod spelled;
mod sums;
mod tables;

pub use crate::codec::{
    codec_c_decode, codec_c_decode_owned, codec_c_decode_strict, codec_c_encode,
};
pub use crate::frames::{
    link_c_frame_into, postcard_c_allocvec, postcard_c_read_frame, postcard_c_size,
    postcard_c_write_frame,
};
pub use crate::listening::{
    link_c_listen, link_c_listen_until, link_c_receive_each, link_c_send, link_c_send_each,
    link_c_send_for,
};
pub use crate::log::{journal_c_append, journal_c_frame, journal_c_open, journal_c_read_all};
pub use crate::receiving::{
    link_c_gather, link_c_push, link_c_push_for, link_c_push_owned, link_c_push_ref,
    link_c_push_strict, link_c_read_in_place, link_c_receive, link_c_receive_owned,
    link_c_receive_owned_strict, link_c_receive_strict,
};
pub use crate::remote::{calls_c_call, calls_c_serve};
pub use crate::serving::{calls_c_listen, calls_c_listen_sealed};
pub use crate::spelled::{
    postcard_c_read_frame_for, postcard_c_read_io, postcard_c_read_owned, postcard_c_take,
    postcard_c_write_by, postcard_c_write_frame_for,
};
pub use crate::sums::{sealed_c_read, sealed_c_sum, sealed_c_write};
pub use crate::tables::{schemas_c_read, schemas_c_table, schemas_c_write};
