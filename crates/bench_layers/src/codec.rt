//! The codec over a buffer as C functions.

use crate::answers::{Counted, Found, NONE_FOUND};
use crate::messages::Owned;
use crate::records::count_answer;
use bytes::BytesMut;
use link::{Decoding, MessageReader};
use link_codec::{AnswerDecoder, LinkDecoder, LinkEncoder, OwnedLinkDecoder, StrictLinkDecoder};
use std::alloc::Global;
use tokio_util::codec::{Decoder, Encoder};

/// How many bytes a stretch has at most.
const LIMIT: usize = 512;

/// Counts what a decoder answers, until it needs more.
fn decode_all<M: MessageReader<Owned> + Drop, D: Decoding + Drop>(
    decoder: &mut AnswerDecoder<Owned, M, D>,
    line: &mut BytesMut,
    found: &mut Found,
) {
    for _ in 0..=line.len() {
        match decoder.decode(line) {
            Ok(Some(answer)) => count_answer(answer, found),
            Ok(None) => return,
            Err(_) => found.refused = found.refused.wrapping_add(1),
        }
    }
}

/// Decodes a stream whose chunks of `piece` bytes are put into a buffer one by one, and counts the
/// answers; nothing where there is no memory for the buffer.
fn decode_stream<M: MessageReader<Owned> + Drop, D: Decoding + Drop>(
    alloc: Global,
    decoder: &mut AnswerDecoder<Owned, M, D>,
    stream: &[u8],
    piece: usize,
) -> Found {
    let mut line = BytesMut::new(alloc);
    let mut counts = NONE_FOUND;
    if piece == 0 {
        return NONE_FOUND;
    }
    for bytes in stream.chunks(piece) {
        if line.extend_from_slice(bytes).is_err() {
            return NONE_FOUND;
        }
        decode_all(decoder, &mut line, &mut counts);
    }
    if let Ok(Some(answer)) = decoder.decode_eof(&mut line) {
        count_answer(answer, &mut counts);
    }
    counts
}

/// Decodes a stream in chunks of `piece` bytes by a `LinkDecoder`, and counts the answers. Nothing
/// is found where `piece` is 0.
#[unsafe(no_mangle)]
pub extern "C" fn codec_c_decode(alloc: Global, stream: &[u8], piece: usize, found: &mut Found) {
    let mut decoder = LinkDecoder::<Owned, LIMIT>::new();
    *found = decode_stream(alloc, &mut decoder, stream, piece);
}

/// The same by a `StrictLinkDecoder`.
#[unsafe(no_mangle)]
pub extern "C" fn codec_c_decode_strict(
    alloc: Global,
    stream: &[u8],
    piece: usize,
    found: &mut Found,
) {
    let mut decoder = StrictLinkDecoder::<Owned, LIMIT>::new();
    *found = decode_stream(alloc, &mut decoder, stream, piece);
}

/// The same by an `OwnedLinkDecoder`. Nothing is found where there is no memory for it.
#[unsafe(no_mangle)]
pub extern "C" fn codec_c_decode_owned(
    alloc: Global,
    stream: &[u8],
    piece: usize,
    found: &mut Found,
) {
    *found = NONE_FOUND;
    if let Ok(mut decoder) = OwnedLinkDecoder::<Owned>::new(alloc, LIMIT, 0) {
        *found = decode_stream(alloc, &mut decoder, stream, piece);
    }
}

/// Encodes so many values, each a number and this text, after one another in a buffer, which is put to the front of the room where
/// that is as long. Nothing is done where the text isn't UTF-8.
#[unsafe(no_mangle)]
pub extern "C" fn codec_c_encode(
    alloc: Global,
    text: &[u8],
    count: u32,
    room: &mut [u8],
    counted: &mut Counted,
) {
    let Ok(text) = std::str::from_utf8(text) else {
        return;
    };
    let mut encoder = LinkEncoder::<64>::new();
    let mut line = BytesMut::new(alloc);
    let mut calls = 0u64;
    for which in 0..count {
        if encoder.encode((which, text), &mut line).is_ok() {
            calls = calls.wrapping_add(1);
        }
    }
    let bytes = line.as_slice();
    if bytes.len() <= room.len() {
        room[..bytes.len()].copy_from_slice(bytes);
    }
    *counted = Counted {
        calls,
        sum: 0,
        written: bytes.len(),
    };
}
