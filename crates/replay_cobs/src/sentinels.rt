//! Frames for a sentinel.
use crate::encoding::encode_pieces;
use crate::lent::{Call, Case, compare_lent, push_line};
use crate::streams::Streaming;
use cobs::{CobsDecoderHeapless, CobsDecoderOwned};
use replay::{Findings, Trouble, Words};
use std::alloc::Global;

/// The capacity of a decoder that keeps its bytes in an array.
const ROOM: usize = 1024;

/// `S MESSAGE FRAME`: the frame of a message for a sentinel.
pub(crate) fn replay_sentinel(
    alloc: Global,
    words: &mut Words<'_>,
    findings: &mut Findings,
) -> Result<(), Trouble> {
    let sentinel = words.byte(alloc)?;
    let message = words.bytes(alloc)?;
    compare_sentinel(alloc, sentinel, &message, words, findings)
}

/// Compares what the calls make of a message, and of its frame.
fn compare_sentinel(
    alloc: Global,
    sentinel: u8,
    message: &[u8],
    words: &mut Words<'_>,
    findings: &mut Findings,
) -> Result<(), Trouble> {
    let frame = words.bytes(alloc)?;
    words.end()?;
    compare_frame(alloc, sentinel, message, &frame, findings);
    compare_message(alloc, sentinel, message, &frame, findings);
    Ok(())
}

/// The calls that make the frame.
fn compare_frame(
    alloc: Global,
    sentinel: u8,
    message: &[u8],
    frame: &[u8],
    findings: &mut Findings,
) {
    let case = Case {
        alloc,
        source: message,
        wanted: frame,
    };
    let length = cobs::encoded_length(message);
    let call = Call::EncodeWithSentinel(sentinel);
    compare_lent(&case, "encode_with_sentinel", call, length, findings);
    let made = cobs::encode_vec_with_sentinel(alloc, message, sentinel);
    let made = made.or(Err(Trouble::NoMemory));
    findings.see_bytes("encode_vec_with_sentinel", made, frame);
    encode_pieces(&case, "CobsEncoder with a sentinel", sentinel, findings);
}

/// The calls that take the message back.
fn compare_message(
    alloc: Global,
    sentinel: u8,
    message: &[u8],
    frame: &[u8],
    findings: &mut Findings,
) {
    let case = Case {
        alloc,
        source: frame,
        wanted: message,
    };
    let call = Call::DecodeWithSentinel(sentinel);
    compare_lent(&case, "decode_with_sentinel", call, message.len(), findings);
    let made = cobs::decode_vec_with_sentinel(alloc, frame, sentinel);
    let made = made.or(Err(Trouble::Refused));
    findings.see_bytes("decode_vec_with_sentinel", made, message);
    let call = Call::DecodeInPlaceWithSentinel(sentinel);
    let name = "decode_in_place_with_sentinel";
    compare_lent(&case, name, call, frame.len(), findings);
    let Ok(line) = [frame, &[sentinel]].concat(alloc) else {
        return findings.give_up(Trouble::NoMemory);
    };
    let case = Case {
        alloc,
        source: &line,
        wanted: message,
    };
    compare_line(&case, sentinel, findings);
}

/// The calls that take the message back of a frame with its sentinel.
fn compare_line(case: &Case<'_>, sentinel: u8, findings: &mut Findings) {
    let length = case.wanted.len();
    let call = Call::DecodeInPlaceReportWithSentinel(sentinel);
    let name = "decode_in_place_report_with_sentinel";
    compare_lent(case, name, call, case.source.len(), findings);
    let name = "CobsDecoder with a sentinel";
    compare_lent(case, name, Call::Decoder(sentinel), length, findings);
    let Ok(mut decoder) = CobsDecoderOwned::new_with_sentinel(case.alloc, length, sentinel) else {
        return findings.give_up(Trouble::NoMemory);
    };
    let name = "CobsDecoderOwned with a sentinel";
    compare_pushed(case, name, &mut decoder, findings);
    if length <= ROOM {
        let mut decoder = CobsDecoderHeapless::<ROOM>::new_with_sentinel(sentinel);
        let name = "CobsDecoderHeapless with a sentinel";
        compare_pushed(case, name, &mut decoder, findings);
    }
}

/// Compares the message that a new decoder gives.
fn compare_pushed<D: Streaming>(
    case: &Case<'_>,
    name: &str,
    decoder: &mut D,
    findings: &mut Findings,
) {
    let count = push_line(decoder, case.source);
    findings.see_front(name, count, decoder.buffer(), case.wanted);
}
