//! Calls that write to a buffer that they borrow.
use crate::streams::Streaming;
use cobs::CobsDecoder;
use replay::{Findings, Trouble};
use std::alloc::Global;

/// A call that writes to a buffer; some take a sentinel.
#[derive(Clone, Copy)]
pub(crate) enum Call {
    Encode,
    TryEncode,
    EncodeIncludingSentinels,
    TryEncodeIncludingSentinels,
    EncodeWithSentinel(u8),
    DecodeWithSentinel(u8),
    DecodeInPlaceWithSentinel(u8),
    DecodeInPlaceReportWithSentinel(u8),
    Decoder(u8),
}

/// What calls are asked, and what they have to give.
#[derive(Clone, Copy)]
pub(crate) struct Case<'a> {
    pub(crate) alloc: Global,
    pub(crate) source: &'a [u8],
    pub(crate) wanted: &'a [u8],
}

/// Compares what a call returns that borrows so many bytes.
pub(crate) fn compare_lent(
    case: &Case<'_>,
    name: &str,
    call: Call,
    length: usize,
    findings: &mut Findings,
) {
    let Ok(mut room) = vec![in case.alloc; 0; length] else {
        return findings.give_up(Trouble::NoMemory);
    };
    let count = ask(call, case.source, room.as_mut_slice());
    findings.see_front(name, count, &room, case.wanted);
}

/// How many bytes a call writes to the start of a buffer. One that needs a buffer of some length is made only there.
fn ask(call: Call, source: &[u8], room: &mut [u8]) -> Result<usize, Trouble> {
    let refused = Err(Trouble::Refused);
    match call {
        Call::Encode if cobs::encoded_length(source) <= room.len() => {
            Ok(cobs::encode(source, room))
        }
        Call::EncodeIncludingSentinels if cobs::encoded_length(source) + 2 <= room.len() => {
            Ok(cobs::encode_including_sentinels(source, room))
        }
        Call::EncodeWithSentinel(sentinel) if cobs::encoded_length(source) <= room.len() => {
            Ok(cobs::encode_with_sentinel(source, room, sentinel))
        }
        Call::TryEncode => cobs::try_encode(source, room).or(refused),
        Call::TryEncodeIncludingSentinels => {
            cobs::try_encode_including_sentinels(source, room).or(refused)
        }
        Call::DecodeWithSentinel(sentinel) => {
            cobs::decode_with_sentinel(source, room, sentinel).or(refused)
        }
        Call::Decoder(sentinel) => {
            push_line(&mut CobsDecoder::new_with_sentinel(room, sentinel), source)
        }
        _ => ask_in_place(call, source, room),
    }
}

/// As [`ask`], of the calls that find their source in the buffer.
fn ask_in_place(call: Call, source: &[u8], room: &mut [u8]) -> Result<usize, Trouble> {
    let refused = Err(Trouble::Refused);
    if source.len() != room.len() {
        return refused;
    }
    room.copy_from_slice(source);
    match call {
        Call::DecodeInPlaceWithSentinel(sentinel) => {
            cobs::decode_in_place_with_sentinel(room, sentinel).or(refused)
        }
        Call::DecodeInPlaceReportWithSentinel(sentinel) => {
            match cobs::decode_in_place_report_with_sentinel(room, sentinel) {
                Ok(report) if is_last(room, report.parsed_size(), sentinel) => {
                    Ok(report.frame_size())
                }
                _ => refused,
            }
        }
        _ => refused,
    }
}

/// Whether a byte is at a position and none after it.
fn is_last(bytes: &[u8], at: usize, byte: u8) -> bool {
    at < bytes.len() && bytes.len() - at == 1 && bytes[at] == byte
}

/// How long the message is that a decoder gives of a frame with its sentinel.
pub(crate) fn push_line<D: Streaming>(decoder: &mut D, line: &[u8]) -> Result<usize, Trouble> {
    match decoder.push_piece(line) {
        Ok(Some(report)) if report.parsed_size() == line.len() => Ok(report.frame_size()),
        _ => Err(Trouble::Refused),
    }
}
