//! The calls of `cobs` as C functions.
ghost use Rattle.std.specs.Prelude.{◌≡◌, ◌<◌, ◌≤◌, length, take, drop, true, false, MatchResult};
ghost use Rattle.cobs.specs.Frames.{shortest_frame, part};
ghost use Rattle.cobs.specs.InPlace.{stretch, in_place, in_place_length, overwritten};
ghost use Rattle.cobs.specs.Reports.{frame_size};
ghost use Rattle.cobs.specs.Sentinel.{masked, frame_for};
ghost use Rattle.cobs.specs.Whole.{frame_in, decoded_from, decoded_into};

use crate::answers::{Answer, Found, NONE_FOUND};
use cobs::{CobsDecoder, CobsEncoder, DecodeResult, DecoderState, EncoderState, PushResult};
use std::alloc::Global;

/// As `cobs::try_encode`.
#[unsafe(no_mangle)]
pub extern "C" fn cobs_c_try_encode(source: &[u8], dest: &mut [u8]) -> Answer
    ensures count { result.done ≡ true → result.count ≡ length (shortest_frame source.now) }
    ensures frame { result.done ≡ true → take result.count dest.new ≡ shortest_frame source.now }
    ensures too_small { result.done ≡ false → length dest.old < length (shortest_frame source.now) }
    ensures unchanged { result.done ≡ false → dest.new ≡ dest.old }
{
    match cobs::try_encode(source, dest) {
        Ok(count) => Answer { done: true, count },
        Err(_) => Answer {
            done: false,
            count: 0,
        },
    }
}

/// A message in one push of a `cobs::CobsEncoder`, and its end. Requires that `dest` isn't empty.
#[unsafe(no_mangle)]
pub extern "C" fn cobs_c_push(source: &[u8], dest: &mut [u8]) -> Answer
    requires { 0 < length dest.old }
    ensures count { result.done ≡ true → result.count ≡ length (shortest_frame source.now) }
    ensures frame { result.done ≡ true → take result.count dest.new ≡ shortest_frame source.now }
    ensures too_small { result.done ≡ false → length dest.old < length (shortest_frame source.now) }
{
    let mut encoder = CobsEncoder::new(dest);
    match encoder.push(source) {
        Ok(()) => Answer {
            done: true,
            count: encoder.finalize(),
        },
        Err(_) => Answer {
            done: false,
            count: 0,
        },
    }
}

/// As `cobs::decode`, with the length of the message alone.
#[unsafe(no_mangle)]
pub extern "C" fn cobs_c_decode(source: &[u8], dest: &mut [u8]) -> Answer
    ensures answer { MatchResult (decoded_from (length dest.old) source.now)
        (λ r. (result.done ≡ true) × (result.count ≡ frame_size r))
        (λ _. result.done ≡ false) }
    ensures dest { dest.new ≡ overwritten (part (frame_in source.now)) dest.old }
{
    match cobs::decode(source, dest) {
        Ok(report) => Answer {
            done: true,
            count: report.frame_size(),
        },
        Err(_) => Answer {
            done: false,
            count: 0,
        },
    }
}

/// As `cobs::decode_in_place`.
#[unsafe(no_mangle)]
pub extern "C" fn cobs_c_decode_in_place(buf: &mut [u8]) -> Answer
    ensures answer { MatchResult (in_place_length (stretch buf.old)) (λ n. (result.done ≡ true)
        × (result.count ≡ n))
        (λ _. result.done ≡ false) }
    ensures buffer { buf.new ≡ overwritten (part (stretch buf.old)) buf.old }
{
    match cobs::decode_in_place(buf) {
        Ok(count) => Answer { done: true, count },
        Err(_) => Answer {
            done: false,
            count: 0,
        },
    }
}

/// A message in one push of a `cobs::CobsEncoder` for a sentinel, and its end. Requires that `dest` isn't empty.
#[unsafe(no_mangle)]
pub extern "C" fn cobs_c_push_with_sentinel(source: &[u8], dest: &mut [u8], sentinel: u8) -> Answer
    requires { 0 < length dest.old }
    ensures count { result.done ≡ true → result.count ≡ length (shortest_frame source.now) }
    ensures frame { result.done ≡ true
        → take result.count dest.new ≡ frame_for sentinel source.now }
    ensures too_small { result.done ≡ false → length dest.old < length (shortest_frame source.now) }
{
    let mut encoder = CobsEncoder::new_with_sentinel(dest, sentinel);
    match encoder.push(source) {
        Ok(()) => Answer {
            done: true,
            count: encoder.finalize(),
        },
        Err(_) => Answer {
            done: false,
            count: 0,
        },
    }
}

/// As `cobs::decode_with_sentinel`.
#[unsafe(no_mangle)]
pub extern "C" fn cobs_c_decode_with_sentinel(
    source: &[u8],
    dest: &mut [u8],
    sentinel: u8,
) -> Answer
    ensures answer { MatchResult
        (decoded_into (length dest.old) (stretch (masked sentinel source.now)))
        (λ n. (result.done ≡ true) × (result.count ≡ n)) (λ _. result.done ≡ false) }
    ensures dest { dest.new ≡ overwritten (part (stretch (masked sentinel source.now))) dest.old }
{
    match cobs::decode_with_sentinel(source, dest, sentinel) {
        Ok(count) => Answer { done: true, count },
        Err(_) => Answer {
            done: false,
            count: 0,
        },
    }
}

/// As `cobs::decode_in_place_report_with_sentinel`, with the length of the message alone.
#[unsafe(no_mangle)]
pub extern "C" fn cobs_c_decode_in_place_with_sentinel(buf: &mut [u8], sentinel: u8) -> Answer
    ensures answer { MatchResult (in_place (stretch (masked sentinel buf.old)))
        (λ r. (result.done ≡ true) × (result.count ≡ frame_size r)) (λ _. result.done ≡ false) }
    ensures buffer { buf.new ≡ overwritten (part (stretch (masked sentinel buf.old))) buf.old }
{
    match cobs::decode_in_place_report_with_sentinel(buf, sentinel) {
        Ok(report) => Answer {
            done: true,
            count: report.frame_size(),
        },
        Err(_) => Answer {
            done: false,
            count: 0,
        },
    }
}

/// As `cobs::encode_in_place`, in an array, whose address isn't tested, as that of C's slices is.
#[unsafe(no_mangle)]
pub extern "C" fn cobs_c_encode_in_place(buffer: &mut [u8; 255], n: usize, sentinel: u8) -> usize
    requires { n ≤ 254 }
    ensures length { result ≡ length (shortest_frame (take n (drop 1 buffer.old))) }
    ensures frame { take result buffer.new ≡ frame_for sentinel (take n (drop 1 buffer.old)) }
{
    cobs::encode_in_place(&mut buffer[..], n, sentinel)
}

/// As `cobs::encoded_length`.
#[unsafe(no_mangle)]
pub extern "C" fn cobs_c_encoded_length(source: &[u8]) -> usize
    ensures { result ≡ length (shortest_frame source.now) }
{
    cobs::encoded_length(source)
}

/// As `cobs::before_sentinel`.
#[unsafe(no_mangle)]
pub extern "C" fn cobs_c_before_sentinel(bytes: &[u8], sentinel: u8) -> usize
    ensures { result ≡ length (stretch (masked sentinel bytes.now)) }
{
    cobs::before_sentinel(bytes, sentinel)
}

/// Pushes a chunk, then the rest of it after each message, which takes at least a byte.
fn push_piece(decoder: &mut CobsDecoder<'_>, piece: &[u8], found: &mut Found) {
    let mut rest = piece;
    while !rest.is_empty() {
        match decoder.push(rest) {
            Ok(None) => return,
            Ok(Some(report)) => {
                found.values = found.values.wrapping_add(1);
                found.sum = found.sum.wrapping_add(report.frame_size() as u64);
                rest = &rest[report.parsed_size().max(1)..];
            }
            Err(_) => {
                found.refused = found.refused.wrapping_add(1);
                return;
            }
        }
    }
}

/// Pushes a stream in chunks of `piece` bytes to a `cobs::CobsDecoder` over 512 bytes, and counts the results; the sum is that of the
/// messages' bytes. Nothing is found if `piece` is 0.
#[unsafe(no_mangle)]
pub extern "C" fn cobs_c_stream(stream: &[u8], piece: usize, found: &mut Found) {
    let mut buffer = [0u8; 512];
    let mut decoder = CobsDecoder::new(&mut buffer);
    let mut counts = NONE_FOUND;
    if piece > 0 {
        for bytes in stream.chunks(piece) {
            push_piece(&mut decoder, bytes, &mut counts);
        }
    }
    *found = counts;
}

/// The same, each byte by itself by `feed`.
#[unsafe(no_mangle)]
pub extern "C" fn cobs_c_feed(stream: &[u8], found: &mut Found) {
    let mut buffer = [0u8; 512];
    let mut decoder = CobsDecoder::new(&mut buffer);
    let mut counts = NONE_FOUND;
    for byte in stream {
        match decoder.feed(*byte) {
            Ok(None) => {}
            Ok(Some(len)) => {
                counts.values = counts.values.wrapping_add(1);
                counts.sum = counts.sum.wrapping_add(len as u64);
            }
            Err(_) => counts.refused = counts.refused.wrapping_add(1),
        }
    }
    *found = counts;
}

/// As `cobs::encode_with_sentinel`. Requires space for the frame.
#[unsafe(no_mangle)]
pub extern "C" fn cobs_c_encode_with_sentinel(source: &[u8], dest: &mut [u8], sentinel: u8) -> usize
    requires { length (shortest_frame source.now) ≤ length dest.old }
    ensures length { result ≡ length (shortest_frame source.now) }
    ensures frame { take result dest.new ≡ frame_for sentinel source.now }
{
    cobs::encode_with_sentinel(source, dest, sentinel)
}

/// As `cobs::encode_vec`, with the length of the frame alone. It isn't done if out of memory.
#[unsafe(no_mangle)]
pub extern "C" fn cobs_c_encode_vec(alloc: Global, source: &[u8]) -> Answer
    ensures { result.done ≡ true → result.count ≡ length (shortest_frame source.now) }
{
    match cobs::encode_vec(alloc, source) {
        Ok(frame) => Answer {
            done: true,
            count: frame.len(),
        },
        Err(_) => Answer {
            done: false,
            count: 0,
        },
    }
}

/// As `cobs::decode_vec`, with the length of the message alone.
#[unsafe(no_mangle)]
pub extern "C" fn cobs_c_decode_vec(alloc: Global, source: &[u8]) -> Answer {
    match cobs::decode_vec(alloc, source) {
        Ok(message) => Answer {
            done: true,
            count: message.len(),
        },
        Err(_) => Answer {
            done: false,
            count: 0,
        },
    }
}

/// Appends a byte to what is written, and returns how much is written then. What doesn't fit is left out.
#[inline(always)]
fn put(dest: &mut [u8], len: usize, byte: u8) -> usize {
    if dest.len() <= len {
        return len;
    }
    dest[len] = byte;
    len + 1
}

/// Writes a code over a placeholder.
#[inline(always)]
fn put_code(dest: &mut [u8], at: usize, code: u8)
    ensures room { length dest.new ≡ length dest.old }
{
    if at < dest.len() {
        dest[at] = code;
    }
}

/// A message byte by byte by a `cobs::EncoderState`, whose frame is written to the front of `dest`, as far as it fits. Returns how many
/// bytes that is.
#[unsafe(no_mangle)]
pub extern "C" fn cobs_c_state_push(source: &[u8], dest: &mut [u8]) -> usize {
    let mut len = put(dest, 0, 0);
    let mut state = EncoderState::default();
    for byte in source {
        if !state.can_push() {
            return 0;
        }
        match state.push(*byte) {
            PushResult::AddSingle(byte) => len = put(dest, len, byte),
            PushResult::ModifyFromStartAndSkip((at, code)) => {
                put_code(dest, at, code);
                len = put(dest, len, 0);
            }
            PushResult::ModifyFromStartAndPushAndSkip((at, code, byte)) => {
                put_code(dest, at, code);
                len = put(dest, len, byte);
                len = put(dest, len, 0);
            }
        }
    }
    let (at, code) = state.finalize();
    put_code(dest, at, code);
    len
}

/// Feeds each byte of a stream to a `cobs::DecoderState`, and counts the messages, the errors, and the bytes of the messages.
#[unsafe(no_mangle)]
pub extern "C" fn cobs_c_state_feed(stream: &[u8], found: &mut Found) {
    let mut state = DecoderState::Idle;
    let mut counts = NONE_FOUND;
    for byte in stream {
        match state.feed(*byte) {
            Ok(DecodeResult::DataComplete) => counts.values = counts.values.wrapping_add(1),
            Ok(DecodeResult::DataContinue(_)) => counts.sum = counts.sum.wrapping_add(1),
            Ok(DecodeResult::NoData) | Ok(DecodeResult::DataStart) => {}
            Err(_) => counts.refused = counts.refused.wrapping_add(1),
        }
    }
    *found = counts;
}
