//! Whole messages and whole frames.
ghost use Rattle.std.specs.Prelude.{◌≡◌, ◌≢◌, ◌<◌, ◌≤◌, ◌^◌, ◌↔◌, ℕ, List, [], length, take, drop, IsTrue, Some, None, OnOk, OnErr, IfOk};
ghost use Rattle.cobs.specs.Frames.{Frame, shortest_frame, part, most_length};
ghost use Rattle.cobs.specs.InPlace.{stretch, in_place, overwritten};
ghost use Rattle.cobs.specs.Reports.{frame_size};
ghost use Rattle.cobs.specs.Sentinel.{masked, frame_for};
ghost use Rattle.cobs.specs.Whole.{frame_in, decoded_from, decoded_into};

use cobs::{DecodeError, DecodeReport, DestBufTooSmallError};

/// The greatest length of the shortest frame of a message of `length` bytes, which `encode` writes; `None` from 2^63 on, which no
/// message has.
pub fn most_encoded_length(length: usize) -> Option<usize>
    ensures most { length < 2 ^ 63 → result ≡ Some (most_length length) }
    ensures none { 2 ^ 63 ≤ length → result ≡ None }
{
    if length < 1 << 63 {
        Some(cobs::max_encoding_length(length))
    } else {
        None
    }
}

/// The length of the shortest frame of a message: exactly what `encode` needs.
pub fn encoded_length(source: &[u8]) -> usize
    ensures { result ≡ length (shortest_frame source.now) }
{
    cobs::encoded_length(source)
}

// Whether the frame of a message fits in `room` bytes. Its length is counted only if the bounds of its length don't decide that.
pub(crate) fn fits(source: &[u8], room: usize) -> bool
    ensures { IsTrue result ↔ (length (shortest_frame source.now) ≤ room) }
{
    cobs::laws::lengths();
    if room <= source.len() {
        return false;
    }
    if source.len() <= 254 {
        return true;
    }
    cobs::max_encoding_length(source.len()) <= room || cobs::encoded_length(source) <= room
}

/// Writes the shortest frame of a message to the front of `dest`, and returns its length.
///
/// # Errors
/// `DestBufTooSmallError` exactly if it doesn't fit; `dest` is unchanged.
pub fn encode(source: &[u8], dest: &mut [u8]) -> Result<usize, DestBufTooSmallError>
    ensures length { IfOk result (λ n. n ≡ length (shortest_frame source.now)) }
    ensures frame { IfOk result (λ n. take n dest.new ≡ shortest_frame source.now) }
    ensures fits { OnOk result (length (shortest_frame source.now) ≤ length dest.old) }
    ensures too_small { OnErr result (length dest.old < length (shortest_frame source.now)) }
    ensures unchanged { OnErr result (dest.new ≡ dest.old) }
{
    cobs::try_encode(source, dest)
}

/// Writes the shortest frame of a message, each byte XORed with the sentinel, to the front of `dest`, and returns its length. No byte
/// of it is the sentinel.
///
/// # Errors
/// `DestBufTooSmallError` exactly if it doesn't fit; `dest` is unchanged.
pub fn encode_with_sentinel(
    source: &[u8],
    dest: &mut [u8],
    sentinel: u8,
) -> Result<usize, DestBufTooSmallError>
    ensures length { IfOk result (λ n. n ≡ length (shortest_frame source.now)) }
    ensures frame { IfOk result (λ n. take n dest.new ≡ frame_for sentinel source.now) }
    ensures fits { OnOk result (length (shortest_frame source.now) ≤ length dest.old) }
    ensures too_small { OnErr result (length dest.old < length (shortest_frame source.now)) }
    ensures unchanged { OnErr result (dest.new ≡ dest.old) }
{
    if !fits(source, dest.len()) {
        return Err(DestBufTooSmallError);
    }
    Ok(cobs::encode_with_sentinel(source, dest, sentinel))
}

/// Decodes the first frame of a source into the front of `dest`, and returns how many bytes were parsed and the message's length.
///
/// Leading zeros are skipped, and the frame ends at the next zero or at the end. The zeros, the frame and its zero, if there is one,
/// are the bytes parsed.
///
/// # Errors
/// - `EmptyFrame`: no byte is nonzero.
/// - `TargetBufTooSmall`: `dest` is too short for the bytes that the frame determines.
/// - `InvalidFrame`: otherwise, the bytes aren't a frame.
///
/// The bytes of a message that they determine are then in front of `dest`, as far as they fit.
pub fn decode(source: &[u8], dest: &mut [u8]) -> Result<DecodeReport, DecodeError>
    ensures answer { result ≡ decoded_from (length dest.old) source.now }
    ensures frame { IfOk result
        (λ r. Frame (frame_in source.now) (take (frame_size r) dest.new)) }
    ensures no_frame { OnErr result ((m : List ℕ) → Frame (frame_in source.now) m
        → length dest.old < length m) }
    ensures dest { dest.new ≡ overwritten (part (frame_in source.now)) dest.old }
{
    cobs::decode(source, dest)
}

/// Decodes the bytes before the first sentinel, or all if there is none, each XORed with it, into the front of `dest`. Returns the
/// message's length; 0 if there are no such bytes.
///
/// # Errors
/// - `InvalidFrame`: the bytes aren't a frame.
/// - `TargetBufTooSmall`: they are a frame, and its message is longer than `dest`.
///
/// The bytes of a message that they determine are then in front of `dest`, as far as they fit.
pub fn decode_with_sentinel(
    source: &[u8],
    dest: &mut [u8],
    sentinel: u8,
) -> Result<usize, DecodeError>
    ensures answer { result
        ≡ decoded_into (length dest.old) (stretch (masked sentinel source.now)) }
    ensures frame { let p = stretch (masked sentinel source.now) in
        IfOk result (λ n. p ≢ [] → Frame p (take n dest.new)) }
    ensures no_frame { OnErr result ((m : List ℕ)
        → Frame (stretch (masked sentinel source.now)) m → length dest.old < length m) }
    ensures dest { dest.new ≡ overwritten (part (stretch (masked sentinel source.now))) dest.old }
{
    cobs::decode_with_sentinel(source, dest, sentinel)
}

/// Decodes the bytes before the first sentinel, or all if there is none, each XORed with it, in place: the message is then in front.
///
/// The sentinel isn't among the bytes parsed, and it and all after it are unchanged.
///
/// # Errors
/// `InvalidFrame`: the bytes aren't a frame; the bytes of a message that they determine are then in front.
pub fn decode_in_place(buffer: &mut [u8], sentinel: u8) -> Result<DecodeReport, DecodeError>
    ensures answer { result ≡ in_place (stretch (masked sentinel buffer.old)) }
    ensures frame { let p = stretch (masked sentinel buffer.old) in
        IfOk result (λ r. p ≢ [] → Frame p (take (frame_size r) buffer.new)) }
    ensures no_frame { OnErr result ((m : List ℕ)
        → Frame (stretch (masked sentinel buffer.old)) m → ⊥) }
    ensures buffer { buffer.new
        ≡ overwritten (part (stretch (masked sentinel buffer.old))) buffer.old }
    ensures rest { let n = length (stretch (masked sentinel buffer.old)) in
        drop n buffer.new ≡ drop n buffer.old }
{
    cobs::decode_in_place_report_with_sentinel(buffer, sentinel)
}
