//! Whole messages and whole frames.
ghost use Rattle.std.specs.Prelude.{◌≡◌, ◌≢◌, ◌<◌, ◌≤◌, ◌^◌, ℕ, List, [], length, take, drop};
ghost use Rattle.cobs.specs.Frames.{Frame, shortest_frame, part, most_length};
ghost use Rattle.cobs.specs.InPlace.{stretch, in_place, overwritten};
ghost use Rattle.cobs.specs.Sentinel.{masked, frame_for};
ghost use Rattle.cobs.specs.Whole.{frame_in, decoded_from, decoded_into};
ghost use Rattle.frames_c.specs.Status.{done, no_room};
ghost use Rattle.frames_c.specs.Answers.{IsReport, IsLength};

use crate::answers::{FramesRead, FramesWritten, measured, read, written};

/// The greatest length of the shortest frame of a message of `length` bytes, which `frames_c_encode` writes; 0 from 2^63 on, which no
/// message has.
#[unsafe(no_mangle)]
pub extern "C" fn frames_c_most_encoded_length(length: usize) -> usize
    ensures most { length < 2 ^ 63 → result ≡ most_length length }
    ensures none { 2 ^ 63 ≤ length → result ≡ 0 }
{
    frames::most_encoded_length(length).unwrap_or(0)
}

/// The length of the shortest frame of a message: exactly what `frames_c_encode` needs.
#[unsafe(no_mangle)]
pub extern "C" fn frames_c_encoded_length(source: &[u8]) -> usize
    ensures { result ≡ length (shortest_frame source.now) }
{
    frames::encoded_length(source)
}

/// Writes the shortest frame of a message to the front of `dest`, and returns its length.
///
/// # Errors
/// No room exactly if it doesn't fit; `dest` is unchanged.
#[unsafe(no_mangle)]
pub extern "C" fn frames_c_encode(source: &[u8], dest: &mut [u8]) -> FramesWritten
    ensures fits { length (shortest_frame source.now) ≤ length dest.old → result.status ≡ done }
    ensures length { result.status ≡ done → result.length ≡ length (shortest_frame source.now) }
    ensures frame { result.status ≡ done → take result.length dest.new ≡ shortest_frame source.now }
    ensures too_small { length dest.old < length (shortest_frame source.now)
        → (result.status ≡ no_room) × (result.length ≡ 0) × (dest.new ≡ dest.old) }
{
    written(frames::encode(source, dest))
}

/// Writes the shortest frame of a message, each byte XORed with the sentinel, to the front of `dest`, and returns its length. No byte
/// of it is the sentinel.
///
/// # Errors
/// No room exactly if it doesn't fit; `dest` is unchanged.
#[unsafe(no_mangle)]
pub extern "C" fn frames_c_encode_with_sentinel(
    source: &[u8],
    dest: &mut [u8],
    sentinel: u8,
) -> FramesWritten
    ensures fits { length (shortest_frame source.now) ≤ length dest.old → result.status ≡ done }
    ensures length { result.status ≡ done → result.length ≡ length (shortest_frame source.now) }
    ensures frame { result.status ≡ done
        → take result.length dest.new ≡ frame_for sentinel source.now }
    ensures too_small { length dest.old < length (shortest_frame source.now)
        → (result.status ≡ no_room) × (result.length ≡ 0) × (dest.new ≡ dest.old) }
{
    written(frames::encode_with_sentinel(source, dest, sentinel))
}

/// Decodes the first frame of a source into the front of `dest`, and returns how many bytes were used and the message's length.
///
/// Leading zeros are skipped, and the frame ends at the next zero or at the end. The zeros, the frame and its zero, if there is one,
/// are the bytes used.
///
/// # Errors
/// - Empty: no byte is nonzero.
/// - No room: `dest` is too short for the bytes that the frame determines.
/// - Invalid: otherwise, the bytes aren't a frame.
///
/// The bytes of a message that they determine are then in front of `dest`, as far as they fit.
#[unsafe(no_mangle)]
pub extern "C" fn frames_c_decode(source: &[u8], dest: &mut [u8]) -> FramesRead
    ensures answer { IsReport (decoded_from (length dest.old) source.now)
        result.status result.used result.length }
    ensures frame { result.status ≡ done
        → Frame (frame_in source.now) (take result.length dest.new) }
    ensures no_frame { result.status ≢ done → (m : List ℕ) → Frame (frame_in source.now) m
        → length dest.old < length m }
    ensures dest { dest.new ≡ overwritten (part (frame_in source.now)) dest.old }
{
    read(frames::decode(source, dest))
}

/// Decodes the bytes before the first sentinel, or all if there is none, each XORed with it, into the front of `dest`. Returns the
/// message's length; 0 if there are no such bytes.
///
/// # Errors
/// - Invalid: the bytes aren't a frame.
/// - No room: they are a frame, and its message is longer than `dest`.
///
/// The bytes of a message that they determine are then in front of `dest`, as far as they fit.
#[unsafe(no_mangle)]
pub extern "C" fn frames_c_decode_with_sentinel(
    source: &[u8],
    dest: &mut [u8],
    sentinel: u8,
) -> FramesWritten
    ensures answer { let p = stretch (masked sentinel source.now) in
        IsLength (decoded_into (length dest.old) p) result.status result.length }
    ensures frame { let p = stretch (masked sentinel source.now) in
        result.status ≡ done → p ≢ [] → Frame p (take result.length dest.new) }
    ensures no_frame { result.status ≢ done → (m : List ℕ)
        → Frame (stretch (masked sentinel source.now)) m → length dest.old < length m }
    ensures dest { dest.new ≡ overwritten (part (stretch (masked sentinel source.now))) dest.old }
{
    measured(frames::decode_with_sentinel(source, dest, sentinel))
}

/// Decodes the bytes before the first sentinel, or all if there is none, each XORed with it, in place: the message is then in front.
///
/// The sentinel isn't among the bytes used, and it and all after it are unchanged.
///
/// # Errors
/// Invalid: the bytes aren't a frame; the bytes of a message that they determine are then in front.
#[unsafe(no_mangle)]
pub extern "C" fn frames_c_decode_in_place(buffer: &mut [u8], sentinel: u8) -> FramesRead
    ensures answer { IsReport (in_place (stretch (masked sentinel buffer.old)))
        result.status result.used result.length }
    ensures frame { let p = stretch (masked sentinel buffer.old) in
        result.status ≡ done → p ≢ [] → Frame p (take result.length buffer.new) }
    ensures no_frame { result.status ≢ done → (m : List ℕ)
        → Frame (stretch (masked sentinel buffer.old)) m → ⊥ }
    ensures buffer { buffer.new
        ≡ overwritten (part (stretch (masked sentinel buffer.old))) buffer.old }
    ensures rest { let n = length (stretch (masked sentinel buffer.old)) in
        drop n buffer.new ≡ drop n buffer.old }
{
    read(frames::decode_in_place(buffer, sentinel))
}
