//! Decoding whole input into a slice.
//!
//! `decode` and `decode_with_sentinel` share `decode_part`. Up to 255 bytes that fit are searched while they are
//! copied; longer input is checked and taken 255 at a time (`take_source`). If a source doesn't fit, its end is searched
//! first, and what doesn't fit then is pushed or counted. Only bytes that are known to be in the frame are written.
//! Loops are compiled twice, for zero and for any sentinel, which is a third slower. What was tried: `bench/README.md`.
ghost use Rattle.std.specs.Prelude.{◌≡◌, ◌≢◌, ℕ, ◌+◌, ◌-◌, ◌^◌, ◌<◌, ◌≤◌, List, [], length, take, slice_index, IsTrue, IfOk, OnErr, IfSome, IsNone, true};
ghost use Rattle.cobs.specs.Frames.{Frame, NoZero, part};
ghost use Rattle.cobs.specs.Reports.{frame_size};
ghost use Rattle.cobs.specs.InPlace.{stretch, overwritten};
ghost use Rattle.cobs.specs.Sentinel.{masked};
ghost use Rattle.cobs.specs.Taking.{DecodesFront, DecodesInto, DecodesSource, FitsWhole, answer_behind, with_parsed};
ghost use Rattle.cobs.specs.Whole.{unpadded, frame_in, decoded_from, decoded_into};
ghost use Rattle.cobs.specs.Streaming.{HasStreamed};

use super::progress::Progress;
use super::report::{DecodeError, DecodeReport, Decoded, Reported};
use super::state::{DecoderState, by_code};
use super::window::{copy_frame_until, put_zeros};
use crate::finding::before_sentinel;
use crate::moves::{are_all, copy_over, is_clear_255};

// The result after a whole frame, with how many bytes of a message it has: it is one if no block is open.
#[inline(always)]
pub(crate) fn answer_behind(state: DecoderState, len: usize) -> Decoded
    ensures { result ≡ answer_behind state len }
{
    if state.left() == 0 {
        Ok(len)
    } else {
        Err(DecodeError::InvalidFrame { decoded_bytes: len })
    }
}

// The same result with how many bytes of the source were used.
#[inline(always)]
pub(crate) fn with_parsed(answer: Decoded, parsed: usize) -> Reported
    ensures { result ≡ with_parsed parsed answer }
{
    match answer {
        Ok(decoded) => Ok(DecodeReport { parsed, decoded }),
        Err(error) => Err(error),
    }
}

// Whether a frame is for one window: a short one. Rows of zeros are filled faster in steps.
#[inline(always)]
pub(crate) fn is_short(frame: &[u8], sentinel: u8) -> bool
    requires { 0 < length frame.now }
    ensures { IsTrue result → length frame.now ≤ 255 }
{
    frame.len() <= 255 && (frame.len() < 64 || frame[0] != sentinel ^ 1)
}

// Takes the bytes of a source before its first sentinel, each XORed with it: all of the source fits. They are searched as they
// are copied, 255 at a time. Returns how many they are. It is compiled once for each number: one copy is for the sentinel zero
// alone, which XORs nothing.
#[inline(never)]
pub(crate) fn take_source<const COPY: usize>(
    source: &[u8],
    dest: &mut [u8],
    sentinel: u8,
) -> (Progress, usize)
    requires { FitsWhole source.now dest.old sentinel }
    ensures end { result.1 ≡ length (stretch (masked sentinel source.now)) }
    ensures some { 0 < result.1 }
    ensures within { result.1 ≤ length source.now }
    ensures stands { HasStreamed result.0 (stretch (masked sentinel source.now)) }
    ensures dest { dest.new
        ≡ overwritten (part (stretch (masked sentinel source.now))) dest.old }
{
    let mut progress = Progress {
        state: by_code(sentinel ^ source[0]),
        len: 0,
    };
    let mut read: usize = 1;
    while 255 <= source.len() - read && is_clear_255(&source[read..read + 255], sentinel) {
        read += progress.take_some::<COPY, true>(dest, &source[read..read + 255], sentinel);
    }
    let end = read + before_sentinel(&source[read..], sentinel);
    progress.take_all::<COPY>(dest, &source[read..end], sentinel);
    (progress, end)
}

// Decodes the bytes of a source before its first sentinel, each XORed with it: the source is of one window, doesn't begin with
// the sentinel, and all of it fits. They are searched as they are copied. Also returns how many they are. Each caller has
// a copy of its own by its number, and one for short sources.
#[inline(always)]
pub(crate) fn decode_near<const CALL: usize, const SHORT: bool>(
    source: &[u8],
    dest: &mut [u8],
    sentinel: u8,
) -> (Decoded, usize)
    requires fits { FitsWhole source.now dest.old sentinel }
    requires few { length source.now ≤ 255 }
    requires short { SHORT ≡ true → length source.now ≤ 65 }
    ensures { DecodesFront dest.old (stretch (masked sentinel source.now)) dest.new result.0
        result.1 }
{
    let code = sentinel ^ source[0];
    let n = copy_frame_until::<CALL, SHORT>(&source[1..], dest, 0, sentinel);
    let state = put_zeros(&mut dest[..n], code - 1);
    (answer_behind(state, n), n + 1)
}

// Takes the bytes of a frame, each XORed with the sentinel, and also counts those that don't fit: anew, since a push that
// fails doesn't return where.
fn take_frame(frame: &[u8], dest: &mut [u8], sentinel: u8) -> Progress
    requires { NoZero (masked sentinel frame.now) }
    ensures stands { HasStreamed result (masked sentinel frame.now) }
    ensures dest { dest.new ≡ overwritten (part (masked sentinel frame.now)) dest.old }
{
    let mut progress = Progress::new();
    if progress.push(dest, frame, sentinel).is_ok() {
        return progress;
    }
    let mut progress = Progress::new();
    for byte in frame {
        let _ = progress.feed(&mut [], sentinel ^ *byte);
    }
    progress
}

// Decodes a frame, each byte of it XORed with the sentinel, and also counts the bytes of its message that don't fit.
#[inline(never)]
pub(crate) fn decode_counted(frame: &[u8], dest: &mut [u8], sentinel: u8) -> Decoded
    requires { NoZero (masked sentinel frame.now) }
    ensures { DecodesInto dest.old (masked sentinel frame.now) dest.new result }
{
    let Progress { state, len } = take_frame(frame, dest, sentinel);
    if state.left() == 0 && dest.len() < len {
        return Err(DecodeError::TargetBufTooSmall);
    }
    answer_behind(state, len)
}

// The bytes before the first one that is the sentinel.
#[inline(always)]
pub(crate) fn before(bytes: &[u8], sentinel: u8) -> &[u8]
    ensures { masked sentinel result.now ≡ stretch (masked sentinel bytes.now) }
{
    &bytes[..before_sentinel(bytes, sentinel)]
}

// The bytes after leading zeros.
pub(crate) fn behind_zeros(bytes: &[u8]) -> &[u8]
    ensures value { result.now ≡ unpadded bytes.now }
    ensures within { length result.now ≤ length bytes.now }
{
    for (start, byte) in bytes.iter().enumerate() {
        if *byte != 0 {
            return &bytes[start..];
        }
    }
    &[]
}

// Whether a frame isn't empty, and all its bytes except the first fit.
#[inline(always)]
fn has_room(frame: &[u8], room: usize) -> bool
    ensures some { IsTrue result → 0 < length frame.now }
    ensures room { IsTrue result → length frame.now ≤ room + 1 }
{
    !frame.is_empty() && frame.len() - 1 <= room
}

// Whether many bytes begin with many codes 01.
#[inline(always)]
fn begins_with_row(bytes: &[u8], sentinel: u8) -> bool {
    if bytes.len() < 256 {
        return false;
    }
    bytes[0] == sentinel ^ 1 && are_all(sentinel ^ 1, &bytes[..64])
}

// Decodes the bytes of a source before its first sentinel, each XORed with it, by `take_source`. Its result goes through memory
// that is set to zero first: where this is compiled into its caller, so that the faster paths don't pay for it.
#[inline(always)]
fn decode_many<const COPY: usize>(bytes: &[u8], dest: &mut [u8], sentinel: u8) -> (Decoded, usize)
    requires { FitsWhole bytes.now dest.old sentinel }
    ensures { DecodesFront dest.old (stretch (masked sentinel bytes.now)) dest.new result.0
        result.1 }
{
    let (Progress { state, len }, end) = take_source::<COPY>(bytes, dest, sentinel);
    (answer_behind(state, len), end)
}

// Decodes the bytes of a source before its first sentinel, each XORed with it, if there are some and all of the source
// fits. Also returns how many they are. It is compiled once for each caller, into which it is inlined. A long row of codes 01
// is left to a decoder to which it is pushed, which fills it at once.
#[inline(always)]
fn decode_part<const CALL: usize, const COPY: usize>(
    source: &[u8],
    dest: &mut [u8],
    sentinel: u8,
) -> Option<(Decoded, usize)>
    ensures done { IfSome result (λ t. DecodesFront dest.old
        (stretch (masked sentinel source.now)) dest.new t.0 t.1) }
    ensures same { IsNone result → dest.new ≡ dest.old }
{
    if source.len() <= 64 && has_room(source, dest.len()) && source[0] != sentinel {
        return Some(decode_near::<CALL, true>(source, dest, sentinel));
    }
    if !has_room(source, dest.len()) || source[0] == sentinel {
        return None;
    }
    if is_short(source, sentinel) {
        return Some(decode_near::<CALL, false>(source, dest, sentinel));
    }
    if begins_with_row(source, sentinel) {
        return None;
    }
    Some(decode_many::<COPY>(source, dest, sentinel))
}

// As `decode`, by a decoder to which what follows leading zeros is pushed, and then a zero: it sees which byte doesn't fit.
#[inline(never)]
fn decode_pushed(source: &[u8], rest: &[u8], dest: &mut [u8]) -> Reported
    requires rest { rest.now ≡ unpadded source.now }
    requires within { length rest.now ≤ length source.now }
    ensures { DecodesSource dest.old source.now dest.new result }
{
    let mut progress = Progress::new();
    let zeros = source.len() - rest.len();
    match progress.push(dest, rest, 0) {
        Ok(None) => match progress.end(dest.len()) {
            Ok(None) => Err(DecodeError::EmptyFrame),
            Ok(Some(decoded)) => with_parsed(Ok(decoded), source.len()),
            Err(error) => Err(error),
        },
        Ok(Some(report)) => with_parsed(Ok(report.decoded), zeros + report.parsed),
        Err(error) => Err(error),
    }
}

// As `decode`, of a source that begins with zeros, or doesn't fit: its end is searched first, except after a row of codes 01.
#[inline(never)]
fn decode_slowly(source: &[u8], dest: &mut [u8]) -> Reported
    ensures { DecodesSource dest.old source.now dest.new result }
{
    let rest = behind_zeros(source);
    if begins_with_row(rest, 0) {
        return decode_pushed(source, rest, dest);
    }
    let frame = before(rest, 0);
    match decode_part::<3, 2>(frame, dest, 0) {
        Some((answer, end)) => {
            let parsed = source.len().min(source.len() - rest.len() + end + 1);
            with_parsed(answer, parsed)
        }
        None => decode_pushed(source, rest, dest),
    }
}

// The same, by itself as `decode_many` is: by `?` the caller's faster paths keep their results in registers.
#[inline(always)]
fn decode_else(source: &[u8], dest: &mut [u8]) -> Reported
    ensures { DecodesSource dest.old source.now dest.new result }
{
    Ok(decode_slowly(source, dest)?)
}

/// Decodes the first frame of a source into `dest`, and returns both sizes.
///
/// Leading zeros are skipped; the frame ends at the next zero, or at the end of the source. `parsed_size` counts the
/// skipped zeros, the frame and its zero, if there is one.
///
/// # Errors
/// After each, `dest` begins with what the frame determines of a message, as far as it fits.
/// - `EmptyFrame`: no byte is nonzero.
/// - `TargetBufTooSmall`: `dest` is too small for what the bytes determine.
/// - `InvalidFrame`: otherwise, if the bytes aren't a frame.
///
/// # Example
/// With `MESSAGE` as `[10, 11, 0, 12]`, and `room` beginning with its frame:
/// ```rust
/// let mut back = [0u8; 4];
/// let decoded = cobs::decode(&room[..5], &mut back);
/// check(&rt, decoded.is_ok() && are_bytes(&back, &MESSAGE));
/// ```
#[inline(always)]
pub fn decode(source: &[u8], dest: &mut [u8]) -> Result<DecodeReport, DecodeError>
    ensures answer { result ≡ decoded_from (length dest.old) source.now }
    ensures frame { IfOk result (λ r. Frame (frame_in source.now) (take (frame_size r) dest.new)) }
    ensures no_frame { OnErr result ((m : List ℕ) → Frame (frame_in source.now) m
        → length dest.old < length m) }
    ensures dest { dest.new ≡ overwritten (part (frame_in source.now)) dest.old }
{
    match decode_part::<0, 0>(source, dest, 0) {
        Some((answer, end)) => with_parsed(answer, source.len().min(end + 1)),
        None => decode_else(source, dest),
    }
}

// As `decode_with_sentinel`, of a source that doesn't fit: the end of the bytes to decode is searched first.
#[inline(never)]
fn decode_stretch(source: &[u8], dest: &mut [u8], sentinel: u8) -> Decoded
    ensures { DecodesInto dest.old (stretch (masked sentinel source.now)) dest.new result }
{
    let frame = before(source, sentinel);
    match decode_part::<4, 3>(frame, dest, sentinel) {
        Some((answer, _)) => answer,
        None => decode_counted(frame, dest, sentinel),
    }
}

/// Decodes the bytes before the first sentinel, or all if there is none, each XORed with it, and returns the
/// message's length.
///
/// The message is then at the start of `dest`. If there are no such bytes, the length is 0.
///
/// # Errors
/// After each, `dest` begins with what the bytes determine of a message, as far as it fits.
/// - `InvalidFrame`: the bytes aren't a frame.
/// - `TargetBufTooSmall`: they are one, and its message is longer than `dest`.
pub fn decode_with_sentinel(
    source: &[u8],
    dest: &mut [u8],
    sentinel: u8,
) -> Result<usize, DecodeError>
    ensures answer { result
        ≡ decoded_into (length dest.old) (stretch (masked sentinel source.now)) }
    ensures frame { let p = stretch (masked sentinel source.now) in
        IfOk result (λ n. p ≢ [] → Frame p (take n dest.new)) }
    ensures no_frame { OnErr result ((m : List ℕ) → Frame (stretch (masked sentinel source.now)) m
        → length dest.old < length m) }
    ensures dest { dest.new ≡ overwritten (part (stretch (masked sentinel source.now))) dest.old }
{
    // A copy for zero alone XORs nothing.
    let part = if sentinel == 0 {
        decode_part::<1, 0>(source, dest, sentinel)
    } else {
        decode_part::<2, 1>(source, dest, sentinel)
    };
    match part {
        Some((answer, _)) => answer,
        None => decode_stretch(source, dest, sentinel),
    }
}

/// Decodes a complete frame, without its sentinel, each byte XORed with it, and returns the message's length.
///
/// The result and `dest` are those of [`decode_with_sentinel`], but a short frame isn't searched for its end.
///
/// # Errors
/// Those of [`decode_with_sentinel`].
///
/// # Requires
/// No byte of the frame is the sentinel.
///
/// # Example
/// ```rust
/// let mut message = [0; 4];
/// check(&rt, gives(decode_clear(&[2, 7], &mut message, 0), 1));
/// check(&rt, message[0] == 7);
/// ```
// It is compiled into each path of a receiver.
#[inline(always)]
pub fn decode_clear(frame: &[u8], dest: &mut [u8], sentinel: u8) -> Result<usize, DecodeError>
    requires { NoZero (masked sentinel frame.now) }
    ensures answer { result ≡ decoded_into (length dest.old) (masked sentinel frame.now) }
    ensures frame { let p = masked sentinel frame.now in
        IfOk result (λ n. p ≢ [] → Frame p (take n dest.new)) }
    ensures no_frame { OnErr result ((m : List ℕ) → Frame (masked sentinel frame.now) m
        → length dest.old < length m) }
    ensures dest { dest.new ≡ overwritten (part (masked sentinel frame.now)) dest.old }
    ensures within { IfOk result (λ n. n ≤ length dest.old) }
{
    if has_room(frame, dest.len()) && is_short(frame, sentinel) {
        let len = frame.len() - 1;
        copy_over(&frame[1..], dest, 0, sentinel);
        let state = put_zeros(&mut dest[..len], (sentinel ^ frame[0]) - 1);
        return answer_behind(state, len);
    }
    decode_with_sentinel(frame, dest, sentinel)
}
