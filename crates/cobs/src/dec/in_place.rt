//! Decoding in place, and whole input into a new vector, which is then decoded in place. The first 256 bytes are one window;
//! longer frames, and rows of codes 01, have a loop.
ghost use Rattle.std.specs.Prelude.{◌≡◌, ◌≢◌, ℕ, ◌<◌, ◌≤◌, List, [], length, take, drop, slice_index, IfOk, IfErr, OnErr, MatchResult, ◌⊎◌};
ghost use Rattle.cobs.specs.Frames.{Frame, NoZero, part};
ghost use Rattle.cobs.specs.Reports.{frame_size};
ghost use Rattle.cobs.specs.InPlace.{stretch, in_place, in_place_length, overwritten, DecodesInPlace};
ghost use Rattle.cobs.specs.Sentinel.{masked, ComeBefore};
ghost use Rattle.cobs.specs.Whole.{frame_in, message_of_stretch, message_of_frame, RefusesWhole};
ghost use Rattle.cobs.specs.declared.dec.report.DecodeVecError.TheVariants.{OutOfMemory};

use super::progress::Progress;
use super::report::{DecodeError, DecodeReport, DecodeVecError, Reported};
use super::state::by_code;
use super::whole::{answer_behind, before, behind_zeros, with_parsed};
use super::window::put_zeros;
use crate::finding::{before_by_64, before_few};
use crate::moves::{is_clear_255, mask, move_down};
use std::alloc::Global;

// Decodes the bytes at the start of a buffer that are in a frame, each XORed with the sentinel, in place: those of
// one window. After the code of a full block no byte is outside it.
#[inline(always)]
fn decode_short_in_place(buf: &mut [u8], end: usize, sentinel: u8) -> Reported
    requires few { end ≤ 255 }
    requires stops { ComeBefore sentinel buf.old end }
    requires bytes { (k : ℕ) → slice_index buf.old k < 256 }
    ensures { DecodesInPlace buf.old (stretch (masked sentinel buf.old)) buf.new result }
{
    if end == 0 {
        return with_parsed(Ok(0), 0);
    }
    let code = sentinel ^ buf[0];
    let len = end - 1;
    move_down(buf, 1, len, 0, sentinel);
    let state = put_zeros(&mut buf[..len], code - 1);
    with_parsed(answer_behind(state, len), end)
}

// The position of the first sentinel of more than 64 bytes, if it is among the first 256; 256 otherwise, or if they begin with
// a row of codes 01, which is filled faster in steps: the first byte and the 64th show it.
#[inline(always)]
fn near_end(bytes: &[u8], sentinel: u8) -> usize
    requires { 64 < length bytes.now }
    ensures few { result ≤ 256 }
    ensures stops { result < 256 → ComeBefore sentinel bytes.now result }
    ensures begins { result ≡ 256 → slice_index bytes.now 0 ≢ sentinel }
{
    let one = sentinel ^ 1;
    if bytes[0] == one && bytes[63] == one {
        return 256;
    }
    before_by_64(&bytes[..bytes.len().min(256)], sentinel)
}

// As `decode_in_place_report_with_sentinel`, of a buffer that doesn't begin with the sentinel: 255 bytes are searched
// and moved at a time. It is compiled once for each number: one copy is for the sentinel zero, which XORs nothing.
#[inline(never)]
fn decode_long_in_place<const COPY: usize>(buf: &mut [u8], sentinel: u8) -> Reported
    requires some { 0 < length buf.old }
    requires begins { slice_index buf.old 0 ≢ sentinel }
    requires bytes { (k : ℕ) → slice_index buf.old k < 256 }
    ensures { DecodesInPlace buf.old (stretch (masked sentinel buf.old)) buf.new result }
{
    let mut progress = Progress {
        state: by_code(sentinel ^ buf[0]),
        len: 0,
    };
    let mut read: usize = 1;
    while 255 <= buf.len() - read && is_clear_255(&buf[read..read + 255], sentinel) {
        read += progress.take_some_within::<COPY, 0>(buf, read, read + 255, sentinel);
    }
    let end = read + before_by_64(&buf[read..], sentinel);
    while read < end {
        read += progress.take_some_within::<COPY, 1>(buf, read, end, sentinel);
    }
    let Progress { state, len } = progress;
    with_parsed(answer_behind(state, len), read)
}

// Shows that a byte is below 256: of a buffer that is borrowed on nothing else says it.
#[inline(always)]
fn all_bytes(bytes: &[u8])
    ensures { (k : ℕ) → slice_index bytes.now k < 256 }
{}

// As `decode_in_place_report_with_sentinel`, by the copy of that number: a short frame is searched, and then moved.
#[inline(always)]
pub(crate) fn decode_by<const COPY: usize>(buf: &mut [u8], sentinel: u8) -> Reported
    ensures { DecodesInPlace buf.old (stretch (masked sentinel buf.old)) buf.new result }
{
    all_bytes(buf);
    if buf.len() <= 64 {
        let few = before_few(buf, sentinel);
        return decode_short_in_place(buf, few, sentinel);
    }
    let end = near_end(buf, sentinel);
    if end == 256 {
        return decode_long_in_place::<COPY>(buf, sentinel);
    }
    decode_short_in_place(buf, end, sentinel)
}

/// Decodes the bytes before the first zero in place, or all if there is none, and returns both sizes.
///
/// The message is then at the start of the buffer. An empty buffer, and one that begins with a zero, give sizes 0 and
/// 0; that zero isn't counted. The bytes from `parsed_size` on are unchanged.
///
/// # Errors
/// `InvalidFrame`, with the length of the part of a message that the bytes determine; that part is then at the start
/// of the buffer. The bytes from the first zero on are unchanged.
///
/// # Example
/// ```rust
/// let mut line = [3u8, 10, 11, 2, 12, 0, 7];
/// check(&rt, decodes(decode_in_place_report(&mut line), 5, 4));
/// check(&rt, are_equal(&line[..4], &[10, 11, 0, 12]));
/// ```
pub fn decode_in_place_report(buf: &mut [u8]) -> Result<DecodeReport, DecodeError>
    ensures answer { result ≡ in_place (stretch buf.old) }
    ensures frame { IfOk result (λ r. stretch buf.old ≢ []
        → Frame (stretch buf.old) (take (frame_size r) buf.new)) }
    ensures no_frame { OnErr result ((m : List ℕ) → Frame (stretch buf.old) m → ⊥) }
    ensures buffer { buf.new ≡ overwritten (part (stretch buf.old)) buf.old }
    ensures rest { drop (length (stretch buf.old)) buf.new
        ≡ drop (length (stretch buf.old)) buf.old }
{
    decode_by::<0>(buf, 0)
}

/// Decodes the bytes before the first sentinel in place, or all if there is none, each XORed with it, and returns
/// both sizes.
///
/// The bytes from `parsed_size` on are unchanged: the sentinel, and those after it, aren't XORed.
///
/// # Errors
/// As [`decode_in_place_report`]; the bytes from the first sentinel on are unchanged.
#[inline(always)]
pub fn decode_in_place_report_with_sentinel(
    buf: &mut [u8],
    sentinel: u8,
) -> Result<DecodeReport, DecodeError>
    ensures answer { result ≡ in_place (stretch (masked sentinel buf.old)) }
    ensures frame { let p = stretch (masked sentinel buf.old) in
        IfOk result (λ r. p ≢ [] → Frame p (take (frame_size r) buf.new)) }
    ensures no_frame { OnErr result
        ((m : List ℕ) → Frame (stretch (masked sentinel buf.old)) m → ⊥) }
    ensures buffer { buf.new ≡ overwritten (part (stretch (masked sentinel buf.old))) buf.old }
    ensures rest { let n = length (stretch (masked sentinel buf.old)) in
        drop n buf.new ≡ drop n buf.old }
{
    decode_by::<1>(buf, sentinel)
}

/// Decodes as [`decode_in_place_report`], and returns the message's length alone.
///
/// # Errors
/// As [`decode_in_place_report`].
pub fn decode_in_place(buf: &mut [u8]) -> Result<usize, DecodeError>
    ensures answer { result ≡ in_place_length (stretch buf.old) }
    ensures frame { IfOk result (λ n. stretch buf.old ≢ []
        → Frame (stretch buf.old) (take n buf.new)) }
    ensures no_frame { OnErr result ((m : List ℕ) → Frame (stretch buf.old) m → ⊥) }
    ensures buffer { buf.new ≡ overwritten (part (stretch buf.old)) buf.old }
    ensures rest { drop (length (stretch buf.old)) buf.new
        ≡ drop (length (stretch buf.old)) buf.old }
{
    match decode_in_place_report(buf) {
        Ok(report) => Ok(report.frame_size()),
        Err(error) => Err(error),
    }
}

/// Decodes as [`decode_in_place`], after every byte of the buffer was XORed with the sentinel: those after the first
/// sentinel stay so.
///
/// # Errors
/// As [`decode_in_place`].
pub fn decode_in_place_with_sentinel(buf: &mut [u8], sentinel: u8) -> Result<usize, DecodeError>
    ensures answer { result ≡ in_place_length (stretch (masked sentinel buf.old)) }
    ensures frame { let p = stretch (masked sentinel buf.old) in
        IfOk result (λ n. p ≢ [] → Frame p (take n buf.new)) }
    ensures no_frame { OnErr result
        ((m : List ℕ) → Frame (stretch (masked sentinel buf.old)) m → ⊥) }
    ensures buffer { buf.new
        ≡ overwritten (part (stretch (masked sentinel buf.old))) (masked sentinel buf.old) }
    ensures rest { let n = length (stretch (masked sentinel buf.old)) in
        drop n buf.new ≡ drop n (masked sentinel buf.old) }
{
    mask(buf, sentinel);
    decode_in_place(buf)
}

/// Decodes a complete frame in place, without its sentinel, each byte XORed with it, and returns the message's length.
///
/// The message is then at the start of the buffer. The result and the buffer are those of
/// [`decode_in_place_report_with_sentinel`], but a short frame isn't searched for its end.
///
/// # Errors
/// `InvalidFrame`, as [`decode_in_place_report`].
///
/// # Requires
/// No byte of the frame is the sentinel.
// It is compiled into each path of a receiver.
#[inline(always)]
pub fn decode_clear_in_place(frame: &mut [u8], sentinel: u8) -> Result<usize, DecodeError>
    requires { NoZero (masked sentinel frame.old) }
    ensures answer { result ≡ in_place_length (masked sentinel frame.old) }
    ensures frame { let p = masked sentinel frame.old in
        IfOk result (λ n. p ≢ [] → Frame p (take n frame.new)) }
    ensures no_frame { OnErr result ((m : List ℕ) → Frame (masked sentinel frame.old) m → ⊥) }
    ensures buffer { frame.new ≡ overwritten (part (masked sentinel frame.old)) frame.old }
    ensures within { IfOk result (λ n. n ≤ length frame.old) }
{
    all_bytes(frame);
    let end = frame.len();
    let decoded = if 255 < end {
        decode_long_in_place::<1>(frame, sentinel)
    } else {
        decode_short_in_place(frame, end, sentinel)
    };
    match decoded {
        Ok(told) => Ok(told.frame_size()),
        Err(error) => Err(error),
    }
}

// Decodes the bytes before the first sentinel, each XORed with it, in a new vector, by the copy of that number.
#[inline(always)]
fn decode_copied<const COPY: usize>(
    alloc: Global,
    bytes: &[u8],
    sentinel: u8,
) -> Result<Vec<u8>, DecodeVecError>
    ensures { MatchResult result
        (λ v. message_of_stretch (stretch (masked sentinel bytes.now)) ≡ Ok v.items)
        (λ e. RefusesWhole e (message_of_stretch (stretch (masked sentinel bytes.now)))) }
{
    let Ok(mut copied) = bytes.to_vec(alloc) else {
        return Err(DecodeVecError::OutOfMemory);
    };
    match decode_by::<COPY>(copied.as_mut_slice(), sentinel) {
        Ok(report) => {
            copied.truncate(report.frame_size());
            Ok(copied)
        }
        Err(error) => Err(DecodeVecError::Decode(error)),
    }
}

/// Decodes the first frame of a source, as [`decode`](crate::decode) with a large enough buffer, into a new vector.
///
/// # Errors
/// - `Decode`: there is no frame, with the error of `decode`.
/// - `OutOfMemory`: the message couldn't be allocated. If the source has no frame either, either error may come.
///
/// # Allocates
/// The frame's length, once.
///
/// # Example
/// With `MESSAGE` as `[10, 11, 0, 12]`:
/// ```rust
/// let plain = cobs::decode_vec(alloc, &[3, 10, 11, 2, 12]);
/// wants.bytes(plain, DecodeVecError::OutOfMemory, &MESSAGE);
/// ```
pub fn decode_vec(alloc: Global, source: &[u8]) -> Result<Vec<u8>, DecodeVecError>
    ensures answer { MatchResult result (λ v. message_of_frame (frame_in source.now) ≡ Ok v.items)
        (λ e. RefusesWhole e (message_of_frame (frame_in source.now))) }
    ensures frame { IfOk result (λ v. Frame (frame_in source.now) v.items) }
    ensures no_frame { IfErr result (λ e. (e ≡ OutOfMemory)
        ⊎ ((m : List ℕ) → Frame (frame_in source.now) m → ⊥)) }
{
    let frame = before(behind_zeros(source), 0);
    if frame.is_empty() {
        return Err(DecodeVecError::Decode(DecodeError::EmptyFrame));
    }
    decode_copied::<0>(alloc, frame, 0)
}

/// Decodes the bytes before the first sentinel, as [`decode_with_sentinel`](crate::decode_with_sentinel) with a large
/// enough buffer, into a new vector.
///
/// # Errors
/// - `Decode`: the bytes aren't a frame, with the error of `decode_with_sentinel`.
/// - `OutOfMemory`: the message couldn't be allocated. If the bytes aren't a frame either, either error may come.
///
/// # Allocates
/// The length of the bytes before the sentinel, once.
pub fn decode_vec_with_sentinel(
    alloc: Global,
    source: &[u8],
    sentinel: u8,
) -> Result<Vec<u8>, DecodeVecError>
    ensures answer { MatchResult result
        (λ v. message_of_stretch (stretch (masked sentinel source.now)) ≡ Ok v.items)
        (λ e. RefusesWhole e (message_of_stretch (stretch (masked sentinel source.now)))) }
    ensures frame { let p = stretch (masked sentinel source.now) in
        IfOk result (λ v. p ≢ [] → Frame p v.items) }
    ensures no_frame { IfErr result (λ e. (e ≡ OutOfMemory)
        ⊎ ((m : List ℕ) → Frame (stretch (masked sentinel source.now)) m → ⊥)) }
{
    decode_copied::<1>(alloc, before(source, sentinel), sentinel)
}
