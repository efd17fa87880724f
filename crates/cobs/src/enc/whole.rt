//! Encoding a whole message.
ghost use Rattle.std.specs.Prelude.{◌≡◌, ◌+◌, ◌<◌, ◌≤◌, ◌↔◌, length, take, IsTrue, IfOk, OnOk, OnErr};
ghost use Rattle.cobs.specs.Frames.{NoZero, shortest_frame, most_length};
ghost use Rattle.cobs.specs.Sentinel.{between_zeros, frame_for};

use super::DestBufTooSmallError;
use crate::codes::{Place, put_all};
use crate::max_encoding_length;
use crate::moves::is_clear_255;
use memchr::memrchr;
use std::alloc::{AllocError, Global};

/// Encodes a message into `dest`, and returns the length of its shortest frame.
///
/// The bytes of `dest` after the frame aren't specified.
///
/// # Requires
/// `dest` has at least `encoded_length(source)` bytes; `max_encoding_length(source.len())` always suffices
/// (`laws::lengths`).
///
/// # Example
/// With `MESSAGE` as `[10, 11, 0, 12]`, whose frame is `[3, 10, 11, 2, 12]`:
/// ```rust
/// let mut room = [0u8; 8];
/// check(&rt, cobs::encode(&MESSAGE, &mut room) == 5);
/// ```
pub fn encode(source: &[u8], dest: &mut [u8]) -> usize
    requires { length (shortest_frame source.now) ≤ length dest.old }
    ensures length { result ≡ length (shortest_frame source.now) }
    ensures frame { take result dest.new ≡ shortest_frame source.now }
{
    encode_with_sentinel(source, dest, 0)
}

/// Encodes a message between two zeros, and returns the length with both.
///
/// The bytes of `dest` after them aren't specified.
///
/// # Requires
/// `dest` has at least `encoded_length(source) + 2` bytes.
pub fn encode_including_sentinels(source: &[u8], dest: &mut [u8]) -> usize
    requires { length (shortest_frame source.now) + 2 ≤ length dest.old }
    ensures length { result ≡ length (shortest_frame source.now) + 2 }
    ensures frame { take result dest.new ≡ between_zeros (shortest_frame source.now) }
{
    dest[0] = 0;
    let n = encode(source, &mut dest[1..]);
    dest[n + 1] = 0;
    n + 2
}

/// Encodes as [`encode`], with every byte of the frame XORed with `sentinel`, and returns the frame's length.
///
/// No byte of the frame is the sentinel.
///
/// # Requires
/// `dest` has at least `encoded_length(source)` bytes.
#[inline(always)]
pub fn encode_with_sentinel(source: &[u8], dest: &mut [u8], sentinel: u8) -> usize
    requires { length (shortest_frame source.now) ≤ length dest.old }
    ensures length { result ≡ length (shortest_frame source.now) }
    ensures frame { take result dest.new ≡ frame_for sentinel source.now }
{
    dest[0] = sentinel ^ 1;
    let end = put_all::<1>(dest, Place { code_at: 0, len: 1 }, source, sentinel);
    end.len
}

/// Returns the length of the shortest frame of `source`: exactly what [`encode`] needs.
///
/// It is at least n + 1 for a message of n bytes, and at most `max_encoding_length(n)`, which a message without zeros
/// has.
///
/// # Example
/// ```rust
/// check(&rt, encoded_length(&[10, 11, 0, 12]) == 5);
/// ```
#[inline(always)]
#[tactic(auto, using(crate::proofs::LengthsLemmas::frame_at_least, crate::proofs::LengthsLemmas::frame_at_most, crate::proofs::LengthsLemmas::frame_reaches))]
pub fn encoded_length(source: &[u8]) -> usize
    ensures frame { result ≡ length (shortest_frame source.now) }
    ensures at_least { length source.now + 1 ≤ result }
    ensures at_most { result ≤ most_length (length source.now) }
    ensures without_zero { NoZero source.now → result ≡ most_length (length source.now) }
{
    // One code suffices for up to 254 bytes.
    let one_block = source.len() + 1;
    if one_block <= 255 {
        return one_block;
    }
    length_of_blocks(source)
}

// The same, of a source of any length.
#[inline(never)]
fn length_of_blocks(source: &[u8]) -> usize
    ensures { result ≡ length (shortest_frame source.now) }
{
    let mut full_runs: usize = 0;
    let mut rest = source;
    // A byte after 254 nonzero ones costs another code. Every other code except the first replaces a zero.
    while rest.len() > 254 {
        let (run, behind) = rest.split_at(254);
        // A full run is recognised at once.
        if is_clear_255(&rest[..255], 0) {
            full_runs += 1;
            rest = behind;
            continue;
        }
        rest = match memrchr(0, run) {
            Some(zero) => &rest[zero + 1..],
            None => {
                full_runs += 1;
                behind
            }
        };
    }
    source.len() + 1 + full_runs
}

// Whether the frame of `source` fits `room` bytes. Its length is counted only if its bounds don't decide that.
#[tactic(auto, using(crate::proofs::LengthsLemmas::frame_at_least, crate::proofs::LengthsLemmas::frame_at_most))]
fn fits(source: &[u8], room: usize) -> bool
    ensures { IsTrue result ↔ (length (shortest_frame source.now) ≤ room) }
{
    let n = source.len();
    // One more byte suffices for up to 254.
    n < room && (n <= 254 || max_encoding_length(n) <= room || encoded_length(source) <= room)
}

/// Encodes a message into `dest`, and returns the length of its shortest frame.
///
/// # Errors
/// `DestBufTooSmallError` exactly if the frame doesn't fit; `dest` is unchanged.
///
/// # Example
/// With `MESSAGE` as `[10, 11, 0, 12]`:
/// ```rust
/// let tried = cobs::try_encode(&MESSAGE, &mut room);
/// check(&rt, matches!(&tried, Ok(5)));
/// ```
pub fn try_encode(source: &[u8], dest: &mut [u8]) -> Result<usize, DestBufTooSmallError>
    ensures fits { OnOk result (length (shortest_frame source.now) ≤ length dest.old) }
    ensures length { IfOk result (λ n. n ≡ length (shortest_frame source.now)) }
    ensures frame { IfOk result (λ n. take n dest.new ≡ shortest_frame source.now) }
    ensures too_small { OnErr result (length dest.old < length (shortest_frame source.now)) }
    ensures unchanged { OnErr result (dest.new ≡ dest.old) }
{
    if !fits(source, dest.len()) {
        return Err(DestBufTooSmallError);
    }
    Ok(encode(source, dest))
}

/// Encodes a message between two zeros, and returns the length with both.
///
/// # Errors
/// `DestBufTooSmallError` exactly if the frame and its two zeros don't fit; `dest` is unchanged.
pub fn try_encode_including_sentinels(
    source: &[u8],
    dest: &mut [u8],
) -> Result<usize, DestBufTooSmallError>
    ensures fits { OnOk result (length (shortest_frame source.now) + 2 ≤ length dest.old) }
    ensures length { IfOk result (λ n. n ≡ length (shortest_frame source.now) + 2) }
    ensures frame { IfOk result (λ n. take n dest.new ≡ between_zeros (shortest_frame source.now)) }
    ensures too_small { OnErr result (length dest.old < length (shortest_frame source.now) + 2) }
    ensures unchanged { OnErr result (dest.new ≡ dest.old) }
{
    if dest.len() < 2 || !fits(source, dest.len() - 2) {
        return Err(DestBufTooSmallError);
    }
    Ok(encode_including_sentinels(source, dest))
}

/// Returns the shortest frame of `source` in a new vector.
///
/// # Errors
/// `AllocError` when out of memory.
///
/// # Allocates
/// `max_encoding_length(source.len())` bytes, once: the frame's length for up to 254 bytes, and at most a byte more for
/// each 254. So the source is read once.
///
/// # Example
/// With `MESSAGE` as `[10, 11, 0, 12]`:
/// ```rust
/// let plain = cobs::encode_vec(alloc, &MESSAGE);
/// wants.bytes(plain, AllocError, &[3, 10, 11, 2, 12]);
/// ```
pub fn encode_vec(alloc: Global, source: &[u8]) -> Result<Vec<u8>, AllocError>
    ensures { IfOk result (λ frame. frame.items ≡ shortest_frame source.now) }
{
    encode_vec_with_sentinel(alloc, source, 0)
}

/// Returns the shortest frame of `source` between two zeros, in a new vector.
///
/// # Errors
/// `AllocError` when out of memory.
///
/// # Allocates
/// `max_encoding_length(source.len())` and two bytes, once.
pub fn encode_vec_including_sentinels(alloc: Global, source: &[u8]) -> Result<Vec<u8>, AllocError>
    ensures { IfOk result (λ frame. frame.items ≡ between_zeros (shortest_frame source.now)) }
{
    let mut frame = vec![in alloc; 0; max_encoding_length(source.len()) + 2]?;
    let length = encode_including_sentinels(source, frame.as_mut_slice());
    frame.truncate(length);
    Ok(frame)
}

/// Returns the shortest frame of `source` in a new vector, every byte XORed with `sentinel`.
///
/// # Errors
/// `AllocError` when out of memory.
///
/// # Allocates
/// As [`encode_vec`].
pub fn encode_vec_with_sentinel(
    alloc: Global,
    source: &[u8],
    sentinel: u8,
) -> Result<Vec<u8>, AllocError>
    ensures { IfOk result (λ frame. frame.items ≡ frame_for sentinel source.now) }
{
    let mut frame = vec![in alloc; 0; max_encoding_length(source.len())]?;
    let length = encode_with_sentinel(source, frame.as_mut_slice(), sentinel);
    frame.truncate(length);
    Ok(frame)
}
