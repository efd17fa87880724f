//! The position of the first sentinel: by 255 bytes as long as they have none, by 64, by a mask of the last ones, by a
//! loop under 4. Up to 64 bytes are searched where the call is. `memchr` takes nearly twice as many instructions.
ghost use Rattle.std.specs.Prelude.{◌≡◌, ◌≢◌, ℕ, ◌<◌, ◌≤◌, length, slice_index};
ghost use Rattle.cobs.specs.InPlace.{stretch};
ghost use Rattle.cobs.specs.Sentinel.{masked, ComeBefore};

use crate::codes::lowest;
use crate::moves::{is_clear_255, is_positive, load_masked, zeros_of_some};

// How many of at most 64 bytes come before the first sentinel.
#[inline(always)]
pub(crate) fn before_few(bytes: &[u8], sentinel: u8) -> usize
    requires { length bytes.now ≤ 64 }
    ensures { ComeBefore sentinel bytes.now result }
{
    if bytes.len() < 4 {
        for (end, byte) in bytes.iter().enumerate() {
            if *byte == sentinel {
                return end;
            }
        }
        return bytes.len();
    }
    let marks = zeros_of_some(bytes, sentinel);
    if marks == 0 {
        return bytes.len();
    }
    lowest(marks).0
}

// The same in steps of 64, which seldom have one.
#[inline(always)]
pub(crate) fn before_by_64(bytes: &[u8], sentinel: u8) -> usize
    ensures { ComeBefore sentinel bytes.now result }
{
    let mut at = 0;
    while 64 <= bytes.len() - at {
        if is_positive(load_masked::<64>(bytes, at, sentinel)) {
            at += 64;
            continue;
        }
        let n = before_few(&bytes[at..at + 64], sentinel);
        if n < 64 {
            return at + n;
        }
        at += 64;
    }
    at + before_few(&bytes[at..], sentinel)
}

// The same in steps of 255 as long as they have none.
#[inline(always)]
fn before_by_255(bytes: &[u8], sentinel: u8) -> usize
    ensures { ComeBefore sentinel bytes.now result }
{
    let mut at = 0;
    while 255 <= bytes.len() - at && is_clear_255(&bytes[at..at + 255], sentinel) {
        at += 255;
    }
    at + before_by_64(&bytes[at..], sentinel)
}

// The same, compiled once for zero, with which nothing is XORed, and once for any sentinel.
#[inline(never)]
fn before_far(bytes: &[u8], sentinel: u8) -> usize
    ensures { ComeBefore sentinel bytes.now result }
{
    if sentinel == 0 {
        before_by_255(bytes, 0)
    } else {
        before_by_255(bytes, sentinel)
    }
}

/// Returns how many bytes come before the first sentinel; all if there is none.
///
/// # Example
/// ```rust
/// check(&rt, before_sentinel(&[3, 10, 11, 0, 12], 0) == 3);
/// ```
#[inline(always)]
pub fn before_sentinel(bytes: &[u8], sentinel: u8) -> usize
    ensures before { result ≡ length (stretch (masked sentinel bytes.now)) }
    ensures within { result ≤ length bytes.now }
    ensures none { (k : ℕ) → k < result → slice_index bytes.now k ≢ sentinel }
    ensures end { result < length bytes.now → slice_index bytes.now result ≡ sentinel }
{
    if bytes.len() <= 64 {
        before_few(bytes, sentinel)
    } else {
        before_far(bytes, sentinel)
    }
}
