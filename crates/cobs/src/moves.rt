//! Copying and moving bytes by vectors, each XORed with the sentinel.
//!
//! Of as many bytes as one to two vectors have, one vector takes the first and one the last.
ghost use Rattle.std.specs.Prelude.{◌≡◌, ◌≢◌, ℕ, ◌+◌, ◌<◌, ◌≤◌, length, take, drop, replicate, slice_index, true, false, ◌^◌};
ghost use Rattle.cobs.specs.Codes.{Copied, Fills, Marks, Positive};
ghost use Rattle.cobs.specs.Frames.{NoZero};
ghost use Rattle.cobs.specs.InPlace.{written_over};
ghost use Rattle.cobs.specs.Sentinel.{masked};

use std::simd::prelude::*;

// A call by the widest vectors of which so many bytes fill one: for fewer than 4 bytes something else, if that can be.
macro_rules! by_width {
    ($n:expr, $call:ident($($argument:expr),*) $(, $fewer:expr)?) => {
        if 16 <= $n {
            if 32 <= $n {
                $call::<32>($($argument),*)
            } else {
                $call::<16>($($argument),*)
            }
        } else if 8 <= $n {
            $call::<8>($($argument),*)
        } else $(if $n < 4 { $fewer } else)? {
            $call::<4>($($argument),*)
        }
    };
}

// XORs every byte with the sentinel. It isn't inlined: its vectors take registers that its callers would have to save.
#[inline(never)]
pub(crate) fn mask(bytes: &mut [u8], sentinel: u8)
    ensures { bytes.new ≡ masked sentinel bytes.old }
{
    for byte in bytes.iter_mut() {
        *byte = sentinel ^ *byte;
    }
}

// The bytes from a position on.
#[inline(always)]
fn load<const W: usize>(bytes: &[u8], at: usize) -> Simd<u8, W>
    requires { at + W ≤ length bytes.now }
    ensures { result ≡ take W (drop at bytes.now) }
{
    Simd::<u8, W>::from_slice(&bytes[at..])
}

// Writes them over a buffer, from a position on.
#[inline(always)]
fn store<const W: usize>(lanes: Simd<u8, W>, buffer: &mut [u8], at: usize, sentinel: u8)
    requires long { length lanes ≡ W }
    requires room { at + W ≤ length buffer.old }
    ensures { buffer.new ≡ written_over at (masked sentinel lanes.entry) buffer.old }
{
    (Simd::<u8, W>::splat(sentinel) ^ lanes).copy_to_slice(&mut buffer[at..]);
}

// Copies bytes over a buffer, from a position on: as many as one to two vectors have.
#[inline(always)]
fn copy_ends<const W: usize>(bytes: &[u8], buffer: &mut [u8], place: usize, sentinel: u8)
    requires ends { Fills W (length bytes.now) }
    requires room { place + length bytes.now ≤ length buffer.old }
    ensures { Copied place sentinel bytes.now buffer.old buffer.new }
{
    let behind = bytes.len() - W;
    let front = load::<W>(bytes, 0);
    let back = load::<W>(bytes, behind);
    store::<W>(front, buffer, place, sentinel);
    store::<W>(back, buffer, place + behind, sentinel);
}

/// Copies bytes over those of a buffer, from a position on, up to the first sentinel, each XORed with it, and returns
/// how many; all if there is none. It goes byte by byte, for a few.
///
/// # Requires
/// `place + bytes.len()` is at most the buffer's length, wherever the sentinel is.
#[inline(always)]
pub fn copy_until_sentinel(bytes: &[u8], buffer: &mut [u8], place: usize, sentinel: u8) -> usize
    requires room { place + length bytes.now ≤ length buffer.old }
    ensures within { result ≤ length bytes.now }
    ensures clear { NoZero (masked sentinel (take result bytes.now)) }
    ensures end { result < length bytes.now → slice_index bytes.now result ≡ sentinel }
    ensures copied { buffer.new ≡ written_over place (masked sentinel (take result bytes.now))
        buffer.old }
{
    for (end, byte) in bytes.iter().enumerate() {
        if *byte == sentinel {
            return end;
        }
        buffer[place + end] = sentinel ^ *byte;
    }
    bytes.len()
}

// Copies at most 64 bytes over a buffer, from a position on.
#[inline(always)]
pub(crate) fn copy_few(bytes: &[u8], buffer: &mut [u8], place: usize, sentinel: u8)
    requires few { length bytes.now ≤ 64 }
    requires room { place + length bytes.now ≤ length buffer.old }
    ensures { Copied place sentinel bytes.now buffer.old buffer.new }
{
    by_width!(
        bytes.len(),
        copy_ends(bytes, buffer, place, sentinel),
        for (i, byte) in bytes.iter().enumerate() {
            buffer[place + i] = sentinel ^ *byte;
        }
    )
}

// Puts a byte n times over a buffer, from a position on.
#[inline(always)]
pub(crate) fn row_over(buffer: &mut [u8], place: usize, n: usize, byte: u8)
    requires { place + n ≤ length buffer.old }
    ensures { buffer.new ≡ written_over place (replicate n byte) buffer.old }
{
    if n == 64 {
        store::<64>(u8x64::splat(byte), buffer, place, 0);
    } else {
        buffer[place..place + n].fill(byte);
    }
}

// Puts n zeros over a buffer, from a position on: the last 64 may begin among those before them.
#[inline(always)]
pub(crate) fn zero_over(buffer: &mut [u8], place: usize, n: usize)
    requires many { 64 ≤ n }
    requires room { place + n ≤ length buffer.old }
    ensures { buffer.new ≡ written_over place (replicate n 0) buffer.old }
{
    let mut at: usize = 0;
    while 64 < n - at {
        row_over(buffer, place + at, 64, 0);
        at += 64;
    }
    row_over(buffer, place + (n - 64), 64, 0);
}

/// Copies bytes over those of a buffer, from a position on, each XORed with a sentinel: for zero as they are.
///
/// # Requires
/// `place + bytes.len()` is at most the buffer's length.
///
/// # Example
/// ```rust
/// let mut buffer = [7; 4];
/// copy_over(&[10, 11], &mut buffer, 1, 10);
/// check(&rt, are_equal(&buffer, &[7, 0, 1, 7]));
/// ```
#[inline(always)]
pub fn copy_over(bytes: &[u8], buffer: &mut [u8], place: usize, sentinel: u8)
    requires room { place + length bytes.now ≤ length buffer.old }
    ensures { buffer.new ≡ written_over place (masked sentinel bytes.now) buffer.old }
{
    let mut at: usize = 0;
    while 64 < bytes.len() - at {
        let lanes = load::<64>(bytes, at);
        store::<64>(lanes, buffer, place + at, sentinel);
        at += 64;
    }
    copy_few(&bytes[at..], buffer, place + at, sentinel);
}

// The same of the bytes of a block: those of a full one take no loop.
#[inline(always)]
pub(crate) fn copy_block(bytes: &[u8], buffer: &mut [u8], place: usize, sentinel: u8)
    requires room { place + length bytes.now ≤ length buffer.old }
    ensures { Copied place sentinel bytes.now buffer.old buffer.new }
{
    if bytes.len() == 254 {
        copy_over(&bytes[..254], buffer, place, sentinel);
    } else {
        copy_over(bytes, buffer, place, sentinel);
    }
}

// The least bytes of four vectors, lane by lane: one by one, so that each is loaded where it is compared.
#[inline(always)]
fn least_of_four(a: u8x64, b: u8x64, c: u8x64, d: u8x64) -> u8x64
    requires { (length a ≡ 64) × (length b ≡ 64) × (length c ≡ 64) × (length d ≡ 64) }
    ensures long { length result ≡ 64 }
    ensures lanes { Positive 64 result
        → Positive 64 a × Positive 64 b × Positive 64 c × Positive 64 d }
{
    a.simd_min(b).simd_min(c).simd_min(d)
}

// The bytes from a position on, each XORed with the sentinel.
#[inline(always)]
pub(crate) fn load_masked<const W: usize>(bytes: &[u8], at: usize, sentinel: u8) -> Simd<u8, W>
    requires { at + W ≤ length bytes.now }
    ensures { result ≡ masked sentinel (take W (drop at bytes.now)) }
{
    Simd::<u8, W>::splat(sentinel) ^ load::<W>(bytes, at)
}

// Whether no lane is zero. The lesser of both halves are tested: a mask of 64 lanes takes more.
#[inline(always)]
pub(crate) fn is_positive(lanes: u8x64) -> bool
    requires { length lanes ≡ 64 }
    ensures { result ≡ true → Positive 64 lanes }
{
    let low = lanes.extract::<0, 32>();
    let high = lanes.extract::<32, 32>();
    low.simd_min(high).simd_eq(u8x32::splat(0)).to_bitmask() == 0
}

// Copies 64 bytes from a position on, and returns them as they were: what is loaded after a write is loaded again.
#[inline(always)]
pub(crate) fn copy_64(bytes: &[u8], at: usize, to: &mut [u8], place: usize, sentinel: u8) -> u8x64
    requires count { at + 64 ≤ length bytes.now }
    requires room { place + 64 ≤ length to.old }
    ensures copied { Copied place sentinel (take 64 (drop at bytes.now)) to.old to.new }
    ensures lanes { result ≡ take 64 (drop at bytes.now) }
{
    let lanes = load::<64>(bytes, at);
    store::<64>(lanes, to, place, sentinel);
    lanes
}

// Copies the bytes of a full block in the same way. Returns whether none of them is zero.
#[inline(always)]
pub(crate) fn copy_clear(bytes: &[u8], buffer: &mut [u8], place: usize, sentinel: u8) -> bool
    requires count { length bytes.now ≡ 254 }
    requires room { place + 254 ≤ length buffer.old }
    ensures copied { Copied place sentinel bytes.now buffer.old buffer.new }
    ensures clear { result ≡ true → Positive 254 bytes.now }
{
    let first = copy_64(bytes, 0, buffer, place, sentinel);
    let second = copy_64(bytes, 64, buffer, place + 64, sentinel);
    let third = copy_64(bytes, 128, buffer, place + 128, sentinel);
    let fourth = copy_64(bytes, 190, buffer, place + 190, sentinel);
    is_positive(least_of_four(first, second, third, fourth))
}

// Whether none of 255 bytes, a code and as many as a full block has, is the sentinel.
#[inline(always)]
pub(crate) fn is_clear_255(bytes: &[u8], sentinel: u8) -> bool
    requires { length bytes.now ≡ 255 }
    ensures { result ≡ true → Positive 255 (masked sentinel bytes.now) }
{
    let first = load_masked::<64>(bytes, 0, sentinel);
    let second = load_masked::<64>(bytes, 64, sentinel);
    let third = load_masked::<64>(bytes, 128, sentinel);
    let fourth = load_masked::<64>(bytes, 191, sentinel);
    is_positive(least_of_four(first, second, third, fourth))
}

// Whether 64 bytes are this one.
#[inline(always)]
pub(crate) fn are_all(byte: u8, bytes: &[u8]) -> bool
    requires { length bytes.now ≡ 64 }
    ensures { result ≡ true → (k : ℕ) → k < 64 → slice_index bytes.now k ≡ byte }
{
    let lanes = load::<64>(bytes, 0);
    lanes.simd_eq(u8x64::splat(byte)).to_bitmask() == u64::MAX
}

// The bits of the bytes from a position on that are the sentinel.
#[inline(always)]
fn zeros_at<const W: usize>(bytes: &[u8], at: usize, sentinel: u8) -> u64
    requires few { W ≤ 32 }
    requires within { at + W ≤ length bytes.now }
    ensures marks { Marks result 0 (masked sentinel (take W (drop at bytes.now))) }
    ensures bound { result < 2 ^ W }
{
    let lanes = load_masked::<W>(bytes, at, sentinel);
    lanes.simd_eq(Simd::<u8, W>::splat(0)).to_bitmask()
}

// The bits of the bytes that are the sentinel, of as many as one to two vectors have.
#[inline(always)]
pub(crate) fn zeros_of_ends<const W: usize>(bytes: &[u8], sentinel: u8) -> u64
    requires { Fills W (length bytes.now) }
    ensures { Marks result 0 (masked sentinel bytes.now) }
{
    let behind = bytes.len() - W;
    zeros_at::<W>(bytes, 0, sentinel) | zeros_at::<W>(bytes, behind, sentinel) << behind
}

// The same of 4 to 64 bytes.
#[inline(always)]
pub(crate) fn zeros_of_some(bytes: &[u8], sentinel: u8) -> u64
    requires some { 4 ≤ length bytes.now }
    requires few { length bytes.now ≤ 64 }
    ensures { Marks result 0 (masked sentinel bytes.now) }
{
    by_width!(bytes.len(), zeros_of_ends(bytes, sentinel))
}

// The same of 1 to 64 bytes.
#[inline(always)]
pub(crate) fn marks_of(bytes: &[u8], sentinel: u8) -> u64
    requires some { 0 < length bytes.now }
    requires few { length bytes.now ≤ 64 }
    ensures { Marks result 0 (masked sentinel bytes.now) }
{
    if 4 <= bytes.len() {
        zeros_of_some(bytes, sentinel)
    } else if 2 <= bytes.len() {
        zeros_of_ends::<2>(bytes, sentinel)
    } else {
        zeros_of_ends::<1>(bytes, sentinel)
    }
}

// Copies as many bytes as one to two vectors have if none is the sentinel, and returns the bits of those that are.
#[inline(always)]
fn copy_clear_ends<const W: usize>(bytes: &[u8], buffer: &mut [u8], at: usize, sentinel: u8) -> u64
    requires ends { Fills W (length bytes.now) }
    requires room { at + length bytes.now ≤ length buffer.old }
    ensures marks { Marks result 0 (masked sentinel bytes.now) }
    ensures copied { result ≡ 0 → Copied at sentinel bytes.now buffer.old buffer.new }
    ensures same { result ≢ 0 → buffer.new ≡ buffer.old }
{
    let marks = zeros_of_ends::<W>(bytes, sentinel);
    if marks == 0 {
        copy_ends::<W>(bytes, buffer, at, sentinel);
    }
    marks
}

// The same of 4 to 64 bytes.
#[inline(always)]
pub(crate) fn copy_clear_some(bytes: &[u8], buffer: &mut [u8], place: usize, sentinel: u8) -> u64
    requires some { 4 ≤ length bytes.now }
    requires few { length bytes.now ≤ 64 }
    requires room { place + length bytes.now ≤ length buffer.old }
    ensures marks { Marks result 0 (masked sentinel bytes.now) }
    ensures copied { result ≡ 0 → Copied place sentinel bytes.now buffer.old buffer.new }
    ensures same { result ≢ 0 → buffer.new ≡ buffer.old }
{
    by_width!(bytes.len(), copy_clear_ends(bytes, buffer, place, sentinel))
}

// Copies as many bytes as one to two vectors have, in the same way, and returns the bits of those that are zero.
#[inline(always)]
fn copy_marked_ends<const W: usize>(bytes: &[u8], buffer: &mut [u8], at: usize, sentinel: u8) -> u64
    requires ends { Fills W (length bytes.now) }
    requires room { at + length bytes.now ≤ length buffer.old }
    ensures marks { Marks result 0 (masked 0 bytes.now) }
    ensures copied { Copied at sentinel bytes.now buffer.old buffer.new }
{
    let marks = zeros_of_ends::<W>(bytes, 0);
    copy_ends::<W>(bytes, buffer, at, sentinel);
    marks
}

// The same of 1 to 64 bytes.
#[inline(always)]
pub(crate) fn copy_marked(bytes: &[u8], buffer: &mut [u8], place: usize, sentinel: u8) -> u64
    requires some { 0 < length bytes.now }
    requires few { length bytes.now ≤ 64 }
    requires room { place + length bytes.now ≤ length buffer.old }
    ensures marks { Marks result 0 (masked 0 bytes.now) }
    ensures copied { Copied place sentinel bytes.now buffer.old buffer.new }
{
    by_width!(
        bytes.len(),
        copy_marked_ends(bytes, buffer, place, sentinel),
        if 2 <= bytes.len() {
            copy_marked_ends::<2>(bytes, buffer, place, sentinel)
        } else {
            copy_marked_ends::<1>(bytes, buffer, place, sentinel)
        }
    )
}

// Moves n bytes towards the front, from one position to another: as many as one to two vectors have.
#[inline(always)]
fn move_ends<const W: usize>(buffer: &mut [u8], from: usize, n: usize, place: usize, sentinel: u8)
    requires ends { Fills W n }
    requires within { from + n ≤ length buffer.old }
    requires down { place ≤ from }
    ensures { Copied place sentinel (take n (drop from buffer.old)) buffer.old buffer.new }
{
    let behind = n - W;
    let front = load::<W>(buffer, from);
    let back = load::<W>(buffer, from + behind);
    store::<W>(front, buffer, place, sentinel);
    store::<W>(back, buffer, place + behind, sentinel);
}

// The same of fewer than 64.
#[inline(always)]
fn move_few(buffer: &mut [u8], from: usize, n: usize, place: usize, sentinel: u8)
    requires few { n < 64 }
    requires within { from + n ≤ length buffer.old }
    requires down { place ≤ from }
    ensures { Copied place sentinel (take n (drop from buffer.old)) buffer.old buffer.new }
{
    by_width!(
        n,
        move_ends(buffer, from, n, place, sentinel),
        for i in 0..n {
            buffer[place + i] = sentinel ^ buffer[from + i];
        }
    )
}

// The same of any number.
#[inline(always)]
pub(crate) fn move_down(buffer: &mut [u8], from: usize, n: usize, place: usize, sentinel: u8)
    requires within { from + n ≤ length buffer.old }
    requires down { place ≤ from }
    ensures { Copied place sentinel (take n (drop from buffer.old)) buffer.old buffer.new }
{
    let mut moved: usize = 0;
    while 64 <= n - moved {
        let lanes = load::<64>(buffer, from + moved);
        store::<64>(lanes, buffer, place + moved, sentinel);
        moved += 64;
    }
    move_few(buffer, from + moved, n - moved, place + moved, sentinel);
}
