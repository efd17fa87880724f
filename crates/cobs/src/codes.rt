//! Chunks of a message are appended to a frame, block by block, each zero as a code.
//!
//! Fewer than 8 bytes into the open block go by a loop; others by 64, and those that are left by vectors of 32 to 1
//! bytes, the last overlapping. Reloading written bytes costs double, so the copy shows whether there is a zero. Zeros
//! are found by masks, and 64 zeros are filled at once. Bytes are written XORed with the sentinel.
//!
//! If the bytes don't fit, the position has length 0, which no frame has: an `Option` would go through memory.
ghost use Rattle.std.specs.Prelude.{◌≡◌, ◌≢◌, ℕ, ◌+◌, ◌<◌, ◌≤◌, [], length, take, drop, slice_index, true};
ghost use Rattle.std.specs.Int.{bit_at};
ghost use Rattle.cobs.specs.Codes.{InBlock, FewInBlock, Coded, Marks, CodedThere, PutThere};
ghost use Rattle.cobs.specs.Held.{pushed, Laid, FitsBlock, GoesOnFromBlock, GoesOnIn, WentOnIn, HoldsFrame};
ghost use Rattle.cobs.specs.Sentinel.{masked};

use crate::moves::{
    copy_64, copy_clear, copy_marked, is_positive, marks_of, row_over, zeros_of_ends,
};

// The positions of the last block's code and of the frame's end.
#[derive(Clone, Copy)]
pub(crate) struct Place {
    pub(crate) code_at: usize,
    pub(crate) len: usize,
}

// The lowest bit that is set, and the others.
#[inline(always)]
pub(crate) fn lowest(bits: u64) -> (usize, u64)
    requires { bits ≢ 0 }
    ensures bound { result.0 < 64 }
    ensures set { bit_at bits result.0 ≡ 1 }
    ensures below { (k : ℕ) → k < result.0 → bit_at bits k ≡ 0 }
    ensures smaller { result.1 < bits }
    ensures others { (k : ℕ) → result.0 < k → k < 64 → bit_at result.1 k ≡ bit_at bits k }
    ensures no_more { (k : ℕ) → bit_at result.1 k ≡ 1 → (bit_at bits k ≡ 1) × (result.0 < k) }
{
    let n = bits.trailing_zeros() as usize;
    (n, bits & (bits - 1))
}

// Writes a code at each zero of at most 64 bytes that are in the open block, from a position on, by the marks of
// their zeros. Returns the position of the last code.
#[inline(always)]
fn put_codes_marked(dest: &mut [u8], at: Place, n: usize, marks: u64, sentinel: u8) -> usize
    requires block { FewInBlock dest.old at.code_at at.len n }
    requires marks { Marks marks 0 (masked sentinel (take n (drop at.len dest.old))) }
    ensures { CodedThere sentinel dest.old at n dest.new result }
{
    let mut code = at.code_at;
    let mut zeros = marks;
    while zeros != 0 {
        let (n, others) = lowest(zeros);
        let here = at.len + n;
        dest[code] = sentinel ^ (here - code) as u8;
        code = here;
        zeros = others;
    }
    code
}

// The same of bytes that are all zero.
#[inline(always)]
fn put_codes_of_zeros(dest: &mut [u8], at: Place, n: usize, sentinel: u8) -> usize
    requires block { FewInBlock dest.old at.code_at at.len n }
    requires zeros { (k : ℕ) → k < n
        → slice_index (masked sentinel (take n (drop at.len dest.old))) k ≡ 0 }
    ensures { CodedThere sentinel dest.old at n dest.new result }
{
    dest[at.code_at] = sentinel ^ (at.len - at.code_at) as u8;
    row_over(dest, at.len, n, sentinel ^ 1);
    at.len + n - 1
}

// Writes a code at each zero of n bytes that are in the buffer, for the sentinel zero, and returns the position of the
// last code. Of fewer than 64 each zero gets its code: filling them takes a call.
#[inline(always)]
pub(crate) fn put_codes_standing(dest: &mut [u8], code_at: usize, from: usize, n: usize) -> usize
    requires { FewInBlock dest.old code_at from n }
    ensures { Coded dest.old code_at from (take n (drop from dest.old)) dest.new result }
{
    let at = Place { code_at, len: from };
    let marks = marks_of(&dest[from..from + n], 0);
    if n == 64 && marks == u64::MAX {
        return put_codes_of_zeros(dest, at, n, 0);
    }
    put_codes_marked(dest, at, n, marks, 0)
}

// Copies at most 64 bytes into the open block and writes a code at each of their zeros. Returns the position of the
// last code; if all are zero they are filled at once. The copy for 0 first looks whether 64 bytes have none; otherwise
// zeros are likely, and are marked at once. Each caller has a copy of its own by its number.
#[inline(always)]
fn put_some<const WAY: usize, const CALL: usize>(
    dest: &mut [u8],
    at: Place,
    bytes: &[u8],
    sentinel: u8,
) -> usize
    requires block { InBlock dest.old at.code_at at.len bytes.now }
    requires few { length bytes.now ≤ 64 }
    ensures { PutThere sentinel dest.old at bytes.now dest.new result }
{
    let n = bytes.len();
    let marks = if WAY == 0 && n == 64 {
        if is_positive(copy_64(bytes, 0, dest, at.len, sentinel)) {
            return at.code_at;
        }
        zeros_of_ends::<32>(bytes, 0)
    } else {
        copy_marked(bytes, dest, at.len, sentinel)
    };
    if marks != 0 && n <= marks.trailing_ones() as usize {
        return put_codes_of_zeros(dest, at, n, sentinel);
    }
    put_codes_marked(dest, at, n, marks, sentinel)
}

// The same of any bytes.
#[inline(always)]
fn put_bytes<const WAY: usize>(dest: &mut [u8], at: Place, bytes: &[u8], sentinel: u8) -> usize
    requires block { InBlock dest.old at.code_at at.len bytes.now }
    ensures { PutThere sentinel dest.old at bytes.now dest.new result }
{
    let mut place = at;
    let mut rest = bytes;
    while 64 < rest.len() {
        let (front, after) = rest.split_at(64);
        place.code_at = put_some::<WAY, 0>(dest, place, front, sentinel);
        place.len += 64;
        rest = after;
    }
    put_some::<WAY, 1>(dest, place, rest, sentinel)
}

// Copies a chunk into the open block, which has space for it, and writes a code at each of its zeros. Whatever is
// written is XORed with the sentinel, so contracts speak of the buffer without that: masked once more. The number
// says how 64 bytes are copied: 0 if few zeros are likely. Each caller has a copy of its own by its number.
#[inline(always)]
fn put_run<const WAY: usize>(dest: &mut [u8], at: Place, piece: &[u8], sentinel: u8) -> Place
    requires { FitsBlock dest.old sentinel at.code_at at.len piece.now }
    ensures holds { GoesOnIn sentinel dest.old at.code_at at.len piece.now dest.new result }
{
    let n = piece.len();
    // Bytes of a full block are inspected as they are copied, unless a zero is first.
    let code_at = if n == 254 && piece[0] != 0 && copy_clear(piece, dest, at.len, sentinel) {
        at.code_at
    } else {
        put_bytes::<WAY>(dest, at, piece, sentinel)
    };
    let end = at.len + n;
    dest[code_at] = sentinel ^ (end - code_at) as u8;
    Place { code_at, len: end }
}

// The same in one pass: for a few bytes a call that copies a slice costs more than they do.
#[inline(always)]
fn put_few(dest: &mut [u8], at: Place, piece: &[u8], sentinel: u8) -> Place
    requires { FitsBlock dest.old sentinel at.code_at at.len piece.now }
    ensures holds { GoesOnIn sentinel dest.old at.code_at at.len piece.now dest.new result }
{
    let mut code_at = at.code_at;
    let mut here = at.len;
    for byte in piece {
        if *byte == 0 {
            dest[code_at] = sentinel ^ (here - code_at) as u8;
            code_at = here;
        } else {
            dest[here] = sentinel ^ *byte;
        }
        here += 1;
    }
    dest[code_at] = sentinel ^ (here - code_at) as u8;
    Place { code_at, len: here }
}

// The same for a first chunk, which opens the frame: compiled by itself, since its positions are known.
#[inline(never)]
fn put_first(piece: &[u8], dest: &mut [u8], sentinel: u8) -> Place
    requires { FitsBlock dest.old sentinel 0 1 piece.now }
    ensures holds { GoesOnIn sentinel dest.old 0 1 piece.now dest.new result }
{
    put_run::<0>(dest, Place { code_at: 0, len: 1 }, piece, sentinel)
}

// Returns the open block; after a full one a new block is opened. A full block is closed only here, by the byte after
// it, so that the buffer always begins with the shortest frame.
#[inline(always)]
fn open_block(dest: &mut [u8], at: Place, sentinel: u8) -> Place
    requires holds { HoldsFrame (masked sentinel dest.old) at.code_at at.len }
    requires room { at.len < length dest.old }
    ensures laid { Laid (masked sentinel dest.new) result.code_at result.len }
    ensures goes_on { GoesOnFromBlock (masked sentinel dest.new) result.code_at result.len
        (pushed (masked sentinel dest.old) at.len) }
    ensures open { result.len < result.code_at + 255 }
{
    if at.len == at.code_at + 255 {
        dest[at.len] = sentinel ^ 1;
        return Place {
            code_at: at.len,
            len: at.len + 1,
        };
    }
    at
}

// Appends bytes to the frame, block by block, and returns its new end: length 0 if they don't all fit. It is compiled
// once for each number: one copy is for the sentinel zero, which XORs nothing.
#[inline(never)]
fn put_blocks<const WAY: usize>(dest: &mut [u8], at: Place, bytes: &[u8], sentinel: u8) -> Place
    requires { HoldsFrame (masked sentinel dest.old) at.code_at at.len }
    ensures { WentOnIn sentinel dest.old at.len bytes.now dest.new result }
{
    let mut place = at;
    let mut rest = bytes;
    while !rest.is_empty() {
        if dest.len() - place.len < rest.len() {
            return Place { code_at: 0, len: 0 };
        }
        let open = open_block(dest, place, sentinel);
        if dest.len() - open.len < rest.len() {
            return Place { code_at: 0, len: 0 };
        }
        let n = rest.len().min(open.code_at + 255 - open.len);
        place = put_run::<WAY>(dest, open, &rest[..n], sentinel);
        rest = &rest[n..];
    }
    place
}

// Appends bytes to the frame, and returns its new end: length 0 if they don't all fit. A few bytes into the open
// block need no call, and a first chunk of one block a short one. Each caller has a copy of its own by its number.
#[inline(always)]
pub(crate) fn put_all<const CALL: usize>(
    dest: &mut [u8],
    at: Place,
    bytes: &[u8],
    sentinel: u8,
) -> Place
    requires { HoldsFrame (masked sentinel dest.old) at.code_at at.len }
    ensures went_on { WentOnIn sentinel dest.old at.len bytes.now dest.new result }
    ensures nothing { bytes.now ≡ [] → dest.new ≡ dest.old }
{
    if bytes.is_empty() {
        return at;
    }
    if bytes.len() < 8 {
        let end = at.len + bytes.len();
        if end <= dest.len() && end <= at.code_at + 255 {
            return put_few(dest, at, bytes, sentinel);
        }
    }
    if at.len == 1 && bytes.len() <= 254 && bytes.len() < dest.len() {
        return put_first(bytes, dest, sentinel);
    }
    if sentinel == 0 {
        return put_blocks::<1>(dest, at, bytes, 0);
    }
    put_blocks::<2>(dest, at, bytes, sentinel)
}
