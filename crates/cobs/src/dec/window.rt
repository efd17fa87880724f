//! The bytes of a window: searched, copied without their sentinel, and zeros put at the codes.
ghost use Rattle.std.specs.Prelude.{◌≡◌, ℕ, ◌+◌, ◌<◌, ◌≤◌, length, take, slice_index, true};
ghost use Rattle.cobs.specs.Frames.{part_from, after};
ghost use Rattle.cobs.specs.Feeding.{stands_by};
ghost use Rattle.cobs.specs.InPlace.{written_over};
ghost use Rattle.cobs.specs.Sentinel.{masked, ComeBefore};

use super::state::DecoderState;
use crate::codes::lowest;
use crate::finding::before_few;
use crate::moves::{
    are_all, copy_64, copy_clear_some, copy_few, copy_over, is_positive, load_masked,
};

// How many bytes are copied at once: what follows the code of a full block among them is of that block.
pub(crate) const WINDOW: usize = 254;
// How many bytes of a chunk are looked at at once: a fill of more goes byte by byte in the processor.
pub(crate) const ROW: usize = 1024;
// How many bytes are searched and copied at once: of fewer each is fed by itself, and of a chunk of up to twice as many.
pub(crate) const FEW: usize = 4;

// Copies bytes up to a sentinel, each XORed with it, into a buffer, from a position on: at most 64, which are searched first.
// Returns how many.
#[inline(always)]
fn copy_few_until(bytes: &[u8], buffer: &mut [u8], place: usize, sentinel: u8) -> usize
    requires few { length bytes.now ≤ 64 }
    requires room { place + length bytes.now ≤ length buffer.old }
    ensures stops { ComeBefore sentinel bytes.now result }
    ensures buffer { buffer.new
        ≡ written_over place (take result (masked sentinel bytes.now)) buffer.old }
{
    let n = before_few(bytes, sentinel);
    copy_few(&bytes[..n], buffer, place, sentinel);
    n
}

// The same of any number, searched as they are copied: 64 seldom have a sentinel.
#[inline(always)]
pub(crate) fn copy_until(bytes: &[u8], buffer: &mut [u8], place: usize, sentinel: u8) -> usize
    requires { place + length bytes.now ≤ length buffer.old }
    ensures stops { ComeBefore sentinel bytes.now result }
    ensures buffer { buffer.new
        ≡ written_over place (take result (masked sentinel bytes.now)) buffer.old }
{
    let mut at: usize = 0;
    while 64 <= bytes.len() - at {
        if is_positive(load_masked::<64>(bytes, at, sentinel)) {
            copy_64(bytes, at, buffer, place + at, sentinel);
            at += 64;
            continue;
        }
        let n = copy_few_until(&bytes[at..at + 64], buffer, place + at, sentinel);
        if n < 64 {
            return at + n;
        }
        at += 64;
    }
    at + copy_few_until(&bytes[at..], buffer, place + at, sentinel)
}

// The same of a frame, also of at most 64 bytes, which are then looked at together, and copied meanwhile if none is the
// sentinel: for one frame, since it is longer. Each caller has a copy of its own by its number.
#[inline(always)]
pub(crate) fn copy_frame_until<const CALL: usize, const SHORT: bool>(
    bytes: &[u8],
    buffer: &mut [u8],
    place: usize,
    sentinel: u8,
) -> usize
    requires few { SHORT ≡ true → length bytes.now ≤ 64 }
    requires room { place + length bytes.now ≤ length buffer.old }
    ensures stops { ComeBefore sentinel bytes.now result }
    ensures buffer { buffer.new
        ≡ written_over place (take result (masked sentinel bytes.now)) buffer.old }
{
    if !SHORT {
        return copy_until(bytes, buffer, place, sentinel);
    }
    if bytes.len() < 4 {
        return copy_few_until(bytes, buffer, place, sentinel);
    }
    let marks = copy_clear_some(bytes, buffer, place, sentinel);
    if marks == 0 {
        return bytes.len();
    }
    let n = lowest(marks).0;
    copy_few(&bytes[..n], buffer, place, sentinel);
    n
}

// How many bytes at the start are this one, in steps of 64.
#[inline(always)]
pub(crate) fn same_by_64(byte: u8, bytes: &[u8]) -> usize
    ensures within { result ≤ length bytes.now }
    ensures same { (k : ℕ) → k < result → slice_index bytes.now k ≡ byte }
    ensures many { 0 < result → 64 ≤ result }
{
    let mut end = 0;
    while 64 <= bytes.len() - end && are_all(byte, &bytes[end..end + 64]) {
        end += 64;
    }
    end
}

// Puts a zero for each code of bytes of a frame, where so many are left of a block. Returns the position of their last block.
#[inline(always)]
pub(crate) fn put_zeros(out: &mut [u8], left: u8) -> DecoderState
    requires short { length out.old ≤ 254 }
    requires nonzero { (k : ℕ) → k < length out.old → 0 < slice_index out.old k }
    ensures out { out.new ≡ part_from left true out.old }
    ensures state { result ≡ stands_by (after left true out.old) }
{
    let end = out.len();
    let mut at = left as usize;
    let mut code = 0;
    while at < end {
        code = out[at];
        out[at] = 0;
        at += code as usize;
    }
    // The block of a code 255 goes on after the window, so that this code is the last one.
    if code == u8::MAX {
        return DecoderState::GrabChain((at - end) as u8);
    }
    DecoderState::Grab((at - end) as u8)
}
