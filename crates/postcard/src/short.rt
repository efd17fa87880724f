//! Values that are short: encoded in a buffer of the call's own, or framed in place.
ghost use Rattle.std.specs.Prelude.{◌≡◌, ◌+◌, ◌<◌, ◌≤◌, [], ◌++◌, ◌∷◌, Ok, IfOk, IfErr, IfSome, IsSome, IsNone, length, take, drop};
ghost use Rattle.cobs.specs.Frames.{longest_frame};
ghost use Rattle.cobs.specs.Sentinel.{masked};
ghost use Rattle.postcard_tree.specs.declared.error.Error.TheVariants.{OutOfMemory};
ghost use Rattle.postcard.specs.Written.{WrittenWhole, UnlessRefused};

use cobs::encode_in_place;
use postcard_ser::ser_flavors::{IndexByte, Slice};
use postcard_ser::{Serialize, Serializer};
use postcard_tree::{Error, Result};
use std::alloc::Global;

// How many bytes a value, or its frame with what ends it, takes at most to be made in a buffer of the call's own.
pub(crate) const SHORT: usize = 256;

// Writes the frame of a value and the sentinel to the start of a buffer, and returns where they end. `None` if the value takes
// more than 253 bytes, the buffer is too short, or the value refuses itself; which of them isn't stated.
//
// The value is encoded after the buffer's first byte, and its frame made in place, which costs less than to frame each byte as
// it comes. Of so few bytes the longest frame is the shortest.
pub(crate) fn frame_short<T: Serialize>(v: &T, room: &mut [u8], sentinel: u8) -> Option<usize>
    ensures framed { IfSome result (λ end. WrittenWhole (T.form.writes v.now) (λ bytes.
        take end room.new ≡ masked sentinel (longest_frame bytes) ++ sentinel ∷ [])) }
    ensures length { IfSome result (λ end. UnlessRefused (T.form.writes v.now) (λ bytes.
        end ≡ length (longest_frame bytes) + 1)) }
    ensures within { IfSome result (λ end. end ≤ length room.new) }
    ensures valid { IsSome result → T.form.valid v.now }
{
    match spell_behind(v, room) {
        Some(n) => {
            let end = encode_in_place(room, n, sentinel);
            room[end] = sentinel;
            Some(end + 1)
        }
        None => None,
    }
}

// Encodes a value after a buffer's first byte, if it takes at most 253 bytes and one is left after them. Why it isn't encoded
// isn't stated.
fn spell_behind<T: Serialize>(v: &T, room: &mut [u8]) -> Option<usize>
    ensures spelled { IfSome result (λ n. WrittenWhole (T.form.writes v.now)
        (λ bytes. take n (drop 1 room.new) ≡ bytes)) }
    ensures few { IfSome result (λ n. n ≤ 253) }
    ensures room { IfSome result (λ n. n + 1 < length room.new) }
    ensures valid { IsSome result → T.form.valid v.now }
{
    if room.len() < 2 {
        return None;
    }
    let end = (room.len() - 1).min(254);
    spell_into(v, &mut room[1..end])
}

/// Writes a value to the start of a buffer, and returns how many bytes it takes. Doesn't allocate.
///
/// `None` exactly if the buffer is shorter than the value's encoding, or the value refuses itself. The buffer may hold anything
/// then, and after the value.
///
/// # Example
/// ```rust
/// pub fn fits_into<T: Serialize>(value: &T, buffer: &mut [u8]) -> bool {
///     spell_into(value, buffer).is_some()
/// }
/// ```
pub fn spell_into<T: Serialize>(v: &T, room: &mut [u8]) -> Option<usize>
    ensures spelled { IfSome result (λ n. WrittenWhole (T.form.writes v.now)
        (λ bytes. take n room.new ≡ bytes)) }
    ensures within { IfSome result (λ n. n ≤ length room.new) }
    ensures none { IsNone result → UnlessRefused (T.form.writes v.now)
        (λ bytes. length room.old < length bytes) }
    ensures valid { IsSome result → T.form.valid v.now }
{
    let (_, spelled) = spell_and_return(v, room);
    spelled
}

// Does the same, and returns the buffer, so its lender knows what it holds.
fn spell_and_return<'a, T: Serialize>(v: &T, room: &'a mut [u8]) -> (&'a mut [u8], Option<usize>)
    ensures same_reference { result.0.ghost_name ≡ room.entry.ghost_name }
    ensures spelled { IfSome result.1 (λ n. WrittenWhole (T.form.writes v.now)
        (λ bytes. take n result.0.now ≡ bytes)) }
    ensures within { IfSome result.1 (λ n. n ≤ length result.0.now) }
    ensures none { IsNone result.1 → UnlessRefused (T.form.writes v.now)
        (λ bytes. length room.entry.now < length bytes) }
    ensures valid { IsSome result.1 → T.form.valid v.now }
{
    let mut spelling = Slice::new(room);
    let mut serializer = Serializer {
        output: &mut spelling,
    };
    let written = v.serialize(&mut serializer);
    let n = spelling.held();
    let room = spelling.into_inner();
    match written {
        Ok(()) => (room, Some(n)),
        Err(_) => (room, None),
    }
}

// Returns these bytes in a new vector that has no space beyond them.
pub(crate) fn in_vec(alloc: Global, bytes: &[u8]) -> Result<Vec<u8>>
    ensures ok { IfOk result (λ vec. vec.items ≡ bytes.now) }
    ensures err { IfErr result (λ e. e ≡ OutOfMemory) }
{
    let Ok(mut vec) = Vec::with_capacity(alloc, bytes.len()) else {
        return Err(Error::OutOfMemory);
    };
    match vec.extend_from_slice(bytes) {
        Ok(()) => Ok(vec),
        Err(_) => Err(Error::OutOfMemory),
    }
}
