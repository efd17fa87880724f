//! Decoding stretches in place.
ghost use Rattle.std.specs.Prelude.{◌≡◌, ℕ, ◌+◌, ◌<◌, ◌≤◌, List, [], ◌++◌, length, drop, true, OnErr, IfSome, IfNone};
ghost use Rattle.std.specs.Borrow.{sem, LendsBothIf, Array, u8};
ghost use Rattle.cobs.specs.InPlace.{stretch};
ghost use Rattle.cobs.specs.Sentinel.{masked};
ghost use Rattle.cobs.specs.Whole.{unpadded};
ghost use Rattle.postcard.specs.Frames.{Holds};
ghost use Rattle.link.specs.Finds.{AnswersEnded};
ghost use Rattle.link.specs.InPlace.{ReadsNext, IsEnd, IsNext, AnswersNext, KeptUnlessEnded};

use crate::judging::had_memory;
use crate::receiver::{Answer, NoMemory};
use cobs::before_sentinel;
use postcard::{Deserialize, from_bytes};
use std::alloc::Global;

// How many sentinels the bytes begin with.
fn leading_sentinels(bytes: &[u8], sentinel: u8) -> usize
    ensures rest { drop result (masked sentinel bytes.now) ≡ unpadded (masked sentinel bytes.now) }
    ensures within { result ≤ length bytes.now }
{
    let mut count = 0;
    while count < bytes.len() && bytes[count] == sentinel {
        count += 1;
    }
    count
}

// The result of the first stretch, which a sentinel ends. It is decoded over itself.
fn read_stretch<'a, T: Deserialize<&'a [u8]>>(
    alloc: Global,
    bytes: &'a mut [u8],
    sentinel: u8,
) -> Result<Answer<T>, NoMemory>
    requires { stretch (masked sentinel bytes.now) ≡ [] → ⊥ }
    ensures answer { AnswersEnded (Holds T.form.takes) T.form.reads
        (stretch (masked sentinel bytes.entry.now)) result }
    ensures memory { OnErr result (T.form.growing ≡ true) }
{
    cobs::laws::message_of_a_frame();
    cobs::laws::shorter();
    match cobs::decode_in_place_report_with_sentinel(bytes, sentinel) {
        Ok(report) => match from_bytes(alloc, &bytes[..report.frame_size()]) {
            Ok(value) => Ok(Answer::Value(value)),
            Err(error) => {
                had_memory(error)?;
                Ok(Answer::Damaged)
            }
        },
        Err(_) => Ok(Answer::Damaged),
    }
}

// How many bytes there are through the sentinel that ends the next stretch: one more than all if none ends it, 0 if there are only
// sentinels.
fn end_of_stretch(bytes: &[u8], sentinel: u8) -> usize
    ensures { IsEnd sentinel bytes.now result }
{
    let leading = leading_sentinels(bytes, sentinel);
    let (_, rest) = bytes.split_at(leading);
    if rest.is_empty() {
        return 0;
    }
    leading + before_sentinel(rest, sentinel) + 1
}

// The same, and the bytes again. This and `cut_behind` know no type, so the manual proof of what is lent is short, and what decodes
// can be tried by edits.
fn with_end(bytes: &mut [u8], sentinel: u8) -> (usize, &mut [u8])
    ensures end { IsEnd sentinel bytes.entry.now result.0 }
    ensures bytes { result.1.now ≡ bytes.entry.now }
    ensures same_reference { result.1.ghost_name ≡ bytes.entry.ghost_name }
{
    let end = end_of_stretch(bytes, sentinel);
    (end, bytes)
}

// The bytes through the end, and those after it; `None` if there are fewer, or the end is 0.
fn cut_behind(bytes: &mut [u8], end: usize) -> Option<(&mut [u8], &mut [u8])>
    ensures parts { (s : ℕ) → IsEnd s bytes.entry.now end → IsNext s end bytes.entry.now result }
    ensures* lent { sem 𝓛 (LendsBothIf (Array u8 0) (Array u8 0) (Array u8 0)
        bytes.entry result ◌++◌ bytes.entry.now) }
{
    if end == 0 {
        return None;
    }
    if bytes.len() < end {
        return None;
    }
    Some(bytes.split_at_mut(end))
}

// The result of the parts. Nothing is borrowed of an unfinished stretch, so its rest is a new empty slice.
fn read_next<'a, T: Deserialize<&'a [u8]>>(
    alloc: Global,
    parts: Option<(&'a mut [u8], &'a mut [u8])>,
    end: usize,
    sentinel: u8,
) -> Option<(Result<Answer<T>, NoMemory>, &'a mut [u8])>
    requires { (bytes : List ℕ) × IsNext sentinel end bytes parts }
    ensures { (bytes : List ℕ) → IsNext sentinel end bytes parts.entry
        → AnswersNext T.form.takes T.form.reads T.form.growing sentinel bytes result }
{
    match parts {
        None => {
            if end == 0 {
                return None;
            }
            Some((Ok(Answer::Cut), &mut []))
        }
        Some((front, after)) => {
            let leading = leading_sentinels(front, sentinel);
            let (_, ended) = front.split_at_mut(leading);
            Some((read_stretch(alloc, ended, sentinel), after))
        }
    }
}

/// The result of the next stretch, and the bytes after its zero; `None` if only zeros are left.
///
/// Leading zeros are skipped. A stretch that a zero ends is decoded over its own bytes, from which the value may borrow. It has no
/// limit, so it is never `TooLong`. One that no zero ends is `Cut`, and nothing is left after it; the bytes then stay unchanged, as
/// they do if the result is `None`.
///
/// # Errors
/// `NoMemory`, only for a frame whose value could not be allocated; the bytes after its zero are left then too.
///
/// # Allocates
/// What the value needs.
///
/// # Example
/// ```rust
/// match read_in_place::<bool>(alloc, bytes) {
///     Some((answer, rest)) => is_told(&answer, &wanted) && rest.len() == behind,
///     None => false,
/// }
/// ```
pub fn read_in_place<'a, T: Deserialize<&'a [u8]>>(
    alloc: Global,
    bytes: &'a mut [u8],
) -> Option<(Result<Answer<T>, NoMemory>, &'a mut [u8])>
    ensures some { IfSome result
        (λ p. ReadsNext T.form.takes T.form.reads (unpadded bytes.entry.now) p.0 p.1.now) }
    ensures none { IfNone result (unpadded bytes.entry.now ≡ []) }
    ensures memory { IfSome result (λ p. OnErr p.0 (T.form.growing ≡ true)) }
    ensures* unchanged { sem 𝓛 (KeptUnlessEnded bytes.entry result) }
{
    read_in_place_with_sentinel(alloc, bytes, 0)
}

/// As `read_in_place`, with this sentinel, with which the bytes of a stretch are XORed.
///
/// # Errors
/// As [`read_in_place`].
///
/// # Allocates
/// What the value needs.
pub fn read_in_place_with_sentinel<'a, T: Deserialize<&'a [u8]>>(
    alloc: Global,
    bytes: &'a mut [u8],
    sentinel: u8,
) -> Option<(Result<Answer<T>, NoMemory>, &'a mut [u8])>
    ensures answers { AnswersNext T.form.takes T.form.reads T.form.growing sentinel bytes.entry.now
        result }
    ensures* unchanged { sem 𝓛 (KeptUnlessEnded bytes.entry result) }
{
    let (end, bytes) = with_end(bytes, sentinel);
    let parts = cut_behind(bytes, end);
    read_next(alloc, parts, end, sentinel)
}
