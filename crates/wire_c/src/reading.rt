//! A stream of frames as lines of JSON, chunk by chunk.
ghost use Rattle.std.specs.Prelude.{◌≡◌, ◌≤◌, true, false, length, IfOk, IfErr};
ghost use Rattle.wire_c.specs.Flags.{is_set};
ghost use Rattle.wire_c.specs.Streams.{skipped_in, IsThroughLast, IsDoneWith, TellsStream, ReadsStream};
ghost use Rattle.wire_c.specs.Texts.{IsOfDeclarations, IsUnrefused};

use crate::terms::{Told, WireTerms, is_flag};
use crate::types::{TypeAt, WireFailure, read_type_of};
use cobs::before_sentinel;
use std::alloc::AllocError;
use wire_lib::receive::{LIMIT, LinesOfFrames, Reading};

/// What a call made of a stream.
///
/// Example: see [`read`].
#[derive(Drop)]
pub struct ReadLines {
    /// The lines, one for each answer.
    pub text: Vec<u8>,
    /// How many bytes are done with. Pass the others again, before the next ones.
    pub used: usize,
    /// Whether the next bytes begin inside a stretch that was reported as too long.
    pub is_inside: bool,
}

// How many bytes in front are of a stretch that was reported as too long: those through its sentinel, or all.
fn skipped(is_inside: bool, sentinel: u8, stream: &[u8]) -> usize
    ensures is { result ≡ skipped_in is_inside sentinel stream.now }
    ensures within { result ≤ length stream.now }
{
    if !is_inside {
        return 0;
    }
    let before = before_sentinel(stream, sentinel);
    if before < stream.len() {
        before + 1
    } else {
        before
    }
}

// How many bytes come through the last sentinel.
fn through_last(stream: &[u8], sentinel: u8) -> usize
    ensures { IsThroughLast sentinel stream.now result }
{
    let mut at = stream.len();
    while at > 0 {
        if stream[at - 1] == sentinel {
            return at;
        }
        at -= 1;
    }
    0
}

// How many bytes of a stream are done with, and whether it ends inside a stretch that was reported as too long.
fn done_with(is_inside: bool, sentinel: u8, stream: &[u8]) -> (usize, bool)
    ensures { IsDoneWith is_inside sentinel stream.now result.0 result.1 }
{
    let end = through_last(stream, sentinel);
    if is_inside && end == 0 {
        return (stream.len(), true);
    }
    if stream.len() - end > LIMIT {
        return (stream.len(), true);
    }
    (end, false)
}

// The lines of a stream behind so many bytes that are passed over, and of its end, if it ends.
fn lines_of(
    reading: Reading<'_>,
    passed: u64,
    ends: bool,
    stream: &[u8],
) -> Result<Vec<u8>, AllocError>
    ensures { IfOk result (λ lines. TellsStream reading.entry passed ends stream.now lines.items) }
{
    let mut lines = Vec::new(reading.alloc);
    let mut receiver = LinesOfFrames::new(reading, passed)?;
    receiver.push(stream, &mut lines)?;
    if ends {
        receiver.finish(&mut lines)?;
    }
    Ok(lines)
}

/// Returns a line of JSON for each answer to a stream, as `wire read` prints them, and how many of its bytes are done with.
///
/// Call it with each chunk behind the bytes that the call before left over. Places in a line are counted from the first byte of this
/// stream. With `ends` all bytes are used, and an unfinished stretch is reported as cut. A stretch of more than 65536 bytes is too
/// long, a value that nests in more than 60 nodes too deep, and a list of more than 65536 elements that have no bytes is damaged.
///
/// # Errors
/// - `Wrong`: the declarations or the type can't be taken.
/// - `OutOfMemory`.
///
/// # Allocates
/// The table of the types, a buffer for one frame, and the lines. All but the lines is freed.
///
/// # Example
/// ```rust
/// match read(told, stream) {
///     Ok(
///         ReadLines {
///             text,
///             used,
///             is_inside,
///         },
///     ) => are_equal(&text, lines) && used == done && is_inside == inside,
///     Err(_) => false,
/// }
/// ```
pub fn read(told: Told<'_>, stream: &[u8]) -> Result<ReadLines, WireFailure>
    ensures lines { IfOk result (λ it. ReadsStream told.entry.terms stream.now it.text.items) }
    ensures used { IfOk result (λ it. is_set told.entry.terms.ends ≡ false
        → IsDoneWith (is_set told.entry.terms.inside) told.entry.terms.sentinel stream.now
        it.used it.is_inside) }
    ensures all { IfOk result (λ it. is_set told.entry.terms.ends ≡ true
        → (it.used ≡ length stream.now) × (it.is_inside ≡ false)) }
    ensures unrefused { IfErr result IsUnrefused }
    ensures wrong { IfErr result
        (IsOfDeclarations told.entry.declarations.now told.entry.type_words.now) }
{
    let WireTerms {
        sentinel,
        strict,
        crc32,
        hex,
        inside,
        ends,
    } = told.terms;
    let TypeAt {
        schema,
        place,
        depth,
    } = match read_type_of(told) {
        Ok(it) => it,
        Err(failure) => return Err(failure),
    };
    let reading = Reading {
        alloc: told.alloc,
        schema: &schema,
        place,
        hex: is_flag(hex),
        strict: is_flag(strict),
        depth,
        sentinel,
        summed: is_flag(crc32),
    };
    let is_inside = is_flag(inside);
    let passed = skipped(is_inside, sentinel, stream);
    let Ok(text) = lines_of(reading, passed as u64, is_flag(ends), stream) else {
        return Err(WireFailure::OutOfMemory);
    };
    let (used, is_inside) = if is_flag(ends) {
        (stream.len(), false)
    } else {
        done_with(is_inside, sentinel, stream)
    };
    Ok(ReadLines {
        text,
        used,
        is_inside,
    })
}
