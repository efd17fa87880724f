//! Lines of JSON as frames.
ghost use Rattle.std.specs.Prelude.{◌≡◌, string_bytes, IfOk, IfErr};
ghost use Rattle.wire_c.specs.Texts.{IsOfDeclarations, IsOfLines, MakesFrames, WritesFrames};

use crate::terms::{Told, is_flag};
use crate::types::{TypeAt, WireFailure, written_type};
use std::alloc::AllocError;
use wire_lib::send::{FramesOfLines, Sending};

/// What was made of lines.
#[derive(Drop)]
struct Made {
    frames: Vec<u8>,
    wrongs: String,
    is_good: bool,
}

// The frames of a text's lines, and what is said of lines that aren't of the type.
fn made_of(sending: Sending<'_>, lines: &[u8]) -> Result<Made, AllocError>
    ensures { IfOk result (λ it. MakesFrames sending.entry lines.now it.frames.items
        (string_bytes it.wrongs) it.is_good) }
{
    let mut frames = Vec::new(sending.alloc);
    let mut wrongs = String::new(sending.alloc);
    let mut sender = FramesOfLines::new(sending);
    sender.push(lines, &mut frames, &mut wrongs)?;
    let is_good = sender.finish(&mut frames, &mut wrongs)?;
    Ok(Made {
        frames,
        wrongs,
        is_good,
    })
}

/// Returns the frame of each line of JSON, with the sentinel that ends it, as `wire write` writes them after its first sentinel.
///
/// Of the terms `sentinel` and `crc32` count. A frame has at most 65536 bytes, a value nests in at most 60 nodes, and a list whose
/// elements have no bytes has at most 65536 of them.
///
/// # Errors
/// - `Wrong`: the declarations or the type can't be taken.
/// - `Refused`: some lines aren't of the type, or exceed these limits; no line is written then.
/// - `OutOfMemory`.
///
/// # Allocates
/// The table of the types, a value at a time, and the frames. All but the frames is freed.
///
/// # Example
/// ```rust
/// let told = Told {
///     alloc: rt.alloc(),
///     declarations: DECLARATIONS,
///     type_words: b"Reading",
///     terms: WireTerms {
///         sentinel: 0,
///         strict: 0,
///         crc32: 0,
///         hex: 0,
///         inside: 0,
///         ends: 0,
///     },
/// };
/// check(&rt, is_written_as(told, LINE, FRAME));
/// ```
/// What is refused:
/// ```rust
/// match write(told, line) {
///     Err(WireFailure::Refused(why)) => !by_type && why.as_str().starts_with(begin),
///     Err(WireFailure::Wrong(why)) => by_type && why.as_str().starts_with(begin),
///     _ => false,
/// }
/// ```
pub fn write(told: Told<'_>, lines: &[u8]) -> Result<Vec<u8>, WireFailure>
    ensures frames { IfOk result (λ frames. WritesFrames told.entry.terms lines.now frames.items) }
    ensures refused { IfErr result (IsOfLines told.entry.terms lines.now) }
    ensures wrong { IfErr result
        (IsOfDeclarations told.entry.declarations.now told.entry.type_words.now) }
{
    let TypeAt {
        schema,
        place,
        depth,
    } = match written_type(told) {
        Ok(it) => it,
        Err(failure) => return Err(failure),
    };
    let sending = Sending {
        alloc: told.alloc,
        schema: &schema,
        place,
        depth,
        sentinel: told.terms.sentinel,
        summed: is_flag(told.terms.crc32),
    };
    let Ok(
        Made {
            frames,
            wrongs,
            is_good,
        },
    ) = made_of(sending, lines)
    else {
        return Err(WireFailure::OutOfMemory);
    };
    if is_good {
        Ok(frames)
    } else {
        Err(WireFailure::Refused(wrongs))
    }
}
