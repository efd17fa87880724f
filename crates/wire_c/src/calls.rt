//! The exports.
ghost use Rattle.std.specs.Prelude.{◌≡◌, ◌≢◌, ◌<◌, ◌≤◌, ◌⊎◌, ℕ, List, length, take, true, false};
ghost use Rattle.wire_c.specs.Flags.{is_set};
ghost use Rattle.wire_c.specs.Streams.{ReadsStream, IsDoneWith};
ghost use Rattle.wire_c.specs.Texts.{IsWhyWrong, RefusesLines, WritesFrames};
ghost use Rattle.wire_c.specs.Status.{done, no_room, refused, wrong};

use crate::answers::{WireSaid, failed, said};
use crate::reading::read;
use crate::status::DONE;
use crate::terms::{Told, WireTerms};
use crate::writing::write;
use std::alloc::Global;

/// Puts a line of JSON for each answer to a stream in front of the room, and returns how long the lines are and how many bytes of the
/// stream are done with. C passes nothing for `alloc`.
///
/// # Errors
/// - No room: the lines have `length` bytes. Nothing changes; call it again with as much room.
/// - Wrong: the declarations or the type can't be taken. Lines in front of the room say why.
/// - No memory.
#[unsafe(no_mangle)]
pub extern "C" fn wire_c_read(
    alloc: Global,
    declarations: &[u8],
    type_words: &[u8],
    terms: &WireTerms,
    stream: &[u8],
    room: &mut [u8],
) -> WireSaid
    ensures lines { result.status ≡ done
        → ReadsStream terms.now stream.now (take result.length room.new) }
    ensures used { result.status ≡ done → is_set terms.now.ends ≡ false
        → IsDoneWith (is_set terms.now.inside) terms.now.sentinel stream.now result.used
        (is_set result.inside) }
    ensures all { result.status ≡ done → is_set terms.now.ends ≡ true
        → (result.used ≡ length stream.now) × (is_set result.inside ≡ false) }
    ensures wrong { result.status ≡ wrong
        → IsWhyWrong declarations.now type_words.now (take result.length room.new) }
    ensures unrefused { result.status ≢ refused }
    ensures length { result.status ≡ no_room
        → (text : List ℕ) × (length text ≡ result.length) × (ReadsStream terms.now stream.now text
        ⊎ IsWhyWrong declarations.now type_words.now text) }
    ensures longer { result.status ≡ no_room → length room.old < result.length }
    ensures within { result.status ≢ no_room → result.length ≤ length room.new }
    ensures too_short { result.status ≡ no_room → room.new ≡ room.old }
    ensures failed { result.status ≢ done
        → (result.used ≡ 0) × (is_set result.inside ≡ false) }
    ensures range { result.status ≤ 4 }
{
    let told = Told {
        alloc,
        declarations,
        type_words,
        terms: *terms,
    };
    match read(told, stream) {
        Ok(it) => said(&it.text, DONE, it.used, it.is_inside, room),
        Err(failure) => failed(failure, room),
    }
}

/// Puts the frames of lines of JSON in front of the room, each with the sentinel that ends it, and returns how long they are. C passes
/// nothing for `alloc`.
///
/// # Errors
/// - No room: the frames have `length` bytes. Nothing changes; call it again with as much room.
/// - Wrong: the declarations or the type can't be taken. Lines in front of the room say why.
/// - Refused: some lines aren't of the type. Lines in front of the room say why, and none is written.
/// - No memory.
#[unsafe(no_mangle)]
pub extern "C" fn wire_c_write(
    alloc: Global,
    declarations: &[u8],
    type_words: &[u8],
    terms: &WireTerms,
    lines: &[u8],
    room: &mut [u8],
) -> WireSaid
    ensures frames { result.status ≡ done
        → WritesFrames terms.now lines.now (take result.length room.new) }
    ensures refused { result.status ≡ refused
        → RefusesLines terms.now lines.now (take result.length room.new) }
    ensures wrong { result.status ≡ wrong
        → IsWhyWrong declarations.now type_words.now (take result.length room.new) }
    ensures length { result.status ≡ no_room
        → (text : List ℕ) × (length text ≡ result.length) × (WritesFrames terms.now lines.now text
        ⊎ (RefusesLines terms.now lines.now text
        ⊎ IsWhyWrong declarations.now type_words.now text)) }
    ensures longer { result.status ≡ no_room → length room.old < result.length }
    ensures within { result.status ≢ no_room → result.length ≤ length room.new }
    ensures too_short { result.status ≡ no_room → room.new ≡ room.old }
    ensures used { (result.used ≡ 0) × (is_set result.inside ≡ false) }
    ensures range { result.status ≤ 4 }
{
    let told = Told {
        alloc,
        declarations,
        type_words,
        terms: *terms,
    };
    match write(told, lines) {
        Ok(frames) => said(&frames, DONE, 0, false, room),
        Err(failure) => failed(failure, room),
    }
}
