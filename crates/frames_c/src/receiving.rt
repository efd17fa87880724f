//! Receiving frames from a stream that comes in chunks, into the caller's buffer.
ghost use Rattle.std.specs.Prelude.{◌≡◌, ◌≢◌, ℕ, ◌+◌, ◌<◌, ◌≤◌, List, [], ◌∷◌, ◌++◌, length, take};
ghost use Rattle.link.specs.Stream.{begun};
ghost use Rattle.link.specs.Pushes.{begun_length};
ghost use Rattle.frames.specs.Standing.{is_cut, StandsBehind};
ghost use Rattle.frames.specs.Events.{AnswersPlain, AnswersCounted};
ghost use Rattle.frames_c.specs.Status.{message, misused, more};
ghost use Rattle.frames_c.specs.Answers.{push_by, push_told};

use crate::answers::{FramesEvent, pushed, told};
use crate::status::MORE;
use frames::FrameReceiver;
use std::alloc::Global;

/// A receiver that has received nothing, of frames that end with this byte and whose bytes are each XORed with it.
#[unsafe(no_mangle)]
pub extern "C" fn frames_c_receiver(sentinel: u8) -> FrameReceiver
    ensures { (buffer : List ℕ) → StandsBehind (length buffer) sentinel result buffer [] }
{
    FrameReceiver::new(sentinel)
}

/// Takes bytes of the chunk up to the first event, of counted messages, and returns it with how many bytes were used.
///
/// An event is at the sentinel that ends a stretch, or at the byte past the buffer's length; if there is none, all bytes are used. It
/// is of the whole stretch, also if earlier pushes took its beginning. A message is in the buffer until the next push. Pass the same
/// buffer to each call, and leave its front as it is between two calls.
///
/// # Errors
/// Misused exactly if more bytes are begun than the buffer has. Nothing changes.
///
/// # Allocates
/// Nothing: C passes nothing for `alloc`, which has no bytes, and no allocator is linked.
#[unsafe(no_mangle)]
pub extern "C" fn frames_c_push(
    alloc: Global,
    receiver: &mut FrameReceiver,
    buffer: &mut [u8],
    bytes: &[u8],
) -> FramesEvent
    ensures within { result.used ≤ length bytes.now }
    ensures stands { (limit s : ℕ) (stream : List ℕ)
        → StandsBehind limit s receiver.old buffer.old stream
        → StandsBehind limit s receiver.new buffer.new (stream ++ take result.used bytes.now) }
    ensures answers { (limit s : ℕ) (stream : List ℕ)
        → StandsBehind limit s receiver.old buffer.old stream
        → AnswersCounted limit s stream bytes.now buffer.new (push_by result) }
    ensures message { result.start + result.length ≤ length buffer.new }
    ensures length { result.kind ≢ message → (result.start ≡ 0) × (result.length ≡ 0) }
    ensures kind { result.kind ≤ misused }
    ensures forward { result.kind ≢ misused → 0 < length bytes.now → 0 < result.used }
    ensures can_stand { receiver.old.count ≤ length buffer.old → result.kind ≢ misused }
    ensures misused { length buffer.old < receiver.old.count → (result.kind ≡ misused)
        × (result.used ≡ 0) × (result.stretch ≡ 0)
        × (receiver.new ≡ receiver.old) × (buffer.new ≡ buffer.old) }
    ensures sentinel { receiver.new.sentinel ≡ receiver.old.sentinel }
{
    pushed(receiver.push(alloc, buffer, bytes))
}

/// Takes bytes of the chunk up to the first event, of plain messages, and returns it with how many bytes were used.
///
/// It is as for `frames_c_push`, but a message is in front of the buffer.
///
/// # Errors
/// Misused exactly if more bytes are begun than the buffer has. Nothing changes.
#[unsafe(no_mangle)]
pub extern "C" fn frames_c_push_plain(
    receiver: &mut FrameReceiver,
    buffer: &mut [u8],
    bytes: &[u8],
) -> FramesEvent
    ensures within { result.used ≤ length bytes.now }
    ensures stands { (limit s : ℕ) (stream : List ℕ)
        → StandsBehind limit s receiver.old buffer.old stream
        → StandsBehind limit s receiver.new buffer.new (stream ++ take result.used bytes.now) }
    ensures answers { (limit s : ℕ) (stream : List ℕ)
        → StandsBehind limit s receiver.old buffer.old stream
        → AnswersPlain limit s stream bytes.now buffer.new (push_by result) }
    ensures front { result.start ≡ 0 }
    ensures message { result.length ≤ length buffer.new }
    ensures length { result.kind ≢ message → result.length ≡ 0 }
    ensures kind { result.kind ≤ misused }
    ensures forward { result.kind ≢ misused → 0 < length bytes.now → 0 < result.used }
    ensures can_stand { receiver.old.count ≤ length buffer.old → result.kind ≢ misused }
    ensures misused { length buffer.old < receiver.old.count → (result.kind ≡ misused)
        × (result.used ≡ 0) × (result.stretch ≡ 0)
        × (receiver.new ≡ receiver.old) × (buffer.new ≡ buffer.old) }
    ensures sentinel { receiver.new.sentinel ≡ receiver.old.sentinel }
{
    pushed(receiver.push_plain(buffer, bytes))
}

// The long way of a byte, which may bring something about.
#[inline(never)]
fn take_byte(
    alloc: Global,
    receiver: &mut FrameReceiver,
    buffer: &mut [u8],
    byte: u8,
    event: &mut FramesEvent,
) -> u8
    ensures stands { (limit s : ℕ) (stream : List ℕ)
        → StandsBehind limit s receiver.old buffer.old stream
        → StandsBehind limit s receiver.new buffer.new (stream ++ (byte ∷ [])) }
    ensures answers { (limit s : ℕ) (stream : List ℕ)
        → StandsBehind limit s receiver.old buffer.old stream
        → AnswersCounted limit s stream (byte ∷ []) buffer.new (push_told result event.new) }
    ensures kind { result < misused → result ≢ more → event.new.kind ≡ result }
    ensures message { result < misused → result ≢ more
        → event.new.start + event.new.length ≤ length buffer.new }
    ensures length { result < misused → result ≢ more → result ≢ message
        → (event.new.start ≡ 0) × (event.new.length ≡ 0) }
    ensures more { result ≡ more → event.new ≡ event.old }
    ensures can_stand { receiver.old.count ≤ length buffer.old → result < misused }
    ensures misused { length buffer.old < receiver.old.count → (result ≡ misused)
        × (receiver.new ≡ receiver.old) × (buffer.new ≡ buffer.old) × (event.new ≡ event.old) }
    ensures sentinel { receiver.new.sentinel ≡ receiver.old.sentinel }
{
    told(receiver.push_byte(alloc, buffer, byte), event)
}

/// Takes one byte, as `frames_c_push` of it alone does, for an interrupt handler. Returns the kind of event, and writes the event unless
/// that is `MORE`, so the bytes between two events cost no store.
///
/// # Errors
/// Misused exactly if more bytes are begun than the buffer has. Nothing changes.
///
/// # Allocates
/// Nothing, as `frames_c_push`.
#[unsafe(no_mangle)]
pub extern "C" fn frames_c_push_byte(
    alloc: Global,
    receiver: &mut FrameReceiver,
    buffer: &mut [u8],
    byte: u8,
    event: &mut FramesEvent,
) -> u8
    ensures stands { (limit s : ℕ) (stream : List ℕ)
        → StandsBehind limit s receiver.old buffer.old stream
        → StandsBehind limit s receiver.new buffer.new (stream ++ (byte ∷ [])) }
    ensures answers { (limit s : ℕ) (stream : List ℕ)
        → StandsBehind limit s receiver.old buffer.old stream
        → AnswersCounted limit s stream (byte ∷ []) buffer.new (push_told result event.new) }
    ensures kind { result < misused → result ≢ more → event.new.kind ≡ result }
    ensures message { result < misused → result ≢ more
        → event.new.start + event.new.length ≤ length buffer.new }
    ensures length { result < misused → result ≢ more → result ≢ message
        → (event.new.start ≡ 0) × (event.new.length ≡ 0) }
    ensures more { result ≡ more → event.new ≡ event.old }
    ensures can_stand { receiver.old.count ≤ length buffer.old → result < misused }
    ensures misused { length buffer.old < receiver.old.count → (result ≡ misused)
        × (receiver.new ≡ receiver.old) × (buffer.new ≡ buffer.old) × (event.new ≡ event.old) }
    ensures sentinel { receiver.new.sentinel ≡ receiver.old.sentinel }
{
    if receiver.stores(buffer, byte) {
        return MORE;
    }
    take_byte(alloc, receiver, buffer, byte, event)
}

// The long way of a byte, which may bring something about.
#[inline(never)]
fn take_byte_plain(
    receiver: &mut FrameReceiver,
    buffer: &mut [u8],
    byte: u8,
    event: &mut FramesEvent,
) -> u8
    ensures stands { (limit s : ℕ) (stream : List ℕ)
        → StandsBehind limit s receiver.old buffer.old stream
        → StandsBehind limit s receiver.new buffer.new (stream ++ (byte ∷ [])) }
    ensures answers { (limit s : ℕ) (stream : List ℕ)
        → StandsBehind limit s receiver.old buffer.old stream
        → AnswersPlain limit s stream (byte ∷ []) buffer.new (push_told result event.new) }
    ensures kind { result < misused → result ≢ more → event.new.kind ≡ result }
    ensures message { result < misused → result ≢ more
        → event.new.start + event.new.length ≤ length buffer.new }
    ensures length { result < misused → result ≢ more → result ≢ message
        → (event.new.start ≡ 0) × (event.new.length ≡ 0) }
    ensures front { result < misused → result ≢ more → event.new.start ≡ 0 }
    ensures more { result ≡ more → event.new ≡ event.old }
    ensures can_stand { receiver.old.count ≤ length buffer.old → result < misused }
    ensures misused { length buffer.old < receiver.old.count → (result ≡ misused)
        × (receiver.new ≡ receiver.old) × (buffer.new ≡ buffer.old) × (event.new ≡ event.old) }
    ensures sentinel { receiver.new.sentinel ≡ receiver.old.sentinel }
{
    told(receiver.push_byte_plain(buffer, byte), event)
}

/// Takes one byte, as `frames_c_push_plain` of it alone does, and returns and writes what `frames_c_push_byte` does.
///
/// # Errors
/// Misused exactly if more bytes are begun than the buffer has. Nothing changes.
#[unsafe(no_mangle)]
pub extern "C" fn frames_c_push_byte_plain(
    receiver: &mut FrameReceiver,
    buffer: &mut [u8],
    byte: u8,
    event: &mut FramesEvent,
) -> u8
    ensures stands { (limit s : ℕ) (stream : List ℕ)
        → StandsBehind limit s receiver.old buffer.old stream
        → StandsBehind limit s receiver.new buffer.new (stream ++ (byte ∷ [])) }
    ensures answers { (limit s : ℕ) (stream : List ℕ)
        → StandsBehind limit s receiver.old buffer.old stream
        → AnswersPlain limit s stream (byte ∷ []) buffer.new (push_told result event.new) }
    ensures kind { result < misused → result ≢ more → event.new.kind ≡ result }
    ensures message { result < misused → result ≢ more
        → event.new.start + event.new.length ≤ length buffer.new }
    ensures length { result < misused → result ≢ more → result ≢ message
        → (event.new.start ≡ 0) × (event.new.length ≡ 0) }
    ensures front { result < misused → result ≢ more → event.new.start ≡ 0 }
    ensures more { result ≡ more → event.new ≡ event.old }
    ensures can_stand { receiver.old.count ≤ length buffer.old → result < misused }
    ensures misused { length buffer.old < receiver.old.count → (result ≡ misused)
        × (receiver.new ≡ receiver.old) × (buffer.new ≡ buffer.old) × (event.new ≡ event.old) }
    ensures sentinel { receiver.new.sentinel ≡ receiver.old.sentinel }
{
    if receiver.stores(buffer, byte) {
        return MORE;
    }
    take_byte_plain(receiver, buffer, byte, event)
}

/// Ends the stream, and returns whether it was truncated: a stretch had begun without an event.
///
/// Afterwards the receiver is a new one, over any buffer, also after a misuse, and whatever its numbers were.
#[unsafe(no_mangle)]
pub extern "C" fn frames_c_finish(receiver: &mut FrameReceiver) -> bool
    ensures cut { (limit s : ℕ) (buffer stream : List ℕ)
        → StandsBehind limit s receiver.old buffer stream
        → result ≡ is_cut (begun limit s stream) }
    ensures anew { (buffer : List ℕ)
        → StandsBehind (length buffer) receiver.old.sentinel receiver.new buffer [] }
    ensures sentinel { receiver.new.sentinel ≡ receiver.old.sentinel }
{
    receiver.finish()
}

/// How many bytes the begun stretch has so far; 0 if none has begun, or it is too long.
#[unsafe(no_mangle)]
pub extern "C" fn frames_c_begun(receiver: &FrameReceiver) -> usize
    ensures begun { (limit s : ℕ) (buffer stream : List ℕ)
        → StandsBehind limit s receiver.now buffer stream
        → result ≡ begun_length (begun limit s stream) }
    ensures count { result ≡ receiver.now.count }
{
    receiver.begun_bytes()
}
