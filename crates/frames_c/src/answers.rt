//! Results by numbers.
ghost use Rattle.std.specs.Prelude.{◌≡◌, ◌≢◌, ◌+◌, ◌<◌, ◌≤◌, ℕ, None, IfOk, OnOk, OnErr};
ghost use Rattle.frames.specs.Events.{IsInFront, IsInRoom};
ghost use Rattle.frames_c.specs.Status.{message, misused, more};
ghost use Rattle.frames_c.specs.Answers.{IsRefusedBy, IsReport, IsLength, IsWritten, IsUnsealed, IsPushed, event_by, push_told};

use crate::status::{DAMAGED, DONE, EMPTY, INVALID, MESSAGE, MISUSED, MORE, NO_ROOM, TOO_LONG};
use cobs::{DecodeError, DecodeReport, DestBufTooSmallError};
use frames::{FrameEvent, FramePush, WrongBuffer};

/// The result of a call that writes: how many bytes it wrote, and its status.
#[repr(C)]
#[derive(Clone, Copy)]
pub struct FramesWritten {
    /// How many bytes were written, or precede a sum. After an error 0; but if a decoding is invalid, how many bytes of a message the
    /// bytes determine.
    pub length: usize,
    /// 0: done. 1: no room. 2: invalid, not a frame or not the sum.
    pub status: u8,
}

/// The result of a decoding: how many bytes of its source were used, the message's length, and its status.
#[repr(C)]
#[derive(Clone, Copy)]
pub struct FramesRead {
    /// How many bytes of the source were used; 0 after an error.
    pub used: usize,
    /// The message's length. After an error 0; but if it is invalid, how many bytes of a message the bytes determine.
    pub length: usize,
    /// 0: done. 1: no room. 2: invalid, not a frame. 3: empty, no byte could be of a frame.
    pub status: u8,
}

/// The result of a push.
#[repr(C)]
#[derive(Clone, Copy)]
pub struct FramesEvent {
    /// How many bytes of the chunk were used: all of them if there is no event, none after a misuse. Push the rest next.
    pub used: usize,
    /// How many bytes of the event's stretch come before the last byte that was used; 0 if there is no event.
    pub stretch: usize,
    /// Where in the buffer the message begins; 0 without a message.
    pub start: usize,
    /// How many bytes it has; 0 without a message.
    pub length: usize,
    /// 0: no event yet. 1: a message. 2: damaged. 3: too long. 4: misused, more bytes are begun than the buffer has.
    pub kind: u8,
}

// What was written.
pub(crate) fn written(outcome: Result<usize, DestBufTooSmallError>) -> FramesWritten
    ensures { IsWritten outcome result }
{
    match outcome {
        Ok(length) => FramesWritten {
            length,
            status: DONE,
        },
        Err(_) => FramesWritten {
            length: 0,
            status: NO_ROOM,
        },
    }
}

// What precedes a sum.
pub(crate) fn unsealed(outcome: Option<usize>) -> FramesWritten
    ensures { IsUnsealed outcome result }
{
    match outcome {
        Some(length) => FramesWritten {
            length,
            status: DONE,
        },
        None => FramesWritten {
            length: 0,
            status: INVALID,
        },
    }
}

// A decoding's error.
fn refused(error: DecodeError) -> FramesRead
    ensures told { IsRefusedBy error result.status result.length }
    ensures used { result.used ≡ 0 }
{
    match error {
        DecodeError::EmptyFrame => FramesRead {
            used: 0,
            length: 0,
            status: EMPTY,
        },
        DecodeError::InvalidFrame { decoded_bytes } => FramesRead {
            used: 0,
            length: decoded_bytes,
            status: INVALID,
        },
        DecodeError::TargetBufTooSmall => FramesRead {
            used: 0,
            length: 0,
            status: NO_ROOM,
        },
    }
}

// What was decoded.
pub(crate) fn read(outcome: Result<DecodeReport, DecodeError>) -> FramesRead
    ensures { IsReport outcome result.status result.used result.length }
{
    match outcome {
        Ok(report) => FramesRead {
            used: report.parsed_size(),
            length: report.frame_size(),
            status: DONE,
        },
        Err(error) => refused(error),
    }
}

// The same, by the message's length alone.
pub(crate) fn measured(outcome: Result<usize, DecodeError>) -> FramesWritten
    ensures { IsLength outcome result.status result.length }
{
    match outcome {
        Ok(length) => FramesWritten {
            length,
            status: DONE,
        },
        Err(error) => {
            let FramesRead {
                used: _,
                length,
                status,
            } = refused(error);
            FramesWritten { length, status }
        }
    }
}

// An event, by its kind, its position and its length.
#[inline(always)]
fn numbered(event: Option<FrameEvent>) -> (u8, usize, usize)
    ensures event { event_by result.0 result.1 result.2 ≡ event }
    ensures kind { result.0 < misused }
    ensures more { event ≡ None → result.0 ≡ more }
    ensures length { result.0 ≢ message → (result.1 ≡ 0) × (result.2 ≡ 0) }
{
    match event {
        None => (MORE, 0, 0),
        Some(FrameEvent::Message { start, length }) => (MESSAGE, start, length),
        Some(FrameEvent::Damaged) => (DAMAGED, 0, 0),
        Some(FrameEvent::TooLong) => (TOO_LONG, 0, 0),
    }
}

// The result of a push.
#[inline(always)]
pub(crate) fn pushed(outcome: Result<FramePush, WrongBuffer>) -> FramesEvent
    ensures gives { IsPushed outcome result }
    ensures kind { result.kind ≤ misused }
    ensures length { result.kind ≢ message → (result.start ≡ 0) × (result.length ≡ 0) }
{
    match outcome {
        Ok(push) => {
            let (kind, start, length) = numbered(push.event);
            FramesEvent {
                used: push.used,
                stretch: push.stretch,
                start,
                length,
                kind,
            }
        }
        Err(_) => FramesEvent {
            used: 0,
            stretch: 0,
            start: 0,
            length: 0,
            kind: MISUSED,
        },
    }
}

// The result of a push of one byte: the event is written only if there is one.
#[inline(always)]
pub(crate) fn told(outcome: Result<FramePush, WrongBuffer>, event: &mut FramesEvent) -> u8
    ensures ok { IfOk outcome (λ p. p.used ≡ 1 → (p.event ≡ None → p.stretch ≡ 0)
        → push_told result event.new ≡ p) }
    ensures wrong { OnErr outcome (result ≡ misused) }
    ensures can_stand { OnOk outcome (result < misused) }
    ensures kind { result < misused → result ≢ more → event.new.kind ≡ result }
    ensures length { result < misused → result ≢ more → result ≢ message
        → (event.new.start ≡ 0) × (event.new.length ≡ 0) }
    ensures room { (n : ℕ) → IfOk outcome (λ p. IsInRoom n p.event)
        → result < misused → result ≢ more → event.new.start + event.new.length ≤ n }
    ensures front { IfOk outcome (λ p. IsInFront p.event)
        → result < misused → result ≢ more → event.new.start ≡ 0 }
    ensures more { result ≡ more → event.new ≡ event.old }
    ensures misused { result ≡ misused → event.new ≡ event.old }
{
    match outcome {
        Ok(push) => match push.event {
            None => MORE,
            some => {
                let (kind, start, length) = numbered(some);
                // (field by field: the padding after `kind` would be copied too)
                event.used = push.used;
                event.stretch = push.stretch;
                event.start = start;
                event.length = length;
                event.kind = kind;
                kind
            }
        },
        Err(_) => MISUSED,
    }
}
