//! Counted messages: preceded by their length, as postcard encodes a byte string.
ghost use Rattle.std.specs.Prelude.{◌≡◌, ℕ, ◌+◌, ◌<◌, ◌^◌, ◌≤◌, List, length, take, drop, Some, IfSome, IsNone};
ghost use Rattle.cobs.specs.Frames.{Frame};
ghost use Rattle.postcard_tree.specs.Tree.{Tree, text_of};
ghost use Rattle.postcard_tree.specs.Reading.{NoFront, ReadsBytes};
ghost use Rattle.postcard_tree.specs.ReadingLaws.{only_written};
ghost use Rattle.postcard_de.specs.Answer.{ReadsFront};
ghost use Rattle.link.specs.Steps.{Course};
ghost use Rattle.frames.specs.Events.{TakesCounted, TakesFrame, IsInFront, IsInRoom, RepliesCounted, found};

use crate::receiving::{FrameEvent, FramePush};
use postcard::ser_flavors::Flavor;
use postcard::{Own, Readable, Serialize, Serializer, take_from_bytes};
use std::alloc::Global;

/// Bytes that are written with their count in front, in one call.
#[derive(Drop)]
pub(crate) struct Counted<'a>(pub &'a [u8]);

impl Readable for Counted<'_> {
    type Form = Own;

    ghost form = { only_written (λ v. Some (text_of v.0.now)) (λ v. length v.0.now < 2 ^ 64) };
}

impl Serialize for Counted<'_> {
    fn serialize<F: Flavor>(&self, serializer: &mut Serializer<F>) -> postcard::Result<()> {
        serializer.serialize_bytes(self.0)
    }
}

// The position and length of a counted message's bytes in it, decoded as a value. It isn't inlined, or the short path would pay for it.
#[inline(never)]
fn counted_long(alloc: Global, message: &[u8]) -> Option<(usize, usize)>
    ensures read { IfSome result (λ p. (rest : List ℕ)
        × ReadsFront ReadsBytes message.now rest (take p.1 (drop p.0 message.now))) }
    ensures within { IfSome result (λ p. p.0 + p.1 ≤ length message.now) }
    ensures none { IsNone result → NoFront TakesCounted message.now }
{
    match take_from_bytes::<&[u8]>(alloc, message) {
        Ok((bytes, rest)) => Some((message.len() - rest.len() - bytes.len(), bytes.len())),
        Err(_) => None,
    }
}

// The same: a count below 128 is one byte, which is inspected here. The preparations of `postcard` cost more.
#[inline(always)]
fn counted_in(alloc: Global, message: &[u8]) -> Option<(usize, usize)>
    ensures read { IfSome result (λ p. (rest : List ℕ)
        × ReadsFront ReadsBytes message.now rest (take p.1 (drop p.0 message.now))) }
    ensures within { IfSome result (λ p. p.0 + p.1 ≤ length message.now) }
    ensures none { IsNone result → NoFront TakesCounted message.now }
{
    postcard_tree::laws::short_is_a_spelling();
    if !message.is_empty() && message[0] < 128 {
        let count = message[0] as usize;
        if count < message.len() {
            return Some((1, count));
        }
    }
    counted_long(alloc, message)
}

// The event of counted messages, for that of plain ones: a plain message is in front of the buffer.
#[inline(always)]
fn counted_event(alloc: Global, event: FrameEvent, buffer: &[u8]) -> FrameEvent
    requires front { IsInFront (Some event) }
    requires within { IsInRoom (length buffer.now) (Some event) }
    ensures replies { (limit used stretch : ℕ) (k : Course)
        → TakesFrame limit k buffer.now (found used stretch (Some event))
        → RepliesCounted limit k buffer.now (found used stretch (Some result)) }
    ensures message { IsInRoom (length buffer.now) (Some result) }
{
    cobs::laws::message_of_a_frame();
    match event {
        FrameEvent::Message { start: _, length } => {
            match counted_in(alloc, &buffer[..length]) {
                Some((start, length)) => FrameEvent::Message { start, length },
                None => FrameEvent::Damaged,
            }
        }
        FrameEvent::Damaged => FrameEvent::Damaged,
        FrameEvent::TooLong => FrameEvent::TooLong,
    }
}

// The same for a push.
#[inline(always)]
pub(crate) fn as_counted(alloc: Global, push: FramePush, buffer: &[u8]) -> FramePush
    requires front { IsInFront push.event }
    requires within { IsInRoom (length buffer.now) push.event }
    ensures replies { (limit : ℕ) (k : Course) → TakesFrame limit k buffer.now push
        → RepliesCounted limit k buffer.now result }
    ensures used { result.used ≡ push.used }
    ensures message { IsInRoom (length buffer.now) result.event }
{
    let FramePush {
        used,
        stretch,
        event,
    } = push;
    let event = match event {
        None => None,
        Some(event) => Some(counted_event(alloc, event, buffer)),
    };
    FramePush {
        used,
        stretch,
        event,
    }
}
