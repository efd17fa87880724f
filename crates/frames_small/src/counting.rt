//! Counted messages: preceded by their length, as postcard encodes a byte string.
//!
//! Functions are small because facts are lost in a proof where branches join, and because each is then a pair with a function in C.
ghost use Rattle.std.specs.Prelude.{◌≡◌, ℕ, ◌+◌, ◌<◌, ◌≤◌, List, length, take, drop, Some, IfSome, IsNone};
ghost use Rattle.postcard_tree.specs.Number.{IsGrouped, grouped_value};
ghost use Rattle.postcard_tree.specs.Reading.{NoFront, ReadsBytes, RefusesGroups};
ghost use Rattle.postcard_tree.specs.declared.error.Error.{Error};
ghost use Rattle.postcard_de.specs.Answer.{ReadsFront};
ghost use Rattle.link.specs.Steps.{Course};
ghost use Rattle.frames.specs.Events.{TakesCounted, TakesFrame, IsInFront, IsInRoom, RepliesCounted, found};
ghost use Rattle.frames_small.specs.Standing.{by_byte};

use frames::FrameEvent;

// The length of the count that a message begins with: the bytes through the first below 128. 0 if none of the first ten is below 128.
fn count_end(message: &[u8]) -> usize
    ensures within { result ≤ length message.now }
    ensures few { result ≤ 10 }
    ensures ends { 0 < result → IsGrouped (take result message.now) }
    ensures none { result ≡ 0 → (e : Error) × RefusesGroups 10 1 message.now e }
{
    let mut at = 0;
    while at < 10 {
        if at == message.len() {
            return 0;
        }
        if message[at] < 128 {
            return at + 1;
        }
        at += 1;
    }
    0
}

// The number in groups of seven bits, the lowest group first; None if it is more than `most`. It is read from the last group on, because
// no step then exceeds the number itself: nothing wraps at any width.
fn value_of(groups: &[u8], most: usize) -> Option<usize>
    ensures some { IfSome result (λ n. n ≡ grouped_value groups.now) }
    ensures few { IfSome result (λ n. n ≤ most) }
    ensures none { IsNone result → most < grouped_value groups.now }
{
    let mut n = 0;
    let mut at = groups.len();
    while at != 0 {
        if most / 128 < n {
            return None;
        }
        at -= 1;
        n = n * 128 + (groups[at] % 128) as usize;
    }
    if most < n {
        return None;
    }
    Some(n)
}

// The position and length of a counted message's bytes in it.
fn counted(message: &[u8]) -> Option<(usize, usize)>
    ensures read { IfSome result (λ p. (rest : List ℕ)
        × ReadsFront ReadsBytes message.now rest (take p.1 (drop p.0 message.now))) }
    ensures within { IfSome result (λ p. p.0 + p.1 ≤ length message.now) }
    ensures none { IsNone result → NoFront TakesCounted message.now }
{
    let start = count_end(message);
    if start == 0 {
        return None;
    }
    match value_of(&message[..start], message.len() - start) {
        None => None,
        Some(length) => Some((start, length)),
    }
}

// The event of counted messages, for that of plain ones: a plain message is in front of the buffer.
fn counted_event(event: FrameEvent, buffer: &[u8]) -> FrameEvent
    requires front { IsInFront (Some event) }
    requires within { IsInRoom (length buffer.now) (Some event) }
    ensures replies { (limit used stretch : ℕ) (k : Course)
        → TakesFrame limit k buffer.now (found used stretch (Some event))
        → RepliesCounted limit k buffer.now (found used stretch (Some result)) }
    ensures message { IsInRoom (length buffer.now) (Some result) }
{
    cobs::laws::message_of_a_frame();
    match event {
        FrameEvent::Message { start: _, length } => match counted(&buffer[..length]) {
            Some((start, length)) => FrameEvent::Message { start, length },
            None => FrameEvent::Damaged,
        },
        FrameEvent::Damaged => FrameEvent::Damaged,
        FrameEvent::TooLong => FrameEvent::TooLong,
    }
}

// The same if there may be an event.
pub(crate) fn as_counted(event: Option<FrameEvent>, buffer: &[u8]) -> Option<FrameEvent>
    requires front { IsInFront event }
    requires within { IsInRoom (length buffer.now) event }
    ensures replies { (limit n : ℕ) (k : Course) → TakesFrame limit k buffer.now (by_byte n event)
        → RepliesCounted limit k buffer.now (by_byte n result) }
    ensures message { IsInRoom (length buffer.now) result }
{
    match event {
        None => None,
        Some(event) => Some(counted_event(event, buffer)),
    }
}
