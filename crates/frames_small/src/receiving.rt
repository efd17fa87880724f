//! Receiving frames byte by byte: each byte is decoded as it comes, into the caller's buffer.
ghost use Rattle.std.specs.Prelude.{◌≡◌, ℕ, ◌+◌, ◌<◌, ◌≤◌, List, [], ◌∷◌, ◌++◌, length, IfOk, OnOk, OnErr};
ghost use Rattle.link.specs.Stream.{Begun, begun};
ghost use Rattle.link.specs.Pushes.{begun_length};
ghost use Rattle.link.specs.Steps.{begun_at, event_at, course_of};
ghost use Rattle.frames.specs.Events.{FindsFrame, TakesFrame, IsInFront, IsInRoom, AnswersPlain, AnswersCounted};
ghost use Rattle.frames_small.specs.Standing.{Decides, MayPush, SmallStandsAt, SmallStandsBehind, by_byte};

use crate::counting::as_counted;
use frames::{FrameEvent, FramePush, WrongBuffer};

/// A receiver's state between bytes: numbers. The bytes of the message that the begun stretch determines are in front of the caller's
/// buffer.
///
/// Example: see [`SmallReceiver::push_byte`].
#[repr(C)]
#[derive(Clone, Copy)]
pub struct SmallReceiver {
    /// How many bytes the begun stretch has.
    pub stretch: usize,
    /// How many bytes of a message they determine.
    pub decided: usize,
    /// How many bytes the block still has.
    pub left: u8,
    /// Whether a zero comes before the next block.
    pub owes: bool,
    /// Whether the stretch is too long.
    pub past: bool,
    /// The byte that ends a stretch.
    pub sentinel: u8,
}

// The push of one byte with this event, after so many bytes of a stretch.
fn brought(stretch: usize, event: Option<FrameEvent>) -> FramePush
    ensures { result ≡ by_byte stretch event }
{
    match event {
        None => FramePush {
            used: 1,
            stretch: 0,
            event: None,
        },
        event => FramePush {
            used: 1,
            stretch,
            event,
        },
    }
}

impl SmallReceiver {
    /// A receiver that has received nothing, of frames that end with this byte and whose bytes are each XORed with it.
    pub fn new(sentinel: u8) -> SmallReceiver
        ensures { (buffer : List ℕ)
            → SmallStandsBehind (length buffer) sentinel result buffer [] }
    {
        SmallReceiver {
            stretch: 0,
            decided: 0,
            left: 0,
            owes: false,
            past: false,
            sentinel,
        }
    }

    // The event at a sentinel.
    fn kind(&self, buffer: &[u8]) -> Option<FrameEvent>
        requires decided { self.now.decided ≤ self.now.stretch }
        requires fits { self.now.stretch ≤ length buffer.now }
        ensures taken { (limit s : ℕ) (b : Begun) → SmallStandsAt limit s self.now buffer.now b
            → TakesFrame limit (course_of limit s b (s ∷ [])) buffer.now
            (by_byte self.now.stretch result) }
        ensures front { IsInFront result }
        ensures within { IsInRoom (length buffer.now) result }
    {
        cobs::laws::message_of_a_frame();
        if self.past {
            return None;
        }
        if self.stretch == 0 {
            return None;
        }
        if self.left == 0 {
            Some(FrameEvent::Message {
                start: 0,
                length: self.decided,
            })
        } else {
            Some(FrameEvent::Damaged)
        }
    }

    // Ends a stretch.
    fn end(&mut self, buffer: &[u8]) -> Option<FrameEvent>
        requires decided { self.old.decided ≤ self.old.stretch }
        requires fits { self.old.stretch ≤ length buffer.now }
        ensures at { (limit s : ℕ) (b : Begun) → SmallStandsAt limit s self.old buffer.now b
            → SmallStandsAt limit s self.new buffer.now (begun_at limit s b s) }
        ensures taken { (limit s : ℕ) (b : Begun) → SmallStandsAt limit s self.old buffer.now b
            → TakesFrame limit (course_of limit s b (s ∷ [])) buffer.now
            (by_byte self.old.stretch result) }
        ensures front { IsInFront result }
        ensures within { IsInRoom (length buffer.now) result }
        ensures decided { self.new.decided ≤ self.new.stretch }
        ensures fits { self.new.stretch ≤ length buffer.now }
        ensures sentinel { self.new.sentinel ≡ self.old.sentinel }
    {
        let kind = self.kind(buffer);
        self.stretch = 0;
        self.decided = 0;
        self.left = 0;
        self.owes = false;
        self.past = false;
        kind
    }

    // Decodes a byte of a stretch, without the sentinel's XOR.
    fn take(&mut self, buffer: &mut [u8], byte: u8)
        requires some { 0 < byte }
        requires decided { self.old.decided ≤ self.old.stretch }
        requires fits { self.old.stretch < length buffer.old }
        ensures takes { (p : List ℕ) → Decides self.old buffer.old p
            → Decides self.new buffer.new (p ++ byte ∷ []) }
        ensures stretch { self.new.stretch ≡ self.old.stretch + 1 }
        ensures decided { self.new.decided ≤ self.new.stretch }
        ensures past { self.new.past ≡ self.old.past }
        ensures sentinel { self.new.sentinel ≡ self.old.sentinel }
        ensures room { length buffer.new ≡ length buffer.old }
    {
        self.stretch += 1;
        if self.left != 0 {
            self.left -= 1;
            buffer[self.decided] = byte;
            self.decided += 1;
        } else {
            if self.owes {
                buffer[self.decided] = 0;
                self.decided += 1;
            }
            self.owes = byte != 255;
            self.left = byte - 1;
        }
    }

    // Takes a byte, and returns its event of plain messages.
    fn take_byte(&mut self, buffer: &mut [u8], byte: u8) -> Option<FrameEvent>
        requires decided { self.old.decided ≤ self.old.stretch }
        requires fits { self.old.stretch ≤ length buffer.old }
        ensures at { (limit s : ℕ) (b : Begun) → SmallStandsAt limit s self.old buffer.old b
            → SmallStandsAt limit s self.new buffer.new (begun_at limit s b byte) }
        ensures taken { (limit s : ℕ) (b : Begun) → SmallStandsAt limit s self.old buffer.old b
            → TakesFrame limit (course_of limit s b (byte ∷ [])) buffer.new (by_byte self.old.stretch result) }
        ensures front { IsInFront result }
        ensures within { IsInRoom (length buffer.new) result }
        ensures room { length buffer.new ≡ length buffer.old }
        ensures decided { self.new.decided ≤ self.new.stretch }
        ensures fits { self.new.stretch ≤ length buffer.new }
        ensures sentinel { self.new.sentinel ≡ self.old.sentinel }
    {
        let code = self.sentinel ^ byte;
        if code == 0 {
            return self.end(buffer);
        }
        if self.past {
            return None;
        }
        if self.stretch == buffer.len() {
            self.past = true;
            return Some(FrameEvent::TooLong);
        }
        self.take(buffer, code);
        None
    }

    // Takes a byte, and returns its event, of plain messages.
    fn push_plain(&mut self, buffer: &mut [u8], byte: u8) -> Option<FrameEvent>
        requires decided { self.old.decided ≤ self.old.stretch }
        requires fits { self.old.stretch ≤ length buffer.old }
        ensures stands { (limit s : ℕ) (stream : List ℕ)
            → SmallStandsBehind limit s self.old buffer.old stream
            → SmallStandsBehind limit s self.new buffer.new (stream ++ (byte ∷ [])) }
        ensures answers { (limit s : ℕ) (stream : List ℕ)
            → SmallStandsBehind limit s self.old buffer.old stream
            → AnswersPlain limit s stream (byte ∷ []) buffer.new (by_byte self.old.stretch result) }
        ensures message { IsInRoom (length buffer.new) result }
        ensures room { length buffer.new ≡ length buffer.old }
        ensures decided { self.new.decided ≤ self.new.stretch }
        ensures fits { self.new.stretch ≤ length buffer.new }
        ensures sentinel { self.new.sentinel ≡ self.old.sentinel }
    {
        self.take_byte(buffer, byte)
    }

    // The same for counted messages.
    fn push(&mut self, buffer: &mut [u8], byte: u8) -> Option<FrameEvent>
        requires decided { self.old.decided ≤ self.old.stretch }
        requires fits { self.old.stretch ≤ length buffer.old }
        ensures stands { (limit s : ℕ) (stream : List ℕ)
            → SmallStandsBehind limit s self.old buffer.old stream
            → SmallStandsBehind limit s self.new buffer.new (stream ++ (byte ∷ [])) }
        ensures answers { (limit s : ℕ) (stream : List ℕ)
            → SmallStandsBehind limit s self.old buffer.old stream
            → AnswersCounted limit s stream (byte ∷ []) buffer.new (by_byte self.old.stretch result) }
        ensures message { IsInRoom (length buffer.new) result }
        ensures room { length buffer.new ≡ length buffer.old }
        ensures decided { self.new.decided ≤ self.new.stretch }
        ensures fits { self.new.stretch ≤ length buffer.new }
        ensures sentinel { self.new.sentinel ≡ self.old.sentinel }
    {
        let event = self.take_byte(buffer, byte);
        as_counted(event, buffer)
    }

    /// Takes a byte, and returns its event, if there is one, of counted messages, as `push_byte` of `frames` does.
    ///
    /// The buffer's length is the limit. Pass the same buffer to each call, and leave its front as it is between two calls.
    ///
    /// # Errors
    /// `WrongBuffer` exactly if `stretch` exceeds the buffer's length, or `decided` exceeds `stretch`, as of no receiver. Nothing
    /// changes.
    ///
    /// # Example
    /// ```rust
    /// let mut receiver = SmallReceiver::new(0);
    /// let mut buffer = [0u8; 4];
    /// let mut event = None;
    /// for byte in line {
    ///     match receiver.push_byte(&mut buffer, byte) {
    ///         Ok(push) => event = push.event,
    ///         Err(_) => check(&rt, false),
    ///     }
    /// }
    /// ```
    pub fn push_byte(&mut self, buffer: &mut [u8], byte: u8) -> Result<FramePush, WrongBuffer>
        ensures used { IfOk result (λ p. p.used ≡ 1) }
        ensures stands { IfOk result (λ p. (limit s : ℕ) (stream : List ℕ)
            → SmallStandsBehind limit s self.old buffer.old stream
            → SmallStandsBehind limit s self.new buffer.new (stream ++ (byte ∷ []))) }
        ensures answers { IfOk result (λ p. (limit s : ℕ) (stream : List ℕ)
            → SmallStandsBehind limit s self.old buffer.old stream
            → AnswersCounted limit s stream (byte ∷ []) buffer.new p) }
        ensures message { IfOk result (λ p. IsInRoom (length buffer.new) p.event) }
        ensures fits { OnOk result (MayPush self.old buffer.old) }
        ensures wrong { OnErr result (MayPush self.old buffer.old → ⊥) }
        ensures stays { OnOk result (MayPush self.new buffer.new) }
        ensures unchanged { OnErr result ((self.new ≡ self.old) × (buffer.new ≡ buffer.old)) }
        ensures room { length buffer.new ≡ length buffer.old }
        ensures sentinel { self.new.sentinel ≡ self.old.sentinel }
    {
        if buffer.len() < self.stretch || self.stretch < self.decided {
            return Err(WrongBuffer);
        }
        let stretch = self.stretch;
        let event = self.push(buffer, byte);
        Ok(brought(stretch, event))
    }

    /// Takes a byte, and returns its event, if there is one, of plain messages, as `push_byte_plain` of `frames` does.
    ///
    /// The buffer is as for `push_byte`.
    ///
    /// # Errors
    /// `WrongBuffer` exactly if `stretch` exceeds the buffer's length, or `decided` exceeds `stretch`, as of no receiver. Nothing
    /// changes.
    pub fn push_byte_plain(&mut self, buffer: &mut [u8], byte: u8) -> Result<FramePush, WrongBuffer>
        ensures used { IfOk result (λ p. p.used ≡ 1) }
        ensures stands { IfOk result (λ p. (limit s : ℕ) (stream : List ℕ)
            → SmallStandsBehind limit s self.old buffer.old stream
            → SmallStandsBehind limit s self.new buffer.new (stream ++ (byte ∷ []))) }
        ensures answers { IfOk result (λ p. (limit s : ℕ) (stream : List ℕ)
            → SmallStandsBehind limit s self.old buffer.old stream
            → AnswersPlain limit s stream (byte ∷ []) buffer.new p) }
        ensures message { IfOk result (λ p. IsInRoom (length buffer.new) p.event) }
        ensures fits { OnOk result (MayPush self.old buffer.old) }
        ensures wrong { OnErr result (MayPush self.old buffer.old → ⊥) }
        ensures stays { OnOk result (MayPush self.new buffer.new) }
        ensures unchanged { OnErr result ((self.new ≡ self.old) × (buffer.new ≡ buffer.old)) }
        ensures room { length buffer.new ≡ length buffer.old }
        ensures sentinel { self.new.sentinel ≡ self.old.sentinel }
    {
        if buffer.len() < self.stretch || self.stretch < self.decided {
            return Err(WrongBuffer);
        }
        let stretch = self.stretch;
        let event = self.push_plain(buffer, byte);
        Ok(brought(stretch, event))
    }

    /// How many bytes have come since the last sentinel; 0 if they are more than the limit.
    pub fn begun(&self) -> usize
        ensures begun { (limit s : ℕ) (buffer stream : List ℕ)
            → SmallStandsBehind limit s self.now buffer stream
            → result ≡ begun_length (begun limit s stream) }
    {
        if self.past { 0 } else { self.stretch }
    }
}
