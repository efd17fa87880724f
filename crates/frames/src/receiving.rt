//! Receiving frames from a stream that comes in chunks, into a buffer of the caller's.
//!
//! A stretch is stored as it came, and decoded in place at its sentinel; one that is complete in a chunk is decoded from there. If bytes
//! were decoded as they come, `push_byte` would keep another state than `push`.
ghost use Rattle.std.specs.Prelude.{◌≡◌, ◌≢◌, ℕ, ◌+◌, ◌<◌, ◌≤◌, List, [], ◌∷◌, ◌++◌, length, take, IsTrue, ◌↔◌, MatchOption, IfSome, IfOk, OnOk, OnErr, None, false};
ghost use Rattle.cobs.specs.Frames.{NoZero};
ghost use Rattle.cobs.specs.Sentinel.{masked};
ghost use Rattle.link.specs.Stream.{Begun, kept, begun};
ghost use Rattle.link.specs.Pushes.{begun_length};
ghost use Rattle.link.specs.Steps.{Event, event_at, begun_at, course_of, RunsOn, RunsPast};
ghost use Rattle.frames.specs.Standing.{is_cut, StandsAt, StandsBehind, KeepsTerms};
ghost use Rattle.frames.specs.Events.{FindsFrame, TakesFrame, BringsBy, IsInFront, IsInRoom, AnswersPlain, AnswersCounted, found};

use crate::counting::as_counted;
use crate::decoding::decode_kept;
use cobs::before_sentinel;
use std::alloc::Global;
use thiserror::Error;

/// A receiver's state between calls: numbers only, so it can be a struct of C. All zeros are a new receiver with sentinel 0. The
/// bytes of the begun stretch are in front of the caller's buffer.
///
/// Example: see [`FrameReceiver::push`].
#[repr(C)]
#[derive(Clone, Copy)]
pub struct FrameReceiver {
    /// How many bytes the begun stretch has so far.
    pub count: usize,
    /// Not 0 if the begun stretch is too long.
    pub past: u8,
    /// The byte that ends a stretch.
    pub sentinel: u8,
}

/// What a stretch turned out to be.
///
/// Example: see [`FrameReceiver::push`].
#[derive(Clone, Copy, PartialEq, Eq, Debug)]
pub enum FrameEvent {
    /// A frame. Its message is `length` bytes in the buffer from `start` on, until the next call.
    Message { start: usize, length: usize },
    /// Not a frame, or its message isn't a counted one.
    Damaged,
    /// Longer than the buffer. It is reported once, at the first byte past the buffer's length.
    TooLong,
}

/// The result of a push.
///
/// Example: see [`FrameReceiver::push`].
#[derive(Clone, Copy, PartialEq, Eq, Debug)]
pub struct FramePush {
    /// How many bytes of the chunk were used: all of them if there is no event. Push the rest next.
    pub used: usize,
    /// How many bytes of the event's stretch come before the last byte that was used; 0 if there is no event.
    pub stretch: usize,
    /// The first event, if there is one.
    pub event: Option<FrameEvent>,
}

/// More bytes are begun than the buffer has: it isn't the one that the receiver was used with.
///
/// Example: see [`FrameReceiver::push`].
#[derive(Clone, Copy, PartialEq, Eq, Debug, Drop, Error)]
#[error("more bytes are begun than the buffer has")]
pub struct WrongBuffer;

// Takes a whole stretch within the limit, without its sentinel, if none was begun.
fn take_whole(buffer: &mut [u8], stretch: &[u8], sentinel: u8) -> Option<FrameEvent>
    requires clear { NoZero (masked sentinel stretch.now) }
    requires some { 0 < length stretch.now }
    requires room { length stretch.now ≤ length buffer.old }
    ensures found { FindsFrame buffer.new (Event.ended (masked sentinel stretch.now)) result }
    ensures front { IsInFront result }
    ensures within { IsInRoom (length buffer.new) result }
    ensures same { length buffer.new ≡ length buffer.old }
{
    cobs::laws::message_of_a_frame();
    cobs::laws::shorter();
    match cobs::decode_with_sentinel(stretch, buffer, sentinel) {
        Ok(length) => Some(FrameEvent::Message { start: 0, length }),
        Err(_) => Some(FrameEvent::Damaged),
    }
}

impl FrameReceiver {
    /// A receiver that has received nothing, of frames that end with this byte and whose bytes are each XORed with it.
    pub fn new(sentinel: u8) -> FrameReceiver
        ensures after { (buffer : List ℕ) → StandsBehind (length buffer) sentinel result buffer [] }
        ensures sentinel { result.sentinel ≡ sentinel }
    {
        FrameReceiver {
            count: 0,
            past: 0,
            sentinel,
        }
    }

    // Ends a stretch, whose bytes are in front of the buffer.
    #[inline(always)]
    fn close(&mut self, buffer: &mut [u8]) -> Option<FrameEvent>
        requires some { 0 < self.old.count }
        requires within { self.old.count ≤ length buffer.old }
        ensures found { (limit s : ℕ) (p : List ℕ)
            → StandsAt limit s self.old buffer.old (kept p) → 0 < length p
            → StandsAt limit s self.new buffer.new (kept [])
            × FindsFrame buffer.new (Event.ended p) result }
        ensures front { IsInFront result }
        ensures within { IsInRoom (length buffer.new) result }
        ensures same { KeepsTerms self.old buffer.old self.new buffer.new }
        ensures count { self.new.count ≡ 0 }
    {
        let (front, _) = buffer.split_at_mut(self.count);
        self.count = 0;
        match decode_kept(front, self.sentinel) {
            Some(length) => Some(FrameEvent::Message { start: 0, length }),
            None => Some(FrameEvent::Damaged),
        }
    }

    // Takes a sentinel.
    #[inline(always)]
    fn take_sentinel(&mut self, buffer: &mut [u8]) -> Option<FrameEvent>
        requires { self.old.count ≤ length buffer.old }
        ensures at { (limit s : ℕ) (b : Begun) → StandsAt limit s self.old buffer.old b
            → StandsAt limit s self.new buffer.new (begun_at limit s b s) }
        ensures finds { (limit s : ℕ) (b : Begun) → StandsAt limit s self.old buffer.old b
            → FindsFrame buffer.new (event_at limit s b s) result }
        ensures front { IsInFront result }
        ensures within { IsInRoom (length buffer.new) result }
        ensures same { KeepsTerms self.old buffer.old self.new buffer.new }
        ensures count { self.new.count ≤ length buffer.new }
    {
        if self.past != 0 {
            self.past = 0;
            return None;
        }
        if self.count == 0 {
            return None;
        }
        self.close(buffer)
    }

    // Takes bytes without a sentinel. If they go past the limit, returns how many were used, the first one past it included.
    fn take_run(&mut self, buffer: &mut [u8], run: &[u8]) -> Option<usize>
        requires { self.old.count ≤ length buffer.old }
        ensures runs { (limit s : ℕ) (b : Begun) → NoZero (masked s run.now)
            → StandsAt limit s self.old buffer.old b
            → MatchOption result (RunsOn limit s b run.now (StandsAt limit s self.new buffer.new))
            (λ used. RunsPast limit s b run.now used (StandsAt limit s self.new buffer.new)) }
        ensures within { IfSome result (λ used. (0 < used) × (used ≤ length run.now)) }
        ensures same { KeepsTerms self.old buffer.old self.new buffer.new }
        ensures count { self.new.count ≤ length buffer.new }
    {
        if self.past != 0 {
            return None;
        }
        let left = buffer.len() - self.count;
        if run.len() > left {
            self.past = 1;
            self.count = 0;
            return Some(left + 1);
        }
        let (_, rest) = buffer.split_at_mut(self.count);
        let (place, _) = rest.split_at_mut(run.len());
        place.copy_from_slice(run);
        self.count += run.len();
        None
    }

    // Whether no stretch has begun.
    fn is_between(&self) -> bool
        ensures { IsTrue result ↔ ((self.now.past ≡ 0) × (self.now.count ≡ 0)) }
    {
        self.past == 0 && self.count == 0
    }

    // Takes bytes through the first sentinel, or through the byte past the limit. A stretch that is complete there is decoded at once.
    fn take_next(&mut self, buffer: &mut [u8], bytes: &[u8]) -> FramePush
        requires { self.old.count ≤ length buffer.old }
        ensures brings { (limit s : ℕ) (b : Begun) → StandsAt limit s self.old buffer.old b
            → BringsBy limit s b bytes.now buffer.new result
            (StandsAt limit s self.new buffer.new) }
        ensures front { IsInFront result.event }
        ensures within { IsInRoom (length buffer.new) result.event }
        ensures bound { result.used ≤ length bytes.now }
        ensures forward { 0 < length bytes.now → 0 < result.used }
        ensures same { KeepsTerms self.old buffer.old self.new buffer.new }
        ensures count { self.new.count ≤ length buffer.new }
    {
        let sentinel = self.sentinel;
        let size = before_sentinel(bytes, sentinel);
        let (run, behind) = bytes.split_at(size);
        if self.is_between() && !behind.is_empty() && 0 < size && size <= buffer.len() {
            return FramePush {
                used: size + 1,
                stretch: size,
                event: take_whole(buffer, run, sentinel),
            };
        }
        match self.take_run(buffer, run) {
            Some(used) => {
                return FramePush {
                    used,
                    stretch: buffer.len(),
                    event: Some(FrameEvent::TooLong),
                };
            }
            None => {}
        }
        if behind.is_empty() {
            return FramePush {
                used: size,
                stretch: 0,
                event: None,
            };
        }
        let stretch = self.count;
        FramePush {
            used: size + 1,
            stretch,
            event: self.take_sentinel(buffer),
        }
    }

    // Takes bytes of a chunk through the first that has an event.
    fn take(&mut self, buffer: &mut [u8], piece: &[u8]) -> FramePush
        requires { self.old.count ≤ length buffer.old }
        ensures at { (limit s : ℕ) (b : Begun) → StandsAt limit s self.old buffer.old b
            → StandsAt limit s self.new buffer.new (course_of limit s b piece.now).begun }
        ensures taken { (limit s : ℕ) (b : Begun) → StandsAt limit s self.old buffer.old b
            → TakesFrame limit (course_of limit s b piece.now) buffer.new result }
        ensures front { IsInFront result.event }
        ensures within { IsInRoom (length buffer.new) result.event }
        ensures bound { result.used ≤ length piece.now }
        ensures forward { 0 < length piece.now → 0 < result.used }
        ensures same { KeepsTerms self.old buffer.old self.new buffer.new }
    {
        let mut at = 0;
        while at < piece.len() {
            let (_, rest) = piece.split_at(at);
            let FramePush {
                used,
                stretch,
                event,
            } = self.take_next(buffer, rest);
            at += used;
            match event {
                None => {}
                event => {
                    return FramePush {
                        used: at,
                        stretch,
                        event,
                    };
                }
            }
        }
        FramePush {
            used: piece.len(),
            stretch: 0,
            event: None,
        }
    }

    // Takes one byte.
    #[inline(always)]
    fn take_byte(&mut self, buffer: &mut [u8], byte: u8) -> FramePush
        requires { self.old.count ≤ length buffer.old }
        ensures at { (limit s : ℕ) (b : Begun) → StandsAt limit s self.old buffer.old b
            → StandsAt limit s self.new buffer.new (course_of limit s b (byte ∷ [])).begun }
        ensures taken { (limit s : ℕ) (b : Begun) → StandsAt limit s self.old buffer.old b
            → TakesFrame limit (course_of limit s b (byte ∷ [])) buffer.new result }
        ensures front { IsInFront result.event }
        ensures within { IsInRoom (length buffer.new) result.event }
        ensures used { result.used ≡ 1 }
        ensures same { KeepsTerms self.old buffer.old self.new buffer.new }
    {
        if byte == self.sentinel {
            let stretch = self.count;
            return FramePush {
                used: 1,
                stretch,
                event: self.take_sentinel(buffer),
            };
        }
        if self.past != 0 {
            return FramePush {
                used: 1,
                stretch: 0,
                event: None,
            };
        }
        if self.count == buffer.len() {
            self.past = 1;
            self.count = 0;
            return FramePush {
                used: 1,
                stretch: buffer.len(),
                event: Some(FrameEvent::TooLong),
            };
        }
        buffer[self.count] = byte;
        self.count += 1;
        FramePush {
            used: 1,
            stretch: 0,
            event: None,
        }
    }

    /// Takes a byte if it isn't the sentinel and is within the limit, as most are, and returns whether it did.
    ///
    /// If it didn't, nothing changed: call `push_byte` or `push_byte_plain`. It costs a few compares and a store, and the export for C
    /// calls it first, so such a byte costs no stack in an interrupt handler.
    #[inline(always)]
    pub fn stores(&mut self, buffer: &mut [u8], byte: u8) -> bool
        ensures stands { IsTrue result → (limit s : ℕ) (stream : List ℕ)
            → StandsBehind limit s self.old buffer.old stream
            → StandsBehind limit s self.new buffer.new (stream ++ (byte ∷ [])) }
        ensures plain { IsTrue result → (limit s : ℕ) (stream : List ℕ)
            → StandsBehind limit s self.old buffer.old stream
            → AnswersPlain limit s stream (byte ∷ []) buffer.new (found 1 0 None) }
        ensures counted { IsTrue result → (limit s : ℕ) (stream : List ℕ)
            → StandsBehind limit s self.old buffer.old stream
            → AnswersCounted limit s stream (byte ∷ []) buffer.new (found 1 0 None) }
        ensures taken { IsTrue result ↔ ((byte ≢ self.old.sentinel) × (self.old.past ≡ 0)
            × (self.old.count < length buffer.old)) }
        ensures unchanged { result ≡ false → (self.new ≡ self.old) × (buffer.new ≡ buffer.old) }
        ensures same { KeepsTerms self.old buffer.old self.new buffer.new }
    {
        if byte == self.sentinel || self.past != 0 || buffer.len() <= self.count {
            return false;
        }
        buffer[self.count] = byte;
        self.count += 1;
        true
    }

    /// Takes bytes of the chunk up to the first event, of plain messages, and returns it with how many bytes were used.
    ///
    /// An event is at the sentinel that ends a stretch, or at the byte past the buffer's length; if there is none, all bytes are used.
    /// It is of the whole stretch, also if earlier pushes took its beginning. A message is in front of the buffer until the next push.
    /// Pass the same buffer to each call, and leave its front as it is between two calls.
    ///
    /// # Errors
    /// `WrongBuffer` exactly if more bytes are begun than the buffer has. Nothing changes.
    pub fn push_plain(&mut self, buffer: &mut [u8], bytes: &[u8]) -> Result<FramePush, WrongBuffer>
        ensures within { IfOk result (λ p. p.used ≤ length bytes.now) }
        ensures forward { IfOk result (λ p. 0 < length bytes.now → 0 < p.used) }
        ensures stands { IfOk result (λ p. (limit s : ℕ) (stream : List ℕ)
            → StandsBehind limit s self.old buffer.old stream
            → StandsBehind limit s self.new buffer.new (stream ++ take p.used bytes.now)) }
        ensures answers { IfOk result (λ p. (limit s : ℕ) (stream : List ℕ)
            → StandsBehind limit s self.old buffer.old stream
            → AnswersPlain limit s stream bytes.now buffer.new p) }
        ensures front { IfOk result (λ p. IsInFront p.event) }
        ensures message { IfOk result (λ p. IsInRoom (length buffer.new) p.event) }
        ensures fits { OnOk result (self.old.count ≤ length buffer.old) }
        ensures wrong { OnErr result (length buffer.old < self.old.count) }
        ensures unchanged { OnErr result ((self.new ≡ self.old) × (buffer.new ≡ buffer.old)) }
        ensures same { KeepsTerms self.old buffer.old self.new buffer.new }
    {
        if buffer.len() < self.count {
            return Err(WrongBuffer);
        }
        Ok(self.take(buffer, bytes))
    }

    /// Takes one byte, as `push_plain` of a chunk of this byte does: for an interrupt handler. Nothing is searched, and a byte that
    /// ends no stretch is only stored.
    ///
    /// # Errors
    /// `WrongBuffer` exactly if more bytes are begun than the buffer has. Nothing changes.
    #[inline(always)]
    pub fn push_byte_plain(&mut self, buffer: &mut [u8], byte: u8) -> Result<FramePush, WrongBuffer>
        ensures used { IfOk result (λ p. p.used ≡ 1) }
        ensures stands { IfOk result (λ p. (limit s : ℕ) (stream : List ℕ)
            → StandsBehind limit s self.old buffer.old stream
            → StandsBehind limit s self.new buffer.new (stream ++ (byte ∷ []))) }
        ensures answers { IfOk result (λ p. (limit s : ℕ) (stream : List ℕ)
            → StandsBehind limit s self.old buffer.old stream
            → AnswersPlain limit s stream (byte ∷ []) buffer.new p) }
        ensures front { IfOk result (λ p. IsInFront p.event) }
        ensures message { IfOk result (λ p. IsInRoom (length buffer.new) p.event) }
        ensures fits { OnOk result (self.old.count ≤ length buffer.old) }
        ensures wrong { OnErr result (length buffer.old < self.old.count) }
        ensures unchanged { OnErr result ((self.new ≡ self.old) × (buffer.new ≡ buffer.old)) }
        ensures same { KeepsTerms self.old buffer.old self.new buffer.new }
    {
        if buffer.len() < self.count {
            return Err(WrongBuffer);
        }
        Ok(self.take_byte(buffer, byte))
    }

    /// Takes bytes of the chunk up to the first event, of counted messages, and returns it with how many bytes were used.
    ///
    /// As `push_plain`, but a message is the bytes after its length, as `send` writes it and postcard encodes a byte string. It is in
    /// the buffer, after its length, until the next push. Bytes after the counted ones are ignored, and what isn't a counted message is
    /// damaged.
    ///
    /// # Errors
    /// `WrongBuffer` exactly if more bytes are begun than the buffer has. Nothing changes.
    ///
    /// # Allocates
    /// Nothing: decoding a postcard value takes an allocator, but bytes need none of its memory.
    ///
    /// # Example
    /// ```rust
    /// let mut receiver = FrameReceiver::new(0);
    /// let mut buffer = [0u8; 8];
    /// let push = receiver.push(rt.alloc(), &mut buffer, &[0, 4, 2, b'h', b'i', 0, 9]);
    /// let event = Some(FrameEvent::Message {
    ///     start: 1,
    ///     length: 2,
    /// });
    /// let used = 6;
    /// let stretch = 4;
    /// check(
    ///     &rt,
    ///     push == Ok(FramePush {
    ///         used,
    ///         stretch,
    ///         event,
    ///     }),
    /// );
    /// check(&rt, buffer[1..3] == [b'h', b'i']);
    /// check(&rt, receiver.push_plain(&mut buffer, &[9, 9]).is_ok());
    /// let another = receiver.push_plain(&mut buffer[..1], &[9]);
    /// check(&rt, another == Err(WrongBuffer));
    /// ```
    pub fn push(
        &mut self,
        alloc: Global,
        buffer: &mut [u8],
        bytes: &[u8],
    ) -> Result<FramePush, WrongBuffer>
        ensures within { IfOk result (λ p. p.used ≤ length bytes.now) }
        ensures forward { IfOk result (λ p. 0 < length bytes.now → 0 < p.used) }
        ensures stands { IfOk result (λ p. (limit s : ℕ) (stream : List ℕ)
            → StandsBehind limit s self.old buffer.old stream
            → StandsBehind limit s self.new buffer.new (stream ++ take p.used bytes.now)) }
        ensures answers { IfOk result (λ p. (limit s : ℕ) (stream : List ℕ)
            → StandsBehind limit s self.old buffer.old stream
            → AnswersCounted limit s stream bytes.now buffer.new p) }
        ensures message { IfOk result (λ p. IsInRoom (length buffer.new) p.event) }
        ensures fits { OnOk result (self.old.count ≤ length buffer.old) }
        ensures wrong { OnErr result (length buffer.old < self.old.count) }
        ensures unchanged { OnErr result ((self.new ≡ self.old) × (buffer.new ≡ buffer.old)) }
        ensures same { KeepsTerms self.old buffer.old self.new buffer.new }
    {
        if buffer.len() < self.count {
            return Err(WrongBuffer);
        }
        let push = self.take(buffer, bytes);
        Ok(as_counted(alloc, push, buffer))
    }

    /// Takes one byte, as `push` of a chunk of this byte does.
    ///
    /// # Errors
    /// `WrongBuffer` exactly if more bytes are begun than the buffer has. Nothing changes.
    ///
    /// # Allocates
    /// Nothing, as `push`.
    #[inline(always)]
    pub fn push_byte(
        &mut self,
        alloc: Global,
        buffer: &mut [u8],
        byte: u8,
    ) -> Result<FramePush, WrongBuffer>
        ensures used { IfOk result (λ p. p.used ≡ 1) }
        ensures stands { IfOk result (λ p. (limit s : ℕ) (stream : List ℕ)
            → StandsBehind limit s self.old buffer.old stream
            → StandsBehind limit s self.new buffer.new (stream ++ (byte ∷ []))) }
        ensures answers { IfOk result (λ p. (limit s : ℕ) (stream : List ℕ)
            → StandsBehind limit s self.old buffer.old stream
            → AnswersCounted limit s stream (byte ∷ []) buffer.new p) }
        ensures message { IfOk result (λ p. IsInRoom (length buffer.new) p.event) }
        ensures fits { OnOk result (self.old.count ≤ length buffer.old) }
        ensures wrong { OnErr result (length buffer.old < self.old.count) }
        ensures unchanged { OnErr result ((self.new ≡ self.old) × (buffer.new ≡ buffer.old)) }
        ensures same { KeepsTerms self.old buffer.old self.new buffer.new }
    {
        if buffer.len() < self.count {
            return Err(WrongBuffer);
        }
        let push = self.take_byte(buffer, byte);
        Ok(as_counted(alloc, push, buffer))
    }

    /// Ends the stream, and returns whether it was truncated: a stretch had begun without an event.
    ///
    /// Afterwards the receiver is a new one, over any buffer, also over one that a push refused, and whatever its numbers were.
    pub fn finish(&mut self) -> bool
        ensures cut { (limit s : ℕ) (buffer stream : List ℕ)
            → StandsBehind limit s self.old buffer stream → result ≡ is_cut (begun limit s stream) }
        ensures anew { (buffer : List ℕ)
            → StandsBehind (length buffer) self.old.sentinel self.new buffer [] }
        ensures sentinel { self.new.sentinel ≡ self.old.sentinel }
    {
        let cut = self.past == 0 && self.count != 0;
        self.past = 0;
        self.count = 0;
        cut
    }

    /// How many bytes the begun stretch has so far; 0 if none has begun, or it is too long.
    pub fn begun_bytes(&self) -> usize
        ensures begun { (limit s : ℕ) (buffer stream : List ℕ)
            → StandsBehind limit s self.now buffer stream
            → result ≡ begun_length (begun limit s stream) }
        ensures count { result ≡ self.now.count }
    {
        self.count
    }
}
