//! Decoding a frame in chunks into a buffer: the state of the streaming decoders beside their buffer.
//!
//! What fits is taken by one search and one copy, with zeros written at the codes. First codes, sentinels, bytes that
//! don't fit and chunks of up to 8 bytes go one by one. `take_some` and `take_some_within` have one caller for each
//! copy, so they are inlined. Facts for each prefix don't bound an index: so contracts have `within` beside `answer`.
ghost use Rattle.std.specs.Prelude.{◌≡◌, ◌≢◌, ◌^◌, min, nat_lt, if◌then◌else◌, Ok, Err, None, slice_set, ℕ, ◌+◌, ◌-◌, ◌<◌, ◌≤◌, List, [], ◌∷◌, length, take, drop, slice_index, ◌↔◌, IsTrue, IfOk, IfSome};
ghost use Rattle.cobs.specs.Sentinel.{masked};
ghost use Rattle.cobs.specs.Streaming.{HasStreamed};
ghost use Rattle.cobs.specs.declared.dec.report.DecodeError.TheVariants.{TargetBufTooSmall};

use super::report::{DecodeError, DecodeReport, Fed, Pushed};
use super::state::{DecoderState, by_code};
use super::window::{FEW, ROW, WINDOW, copy_until, put_zeros, same_by_64};
use crate::finding::before_sentinel;
use crate::moves::{copy_block, copy_over, move_down, zero_over};

// How far a frame was taken, and how many bytes of its message were decided, also those that didn't fit.
#[derive(Clone, Copy)]
pub(crate) struct Progress {
    pub(crate) state: DecoderState,
    pub(crate) len: usize,
}

impl Progress {
    ghost use Rattle.cobs.specs.Feeding.{at_zero};
    ghost use Rattle.cobs.specs.Taking.{FeedsByte, TakesPiece, TakesOn, Owes};

    pub(crate) fn new() -> Progress
        ensures { HasStreamed result [] }
    {
        Progress {
            state: DecoderState::Idle,
            len: 0,
        }
    }

    pub(crate) fn is_new(&self) -> bool
        ensures idle { IsTrue result ↔ HasStreamed self.now [] }
        ensures begun { (p : List ℕ) → HasStreamed self.now p → (IsTrue result ↔ p ≡ []) }
    {
        matches!(self.state, DecoderState::Idle) && self.len == 0
    }

    // Counts a byte of the message, and writes it if it fits.
    #[inline(always)]
    fn put(&mut self, buffer: &mut [u8], byte: u8) -> Fed
        ensures state { self.new.state ≡ self.old.state }
        ensures len { self.new.len ≡ min (self.old.len + 1) (2 ^ 64 - 1) }
        ensures answer { result ≡ if nat_lt self.old.len (length buffer.old) then Ok None
            else Err TargetBufTooSmall }
        ensures buffer { buffer.new ≡ slice_set buffer.old self.old.len byte }
    {
        let place = self.len;
        if buffer.len() <= place {
            self.len = place.saturating_add(1);
            return Err(DecodeError::TargetBufTooSmall);
        }
        buffer[place] = byte;
        self.len = place + 1;
        Ok(None)
    }

    // Takes the next bytes at once, each XORed with the sentinel, if they are codes 01 after a block, each of which is a zero
    // of the message. All fit. Returns how many.
    #[inline(always)]
    fn take_row(&mut self, buffer: &mut [u8], bytes: &[u8], sentinel: u8) -> usize
        requires { 0 < length bytes.now → self.old.len + length bytes.now ≤ length buffer.old }
        ensures within { result ≤ length bytes.now }
        ensures len { self.new.len ≡ self.old.len + result }
        ensures front { TakesOn self.old buffer.old sentinel bytes.now result self.new buffer.new }
    {
        let DecoderState::Grab(0) = self.state else {
            return 0;
        };
        let row = same_by_64(sentinel ^ 1, bytes);
        if row == 0 {
            return 0;
        }
        zero_over(buffer, self.len, row);
        self.len += row;
        row
    }

    // The same of bytes of an open block: none of them is the sentinel. As many as a window may have.
    #[inline(always)]
    fn take_clear(&mut self, buffer: &mut [u8], bytes: &[u8], sentinel: u8) -> usize
        requires room { self.old.len + length bytes.now ≤ length buffer.old }
        requires clear { (k : ℕ) → k < length bytes.now → slice_index bytes.now k ≢ sentinel }
        ensures within { result ≤ length bytes.now }
        ensures len { self.new.len ≡ self.old.len + result }
        ensures coded { 0 < length bytes.now → result ≡ 0 → Owes self.new.state }
        ensures front { TakesOn self.old buffer.old sentinel bytes.now result self.new buffer.new }
    {
        let len = self.len;
        match self.state {
            DecoderState::Grab(left) => {
                let n = bytes.len().min(WINDOW);
                copy_over(&bytes[..n], buffer, len, sentinel);
                self.state = put_zeros(&mut buffer[len..len + n], left);
                self.len = len + n;
                n
            }
            DecoderState::GrabChain(left) if 0 < left => {
                let n = bytes.len().min(left as usize);
                copy_block(&bytes[..n], buffer, len, sentinel);
                self.state = DecoderState::GrabChain(left - n as u8);
                self.len = len + n;
                n
            }
            _ => 0,
        }
    }

    // The same of bytes of any number, also codes 01, and with the code before them if no block is open: at least one. A full
    // block after another one is handled separately: what is kept is then known, and the same after it. It is compiled once for
    // each number and kind: one that is called once goes into its caller.
    #[inline(always)]
    pub(crate) fn take_some<const COPY: usize, const FULL: bool>(
        &mut self,
        buffer: &mut [u8],
        bytes: &[u8],
        sentinel: u8,
    ) -> usize
        requires some { 0 < length bytes.now }
        requires room { self.old.len + length bytes.now ≤ length buffer.old }
        requires clear { (k : ℕ) → k < length bytes.now → slice_index bytes.now k ≢ sentinel }
        ensures some { 0 < result }
        ensures within { result ≤ length bytes.now }
        ensures len { self.new.len ≤ self.old.len + result }
        ensures front { TakesOn self.old buffer.old sentinel bytes.now result self.new buffer.new }
    {
        if FULL && bytes.len() == 255 && sentinel ^ bytes[0] == u8::MAX {
            if let DecoderState::GrabChain(0) = self.state {
                copy_over(&bytes[1..], buffer, self.len, sentinel);
                self.len += WINDOW;
                return 255;
            }
        }
        let row = self.take_row(buffer, bytes, sentinel);
        if 0 < row {
            return row;
        }
        let taken = self.take_clear(buffer, bytes, sentinel);
        if 0 < taken {
            return taken;
        }
        self.state = by_code(sentinel ^ bytes[0]);
        1 + self.take_clear(buffer, &bytes[1..], sentinel)
    }

    // The same of all of any number.
    #[inline(always)]
    pub(crate) fn take_all<const COPY: usize>(
        &mut self,
        buffer: &mut [u8],
        bytes: &[u8],
        sentinel: u8,
    )
        requires room { 0 < length bytes.now → self.old.len + length bytes.now ≤ length buffer.old }
        requires clear { (k : ℕ) → k < length bytes.now → slice_index bytes.now k ≢ sentinel }
        ensures { TakesOn self.old buffer.old sentinel bytes.now (length bytes.now) self.new
            buffer.new }
    {
        let mut read: usize = 0;
        while read < bytes.len() {
            read += self.take_some::<COPY, false>(buffer, &bytes[read..], sentinel);
        }
    }

    // Takes the next bytes of the buffer itself at once, each XORed with the sentinel, if they are in an open block: up to a
    // position before which there is no sentinel, or as many as a window may have; codes 01 in any number. Returns how many.
    #[inline(always)]
    fn take_within(&mut self, buffer: &mut [u8], read: usize, end: usize, sentinel: u8) -> usize
        requires some { read ≤ end }
        requires inside { end ≤ length buffer.old }
        requires behind { self.old.len ≤ read }
        requires clear { (k : ℕ) → read ≤ k → k < end → slice_index buffer.old k ≢ sentinel }
        ensures within { result ≤ end - read }
        ensures coded { read < end → result ≡ 0 → Owes self.new.state }
        ensures front { TakesOn self.old buffer.old sentinel
            (take (end - read) (drop read buffer.old)) result self.new buffer.new }
    {
        let len = self.len;
        match self.state {
            DecoderState::Grab(left) => {
                if left == 0 {
                    let row = same_by_64(sentinel ^ 1, &buffer[read..end]);
                    if 0 < row {
                        zero_over(buffer, len, row);
                        self.len = len + row;
                        return row;
                    }
                }
                let n = (end - read).min(WINDOW);
                move_down(buffer, read, n, len, sentinel);
                self.state = put_zeros(&mut buffer[len..len + n], left);
                self.len = len + n;
                n
            }
            DecoderState::GrabChain(left) if 0 < left => {
                let n = (end - read).min(left as usize);
                move_down(buffer, read, n, len, sentinel);
                self.state = DecoderState::GrabChain(left - n as u8);
                self.len = len + n;
                n
            }
            _ => 0,
        }
    }

    // The same of bytes of any number, with the code before them if no block is open: at least one. That of a full block is
    // handled separately, so that as many are moved as are known.
    #[inline(always)]
    pub(crate) fn take_some_within<const COPY: usize, const PLACE: usize>(
        &mut self,
        buffer: &mut [u8],
        read: usize,
        end: usize,
        sentinel: u8,
    ) -> usize
        requires begun { (p : List ℕ) × HasStreamed self.old p }
        requires some { read < end }
        requires inside { end ≤ length buffer.old }
        requires behind { self.old.len ≤ read }
        requires clear { (k : ℕ) → read ≤ k → k < end → slice_index buffer.old k ≢ sentinel }
        ensures some { 0 < result }
        ensures within { result ≤ end - read }
        ensures front { TakesOn self.old buffer.old sentinel
            (take (end - read) (drop read buffer.old)) result self.new buffer.new }
    {
        let taken = self.take_within(buffer, read, end, sentinel);
        if 0 < taken {
            return taken;
        }
        let code = sentinel ^ buffer[read];
        if code == u8::MAX {
            self.state = DecoderState::GrabChain(254);
            return 1 + self.take_within(buffer, read + 1, end, sentinel);
        }
        self.state = by_code(code);
        1 + self.take_within(buffer, read + 1, end, sentinel)
    }

    // Ends the frame at a zero.
    #[inline(always)]
    pub(crate) fn end(&mut self, room: usize) -> Fed
        requires { room < 2 ^ 63 }
        ensures stands { HasStreamed self.new [] }
        ensures answer { (p : List ℕ) → HasStreamed self.old p → result ≡ at_zero room p }
        ensures within { IfOk result (λ o. IfSome o (λ n. n ≤ room)) }
    {
        let Progress { mut state, len } = *self;
        *self = Progress::new();
        if let DecoderState::Idle = state {
            return Ok(None);
        }
        match state.feed(0) {
            Err(_) => Err(DecodeError::InvalidFrame {
                decoded_bytes: len.min(room),
            }),
            Ok(_) if room < len => Err(DecodeError::TargetBufTooSmall),
            Ok(_) => Ok(Some(len)),
        }
    }

    // Takes a byte of a frame, or the zero after one. What is kept is written where it is known: where the ways join, a byte
    // costs a third more.
    #[inline(always)]
    pub(crate) fn feed(&mut self, buffer: &mut [u8], byte: u8) -> Fed
        ensures { FeedsByte self.old buffer.old byte result self.new buffer.new }
    {
        if byte == 0 {
            return self.end(buffer.len());
        }
        let state = self.state;
        if 0 < state.left() {
            self.state = state.behind(1);
            return self.put(buffer, byte);
        }
        self.state = by_code(byte);
        match state {
            DecoderState::Grab(_) => self.put(buffer, 0),
            _ => Ok(None),
        }
    }

    // Takes bytes before a sentinel, at most a window, if the next code stands for a zero: they are searched as they are copied.
    // All fit. Returns how many.
    #[inline(always)]
    fn take_window(&mut self, buffer: &mut [u8], bytes: &[u8], sentinel: u8) -> usize
        requires few { length bytes.now ≤ 254 }
        requires room { self.old.len + length bytes.now ≤ length buffer.old }
        ensures within { result ≤ length bytes.now }
        ensures len { self.new.len ≡ self.old.len + result }
        ensures front { TakesOn self.old buffer.old sentinel bytes.now result self.new buffer.new }
    {
        let DecoderState::Grab(left) = self.state else {
            return 0;
        };
        let len = self.len;
        let n = copy_until(bytes, buffer, len, sentinel);
        self.state = put_zeros(&mut buffer[len..len + n], left);
        self.len = len + n;
        n
    }

    // Takes the next bytes at once, each XORed with the sentinel, as many as certainly fit: a row of codes 01, or up to a
    // sentinel. None of few bytes, for which this costs more, nor a frame's first one, after which a row may come. Returns how
    // many.
    #[inline(always)]
    fn take_stretch(&mut self, buffer: &mut [u8], piece: &[u8], sentinel: u8) -> usize
        ensures within { result ≤ length piece.now }
        ensures front { TakesOn self.old buffer.old sentinel piece.now result self.new buffer.new }
    {
        if let DecoderState::Idle = self.state {
            return 0;
        }
        let room = buffer.len().saturating_sub(self.len);
        let front = &piece[..piece.len().min(room).min(ROW)];
        if front.len() < FEW {
            return 0;
        }
        let row = self.take_row(buffer, front, sentinel);
        if 0 < row {
            return row;
        }
        let window = self.take_window(buffer, &front[..front.len().min(WINDOW)], sentinel);
        if 0 < window {
            return window;
        }
        let n = before_sentinel(front, sentinel);
        self.take_all::<3>(buffer, &front[..n], sentinel);
        n
    }

    // Takes a chunk, of which each byte is XORed with the sentinel, up to the first result: bytes before a sentinel at once,
    // and sentinels and bytes that don't fit by themselves.
    #[inline(never)]
    fn push_piece(&mut self, buffer: &mut [u8], piece: &[u8], sentinel: u8) -> Pushed
        ensures { TakesPiece self.old buffer.old
            (masked sentinel piece.now) result self.new buffer.new }
    {
        let mut at = 0;
        loop {
            at += self.take_stretch(buffer, &piece[at..], sentinel);
            if at == piece.len() {
                return Ok(None);
            }
            match self.feed(buffer, sentinel ^ piece[at])? {
                None => at += 1,
                Some(decoded) => {
                    let parsed = at + 1;
                    return Ok(Some(DecodeReport { parsed, decoded }));
                }
            }
        }
    }

    // The same of few bytes, one by one.
    #[inline(always)]
    fn push_few(&mut self, buffer: &mut [u8], piece: &[u8], sentinel: u8) -> Pushed
        ensures { TakesPiece self.old buffer.old
            (masked sentinel piece.now) result self.new buffer.new }
    {
        for at in 0..piece.len() {
            if let Some(decoded) = self.feed(buffer, sentinel ^ piece[at])? {
                let parsed = at + 1;
                return Ok(Some(DecodeReport { parsed, decoded }));
            }
        }
        Ok(None)
    }

    // The same of one byte, by itself.
    #[inline(always)]
    fn push_byte(&mut self, buffer: &mut [u8], byte: u8) -> Pushed
        ensures { TakesPiece self.old buffer.old (byte ∷ []) result self.new buffer.new }
    {
        match self.feed(buffer, byte)? {
            Some(decoded) => Ok(Some(DecodeReport { parsed: 1, decoded })),
            None => Ok(None),
        }
    }

    // Takes a chunk up to the first result. Each call gets a copy of what is kept, so that this can stay in registers.
    #[inline(always)]
    pub(crate) fn push(&mut self, buffer: &mut [u8], piece: &[u8], sentinel: u8) -> Pushed
        ensures { TakesPiece self.old buffer.old
            (masked sentinel piece.now) result self.new buffer.new }
    {
        if let [byte] = piece {
            return self.push_byte(buffer, sentinel ^ *byte);
        }
        if piece.len() <= 2 * FEW {
            let mut few = *self;
            let answer = few.push_few(buffer, piece, sentinel);
            *self = few;
            return answer;
        }
        let mut now = *self;
        let answer = now.push_piece(buffer, piece, sentinel);
        *self = now;
        answer
    }
}
