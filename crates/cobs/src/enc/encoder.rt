//! Encoding a message in chunks, into the caller's buffer, which the encoder borrows or is passed at each call.
ghost use Rattle.std.specs.Prelude.{◌≡◌, ℕ, ◌<◌, ◌≤◌, List, [], ◌++◌, length, take, true, false, OnOk, OnErr, ◌⊎◌};
ghost use Rattle.cobs.specs.Frames.{shortest_frame};
ghost use Rattle.cobs.specs.Sentinel.{frame_for};
ghost use Rattle.cobs.specs.Fronts.{StandsIn, message_in, is_over, sentinel_in};

use super::DestBufTooSmallError;
use crate::codes::{Place, put_all};

/// Encodes a message in chunks, into a borrowed buffer.
///
/// The buffer always begins with the shortest frame of everything pushed so far. After a push that fails, every later
/// push fails too, and the frame's length is 0.
///
/// # Example
/// ```rust
/// let mut buffer = [0u8; 5];
/// let mut encoder = CobsEncoder::new(&mut buffer);
/// check(&rt, encoder.push(&[10, 11]).is_ok());
/// check(&rt, encoder.push(&[0, 12]).is_ok());
/// check(&rt, encoder.finalize() == 5);
/// check(&rt, are_equal(&buffer, &[3, 10, 11, 2, 12]));
/// ```
#[derive(Drop)]
pub struct CobsEncoder<'a> {
    dest: &'a mut [u8],
    front: FrameFront,
    ghost stands: { StandsIn dest.now front },
}

impl<'a> CobsEncoder<'a> {
    ghost use Rattle.cobs.specs.Encoder.{message_of, room_of, is_spent, buffer_of, lent_name, sentinel_of};

    /// Begins a frame in a buffer.
    ///
    /// # Requires
    /// The buffer isn't empty.
    pub fn new(dest: &'a mut [u8]) -> CobsEncoder<'a>
        requires { 0 < length dest.old }
        ensures message { message_of result ≡ [] }
        ensures ready { is_spent result ≡ false }
        ensures room { room_of result ≡ length dest.old }
        ensures lent { lent_name result ≡ dest.entry.ghost_name }
        ensures sentinel { sentinel_of result ≡ 0 }
    {
        CobsEncoder::new_with_sentinel(dest, 0)
    }

    /// Begins a frame whose bytes are XORed with `sentinel`, so that it doesn't contain the sentinel.
    ///
    /// # Requires
    /// The buffer isn't empty.
    pub fn new_with_sentinel(dest: &'a mut [u8], sentinel: u8) -> CobsEncoder<'a>
        requires { 0 < length dest.old }
        ensures message { message_of result ≡ [] }
        ensures ready { is_spent result ≡ false }
        ensures room { room_of result ≡ length dest.old }
        ensures lent { lent_name result ≡ dest.entry.ghost_name }
        ensures sentinel { sentinel_of result ≡ sentinel }
    {
        let front = FrameFront::begin_with_sentinel(dest, sentinel);
        CobsEncoder { dest, front }
    }

    /// Appends a chunk, which may be empty, to the message. An empty chunk leaves the buffer unchanged.
    ///
    /// # Errors
    /// `DestBufTooSmallError` exactly if the shortest frame of everything pushed so far and this chunk doesn't fit,
    /// or an earlier push failed. The encoder is then spent: every later push fails too, even an empty one.
    #[inline(always)]
    pub fn push(&mut self, data: &[u8]) -> Result<(), DestBufTooSmallError>
        ensures ok { OnOk result ((is_spent self.old ≡ false) × (is_spent self.new ≡ false)
            × (message_of self.new ≡ message_of self.old ++ «data».now)
            × (length (shortest_frame (message_of self.new)) ≤ room_of self.new)) }
        ensures err { OnErr result ((is_spent self.new ≡ true)
            × ((is_spent self.old ≡ true)
            ⊎ (room_of self.old < length (shortest_frame (message_of self.old ++ «data».now))))) }
        ensures nothing { «data».now ≡ [] → buffer_of self.new ≡ buffer_of self.old }
        ensures room { room_of self.new ≡ room_of self.old }
        ensures lent { lent_name self.new ≡ lent_name self.old }
        ensures sentinel { sentinel_of self.new ≡ sentinel_of self.old }
    {
        let mut front = self.front;
        let pushed = front.push(self.dest, data);
        self.front = front;
        pushed
    }

    /// Returns the length of the frame so far, without ending it; 0 after a push that failed. The buffer begins with
    /// that frame.
    pub fn frame_length(&self) -> usize
        ensures spent { is_spent self.now ≡ true → result ≡ 0 }
        ensures length { is_spent self.now ≡ false
            → (0 < result) × (result ≡ length (shortest_frame (message_of self.now))) }
        ensures frame { is_spent self.now ≡ false → take result (buffer_of self.now)
            ≡ frame_for (sentinel_of self.now) (message_of self.now) }
    {
        self.front.length()
    }

    /// Ends the message, and returns the length of its frame; 0 after a push that failed. The buffer begins with that
    /// frame.
    ///
    /// The bytes after the frame, and the whole buffer after a failure, aren't specified.
    pub fn finalize(self) -> usize
        ensures spent { is_spent self.entry ≡ true → result ≡ 0 }
        ensures length { is_spent self.entry ≡ false
            → (0 < result) × (result ≡ length (shortest_frame (message_of self.entry))) }
        // `self.exit.0` is the buffer as the caller gets it back.
        ensures frame { is_spent self.entry ≡ false → take result self.exit.0.now
            ≡ frame_for (sentinel_of self.entry) (message_of self.entry) }
    {
        let CobsEncoder { dest: _, front } = self;
        front.length()
    }
}

/// The state of a frame in progress, without its buffer: what a [`CobsEncoder`] keeps beside its buffer.
///
/// The buffer is passed at each call; nothing else may write to it meanwhile.
///
/// # Example
/// ```rust
/// let mut buffer = [0u8; 5];
/// let mut front = FrameFront::begin(&mut buffer);
/// check(&rt, front.push(&mut buffer, &[10, 11]).is_ok());
/// check(&rt, front.length() == 3);
/// check(&rt, are_equal(&buffer[..3], &[3, 10, 11]));
/// ```
#[derive(Clone, Copy, Drop)]
pub struct FrameFront {
    place: Place,
    spent: bool,
    sentinel: u8,
}

impl FrameFront {
    /// Begins a frame in a buffer, and returns its state.
    ///
    /// # Requires
    /// The buffer isn't empty.
    pub fn begin(dest: &mut [u8]) -> FrameFront
        requires { 0 < length dest.old }
        ensures stands { StandsIn dest.new result }
        ensures message { message_in dest.new result ≡ [] }
        ensures ready { is_over result ≡ false }
        ensures sentinel { sentinel_in result ≡ 0 }
    {
        FrameFront::begin_with_sentinel(dest, 0)
    }

    /// Begins a frame whose bytes are XORed with `sentinel`, and returns its state.
    ///
    /// # Requires
    /// The buffer isn't empty.
    pub fn begin_with_sentinel(dest: &mut [u8], sentinel: u8) -> FrameFront
        requires { 0 < length dest.old }
        ensures stands { StandsIn dest.new result }
        ensures message { message_in dest.new result ≡ [] }
        ensures ready { is_over result ≡ false }
        ensures sentinel { sentinel_in result ≡ sentinel }
    {
        dest[0] = sentinel ^ 1;
        FrameFront {
            place: Place { code_at: 0, len: 1 },
            spent: false,
            sentinel,
        }
    }

    /// Appends a chunk to the message.
    ///
    /// # Errors
    /// `DestBufTooSmallError` exactly if the shortest frame of everything pushed so far and this chunk doesn't fit
    /// `dest`, or an earlier push failed. Every later push then fails too, even an empty one.
    ///
    /// # Requires
    /// `dest` is the buffer of the earlier calls, unchanged since.
    #[inline(always)]
    pub fn push(&mut self, dest: &mut [u8], data: &[u8]) -> Result<(), DestBufTooSmallError>
        requires { StandsIn dest.old self.old }
        ensures stands { StandsIn dest.new self.new }
        ensures ok { OnOk result ((is_over self.old ≡ false) × (is_over self.new ≡ false)
            × (message_in dest.new self.new ≡ message_in dest.old self.old ++ «data».now)
            × (length (shortest_frame (message_in dest.new self.new)) ≤ length dest.new)) }
        ensures err { OnErr result ((is_over self.new ≡ true)
            × ((is_over self.old ≡ true) ⊎ (length dest.old
            < length (shortest_frame (message_in dest.old self.old ++ «data».now))))) }
        ensures nothing { «data».now ≡ [] → dest.new ≡ dest.old }
        ensures sentinel { sentinel_in self.new ≡ sentinel_in self.old }
    {
        if self.spent {
            return Err(DestBufTooSmallError);
        }
        let next = put_all::<0>(dest, self.place, data, self.sentinel);
        if next.len == 0 {
            self.spent = true;
            return Err(DestBufTooSmallError);
        }
        self.place = next;
        Ok(())
    }

    /// Returns the length of the frame so far; 0 after a push that failed.
    pub fn length(&self) -> usize
        ensures spent { is_over self.now ≡ true → result ≡ 0 }
        ensures length { (buffer : List ℕ) → StandsIn buffer self.now → is_over self.now ≡ false
            → (0 < result) × (result ≡ length (shortest_frame (message_in buffer self.now))) }
        ensures frame { (buffer : List ℕ) → StandsIn buffer self.now → is_over self.now ≡ false
            → take result buffer ≡ frame_for (sentinel_in self.now) (message_in buffer self.now) }
    {
        if self.spent { 0 } else { self.place.len }
    }
}
