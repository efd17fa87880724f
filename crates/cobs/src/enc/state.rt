//! Encoding byte by byte: what the caller does to the buffer that it keeps.
ghost use Rattle.std.specs.Prelude.{◌≡◌, ◌^◌, ℕ, ◌+◌, ◌<◌, ◌↔◌, List, [], ◌∷◌, ◌++◌, length, slice_set, IsTrue};
ghost use Rattle.cobs.specs.Frames.{longest_frame};

use std::alloc::AllocError;

/// What the caller of an [`EncoderState`] does to its buffer.
///
/// Example: see [`EncoderState`].
#[derive(Clone, Copy, PartialEq, Debug)]
pub enum PushResult {
    /// Append the byte.
    AddSingle(u8),
    /// Set the byte at the index to the code, and append a placeholder.
    ModifyFromStartAndSkip((usize, u8)),
    /// Set the byte at the index to the code, append the byte and then a placeholder.
    ModifyFromStartAndPushAndSkip((usize, u8, u8)),
}

/// Encodes a message byte by byte, into a buffer that the caller keeps.
///
/// The buffer begins as one placeholder of any value. For each byte the caller does what `push` returns, and in the
/// end what `finalize` returns. Every index in these results is within the buffer.
///
/// The buffer is then the longest frame of what was pushed, since a placeholder follows a full block at once. It has
/// one block 01 more than the frame of `encode` if the message ends in a nonzero run whose length is a positive
/// multiple of 254.
///
/// # Example
/// ```rust
/// let mut state = EncoderState::default();
/// check(
///     &rt,
///     state.can_push() && state.push(10) == PushResult::AddSingle(10),
/// );
/// check(&rt, state.finalize() == (0, 2));
/// ```
#[derive(Drop)]
pub struct EncoderState {
    code_at: usize,
    code: u8,
    ghost begun: { 0 < code },
    ghost not_full: { code < 255 },
}

impl EncoderState {
    ghost use Rattle.cobs.specs.Kept.{applied, Keeps, SetsWithin, next_placeholder};

    /// Returns whether the index of the next placeholder is known to fit `usize`, which `push` requires.
    ///
    /// It is while the buffer has fewer than 2^64 - 255 bytes.
    pub fn can_push(&self) -> bool
        ensures fits { IsTrue result ↔ (next_placeholder self.now < 2 ^ 64) }
        ensures near { (buffer message : List ℕ) → Keeps self.now buffer message
            → next_placeholder self.now < length buffer + 255 }
    {
        self.code_at <= usize::MAX - 255
    }

    /// Takes the next byte of the message, and returns what to do to the buffer.
    ///
    /// # Requires
    /// `can_push` holds: the index of the next placeholder fits `usize`.
    pub fn push(&mut self, byte: u8) -> PushResult
        requires { next_placeholder self.old < 2 ^ 64 }
        ensures keeps { (placeholder : ℕ) (buffer message : List ℕ) → Keeps self.old buffer message
            → Keeps self.new (applied result placeholder buffer) (message ++ byte ∷ []) }
        ensures within { (buffer message : List ℕ) → Keeps self.old buffer message
            → SetsWithin result buffer }
    {
        let code_at = self.code_at;
        let code = self.code;
        if byte == 0 {
            self.code_at = code_at + code as usize;
            self.code = 1;
            return PushResult::ModifyFromStartAndSkip((code_at, code));
        }
        if code == 254 {
            self.code_at = code_at + 255;
            self.code = 1;
            return PushResult::ModifyFromStartAndPushAndSkip((code_at, 255, byte));
        }
        self.code = code + 1;
        PushResult::AddSingle(byte)
    }

    /// Ends the message, and returns an index and the code to set there. The buffer is then the frame.
    pub fn finalize(self) -> (usize, u8)
        ensures frame { (buffer message : List ℕ) → Keeps self buffer message
            → slice_set buffer result.0 result.1 ≡ longest_frame message }
        ensures within { (buffer message : List ℕ) → Keeps self buffer message
            → result.0 < length buffer }
    {
        (self.code_at, self.code)
    }
}

/// A state to which nothing was pushed. Its buffer is one placeholder.
impl Default for EncoderState {
    ghost use Rattle.cobs.specs.Kept.{Keeps};

    ghost is_default = { λ state. (placeholder : ℕ) → Keeps state (placeholder ∷ []) [] };

    fn default() -> EncoderState {
        EncoderState {
            code_at: 0,
            code: 1,
        }
    }
}

/// The same state, for a copy of the buffer. It allocates nothing and is never an error.
impl Clone for EncoderState {
    ghost is_clone = { λ x y. y ≡ x };

    ghost is_infallible = { λ _. Unit {0} };

    fn clone(&self) -> Result<EncoderState, AllocError> {
        Ok(EncoderState {
            code_at: self.code_at,
            code: self.code,
        })
    }
}
