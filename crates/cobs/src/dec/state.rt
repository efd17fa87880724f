//! The table of all decoders: the position in a frame, and what the next byte means.
ghost use Rattle.std.specs.Prelude.{◌≡◌, ◌<◌, ◌≤◌};
ghost use Rattle.cobs.specs.Feeding.{by_code as state_by_code, fed, next};

use super::report::DecodeError;

/// The position of a decoder in a frame. The caller keeps the message.
///
/// # Example
/// ```rust
/// let mut state = DecoderState::Idle;
/// check(&rt, state.feed(2) == Ok(DecodeResult::DataStart));
/// check(&rt, state.feed(10) == Ok(DecodeResult::DataContinue(10)));
/// check(&rt, state.feed(0) == Ok(DecodeResult::DataComplete));
/// ```
#[derive(Clone, Copy, PartialEq, Debug)]
pub enum DecoderState {
    /// Between frames.
    Idle,
    /// So many bytes of the block are left; the next code stands for a zero.
    Grab(u8),
    /// So many bytes of the block are left; the next code doesn't stand for a zero.
    GrabChain(u8),
}

/// What a byte means.
///
/// Example: see [`DecoderState`].
#[derive(Clone, Copy, PartialEq, Debug)]
pub enum DecodeResult {
    /// Not a byte of a message: a zero between frames, or the code after a full block.
    NoData,
    /// A frame begins.
    DataStart,
    /// The frame is complete.
    DataComplete,
    /// The next byte of the message.
    DataContinue(u8),
}

// The state after a code. The clause that a code is below 256 is needed for a buffer that is borrowed on, of which
// nothing else says it.
#[inline(always)]
pub(crate) fn by_code(code: u8) -> DecoderState
    requires { 0 < code }
    ensures state { result ≡ state_by_code code }
    ensures byte { code < 256 }
{
    if code == 255 {
        DecoderState::GrabChain(254)
    } else {
        DecoderState::Grab(code - 1)
    }
}

impl DecoderState {
    ghost use Rattle.cobs.specs.Taking.{left_in, left_behind};

    /// Takes a byte, and returns what it means: over a frame and a zero, from `Idle`, the bytes of its message.
    ///
    /// The state after every zero is `Idle`.
    ///
    /// # Errors
    /// `InvalidFrame`, with no bytes counted, at a zero inside a block.
    pub fn feed(&mut self, data: u8) -> Result<DecodeResult, DecodeError>
        ensures answer { result ≡ fed self.old «data» }
        ensures state { self.new ≡ next self.old «data» }
    {
        let state = *self;
        let left = state.left();
        if data == 0 {
            *self = DecoderState::Idle;
            if let DecoderState::Idle = state {
                return Ok(DecodeResult::NoData);
            }
            if 0 < left {
                return Err(DecodeError::InvalidFrame { decoded_bytes: 0 });
            }
            return Ok(DecodeResult::DataComplete);
        }
        if 0 < left {
            *self = state.behind(1);
            return Ok(DecodeResult::DataContinue(data));
        }
        *self = by_code(data);
        match state {
            DecoderState::Idle => Ok(DecodeResult::DataStart),
            DecoderState::Grab(_) => Ok(DecodeResult::DataContinue(0)),
            DecoderState::GrabChain(_) => Ok(DecodeResult::NoData),
        }
    }

    // How many bytes of the open block are left.
    #[inline(always)]
    pub(crate) fn left(self) -> u8
        ensures { result ≡ left_in self }
    {
        match self {
            DecoderState::Idle => 0,
            DecoderState::Grab(left) | DecoderState::GrabChain(left) => left,
        }
    }

    // The state after so many of them.
    #[inline(always)]
    pub(crate) fn behind(self, n: u8) -> DecoderState
        requires { n ≤ left_in self }
        ensures { result ≡ left_behind self n }
    {
        match self {
            DecoderState::Idle => DecoderState::Idle,
            DecoderState::Grab(left) => DecoderState::Grab(left - n),
            DecoderState::GrabChain(left) => DecoderState::GrabChain(left - n),
        }
    }
}
