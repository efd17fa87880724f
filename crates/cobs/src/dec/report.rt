//! Results of decoding: how much was used and decoded, or why it failed.
ghost use Rattle.std.specs.Prelude.{◌≡◌};
ghost use Rattle.cobs.specs.Reports.{parsed_size, frame_size};

use thiserror::Error;

// What a byte of a frame, a chunk, a whole frame and a source lead to.
pub(crate) type Fed = Result<Option<usize>, DecodeError>;

pub(crate) type Pushed = Result<Option<DecodeReport>, DecodeError>;

pub(crate) type Decoded = Result<usize, DecodeError>;

pub(crate) type Reported = Result<DecodeReport, DecodeError>;

/// Why decoding failed.
///
/// # Example
/// ```rust
/// let mut cut = [3u8, 10];
/// let refused = DecodeError::InvalidFrame { decoded_bytes: 1 };
/// check(&rt, fails(decode_in_place(&mut cut), refused));
/// ```
#[derive(Clone, Copy, PartialEq, Eq, Debug, Error)]
pub enum DecodeError {
    /// There is no nonzero byte.
    #[error("empty frame")]
    EmptyFrame,
    /// The bytes aren't a frame.
    #[error("invalid frame after {decoded_bytes} bytes")]
    InvalidFrame {
        /// How many bytes of a message the input determines.
        ///
        /// From `decode`, the calls in place, with a sentinel or into a vector: all of them. From `CobsDecoder`,
        /// `CobsDecoderOwned` and `CobsDecoderHeapless`: those that fitted the buffer. From `DecoderState::feed`,
        /// which doesn't count: always 0.
        decoded_bytes: usize,
    },
    /// A byte of the message doesn't fit the buffer.
    #[error("target buffer too small")]
    TargetBufTooSmall,
}

/// How many bytes of a source were used, and how many they decode to.
///
/// # Example
/// ```rust
/// let decoded: Result<DecodeReport, DecodeError> = decode(&[3, 10, 11, 2, 12, 0], &mut message);
/// let is_whole = match decoded {
///     Ok(report) => report.parsed_size() == 6 && report.frame_size() == 4,
///     Err(_) => false,
/// };
/// ```
#[derive(Clone, Copy, PartialEq, Debug)]
pub struct DecodeReport {
    pub(crate) parsed: usize,
    pub(crate) decoded: usize,
}

impl DecodeReport {
    /// Returns how many bytes of the source were used.
    pub fn parsed_size(&self) -> usize
        ensures { result ≡ parsed_size self.now }
    {
        self.parsed
    }

    /// Returns how many bytes the message has.
    pub fn frame_size(&self) -> usize
        ensures { result ≡ frame_size self.now }
    {
        self.decoded
    }
}

/// Another name of [`DecodeReport`].
///
/// # Example
/// ```rust
/// let again: Result<DecodingResult, DecodeError> = decode(&[2, 7], &mut message);
/// ```
pub type DecodingResult = DecodeReport;

/// Why decoding into a new vector failed.
///
/// Example: see [`decode_vec`](crate::decode_vec).
#[derive(Clone, Copy, PartialEq, Eq, Debug, Error)]
pub enum DecodeVecError {
    /// The bytes couldn't be decoded.
    #[error(transparent)]
    Decode(DecodeError),
    /// The message couldn't be allocated.
    #[error("no memory")]
    OutOfMemory,
}
