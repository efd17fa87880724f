//! The errors of a codec.
ghost use Rattle.std.specs.Prelude.{◌≡◌};

use std::io;

/// Why a decoder gave no result. After one a framed reader returns `None` once, and reads on when it is polled again.
///
/// # Example
/// ```rust
/// match polled {
///     Poll::Ready(Some(Ok(answer))) => of_answer(answer),
///     Poll::Ready(Some(Err(DecodeError::NoMemory))) => b'!',
///     Poll::Ready(Some(Err(DecodeError::Io(_)))) => b'#',
///     Poll::Ready(None) => b'.',
///     Poll::Pending => b'_',
/// }
/// ```
#[derive(Clone, Copy, Debug)]
pub enum DecodeError {
    /// A value could not be allocated. Its frame is gone.
    NoMemory,
    /// The reader failed, or the buffer of the stream could not be allocated.
    Io(io::Error),
}

/// Why a value wasn't written. None of its bytes was.
///
/// # Example
/// ```rust
/// match encoder.encode("aa", line) {
///     Err(EncodeError::Refused(Error::SerializeBufferFull)) => encoder.is_clean() == is_clean,
///     _ => false,
/// }
/// ```
#[derive(Clone, Copy, Debug)]
pub enum EncodeError {
    /// The value can't be encoded, or its frame is longer than N bytes (`SerializeBufferFull`); if both hold, either.
    Refused(postcard::Error),
    /// The writer failed, or the buffer of the sink could not be allocated.
    Io(io::Error),
}

impl From<io::Error> for DecodeError {
    ghost use Rattle.link_codec.specs.declared.error.DecodeError.TheVariants.{Io};

    ghost from_gives = { λ e r. r ≡ Io e };

    fn from(e: io::Error) -> DecodeError {
        DecodeError::Io(e)
    }
}

impl From<io::Error> for EncodeError {
    ghost use Rattle.link_codec.specs.declared.error.EncodeError.TheVariants.{Io};

    ghost from_gives = { λ e r. r ≡ Io e };

    fn from(e: io::Error) -> EncodeError {
        EncodeError::Io(e)
    }
}
