//! Decoders with a limit that is set at run time.
ghost use Rattle.std.specs.Prelude.{[], IfOk};

use crate::by_type::ByType;
use crate::decoder::AnswerDecoder;
use link::{NoMemory, OfType, Ordinary, OwnedBuffer, OwnedReceiver, Strict};
use std::alloc::Global;

/// A decoder with the results of `push` of an `OwnedReceiver`.
///
/// # Example
/// ```rust
/// let decoder = match OwnedLinkDecoder::<T>::new(rt.alloc(), limit, sentinel) {
///     Ok(decoder) => decoder,
///     Err(NoMemory) => return Err(io::ErrorKind::OutOfMemory.into()),
/// };
/// let answers = FramedRead::new(rt.alloc(), stream, decoder)?;
/// ```
pub type OwnedLinkDecoder<T> = AnswerDecoder<T, Ordinary<OfType>, OwnedBuffer>;

/// As `OwnedLinkDecoder`, with the results of `push_strict`: a value only for exactly the frame that sending it writes.
///
/// # Example
/// ```rust
/// match StrictOwnedLinkDecoder::new(rt.alloc(), limit, sentinel) {
///     Ok(decoder) => Some(hear(rt, line, decoder)),
///     Err(_) => None,
/// }
/// ```
pub type StrictOwnedLinkDecoder<T> = AnswerDecoder<T, Strict<OfType>, OwnedBuffer>;

impl<T, M: ByType> AnswerDecoder<T, M, OwnedBuffer> {
    ghost use Rattle.link_codec.specs.Decoders.{IsGiven};

    /// A decoder that was given nothing, with this limit and sentinel.
    ///
    /// # Errors
    /// `NoMemory` if its buffer could not be allocated.
    ///
    /// # Allocates
    /// A buffer of `limit` bytes; later only what the values need.
    pub fn new(
        alloc: Global,
        limit: usize,
        sentinel: u8,
    ) -> Result<AnswerDecoder<T, M, OwnedBuffer>, NoMemory>
        ensures { IfOk result (λ d. IsGiven limit sentinel d []) }
    {
        let receiver = OwnedReceiver::new(alloc, limit, sentinel)?;
        Ok(AnswerDecoder::with(receiver, M::by_type()))
    }
}
