//! Decoders with a limit that is part of the type.
ghost use Rattle.std.specs.Prelude.{[]};

use crate::by_type::ByType;
use crate::decoder::AnswerDecoder;
use link::{ArrayBuffer, OfType, Ordinary, Receiver, Strict};

/// A decoder with the results of `push` of a `Receiver<N>`: stretches of at most N bytes; N may be 0. It allocates only for values.
///
/// # Example
/// ```rust
/// type Short = LinkDecoder<String, 4>;
/// ```
/// ```rust
/// hear(rt, line, Short::new())
/// ```
pub type LinkDecoder<T, const N: usize> = AnswerDecoder<T, Ordinary<OfType>, ArrayBuffer<N>>;

/// As `LinkDecoder`, with the results of `push_strict`: a value only for exactly the frame that sending it writes.
///
/// Example: see [`LinkCodec`].
pub type StrictLinkDecoder<T, const N: usize> = AnswerDecoder<T, Strict<OfType>, ArrayBuffer<N>>;

impl<T, M: ByType, const N: usize> AnswerDecoder<T, M, ArrayBuffer<N>> {
    ghost use Rattle.link_codec.specs.Decoders.{IsGiven};

    /// A decoder that was given nothing, with the sentinel zero.
    pub fn new() -> AnswerDecoder<T, M, ArrayBuffer<N>>
        ensures { IsGiven N 0 result [] }
    {
        AnswerDecoder::<T, M, ArrayBuffer<N>>::new_with_sentinel(0)
    }

    /// As `new`, with this sentinel.
    pub fn new_with_sentinel(sentinel: u8) -> AnswerDecoder<T, M, ArrayBuffer<N>>
        ensures { IsGiven N sentinel result [] }
    {
        AnswerDecoder::with(Receiver::<N>::new_with_sentinel(sentinel), M::by_type())
    }
}
