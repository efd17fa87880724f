//! A decoder and an encoder in one, as `Framed` requires.
ghost use Rattle.std.specs.Prelude.{◌≡◌};

use crate::encoder::LinkEncoder;
use crate::error::EncodeError;
use bytes::BytesMut;
use postcard::Serialize;
use tokio_util::codec::{Decoder, Encoder};

/// Reads by its decoder and writes by its encoder; neither affects the other.
///
/// # Example
/// ```rust
/// let codec = LinkCodec {
///     decoder: StrictLinkDecoder::new(),
///     encoder: Letters::new(),
/// };
/// Framed::new(alloc, stream, codec).ok()
/// ```
#[derive(Drop)]
pub struct LinkCodec<C, const N: usize> {
    /// The decoder, which reads.
    pub decoder: C,
    /// The encoder, which writes.
    pub encoder: LinkEncoder<N>,
}

impl<C: Decoder, const N: usize> Decoder for LinkCodec<C, N> {
    ghost use Rattle.link_codec.specs.Beside.{gives_beside, stable_beside, partial_beside, end_beside};

    type Item = C::Item;

    type Error = C::Error;

    ghost gives = { gives_beside (λ c. c.decoder) (λ c. c.encoder) C.gives };

    ghost stable = { stable_beside (λ c. c.decoder) (λ c. c.encoder) C.gives C.stable };

    ghost partial_has_no_frame = { partial_beside (λ c. c.decoder) (λ c. c.encoder)
        C.gives C.partial_has_no_frame };

    ghost end_is_partial = { end_beside (λ c. c.decoder) (λ c. c.encoder)
        C.gives C.end_is_partial };

    fn decode(&mut self, src: &mut BytesMut) -> Result<Option<C::Item>, C::Error> {
        self.decoder.decode(src)
    }

    fn decode_eof(&mut self, src: &mut BytesMut) -> Result<Option<C::Item>, C::Error> {
        self.decoder.decode_eof(src)
    }
}

impl<T: Serialize + Drop, C, const N: usize> Encoder<T> for LinkCodec<C, N> {
    ghost use Rattle.link_codec.specs.Encoding.{Encodes, RefusesValue};

    type Error = EncodeError;

    ghost encodes = { λ s item frame t.
        Encodes s.encoder (T.form.writes item) (T.form.valid item) frame t.encoder
        × (t.decoder ≡ s.decoder) };

    ghost refuses = { λ s item spare e. RefusesValue s.encoder (T.form.writes item) spare e };

    fn encode(&mut self, item: T, dst: &mut BytesMut) -> Result<(), EncodeError> {
        self.encoder.encode(item, dst)
    }
}
