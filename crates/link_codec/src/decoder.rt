//! Results from a stream of bytes.
ghost use Rattle.std.specs.Prelude.{◌≡◌, ℕ, List, [], IfOk, IfNone};
ghost use Rattle.link.specs.Receivers.{IsBehind};

use crate::error::DecodeError;
use bytes::BytesMut;
use link::{Answer, Decoding, MessageReader, NoMemory, Pushed, Reception};
use std::marker::PhantomData;
use tokio_util::codec::Decoder;

/// Decodes a stream into the results of its receiver, by its reader of messages.
///
/// `LinkDecoder`, `StrictLinkDecoder`, `OwnedLinkDecoder` and `StrictOwnedLinkDecoder` are the names of those that decode a type; `with`
/// makes one of any receiver and any reader of messages, such as a table of types.
///
/// `decode` returns `None` only once it has taken every byte of the buffer. It keeps what a stretch has so far itself, at most as many
/// bytes as its limit, and drops the rest of a longer one after `TooLong`. `decode_eof` then adds `Cut` or nothing, and the decoder begins
/// again.
///
/// # Errors
/// `NoMemory` if a value could not be allocated. Its frame is gone then.
///
/// # Example
/// ```rust
/// letter(Poll::Ready(decoder.decode(line).transpose())) == wanted
///     && line.len() == left
///     && line.capacity() <= room
/// ```
#[derive(Drop)]
pub struct AnswerDecoder<V, M, D: Decoding> {
    receiver: Reception<D>,
    messages: M,
    of: PhantomData<V>,
    ghost stands: { ∥ ((limit : ℕ) × (s : ℕ) × (stream : List ℕ)
        × IsBehind D.inside limit s receiver stream) ∥₁ },
}

impl<V, M, D: Decoding> AnswerDecoder<V, M, D> {
    ghost use Rattle.link_codec.specs.Decoders.{IsGiven, messages_in};

    /// A decoder that continues from where the receiver is, and decodes messages by this reader.
    ///
    /// # Requires
    /// The receiver has received some stream, as each one has that `Receiver::new` or `OwnedReceiver::new` made.
    ///
    /// # Example
    /// ```rust
    /// AnswerDecoder::with(Receiver::<N>::new_with_sentinel(sentinel), M::by_type())
    /// ```
    pub fn with(receiver: Reception<D>, messages: M) -> AnswerDecoder<V, M, D>
        requires { (limit : ℕ) × (s : ℕ) × (stream : List ℕ)
            × IsBehind D.inside limit s receiver stream }
        ensures given { (limit s : ℕ) (stream : List ℕ) → IsBehind D.inside limit s receiver stream
            → IsGiven limit s result stream }
        ensures messages { messages_in result ≡ messages }
    {
        AnswerDecoder {
            receiver,
            messages,
            of: PhantomData,
        }
    }
}

impl<V: Drop, M: MessageReader<V> + Drop, D: Decoding + Drop> Decoder for AnswerDecoder<V, M, D> {
    ghost use Rattle.tokio_util.specs.Codec.Next.{Decodes};
    ghost use Rattle.link_codec.specs.Decoders.{gives_judged, judged_stable, judged_partial, judged_end, messages_in};

    type Item = Answer<V>;

    type Error = DecodeError;

    ghost gives = { gives_judged M.judging };

    ghost stable = { judged_stable M.judging };

    ghost partial_has_no_frame = { judged_partial M.judging };

    ghost end_is_partial = { judged_end M.judging };

    fn decode(&mut self, src: &mut BytesMut) -> Result<Option<Answer<V>>, DecodeError>
        ensures next { Decodes (gives_judged M.judging) self.old src.old.items result
            self.new src.new.items }
        ensures all { IfOk result (λ r. IfNone r (src.new.items ≡ [])) }
        ensures messages { messages_in self.new ≡ messages_in self.old }
    {
        let alloc = *src.allocator();
        let Pushed { used, answer, .. } = self
            .receiver
            .push_with(alloc, &self.messages, src.as_slice());
        src.advance(used);
        match answer {
            Ok(answer) => Ok(answer),
            Err(NoMemory) => Err(DecodeError::NoMemory),
        }
    }

    fn decode_eof(&mut self, src: &mut BytesMut) -> Result<Option<Answer<V>>, DecodeError> {
        match self.decode(src)? {
            Some(answer) => Ok(Some(answer)),
            None => Ok(self.receiver.restart()),
        }
    }
}
