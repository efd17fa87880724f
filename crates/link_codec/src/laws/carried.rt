//! Laws of values that are sent over any writer and reader by the codecs.
ghost use Rattle.std.specs.Prelude.{◌≤◌};
ghost use Rattle.tokio_util.specs.Codec.Framed.{framed_read};
ghost use Rattle.link_codec.specs.Decoders.{IsGiven, gives_judged};
ghost use Rattle.link_codec.specs.Told.{IsToldWhole, IsSessionOf, IsCarriedWhole};

use crate::array::LinkDecoder;
use crate::decoder::AnswerDecoder;
use crate::encoder::LinkEncoder;
use crate::laws::answered_whole;
use link::{Decoding, MessageReader, OfType, Ordinary, Strict};
use postcard::{DeserializeOwned, Exact, Lawful, Serialize};
use tokio::io::AsyncRead;
use tokio_util::codec::FramedRead;

/// Whatever was sent, by one sender or encoder or several in turn, each send perhaps interrupted at any byte: if the reader gives the line
/// of the run and its end is final, a framed reader yields exactly what `told` says of the run. The limit may be part of the type, or set
/// at run time.
pub fn told_whole<T: DeserializeOwned, D: Decoding, R: AsyncRead>(
    reader: &FramedRead<R, AnswerDecoder<T, Ordinary<OfType>, D>>,
)
    ensures { IsToldWhole R.reads R.is_at_end R.fails IsGiven
        (gives_judged ⟦<Ordinary<OfType> as MessageReader<T>>⟧.judging)
        T.form.takes T.form.reads (framed_read reader.now) }
{
    answered_whole(reader);
    link_laws::told::<T>();
}

/// As `told_whole`, for a strict decoder.
pub fn strict_told_whole<T: DeserializeOwned + Exact, D: Decoding, R: AsyncRead>(
    reader: &FramedRead<R, AnswerDecoder<T, Strict<OfType>, D>>,
)
    ensures { IsToldWhole R.reads R.is_at_end R.fails IsGiven
        (gives_judged ⟦<Strict<OfType> as MessageReader<T>>⟧.judging)
        T.form.takes T.form.reads (framed_read reader.now) }
{
    answered_whole(reader);
    link_laws::told::<T>();
}

/// The bytes that an encoder writes for values in a row are those of a session of one sender, all of whose sends completed.
pub fn session_of<T: Serialize, const N: usize>(encoder: &LinkEncoder<N>, values: &[T])
    ensures { IsSessionOf encoder.now T.form.writes T.form.valid values.now }
{}

/// If the reader gives what a new encoder wrote for values in a row, as `FramedWrite` says what it wrote, and its end is final, a framed
/// reader yields values alike them, one by one, and nothing else.
///
/// # Requires
/// The reader's limit L is at least the encoder's N.
pub fn carried_whole<T: Lawful + DeserializeOwned, R: AsyncRead, const N: usize, const L: usize>(
    encoder: &LinkEncoder<N>,
    values: &[T],
    reader: &FramedRead<R, LinkDecoder<T, L>>,
)
    requires { N ≤ L }
    ensures { IsCarriedWhole R.reads R.is_at_end R.fails IsGiven
        (gives_judged ⟦<Ordinary<OfType> as MessageReader<T>>⟧.judging)
        T.form.writes T.form.valid T.form.alike encoder.now values.now L (framed_read reader.now) }
{
    session_of(encoder, values);
    link_laws::carried(values);
    link_laws::within::<T>();
    told_whole(reader);
}
