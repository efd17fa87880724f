//! Laws of the items of a framed reader: they are the results of the bytes that its reader gave; they are what `told` says of the sends
//! that were written; and what is completely written comes back alike. The functions do nothing; a proof calls one for its contract.
ghost use Rattle.tokio_util.specs.Codec.Framed.{framed_read, reading_side};
ghost use Rattle.link_codec.specs.Beside.{gives_beside};
ghost use Rattle.link_codec.specs.Decoders.{IsGiven, gives_judged, messages_in};
ghost use Rattle.link_codec.specs.Whole.{IsAnsweredWhole, IsAnsweredSoFar};

mod carried;

use crate::codec::LinkCodec;
use crate::decoder::AnswerDecoder;
pub use carried::{carried_whole, session_of, strict_told_whole, told_whole};
use link::{Decoding, MessageReader};
use tokio::io::AsyncRead;
use tokio_util::codec::{Framed, FramedRead};

/// If the end of the reader is final, and no item is an error, all items are the results of all bytes that it gave.
pub fn answered_whole<V, M: MessageReader<V>, D: Decoding, R: AsyncRead>(
    reader: &FramedRead<R, AnswerDecoder<V, M, D>>,
)
    ensures { IsAnsweredWhole R.reads R.is_at_end R.fails (λ d. d) IsGiven
        (gives_judged M.judging) (λ d. M.judging (messages_in d)) (framed_read reader.now) }
{}

/// However it continues, such as by an error of the reader or out of memory: the items before that are the results of a prefix of the
/// bytes that it gave, in order, or of all of them.
pub fn answered_so_far<V, M: MessageReader<V>, D: Decoding, R: AsyncRead>(
    reader: &FramedRead<R, AnswerDecoder<V, M, D>>,
)
    ensures { IsAnsweredSoFar R.reads R.is_at_end R.fails (λ d. d) IsGiven
        (gives_judged M.judging) (λ d. M.judging (messages_in d)) (framed_read reader.now) }
{}

/// As `answered_whole`, for what a `Framed` reads, whatever is written meanwhile.
pub fn framed_answered_whole<V, M: MessageReader<V>, D: Decoding, S: AsyncRead, const N: usize>(
    framed: &Framed<S, LinkCodec<AnswerDecoder<V, M, D>, N>>,
)
    ensures { IsAnsweredWhole S.reads S.is_at_end S.fails (λ c. c.decoder) IsGiven
        (gives_beside (λ c. c.decoder) (λ c. c.encoder) (gives_judged M.judging))
        (λ d. M.judging (messages_in d)) (reading_side framed.now) }
{}
