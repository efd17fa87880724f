//! A caller of a framed reader, to whose items the laws apply.
ghost use Rattle.std.specs.Prelude.{All, IsOk, IfOk, IfSome};
ghost use Rattle.postcard.specs.Frames.{Holds};
ghost use Rattle.link.specs.Listening.{HasAnswered};
ghost use Rattle.link_codec.specs.Whole.{answers_of, IsHeardSoFar};

use crate::error::DecodeError;
use crate::laws::{answered_so_far, answered_whole};
use crate::owned::OwnedLinkDecoder;
use futures::{FutureExt, StreamExt};
use link::{Answer, NoMemory};
use postcard::DeserializeOwned;
use std::alloc::AllocGlobal;
use std::io;
use std::random::RandomSource;
use tokio_util::codec::FramedRead;

/// The items of a framed reader over a complete stream, collected by one poll; `None` if the reader yielded in between.
///
/// If no item is an error, they are all results of the stream. Those before an error are the results of a beginning of it.
///
/// # Errors
/// An `io::Error`, such as `OutOfMemory` if the decoder's buffer could not be allocated.
///
/// # Allocates
/// The decoder's and the reader's buffer, the list, and what the values need.
///
/// # Example
/// ```rust
/// if let Ok(Some(items)) = answers_at_once::<String, _>(rt, &LINE, limit, 0) {
///     for item in items {
///         heard.push(letter(Poll::Ready(Some(item))));
///     }
/// }
/// ```
pub fn answers_at_once<T: DeserializeOwned, R: RandomSource + AllocGlobal>(
    rt: &R,
    stream: &[u8],
    limit: usize,
    sentinel: u8,
) -> io::Result<Option<Vec<Result<Answer<T>, DecodeError>>>>
    ensures all { IfOk result (λ o. IfSome o (λ items. All IsOk items.items
        → HasAnswered (Holds T.form.takes) T.form.reads limit sentinel
        (answers_of items.items) stream.now)) }
    ensures so_far { IfOk result (λ o. IfSome o (λ items. IsHeardSoFar (Holds T.form.takes)
        T.form.reads limit sentinel items.items stream.now)) }
{
    let decoder = match OwnedLinkDecoder::<T>::new(rt.alloc(), limit, sentinel) {
        Ok(decoder) => decoder,
        Err(NoMemory) => return Err(io::ErrorKind::OutOfMemory.into()),
    };
    let answers = FramedRead::new(rt.alloc(), stream, decoder)?;
    answered_whole(&answers);
    answered_so_far(&answers);
    match answers.collect(rt.alloc()).now_or_never(rt)? {
        Some(items) => Ok(Some(items?)),
        None => Ok(None),
    }
}
