//! The results of receivers, and the receiver whose limit is part of its type.
ghost use Rattle.std.specs.Prelude.{◌≡◌, []};

use crate::decoding::ArrayBuffer;
use crate::reception::Reception;
use thiserror::Error;

/// What a receiver reports of the bytes between two sentinels.
///
/// Strictly, as `push_strict` receives, a value is reported only for exactly the frame that sending it writes.
///
/// Example: see [`Reception::push_ref`].
#[derive(PartialEq, Debug, Drop)]
pub enum Answer<T> {
    /// They are a frame, and a prefix of its message is this value. (Strictly: they are the frame that sending this value writes.)
    Value(T),
    /// They are no frame, or no prefix of its message is a value. (Strictly: they aren't the frame that sending any value writes.)
    Damaged,
    /// They are more than the limit. Reported once, at the byte past it.
    TooLong,
    /// The stream ended before a sentinel ended them, within the limit.
    Cut,
}

/// A value, or the buffer of an `OwnedReceiver`, could not be allocated.
///
/// Of values, only those of types that allocate (`Grows::grows`) cause it, and only for bytes that are a frame within the limit.
///
/// Example: see [`Reception::push`].
#[derive(Clone, Copy, PartialEq, Eq, Debug, Drop, Error)]
#[error("no memory")]
pub struct NoMemory;

/// What a push returns.
///
/// Example: see [`Reception::push_ref`].
#[derive(Drop)]
pub struct Pushed<T> {
    /// How many bytes of the chunk were used: all of them if there was no result. Push the rest next.
    pub used: usize,
    /// How many bytes of the reported stretch come before the last byte used: its length if a sentinel ended it, also at `NoMemory`;
    /// the limit if that byte is the one past it; 0 for `Ok(None)`. If the last byte used has the offset `at`, the stretch begins at
    /// `at - stretch`.
    pub stretch: usize,
    /// Their result, if there is one. After `NoMemory` that frame is gone, its sentinel is used, and no stretch is begun.
    pub answer: Result<Option<Answer<T>>, NoMemory>,
}

/// A receiver of frames of at most N bytes; N may be 0. It allocates nothing of its own.
///
/// # Example
/// ```rust
/// let mut receiver = Receiver::<4>::new();
/// let pushed = receiver.push::<()>(rt.alloc(), &[5, 1, 1, 1, 1]);
/// check(&rt, pushed.used == 5 && !receiver.is_between());
/// check(&rt, is_answer(&pushed.answer, &Answer::TooLong));
/// let ended = receiver.push::<()>(rt.alloc(), &[0]);
/// check(&rt, matches!(&ended.answer, Ok(None)));
/// check(&rt, receiver.is_between());
/// ```
pub type Receiver<const N: usize> = Reception<ArrayBuffer<N>>;

impl<const N: usize> Reception<ArrayBuffer<N>> {
    ghost use Rattle.link.specs.Decoding.{in_array};
    ghost use Rattle.link.specs.Receivers.{IsBehind, limit_of, sentinel_of};

    /// A receiver that has received nothing, with the sentinel zero.
    pub fn new() -> Receiver<N>
        ensures after { IsBehind in_array N 0 result [] }
        ensures limit { limit_of in_array result ≡ N }
        ensures sentinel { sentinel_of result ≡ 0 }
    {
        Receiver::<N>::new_with_sentinel(0)
    }

    /// As `new`, with this sentinel.
    pub fn new_with_sentinel(sentinel: u8) -> Receiver<N>
        ensures after { IsBehind in_array N sentinel result [] }
        ensures limit { limit_of in_array result ≡ N }
        ensures sentinel { sentinel_of result ≡ sentinel }
    {
        Reception {
            buffer: ArrayBuffer::<N>::new(),
            past: false,
            sentinel,
        }
    }
}
