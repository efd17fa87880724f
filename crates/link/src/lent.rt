//! Receiving values that borrow from the receiver.
ghost use Rattle.std.specs.Prelude.{◌≡◌, ℕ, ◌<◌, ◌≤◌, length, List, true, OnErr, ⊤};
ghost use Rattle.std.specs.Borrow.{sem};
ghost use Rattle.cobs.specs.Frames.{Frame};
ghost use Rattle.postcard.specs.Frames.{Holds};
ghost use Rattle.link.specs.Lending.{ReadsLent};
ghost use Rattle.link.specs.Steps.{Course, Event};
ghost use Rattle.link.specs.Finds.{IsTaken, Replies, lent_message};

use crate::decoding::Decoding;
use crate::judging::{had_memory, judged};
use crate::receiver::{Answer, NoMemory, Pushed};
use crate::reception::{Found, Reception, Taken};
use postcard::{Deserialize, from_bytes};
use std::alloc::Global;

impl<D: Decoding> Reception<D> {
    ghost use Rattle.link.specs.contracts.reception.Reception.{the_row};
    ghost use mathlib.Core.Option.{none};
    ghost use denote.Follow.{follows_so};
    ghost use Rattle.link.specs.Lending.{AdvancesToEvent, Leads, AnswersByForm, StandsBy};

    // Takes bytes of a chunk, up to the first that gives a result, and lends the message of a frame.
    pub(crate) fn advance<'de>(&'de mut self, piece: &[u8]) -> Taken<&'de [u8]>
        ensures answer { AdvancesToEvent D.inside self.entry.now piece.now result }
        ensures* after { sem 𝓛 (follows_so (the_row D.row) (the_row D.row) self.entry.ghost_name
            none (λ _ _. ⊤) (λ n. Leads D.inside self.entry.now piece.now n)) }
    {
        let taken = self.take(piece);
        self.lend(taken)
    }

    /// As `push`, for a value that may borrow from the receiver, such as `&str`.
    ///
    /// The value lies in the receiver until the next call of it, which the compiler checks. The receiver has then taken the bytes that
    /// were used, as after `push`.
    ///
    /// # Errors
    /// `answer` is `NoMemory` as with `push`.
    ///
    /// # Allocates
    /// What the value needs; nothing for a value that only borrows.
    ///
    /// # Example
    /// ```rust
    /// for _ in 0..piece.len() {
    ///     let Pushed { used, answer, .. } = receiver.push_ref::<&str>(alloc, rest);
    ///     match answer {
    ///         Ok(Some(Answer::Value(text))) => tally.add(text),
    ///         Ok(None) => {}
    ///         Ok(Some(_)) | Err(NoMemory) => tally.lost = tally.lost.saturating_add(1),
    ///     }
    ///     rest = &rest[used..];
    /// }
    /// ```
    pub fn push_ref<'de, T: Deserialize<&'de [u8]>>(
        &'de mut self,
        alloc: Global,
        piece: &[u8],
    ) -> Pushed<T>
        ensures answer { AnswersByForm D.inside T.form self.entry.now piece.now result }
        ensures* after { sem 𝓛 (follows_so (the_row D.row) (the_row D.row) self.entry.ghost_name
            none (λ _ _. ⊤) (λ n. StandsBy D.inside self.entry.now piece.now result n)) }
    {
        let taken = self.advance(piece);
        pushed(alloc, taken)
    }
}

// The result of a stretch that is a frame with this message.
pub(crate) fn read_message<'de, T: Deserialize<&'de [u8]>>(
    alloc: Global,
    message: &'de [u8],
) -> Result<Option<Answer<T>>, NoMemory>
    ensures stretch { (p : List ℕ) → Frame p message.now
        → Replies (Holds T.form.takes) T.form.reads (Event.ended p) result }
    ensures memory { OnErr result (T.form.growing ≡ true) }
{
    cobs::laws::message_of_a_frame();
    match from_bytes(alloc, message) {
        Ok(value) => Ok(Some(Answer::Value(value))),
        Err(error) => {
            had_memory(error)?;
            Ok(Some(Answer::Damaged))
        }
    }
}

// The result of what was found, with a value that may borrow from it.
fn read_lent<'de, T: Deserialize<&'de [u8]>>(
    alloc: Global,
    taken: Taken<&'de [u8]>,
) -> Result<Option<Answer<T>>, NoMemory>
    ensures replies { (limit : ℕ) (k : Course) → IsTaken limit k lent_message taken.entry
        → Replies (Holds T.form.takes) T.form.reads k.event result }
    ensures memory { OnErr result (T.form.growing ≡ true) }
{
    judged::<T>();
    match taken.found {
        Found::Nothing => Ok(None),
        Found::Damaged => Ok(Some(Answer::Damaged)),
        Found::TooLong => Ok(Some(Answer::TooLong)),
        Found::Whole(message) => read_message(alloc, message),
    }
}

// The result of a push that took this.
fn pushed<'de, T: Deserialize<&'de [u8]>>(alloc: Global, taken: Taken<&'de [u8]>) -> Pushed<T>
    ensures { ReadsLent T.form.takes T.form.reads T.form.growing taken.entry result }
{
    Pushed {
        used: taken.used,
        stretch: taken.stretch,
        answer: read_lent(alloc, taken),
    }
}
