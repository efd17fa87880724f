//! What a receiver of a prefix of a line receives.
ghost use Rattle.postcard.specs.Frames.{Holds};
ghost use Rattle.link.specs.Stream.{HoldsExactly};
ghost use Rattle.calls_laws.specs.Heard.{HearsSent};

use link::{MessageReader, OfType, Ordinary, Strict};
use postcard::{DeserializeOwned, Exact, Lawful};

/// A receiver of a prefix of a line, perhaps all of it, receives only values that are alike those sent, however the reading ended:
/// at the reader's end, at a fault, or out of memory; also if it continued after values that couldn't be allocated.
pub fn heard_was_sent<T: Lawful>()
    ensures ordinary { HearsSent T.form.takes (Holds T.form.takes) T.form.reads T.form.alike
        T.form.writes T.form.valid }
    ensures strict { HearsSent T.form.takes (HoldsExactly T.form.takes) T.form.reads T.form.alike
        T.form.writes T.form.valid }
{
    link_laws::told::<T>();
    link_laws::between::<T>();
    link_laws::left::<T>();
    link_laws::over_pieces::<T>();
    link_laws::one_answer::<T>();
    link_laws::start_anywhere::<T>();
}

/// A reader of messages for which `heard_was_sent` holds: `Ordinary(OfType)` and `Strict(OfType)`.
///
/// Example: see [`call_once`].
pub trait SentReader<T: Lawful>: MessageReader<T> {
    /// Shows that. It does nothing.
    fn show_sent(&self)
        ensures { HearsSent T.form.takes (Self.judging self.now).holds (Self.judging self.now).reads
            T.form.alike T.form.writes T.form.valid };
}

impl<T: Lawful + DeserializeOwned> SentReader<T> for Ordinary<OfType> {
    fn show_sent(&self) {
        heard_was_sent::<T>();
    }
}

impl<T: Lawful + DeserializeOwned + Exact> SentReader<T> for Strict<OfType> {
    fn show_sent(&self) {
        heard_was_sent::<T>();
    }
}
