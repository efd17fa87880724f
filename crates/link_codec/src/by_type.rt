//! Readers of messages that are made without arguments.
use link::{OfType, Ordinary, Strict};

/// A reader of messages that its own type determines, so a decoder can be made without naming it.
///
/// # Example
/// ```rust
/// AnswerDecoder::with(Receiver::<N>::new_with_sentinel(sentinel), M::by_type())
/// ```
pub trait ByType {
    /// The reader.
    fn by_type() -> Self;
}

impl ByType for Ordinary<OfType> {
    fn by_type() -> Ordinary<OfType> {
        Ordinary(OfType)
    }
}

impl ByType for Strict<OfType> {
    fn by_type() -> Strict<OfType> {
        Strict(OfType)
    }
}
