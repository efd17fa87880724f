//! Lines of test vectors: their words, how they show a value, what differs, and the run over all lines of an input.
#![tactic(auto)]

mod findings;
mod pieces;
mod replaying;
mod shown;
mod words;

pub use crate::findings::Findings;
pub use crate::pieces::{Pieces, pieces_of};
pub use crate::replaying::{Replays, replay_all};
pub use crate::shown::{Shown, in_words};
pub use crate::words::{Trouble, Words, bytes_of, digits, digits_behind, number_of};
