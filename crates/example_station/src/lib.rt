//! The messages of a weather station, as a user declares them, and messages that hold one another, each for a limit of its own
//! (`nested`). The program `postcard_derive` wrote `messages/wire.rt` and `nested/wire.rt`, which say how they are written
//! and read.
//!
//! And what else one builds on `postcard`: calls by themselves (`uses`), a destination of one's own (`sums`), and generic code
//! over types and enums (`bounds`).
#![tactic(auto)]

pub mod bounds;
mod by_shape;
pub mod laws;
pub mod messages;
pub mod nested;
pub mod nested_laws;
pub mod sums;
pub mod trees;
pub mod uses;
