//! The live view of a stream of frames: the last message of each kind, how many came and how fast, and the last damage with its
//! bytes.

pub mod front;
mod kinds;
pub mod picture;
pub mod printable;
pub mod rate;
pub mod screen;
pub mod table;
pub mod viewer;
