//! Stores that grow at their end: what a log needs of a file, and what a crash may take of it.
//!
//! [`Store`] is what code over a log needs. [`MemoryStore`] is one in memory, which fails at a given byte and
//! crashes. [`Stored`] is one over a file of std; no contract can say what a file holds. [`put`] appends bytes in as
//! many calls as needed.
mod file;
mod memory;
mod putting;
mod traits;

pub use file::Stored;
pub use memory::MemoryStore;
pub use putting::put;
pub use traits::{Store, SyncFault};
