//! The numbers of results.

// It was done.
pub(crate) const DONE: u8 = 0;
// The text doesn't fit the room.
pub(crate) const NO_ROOM: u8 = 1;
// The declarations or the type can't be taken.
pub(crate) const WRONG: u8 = 2;
// Lines aren't of the type.
pub(crate) const REFUSED: u8 = 3;
// Out of memory.
pub(crate) const NO_MEMORY: u8 = 4;
