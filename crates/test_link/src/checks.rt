//! What the tests of this crate share: a check, and the comparisons that many of them make. A comparison that is called costs
//! a test's proof less than one that is written in it.
use link::{Answer, Fate, NoMemory, Pushed, SendError};
use postcard::Error;
use std::process::Abort;

/// Ends a test that isn't right.
pub fn check(rt: &impl Abort, is_right: bool) {
    assert!(rt; is_right);
}

/// Ends a test that isn't right in this row, or at this byte.
pub fn check_at(rt: &impl Abort, at: usize, is_right: bool) {
    assert!(rt; is_right, "at {at}");
}

/// Whether each of these holds.
pub fn all_true<const N: usize>(found: [bool; N]) -> bool {
    found == [true; N]
}

/// Whether these are the bytes that are wanted.
pub fn are_bytes(bytes: &[u8], wanted: &[u8]) -> bool {
    *bytes == *wanted
}

/// Whether so many bytes of a room are those that are wanted.
pub fn holds(room: &[u8], count: usize, wanted: &[u8]) -> bool {
    room.get(..count) == Some(wanted)
}

/// Whether these are the fates that are wanted.
pub fn are_fates(fates: &[Fate], wanted: &[Fate]) -> bool {
    *fates == *wanted
}

/// Whether a call refuses so.
pub fn fails_by<T: Drop>(answer: postcard::Result<T>, cause: Error) -> bool {
    match answer {
        Ok(_) => false,
        Err(found) => found == cause,
    }
}

/// Whether a send was interrupted.
pub fn is_broken(sent: Result<(), SendError>) -> bool {
    sent == Err(SendError::Line)
}

/// Whether a send was refused because its frame is too long.
pub fn is_too_long(sent: Result<(), SendError>) -> bool {
    sent == Err(SendError::Refused(Error::SerializeBufferFull))
}

/// Whether a frame was answered so.
pub fn is_answer<T: PartialEq>(
    answer: &Result<Option<Answer<T>>, NoMemory>,
    wanted: &Answer<T>,
) -> bool {
    match answer {
        Ok(Some(found)) => *found == *wanted,
        _ => false,
    }
}

/// Whether so many bytes were used, and this value was lent.
pub fn is_lent<T: PartialEq>(pushed: &Pushed<T>, used: usize, wanted: &T) -> bool {
    match &pushed.answer {
        Ok(Some(Answer::Value(value))) => pushed.used == used && *value == *wanted,
        _ => false,
    }
}

/// Whether a stretch was answered so where it lies.
pub fn is_told<T: PartialEq>(answer: &Result<Answer<T>, NoMemory>, wanted: &Answer<T>) -> bool {
    match answer {
        Ok(found) => *found == *wanted,
        Err(_) => false,
    }
}
