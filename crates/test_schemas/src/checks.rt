//! What ends a test, and what tests compare: a call is cheaper to prove than the comparison itself.
use postcard::to_allocvec;
use postcard_tree::{Error, Result};
use schemas::Value;
use std::alloc::Global;
use std::process::Abort;

/// Ends a test that found something wrong.
pub(crate) fn check(rt: &impl Abort, is_right: bool) {
    assert!(rt; is_right);
}

/// Ends a test that found a row wrong.
pub(crate) fn check_row(rt: &impl Abort, row: &str, is_right: bool) {
    assert!(rt; is_right, "at {row}");
}

/// Ends a test that found this of a type wrong.
pub(crate) fn check_at(rt: &impl Abort, name: &str, row: &str, is_right: bool) {
    assert!(rt; is_right, "{name}: {row}");
}

/// Whether these bytes are those.
pub(crate) fn are_equal(found: &[u8], wanted: &[u8]) -> bool {
    *found == *wanted
}

/// Whether it is out of memory.
pub(crate) fn is_out_of_memory(cause: Error) -> bool {
    matches!(cause, Error::OutOfMemory)
}

/// Whether a result is that the bytes ended.
pub(crate) fn is_end<T: Drop>(answer: Result<T>) -> bool {
    matches!(answer, Err(Error::DeserializeUnexpectedEnd))
}

/// Whether a value is written as these bytes.
pub(crate) fn is_written_as(alloc: Global, value: &Value, wanted: &[u8]) -> bool {
    match to_allocvec(alloc, value) {
        Ok(written) => are_equal(&written, wanted),
        Err(_) => false,
    }
}
