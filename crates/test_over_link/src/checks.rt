//! What ends a test, and what the tests compare: a call is cheaper to prove than the comparison itself.
use postcard::experimental::max_size::MaxSize;
use postcard::{AsShape, MatchesShape, Readable, Serialize, Shaped, to_slice};
use std::process::Abort;

/// Ends a test that isn't right.
pub(crate) fn check(rt: &impl Abort, is_right: bool) {
    assert!(rt; is_right);
}

/// Whether each of these holds.
pub(crate) fn all_true<const N: usize>(found: [bool; N]) -> bool {
    found == [true; N]
}

/// Whether these bytes are those.
pub(crate) fn are_equal(found: &[u8], wanted: &[u8]) -> bool {
    *found == *wanted
}

/// Whether a value is written as these bytes.
pub(crate) fn writes<T: Serialize>(value: &T, bytes: &[u8]) -> bool {
    let mut room = [0u8; 64];
    match to_slice(value, &mut room) {
        Ok(written) => are_equal(written, bytes),
        Err(_) => false,
    }
}

/// The maximum size of a message type, by its shape; what the call promises isn't carried into the tests.
pub(crate) fn greatest<
    S: MaxSize,
    M: Shaped<Shape = S> + MatchesShape + Readable<Form = AsShape>,
>() -> Option<usize> {
    M::postcard_max_size()
}
