//! What ends a test, and comparisons that many tests make. A call of one is cheaper to prove than the comparison itself.
use arrayvec::ArrayVec;
use cobs::{DecodeError, DecodeReport};
use postcard_tree::{Error, Result};
use std::process::Abort;

/// Ends a test that found something wrong.
pub(crate) fn check(rt: &impl Abort, is_right: bool) {
    assert!(rt; is_right);
}

/// Whether each of these holds. All are found first: calls in a row are cheaper to prove than one after another's success.
pub(crate) fn all_true<const N: usize>(found: [bool; N]) -> bool {
    !found.contains(&false)
}

/// Ends a test that found one of these wrong.
pub(crate) fn check_all<const N: usize>(rt: &impl Abort, are_right: [bool; N]) {
    assert!(rt; all_true(are_right));
}

/// Ends a test that found a row wrong.
pub(crate) fn check_at(rt: &impl Abort, row: usize, is_right: bool) {
    assert!(rt; is_right, "at {row}");
}

/// Whether each of these calls succeeded.
pub(crate) fn succeed<const N: usize>(answers: [Result<()>; N]) -> bool {
    answers == [Ok(()); N]
}

/// Whether a call was refused for lack of space.
pub(crate) fn is_full(answer: Result<()>) -> bool {
    answer == Err(Error::SerializeBufferFull)
}

/// Whether a call gave this value.
pub(crate) fn gives<T: PartialEq + Drop, E: Drop>(
    answer: std::result::Result<T, E>,
    wanted: T,
) -> bool {
    match answer {
        Ok(value) => value == wanted,
        Err(_) => false,
    }
}

/// Whether a call failed for this cause.
pub(crate) fn fails<T: Drop, E: PartialEq + Drop>(
    answer: std::result::Result<T, E>,
    cause: E,
) -> bool {
    match answer {
        Ok(_) => false,
        Err(found) => found == cause,
    }
}

/// Whether these bytes are those.
pub(crate) fn are_equal(found: &[u8], wanted: &[u8]) -> bool {
    *found == *wanted
}

/// Whether these bytes begin with those.
pub(crate) fn begin_with(found: &[u8], wanted: &[u8]) -> bool {
    found.starts_with(wanted)
}

/// Whether a text is this one.
pub(crate) fn is_text(found: &str, wanted: &str) -> bool {
    found == wanted
}

/// Whether a text was given, and is this one.
pub(crate) fn is_string<E: Drop>(given: std::result::Result<String, E>, wanted: &str) -> bool {
    match given {
        Ok(held) => is_text(held.as_str(), wanted),
        Err(_) => false,
    }
}

/// Whether so many bytes at the start were filled.
pub(crate) fn has_length(written: Result<&mut [u8]>, length: usize) -> bool {
    match written {
        Ok(front) => front.len() == length,
        Err(_) => false,
    }
}

/// Whether the start of a slice was filled, and holds these bytes.
pub(crate) fn is_slice(written: Result<&mut [u8]>, bytes: &[u8]) -> bool {
    match written {
        Ok(front) => are_equal(front, bytes),
        Err(_) => false,
    }
}

/// Whether an array was filled, and holds these bytes.
pub(crate) fn is_array<const N: usize>(written: Result<ArrayVec<u8, N>>, bytes: &[u8]) -> bool {
    match written {
        Ok(held) => are_equal(held.as_slice(), bytes),
        Err(_) => false,
    }
}

/// Whether a vector was filled, and holds these bytes.
pub(crate) fn is_vector(written: Result<Vec<u8>>, bytes: &[u8]) -> bool {
    match written {
        Ok(held) => are_equal(held.as_slice(), bytes),
        Err(_) => false,
    }
}

/// Whether bytes are given, and are these.
pub(crate) fn gives_bytes(given: Result<&[u8]>, bytes: &[u8]) -> bool {
    match given {
        Ok(given) => are_equal(given, bytes),
        Err(_) => false,
    }
}

/// Whether a decoder took all of its bytes in, and no frame ended.
pub(crate) fn goes_on<T: Drop>(answer: std::result::Result<Option<T>, DecodeError>) -> bool {
    matches!(&answer, Ok(None))
}

/// Whether a frame was decoded, from so many bytes to so many.
pub(crate) fn decodes(
    decoded: std::result::Result<DecodeReport, DecodeError>,
    parsed: usize,
    size: usize,
) -> bool {
    match decoded {
        Ok(report) => report.parsed_size() == parsed && report.frame_size() == size,
        Err(_) => false,
    }
}

/// Whether a frame ended in what was pushed, and was decoded from so many bytes of it to so many.
pub(crate) fn takes(
    pushed: std::result::Result<Option<DecodeReport>, DecodeError>,
    parsed: usize,
    size: usize,
) -> bool {
    match pushed {
        Ok(Some(report)) => decodes(Ok(report), parsed, size),
        _ => false,
    }
}
