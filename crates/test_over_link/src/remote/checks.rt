//! What the tests compare: a call is cheaper to prove than the comparison itself.
use calls::Served;
use link::{End, SendError};

/// Whether it is this number of a call.
pub fn is_number(found: Option<u64>, wanted: u64) -> bool {
    match found {
        Some(found) => found == wanted,
        None => false,
    }
}

/// Whether it is this reply.
pub fn is_reply(found: Option<u32>, wanted: u32) -> bool {
    match found {
        Some(found) => found == wanted,
        None => false,
    }
}

/// Whether the reader told its end before a reply was received.
pub fn is_read(end: Option<End>) -> bool {
    matches!(end, Some(End::Ended))
}

/// What a server did, as a letter: executed E, again A, another one by the last number O, passed over P, and o or p where something was
/// sent of that; N by no call's number; e where the line failed at the first reply, and else ?.
pub fn letter(served: Served) -> char {
    match served {
        Served::Executed(sent) => match sent {
            Ok(()) => 'E',
            Err(SendError::Line) => 'e',
            Err(_) => '?',
        },
        Served::Again(sent) => match sent {
            Ok(()) => 'A',
            Err(_) => '?',
        },
        Served::Other(sent) => match sent {
            None => 'O',
            Some(Ok(())) => 'o',
            Some(Err(_)) => '?',
        },
        Served::Passed(sent) => match sent {
            None => 'P',
            Some(Ok(())) => 'p',
            Some(Err(_)) => '?',
        },
        Served::NoCall => 'N',
    }
}
