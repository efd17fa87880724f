//! `link`: the texts of what it answers.
use crate::checks::check;
use link::{Answer, End, Fate, NoMemory, SendError};
use postcard::Error;
use std::alloc::{AllocError, Global};

const REFUSED: SendError = SendError::Refused(Error::SerializeBufferFull);

// As they are shown.
const SHOWN: &str = "refused: The serialize buffer is full; line failed; no memory";

// As they are shown to a maintainer.
const NAMED: &str = "Line NoMemory Broken Value(true) Cut ReadFault";

fn shown(alloc: Global) -> Result<String, AllocError> {
    let (line, memory) = (SendError::Line, NoMemory);
    format!(in alloc; "{REFUSED}; {line}; {memory}")
}

fn named(alloc: Global) -> Result<String, AllocError> {
    let (line, memory, fate) = (SendError::Line, NoMemory, Fate::Broken);
    let (value, cut, end) = (Answer::Value(true), Answer::<bool>::Cut, End::ReadFault);
    format!(in alloc; "{line:?} {memory:?} {fate:?} {value:?} {cut:?} {end:?}")
}

// Whether a text was made, and is this one.
fn is_text(made: &Result<String, AllocError>, text: &str) -> bool {
    match made {
        Ok(made) => made.as_str() == text,
        Err(_) => false,
    }
}

#[test]
fn of_answers(rt: HostRuntime) {
    let are_shown = is_text(&shown(rt.alloc()), SHOWN);
    check(&rt, are_shown && is_text(&named(rt.alloc()), NAMED));
}
