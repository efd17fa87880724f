//! Where a text isn't JSON.

use crate::wrong::{ParseError, at_column, refusal};
use json::{Reader, Scratch, Token};
use std::alloc::{AllocError, Global};

/// The error for more nested nodes than allowed.
pub(crate) const TOO_DEEP: &str = "the value is nested too deeply: `depth=` sets the limit";

/// What can come next in the text of a JSON value.
#[derive(Clone, Copy, Drop)]
enum Due {
    /// The value, or that of a key.
    Value,
    /// An element, or the end of its array.
    Element,
    /// A key, or the end of its object.
    Key,
    /// The end of the text.
    End,
}

/// Whether a token can come next. The reader checks commas and colons.
fn is_due(due: Due, token: &Token<'_>) -> bool {
    match token {
        Token::Bad => false,
        Token::Key(_) | Token::EndObject => matches!(due, Due::Key),
        Token::EndArray => matches!(due, Due::Element),
        _ => matches!(due, Due::Value | Due::Element),
    }
}

/// What can come next after a token that was due, inside these arrays and objects: of each whether it is an object.
fn due_after(inside: &mut Vec<bool>, token: &Token<'_>) -> Result<Due, AllocError> {
    match token {
        Token::Key(_) => return Ok(Due::Value),
        Token::BeginObject => inside.push(true)?,
        Token::BeginArray => inside.push(false)?,
        Token::EndObject | Token::EndArray => {
            let _ = inside.pop();
        }
        _ => {}
    }
    Ok(match inside.last() {
        None => Due::End,
        Some(true) => Due::Key,
        Some(false) => Due::Element,
    })
}

/// Where the comma or colon is with which a text ends before this position, but for blanks; this position if there is none.
fn sign_before(text: &str, at: usize) -> usize {
    let before = text.get(..at).unwrap_or(text).trim_end();
    match before.as_bytes().last() {
        Some(b',' | b':') => before.len().saturating_sub(1),
        _ => at,
    }
}

/// Where a text is wrong whose token from one position to another isn't due.
fn wrong_at(text: &str, due: Due, token: &Token<'_>, from: usize, to: usize) -> usize {
    match (due, token) {
        // the reader passed the comma with the value before
        (Due::End, _) => sign_before(text, from),
        // a key that can't be one, or a text that isn't one: it is what follows the text
        (_, Token::Key(_)) | (Due::Key, Token::String(_)) => sign_before(text, to),
        _ => from,
    }
}

/// Where a text isn't JSON; `None` if it has more than `most` arrays and objects inside one another before that.
fn fault_in(alloc: Global, most: usize, text: &str) -> Result<Option<usize>, AllocError> {
    let mut scratch = Scratch::new(alloc);
    let mut reader = Reader::new(text, &mut scratch)?;
    let mut inside = Vec::new(alloc);
    let mut due = Due::Value;
    for _ in 0..u64::MAX {
        let from = reader.offset();
        let Some(token) = reader.next() else {
            break;
        };
        if !is_due(due, &token) {
            return Ok(Some(wrong_at(text, due, &token, from, reader.offset())));
        }
        due = due_after(&mut inside, &token)?;
        if inside.len() > most {
            return Ok(None);
        }
    }
    Ok(Some(text.len()))
}

/// The error for a text that isn't JSON, or has more than `most` arrays and objects inside one another.
///
/// Its column is that of the first part that can't be there: a bracket, a comma, a colon, a whole text, or a whole word, which goes up
/// to the next of these or a blank. If the text ends too early, it is the one after the last.
pub(crate) fn no_json(alloc: Global, most: usize, text: &str) -> ParseError {
    match fault_in(alloc, most, text) {
        Ok(Some(at)) => {
            let before = text.get(..at).unwrap_or(text);
            at_column(alloc, before.chars().count().saturating_add(1))
        }
        Ok(None) => refusal(TOO_DEEP),
        Err(_) => ParseError::OutOfMemory,
    }
}
