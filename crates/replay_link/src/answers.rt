//! What a link answers, in the words of a line.
use link::{Answer, End};
use replay::{Shown, Trouble};
use std::alloc::{AllocError, Global};

/// Appends an answer.
pub(crate) fn show_answer<T: Shown>(
    answer: &Answer<T>,
    text: &mut String,
) -> Result<(), AllocError> {
    match answer {
        Answer::Value(value) => {
            text.push('=')?;
            value.show(text)
        }
        Answer::Damaged => text.push_str("!damaged"),
        Answer::TooLong => text.push_str("!toolong"),
        Answer::Cut => text.push_str("!cut"),
    }
}

/// Appends answers, a semicolon between two; a dash where there are none.
pub(crate) fn show_answers<T: Shown>(
    answers: &[Answer<T>],
    text: &mut String,
) -> Result<(), AllocError> {
    if answers.is_empty() {
        return text.push('-');
    }
    for (i, answer) in answers.iter().enumerate() {
        if i > 0 {
            text.push(';')?;
        }
        show_answer(answer, text)?;
    }
    Ok(())
}

/// Refuses a reception for which no memory was found, and notes one that was interrupted.
pub(crate) fn need_end(end: End, text: &mut String) -> Result<(), Trouble> {
    match end {
        End::Ended => Ok(()),
        End::ReadFault => {
            text.push_str(" and then a read fault")?;
            Ok(())
        }
        End::NoMemory => Err(Trouble::NoMemory),
    }
}

/// The answers of a stream's line without their places and the cuts: those to the whole stream.
pub(crate) fn without_places(alloc: Global, wanted: &str) -> Result<String, AllocError> {
    let mut text = String::new(alloc);
    for piece in wanted.split('|') {
        add_without_places(piece, &mut text)?;
    }
    if text.is_empty() {
        text.push('-')?;
    }
    Ok(text)
}

/// Appends the answers to a chunk without their places.
fn add_without_places(piece: &str, text: &mut String) -> Result<(), AllocError> {
    for answer in piece.split(';') {
        let answer = match answer {
            "-" => continue,
            "cut" => "!cut",
            _ => answer.trim_start_matches(|c: char| c.is_ascii_digit()),
        };
        if !text.is_empty() {
            text.push(';')?;
        }
        text.push_str(answer)?;
    }
    Ok(())
}
