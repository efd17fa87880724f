//! What is wrong with a line, and the path to it.
ghost use Rattle.std.specs.Prelude.{◌≡◌, ◌+◌, ◌<◌, ◌++◌, [], None, codes, length, get_or, string_bytes, string_capacity, string_len, OnOk, OnErr};
ghost use Rattle.wire_json.specs.Refused.{AppendsFront, IsFault, IsFaultAt, IsWrong, column_path, fault_line, line_parts};
ghost use Rattle.wire_json.specs.declared.wrong.ParseError.TheVariants.{OutOfMemory};

use itoa::Buffer;
use std::alloc::{AllocError, AllocFailed, Global};

/// A fault in a line.
#[derive(Debug, Drop)]
pub struct Wrong {
    /// The path to it, such as `history[3].light`; `None` if the whole line is wrong.
    pub path: Option<String>,
    /// What is wrong.
    pub why: &'static str,
}

/// Why a line isn't a value of the type.
#[derive(Debug, Drop)]
pub enum ParseError {
    /// It isn't JSON, or not of the type.
    Wrong(Wrong),
    /// Out of memory.
    OutOfMemory,
}

impl From<AllocError> for ParseError {
    ghost from_gives = { λ _ e. e ≡ OutOfMemory };

    fn from(_: AllocError) -> ParseError {
        ParseError::OutOfMemory
    }
}

impl<T: Drop> From<AllocFailed<T>> for ParseError {
    ghost from_gives = { λ _ e. e ≡ OutOfMemory };

    fn from(_: AllocFailed<T>) -> ParseError {
        ParseError::OutOfMemory
    }
}

/// Returns the error for a fault of the whole value.
pub fn refusal(why: &'static str) -> ParseError
    ensures { IsFault None why.now result }
{
    ParseError::Wrong(Wrong { path: None, why })
}

/// Appends a character of a name; one that controls a terminal as JSON escapes it.
fn push_character(alloc: Global, path: &mut String, character: char) -> Result<(), AllocError> {
    match character {
        '\n' => path.push_str("\\n"),
        '\r' => path.push_str("\\r"),
        '\t' => path.push_str("\\t"),
        '\u{0}'..='\u{1f}' | '\u{7f}'..='\u{9f}' => {
            let code = u32::from(character);
            path.push_str(format!(in alloc; "\\u{code:04x}")?.as_str())
        }
        _ => path.push(character),
    }
}

/// Appends a name.
fn push_name(alloc: Global, path: &mut String, name: &str) -> Result<(), AllocError> {
    for character in name.chars() {
        push_character(alloc, path, character)?;
    }
    Ok(())
}

/// The path inside a part of this name.
fn joined(alloc: Global, name: &str, path: &Option<String>) -> Result<String, AllocError> {
    let mut whole = String::new(alloc);
    push_name(alloc, &mut whole, name)?;
    if let Some(path) = path {
        if !path.starts_with('[') {
            whole.push('.')?;
        }
        whole.push_str(path.as_str())?;
    }
    Ok(whole)
}

// The path is made on the way out, so a line without a fault costs nothing.
/// Returns the error with the name of the part in which it is put before its path; `OutOfMemory` if that is the error, or if the
/// path couldn't be allocated.
///
/// # Allocates
/// The path.
pub fn inside(alloc: Global, name: &str, error: ParseError) -> ParseError
    ensures { IsWrong result → IsWrong error }
{
    let ParseError::Wrong(Wrong { path, why }) = error else {
        return ParseError::OutOfMemory;
    };
    match joined(alloc, name, &path) {
        Ok(path) => ParseError::Wrong(Wrong {
            path: Some(path),
            why,
        }),
        Err(_) => ParseError::OutOfMemory,
    }
}

/// Returns the error with the index of the element in which it is put before its path; `OutOfMemory` as [`inside`].
///
/// # Allocates
/// The path.
pub fn inside_element(alloc: Global, index: usize, error: ParseError) -> ParseError
    ensures { IsWrong result → IsWrong error }
{
    match format!(in alloc; "[{index}]") {
        Ok(name) => inside(alloc, name.as_str(), error),
        Err(_) => ParseError::OutOfMemory,
    }
}

/// Returns the error for a line that isn't JSON from this column on; `OutOfMemory` if its path couldn't be allocated.
///
/// # Allocates
/// The path.
pub fn at_column(alloc: Global, column: usize) -> ParseError
    ensures { IsFaultAt (column_path column) (codes "the line isn't JSON") result }
{
    match format!(in alloc; "column {column}") {
        Ok(path) => ParseError::Wrong(Wrong {
            path: Some(path),
            why: "the line isn't JSON",
        }),
        Err(_) => ParseError::OutOfMemory,
    }
}

/// One of the texts that are the line of a fault, in order; the sixth is the last.
fn part_of<'a>(number: &'a str, wrong: &'a Wrong, index: usize) -> &'a str
    ensures { result.now ≡ get_or (line_parts number.now wrong.now) index [] }
{
    match (index, &wrong.path) {
        (0, _) => "line ",
        (1, _) => number,
        (2, Some(_)) => ": ",
        (3, Some(path)) => path.as_str(),
        (4, _) => ": ",
        (5, _) => wrong.why,
        (6, _) => "\n",
        _ => "",
    }
}

/// Appends `line K: PATH: WHY` and a line feed, for the line with this number; without a path `line K: WHY`.
///
/// # Errors
/// Out of memory, only if the capacity of `lines` doesn't suffice; a prefix of the line may have been appended.
///
/// # Allocates
/// What `lines` grows by.
pub fn put_wrong(lines: &mut String, number: u64, wrong: &Wrong) -> Result<(), AllocError>
    ensures line { OnOk result (string_bytes lines.new
        ≡ string_bytes lines.old ++ fault_line number wrong.now) }
    ensures front { OnErr result (AppendsFront (string_bytes lines.old) (string_bytes lines.new)
        (fault_line number wrong.now)) }
    ensures full { OnErr result (string_capacity lines.old
        < string_len lines.old + length (fault_line number wrong.now)) }
{
    let mut digits = Buffer::new();
    let number = digits.format(number);
    for index in 0..7 {
        lines.push_str(part_of(number, &*wrong, index))?;
    }
    Ok(())
}
