//! Texts as printable ASCII: each byte is one column on any terminal, whatever its character set, and none controls it.
ghost use Rattle.std.specs.Prelude.{◌≡◌, ◌≤◌, ◌↔◌, ◌%◌, ◌++◌, length, take, flat_map, true, OnOk, IfOk};
ghost use Rattle.std.specs.Char.{digit_char};
ghost use Rattle.std.specs.Char.Escape.{encode_utf16};
ghost use Rattle.wire_lib.specs.Printable.{IsPrintable, ArePrintable, escaped_unit, shown_character, shown_text};

use std::alloc::{AllocError, Global};

/// Whether a character is shown as it is.
fn is_plain(character: char) -> bool
    ensures { result ≡ true ↔ IsPrintable character }
{
    character >= ' ' && character <= '~'
}

/// The last hexadecimal digit of a number.
fn digit(number: u16) -> u8
    ensures { result ≡ digit_char (number % 16) }
{
    let last = (number % 16) as u8;
    if last < 10 {
        b'0' + last
    } else {
        b'a' + (last - 10)
    }
}

/// Appends a UTF-16 code unit as JSON escapes it.
fn put_escape(line: &mut Vec<u8>, unit: u16) -> Result<(), AllocError>
    ensures { OnOk result (line.new.items ≡ line.old.items ++ escaped_unit unit) }
{
    let escape = [
        b'\\',
        b'u',
        digit(unit / 4096),
        digit(unit / 256),
        digit(unit / 16),
        digit(unit),
    ];
    line.extend_from_slice(&escape)
}

/// Appends a character by its escapes.
fn put_escaped(line: &mut Vec<u8>, character: char) -> Result<(), AllocError>
    ensures { OnOk result (line.new.items
        ≡ line.old.items ++ flat_map escaped_unit (encode_utf16 character)) }
{
    let mut units = [0u16; 2];
    match character.encode_utf16(&mut units) {
        [unit] => put_escape(line, *unit),
        [high, low] => {
            put_escape(line, *high)?;
            put_escape(line, *low)
        }
        _ => Ok(()),
    }
}

/// Appends a character, as it is or by its escapes.
fn put(line: &mut Vec<u8>, character: char) -> Result<(), AllocError>
    ensures { OnOk result (line.new.items ≡ line.old.items ++ shown_character character) }
{
    if is_plain(character) {
        return Ok(line.push(character as u8)?);
    }
    put_escaped(line, character)
}

/// Appends a text's characters, until there are `columns` bytes or more.
fn put_all(line: &mut Vec<u8>, text: &str, columns: usize) -> Result<(), AllocError>
    ensures { OnOk result (take columns line.new.items
        ≡ take columns (line.old.items ++ shown_text text.now)) }
{
    for character in text.chars() {
        if line.len() >= columns {
            return Ok(());
        }
        put(line, character)?;
    }
    Ok(())
}

/// Returns a text as one line of at most `columns` bytes: what exceeds them is cut off, also within an escape. Each character that
/// isn't printable ASCII is escaped as in JSON.
///
/// # Errors
/// Out of memory.
///
/// # Allocates
/// The line.
pub fn printable(alloc: Global, text: &str, columns: usize) -> Result<Vec<u8>, AllocError>
    ensures text { IfOk result (λ line. line.items ≡ take columns (shown_text text.now)) }
    ensures printable { IfOk result (λ line. ArePrintable line.items) }
    ensures fits { IfOk result (λ line. length line.items ≤ columns) }
{
    let mut line = Vec::new(alloc);
    put_all(&mut line, text, columns)?;
    line.truncate(columns);
    Ok(line)
}
