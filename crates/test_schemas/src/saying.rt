//! Values in the words of the lines of vectors.
use postcard_tree::Error;
use schemas::{Integer, Value};
use std::alloc::{AllocError, Global};

/// The bytes of a text.
fn say_text(text: &str, line: &mut String) -> Result<(), AllocError> {
    line.push_str("s(")?;
    for byte in text.as_bytes() {
        write!(line, "{byte:02x}")?;
    }
    line.push(')')
}

fn say_bytes(bytes: &[u8], line: &mut String) -> Result<(), AllocError> {
    line.push('[')?;
    for i in 0..bytes.len() {
        if i > 0 {
            line.push(',')?;
        }
        let byte = bytes[i];
        write!(line, "{byte}")?;
    }
    line.push(']')
}

fn say_bool(holds: bool, line: &mut String) -> Result<(), AllocError> {
    write!(line, "{holds}")
}

fn say_unsigned(n: u128, line: &mut String) -> Result<(), AllocError> {
    write!(line, "{n}")
}

fn say_integer(n: Integer, line: &mut String) -> Result<(), AllocError> {
    match n {
        Integer::U16(n) => say_unsigned(n as u128, line),
        Integer::U32(n) => say_unsigned(n as u128, line),
        Integer::U64(n) => say_unsigned(n as u128, line),
        Integer::U128(n) => say_unsigned(n, line),
        Integer::I16(n) => say_signed(n as i128, line),
        Integer::I32(n) => say_signed(n as i128, line),
        Integer::I64(n) => say_signed(n as i128, line),
        Integer::I128(n) => say_signed(n, line),
    }
}

fn say_signed(n: i128, line: &mut String) -> Result<(), AllocError> {
    write!(line, "{n}")
}

#[cycle(say)]
fn say_all(items: &[Value], line: &mut String) -> Result<(), AllocError> {
    for i in 0..items.len() {
        if i > 0 {
            line.push(',')?;
        }
        say(&items[i], line)?;
    }
    Ok(())
}

#[cycle(say)]
fn say_inside(
    start: &str,
    items: &[Value],
    end: char,
    line: &mut String,
) -> Result<(), AllocError> {
    line.push_str(start)?;
    say_all(items, line)?;
    line.push(end)
}

#[cycle(say)]
fn say_variant(index: u32, inner: &Value, line: &mut String) -> Result<(), AllocError> {
    say_unsigned(index as u128, line)?;
    line.push(':')?;
    say(inner, line)
}

#[cycle(say)]
fn say_present(inner: &Value, line: &mut String) -> Result<(), AllocError> {
    line.push_str("some(")?;
    say(inner, line)?;
    line.push(')')
}

fn say_char(letter: char, line: &mut String) -> Result<(), AllocError> {
    let code = letter as u32;
    write!(line, "U+{code:04X}")
}

/// Appends a value.
#[cycle(say)]
pub(crate) fn say(value: &Value, line: &mut String) -> Result<(), AllocError> {
    match value {
        Value::Bool(b) => say_bool(*b, line),
        Value::U8(n) => say_unsigned(*n as u128, line),
        Value::I8(n) => say_signed(*n as i128, line),
        Value::U16(n) => say_unsigned(*n as u128, line),
        Value::U32(n) => say_unsigned(*n as u128, line),
        Value::U64(n) => say_unsigned(*n as u128, line),
        Value::U128(n) => say_unsigned(*n, line),
        Value::I16(n) => say_signed(*n as i128, line),
        Value::I32(n) => say_signed(*n as i128, line),
        Value::I64(n) => say_signed(*n as i128, line),
        Value::I128(n) => say_signed(*n, line),
        Value::LE(n) | Value::BE(n) => say_integer(*n, line),
        Value::Char(c) => say_char(*c, line),
        Value::Text(text) => say_text(text.as_str(), line),
        Value::Bytes(bytes) => say_bytes(bytes, line),
        Value::Absent => line.push_str("none"),
        Value::Present(inner) => say_present(inner, line),
        Value::List(items) => say_inside("[", items, ']', line),
        Value::Group(items) => say_inside("(", items, ')', line),
        Value::Variant(index, inner) => say_variant(*index, inner, line),
    }
}

/// A value with how many bytes are left after it.
pub(crate) fn say_read(alloc: Global, value: &Value, left: usize) -> Result<String, AllocError> {
    let mut line = String::new(alloc);
    say(value, &mut line)?;
    write!(line, " +{left}")?;
    Ok(line)
}

/// An error.
pub(crate) fn say_refused(alloc: Global, cause: Error) -> Result<String, AllocError> {
    format!(in alloc; "!{cause:?}")
}
