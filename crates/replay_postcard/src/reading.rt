//! What bytes are read as.
use postcard::{Deserialize, DeserializeOwned, Error};
use replay::{Findings, Shown, Trouble, in_words};
use std::alloc::Global;

/// Reads bytes by each call. A reader's buffer is as long as the bytes.
pub(crate) fn read<'a, T: Deserialize<&'a [u8]> + Shown>(
    alloc: Global,
    bytes: &'a [u8],
    room: &'a mut [u8],
    wanted: &str,
    findings: &mut Findings,
) -> Result<(), Trouble> {
    findings.check("take_from_bytes", taken::<T>(alloc, bytes), wanted)?;
    let wanted = value_of(wanted);
    let answer = told(alloc, postcard::from_bytes::<T>(alloc, bytes));
    findings.check("from_bytes", answer, wanted)?;
    findings.check("from_io", given::<T>(alloc, bytes, room), wanted)
}

/// The result of `take_from_bytes`.
fn taken<'a, T: Deserialize<&'a [u8]> + Shown>(
    alloc: Global,
    bytes: &'a [u8],
) -> Result<String, Trouble> {
    match postcard::take_from_bytes::<T>(alloc, bytes) {
        Ok((value, rest)) => with_rest(alloc, &value, rest.len()),
        Err(error) => refusal(alloc, error),
    }
}

/// The result of `from_io`.
fn given<'a, T: Deserialize<&'a [u8]> + Shown>(
    alloc: Global,
    bytes: &'a [u8],
    room: &'a mut [u8],
) -> Result<String, Trouble> {
    match postcard::from_io::<T, &[u8]>(alloc, (bytes, room)) {
        Ok((value, _)) => Ok(in_words(alloc, &value)?),
        Err(error) => refusal(alloc, error),
    }
}

/// Reads bytes as a value that keeps none of them.
pub(crate) fn read_owned<T: DeserializeOwned + Shown>(
    alloc: Global,
    bytes: &[u8],
    wanted: &str,
    findings: &mut Findings,
) -> Result<(), Trouble> {
    let answer = told(alloc, postcard::from_bytes_owned::<T>(alloc, bytes));
    findings.check("from_bytes_owned", answer, value_of(wanted))
}

/// Reads a frame, and a copy of it, by each call.
pub(crate) fn read_frame<'a, T: Deserialize<&'a [u8]> + Shown>(
    alloc: Global,
    frame: &'a mut [u8],
    copy: &'a mut [u8],
    wanted: &str,
    findings: &mut Findings,
) -> Result<(), Trouble> {
    let answer = match postcard::take_from_bytes_cobs::<T>(alloc, frame) {
        Ok((value, rest)) => with_rest(alloc, &value, rest.len()),
        Err(error) => refusal(alloc, error),
    };
    findings.check("take_from_bytes_cobs", answer, wanted)?;
    let answer = told(alloc, postcard::from_bytes_cobs::<T>(alloc, copy));
    findings.check("from_bytes_cobs", answer, value_of(wanted))
}

/// The result of a call that returns a value alone.
fn told<T: Shown + Drop>(alloc: Global, answer: Result<T, Error>) -> Result<String, Trouble> {
    match answer {
        Ok(value) => Ok(in_words(alloc, &value)?),
        Err(error) => refusal(alloc, error),
    }
}

/// The result without the count of bytes that are left.
fn value_of(wanted: &str) -> &str {
    match wanted.split_once(' ') {
        Some((value, _)) => value,
        None => wanted,
    }
}

/// A value and a count of bytes that are left.
fn with_rest<T: Shown>(alloc: Global, value: &T, rest: usize) -> Result<String, Trouble> {
    let mut text = in_words(alloc, value)?;
    write!(text, " +{rest}")?;
    Ok(text)
}

/// An error, in the words of a line.
pub(crate) fn refusal(alloc: Global, error: Error) -> Result<String, Trouble> {
    Ok(format!(in alloc; "!{error:?}")?)
}
