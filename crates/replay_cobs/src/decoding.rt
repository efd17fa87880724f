//! Messages of frames.
use cobs::{DecodeError, DecodeReport, DecodeVecError};
use replay::{Findings, Trouble, Words, digits, digits_behind};
use std::alloc::{AllocError, Global};

/// `SOURCE CAP -> PARSED MESSAGE` or `SOURCE CAP -> !ERROR`: the first frame of a source, decoded into so many bytes.
pub(crate) fn replay_decode(
    alloc: Global,
    words: &mut Words<'_>,
    findings: &mut Findings,
) -> Result<(), Trouble> {
    let source = words.bytes(alloc)?;
    let capacity = words.number()?;
    let wanted = words.answer()?;
    compare_decode(alloc, &source, capacity, wanted, findings);
    if wanted != "!TargetBufTooSmall" {
        compare_decode_vec(alloc, &source, message_of(wanted), findings);
    }
    Ok(())
}

/// Compares what `decode` returns, into so many bytes.
fn compare_decode(
    alloc: Global,
    source: &[u8],
    capacity: usize,
    wanted: &str,
    findings: &mut Findings,
) {
    let Ok(mut room) = vec![in alloc; 0; capacity] else {
        return findings.give_up(Trouble::NoMemory);
    };
    let text = match cobs::decode(source, room.as_mut_slice()) {
        Ok(report) => report_text(alloc, &report, &room),
        Err(error) => error_text(alloc, error),
    };
    findings.see("decode", text, wanted);
}

/// Compares what `decode_vec` returns.
fn compare_decode_vec(alloc: Global, source: &[u8], wanted: &str, findings: &mut Findings) {
    let text = match cobs::decode_vec(alloc, source) {
        Ok(message) => digits(alloc, &message),
        Err(DecodeVecError::Decode(error)) => error_text(alloc, error),
        Err(DecodeVecError::OutOfMemory) => Err(AllocError),
    };
    findings.see("decode_vec", text, wanted);
}

/// `SOURCE -> PARSED MESSAGE` or `SOURCE -> !InvalidFrame`: a frame that is decoded over its own bytes.
pub(crate) fn replay_in_place(
    alloc: Global,
    words: &mut Words<'_>,
    findings: &mut Findings,
) -> Result<(), Trouble> {
    let source = words.bytes(alloc)?;
    let wanted = words.answer()?;
    compare_report(alloc, &source, wanted, findings);
    compare_in_place(alloc, &source, message_of(wanted), findings);
    Ok(())
}

/// Compares what `decode_in_place_report` returns.
fn compare_report(alloc: Global, source: &[u8], wanted: &str, findings: &mut Findings) {
    let Ok(mut buffer) = source.to_vec(alloc) else {
        return findings.give_up(Trouble::NoMemory);
    };
    let text = match cobs::decode_in_place_report(buffer.as_mut_slice()) {
        Ok(report) => report_text(alloc, &report, &buffer),
        Err(_) => String::from_str(alloc, "!InvalidFrame"),
    };
    findings.see("decode_in_place_report", text, wanted);
}

/// Compares what `decode_in_place` returns.
fn compare_in_place(alloc: Global, source: &[u8], wanted: &str, findings: &mut Findings) {
    let Ok(mut buffer) = source.to_vec(alloc) else {
        return findings.give_up(Trouble::NoMemory);
    };
    let text = match cobs::decode_in_place(buffer.as_mut_slice()) {
        Ok(n) => digits(alloc, buffer.get(..n).unwrap_or(&[])),
        Err(_) => String::from_str(alloc, "!InvalidFrame"),
    };
    findings.see("decode_in_place", text, wanted);
}

/// The message of a result, or its error.
fn message_of(wanted: &str) -> &str {
    if wanted.starts_with('!') {
        return wanted;
    }
    match wanted.split_once(' ') {
        Some((_, message)) => message,
        None => wanted,
    }
}

/// An error, in the words of a line.
fn error_text(alloc: Global, error: DecodeError) -> Result<String, AllocError> {
    match error {
        DecodeError::EmptyFrame => String::from_str(alloc, "!EmptyFrame"),
        DecodeError::TargetBufTooSmall => String::from_str(alloc, "!TargetBufTooSmall"),
        DecodeError::InvalidFrame { decoded_bytes } => {
            format!(in alloc; "!InvalidFrame {decoded_bytes}")
        }
    }
}

/// What was used of a source, and the message at the start of a buffer.
fn report_text(alloc: Global, report: &DecodeReport, buffer: &[u8]) -> Result<String, AllocError> {
    let parsed = report.parsed_size();
    let parsed = format!(in alloc; "{parsed} ")?;
    let message = buffer.get(..report.frame_size()).unwrap_or(&[]);
    digits_behind(alloc, parsed.as_str(), message)
}
