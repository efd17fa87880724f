//! The run over all lines.
use crate::findings::Findings;
use crate::words::{Trouble, Words};
use std::alloc::Global;
use std::io;
use std::io::{BufRead, BufReader, BufWriter, ErrorKind, Read, Write};
use std::process::ExitCode;

/// What replays lines.
pub trait Replays {
    /// Makes the calls that a line of a kind, its first word, mentions, and compares each result.
    fn replay(
        &self,
        alloc: Global,
        kind: &str,
        words: &mut Words<'_>,
        findings: &mut Findings,
    ) -> Result<(), Trouble>;
}

/// Replays each line of an input, prints each that differs with what was returned, and then how many lines passed and
/// failed. A line that isn't text, or isn't of a known kind, fails. The status is 0 if none failed, else 1.
///
/// It holds one line at a time. A read or a write that fails, or being out of memory, ends it with that error.
pub fn replay_all<L: Replays, R: Read + Drop, W: Write + Drop>(
    lines: &L,
    alloc: Global,
    input: R,
    output: W,
) -> io::Result<ExitCode> {
    let input = BufReader::new(alloc, input)?;
    let mut out = BufWriter::new(alloc, output)?;
    replay_lines(lines, alloc, input, &mut out)
}

/// Answers each line, prints those that differ and the counts, and says how it ended.
fn replay_lines<L: Replays, R: BufRead + Drop, W: Write>(
    lines: &L,
    alloc: Global,
    input: R,
    out: &mut W,
) -> io::Result<ExitCode> {
    let mut passed: u64 = 0;
    let mut failed: u64 = 0;
    for line in input.lines(alloc) {
        if replay_line(lines, alloc, line, out)? {
            passed = passed.saturating_add(1);
        } else {
            failed = failed.saturating_add(1);
        }
    }
    end(passed, failed, out)
}

/// Prints the counts, and says how it ended.
fn end<W: Write>(passed: u64, failed: u64, out: &mut W) -> io::Result<ExitCode> {
    writeln!(out, "{passed} passed, {failed} failed")?;
    out.flush()?;
    Ok(ExitCode::from(if failed == 0 { 0 } else { 1 }))
}

/// Replays a line as it was read, prints it if it differs, and returns whether it passed.
fn replay_line<L: Replays, W: Write>(
    lines: &L,
    alloc: Global,
    line: io::Result<String>,
    out: &mut W,
) -> io::Result<bool> {
    match line {
        Ok(line) => passes(lines, alloc, line.as_str(), out),
        Err(error) => unread(error, out),
    }
}

/// Prints that a line isn't text, if it was not read for that reason.
fn unread<W: Write>(error: io::Error, out: &mut W) -> io::Result<bool> {
    if error.kind() != ErrorKind::InvalidData {
        return Err(error);
    }
    writeln!(out, "a line that isn't text | unreadable")?;
    Ok(false)
}

/// Replays a line of text, prints it if it differs, and returns whether it passed.
fn passes<L: Replays, W: Write>(
    lines: &L,
    alloc: Global,
    line: &str,
    out: &mut W,
) -> io::Result<bool> {
    let mut findings = Findings::new(alloc);
    let answer = answer(lines, alloc, line, &mut findings);
    report(line, findings.end(answer), &findings, out)
}

/// Prints a line whose results differ, and returns whether it passed.
fn report<W: Write>(
    line: &str,
    answer: Result<(), Trouble>,
    findings: &Findings,
    out: &mut W,
) -> io::Result<bool> {
    let what = match answer {
        Ok(()) if findings.is_empty() => return Ok(true),
        Ok(()) => findings.text(),
        Err(Trouble::Unreadable) => " | unreadable",
        Err(Trouble::Refused) => " | refused",
        Err(Trouble::NoMemory) => return Err(ErrorKind::OutOfMemory.into()),
    };
    writeln!(out, "{line}{what}")?;
    Ok(false)
}

/// Answers a line by its kind.
fn answer<L: Replays>(
    lines: &L,
    alloc: Global,
    line: &str,
    findings: &mut Findings,
) -> Result<(), Trouble> {
    let mut words = Words::new(line);
    let kind = words.next()?;
    lines.replay(alloc, kind, &mut words, findings)
}
