//! Showing the records of a log.
ghost use Rattle.std.specs.Prelude.{◌≡◌, ◌<◌, ℕ, List, length, Some, None, IfOk};
ghost use Rattle.journal_scan.specs.Scanning.{IsScanning, offset_of};
ghost use Rattle.records.specs.Statuses.{IsFaultStatus};

use crate::entries::{Entry, INPUT, MOST, OUTPUT, open_file, read_input, say_no_memory, status_of};
use crate::words::Wanted;
use help::Progress;
use journal::stores::{Store, Stored};
use journal_scan::{Scan, ScanError};
use link::Answer;
use memchr::memchr;
use sealed::Sealed;
use std::alloc::Global;
use std::io::{self, BufWriter, ErrorKind, Write};

// Writes a text as it is, or with its control characters but tabs escaped, as Rust or JSON writes them: so that no text moves a
// terminal's cursor, sets its colours or writes over a line.
fn write_text<W: Write>(to: &mut W, text: &str, json: bool, escaped: bool) -> io::Result<()> {
    if !escaped {
        return write!(to, "{text}");
    }
    for c in text.chars() {
        let code = c as u32;
        if !c.is_control() || c == '\t' {
            write!(to, "{c}")?;
        } else if json {
            write!(to, "\\u{code:04x}")?;
        } else {
            write!(to, "\\u{{{code:x}}}")?;
        }
    }
    Ok(())
}

// Writes a record as a line of text, or of JSON.
fn write_record<W: Write>(
    alloc: Global,
    to: &mut W,
    number: u64,
    text: &String,
    wanted: Wanted<'_>,
) -> io::Result<()> {
    let Wanted { json, escaped, .. } = wanted;
    if !json {
        // one that `append` never writes: unescaped, it would end the line, and a second one would look like another record
        let escaped = escaped || memchr(b'\n', text.as_bytes()).is_some();
        write!(to, "{number} ")?;
        write_text(to, text, json, escaped)?;
        return writeln!(to);
    }
    let Ok(quoted) = serde_json::to_string(alloc, text) else {
        return Err(io::Error::from(ErrorKind::OutOfMemory));
    };
    write!(to, "{{\"number\":{number},\"text\":")?;
    write_text(to, &quoted, json, escaped)?;
    writeln!(to, "}}")
}

// Writes a record that is wanted and sealed with its own number, unless it is one of the first `passed`.
fn write_wanted<W: Write>(
    alloc: Global,
    to: &mut W,
    answer: &Answer<(u64, Entry)>,
    wanted: Wanted<'_>,
    passed: &mut u64,
) -> io::Result<()> {
    let Answer::Value((number, Sealed((sealed, text)))) = answer else {
        return Ok(());
    };
    if *number != *sealed || *number < wanted.first {
        return Ok(());
    }
    if *passed > 0 {
        *passed -= 1;
        return Ok(());
    }
    write_record(alloc, to, *number, text, wanted)
}

/// Writes what is wanted of the records that the scan still finds, without the first `passed` of them, and counts its bytes as
/// progress. Returns why the scan stopped, or nothing at the log's end.
pub fn write_rest<S: Store, W: Write>(
    rt: &HostRuntime,
    progress: &mut Progress,
    scan: &mut Scan,
    store: &mut S,
    to: &mut W,
    wanted: Wanted<'_>,
    passed: &mut u64,
) -> io::Result<Option<ScanError>>
    ensures whole { IfOk result (λ stopped. stopped ≡ None → (limit : ℕ) (bytes : List ℕ)
        → (S.line store.old).told ≡ Some bytes → IsScanning limit bytes scan.old
        → IsScanning limit bytes scan.new × (offset_of scan.new ≡ length bytes)) }
    ensures quiet { IfOk result (λ stopped. stopped ≡ None
        → (S.line store.new).faults ≡ (S.line store.old).faults) }
    ensures held { (S.line store.new).told ≡ (S.line store.old).told }
{
    let alloc = rt.alloc();
    for _ in 0..u64::MAX {
        let from = scan.at();
        match scan.next_ended::<Entry, S>(alloc, store) {
            Ok(Some(stretch)) => {
                progress.step(rt, scan.at().saturating_sub(from));
                write_wanted(alloc, to, &stretch.answer, wanted, passed)?
            }
            Ok(None) => return Ok(None),
            Err(e) => return Ok(Some(e)),
        }
    }
    Ok(Some(ScanError::Fault))
}

// Prints the same. The lines are buffered, and all of them are printed before this returns, also at an error.
fn show_rest<S: Store>(
    rt: &HostRuntime,
    progress: &mut Progress,
    scan: &mut Scan,
    store: &mut S,
    wanted: Wanted<'_>,
    passed: &mut u64,
) -> io::Result<u8>
    ensures whole { IfOk result (λ status. status ≡ 0 → (limit : ℕ) (bytes : List ℕ)
        → (S.line store.old).told ≡ Some bytes → IsScanning limit bytes scan.old
        → IsScanning limit bytes scan.new × (offset_of scan.new ≡ length bytes)) }
    ensures quiet { IfOk result (λ status. status ≡ 0
        → (S.line store.new).faults ≡ (S.line store.old).faults) }
    ensures held { (S.line store.new).told ≡ (S.line store.old).told }
    ensures failed { IfOk result (λ status. 0 < status → IsFaultStatus status) }
{
    let Ok(mut printed) = BufWriter::new(rt.alloc(), io::writer(rt)) else {
        return Ok(say_no_memory(rt, OUTPUT));
    };
    let shown = write_rest(rt, progress, scan, store, &mut printed, wanted, passed);
    progress.end(rt);
    printed.flush()?;
    match shown? {
        None => Ok(0),
        Some(e) => Ok(status_of(rt, wanted.path.unwrap_or(INPUT), e)),
    }
}

// Prints what follows the last zero, if that is a record but for its zero, and is wanted.
fn show_last(rt: &HostRuntime, scan: Scan, wanted: Wanted<'_>, passed: &mut u64) -> io::Result<u8>
    ensures { IfOk result (λ status. 0 < status → IsFaultStatus status) }
{
    match scan.finish::<Entry>(rt.alloc()) {
        Ok(Some(stretch)) => {
            let answer = &stretch.answer;
            write_wanted(rt.alloc(), &mut io::writer(rt), answer, wanted, passed)?;
            Ok(0)
        }
        Ok(None) => Ok(0),
        Err(e) => Ok(status_of(rt, wanted.path.unwrap_or(INPUT), e)),
    }
}

// Prints what is wanted of a log, without its first `passed` records.
fn show_from<S: Store>(
    rt: &HostRuntime,
    progress: &mut Progress,
    store: &mut S,
    wanted: Wanted<'_>,
    passed: &mut u64,
) -> io::Result<u8>
    ensures quiet { IfOk result (λ status. status ≡ 0
        → (S.line store.new).faults ≡ (S.line store.old).faults) }
    ensures held { (S.line store.new).told ≡ (S.line store.old).told }
    ensures failed { IfOk result (λ status. 0 < status → IsFaultStatus status) }
{
    match Scan::new(rt.alloc(), MOST, 0) {
        Ok(mut scan) => match show_rest(rt, progress, &mut scan, store, wanted, passed) {
            Ok(0) => show_last(rt, scan, wanted, passed),
            failed => failed,
        },
        Err(e) => Ok(status_of(rt, wanted.path.unwrap_or(INPUT), e)),
    }
}

// Shows a log. It is read twice if only the last records are wanted, so that none is kept.
fn show_in<S: Store>(rt: &HostRuntime, store: &mut S, wanted: Wanted<'_>) -> io::Result<u8>
    ensures quiet { IfOk result (λ status. status ≡ 0
        → (S.line store.new).faults ≡ (S.line store.old).faults) }
    ensures held { (S.line store.new).told ≡ (S.line store.old).told }
    ensures failed { IfOk result (λ status. 0 < status → IsFaultStatus status) }
{
    let mut passed = 0u64;
    let mut progress = Progress::new(rt);
    if let Some(last) = wanted.last {
        // counts all of them, and prints none
        let mut left = u64::MAX;
        match show_from(rt, &mut progress, store, wanted, &mut left) {
            Ok(0) => passed = u64::MAX.saturating_sub(left).saturating_sub(last),
            failed => return failed,
        }
    }
    show_from(rt, &mut progress, store, wanted, &mut passed)
}

/// Prints what is wanted of a log. Returns the status.
pub fn show(rt: &HostRuntime, wanted: Wanted<'_>) -> io::Result<u8>
    ensures { IfOk result (λ status. 0 < status → IsFaultStatus status) }
{
    match wanted.path {
        Some(path) => match open_file(rt, path, false) {
            Ok(file) => show_in(rt, &mut Stored::new(file), wanted),
            Err(status) => Ok(status),
        },
        None => match read_input(rt) {
            Ok(mut store) => show_in(rt, &mut store, wanted),
            Err(status) => Ok(status),
        },
    }
}
