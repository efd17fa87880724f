//! Appending lines to a log.
ghost use Rattle.std.specs.Prelude.{◌≡◌, ◌⊎◌, ◌<◌, ◌≤◌, ◌-◌, ◌^◌, ℕ, [], ◌∷◌, true, false, OnOk, IfOk, IfErr};
ghost use Rattle.line_io.specs.Device.{Wrote};
ghost use Rattle.journal.specs.Store.{Settles};
ghost use Rattle.journal.specs.Appending.{LogPlace};
ghost use Rattle.journal.specs.Logs.{store_of, next_of, spent_of, log_place};
ghost use Rattle.records.specs.Lines.{AppendsRecord, AppendsNone, HasOneMore, AreAppended, IsGroupAt, IsSafeWithout, left_out_status, OnAppended, OnLeftOut, IfStops};
ghost use Rattle.records.specs.Settling.{first_of, behind_of};
ghost use Rattle.records.specs.Statuses.{IsFaultStatus};

use crate::checking::Printer;
use crate::entries::{
    Entry, INPUT, MOST, OUTPUT, open_file, say_error, say_failed, say_line, say_no_memory,
    sync_folder,
};
use crate::naming::{Identity, MOVED};
use crate::settling::{Group, Settled};
use journal::stores::{Store, Stored};
use journal::{AppendError, Journal, OpenError, ReadError, Unopened};
use journal_scan::open_by;
use memchr::memchr;
use sealed::Sealed;
use std::alloc::Global;
use std::fs::{File, TryLockError};
use std::io::{self, BufRead, BufReader, BufWriter, ErrorKind, Read, Write};

// How many bytes are asked for in one read of the input: lines that arrive in one read share a sync.
const ROOM: usize = 65536;

// Opens the log of this store to append, or returns the status. The next number is the one after the greatest of a sealed record, also
// if numbers are missing and the bytes that accounted for them are gone.
fn open_log<S: Store + Drop>(rt: &HostRuntime, path: &str, store: S) -> Result<Journal<S, MOST>, u8>
    ensures wrote { IfOk result (λ j. Wrote (S.line store) (S.line (store_of j)) (0 ∷ [])) }
    ensures settled { IfOk result
        (λ j. Settles (S.line (store_of j)).told (S.settled (store_of j))) }
    ensures ready { IfOk result (λ j. spent_of j ≡ false) }
    ensures failed { IfErr result (λ status. IsFaultStatus status) }
{
    let mut silent = Printer::silent();
    match open_by::<Entry, S, Printer<'_>, MOST>(rt.alloc(), store, &mut silent) {
        Ok((journal, _)) => Ok(journal),
        Err(Unopened { cause, store: _ }) => match cause {
            OpenError::Read(ReadError::NoMemory) => Err(say_no_memory(rt, path)),
            _ => Err(say_failed(rt, path, &cause)),
        },
    }
}

// Prints the numbers of records that survive any crash. Returns the status.
fn print_numbers(rt: &HostRuntime, settled: &Settled) -> io::Result<u8>
    ensures { IfOk result (λ status. 0 < status → status ≡ 4) }
{
    let Ok(mut printed) = BufWriter::new(rt.alloc(), io::writer(rt)) else {
        return Ok(say_no_memory(rt, OUTPUT));
    };
    for number in settled.numbers() {
        writeln!(printed, "{number}")?;
    }
    printed.flush()?;
    Ok(0)
}

// Writes that a line is longer than a record can hold. Lines are counted from 1.
fn say_too_long(rt: &HostRuntime, line: u64) {
    say_line(rt, line, "is too long: up to 992 bytes always fit");
}

// The log that is appended to: its name, and the file that was opened by it.
#[derive(Clone, Copy, Drop)]
struct Target<'a> {
    rt: &'a HostRuntime,
    path: &'a str,
    identity: Identity,
}

// Prints the numbers of settled records, if the log's name still leads to it. Returns the status.
fn tell(to: Target<'_>, settled: &Settled) -> io::Result<u8>
    ensures { IfOk result (λ status. 0 < status → IsFaultStatus status) }
{
    match to.identity.has_moved(to.rt, to.path) {
        Ok(false) => print_numbers(to.rt, settled),
        Ok(true) => Ok(say_failed(to.rt, to.path, &MOVED)),
        Err(e) => Ok(say_error(to.rt, to.path, &e)),
    }
}

// Syncs what was appended, and prints its numbers. Returns the status.
fn settle<S: Store>(to: Target<'_>, journal: &mut Journal<S, MOST>, group: Group) -> io::Result<u8>
    ensures failed { IfOk result (λ status. 0 < status → IsFaultStatus status) }
    ensures settled { IfOk result (λ status. status ≡ 0 → (first_of group ≡ behind_of group)
        ⊎ Settles (S.line (store_of journal.new)).told (S.settled (store_of journal.new))) }
    ensures empty { first_of group ≡ behind_of group
        → store_of journal.new ≡ store_of journal.old }
    ensures quiet { IfOk result (λ status. status ≡ 0
        → (S.line (store_of journal.new)).faults ≡ (S.line (store_of journal.old)).faults) }
    ensures held { (S.line (store_of journal.new)).told ≡ (S.line (store_of journal.old)).told }
    ensures no_less { S.settled (store_of journal.old) ≤ S.settled (store_of journal.new) }
    ensures next { next_of journal.new ≡ next_of journal.old }
{
    if group.is_empty() {
        return Ok(0);
    }
    match group.settle(journal) {
        Ok(settled) => tell(to, &settled),
        Err(_) => Ok(say_failed(to.rt, to.path, &"not synced")),
    }
}

// The same at the end of appending, with its status. If an append failed the journal is spent, so the store itself is synced.
fn settle_last<S: Store + Drop>(
    to: Target<'_>,
    journal: Journal<S, MOST>,
    group: Group,
    status: u8,
) -> io::Result<u8>
    ensures { IfOk result (λ last. (last ≡ status) ⊎ IsFaultStatus last) }
{
    if group.is_empty() {
        return Ok(status);
    }
    let mut store = journal.into_store();
    match group.settle_store(&mut store) {
        Ok(settled) => match tell(to, &settled)? {
            0 => Ok(status),
            failed => Ok(failed),
        },
        Err(_) => Ok(say_failed(to.rt, to.path, &"not synced")),
    }
}

// A line of the input.
#[derive(Drop)]
enum Line {
    // Its bytes, without the line feed that ends it.
    Read(Vec<u8>),
    // It is longer than a record can hold; its bytes were skipped, and none is kept.
    TooLong,
}

// Takes what the input's buffer has of the next line, with its line feed, and returns whether that was there. No more of a line is
// kept than shows that it is too long.
fn take_buffered<R: BufRead>(input: &mut R, line: &mut Vec<u8>) -> io::Result<Option<bool>> {
    let buffered = input.fill_buf()?;
    if buffered.is_empty() {
        return Ok(None);
    }
    let (length, used) = match memchr(b'\n', buffered) {
        Some(length) => (length, length + 1),
        None => (buffered.len(), buffered.len()),
    };
    let kept = length.min((MOST + 1).saturating_sub(line.len()));
    line.extend_from_slice(&buffered[..kept])?;
    input.consume(used);
    Ok(Some(used > length))
}

// The next line; nothing at the end of the input. Only its line feed is removed.
fn read_line<R: BufRead>(alloc: Global, input: &mut R) -> io::Result<Option<Line>> {
    let mut line: Vec<u8> = Vec::new(alloc);
    let mut is_begun = false;
    for _ in 0..u64::MAX {
        match take_buffered(input, &mut line) {
            Ok(Some(true)) => break,
            Ok(Some(false)) => is_begun = true,
            Ok(None) => {
                if is_begun {
                    break;
                }
                return Ok(None);
            }
            Err(e) => {
                if e.kind() != ErrorKind::Interrupted {
                    return Err(e);
                }
            }
        }
    }
    if line.len() > MOST {
        return Ok(Some(Line::TooLong));
    }
    Ok(Some(Line::Read(line)))
}

// The next line of text, which has this number, or `Some(None)` if it is too long; nothing at the end of the input; the status at an error.
fn next_text<R: BufRead>(
    rt: &HostRuntime,
    input: &mut R,
    number: u64,
) -> Result<Option<Option<String>>, u8>
    ensures { IfErr result (λ status. IsFaultStatus status) }
{
    match read_line(rt.alloc(), input) {
        Ok(Some(Line::Read(line))) => match String::from_utf8(line) {
            Ok(text) => Ok(Some(Some(text))),
            Err(_) => {
                say_line(
                    rt,
                    number,
                    "isn't UTF-8: it isn't appended, nor what follows it",
                );
                Err(3)
            }
        },
        Ok(Some(Line::TooLong)) => Ok(Some(None)),
        Ok(None) => Ok(None),
        Err(e) => Err(say_error(rt, INPUT, &e)),
    }
}

// What was done with the next line.
#[derive(Drop)]
enum Next {
    Appended,
    LeftOut,
    Ended,
    // Appending stops, with this status.
    Failed(u8),
}

// Appends a line, without a sync.
fn append_text<S: Store>(
    to: Target<'_>,
    journal: &mut Journal<S, MOST>,
    group: &mut Group,
    text: String,
    line: u64,
) -> Next
    ensures appended { OnAppended result (AppendsRecord group.old
        (log_place S.line S.settled journal.old) group.new
        (log_place S.line S.settled journal.new)) }
    ensures left_out { OnLeftOut result ((group.new ≡ group.old)
        × (store_of journal.new ≡ store_of journal.old)) }
    ensures none { IfStops result (λ _. AppendsNone group.old
        (log_place S.line S.settled journal.old) group.new
        (log_place S.line S.settled journal.new)) }
    ensures failed { IfStops result (λ status. IsFaultStatus status) }
    ensures settled { S.settled (store_of journal.new) ≡ S.settled (store_of journal.old) }
    ensures one { OnAppended result (HasOneMore (log_place S.line S.settled journal.old)
        (log_place S.line S.settled journal.new)) }
    ensures next { OnLeftOut result (next_of journal.new ≡ next_of journal.old) }
    ensures first { first_of group.new ≡ first_of group.old }
    ensures behind { OnAppended result (behind_of group.new ≡ next_of journal.new) }
{
    let entry = Sealed((journal.next(), text));
    match group.append(journal, &entry) {
        Ok(()) => Next::Appended,
        Err(AppendError::Refused(_)) => {
            say_too_long(to.rt, line);
            Next::LeftOut
        }
        Err(e) => Next::Failed(say_failed(to.rt, to.path, &e)),
    }
}

// Appends the next line of the input, which has this number.
fn append_next<R: BufRead, S: Store>(
    to: Target<'_>,
    input: &mut R,
    journal: &mut Journal<S, MOST>,
    group: &mut Group,
    line: u64,
) -> Next
    ensures appended { OnAppended result (AppendsRecord group.old
        (log_place S.line S.settled journal.old) group.new
        (log_place S.line S.settled journal.new)) }
    ensures left_out { OnLeftOut result ((group.new ≡ group.old)
        × (store_of journal.new ≡ store_of journal.old)) }
    ensures none { IfStops result (λ _. AppendsNone group.old
        (log_place S.line S.settled journal.old) group.new
        (log_place S.line S.settled journal.new)) }
    ensures failed { IfStops result (λ status. IsFaultStatus status) }
    ensures settled { S.settled (store_of journal.new) ≡ S.settled (store_of journal.old) }
    ensures one { OnAppended result (HasOneMore (log_place S.line S.settled journal.old)
        (log_place S.line S.settled journal.new)) }
    ensures next { OnLeftOut result (next_of journal.new ≡ next_of journal.old) }
    ensures first { first_of group.new ≡ first_of group.old }
    ensures behind { OnAppended result (behind_of group.new ≡ next_of journal.new) }
{
    match next_text(to.rt, input, line) {
        Ok(Some(Some(text))) => append_text(to, journal, group, text, line),
        Ok(Some(None)) => {
            say_too_long(to.rt, line);
            Next::LeftOut
        }
        Ok(None) => Next::Ended,
        Err(failed) => Next::Failed(failed),
    }
}

// The status at the end of the input: whether a line was left out.
fn status_by(left_out: bool) -> u8
    ensures { result ≡ left_out_status left_out }
{
    if left_out { 1 } else { 0 }
}

// Appends the next line of the input and counts it, and keeps whether one was left out. Returns whether the input has ended, or the
// status if appending stops.
fn append_counted<R: BufRead, S: Store>(
    to: Target<'_>,
    input: &mut R,
    journal: &mut Journal<S, MOST>,
    group: &mut Group,
    lines: &mut u64,
    left_out: &mut bool,
) -> Result<bool, u8>
    requires { lines.old < 2 ^ 64 - 1 }
    ensures counted { OnOk result ((start : LogPlace) (before : ℕ)
        → AreAppended start (log_place S.line S.settled journal.old) before lines.old
        (left_out_status left_out.old)
        → AreAppended start (log_place S.line S.settled journal.new) before lines.new
        (left_out_status left_out.new)) }
    ensures group { OnOk result (IsGroupAt group.old (log_place S.line S.settled journal.old)
        → IsGroupAt group.new (log_place S.line S.settled journal.new)) }
    ensures safe { OnOk result (IsGroupAt group.old (log_place S.line S.settled journal.old)
        → IsSafeWithout group.old (log_place S.line S.settled journal.old)
        → IsSafeWithout group.new (log_place S.line S.settled journal.new)) }
    ensures on { IfOk result (λ is_ended. is_ended ≡ false → lines.old < lines.new) }
    ensures failed { IfErr result (λ status. IsFaultStatus status) }
{
    match append_next(to, input, journal, group, *lines + 1) {
        Next::Appended => {
            *lines += 1;
            Ok(false)
        }
        Next::LeftOut => {
            *lines += 1;
            *left_out = true;
            Ok(false)
        }
        Next::Ended => Ok(true),
        Next::Failed(failed) => Err(failed),
    }
}

// Syncs what was appended, and prints its numbers, if that is due: then the group is empty. Returns the status.
fn settle_if<S: Store>(
    to: Target<'_>,
    journal: &mut Journal<S, MOST>,
    group: &mut Group,
    is_due: bool,
) -> io::Result<u8>
    ensures counted { IfOk result (λ status. status ≡ 0
        → (start : LogPlace) (before lines left_out : ℕ)
        → AreAppended start (log_place S.line S.settled journal.old) before lines left_out
        → AreAppended start (log_place S.line S.settled journal.new) before lines left_out) }
    ensures group { IfOk result (λ status. status ≡ 0
        → IsGroupAt group.old (log_place S.line S.settled journal.old)
        → IsGroupAt group.new (log_place S.line S.settled journal.new)) }
    ensures safe { IfOk result (λ status. status ≡ 0
        → IsSafeWithout group.old (log_place S.line S.settled journal.old)
        → IsSafeWithout group.new (log_place S.line S.settled journal.new)) }
    ensures settled { IfOk result (λ status. status ≡ 0 → is_due ≡ true
        → IsSafeWithout group.old (log_place S.line S.settled journal.old)
        → Settles (S.line (store_of journal.new)).told (S.settled (store_of journal.new))) }
    ensures failed { IfOk result (λ status. 0 < status → IsFaultStatus status) }
{
    if !is_due {
        return Ok(0);
    }
    let status = settle(to, journal, *group)?;
    *group = Group::new(journal);
    Ok(status)
}

// Appends each line of the input but those that are too long, and counts the lines. The log is synced, and the numbers are printed,
// before a read that may wait: so lines that are there already share a sync. Returns the status, and leaves the group of the records
// whose numbers may still be printed.
fn append_lines<R: Read, S: Store>(
    to: Target<'_>,
    input: &mut BufReader<R>,
    journal: &mut Journal<S, MOST>,
    group: &mut Group,
    lines: &mut u64,
) -> io::Result<u8>
    ensures appended { IfOk result (λ status. status < 2 → AreAppended
        (log_place S.line S.settled journal.old) (log_place S.line S.settled journal.new)
        lines.old lines.new status) }
    ensures settled { IfOk result (λ status. status < 2
        → Settles (S.line (store_of journal.old)).told (S.settled (store_of journal.old))
        → Settles (S.line (store_of journal.new)).told (S.settled (store_of journal.new))) }
    ensures failed { IfOk result (λ status. 1 < status → IsFaultStatus status) }
{
    *group = Group::new(journal);
    let mut left_out = false;
    while *lines < u64::MAX {
        let is_ended = match append_counted(to, input, journal, group, lines, &mut left_out) {
            Ok(is_ended) => is_ended,
            Err(failed) => return Ok(failed),
        };
        if is_ended {
            return match settle_if(to, journal, group, true)? {
                0 => Ok(status_by(left_out)),
                failed => Ok(failed),
            };
        }
        let is_due = memchr(b'\n', input.buffer()).is_none();
        match settle_if(to, journal, group, is_due)? {
            0 => {}
            failed => return Ok(failed),
        }
    }
    Ok(say_failed(to.rt, INPUT, &"too many lines"))
}

// Appends each line of standard input but those that are too long. Returns the status.
fn append_input<S: Store + Drop>(to: Target<'_>, journal: Journal<S, MOST>) -> io::Result<u8>
    ensures { IfOk result (λ status. 1 < status → IsFaultStatus status) }
{
    let Ok(mut input) = BufReader::with_capacity(to.rt.alloc(), ROOM, to.rt.reader()) else {
        return Ok(say_no_memory(to.rt, INPUT));
    };
    let mut journal = journal;
    let mut group = Group::new(&journal);
    let status = append_lines(to, &mut input, &mut journal, &mut group, &mut 0)?;
    settle_last(to, journal, group, status)
}

// Takes the lock of a log's file, or writes why that failed. Returns the status.
fn lock(rt: &HostRuntime, path: &str, file: &File) -> u8
    ensures { 0 < result → IsFaultStatus result }
{
    match file.try_lock() {
        Ok(()) => 0,
        Err(TryLockError::WouldBlock) => say_failed(rt, path, &"in use"),
        Err(TryLockError::Error(e)) => say_error(rt, path, &e),
    }
}

// Whether this stream leads to the log's file.
fn is_stream(to: Target<'_>, stream: &str) -> bool {
    matches!(to.identity.has_moved(to.rt, stream), Ok(false))
}

// Makes sure that nothing else is written into the log, that its lines don't come from it, and that its name survives a crash, or writes
// why not. Returns the status. What comes between two records damages the next one: so a message that standard error is the log isn't
// written either.
fn prepare(to: Target<'_>, file: &File) -> u8
    ensures { 0 < result → IsFaultStatus result }
{
    if is_stream(to, "/dev/stderr") {
        return 3;
    }
    if is_stream(to, "/dev/stdout") {
        return say_failed(to.rt, to.path, &"standard output goes into it");
    }
    if is_stream(to, "/dev/stdin") {
        return say_failed(
            to.rt,
            to.path,
            &"it is standard input too: lines come from another file",
        );
    }
    match lock(to.rt, to.path, file) {
        // also for a file that has bytes: the name of a copy, or of what `repair` wrote, may not be on the disk yet
        0 => sync_folder(to.rt, to.path),
        failed => failed,
    }
}

/// Appends each line of standard input to a log that nobody else appends to, and prints its number once it is synced and the log's name
/// still leads to it. Returns the status.
pub fn append(rt: &HostRuntime, path: &str) -> io::Result<u8>
    ensures { IfOk result (λ status. 1 < status → IsFaultStatus status) }
{
    let file = match open_file(rt, path, true) {
        Ok(file) => file,
        Err(status) => return Ok(status),
    };
    let identity = match Identity::of(&file) {
        Ok(identity) => identity,
        Err(e) => return Ok(say_error(rt, path, &e)),
    };
    let to = Target { rt, path, identity };
    match prepare(to, &file) {
        0 => {}
        failed => return Ok(failed),
    }
    match open_log(rt, path, Stored::new(file)) {
        Ok(journal) => append_input(to, journal),
        Err(status) => Ok(status),
    }
}
