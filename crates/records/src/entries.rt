//! What a record is, how logs are opened, and messages about files.
ghost use Rattle.std.specs.Prelude.{◌≡◌, ◌<◌, IfErr};
ghost use Rattle.records.specs.Statuses.{IsFaultStatus, scan_status};

use journal::stores::MemoryStore;
use journal_scan::ScanError;
use line_io::{End, Reads, read_to_end};
use sealed::Sealed;
use std::fmt::Display;
use std::fs::{self, File, OpenOptions};
use std::io::{self, ErrorKind};

/// The greatest length of a record, with its zero.
pub const MOST: usize = 1024;

/// A record's number and its line, with the CRC-32 of both.
pub type Entry = Sealed<(u64, String)>;

/// Opens the file of a log to be read, or to be read and appended to: then a missing file is created.
///
/// # Errors
/// The program's status, if that fails; the message is written.
pub fn open_file(rt: &HostRuntime, path: &str, write: bool) -> Result<File, u8>
    ensures { IfErr result (λ status. IsFaultStatus status) }
{
    let mut options = OpenOptions::new();
    options.read(true);
    if write {
        options.append(true).create(true);
    }
    match options.open(rt, path) {
        Ok(file) => Ok(file),
        Err(e) => Err(say_error(rt, path, &e)),
    }
}

// Opens the folder of a file: for a link, the folder of the file that it leads to.
fn open_folder(rt: &HostRuntime, path: &str) -> io::Result<File> {
    let mut options = OpenOptions::new();
    options.read(true);
    let whole = fs::canonicalize(rt, path)?;
    match whole.parent() {
        Some(folder) => options.open(rt, folder),
        None => Err(io::Error::from(ErrorKind::NotFound)),
    }
}

/// Syncs the folder of a file, so that the file survives a crash, or writes why that failed. Returns the status.
pub fn sync_folder(rt: &HostRuntime, path: &str) -> u8
    ensures { 0 < result → IsFaultStatus result }
{
    match open_folder(rt, path) {
        Ok(opened) => match opened.sync_all() {
            Ok(()) => 0,
            Err(e) => say_unsynced(rt, path, &e),
        },
        Err(e) => say_unsynced(rt, path, &e),
    }
}

// Writes why the folder of a file isn't synced, and returns the status.
fn say_unsynced(rt: &HostRuntime, path: &str, e: &io::Error) -> u8
    ensures { IsFaultStatus result }
{
    if e.kind() == ErrorKind::OutOfMemory {
        return say_no_memory(rt, path);
    }
    // if this fails too, the status is the same
    let _ = eprintln!(rt; "records: {path}: its folder isn't synced: {e}");
    3
}

/// The null device.
pub const NULL: &str = "/dev/null";

fn open_null(rt: &HostRuntime) -> io::Result<File> {
    let mut options = OpenOptions::new();
    options.read(true);
    options.write(true);
    options.open(rt, NULL)
}

/// Keeps the descriptors 0 to 2 open as long as the result lives: one that was closed is the null device then. Otherwise a log that is
/// opened next would get its number, and output would be written into the log.
pub fn hold_descriptors(rt: &HostRuntime) -> io::Result<[File; 3]> {
    Ok([open_null(rt)?, open_null(rt)?, open_null(rt)?])
}

/// What standard input is called in messages.
pub const INPUT: &str = "standard input";

/// What standard output is called in messages.
pub const OUTPUT: &str = "standard output";

/// What a word or a file's name is called in messages: an empty one by its quotes.
pub fn named(word: &str) -> &str {
    if word.is_empty() { "''" } else { word }
}

/// Writes what failed about a file to standard error, and returns the status 3.
pub fn say_failed<W: Display>(rt: &HostRuntime, file: &str, what: &W) -> u8
    ensures { result ≡ 3 }
{
    let name = named(file);
    // if this fails too, the status is the same
    let _ = eprintln!(rt; "records: {name}: {what}");
    3
}

/// Writes what is wrong with the line of standard input that has this number.
pub fn say_line(rt: &HostRuntime, line: u64, what: &str) {
    // if this fails, the status is the same
    let _ = eprintln!(rt; "records: {INPUT}: line {line} {what}");
}

/// Writes that an allocation failed, and returns the status 4.
pub fn say_no_memory(rt: &HostRuntime, file: &str) -> u8
    ensures { result ≡ 4 }
{
    say_failed(rt, file, &"out of memory");
    4
}

/// Writes why reading or writing a file failed, and returns the status.
pub fn say_error(rt: &HostRuntime, file: &str, e: &io::Error) -> u8
    ensures { IsFaultStatus result }
{
    if e.kind() == ErrorKind::OutOfMemory {
        return say_no_memory(rt, file);
    }
    say_failed(rt, file, e)
}

/// Reads a log from standard input, and keeps all of it in memory.
///
/// # Errors
/// The program's status, if reading or an allocation fails; the message is written.
pub fn read_input(rt: &HostRuntime) -> Result<MemoryStore, u8>
    ensures { IfErr result (λ status. IsFaultStatus status) }
{
    let mut bytes = Vec::new(rt.alloc());
    match read_to_end(&mut Reads::new(rt.stdin()), &mut bytes) {
        End::Ended => Ok(MemoryStore::new(bytes)),
        End::ReadFault => Err(say_failed(rt, INPUT, &"read failed")),
        End::NoMemory => Err(say_no_memory(rt, INPUT)),
    }
}

/// Writes why a scan stopped before the end of the log, and returns the status.
pub fn status_of(rt: &HostRuntime, log: &str, e: ScanError) -> u8
    ensures { result ≡ scan_status e }
{
    match e {
        ScanError::Fault => say_failed(rt, log, &"read failed"),
        ScanError::NoMemory => say_no_memory(rt, log),
    }
}
