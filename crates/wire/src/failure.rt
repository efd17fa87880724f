//! Why the program stops early.
use std::alloc::{AllocError, AllocFailed};
use std::io::{self, ErrorKind};

/// Why the program stops before its work is done.
#[derive(Drop)]
pub enum Failure {
    /// The arguments are wrong, or what they name; lines that say why.
    Wrong(String),
    /// The same, reported without the program's name: the usage, or lines about declarations, which begin with a file.
    Plain(String),
    /// A file can't be read; a line with its name.
    NoFile(String),
    /// A device failed: which, and in what operation.
    Fault(&'static str),
    /// Out of memory.
    NoMemory,
}

/// Standard input failed.
pub const READ_FAULT: Failure = Failure::Fault("standard input: read failed");

/// Standard output failed.
pub const WRITE_FAULT: Failure = Failure::Fault("standard output: write failed");

/// The clock failed.
pub const CLOCK_FAULT: Failure = Failure::Fault("the clock: read failed");

impl From<AllocError> for Failure {
    fn from(_: AllocError) -> Failure {
        Failure::NoMemory
    }
}

impl<T: Drop> From<AllocFailed<T>> for Failure {
    fn from(_: AllocFailed<T>) -> Failure {
        Failure::NoMemory
    }
}

/// Returns why standard input couldn't be read.
pub fn of_read(e: io::Error) -> Failure {
    if e.kind() == ErrorKind::OutOfMemory {
        return Failure::NoMemory;
    }
    READ_FAULT
}

/// Returns these texts as one.
pub fn joined(rt: &HostRuntime, pieces: &[&str]) -> Result<String, AllocError> {
    let mut text = String::new(rt.alloc());
    for piece in pieces {
        text.push_str(piece)?;
    }
    Ok(text)
}

/// Returns the failure with this text, for wrong arguments.
pub fn wrong(rt: &HostRuntime, pieces: &[&str]) -> Failure {
    match joined(rt, pieces) {
        Ok(text) => Failure::Wrong(text),
        Err(_) => Failure::NoMemory,
    }
}

/// Returns the failure for a file that can't be read, with the reason.
pub fn no_file(rt: &HostRuntime, file: &str, why: &str) -> Failure {
    match joined(rt, &["`", file, "` ", why, "\n"]) {
        Ok(text) => Failure::NoFile(text),
        Err(_) => Failure::NoMemory,
    }
}
