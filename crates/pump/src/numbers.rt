//! The number of the next call, in a file: in decimal, on one line.
//!
//! The file is locked while it is read and written, so that two consoles at once get two numbers. The next number is on the disk before
//! this one is used: a console that is killed anywhere skips at most one number.
use std::fs::{File, OpenOptions};
use std::io;
use std::os::unix::fs::FileExt;
use thiserror::Error;

// A number is written with all the digits that a u64 can have, so that each overwrites the one before.
const WRITTEN: usize = 21;

// The last number that a call can have: the greatest is none's.
const LAST: u64 = u64::MAX - 1;

/// Why no number was taken from a file.
#[derive(Debug, Drop, Error)]
pub enum NumbersError {
    /// It is missing and can't be created, or may not be read and written.
    #[error("can't be opened: {0}")]
    Open(io::Error),
    /// It can't be locked.
    #[error("can't be locked: {0}")]
    Lock(io::Error),
    /// Reading it failed.
    #[error("can't be read: {0}")]
    Read(io::Error),
    /// What is in it is no number. Nothing was written.
    #[error("holds no number")]
    NoNumber,
    /// It holds the greatest number, which no call has.
    #[error("no number is left")]
    Full,
    /// The device has executed the last number that a call can have. Nothing was written: started anew, it accepts lower ones.
    #[error("left as it is: no call has a number above that, until the device is started anew")]
    NoneAbove,
    /// The next number can't be written: no call is sent with this one.
    #[error("can't be written: {0}")]
    Write(io::Error),
}

// Opens the file, creates it if it is missing, and waits until no other console holds its lock.
fn open(rt: &HostRuntime, path: &str) -> Result<File, NumbersError> {
    let mut options = OpenOptions::new();
    options.read(true).write(true).create(true);
    let file = match options.open(rt, path) {
        Ok(file) => file,
        Err(error) => return Err(NumbersError::Open(error)),
    };
    match file.lock() {
        Ok(()) => Ok(file),
        Err(error) => Err(NumbersError::Lock(error)),
    }
}

// The number that the file holds; 1 if it is empty.
fn held(file: &File) -> Result<u64, NumbersError> {
    let mut room = [0u8; 64];
    let n = match file.read_at(&mut room, 0) {
        Ok(n) => n,
        Err(error) => return Err(NumbersError::Read(error)),
    };
    if n == 0 {
        return Ok(1);
    }
    // there may be more, so it isn't known which number that is
    if n >= room.len() {
        return Err(NumbersError::NoNumber);
    }
    match std::str::from_utf8(&room[..n]) {
        Ok(text) => text.trim_end().parse().ok().ok_or(NumbersError::NoNumber),
        Err(_) => Err(NumbersError::NoNumber),
    }
}

// Replaces the number that the file holds, on the disk.
fn put(rt: &HostRuntime, file: &File, number: u64) -> io::Result<()> {
    let line = format!(in rt.alloc(); "{number:020}\n")?;
    file.write_all_at(line.as_bytes(), 0)?;
    file.set_len(WRITTEN as u64)?;
    file.sync_all()
}

/// Takes the number of the next call, which no later one gets from this file.
///
/// # Errors
/// Why no number was taken; the file holds what it held, unless writing it failed.
pub fn take_number(rt: &HostRuntime, path: &str) -> Result<u64, NumbersError> {
    let file = open(rt, path)?;
    let number = held(&file)?;
    let Some(next) = number.checked_add(1) else {
        return Err(NumbersError::Full);
    };
    match put(rt, &file, next) {
        Ok(()) => Ok(number),
        Err(error) => Err(NumbersError::Write(error)),
    }
}

/// Skips the numbers up to this one, unless the file is past it already: the next call has a higher one.
///
/// # Errors
/// `NoneAbove`: no call can have a higher number; the file stays as it is. Otherwise as `take_number`.
pub fn skip_past(rt: &HostRuntime, path: &str, last: u64) -> Result<(), NumbersError> {
    if last >= LAST {
        return Err(NumbersError::NoneAbove);
    }
    let next = last + 1;
    let file = open(rt, path)?;
    if held(&file)? >= next {
        return Ok(());
    }
    match put(rt, &file, next) {
        Ok(()) => Ok(()),
        Err(error) => Err(NumbersError::Write(error)),
    }
}
