//! One call to the device: its command is sent on standard output, the reply is received on standard input and printed on standard
//! error. If reading ends without a reply it is sent again, with the same number, as often as the user allows.
use crate::arguments::{Arguments, Numbers};
use crate::asking::{CallOutcome, ask};
use crate::numbers::{NumbersError, skip_past, take_number};
use std::fs::{File, OpenOptions};
use std::io;

fn open_null(rt: &HostRuntime) -> io::Result<File> {
    OpenOptions::new()
        .read(true)
        .write(true)
        .open(rt, "/dev/null")
}

// Opens the null device in place of closed standard streams, so that no file that is opened later gets their descriptors.
fn hold_streams(rt: &HostRuntime) -> io::Result<[File; 3]> {
    Ok([open_null(rt)?, open_null(rt)?, open_null(rt)?])
}

// Skips the numbers of the file up to the last that the device executed, or writes why that failed.
fn skip(rt: &HostRuntime, path: &str, last: u64) -> io::Result<u8> {
    match skip_past(rt, path, last) {
        Ok(()) => Ok(1),
        Err(error) => {
            eprintln!(rt; "pump: {path}: {error}")?;
            Ok(if matches!(error, NumbersError::NoneAbove) {
                1
            } else {
                3
            })
        }
    }
}

// Writes that the device passed the call over. An earlier copy of it may have been executed, for example if the line doubles what it
// delivers. The file, if there is one, continues above the last number that the device executed.
fn say_passed(rt: &HostRuntime, numbers: Numbers<'_>, number: u64, last: u64) -> io::Result<u8> {
    if last == number {
        eprintln!(rt; "the device heard another call {number} last: this one is not done now")?;
    } else {
        eprintln!(rt; "the device heard call {last} last: call {number} is not done now")?;
    }
    match numbers {
        Numbers::In(path) => skip(rt, path, last),
        Numbers::Number(_) => Ok(1),
    }
}

// Writes that no reply came, and what failed, if something did.
fn say_unheard(rt: &HostRuntime, number: u64, unsent: bool, unread: bool) -> io::Result<u8> {
    if unsent {
        eprintln!(rt; "pump: standard output: write failed")?;
    }
    if unread {
        eprintln!(rt; "pump: standard input: read failed")?;
    }
    eprintln!(rt; "no reply to call {number}: it was done once at most")?;
    Ok(if unsent || unread { 3 } else { 1 })
}

// Calls with this number, and writes the result. Returns the status.
fn call(rt: &HostRuntime, arguments: Arguments<'_>, number: u64) -> io::Result<u8> {
    match ask(rt, number, arguments.again, arguments.command) {
        Ok(CallOutcome::Replied(report)) => {
            eprintln!(rt; "{report}")?;
            Ok(0)
        }
        Ok(CallOutcome::Passed { last }) => say_passed(rt, arguments.numbers, number, last),
        Ok(CallOutcome::Unheard { unsent, unread }) => say_unheard(rt, number, unsent, unread),
        Err(error) => {
            eprintln!(rt; "pump: {error}")?;
            Ok(2)
        }
    }
}

// Calls with the number that the arguments name. Returns the status.
fn call_numbered(rt: &HostRuntime, arguments: Arguments<'_>) -> io::Result<u8> {
    match arguments.numbers {
        Numbers::Number(number) => call(rt, arguments, number),
        Numbers::In(path) => match take_number(rt, path) {
            Ok(number) => call(rt, arguments, number),
            Err(error) => {
                eprintln!(rt; "pump: {path}: {error}")?;
                Ok(3)
            }
        },
    }
}

/// Makes the call of these arguments. Returns the status.
pub fn call_by(rt: &HostRuntime, arguments: Arguments<'_>) -> io::Result<u8> {
    let Ok(_streams) = hold_streams(rt) else {
        eprintln!(rt; "pump: /dev/null can't be opened")?;
        return Ok(3);
    };
    call_numbered(rt, arguments)
}
