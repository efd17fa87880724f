//! A log of lines of text from the shell.
//!
//!     records append FILE      appends each line of standard input, and prints its number once it is synced
//!     records show [FILE] [from=N] [last=K] [json]
//!                              prints each record, or those numbered N and above, or the last K of these: its number and its text
//!     records check [FILE]     prints what is damaged, which numbers are missing, and how many records there are
//!     records repair           reads a log from standard input, and writes its records to standard output as a new log
//!     records follow FILE [from=N] [json]
//!                              as show, and then what is appended to it, until it is interrupted
//!
//! If FILE is left out, the log is standard input, which is read to its end first.
//!
//! Each line is sealed with its number: a record whose seal has another number or a wrong sum is damaged.
//!
//! The status is 0 if all is sound, 1 at damage or a line that is too long, 2 for wrong arguments, 3 if a file failed or is in use, and
//! 4 out of memory.
#![tactic(auto)]

ghost use Rattle.std.specs.Prelude.{◌≡◌, IfOk, OnErr};
ghost use Rattle.records.specs.Statuses.{IsFaultStatus};

mod about;
mod appending;
mod checking;
mod entries;
mod following;
mod naming;
mod settling;
mod showing;
mod words;

use crate::about::ABOUT;
use crate::appending::append;
use crate::checking::{check, mend};
use crate::entries::{NULL, OUTPUT, hold_descriptors, named, say_error};
use crate::following::follow;
use crate::showing::show;
use crate::words::{NO_FILE, NO_OPTION, TOO_MANY, Wanted, WrongArgument, wanted_by};
use help::answer;
use std::io::{ErrorKind, IsTerminal};
use std::process::ExitCode;
use std::{env, io};

const USAGE: &str =
    "usage: records append FILE, show [FILE] [from=N] [last=K] [json], check [FILE], repair, or follow FILE [from=N] [json]";

// Says which word is wrong, and how the program is called.
fn say_wrong(rt: &HostRuntime, wrong: WrongArgument<'_>) -> io::Result<u8>
    ensures { IfOk result (λ status. status ≡ 2) }
{
    let name = named(wrong.word);
    let why = wrong.why;
    eprintln!(rt; "records: {name}: {why}")?;
    eprintln!(rt; "{USAGE}")?;
    Ok(2)
}

fn wrong(rt: &HostRuntime, word: &str, why: &'static str) -> io::Result<u8>
    ensures { IfOk result (λ status. status ≡ 2) }
{
    say_wrong(rt, WrongArgument { word, why })
}

// Shows a log by the arguments of `show`.
fn show_by(rt: &HostRuntime, words: &[&str]) -> io::Result<u8> {
    match wanted_by(words) {
        Ok(wanted) => show(rt, for_stdout(rt, wanted)),
        Err(w) => say_wrong(rt, w),
    }
}

// Follows a log by the arguments of `follow`.
fn follow_by(rt: &HostRuntime, words: &[&str]) -> io::Result<u8> {
    let wanted = match wanted_by(words) {
        Ok(wanted) => wanted,
        Err(w) => return say_wrong(rt, w),
    };
    if wanted.last.is_some() {
        return wrong(rt, "follow", "takes no last=K");
    }
    match wanted.path {
        Some(path) => follow(rt, path, for_stdout(rt, wanted)),
        None => wrong(rt, "follow", "FILE is missing"),
    }
}

// The same, escaped if it goes to a terminal.
fn for_stdout<'a>(rt: &HostRuntime, wanted: Wanted<'a>) -> Wanted<'a> {
    Wanted {
        escaped: rt.stdout().is_terminal(),
        ..wanted
    }
}

// Executes a command, of whose words none begins as an option.
fn run_by(rt: &HostRuntime, words: &[&str]) -> io::Result<u8> {
    match words {
        ["append", path] => append(rt, path),
        ["append"] => wrong(rt, "append", "FILE is missing"),
        ["show", words @ ..] => show_by(rt, words),
        ["follow", words @ ..] => follow_by(rt, words),
        ["check"] => check(rt, None),
        ["check", path] => check(rt, Some(path)),
        ["repair"] => mend(rt),
        ["append" | "check", _, word, ..] => wrong(rt, word, TOO_MANY),
        ["repair", word, ..] => wrong(rt, word, NO_FILE),
        [word, ..] => wrong(rt, word, "no such command"),
        [] => wrong(rt, "no command", "one is missing"),
    }
}

// Executes a command. A word that begins as an option is refused.
fn run_checked(rt: &HostRuntime, words: &[&str]) -> io::Result<u8> {
    for word in words {
        if word.starts_with("--") {
            return wrong(rt, word, NO_OPTION);
        }
    }
    run_by(rt, words)
}

// The same, for arguments that own their text.
fn run_on(rt: &HostRuntime, held: &[String]) -> io::Result<u8> {
    let mut words: Vec<&str> = Vec::new(rt.alloc());
    for word in held {
        words.push(word.as_str())?;
    }
    run_checked(rt, &words)
}

// The arguments of the program.
fn words_of(rt: &HostRuntime) -> io::Result<Vec<String>> {
    let mut words: Vec<String> = Vec::new(rt.alloc());
    for word in env::args(rt)?.skip(1) {
        words.push(word)?;
    }
    Ok(words)
}

fn run(rt: &HostRuntime) -> io::Result<u8> {
    let _held = match hold_descriptors(rt) {
        Ok(held) => held,
        Err(e) => return Ok(say_error(rt, NULL, &e)),
    };
    let words = match words_of(rt) {
        Ok(words) => words,
        Err(e) if e.kind() == ErrorKind::InvalidData => {
            eprintln!(rt; "records: an argument isn't UTF-8")?;
            return Ok(2);
        }
        Err(e) => return Ok(say_error(rt, "the arguments", &e)),
    };
    match answer(&mut rt.stdout(), ABOUT, &words) {
        Some(Ok(())) => Ok(0),
        Some(Err(e)) => Ok(say_error(rt, OUTPUT, &e)),
        None => run_on(rt, &words),
    }
}

// The status of a command; an error, which is one of printing, since every other failure was reported when it happened, is written.
fn report(rt: &HostRuntime, ran: io::Result<u8>) -> u8
    ensures told { IfOk ran (λ status. result ≡ status) }
    ensures failed { OnErr ran (IsFaultStatus result) }
{
    match ran {
        Ok(status) => status,
        Err(e) => say_error(rt, OUTPUT, &e),
    }
}

fn main(rt: HostRuntime) -> ExitCode {
    let ran = run(&rt);
    ExitCode::from(report(&rt, ran))
}
