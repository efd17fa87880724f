//! The program: its arguments and its modes.
use crate::about::{CONSOLE, DEVICE, PUMP};
use crate::arguments::{Misuse, arguments_of};
use crate::console::call_by;
use crate::serving::serve;
use help::{About, answer};
use std::io::ErrorKind;
use std::{env, io};

// Writes how it is called. Returns the status.
fn say_usage(rt: &HostRuntime, about: About) -> io::Result<u8> {
    eprintln!(rt; "{}", about.usage)?;
    Ok(2)
}

// Writes help or the version, if the arguments ask for it. Returns the status then.
fn answered(rt: &HostRuntime, about: About, words: &[String]) -> io::Result<Option<u8>> {
    match answer(&mut rt.stdout(), about, words) {
        Some(Err(_)) => {
            eprintln!(rt; "pump: standard output: write failed")?;
            Ok(Some(3))
        }
        Some(Ok(())) => Ok(Some(0)),
        None => Ok(None),
    }
}

// Writes which argument is wrong, and how it is called. Returns the status.
fn say_wrong(rt: &HostRuntime, about: About, wrong: Misuse<'_>) -> io::Result<u8> {
    let Misuse { word, why } = wrong;
    eprintln!(rt; "pump: `{word}` {why}")?;
    say_usage(rt, about)
}

// Serves, if no arguments follow `device`.
fn serve_by(rt: &HostRuntime, words: &[String]) -> io::Result<u8> {
    let [word, ..] = words else {
        return serve(rt);
    };
    if let Some(status) = answered(rt, DEVICE, words)? {
        return Ok(status);
    }
    let wrong = Misuse {
        word: word.as_str(),
        why: "is one word too many: `device` takes none",
    };
    say_wrong(rt, DEVICE, wrong)
}

// Calls by the arguments of `console`.
fn console_by(rt: &HostRuntime, words: &[String]) -> io::Result<u8> {
    if let Some(status) = answered(rt, CONSOLE, words)? {
        return Ok(status);
    }
    match arguments_of(words) {
        Ok(arguments) => call_by(rt, arguments),
        Err(wrong) => say_wrong(rt, CONSOLE, wrong),
    }
}

// Runs the mode that the arguments name.
fn run_by(rt: &HostRuntime, words: &[String]) -> io::Result<u8> {
    if let [mode, rest @ ..] = words {
        match mode.as_str() {
            "device" => return serve_by(rt, rest),
            "console" => return console_by(rt, rest),
            _ => {}
        }
    }
    if let Some(status) = answered(rt, PUMP, words)? {
        return Ok(status);
    }
    match words {
        [word, ..] => say_wrong(
            rt,
            PUMP,
            Misuse {
                word: word.as_str(),
                why: "isn't a mode: `device` or `console`",
            },
        ),
        [] => say_usage(rt, PUMP),
    }
}

// The arguments of the program.
fn words_of(rt: &HostRuntime) -> io::Result<Vec<String>> {
    let mut words: Vec<String> = Vec::new(rt.alloc());
    for word in env::args(rt)?.skip(1) {
        words.push(word)?;
    }
    Ok(words)
}

fn run_or_say(rt: &HostRuntime) -> io::Result<u8> {
    match words_of(rt) {
        Ok(words) => run_by(rt, &words),
        Err(error) if error.kind() == ErrorKind::InvalidData => {
            eprintln!(rt; "pump: an argument isn't UTF-8")?;
            say_usage(rt, PUMP)
        }
        Err(error) => {
            eprintln!(rt; "pump: the arguments can't be read: {error}")?;
            Ok(3)
        }
    }
}

/// Runs what the arguments name: `device`, or `console` and a call. Returns the program's status, which is 3 if what failed can't be
/// written.
pub fn run(rt: &HostRuntime) -> u8 {
    run_or_say(rt).unwrap_or(3)
}
