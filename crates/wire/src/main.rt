//! Messages of any device as lines of JSON, by the Rust declarations of their types: `wire read FILES TYPE` prints a line for each
//! frame, `wire write FILES TYPE` a frame for each line, `wire watch FILES TYPE` shows a live view, and `wire check FILES` lists the
//! types. FILES is a file, several separated by commas, or a folder.
//!
//! `wire_lib` does the work.
#![tactic(auto)]

ghost use Rattle.std.specs.Prelude.{◌≡◌, ◌≤◌, ◌+◌, ◌↔◌, min, true, false, Some, Ok, codes, IfOk, OnErr, if◌then◌else◌};

mod about;
mod devices;
mod failure;
mod reading;
mod sources;
mod types;
mod watching;
mod writing;

use crate::about::ABOUT;
use crate::devices::say;
use crate::failure::{Failure, WRITE_FAULT, wrong};
use crate::reading::read;
use crate::types::{checked_of, no_variant, say_type, schema_of, type_of};
use crate::watching::watch;
use crate::writing::write;
use declarations::{CheckedSources, Schema};
use help::answer;
use std::alloc::{AllocError, Global};
use std::env;
use std::io::ErrorKind;
use std::process::ExitCode;
use wire_lib::receive::Reading;
use wire_lib::send::Sending;
use wire_lib::shown::has_variant;
use wire_lib::sizes::{bound_lists, greatest_sizes};
use wire_lib::summed::add_summed;
use wire_lib::table_json::table_json;
use wire_lib::words::{Action, Options, options_of};

type Ran = Result<bool, Failure>;

const USAGE: &str =
    "usage: wire read FILES TYPE [hex] [strict] [sentinel=HH] [from=OFFSET] [bytes=hex] [depth=N] [empty=N] [raw] [crc32] [only=VARIANT] [time]
       wire write FILES TYPE [hex] [sentinel=HH] [depth=N] [empty=N] [raw] [crc32]
       wire watch FILES TYPE [strict] [sentinel=HH] [bytes=hex] [depth=N] [empty=N]
       wire check FILES [json]
";

/// Lists the types of files, and reports why some can't be read.
fn list_types(rt: &HostRuntime, files: &str) -> Ran {
    let CheckedSources {
        schema,
        readable,
        wrong,
    } = checked_of(rt, files)?;
    let sizes = greatest_sizes(rt.alloc(), &schema.nodes)?;
    for (place, it) in schema.types.iter().enumerate() {
        let is_readable = readable.get(place).copied().unwrap_or(false);
        let size = sizes.get(place).copied().unwrap_or(None);
        say_type(rt, it.name.as_str(), is_readable, size)?;
    }
    if wrong.is_empty() {
        return Ok(true);
    }
    Err(Failure::Plain(wrong))
}

/// Does `check`: lists the types of files, or prints them as JSON.
fn check(rt: &HostRuntime, files: &str, words: &[String]) -> Ran {
    for word in words {
        if word.as_str() != "json" {
            return Err(wrong_word(rt, word.as_str(), "isn't an argument of `check`"));
        }
    }
    if words.is_empty() {
        return list_types(rt, files);
    }
    let mut line = table_json(rt.alloc(), &schema_of(rt, files)?)?;
    line.push(b'\n')?;
    say(rt, &line)?;
    Ok(true)
}

/// The failure for a wrong argument, with the usage.
fn wrong_word(rt: &HostRuntime, word: &str, why: &str) -> Failure {
    wrong(rt, &["`", word, "` ", why, "\n", USAGE])
}

/// The index of the messages' type, and their limit of nested nodes: with a checksum, if one is asked for.
fn of_messages(
    alloc: Global,
    schema: &mut Schema,
    place: usize,
    options: Options<'_>,
) -> Result<(usize, u32), AllocError>
    ensures plain { options.entry.summed ≡ false
        → (result ≡ Ok (place, options.entry.depth)) × (schema.new ≡ schema.old) }
    ensures depth { options.entry.summed ≡ true
        → IfOk result (λ it. it.1 ≡ min (options.entry.depth + 1) 4294967295) }
{
    if !options.summed {
        return Ok((place, options.depth));
    }
    let summed = add_summed(alloc, schema, place)?;
    Ok((summed, options.depth.saturating_add(1)))
}

/// Reads, writes or watches messages of a type.
fn work(rt: &HostRuntime, mode: Action, files: &str, name: &str, words: &[String]) -> Ran {
    let options = match options_of(mode, words) {
        Ok(options) => options,
        Err(it) => return Err(wrong_word(rt, it.word, it.why)),
    };
    let alloc = rt.alloc();
    let (mut schema, place) = type_of(rt, files, name)?;
    bound_lists(alloc, &mut schema.nodes, options.empty)?;
    if let Some(variant) = options.only
        && !has_variant(&schema, place, variant)
    {
        return Err(no_variant(rt, &schema, place, variant));
    }
    if mode == Action::Write {
        let sending = Sending {
            alloc,
            schema: &schema,
            place,
            depth: options.depth,
            sentinel: options.sentinel,
            summed: options.summed,
        };
        return write(rt, sending, options);
    }
    let (place, depth) = of_messages(alloc, &mut schema, place, options)?;
    let reading = Reading {
        alloc,
        schema: &schema,
        place,
        hex: options.digits,
        strict: options.strict,
        depth,
        sentinel: options.sentinel,
        summed: options.summed,
    };
    if mode == Action::Watch {
        return watch(rt, reading);
    }
    read(rt, reading, options)
}

/// The mode with this name.
fn mode_of(name: &str) -> Option<Action>
    ensures read { result ≡ Some Action.Read ↔ name.now ≡ codes "read" }
    ensures write { result ≡ Some Action.Write ↔ name.now ≡ codes "write" }
    ensures watch { result ≡ Some Action.Watch ↔ name.now ≡ codes "watch" }
{
    match name {
        "read" => Some(Action::Read),
        "write" => Some(Action::Write),
        "watch" => Some(Action::Watch),
        _ => None,
    }
}

/// Does what the arguments after a mode ask for: files, a type and options.
fn of_type(rt: &HostRuntime, mode: Action, words: &[String]) -> Ran {
    match words {
        [files, name, words @ ..] => work(rt, mode, files.as_str(), name.as_str(), words),
        [_] => Err(wrong(
            rt,
            &["TYPE is missing: `check` lists those of FILES\n", USAGE],
        )),
        [] => Err(wrong(rt, &["FILES and TYPE are missing\n", USAGE])),
    }
}

/// Does what the program's arguments ask for.
fn run(rt: &HostRuntime, words: &[String]) -> Ran {
    let [first, rest @ ..] = words else {
        return Err(Failure::Plain(String::from_str(rt.alloc(), USAGE)?));
    };
    if first.as_str() == "check" {
        return match rest {
            [files, words @ ..] => check(rt, files.as_str(), words),
            _ => Err(wrong(rt, &["FILES is missing\n", USAGE])),
        };
    }
    match mode_of(first.as_str()) {
        Some(mode) => of_type(rt, mode, rest),
        None => Err(wrong_word(
            rt,
            first.as_str(),
            "isn't a mode: `read`, `write`, `watch` or `check`",
        )),
    }
}

/// The name that the program was called by, and its arguments.
#[derive(Drop)]
struct Call {
    name: String,
    words: Vec<String>,
}

/// The part of a path after its last slash.
fn last_of(path: &str) -> &str {
    match path.rsplit_once('/') {
        Some((_, last)) => last,
        None => path,
    }
}

/// The name and arguments of this call.
fn call_of(rt: &HostRuntime) -> Result<Call, Failure> {
    let alloc = rt.alloc();
    let mut args = match env::args(rt) {
        Ok(args) => args,
        Err(error) if error.kind() == ErrorKind::InvalidData => {
            return Err(wrong(rt, &["an argument isn't UTF-8\n"]));
        }
        Err(_) => return Err(Failure::NoMemory),
    };
    let name = match args.next() {
        Some(path) => String::from_str(alloc, last_of(path.as_str()))?,
        None => String::from_str(alloc, "wire")?,
    };
    let mut words = Vec::new(alloc);
    for word in args {
        words.push(word)?;
    }
    Ok(Call { name, words })
}

/// Reports why the program stopped, if it did, and returns its status.
fn report(rt: &HostRuntime, name: &str, ran: Ran) -> u8
    ensures told { IfOk ran (λ good. result ≡ (if good then 0 else 1)) }
    ensures failed { OnErr ran (2 ≤ result) }
{
    let (said, status) = match ran {
        Ok(is_good) => return if is_good { 0 } else { 1 },
        Err(Failure::Wrong(lines)) => (eprint!(rt; "{name}: {lines}"), 2),
        Err(Failure::Plain(lines)) => (eprint!(rt; "{lines}"), 2),
        Err(Failure::NoFile(line)) => (eprint!(rt; "{name}: {line}"), 3),
        Err(Failure::Fault(what)) => (eprintln!(rt; "{name}: {what}"), 3),
        Err(Failure::NoMemory) => (eprintln!(rt; "{name}: no memory"), 4),
    };
    if said.is_ok() { status } else { 3 }
}

/// If the program's name ends so, its mode is `watch` without an argument for it.
const WATCH: &str = "watch";

/// Prints help or the version, or does what the arguments ask for; returns the status.
fn status_of(rt: &HostRuntime, call: Call) -> u8 {
    let ran = match answer(&mut rt.stdout(), ABOUT, &call.words) {
        Some(said) => said.map_err(|_| WRITE_FAULT).map(|()| true),
        None if call.name.ends_with(WATCH) => of_type(rt, Action::Watch, &call.words),
        None => run(rt, &call.words),
    };
    report(rt, call.name.as_str(), ran)
}

fn main(rt: HostRuntime) -> ExitCode {
    ExitCode::from(match call_of(&rt) {
        Ok(call) => status_of(&rt, call),
        Err(failure) => report(&rt, "wire", Err(failure)),
    })
}
