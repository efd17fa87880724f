//! Reads declarations of Rust or Rattle on standard input, and writes the implementations of those that are marked, for a
//! child module: `postcard_derive CRATE MODULE < src/MODULE.rt > src/MODULE/wire.rt`, and `rt fmt` lays them out.
//!
//! A declaration is marked by a comment `// message` in a line before it, or by `Serialize` and `Deserialize` among its derives.
//! What is written is proved with the crate that it is in. One thing depends on this program: that fields of one type are in
//! the order of the declaration, which the ghost line says.
#![tactic(auto)]

mod printer;
mod refusals;
mod scope;
mod text;

use crate::scope::Origins;
use crate::text::Text;
use declaration_parser::faults::Faults;
use declaration_parser::parser::Purpose;
use declaration_parser::reading::declarations;
use declaration_parser::texts::{first_letter, is_listed, is_of_word};
use declaration_parser::tokens::Tokens;
use help::{About, answer};
use std::alloc::{AllocError, Global};
use std::env;
use std::io::{self, ErrorKind};
use std::process::ExitCode;
use unicode_ident::is_xid_start;

/// How the program is called.
const USAGE: &str = "usage: postcard_derive CRATE [MODULE].. [--schemas]";

/// What it returns to `--help` and `--version`.
const ABOUT: About = About {
    name: "postcard_derive",
    text: "writes how message types are sent and read

Reads declarations of Rust or Rattle on standard input, and writes the implementations for those that
are marked by a line `// message` or a derive; `rt fmt` lays them out. CRATE and MODULE say where the
declarations stand; with --schemas the types have schemas too. Status: 0 where they are written, 1
where a declaration can't be, 2 at wrong words, 3 if a device failed, 4 out of memory.
",
    usage: USAGE,
};

/// Words that name no crate and no module, since Rattle has no raw names.
const KEYWORDS: &str =
    "_ abstract as async await become box break const continue crate do dyn else enum extern false \
    final fn for gen if impl in let loop macro match mod move mut override priv pub ref return self Self static struct \
    super trait true try type typeof unsafe unsized use virtual where while yield";

/// Whether a word begins with a letter or `_`, and has letters, digits and `_` after it.
fn is_identifier(word: &str) -> bool {
    let first = first_letter(word).unwrap_or(' ');
    (first == '_' || is_xid_start(first)) && word.trim_start_matches(is_of_word).is_empty()
}

/// Why a word can't name a crate or a module, if it can't.
fn why_no_name(word: &str) -> Option<&'static str> {
    if word.starts_with("--") {
        return Some("is no option here: write `--schemas` once, as the last word");
    }
    if !is_identifier(word) {
        return Some(
            "names no crate or module: write a letter or `_`, then letters, digits and `_`",
        );
    }
    is_listed(word, KEYWORDS).then_some("names no crate or module: it is a word of the language")
}

/// Writes which of the words is wrong, if one is, and how the program is called; the status.
fn say_wrong(rt: &HostRuntime, names: &[String]) -> io::Result<u8> {
    if names.is_empty() {
        eprintln!(rt; "postcard_derive: CRATE is missing")?;
    }
    for name in names {
        if let Some(why) = why_no_name(name.as_str()) {
            eprintln!(rt; "postcard_derive: `{name}` {why}")?;
            break;
        }
    }
    eprintln!(rt; "{USAGE}")?;
    Ok(2)
}

/// The path of the definitions of a module: of the crate and the modules in it that these name; empty if one is no name.
fn path_of(alloc: Global, names: &[String]) -> Result<String, AllocError> {
    let mut path = Faults::new(alloc);
    for (place, name) in names.iter().enumerate() {
        if why_no_name(name.as_str()).is_some() {
            return Ok(String::new(alloc));
        }
        path.put_all(&[".", name, if place > 0 { "" } else { ".specs.declared" }]);
    }
    path.finished()
}

/// Writes the implementations of standard input, or what is wrong to standard error; the status. An error is of the `device`.
fn run(
    rt: &HostRuntime,
    device: &mut &'static str,
    path: &str,
    with_schemas: bool,
) -> io::Result<u8> {
    let alloc = rt.alloc();
    *device = "standard input";
    let text = io::read_to_string(alloc, rt.reader())?;
    let tokens = Tokens::new(alloc)?.with_file(alloc, "", text.as_str())?;
    let declared = declarations(alloc, Purpose::Implementations, &tokens)?;
    let origins = Origins::of(alloc, &tokens)?;
    let mut implementations = Text::new(alloc, &origins, path);
    for it in &declared.all {
        implementations.put_declaration(it, with_schemas);
    }
    let refused = implementations.refused(alloc, &declared)?;
    if !refused.is_empty() {
        let said = eprint!(rt; "{refused}");
        return Ok(if said.is_ok() { 1 } else { 3 });
    }
    let text = implementations.finished(alloc)?;
    *device = "standard output";
    print!(rt; "{text}")?;
    Ok(0)
}

/// Does what the arguments say; the status.
fn run_by(rt: &HostRuntime, device: &mut &'static str) -> io::Result<u8> {
    let mut words = Vec::new(rt.alloc());
    for word in env::args(rt)?.skip(1) {
        words.push(word)?;
    }
    *device = "standard output";
    if let Some(said) = answer(&mut rt.stdout(), ABOUT, &words) {
        return said.map(|()| 0);
    }
    let (names, with_schemas) = match words.as_slice() {
        [names @ .., last] if last.as_str() == "--schemas" => (names, true),
        names => (names, false),
    };
    let path = path_of(rt.alloc(), names)?;
    if path.is_empty() {
        // if that can't be written, nothing else can
        return Ok(say_wrong(rt, names).unwrap_or(3));
    }
    run(rt, device, path.as_str(), with_schemas)
}

fn main(rt: HostRuntime) -> ExitCode {
    let mut device = "arguments";
    let status = match run_by(&rt, &mut device) {
        Ok(status) => status,
        // if what is said fails too, the status is the same
        Err(e) if e.kind() == ErrorKind::OutOfMemory => {
            let _ = eprintln!(rt; "postcard_derive: no memory");
            4
        }
        Err(e) if e.kind() == ErrorKind::InvalidData && device == "arguments" => {
            let _ = eprintln!(rt; "postcard_derive: an argument isn't UTF-8");
            2
        }
        Err(e) => {
            let _ = eprintln!(rt; "postcard_derive: {device}: {e}");
            3
        }
    };
    ExitCode::from(status)
}
