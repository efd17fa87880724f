//! The words that the program `framed` is called with.
use crate::checks::check_at;
use framed_lib::arguments::{Mode, arguments};
use std::alloc::{AllocError, Global};

/// The words of a line, which are separated by blanks.
fn words_of(alloc: Global, line: &str) -> Result<Vec<String>, AllocError> {
    let mut words = Vec::new(alloc);
    for word in line.split_whitespace() {
        words.push(String::from_str(alloc, word)?)?;
    }
    Ok(words)
}

/// Whether the words of a line mean this, or are refused.
fn mean(alloc: Global, line: &str, wanted: Option<(Mode, bool, u8)>) -> bool {
    match words_of(alloc, line) {
        Ok(words) => arguments(&words) == wanted,
        Err(_) => false,
    }
}

// The words of a line, and the mode, whether `hex` follows and the sentinel if they are right.
const LINES: [(&str, Option<(Mode, bool, u8)>); 30] = [
    ("pack", Some((Mode::Pack, false, 0))),
    ("pack hex", Some((Mode::Pack, true, 0))),
    ("unpack", Some((Mode::Unpack, false, 0))),
    ("unpack hex", Some((Mode::Unpack, true, 0))),
    ("strict", Some((Mode::Strict, false, 0))),
    ("strict hex", Some((Mode::Strict, true, 0))),
    ("pack sentinel=7E", Some((Mode::Pack, false, 0x7e))),
    ("pack hex sentinel=0a", Some((Mode::Pack, true, 0x0a))),
    ("unpack hex sentinel=0A", Some((Mode::Unpack, true, 0x0a))),
    ("strict sentinel=ff", Some((Mode::Strict, false, 0xff))),
    ("", None),
    ("hex", None),
    ("Strict", None),
    ("strict strict", None),
    ("pack HEX", None),
    ("hex pack", None),
    ("pack hex hex", None),
    ("packs", None),
    ("pack sentinel=0", None),
    ("pack sentinel=0g", None),
    ("pack sentinel=0A0", None),
    ("pack sentinel=", None),
    ("pack sentinel", None),
    ("pack Sentinel=0a", None),
    ("pack sentinel=0a hex", None),
    ("pack sentinel=0a sentinel=0a", None),
    ("pack hex sentinel=0a sentinel=0a", None),
    ("pack hex hex sentinel=0a", None),
    ("sentinel=0a", None),
    ("sentinel=0a pack", None),
];

#[test]
fn reads_words(rt: HostRuntime) {
    for (at, (line, wanted)) in LINES.iter().enumerate() {
        check_at(&rt, at, mean(rt.alloc(), line, *wanted));
    }
}
