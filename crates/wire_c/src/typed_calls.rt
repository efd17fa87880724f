//! Tests of what the exports call: streams in chunks and lines, by calls that each stand alone. Bytes are by hand.
use crate::reading::{ReadLines, read};
use crate::terms::{Told, WireTerms};
use crate::types::WireFailure;
use crate::writing::write;
use std::alloc::Global;
use std::process::Abort;

const DECLARATIONS: &[u8] =
    b"#[derive(Serialize, Deserialize)] pub struct Reading { pub level: i16, pub light: Light }
#[derive(Serialize, Deserialize)] pub enum Light { Dark, Lit(u8) }
";
// What `{"level":-21,"light":"Dark"}` looks as, and its frame.
const LINE: &[u8] = b"{\"level\":-21,\"light\":\"Dark\"}\n";

const FRAME: &[u8] = &[2, 0x29, 1, 0];

// Ends a test that found something wrong.
fn check(rt: &impl Abort, is_right: bool) {
    assert!(rt; is_right);
}

// Whether these bytes are those.
fn are_equal(found: &[u8], wanted: &[u8]) -> bool {
    *found == *wanted
}

// Whether a stream is read as these lines, with so many bytes that are done with.
fn is_read_as(
    alloc: Global,
    terms: WireTerms,
    stream: &[u8],
    lines: &[u8],
    done: usize,
    inside: bool,
) -> bool {
    let told = Told {
        alloc,
        declarations: DECLARATIONS,
        type_words: b"Reading",
        terms,
    };
    match read(told, stream) {
        Ok(
            ReadLines {
                text,
                used,
                is_inside,
            },
        ) => are_equal(&text, lines) && used == done && is_inside == inside,
        Err(_) => false,
    }
}

#[test]
fn stream_in_calls(rt: HostRuntime) {
    let alloc = rt.alloc();
    let terms = WireTerms {
        sentinel: 0,
        strict: 0,
        crc32: 0,
        hex: 0,
        inside: 0,
        ends: 0,
    };
    let stream = [0, 2, 0x29, 1, 0, 9, 9, 0, 2, 0x29];
    let lines =
        b"{\"value\":{\"level\":-21,\"light\":\"Dark\"}}\n{\"damaged\":{\"from\":5,\"to\":7}}\n";
    check(&rt, is_read_as(alloc, terms, &stream, lines, 8, false));
    let inside = WireTerms { inside: 1, ..terms };
    check(&rt, is_read_as(alloc, inside, &[7, 7], b"", 2, true));
    check(&rt, is_read_as(alloc, inside, &[], b"", 0, true));
    let after = b"{\"damaged\":{\"from\":3,\"to\":4}}\n";
    check(
        &rt,
        is_read_as(alloc, inside, &[7, 7, 0, 9, 0, 2], after, 5, false),
    );
    let ends = WireTerms { ends: 1, ..terms };
    let cut = b"{\"cut\":{\"from\":0,\"to\":2}}\n";
    check(&rt, is_read_as(alloc, ends, &[2, 0x29], cut, 2, false));
}

// Whether a line is written as these bytes.
fn is_written_as(told: Told<'_>, line: &[u8], frames: &[u8]) -> bool {
    match write(told, line) {
        Ok(found) => are_equal(&found, frames),
        Err(_) => false,
    }
}

// Whether a line isn't written, for a reason that begins so.
fn is_refused(told: Told<'_>, line: &[u8], begin: &str, by_type: bool) -> bool {
    match write(told, line) {
        Err(WireFailure::Refused(why)) => !by_type && why.as_str().starts_with(begin),
        Err(WireFailure::Wrong(why)) => by_type && why.as_str().starts_with(begin),
        _ => false,
    }
}

#[test]
fn lines_in_calls(rt: HostRuntime) {
    let told = Told {
        alloc: rt.alloc(),
        declarations: DECLARATIONS,
        type_words: b"Reading",
        terms: WireTerms {
            sentinel: 0,
            strict: 0,
            crc32: 0,
            hex: 0,
            inside: 0,
            ends: 0,
        },
    };
    check(&rt, is_written_as(told, LINE, FRAME));
    check(&rt, is_refused(told, b"7\n", "line 1: ", false));
    let other = Told {
        type_words: b"Raeding",
        ..told
    };
    check(
        &rt,
        is_refused(other, LINE, "`Raeding` isn't declared", true),
    );
}
