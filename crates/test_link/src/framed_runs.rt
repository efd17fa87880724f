//! Runs of the program `framed` over memory: what a run is given and what comes of it, as rows of tables.
mod failing;
mod long_runs;
mod short_runs;

ghost use Rattle.std.specs.Prelude.{◌<◌};

use crate::checks::holds;
use framed_lib::arguments::Mode;
use framed_lib::run::run;
use line_io::Fault;
use line_io::memory::{In, Out};
use std::alloc::Global;

/// How many bytes each device of a run has room for where the text is short.
const ROOM: usize = 1100;

/// What a run is given, and what comes of it.
#[derive(Clone, Copy, Drop)]
struct Row<'a> {
    mode: Mode,
    hex: bool,
    sentinel: u8,
    text: &'a [u8],
    /// After how many bytes the reader fails.
    read_fault: Option<usize>,
    /// After how many bytes the writer fails.
    write_fault: Option<usize>,
    /// After how many bytes standard error fails.
    saying_fault: Option<usize>,
    /// How they fail.
    fault: Fault,
    /// What is written.
    out: &'a [u8],
    /// What is said on standard error.
    said: &'a [u8],
    status: u8,
}

const PACK: Row<'static> = Row {
    mode: Mode::Pack,
    hex: false,
    sentinel: 0,
    text: b"",
    read_fault: None,
    write_fault: None,
    saying_fault: None,
    fault: Fault::Fail,
    out: b"",
    said: b"",
    status: 0,
};

const PACK_HEX: Row<'static> = Row { hex: true, ..PACK };

const UNPACK: Row<'static> = Row {
    mode: Mode::Unpack,
    ..PACK
};

const UNPACK_HEX: Row<'static> = Row {
    hex: true,
    ..UNPACK
};

const STRICT: Row<'static> = Row {
    mode: Mode::Strict,
    ..PACK
};

const STRICT_HEX: Row<'static> = Row {
    hex: true,
    ..STRICT
};

/// What a run left: its status, and how many bytes were written and said.
#[derive(Clone, Copy, Drop)]
struct Left {
    status: u8,
    written: usize,
    said: usize,
}

/// The fault of this kind that a device meets after so many bytes.
fn fault_after(before: Option<usize>, kind: Fault) -> Option<(usize, Fault)> {
    match before {
        Some(before) => Some((before, kind)),
        None => None,
    }
}

/// Runs over memory, so many bytes a call.
fn run_over(
    alloc: Global,
    row: &Row<'_>,
    reads: usize,
    writes: usize,
    says: usize,
    written: &mut [u8],
    told: &mut [u8],
) -> Left
    requires reads { 0 < reads }
    requires writes { 0 < writes }
    requires says { 0 < says }
{
    let ran = run(
        alloc,
        row.mode,
        row.hex,
        row.sentinel,
        In::new(row.text, reads, row.read_fault),
        Out::new(written, writes, fault_after(row.write_fault, row.fault)),
        Out::new(told, says, fault_after(row.saying_fault, row.fault)),
    );
    Left {
        status: ran.status,
        written: ran.writer.moved(),
        said: ran.faults.moved(),
    }
}

/// Whether so many bytes of a room are the first of these.
fn begins(room: &[u8], count: usize, all: &[u8]) -> bool {
    match all.get(..count) {
        Some(wanted) => holds(room, count, wanted),
        None => false,
    }
}

/// Whether a run writes and says what the row has, and ends with its status.
fn is_right(alloc: Global, row: &Row<'_>) -> bool {
    let mut written = [0u8; ROOM];
    let mut told = [0u8; ROOM];
    let left = run_over(alloc, row, 3, 5, 2, &mut written, &mut told);
    left.status == row.status
        && holds(&written, left.written, row.out)
        && holds(&told, left.said, row.said)
}

const FRAMED: &[u8] = b"\x00\x04\x02hi\x00\x01\x01\x00\x03\x01A\x00";

const FRAMED_HEX: &[u8] = b"00040268690001010003014100\n";

const VALUES: &[u8] = b"value hi\nvalue \nvalue A\n";

const BAD_HEX: Row<'static> = Row {
    said: b"bad hex\n",
    status: 2,
    ..UNPACK_HEX
};

const UNREAD: Row<'static> = Row {
    said: b"read failed\n",
    status: 3,
    ..PACK
};

/// A stretch that is longer than any frame may be.
const STRETCH: [u8; 1025] = [1; 1025];
