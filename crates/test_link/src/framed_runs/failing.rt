//! Writers that fail, and memory that isn't found.
use crate::checks::{check_at, holds};
use crate::framed_runs::{
    FRAMED, FRAMED_HEX, PACK, PACK_HEX, ROOM, Row, STRICT_HEX, UNPACK, UNPACK_HEX, VALUES, begins,
    is_right, run_over,
};
use framed_lib::arguments::Mode;
use line_io::Fault;
use std::alloc::Global;

const UNWRITTEN: Row<'static> = Row {
    write_fault: Some(2),
    said: b"write failed\n",
    status: 3,
    ..PACK
};

const UNSAID: Row<'static> = Row {
    saying_fault: Some(0),
    status: 3,
    ..PACK
};

const UNTAKEN_ROWS: [Row<'static>; 9] = [
    Row {
        text: b"hi",
        out: b"\x00\x04",
        ..UNWRITTEN
    },
    Row {
        hex: true,
        text: b"hi",
        out: b"00",
        ..UNWRITTEN
    },
    Row {
        mode: Mode::Unpack,
        text: b"\x04\x02hi\x00",
        out: b"va",
        ..UNWRITTEN
    },
    Row {
        text: b"\xff\nhi",
        out: b"\x00\x04",
        said: b"line 1: refused\nwrite failed\n",
        ..UNWRITTEN
    },
    Row {
        text: b"\xff",
        ..UNSAID
    },
    Row {
        text: b"\xff\nb",
        ..UNSAID
    },
    Row {
        text: b"\xff\nb",
        saying_fault: Some(4),
        said: b"line",
        ..UNSAID
    },
    Row {
        mode: Mode::Unpack,
        hex: true,
        text: b"0g",
        saying_fault: Some(3),
        said: b"bad",
        ..UNSAID
    },
    Row {
        mode: Mode::Unpack,
        text: b"\x04\x02hi\x00",
        read_fault: Some(5),
        saying_fault: Some(4),
        out: b"value hi\n",
        said: b"read",
        ..UNSAID
    },
];

/// Each row, and the same where nothing is taken in place of a fault.
#[test]
fn writer_or_standard_error_fails(rt: HostRuntime) {
    for (at, row) in UNTAKEN_ROWS.iter().enumerate() {
        let taking_nothing = Row {
            fault: Fault::Nothing,
            ..*row
        };
        let fails = is_right(rt.alloc(), row);
        check_at(&rt, at, fails && is_right(rt.alloc(), &taking_nothing));
    }
}

/// Whether a run writes what the row has and nothing is said, or an allocation was refused: then it says so, and writes a
/// beginning.
fn is_right_or_lacks_memory(alloc: Global, row: &Row<'_>) -> bool {
    let mut written = [0u8; ROOM];
    let mut told = [0u8; ROOM];
    let left = run_over(alloc, row, 3, 5, 2, &mut written, &mut told);
    if left.status != 4 {
        return left.status == 0 && holds(&written, left.written, row.out) && left.said == 0;
    }
    begins(&written, left.written, row.out) && holds(&told, left.said, b"no memory\n")
}

const SHORT_RUNS: [Row<'static>; 5] = [
    Row {
        text: b"hi\n\nA",
        out: FRAMED_HEX,
        ..PACK_HEX
    },
    Row {
        text: FRAMED_HEX,
        out: VALUES,
        ..UNPACK_HEX
    },
    Row {
        text: FRAMED,
        out: VALUES,
        ..UNPACK
    },
    Row {
        sentinel: 0x0a,
        text: b"hi",
        out: b"0a0e0862630a\n",
        ..PACK_HEX
    },
    Row {
        sentinel: 0x0a,
        text: b"0a0e0862630a\n",
        out: b"value hi\n",
        ..STRICT_HEX
    },
];

/// To be run with each allocation refused in turn, as `.ci/refusals` does. The other tests of runs ask for the whole.
#[test]
fn memory_runs_out(rt: HostRuntime) {
    for (at, row) in SHORT_RUNS.iter().enumerate() {
        check_at(&rt, at, is_right_or_lacks_memory(rt.alloc(), row));
    }
}
