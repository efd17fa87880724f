//! Runs of more than 12,000 bytes.
use crate::checks::{check_at, holds};
use crate::framed_runs::{
    BAD_HEX, PACK, PACK_HEX, ROOM, Row, STRICT, STRICT_HEX, UNPACK, UNPACK_HEX, UNREAD, begins,
    run_over,
};
use framed_lib::arguments::Mode;
use line_io::Fault;
use std::alloc::{AllocError, Global};

/// A chunk so many times, and what stands before and after it.
#[derive(Clone, Copy, Drop)]
struct Repeated {
    first: &'static [u8],
    piece: &'static [u8],
    times: usize,
    last: &'static [u8],
}

fn make(alloc: Global, bytes: &Repeated) -> Result<Vec<u8>, AllocError> {
    let mut made = Vec::from_slice(alloc, bytes.first)?;
    for _ in 0..bytes.times {
        made.extend_from_slice(bytes.piece)?;
    }
    made.extend_from_slice(bytes.last)?;
    Ok(made)
}

/// Whether a run in chunks of some thousand bytes does what the row says, but that this is to be written: all of it, or as
/// many bytes as the writer takes before it fails.
fn is_right_in(alloc: Global, row: &Row<'_>, all: &[u8]) -> bool {
    let Ok(mut room) = vec![in alloc; 0u8; all.len()] else {
        return false;
    };
    let mut told = [0u8; ROOM];
    let left = run_over(alloc, row, 4096, 5000, 4096, &mut room, &mut told);
    let count = row.write_fault.unwrap_or(all.len());
    left.status == row.status
        && left.written == count
        && begins(&room, count, all)
        && holds(&told, left.said, row.said)
}

/// What a run has but for its text, the text, and what is to be written.
type Long<'a> = (&'a Row<'a>, &'a Repeated, &'a Repeated);

/// Whether a run on a long text does what the row says, but that this is to be written.
fn is_long_right(alloc: Global, row: &Row<'_>, text: &Repeated, out: &Repeated) -> bool {
    let Ok(text) = make(alloc, text) else {
        return false;
    };
    let Ok(all) = make(alloc, out) else {
        return false;
    };
    let row = Row {
        text: &text,
        ..*row
    };
    is_right_in(alloc, &row, &all)
}

const LINES: Repeated = Repeated {
    first: b"",
    piece: b"letters\n",
    times: 1600,
    last: b"",
};

const FRAMES: Repeated = Repeated {
    first: b"\0",
    piece: b"\x09\x07letters\0",
    times: 1600,
    last: b"",
};

const DIGITS: Repeated = Repeated {
    first: b"00",
    piece: b"09076c65747465727300",
    times: 1600,
    last: b"\n",
};

const CAPITALS: Repeated = Repeated {
    piece: b"09076C65747465727300",
    last: b"",
    ..DIGITS
};

const SAID: Repeated = Repeated {
    piece: b"value letters\n",
    ..LINES
};

const NOTHING: Repeated = Repeated {
    piece: b"",
    ..LINES
};

// A line is refused after many that are sent.
const REFUSES_LATE: Row<'static> = Row {
    said: b"line 1601: refused\n",
    status: 1,
    ..PACK
};

const LATE_LINES: Repeated = Repeated {
    last: b"\xff\nletters",
    ..LINES
};

const LATE_FRAMES: Repeated = Repeated {
    last: b"\x09\x07letters\0",
    ..FRAMES
};

// Of a long stream whose reader fails, the lines of what it gave are written.
const LONG_UNREAD: Row<'static> = Row {
    mode: Mode::Unpack,
    read_fault: Some(16_001),
    ..UNREAD
};

// The digits are read some at a time: the last of many isn't one.
const NO_DIGIT: Repeated = Repeated {
    last: b"g",
    ..CAPITALS
};

const NO_FIRST_DIGIT: Repeated = Repeated {
    last: b"g0",
    ..CAPITALS
};

// So many lines that their frames are written some at a time: the first 40961 bytes, then 40960 bytes each time; and so many
// answers that their lines are.
const MANY_LINES: Repeated = Repeated {
    times: 10_000,
    ..LINES
};

const MANY_FRAMES: Repeated = Repeated {
    times: 10_000,
    ..FRAMES
};

const MANY_DIGITS: Repeated = Repeated {
    times: 10_000,
    ..DIGITS
};

const MANY_CAPITALS: Repeated = Repeated {
    times: 10_000,
    ..CAPITALS
};

const MANY_SAID: Repeated = Repeated {
    times: 10_000,
    ..SAID
};

const RUNS: [Long<'static>; 15] = [
    (&PACK, &LINES, &FRAMES),
    (&PACK_HEX, &LINES, &DIGITS),
    (&REFUSES_LATE, &LATE_LINES, &LATE_FRAMES),
    (&PACK, &MANY_LINES, &MANY_FRAMES),
    (&PACK_HEX, &MANY_LINES, &MANY_DIGITS),
    (&UNPACK, &FRAMES, &SAID),
    (&STRICT, &FRAMES, &SAID),
    (&LONG_UNREAD, &FRAMES, &SAID),
    (&UNPACK, &MANY_FRAMES, &MANY_SAID),
    (&UNPACK_HEX, &CAPITALS, &SAID),
    (&STRICT_HEX, &CAPITALS, &SAID),
    (&UNPACK_HEX, &MANY_CAPITALS, &MANY_SAID),
    (&STRICT_HEX, &MANY_CAPITALS, &MANY_SAID),
    (&BAD_HEX, &NO_DIGIT, &NOTHING),
    (&BAD_HEX, &NO_FIRST_DIGIT, &NOTHING),
];

#[test]
fn packs_and_unpacks_much(rt: HostRuntime) {
    for (at, (row, text, out)) in RUNS.iter().enumerate() {
        check_at(&rt, at, is_long_right(rt.alloc(), row, text, out));
    }
}

// Where it fails, it takes nothing.
const PACK_UNTAKEN: Row<'static> = Row {
    fault: Fault::Nothing,
    ..PACK
};

const PACKED_FRONTS: [usize; 8] = [0, 1, 40960, 40961, 40962, 81921, 81922, 100_000];

const DIGITS_FRONTS: [usize; 8] = [0, 1, 2, 81921, 81922, 81923, 163_843, 200_002];

const SAID_FRONTS: [usize; 8] = [0, 1, 2, 65534, 65535, 65536, 65537, 140_000 - 1];

// Runs, and after how many bytes the writer fails in each.
const BROKEN: [(Long<'static>, [usize; 8]); 4] = [
    ((&PACK, &MANY_LINES, &MANY_FRAMES), PACKED_FRONTS),
    ((&PACK_UNTAKEN, &MANY_LINES, &MANY_FRAMES), PACKED_FRONTS),
    ((&PACK_HEX, &MANY_LINES, &MANY_DIGITS), DIGITS_FRONTS),
    ((&UNPACK, &MANY_FRAMES, &MANY_SAID), SAID_FRONTS),
];

/// Whether a beginning is written where the writer fails after so many bytes.
fn is_front_right(alloc: Global, run: Long<'_>, before: usize) -> bool {
    let (row, text, out) = run;
    let broken = Row {
        write_fault: Some(before),
        said: b"write failed\n",
        status: 3,
        ..*row
    };
    is_long_right(alloc, &broken, text, out)
}

#[test]
fn writes_some_at_a_time(rt: HostRuntime) {
    for (run, befores) in &BROKEN {
        for before in befores {
            check_at(&rt, *before, is_front_right(rt.alloc(), *run, *before));
        }
    }
}
