//! Streams of frames as lines, by a table of types.
use crate::checks::{are_equal, check, check_row};
use declarations::{Schema, read_schema};
use link::{Answer, Ordinary, OwnedReceiver, Strict};
use schemas::Value;
use std::alloc::Global;
use std::cell::Cell;
use std::process::Abort;
use wire_lib::DEPTH;
use wire_lib::receive::{LinesOfFrames, Reading};
use wire_lib::table::TableReader;

// A zero; a value; a frame that lacks a byte; the value with a byte after it; a prefix.
const STREAM: [u8; 17] = [0, 4, 5, 0xAC, 2, 0, 3, 5, 0, 5, 5, 0xAC, 2, 7, 0, 4, 5];

const LINES: &str = "{\"value\":[5,300]}
{\"damaged\":{\"from\":6,\"to\":8}}
{\"value\":[5,300]}
{\"cut\":{\"from\":15,\"to\":17}}
";

const STRICT_LINES: &str = "{\"value\":[5,300]}
{\"damaged\":{\"from\":6,\"to\":8}}
{\"damaged\":{\"from\":9,\"to\":14}}
{\"cut\":{\"from\":15,\"to\":17}}
";

const ONE_LINE: &str = "{\"value\":[5,300]}\n";

fn schema(alloc: Global) -> Option<Schema> {
    read_schema(alloc, "// message\nstruct Pair(u8, u16);").ok()
}

// A stream: whether it is read strictly, how many of its bytes are passed over, what its lines are, and whether all its results
// are values.
#[derive(Clone, Copy)]
struct Run {
    stream: &'static [u8],
    strict: bool,
    from: u64,
    lines: &'static str,
    is_good: bool,
}

const RUNS: [Run; 3] = [
    Run {
        stream: &STREAM,
        strict: false,
        from: 0,
        lines: LINES,
        is_good: false,
    },
    Run {
        stream: &STREAM,
        strict: true,
        from: 1,
        lines: STRICT_LINES,
        is_good: false,
    },
    Run {
        stream: &[0, 4, 5, 0xAC, 2, 0],
        strict: false,
        from: 0,
        lines: ONE_LINE,
        is_good: true,
    },
];

// How many bytes a chunk of a stream has.
const SIZES: [usize; 5] = [1, 2, 5, 6, 17];

// Whether there is memory for the lines of a stream in chunks of so many bytes.
fn takes(
    receiver: &mut LinesOfFrames<'_>,
    stream: &[u8],
    size: usize,
    lines: &mut Vec<u8>,
) -> bool {
    for piece in stream.chunks(size.max(1)) {
        if receiver.push(piece, lines).is_err() {
            return false;
        }
    }
    true
}

// Whether a stream has its lines, in chunks of so many bytes.
fn has_its_lines(alloc: Global, schema: &Schema, run: &Run, size: usize) -> bool {
    let reading = Reading {
        alloc,
        schema,
        place: 0,
        hex: false,
        strict: run.strict,
        depth: DEPTH,
        sentinel: 0,
        summed: false,
    };
    let Ok(mut receiver) = LinesOfFrames::new(reading, run.from) else {
        return false;
    };
    let mut lines = Vec::new(alloc);
    let is_taken = takes(&mut receiver, run.stream, size, &mut lines);
    let is_ended = matches!(receiver.finish(&mut lines), Ok(is_good) if is_good == run.is_good);
    is_taken && is_ended && are_equal(&lines, run.lines.as_bytes())
}

fn check_sizes(rt: &impl Abort, alloc: Global, schema: &Schema, run: &Run) {
    for size in SIZES {
        check_row(rt, run.lines, has_its_lines(alloc, schema, run, size));
    }
}

#[test]
fn whole_and_in_pieces(rt: HostRuntime) {
    let alloc = rt.alloc();
    let schema = schema(alloc).expect(&rt, "a schema");
    for run in &RUNS {
        check_sizes(&rt, alloc, &schema, run);
    }
}

/// Whether a result is a value.
fn is_value<E>(answer: &Result<Option<Answer<Value>>, E>) -> bool {
    matches!(answer, Ok(Some(Answer::Value(_))))
}

/// Whether a result is that the bytes between two delimiters are damaged.
fn is_damaged<E>(answer: &Result<Option<Answer<Value>>, E>) -> bool {
    matches!(answer, Ok(Some(Answer::Damaged)))
}

/// By the table itself, with a receiver of `link`.
#[test]
fn by_the_table(rt: HostRuntime) {
    let alloc = rt.alloc();
    let schema = schema(alloc).expect(&rt, "a schema");
    let mut receiver = OwnedReceiver::new(alloc, 8, 0).expect(&rt, "a receiver");
    let is_deep = Cell::new(false);
    let table = TableReader {
        nodes: &schema.nodes,
        place: 0,
        depth: DEPTH,
        is_deep: &is_deep,
        summed: false,
    };
    let piece = &STREAM[9..15];
    let pushed = receiver.push_with(alloc, &Ordinary(table), piece);
    check(
        &rt,
        pushed.used == 6 && pushed.stretch == 5 && is_value(&pushed.answer),
    );
    let pushed = receiver.push_with(alloc, &Strict(table), piece);
    check(&rt, pushed.used == 6 && is_damaged(&pushed.answer));
}
