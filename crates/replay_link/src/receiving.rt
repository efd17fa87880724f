//! Streams that a reader gives.
use crate::answers::{need_end, show_answers};
use crate::gathering::gather;
use crate::linked::Line;
use line_io::{Inlet, Reads};
use link::{
    Received, receive_owned, receive_owned_strict, receive_strict_with_sentinel,
    receive_with_sentinel,
};
use postcard::{DeserializeOwned, Exact};
use replay::{Findings, Pieces, Shown, Trouble};
use std::alloc::Global;

/// How many bytes a stretch has at most where a sent line is received.
pub(crate) const HEARD: usize = 1025;

/// A stream that is received whole.
#[derive(Clone, Copy, Drop)]
pub(crate) struct Stream<'a> {
    /// Its chunks.
    pub pieces: &'a [Vec<u8>],
    /// The answers, without their places.
    pub wanted: &'a str,
}

/// What receives a stream.
#[derive(Clone, Copy, Drop)]
pub(crate) enum By {
    /// A receiver of so many bytes.
    Receiver(usize),
    /// A receiver whose limit, the line's, is set at run time.
    OwnedReceiver,
    /// An accumulator of as many bytes as the line says.
    Accumulator,
}

/// What is answered to chunks of which a read gives at most so many bytes.
pub(crate) fn receive<T: DeserializeOwned + Shown>(
    line: Line<'_>,
    by: By,
    pieces: &[Vec<u8>],
    each: usize,
) -> Result<String, Trouble> {
    receive_from::<T, _>(line, by, reader_of(pieces, each))
}

/// What is answered to what a reader gives.
// Of any reader, as the functions below: else each call of `link` carries those of this one anew.
fn receive_from<T: DeserializeOwned + Shown, R: Inlet + Drop>(
    line: Line<'_>,
    by: By,
    reader: R,
) -> Result<String, Trouble> {
    match by {
        By::Receiver(limit) => receive_all::<T, R>(line, limit, reader),
        By::OwnedReceiver => receive_by_value::<T, R>(line, line.limit, reader),
        By::Accumulator => gather::<T, R>(line, reader),
    }
}

/// Compares the answers to a stream that comes in its chunks, and to one that comes byte by byte.
pub(crate) fn compare_received<T: DeserializeOwned + Shown>(
    line: Line<'_>,
    stream: Stream<'_>,
    findings: &mut Findings,
) -> Result<(), Trouble> {
    let Stream { pieces, wanted } = stream;
    let name = match line.limit {
        3 | 64 | HEARD => "receive",
        _ => "receive_owned",
    };
    for each in [usize::MAX, 1] {
        let answer = receive::<T>(line, By::Receiver(line.limit), pieces, each);
        findings.check(name, answer, wanted)?;
    }
    let answer = receive::<T>(line, By::OwnedReceiver, pieces, usize::MAX);
    findings.check("receive_owned", answer, wanted)
}

/// As [`compare_received`], by strict reception.
pub(crate) fn compare_received_strictly<T: DeserializeOwned + Exact + Shown>(
    line: Line<'_>,
    stream: Stream<'_>,
    findings: &mut Findings,
) -> Result<(), Trouble> {
    let Stream { pieces, wanted } = stream;
    for each in [usize::MAX, 1] {
        match receive_all_strictly::<T, _>(line, reader_of(pieces, each)) {
            Some(answer) => findings.check("receive_strict", answer, wanted)?,
            None => {}
        }
    }
    for each in [usize::MAX, 1] {
        let reader = reader_of(pieces, each);
        let got = receive_owned_strict::<T, _>(line.alloc, reader, line.limit, line.sentinel);
        findings.check("receive_owned_strict", show(line.alloc, got), wanted)?;
    }
    Ok(())
}

/// The strict answers of a receiver whose limit is in its type, for two of the limits.
fn receive_all_strictly<T: DeserializeOwned + Exact + Shown, R: Inlet + Drop>(
    line: Line<'_>,
    reader: R,
) -> Option<Result<String, Trouble>> {
    let Line {
        alloc,
        sentinel: s,
        ..
    } = line;
    let received = match line.limit {
        3 => receive_strict_with_sentinel::<T, _, 3>(alloc, reader, s),
        64 => receive_strict_with_sentinel::<T, _, 64>(alloc, reader, s),
        _ => return None,
    };
    Some(show(alloc, received))
}

/// A reader of the chunks, of at most so many bytes a call.
fn reader_of<'a>(pieces: &'a [Vec<u8>], each: usize) -> Reads<Pieces<'a>> {
    Reads::new(Pieces::new(pieces, each))
}

/// The answers of a receiver of so many bytes: of one whose limit is in its type for three of the limits, since each is compiled
/// anew, else of one whose limit is set at run time.
fn receive_all<T: DeserializeOwned + Shown, R: Inlet + Drop>(
    line: Line<'_>,
    limit: usize,
    reader: R,
) -> Result<String, Trouble> {
    let Line {
        alloc,
        sentinel: s,
        ..
    } = line;
    let received = match limit {
        3 => receive_with_sentinel::<T, _, 3>(alloc, reader, s),
        64 => receive_with_sentinel::<T, _, 64>(alloc, reader, s),
        HEARD => receive_with_sentinel::<T, _, HEARD>(alloc, reader, s),
        0 | 1 | 8 | 16 | 256 | 512 => return receive_by_value::<T, R>(line, limit, reader),
        _ => return Err(Trouble::Unreadable),
    };
    show(alloc, received)
}

/// The answers of a receiver whose limit is set at run time.
fn receive_by_value<T: DeserializeOwned + Shown, R: Inlet + Drop>(
    line: Line<'_>,
    limit: usize,
    reader: R,
) -> Result<String, Trouble> {
    let received = receive_owned::<T, _>(line.alloc, reader, limit, line.sentinel);
    show(line.alloc, received)
}

/// The answers that were received, in the words of a line.
fn show<T: Shown + Drop, R: Drop>(
    alloc: Global,
    received: Received<T, R>,
) -> Result<String, Trouble> {
    let mut text = String::new(alloc);
    show_answers(&received.answers, &mut text)?;
    need_end(received.end, &mut text)?;
    Ok(text)
}
