//! Frames that come in chunks.
ghost use Rattle.std.specs.Mem.{FitsInMemory};
ghost use Rattle.cobs.specs.contracts.dec.heapless.CobsDecoderHeapless.{the_row};

use cobs::{CobsDecoder, CobsDecoderHeapless, CobsDecoderOwned, DecodeError, DecodeReport};
use replay::{Findings, Trouble, Words, pieces_of};
use std::alloc::{AllocError, Global};

/// A streaming decoder.
pub(crate) trait Streaming {
    fn feed_byte(&mut self, byte: u8) -> Result<Option<usize>, DecodeError>;

    fn push_piece(&mut self, piece: &[u8]) -> Result<Option<DecodeReport>, DecodeError>;

    fn buffer(&self) -> &[u8];
}

impl Streaming for CobsDecoder<'_> {
    fn feed_byte(&mut self, byte: u8) -> Result<Option<usize>, DecodeError> {
        self.feed(byte)
    }

    fn push_piece(&mut self, piece: &[u8]) -> Result<Option<DecodeReport>, DecodeError> {
        self.push(piece)
    }

    fn buffer(&self) -> &[u8] {
        self.dest()
    }
}

impl Streaming for CobsDecoderOwned {
    fn feed_byte(&mut self, byte: u8) -> Result<Option<usize>, DecodeError> {
        self.feed(byte)
    }

    fn push_piece(&mut self, piece: &[u8]) -> Result<Option<DecodeReport>, DecodeError> {
        self.push(piece)
    }

    fn buffer(&self) -> &[u8] {
        self.dest()
    }
}

impl<const N: usize> Streaming for CobsDecoderHeapless<N> {
    fn feed_byte(&mut self, byte: u8) -> Result<Option<usize>, DecodeError> {
        self.feed(byte)
    }

    fn push_piece(&mut self, piece: &[u8]) -> Result<Option<DecodeReport>, DecodeError> {
        self.push(piece)
    }

    fn buffer(&self) -> &[u8] {
        self.dest()
    }
}

/// What decoders are asked.
#[derive(Clone, Copy)]
struct Case<'a> {
    alloc: Global,
    pieces: &'a [Vec<u8>],
    wanted: &'a str,
}

/// `CAP PIECE,PIECE,.. -> A|A|..`: what a decoder over so many bytes returns.
pub(crate) fn replay_stream(
    alloc: Global,
    words: &mut Words<'_>,
    findings: &mut Findings,
) -> Result<(), Trouble> {
    let capacity = words.number()?;
    let pieces = words.next()?;
    let wanted = words.answer()?;
    let pieces = pieces_of(alloc, pieces)?;
    let case = Case {
        alloc,
        pieces: &pieces,
        wanted,
    };
    compare_all(&case, capacity, findings);
    Ok(())
}

/// Compares what decoders of each kind return.
fn compare_all(case: &Case<'_>, capacity: usize, findings: &mut Findings) {
    compare_lent(case, capacity, findings);
    compare_owned(case, capacity, findings);
    compare_fixed(case, capacity, findings);
    if capacity <= 1024 && !case.wanted.contains("TargetBufTooSmall") {
        let name = "CobsDecoderHeapless with room to spare";
        compare_heapless::<1024>(case, name, findings);
    }
}

/// Compares what decoders return that borrow their buffer.
fn compare_lent(case: &Case<'_>, capacity: usize, findings: &mut Findings) {
    let Ok(mut room) = vec![in case.alloc; 0; capacity] else {
        return findings.give_up(Trouble::NoMemory);
    };
    let Ok(mut other) = vec![in case.alloc; 0; capacity] else {
        return findings.give_up(Trouble::NoMemory);
    };
    let mut fed = CobsDecoder::new(room.as_mut_slice());
    let mut pushed = CobsDecoder::new(other.as_mut_slice());
    compare_streams(case, "CobsDecoder", &mut fed, &mut pushed, findings);
}

/// Compares what decoders return that have a vector.
fn compare_owned(case: &Case<'_>, capacity: usize, findings: &mut Findings) {
    let Ok(mut fed) = CobsDecoderOwned::new(case.alloc, capacity) else {
        return findings.give_up(Trouble::NoMemory);
    };
    let Ok(mut pushed) = CobsDecoderOwned::new(case.alloc, capacity) else {
        return findings.give_up(Trouble::NoMemory);
    };
    compare_streams(case, "CobsDecoderOwned", &mut fed, &mut pushed, findings);
}

/// Compares what decoders of a fixed capacity return, if one of that capacity is here.
fn compare_fixed(case: &Case<'_>, capacity: usize, findings: &mut Findings) {
    let name = "CobsDecoderHeapless";
    match capacity {
        0 => compare_heapless::<0>(case, name, findings),
        1 => compare_heapless::<1>(case, name, findings),
        2 => compare_heapless::<2>(case, name, findings),
        3 => compare_heapless::<3>(case, name, findings),
        4 => compare_heapless::<4>(case, name, findings),
        7 => compare_heapless::<7>(case, name, findings),
        12 => compare_heapless::<12>(case, name, findings),
        17 => compare_heapless::<17>(case, name, findings),
        33 => compare_heapless::<33>(case, name, findings),
        _ => {}
    }
}

/// Compares what decoders of such a capacity return.
fn compare_heapless<const N: usize>(case: &Case<'_>, name: &str, findings: &mut Findings)
    requires { FitsInMemory (the_row N.row) }
{
    let mut fed = CobsDecoderHeapless::<N>::new();
    let mut pushed = CobsDecoderHeapless::<N>::new();
    compare_streams(case, name, &mut fed, &mut pushed, findings);
}

/// Compares what a new decoder returns for the chunks byte by byte with the line, and with what another new one returns for
/// whole chunks.
fn compare_streams<D: Streaming>(
    case: &Case<'_>,
    name: &str,
    fed: &mut D,
    pushed: &mut D,
    findings: &mut Findings,
) {
    let mut said = String::new(case.alloc);
    for piece in case.pieces {
        if !said.is_empty() {
            findings.keep(said.push('|'));
        }
        compare_piece(name, fed, pushed, piece, &mut said, findings);
    }
    let noted = findings.compare(name, said.as_str(), case.wanted);
    findings.keep(noted);
}

/// Says what a decoder returns for a chunk byte by byte, and compares each result with what another one returns for the chunk
/// as a whole, and for each rest again. A semicolon is between two results; a dash if there are none.
fn compare_piece<D: Streaming>(
    name: &str,
    fed: &mut D,
    pushed: &mut D,
    piece: &[u8],
    said: &mut String,
    findings: &mut Findings,
) {
    let mut start = 0;
    for (at, byte) in piece.iter().enumerate() {
        let answer = fed.feed_byte(*byte);
        if matches!(answer, Ok(None)) {
            continue;
        }
        findings.keep(say(start, at, answer, fed.buffer(), said));
        let rest = piece.get(start..).unwrap_or(&[]);
        let used = at.saturating_sub(start).saturating_add(1);
        let other = compare_push(pushed, rest, used, answer, fed.buffer());
        note_other(name, other, findings);
        start = at.saturating_add(1);
    }
    if start == 0 {
        findings.keep(said.push('-'));
    }
    let rest = piece.get(start..).unwrap_or(&[]);
    if !matches!(pushed.push_piece(rest), Ok(None)) {
        note_other(name, "a stop more by push", findings);
    }
}

/// Notes what a decoder returns otherwise for a whole chunk, if there is something.
fn note_other(name: &str, other: &str, findings: &mut Findings) {
    let noted = findings.compare(name, other, "");
    findings.keep(noted);
}

/// What a decoder returns for a chunk, using so many bytes of it, that differs from what another one returned that was fed
/// them; nothing if it returns the same.
fn compare_push<D: Streaming>(
    decoder: &mut D,
    piece: &[u8],
    used: usize,
    fed: Result<Option<usize>, DecodeError>,
    buffer: &[u8],
) -> &'static str {
    match (decoder.push_piece(piece), fed) {
        (Ok(None), _) => "no stop by push",
        (Ok(Some(report)), _) if report.parsed_size() != used => "a stop elsewhere by push",
        (Ok(Some(report)), Ok(Some(size))) if report.frame_size() == size => {
            if decoder.buffer().get(..size) == buffer.get(..size) {
                return "";
            }
            "another message by push"
        }
        (Err(error), Err(wanted)) if error == wanted => "",
        _ => "another answer by push",
    }
}

/// Says a result that isn't `Ok(None)`, at a byte of a chunk; `start` is 0 at the first one of the chunk.
fn say(
    start: usize,
    at: usize,
    answer: Result<Option<usize>, DecodeError>,
    buffer: &[u8],
    said: &mut String,
) -> Result<(), AllocError> {
    let mark = if start > 0 { ";" } else { "" };
    match answer {
        Ok(size) => {
            write!(said, "{mark}{at}=")?;
            say_message(buffer.get(..size.unwrap_or(0)), said)
        }
        Err(DecodeError::EmptyFrame) => write!(said, "{mark}{at}!EmptyFrame"),
        Err(DecodeError::TargetBufTooSmall) => write!(said, "{mark}{at}!TargetBufTooSmall"),
        Err(DecodeError::InvalidFrame { decoded_bytes }) => {
            write!(said, "{mark}{at}!InvalidFrame:{decoded_bytes}")
        }
    }
}

/// Says the bytes of a message; a dash if there are none.
fn say_message(message: Option<&[u8]>, said: &mut String) -> Result<(), AllocError> {
    let Some(message) = message else {
        return said.push_str(" past the buffer");
    };
    if message.is_empty() {
        return said.push('-');
    }
    for byte in message {
        write!(said, "{byte:02x}")?;
    }
    Ok(())
}
