//! Lines that speak of a link.
use crate::answers::without_places;
use crate::gathering::compare_gathered;
use crate::in_place::compare_in_place;
use crate::named::{Asks, ask_named};
use crate::pushing::{compare_parts, compare_pushes};
use crate::receiving::{Stream, compare_received, compare_received_strictly};
use crate::sending::compare_sent;
use postcard::{Deserialize, DeserializeOwned, Exact, Serialize};
use replay::{Findings, Shown, Trouble, Words, bytes_of, pieces_of};
use std::alloc::Global;

/// What a line asks of a type.
#[derive(Clone, Copy, Drop)]
enum Task<'a> {
    Receive(Stream<'a>),
    ReceiveStrictly(Stream<'a>),
    ReadInPlace,
    /// Of what comes in these chunks.
    Gather(&'a [Vec<u8>]),
    Send,
}

/// A line that speaks of a link.
#[derive(Clone, Copy, Drop)]
pub(crate) struct Line<'a> {
    pub alloc: Global,
    /// The byte that ends a stretch.
    pub sentinel: u8,
    /// How many bytes a stretch or a frame has at most.
    pub limit: usize,
    /// The type's name.
    pub name: &'a str,
    /// The chunks, the bytes or the sessions.
    pub given: &'a str,
    /// The answer.
    pub wanted: &'a str,
}

/// `S LIMIT any|strict TYPE PIECE,PIECE,.. -> A|A|..|END`: what a receiver of so many bytes answers.
pub(crate) fn replay_stream(
    alloc: Global,
    words: &mut Words<'_>,
    findings: &mut Findings,
) -> Result<(), Trouble> {
    let sentinel = words.byte(alloc)?;
    let limit = words.number()?;
    let is_strict = is_strict(words.next()?)?;
    let line = read_line(alloc, sentinel, limit, words)?;
    let pieces = pieces_of(alloc, line.given)?;
    compare_stream(line, &pieces, is_strict, findings)
}

/// Compares what receivers answer to the chunks, and to the whole stream.
fn compare_stream(
    line: Line<'_>,
    pieces: &[Vec<u8>],
    is_strict: bool,
    findings: &mut Findings,
) -> Result<(), Trouble> {
    compare_pushes(line, pieces, is_strict, findings)?;
    let wanted = without_places(line.alloc, line.wanted)?;
    let stream = Stream {
        pieces,
        wanted: wanted.as_str(),
    };
    let task = if is_strict {
        Task::ReceiveStrictly(stream)
    } else {
        Task::Receive(stream)
    };
    ask(line, task, &mut [], findings)
}

/// Whether a line is of strict reception.
fn is_strict(word: &str) -> Result<bool, Trouble> {
    match word {
        "any" => Ok(false),
        "strict" => Ok(true),
        _ => Err(Trouble::Unreadable),
    }
}

/// `S any|strict TYPE LIMIT:PIECE,../LIMIT:PIECE,.. -> A|A/A|..|END`: what a receiver answers whose limit is set before
/// each part.
pub(crate) fn replay_owned(
    alloc: Global,
    words: &mut Words<'_>,
    findings: &mut Findings,
) -> Result<(), Trouble> {
    let sentinel = words.byte(alloc)?;
    let is_strict = is_strict(words.next()?)?;
    let line = read_line(alloc, sentinel, 0, words)?;
    compare_parts(line, is_strict, findings)
}

/// `S TYPE BYTES -> A;A;..`: what stretches are read as where they lie.
pub(crate) fn replay_stretches(
    alloc: Global,
    words: &mut Words<'_>,
    findings: &mut Findings,
) -> Result<(), Trouble> {
    let sentinel = words.byte(alloc)?;
    let line = read_line(alloc, sentinel, 0, words)?;
    let mut room = bytes_of(alloc, line.given)?;
    ask(line, Task::ReadInPlace, room.as_mut_slice(), findings)
}

/// `S N TYPE BYTES -> VALUE;VALUE;..`: the values that are received by an accumulator of so many bytes.
pub(crate) fn replay_gathered(
    alloc: Global,
    words: &mut Words<'_>,
    findings: &mut Findings,
) -> Result<(), Trouble> {
    let sentinel = words.byte(alloc)?;
    let limit = words.number()?;
    let line = read_line(alloc, sentinel, limit, words)?;
    let pieces = pieces_of(alloc, line.given)?;
    ask(line, Task::Gather(&pieces), &mut [], findings)
}

/// `S N TYPE SESSION/SESSION/.. -> LINE FATES/FATES/.. A;A;..`: what senders of so many bytes write, what becomes of
/// each send, and what is received of it.
pub(crate) fn replay_sends(
    alloc: Global,
    words: &mut Words<'_>,
    findings: &mut Findings,
) -> Result<(), Trouble> {
    let sentinel = words.byte(alloc)?;
    let limit = words.number()?;
    let line = read_line(alloc, sentinel, limit, words)?;
    ask(line, Task::Send, &mut [], findings)
}

/// The type, what is given and the answer.
fn read_line<'a>(
    alloc: Global,
    sentinel: u8,
    limit: usize,
    words: &mut Words<'a>,
) -> Result<Line<'a>, Trouble> {
    let name = words.next()?;
    let given = words.next()?;
    let wanted = words.answer()?;
    Ok(Line {
        alloc,
        sentinel,
        limit,
        name,
        given,
        wanted,
    })
}

/// What a line asks of its type.
#[derive(Drop)]
struct Question<'a> {
    line: Line<'a>,
    task: Task<'a>,
    findings: &'a mut Findings,
}

impl<'r, 'a> Asks<&'r [u8], &'r mut [u8]> for Question<'a> {
    type Answer = Result<(), Trouble>;

    fn ask<T: Serialize + Deserialize<&'r [u8]> + DeserializeOwned + Shown>(
        self,
        room: &'r mut [u8],
    ) -> Result<(), Trouble> {
        let Question {
            line,
            task,
            findings,
        } = self;
        match task {
            Task::Receive(stream) => compare_received::<T>(line, stream, findings),
            Task::ReceiveStrictly(_) => Err(Trouble::Unreadable),
            Task::ReadInPlace => compare_in_place::<T>(line, room, findings),
            Task::Gather(pieces) => compare_gathered::<T>(line, pieces, findings),
            Task::Send => compare_sent::<T>(line, findings),
        }
    }

    fn ask_exact<T: Exact + Deserialize<&'r [u8]> + DeserializeOwned + Shown>(
        self,
        room: &'r mut [u8],
    ) -> Result<(), Trouble> {
        match self.task {
            Task::ReceiveStrictly(stream) => {
                compare_received_strictly::<T>(self.line, stream, self.findings)
            }
            _ => self.ask::<T>(room),
        }
    }

    fn ask_other(self, _: &str, _: &'r mut [u8]) -> Result<(), Trouble> {
        Err(Trouble::Unreadable)
    }
}

/// Does what a line asks of the type that it names.
fn ask(
    line: Line<'_>,
    task: Task<'_>,
    room: &mut [u8],
    findings: &mut Findings,
) -> Result<(), Trouble> {
    ask_named(
        line.name,
        Question {
            line,
            task,
            findings,
        },
        room,
    )
}
