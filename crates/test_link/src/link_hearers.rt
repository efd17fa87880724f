//! `link`: each answer is reported before the next byte is asked for. The reader gives a byte a call, and a pause comes after
//! each: so the number of pauses tells by which byte an answer came.
ghost use Rattle.std.specs.Prelude.{◌≡◌, ⊤};
ghost use Rattle.link.specs.Each.{HeardAnyhow, heard_anyhow};

use crate::checks::{check, check_at};
use crate::message_readers::Chosen;
use arrayvec::ArrayString;
use line_io::memory::In;
use link::{
    Answer, End, Hearer, MessageReader, NoMemory, OfType, Ordinary, OwnedReceiver, Receiver, Strict,
};
use std::alloc::Global;

/// How many bytes a read has room for where the line is shorter.
const ROOM: usize = 64;

/// What is to be received, each answer by the byte of this offset.
#[derive(Drop)]
struct Wanted<'a, T> {
    answers: &'a [(usize, Answer<T>)],
    /// How many answers were received.
    heard: usize,
    pauses: usize,
    /// Whether they were these so far, each at its byte.
    are_right: bool,
    /// How many answers are enough, and whether so many were received.
    most: usize,
    is_full: bool,
}

impl<'a, T> Wanted<'a, T> {
    fn new(answers: &'a [(usize, Answer<T>)]) -> Wanted<'a, T> {
        Wanted {
            answers,
            heard: 0,
            pauses: 0,
            are_right: true,
            most: usize::MAX,
            is_full: false,
        }
    }

    /// Notes an answer.
    fn note(&mut self, is_wanted: bool) {
        self.are_right = self.are_right && is_wanted;
        self.heard = self.heard.saturating_add(1);
        self.is_full = self.heard >= self.most;
    }

    /// Whether so many answers were received, and they are right.
    fn has_heard(&self, count: usize) -> bool {
        self.are_right && self.heard == count
    }

    /// Whether all that is wanted was received, and then the end.
    fn is_whole(&self, end: Option<End>) -> bool {
        match end {
            Some(End::Ended) => self.has_heard(self.answers.len()),
            _ => false,
        }
    }
}

impl<'a, T: PartialEq + Drop> Hearer<T> for Wanted<'a, T> {
    ghost hears = { HeardAnyhow };

    ghost laws = { heard_anyhow };

    ghost enough = { λ w. w.is_full };

    ghost settled = { λ _. ⊤ };

    fn hear(&mut self, answer: Answer<T>)
        ensures { ⊤ }
    {
        let is_wanted = match self.answers.get(self.heard) {
            Some((at, wanted)) => *at == self.pauses && *wanted == answer,
            None => false,
        };
        self.note(is_wanted);
    }

    fn pause(&mut self)
        ensures heard { ⊤ }
        ensures settles { ⊤ }
    {
        self.pauses = self.pauses.saturating_add(1);
    }

    fn has_enough(&self) -> bool
        ensures { result ≡ self.now.is_full }
    {
        self.is_full
    }
}

// Under a limit of 4: 5; 300; a frame that lacks a byte; two zeros; five bytes and more; 300; 5 with two bytes after it; and a
// beginning.
const LINE: [u8; 28] = [
    2, 5, 0, 3, 0xAC, 2, 0, 3, 5, 0, 0, 1, 1, 1, 1, 1, 1, 0, 3, 0xAC, 2, 0, 4, 5, 1, 1, 0, 2,
];

const HEARD: [(usize, Answer<u32>); 7] = [
    (2, Answer::Value(5)),
    (6, Answer::Value(300)),
    (9, Answer::Damaged),
    (15, Answer::TooLong),
    (21, Answer::Value(300)),
    (26, Answer::Value(5)),
    (28, Answer::Cut),
];

// Strictly: no bytes are after 5.
const HEARD_STRICTLY: [(usize, Answer<u32>); 7] = [
    (2, Answer::Value(5)),
    (6, Answer::Value(300)),
    (9, Answer::Damaged),
    (15, Answer::TooLong),
    (21, Answer::Value(300)),
    (26, Answer::Damaged),
    (28, Answer::Cut),
];

// The same line where the sentinel is 0A.
const MARKED: [u8; 28] = [
    0x08, 0x0F, 0x0A, 0x09, 0xA6, 0x08, 0x0A, 0x09, 0x0F, 0x0A, 0x0A, 0x0B, 0x0B, 0x0B, 0x0B, 0x0B,
    0x0B, 0x0A, 0x09, 0xA6, 0x08, 0x0A, 0x0E, 0x0F, 0x0B, 0x0B, 0x0A, 0x08,
];

/// A receiver and a reader of messages that report each result, until the end.
#[derive(Clone, Copy, Drop)]
enum Call {
    Plain,
    Strict,
    Marked,
    MarkedStrict,
    /// With a limit that is set at run time.
    Limited,
    LimitedStrict,
    /// By a reader of messages that was told when the program ran how to read.
    Chosen,
}

/// By a receiver whose limit is set at run time.
fn hand_on_limited<M: MessageReader<u32>>(
    alloc: Global,
    sentinel: u8,
    messages: &M,
    reader: &mut In<'_>,
    wanted: &mut Wanted<'_, u32>,
) -> Option<End> {
    match OwnedReceiver::new(alloc, 4, sentinel) {
        Ok(mut receiver) => receiver.receive_each_with(alloc, messages, reader, wanted),
        Err(NoMemory) => Some(End::NoMemory),
    }
}

fn hand_on(
    alloc: Global,
    call: Call,
    reader: &mut In<'_>,
    wanted: &mut Wanted<'_, u32>,
) -> Option<End> {
    let mut plain = Receiver::<4>::new();
    let mut marked = Receiver::<4>::new_with_sentinel(10);
    match call {
        Call::Plain => plain.receive_each_with(alloc, &Ordinary(OfType), reader, wanted),
        Call::Strict => plain.receive_each_with(alloc, &Strict(OfType), reader, wanted),
        Call::Marked => marked.receive_each_with(alloc, &Ordinary(OfType), reader, wanted),
        Call::MarkedStrict => marked.receive_each_with(alloc, &Strict(OfType), reader, wanted),
        Call::Limited => hand_on_limited(alloc, 10, &Ordinary(OfType), reader, wanted),
        Call::LimitedStrict => hand_on_limited(alloc, 0, &Strict(OfType), reader, wanted),
        Call::Chosen => {
            plain.receive_each_with(alloc, &Chosen { strict: false }, reader, wanted)
        }
    }
}

const CALLS: [(Call, &[u8], &[(usize, Answer<u32>)]); 7] = [
    (Call::Plain, &LINE, &HEARD),
    (Call::Strict, &LINE, &HEARD_STRICTLY),
    (Call::Marked, &MARKED, &HEARD),
    (Call::MarkedStrict, &MARKED, &HEARD_STRICTLY),
    (Call::Limited, &MARKED, &HEARD),
    (Call::LimitedStrict, &LINE, &HEARD_STRICTLY),
    (Call::Chosen, &LINE, &HEARD),
];

/// Whether a call reports what is wanted, each answer at its byte.
fn hands_on(alloc: Global, call: Call, line: &[u8], answers: &[(usize, Answer<u32>)]) -> bool {
    let mut wanted = Wanted::new(answers);
    let end = hand_on(alloc, call, &mut In::new(line, 1, None), &mut wanted);
    wanted.is_whole(end)
}

#[test]
fn each_at_its_byte(rt: HostRuntime) {
    for (at, (call, line, answers)) in CALLS.iter().enumerate() {
        check_at(&rt, at, hands_on(rt.alloc(), *call, line, answers));
    }
}

// By one read, strictly: all before its pause.
const AT_ONCE: [(usize, Answer<u32>); 6] = [
    (0, Answer::Value(5)),
    (0, Answer::Value(300)),
    (0, Answer::Damaged),
    (0, Answer::TooLong),
    (0, Answer::Value(300)),
    (0, Answer::Damaged),
];

// By two reads, the first of twenty bytes.
const BY_TWO_READS: [(usize, Answer<u32>); 6] = [
    (0, Answer::Value(5)),
    (0, Answer::Value(300)),
    (0, Answer::Damaged),
    (0, Answer::TooLong),
    (1, Answer::Value(300)),
    (1, Answer::Value(5)),
];

/// Into a room of the caller's, by a reader of messages: one read, which brings the whole line, strictly; and two, of which none
/// brings more than the room holds: what the first one has left there isn't received.
#[test]
fn each_read_into_a_room(rt: HostRuntime) {
    let mut wanted = Wanted::new(&AT_ONCE);
    let mut reader = In::new(&LINE, 28, None);
    let mut receiver = Receiver::<4>::new();
    let strict = Chosen { strict: true };
    let mut room = [0u8; ROOM];
    let end = receiver.listen_with(rt.alloc(), &strict, &mut reader, &mut wanted, &mut room);
    let passed = end.is_none() && wanted.has_heard(6);
    check(&rt, passed && wanted.pauses == 1);
    let mut receiver = Receiver::<4>::new();
    let mut wanted = Wanted::new(&BY_TWO_READS);
    let mut reader = In::new(&LINE, 28, None);
    let mut room = [0u8; 20];
    for moved in [20, 28] {
        let ordinary = Chosen { strict: false };
        let end = receiver.listen_with(rt.alloc(), &ordinary, &mut reader, &mut wanted, &mut room);
        check(&rt, end.is_none() && reader.moved() == moved);
    }
    check(&rt, wanted.has_heard(6) && wanted.pauses == 2);
}

/// Whether a reception until so many answers are enough, with this fault, hears two and ends so after so many bytes.
fn stops(alloc: Global, most: usize, fault: Option<usize>, end: Option<End>, count: usize) -> bool {
    let mut wanted = Wanted::new(&HEARD);
    wanted.most = most;
    let mut reader = In::new(&LINE, 1, fault);
    let found = hand_on(alloc, Call::Plain, &mut reader, &mut wanted);
    found == end && wanted.has_heard(2) && reader.moved() == count
}

/// The hearer has had enough, and no byte more is asked for; a read that fails ends all. Into a room of the caller's it is asked
/// between reads alone.
#[test]
fn until_enough(rt: HostRuntime) {
    let is_enough = stops(rt.alloc(), 2, None, None, 7);
    let is_ended = stops(rt.alloc(), usize::MAX, Some(8), Some(End::ReadFault), 8);
    let mut receiver = Receiver::<4>::new();
    let mut wanted = Wanted::new(&BY_TWO_READS);
    wanted.most = 1;
    let mut reader = In::new(&LINE, 28, None);
    let mut room = [0u8; 20];
    let ordinary = Ordinary(OfType);
    let end = receiver.listen_until_with(
        rt.alloc(),
        &ordinary,
        &mut reader,
        &mut wanted,
        &mut room,
    );
    let is_asked = end.is_none() && reader.moved() == 20;
    let is_heard = wanted.has_heard(4) && wanted.pauses == 1;
    check(&rt, is_enough && is_ended && is_asked && is_heard);
}

/// Whether each read brings a byte, but one that fails after so many, and nothing that it has brought about is left: a read that
/// fails changes nothing, and what comes after it is received as ever.
fn listens_by_bytes(alloc: Global, fault: Option<usize>) -> bool {
    let mut receiver = Receiver::<4>::new();
    let mut wanted = Wanted::new(&HEARD);
    let mut reader = In::new(&LINE, 1, fault);
    let mut moved = 0usize;
    for call in 0..30 {
        let mut want = None;
        if fault == Some(call) {
            want = Some(End::ReadFault);
        } else if moved == 28 {
            want = Some(End::Ended);
        } else {
            moved = moved.saturating_add(1);
        }
        let room = &mut [0u8; ROOM];
        let end = receiver.listen_with(alloc, &Ordinary(OfType), &mut reader, &mut wanted, room);
        if end != want || reader.moved() != moved {
            return false;
        }
    }
    wanted.has_heard(6) && receiver.finish::<u32>() == Some(Answer::Cut)
}

/// The same strictly, without a fault, by a receiver with a limit that is set at run time.
fn listens_strictly(alloc: Global) -> bool {
    let mut wanted = Wanted::new(&HEARD_STRICTLY);
    let mut reader = In::new(&LINE, 1, None);
    let Ok(mut receiver) = OwnedReceiver::new(alloc, 4, 0) else {
        return false;
    };
    for _ in 0..28 {
        let room = &mut [0u8; ROOM];
        let end = receiver.listen_with(alloc, &Strict(OfType), &mut reader, &mut wanted, room);
        if end.is_some() {
            return false;
        }
    }
    wanted.has_heard(6) && reader.moved() == 28
}

#[test]
fn each_read(rt: HostRuntime) {
    let alloc = rt.alloc();
    let plainly = listens_by_bytes(alloc, None) && listens_by_bytes(alloc, Some(5));
    check(&rt, plainly && listens_strictly(alloc));
}

// "hi", one with a byte after it, bytes that are no text, and a beginning.
const TEXTS: [u8; 17] = [
    4, 2, 0x68, 0x69, 0, 5, 2, 0x68, 0x69, 7, 0, 3, 1, 0xFF, 0, 4, 2,
];

/// A text without memory.
type Text = ArrayString<8>;

/// Whether the texts of a line, each in a value of its own, are received ordinarily, or strictly: then no byte is after one.
fn hears_texts(alloc: Global, is_strict: bool) -> bool {
    let Ok(hi) = Text::from("hi") else {
        return false;
    };
    let longer = if is_strict {
        Answer::Damaged
    } else {
        Answer::Value(hi)
    };
    let answers = [
        (4, Answer::Value(hi)),
        (10, longer),
        (14, Answer::Damaged),
        (17, Answer::Cut),
    ];
    let mut wanted = Wanted::new(&answers);
    let reader = &mut In::new(&TEXTS, 1, None);
    let mut receiver = Receiver::<8>::new();
    let end = if is_strict {
        receiver.receive_each_with(alloc, &Strict(OfType), reader, &mut wanted)
    } else {
        receiver.receive_each_with(alloc, &Ordinary(OfType), reader, &mut wanted)
    };
    wanted.is_whole(end)
}

#[test]
fn texts_without_memory(rt: HostRuntime) {
    check(
        &rt,
        hears_texts(rt.alloc(), false) && hears_texts(rt.alloc(), true),
    );
}

// From which byte to which a chunk of the line goes, how many bytes are used for the first answer in it, and how long the
// stretch is that was answered.
const SPANS: [(usize, usize, usize, usize); 8] = [
    (0, 28, 3, 2),
    (3, 5, 2, 0),
    (5, 28, 2, 3),
    (7, 28, 3, 2),
    // a zero, and five bytes, of which the last is past the limit
    (10, 28, 6, 4),
    // the rest of that stretch, and the next one
    (16, 28, 6, 3),
    (22, 28, 5, 4),
    (27, 28, 1, 0),
];

/// How long the answered stretch was, also where earlier pushes took its beginning.
#[test]
fn lengths_of_stretches(rt: HostRuntime) {
    let mut receiver = Receiver::<4>::new();
    for (at, (from, to, used, stretch)) in SPANS.iter().enumerate() {
        let Some(piece) = LINE.get(*from..*to) else {
            return check(&rt, false);
        };
        let pushed = receiver.push::<u32>(rt.alloc(), piece);
        check_at(&rt, at, pushed.used == *used && pushed.stretch == *stretch);
    }
}
