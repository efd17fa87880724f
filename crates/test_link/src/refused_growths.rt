//! Out of memory: in a run in which an allocation is refused, each call answers so or gives its whole answer.
//!
//! `said_by_each_call` is also run with each allocation refused in turn, by `.ci/refusals`. In the gate none is refused, and
//! `whole_answers` passes too.
ghost use Rattle.std.specs.Prelude.{◌<◌};

use crate::checks::{all_true, are_bytes, are_fates, check, is_answer, is_told};
use crate::vectors_in_turn::Hearing;
use cobs::{CobsDecoderOwned, DecodeVecError};
use line_io::Inlet;
use line_io::memory::{In, Out};
use link::{
    Answer, End, Fate, Gathered, NoMemory, OfType, Ordinary, OwnedReceiver, Pushed, Received,
    Receiver, Sender, Strict, read_in_place, read_in_place_with_sentinel, receive,
    receive_by_accumulator, receive_by_accumulator_with_sentinel, receive_owned,
    receive_owned_strict, receive_strict, receive_strict_with_sentinel, receive_with_sentinel,
    send_each,
};
use postcard::accumulator::{CobsAccumulator, FeedResult};
use postcard::experimental::serialized_size;
use postcard::{
    DeserializeOwned, Error, Exact, Serialize, from_bytes, from_bytes_cobs,
    from_bytes_cobs_with_sentinel, from_bytes_owned, from_io, take_from_bytes,
    take_from_bytes_cobs, take_from_bytes_cobs_with_sentinel, to_allocvec, to_allocvec_cobs,
    to_allocvec_cobs_with_sentinel, to_extend, to_io, to_slice, to_slice_cobs, to_stdvec,
    to_stdvec_cobs, to_stdvec_cobs_with_sentinel, to_vec, to_vec_cobs,
};
use std::alloc::{AllocError, Global};
use std::collections::BTreeMap;
use std::slice;

/// What was answered so far.
#[derive(Drop)]
struct Wants {
    /// How many calls found no memory.
    count: usize,
    /// Whether each other answer was the whole one.
    are_whole: bool,
}

impl Wants {
    fn add(&mut self) {
        self.count = self.count.saturating_add(1);
    }

    fn expect(&mut self, is_right: bool) {
        self.are_whole = self.are_whole && is_right;
    }

    /// The value; nothing when out of memory, which is this refusal, and no other refusal.
    fn value<T: Drop, E: PartialEq + Drop>(&mut self, answer: Result<T, E>, want: E) -> Option<T> {
        match answer {
            Ok(value) => Some(value),
            Err(cause) => {
                self.expect(cause == want);
                self.add();
                None
            }
        }
    }

    /// These bytes, or out of memory, which is this refusal.
    fn bytes<E: PartialEq + Drop>(&mut self, answer: Result<Vec<u8>, E>, want: E, whole: &[u8]) {
        if let Some(bytes) = self.value(answer, want) {
            self.expect(are_bytes(&bytes, whole));
        }
    }

    /// These bytes, or out of memory, by a call of `postcard`.
    fn written(&mut self, answer: postcard::Result<Vec<u8>>, whole: &[u8]) {
        self.bytes(answer, Error::OutOfMemory, whole);
    }
}

// Whether an answer is the vector of this byte.
fn is_vector(answer: &Answer<Vec<u8>>, byte: u8) -> bool {
    match answer {
        Answer::Value(bytes) => are_bytes(bytes, &[byte]),
        _ => false,
    }
}

// 10, 11, 0, 12
const MESSAGE: [u8; 4] = [10, 11, 0, 12];

/// The vector forms of `cobs` that encode and decode, and its decoder that owns its room.
fn frame(alloc: Global, wants: &mut Wants) {
    let plain = cobs::encode_vec(alloc, &MESSAGE);
    wants.bytes(plain, AllocError, &[3, 10, 11, 2, 12]);
    let between = cobs::encode_vec_including_sentinels(alloc, &MESSAGE);
    wants.bytes(between, AllocError, &[0, 3, 10, 11, 2, 12, 0]);
    let masked = cobs::encode_vec_with_sentinel(alloc, &MESSAGE, 10);
    wants.bytes(masked, AllocError, &[9, 0, 1, 8, 6]);
    let plain = cobs::decode_vec(alloc, &[3, 10, 11, 2, 12]);
    wants.bytes(plain, DecodeVecError::OutOfMemory, &MESSAGE);
    let unmasked = cobs::decode_vec_with_sentinel(alloc, &[9, 0, 1, 8, 6], 10);
    wants.bytes(unmasked, DecodeVecError::OutOfMemory, &MESSAGE);
    wants.owned(CobsDecoderOwned::new(alloc, 3), &[2, 7, 0]);
    let marked = CobsDecoderOwned::new_with_sentinel(alloc, 3, 0xFF);
    wants.owned(marked, &[0xFD, 0xF8, 0xFF]);
}

impl Wants {
    /// A decoder that owns three bytes, and fills one of them by this frame of a 7; or out of memory.
    fn owned(&mut self, decoder: Result<CobsDecoderOwned, AllocError>, frame: &[u8]) {
        if let Some(mut decoder) = self.value(decoder, AllocError) {
            let fills_one = are_bytes(decoder.dest(), &[0, 0, 0])
                && decoder.push(frame).is_ok()
                && are_bytes(decoder.dest(), &[7, 0, 0]);
            self.expect(fills_one);
        }
    }
}

// The tuple (1, 10, "Hello!").
const WHOLE: [u8; 9] = [1, 10, 6, 0x48, 0x65, 0x6C, 0x6C, 0x6F, 0x21];

// The frame of "Hi!": on a line whose mark is zero, and on one whose mark is FF.
const FRAMED: [u8; 6] = [5, 3, 0x48, 0x69, 0x21, 0];

const FRAMED_MARKED: [u8; 6] = [0xFA, 0xFC, 0xB7, 0x96, 0xDE, 0xFF];

const ONES: [u8; 40] = [1; 40];

// The message of forty ones.
const LONG: [u8; 41] = [
    40, 1, 1, 1, 1, 1, 1, 1, 1, 1, 1, 1, 1, 1, 1, 1, 1, 1, 1, 1, 1, 1, 1, 1, 1, 1, 1, 1, 1, 1, 1,
    1, 1, 1, 1, 1, 1, 1, 1, 1, 1,
];

/// Calls that write a value's bytes into a vector.
fn write_value<T: Serialize>(alloc: Global, wants: &mut Wants, value: &T, whole: &[u8]) {
    wants.written(to_allocvec(alloc, value), whole);
    wants.written(to_stdvec(alloc, value), whole);
    wants.written(to_extend(value, Vec::new(alloc)), whole);
}

/// Calls that write into a vector.
fn write(alloc: Global, wants: &mut Wants) {
    write_value(alloc, wants, &(1u8, 10u32, "Hello!"), &WHOLE);
    write_value(alloc, wants, &ONES.as_slice(), &LONG);
    wants.written(to_allocvec_cobs(alloc, &"Hi!"), &FRAMED);
    wants.written(to_stdvec_cobs(alloc, &"Hi!"), &FRAMED);
    let framed = to_allocvec_cobs_with_sentinel(alloc, &"Hi!", 0xFF);
    wants.written(framed, &FRAMED_MARKED);
    let framed = to_stdvec_cobs_with_sentinel(alloc, &"Hi!", 0xFF);
    wants.written(framed, &FRAMED_MARKED);
}

/// A text, bytes and a box.
fn read_values(alloc: Global, wants: &mut Wants) {
    let text = from_bytes::<String>(alloc, &[3, 0x48, 0x69, 0x21]);
    if let Some(text) = wants.value(text, Error::OutOfMemory) {
        wants.expect(text.as_str() == "Hi!");
    }
    wants.written(from_bytes::<Vec<u8>>(alloc, &LONG), &ONES);
    let boxed = from_bytes::<Box<u8>>(alloc, &[7]);
    if let Some(boxed) = wants.value(boxed, Error::OutOfMemory) {
        wants.expect(*boxed == 7);
    }
}

/// A map.
fn read_map(alloc: Global, wants: &mut Wants) {
    let read = from_bytes::<BTreeMap<u8, u8>>(alloc, &[2, 2, 6, 1, 5]);
    if let Some(map) = wants.value(read, Error::OutOfMemory) {
        wants.expect(map.len() == 2 && map.get(&1) == Some(&5) && map.get(&2) == Some(&6));
    }
}

// The frame of the vector of a 7, and a byte more: on a line whose mark is zero, and on one whose mark is FF.
const SEVEN: [u8; 5] = [3, 1, 7, 0, 9];

const SEVEN_MARKED: [u8; 5] = [0xFC, 0xFE, 0xF8, 0xFF, 9];

/// A frame of a value that allocates.
fn read_frame(alloc: Global, wants: &mut Wants, is_marked: bool) {
    let mut line = if is_marked { SEVEN_MARKED } else { SEVEN };
    let read = if is_marked {
        from_bytes_cobs_with_sentinel(alloc, &mut line, 0xFF)
    } else {
        from_bytes_cobs(alloc, &mut line)
    };
    wants.written(read, &[7]);
}

/// As above, with the bytes after it.
fn take_frame(alloc: Global, wants: &mut Wants, is_marked: bool) {
    let mut line = if is_marked { SEVEN_MARKED } else { SEVEN };
    let taken = if is_marked {
        take_from_bytes_cobs_with_sentinel::<Vec<u8>>(alloc, &mut line, 0xFF)
    } else {
        take_from_bytes_cobs::<Vec<u8>>(alloc, &mut line)
    };
    if let Some((bytes, rest)) = wants.value(taken, Error::OutOfMemory) {
        wants.expect(rest.len() == 1 && are_bytes(&bytes, &[7]));
    }
}

/// As above, by `link`.
fn read_stretch(alloc: Global, wants: &mut Wants, is_marked: bool) {
    let mut line = if is_marked { SEVEN_MARKED } else { SEVEN };
    let read = if is_marked {
        read_in_place_with_sentinel::<Vec<u8>>(alloc, &mut line, 0xFF)
    } else {
        read_in_place::<Vec<u8>>(alloc, &mut line)
    };
    let Some((answer, rest)) = read else {
        return wants.expect(false);
    };
    wants.expect(rest.len() == 1);
    if let Some(answer) = wants.value(answer, NoMemory) {
        wants.expect(is_vector(&answer, 7));
    }
}

// Two frames: the vectors of a 7 and of an 8.
const PAIR: [u8; 8] = [3, 1, 7, 0, 3, 1, 8, 0];

/// An accumulator answers a frame by `DeserError` where no memory is found, and goes on after it.
fn feed(alloc: Global, wants: &mut Wants) {
    let mut accumulator: CobsAccumulator<8> = CobsAccumulator::new();
    wants.fed(accumulator.feed(alloc, &PAIR), 4, 7);
    wants.fed(accumulator.feed(alloc, &PAIR[4..]), 0, 8);
}

impl Wants {
    /// A vector of this byte with so many bytes after it, or out of memory with as many.
    fn fed(&mut self, answer: FeedResult<'_, Vec<u8>>, left: usize, byte: u8) {
        match answer {
            FeedResult::Success { value, remaining } => {
                self.expect(remaining.len() == left && are_bytes(&value, &[byte]));
            }
            FeedResult::DeserError(remaining) => {
                self.expect(remaining.len() == left);
                self.add();
            }
            _ => self.expect(false),
        }
    }
}

/// A receiver is between stretches after a frame for which no memory was found, and goes on.
fn push(alloc: Global, wants: &mut Wants) {
    let mut receiver = Receiver::<8>::new();
    wants.pushed(receiver.push(alloc, &PAIR), 7);
    wants.expect(receiver.is_between());
    wants.pushed(receiver.push(alloc, &PAIR[4..]), 8);
    wants.expect(receiver.is_between());
    wants.pushed(receiver.push_strict(alloc, &PAIR), 7);
    wants.expect(receiver.is_between());
}

impl Wants {
    /// Four bytes were used, for a vector of this byte or out of memory.
    fn pushed(&mut self, pushed: Pushed<Vec<u8>>, byte: u8) {
        self.expect(pushed.used == 4);
        match pushed.answer {
            Ok(Some(answer)) => self.expect(is_vector(&answer, byte)),
            Ok(None) => self.expect(false),
            Err(NoMemory) => self.add(),
        }
    }
}

// Six frames: the vectors of one byte, from 1 to 6.
const LINE: [u8; 24] = [
    3, 1, 1, 0, 3, 1, 2, 0, 3, 1, 3, 0, 3, 1, 4, 0, 3, 1, 5, 0, 3, 1, 6, 0,
];

impl Wants {
    /// What was received to the end if it is whole, and else until out of memory.
    fn ended(&mut self, end: End, is_whole: bool) {
        if is_whole {
            self.expect(end == End::Ended);
        } else {
            self.expect(end == End::NoMemory);
            self.add();
        }
    }

    /// All six values, or the first ones and out of memory.
    fn received(&mut self, got: Received<Vec<u8>, In<'_>>) {
        self.expect(are_first(&got.answers));
        self.ended(got.end, got.answers.len() == 6);
    }

    /// The six values, but that one may be left out; or the first ones and out of memory.
    fn gathered(&mut self, got: Gathered<Vec<u8>, In<'_>>) {
        let count = got.values.len();
        let last = greatest(&got.values);
        match got.end {
            End::Ended => self.expect(last.is_some() && 5 <= count),
            End::NoMemory => self.expect(last == Some(count)),
            End::ReadFault => self.expect(false),
        }
        if count < 6 {
            self.add();
        }
    }
}

// Whether the answers are the vectors of one byte from 1 on.
pub(crate) fn are_first(answers: &[Answer<Vec<u8>>]) -> bool {
    let mut next = 1u8;
    for answer in answers {
        if !is_vector(answer, next) {
            return false;
        }
        next = next.saturating_add(1);
    }
    true
}

// The greatest byte of vectors of one byte, at most 6 and each greater than the one before it; of none of them 0.
fn greatest(values: &[Vec<u8>]) -> Option<usize> {
    let mut last = 0u8;
    for value in values {
        match value.as_slice() {
            [byte] if last < *byte && *byte <= 6 => last = *byte,
            _ => return None,
        }
    }
    Some(usize::from(last))
}

// Those six vectors.
const SENT: [&[u8]; 6] = [&[1], &[2], &[3], &[4], &[5], &[6]];

impl Wants {
    /// All six values were reported, or the first ones and then out of memory.
    fn handed(&mut self, end: Option<End>, hearing: &Hearing) {
        self.expect(hearing.has_first(hearing.heard));
        match end {
            Some(end) => self.ended(end, hearing.heard == 6),
            None => self.expect(false),
        }
    }
}

/// The same, each reported. Byte by byte, where memory was wanting every frame that was read is reported but for the last one, which
/// was lost.
fn hand_on(alloc: Global, wants: &mut Wants, each: usize)
    requires { 0 < each }
{
    let mut hearing = Hearing::new(&SENT);
    let mut line = In::new(&LINE, each, None);
    let mut receiver = Receiver::<8>::new();
    let end = receiver.receive_each_with(alloc, &Ordinary(OfType), &mut line, &mut hearing);
    if each == 1 && end == Some(End::NoMemory) {
        wants.expect(hearing.heard.saturating_add(1) == line.moved() / 4);
    }
    wants.handed(end, &hearing);
}

/// The same, with a limit that is set at run time: where the receiver finds no memory, nothing is read.
fn hand_on_owned(alloc: Global, wants: &mut Wants) {
    let mut hearing = Hearing::new(&SENT);
    let mut line = In::new(&LINE, 7, None);
    match OwnedReceiver::new(alloc, 8, 0) {
        Ok(mut receiver) => {
            let strict = Strict(OfType);
            let end = receiver.receive_each_with(alloc, &strict, &mut line, &mut hearing);
            wants.handed(end, &hearing);
        }
        Err(NoMemory) => {
            wants.expect(hearing.has_first(0) && line.moved() == 0);
            wants.add();
        }
    }
}

/// The line in three reads, the first two of which cut a frame: a value that finds no memory costs itself alone, and the read that
/// lost it says so. All others are received, also those after it in its read and those that its read has begun, and each read pauses.
fn go_on(alloc: Global, wants: &mut Wants) {
    let mut receiver = Receiver::<8>::new();
    let mut line = In::new(&LINE, 10, None);
    let mut heard = Hearing::new(&SENT);
    let mut lost = 0usize;
    for _ in 0..3 {
        let room = &mut [0u8; 16];
        match receiver.listen_with(alloc, &Ordinary(OfType), &mut line, &mut heard, room) {
            None => {}
            Some(end) => {
                wants.expect(end == End::NoMemory);
                wants.add();
                lost = lost.saturating_add(1);
            }
        }
    }
    let are_heard = heard.is_right && heard.heard.saturating_add(lost) == 6;
    let is_behind = receiver.is_between() && line.moved() == 24;
    wants.expect(are_heard && heard.pauses == 3 && is_behind);
}

// The same six frames where the line's mark is FF.
const MARKED: [u8; 24] = [
    252, 254, 254, 255, 252, 254, 253, 255, 252, 254, 252, 255, 252, 254, 251, 255, 252, 254, 250,
    255, 252, 254, 249, 255,
];

/// A call that receives to the end.
#[derive(Clone, Copy, Drop)]
enum Call {
    Plain,
    Strict,
    /// Of a line whose mark is FF.
    Marked,
    MarkedStrict,
    /// With this limit, set at run time, and this mark.
    Limited(usize, u8),
    LimitedStrict(usize, u8),
}

/// What a call answers. It is of any value and any reader, so that a caller carries what reads them once.
fn receive_by<T: DeserializeOwned + Exact, R: Inlet + Drop>(
    alloc: Global,
    call: Call,
    reader: R,
) -> Received<T, R> {
    match call {
        Call::Plain => receive::<T, R, 8>(alloc, reader),
        Call::Strict => receive_strict::<T, R, 8>(alloc, reader),
        Call::Marked => receive_with_sentinel::<T, R, 8>(alloc, reader, 0xFF),
        Call::MarkedStrict => receive_strict_with_sentinel::<T, R, 8>(alloc, reader, 0xFF),
        Call::Limited(limit, mark) => receive_owned::<T, R>(alloc, reader, limit, mark),
        Call::LimitedStrict(limit, mark) => {
            receive_owned_strict::<T, R>(alloc, reader, limit, mark)
        }
    }
}

/// Receptions to the end, in chunks of this size.
fn listen_by(alloc: Global, wants: &mut Wants, calls: &[Call], line: &[u8], each: usize)
    requires { 0 < each }
{
    for call in calls {
        wants.received(receive_by(alloc, *call, In::new(line, each, None)));
    }
}

/// By each call for a line whose mark is zero.
fn listen(alloc: Global, wants: &mut Wants, each: usize)
    requires { 0 < each }
{
    listen_by(alloc, wants, &[Call::Plain, Call::Strict], &LINE, each);
    let line = In::new(&LINE, each, None);
    wants.gathered(receive_by_accumulator::<_, _, 8>(alloc, line));
    hand_on(alloc, wants, each);
}

impl Wants {
    /// These answers, or the first of them and out of memory.
    fn heard<T: PartialEq + Drop>(&mut self, got: Received<T, In<'_>>, whole: &[Answer<T>]) {
        self.expect(whole.starts_with(&got.answers));
        self.ended(got.end, got.answers.len() == whole.len());
    }
}

/// Short lines, by a receiver whose limit is set at run time.
fn own_short(alloc: Global, wants: &mut Wants) {
    let line = [5u8, 1, 1, 1, 1, 0, 2, 1, 0];
    let got = receive_owned::<bool, _>(alloc, In::new(&line, 2, None), 3, 0);
    wants.heard(got, &[Answer::TooLong, Answer::Value(true)]);
    for (limit, wanted) in &[(0, Answer::TooLong), (1, Answer::Value(()))] {
        let got = receive_owned::<(), _>(alloc, In::new(&[1, 0], 2, None), *limit, 0);
        wants.heard(got, slice::from_ref(wanted));
    }
}

// 1018 letters, whose frame has 1025 bytes.
const LETTERS: [u8; 1018] = [b'a'; 1018];

/// Whether their text is sent, and fills this room.
fn fills(room: &mut [u8; 1027]) -> bool {
    let text = str::from_utf8(&LETTERS).unwrap_or("");
    let mut sender = Sender::<_, 1025>::new(Out::new(room, 1027, None));
    let sent = sender.send(&text);
    let count = sender.into_inner().moved();
    sent.is_ok() && count == 1027
}

/// The line of that text, by a receiver with this limit, within which the text fits or not.
fn own_long(alloc: Global, wants: &mut Wants, line: &[u8], limit: usize, fits: bool) {
    for call in &[Call::Limited(limit, 0), Call::LimitedStrict(limit, 0)] {
        let got = receive_by(alloc, *call, In::new(line, 500, None));
        wants.text(got, fits);
    }
}

impl Wants {
    /// One answer: the letters if they fit, and else that they are too long; or none and out of memory.
    fn text(&mut self, got: Received<String, In<'_>>, fits: bool) {
        let is_one = !got.answers.is_empty();
        self.ended(got.end, is_one);
        self.expect(!is_one || is_long(&got.answers, fits));
    }
}

// Whether the one answer is the letters, or that they are too long.
fn is_long(answers: &[Answer<String>], fits: bool) -> bool {
    match answers {
        [Answer::Value(text)] => fits && are_bytes(text.as_bytes(), &LETTERS),
        [Answer::TooLong] => !fits,
        _ => false,
    }
}

/// A limit that can't be raised stays as it is.
fn raise(alloc: Global, wants: &mut Wants) {
    let Ok(mut receiver) = OwnedReceiver::new(alloc, 1, 0) else {
        return wants.add();
    };
    if receiver.set_limit(64).is_ok() {
        wants.expect(receiver.limit() == 64);
    } else {
        wants.expect(receiver.limit() == 1);
        wants.add();
    }
    let pushed = receiver.push::<()>(alloc, &[1, 0]);
    wants.expect(is_answer(&pushed.answer, &Answer::Value(())));
}

/// All calls of `cobs` and `postcard`, and those that read one frame.
fn write_and_read(alloc: Global, wants: &mut Wants) {
    frame(alloc, wants);
    write(alloc, wants);
    read_values(alloc, wants);
    read_map(alloc, wants);
    for is_marked in [false, true] {
        read_frame(alloc, wants, is_marked);
        take_frame(alloc, wants, is_marked);
        read_stretch(alloc, wants, is_marked);
    }
}

/// All calls that receive frames, to the end in chunks of some sizes; but those with a limit that is set at run time.
fn receive_all(alloc: Global, wants: &mut Wants) {
    feed(alloc, wants);
    push(alloc, wants);
    listen(alloc, wants, 1);
    listen(alloc, wants, 7);
    listen(alloc, wants, 24);
    go_on(alloc, wants);
    let marked = [Call::Marked, Call::MarkedStrict];
    listen_by(alloc, wants, &marked, &MARKED, 7);
    let line = In::new(&MARKED, 7, None);
    let got = receive_by_accumulator_with_sentinel::<_, _, 8>(alloc, line, 0xFF);
    wants.gathered(got);
}

/// Receivers whose limit is set at run time.
fn own_values(alloc: Global, wants: &mut Wants) {
    listen_by(alloc, wants, &[Call::Limited(8, 0xFF)], &MARKED, 7);
    listen_by(alloc, wants, &[Call::LimitedStrict(8, 0)], &LINE, 7);
    hand_on_owned(alloc, wants);
    own_short(alloc, wants);
    let mut line = [0u8; 1027];
    wants.expect(fills(&mut line));
    own_long(alloc, wants, &line, 1025, true);
    own_long(alloc, wants, &line, 1024, false);
    raise(alloc, wants);
}

/// Whether no more calls than these find no memory, of all of them, and the others answer the whole.
fn are_answered(alloc: Global, count: usize) -> bool {
    let mut wants = Wants {
        count: 0,
        are_whole: true,
    };
    write_and_read(alloc, &mut wants);
    receive_all(alloc, &mut wants);
    own_values(alloc, &mut wants);
    wants.are_whole && wants.count <= count
}

#[test]
fn said_by_each_call(rt: HostRuntime) {
    check(&rt, are_answered(rt.alloc(), 1));
}

#[test]
fn whole_answers(rt: HostRuntime) {
    check(&rt, are_answered(rt.alloc(), 0));
}

// With each allocation refused in turn the tests below meet none.

#[test]
fn none_asked_by_cobs(rt: HostRuntime) {
    let mut room = [0u8; 8];
    check(&rt, cobs::encode(&MESSAGE, &mut room) == 5);
    let tried = cobs::try_encode(&MESSAGE, &mut room);
    check(&rt, matches!(&tried, Ok(5)));
    let mut back = [0u8; 4];
    let decoded = cobs::decode(&room[..5], &mut back);
    check(&rt, decoded.is_ok() && are_bytes(&back, &MESSAGE));
    let decoded = cobs::decode_in_place(&mut room[..5]);
    check(&rt, matches!(&decoded, Ok(4)));
}

// Whether so many bytes were written.
fn has_length(written: postcard::Result<&mut [u8]>, length: usize) -> bool {
    match written {
        Ok(bytes) => bytes.len() == length,
        Err(_) => false,
    }
}

#[test]
fn none_asked_by_writing(rt: HostRuntime) {
    let mut room = [0u8; 16];
    let mut sender = Sender::<_, 8>::new(Out::new(&mut room, 1, None));
    let sent = sender.send(&300u32);
    let is_sent = sent.is_ok() && sender.into_inner().moved() == 5;
    let mut fates = [Fate::Refused; 1];
    let out = send_each::<u32, _, 8>(Out::new(&mut room, 1, None), &[300], &mut fates);
    let are_sent = out.moved() == 5 && are_fates(&fates, &[Fate::Done]);
    let are_written = [
        is_sent,
        are_sent,
        has_length(to_slice(&"Hi!", &mut room), 4),
        has_length(to_slice_cobs(&"Hi!", &mut room), 6),
        to_io(&"Hi!", &mut room[..]).is_ok(),
        is_value(&serialized_size(&"Hi!"), &4),
        matches!(&to_vec::<_, 4>(&"Hi!"), Ok(it) if it.len() == 4),
        matches!(&to_vec_cobs::<_, 6>(&"Hi!"), Ok(it) if it.len() == 6),
    ];
    check(&rt, all_true(are_written));
}

// The message of "Hi!".
const HI: [u8; 4] = [3, 0x48, 0x69, 0x21];

// Whether this value was read.
fn is_value<T: PartialEq>(read: &postcard::Result<T>, wanted: &T) -> bool {
    match read {
        Ok(value) => *value == *wanted,
        Err(_) => false,
    }
}

// The frame of 5, twice.
const FIVES: [u8; 6] = [2, 5, 0, 2, 5, 0];

// Whether a receiver answered 5.
fn brings_five(pushed: &Pushed<u32>) -> bool {
    is_answer(&pushed.answer, &Answer::Value(5))
}

// Whether an accumulator answered 5.
fn is_five(answer: FeedResult<'_, u32>) -> bool {
    match answer {
        FeedResult::Success { value, .. } => value == 5,
        _ => false,
    }
}

#[test]
fn none_asked_by_receiving(rt: HostRuntime) {
    let alloc = rt.alloc();
    let mut receiver = Receiver::<8>::new();
    let mut accumulator: CobsAccumulator<8> = CobsAccumulator::new();
    let are_fives = [
        brings_five(&receiver.push(alloc, &FIVES)),
        brings_five(&receiver.push_strict(alloc, &FIVES)),
        brings_five(&receiver.push_ref(alloc, &FIVES)),
        is_five(accumulator.feed(alloc, &FIVES)),
        is_five(accumulator.feed_ref(alloc, &FIVES)),
    ];
    check(&rt, all_true(are_fives));
}

fn is_five_in_place(alloc: Global) -> bool {
    let mut line = FIVES;
    match read_in_place::<u32>(alloc, &mut line) {
        Some((answer, rest)) => is_told(&answer, &Answer::Value(5)) && rest.len() == 3,
        None => false,
    }
}

/// Values, one by a reader, and frames.
#[test]
fn none_asked_by_reading(rt: HostRuntime) {
    let alloc = rt.alloc();
    let mut buffer = [0u8; 3];
    let by_reader = from_io::<&str, _>(alloc, (HI.as_slice(), &mut buffer));
    let (mut framed, mut taken) = (FIVES, FIVES);
    let are_read = [
        is_value(&from_bytes::<&str>(alloc, &HI), &"Hi!"),
        is_value(&from_bytes_owned::<[u8; 4]>(alloc, &HI), &HI),
        matches!(&take_from_bytes::<u8>(alloc, &HI), Ok((3, _))),
        matches!(&by_reader, Ok((text, _)) if *text == "Hi!"),
        is_value(&from_bytes_cobs::<u32>(alloc, &mut framed), &5),
        matches!(&take_from_bytes_cobs::<u32>(alloc, &mut taken), Ok((5, _))),
        is_five_in_place(alloc),
    ];
    check(&rt, all_true(are_read));
}
