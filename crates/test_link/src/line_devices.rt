//! The devices of `line_io`, over memory and over writers and readers of std: chunks, faults after each count of bytes, what goes on
//! after them, and whole transfers.
use crate::checks::{all_true, are_bytes, check, check_at};
use crate::devices::{reader_of, writer_of};
use line_io::memory::{Fault, In, Out, OwnedOut};
use line_io::{End, Inlet, Outlet, Reads, WriteFault, Writes, read_to_end, write_all};
use std::alloc::Global;
use std::io::ErrorKind;

#[test]
fn examples_over_std(rt: HostRuntime) {
    let mut line = Writes::new(Vec::new(rt.alloc()));
    check(&rt, line.write(b"hi") == Some(2));
    let mut line = Reads::new(b"hi".as_slice());
    let mut room = [0u8; 8];
    check(&rt, line.read(&mut room) == Some(2));
    check(&rt, line.read(&mut room) == Some(0));
}

/// A device that is full, a read that fails, and a device that owns its bytes.
#[test]
fn examples_over_memory(rt: HostRuntime) {
    let mut room = [0u8; 4];
    let mut out = Out::new(&mut room, 2, None);
    check(&rt, write_all(&mut out, b"hi").is_ok());
    check(&rt, write_all(&mut out, b"hello") == Err(WriteFault));
    check(&rt, out.moved() == 4);
    let mut text = Vec::new(rt.alloc());
    let end = read_to_end(&mut In::new(b"abc", 2, Some(1)), &mut text);
    check(&rt, end == End::ReadFault && are_bytes(&text, b"a"));
    let mut out = OwnedOut::new(Vec::new(rt.alloc()), 2, None);
    check(&rt, out.write(b"abc") == Some(2));
    check(&rt, are_bytes(&out.into_bytes(), b"ab"));
}

/// Whether a device answers so to a write of each chunk.
pub(crate) fn takes<W: Outlet>(line: &mut W, calls: &[(&[u8], Option<usize>)]) -> bool {
    for (piece, answer) in calls {
        if line.write(piece) != *answer {
            return false;
        }
    }
    true
}

// Over four bytes: two bytes a write at most, until the device has failed once, after its third byte.
const CALLS: [(&[u8], Option<usize>); 7] = [
    (b"abcde", Some(2)),
    (b"cde", Some(1)),
    (b"", Some(0)),
    (b"de", None),
    (b"de", Some(1)),
    (b"e", Some(0)),
    (b"", Some(0)),
];

// Over a writer of three bytes: these, and no more.
const TAKEN: [(&[u8], Option<usize>); 4] = [
    (b"ab", Some(2)),
    (b"cd", Some(1)),
    (b"d", Some(0)),
    (b"", Some(0)),
];

#[test]
fn take_until_they_are_full(rt: HostRuntime) {
    let mut room = [0u8; 4];
    let mut out = Out::new(&mut room, 2, Some((3, Fault::Fail)));
    let are_taken = takes(&mut out, &CALLS) && out.moved() == 4;
    let mut narrow = [0u8; 3];
    let mut line = Writes::new(narrow.as_mut_slice());
    let is_full = takes(&mut line, &TAKEN) && line.into_inner().len() == 0;
    let found = [
        are_taken,
        is_full,
        are_bytes(&room, b"abcd"),
        are_bytes(&narrow, b"abc"),
    ];
    check(&rt, all_true(found));
}

// What a device of three bytes that takes one a write, with a fault after so many, is given in each of four writes.
const PIECES: [(usize, [&[u8]; 4]); 4] = [
    (0, [b"abc", b"abc", b"bc", b"c"]),
    (1, [b"abc", b"bc", b"bc", b"c"]),
    (2, [b"abc", b"bc", b"c", b"c"]),
    (3, [b"abc", b"bc", b"c", b"d"]),
];

/// Whether a device takes a byte of each chunk, but answers the one at its fault of this kind so, and is full then.
fn takes_around(kind: Fault, before: usize, pieces: &[&[u8]], fault: Option<usize>) -> bool {
    let mut room = [0u8; 3];
    let mut out = Out::new(&mut room, 1, Some((before, kind)));
    for (call, piece) in pieces.iter().enumerate() {
        let want = if call == before { fault } else { Some(1) };
        if out.write(piece) != want {
            return false;
        }
    }
    let is_full = out.moved() == 3 && out.write(b"d") == Some(0);
    is_full && are_bytes(&room, b"abc")
}

/// Whether six writes of two bytes are taken a byte each, but for the one that is interrupted after so many.
fn is_interrupted_once(before: usize) -> bool {
    let mut line = writer_of(1, before, Some(ErrorKind::Interrupted));
    for call in 0..6 {
        let want = if call == before { None } else { Some(1) };
        if line.write(b"ab") != want {
            return false;
        }
    }
    line.write(b"") == Some(0) && line.into_inner().taken == 5
}

/// Whether three reads of a device give a byte each, but for one more that fails after so many, and then none.
pub(crate) fn fails_once<R: Inlet>(line: &mut R, before: usize) -> bool {
    let mut room = [0u8; 2];
    for call in 0..4 {
        let want = if call == before { None } else { Some(1) };
        if line.read(&mut room) != want {
            return false;
        }
    }
    line.read(&mut room) == Some(0) && line.read(&mut []) == Some(0)
}

#[test]
fn fault_once_after_each_count(rt: HostRuntime) {
    for (before, pieces) in &PIECES {
        let before = *before;
        let mut held = In::new(b"aaa", 1, Some(before));
        let mut given = reader_of(b"aaa", 1, before, ErrorKind::Other);
        let found = [
            takes_around(Fault::Fail, before, pieces, None),
            takes_around(Fault::Nothing, before, pieces, Some(0)),
            is_interrupted_once(before),
            fails_once(&mut held, before),
            held.moved() == 3,
            fails_once(&mut given, before),
            given.into_inner().given == 3,
        ];
        check_at(&rt, before, all_true(found));
    }
}

// From which byte to which of a room a read goes that gives two bytes at most and fails once at first, what is answered, and
// how many bytes were given so far.
const READS: [(usize, usize, Option<usize>, usize); 5] = [
    (0, 0, Some(0), 0),
    (0, 8, None, 0),
    (0, 8, Some(2), 2),
    (2, 8, Some(1), 3),
    (0, 8, Some(0), 3),
];

/// The room past an answer stays as it was, also where the reader has written there.
#[test]
fn give_in_pieces(rt: HostRuntime) {
    let mut room = [0u8; 8];
    let mut reader = In::new(b"abc", 2, Some(0));
    for (at, (from, to, answer, moved)) in READS.iter().enumerate() {
        let read = match room.get_mut(*from..*to) {
            Some(piece) => reader.read(piece),
            None => return check(&rt, false),
        };
        check_at(&rt, at, read == *answer && reader.moved() == *moved);
    }
    let mut small = [0u8; 4];
    let answer = reader_of(b"abc", 1, usize::MAX, ErrorKind::Other).read(&mut small);
    let stay = are_bytes(&room, b"abc\0\0\0\0\0") && are_bytes(&small, b"a\0\0\0");
    check(&rt, stay && answer == Some(1));
}

// What five bytes of room hold where the device meets its fault after so many of five; and where it meets none, whole.
const WRITTEN: [(usize, bool, &[u8]); 6] = [
    (0, false, b"\0\0\0\0\0"),
    (1, false, b"a\0\0\0\0"),
    (2, false, b"ab\0\0\0"),
    (3, false, b"abc\0\0"),
    (4, false, b"abcd\0"),
    (5, true, b"abcde"),
];

/// Whether a device with this fault takes all of the text.
fn writes_all(room: &mut [u8], before: usize) -> bool {
    let mut out = Out::new(room, 2, Some((before, Fault::Nothing)));
    write_all(&mut out, b"abcde").is_ok()
}

#[test]
fn write_all_or_to_the_fault(rt: HostRuntime) {
    for (before, is_whole, bytes) in &WRITTEN {
        let mut room = [0u8; 5];
        let wrote = writes_all(&mut room, *before);
        check_at(&rt, *before, wrote == *is_whole && are_bytes(&room, bytes));
    }
}

/// Whether reading after a byte, where the reader fails so, ends so, with these bytes.
fn reads(alloc: Global, fault: Option<usize>, end: End, bytes: &[u8]) -> bool {
    let Ok(mut held) = vec![in alloc; b'-'] else {
        return false;
    };
    read_to_end(&mut In::new(b"abc", 2, fault), &mut held) == end && are_bytes(&held, bytes)
}

// It goes on after its fault, two bytes a write.
const BEHIND: [(&[u8], Option<usize>); 2] = [(b"xyz", Some(2)), (b"", Some(0))];

/// Whether a device that owns a byte takes a text to its fault, after so many, goes on, and has these bytes then.
fn owns(alloc: Global, before: usize, bytes: &[u8]) -> bool {
    let Ok(held) = vec![in alloc; b'-'] else {
        return false;
    };
    let mut out = OwnedOut::new(held, 2, Some((before, Fault::Fail)));
    let failed = write_all(&mut out, b"abc").is_err();
    let goes_on = takes(&mut out, &BEHIND);
    failed && goes_on && are_bytes(&out.into_bytes(), bytes)
}

/// Reading to the end or to the fault, and what a device that owns its bytes has after a fault.
#[test]
fn move_bytes_of_vectors(rt: HostRuntime) {
    let alloc = rt.alloc();
    let found = [
        reads(alloc, None, End::Ended, b"-abc"),
        reads(alloc, Some(0), End::ReadFault, b"-"),
        reads(alloc, Some(1), End::ReadFault, b"-a"),
        reads(alloc, Some(3), End::ReadFault, b"-abc"),
        owns(alloc, 0, b"-xy"),
        owns(alloc, 1, b"-axy"),
        owns(alloc, 2, b"-abxy"),
    ];
    check(&rt, all_true(found));
}
