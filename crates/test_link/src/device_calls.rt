//! How often devices are called: each call offers all that there is to write, or all the room that there is.
ghost use Rattle.std.specs.Prelude.{◌<◌};

use crate::checks::{all_true, check};
use crate::devices::{Giving, Taking, reader_of, writer_of};
use framed_lib::arguments::Mode;
use framed_lib::run::run;
use line_io::memory::{In, Out};
use line_io::{End, Inlet, Reads, Writes, read_to_end, write_all};
use link::{Sender, receive, receive_by_accumulator};
use std::alloc::Global;
use std::io::ErrorKind;

/// Takes all that it is offered.
fn counting_writer() -> Writes<Taking> {
    writer_of(usize::MAX, usize::MAX, None)
}

// What a reader gives.
const LETTERS: [u8; 40000] = [b'a'; 40000];

/// Fills what it is offered, with so many bytes in all.
fn filling_reader(left: usize) -> Reads<Giving<'static>> {
    let letters = LETTERS.get(..left).unwrap_or(&[]);
    reader_of(letters, usize::MAX, usize::MAX, ErrorKind::Other)
}

/// How many writes a run of the program takes, of which each read gives so many bytes.
fn writes_of_run(alloc: Global, mode: Mode, text: &[u8], each: usize) -> usize
    requires { 0 < each }
{
    let mut said = [0u8; 8];
    let reader = In::new(text, each, None);
    let ran = run(
        alloc,
        mode,
        false,
        0,
        reader,
        counting_writer(),
        Out::new(&mut said, 8, None),
    );
    ran.writer.into_inner().calls
}

/// Three frames of texts of a byte, of five bytes each.
const TEXTS: &[u8] = b"\0\x03\x01a\0\0\x03\x01b\0\0\x03\x01c\0";

#[test]
fn pieces_are_offered_whole(rt: HostRuntime) {
    let alloc = rt.alloc();
    let mut line = counting_writer();
    let mut sender = Sender::<_, 8>::new(counting_writer());
    let found = [
        write_all(&mut line, &[1; 300]).is_ok(),
        line.into_inner().calls == 1,
        // the first of two sends has a zero in front
        sender.send(&300u32).is_ok(),
        sender.send(&300u32).is_ok(),
        sender.into_inner().into_inner().calls == 3,
        // lines wait for as many as there is room for
        writes_of_run(alloc, Mode::Pack, b"a\nb\nc\n", 2) == 1,
        // but for no later read where frames are read
        writes_of_run(alloc, Mode::Unpack, TEXTS, 5) == 3,
        writes_of_run(alloc, Mode::Strict, TEXTS, 15) == 1,
    ];
    check(&rt, all_true(found));
}

#[test]
fn rooms_are_offered_whole(rt: HostRuntime) {
    let mut room = [0u8; 8];
    let mut line = filling_reader(7);
    let mut long = filling_reader(40000);
    let mut bytes = Vec::new(rt.alloc());
    let received = receive::<u32, _, 8>(rt.alloc(), filling_reader(3000));
    let gathered = receive_by_accumulator::<u32, _, 8>(rt.alloc(), filling_reader(3000));
    let found = [
        line.read(&mut room[..4]) == Some(4),
        line.read_over(&mut room) == Some(3),
        // 16384 bytes a read, and one that tells the end
        read_to_end(&mut long, &mut bytes) == End::Ended,
        bytes.len() == 40000,
        long.into_inner().calls == 4,
        // 1024
        received.reader.into_inner().calls == 4,
        gathered.reader.into_inner().calls == 4,
    ];
    check(&rt, all_true(found));
}
