//! Framed readers: every answer, ordinarily and strictly, by any sentinel and limit, in chunks of any length.
use crate::checks::check;
use crate::codec::checks::{Heard, letter, next};
use crate::codec::lines::{Line, Pieces};
use bytes::BytesMut;
use futures::task::Poll;
use futures::test::MockTask;
use link::Answer;
use link_codec::{DecodeError, LinkDecoder, StrictOwnedLinkDecoder, answers_at_once};
use std::alloc::AllocGlobal;
use std::random::RandomSource;
use tokio_util::codec::{Decoder, FramedRead};

// With a limit of four bytes: nothing, a, c with a byte after it, a prefix of a text, five bytes, b, and one that is cut.
const LINE: [u8; 25] = [
    0, 3, 1, 0x61, 0, 4, 1, 0x63, 7, 0, 2, 1, 0, 5, 9, 2, 3, 4, 0, 3, 1, 0x62, 0, 3, 1,
];

// The same where the sentinel is 0A.
const MARKED: [u8; 25] = [
    0x0A, 0x09, 0x0B, 0x6B, 0x0A, 0x0E, 0x0B, 0x69, 0x0D, 0x0A, 0x08, 0x0B, 0x0A, 0x0F, 0x03, 0x08,
    0x09, 0x0E, 0x0A, 0x09, 0x0B, 0x68, 0x0A, 0x09, 0x0B,
];

type Short = LinkDecoder<String, 4>;

// What is received up to the second end, with a + where a poll that waits leaves bytes in the buffer; nothing where no memory was found
// for the reader.
fn hear<R, D>(rt: &R, line: Line, decoder: D) -> Heard
where
    R: RandomSource + AllocGlobal,
    D: Decoder<Item = Answer<String>, Error = DecodeError> + Drop,
{
    let mut heard = Heard::new();
    let Ok(task) = MockTask::new(rt) else {
        return heard;
    };
    let Ok(mut answers) = FramedRead::new(rt.alloc(), line, decoder) else {
        return heard;
    };
    for _ in 0..64 {
        let letter = letter(next(&task, &mut answers));
        heard.push(letter);
        if letter == b'_' && !answers.read_buffer().is_empty() {
            heard.push(b'+');
        }
        if heard.ends == 2 {
            break;
        }
    }
    heard
}

/// What is received with a limit of four bytes.
pub fn hear_short<R: RandomSource + AllocGlobal>(rt: &R, line: Line) -> Heard {
    hear(rt, line, Short::new())
}

/// What is received strictly, under a limit that is set at run time; nothing where no memory was found for the decoder.
pub fn hear_strictly<R: RandomSource + AllocGlobal>(
    rt: &R,
    line: Line,
    limit: usize,
    sentinel: u8,
) -> Option<Heard> {
    match StrictOwnedLinkDecoder::new(rt.alloc(), limit, sentinel) {
        Ok(decoder) => Some(hear(rt, line, decoder)),
        Err(_) => None,
    }
}

// What is received where so many reads of one byte go well before one fails: the answers so far, the fault, an end, and the rest. After
// the last byte the next read ends the line, and the one after it ends it again.
fn behind(calls: usize) -> &'static [u8] {
    match calls {
        0..=4 => b"#.ac?>b-.",
        5..=9 => b"a#.c?>b-.",
        10..=12 => b"ac#.?>b-.",
        13..=17 => b"ac?#.>b-.",
        18..=22 => b"ac?>#.b-.",
        23..=25 => b"ac?>b#.-.",
        26 => b"ac?>b-.#.",
        _ => b"ac?>b-..",
    }
}

// Whether all is received in chunks of any length; and byte by byte with polls that wait, on after a fault.
fn is_heard<R: RandomSource + AllocGlobal>(rt: &R) -> bool {
    for seed in 0..24u8 {
        let pieces = Pieces::new(seed, seed, false, None);
        let heard = hear_short(
            rt,
            Line {
                bytes: &LINE,
                pieces,
            },
        );
        if !heard.letters.is(b"ac?>b-..") || heard.waits != 0 {
            return false;
        }
    }
    for calls in 0..28 {
        let pieces = Pieces::new(1, 0, true, Some(calls));
        let heard = hear_short(
            rt,
            Line {
                bytes: &LINE,
                pieces,
            },
        );
        // one before each byte, one before the end, and one before the fault or the second end
        if !heard.letters.is(behind(calls)) || heard.waits != 27 {
            return false;
        }
    }
    true
}

// Whether the marked line is received strictly, in chunks of any length; under a limit of five bytes in the last ones.
fn is_heard_strictly<R: RandomSource + AllocGlobal>(rt: &R) -> bool {
    for seed in 0..25u8 {
        let (limit, seed, wanted) = match seed {
            24 => (5, 9, b"a???b-.."),
            _ => (4, seed, b"a??>b-.."),
        };
        let pieces = Pieces::new(seed, seed, false, None);
        match hear_strictly(
            rt,
            Line {
                bytes: &MARKED,
                pieces,
            },
            limit,
            0x0A,
        ) {
            Some(heard) if heard.letters.is(wanted) => {}
            _ => return false,
        }
    }
    true
}

#[test]
fn in_pieces_and_on_behind_a_fault(rt: HostRuntime) {
    check(&rt, is_heard(&rt) && is_heard_strictly(&rt));
}

// What is received of the line by one poll, under a limit that is set at run time.
fn collect<R: RandomSource + AllocGlobal>(rt: &R, limit: usize) -> Heard {
    let mut heard = Heard::new();
    if let Ok(Some(items)) = answers_at_once::<String, _>(rt, &LINE, limit, 0) {
        for item in items {
            heard.push(letter(Poll::Ready(Some(item))));
        }
    }
    heard
}

// By the limit.
const COLLECTED: [&[u8]; 6] = [
    b">>>>>>", b">>>>>>", b">>?>>-", b"a>?>b-", b"ac?>b-", b"ac??b-",
];

#[test]
fn by_a_limit_that_is_a_value(rt: HostRuntime) {
    for limit in 0..6usize {
        check(&rt, collect(&rt, limit).letters.is(COLLECTED[limit]));
    }
}

// Whether a decoder answers so, with so many bytes left in the buffer, for which it asks for no more room.
fn decodes(decoder: &mut Short, line: &mut BytesMut, wanted: u8, left: usize) -> bool {
    let room = line.capacity();
    letter(Poll::Ready(decoder.decode(line).transpose())) == wanted
        && line.len() == left
        && line.capacity() <= room
}

// The same at the end, where none is left.
fn ends(decoder: &mut Short, line: &mut BytesMut, wanted: u8) -> bool {
    letter(Poll::Ready(decoder.decode_eof(line).transpose())) == wanted && line.is_empty()
}

// Whether bytes of a stretch that has too many are taken and not kept, four times; nothing is cut off by the end; and what comes after an
// end is answered as by a decoder that was given nothing.
fn skips_and_begins_anew(decoder: &mut Short, line: &mut BytesMut) -> bool {
    for _ in 0..4 {
        if !decodes(decoder, line, b'.', 0) || line.extend_from_slice(&[7u8; 4096]).is_err() {
            return false;
        }
    }
    ends(decoder, line, b'.')
        && line.extend_from_slice(&[9, 1]).is_ok()
        && ends(decoder, line, b'-')
        && ends(decoder, line, b'.')
        && line.extend_from_slice(&[3, 1, 0x61, 0]).is_ok()
        && ends(decoder, line, b'a')
}

#[test]
fn skips_what_is_too_long_and_begins_anew_behind_the_end(rt: HostRuntime) {
    let mut decoder = Short::new();
    let mut line = BytesMut::new(rt.alloc());
    let is_right = line.extend_from_slice(&[7u8; 4096]).is_ok()
        && decodes(&mut decoder, &mut line, b'>', 4091)
        && skips_and_begins_anew(&mut decoder, &mut line);
    check(&rt, is_right);
}
