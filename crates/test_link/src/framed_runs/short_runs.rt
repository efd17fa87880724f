//! Runs on short texts, and on texts whose frames are as long as a frame may be.
use crate::checks::{all_true, check, check_at};
use crate::framed_runs::{
    BAD_HEX, FRAMED, FRAMED_HEX, PACK, PACK_HEX, Row, STRETCH, STRICT, STRICT_HEX, UNPACK,
    UNPACK_HEX, UNREAD, VALUES, is_right,
};
use framed_lib::arguments::Mode;
use std::alloc::Global;

const ROWS: [Row<'static>; 31] = [
    // Lines of text: one that is empty, the last one with and without its end, and one that is no text.
    Row {
        text: b"hi\n\nA",
        out: FRAMED_HEX,
        ..PACK_HEX
    },
    Row {
        text: b"hi\n\nA\n",
        out: FRAMED_HEX,
        ..PACK_HEX
    },
    Row {
        text: b"",
        out: b"\n",
        ..PACK_HEX
    },
    Row {
        text: b"hi\n\nA",
        out: FRAMED,
        ..PACK
    },
    Row {
        text: b"",
        out: b"",
        ..PACK
    },
    Row {
        text: b"\xff\nb",
        out: b"\x00\x03\x01b\x00",
        said: b"line 1: refused\n",
        status: 1,
        ..PACK
    },
    // Hexadecimal text: whole lines and none, both cases of digits, an escape, and a byte after a text.
    Row {
        text: FRAMED_HEX,
        out: VALUES,
        ..UNPACK_HEX
    },
    Row {
        text: b"00040268690001010003014100",
        out: VALUES,
        ..UNPACK_HEX
    },
    Row {
        text: b"05035c0a6100",
        out: b"value \\\\\\na\n",
        ..UNPACK_HEX
    },
    Row {
        text: b"05035C0A6100",
        out: b"value \\\\\\na\n",
        ..UNPACK_HEX
    },
    Row {
        text: b"0401626300",
        out: b"value b\n",
        ..UNPACK_HEX
    },
    // Strictly: a text that sending encodes otherwise, after a byte that is no part of it, and one that it encodes so.
    Row {
        text: b"0401626300",
        out: b"damaged\n",
        status: 1,
        ..STRICT_HEX
    },
    Row {
        text: FRAMED,
        out: VALUES,
        ..STRICT
    },
    Row {
        text: b"\x05\x82\x80hi\x00\x04\x02hi\x00",
        out: b"damaged\nvalue hi\n",
        status: 1,
        ..STRICT
    },
    // What is no hexadecimal text.
    Row {
        text: b"0g",
        ..BAD_HEX
    },
    Row {
        text: b"000",
        ..BAD_HEX
    },
    Row {
        text: b"0g",
        mode: Mode::Strict,
        ..BAD_HEX
    },
    // With another sentinel in place of zero.
    Row {
        sentinel: 0x0a,
        text: b"hi",
        out: b"0a0e0862630a\n",
        ..PACK_HEX
    },
    Row {
        sentinel: 0x7e,
        text: b"~\nhi",
        out: b"~}\x7f\x00~z|\x16\x17~",
        ..PACK
    },
    Row {
        sentinel: 0x0a,
        text: b"0a0e0862630a",
        out: b"value hi\n",
        ..UNPACK_HEX
    },
    Row {
        sentinel: 0x7e,
        text: b"~}\x7f\x00~z|\x16\x17~",
        out: b"value ~\nvalue hi\n",
        ..UNPACK
    },
    // So too: a frame that lacks bytes, one after it, and one that nothing ends; a text with a byte after it that is no part
    // of it, and one that sending encodes so.
    Row {
        sentinel: 0x0a,
        text: b"\n\x0f\x62\n\x0e\x08\x62\x63\n\x0e",
        out: b"damaged\nvalue hi\ncut\n",
        status: 1,
        ..UNPACK
    },
    Row {
        sentinel: 0x0a,
        text: b"0e0b68690a0e0862630a",
        out: b"damaged\nvalue hi\n",
        status: 1,
        ..STRICT_HEX
    },
    // Stretches that hold no text, and one that nothing ends.
    Row {
        text: b"\x00\x04\x02hi\x00\x03\x01\x00\x02\xff\x00\x03\x01A",
        out: b"value hi\ndamaged\ndamaged\ncut\n",
        status: 1,
        ..UNPACK
    },
    // A reader that fails.
    Row {
        mode: Mode::Unpack,
        text: b"\x00\x04\x02hi\x00\x04",
        read_fault: Some(7),
        out: b"value hi\n",
        ..UNREAD
    },
    Row {
        mode: Mode::Unpack,
        text: &STRETCH,
        read_fault: Some(1025),
        out: b"too long\n",
        ..UNREAD
    },
    Row {
        mode: Mode::Strict,
        text: b"\x04\x02hi\x00\x04\x01bc\x00\x04",
        read_fault: Some(11),
        out: b"value hi\ndamaged\n",
        ..UNREAD
    },
    Row {
        mode: Mode::Unpack,
        hex: true,
        text: b"00040268690004",
        read_fault: Some(14),
        ..UNREAD
    },
    Row {
        mode: Mode::Strict,
        hex: true,
        text: b"00040268690004",
        read_fault: Some(14),
        ..UNREAD
    },
    Row {
        text: b"hi\n",
        read_fault: Some(3),
        ..UNREAD
    },
    Row {
        hex: true,
        text: b"hi\n",
        read_fault: Some(3),
        ..UNREAD
    },
];

#[test]
fn packs_and_unpacks(rt: HostRuntime) {
    for (at, row) in ROWS.iter().enumerate() {
        check_at(&rt, at, is_right(rt.alloc(), row));
    }
}

/// As many letters as a line can have, and as many zeros; and one more.
const LETTERS: [u8; 1017] = [b'a'; 1017];

const MORE_LETTERS: [u8; 1018] = [b'a'; 1018];

const ZEROS: [u8; 1021] = [0; 1021];

const MORE_ZEROS: [u8; 1022] = [0; 1022];

const TOO_LONG: Row<'static> = Row {
    said: b"line 1: refused\n",
    status: 1,
    ..PACK
};

/// Whether a text is written as these frames, and another one is too long.
fn is_limit<'a>(alloc: Global, text: &'a [u8], out: &'a [u8], longer: &'a [u8]) -> bool {
    let fits = Row { text, out, ..PACK };
    let too_long = Row {
        text: longer,
        ..TOO_LONG
    };
    is_right(alloc, &fits) && is_right(alloc, &too_long)
}

/// A line without zeros takes 1017 bytes at most, each 254 bytes of its frame a byte more. A zero takes one byte of a frame, wherever
/// it stands: 1021 zeros have a frame of 1024 bytes, and 1022 one of 1025. A stretch that is too long is said to be so.
#[test]
fn up_to_the_limit(rt: HostRuntime) {
    let mut letters = [b'a'; 1026];
    letters[..4].copy_from_slice(b"\x00\xff\xf9\x07");
    letters[256] = 255;
    letters[511] = 255;
    letters[766] = 255;
    letters[1021] = 4;
    letters[1025] = 0;
    let mut zeros = [1u8; 1026];
    zeros[..4].copy_from_slice(b"\x00\x03\xfd\x07");
    zeros[1025] = 0;
    let mut stream = [1u8; 1027];
    stream[1025] = 0;
    let too_long = Row {
        text: &stream,
        out: b"too long\ncut\n",
        status: 1,
        ..UNPACK
    };
    let found = [
        is_limit(rt.alloc(), &LETTERS, &letters, &MORE_LETTERS),
        is_limit(rt.alloc(), &ZEROS, &zeros, &MORE_ZEROS),
        is_right(rt.alloc(), &too_long),
    ];
    check(&rt, all_true(found));
}
