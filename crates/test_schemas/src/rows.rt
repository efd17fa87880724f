//! Lines of the vectors: what is read, what is written again, and what is refused.
use crate::checks::{check_row, is_written_as};
use crate::saying::{say_read, say_refused};
use crate::table::{
    ARRAY, BE_I64, BE_U16, BOOL, BYTES, CHAR, DEPTH, ENUM, I8, I16, I32, I64, I128, LE_I32, LE_U16,
    LE_U128, LIST, MAP, NESTED, OPTION, OPTION_TWICE, PAIRS, RESULT, SHORT_LIST, SHORT_TEXT, TEXT,
    TUPLE, U8, U16, U32, U64, U128, table,
};
use schemas::{Node, take_from_bytes};
use std::alloc::{AllocError, Global};
use std::process::Abort;

// What a row's bytes are read as, or why they are refused, in the words of the vectors.
fn answer(alloc: Global, nodes: &[Node], place: usize, digits: &str) -> Result<String, AllocError> {
    let Ok(bytes) = hex::decode(alloc, digits) else {
        return Err(AllocError);
    };
    match take_from_bytes(alloc, nodes, place, DEPTH, &bytes) {
        Ok((value, rest)) => say_read(alloc, &value, rest.len()),
        Err(cause) => say_refused(alloc, cause),
    }
}

fn is_answered(alloc: Global, nodes: &[Node], place: usize, digits: &str, wanted: &str) -> bool {
    match answer(alloc, nodes, place, digits) {
        Ok(line) => line.as_str() == wanted,
        Err(_) => false,
    }
}

// Whether what these bytes are read as is written as those.
fn is_written_again(
    alloc: Global,
    nodes: &[Node],
    place: usize,
    bytes: &[u8],
    wanted: &[u8],
) -> bool {
    match take_from_bytes(alloc, nodes, place, DEPTH, bytes) {
        Ok((value, _)) => is_written_as(alloc, &value, wanted),
        Err(_) => false,
    }
}

// The type, the bytes as digits, and the words of the vectors or the expected bytes.
type Row = (usize, &'static str, &'static str);

fn check_answers(rt: &impl Abort, alloc: Global, rows: &[Row]) {
    let nodes = table(alloc).expect(rt, "a table");
    for (place, digits, wanted) in rows {
        check_row(
            rt,
            digits,
            is_answered(alloc, &nodes, *place, digits, wanted),
        );
    }
}

fn check_written(rt: &impl Abort, alloc: Global, rows: &[Row]) {
    let nodes = table(alloc).expect(rt, "a table");
    for (place, digits, wanted) in rows {
        let bytes = hex::decode(alloc, digits).expect(rt, "bytes");
        let wanted = hex::decode(alloc, wanted).expect(rt, "bytes");
        check_row(
            rt,
            digits,
            is_written_again(alloc, &nodes, *place, &bytes, &wanted),
        );
    }
}

const NUMBERS: [Row; 8] = [
    (BOOL, "0041", "false +1"),
    (BOOL, "0104", "true +1"),
    (U8, "fe", "254 +0"),
    (U8, "0313", "3 +1"),
    (I8, "3f", "63 +0"),
    (I8, "8b", "-117 +0"),
    (U16, "feff03", "65534 +0"),
    (U16, "bdcc0314d2", "58941 +2"),
];

#[test]
fn numbers(rt: HostRuntime) {
    check_answers(&rt, rt.alloc(), &NUMBERS);
}

const WIDE_NUMBERS: [Row; 8] = [
    (U32, "ffffffff0f", "4294967295 +0"),
    (U32, "80808001", "2097152 +0"),
    (U64, "feffffffffffffffff01", "18446744073709551614 +0"),
    (U64, "00", "0 +0"),
    (
        U128,
        "ffffffffffffffffffffffffffffffffffff03",
        "340282366920938463463374607431768211455 +0",
    ),
    (U128, "0280", "2 +1"),
    (I16, "ffff03", "-32768 +0"),
    (I16, "828002", "16385 +0"),
];

#[test]
fn wide_numbers(rt: HostRuntime) {
    check_answers(&rt, rt.alloc(), &WIDE_NUMBERS);
}

const SIGNED_NUMBERS: [Row; 8] = [
    (I32, "fcffffff0f", "2147483646 +0"),
    (I32, "8102", "-129 +0"),
    (I64, "fdffffffffffffff7f", "-4611686018427387903 +0"),
    (I64, "54", "42 +0"),
    (
        I128,
        "ffffffffffffffffffffffffffffffffffff03",
        "-170141183460469231731687303715884105728 +0",
    ),
    (I128, "fe7f", "8191 +0"),
    (CHAR, "03e0a080", "U+0800 +0"),
    (CHAR, "0161ff", "U+0061 +1"),
];

#[test]
fn signed_numbers(rt: HostRuntime) {
    check_answers(&rt, rt.alloc(), &SIGNED_NUMBERS);
}

const TEXTS_AND_OPTIONS: [Row; 7] = [
    (TEXT, "03486921", "s(486921) +0"),
    (TEXT, "000bd9435563e2a0846e7d1d41", "s() +12"),
    (BYTES, "030d02ff4a", "[13,2,255] +1"),
    (BYTES, "00a6", "[] +1"),
    (OPTION, "0004", "none +1"),
    (OPTION, "01efc8", "some(239) +1"),
    (OPTION_TWICE, "010101", "some(some(true)) +0"),
];

#[test]
fn texts_and_options(rt: HostRuntime) {
    check_answers(&rt, rt.alloc(), &TEXTS_AND_OPTIONS);
}

const LISTS_AND_TUPLES: [Row; 7] = [
    (OPTION_TWICE, "0100", "some(none) +0"),
    (LIST, "0400000001b5a9785f81", "[false,false,false,true] +5"),
    (ARRAY, "0100013af5", "(some(0),some(58)) +1"),
    (
        PAIRS,
        "049b331be6a2010544ac9606",
        "[(155,51),(27,20838),(5,68),(172,790)] +0",
    ),
    (
        TUPLE,
        "00020116dde389d00b",
        "(false,1,U+0016,3120722397) +0",
    ),
    (
        TUPLE,
        "01a2e90203e8adb08fe7a088b7ad15",
        "(true,23121,U+8B70,93919946224527) +0",
    ),
    (RESULT, "00ff", "0:() +1"),
];

#[test]
fn lists_and_tuples(rt: HostRuntime) {
    check_answers(&rt, rt.alloc(), &LISTS_AND_TUPLES);
}

const VARIANTS_AND_MAPS: [Row; 7] = [
    (RESULT, "0103486921d394b0", "1:s(486921) +3"),
    (ENUM, "00ff03", "0:511 +0"),
    (ENUM, "030f29", "3:(15,41) +0"),
    (ENUM, "05b30a1591", "5:(1331,21) +1"),
    (
        NESTED,
        "010201885579000303292b70",
        "some([1:(10888,121),0:(3,s(292b70))]) +0",
    ),
    (NESTED, "0003", "none +1"),
    (
        MAP,
        "020004737a6f481c014f",
        "[(0,s(737a6f48)),(28,s(4f))] +0",
    ),
];

#[test]
fn variants_and_maps(rt: HostRuntime) {
    check_answers(&rt, rt.alloc(), &VARIANTS_AND_MAPS);
}

// By the rules of the format: the bytes of an integer as they are, a count and what it counts.
const BOUNDED: [Row; 11] = [
    (LE_U16, "cdab", "43981 +0"),
    (BE_U16, "abcdff", "43981 +1"),
    (LE_I32, "feffffff", "-2 +0"),
    (BE_I64, "8000000000000001", "-9223372036854775807 +0"),
    (
        LE_U128,
        "00000000000000000000000000000080",
        "170141183460469231731687303715884105728 +0",
    ),
    (SHORT_LIST, "020100", "[true,false] +0"),
    (SHORT_LIST, "000301", "[] +2"),
    (SHORT_LIST, "820001001f", "[true,false] +1"),
    (SHORT_TEXT, "03486921", "s(486921) +0"),
    (SHORT_TEXT, "02c3a94a", "s(c3a9) +1"),
    (SHORT_TEXT, "00", "s() +0"),
];

#[test]
fn bounded(rt: HostRuntime) {
    check_answers(&rt, rt.alloc(), &BOUNDED);
}

const REFUSED_BOUNDED: [Row; 10] = [
    (LE_U16, "cd", "!DeserializeUnexpectedEnd"),
    (BE_I64, "80000000000000", "!DeserializeUnexpectedEnd"),
    (SHORT_LIST, "03010001", "!SerdeDeCustom"),
    (SHORT_LIST, "030100", "!DeserializeUnexpectedEnd"),
    (SHORT_LIST, "03010006", "!DeserializeBadBool"),
    (SHORT_LIST, "030600", "!DeserializeBadBool"),
    (SHORT_LIST, "ffffffffffffffffff21", "!DeserializeBadVarint"),
    (SHORT_TEXT, "0441424344", "!SerdeDeCustom"),
    (SHORT_TEXT, "04414243", "!DeserializeUnexpectedEnd"),
    (SHORT_TEXT, "04ff414243", "!DeserializeBadUtf8"),
];

#[test]
fn refused_bounded(rt: HostRuntime) {
    check_answers(&rt, rt.alloc(), &REFUSED_BOUNDED);
}

const REFUSED_LEAVES: [Row; 8] = [
    (BOOL, "06", "!DeserializeBadBool"),
    (BOOL, "", "!DeserializeUnexpectedEnd"),
    (U8, "", "!DeserializeUnexpectedEnd"),
    (I8, "", "!DeserializeUnexpectedEnd"),
    (U16, "ffff93", "!DeserializeBadVarint"),
    (U16, "8081", "!DeserializeUnexpectedEnd"),
    (U32, "bfd9cea68e", "!DeserializeBadVarint"),
    (U64, "ffffffffffffffffff21", "!DeserializeBadVarint"),
];

#[test]
fn refused_leaves(rt: HostRuntime) {
    check_answers(&rt, rt.alloc(), &REFUSED_LEAVES);
}

const REFUSED_NUMBERS: [Row; 8] = [
    (
        U128,
        "ffffffffffffffffffffffffffffffffffffff07",
        "!DeserializeBadVarint",
    ),
    (I16, "8181ff", "!DeserializeBadVarint"),
    (I32, "80808080807f", "!DeserializeBadVarint"),
    (I64, "81818181818181818107", "!DeserializeBadVarint"),
    (
        I128,
        "8080808080808080808080808080808080808002",
        "!DeserializeBadVarint",
    ),
    (CHAR, "07", "!DeserializeBadChar"),
    (TEXT, "0356a03a", "!DeserializeBadUtf8"),
    (BYTES, "0d", "!DeserializeUnexpectedEnd"),
];

#[test]
fn refused_numbers(rt: HostRuntime) {
    check_answers(&rt, rt.alloc(), &REFUSED_NUMBERS);
}

const REFUSED_PARTS: [Row; 8] = [
    (OPTION, "0d", "!DeserializeBadOption"),
    (LIST, "0403", "!DeserializeBadBool"),
    (ARRAY, "0101", "!DeserializeUnexpectedEnd"),
    (TUPLE, "0156ff03e69290d4bd28", "!DeserializeBadChar"),
    (RESULT, "0101b0", "!DeserializeBadUtf8"),
    (ENUM, "1b", "!SerdeDeCustom"),
    (NESTED, "01ff018613a48401fa", "!SerdeDeCustom"),
    (MAP, "010107ff74205e212f7ad43b", "!DeserializeBadUtf8"),
];

#[test]
fn refused_parts(rt: HostRuntime) {
    check_answers(&rt, rt.alloc(), &REFUSED_PARTS);
}

const LEAVES_WRITTEN_AGAIN: [Row; 7] = [
    (BOOL, "01", "01"),
    (U8, "80", "80"),
    (I8, "8b", "8b"),
    (CHAR, "03eca8a7", "03eca8a7"),
    (TEXT, "83004869211f", "03486921"),
    (BYTES, "02250e", "02250e"),
    (OPTION, "0004", "00"),
];

#[test]
fn leaves_written_again(rt: HostRuntime) {
    check_written(&rt, rt.alloc(), &LEAVES_WRITTEN_AGAIN);
}

const NUMBERS_WRITTEN_AGAIN: [Row; 8] = [
    (U16, "a203", "a203"),
    (U32, "ffffff7f", "ffffff7f"),
    (U64, "808080808080808001", "808080808080808001"),
    (U128, "818001", "818001"),
    (I16, "ffff03", "ffff03"),
    (I32, "8102", "8102"),
    (I64, "fdff01", "fdff01"),
    (I128, "ff01", "ff01"),
];

#[test]
fn numbers_written_again(rt: HostRuntime) {
    check_written(&rt, rt.alloc(), &NUMBERS_WRITTEN_AGAIN);
}

const BOUNDED_WRITTEN_AGAIN: [Row; 7] = [
    (LE_U16, "cdab", "cdab"),
    (BE_U16, "abcd", "abcd"),
    (LE_I32, "feffffff", "feffffff"),
    (BE_I64, "8000000000000001", "8000000000000001"),
    (
        LE_U128,
        "000102030405060708090a0b0c0d0e0f",
        "000102030405060708090a0b0c0d0e0f",
    ),
    (SHORT_LIST, "820001001f", "020100"),
    (SHORT_TEXT, "8300486921", "03486921"),
];

#[test]
fn bounded_written_again(rt: HostRuntime) {
    check_written(&rt, rt.alloc(), &BOUNDED_WRITTEN_AGAIN);
}

const PARTS_WRITTEN_AGAIN: [Row; 5] = [
    (ARRAY, "013a011f", "013a011f"),
    (PAIRS, "8200198703008300", "021987030003"),
    (RESULT, "8100013105", "010131"),
    (
        NESTED,
        "010201885579000303292b70",
        "010201885579000303292b70",
    ),
    (MAP, "020004737a6f481c014f", "020004737a6f481c014f"),
];

#[test]
fn parts_written_again(rt: HostRuntime) {
    check_written(&rt, rt.alloc(), &PARTS_WRITTEN_AGAIN);
}
