//! Message types that are read by their schemas and by themselves: what is read is written again as the same bytes, with as
//! many left after it, and what is refused is refused as the same error. And which numbers their schemas read.
use crate::checks::check_row;
use crate::saying::{say_read, say_refused};
use arrayvec::{ArrayString, ArrayVec};
use example_by_hand::DataEnum;
use example_station::messages::{Command, Packet, SensorReading};
use postcard::fixint::{BE, LE};
use postcard::{Deserialize, Serialize, to_slice};
use schemas::{HasSchema, schema_of, take_from_bytes};
use std::alloc::{AllocError, Global};
use std::process::Abort;

// As deep as the table of each of these types is long, or deeper.
const DEPTH: u32 = 64;

// What was read, written again, and how many bytes are left after it.
fn say_again<T: Serialize>(alloc: Global, read: &T, left: usize) -> Result<String, AllocError> {
    let mut room = [0u8; 32];
    match to_slice(read, &mut room) {
        Ok(written) => {
            let written: &[u8] = written;
            let digits = hex::encode(alloc, written)?;
            format!(in alloc; "{digits} +{left}")
        }
        Err(cause) => say_refused(alloc, cause),
    }
}

fn by_schema<T: HasSchema>(alloc: Global, bytes: &[u8]) -> Result<String, AllocError> {
    let (nodes, place) = schema_of::<T>(alloc)?;
    match take_from_bytes(alloc, &nodes, place, DEPTH, bytes) {
        Ok((value, rest)) => say_again(alloc, &value, rest.len()),
        Err(cause) => say_refused(alloc, cause),
    }
}

fn by_type<'a, T: Deserialize<&'a [u8]> + Serialize + Drop>(
    alloc: Global,
    bytes: &'a [u8],
) -> Result<String, AllocError> {
    match postcard::take_from_bytes::<T>(alloc, bytes) {
        Ok((value, rest)) => say_again(alloc, &value, rest.len()),
        Err(cause) => say_refused(alloc, cause),
    }
}

fn is_said(line: Result<String, AllocError>, wanted: &str) -> bool {
    match line {
        Ok(line) => line.as_str() == wanted,
        Err(_) => false,
    }
}

// Bytes, and what is said of them.
type Row<'a> = (&'a [u8], &'a str);

fn check_type<'a, T: HasSchema + Deserialize<&'a [u8]> + Serialize + Drop>(
    rt: &impl Abort,
    alloc: Global,
    rows: &[Row<'a>],
) {
    for (bytes, wanted) in rows {
        let by_both = is_said(by_schema::<T>(alloc, bytes), wanted)
            && is_said(by_type::<T>(alloc, bytes), wanted);
        check_row(rt, wanted, by_both);
    }
}

const READINGS: [Row<'static>; 5] = [
    (&[0xAC, 2, 1, 1, 1], "ac02010101 +0"),
    (&[7, 0, 0x29, 1, 0xFF], "07002901 +1"),
    (&[0x87, 0, 0, 0x29, 1], "07002901 +0"),
    (&[7, 0, 0x29, 2], "!DeserializeBadBool"),
    (&[7, 0, 0x29], "!DeserializeUnexpectedEnd"),
];

#[test]
fn a_struct(rt: HostRuntime) {
    check_type::<SensorReading>(&rt, rt.alloc(), &READINGS);
}

const COMMANDS: [Row<'static>; 6] = [
    (&[0, 9], "00 +1"),
    (&[2, 1, 2], "020102 +0"),
    (&[4, 2, 0x68, 0x69], "04026869 +0"),
    (&[5, 1, 0xAC, 2, 1, 1, 1], "0501ac02010101 +0"),
    (&[5, 2, 0xAC, 2, 1, 1, 1], "!DeserializeUnexpectedEnd"),
    (&[6], "!SerdeDeCustom"),
];

#[test]
fn an_enum(rt: HostRuntime) {
    check_type::<Command>(&rt, rt.alloc(), &COMMANDS);
}

const PACKETS: [Row<'static>; 3] = [
    (&[7, 2, 0x48, 0x69, 1, 9], "070248690109 +0"),
    (&[7, 1, 0xFF, 0], "!DeserializeBadUtf8"),
    (&[7, 0, 2, 9], "!DeserializeUnexpectedEnd"),
];

#[test]
fn what_lies_where_it_was_read(rt: HostRuntime) {
    check_type::<Packet>(&rt, rt.alloc(), &PACKETS);
}

// Lines of the vectors.
const BY_HAND: [Row<'static>; 4] = [
    (&[0, 0xFF, 3], "00ff03 +0"),
    (&[3, 0x0F, 0x29], "030f29 +0"),
    (&[5, 0xB3, 0x0A, 0x15, 0x91], "05b30a15 +1"),
    (&[0x1B], "!SerdeDeCustom"),
];

#[test]
fn an_enum_by_hand(rt: HostRuntime) {
    check_type::<DataEnum>(&rt, rt.alloc(), &BY_HAND);
}

// Types whose numbers have an order of bytes, and whose texts and lists have a maximum length.
type Bounded = (LE<u32>, ArrayVec<u8, 2>, ArrayString<3>, BE<i16>);

const BOUNDED: [Row<'static>; 3] = [
    (
        &[1, 0, 0, 0, 1, 7, 2, 0x61, 0x62, 0xFF, 0xFE],
        "010000000107026162fffe +0",
    ),
    (&[1, 0, 0, 0, 3, 7, 8, 9], "!SerdeDeCustom"),
    (
        &[1, 0, 0, 0, 0, 4, 0x61, 0x61, 0x61, 0x61],
        "!SerdeDeCustom",
    ),
];

#[test]
fn of_lengths_and_orders(rt: HostRuntime) {
    check_type::<Bounded>(&rt, rt.alloc(), &BOUNDED);
}

// Which values a schema reads. Trees don't distinguish a number from a signed one of as many bits, nor the orders of bytes.
fn values_of<T: HasSchema>(alloc: Global, bytes: &[u8]) -> Result<String, AllocError> {
    let (nodes, place) = schema_of::<T>(alloc)?;
    match take_from_bytes(alloc, &nodes, place, DEPTH, bytes) {
        Ok((value, rest)) => say_read(alloc, &value, rest.len()),
        Err(cause) => say_refused(alloc, cause),
    }
}

fn check_values<T: HasSchema>(rt: &impl Abort, alloc: Global, (bytes, wanted): Row<'_>) {
    check_row(rt, wanted, is_said(values_of::<T>(alloc, bytes), wanted));
}

type Narrow = (u8, i8, u16, i16, u32, i32);

const NARROW: Row<'static> = (
    &[0xFE, 0xFE, 0xFE, 0xFF, 3, 3, 0xFE, 0xFF, 0xFF, 0xFF, 15, 3],
    "(254,-2,65534,-2,4294967294,-2) +0",
);

type Wide = (u64, i64, u128, i128, usize, isize);

const WIDE: Row<'static> = (&[3, 3, 3, 3, 3, 3, 9], "(3,-2,3,-2,3,-2) +1");

type Little = (LE<u16>, LE<i16>, LE<u32>, LE<i32>, LE<u64>, LE<i64>);

const LITTLE: Row<'static> = (
    &[
        0, 0x80, 0, 0x80, 0, 0, 0, 0x80, 0, 0, 0, 0x80, 0, 0, 0, 0, 0, 0, 0, 0x80, 0, 0, 0, 0, 0,
        0, 0, 0x80,
    ],
    "(32768,-32768,2147483648,-2147483648,9223372036854775808,-9223372036854775808) +0",
);

type Big = (LE<u128>, LE<i128>, BE<u16>, BE<i16>);

const BIG: Row<'static> = (
    &[
        1, 0, 0, 0, 0, 0, 0, 0, 0, 0, 0, 0, 0, 0, 0, 0, 0xFE, 0xFF, 0xFF, 0xFF, 0xFF, 0xFF, 0xFF,
        0xFF, 0xFF, 0xFF, 0xFF, 0xFF, 0xFF, 0xFF, 0xFF, 0xFF, 0x80, 0, 0x80, 0,
    ],
    "(1,-2,32768,-32768) +0",
);

#[test]
fn which_numbers(rt: HostRuntime) {
    let alloc = rt.alloc();
    check_values::<Narrow>(&rt, alloc, NARROW);
    check_values::<Wide>(&rt, alloc, WIDE);
    check_values::<Little>(&rt, alloc, LITTLE);
    check_values::<Big>(&rt, alloc, BIG);
}
