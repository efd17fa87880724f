//! `postcard_tree`: published numbers, and the limits of each width.
use crate::checks::{all_true, are_equal, begin_with, check, check_all};
use arrayvec::{ArrayString, ArrayVec};
use postcard::{Deserialize, Grows};
use postcard_tree::fixint::{BE, FixInt, LE};
use postcard_tree::varint::{
    VarintInt, max_of_last_byte, varint_max, varint_u16, varint_u32, varint_u64, varint_u128,
    varint_usize,
};
use std::collections::BTreeMap;

// Whether a number of 16 bits is encoded so.
fn spells_short(value: u16, bytes: &[u8]) -> bool {
    are_equal(varint_u16(value, &mut [0; 3]), bytes)
}

// Whether a number of 64 bits is encoded so.
fn spells_long(value: u64, bytes: &[u8]) -> bool {
    are_equal(varint_u64(value, &mut [0; 10]), bytes)
}

#[test]
fn numbers_are_spelled_shortest(rt: HostRuntime) {
    let greatest = [0xFF, 0xFF, 0xFF, 0xFF, 0xFF, 0xFF, 0xFF, 0xFF, 0xFF, 0x01];
    let mut buffer = [0; 3];
    check_all(
        &rt,
        [
            spells_short(16384, &[0x80, 0x80, 0x01]),
            spells_short(42439, &[0xC7, 0xCB, 0x02]),
            spells_long(0, &[0]),
            spells_long(u64::MAX, &greatest),
            are_equal(
                varint_u32(3450549266, &mut [0; 5]),
                &[0x92, 0xE8, 0xAC, 0xED, 0x0C],
            ),
            are_equal(varint_usize(usize::MAX, &mut [0; 10]), &greatest),
            varint_u128(u128::MAX, &mut [0; 19]).len() == 19,
            varint_u16(200, &mut buffer).len() == 2,
            begin_with(&buffer, &[0xC8, 0x01]),
        ],
    );
}

// Whether a number, and so its signed twin, takes so many bytes at most, of which the last one is at most this.
fn has_limits<T: VarintInt, S: VarintInt>(max: usize, last: u8) -> bool {
    let maxima = (varint_max::<T>(), varint_max::<S>());
    let lasts = (max_of_last_byte::<T>(), max_of_last_byte::<S>());
    maxima == (max, max) && lasts == (last, last)
}

// Whether a number's bytes are these from its last one on, and those from its first.
fn is_put<T: FixInt>(value: T, little: &[u8], big: &[u8]) -> bool {
    are_equal(LE(value).put(&mut [0; 16]), little) && are_equal(BE(value).put(&mut [0; 16]), big)
}

#[test]
fn fixed_numbers_are_their_bytes(rt: HostRuntime) {
    let mut fixed = [0; 16];
    check_all(
        &rt,
        [
            is_put(0xABCDu16, &[0xCD, 0xAB], &[0xAB, 0xCD]),
            is_put(-2i16, &[0xFE, 0xFF], &[0xFF, 0xFE]),
            LE::<i16>::from_bytes(&[0xFE, 0xFF]).0 == -2,
            BE::<u16>::from_bytes(&[0xAB, 0xCD]).0 == 0xABCD,
            BE(0xABCDu16).put(&mut fixed).len() == 2,
            begin_with(&fixed, &[0xAB, 0xCD]),
        ],
    );
}

// Whether a number takes so many bytes, and is read back from them both ways.
fn has_size<T: FixInt + PartialEq>(number: T, size: usize) -> bool {
    let mut little = [0; 16];
    let mut big = [0; 16];
    let little = LE(number).put(&mut little);
    let big = BE(number).put(&mut big);
    all_true([
        little.len() == size,
        LE::<T>::from_bytes(little).0 == number,
        BE::<T>::from_bytes(big).0 == number,
    ])
}

#[test]
fn numbers_have_their_limits_and_sizes(rt: HostRuntime) {
    check_all(
        &rt,
        [
            has_limits::<u8, i8>(2, 1),
            has_limits::<u16, i16>(3, 3),
            has_limits::<u32, i32>(5, 15),
            has_limits::<u64, i64>(10, 1),
            has_limits::<usize, isize>(10, 1),
            has_limits::<u128, i128>(19, 3),
            has_size(u16::MAX, 2),
            has_size(u32::MAX - 1, 4),
            has_size(u64::MAX - 2, 8),
            has_size(u128::MAX - 3, 16),
            has_size(i16::MIN, 2),
            has_size(i32::MIN, 4),
            has_size(i64::MIN, 8),
            has_size(i128::MIN, 16),
        ],
    );
}

// Whether a type that can be read asks for memory.
fn grows<'de, T: Deserialize<&'de [u8]>>() -> bool {
    T::grows()
}

#[test]
fn types_that_ask_for_memory(rt: HostRuntime) {
    let plain = [
        grows::<&[u8]>(),
        <(bool, u8, i8, u16, i128, usize)>::grows(),
        <(char, (), &[u8], &str, ArrayString<4>, LE<u32>)>::grows(),
        <[Option<ArrayVec<BE<u16>, 3>>; 2]>::grows(),
    ];
    let growing = [
        grows::<String>(),
        <Vec<u8>>::grows(),
        <Box<u8>>::grows(),
        <BTreeMap<u8, u8>>::grows(),
        <std::result::Result<u8, String>>::grows(),
        <(u8, [Option<Box<u8>>; 2])>::grows(),
    ];
    check(&rt, plain == [false; 4] && growing == [true; 6]);
}
