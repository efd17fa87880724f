//! `postcard_ser`: what the serializer's calls push.
use crate::checks::{check_all, is_array, is_full, succeed};
use postcard_ser::ser_flavors::{Flavor, HVec, IndexByte};
use postcard_ser::{Serialize, Serializer};
use postcard_tree::Error;

/// A serializer over an array.
pub(crate) fn serializer<const N: usize>() -> Serializer<HVec<N>> {
    Serializer {
        output: HVec::new(),
    }
}

/// Whether a serializer's array holds these bytes in the end.
pub(crate) fn holds<const N: usize>(serializer: Serializer<HVec<N>>, bytes: &[u8]) -> bool {
    is_array(serializer.output.finalize(), bytes)
}

fn push_numbers<F: Flavor>(serializer: &mut Serializer<F>) -> bool {
    succeed([
        serializer.serialize_bool(true),
        serializer.serialize_u8(255),
        serializer.serialize_u16(42439),
        serializer.serialize_u32(3450549266),
        serializer.serialize_u64(300),
        serializer.serialize_u128(300),
        serializer.serialize_i8(-1),
        serializer.serialize_i16(-32768),
        serializer.serialize_i32(-1),
        serializer.serialize_i64(-2),
        serializer.serialize_i128(1),
    ])
}

fn push_texts_and_options<F: Flavor>(serializer: &mut Serializer<F>) -> bool {
    succeed([
        serializer.serialize_char('\u{A2}'),
        serializer.serialize_str("Hi!"),
        serializer.serialize_bytes(&[1, 0]),
        serializer.serialize_none(),
        serializer.serialize_some(&5u8),
        serializer.serialize_unit(),
        serializer.serialize_unit_struct(),
        serializer.serialize_newtype_struct(&6u8),
    ])
}

fn push_structs_and_variants<F: Flavor>(serializer: &mut Serializer<F>) -> bool {
    succeed([
        serializer.serialize_struct(1),
        serializer.serialize_field(&7u8),
        serializer.end(),
        serializer.serialize_tuple(1),
        serializer.serialize_element(&8u8),
        serializer.serialize_tuple_struct(1),
        serializer.serialize_field(&9u8),
        serializer.serialize_unit_variant(300),
        serializer.serialize_newtype_variant(1, &u64::MAX),
        serializer.serialize_tuple_variant(5, 2),
        serializer.serialize_field(&0x6969u16),
        serializer.serialize_field(&7u8),
        serializer.serialize_struct_variant(3, 1),
        serializer.serialize_field(&0u8),
        serializer.end(),
    ])
}

fn push_counts<F: Flavor>(serializer: &mut Serializer<F>) -> bool {
    let pushed = [
        serializer.serialize_seq(None),
        serializer.serialize_map(None),
        serializer.serialize_seq(Some(200)),
        serializer.serialize_map(Some(1)),
        serializer.serialize_key(&2u8),
        serializer.serialize_value(&3u8),
    ];
    let unknown = Err(Error::SerializeSeqLengthUnknown);
    pushed == [unknown, unknown, Ok(()), Ok(()), Ok(()), Ok(())] && !serializer.is_human_readable()
}

// What those calls push, in that order.
const PUSHED: [u8; 63] = [
    // numbers
    1, 255, 0xC7, 0xCB, 0x02, 0x92, 0xE8, 0xAC, 0xED, 0x0C, 0xAC, 0x02, 0xAC, 0x02,
    // signed numbers
    0xFF, 0xFF, 0xFF, 0x03, 1, 3, 2,
    // texts
    2, 0xC2, 0xA2, 3, 0x48, 0x69, 0x21, 2, 1, 0,
    // options
    0, 1, 5, 6,
    // structs
    7, 8, 9,
    // variants
    0xAC, 2, 1, 0xFF, 0xFF, 0xFF, 0xFF, 0xFF, 0xFF, 0xFF, 0xFF, 0xFF, 1, 5, 0xE9, 0xD2, 0x01, 7, 3,
    0,
    // counts
    0xC8, 1, 1, 2, 3,
];

#[test]
fn each_call(rt: HostRuntime) {
    let mut serializer = serializer::<64>();
    check_all(
        &rt,
        [
            push_numbers(&mut serializer),
            push_texts_and_options(&mut serializer),
            push_structs_and_variants(&mut serializer),
            push_counts(&mut serializer),
            holds(serializer, &PUSHED),
        ],
    );
}

// Nothing of a number stays if it doesn't fit; of a tuple the parts before it do.
#[test]
fn numbers_are_refused_whole(rt: HostRuntime) {
    let mut numbers = serializer::<2>();
    let mut parts = serializer::<2>();
    check_all(
        &rt,
        [
            is_full(numbers.serialize_u16(16384)),
            numbers.output.held() == 0,
            is_full(numbers.serialize_u64(u64::MAX)),
            numbers.output.held() == 0,
            numbers.serialize_u16(16383).is_ok(),
            holds(numbers, &[0xFF, 0x7F]),
            is_full((1u8, 300u16).serialize(&mut parts)),
            parts.output.held() == 1,
        ],
    );
}
