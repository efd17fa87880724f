//! `postcard`, writing: published bytes, writers that refuse, and maximum sizes.
use crate::checks::{
    are_equal, begin_with, check, check_all, fails, gives, has_length, is_array, is_slice,
    is_vector,
};
use crate::ser_calls::{holds, serializer};
use arrayvec::{ArrayString, ArrayVec};
use postcard::experimental::max_size::{MaxSize, MaxWritten};
use postcard::experimental::serialized_size;
use postcard::fixint::{BE, LE, be, le};
use postcard::laws::within_greatest;
use postcard::ser_flavors::{AllocVec, Flavor, Slice};
use postcard::{
    Error, Serialize, serialize_with_flavor, to_extend, to_io, to_slice, to_slice_cobs, to_vec,
};
use std::marker::PhantomData;
use std::num::{NonZeroU16, Wrapping};
use std::ops::{Range, RangeInclusive, RangeTo};
use std::rc::Rc;
use std::time::Duration;

#[test]
fn fixed_numbers(rt: HostRuntime) {
    let mut serializer = serializer::<16>();
    check_all(
        &rt,
        [
            le::serialize(&0xABCDu16, &mut serializer).is_ok(),
            be::serialize(&0xABCDu16, &mut serializer).is_ok(),
            LE(-2i16).serialize(&mut serializer).is_ok(),
            BE(-2i16).serialize(&mut serializer).is_ok(),
            holds(
                serializer,
                &[0xCD, 0xAB, 0xAB, 0xCD, 0xFE, 0xFF, 0xFF, 0xFE],
            ),
        ],
    );
}

// No byte behind a value, or behind its frame and the zero, is changed.
#[test]
fn what_is_behind_a_value_stays(rt: HostRuntime) {
    let mut room = [9u8; 8];
    let mut framed = [9u8; 8];
    check_all(
        &rt,
        [
            to_slice(&(300u32, "a"), &mut room).is_ok(),
            are_equal(&room, &[0xAC, 0x02, 1, 97, 9, 9, 9, 9]),
            to_slice_cobs(&300u32, &mut framed).is_ok(),
            are_equal(&framed, &[3, 0xAC, 0x02, 0, 9, 9, 9, 9]),
        ],
    );
}

#[test]
fn vectors(rt: HostRuntime) {
    let is_extended = match to_extend(&true, Vec::new(rt.alloc())) {
        Ok(held) => is_vector(to_extend(&"Hi!", held), &[1, 3, 0x48, 0x69, 0x21]),
        Err(_) => false,
    };
    let mut full: ArrayVec<u8, 1> = ArrayVec::new();
    full.push(7);
    check_all(
        &rt,
        [
            is_extended,
            is_array(to_vec::<_, 2>(&300u32), &[0xAC, 0x02]),
            fails(to_vec::<_, 1>(&300u32), Error::SerializeBufferFull),
            fails(to_extend(&true, full), Error::SerializeBufferFull),
        ],
    );
}

#[test]
fn writers_and_flavors(rt: HostRuntime) {
    let mut lent = Vec::new(rt.alloc());
    let mut room = [0u8; 1];
    let mut flavor = AllocVec::new(rt.alloc());
    check_all(
        &rt,
        [
            to_io(&300u32, &mut lent).is_ok(),
            are_equal(&lent, &[0xAC, 0x02]),
            fails(to_io(&300u32, &mut room[..]), Error::SerializeBufferFull),
            serialize_with_flavor(&300u32, &mut flavor).is_ok(),
            serialize_with_flavor(&true, &mut flavor).is_ok(),
            is_vector(flavor.finalize(), &[0xAC, 0x02, 0x01]),
        ],
    );
}

// 19 times 2^58 bytes at most.
type Long = [u128; 288230376151711744];

// Whether this is the maximum size of a type.
fn is_greatest<T: MaxSize>(size: Option<usize>) -> bool {
    T::postcard_max_size() == size
}

#[test]
fn greatest_sizes(rt: HostRuntime) {
    check_all(
        &rt,
        [
            is_greatest::<(u16, Option<u8>)>(Some(5)),
            is_greatest::<Result<u16, u8>>(Some(4)),
            is_greatest::<Range<u16>>(Some(6)),
            is_greatest::<RangeInclusive<u16>>(Some(6)),
            is_greatest::<RangeTo<NonZeroU16>>(Some(3)),
            is_greatest::<Box<Rc<Wrapping<char>>>>(Some(5)),
            is_greatest::<(Duration, PhantomData<u8>)>(Some(15)),
            is_greatest::<ArrayString<4>>(Some(5)),
            is_greatest::<(&Long, &Long, &Long)>(Some(16429131440647569408)),
            is_greatest::<(&Long, &Long, &Long, &Long)>(None),
        ],
    );
}

// Whether a value of a type with this maximum size takes it.
fn fits<T: MaxWritten>(value: &T, greatest: usize) -> bool {
    within_greatest(value);
    T::postcard_max_size() == Some(greatest) && gives(serialized_size(value), greatest)
}

#[test]
fn greatest_values(rt: HostRuntime) {
    let text = ArrayString::<3>::from("abc").ok().unwrap_or_default();
    check_all(
        &rt,
        [
            fits(&u64::MAX, 10),
            fits(&i32::MIN, 5),
            fits(&(usize::MAX, Some(i8::MIN), ()), 12),
            fits(&[isize::MIN, isize::MIN], 20),
            fits(&Ok::<(u16, u16), u8>((u16::MAX, u16::MAX)), 7),
            fits(&text, 4),
        ],
    );
}

// What is returned is the start of the caller's own slice, and not another part of it.
#[test]
fn the_front_of_the_room(rt: HostRuntime) {
    let mut room = [0xEEu8; 8];
    let mut frame = [0xEEu8; 8];
    check_all(
        &rt,
        [
            has_length(to_slice(&300u16, &mut room), 2),
            begin_with(&room, &[0xAC, 0x02]),
            has_length(to_slice_cobs(&"Hi!", &mut frame), 6),
            begin_with(&frame, &[5, 3, 0x48, 0x69, 0x21, 0]),
        ],
    );
    let mut room = [0xEEu8; 8];
    let mut slice = Slice::new(&mut room);
    check_all(
        &rt,
        [
            slice.try_extend(&[1, 2]).is_ok(),
            slice.try_push(3).is_ok(),
            is_slice(slice.finalize(), &[1, 2, 3]),
            begin_with(&room, &[1, 2, 3]),
        ],
    );
}
