//! `example_station`: its flavor, its calls and its generic code, each once.
use crate::checks::check;
use example_station::bounds::{
    append_twice, are_bounded_and_exact, is_bounded_and_exact, payload, payload_owned, seen_of,
    size_by_form, there_and_back,
};
use example_station::sums::xor_sum;
use example_station::uses::{first_reading, fits_into, keys_left, last_byte};
use postcard::accumulator::CobsAccumulator;
use postcard::{Deserializer, Last, Variant};
use std::alloc::Global;

// The shape of an enum of two variants: nothing, and a number.
type Shape = Variant<(), Last<u16>>;

// Whether a reading is read from the first frame, and a byte is left; the payloads of the second variant are read, borrowing or not; and
// a map of two keys has two left.
fn are_read(alloc: Global) -> bool {
    let mut frames = [4, 1, 2, 3, 2, 1, 0, 9];
    let is_first = match first_reading(alloc, &mut frames) {
        Ok((reading, rest)) => reading.sensor == 1 && rest.len() == 1,
        Err(_) => false,
    };
    let mut d = Deserializer::from_bytes(alloc, &[5, 6]);
    let first = payload::<_, _, Shape>(&mut d, 1);
    let second = payload_owned::<_, Shape>(&mut d, 1);
    let mut d = Deserializer::from_bytes(alloc, &[2, 6]);
    let has_two_keys = match d.deserialize_map() {
        Ok(map) => keys_left(&map) == Some(2),
        Err(_) => false,
    };
    is_first
        && matches!(&first, Ok(Variant::Other(Last::Last(5))))
        && matches!(&second, Ok(Variant::Other(Last::Last(6))))
        && has_two_keys
}

// Whether a byte is read as it was written, and is appended twice.
fn comes_back(alloc: Global) -> bool {
    let mut room = [0u8; 4];
    let is_back = match there_and_back(alloc, &7u8, &mut room) {
        Ok((value, rest)) => value == 7 && rest.is_empty(),
        Err(_) => false,
    };
    match append_twice(&7u8, Vec::new(alloc)) {
        Ok(held) => is_back && held.len() == 2,
        Err(_) => false,
    }
}

// Whether a flavor sums, a value fits into two bytes and not into one, and an accumulator gives a message's last byte.
fn are_used() -> bool {
    let mut accumulator: CobsAccumulator<8> = CobsAccumulator::new();
    xor_sum(&300u16) == Ok(0xAE)
        && fits_into(&300u16, &mut [0; 2])
        && !fits_into(&300u16, &mut [0; 1])
        && last_byte(&mut accumulator, &[3, 1, 8, 0]) == Some(8)
}

#[test]
fn a_flavor_buffers_and_generic_code(rt: HostRuntime) {
    let alloc = rt.alloc();
    let number: Shape = Variant::Other(Last::Last(5));
    are_bounded_and_exact::<Shape>();
    is_bounded_and_exact::<(u8, u16)>();
    let are_right = seen_of(&number) == (Some(1), Some(4), false)
        && size_by_form::<(u8, u16)>() == Some(4)
        && are_used()
        && are_read(alloc)
        && comes_back(alloc);
    check(&rt, are_right);
}
