//! Calls of `postcard` over the station's messages and any others.
use crate::messages::SensorReading;
use postcard::accumulator::{Advanced, CobsAccumulator};
use postcard::{MapAccess, Result, Serialize, de_flavors, spell_into, take_from_bytes_cobs};
use std::alloc::Global;

/// Reads the reading of the first frame, and returns it with the frames after it.
pub fn first_reading<'a>(
    alloc: Global,
    frames: &'a mut [u8],
) -> Result<(SensorReading, &'a mut [u8])> {
    take_from_bytes_cobs::<SensorReading>(alloc, frames)
}

/// Takes bytes, and returns the last one of a frame's message, if a frame has ended.
pub fn last_byte<const N: usize>(accumulator: &mut CobsAccumulator<N>, input: &[u8]) -> Option<u8> {
    match accumulator.advance(input) {
        Advanced::Message { message, .. } => message.last().copied(),
        Advanced::Consumed | Advanced::OverFull(_) | Advanced::Damaged(_) => None,
    }
}

/// Returns whether a value fits a buffer, at the start of which it is then.
pub fn fits_into<T: Serialize>(value: &T, buffer: &mut [u8]) -> bool {
    spell_into(value, buffer).is_some()
}

/// Returns how many keys of a map are left.
pub fn keys_left<F: de_flavors::Flavor>(map: &MapAccess<'_, F>) -> Option<usize> {
    map.size_hint()
}
