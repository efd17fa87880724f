//! The calls of `postcard` for one record as C functions.
//!
//! The record, of which most calls are, is a `u32`, a `u64`, a text, perhaps a `u16`, and a list of `u16`.
ghost use Rattle.std.specs.Prelude.{◌≤◌, length};

use crate::answers::{Answer, Found, NONE_FOUND, Parts, REFUSED};
use postcard::accumulator::{CobsAccumulator, FeedResult};
use std::alloc::Global;
use std::slice;

/// The record as it is read from a stream.
pub(crate) type Owned = (u32, u64, String, Option<u16>, Vec<u16>);

/// The sum of a list.
pub(crate) fn total(list: &[u16]) -> u64 {
    let mut sum = 0u64;
    for item in list {
        sum = sum.wrapping_add(u64::from(*item));
    }
    sum
}

/// Writes the record by `postcard::to_slice`. It isn't done if the text isn't UTF-8 or the record doesn't fit.
#[unsafe(no_mangle)]
pub extern "C" fn postcard_c_write(
    number: u32,
    big: u64,
    text: &[u8],
    has: bool,
    perhaps: u16,
    list: &[u16],
    room: &mut [u8],
) -> Answer
    ensures within { result.count ≤ length room.old }
{
    let Ok(text) = std::str::from_utf8(text) else {
        return REFUSED;
    };
    let record = (
        number,
        big,
        text,
        if has { Some(perhaps) } else { None },
        list,
    );
    match postcard::to_slice(&record, room) {
        Ok(front) => Answer {
            done: true,
            count: front.len(),
        },
        Err(_) => REFUSED,
    }
}

/// Reads the record by `postcard::from_bytes`, and drops it again. Returns whether there is one.
#[unsafe(no_mangle)]
pub extern "C" fn postcard_c_read(alloc: Global, source: &[u8], parts: &mut Parts) -> bool {
    match postcard::from_bytes::<(u32, u64, &str, Option<u16>, Vec<u16>)>(alloc, source) {
        Ok((number, big, text, perhaps, list)) => {
            *parts = Parts {
                number,
                big,
                text_len: text.len(),
                has: perhaps.is_some(),
                perhaps: perhaps.unwrap_or(0),
                list_len: list.len(),
                sum: total(&list),
            };
            true
        }
        Err(_) => false,
    }
}

/// Counts a record: its number, its text's length and the sum of its list.
pub(crate) fn count_record(record: Owned, found: &mut Found) {
    let (number, _, text, _, list) = record;
    found.values = found.values.wrapping_add(1);
    found.sum = found.sum.wrapping_add(u64::from(number));
    found.sum = found.sum.wrapping_add(text.len() as u64);
    found.sum = found.sum.wrapping_add(total(&list));
}

/// Feeds a chunk, then what is left of it after each result.
#[inline(always)]
fn feed_piece(
    alloc: Global,
    accumulator: &mut CobsAccumulator<512>,
    piece: &[u8],
    found: &mut Found,
) {
    let mut rest = piece;
    for _ in 0..piece.len() {
        if rest.is_empty() {
            return;
        }
        match accumulator.feed::<Owned>(alloc, rest) {
            FeedResult::Consumed => return,
            FeedResult::OverFull(after) | FeedResult::DeserError(after) => {
                found.refused = found.refused.wrapping_add(1);
                rest = after;
            }
            FeedResult::Success { value, remaining } => {
                count_record(value, found);
                rest = remaining;
            }
        }
    }
}

/// Feeds a stream in chunks of `piece` bytes to a `CobsAccumulator<512>`, and counts the results; the sum is over the records. Nothing is
/// found if `piece` is 0. Chunks of one byte are compiled by themselves, as in the peers.
#[unsafe(no_mangle)]
pub extern "C" fn postcard_c_stream(alloc: Global, stream: &[u8], piece: usize, found: &mut Found) {
    let mut accumulator: CobsAccumulator<512> = CobsAccumulator::new();
    let mut counts = NONE_FOUND;
    if piece == 1 {
        for byte in stream {
            feed_piece(alloc, &mut accumulator, slice::from_ref(byte), &mut counts);
        }
    } else if piece > 0 {
        for bytes in stream.chunks(piece) {
            feed_piece(alloc, &mut accumulator, bytes, &mut counts);
        }
    }
    *found = counts;
}
