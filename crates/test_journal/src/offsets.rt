//! The positions of the stretches of a log.

use crate::bytes::{Place, check, holding, is_last, is_place};
use journal::stores::{MemoryStore, put};
use journal_scan::Scan;
use link::Answer;
use std::alloc::Global;

// Two records, a damaged stretch, one of more than five bytes, and one that no zero ends.
const BYTES: [u8; 23] = [
    0, 0, 1, 3, 172, 2, 0, 9, 9, 0, 3, 1, 5, 0, 7, 7, 7, 7, 7, 7, 0, 2, 1,
];

// The position of each that a zero ends, and a record's number.
const PLACES: [(Place, Option<u64>); 4] = [
    ((2, 6, 'v'), Some(0)),
    ((7, 9, 'd'), None),
    ((10, 13, 'v'), Some(1)),
    ((14, 20, 'l'), None),
];

// Whether an answer is a record of this number; or none, where none is wanted.
fn is_number(answer: &Answer<(u64, u32)>, wanted: Option<u64>) -> bool {
    match (answer, wanted) {
        (Answer::Value((number, _)), Some(wanted)) => *number == wanted,
        (Answer::Value(_), None) => false,
        (_, wanted) => wanted.is_none(),
    }
}

// Whether the next stretch that a zero ends is this one.
fn comes(
    alloc: Global,
    scan: &mut Scan,
    store: &mut MemoryStore,
    place: Place,
    number: Option<u64>,
) -> bool {
    match scan.next_ended::<u32, MemoryStore>(alloc, store) {
        Ok(Some(stretch)) => is_place(&stretch, place) && is_number(&stretch.answer, number),
        _ => false,
    }
}

fn finds_all(alloc: Global, scan: &mut Scan, store: &mut MemoryStore) -> bool {
    for (place, number) in PLACES {
        if !comes(alloc, scan, store, place, number) {
            return false;
        }
    }
    // no other comes, and the cut one is at the end; what was appended since ends it
    matches!(scan.next_ended::<u32, MemoryStore>(alloc, store), Ok(None))
        && is_last(&scan.unfinished::<u32>(), Some((21, 23, 'c')))
        && put(store, &[0]) == 1
        && comes(alloc, scan, store, (21, 23, 'd'), None)
        && is_last(&scan.unfinished::<u32>(), None)
        && scan.at() == 24
}

fn finds(alloc: Global) -> bool {
    let Some(mut store) = holding(alloc, &BYTES) else {
        return false;
    };
    match Scan::new(alloc, 5, 0) {
        Ok(mut scan) => finds_all(alloc, &mut scan, &mut store),
        Err(_) => false,
    }
}

#[test]
fn places_of_stretches(rt: HostRuntime) {
    check(&rt, finds(rt.alloc()));
}
