//! Logs whose records are appended anew.

use crate::bytes::{are_bytes, check, holding, with};
use journal::stores::{MemoryStore, Store};
use journal_scan::{RepairError, Repaired, Scan, ScanError, Stretch, repair};
use link::Answer;
use std::alloc::Global;

const LIMIT: usize = 12;

// Records 0, 1 and 3: the values 300, 5 and 70000.
const LOG: [u8; 16] = [0, 1, 3, 172, 2, 0, 3, 1, 5, 0, 5, 3, 240, 162, 4, 0];

// An empty store that takes so many bytes.
fn room_for(alloc: Global, room: usize) -> MemoryStore {
    let mut store = MemoryStore::new(Vec::new(alloc));
    store.fail_after(room);
    store
}

// What repairing these bytes to a store answers.
fn repaired(
    alloc: Global,
    bytes: &[u8],
    to: &mut MemoryStore,
) -> Option<Result<Repaired, RepairError>> {
    let Some(mut from) = holding(alloc, bytes) else {
        return None;
    };
    let result = repair::<u32, MemoryStore, MemoryStore>(alloc, LIMIT, &mut from, to);
    // the log is as it was
    if are_bytes(from.bytes(), bytes) {
        Some(result)
    } else {
        None
    }
}

// Whether so many records are repaired, the next one after them has this number, and these bytes are all that is written.
fn writes(alloc: Global, bytes: &[u8], records: u64, next: u64, wanted: &[u8]) -> bool {
    let mut to = room_for(alloc, 99);
    match repaired(alloc, bytes, &mut to) {
        Some(Ok(found)) => {
            found.records == records
                && found.next == next
                && are_bytes(to.bytes(), wanted)
                && to.settled() == wanted.len()
        }
        _ => false,
    }
}

// Zeros, a damaged stretch, one that is too long, record 0 twice, record 1, and record 2 without its zero.
const DAMAGED: [u8; 36] = [
    0, 0, 1, 3, 172, 2, 0, 9, 9, 0, 7, 7, 7, 7, 7, 7, 7, 7, 7, 7, 7, 7, 7, 0, 1, 3, 172, 2, 0, 3,
    1, 5, 0, 3, 2, 5,
];

const MENDED: [u8; 19] = [0, 1, 3, 172, 2, 0, 1, 3, 172, 2, 0, 3, 1, 5, 0, 3, 2, 5, 0];

// Of record 2 a byte more is missing.
const TORN: [u8; 7] = [0, 3, 1, 5, 0, 3, 2];

#[test]
fn repaired_by_hand(rt: HostRuntime) {
    let alloc = rt.alloc();
    check(&rt, writes(alloc, &DAMAGED, 4, 3, &MENDED));
    check(&rt, writes(alloc, &TORN, 1, 2, &[0, 3, 1, 5, 0]));
    check(&rt, writes(alloc, &[], 0, 0, &[0]));
    check(&rt, writes(alloc, &LOG, 3, 4, &LOG));
}

// Appends a record as postcard frames the pair.
fn add_frame(all: &mut Vec<u8>, record: &(u64, u32)) -> bool {
    let mut room = [0u8; 32];
    match postcard::to_slice_cobs(record, &mut room) {
        Ok(frame) => all.extend_from_slice(frame).is_ok(),
        Err(_) => false,
    }
}

// Appends the record of a stretch, if it is one; false if the scan or the memory fails.
fn add_stretch(found: Result<Option<Stretch<u32>>, ScanError>, all: &mut Vec<u8>) -> bool {
    match found {
        Ok(Some(stretch)) => match &stretch.answer {
            Answer::Value(record) => add_frame(all, record),
            _ => true,
        },
        Ok(None) => true,
        Err(_) => false,
    }
}

// Appends the records of these bytes, one by one, each as postcard frames that pair, after a zero.
fn add_all(alloc: Global, scan: Scan, bytes: &[u8], all: &mut Vec<u8>) -> bool {
    let mut scan = scan;
    let Some(mut from) = holding(alloc, bytes) else {
        return false;
    };
    for _ in bytes {
        if !add_stretch(scan.next_ended::<u32, MemoryStore>(alloc, &mut from), all) {
            return false;
        }
    }
    add_stretch(scan.finish::<u32>(alloc), all)
}

// Appends what repairing these bytes is to write.
fn expect(alloc: Global, bytes: &[u8], all: &mut Vec<u8>) -> bool {
    match Scan::new(alloc, LIMIT, 0) {
        Ok(scan) => all.push(0u8).is_ok() && add_all(alloc, scan, bytes, all),
        Err(_) => false,
    }
}

// Repairing gives the records that are read, and repairing that the same bytes and answer.
fn repairs(alloc: Global, bytes: &[u8]) -> bool {
    let mut all = Vec::new(alloc);
    let mut to = room_for(alloc, 99);
    match repaired(alloc, bytes, &mut to) {
        Some(Ok(found)) => {
            expect(alloc, bytes, &mut all)
                && are_bytes(to.bytes(), &all)
                && writes(alloc, &all, found.records, found.next, &all)
        }
        _ => false,
    }
}

// A log with others in place of the byte at an offset.
fn repairs_with(alloc: Global, at: usize, others: &[u8]) -> bool {
    match with(alloc, &LOG, at, others) {
        Some(bytes) => repairs(alloc, &bytes),
        None => false,
    }
}

// The byte at an offset becomes each other one, is lost, and is doubled.
fn repairs_each(alloc: Global, at: usize, byte: u8) -> bool {
    for other in 0u8..=255 {
        if !repairs_with(alloc, at, &[other]) {
            return false;
        }
    }
    repairs_with(alloc, at, &[]) && repairs_with(alloc, at, &[byte, byte])
}

#[test]
fn repaired_after_damage(rt: HostRuntime) {
    for (at, byte) in LOG.iter().enumerate() {
        check(&rt, repairs_each(rt.alloc(), at, *byte));
    }
}

// Whether a destination that fails after so many bytes has these, and they are those of the whole.
fn breaks_off(alloc: Global, room: usize) -> bool {
    let mut to = room_for(alloc, room);
    match (repaired(alloc, &LOG, &mut to), LOG.get(..room)) {
        (Some(Err(RepairError::Line)), Some(front)) => are_bytes(to.bytes(), front),
        _ => false,
    }
}

#[test]
fn destination_fails(rt: HostRuntime) {
    for room in 0usize..LOG.len() {
        check(&rt, breaks_off(rt.alloc(), room));
    }
}
