//! Logs that were damaged at one byte.

use crate::bytes::{check, with};
use crate::logs::{N, write};
use journal::stores::MemoryStore;
use journal::{Listed, read_all};
use link::{Answer, OfType, Strict};
use sealed::Sealed;
use std::alloc::Global;

// A value with its record's number, and both sealed.
type Entry = Sealed<(u64, u32)>;

const ENTRIES: [Entry; 6] = [
    Sealed((0, 300)),
    Sealed((1, 5)),
    Sealed((2, 0)),
    Sealed((3, 70000)),
    Sealed((4, 1)),
    Sealed((5, 255)),
];

// Whether the sealed value was appended as this number.
fn is_appended(number: u64, value: u32) -> bool {
    match ENTRIES.get(number as usize) {
        Some(Sealed((_, appended))) => *appended == value,
        None => false,
    }
}

// Which of the values these are, as bits; nothing if one was never appended.
fn bits(answers: &[Answer<(u64, Entry)>]) -> Option<u8> {
    let mut found = 0u8;
    for answer in answers {
        if let Answer::Value((number, Sealed((inner, value)))) = answer {
            // a record whose number isn't the sealed one is none
            if *number == *inner {
                if !is_appended(*number, *value) {
                    return None;
                }
                found |= 1u8 << ((*number % 8) as u32);
            }
        }
    }
    Some(found)
}

// Which of the values are read, as bits; nothing if a record is read that was never appended.
fn found(alloc: Global, store: &mut MemoryStore) -> Option<u8> {
    let mut list = Listed::<Entry>::new(alloc);
    match read_all::<Entry, Strict<OfType>, MemoryStore, Listed<Entry>, N>(
        alloc,
        store,
        0,
        &Strict(OfType),
        &mut list,
    ) {
        Ok(_) => bits(&list.answers),
        Err(_) => None,
    }
}

// The values whose record, with the zero on either side, has no byte at this offset.
fn untouched(bytes: &[u8], at: usize) -> u8 {
    let mut kept = 0u8;
    let mut number = 0u32;
    let mut from = 0usize;
    for (i, byte) in bytes.iter().enumerate() {
        if i > 0 && *byte == 0 {
            if (at < from || i < at) && number < 8 {
                kept |= 1u8 << number;
            }
            from = i;
            number = number.saturating_add(1);
        }
    }
    kept
}

// Damage at an offset loses no record that it doesn't touch, and shows none that wasn't appended.
fn bears(alloc: Global, bytes: &[u8], at: usize, others: &[u8]) -> bool {
    let kept = untouched(bytes, at);
    match with(alloc, bytes, at, others) {
        Some(changed) => match found(alloc, &mut MemoryStore::new(changed)) {
            Some(found) => found & kept == kept,
            None => false,
        },
        None => false,
    }
}

// The byte at an offset has each of its bits turned, is lost, and is doubled.
fn bears_each(alloc: Global, bytes: &[u8], at: usize, byte: u8) -> bool {
    for bit in 0u32..8 {
        if !bears(alloc, bytes, at, &[byte ^ (1u8 << bit)]) {
            return false;
        }
    }
    bears(alloc, bytes, at, &[]) && bears(alloc, bytes, at, &[byte, byte])
}

fn bears_all(alloc: Global, bytes: &[u8]) -> bool {
    for (at, byte) in bytes.iter().enumerate() {
        if !bears_each(alloc, bytes, at, *byte) {
            return false;
        }
    }
    // all are there where nothing is damaged
    untouched(bytes, bytes.len().saturating_add(1)) == 63 && bears(alloc, bytes, 0, &[0])
}

#[test]
fn damaged_at_every_byte(rt: HostRuntime) {
    let (done, log) = write(rt.alloc(), MemoryStore::new(Vec::new(rt.alloc())), &ENTRIES);
    check(&rt, done == 6 && bears_all(rt.alloc(), log.bytes()));
}
