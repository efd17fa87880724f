//! What the tests share: a check, bytes that are compared and changed, stores that hold them, and places of stretches. A comparison
//! that is called costs a test's proof less than one that is written in it.

use journal::stores::MemoryStore;
use journal_scan::Stretch;
use link::Answer;
use std::alloc::Global;
use std::process::Abort;

/// Ends a test that isn't right.
pub fn check(rt: &impl Abort, is_right: bool) {
    assert!(rt; is_right);
}

/// Whether these are the bytes that are wanted.
pub fn are_bytes(bytes: &[u8], wanted: &[u8]) -> bool {
    *bytes == *wanted
}

// These parts, one after another.
fn joined(alloc: Global, parts: [&[u8]; 3]) -> Option<Vec<u8>> {
    let mut all = Vec::new(alloc);
    for part in parts {
        if all.extend_from_slice(part).is_err() {
            return None;
        }
    }
    Some(all)
}

/// The bytes with others in place of the one at an offset.
pub fn with(alloc: Global, bytes: &[u8], at: usize, others: &[u8]) -> Option<Vec<u8>> {
    match (bytes.get(..at), bytes.get(at.saturating_add(1)..)) {
        (Some(front), Some(behind)) => joined(alloc, [front, others, behind]),
        _ => None,
    }
}

/// A store that holds these bytes.
pub fn holding(alloc: Global, bytes: &[u8]) -> Option<MemoryStore> {
    match joined(alloc, [bytes, &[], &[]]) {
        Some(held) => Some(MemoryStore::new(held)),
        None => None,
    }
}

/// From, to, and the name of what is there: `v` a value, `d` damaged, `l` too long, `c` cut.
pub type Place = (u64, u64, char);

/// Whether a stretch is there, and is that.
pub fn is_place(stretch: &Stretch<u32>, place: Place) -> bool {
    let (from, to, what) = place;
    let name = match &stretch.answer {
        Answer::Value(_) => 'v',
        Answer::Damaged => 'd',
        Answer::TooLong => 'l',
        Answer::Cut => 'c',
    };
    stretch.from == from && stretch.to == to && name == what
}

/// Whether the stretch that no zero ends is this one; or there is none, where none is wanted.
pub fn is_last(last: &Option<Stretch<u32>>, wanted: Option<Place>) -> bool {
    match (last, wanted) {
        (Some(last), Some(place)) => is_place(last, place),
        (None, None) => true,
        _ => false,
    }
}
