//! Numbers that come in no order: each takes itself out of the ranges that are missing.

use crate::bytes::check;
use journal_scan::Tally;

/// Whether these ranges are missing, each from its first number to its last.
pub fn are_missing(tally: &Tally, wanted: &[(u64, u64)]) -> bool {
    for (gap, (first, last)) in tally.missing().zip(wanted) {
        if *gap.0 != *first || *gap.1 != *last {
            return false;
        }
    }
    tally.missing().len() == wanted.len()
}

// A number, whether it was there before, and which are missing then.
const NUMBERS: [(u64, bool, &[(u64, u64)]); 7] = [
    (5, false, &[(0, 4)]),
    (2, false, &[(0, 1), (3, 4)]),
    (2, true, &[(0, 1), (3, 4)]),
    (0, false, &[(1, 1), (3, 4)]),
    (4, false, &[(1, 1), (3, 3)]),
    (1, false, &[(3, 3)]),
    (3, false, &[]),
];

fn counts(tally: &mut Tally, number: u64, again: bool, missing: &[(u64, u64)]) -> bool {
    match tally.count(number) {
        Ok(found) => found == again && are_missing(tally, missing),
        Err(_) => false,
    }
}

#[test]
fn numbers_in_any_order(rt: HostRuntime) {
    let mut tally = Tally::new(rt.alloc());
    for (number, again, missing) in NUMBERS {
        check(&rt, counts(&mut tally, number, again, missing));
    }
    check(&rt, tally.next() == 6 && tally.counted() == 7);
}
