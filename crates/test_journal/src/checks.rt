//! Logs that are checked: what is reported, and which numbers are missing.
ghost use Rattle.std.specs.Prelude.{true, ⊤, OnOk, OnErr};

use crate::bytes::{Place, check, holding, is_last, is_place};
use crate::tallies::are_missing;
use journal::Halt;
use journal::stores::MemoryStore;
use journal_scan::{CheckError, Judge, Report, Stretch, Tally, Watcher};
use std::alloc::Global;

// Record 1, a damaged stretch, record 3, a stretch of more than twelve bytes, record 3 again, the record 2^64 - 1, and record 4
// without its zero.
const BYTES: [u8; 47] = [
    0, 3, 1, 5, 0, 9, 9, 0, 3, 3, 7, 0, 7, 7, 7, 7, 7, 7, 7, 7, 7, 7, 7, 7, 7, 0, 3, 3, 8, 0, 12,
    255, 255, 255, 255, 255, 255, 255, 255, 255, 1, 9, 0, 0, 3, 4, 1,
];

// What is reported of it: a stretch, and whether its number was there before.
const TOLD: [(Place, bool); 7] = [
    ((1, 4, 'v'), false),
    ((5, 7, 'd'), false),
    ((8, 11, 'v'), false),
    ((12, 25, 'l'), false),
    ((26, 29, 'v'), true),
    ((30, 42, 'v'), false),
    ((44, 47, 'v'), false),
];

const MISSING: [(u64, u64); 3] = [(0, 0), (2, 2), (5, 18446744073709551614)];

// Compares what is reported, at most so many stretches.
#[derive(Drop)]
struct Told {
    wanted: &'static [(Place, bool)],
    most: usize,
    count: usize,
    is_right: bool,
}

impl Told {
    fn new(wanted: &'static [(Place, bool)], most: usize) -> Told {
        Told {
            wanted,
            most,
            count: 0,
            is_right: true,
        }
    }

    // Whether what is wanted was reported, so many stretches.
    fn is(&self, count: usize) -> bool {
        self.is_right && self.count == count
    }

    fn compare(&mut self, stretch: &Stretch<u32>, again: bool) {
        match self.wanted.get(self.count) {
            Some((place, before)) if is_place(stretch, *place) && again == *before => {}
            _ => self.is_right = false,
        }
        self.count = self.count.saturating_add(1);
    }
}

impl Judge<u32> for Told {
    ghost counted = { λ _ _. true };

    fn counts(&self, _number: u64, _value: &u32) -> bool {
        true
    }
}

impl Watcher<u32> for Told {
    ghost told = { λ _ _ _. ⊤ };

    ghost halts = { λ _. ⊤ };

    ghost laws = { record { nothing = λ s. tt; more = λ s t u a b p q. tt } };

    fn tell(&mut self, stretch: Stretch<u32>, again: bool) -> Result<(), Halt>
        ensures told { OnOk result ⊤ }
        ensures halts { OnErr result ⊤ }
    {
        if self.count >= self.most {
            return Err(Halt);
        }
        self.compare(&stretch, again);
        Ok(())
    }
}

// Checks these bytes; nothing if they could not be allocated.
fn checked(
    alloc: Global,
    bytes: &[u8],
    told: &mut Told,
) -> Option<Result<Report<u32>, CheckError>> {
    match holding(alloc, bytes) {
        Some(mut store) => Some(journal_scan::check::<u32, MemoryStore, Told>(
            alloc, 12, &mut store, told,
        )),
        None => None,
    }
}

// A log, and what is found of it.
struct Log {
    bytes: &'static [u8],
    told: &'static [(Place, bool)],
    counted: u64,
    next: u64,
    missing: &'static [(u64, u64)],
    unfinished: Option<Place>,
}

// The log above; and of logs without a record: nothing is there, or one zero, or one stretch that no zero ends and is too long.
const LOGS: [Log; 4] = [
    Log {
        bytes: &BYTES,
        told: &TOLD,
        counted: 5,
        next: 18446744073709551615,
        missing: &MISSING,
        unfinished: None,
    },
    Log {
        bytes: &[],
        told: &[],
        counted: 0,
        next: 0,
        missing: &[],
        unfinished: None,
    },
    Log {
        bytes: &[0],
        told: &[],
        counted: 0,
        next: 0,
        missing: &[],
        unfinished: None,
    },
    Log {
        bytes: &[7; 13],
        told: &[],
        counted: 0,
        next: 0,
        missing: &[],
        unfinished: Some((0, 13, 'l')),
    },
];

// Whether so many records were counted, and these numbers are missing.
fn counts(tally: &Tally, log: &Log) -> bool {
    tally.counted() == log.counted && tally.next() == log.next && are_missing(tally, log.missing)
}

fn is_found(alloc: Global, log: &Log) -> bool {
    let mut told = Told::new(log.told, 9);
    match checked(alloc, log.bytes, &mut told) {
        Some(Ok(report)) => {
            told.is(log.told.len())
                && counts(&report.tally, log)
                && is_last(&report.unfinished, log.unfinished)
        }
        _ => false,
    }
}

#[test]
fn what_a_log_has(rt: HostRuntime) {
    for log in &LOGS {
        check(&rt, is_found(rt.alloc(), log));
    }
}

#[test]
fn watcher_halts(rt: HostRuntime) {
    let mut told = Told::new(&TOLD, 2);
    let found = checked(rt.alloc(), &BYTES, &mut told);
    check(&rt, matches!(found, Some(Err(CheckError::Halted))));
    check(&rt, told.is(2));
}
