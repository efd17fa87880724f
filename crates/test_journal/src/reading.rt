//! A log of sealed values that is appended to and read, as a program does it.
ghost use Rattle.std.specs.Prelude.{⊤, OnOk, OnErr};

use crate::bytes::{check, holding};
use journal::stores::MemoryStore;
use journal::{
    AppendError, Halt, Journal, OpenError, ReadError, Unheard, Unopened, Visitor, read_all,
};
use link::{Answer, OfType, Strict};
use sealed::Sealed;
use std::alloc::Global;

// A value with its record's number, and the sum of both.
type Entry = Sealed<(u64, u32)>;

// Adds up the values of a log, and stops at the first damage.
#[derive(Drop)]
struct Sum {
    total: u64,
}

impl Visitor<Entry> for Sum {
    ghost took = { λ _ _ _. ⊤ };

    ghost halts = { λ _. ⊤ };

    ghost laws = { record { nothing = λ s. tt; more = λ s t u a b p q. tt } };

    fn visit(&mut self, answer: Answer<(u64, Entry)>) -> Result<(), Halt>
        ensures took { OnOk result ⊤ }
        ensures halts { OnErr result ⊤ }
    {
        let Answer::Value((number, Sealed((sealed, value)))) = answer else {
            return Err(Halt);
        };
        // a record whose number isn't the sealed one is none
        if number == sealed {
            self.total = self.total.saturating_add(value as u64);
        }
        Ok(())
    }
}

// What came of an append.
#[derive(Clone, Copy, PartialEq)]
enum Done {
    // It has this number, and survives any crash.
    Settled(u64),
    // It is too long, and nothing was written.
    TooLong,
    // The store failed: open the log again.
    Failed,
    // The log wasn't read to its end.
    Unread,
}

// Appends a value, sealed with its number, and syncs the log.
fn append_sealed(journal: &mut Journal<MemoryStore, 24>, value: u32) -> Done {
    let entry = Sealed((journal.next(), value));
    match journal.append(&entry) {
        Ok(number) => match journal.sync() {
            Ok(()) => Done::Settled(number),
            Err(_) => Done::Failed,
        },
        Err(AppendError::Refused(_)) => Done::TooLong,
        Err(_) => Done::Failed,
    }
}

// Opens a log, and appends a value to it; what came of that, and the store.
fn appended(alloc: Global, store: MemoryStore, value: u32) -> (Done, MemoryStore) {
    let by = &Strict(OfType);
    match Journal::<MemoryStore, 24>::open::<Entry, _, _>(alloc, store, 0, by, &mut Unheard) {
        Ok(mut journal) => {
            let done = append_sealed(&mut journal, value);
            (done, journal.into_store())
        }
        Err(Unopened { cause, store }) => match cause {
            OpenError::Read(_) => (Done::Unread, store),
            _ => (Done::Failed, store),
        },
    }
}

#[test]
fn a_log_is_read_back(rt: HostRuntime) {
    let store = MemoryStore::new(Vec::new(rt.alloc()));
    let (first, store) = appended(rt.alloc(), store, 300);
    let (second, mut store) = appended(rt.alloc(), store, 5);
    check(&rt, first == Done::Settled(0) && second == Done::Settled(1));
    let mut sum = Sum { total: 0 };
    let by = &Strict(OfType);
    let next = read_all::<Entry, _, _, _, 24>(rt.alloc(), &mut store, 0, by, &mut sum);
    check(&rt, matches!(next, Ok(2)) && sum.total == 305);
}

#[test]
fn reading_stops_at_damage(rt: HostRuntime) {
    let Some(mut store) = holding(rt.alloc(), &[0, 9, 9, 0]) else {
        return;
    };
    let mut sum = Sum { total: 0 };
    let by = &Strict(OfType);
    let next = read_all::<Entry, _, _, _, 24>(rt.alloc(), &mut store, 0, by, &mut sum);
    check(&rt, matches!(next, Err(ReadError::Halted)));
}
