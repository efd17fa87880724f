//! Logs whose store fails or crashes.

use crate::bytes::{are_bytes, check};
use journal::stores::{MemoryStore, Store, SyncFault, put};
use journal::{AppendError, Journal, Listed, Unheard};
use link::{Answer, OfType, Strict};
use postcard::{DeserializeOwned, Exact, Serialize};
use std::alloc::Global;

/// The most bytes that a record takes.
pub const N: usize = 24;

const VALUES: [u32; 5] = [300, 5, 0, 70000, 1];

// What is appended after all of them.
const BEHIND: u32 = 9;

type Log = Journal<MemoryStore, N>;

type List = Listed<u32>;

// Whether a log whose store failed takes nothing more.
fn stays_spent<T: Serialize>(journal: &mut Log, value: &T) -> bool {
    journal.is_spent()
        && journal.append(value) == Err(AppendError::Spent)
        && journal.sync() == Err(SyncFault)
}

// How many of the values were appended before the store failed; nothing if more are taken then.
fn append_all<T: Serialize>(journal: &mut Log, values: &[T]) -> Option<usize> {
    for (done, value) in values.iter().enumerate() {
        if journal.append(value).is_err() {
            return stays_spent(journal, value).then_some(done);
        }
    }
    Some(values.len())
}

/// A log in memory of the values, opened once; how many appends were Ok.
pub fn write<T: DeserializeOwned + Exact>(
    alloc: Global,
    store: MemoryStore,
    values: &[T],
) -> (usize, MemoryStore) {
    match Log::open::<T, Strict<OfType>, Unheard>(alloc, store, 0, &Strict(OfType), &mut Unheard) {
        Ok(mut journal) => {
            let done = append_all(&mut journal, values).unwrap_or(usize::MAX);
            (done, journal.into_store())
        }
        Err(e) => (0, e.store),
    }
}

// The value of the record with a number.
fn value_at(number: usize) -> u32 {
    match VALUES.get(number) {
        Some(value) => *value,
        None => BEHIND,
    }
}

// How many records there are, if they carry the numbers 0, 1 and on, and the values in their order.
fn counted(answers: &[Answer<(u64, u32)>]) -> Option<usize> {
    let mut next = 0usize;
    for answer in answers {
        if let Answer::Value((number, value)) = answer {
            if *number != next as u64 || *value != value_at(next) {
                return None;
            }
            next = next.saturating_add(1);
        }
    }
    Some(next)
}

// How many records are read of a store, opened.
fn count(alloc: Global, store: MemoryStore) -> Option<usize> {
    let mut list = List::new(alloc);
    match Log::open::<u32, Strict<OfType>, List>(alloc, store, 0, &Strict(OfType), &mut list) {
        Ok(_) => counted(&list.answers),
        Err(_) => None,
    }
}

#[test]
fn bytes_of_a_log(rt: HostRuntime) {
    let (done, store) = write(
        rt.alloc(),
        MemoryStore::new(Vec::new(rt.alloc())),
        &[300u32, 5],
    );
    check(
        &rt,
        done == 2 && are_bytes(store.bytes(), &[0, 1, 3, 172, 2, 0, 3, 1, 5, 0]),
    );
}

// The store fails after so many bytes of the 24 of a session of five; then the log is opened, opened again and read: all records whose append
// was Ok are there, and at most one more, whose frame went out whole.
fn survives_fault(alloc: Global, at: usize) -> bool {
    let mut store = MemoryStore::new(Vec::new(alloc));
    store.fail_after(at);
    let (done, store) = write(alloc, store, &VALUES);
    let (_, store) = write::<u32>(alloc, store, &[]);
    match count(alloc, store) {
        Some(count) => count == done || count == done.saturating_add(1),
        None => false,
    }
}

#[test]
fn torn_at_every_byte(rt: HostRuntime) {
    for at in 0usize..25 {
        check(&rt, survives_fault(rt.alloc(), at));
    }
}

// Whether a log that has so many records gets one more, and is synced.
fn goes_on(journal: &mut Log, count: usize) -> bool {
    match journal.append(&value_at(count)) {
        Ok(number) => number == count as u64 && journal.sync().is_ok(),
        Err(_) => false,
    }
}

// How many records a log has that is opened and gets one more, synced; and what it is then.
fn gone_on(alloc: Global, store: MemoryStore) -> Option<(usize, MemoryStore)> {
    let mut list = List::new(alloc);
    let Ok(mut journal) = Log::open::<u32, Strict<OfType>, List>(
        alloc,
        store,
        0,
        &Strict(OfType),
        &mut list,
    ) else {
        return None;
    };
    match counted(&list.answers) {
        Some(count) => {
            if goes_on(&mut journal, count) {
                Some((count, journal.into_store()))
            } else {
                None
            }
        }
        None => None,
    }
}

// How many records are read behind a crash that leaves so many of the bytes that weren't synced, and so many zeros after them, if the log
// then gets one more, is synced and read again with that.
fn left_by_crash(alloc: Global, left: usize, zeros: usize) -> Option<usize> {
    let (_, store) = write(alloc, MemoryStore::new(Vec::new(alloc)), &VALUES);
    let store = store.crash(left, zeros)?;
    let (before, store) = gone_on(alloc, store)?;
    if store.settled() != store.bytes().len() {
        return None;
    }
    match count(alloc, store) {
        Some(count) if count == before.saturating_add(1) => Some(before),
        _ => None,
    }
}

// Where the frame of each record ends, behind the first zero of the log, which is synced.
const ENDS: [usize; 5] = [4, 8, 12, 18, 22];

#[test]
fn crashed_at_every_byte(rt: HostRuntime) {
    let mut whole = 0usize;
    for left in 0usize..40 {
        if ENDS.contains(&left) {
            whole = whole.saturating_add(1);
        }
        for zeros in 0usize..4 {
            let before = left_by_crash(rt.alloc(), left, zeros);
            check(&rt, matches!(before, Some(count) if count == whole));
        }
    }
}

fn is_read(store: &mut MemoryStore, from: u64, wanted: &[u8; 3]) -> bool {
    let mut room = [0u8; 3];
    matches!(store.read_at(from, &mut room), Some(3)) && are_bytes(&room, wanted)
}

// Bytes that go in by parts, and are read at an offset.
#[test]
fn bytes_of_a_store(rt: HostRuntime) {
    let mut store = MemoryStore::new(Vec::new(rt.alloc()));
    store.fail_after(3);
    check(
        &rt,
        put(&mut store, &[1, 2, 3, 4]) == 3
            && put(&mut store, &[4, 5]) == 2
            && is_read(&mut store, 2, &[3, 4, 5])
            && store.settled() == 0
            && store.sync().is_ok()
            && store.settled() == 5,
    );
}

/// Whether a store took all of these bytes, and no crash takes them now.
fn keeps<S: Store>(store: &mut S, bytes: &[u8]) -> bool {
    if put(store, bytes) < bytes.len() {
        return false;
    }
    match store.sync() {
        Ok(()) => true,
        Err(SyncFault) => false,
    }
}

#[test]
fn bytes_that_are_kept(rt: HostRuntime) {
    let mut store = MemoryStore::new(Vec::new(rt.alloc()));
    check(&rt, keeps(&mut store, b"abc"));
    let held = store.crash(0, 2);
    check(
        &rt,
        matches!(&held, Some(store) if are_bytes(store.bytes(), b"abc\0\0")),
    );
}
