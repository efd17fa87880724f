//! Sessions of a log, one after another, by the calls that the laws of logs join.

use crate::bytes::check;
use journal::Unheard;
use journal::stores::MemoryStore;
use journal_laws::headline::{LogReader, session};
use link::{OfType, Ordinary, Strict};
use std::alloc::Global;

// Opens a log and appends these values; the number of the next record, and the store.
fn go_on<M: LogReader<u32>>(
    alloc: Global,
    messages: &M,
    store: MemoryStore,
    values: &[u32],
) -> Option<(u64, MemoryStore)> {
    match session::<u32, M, MemoryStore, Unheard, 24>(
        alloc,
        store,
        messages,
        &mut Unheard,
        values,
    ) {
        Some(journal) => Some((journal.next(), journal.into_store())),
        None => None,
    }
}

// The number of the next record after two sessions, with a crash between them that leaves eight bytes: a zero, the first record and
// a part of the second.
fn next_after_a_crash(alloc: Global) -> Option<u64> {
    let store = MemoryStore::new(Vec::new(alloc));
    let (_, store) = go_on(alloc, &Strict(OfType), store, &[300, 5])?;
    let (next, _) = go_on(alloc, &Ordinary(OfType), store.crash(7, 0)?, &[7])?;
    Some(next)
}

#[test]
fn two_sessions(rt: HostRuntime) {
    check(&rt, matches!(next_after_a_crash(rt.alloc()), Some(2)));
}
