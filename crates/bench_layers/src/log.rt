//! A log in memory as C functions. Its records are a `u32` and a text.
ghost use Rattle.std.specs.Prelude.{⊤, OnOk, OnErr};

use crate::answers::{Counted, Found, NONE_FOUND};
use journal::stores::MemoryStore;
use journal::{Halt, Journal, Visitor, frame_record, read_all};
use link::{Answer, OfType, Strict};
use std::alloc::Global;

/// How many bytes a record takes in the store at most.
const MOST: usize = 64;

/// A visitor that counts.
#[derive(Drop)]
struct Counting {
    found: Found,
}

impl Visitor<(u32, String)> for Counting {
    ghost took = { λ _ _ _. ⊤ };

    ghost halts = { λ _. ⊥ };

    ghost laws = { record { nothing = λ s. tt; more = λ s t u a b p q. tt } };

    fn visit(&mut self, answer: Answer<(u64, (u32, String))>) -> Result<(), Halt>
        ensures took { OnOk result ⊤ }
        ensures halts { OnErr result ⊥ }
    {
        match answer {
            Answer::Value((number, (amount, text))) => {
                self.found.values = self.found.values.wrapping_add(1);
                self.found.sum = self.found.sum.wrapping_add(number);
                self.found.sum = self.found.sum.wrapping_add(u64::from(amount));
                self.found.sum = self.found.sum.wrapping_add(text.len() as u64);
            }
            Answer::Damaged | Answer::TooLong | Answer::Cut => {
                self.found.refused = self.found.refused.wrapping_add(1);
            }
        }
        Ok(())
    }
}

/// Appends so many records with this text to a log that holds nothing, and syncs after each. What the log holds then is put to the
/// front of the room where that is as long. Nothing is done where the text isn't UTF-8.
#[unsafe(no_mangle)]
pub extern "C" fn journal_c_append(
    alloc: Global,
    text: &[u8],
    count: u32,
    room: &mut [u8],
    counted: &mut Counted,
) {
    let Ok(text) = std::str::from_utf8(text) else {
        return;
    };
    let mut journal: Journal<MemoryStore, MOST> = Journal::resume(
        MemoryStore::new(Vec::new(alloc)),
        0,
    );
    let mut calls = 0u64;
    for which in 0..count {
        if journal.append(&(which, text)).is_err() || journal.sync().is_err() {
            break;
        }
        calls = calls.wrapping_add(1);
    }
    let sum = journal.next();
    let store = journal.into_store();
    let bytes = store.bytes();
    if bytes.len() <= room.len() {
        room[..bytes.len()].copy_from_slice(bytes);
    }
    *counted = Counted {
        calls,
        sum,
        written: bytes.len(),
    };
}

/// Opens a log that a store in memory holds, and counts what is read, its sum being over the records. Nothing is found where there is
/// no memory for the store, nor where the log isn't opened.
#[unsafe(no_mangle)]
pub extern "C" fn journal_c_open(alloc: Global, log: &[u8], found: &mut Found) {
    *found = NONE_FOUND;
    let mut bytes = Vec::new(alloc);
    if bytes.extend_from_slice(log).is_err() {
        return;
    }
    let mut counting = Counting { found: NONE_FOUND };
    let opened = Journal::<MemoryStore, MOST>::open::<(u32, String), _, _>(
        alloc,
        MemoryStore::new(bytes),
        0,
        &Strict(OfType),
        &mut counting,
    );
    if opened.is_ok() {
        *found = counting.found;
    }
}

/// Reads a log that a store in memory holds by `read_all`, and counts what is read. Nothing is
/// found where there is no memory for the store, nor where the reading ends early.
#[unsafe(no_mangle)]
pub extern "C" fn journal_c_read_all(alloc: Global, log: &[u8], found: &mut Found) {
    *found = NONE_FOUND;
    let mut bytes = Vec::new(alloc);
    if bytes.extend_from_slice(log).is_err() {
        return;
    }
    let mut store = MemoryStore::new(bytes);
    let mut counting = Counting { found: NONE_FOUND };
    let read = read_all::<(u32, String), _, _, _, MOST>(
        alloc,
        &mut store,
        0,
        &Strict(OfType),
        &mut counting,
    );
    if read.is_ok() {
        *found = counting.found;
    }
}

/// Makes so many records with this text by `frame_record`, each where the one before it ends in the
/// room. Nothing is done where the text isn't UTF-8.
#[unsafe(no_mangle)]
pub extern "C" fn journal_c_frame(text: &[u8], count: u32, room: &mut [u8], counted: &mut Counted) {
    let Ok(text) = std::str::from_utf8(text) else {
        return;
    };
    let mut calls = 0u64;
    let mut written = 0;
    for which in 0..count {
        let Some(rest) = room.get_mut(written..) else {
            break;
        };
        if rest.len() < 2 {
            break;
        }
        match frame_record(u64::from(which), &(which, text), rest) {
            Ok(n) => written = written.wrapping_add(n),
            Err(_) => break,
        }
        calls = calls.wrapping_add(1);
    }
    *counted = Counted {
        calls,
        sum: calls,
        written,
    };
}
