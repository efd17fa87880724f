//! Logs that aren't read to their end: what the visitor was handed then.
ghost use Rattle.std.specs.Prelude.{true, ⊤, OnOk, OnErr};
ghost use Rattle.link.specs.Judged.{HoldsBy};

use crate::bytes::{check, holding};
use journal::stores::{MemoryStore, Store, Stored};
use journal::{Halt, Journal, Listed, OpenError, ReadError, Visitor, read_all};
use link::{Answer, MessageReader, NoMemory, OfType, Strict};
use postcard::Readable;
use std::alloc::Global;
use std::cell::Cell;
use std::fs::{Metadata, OpenFile};
use std::io::{self, ErrorKind, Read, Seek, SeekFrom, Write};

// The most bytes of a record.
const N: usize = 12;

// A zero; records 0 and 1, of 300 and 5; a damaged stretch; record 2, of 7; a stretch that no zero ends.
const LOG: [u8; 19] = [0, 1, 3, 172, 2, 0, 3, 1, 5, 0, 9, 9, 0, 3, 2, 7, 0, 3, 3];

// What is read of it: records, and damage; the last one if a zero is appended.
const READ: [Option<(u64, u32)>; 5] = [Some((0, 300)), Some((1, 5)), None, Some((2, 7)), None];

// Whether these are the first of them, so many.
fn are_first(answers: &[Answer<(u64, u32)>], count: usize) -> bool {
    for (answer, wanted) in answers.iter().zip(READ) {
        let found = match answer {
            Answer::Value(record) => Some(*record),
            _ => None,
        };
        if found != wanted {
            return false;
        }
    }
    answers.len() == count
}

// A file in memory that gives at most so many bytes by one read, and fails after so many reads.
#[derive(Drop)]
struct Failing {
    bytes: Vec<u8>,
    at: usize,
    most: usize,
    left: usize,
}

impl Read for Failing {
    fn read(&mut self, room: &mut [u8]) -> io::Result<usize> {
        if self.left == 0 {
            return Err(io::Error::from(ErrorKind::Other));
        }
        self.left -= 1;
        let start = self.at.min(self.bytes.len());
        let count = room.len().min(self.most).min(self.bytes.len() - start);
        room[..count].copy_from_slice(&self.bytes[start..start + count]);
        self.at = start + count;
        Ok(count)
    }
}

impl Write for Failing {
    fn write(&mut self, piece: &[u8]) -> io::Result<usize> {
        match self.bytes.extend_from_slice(piece) {
            Ok(()) => Ok(piece.len()),
            Err(_) => Err(io::Error::from(ErrorKind::OutOfMemory)),
        }
    }

    fn flush(&mut self) -> io::Result<()> {
        Ok(())
    }
}

impl Seek for Failing {
    fn seek(&mut self, to: SeekFrom) -> io::Result<u64> {
        match to {
            SeekFrom::Start(at) => {
                self.at = at as usize;
                Ok(at)
            }
            _ => Err(io::Error::from(ErrorKind::Unsupported)),
        }
    }
}

impl OpenFile for Failing {
    fn metadata(&self) -> io::Result<Metadata> {
        Err(io::Error::from(ErrorKind::Unsupported))
    }

    fn set_len(&self, _size: u64) -> io::Result<()> {
        Err(io::Error::from(ErrorKind::Unsupported))
    }

    fn sync_all(&self) -> io::Result<()> {
        Ok(())
    }

    fn sync_data(&self) -> io::Result<()> {
        Ok(())
    }
}

// The log in such a file; nothing when out of memory.
fn failing_log(alloc: Global, most: usize, left: usize) -> Option<Stored<Failing>> {
    let mut bytes = Vec::new(alloc);
    if bytes.extend_from_slice(&LOG).is_err() {
        return None;
    }
    Some(Stored::new(Failing {
        bytes,
        at: 0,
        most,
        left,
    }))
}

// Reads a log strictly.
fn read_to<S: Store, V: Visitor<u32>>(
    alloc: Global,
    store: &mut S,
    visitor: &mut V,
) -> Result<u64, ReadError> {
    read_all::<u32, Strict<OfType>, S, V, N>(alloc, store, 0, &Strict(OfType), visitor)
}

// Why a log in such a file wasn't opened, if it wasn't.
fn unopened(alloc: Global, file: Stored<Failing>, list: &mut Listed<u32>) -> Option<OpenError> {
    let by = &Strict(OfType);
    match Journal::<Stored<Failing>, N>::open::<u32, Strict<OfType>, Listed<u32>>(
        alloc, file, 0, by, list,
    ) {
        Ok(_) => None,
        Err(e) => Some(e.cause),
    }
}

// Whether so many results are handed on if the read after so many fails; and so many if the log is opened.
fn fails_after(alloc: Global, most: usize, left: usize, read: usize, open: usize) -> bool {
    let Some(mut file) = failing_log(alloc, most, left) else {
        return false;
    };
    let Some(other) = failing_log(alloc, most, left) else {
        return false;
    };
    let mut list = Listed::<u32>::new(alloc);
    let mut all = Listed::<u32>::new(alloc);
    read_to(alloc, &mut file, &mut list) == Err(ReadError::Fault)
        && are_first(&list.answers, read)
        && unopened(alloc, other, &mut all) == Some(OpenError::Read(ReadError::Fault))
        && are_first(&all.answers, open)
}

// How many results come of so many reads of four bytes: of the log, and of the opened log, which has a zero more.
const BY_READS: [(usize, usize); 6] = [(0, 0), (0, 0), (1, 1), (2, 2), (3, 3), (4, 5)];

// How many come of so many bytes.
const BY_BYTES: [usize; 20] = [0, 0, 0, 0, 0, 0, 1, 1, 1, 1, 2, 2, 2, 3, 3, 3, 3, 4, 4, 4];

#[test]
fn each_read_fails(rt: HostRuntime) {
    for (left, (read, open)) in BY_READS.iter().enumerate() {
        check(&rt, fails_after(rt.alloc(), 4, left, *read, *open));
    }
    for (left, count) in BY_BYTES.iter().enumerate() {
        check(&rt, fails_after(rt.alloc(), 1, left, *count, *count));
    }
}

// Reads records strictly, until memory runs out after so many.
#[derive(Drop)]
struct Lacking {
    left: Cell<usize>,
}

impl MessageReader<(u64, u32)> for Lacking {
    ghost judging = { λ _. record {
      holds = HoldsBy true ⟦<(u64, u32) as Readable>⟧.form.takes;
      reads = ⟦<(u64, u32) as Readable>⟧.form.reads;
      growing = true;
    } };

    fn read(
        &self,
        alloc: Global,
        message: &[u8],
        stretch: usize,
    ) -> Result<Option<(u64, u32)>, NoMemory> {
        let left = self.left.get();
        if left == 0 {
            return Err(NoMemory);
        }
        self.left.set(left - 1);
        Strict(OfType).read(alloc, message, stretch)
    }

    fn show(&self) {
        MessageReader::<(u64, u32)>::show(&Strict(OfType));
    }
}

// Whether so many results are handed on if memory runs out after so many records.
fn lacks_after(alloc: Global, left: usize, count: usize) -> bool {
    let Some(store) = holding(alloc, &LOG) else {
        return false;
    };
    let lacking = Lacking {
        left: Cell::new(left),
    };
    let mut list = Listed::<u32>::new(alloc);
    match Journal::<MemoryStore, N>::open::<u32, Lacking, Listed<u32>>(
        alloc, store, 0, &lacking, &mut list,
    ) {
        Ok(_) => false,
        Err(e) => {
            e.cause == OpenError::Read(ReadError::NoMemory) && are_first(&list.answers, count)
        }
    }
}

#[test]
fn memory_runs_out_at_each_record(rt: HostRuntime) {
    for (left, count) in [0usize, 1, 3].iter().enumerate() {
        check(&rt, lacks_after(rt.alloc(), left, *count));
    }
}

// Keeps so many results, and halts at the next one.
#[derive(Drop)]
struct Halting {
    list: Listed<u32>,
    most: usize,
}

impl Visitor<u32> for Halting {
    ghost took = { λ _ _ _. ⊤ };

    ghost halts = { λ _. ⊤ };

    ghost laws = { record { nothing = λ s. tt; more = λ s t u a b p q. tt } };

    fn visit(&mut self, answer: Answer<(u64, u32)>) -> Result<(), Halt>
        ensures took { OnOk result ⊤ }
        ensures halts { OnErr result ⊤ }
    {
        if self.list.answers.len() >= self.most {
            return Err(Halt);
        }
        self.list.visit(answer)
    }
}

fn halts_after(alloc: Global, most: usize) -> bool {
    let Some(mut store) = holding(alloc, &LOG) else {
        return false;
    };
    let mut halting = Halting {
        list: Listed::new(alloc),
        most,
    };
    let next = read_to(alloc, &mut store, &mut halting);
    let wanted = if most < 4 {
        Err(ReadError::Halted)
    } else {
        Ok(3)
    };
    next == wanted && are_first(&halting.list.answers, most)
}

#[test]
fn visitor_halts_at_each_result(rt: HostRuntime) {
    for most in 0usize..5 {
        check(&rt, halts_after(rt.alloc(), most));
    }
}

// A zero, and five records: vectors of one byte, one more than the number.
const VECTORS: [u8; 26] = [
    0, 1, 3, 1, 1, 0, 4, 1, 1, 2, 0, 4, 2, 1, 3, 0, 4, 3, 1, 4, 0, 4, 4, 1, 5, 0,
];

// Reads records of vectors, and counts them.
#[derive(Drop)]
struct Counting {
    count: Cell<usize>,
}

impl MessageReader<(u64, Vec<u8>)> for Counting {
    ghost judging = { λ _. record {
      holds = HoldsBy true ⟦<(u64, Vec<u8>) as Readable>⟧.form.takes;
      reads = ⟦<(u64, Vec<u8>) as Readable>⟧.form.reads;
      growing = true;
    } };

    fn read(
        &self,
        alloc: Global,
        message: &[u8],
        stretch: usize,
    ) -> Result<Option<(u64, Vec<u8>)>, NoMemory> {
        self.count.set(self.count.get().saturating_add(1));
        Strict(OfType).read(alloc, message, stretch)
    }

    fn show(&self) {
        MessageReader::<(u64, Vec<u8>)>::show(&Strict(OfType));
    }
}

// Whether these are the first records of those.
fn are_vectors(answers: &[Answer<(u64, Vec<u8>)>]) -> bool {
    for (number, answer) in answers.iter().enumerate() {
        let Answer::Value((found, bytes)) = answer else {
            return false;
        };
        let [byte] = bytes.as_slice() else {
            return false;
        };
        if *found != number as u64 || usize::from(*byte) != number.saturating_add(1) {
            return false;
        }
    }
    true
}

// The record that was lost is the one after those that were handed on.
fn is_whole_or_lacks(next: Result<u64, ReadError>, handed: usize, read: usize) -> bool {
    match next {
        Ok(next) => next == 5 && handed == 5 && read == 5,
        Err(ReadError::Fault) => false,
        Err(_) => handed < 5 && read == handed.saturating_add(1),
    }
}

fn reads_vectors(alloc: Global, store: &mut MemoryStore) -> bool {
    let counting = Counting {
        count: Cell::new(0),
    };
    let mut list = Listed::<Vec<u8>>::new(alloc);
    let next = read_all::<Vec<u8>, Counting, MemoryStore, Listed<Vec<u8>>, N>(
        alloc, store, 0, &counting, &mut list,
    );
    are_vectors(&list.answers) && is_whole_or_lacks(next, list.answers.len(), counting.count.get())
}

// Run with each allocation refused in turn by `.ci/refusals`; in the gate none is.
#[test]
fn said_by_reading_a_log(rt: HostRuntime) {
    if let Some(mut store) = holding(rt.alloc(), &VECTORS) {
        check(&rt, reads_vectors(rt.alloc(), &mut store));
    }
}
