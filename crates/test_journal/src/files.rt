//! A log over a file that counts what it got and what was synced of it.

use crate::bytes::check;
use crate::logs::N;
use journal::stores::Stored;
use journal::{Journal, Listed, Unheard};
use link::{OfType, Strict};
use std::alloc::Global;
use std::cell::Cell;
use std::fs::{Metadata, OpenFile};
use std::io::{self, ErrorKind, Read, Seek, SeekFrom, Write};

// How many bytes a file got, and how many of them were synced.
#[derive(Drop)]
struct Got {
    written: Cell<usize>,
    synced: Cell<usize>,
}

// A file in memory, opened in append mode.
#[derive(Drop)]
struct Counting<'a> {
    got: &'a Got,
    bytes: Vec<u8>,
    at: usize,
}

impl Read for Counting<'_> {
    fn read(&mut self, room: &mut [u8]) -> io::Result<usize> {
        let start = self.at.min(self.bytes.len());
        let count = room.len().min(self.bytes.len() - start);
        room[..count].copy_from_slice(&self.bytes[start..start + count]);
        self.at = start + count;
        Ok(count)
    }
}

impl Write for Counting<'_> {
    fn write(&mut self, piece: &[u8]) -> io::Result<usize> {
        match self.bytes.extend_from_slice(piece) {
            Ok(()) => {
                self.got.written.set(self.bytes.len());
                Ok(piece.len())
            }
            Err(_) => Err(io::Error::from(ErrorKind::OutOfMemory)),
        }
    }

    fn flush(&mut self) -> io::Result<()> {
        Ok(())
    }
}

impl Seek for Counting<'_> {
    fn seek(&mut self, to: SeekFrom) -> io::Result<u64> {
        match to {
            SeekFrom::Start(at) => {
                self.at = at as usize;
                Ok(at)
            }
            _ => Err(io::Error::from(ErrorKind::Unsupported)),
        }
    }
}

impl OpenFile for Counting<'_> {
    fn metadata(&self) -> io::Result<Metadata> {
        Err(io::Error::from(ErrorKind::Unsupported))
    }

    fn set_len(&self, _size: u64) -> io::Result<()> {
        Err(io::Error::from(ErrorKind::Unsupported))
    }

    fn sync_all(&self) -> io::Result<()> {
        self.got.synced.set(self.got.written.get());
        Ok(())
    }

    fn sync_data(&self) -> io::Result<()> {
        self.sync_all()
    }
}

type Log<'a> = Journal<Stored<Counting<'a>>, N>;

// More records than one read takes.
const COUNT: u64 = 400;

// Whether the next append gets this number, and all that the file got is synced then, and more than before.
fn is_settled(log: &mut Log<'_>, got: &Got, number: u64) -> bool {
    let before = got.written.get();
    match log.append(&5u32) {
        Ok(appended) => {
            appended == number
                && before < got.written.get()
                && log.sync().is_ok()
                && got.synced.get() == got.written.get()
        }
        Err(_) => false,
    }
}

fn settles_each(log: &mut Log<'_>, got: &Got) -> bool {
    for number in 0..COUNT {
        if !is_settled(log, got, number) {
            return false;
        }
    }
    true
}

// Whether what is read of the file are so many answers, and the next number is that.
fn reads_back(alloc: Global, file: Stored<Counting<'_>>) -> bool {
    let mut list = Listed::<u32>::new(alloc);
    match Log::open::<u32, Strict<OfType>, Listed<u32>>(
        alloc,
        file,
        0,
        &Strict(OfType),
        &mut list,
    ) {
        Ok(log) => list.answers.len() as u64 == COUNT && log.next() == COUNT,
        Err(_) => false,
    }
}

fn goes_through_file(alloc: Global, got: &Got) -> bool {
    let file = Stored::new(Counting {
        got,
        bytes: Vec::new(alloc),
        at: 0,
    });
    match Log::open::<u32, Strict<OfType>, Unheard>(alloc, file, 0, &Strict(OfType), &mut Unheard) {
        Ok(mut log) => {
            got.synced.get() == 1
                && settles_each(&mut log, got)
                && reads_back(alloc, log.into_store())
        }
        Err(_) => false,
    }
}

#[test]
fn numbers_behind_syncs(rt: HostRuntime) {
    let got = Got {
        written: Cell::new(0),
        synced: Cell::new(0),
    };
    check(&rt, goes_through_file(rt.alloc(), &got));
}
