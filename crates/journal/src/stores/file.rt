//! A store over a file of std.
ghost use Rattle.std.specs.Prelude.{◌≡◌, ◌+◌, ◌-◌, ◌≤◌, ◌^◌};

use crate::stores::{Store, SyncFault};
use line_io::read_front;
use std::fs::OpenFile;
use std::io::{Read, Seek, SeekFrom, Write};

/// A store over a file that was opened for reading and appending. It reports no bytes: no contract can say what a
/// file holds.
///
/// Open the file in append mode, so that each write goes to the end, even if another handle has written. Nothing is
/// retried.
///
/// # Example
/// ```rust
/// let file = Stored::new(Counting {
///     got,
///     bytes: Vec::new(alloc),
///     at: 0,
/// });
/// ```
#[derive(Drop)]
pub struct Stored<F> {
    file: F,
    faults: u64,
    calls: u64,
    ghost counted: { faults + calls ≤ 2 ^ 64 - 1 },
}

impl<F> Stored<F> {
    ghost use Rattle.journal.specs.Files.{file_line};
    ghost use Rattle.journal.specs.Store.{IsFresh};

    /// A store over a file, without faults so far.
    pub fn new(file: F) -> Stored<F>
        ensures fresh { IsFresh (file_line result) }
    {
        Stored {
            file,
            faults: 0,
            calls: u64::MAX,
        }
    }
}

impl<F: Read + Write + Seek + OpenFile> Store for Stored<F> {
    ghost use Rattle.journal.specs.Files.{file_line};

    ghost line = { file_line };

    ghost settled = { λ _. 0 };

    // no contract can say how much a file takes
    ghost whole = { λ _. ⊥ };

    fn append(&mut self, piece: &[u8]) -> Option<usize> {
        if self.calls == 0 {
            return None;
        }
        self.calls -= 1;
        match self.file.write(piece) {
            Ok(n) => {
                if n == 0 && !piece.is_empty() {
                    self.faults += 1;
                }
                Some(n)
            }
            Err(_) => {
                self.faults += 1;
                None
            }
        }
    }

    fn read_at(&mut self, at: u64, room: &mut [u8]) -> Option<usize> {
        if self.calls == 0 {
            return None;
        }
        self.calls -= 1;
        let most = u64::MAX - at;
        if room.len() as u64 > most || self.file.seek(SeekFrom::Start(at)).is_err() {
            self.faults += 1;
            return None;
        }
        match read_front(&mut self.file, room) {
            Some(n) => Some(n),
            None => {
                self.faults += 1;
                None
            }
        }
    }

    fn sync(&mut self) -> Result<(), SyncFault> {
        if self.calls == 0 {
            return Err(SyncFault);
        }
        self.calls -= 1;
        match self.file.sync_all() {
            Ok(()) => Ok(()),
            Err(_) => {
                self.faults += 1;
                Err(SyncFault)
            }
        }
    }
}
