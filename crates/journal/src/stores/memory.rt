//! A store in memory, for tests.
ghost use Rattle.std.specs.Prelude.{◌≡◌, ℕ, ◌+◌, ◌-◌, ◌<◌, ◌≤◌, ◌^◌, List, [], ◌++◌, length, take, replicate, Option, None, Some, IfSome, max};

use crate::stores::{Store, SyncFault};
use std::alloc::Global;

/// A store in memory, which can fail once after a given number of bytes, and crash. An append that is out of memory is a
/// fault too.
///
/// # Allocates
/// What the bytes grow by, at each append.
///
/// # Example
/// ```rust
/// let mut store = MemoryStore::new(Vec::new(rt.alloc()));
/// store.fail_after(3);
/// check(
///     &rt,
///     put(&mut store, &[1, 2, 3, 4]) == 3
///         && put(&mut store, &[4, 5]) == 2
///         && is_read(&mut store, 2, &[3, 4, 5])
///         && store.settled() == 0
///         && store.sync().is_ok()
///         && store.settled() == 5,
/// );
/// ```
#[derive(Drop)]
pub struct MemoryStore {
    bytes: Vec<u8>,
    settled: usize,
    fault: Option<usize>,
    faults: u64,
    calls: u64,
    ghost settled_in: { settled ≤ length bytes.items },
    ghost counted: { faults + calls ≤ 2 ^ 64 - 1 },
}

impl MemoryStore {
    ghost use Rattle.journal.specs.Memory.{bytes_in, settled_in, fault_in, line_in};
    ghost use Rattle.journal.specs.Store.{IsFresh};

    /// A store that holds these bytes, all of them settled.
    pub fn new(bytes: Vec<u8>) -> MemoryStore
        ensures fresh { IsFresh (line_in result) }
        ensures sound { fault_in result ≡ None }
        ensures bytes { bytes_in result ≡ bytes.items }
        ensures settled { settled_in result ≡ length bytes.items }
    {
        MemoryStore {
            settled: bytes.len(),
            bytes,
            fault: None,
            faults: 0,
            calls: u64::MAX,
        }
    }

    /// Makes an append fail once, after `count` more bytes; an append before that takes what is left of them.
    pub fn fail_after(&mut self, count: usize)
        ensures fault { fault_in self.new ≡ Some count }
        ensures line { line_in self.new ≡ line_in self.old }
        ensures bytes { bytes_in self.new ≡ bytes_in self.old }
        ensures settled { settled_in self.new ≡ settled_in self.old }
    {
        self.fault = Some(count);
    }

    /// Returns the bytes that it holds.
    pub fn bytes(&self) -> &[u8]
        ensures { result.now ≡ bytes_in self.now }
    {
        &self.bytes
    }

    /// Returns how many of them no crash takes.
    pub fn settled(&self) -> usize
        ensures { result ≡ settled_in self.now }
    {
        self.settled
    }

    /// Returns the store after a crash, with all of its bytes settled; `None` when out of memory for the zeros.
    ///
    /// Of the bytes that aren't settled at most `left` remain; `zeros` zeros follow them, as a file system shows
    /// bytes that were never written.
    ///
    /// # Allocates
    /// What the zeros need.
    ///
    /// # Example
    /// ```rust
    /// let held = store.crash(0, 2);
    /// check(
    ///     &rt,
    ///     matches!(&held, Some(store) if are_bytes(store.bytes(), b"abc\0\0")),
    /// );
    /// ```
    pub fn crash(self, left: usize, zeros: usize) -> Option<MemoryStore>
        ensures bytes { IfSome result
            (λ m. bytes_in m ≡ take (settled_in self + left) (bytes_in self) ++ replicate zeros 0) }
        ensures settled { IfSome result (λ m. settled_in m ≡ length (bytes_in m)) }
        ensures fresh { IfSome result (λ m. IsFresh (line_in m)) }
        ensures sound { IfSome result (λ m. fault_in m ≡ None) }
        ensures memory { result ≡ None → 0 < zeros }
    {
        let MemoryStore {
            mut bytes,
            settled,
            fault: _,
            faults: _,
            calls: _,
        } = self;
        let kept = settled + left.min(bytes.len() - settled);
        bytes.truncate(kept);
        bytes.resize(kept.checked_add(zeros)?, 0).ok()?;
        Some(MemoryStore::new(bytes))
    }
}

impl Store for MemoryStore {
    ghost use Rattle.journal.specs.Memory.{line_in, settled_in, fault_in};

    ghost line = { line_in };

    ghost settled = { settled_in };

    ghost whole = { λ m. fault_in m ≡ None };

    fn append(&mut self, piece: &[u8]) -> Option<usize> {
        if self.calls == 0 {
            return None;
        }
        self.calls -= 1;
        let mut count = piece.len();
        if let Some(before) = self.fault {
            if before == 0 && !piece.is_empty() {
                self.fault = None;
                self.faults += 1;
                return None;
            }
            count = count.min(before);
            self.fault = Some(before - count);
        }
        match self.bytes.extend_from_slice(&piece[..count]) {
            Ok(()) => Some(count),
            Err(_) => {
                self.faults += 1;
                None
            }
        }
    }

    fn read_at(&mut self, at: u64, room: &mut [u8]) -> Option<usize> {
        if self.calls == 0 {
            return None;
        }
        self.calls -= 1;
        let start = (at as usize).min(self.bytes.len());
        let count = room.len().min(self.bytes.len() - start);
        room[..count].copy_from_slice(&self.bytes[start..start + count]);
        Some(count)
    }

    fn sync(&mut self) -> Result<(), SyncFault> {
        self.settled = self.bytes.len();
        Ok(())
    }
}
