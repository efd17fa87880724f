//! Scanning a log stretch by stretch, with their positions.
ghost use Rattle.std.specs.Prelude.{◌≡◌, ◌+◌, ◌-◌, ◌<◌, ◌≤◌, ◌^◌, ℕ, List, ◌∷◌, ◌++◌, Err, Some, None, OnOk, OnErr, IfOk, IfErr, IfSome, MatchOption, MatchResult, length, take, drop, vec_len, true, false};
ghost use Rattle.line_io.specs.Transfers.{Failed};
ghost use Rattle.link.specs.Laws.{EndsBetween};
ghost use Rattle.link.specs.Stream.{ended};
ghost use Rattle.journal.specs.Store.{EndsBefore};
ghost use Rattle.journal_scan.specs.Stretches.{is_past, ended_stretch};

use journal::stores::Store;
use link::{Answer, OwnedReceiver, Pushed};
use postcard::{DeserializeOwned, Exact};
use std::alloc::Global;
use thiserror::Error;

// How many bytes are asked for in one read.
const ROOM: usize = 16384;

/// Why the next stretch isn't known.
///
/// Example: see [`Stretch`].
#[derive(Clone, Copy, PartialEq, Eq, Debug, Drop, Error)]
pub enum ScanError {
    /// A read failed, or the store has no call left.
    #[error("read failed")]
    Fault,
    /// A value, or the buffers of the scan, couldn't be allocated.
    #[error("no memory")]
    NoMemory,
}

/// A stretch of a log: the bytes from..to of the store, none of which is a zero, and the result. A zero or the store's end follows.
///
/// # Example
/// ```rust
/// fn add_stretch(found: Result<Option<Stretch<u32>>, ScanError>, all: &mut Vec<u8>) -> bool {
///     match found {
///         Ok(Some(stretch)) => match &stretch.answer {
///             Answer::Value(record) => add_frame(all, record),
///             _ => true,
///         },
///         Ok(None) => true,
///         Err(_) => false,
///     }
/// }
/// ```
#[derive(Drop)]
pub struct Stretch<T> {
    /// The offset of its first byte, in bytes.
    pub from: u64,
    /// The offset after its last byte, in bytes.
    pub to: u64,
    /// Whether it is a record, or what damage.
    pub answer: Answer<(u64, T)>,
}

// Whether a stretch is too long.
fn is_too_long<T>(answer: &Option<Answer<T>>) -> bool
    ensures { result ≡ is_past answer.now }
{
    match answer {
        None => false,
        Some(Answer::Value(_)) => false,
        Some(Answer::Damaged) => false,
        Some(Answer::TooLong) => true,
        Some(Answer::Cut) => false,
    }
}

// The stretch that a result ends: none if it is too long, since that is known before its zero is read.
fn stretch_of<T>(from: u64, to: u64, answer: Option<Answer<(u64, T)>>) -> Option<Stretch<T>>
    ensures { result ≡ ended_stretch from to answer }
{
    let answer = match answer {
        None => return None,
        Some(Answer::TooLong) => return None,
        Some(Answer::Value(record)) => Answer::Value(record),
        Some(Answer::Damaged) => Answer::Damaged,
        Some(Answer::Cut) => Answer::Cut,
    };
    Some(Stretch { from, to, answer })
}

/// Scans a log, and keeps one stretch's and one read's bytes of it.
///
/// Example: see [`Scan::new`].
#[derive(Drop)]
pub struct Scan {
    receiver: OwnedReceiver,
    // what was read last: start..end of it is at the offset `at`, and wasn't scanned yet
    room: Vec<u8>,
    start: usize,
    end: usize,
    at: u64,
    // the start of the unfinished stretch, and whether it is too long
    from: u64,
    past: bool,
    ghost order: { start ≤ end },
    ghost in_room: { end ≤ vec_len room },
    ghost some_room: { 0 < vec_len room },
    ghost fits: { at + (end - start) < 2 ^ 64 },
}

impl Scan {
    ghost use Rattle.journal_scan.specs.Scanning.{IsScanning, offset_of, Goes, Found, FoundAll, FoundLast, IsLostStretch, IsLostLast, IsUnfinishedStretch};

    /// A scan from an offset, which is 0 or follows a zero, with stretches of at most `limit` bytes.
    ///
    /// # Errors
    /// `NoMemory`: the buffers for one stretch and one read couldn't be allocated.
    ///
    /// # Allocates
    /// `limit` bytes for a stretch, and 16384 for a read.
    ///
    /// # Example
    /// ```rust
    /// match Scan::new(alloc, LIMIT, 0) {
    ///     Ok(scan) => all.push(0u8).is_ok() && add_all(alloc, scan, bytes, all),
    ///     Err(_) => false,
    /// }
    /// ```
    pub fn new(alloc: Global, limit: usize, at: u64) -> Result<Scan, ScanError>
        ensures stands { IfOk result (λ scan. (bytes : List ℕ) → at ≤ length bytes
            → EndsBetween 0 (take at bytes) → IsScanning limit bytes scan) }
        ensures at { IfOk result (λ scan. offset_of scan ≡ at) }
        ensures memory { IfErr result (λ e. e ≡ ScanError.NoMemory) }
    {
        let Ok(receiver) = OwnedReceiver::new(alloc, limit, 0) else {
            return Err(ScanError::NoMemory);
        };
        let mut room = Vec::new(alloc);
        match room.resize(ROOM, 0u8) {
            Ok(()) => Ok(Scan {
                receiver,
                room,
                start: 0,
                end: 0,
                at,
                from: at,
                past: false,
            }),
            Err(_) => Err(ScanError::NoMemory),
        }
    }

    /// The offset of the next byte.
    pub fn at(&self) -> u64
        ensures { result ≡ offset_of self.now }
    {
        self.at
    }

    // Reads at the offset; false is the end.
    fn fill<S: Store>(&mut self, store: &mut S) -> Result<bool, ScanError>
        ensures stands { (limit : ℕ) (bytes : List ℕ) → (S.line store.old).told ≡ Some bytes
            → IsScanning limit bytes self.old → IsScanning limit bytes self.new }
        ensures at { self.new.at ≡ self.old.at }
        ensures end { IfOk result (λ more. more ≡ false
            → EndsBefore (S.line store.old).told self.old.at) }
        ensures held { (S.line store.new).told ≡ (S.line store.old).told }
        ensures settled { S.settled store.new ≡ S.settled store.old }
        ensures quiet { OnOk result ((S.line store.new).faults ≡ (S.line store.old).faults) }
        ensures fault { IfErr result
            (λ e. (e ≡ ScanError.Fault) × Failed (S.line store.old) (S.line store.new)) }
        ensures more { (S.line store.old).faults ≤ (S.line store.new).faults }
        ensures calls { OnOk result
            ((S.line store.new).calls_left < (S.line store.old).calls_left) }
    {
        match store.read_at(self.at, &mut self.room) {
            None => {
                self.start = 0;
                self.end = 0;
                Err(ScanError::Fault)
            }
            Some(n) => {
                self.start = 0;
                self.end = n;
                Ok(n > 0)
            }
        }
    }

    // Skips zeros, if no stretch has begun.
    fn skip_zeros(&mut self)
        ensures stands { (limit : ℕ) (bytes : List ℕ) → IsScanning limit bytes self.old
            → IsScanning limit bytes self.new
            × (ended 0 (take self.new.at bytes) ≡ ended 0 (take self.old.at bytes)) }
        ensures past { self.new.past ≡ self.old.past }
        ensures back { self.old.at ≤ self.new.at }
        ensures first { self.new.from ≡ self.new.at → (rest : List ℕ)
            → drop self.new.start (take self.new.end self.new.room.items) ≡ 0 ∷ rest → ⊥ }
    {
        if self.from < self.at {
            return;
        }
        while self.start < self.end && self.room[self.start] == 0 {
            self.start += 1;
            self.at += 1;
            self.from = self.at;
        }
    }

    // Gives the receiver what was read, up to the first result.
    fn push<T: DeserializeOwned + Exact>(
        &mut self,
        alloc: Global,
    ) -> Result<Option<Stretch<T>>, ScanError>
        requires first { self.old.from ≡ self.old.at → (rest : List ℕ)
            → drop self.old.start (take self.old.end self.old.room.items) ≡ 0 ∷ rest → ⊥ }
        requires within { self.old.past ≡ false }
        ensures goes { (limit : ℕ) (bytes : List ℕ) → IsScanning limit bytes self.old
            → Goes T.form limit bytes self.old self.new result }
        ensures memory { IfErr result (λ e. (e ≡ ScanError.NoMemory) × (T.form.growing ≡ true)) }
        ensures back { self.old.at ≤ self.new.at }
        ensures on { IfOk result (λ o. IfSome o (λ _. self.old.at < self.new.at)) }
    {
        if self.start == self.end {
            return Ok(None);
        }
        let (front, _) = self.room.split_at(self.end);
        let (_, rest) = front.split_at(self.start);
        let Pushed { used, answer, .. } = self.receiver.push_strict::<(u64, T)>(alloc, rest);
        let from = self.from;
        let to = self.at + (used - 1) as u64;
        self.start += used;
        self.at += used as u64;
        let answer = match answer {
            Ok(answer) => answer,
            Err(_) => {
                self.from = self.at;
                return Err(ScanError::NoMemory);
            }
        };
        self.past = is_too_long(&answer);
        match stretch_of(from, to, answer) {
            Some(stretch) => {
                self.from = self.at;
                Ok(Some(stretch))
            }
            None => Ok(None),
        }
    }

    // Skips a stretch that is too long, and returns it once its zero was read.
    fn pass<T: DeserializeOwned>(&mut self) -> Option<Stretch<T>>
        requires past { self.old.past ≡ true }
        ensures back { self.old.at ≤ self.new.at }
        ensures on { IfSome result (λ _. self.old.at < self.new.at) }
        ensures stands { (limit : ℕ) (bytes : List ℕ) → IsScanning limit bytes self.old
            → IsScanning limit bytes self.new
            × Found T.form limit bytes self.old.at self.new.at result }
    {
        while self.start < self.end {
            let byte = self.room[self.start];
            let (from, to) = (self.from, self.at);
            self.start += 1;
            self.at += 1;
            if byte == 0 {
                let _ = self.receiver.restart::<()>();
                self.from = self.at;
                self.past = false;
                return Some(Stretch {
                    from,
                    to,
                    answer: Answer::TooLong,
                });
            }
        }
        None
    }

    /// The stretch that no zero ends yet, if one has begun: `Cut`, or `TooLong`.
    pub fn unfinished<T>(&self) -> Option<Stretch<T>>
        ensures { (limit : ℕ) (bytes : List ℕ) → IsScanning limit bytes self.now
            → IsUnfinishedStretch limit bytes (offset_of self.now) result }
    {
        let (from, to) = (self.from, self.at);
        if from == to {
            return None;
        }
        let answer = if self.past {
            Answer::TooLong
        } else {
            Answer::Cut
        };
        Some(Stretch { from, to, answer })
    }

    // The next stretch that a zero ends in what was read.
    fn next_read<T: DeserializeOwned + Exact>(
        &mut self,
        alloc: Global,
    ) -> Result<Option<Stretch<T>>, ScanError>
        ensures goes { (limit : ℕ) (bytes : List ℕ) → IsScanning limit bytes self.old
            → Goes T.form limit bytes self.old self.new result }
        ensures memory { IfErr result (λ e. (e ≡ ScanError.NoMemory) × (T.form.growing ≡ true)) }
        ensures back { self.old.at ≤ self.new.at }
        ensures on { IfOk result (λ o. IfSome o (λ _. self.old.at < self.new.at)) }
    {
        if self.past {
            return Ok(self.pass::<T>());
        }
        self.skip_zeros();
        match self.push::<T>(alloc)? {
            Some(stretch) => Ok(Some(stretch)),
            None => {
                if self.past {
                    Ok(self.pass::<T>())
                } else {
                    Ok(None)
                }
            }
        }
    }

    /// The next stretch that a zero ends; `None` at the end of what the store holds now. Called again later, it continues with what
    /// was appended since.
    ///
    /// # Errors
    /// - `Fault`: a read failed. No stretch was passed: called again, it finds the next one.
    /// - `NoMemory`: a value couldn't be allocated. Exactly its stretch was passed, a frame within the limit; the scan is after its
    ///   zero.
    ///
    /// # Allocates
    /// What the value needs.
    ///
    /// # Example
    /// ```rust
    /// for _ in bytes {
    ///     if !add_stretch(scan.next_ended::<u32, MemoryStore>(alloc, &mut from), all) {
    ///         return false;
    ///     }
    /// }
    /// add_stretch(scan.finish::<u32>(alloc), all)
    /// ```
    pub fn next_ended<T: DeserializeOwned + Exact, S: Store>(
        &mut self,
        alloc: Global,
        store: &mut S,
    ) -> Result<Option<Stretch<T>>, ScanError>
        ensures stands { (limit : ℕ) (bytes : List ℕ) → (S.line store.old).told ≡ Some bytes
            → IsScanning limit bytes self.old → IsScanning limit bytes self.new }
        ensures found { IfOk result (λ o. (limit : ℕ) (bytes : List ℕ)
            → (S.line store.old).told ≡ Some bytes → IsScanning limit bytes self.old
            → FoundAll T.form limit bytes (offset_of self.old)
            (offset_of self.new) o) }
        ensures on { IfOk result (λ o. IfSome o (λ _. offset_of self.old < offset_of self.new)) }
        ensures held { (S.line store.new).told ≡ (S.line store.old).told }
        ensures settled { S.settled store.new ≡ S.settled store.old }
        ensures quiet { OnOk result ((S.line store.new).faults ≡ (S.line store.old).faults) }
        ensures fault { result ≡ Err ScanError.Fault
            → Failed (S.line store.old) (S.line store.new) }
        ensures lost_none { result ≡ Err ScanError.Fault → (limit : ℕ) (bytes : List ℕ)
            → (S.line store.old).told ≡ Some bytes → IsScanning limit bytes self.old
            → Found T.form limit bytes (offset_of self.old)
            (offset_of self.new) None }
        ensures memory { result ≡ Err ScanError.NoMemory → T.form.growing ≡ true }
        ensures lost_one { result ≡ Err ScanError.NoMemory → (limit : ℕ) (bytes : List ℕ)
            → (S.line store.old).told ≡ Some bytes → IsScanning limit bytes self.old
            → IsLostStretch limit bytes (offset_of self.old) (offset_of self.new) }
        ensures calm { result ≡ Err ScanError.NoMemory
            → (S.line store.new).faults ≡ (S.line store.old).faults }
        ensures more { (S.line store.old).faults ≤ (S.line store.new).faults }
    {
        loop {
            match self.next_read::<T>(alloc)? {
                Some(stretch) => return Ok(Some(stretch)),
                None => {}
            }
            if !self.fill(store)? {
                return Ok(None);
            }
        }
    }

    // The stretch that a zero after the log ends, for a scan at the log's end. The scan ends with it.
    pub(crate) fn close<T: DeserializeOwned + Exact>(
        &mut self,
        alloc: Global,
    ) -> Result<Option<Stretch<T>>, ScanError>
        ensures found { IfOk result (λ o. (limit : ℕ) (bytes : List ℕ)
            → IsScanning limit bytes self.old → offset_of self.old ≡ length bytes
            → FoundLast T.form limit bytes o) }
        ensures memory { IfErr result (λ e. (e ≡ ScanError.NoMemory) × (T.form.growing ≡ true)) }
        ensures lost { OnErr result ((limit : ℕ) (bytes : List ℕ) → IsScanning limit bytes self.old
            → offset_of self.old ≡ length bytes → IsLostLast limit bytes) }
    {
        let (from, to) = (self.from, self.at);
        if from == to {
            return Ok(None);
        }
        if self.past {
            let answer = Answer::TooLong;
            return Ok(Some(Stretch { from, to, answer }));
        }
        let Pushed { answer, .. } = self.receiver.push_strict::<(u64, T)>(alloc, &[0]);
        match answer {
            Ok(answer) => Ok(stretch_of(from, to, answer)),
            Err(_) => Err(ScanError::NoMemory),
        }
    }

    /// The stretch after the last zero, if there is one, judged as if one more zero followed: opening the log appends one.
    ///
    /// Call it at the end of the store, when `next_ended` has returned `None`.
    ///
    /// # Errors
    /// `NoMemory`: its value couldn't be allocated. Then there is such a stretch, a frame within the limit.
    ///
    /// # Allocates
    /// What the value needs.
    pub fn finish<T: DeserializeOwned + Exact>(
        self,
        alloc: Global,
    ) -> Result<Option<Stretch<T>>, ScanError>
        ensures found { IfOk result (λ o. (limit : ℕ) (bytes : List ℕ) → IsScanning limit bytes self
            → offset_of self ≡ length bytes → FoundLast T.form limit bytes o) }
        ensures memory { IfErr result (λ e. (e ≡ ScanError.NoMemory) × (T.form.growing ≡ true)) }
        ensures lost { OnErr result ((limit : ℕ) (bytes : List ℕ) → IsScanning limit bytes self
            → offset_of self ≡ length bytes → IsLostLast limit bytes) }
    {
        let mut scan = self;
        scan.close(alloc)
    }
}
