//! Appending to a log.
ghost use Rattle.std.specs.Prelude.{◌≡◌, ◌⊎◌, ℕ, ◌+◌, ◌-◌, ◌^◌, ◌<◌, ◌≤◌, max, [], true, false, IfOk, IfErr, IfSome, OnOk, OnErr};
ghost use Rattle.line_io.specs.Device.{Wrote};
ghost use Rattle.line_io.specs.Transfers.{Failed};
ghost use Rattle.link.specs.Listening.{ReceiverFitsInMemory};
ghost use Rattle.journal.specs.Store.{Settles};
ghost use Rattle.journal.specs.Reading.{HaltsBehind, IsHandedTo, OpenCause, OpenedUntil, ReadByCalls, log_reading, visited};
ghost use Rattle.journal.specs.Appending.{Appended, next_after, spent_after, OnNumbered, OnRead, OnStore, OnTried, Unless, UnlessSpent, IsOpened, put_before};

use crate::framing::frame_record;
use crate::reading::{ReadError, read_all};
use crate::stores::{Store, SyncFault, put};
use crate::visitors::Visitor;
use link::MessageReader;
use postcard::Serialize;
use std::alloc::Global;
use thiserror::Error;

/// Why a value wasn't appended.
///
/// Example: see [`Journal::append`].
#[derive(Clone, Copy, PartialEq, Eq, Debug, Drop, Error)]
pub enum AppendError {
    /// The value can't be encoded, or its record has more than N bytes. Nothing was written, and the number wasn't given.
    #[error("refused: {0}")]
    Refused(postcard::Error),
    /// The store failed. Some of the record's bytes were written, perhaps none, but not all. The journal is spent: it can't know
    /// whether the record will be read.
    #[error("write failed")]
    Line,
    /// The journal is spent: an append or a sync failed before. Nothing was written. Open the log again.
    #[error("spent")]
    Spent,
    /// No number is left. Nothing was written.
    #[error("no number left")]
    Full,
}

/// Why a log wasn't opened.
///
/// Example: see [`Journal::open`].
#[derive(Clone, Copy, PartialEq, Eq, Debug, Drop, Error)]
pub enum OpenError {
    /// The zero couldn't be appended.
    #[error("write failed")]
    Line,
    /// The store couldn't be synced.
    #[error("not synced")]
    Sync,
    /// The log wasn't read to its end.
    #[error("{0}")]
    Read(ReadError),
}

/// The store of a log that wasn't opened, and why.
///
/// Example: see [`Journal::open`].
#[derive(Drop)]
pub struct Unopened<S> {
    /// Why it wasn't opened.
    pub cause: OpenError,
    /// The store that was given. It got the zero, unless that couldn't be appended.
    pub store: S,
}

/// A log to append to. A record has at most N bytes, with its zero; N is at least 2.
///
/// Example: see [`Journal::open`].
#[derive(Drop)]
pub struct Journal<S, const N: usize> {
    store: S,
    next: u64,
    spent: bool,
    buffer: [u8; N],
    ghost some: { 1 < N },
}

impl<S: Store, const N: usize> Journal<S, N> {
    ghost use Rattle.journal.specs.Logs.{store_of, next_of, spent_of, log_place};

    /// Opens a log: appends a zero, syncs, and then hands what is read to the visitor.
    ///
    /// The first record of an empty log gets the number `first`; otherwise the next record gets the number after the greatest that
    /// was handed on, and at least `first`. A record is handed on as `Damaged` if more numbers are missing before it than records,
    /// of three bytes each, fit between it and the last record that moved the next number.
    ///
    /// By `Strict(OfType)` a record is read only in the exact frame that appending it writes. By `Ordinary(OfType)` a record is
    /// read at the front of a message, in any encoding: also of a newer writer that added fields at the end. Appending is the same
    /// in both cases.
    ///
    /// # Errors
    /// The store is returned with the reason; nothing that was settled is less so.
    /// - `Line`: the zero couldn't be appended. Nothing was written, and the visitor was handed nothing.
    /// - `Sync`: the store couldn't be synced. It has got the zero, and the visitor was handed nothing.
    /// - `Read`: a read failed, a value couldn't be allocated, or the visitor halted. The store has got the zero and is settled;
    ///   the visitor was handed what `read_all` says.
    ///
    /// # Requires
    /// N is at least 2, and a receiver of N bytes fits in memory (`ReceiverFitsInMemory`); a concrete N costs nothing.
    ///
    /// # Allocates
    /// What the values and the visitor need.
    ///
    /// # Example
    /// ```rust
    /// match Journal::<MemoryStore, 24>::open::<Entry, _, _>(alloc, store, 0, by, &mut Unheard) {
    ///     Ok(mut journal) => {
    ///         let done = append_sealed(&mut journal, value);
    ///         (done, journal.into_store())
    ///     }
    ///     Err(Unopened { cause, store }) => match cause {
    ///         OpenError::Read(_) => (Done::Unread, store),
    ///         _ => (Done::Failed, store),
    ///     },
    /// }
    /// ```
    pub fn open<T: Drop, M: MessageReader<(u64, T)>, V: Visitor<T>>(
        alloc: Global,
        store: S,
        first: u64,
        messages: &M,
        visitor: &mut V,
    ) -> Result<Journal<S, N>, Unopened<S>>
        requires some { 1 < N }
        requires fits { ReceiverFitsInMemory N.row }
        ensures opened { IfOk result (λ j. IsOpened (log_reading (M.judging messages.now) N first)
            (visited V.took V.halts visitor.old visitor.new)
            (S.line store) (log_place S.line S.settled j)) }
        ensures cause { IfErr result (λ e. OpenCause (Failed (S.line store) (S.line e.store))
            (M.judging messages.now).growing (HaltsBehind V.took V.halts visitor.old) e.cause) }
        ensures left { IfErr result
            (λ e. Wrote (S.line store) (S.line e.store) (put_before e.cause)) }
        ensures safe { IfErr result (λ e. S.settled store ≤ S.settled e.store) }
        ensures settled { IfErr result (λ e.
            OnRead e.cause (Settles (S.line e.store).told (S.settled e.store))) }
        ensures so_far { IfErr result (λ e. OpenedUntil (λ c.
            IfSome (S.line e.store).told (λ bytes.
            IsHandedTo (log_reading (M.judging messages.now) N first)
            (visited V.took V.halts visitor.old visitor.new)
            (ReadByCalls (S.line store) (S.line e.store) 3) c bytes))
            visitor.old visitor.new e.cause) }
    {
        let mut store = store;
        if put(&mut store, &[0]) == 0 {
            return Err(Unopened {
                cause: OpenError::Line,
                store,
            });
        }
        if store.sync().is_err() {
            return Err(Unopened {
                cause: OpenError::Sync,
                store,
            });
        }
        match read_all::<T, M, S, V, N>(alloc, &mut store, first, messages, visitor) {
            Ok(next) => Ok(Journal {
                store,
                next,
                spent: false,
                buffer: [0; N],
            }),
            Err(e) => Err(Unopened {
                cause: OpenError::Read(e),
                store,
            }),
        }
    }

    /// A log that continues at the end of this store, with this number; the store is neither read nor written.
    ///
    /// The caller must know that the store ends after a zero, and which numbers were given: as `open`, which appends a zero, syncs
    /// and reads.
    ///
    /// # Requires
    /// N is at least 2, and a receiver of N bytes fits in memory (`ReceiverFitsInMemory`); a concrete N costs nothing.
    pub fn resume(store: S, next: u64) -> Journal<S, N>
        requires some { 1 < N }
        requires fits { ReceiverFitsInMemory N.row }
        ensures store { store_of result ≡ store }
        ensures next { next_of result ≡ next }
        ensures ready { spent_of result ≡ false }
    {
        Journal {
            store,
            next,
            spent: false,
            buffer: [0; N],
        }
    }

    /// Skips all numbers below this one: the next record gets `number`, or the number that it would have got if that is higher.
    pub fn skip_to(&mut self, number: u64)
        ensures next { next_of self.new ≡ max (next_of self.old) number }
        ensures spent { spent_of self.new ≡ spent_of self.old }
        ensures store { store_of self.new ≡ store_of self.old }
    {
        self.next = self.next.max(number);
    }

    /// The number of the next record. If it is the greatest `u64`, no number is left (`AppendError::Full`).
    pub fn next(&self) -> u64
        ensures { result ≡ next_of self.now }
    {
        self.next
    }

    /// Whether an append or a sync failed. Then nothing more is appended.
    pub fn is_spent(&self) -> bool
        ensures { result ≡ spent_of self.now }
    {
        self.spent
    }

    /// Returns the store, with all that was written to it.
    pub fn into_store(self) -> S
        ensures { result ≡ store_of self }
    {
        let Journal {
            store,
            next: _,
            spent: _,
            buffer: _,
        } = self;
        store
    }

    /// Appends a value, and returns the number of its record. It survives a crash once a later `sync` is `Ok`.
    ///
    /// The record is complete in the journal's own buffer before its first byte is written. It takes one call of the store, if that
    /// takes whole chunks. Allocates nothing.
    ///
    /// # Errors
    /// - `Refused`: the value can't be encoded, or its record has more than N bytes. Nothing was written, and the number wasn't
    ///   given.
    /// - `Line`: the store failed. A proper prefix of the record, perhaps empty, was written, and the journal is spent.
    /// - `Spent`: an append or a sync failed before. Nothing was written; open the log again.
    /// - `Full`: no number is left. Nothing was written.
    ///
    /// # Example
    /// ```rust
    /// let entry = Sealed((journal.next(), value));
    /// match journal.append(&entry) {
    ///     Ok(number) => match journal.sync() {
    ///         Ok(()) => Done::Settled(number),
    ///         Err(_) => Done::Failed,
    ///     },
    ///     Err(AppendError::Refused(_)) => Done::TooLong,
    ///     Err(_) => Done::Failed,
    /// }
    /// ```
    pub fn append<T: Serialize>(&mut self, value: &T) -> Result<u64, AppendError>
        ensures appended { Appended (N - 1) (T.form.writes value.now) result
            (log_place S.line S.settled self.old) (log_place S.line S.settled self.new) }
        ensures next { next_of self.new ≡ next_after (next_of self.old) result }
        ensures spent { spent_of self.new ≡ spent_after (spent_of self.old) result }
        ensures ready { UnlessSpent result (spent_of self.old ≡ false) }
        ensures number { OnNumbered result (next_of self.old < 2 ^ 64 - 1) }
        ensures valid { OnOk result (T.form.valid value.now) }
        ensures untouched { Unless result (store_of self.new ≡ store_of self.old) }
        ensures settled { S.settled (store_of self.new) ≡ S.settled (store_of self.old) }
        ensures quiet { OnOk result
            ((S.line (store_of self.new)).faults ≡ (S.line (store_of self.old)).faults) }
        ensures once { S.whole (store_of self.old) → OnTried result
            ((S.line (store_of self.new)).calls_left
            ≡ (S.line (store_of self.old)).calls_left - 1) }
        ensures few { (S.line (store_of self.old)).calls_left
            ≤ (S.line (store_of self.new)).calls_left + N }
        ensures cause { OnStore result
            (Failed (S.line (store_of self.old)) (S.line (store_of self.new))) }
    {
        if self.spent {
            return Err(AppendError::Spent);
        }
        let number = self.next;
        if number == u64::MAX {
            return Err(AppendError::Full);
        }
        let length = match frame_record(number, value, &mut self.buffer) {
            Ok(n) => n,
            Err(e) => return Err(AppendError::Refused(e)),
        };
        if put(&mut self.store, &self.buffer[..length]) < length {
            self.spent = true;
            return Err(AppendError::Line);
        }
        self.next = number + 1;
        Ok(number)
    }

    /// Makes all records so far survive any crash.
    ///
    /// # Errors
    /// `SyncFault`: the journal was spent, or the sync failed. It is spent then, because a later sync that is `Ok` wouldn't show
    /// what this one lost.
    pub fn sync(&mut self) -> Result<(), SyncFault>
        ensures settled { OnOk result
            (Settles (S.line (store_of self.new)).told (S.settled (store_of self.new))) }
        ensures no_less { S.settled (store_of self.old) ≤ S.settled (store_of self.new) }
        ensures held { (S.line (store_of self.new)).told ≡ (S.line (store_of self.old)).told }
        ensures quiet { OnOk result
            ((S.line (store_of self.new)).faults ≡ (S.line (store_of self.old)).faults) }
        ensures cause { OnErr result ((spent_of self.old ≡ true)
            ⊎ Failed (S.line (store_of self.old)) (S.line (store_of self.new))) }
        ensures untouched { spent_of self.old ≡ true → store_of self.new ≡ store_of self.old }
        ensures few { (S.line (store_of self.old)).calls_left
            ≤ (S.line (store_of self.new)).calls_left + 1 }
        ensures next { next_of self.new ≡ next_of self.old }
        ensures ready { OnOk result ((spent_of self.old ≡ false) × (spent_of self.new ≡ false)) }
        ensures spent { OnErr result (spent_of self.new ≡ true) }
    {
        if self.spent {
            return Err(SyncFault);
        }
        match self.store.sync() {
            Ok(()) => Ok(()),
            Err(e) => {
                self.spent = true;
                Err(e)
            }
        }
    }
}
