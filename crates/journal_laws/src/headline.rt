//! Opening a log, and what that reads, whatever happened to the log before.
ghost use Rattle.std.specs.Prelude.{◌≡◌, ℕ, ◌<◌, ◌-◌, ◌^◌, [], length, IfOk, OnOk, IfSome};
ghost use Rattle.postcard_tree.specs.Tree.{Tree};
ghost use Rattle.link.specs.Laws.{Appends};
ghost use Rattle.link.specs.Listening.{ReceiverFitsInMemory};
ghost use Rattle.journal.specs.Logs.{store_of, next_of, log_place};
ghost use Rattle.journal.specs.Reading.{visited};
ghost use Rattle.journal_scan.specs.Checks.{watched};
ghost use Rattle.journal.specs.Records.{takes_record, reads_record};
ghost use Rattle.journal_laws.specs.Numbers.{CountsOn};
ghost use Rattle.journal_laws.specs.Together.{OpensHistory, JudgesAnyHistory, GoesOnCounted};
ghost use Rattle.journal_laws.specs.Sessions.{AppendsAll, GoesOnFrom};

use journal::stores::Store;
use journal::{AppendError, Journal, Unopened, Visitor};
use journal_scan::{Report, Watcher, open_by};
use link::{MessageReader, OfType, Ordinary, Strict};
use postcard::{DeserializeOwned, Exact, Lawful};
use postcard_tree::Readable;
use std::alloc::Global;

/// A way of judging stretches for which the laws of logs hold: `Strict(OfType)` and `Ordinary(OfType)`.
///
/// # Example
/// ```rust
/// fn go_on<M: LogReader<u32>>(
///     alloc: Global,
///     messages: &M,
///     store: MemoryStore,
///     values: &[u32],
/// ) -> Option<(u64, MemoryStore)> {
///     match session::<u32, M, MemoryStore, Unheard, 24>(
///         alloc,
///         store,
///         messages,
///         &mut Unheard,
///         values,
///     ) {
///         Some(journal) => Some((journal.next(), journal.into_store())),
///         None => None,
///     }
/// }
/// ```
pub trait LogReader<T: Readable>: MessageReader<(u64, T)> {
    /// Shows that they do, and does nothing: records that were numbered from 0 on are read so; bytes after a zero add their own results;
    /// and a record is read as its number and its value.
    fn show_laws(&self)
        ensures counts { (limit : ℕ)
            → CountsOn (takes_record T.form.takes) (Self.judging self.now).holds limit 0 }
        ensures appends { (limit : ℕ) → Appends (Self.judging self.now).holds limit 0 }
        ensures records { (t : Tree) (r : ℕ × T) → (Self.judging self.now).reads t r
            → reads_record T.form.reads t r };
}

impl<T: DeserializeOwned> LogReader<T> for Ordinary<OfType> {
    fn show_laws(&self) {
        crate::laws::counts_on::<(u64, T)>();
        link_laws::append::<(u64, T)>();
    }
}

impl<T: DeserializeOwned + Exact> LogReader<T> for Strict<OfType> {
    fn show_laws(&self) {
        crate::laws::counts_on::<(u64, T)>();
        link_laws::append::<(u64, T)>();
    }
}

/// Opens a log whose store holds what any history leaves: openings, appends that completed or were interrupted at any byte, and
/// crashes that left any number of bytes.
///
/// What is read carries the numbers 0, 1, 2 and on, none missing and none twice. It is exactly the records of the appends that
/// completed, or whose whole frame was written, as far as crashes left them; and the next record gets the next number. The same is
/// read strictly and ordinarily.
///
/// # Errors
/// As `Journal::open`.
///
/// # Requires
/// N is at least 2, and a receiver of N bytes fits in memory (`ReceiverFitsInMemory`); a concrete N costs nothing.
///
/// # Allocates
/// What the values and the visitor need.
pub fn open_history<T: Readable + Drop, M: LogReader<T>, S: Store, V: Visitor<T>, const N: usize>(
    alloc: Global,
    store: S,
    messages: &M,
    visitor: &mut V,
) -> Result<Journal<S, N>, Unopened<S>>
    requires some { 1 < N }
    requires fits { ReceiverFitsInMemory N.row }
    ensures { IfOk result (λ j. OpensHistory T.form N
        (visited V.took V.halts visitor.old visitor.new)
        (S.line store).told (log_place S.line S.settled j)) }
{
    messages.show_laws();
    match Journal::<S, N>::open::<T, M, V>(alloc, store, 0, messages, visitor) {
        Ok(journal) => Ok(journal),
        Err(e) => Err(e),
    }
}

/// Appends values in turn, up to the first that isn't appended.
///
/// # Errors
/// As `Journal::append`, for the first value that isn't appended.
pub fn append_each<T: Lawful, S: Store, const N: usize>(
    journal: &mut Journal<S, N>,
    values: &[T],
) -> Result<(), AppendError>
    ensures all { OnOk result
        (AppendsAll T.form N (log_place S.line S.settled journal.old)
        (log_place S.line S.settled journal.new) values.now) }
    ensures numbers { OnOk result (0 < length values.now → next_of journal.old < 2 ^ 64 - 1) }
{
    for value in values {
        journal.append(value)?;
        postcard::laws::taken(value);
    }
    Ok(())
}

// Appends all of the values, or drops the journal.
fn append_all<T: Lawful, S: Store + Drop, const N: usize>(
    journal: Journal<S, N>,
    values: &[T],
) -> Option<Journal<S, N>>
    ensures all { IfSome result
        (λ j. AppendsAll T.form N (log_place S.line S.settled journal)
        (log_place S.line S.settled j) values.now) }
    ensures numbers { IfSome result (λ j. 0 < length values.now → next_of journal < 2 ^ 64 - 1) }
{
    let mut journal = journal;
    match append_each(&mut journal, values) {
        Ok(()) => Some(journal),
        Err(_) => None,
    }
}

/// Opens a log and appends values in turn; returns nothing if any of that fails. If the store held what a history leaves, it holds
/// then what that history leaves with this session after it.
///
/// # Requires
/// N is at least 2, and a receiver of N bytes fits in memory (`ReceiverFitsInMemory`); a concrete N costs nothing.
///
/// # Allocates
/// What the values and the visitor need.
pub fn session<T: Lawful + Drop, M: LogReader<T>, S: Store + Drop, V: Visitor<T>, const N: usize>(
    alloc: Global,
    store: S,
    messages: &M,
    visitor: &mut V,
    values: &[T],
) -> Option<Journal<S, N>>
    requires some { 1 < N }
    requires fits { ReceiverFitsInMemory N.row }
    ensures { IfSome result (λ j. GoesOnFrom T.form N
        (S.line store).told (S.line (store_of j)).told values.now) }
{
    crate::laws::bytes::<(u64, T)>();
    match open_history::<T, M, S, V, N>(alloc, store, messages, visitor) {
        Ok(journal) => append_all(journal, values),
        Err(_) => None,
    }
}

/// Opens a log by the records that count, as a program does whose records are sealed.
///
/// If the store holds what a history leaves, each record of which counts: the stretches of that history are reported with its
/// records, numbered 0, 1, 2 and on; none is missing, none is there twice, nothing is unfinished, and the next record gets the next
/// number.
///
/// # Errors
/// As `open_by`.
///
/// # Requires
/// N is at least 2, and a receiver of N bytes fits in memory (`ReceiverFitsInMemory`); a concrete N costs nothing.
///
/// # Allocates
/// As `open_by`.
pub fn open_history_by<T: DeserializeOwned + Exact, S: Store, W: Watcher<T>, const N: usize>(
    alloc: Global,
    store: S,
    watcher: &mut W,
) -> Result<(Journal<S, N>, Report<T>), Unopened<S>>
    requires some { 1 < N }
    requires fits { ReceiverFitsInMemory N.row }
    ensures { IfOk result (λ r. JudgesAnyHistory T.form N
        (watched W.told W.halts W.counted watcher.old watcher.new)
        (S.line store).told (log_place S.line S.settled r.0) r.1) }
{
    crate::laws::counts_on::<(u64, T)>();
    match open_by::<T, S, W, N>(alloc, store, watcher) {
        Ok(opened) => Ok(opened),
        Err(e) => Err(e),
    }
}

/// Opens a log by the records that count and appends values in turn; returns nothing if any of that fails. The line of a history,
/// each record of which counts, becomes the line of that history with this session after it.
///
/// # Requires
/// N is at least 2, and a receiver of N bytes fits in memory (`ReceiverFitsInMemory`); a concrete N costs nothing.
///
/// # Allocates
/// As `open_by`.
pub fn session_by<T: DeserializeOwned + Exact, S: Store + Drop, W: Watcher<T>, const N: usize>(
    alloc: Global,
    store: S,
    watcher: &mut W,
    values: &[T],
) -> Option<Journal<S, N>>
    requires some { 1 < N }
    requires fits { ReceiverFitsInMemory N.row }
    ensures { IfSome result
        (λ j. GoesOnCounted T.form W.counted N
        (S.line store).told (S.line (store_of j)).told values.now) }
{
    crate::laws::bytes::<(u64, T)>();
    match open_history_by::<T, S, W, N>(alloc, store, watcher) {
        Ok((journal, _)) => append_all(journal, values),
        Err(_) => None,
    }
}
