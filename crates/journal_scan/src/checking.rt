//! Checking a log: what isn't a record, and which numbers are missing.
ghost use Rattle.std.specs.Prelude.{◌≡◌, ◌↔◌, ℕ, ◌≤◌, true, List, ◌++◌, OnOk, OnErr, IfOk, IfErr};
ghost use Rattle.line_io.specs.Transfers.{Failed};
ghost use Rattle.journal.specs.Reading.{HaltsBehind};
ghost use Rattle.journal_scan.specs.Checks.{IsChecked, IsNoRecord, CheckCause, StopsAfter, UnlessFault, IsAgain, OneNeedsRange, record_in, numbers_of, watched};
ghost use Rattle.journal_scan.specs.Tallies.{IsTally};

use crate::closing::ClosedScan;
use crate::scanning::{ScanError, Stretch};
use crate::tallies::Tally;
use crate::watching::Watcher;
use journal::stores::Store;
use link::{Answer, NoMemory};
use postcard::{DeserializeOwned, Exact};
use std::alloc::Global;
use thiserror::Error;

/// Why a log wasn't checked to its end.
///
/// # Example
/// ```rust
/// let found = checked(rt.alloc(), &BYTES, &mut told);
/// check(&rt, matches!(found, Some(Err(CheckError::Halted))));
/// ```
#[derive(Clone, Copy, PartialEq, Eq, Debug, Drop, Error)]
pub enum CheckError {
    /// A read failed, or memory for a buffer, a value or a range of missing numbers couldn't be allocated.
    #[error("{0}")]
    Read(ScanError),
    /// The watcher halted.
    #[error("halted")]
    Halted,
}

/// What a check found.
///
/// Example: see [`check`].
#[derive(Drop)]
pub struct Report<T> {
    /// The records that count: how many they are, the number after the greatest, and the missing numbers below it.
    pub tally: Tally,
    /// What follows the last zero, unless it is a record that lacks only its zero.
    pub unfinished: Option<Stretch<T>>,
}

// Whether a stretch is left over: the log's end ends it, and it isn't a record. It isn't reported to the watcher then.
fn is_left_over<T>(closed: bool, answer: &Answer<(u64, T)>) -> bool
    ensures { result ≡ true ↔ ((closed ≡ true) × IsNoRecord answer.now) }
{
    match answer {
        Answer::Value(_) => false,
        Answer::Damaged => closed,
        Answer::TooLong => closed,
        Answer::Cut => closed,
    }
}

// Counts a stretch that is a record that counts, and returns whether its number was there before.
fn count_record<T, W: Watcher<T>>(
    watcher: &W,
    tally: &mut Tally,
    stretch: &Stretch<T>,
) -> Result<bool, NoMemory>
    ensures counted { OnOk result ((numbers : List ℕ) → IsTally numbers tally.old
        → IsTally (numbers ++ numbers_of (record_in W.counted stretch.now.answer)) tally.new) }
    ensures again { IfOk result (λ again. (numbers : List ℕ) → IsTally numbers tally.old
        → IsAgain numbers (record_in W.counted stretch.now.answer) again) }
    ensures needs { OnErr result ((numbers : List ℕ) → IsTally numbers tally.old
        → OneNeedsRange numbers (record_in W.counted stretch.now.answer)) }
{
    match &stretch.answer {
        Answer::Value((number, value)) => {
            if watcher.counts(*number, value) {
                return tally.count(*number);
            }
            Ok(false)
        }
        Answer::Damaged => Ok(false),
        Answer::TooLong => Ok(false),
        Answer::Cut => Ok(false),
    }
}

/// Reads a log to its end, reports each stretch to the watcher, and returns what was counted and what follows the last zero.
///
/// The log is judged as opening it will leave it, with one more zero: a record that lacks only its zero is reported and counted as
/// any other. `limit` is the greatest length of a stretch, in bytes.
///
/// # Errors
/// The watcher received the first stretches of the log, in order, and nothing else.
/// - `Read`: a read failed, or an allocation did: of a buffer before the first stretch, of the next stretch's value, or of a range for
///   its number.
/// - `Halted`: the watcher halted.
///
/// # Allocates
/// `limit` bytes for a stretch, 16384 for a read, the ranges of missing numbers, and what a value needs, whatever the log's size.
///
/// # Example
/// ```rust
/// ) -> Option<Result<Report<u32>, CheckError>> {
///     match holding(alloc, bytes) {
///         Some(mut store) => Some(journal_scan::check::<u32, MemoryStore, Told>(
///             alloc, 12, &mut store, told,
///         )),
///         None => None,
///     }
/// }
/// ```
pub fn check<T: DeserializeOwned + Exact, S: Store, W: Watcher<T>>(
    alloc: Global,
    limit: usize,
    store: &mut S,
    watcher: &mut W,
) -> Result<Report<T>, CheckError>
    ensures checked { IfOk result
        (λ r. IsChecked T.form limit (watched W.told W.halts W.counted watcher.old watcher.new)
        (S.line store.old).told r) }
    ensures held { (S.line store.new).told ≡ (S.line store.old).told }
    ensures settled { S.settled store.new ≡ S.settled store.old }
    ensures quiet { OnOk result ((S.line store.new).faults ≡ (S.line store.old).faults) }
    ensures cause { IfErr result (λ e. CheckCause (Failed (S.line store.old) (S.line store.new))
        (HaltsBehind W.told W.halts watcher.old) e) }
    ensures so_far { IfErr result (λ e. StopsAfter T.form limit
        (watched W.told W.halts W.counted watcher.old watcher.new) (S.line store.old).told e) }
    ensures calm { IfErr result
        (λ e. UnlessFault e ((S.line store.new).faults ≡ (S.line store.old).faults)) }
    ensures more { (S.line store.old).faults ≤ (S.line store.new).faults }
{
    let mut scan = match ClosedScan::new(alloc, limit) {
        Ok(scan) => scan,
        Err(e) => return Err(CheckError::Read(e)),
    };
    let mut tally = Tally::new(alloc);
    loop {
        let stretch = match scan.next::<T, S>(alloc, store) {
            Ok(Some(stretch)) => stretch,
            Ok(None) => {
                let unfinished = None;
                return Ok(Report { tally, unfinished });
            }
            Err(e) => return Err(CheckError::Read(e)),
        };
        if is_left_over(scan.closed, &stretch.answer) {
            let unfinished = Some(stretch);
            return Ok(Report { tally, unfinished });
        }
        let again = match count_record(watcher, &mut tally, &stretch) {
            Ok(again) => again,
            Err(_) => return Err(CheckError::Read(ScanError::NoMemory)),
        };
        if watcher.tell(stretch, again).is_err() {
            return Err(CheckError::Halted);
        }
    }
}
