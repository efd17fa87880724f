//! Opening a log to append, by the records that count.
ghost use Rattle.std.specs.Prelude.{◌<◌, ◌≤◌, true, IfOk, IfErr};
ghost use Rattle.line_io.specs.Device.{Wrote};
ghost use Rattle.line_io.specs.Transfers.{Failed};
ghost use Rattle.link.specs.Listening.{ReceiverFitsInMemory};
ghost use Rattle.journal.specs.Appending.{OnRead, put_before};
ghost use Rattle.journal.specs.Logs.{log_place};
ghost use Rattle.journal.specs.Reading.{HaltsBehind, OpenCause, OpenedUntil};
ghost use Rattle.journal.specs.Store.{Settles};
ghost use Rattle.journal_scan.specs.Checks.{StopsAfter, watched};
ghost use Rattle.journal_scan.specs.declared.checking.CheckError.{CheckError};
ghost use Rattle.journal_scan.specs.Opening.{IsOpenedBy, IsReadErrorOf};

use crate::checking::{CheckError, Report, check};
use crate::scanning::ScanError;
use crate::watching::Watcher;
use journal::stores::{Store, put};
use journal::{Journal, OpenError, ReadError, Unopened};
use postcard::{DeserializeOwned, Exact};
use std::alloc::Global;

// The same cause, as an error of reading a log.
fn read_error(e: CheckError) -> ReadError
    ensures { IsReadErrorOf e result }
{
    match e {
        CheckError::Read(ScanError::Fault) => ReadError::Fault,
        CheckError::Read(ScanError::NoMemory) => ReadError::NoMemory,
        CheckError::Halted => ReadError::Halted,
    }
}

/// Opens a log as `Journal::open` does, but by one reading, which is that of `check`: the next number follows the greatest record
/// that counts.
///
/// That holds also if numbers are missing, and the bytes that accounted for them are gone. A record that doesn't count moves
/// nothing, whatever its number. Returns the log, and the report of the check.
///
/// # Errors
/// The store is returned with the reason. What it has got, and what is settled, is as for `Journal::open`; what the watcher
/// received, as for `check`.
///
/// # Requires
/// N is at least 2, and a receiver of N bytes fits in memory (`ReceiverFitsInMemory`); a concrete N costs nothing.
///
/// # Allocates
/// As [`check`](crate::check), with N as the limit.
pub fn open_by<T: DeserializeOwned + Exact, S: Store, W: Watcher<T>, const N: usize>(
    alloc: Global,
    store: S,
    watcher: &mut W,
) -> Result<(Journal<S, N>, Report<T>), Unopened<S>>
    requires some { 1 < N }
    requires fits { ReceiverFitsInMemory N.row }
    ensures opened { IfOk result (λ r. IsOpenedBy T.form N
        (watched W.told W.halts W.counted watcher.old watcher.new)
        (S.line store) (log_place S.line S.settled r.0) r.1) }
    ensures cause { IfErr result (λ e. OpenCause (Failed (S.line store) (S.line e.store)) true
        (HaltsBehind W.told W.halts watcher.old) e.cause) }
    ensures left { IfErr result
        (λ e. Wrote (S.line store) (S.line e.store) (put_before e.cause)) }
    ensures safe { IfErr result (λ e. S.settled store ≤ S.settled e.store) }
    ensures settled { IfErr result (λ e.
        OnRead e.cause (Settles (S.line e.store).told (S.settled e.store))) }
    ensures so_far { IfErr result (λ e. OpenedUntil (λ c. (cause : CheckError)
        × IsReadErrorOf cause c
        × StopsAfter T.form N (watched W.told W.halts W.counted watcher.old watcher.new)
        (S.line e.store).told cause)
        watcher.old watcher.new e.cause) }
{
    let mut store = store;
    if put(&mut store, &[0]) == 0 {
        return Err(Unopened {
            cause: OpenError::Line,
            store,
        });
    }
    if store.sync().is_err() {
        return Err(Unopened {
            cause: OpenError::Sync,
            store,
        });
    }
    match check::<T, S, W>(alloc, N, &mut store, watcher) {
        Ok(report) => {
            let next = report.tally.next();
            Ok((Journal::resume(store, next), report))
        }
        Err(e) => Err(Unopened {
            cause: OpenError::Read(read_error(e)),
            store,
        }),
    }
}
