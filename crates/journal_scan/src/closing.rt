//! Scanning a log as opening it will leave it: with one more zero.
ghost use Rattle.std.specs.Prelude.{◌≡◌, ◌<◌, ◌≤◌, ℕ, List, Err, Some, true, OnOk, IfOk, IfErr, IfSome};
ghost use Rattle.line_io.specs.Transfers.{Failed};

use crate::scanning::{Scan, ScanError, Stretch};
use journal::stores::Store;
use postcard::{DeserializeOwned, Exact};
use std::alloc::Global;

/// Scans a log and one more zero, so that what follows its last zero is a stretch as any other.
#[derive(Drop)]
pub(crate) struct ClosedScan {
    scan: Scan,
    /// Whether the zero after the log was passed.
    pub closed: bool,
}

impl ClosedScan {
    ghost use Rattle.journal_scan.specs.Closing.{IsClosing, HasPassedNone, FoundClosed, LostClosed, left_of};

    /// A scan from the log's first byte.
    pub fn new(alloc: Global, limit: usize) -> Result<ClosedScan, ScanError>
        ensures begins { IfOk result (λ scan. (bytes : List ℕ) → HasPassedNone limit bytes scan) }
        ensures memory { IfErr result (λ e. e ≡ ScanError.NoMemory) }
    {
        match Scan::new(alloc, limit, 0) {
            Ok(scan) => Ok(ClosedScan {
                scan,
                closed: false,
            }),
            Err(e) => Err(e),
        }
    }

    /// The next stretch; nothing after the last one.
    pub fn next<T: DeserializeOwned + Exact, S: Store>(
        &mut self,
        alloc: Global,
        store: &mut S,
    ) -> Result<Option<Stretch<T>>, ScanError>
        ensures found { IfOk result (λ o. (limit : ℕ) (bytes : List ℕ)
            → (S.line store.old).told ≡ Some bytes → IsClosing limit bytes self.old
            → FoundClosed T.form limit bytes self.old self.new o) }
        ensures on { IfOk result (λ o. IfSome o (λ _. left_of self.new < left_of self.old)) }
        ensures held { (S.line store.new).told ≡ (S.line store.old).told }
        ensures settled { S.settled store.new ≡ S.settled store.old }
        ensures quiet { OnOk result ((S.line store.new).faults ≡ (S.line store.old).faults) }
        ensures fault { result ≡ Err ScanError.Fault
            → Failed (S.line store.old) (S.line store.new) }
        ensures memory { result ≡ Err ScanError.NoMemory → T.form.growing ≡ true }
        ensures lost { result ≡ Err ScanError.NoMemory → (limit : ℕ) (bytes : List ℕ)
            → (S.line store.old).told ≡ Some bytes → IsClosing limit bytes self.old
            → LostClosed limit bytes self.old self.new }
        ensures calm { result ≡ Err ScanError.NoMemory
            → (S.line store.new).faults ≡ (S.line store.old).faults }
        ensures more { (S.line store.old).faults ≤ (S.line store.new).faults }
    {
        if self.closed {
            return Ok(None);
        }
        match self.scan.next_ended::<T, S>(alloc, store) {
            Ok(Some(stretch)) => Ok(Some(stretch)),
            Ok(None) => {
                self.closed = true;
                self.scan.close(alloc)
            }
            Err(e) => Err(e),
        }
    }
}
