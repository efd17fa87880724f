//! Appending lines so that their numbers may be printed: several, and then one sync after them.
ghost use Rattle.std.specs.Prelude.{◌≡◌, ◌↔◌, ◌+◌, ◌^◌, ◌⊎◌, ◌-◌, ◌≤◌, ℕ, true, false, Some, List, [], ◌∷◌, ◌++◌, IfOk, OnOk, OnErr};
ghost use Rattle.line_io.specs.Device.{LineState};
ghost use Rattle.line_io.specs.Transfers.{Failed};
ghost use Rattle.postcard_tree.specs.Tree.{Tree};
ghost use Rattle.journal.specs.Store.{Settles};
ghost use Rattle.journal.specs.Logs.{store_of, next_of, spent_of, log_place};
ghost use Rattle.journal.specs.Appending.{Appended, next_after, spent_after, Unless, UnlessSpent};

use journal::stores::{Store, SyncFault};
use journal::{AppendError, Journal};
use postcard::Serialize;
use std::ops::Range;

/// The numbers of records that survive any crash. Only a `Group` makes one.
#[derive(Drop)]
pub struct Settled {
    first: u64,
    next: u64,
}

impl Settled {
    ghost use Rattle.records.specs.Settling.{first_settled, behind_settled};

    /// The numbers, in order.
    pub fn numbers(&self) -> Range<u64>
        ensures first { result.start ≡ first_settled self.now }
        ensures behind { result.end ≡ behind_settled self.now }
    {
        self.first..self.next
    }
}

/// The numbers of records that were appended to a log since it was synced; they can't be printed yet.
#[derive(Clone, Copy, Drop)]
pub struct Group {
    first: u64,
    next: u64,
}

impl Group {
    ghost use Rattle.records.specs.Settling.{first_of, behind_of, first_settled, behind_settled, HasGrown, IsTorn, numbered_by};

    /// A group of no records, which begins at the journal's next number.
    pub fn new<S: Store, const N: usize>(journal: &Journal<S, N>) -> Group
        ensures first { first_of result ≡ next_of journal.now }
        ensures behind { behind_of result ≡ next_of journal.now }
    {
        let next = journal.next();
        Group { first: next, next }
    }

    /// Whether it has no records.
    pub fn is_empty(&self) -> bool
        ensures { result ≡ true ↔ first_of self.now ≡ behind_of self.now }
    {
        self.first == self.next
    }

    /// Appends an entry after those of the group.
    ///
    /// # Errors
    /// As `Journal::append`; the group and the next number are unchanged. The store has all records of the group, and after them a
    /// proper prefix of this one if it failed (`Line`), else nothing more. What survives a crash is unchanged.
    pub fn append<T: Serialize, S: Store, const N: usize>(
        &mut self,
        journal: &mut Journal<S, N>,
        entry: &T,
    ) -> Result<(), AppendError>
        ensures appended { Appended (N - 1) (T.form.writes entry.now)
            (numbered_by (next_of journal.old) result)
            (log_place S.line S.settled journal.old) (log_place S.line S.settled journal.new) }
        ensures grown { OnOk result ((start : LineState) (values : List Tree)
            → behind_of self.old ≡ next_of journal.old
            → HasGrown start (S.line (store_of journal.old)) (first_of self.old)
            (behind_of self.old) values []
            → (value : Tree) × (T.form.writes entry.now ≡ Some value)
            × (behind_of self.new ≡ next_of journal.new)
            × HasGrown start (S.line (store_of journal.new)) (first_of self.new)
            (behind_of self.new) (values ++ value ∷ []) []) }
        ensures failed { OnErr result ((start : LineState) (values : List Tree)
            → HasGrown start (S.line (store_of journal.old)) (first_of self.old)
            (behind_of self.old) values []
            → (rest : List ℕ) × IsTorn (next_of journal.old) (T.form.writes entry.now) result rest
            × HasGrown start (S.line (store_of journal.new)) (first_of self.new)
            (behind_of self.new) values rest) }
        ensures kept { OnErr result (self.new ≡ self.old) }
        ensures untouched { Unless (numbered_by (next_of journal.old) result)
            (store_of journal.new ≡ store_of journal.old) }
        ensures first { first_of self.new ≡ first_of self.old }
        ensures behind { OnOk result (behind_of self.new ≡ next_of journal.new) }
        ensures next { next_of journal.new
            ≡ next_after (next_of journal.old) (numbered_by (next_of journal.old) result) }
        ensures spent { spent_of journal.new
            ≡ spent_after (spent_of journal.old) (numbered_by (next_of journal.old) result) }
        ensures ready { UnlessSpent (numbered_by (next_of journal.old) result)
            (spent_of journal.old ≡ false) }
        ensures settled { S.settled (store_of journal.new) ≡ S.settled (store_of journal.old) }
    {
        match journal.append(entry) {
            Ok(number) => {
                self.next = number + 1;
                Ok(())
            }
            Err(e) => Err(e),
        }
    }

    /// Syncs the log, and returns the numbers of the group, which can be printed then.
    ///
    /// # Errors
    /// `SyncFault`: the journal was spent, or the sync failed. It is spent then. What survived a crash before still does; of the
    /// group no more is known.
    pub fn settle<S: Store, const N: usize>(
        self,
        journal: &mut Journal<S, N>,
    ) -> Result<Settled, SyncFault>
        ensures grown { IfOk result (λ s. (start : LineState) (values : List Tree) (rest : List ℕ)
            → HasGrown start (S.line (store_of journal.old)) (first_of self) (behind_of self)
            values rest
            → HasGrown start (S.line (store_of journal.new)) (first_settled s)
            (behind_settled s) values rest) }
        ensures numbers { IfOk result (λ s. (first_settled s ≡ first_of self)
            × (behind_settled s ≡ behind_of self)) }
        ensures settled { OnOk result
            (Settles (S.line (store_of journal.new)).told (S.settled (store_of journal.new))) }
        ensures cause { OnErr result ((spent_of journal.old ≡ true)
            ⊎ Failed (S.line (store_of journal.old)) (S.line (store_of journal.new))) }
        ensures quiet { OnOk result
            ((S.line (store_of journal.new)).faults ≡ (S.line (store_of journal.old)).faults) }
        ensures held { (S.line (store_of journal.new)).told
            ≡ (S.line (store_of journal.old)).told }
        ensures no_less { S.settled (store_of journal.old) ≤ S.settled (store_of journal.new) }
        ensures untouched { spent_of journal.old ≡ true → store_of journal.new
            ≡ store_of journal.old }
        ensures next { next_of journal.new ≡ next_of journal.old }
        ensures ready { OnOk result ((spent_of journal.old ≡ false)
            × (spent_of journal.new ≡ false)) }
        ensures spent { OnErr result (spent_of journal.new ≡ true) }
    {
        journal.sync()?;
        Ok(Settled {
            first: self.first,
            next: self.next,
        })
    }

    /// The same for the store itself, after an append failed and the journal was given up.
    ///
    /// # Errors
    /// `SyncFault`: the sync failed. What survived a crash before still does; of the group no more is known.
    pub fn settle_store<S: Store>(self, store: &mut S) -> Result<Settled, SyncFault>
        ensures grown { IfOk result (λ s. (start : LineState) (values : List Tree) (rest : List ℕ)
            → HasGrown start (S.line store.old) (first_of self) (behind_of self) values rest
            → HasGrown start (S.line store.new) (first_settled s) (behind_settled s)
            values rest) }
        ensures numbers { IfOk result (λ s. (first_settled s ≡ first_of self)
            × (behind_settled s ≡ behind_of self)) }
        ensures settled { OnOk result (Settles (S.line store.new).told (S.settled store.new)) }
        ensures cause { OnErr result (Failed (S.line store.old) (S.line store.new)) }
        ensures held { (S.line store.new).told ≡ (S.line store.old).told }
        ensures no_less { S.settled store.old ≤ S.settled store.new }
    {
        store.sync()?;
        Ok(Settled {
            first: self.first,
            next: self.next,
        })
    }
}
