//! What receives the stretches of a log.
ghost use Rattle.std.specs.Prelude.{◌≡◌, ℕ, Bool, List, [], ◌∷◌, OnOk, OnErr};
ghost use Rattle.journal.specs.Visits.{VisitorLaws};
ghost use Rattle.journal_scan.specs.declared.scanning.Stretch.{Stretch};

use crate::scanning::Stretch;
use journal::Halt;

/// Says which records count: a record that can be read may still be none that was appended, for example if its value has another
/// number.
///
/// # Example
/// ```rust
/// impl Judge<u32> for Told {
///     ghost counted = { λ _ _. true };
///
///     fn counts(&self, _number: u64, _value: &u32) -> bool {
///         true
///     }
/// }
/// ```
pub trait Judge<T> {
    /// Which records count, by number and value.
    ghost counted: { ℕ → T → Bool };

    /// Whether a record with this number and value counts.
    fn counts(&self, number: u64, value: &T) -> bool
        ensures { result ≡ counted number value.now };
}

/// Receives the stretches of a log, in order: it may print them, count them, or keep them.
///
/// # Example
/// ```rust
/// impl Watcher<u32> for Told {
///     ghost told = { λ _ _ _. ⊤ };
///
///     ghost halts = { λ _. ⊤ };
///
///     ghost laws = { record { nothing = λ s. tt; more = λ s t u a b p q. tt } };
///
///     fn tell(&mut self, stretch: Stretch<u32>, again: bool) -> Result<(), Halt>
///         ensures told { OnOk result ⊤ }
///         ensures halts { OnErr result ⊤ }
///     {
///         if self.count >= self.most {
///             return Err(Halt);
///         }
///         self.compare(&stretch, again);
///         Ok(())
///     }
/// }
/// ```
pub trait Watcher<T>: Judge<T> {
    /// It received these stretches in turn: the watcher before, the stretches, the watcher after.
    ghost told: { Self → List (Stretch T) → Self → Type 0 };

    /// Holds if it may halt; the empty type for one that never does.
    ghost halts: { Self → Type 0 };

    /// Receives the next stretch, and whether it is a record that counts with the number of an earlier one that counts (for the
    /// number 2^64 - 1 that isn't specified).
    ///
    /// # Errors
    /// `Halt`: it wants no more, and the check stops.
    fn tell(&mut self, stretch: Stretch<T>, again: bool) -> Result<(), Halt>
        ensures told { OnOk result (told self.old (stretch ∷ []) self.new) }
        ensures halts { OnErr result (halts self.old) };

    /// Stretches that were received in turn were received as one list.
    ghost laws: { VisitorLaws told };
}
