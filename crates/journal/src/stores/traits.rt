ghost use Rattle.std.specs.Prelude.{◌≡◌, ℕ, ◌+◌, ◌-◌, ◌<◌, ◌≤◌, ◌^◌, List, Option, None, Some, IfSome, OnOk, OnErr, drop, length, unwrap_or};
ghost use Rattle.line_io.specs.Device.{LineState, Wrote, moved_front, write_faults, read_faults};
ghost use Rattle.line_io.specs.Transfers.{Failed};
ghost use Rattle.journal.specs.Store.{GaveAt, EndsBefore, Settles};

use thiserror::Error;

/// A store could not be synced; what was settled before still is.
///
/// Most systems report a lost page only once, and may have dropped what was written: append nothing more through this
/// handle.
///
/// # Example
/// ```rust
/// match store.sync() {
///     Ok(()) => true,
///     Err(SyncFault) => false,
/// }
/// ```
#[derive(Clone, Copy, PartialEq, Eq, Debug, Drop, Error)]
#[error("not synced")]
pub struct SyncFault;

/// Bytes that grow at their end.
///
/// A fault is an `append` that returns `None` or takes nothing of a nonempty chunk, a `read_at` that returns `None`,
/// or a `sync` that returns an error. A fault of an append moves no byte. Each call uses one of those left; with none
/// left it is a fault that isn't counted. The stores of this crate begin with 2^64 - 1 calls.
///
/// # Example
/// ```rust
/// fn keeps<S: Store>(store: &mut S, bytes: &[u8]) -> bool {
///     if put(store, bytes) < bytes.len() {
///         return false;
///     }
///     match store.sync() {
///         Ok(()) => true,
///         Err(SyncFault) => false,
///     }
/// }
/// ```
pub trait Store {
    /// The bytes that it holds, if it reports them, which a read gives; its faults; the calls that it still serves.
    ghost line: { Self → LineState };

    /// How many bytes, from the first on, no crash takes. After them a crash may leave anything.
    ghost settled: { Self → ℕ };

    /// If it holds, an append that is no fault takes the whole chunk.
    ghost whole: { Self → Type 0 };

    /// Appends a prefix of the chunk, and returns its length; `None` at a fault.
    fn append(&mut self, piece: &[u8]) -> Option<usize>
        ensures bound { IfSome result (λ n. n ≤ length piece.now) }
        ensures bytes { Wrote (line self.old) (line self.new)
            (moved_front result piece.now) }
        ensures settled { settled self.new ≡ settled self.old }
        ensures faults { (line self.new).faults ≡ (line self.old).faults
            + write_faults (line self.old).calls_left result piece.now }
        ensures calls { (line self.new).calls_left ≡ (line self.old).calls_left - 1 }
        ensures spent { (line self.old).calls_left ≡ 0 → result ≡ None }
        ensures whole { whole self.old → IfSome result (λ n. n ≡ length piece.now) };

    /// Moves the bytes from an offset on to the start of the buffer, and returns how many; `None` at a fault.
    ///
    /// Into a nonempty buffer, 0 is the end. The buffer past these bytes is unchanged.
    fn read_at(&mut self, at: u64, room: &mut [u8]) -> Option<usize>
        ensures bound { IfSome result (λ n. n ≤ length room.new) }
        ensures within { IfSome result (λ n. at + n < 2 ^ 64) }
        ensures bytes { IfSome result (λ n. GaveAt (line self.old).told at n room.new) }
        ensures end { result ≡ Some 0 → 0 < length room.new → EndsBefore (line self.old).told at }
        ensures held { (line self.new).told ≡ (line self.old).told }
        ensures settled { settled self.new ≡ settled self.old }
        ensures faults { (line self.new).faults ≡ (line self.old).faults + read_faults
            (line self.old).calls_left result }
        ensures calls { (line self.new).calls_left ≡ (line self.old).calls_left - 1 }
        ensures spent { (line self.old).calls_left ≡ 0 → result ≡ None }
        ensures past { drop (unwrap_or result 0) room.new ≡ drop (unwrap_or result 0) room.old };

    /// Settles all that it holds: no crash takes it then.
    ///
    /// # Errors
    /// `SyncFault`: the store failed; what was settled before still is.
    fn sync(&mut self) -> Result<(), SyncFault>
        ensures settled { OnOk result (Settles (line self.new).told (settled self.new)) }
        ensures no_less { settled self.old ≤ settled self.new }
        ensures held { (line self.new).told ≡ (line self.old).told }
        ensures quiet { OnOk result ((line self.new).faults ≡ (line self.old).faults) }
        ensures fault { OnErr result
            (Failed (line self.old) (line self.new)) }
        ensures more { (line self.old).faults ≤ (line self.new).faults }
        ensures calls { (line self.new).calls_left ≤ (line self.old).calls_left }
        ensures few { (line self.old).calls_left ≤ (line self.new).calls_left + 1 };
}
