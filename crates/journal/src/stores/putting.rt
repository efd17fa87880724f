//! Appending bytes in as many calls as needed.
ghost use Rattle.std.specs.Prelude.{◌≡◌, ◌+◌, ◌-◌, ◌<◌, ◌≤◌, length, take};
ghost use Rattle.line_io.specs.Device.{Wrote};
ghost use Rattle.line_io.specs.Transfers.{Failed};

use crate::stores::Store;

/// Appends the bytes, and returns how many were appended; fewer than all only after a fault, or with no call left.
///
/// If the store takes whole chunks, all of them are appended by one call; else it uses at most one call for each byte.
///
/// # Example
/// ```rust
/// if put(store, bytes) < bytes.len() {
///     return false;
/// }
/// ```
pub fn put<S: Store>(store: &mut S, bytes: &[u8]) -> usize
    ensures within { result ≤ length bytes.now }
    ensures bytes { Wrote (S.line store.old) (S.line store.new) (take result bytes.now) }
    ensures settled { S.settled store.new ≡ S.settled store.old }
    ensures quiet { length bytes.now ≤ result
        → (S.line store.new).faults ≡ (S.line store.old).faults }
    ensures calls { (S.line store.new).calls_left ≤ (S.line store.old).calls_left }
    ensures few { (S.line store.old).calls_left ≤ (S.line store.new).calls_left + length bytes.now }
    ensures once { S.whole store.old → 0 < length bytes.now
        → (S.line store.new).calls_left ≡ (S.line store.old).calls_left - 1 }
    ensures fault { result < length bytes.now
        → Failed (S.line store.old) (S.line store.new) }
{
    let mut at = 0;
    while at < bytes.len() {
        let taken = store.append(&bytes[at..]).unwrap_or(0);
        if taken == 0 {
            return at;
        }
        at += taken;
    }
    at
}
