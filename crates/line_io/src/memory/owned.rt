ghost use Rattle.std.specs.Prelude.{◌≡◌, ℕ, ◌+◌, ◌-◌, ◌≤◌, ◌<◌, ◌^◌, length, Option, None, Some, IfSome, unwrap_or, vec_capacity};
ghost use Rattle.line_io.specs.Device.{Wrote, moved_front, write_faults};
ghost use Rattle.line_io.specs.Plan.{GoesOn};

use crate::memory::Fault;
use crate::traits::Outlet;

/// An [`Outlet`](crate::Outlet) into a vector of its own, which grows.
///
/// Each write takes its chunk, and at most `each` bytes of it. A failed allocation is a fault; bytes that fit the
/// vector's capacity need none. The bytes are reported after a fault too, so a contract can say what was written.
///
/// # Allocates
/// What the vector grows by, at each write.
///
/// # Example
/// ```rust
/// let mut out = OwnedOut::new(Vec::new(rt.alloc()), 2, None);
/// check(&rt, out.write(b"abc") == Some(2));
/// check(&rt, are_bytes(&out.into_bytes(), b"ab"));
/// ```
#[derive(Drop)]
pub struct OwnedOut {
    bytes: Vec<u8>,
    each: usize,
    fault: Option<(usize, Fault)>,
    faults: u64,
    calls: u64,
    ghost some_each: { 0 < each },
    ghost counted: { faults + calls ≤ 2 ^ 64 - 1 },
}

impl OwnedOut {
    ghost use Rattle.line_io.specs.Memory.{owned_bytes, owned_room, owned_plan};

    /// A device that appends to these bytes, at most `each` a call.
    ///
    /// After as many bytes as `fault` says, the next write of a nonempty chunk is that fault; then the device goes
    /// on.
    ///
    /// # Requires
    /// `each` is 1 or more.
    pub fn new(bytes: Vec<u8>, each: usize, fault: Option<(usize, Fault)>) -> OwnedOut
        requires { 0 < each }
        ensures written { (⟦<OwnedOut as Outlet>⟧.line result).told ≡ Some bytes.items }
        ensures faults { (⟦<OwnedOut as Outlet>⟧.line result).faults ≡ 0 }
        ensures calls { (⟦<OwnedOut as Outlet>⟧.line result).calls_left ≡ 2 ^ 64 - 1 }
        ensures plan { owned_plan result ≡ record { each = each; fault = fault } }
        ensures room { owned_room result ≡ vec_capacity bytes - length bytes.items }
    {
        OwnedOut {
            bytes,
            each,
            fault,
            faults: 0,
            calls: u64::MAX,
        }
    }

    /// Returns the bytes that it was given, followed by those that it has taken.
    pub fn into_bytes(self) -> Vec<u8>
        ensures { (⟦<OwnedOut as Outlet>⟧.line self).told ≡ Some result.items }
    {
        let OwnedOut { bytes, .. } = self;
        bytes
    }
}

impl Outlet for OwnedOut {
    ghost use Rattle.line_io.specs.Memory.{owned_bytes, owned_room, owned_plan, owned_line};

    ghost line = { owned_line };

    fn write(&mut self, piece: &[u8]) -> Option<usize>
        ensures bound { IfSome result (λ n. n ≤ length piece.now) }
        ensures bytes { Wrote (owned_line self.old) (owned_line self.new)
            (moved_front result piece.now) }
        ensures faults { (owned_line self.new).faults
            ≡ (owned_line self.old).faults
            + write_faults (owned_line self.old).calls_left result piece.now }
        ensures calls { (owned_line self.new).calls_left ≡ (owned_line self.old).calls_left - 1 }
        ensures spent { (owned_line self.old).calls_left ≡ 0 → result ≡ None }
        ensures plan { GoesOn (owned_plan self.old) (owned_line self.old).calls_left
            (length piece.now) (owned_room self.old) result (owned_plan self.new) }
        ensures room { owned_room self.old ≤ owned_room self.new + unwrap_or result 0 }
    {
        if self.calls == 0 {
            return None;
        }
        self.calls -= 1;
        if piece.is_empty() {
            return Some(0);
        }
        let mut count = piece.len().min(self.each);
        let mut fault = None;
        if let Some((before, kind)) = self.fault {
            if before == 0 {
                self.fault = None;
                self.faults += 1;
                return match kind {
                    Fault::Fail => None,
                    Fault::Nothing => Some(0),
                };
            }
            count = count.min(before);
            fault = Some((before - count, kind));
        }
        if self.bytes.extend_from_slice(&piece[..count]).is_err() {
            self.faults += 1;
            return None;
        }
        self.fault = fault;
        Some(count)
    }
}
