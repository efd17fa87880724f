//! The receiver whose limit is set at run time.
ghost use Rattle.std.specs.Prelude.{◌≡◌, ◌≤◌, ℕ, List, [], IsOk, IfOk, OnOk, OnErr};

use crate::decoding::OwnedBuffer;
use crate::receiver::NoMemory;
use crate::reception::Reception;
use std::alloc::Global;

/// A receiver whose limit is set at run time, and can be changed between stretches. A limit of 0 is allowed.
///
/// # Allocates
/// Its buffer, of as many bytes as the limit: when it is made, and when the limit rises.
///
/// # Example
/// ```rust
/// let Ok(mut receiver) = OwnedReceiver::new(rt.alloc(), 4, 0x0A) else {
///     return check(&rt, false);
/// };
/// let lent = receiver.push_ref::<&str>(rt.alloc(), &[0x0E, 0x08, 0x62, 0x63, 0x0A]);
/// let passed = is_lent(&lent, 5, &"hi");
/// check(&rt, passed && receiver.is_between());
/// ```
pub type OwnedReceiver = Reception<OwnedBuffer>;

impl Reception<OwnedBuffer> {
    ghost use Rattle.link.specs.Decoding.{in_owner};
    ghost use Rattle.link.specs.Receivers.{IsBehind, IsBetween, limit_of, sentinel_of};

    /// A receiver that has received nothing, with this limit and sentinel.
    ///
    /// # Errors
    /// `NoMemory` if its buffer could not be allocated.
    ///
    /// # Allocates
    /// A buffer of `limit` bytes.
    pub fn new(alloc: Global, limit: usize, sentinel: u8) -> Result<OwnedReceiver, NoMemory>
        ensures after { IfOk result (λ r. IsBehind in_owner limit sentinel r []) }
        ensures limit { IfOk result (λ r. limit_of in_owner r ≡ limit) }
        ensures sentinel { IfOk result (λ r. sentinel_of r ≡ sentinel) }
    {
        let buffer = OwnedBuffer::new(alloc, limit)?;
        Ok(Reception {
            buffer,
            past: false,
            sentinel,
        })
    }

    /// Changes the limit. Earlier results stay; later bytes are received as by a new receiver of this limit.
    ///
    /// # Errors
    /// `NoMemory` changes nothing. A limit that isn't greater never fails.
    ///
    /// # Requires
    /// No stretch is begun: `is_between`.
    ///
    /// # Allocates
    /// A buffer of `limit` bytes, if the limit rises.
    ///
    /// # Example
    /// ```rust
    /// takes_true(alloc, receiver)
    ///     && receiver.is_between()
    ///     && receiver.set_limit(0).is_ok()
    ///     && takes_nothing(alloc, receiver)
    /// ```
    pub fn set_limit(&mut self, limit: usize) -> Result<(), NoMemory>
        requires { IsBetween in_owner self.old }
        ensures limit { OnOk result (limit_of in_owner self.new ≡ limit) }
        ensures refused { OnErr result (limit_of in_owner self.new ≡ limit_of in_owner self.old) }
        ensures granted { limit ≤ limit_of in_owner self.old → IsOk result }
        ensures stands { (limit s : ℕ) (stream : List ℕ) → IsBehind in_owner limit s self.old stream
            → IsBehind in_owner (limit_of in_owner self.new) s self.new stream }
        ensures anew { (limit s : ℕ) (stream : List ℕ) → IsBehind in_owner limit s self.old stream
            → IsBehind in_owner (limit_of in_owner self.new) s self.new [] }
        ensures between { IsBetween in_owner self.new }
        ensures sentinel { sentinel_of self.new ≡ sentinel_of self.old }
    {
        self.buffer.resize(limit)
    }
}
