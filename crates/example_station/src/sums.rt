//! A flavor of one's own: it keeps no bytes, and returns their checksum.
ghost use Rattle.std.specs.Prelude.{None, ⊤};

use postcard::ser_flavors::Flavor;
use postcard::{Result, Serialize, serialize_with_flavor};

/// The XOR of all bytes that were pushed.
#[derive(Drop)]
pub struct XorSum {
    pub sum: u8,
}

impl Flavor for XorSum {
    type Output = u8;

    // it doesn't report its bytes, refuses none, and states nothing of its sum
    ghost told = { λ _. None };

    ghost took = { λ s a t. ⊤ };

    ghost refused = { λ s a e t. ⊥ };

    ghost has_room = { λ s a. ⊤ };

    ghost same = { λ s t. ⊤ };

    ghost ends = { λ s r. ⊤ };

    ghost laws = { record {
      same_self = λ s. tt;
      same_after = λ s t u p q. tt;
      nothing = λ s. tt;
      more = λ s t u a b p q. tt;
      refused_later = λ s t u a b e p q. q;
      refused_more = λ s u a b e p. p;
      tells = λ s t a x p q. Prim.cc;
      tells_front = λ s t a x e p q. tt;
      refuses_nothing = λ s t a e p q. q;
    } };

    fn try_push(&mut self, byte: u8) -> Result<()> {
        self.sum ^= byte;
        Ok(())
    }

    fn finalize(self) -> Result<u8> {
        Ok(self.sum)
    }
}

/// The XOR of the bytes that a value is written as.
pub fn xor_sum<T: Serialize>(value: &T) -> Result<u8> {
    serialize_with_flavor(value, XorSum { sum: 0 })
}
