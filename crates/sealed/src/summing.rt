//! Passing bytes on, and summing them.
ghost use Rattle.std.specs.Prelude.{◌≡◌};
ghost use Rattle.sealed.specs.Checksum.{behind_byte, behind_bytes};

use crate::checksum::{add_byte, add_bytes};
use postcard::Result;
use postcard::ser_flavors::Flavor;

// A flavor that passes its bytes on to another one, and sums those that it took.
#[derive(Drop)]
pub(crate) struct Summing<F> {
    pub(crate) output: F,
    pub(crate) register: u32,
}

impl<F: Flavor> Flavor for Summing<F> {
    ghost use Rattle.std.proofs.Common.{refl, sym, ap, ◌∙◌};
    ghost use Rattle.sealed.specs.Checksum.{behind_joined};

    type Output = F::Output;

    ghost told = { λ s. F.told s.output };

    ghost took = { λ s a t. F.took s.output a t.output × (t.register ≡ behind_bytes s.register a) };

    ghost refused = { λ s a e t. F.refused s.output a e t.output };

    ghost has_room = { λ s a. F.has_room s.output a };

    ghost same = { λ s t. F.same s.output t.output };

    ghost ends = { λ s r. F.ends s.output r };

    ghost laws = { record {
      same_self = λ s. F.laws.same_self s.output;
      same_after = λ s t u p q. F.laws.same_after s.output t.output u.output p q;
      nothing = λ s. (F.laws.nothing s.output, refl);
      more = λ s t u a b p q. (F.laws.more s.output t.output u.output a b p.0 q.0, q.1 ∙ ap (λ r. behind_bytes r b) p.1 ∙ sym (behind_joined s.register a b));
      refused_later = λ s t u a b e p q. F.laws.refused_later s.output t.output u.output a b e p.0 q;
      refused_more = λ s u a b e p. F.laws.refused_more s.output u.output a b e p;
      tells = λ s t a x p q. F.laws.tells s.output t.output a x p.0 q;
      tells_front = λ s t a x e p q. F.laws.tells_front s.output t.output a x e p q;
      refuses_nothing = λ s t a e p q. F.laws.refuses_nothing s.output t.output a e p q;
    } };

    fn try_extend(&mut self, bytes: &[u8]) -> Result<()> {
        self.output.try_extend(bytes)?;
        self.register = add_bytes(self.register, bytes);
        Ok(())
    }

    fn try_push(&mut self, byte: u8) -> Result<()> {
        self.output.try_push(byte)?;
        self.register = add_byte(self.register, byte);
        Ok(())
    }

    fn finalize(self) -> Result<F::Output> {
        let Summing {
            output,
            register: _,
        } = self;
        output.finalize()
    }
}

// A flavor that keeps no bytes, and refuses none.
#[derive(Drop)]
pub(crate) struct Nowhere;

impl Flavor for Nowhere {
    ghost use Rattle.std.specs.Prelude.{None, ⊤};

    type Output = ();

    ghost told = { λ _. None };

    ghost took = { λ s a t. ⊤ };

    ghost refused = { λ s a e t. ⊥ };

    ghost has_room = { λ s a. ⊤ };

    ghost same = { λ s t. ⊤ };

    ghost ends = { λ s r. ⊤ };

    ghost laws = { record {
      same_self = λ s. tt;
      same_after = λ s t u p q. tt;
      nothing = λ s. tt;
      more = λ s t u a b p q. tt;
      refused_later = λ s t u a b e p q. q;
      refused_more = λ s u a b e p. p;
      tells = λ s t a x p q. Prim.cc;
      tells_front = λ s t a x e p q. tt;
      refuses_nothing = λ s t a e p q. q;
    } };

    fn try_extend(&mut self, _bytes: &[u8]) -> Result<()> {
        Ok(())
    }

    fn try_push(&mut self, _byte: u8) -> Result<()> {
        Ok(())
    }

    fn finalize(self) -> Result<()> {
        Ok(())
    }
}
