//! Maximum sizes of message types, by their shapes, and of what references point to.
ghost use Rattle.std.proofs.Common.{sym, subst};
ghost use Rattle.postcard.specs.Greatest.{SizeWithin};

use crate::max_size::{MaxSize, MaxSizeForm, MaxWritten, MaxWrittenForm};
use postcard_ser::Serialize;
use postcard_tree::{AsShape, MatchesShape, Own, Shaped};

impl<M: Shaped> MaxSizeForm<M> for AsShape
where
    M::Shape: MaxSize,
{
    ghost form_greatest = { M.Shape.greatest };

    fn form_max_size() -> Option<usize> {
        <M::Shape as MaxSize>::postcard_max_size()
    }
}

impl<M: MatchesShape + Serialize> MaxWrittenForm<M> for AsShape
where
    M::Shape: MaxWritten,
{
    ghost form_longest = { λ v h.
        subst (λ z. SizeWithin z M.Shape.greatest) (sym (M.matches.written v))
        (M.Shape.longest (M.shape v) (M.matches.shown v h)) };
}

impl<'a, T: MaxSize> MaxSizeForm<&'a T> for Own {
    ghost form_greatest = { T.greatest };

    fn form_max_size() -> Option<usize> {
        T::postcard_max_size()
    }
}

impl<'a, T: MaxSize> MaxSizeForm<&'a mut T> for Own {
    ghost form_greatest = { T.greatest };

    fn form_max_size() -> Option<usize> {
        T::postcard_max_size()
    }
}

impl<'a, T: MaxWritten> MaxWrittenForm<&'a T> for Own {
    ghost form_longest = { λ v h. T.longest v.now h };
}
