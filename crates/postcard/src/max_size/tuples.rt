//! The maximum sizes of tuples.
ghost use Rattle.std.specs.Prelude.{[], ◌∷◌, Some};
ghost use Rattle.postcard.specs.Greatest.{total, none_within, part_within, group_within};

use crate::max_size::{MaxSize, MaxSizeForm, MaxWritten, MaxWrittenForm, sum};
use postcard_tree::Own;

impl<A: MaxSize> MaxSizeForm<(A,)> for Own {
    ghost form_greatest = { total (A.greatest ∷ []) };

    fn form_max_size() -> Option<usize> {
        sum(A::postcard_max_size(), Some(0))
    }
}

impl<A: MaxWritten> MaxWrittenForm<(A,)> for Own {
    ghost form_longest = { λ v h. group_within (part_within (A.longest v.0 h) none_within) };
}

impl<A: MaxSize, B: MaxSize> MaxSizeForm<(A, B)> for Own {
    ghost form_greatest = { total (A.greatest ∷ B.greatest ∷ []) };

    fn form_max_size() -> Option<usize> {
        sum(A::postcard_max_size(), sum(B::postcard_max_size(), Some(0)))
    }
}

impl<A: MaxWritten, B: MaxWritten> MaxWrittenForm<(A, B)> for Own {
    ghost form_longest = { λ v h. group_within (part_within (A.longest v.0 h.0)
        (part_within (B.longest v.1 h.1) none_within)) };
}

impl<A: MaxSize, B: MaxSize, C: MaxSize> MaxSizeForm<(A, B, C)> for Own {
    ghost form_greatest = { total (A.greatest ∷ B.greatest ∷ C.greatest ∷ []) };

    fn form_max_size() -> Option<usize> {
        sum(
            A::postcard_max_size(),
            sum(B::postcard_max_size(), sum(C::postcard_max_size(), Some(0))),
        )
    }
}

impl<A: MaxWritten, B: MaxWritten, C: MaxWritten> MaxWrittenForm<(A, B, C)> for Own {
    ghost form_longest = { λ v h. group_within (part_within (A.longest v.0 h.0)
        (part_within (B.longest v.1 h.1) (part_within (C.longest v.2 h.2) none_within))) };
}

impl<A: MaxSize, B: MaxSize, C: MaxSize, D: MaxSize> MaxSizeForm<(A, B, C, D)> for Own {
    ghost form_greatest = { total (A.greatest ∷ B.greatest ∷ C.greatest ∷ D.greatest ∷ []) };

    fn form_max_size() -> Option<usize> {
        sum(
            A::postcard_max_size(),
            sum(
                B::postcard_max_size(),
                sum(C::postcard_max_size(), sum(D::postcard_max_size(), Some(0))),
            ),
        )
    }
}

impl<A: MaxWritten, B: MaxWritten, C: MaxWritten, D: MaxWritten> MaxWrittenForm<(A, B, C, D)>
    for Own {
    ghost form_longest = { λ v h.
        group_within (part_within (A.longest v.0 h.0) (part_within (B.longest v.1 h.1)
        (part_within (C.longest v.2 h.2) (part_within (D.longest v.3 h.3) none_within)))) };
}

impl<A: MaxSize, B: MaxSize, C: MaxSize, D: MaxSize, E: MaxSize> MaxSizeForm<(A, B, C, D, E)>
    for Own {
    ghost form_greatest = { total
        (A.greatest ∷ B.greatest ∷ C.greatest ∷ D.greatest ∷ E.greatest ∷ []) };

    fn form_max_size() -> Option<usize> {
        sum(
            A::postcard_max_size(),
            sum(
                B::postcard_max_size(),
                sum(
                    C::postcard_max_size(),
                    sum(D::postcard_max_size(), sum(E::postcard_max_size(), Some(0))),
                ),
            ),
        )
    }
}

impl<A: MaxWritten, B: MaxWritten, C: MaxWritten, D: MaxWritten, E: MaxWritten> MaxWrittenForm<
    (A, B, C, D, E),
> for Own {
    ghost form_longest = { λ v h. group_within (part_within (A.longest v.0 h.0)
        (part_within (B.longest v.1 h.1) (part_within (C.longest v.2 h.2)
        (part_within (D.longest v.3 h.3) (part_within (E.longest v.4 h.4) none_within))))) };
}

impl<A: MaxSize, B: MaxSize, C: MaxSize, D: MaxSize, E: MaxSize, F: MaxSize> MaxSizeForm<
    (A, B, C, D, E, F),
> for Own {
    ghost form_greatest = { total
        (A.greatest ∷ B.greatest ∷ C.greatest ∷ D.greatest ∷ E.greatest ∷ F.greatest ∷ []) };

    fn form_max_size() -> Option<usize> {
        sum(
            A::postcard_max_size(),
            sum(
                B::postcard_max_size(),
                sum(
                    C::postcard_max_size(),
                    sum(
                        D::postcard_max_size(),
                        sum(E::postcard_max_size(), sum(F::postcard_max_size(), Some(0))),
                    ),
                ),
            ),
        )
    }
}

impl<
    A: MaxWritten,
    B: MaxWritten,
    C: MaxWritten,
    D: MaxWritten,
    E: MaxWritten,
    F: MaxWritten,
> MaxWrittenForm<(A, B, C, D, E, F)> for Own {
    ghost form_longest = { λ v h. group_within (part_within (A.longest v.0 h.0)
        (part_within (B.longest v.1 h.1) (part_within (C.longest v.2 h.2)
        (part_within (D.longest v.3 h.3) (part_within (E.longest v.4 h.4)
        (part_within (F.longest v.5 h.5) none_within)))))) };
}
