//! The maximum size of a sealed value.
ghost use Rattle.std.specs.Prelude.{Some};
ghost use Rattle.postcard.specs.Greatest.{sum_of};

use crate::value::{AsSealed, Sealed};
use postcard::experimental::max_size::{MaxSize, MaxSizeForm, MaxWritten, MaxWrittenForm};

impl<T: MaxSize> MaxSizeForm<Sealed<T>> for AsSealed {
    ghost form_greatest = { sum_of T.greatest (Some 4) };

    fn form_max_size() -> Option<usize> {
        match T::postcard_max_size() {
            Some(size) => size.checked_add(4),
            None => None,
        }
    }
}

impl<T: MaxWritten> MaxWrittenForm<Sealed<T>> for AsSealed {
    ghost use Rattle.sealed.specs.Sizes.{sealed_within};

    ghost form_longest = { λ v h. sealed_within 0 (T.form.writes v.0) T.greatest (T.longest v.0 h) };
}
