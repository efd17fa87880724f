//! The maximum sizes of options, results, arrays, vectors and texts of a maximum length, and of references and boxes.
ghost use Rattle.std.specs.Prelude.{length, Some};
ghost use Rattle.postcard_tree.specs.Spelling.{varint};
ghost use Rattle.postcard.specs.Greatest.{sum_of, greater_of, times, option_within, result_within, array_within, sequence_within, text_within};

use crate::max_size::{
    MaxSize, MaxSizeForm, MaxWritten, MaxWrittenForm, count_size, greater, product, sum,
};
use arrayvec::{ArrayString, ArrayVec};
use postcard_tree::Own;
use std::num::Wrapping;
use std::ops::{Range, RangeFrom, RangeInclusive, RangeTo};
use std::rc::Rc;

impl<T: MaxSize> MaxSizeForm<Option<T>> for Own {
    ghost form_greatest = { sum_of T.greatest (Some 1) };

    fn form_max_size() -> Option<usize> {
        sum(T::postcard_max_size(), Some(1))
    }
}

impl<T: MaxWritten> MaxWrittenForm<Option<T>> for Own {
    ghost form_longest = { option_within T.form.valid T.form.writes T.greatest T.longest };
}

impl<T: MaxSize, E: MaxSize> MaxSizeForm<Result<T, E>> for Own {
    ghost form_greatest = { sum_of (greater_of T.greatest E.greatest) (Some 1) };

    fn form_max_size() -> Option<usize> {
        sum(
            greater(T::postcard_max_size(), E::postcard_max_size()),
            Some(1),
        )
    }
}

impl<T: MaxWritten, E: MaxWritten> MaxWrittenForm<Result<T, E>> for Own {
    ghost form_longest = { result_within T.form.valid E.form.valid T.form.writes E.form.writes
        T.greatest E.greatest T.longest E.longest };
}

impl<T: MaxSize, const N: usize> MaxSizeForm<[T; N]> for Own {
    ghost form_greatest = { times T.greatest N };

    fn form_max_size() -> Option<usize> {
        product(T::postcard_max_size(), N)
    }
}

impl<T: MaxWritten, const N: usize> MaxWrittenForm<[T; N]> for Own {
    ghost form_longest = { λ v h. array_within T.form.valid T.form.writes T.greatest N T.longest v
        h.0 h.1 };
}

impl<T: MaxSize, const N: usize> MaxSizeForm<ArrayVec<T, N>> for Own {
    ghost form_greatest = { sum_of (times T.greatest N) (Some (length (varint N))) };

    fn form_max_size() -> Option<usize> {
        sum(product(T::postcard_max_size(), N), count_size(N))
    }
}

impl<T: MaxWritten, const N: usize> MaxWrittenForm<ArrayVec<T, N>> for Own {
    ghost form_longest = { λ v h.
        sequence_within T.form.valid T.form.writes T.greatest N T.longest v.items h.0 h.2 };
}

impl<const N: usize> MaxSizeForm<ArrayString<N>> for Own {
    ghost form_greatest = { sum_of (Some N) (Some (length (varint N))) };

    fn form_max_size() -> Option<usize> {
        sum(Some(N), count_size(N))
    }
}

impl<const N: usize> MaxWrittenForm<ArrayString<N>> for Own {
    ghost form_longest = { λ v h. text_within N v.bytes h.1 };
}

impl<T: MaxSize> MaxSizeForm<Box<T>> for Own {
    ghost form_greatest = { T.greatest };

    fn form_max_size() -> Option<usize> {
        T::postcard_max_size()
    }
}

impl<T: MaxWritten> MaxWrittenForm<Box<T>> for Own {
    ghost form_longest = { λ v h. T.longest v.value h };
}

impl<T: MaxSize> MaxSizeForm<Rc<T>> for Own {
    ghost form_greatest = { T.greatest };

    fn form_max_size() -> Option<usize> {
        T::postcard_max_size()
    }
}

impl<T: MaxSize> MaxSizeForm<Wrapping<T>> for Own {
    ghost form_greatest = { T.greatest };

    fn form_max_size() -> Option<usize> {
        T::postcard_max_size()
    }
}

impl<T: MaxSize> MaxSizeForm<RangeFrom<T>> for Own {
    ghost form_greatest = { T.greatest };

    fn form_max_size() -> Option<usize> {
        T::postcard_max_size()
    }
}

impl<T: MaxSize> MaxSizeForm<RangeTo<T>> for Own {
    ghost form_greatest = { T.greatest };

    fn form_max_size() -> Option<usize> {
        T::postcard_max_size()
    }
}

impl<T: MaxSize> MaxSizeForm<Range<T>> for Own {
    ghost form_greatest = { times T.greatest 2 };

    fn form_max_size() -> Option<usize> {
        product(T::postcard_max_size(), 2)
    }
}

impl<T: MaxSize> MaxSizeForm<RangeInclusive<T>> for Own {
    ghost form_greatest = { times T.greatest 2 };

    fn form_max_size() -> Option<usize> {
        product(T::postcard_max_size(), 2)
    }
}
