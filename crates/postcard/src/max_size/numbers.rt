//! The maximum sizes of numbers, of characters, and of what is encoded as nothing or as numbers alone.
ghost use Rattle.std.specs.Prelude.{Some, if◌then◌else◌};
ghost use Rattle.std.specs.Int.{w8, cast_unsigned};
ghost use Rattle.std.proofs.Common.{sym, subst};
ghost use Rattle.postcard_tree.specs.Tree.{zigzag};
ghost use Rattle.postcard_tree.specs.Fixed.{little_endian, big_endian};
ghost use Rattle.postcard_tree.specs.FixedOnce.{length_little, length_big};
ghost use Rattle.postcard_tree.specs.FixedTree.{little_tree_is, big_tree_is};
ghost use Rattle.postcard.specs.Greatest.{SizeWithin, byte_within, within_16, within_32, within_64, within_128, character_within, end_within, fixed_within};

use crate::max_size::{MaxSizeForm, MaxWrittenForm};
use postcard_tree::Own;
use postcard_tree::fixint::{BE, FixInt, LE};
use std::marker::PhantomData;
use std::num::{
    NonZeroI8, NonZeroI16, NonZeroI32, NonZeroI64, NonZeroI128, NonZeroIsize, NonZeroU8,
    NonZeroU16, NonZeroU32, NonZeroU64, NonZeroU128, NonZeroUsize,
};
use std::time::Duration;

impl MaxSizeForm<bool> for Own {
    ghost form_greatest = { Some 1 };

    fn form_max_size() -> Option<usize> {
        Some(1)
    }
}

impl MaxWrittenForm<bool> for Own {
    ghost form_longest = { λ v h. byte_within (if v then 1 else 0) };
}

impl MaxSizeForm<u8> for Own {
    ghost form_greatest = { Some 1 };

    fn form_max_size() -> Option<usize> {
        Some(1)
    }
}

impl MaxWrittenForm<u8> for Own {
    ghost form_longest = { λ v h. byte_within v };
}

impl MaxSizeForm<i8> for Own {
    ghost form_greatest = { Some 1 };

    fn form_max_size() -> Option<usize> {
        Some(1)
    }
}

impl MaxWrittenForm<i8> for Own {
    ghost form_longest = { λ v h. byte_within (cast_unsigned w8 v) };
}

impl MaxSizeForm<u16> for Own {
    ghost form_greatest = { Some 3 };

    fn form_max_size() -> Option<usize> {
        Some(3)
    }
}

impl MaxWrittenForm<u16> for Own {
    ghost form_longest = { within_16 };
}

impl MaxSizeForm<i16> for Own {
    ghost form_greatest = { Some 3 };

    fn form_max_size() -> Option<usize> {
        Some(3)
    }
}

impl MaxWrittenForm<i16> for Own {
    ghost form_longest = { λ v h. within_16 (zigzag v) h };
}

impl MaxSizeForm<u32> for Own {
    ghost form_greatest = { Some 5 };

    fn form_max_size() -> Option<usize> {
        Some(5)
    }
}

impl MaxWrittenForm<u32> for Own {
    ghost form_longest = { within_32 };
}

impl MaxSizeForm<i32> for Own {
    ghost form_greatest = { Some 5 };

    fn form_max_size() -> Option<usize> {
        Some(5)
    }
}

impl MaxWrittenForm<i32> for Own {
    ghost form_longest = { λ v h. within_32 (zigzag v) h };
}

impl MaxSizeForm<u64> for Own {
    ghost form_greatest = { Some 10 };

    fn form_max_size() -> Option<usize> {
        Some(10)
    }
}

impl MaxWrittenForm<u64> for Own {
    ghost form_longest = { within_64 };
}

impl MaxSizeForm<i64> for Own {
    ghost form_greatest = { Some 10 };

    fn form_max_size() -> Option<usize> {
        Some(10)
    }
}

impl MaxWrittenForm<i64> for Own {
    ghost form_longest = { λ v h. within_64 (zigzag v) h };
}

impl MaxSizeForm<u128> for Own {
    ghost form_greatest = { Some 19 };

    fn form_max_size() -> Option<usize> {
        Some(19)
    }
}

impl MaxWrittenForm<u128> for Own {
    ghost form_longest = { within_128 };
}

impl MaxSizeForm<i128> for Own {
    ghost form_greatest = { Some 19 };

    fn form_max_size() -> Option<usize> {
        Some(19)
    }
}

impl MaxWrittenForm<i128> for Own {
    ghost form_longest = { λ v h. within_128 (zigzag v) h };
}

impl MaxSizeForm<usize> for Own {
    ghost form_greatest = { Some 10 };

    fn form_max_size() -> Option<usize> {
        Some(10)
    }
}

impl MaxWrittenForm<usize> for Own {
    ghost form_longest = { within_64 };
}

impl MaxSizeForm<isize> for Own {
    ghost form_greatest = { Some 10 };

    fn form_max_size() -> Option<usize> {
        Some(10)
    }
}

impl MaxWrittenForm<isize> for Own {
    ghost form_longest = { λ v h. within_64 (zigzag v) h };
}

impl<T: FixInt> MaxSizeForm<LE<T>> for Own {
    ghost form_greatest = { Some T.size };

    fn form_max_size() -> Option<usize> {
        Some(T::size())
    }
}

impl<T: FixInt> MaxWrittenForm<LE<T>> for Own {
    ghost form_longest = { λ v h. subst (λ z. SizeWithin z (Some T.size))
        (sym (little_tree_is T.size (T.bits v.0))) (fixed_within (little_endian T.size (T.bits v.0))
        T.size (length_little T.size (T.bits v.0))) };
}

impl<T: FixInt> MaxSizeForm<BE<T>> for Own {
    ghost form_greatest = { Some T.size };

    fn form_max_size() -> Option<usize> {
        Some(T::size())
    }
}

impl<T: FixInt> MaxWrittenForm<BE<T>> for Own {
    ghost form_longest = { λ v h.
        subst (λ z. SizeWithin z (Some T.size)) (sym (big_tree_is T.size (T.bits v.0)))
        (fixed_within (big_endian T.size (T.bits v.0)) T.size (length_big T.size (T.bits v.0))) };
}

impl MaxSizeForm<char> for Own {
    ghost form_greatest = { Some 5 };

    fn form_max_size() -> Option<usize> {
        Some(5)
    }
}

impl MaxWrittenForm<char> for Own {
    ghost form_longest = { λ v h. character_within v };
}

impl MaxSizeForm<()> for Own {
    ghost form_greatest = { Some 0 };

    fn form_max_size() -> Option<usize> {
        Some(0)
    }
}

impl MaxWrittenForm<()> for Own {
    ghost form_longest = { λ v h. end_within };
}

impl MaxSizeForm<NonZeroU8> for Own {
    ghost form_greatest = { Some 1 };

    fn form_max_size() -> Option<usize> {
        Some(1)
    }
}

impl MaxSizeForm<NonZeroI8> for Own {
    ghost form_greatest = { Some 1 };

    fn form_max_size() -> Option<usize> {
        Some(1)
    }
}

impl MaxSizeForm<NonZeroU16> for Own {
    ghost form_greatest = { Some 3 };

    fn form_max_size() -> Option<usize> {
        Some(3)
    }
}

impl MaxSizeForm<NonZeroI16> for Own {
    ghost form_greatest = { Some 3 };

    fn form_max_size() -> Option<usize> {
        Some(3)
    }
}

impl MaxSizeForm<NonZeroU32> for Own {
    ghost form_greatest = { Some 5 };

    fn form_max_size() -> Option<usize> {
        Some(5)
    }
}

impl MaxSizeForm<NonZeroI32> for Own {
    ghost form_greatest = { Some 5 };

    fn form_max_size() -> Option<usize> {
        Some(5)
    }
}

impl MaxSizeForm<NonZeroU64> for Own {
    ghost form_greatest = { Some 10 };

    fn form_max_size() -> Option<usize> {
        Some(10)
    }
}

impl MaxSizeForm<NonZeroI64> for Own {
    ghost form_greatest = { Some 10 };

    fn form_max_size() -> Option<usize> {
        Some(10)
    }
}

impl MaxSizeForm<NonZeroUsize> for Own {
    ghost form_greatest = { Some 10 };

    fn form_max_size() -> Option<usize> {
        Some(10)
    }
}

impl MaxSizeForm<NonZeroIsize> for Own {
    ghost form_greatest = { Some 10 };

    fn form_max_size() -> Option<usize> {
        Some(10)
    }
}

impl MaxSizeForm<NonZeroU128> for Own {
    ghost form_greatest = { Some 19 };

    fn form_max_size() -> Option<usize> {
        Some(19)
    }
}

impl MaxSizeForm<NonZeroI128> for Own {
    ghost form_greatest = { Some 19 };

    fn form_max_size() -> Option<usize> {
        Some(19)
    }
}

impl MaxSizeForm<Duration> for Own {
    ghost form_greatest = { Some 15 };

    fn form_max_size() -> Option<usize> {
        Some(15)
    }
}

impl<T> MaxSizeForm<PhantomData<T>> for Own {
    ghost form_greatest = { Some 0 };

    fn form_max_size() -> Option<usize> {
        Some(0)
    }
}
