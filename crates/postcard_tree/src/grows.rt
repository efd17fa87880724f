//! Whether reading a type can allocate, as a call: for generic code that reads where there is no memory to spare.
//!
//! Every type that can be read has this, a message type by its shape.
ghost use Rattle.std.specs.Prelude.{◌≡◌, false};

use crate::fixint::{BE, FixInt, LE};
use crate::readable::{AsShape, Own, Readable};
use crate::shaped::MatchesShape;
use crate::variants::{Last, ReadableVariants, Variant, Variants4};
use arrayvec::{ArrayString, ArrayVec};
use std::collections::BTreeMap;

/// A type that says whether reading it can allocate. Rust has no such call.
///
/// # Example
/// ```rust
/// fn grows<'de, T: Deserialize<&'de [u8]>>() -> bool {
///     T::grows()
/// }
/// ```
pub trait Grows: Readable {
    /// Returns whether reading can allocate. If not, reading never returns [`crate::Error::OutOfMemory`].
    fn grows() -> bool
        ensures { result ≡ Self.form.growing };
}

/// How a type has [`Grows`], by its form. A type that is written by hand implements it for a form of its own.
///
/// # Example
/// ```rust
/// impl GrowsForm<Chain> for AsChain {
///     fn form_grows() -> bool {
///         true
///     }
/// }
/// ```
pub trait GrowsForm<M: Readable> {
    /// Returns whether reading can allocate.
    fn form_grows() -> bool
        ensures { result ≡ M.form.growing };
}

impl<M: Readable> Grows for M
where
    M::Form: GrowsForm<M>,
{
    fn grows() -> bool {
        <M::Form as GrowsForm<M>>::form_grows()
    }
}

impl<M: MatchesShape> GrowsForm<M> for AsShape
where
    M::Shape: Grows,
{
    fn form_grows() -> bool {
        <M::Shape as Grows>::grows()
    }
}

/// Variants that say whether reading one can allocate.
///
/// # Example
/// ```rust
/// pub fn seen_of<V: SerializeVariants + MaxSizeVariants + VariantsGrow>(
///     variants: &V,
/// ) -> (Option<u32>, Option<usize>, bool) {
///     (variants.index(), V::greatest_from(0), V::variants_grow())
/// }
/// ```
pub trait VariantsGrow: ReadableVariants {
    /// Returns whether reading can allocate.
    fn variants_grow() -> bool
        ensures { result ≡ Self.variants_growing };
}

impl GrowsForm<bool> for Own {
    fn form_grows() -> bool {
        false
    }
}

impl GrowsForm<u8> for Own {
    fn form_grows() -> bool {
        false
    }
}

impl GrowsForm<i8> for Own {
    fn form_grows() -> bool {
        false
    }
}

impl GrowsForm<u16> for Own {
    fn form_grows() -> bool {
        false
    }
}

impl GrowsForm<i16> for Own {
    fn form_grows() -> bool {
        false
    }
}

impl GrowsForm<u32> for Own {
    fn form_grows() -> bool {
        false
    }
}

impl GrowsForm<i32> for Own {
    fn form_grows() -> bool {
        false
    }
}

impl GrowsForm<u64> for Own {
    fn form_grows() -> bool {
        false
    }
}

impl GrowsForm<usize> for Own {
    fn form_grows() -> bool {
        false
    }
}

impl GrowsForm<i64> for Own {
    fn form_grows() -> bool {
        false
    }
}

impl GrowsForm<isize> for Own {
    fn form_grows() -> bool {
        false
    }
}

impl GrowsForm<u128> for Own {
    fn form_grows() -> bool {
        false
    }
}

impl GrowsForm<i128> for Own {
    fn form_grows() -> bool {
        false
    }
}

impl<T: FixInt> GrowsForm<LE<T>> for Own {
    fn form_grows() -> bool {
        false
    }
}

impl<T: FixInt> GrowsForm<BE<T>> for Own {
    fn form_grows() -> bool {
        false
    }
}

impl GrowsForm<char> for Own {
    fn form_grows() -> bool {
        false
    }
}

impl<'de> GrowsForm<&'de [u8]> for Own {
    fn form_grows() -> bool
        ensures { result ≡ false }
    {
        false
    }
}

impl<'de> GrowsForm<&'de str> for Own {
    fn form_grows() -> bool
        ensures { result ≡ false }
    {
        false
    }
}

impl GrowsForm<String> for Own {
    fn form_grows() -> bool {
        true
    }
}

impl<const N: usize> GrowsForm<ArrayString<N>> for Own {
    fn form_grows() -> bool {
        false
    }
}

impl GrowsForm<()> for Own {
    fn form_grows() -> bool {
        false
    }
}

impl<T: Grows> GrowsForm<Option<T>> for Own {
    fn form_grows() -> bool {
        T::grows()
    }
}

impl<T: Grows, E: Grows> GrowsForm<std::result::Result<T, E>> for Own {
    fn form_grows() -> bool {
        T::grows() || E::grows()
    }
}

impl<T: Readable> GrowsForm<Box<T>> for Own {
    fn form_grows() -> bool {
        true
    }
}

impl<T: Readable> GrowsForm<Vec<T>> for Own {
    fn form_grows() -> bool {
        true
    }
}

impl<T: Grows, const N: usize> GrowsForm<ArrayVec<T, N>> for Own {
    fn form_grows() -> bool {
        T::grows()
    }
}

impl<T: Grows, const N: usize> GrowsForm<[T; N]> for Own {
    fn form_grows() -> bool {
        T::grows()
    }
}

impl<K: Readable + Ord, V: Readable> GrowsForm<BTreeMap<K, V>> for Own {
    fn form_grows() -> bool {
        true
    }
}

impl<A: Grows> GrowsForm<(A,)> for Own {
    fn form_grows() -> bool {
        A::grows()
    }
}

impl<A: Grows, B: Grows> GrowsForm<(A, B)> for Own {
    fn form_grows() -> bool {
        A::grows() || B::grows()
    }
}

impl<A: Grows, B: Grows, C: Grows> GrowsForm<(A, B, C)> for Own {
    fn form_grows() -> bool {
        A::grows() || B::grows() || C::grows()
    }
}

impl<A: Grows, B: Grows, C: Grows, D: Grows> GrowsForm<(A, B, C, D)> for Own {
    fn form_grows() -> bool {
        A::grows() || B::grows() || C::grows() || D::grows()
    }
}

impl<A: Grows, B: Grows, C: Grows, D: Grows, E: Grows> GrowsForm<(A, B, C, D, E)> for Own {
    fn form_grows() -> bool {
        A::grows() || B::grows() || C::grows() || D::grows() || E::grows()
    }
}

impl<A: Grows, B: Grows, C: Grows, D: Grows, E: Grows, F: Grows> GrowsForm<(A, B, C, D, E, F)>
    for Own {
    fn form_grows() -> bool {
        A::grows() || B::grows() || C::grows() || D::grows() || E::grows() || F::grows()
    }
}

impl<'a, T: Grows> GrowsForm<&'a T> for Own {
    fn form_grows() -> bool {
        T::grows()
    }
}

impl<'a, T: Grows> GrowsForm<&'a mut T> for Own {
    fn form_grows() -> bool {
        T::grows()
    }
}

impl<A: Grows> GrowsForm<Last<A>> for Own {
    fn form_grows() -> bool {
        A::grows()
    }
}

impl<A: Grows, R: VariantsGrow> GrowsForm<Variant<A, R>> for Own {
    fn form_grows() -> bool {
        A::grows() || R::variants_grow()
    }
}

impl<A: Grows, B: Grows, C: Grows, D: Grows, R: VariantsGrow> GrowsForm<Variants4<A, B, C, D, R>>
    for Own {
    fn form_grows() -> bool {
        A::grows() || (B::grows() || (C::grows() || (D::grows() || R::variants_grow())))
    }
}

impl<A: Grows> VariantsGrow for Last<A> {
    fn variants_grow() -> bool {
        A::grows()
    }
}

impl<A: Grows, R: VariantsGrow> VariantsGrow for Variant<A, R> {
    fn variants_grow() -> bool {
        A::grows() || R::variants_grow()
    }
}

impl<A: Grows, B: Grows, C: Grows, D: Grows, R: VariantsGrow> VariantsGrow
    for Variants4<A, B, C, D, R> {
    fn variants_grow() -> bool {
        A::grows() || (B::grows() || (C::grows() || (D::grows() || R::variants_grow())))
    }
}
