//! The maximum size of a type's values.
//!
//! `T::postcard_max_size()` is the number of bytes of the longest value of `T`, so a buffer can be made before there is a
//! value. A message type of your own has the maximum size of its shape, if that has one.
ghost use Rattle.std.specs.Prelude.{◌≡◌, ℕ, length, Option, Some};
ghost use Rattle.postcard_tree.specs.Spelling.{varint};
ghost use Rattle.postcard.specs.Greatest.{SizeWithin, sum_of, greater_of, times};

mod containers;
mod numbers;
mod tuples;

use postcard_ser::Serialize;
use postcard_tree::Readable;
use postcard_tree::varint::varint_usize;

/// A type whose values have a maximum size.
///
/// # Example
/// ```rust
/// fn is_greatest<T: MaxSize>(size: Option<usize>) -> bool {
///     T::postcard_max_size() == size
/// }
/// ```
pub trait MaxSize: Readable {
    /// The maximum size in bytes; none if it exceeds `usize`.
    ghost greatest: { Option ℕ };

    /// Returns the maximum size in bytes; `None` if it exceeds `usize`.
    ///
    /// # Example
    /// ```rust
    /// is_greatest::<(u16, Option<u8>)>(Some(5)),
    /// is_greatest::<Result<u16, u8>>(Some(4)),
    /// is_greatest::<Range<u16>>(Some(6)),
    /// ```
    fn postcard_max_size() -> Option<usize>
        ensures { result ≡ greatest };
}

/// A type of which no value's encoding is longer than its maximum size.
///
/// # Example
/// ```rust
/// fn fits<T: MaxWritten>(value: &T, greatest: usize) -> bool {
///     within_greatest(value);
///     T::postcard_max_size() == Some(greatest) && gives(serialized_size(value), greatest)
/// }
/// ```
pub trait MaxWritten: MaxSize + Serialize {
    /// The encoding of a valid value has at most so many bytes.
    ghost longest: { (v : Self) → Self.form.valid v → SizeWithin (Self.form.writes v)
        Self.greatest };
}

/// How a type has [`MaxSize`], by its form.
///
/// # Example
/// ```rust
/// pub fn size_by_form<M: Readable>() -> Option<usize>
/// where
///     M::Form: MaxSizeForm<M>,
/// {
///     <M::Form as MaxSizeForm<M>>::form_max_size()
/// }
/// ```
pub trait MaxSizeForm<M> {
    /// The maximum size in bytes; none if it exceeds `usize`.
    ghost form_greatest: { Option ℕ };

    /// Returns the maximum size in bytes; `None` if it exceeds `usize`.
    fn form_max_size() -> Option<usize>
        ensures { result ≡ form_greatest };
}

impl<M: Readable> MaxSize for M
where
    M::Form: MaxSizeForm<M>,
{
    ghost greatest = { M.Form.form_greatest };

    fn postcard_max_size() -> Option<usize> {
        <M::Form as MaxSizeForm<M>>::form_max_size()
    }
}

/// How a type has [`MaxWritten`], by its form.
///
/// # Example
/// ```rust
/// pub fn is_bounded_and_exact<M: Serialize>()
/// where
///     M::Form: ExactForm<M> + MaxWrittenForm<M>,
/// {}
/// ```
pub trait MaxWrittenForm<M: Serialize>: MaxSizeForm<M> {
    /// The encoding of a valid value has at most so many bytes.
    ghost form_longest: { (v : M) → M.form.valid v → SizeWithin (M.form.writes v)
        Self.form_greatest };
}

impl<M: Serialize> MaxWritten for M
where
    M::Form: MaxWrittenForm<M>,
{
    ghost longest = { M.Form.form_longest };
}

// Returns the sum of two sizes.
pub(crate) fn sum(a: Option<usize>, b: Option<usize>) -> Option<usize>
    ensures { result ≡ sum_of a b }
{
    match (a, b) {
        (Some(a), Some(b)) => a.checked_add(b),
        _ => None,
    }
}

// Returns the greater of two sizes.
pub(crate) fn greater(a: Option<usize>, b: Option<usize>) -> Option<usize>
    ensures { result ≡ greater_of a b }
{
    match (a, b) {
        (Some(a), Some(b)) => Some(a.max(b)),
        _ => None,
    }
}

// Returns so many times a size; `None` stays `None`, of no elements too.
pub(crate) fn product(a: Option<usize>, n: usize) -> Option<usize>
    ensures { result ≡ times a n }
{
    match a {
        Some(a) => a.checked_mul(n),
        None => None,
    }
}

// Returns how many bytes a count takes.
pub(crate) fn count_size(n: usize) -> Option<usize>
    ensures { result ≡ Some (length (varint n)) }
{
    let mut groups = [0u8; 10];
    Some(varint_usize(n, &mut groups).len())
}
