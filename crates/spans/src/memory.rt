//! A caller's buffer by raw memory: the only raw pointers of these crates.
//!
//! A [`Span`] is a buffer and a cursor in it. It keeps the buffer's start, the number of bytes before the cursor, and
//! the number of all. Contracts see it as two lists: the bytes before the cursor, and those ahead of it. A span over
//! a `&'a mut [u8]` is [`Writable`], one over a `&'a [u8]` is [`ReadOnly`].
//!
//! # Why it is sound
//!
//! The pointer, [`Start`], owns nothing: it can be copied, and holding it allows nothing. The right to the bytes is a
//! value of its own, [`Memory`]. It has no size, can't be copied, and is proved to own exactly what the slice owned
//! that it was made of: a `&'a mut [u8]` or a `&'a [u8]` of these bytes at that position. Code that reads or writes
//! through a pointer shows the right to its bytes, that the pointer is where they begin, and that the index is within
//! them. A pointer moves only by adding to it, and never becomes a number.
//!
//! - **Who may hold which part.** As long as a span lives, it alone has the right to the whole buffer: the caller's
//!   borrow lasts for `'a`, so using the buffer meanwhile doesn't compile. Borrowed for a call (`&self`, `&mut
//!   self`), the bytes are back at its end. As slices of `'a` they are given only by calls that consume the span:
//!   `into_behind` and `into_ahead`, and `split_front`, which gives the first bytes as a slice and the right to the
//!   rest as a new span. What no part keeps stays borrowed until `'a` ends.
//! - **Why two parts never share a byte.** The right is never doubled: `Memory::split_at` takes it, and returns one
//!   for the bytes before a position and one for those from there on. Its contract says that these follow one
//!   another, that together they are the bytes there were, and that no byte of one is where a byte of the other is.
//!   Its proof cuts the borrow in two, so each part is written independently of the other: first bytes that were
//!   given away stay readable while the rest is still written. (A right that only reads may be doubled by Rust's
//!   rules, but these calls don't.)
//!
//! A flavor behind a `&mut` that needs a call which consumes its span puts an empty span in its place meanwhile.
ghost use Rattle.std.specs.Prelude.{◌≡◌, ℕ, ◌+◌, ◌<◌, ◌≤◌, Bool, true, false, List, ◌++◌, length, slice_set};
ghost use base.Fml.{GName};
ghost use denote.RawPtr.{block_ptr};
ghost use Rattle.spans.specs.Memory.{Place, Apart, access_owned, access_lent};

mod span;

pub use span::Span;
use std::marker::{Model, PhantomData};
use std::slice;

/// The position where bytes begin. It owns nothing, and only the calls here use it.
///
/// # Example
/// ```rust
/// check(&rt, size_of::<Memory<'static, Writable>>() == 0);
/// check(&rt, size_of::<Start>() == 8);
/// ```
#[derive(Clone, Copy, Drop)]
pub struct Start {
    at: *mut u8,
}

/// Whether the bytes of a span may be written: [`Writable`] or [`ReadOnly`].
///
/// # Example
/// ```rust
/// fn size<K: Access>(span: &Span<'_, K>) -> usize {
///     span.count().saturating_add(span.remaining())
/// }
/// ```
pub trait Access {
    /// Whether they may.
    ghost writes: { Bool };
}

/// The bytes may be read and written.
///
/// # Example
/// ```rust
/// let mut buffer = [0u8; 4];
/// let writable: Span<'_, Writable> = Span::new(&mut buffer);
/// ```
#[derive(Drop)]
pub struct Writable;

impl Access for Writable {
    ghost writes = { true };
}

/// The bytes may only be read.
///
/// # Example
/// ```rust
/// let readable: Span<'_, ReadOnly> = Span::over(&[1, 2]);
/// check(&rt, size(&readable) == 2);
/// ```
#[derive(Drop)]
pub struct ReadOnly;

impl Access for ReadOnly {
    ghost writes = { false };
}

/// The right to bytes at a position. It has no size; a [`Start`] says where they begin. Only the calls here make one
/// or use it.
///
/// Example: see [`Start`].
#[derive(Drop)]
pub struct Memory<'a, K: Access> {
    mark: PhantomData<(&'a mut u8, K)>,
    ghost place: { Place },
    ghost name: { GName },
    ghost bytes: { List ℕ },
}

impl<'a, K: Access> Model for Memory<'a, K> {
    ghost also_owns = { λ m. access_owned K.writes 'a m.place m.name m.bytes };

    ghost also_shares = { λ m _ κ. access_lent K.writes 'a m.place m.name m.bytes κ };
}

impl<'a, K: Access> Memory<'a, K> {
    // All the bytes, for reading during the call.
    pub(crate) fn as_slice(&self, start: Start, count: usize) -> &[u8]
        requires start { start.at ≡ block_ptr self.now.place.0 self.now.place.1 }
        requires count { count ≡ length self.now.bytes }
        ensures { result.now ≡ self.now.bytes }
    {
        unsafe { slice::from_raw_parts(start.at, count) }
    }

    // The right to the first `count` bytes, and the right to the rest with its start.
    pub(crate) fn split_at(
        self,
        start: Start,
        count: usize,
    ) -> (Memory<'a, K>, Start, Memory<'a, K>)
        requires start { start.at ≡ block_ptr self.place.0 self.place.1 }
        requires within { count ≤ length self.bytes }
        ensures place { result.0.place ≡ self.entry.place }
        ensures start { result.1.at ≡ block_ptr result.2.place.0 result.2.place.1 }
        ensures parts { self.entry.bytes ≡ result.0.bytes ++ result.2.bytes }
        ensures count { length result.0.bytes ≡ count }
        ensures apart { Apart result.0.place (length result.0.bytes)
            result.2.place (length result.2.bytes) }
    {
        let Memory { mark: _ } = self;
        let at = unsafe { start.at.add(count) };
        (
            Memory { mark: PhantomData },
            Start { at },
            Memory { mark: PhantomData },
        )
    }
}

impl<'a> Memory<'a, Writable> {
    ghost use Rattle.std.specs.Borrow.{sem};
    ghost use Rattle.spans.specs.Lending.{lends_all};

    // The right that a slice is.
    pub(crate) fn of(slice: &'a mut [u8]) -> (Start, Memory<'a, Writable>)
        ensures start { result.0.at ≡ block_ptr result.1.place.0 result.1.place.1 }
        ensures place { result.1.place ≡ slice.entry.ref_ptr }
        ensures bytes { result.1.bytes ≡ slice.entry.now }
        ensures same_reference { result.1.name ≡ slice.entry.ghost_name }
    {
        let at = slice.as_mut_ptr();
        (Start { at }, Memory { mark: PhantomData })
    }

    // The slice that it is the right to.
    pub(crate) fn into_slice(self, start: Start, count: usize) -> &'a mut [u8]
        requires start { start.at ≡ block_ptr self.place.0 self.place.1 }
        requires count { count ≡ length self.bytes }
        ensures bytes { result.now ≡ self.entry.bytes }
        ensures place { result.ref_ptr ≡ self.entry.place }
        ensures same_reference { result.ghost_name ≡ self.entry.name }
    {
        let Memory { mark: _ } = self;
        unsafe { slice::from_raw_parts_mut(start.at, count) }
    }

    // Writes one byte.
    pub(crate) fn write(&mut self, start: Start, index: usize, byte: u8)
        requires start { start.at ≡ block_ptr self.old.place.0 self.old.place.1 }
        requires within { index < length self.old.bytes }
        ensures place { self.new.place ≡ self.old.place }
        ensures same_reference { self.new.name ≡ self.old.name }
        ensures bytes { self.new.bytes ≡ slice_set self.old.bytes index byte }
    {
        unsafe { *start.at.add(index) = byte };
    }

    // All the bytes, for writing during the call.
    pub(crate) fn as_mut_slice(&mut self, start: Start, count: usize) -> &mut [u8]
        requires start { start.at ≡ block_ptr self.old.place.0 self.old.place.1 }
        requires count { count ≡ length self.old.bytes }
        ensures* writes_back { sem 𝓛 (lends_all self.entry result) }
        ensures value { result.now ≡ self.old.bytes }
    {
        unsafe { slice::from_raw_parts_mut(start.at, count) }
    }
}

impl<'a> Memory<'a, ReadOnly> {
    // The right that a slice is.
    pub(crate) fn of_shared(slice: &'a [u8]) -> (Start, Memory<'a, ReadOnly>)
        ensures start { result.0.at ≡ block_ptr result.1.place.0 result.1.place.1 }
        ensures bytes { result.1.bytes ≡ slice.now }
    {
        let at = slice.as_ptr() as *mut u8;
        (Start { at }, Memory { mark: PhantomData })
    }

    // The slice that it is the right to.
    pub(crate) fn into_slice(self, start: Start, count: usize) -> &'a [u8]
        requires start { start.at ≡ block_ptr self.place.0 self.place.1 }
        requires count { count ≡ length self.bytes }
        ensures bytes { result.now ≡ self.entry.bytes }
        ensures place { result.ref_ptr ≡ self.entry.place }
    {
        let Memory { mark: _ } = self;
        unsafe { slice::from_raw_parts(start.at, count) }
    }
}
