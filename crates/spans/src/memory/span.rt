//! Bytes in memory, and a cursor among them.
ghost use Rattle.std.specs.Prelude.{◌≡◌, ℕ, ◌<◌, ◌≤◌, [], ◌∷◌, ◌++◌, length, take, drop, slice_index, slice_set};
ghost use denote.RawPtr.{block_ptr};
ghost use Rattle.spans.specs.Memory.{Apart};

use crate::memory::{Access, Memory, ReadOnly, Start, Writable};

/// A caller's buffer and a cursor in it. `K` says whether the bytes may be written.
///
/// # Example
/// ```rust
/// let mut buffer = [0u8; 4];
/// let mut span = Span::new(&mut buffer);
/// span.push(7);
/// span.push_slice(&[1, 2]);
/// span.set_byte(0, 9);
/// ```
#[derive(Drop)]
pub struct Span<'a, K: Access> {
    start: Start,
    behind: usize,
    total: usize,
    memory: Memory<'a, K>,
    ghost placed: { start.at ≡ block_ptr memory.place.0 memory.place.1 },
    ghost within: { behind ≤ total },
    ghost whole: { total ≡ length memory.bytes },
}

impl<'a, K: Access> Span<'a, K> {
    ghost use Rattle.spans.specs.Span.{behind_of, ahead_of};

    /// Returns the number of bytes ahead of the cursor.
    pub fn remaining(&self) -> usize
        ensures { result ≡ length (ahead_of self.now) }
    {
        self.total - self.behind
    }

    /// Returns the number of bytes before the cursor.
    pub fn count(&self) -> usize
        ensures { result ≡ length (behind_of self.now) }
    {
        self.behind
    }
}

impl<'a> Span<'a, Writable> {
    ghost use Rattle.spans.specs.Span.{behind_of, ahead_of, lent_as, place_of};

    /// A span over a buffer for writing, which may be empty, with the cursor at its start.
    pub fn new(slice: &'a mut [u8]) -> Span<'a, Writable>
        ensures behind { behind_of result ≡ [] }
        ensures ahead { ahead_of result ≡ slice.entry.now }
        ensures place { place_of result ≡ slice.entry.ref_ptr }
        ensures same_reference { lent_as result ≡ slice.entry.ghost_name }
    {
        let total = slice.len();
        let (start, memory) = Memory::of(slice);
        Span {
            start,
            behind: 0,
            total,
            memory,
        }
    }

    /// Writes the next byte, and advances the cursor.
    ///
    /// # Requires
    /// `remaining` is 1 or more.
    pub fn push(&mut self, byte: u8)
        requires { 0 < length (ahead_of self.old) }
        ensures behind { behind_of self.new ≡ behind_of self.old ++ byte ∷ [] }
        ensures ahead { ahead_of self.new ≡ drop 1 (ahead_of self.old) }
        ensures same_reference { lent_as self.new ≡ lent_as self.old }
        ensures place { place_of self.new ≡ place_of self.old }
    {
        let at = self.behind;
        self.memory.write(self.start, at, byte);
        self.behind = at + 1;
    }

    /// Writes the next bytes, and advances the cursor.
    ///
    /// # Requires
    /// `bytes.len()` is at most `remaining`.
    pub fn push_slice(&mut self, bytes: &[u8])
        requires { length bytes.now ≤ length (ahead_of self.old) }
        ensures behind { behind_of self.new ≡ behind_of self.old ++ bytes.now }
        ensures ahead { ahead_of self.new ≡ drop (length bytes.now) (ahead_of self.old) }
        ensures same_reference { lent_as self.new ≡ lent_as self.old }
        ensures place { place_of self.new ≡ place_of self.old }
    {
        let at = self.behind;
        let total = self.total;
        let end = at + bytes.len();
        let all = self.memory.as_mut_slice(self.start, total);
        all[at..end].copy_from_slice(bytes);
        self.behind = end;
    }

    /// Returns the byte at an index before the cursor.
    ///
    /// # Requires
    /// The index is below `count`.
    pub fn byte(&self, index: usize) -> u8
        requires { index < length (behind_of self.now) }
        ensures { result ≡ slice_index (behind_of self.now) index }
    {
        self.memory.as_slice(self.start, self.total)[index]
    }

    /// Writes the byte at an index before the cursor.
    ///
    /// # Requires
    /// The index is below `count`.
    pub fn set_byte(&mut self, index: usize, byte: u8)
        requires { index < length (behind_of self.old) }
        ensures behind { behind_of self.new ≡ slice_set (behind_of self.old) index byte }
        ensures ahead { ahead_of self.new ≡ ahead_of self.old }
        ensures same_reference { lent_as self.new ≡ lent_as self.old }
        ensures place { place_of self.new ≡ place_of self.old }
    {
        self.memory.write(self.start, index, byte);
    }

    /// Borrows the next `count` bytes for reading.
    ///
    /// # Requires
    /// `count` is at most `remaining`.
    pub fn front(&self, count: usize) -> &[u8]
        requires { count ≤ length (ahead_of self.now) }
        ensures { result.now ≡ take count (ahead_of self.now) }
    {
        let at = self.behind;
        let all = self.memory.as_slice(self.start, self.total);
        &all[at..at + count]
    }

    /// Gives the next `count` bytes away as a slice, with a span over the rest, whose cursor is at its start.
    ///
    /// The bytes before the cursor are in neither; they stay borrowed.
    ///
    /// # Requires
    /// `count` is at most `remaining`.
    pub fn split_front(self, count: usize) -> (&'a mut [u8], Span<'a, Writable>)
        requires { count ≤ length (ahead_of self) }
        ensures parts { ahead_of self.entry ≡ result.0.now ++ ahead_of result.1 }
        ensures count { length result.0.now ≡ count }
        ensures behind { behind_of result.1 ≡ [] }
        ensures apart { Apart result.0.ref_ptr (length result.0.now)
            (place_of result.1) (length (ahead_of result.1)) }
    {
        let Span {
            start,
            behind,
            total,
            memory,
        } = self;
        let (_, start, ahead) = memory.split_at(start, behind);
        let (front, rest_start, rest) = ahead.split_at(start, count);
        let front = front.into_slice(start, count);
        let rest = Span {
            start: rest_start,
            behind: 0,
            total: total - behind - count,
            memory: rest,
        };
        (front, rest)
    }

    /// Returns the whole buffer. When this borrow ends, the caller's buffer is what the returned slice was last.
    pub fn into_whole(self) -> &'a mut [u8]
        ensures bytes { result.now ≡ behind_of self.entry ++ ahead_of self.entry }
        ensures same_reference { result.ghost_name ≡ lent_as self.entry }
    {
        let Span {
            start,
            behind: _,
            total,
            memory,
        } = self;
        memory.into_slice(start, total)
    }

    /// Returns the bytes before the cursor.
    pub fn into_behind(self) -> &'a mut [u8]
        ensures bytes { result.now ≡ behind_of self.entry }
        ensures place { result.ref_ptr ≡ place_of self.entry }
    {
        let Span {
            start,
            behind,
            total: _,
            memory,
        } = self;
        let (written, _, _) = memory.split_at(start, behind);
        written.into_slice(start, behind)
    }

    /// Returns the bytes ahead of the cursor.
    pub fn into_ahead(self) -> &'a mut [u8]
        ensures { result.now ≡ ahead_of self.entry }
    {
        let Span {
            start,
            behind,
            total,
            memory,
        } = self;
        let (_, start, ahead) = memory.split_at(start, behind);
        ahead.into_slice(start, total - behind)
    }
}

impl<'a> Span<'a, ReadOnly> {
    ghost use Rattle.spans.specs.Span.{behind_of, ahead_of, place_of};

    /// A span over a buffer for reading, which may be empty, with the cursor at its start.
    pub fn over(slice: &'a [u8]) -> Span<'a, ReadOnly>
        ensures behind { behind_of result ≡ [] }
        ensures ahead { ahead_of result ≡ slice.now }
    {
        let total = slice.len();
        let (start, memory) = Memory::of_shared(slice);
        Span {
            start,
            behind: 0,
            total,
            memory,
        }
    }

    /// Returns the next byte, and advances the cursor.
    ///
    /// # Requires
    /// `remaining` is 1 or more.
    pub fn next(&mut self) -> u8
        requires { 0 < length (ahead_of self.old) }
        ensures ahead { ahead_of self.old ≡ result ∷ ahead_of self.new }
        ensures behind { behind_of self.new ≡ behind_of self.old ++ result ∷ [] }
    {
        let at = self.behind;
        let byte = self.memory.as_slice(self.start, self.total)[at];
        self.behind = at + 1;
        byte
    }

    /// Gives the next `count` bytes away as a slice, with a span over the rest, whose cursor is at its start.
    ///
    /// The bytes before the cursor are in neither; they stay borrowed.
    ///
    /// # Requires
    /// `count` is at most `remaining`.
    pub fn split_front(self, count: usize) -> (&'a [u8], Span<'a, ReadOnly>)
        requires { count ≤ length (ahead_of self) }
        ensures parts { ahead_of self.entry ≡ result.0.now ++ ahead_of result.1 }
        ensures count { length result.0.now ≡ count }
        ensures behind { behind_of result.1 ≡ [] }
        ensures apart { Apart result.0.ref_ptr (length result.0.now)
            (place_of result.1) (length (ahead_of result.1)) }
    {
        let Span {
            start,
            behind,
            total,
            memory,
        } = self;
        let (_, start, ahead) = memory.split_at(start, behind);
        let (taken, left_start, left) = ahead.split_at(start, count);
        let taken = taken.into_slice(start, count);
        let left = Span {
            start: left_start,
            behind: 0,
            total: total - behind - count,
            memory: left,
        };
        (taken, left)
    }

    /// Returns the bytes ahead of the cursor.
    pub fn into_ahead(self) -> &'a [u8]
        ensures { result.now ≡ ahead_of self.entry }
    {
        let Span {
            start,
            behind,
            total,
            memory,
        } = self;
        let (_, start, left) = memory.split_at(start, behind);
        left.into_slice(start, total - behind)
    }
}
