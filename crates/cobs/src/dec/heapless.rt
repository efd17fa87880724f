//! The streaming decoder over an array of its own.
ghost use Rattle.std.specs.Prelude.{bit_xor, ◌≡◌, ◌+◌, ◌-◌, ◌≤◌, [], ◌++◌, length, replicate};
ghost use Rattle.std.specs.Borrow.{sem};
ghost use Rattle.cobs.specs.InPlace.{written_over};
ghost use Rattle.cobs.specs.Sentinel.{masked};

use super::progress::Progress;
use super::report::{DecodeError, DecodeReport};
use crate::moves::copy_over;
use arrayvec::ArrayVec;

/// Decodes frames that arrive in chunks, into an array of N bytes of its own.
///
/// # Example
/// ```rust
/// let mut decoder = CobsDecoderHeapless::<4>::new();
/// check(&rt, takes(decoder.push(&[3, 10, 11, 2, 12, 0]), 6, 4));
/// ```
#[derive(Drop)]
pub struct CobsDecoderHeapless<const N: usize> {
    array: ArrayVec<u8, N>,
    progress: Progress,
    sentinel: u8,
}

impl<const N: usize> CobsDecoderHeapless<N> {
    ghost use Rattle.cobs.specs.Arrays.{ArrayHas, array_progress, array_buffer, array_sentinel, LendsArrayBuffer};
    ghost use Rattle.cobs.specs.Taking.{FeedsByte, TakesPiece};

    /// An idle decoder of frames that end with a zero, over a buffer of zeros.
    pub fn new() -> CobsDecoderHeapless<N>
        ensures idle { ArrayHas result [] }
        ensures buffer { array_buffer result ≡ replicate N 0 }
        ensures sentinel { array_sentinel result ≡ 0 }
    {
        CobsDecoderHeapless::new_with_sentinel(0)
    }

    /// As [`Self::new`], of frames that end with `sentinel` and whose bytes are each XORed with it.
    pub fn new_with_sentinel(sentinel: u8) -> CobsDecoderHeapless<N>
        ensures idle { ArrayHas result [] }
        ensures buffer { array_buffer result ≡ replicate N 0 }
        ensures sentinel { array_sentinel result ≡ sentinel }
    {
        let mut decoder = CobsDecoderHeapless::new_with_vec(ArrayVec::new());
        decoder.sentinel = sentinel;
        decoder
    }

    /// An idle decoder of frames that end with a zero, whose buffer has the vector's bytes and then zeros.
    pub fn new_with_vec(vec: ArrayVec<u8, N>) -> CobsDecoderHeapless<N>
        ensures idle { ArrayHas result [] }
        ensures buffer { array_buffer result
            ≡ vec.entry.items ++ replicate (N - length vec.entry.items) 0 }
        ensures sentinel { array_sentinel result ≡ 0 }
        ensures room { length (array_buffer result) ≡ N }
    {
        let mut array = vec;
        while !array.is_full() {
            array.push(0);
        }
        CobsDecoderHeapless {
            array,
            progress: Progress::new(),
            sentinel: 0,
        }
    }

    /// Takes a byte. At the sentinel after a complete frame it returns the length n of the message, `dest()[..n]`, and
    /// otherwise `None`.
    ///
    /// # Errors
    /// As [`CobsDecoder::feed`](crate::CobsDecoder::feed).
    pub fn feed(&mut self, data: u8) -> Result<Option<usize>, DecodeError>
        ensures takes { FeedsByte (array_progress self.old) (array_buffer self.old)
            (bit_xor (array_sentinel self.old) «data») result
            (array_progress self.new) (array_buffer self.new) }
        ensures sentinel { array_sentinel self.new ≡ array_sentinel self.old }
    {
        self.progress
            .feed(self.array.as_mut_slice(), self.sentinel ^ data)
    }

    /// Takes bytes up to the first result that `feed` returns, and returns it; `None` if there is none.
    /// `parsed_size` counts the bytes used of this chunk, with the sentinel: push the rest next.
    ///
    /// # Errors
    /// As [`CobsDecoder::push`](crate::CobsDecoder::push).
    pub fn push(&mut self, data: &[u8]) -> Result<Option<DecodeReport>, DecodeError>
        ensures takes { TakesPiece (array_progress self.old) (array_buffer self.old)
            (masked (array_sentinel self.old) «data».now) result
            (array_progress self.new) (array_buffer self.new) }
        ensures sentinel { array_sentinel self.new ≡ array_sentinel self.old }
    {
        self.progress
            .push(self.array.as_mut_slice(), data, self.sentinel)
    }

    /// Makes the decoder idle. An unfinished frame is dropped; the sentinel stays.
    pub fn reset(&mut self)
        ensures idle { ArrayHas self.new [] }
        ensures buffer { array_buffer self.new ≡ array_buffer self.old }
        ensures sentinel { array_sentinel self.new ≡ array_sentinel self.old }
    {
        self.progress = Progress::new();
    }

    /// The byte that ends its frames.
    pub fn sentinel(&self) -> u8
        ensures { result ≡ array_sentinel self.now }
    {
        self.sentinel
    }

    /// The buffer.
    pub fn dest(&self) -> &[u8]
        ensures { result.now ≡ array_buffer self.now }
    {
        self.array.as_slice()
    }

    /// The buffer, for writing, as [`CobsDecoder::dest_mut`](crate::CobsDecoder::dest_mut).
    pub fn dest_mut(&mut self) -> &mut [u8]
        ensures* lends { sem 𝓛 (LendsArrayBuffer N.row self.entry result) }
        ensures value { result.now ≡ array_buffer self.old }
    {
        self.array.as_mut_slice()
    }

    /// Writes bytes into the buffer, from `place` on. The frame goes on.
    ///
    /// # Requires
    /// `place + bytes.len()` is at most the buffer's length.
    pub fn overwrite(&mut self, place: usize, bytes: &[u8])
        requires { place + length bytes.now ≤ length (array_buffer self.old) }
        ensures buffer { array_buffer self.new
            ≡ written_over place bytes.now (array_buffer self.old) }
        ensures progress { array_progress self.new ≡ array_progress self.old }
        ensures sentinel { array_sentinel self.new ≡ array_sentinel self.old }
    {
        copy_over(bytes, self.array.as_mut_slice(), place, 0);
    }
}

impl<const N: usize> Default for CobsDecoderHeapless<N> {
    ghost use Rattle.cobs.specs.Arrays.{ArrayHas, array_buffer, array_sentinel};

    ghost is_default = { λ d.
        ArrayHas d [] × (array_buffer d ≡ replicate N 0) × (array_sentinel d ≡ 0) };

    fn default() -> CobsDecoderHeapless<N> {
        CobsDecoderHeapless::new()
    }
}
