//! The streaming decoder over the caller's buffer.
ghost use Rattle.std.specs.Prelude.{bit_xor, ◌≡◌, ◌+◌, ◌≤◌, [], length};
ghost use Rattle.std.specs.Borrow.{sem};
ghost use Rattle.cobs.specs.InPlace.{written_over};
ghost use Rattle.cobs.specs.Sentinel.{masked};

use super::progress::Progress;
use super::report::{DecodeError, DecodeReport};
use crate::moves::copy_over;

/// Decodes frames that arrive in chunks, into a borrowed buffer.
///
/// # Example
/// ```rust
/// let mut buffer = [0u8; 4];
/// let mut decoder = CobsDecoder::new(&mut buffer);
/// check(&rt, goes_on(decoder.push(&[3, 10, 11, 2])));
/// check(&rt, takes(decoder.push(&[12, 0, 7]), 2, 4));
/// check(&rt, are_equal(decoder.dest(), &[10, 11, 0, 12]));
/// ```
#[derive(Drop)]
pub struct CobsDecoder<'a> {
    dest: &'a mut [u8],
    progress: Progress,
    sentinel: u8,
}

impl<'a> CobsDecoder<'a> {
    ghost use Rattle.cobs.specs.Decoder.{HasTaken, progress_of, buffer_of, sentinel_of, lent_name, LendsBuffer};
    ghost use Rattle.cobs.specs.Taking.{FeedsByte, TakesPiece};

    /// An idle decoder of frames that end with a zero.
    pub fn new(dest: &'a mut [u8]) -> CobsDecoder<'a>
        ensures idle { HasTaken result [] }
        ensures buffer { buffer_of result ≡ dest.old }
        ensures sentinel { sentinel_of result ≡ 0 }
        ensures lent { lent_name result ≡ dest.entry.ghost_name }
    {
        CobsDecoder::new_with_sentinel(dest, 0)
    }

    /// An idle decoder of frames that end with `sentinel` and whose bytes are each XORed with it.
    pub fn new_with_sentinel(dest: &'a mut [u8], sentinel: u8) -> CobsDecoder<'a>
        ensures idle { HasTaken result [] }
        ensures buffer { buffer_of result ≡ dest.old }
        ensures sentinel { sentinel_of result ≡ sentinel }
        ensures lent { lent_name result ≡ dest.entry.ghost_name }
    {
        CobsDecoder {
            dest,
            progress: Progress::new(),
            sentinel,
        }
    }

    /// Takes a byte. At the sentinel after a complete frame it returns the message's length n: the message is
    /// `dest()[..n]`.
    ///
    /// Until then, and at a sentinel between frames, it returns `None`. After every sentinel the decoder is idle.
    ///
    /// # Errors
    /// - `TargetBufTooSmall`: at each byte whose byte of the message doesn't fit, and again at the sentinel of such a
    ///   frame.
    /// - `InvalidFrame`: at a sentinel inside a block, with the number of bytes that were decoded and fitted.
    pub fn feed(&mut self, data: u8) -> Result<Option<usize>, DecodeError>
        ensures takes { FeedsByte (progress_of self.old) (buffer_of self.old)
            (bit_xor (sentinel_of self.old) «data») result
            (progress_of self.new) (buffer_of self.new) }
        ensures sentinel { sentinel_of self.new ≡ sentinel_of self.old }
        ensures lent { lent_name self.new ≡ lent_name self.old }
    {
        self.progress.feed(self.dest, self.sentinel ^ data)
    }

    /// Takes bytes up to the first result that `feed` returns, and returns it; `None` if there is none.
    ///
    /// `parsed_size` counts the bytes used of this chunk, with the sentinel: push the rest next. Chunk boundaries
    /// have no effect.
    ///
    /// # Errors
    /// As [`Self::feed`]. The decoder is then after the byte that caused it.
    pub fn push(&mut self, data: &[u8]) -> Result<Option<DecodeReport>, DecodeError>
        ensures takes { TakesPiece (progress_of self.old) (buffer_of self.old)
            (masked (sentinel_of self.old) «data».now) result
            (progress_of self.new) (buffer_of self.new) }
        ensures sentinel { sentinel_of self.new ≡ sentinel_of self.old }
        ensures lent { lent_name self.new ≡ lent_name self.old }
    {
        self.progress.push(self.dest, data, self.sentinel)
    }

    /// The buffer.
    pub fn dest(&self) -> &[u8]
        ensures { result.now ≡ buffer_of self.now }
    {
        self.dest
    }

    /// The buffer, for writing. The frame goes on: what is written over decoded bytes replaces them.
    ///
    /// The decoder's state afterwards is a lending clause, which only a proof by hand can use; `overwrite` states it
    /// in plain clauses.
    pub fn dest_mut(&mut self) -> &mut [u8]
        ensures* lends { sem 𝓛 (LendsBuffer self.entry result) }
        ensures value { result.now ≡ buffer_of self.old }
    {
        &mut *self.dest
    }

    /// Writes bytes into the buffer, from `place` on. The frame goes on.
    ///
    /// # Requires
    /// `place + bytes.len()` is at most the buffer's length.
    pub fn overwrite(&mut self, place: usize, bytes: &[u8])
        requires { place + length bytes.now ≤ length (buffer_of self.old) }
        ensures buffer { buffer_of self.new ≡ written_over place bytes.now (buffer_of self.old) }
        ensures progress { progress_of self.new ≡ progress_of self.old }
        ensures sentinel { sentinel_of self.new ≡ sentinel_of self.old }
        ensures lent { lent_name self.new ≡ lent_name self.old }
    {
        copy_over(bytes, self.dest, place, 0);
    }
}
