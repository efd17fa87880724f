//! The streaming decoder over a vector of its own.
ghost use Rattle.std.specs.Prelude.{bit_xor, ◌≡◌, ℕ, ◌+◌, ◌-◌, ◌≤◌, List, [], ◌++◌, length, take, replicate, ◌↔◌, IsTrue, IsOk, IfOk, OnOk, OnErr};
ghost use Rattle.std.specs.Borrow.{sem};
ghost use Rattle.cobs.specs.InPlace.{written_over};
ghost use Rattle.cobs.specs.Sentinel.{masked};

use super::progress::Progress;
use super::report::{DecodeError, DecodeReport};
use crate::moves::copy_over;
use std::alloc::{AllocError, Global};

/// Decodes frames that arrive in chunks, into a buffer of its own.
///
/// # Example
/// ```rust
/// let is_decoded = match CobsDecoderOwned::new(rt.alloc(), 4) {
///     Ok(mut decoder) => takes(decoder.push(&[3, 10, 11, 2, 12, 0]), 6, 4),
///     Err(_) => false,
/// };
/// ```
#[derive(Drop)]
pub struct CobsDecoderOwned {
    buffer: Vec<u8>,
    progress: Progress,
    sentinel: u8,
}

impl CobsDecoderOwned {
    ghost use Rattle.cobs.specs.Owners.{OwnedHas, owned_progress, owned_buffer, owned_sentinel, LendsOwnedBuffer};
    ghost use Rattle.cobs.specs.Taking.{FeedsByte, TakesPiece};

    /// An idle decoder of frames that end with a zero, over a buffer of `size` zeros.
    ///
    /// # Errors
    /// `AllocError` when out of memory.
    ///
    /// # Allocates
    /// The buffer.
    pub fn new(alloc: Global, size: usize) -> Result<CobsDecoderOwned, AllocError>
        ensures idle { IfOk result (λ d. OwnedHas d []) }
        ensures buffer { IfOk result (λ d. owned_buffer d ≡ replicate size 0) }
        ensures sentinel { IfOk result (λ d. owned_sentinel d ≡ 0) }
    {
        CobsDecoderOwned::new_with_sentinel(alloc, size, 0)
    }

    /// As [`Self::new`], of frames that end with `sentinel` and whose bytes are each XORed with it.
    ///
    /// # Errors
    /// `AllocError` when out of memory.
    ///
    /// # Allocates
    /// The buffer.
    pub fn new_with_sentinel(
        alloc: Global,
        size: usize,
        sentinel: u8,
    ) -> Result<CobsDecoderOwned, AllocError>
        ensures idle { IfOk result (λ d. OwnedHas d []) }
        ensures buffer { IfOk result (λ d. owned_buffer d ≡ replicate size 0) }
        ensures sentinel { IfOk result (λ d. owned_sentinel d ≡ sentinel) }
    {
        Ok(CobsDecoderOwned {
            buffer: vec![in alloc; 0; size]?,
            progress: Progress::new(),
            sentinel,
        })
    }

    /// Takes a byte. At the sentinel after a complete frame it returns the length n of the message, `dest()[..n]`, and
    /// otherwise `None`.
    ///
    /// # Errors
    /// As [`CobsDecoder::feed`](crate::CobsDecoder::feed).
    pub fn feed(&mut self, data: u8) -> Result<Option<usize>, DecodeError>
        ensures takes { FeedsByte (owned_progress self.old) (owned_buffer self.old)
            (bit_xor (owned_sentinel self.old) «data») result
            (owned_progress self.new) (owned_buffer self.new) }
        ensures sentinel { owned_sentinel self.new ≡ owned_sentinel self.old }
    {
        self.progress
            .feed(self.buffer.as_mut_slice(), self.sentinel ^ data)
    }

    /// Takes bytes up to the first result that `feed` returns, and returns it; `None` if there is none.
    /// `parsed_size` counts the bytes used of this chunk, with the sentinel: push the rest next.
    ///
    /// # Errors
    /// As [`CobsDecoder::push`](crate::CobsDecoder::push).
    pub fn push(&mut self, data: &[u8]) -> Result<Option<DecodeReport>, DecodeError>
        ensures takes { TakesPiece (owned_progress self.old) (owned_buffer self.old)
            (masked (owned_sentinel self.old) «data».now) result
            (owned_progress self.new) (owned_buffer self.new) }
        ensures sentinel { owned_sentinel self.new ≡ owned_sentinel self.old }
    {
        self.progress
            .push(self.buffer.as_mut_slice(), data, self.sentinel)
    }

    /// Makes the decoder idle. An unfinished frame is dropped; the sentinel stays.
    pub fn reset(&mut self)
        ensures idle { OwnedHas self.new [] }
        ensures buffer { owned_buffer self.new ≡ owned_buffer self.old }
        ensures sentinel { owned_sentinel self.new ≡ owned_sentinel self.old }
    {
        self.progress = Progress::new();
    }

    /// Returns whether no frame has begun.
    pub fn is_idle(&self) -> bool
        ensures idle { IsTrue result ↔ OwnedHas self.now [] }
        ensures begun { (p : List ℕ) → OwnedHas self.now p → (IsTrue result ↔ p ≡ []) }
    {
        self.progress.is_new()
    }

    /// Makes the buffer `size` bytes long. It keeps its bytes up to that size, and zeros follow them.
    ///
    /// # Errors
    /// `AllocError` when out of memory; nothing is changed. Never if the buffer doesn't grow.
    ///
    /// # Requires
    /// No frame has begun, which `is_idle` says.
    ///
    /// # Allocates
    /// The buffer, if it grows.
    pub fn resize(&mut self, size: usize) -> Result<(), AllocError>
        requires { OwnedHas self.old [] }
        ensures idle { OwnedHas self.new [] }
        ensures sentinel { owned_sentinel self.new ≡ owned_sentinel self.old }
        ensures buffer { OnOk result (owned_buffer self.new ≡ take size (owned_buffer self.old)
            ++ replicate (size - length (owned_buffer self.old)) 0) }
        ensures refused { OnErr result (owned_buffer self.new ≡ owned_buffer self.old) }
        ensures granted { size ≤ length (owned_buffer self.old) → IsOk result }
    {
        self.buffer.resize(size, 0)
    }

    /// The byte that ends its frames.
    pub fn sentinel(&self) -> u8
        ensures { result ≡ owned_sentinel self.now }
    {
        self.sentinel
    }

    /// The buffer.
    pub fn dest(&self) -> &[u8]
        ensures { result.now ≡ owned_buffer self.now }
    {
        self.buffer.as_slice()
    }

    /// The buffer, for writing, as [`CobsDecoder::dest_mut`](crate::CobsDecoder::dest_mut).
    pub fn dest_mut(&mut self) -> &mut [u8]
        ensures* lends { sem 𝓛 (LendsOwnedBuffer self.entry result) }
        ensures value { result.now ≡ owned_buffer self.old }
    {
        self.buffer.as_mut_slice()
    }

    /// Writes bytes into the buffer, from `place` on. The frame goes on.
    ///
    /// # Requires
    /// `place + bytes.len()` is at most the buffer's length.
    pub fn overwrite(&mut self, place: usize, bytes: &[u8])
        requires { place + length bytes.now ≤ length (owned_buffer self.old) }
        ensures buffer { owned_buffer self.new
            ≡ written_over place bytes.now (owned_buffer self.old) }
        ensures progress { owned_progress self.new ≡ owned_progress self.old }
        ensures sentinel { owned_sentinel self.new ≡ owned_sentinel self.old }
    {
        copy_over(bytes, self.buffer.as_mut_slice(), place, 0);
    }
}
