//! Where a receiver holds the bytes of a frame, so that receiving is written once.
ghost use Rattle.std.specs.Prelude.{◌≡◌, ℕ, ◌+◌, ◌<◌, ◌≤◌, length, take, slice_index, vec_len};
ghost use Rattle.std.proofs.Props.{props};
ghost use Rattle.cobs.specs.Frames.{NoZero};
ghost use Rattle.cobs.specs.InPlace.{written_over};
ghost use Rattle.cobs.specs.Sentinel.{masked};
ghost use Rattle.link.specs.Filled.{Filled, IsMessageOf};

use crate::receiver::NoMemory;
use std::alloc::Global;

/// The buffer of a receiver: an array, or one that is allocated. The bytes of a frame are held, each XORed with the sentinel, and
/// decoded at its end.
///
/// Example: see [`Reception`].
pub trait Decoding {
    /// Its bytes, and how many of them it holds.
    ghost inside: { Self → Filled };

    /// How many bytes it holds.
    fn held(&self) -> usize
        ensures count { result ≡ (inside self.now).count }
        ensures within { result ≤ length (inside self.now).bytes };

    /// Holds more bytes, each XORed with the sentinel.
    ///
    /// # Requires
    /// No byte is the sentinel, and they fit.
    fn hold(&mut self, bytes: &[u8], sentinel: u8)
        requires clear { NoZero (masked sentinel bytes.now) }
        requires room { (inside self.old).count + length bytes.now
            ≤ length (inside self.old).bytes }
        ensures bytes { (inside self.new).bytes ≡ written_over (inside self.old).count
            (masked sentinel bytes.now) (inside self.old).bytes }
        ensures count { (inside self.new).count
            ≡ (inside self.old).count + length bytes.now };

    /// Holds bytes up to the first sentinel, each XORed with it, and returns how many. It goes byte by byte, for a few.
    ///
    /// # Requires
    /// All of them fit.
    fn hold_until(&mut self, bytes: &[u8], sentinel: u8) -> usize
        requires room { (inside self.old).count + length bytes.now
            ≤ length (inside self.old).bytes }
        ensures within { result ≤ length bytes.now }
        ensures clear { NoZero (masked sentinel (take result bytes.now)) }
        ensures end { result < length bytes.now → slice_index bytes.now result ≡ sentinel }
        ensures bytes { (inside self.new).bytes ≡ written_over (inside self.old).count
            (masked sentinel (take result bytes.now)) (inside self.old).bytes }
        ensures count { (inside self.new).count ≡ (inside self.old).count + result };

    /// Holds nothing.
    fn clear(&mut self)
        ensures bytes { (inside self.new).bytes ≡ (inside self.old).bytes }
        ensures none { (inside self.new).count ≡ 0 };

    /// Decodes what it holds in place, and returns the length of the message, which is then at the start; `None` if it isn't a frame.
    /// It holds nothing then.
    fn decode_held(&mut self) -> Option<usize>
        ensures message { IsMessageOf (take (inside self.old).count (inside self.old).bytes) result
            (inside self.new).bytes }
        ensures none { (inside self.new).count ≡ 0 }
        ensures room { length (inside self.new).bytes ≡ length (inside self.old).bytes };

    /// Decodes a complete frame, without its sentinel, into the buffer, and returns the length of the message; `None` if it isn't a
    /// frame. It holds nothing then.
    ///
    /// # Requires
    /// No byte of the frame is the sentinel, and it is no longer than the buffer.
    fn decode_whole(&mut self, frame: &[u8], sentinel: u8) -> Option<usize>
        requires clear { NoZero (masked sentinel frame.now) }
        requires within { length frame.now ≤ length (inside self.old).bytes }
        ensures message { IsMessageOf (masked sentinel frame.now) result (inside self.new).bytes }
        ensures none { (inside self.new).count ≡ 0 }
        ensures room { length (inside self.new).bytes ≡ length (inside self.old).bytes };

    /// The buffer.
    fn dest(&self) -> &[u8]
        ensures { result.now ≡ (inside self.now).bytes };
}

/// The buffer of a receiver, of N bytes, in the receiver itself.
///
/// # Example
/// ```rust
/// pub type LinkDecoder<T, const N: usize> = AnswerDecoder<T, Ordinary<OfType>, ArrayBuffer<N>>;
/// ```
#[derive(Drop)]
pub struct ArrayBuffer<const N: usize> {
    bytes: [u8; N],
    // how many it holds
    count: usize,
    ghost within: { count ≤ N },
    // So they needn't be searched for their end.
    ghost clear: { NoZero (take count bytes) } by { Prim.hlevel props },
}

/// The buffer of a receiver, allocated.
///
/// # Example
/// ```rust
/// pub type OwnedLinkDecoder<T> = AnswerDecoder<T, Ordinary<OfType>, OwnedBuffer>;
/// ```
#[derive(Drop)]
pub struct OwnedBuffer {
    bytes: Vec<u8>,
    count: usize,
    ghost within: { count ≤ vec_len bytes },
    ghost clear: { NoZero (take count bytes.items) } by { Prim.hlevel props },
}

// Decodes the first bytes in place.
#[inline(always)]
fn decode_front(buffer: &mut [u8], count: usize) -> Option<usize>
    requires within { count ≤ length buffer.old }
    requires clear { NoZero (take count buffer.old) }
    ensures message { IsMessageOf (take count buffer.old) result buffer.new }
    ensures room { length buffer.new ≡ length buffer.old }
{
    match cobs::decode_clear_in_place(&mut buffer[..count], 0) {
        Ok(size) => Some(size),
        Err(_) => None,
    }
}

// Decodes a complete frame, without its sentinel.
#[inline(always)]
fn decode_into(buffer: &mut [u8], frame: &[u8], sentinel: u8) -> Option<usize>
    requires clear { NoZero (masked sentinel frame.now) }
    requires within { length frame.now ≤ length buffer.old }
    ensures message { IsMessageOf (masked sentinel frame.now) result buffer.new }
    ensures room { length buffer.new ≡ length buffer.old }
{
    cobs::laws::message_of_a_frame();
    cobs::laws::shorter();
    match cobs::decode_clear(frame, buffer, sentinel) {
        Ok(size) => Some(size),
        Err(_) => None,
    }
}

impl<const N: usize> ArrayBuffer<N> {
    ghost use Rattle.link.specs.Decoding.{in_array};

    // One that holds nothing.
    pub(crate) fn new() -> ArrayBuffer<N>
        ensures none { (in_array result).count ≡ 0 }
        ensures room { length (in_array result).bytes ≡ N }
    {
        ArrayBuffer {
            bytes: [0; N],
            count: 0,
        }
    }
}

impl OwnedBuffer {
    ghost use Rattle.std.specs.Prelude.{IfOk, IsOk, OnOk, OnErr};
    ghost use Rattle.link.specs.Decoding.{in_owner};

    // One of so many bytes that holds nothing.
    pub(crate) fn new(alloc: Global, limit: usize) -> Result<OwnedBuffer, NoMemory>
        ensures none { IfOk result (λ b. (in_owner b).count ≡ 0) }
        ensures room { IfOk result (λ b. length (in_owner b).bytes ≡ limit) }
    {
        match vec![in alloc; 0; limit] {
            Ok(bytes) => Ok(OwnedBuffer { bytes, count: 0 }),
            Err(_) => Err(NoMemory),
        }
    }

    // Changes how many bytes it has.
    pub(crate) fn resize(&mut self, limit: usize) -> Result<(), NoMemory>
        requires none { (in_owner self.old).count ≡ 0 }
        ensures none { (in_owner self.new).count ≡ 0 }
        ensures room { OnOk result (length (in_owner self.new).bytes ≡ limit) }
        ensures refused { OnErr result (length (in_owner self.new).bytes
            ≡ length (in_owner self.old).bytes) }
        ensures granted { limit ≤ length (in_owner self.old).bytes → IsOk result }
    {
        match self.bytes.resize(limit, 0) {
            Ok(()) => Ok(()),
            Err(_) => Err(NoMemory),
        }
    }
}

// Decoding what is held is a call of its own, since a push is compiled into each of its callers.
impl<const N: usize> Decoding for ArrayBuffer<N> {
    ghost use Rattle.link.specs.Decoding.{in_array};

    ghost inside = { in_array };

    #[inline(always)]
    fn held(&self) -> usize {
        self.count
    }

    fn hold(&mut self, bytes: &[u8], sentinel: u8) {
        cobs::copy_over(bytes, &mut self.bytes[..], self.count, sentinel);
        self.count += bytes.len();
    }

    #[inline(always)]
    fn hold_until(&mut self, bytes: &[u8], sentinel: u8) -> usize {
        let count = cobs::copy_until_sentinel(bytes, &mut self.bytes[..], self.count, sentinel);
        self.count += count;
        count
    }

    fn clear(&mut self) {
        self.count = 0;
    }

    #[inline(never)]
    fn decode_held(&mut self) -> Option<usize> {
        let count = self.count;
        self.count = 0;
        decode_front(&mut self.bytes[..], count)
    }

    fn decode_whole(&mut self, frame: &[u8], sentinel: u8) -> Option<usize> {
        self.count = 0;
        decode_into(&mut self.bytes[..], frame, sentinel)
    }

    fn dest(&self) -> &[u8] {
        &self.bytes[..]
    }
}

impl Decoding for OwnedBuffer {
    ghost use Rattle.link.specs.Decoding.{in_owner};

    ghost inside = { in_owner };

    #[inline(always)]
    fn held(&self) -> usize {
        self.count
    }

    fn hold(&mut self, bytes: &[u8], sentinel: u8) {
        cobs::copy_over(bytes, self.bytes.as_mut_slice(), self.count, sentinel);
        self.count += bytes.len();
    }

    #[inline(always)]
    fn hold_until(&mut self, bytes: &[u8], sentinel: u8) -> usize {
        let count = cobs::copy_until_sentinel(
            bytes,
            self.bytes.as_mut_slice(),
            self.count,
            sentinel,
        );
        self.count += count;
        count
    }

    fn clear(&mut self) {
        self.count = 0;
    }

    #[inline(never)]
    fn decode_held(&mut self) -> Option<usize> {
        let count = self.count;
        self.count = 0;
        decode_front(self.bytes.as_mut_slice(), count)
    }

    fn decode_whole(&mut self, frame: &[u8], sentinel: u8) -> Option<usize> {
        self.count = 0;
        decode_into(self.bytes.as_mut_slice(), frame, sentinel)
    }

    fn dest(&self) -> &[u8] {
        self.bytes.as_slice()
    }
}
