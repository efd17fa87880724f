//! Frames of values.
ghost use Rattle.std.specs.Prelude.{◌≡◌, ℕ, ◌<◌, ◌≤◌, [], true, false, Ok, Err, IfOk, IfErr, IfSome, IsSome, OnOk, length, take, drop};
ghost use Rattle.postcard.specs.Written.{WrittenWhole, UnlessRefused};
ghost use Rattle.postcard_tree.specs.declared.error.Error.TheVariants.{SerializeBufferFull};
ghost use Rattle.cobs.specs.Frames.{shortest_frame};
ghost use Rattle.cobs.specs.Sentinel.{frame_for};
ghost use Rattle.cobs.specs.Fronts.{StandsIn};
ghost use Rattle.link.specs.Framing.{Framing, told_of, TookBytes, Refuses, HasRoom, Finishes};

use cobs::{FrameFront, encode_in_place};
use postcard::ser_flavors::Flavor;
use postcard::{Error, Result, Serialize, Serializer, spell_into};

/// A flavor of postcard's that writes the shortest frame of what is pushed to the start of a buffer; `finalize` returns its length.
///
/// Each byte is XORed with the sentinel; no sentinel is written after the frame.
///
/// # Errors
/// `SerializeBufferFull` if a push doesn't fit; every later push of at least one byte, and `finalize`, then fails too.
///
/// # Example
/// ```rust
/// let mut room = [0u8; 300];
/// let framed = serialize_with_flavor(&ONES.as_slice(), Framed::new(&mut room));
/// check(&rt, matches!(framed, Ok(count) if holds_ones(&room, count)));
/// ```
#[derive(Drop)]
pub struct Framed<'a> {
    buffer: &'a mut [u8],
    front: FrameFront,
    ghost stands: { StandsIn buffer.now front },
}

impl<'a> Framed<'a> {
    ghost use Rattle.link.specs.Framed.{framing_of, lent_as, sentinel_of};

    /// A flavor over this buffer, with nothing pushed and the sentinel zero.
    ///
    /// # Requires
    /// The buffer isn't empty.
    pub fn new(buffer: &'a mut [u8]) -> Framed<'a>
        requires { 0 < length buffer.old }
        ensures ready { framing_of result
            ≡ record { message = []; room = length buffer.old; spent = false } }
        ensures lent { lent_as result ≡ buffer.entry.ghost_name }
        ensures sentinel { sentinel_of result ≡ 0 }
    {
        Framed::new_with_sentinel(buffer, 0)
    }

    /// As `new`, with this sentinel.
    ///
    /// # Requires
    /// The buffer isn't empty.
    ///
    /// # Example
    /// ```rust
    /// let mut framed = Framed::new_with_sentinel(room, 0x0A);
    /// let are_taken = framed.try_extend(&[0xAC]).is_ok() && framed.try_push(2).is_ok();
    /// let length = framed.finalize();
    /// ```
    pub fn new_with_sentinel(buffer: &'a mut [u8], sentinel: u8) -> Framed<'a>
        requires { 0 < length buffer.old }
        ensures ready { framing_of result
            ≡ record { message = []; room = length buffer.old; spent = false } }
        ensures lent { lent_as result ≡ buffer.entry.ghost_name }
        ensures sentinel { sentinel_of result ≡ sentinel }
    {
        let front = FrameFront::begin_with_sentinel(buffer, sentinel);
        Framed { buffer, front }
    }
}

impl<'a> Flavor for Framed<'a> {
    ghost use Rattle.link.specs.Framed.{framing_of, sentinel_of, SameBuffer, framed_laws};

    type Output = usize;

    ghost told = { λ s. told_of (framing_of s) };

    ghost took = { λ s a t. TookBytes (framing_of s) a (framing_of t) };

    ghost refused = { λ s a e t. Refuses (framing_of s) a e (framing_of t) };

    ghost has_room = { λ s a. HasRoom (framing_of s) a };

    ghost same = { SameBuffer };

    ghost ends = { λ s r. Finishes (framing_of s) r };

    ghost laws = { framed_laws };

    fn try_extend(&mut self, bytes: &[u8]) -> Result<()> {
        let mut front = self.front;
        let pushed = front.push(self.buffer, bytes);
        self.front = front;
        match pushed {
            Ok(()) => Ok(()),
            Err(_) => Err(Error::SerializeBufferFull),
        }
    }

    fn try_push(&mut self, byte: u8) -> Result<()> {
        self.try_extend(&[byte])
    }

    fn finalize(self) -> Result<usize>
        ensures ends { Finishes (framing_of self.entry) result }
        ensures frame { IfOk result (λ n. take n self.exit.0.now
            ≡ frame_for (sentinel_of self.entry) (framing_of self.entry).message) }
    {
        let Framed { buffer: _, front } = self;
        let length = front.length();
        if length == 0 {
            return Err(Error::SerializeBufferFull);
        }
        Ok(length)
    }
}

/// Writes the shortest frame of a value to the start of a buffer, and returns its length.
///
/// No sentinel is written after it, and the rest of the buffer isn't specified. Allocates nothing.
///
/// # Errors
/// The value's own, if it can't be encoded; `SerializeBufferFull` exactly if the frame doesn't fit. If both hold, either.
///
/// # Requires
/// The buffer isn't empty.
///
/// # Example
/// ```rust
/// let n = frame_into(&(number, value), &mut buffer[..room])?;
/// ```
pub fn frame_into<T: Serialize>(value: &T, buffer: &mut [u8]) -> Result<usize>
    requires { 0 < length buffer.old }
    ensures ok { IfOk result (λ n. WrittenWhole (T.form.writes value.now)
        (λ bytes. (n ≡ length (shortest_frame bytes)) × (take n buffer.new ≡ frame_for 0 bytes))) }
    ensures err { IfErr result (λ e. UnlessRefused (T.form.writes value.now) (λ bytes.
        (e ≡ SerializeBufferFull) × (length buffer.old < length (shortest_frame bytes)))) }
    ensures valid { OnOk result (T.form.valid value.now) }
{
    frame_into_with_sentinel(value, buffer, 0)
}

/// As `frame_into`, with each byte of the frame XORed with this sentinel.
///
/// # Errors
/// As `frame_into`.
///
/// # Requires
/// The buffer isn't empty.
pub fn frame_into_with_sentinel<T: Serialize>(
    value: &T,
    buffer: &mut [u8],
    sentinel: u8,
) -> Result<usize>
    requires { 0 < length buffer.old }
    ensures ok { IfOk result (λ n. WrittenWhole (T.form.writes value.now) (λ bytes.
        (n ≡ length (shortest_frame bytes)) × (take n buffer.new ≡ frame_for sentinel bytes))) }
    ensures err { IfErr result (λ e. UnlessRefused (T.form.writes value.now) (λ bytes.
        (e ≡ SerializeBufferFull) × (length buffer.old < length (shortest_frame bytes)))) }
    ensures valid { OnOk result (T.form.valid value.now) }
{
    match spell_block(value, buffer) {
        Some(n) => Ok(encode_in_place(buffer, n, sentinel)),
        None => frame_pushed(value, buffer, sentinel),
    }
}

// Encodes a value into the buffer after its first byte, if it fits there and in one block, of at most 254 bytes. Its frame is then made
// in place, which costs less than framing each chunk of it. Up to 254 bytes of a longer value are so encoded twice. No clause says why
// it isn't encoded.
fn spell_block<T: Serialize>(value: &T, buffer: &mut [u8]) -> Option<usize>
    requires { 0 < length buffer.old }
    ensures spelled { IfSome result (λ n. WrittenWhole (T.form.writes value.now)
        (λ bytes. take n (drop 1 buffer.new) ≡ bytes)) }
    ensures few { IfSome result (λ n. n ≤ 254) }
    ensures room { IfSome result (λ n. n < length buffer.new) }
    ensures valid { IsSome result → T.form.valid value.now }
{
    let end = buffer.len().min(255);
    spell_into(value, &mut buffer[1..end])
}

// As `frame_into_with_sentinel`, by framing each chunk that the value pushes.
fn frame_pushed<T: Serialize>(value: &T, buffer: &mut [u8], sentinel: u8) -> Result<usize>
    requires { 0 < length buffer.old }
    ensures ok { IfOk result (λ n. WrittenWhole (T.form.writes value.now) (λ bytes.
        (n ≡ length (shortest_frame bytes)) × (take n buffer.new ≡ frame_for sentinel bytes))) }
    ensures err { IfErr result (λ e. UnlessRefused (T.form.writes value.now) (λ bytes.
        (e ≡ SerializeBufferFull) × (length buffer.old < length (shortest_frame bytes)))) }
    ensures valid { OnOk result (T.form.valid value.now) }
{
    cobs::laws::longer();
    let mut framed = Framed::new_with_sentinel(buffer, sentinel);
    {
        let mut serializer = Serializer {
            output: &mut framed,
        };
        value.serialize(&mut serializer)?;
    }
    framed.finalize()
}
