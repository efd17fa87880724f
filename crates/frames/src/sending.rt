//! Sending frames over a line on which a send may be interrupted.
ghost use Rattle.std.specs.Prelude.{◌≡◌, ◌+◌, ◌<◌, ◌≤◌, ◌∷◌, [], ◌++◌, length, take, true, false, IfOk, OnOk, OnErr};
ghost use Rattle.cobs.specs.Frames.{shortest_frame};
ghost use Rattle.cobs.specs.Sentinel.{frame_for};
ghost use Rattle.postcard_tree.specs.Spelling.{short};
ghost use Rattle.postcard_tree.specs.Tree.{text_of};
ghost use Rattle.link.specs.Run.{framed, sent};
ghost use Rattle.frames.specs.Sending.{is_clean};

use crate::counting::Counted;
use crate::rooms::fits_counted;
use crate::whole::fits;
use cobs::DestBufTooSmallError;
use link::frame_into_with_sentinel;

/// A sender's state between calls: numbers only, so it can be a struct of C. All zeros are a new sender with sentinel 0.
///
/// Example: see [`FrameSender::send`].
#[repr(C)]
#[derive(Clone, Copy)]
pub struct FrameSender {
    /// Not 0 if all that was written was sent.
    pub clean: u8,
    /// The byte that ends a frame.
    pub sentinel: u8,
}

// Writes the frame of a message, followed by the sentinel.
fn put_ended(message: &[u8], dest: &mut [u8], sentinel: u8) -> usize
    requires { length (shortest_frame message.now) + 1 ≤ length dest.old }
    ensures length { result ≡ length (shortest_frame message.now) + 1 }
    ensures bytes { take result dest.new ≡ frame_for sentinel message.now ++ (sentinel ∷ []) }
{
    let n = cobs::encode_with_sentinel(message, dest, sentinel);
    dest[n] = sentinel;
    n + 1
}

// The same of a counted message.
fn put_counted(message: &[u8], dest: &mut [u8], sentinel: u8) -> usize
    requires { length (shortest_frame (short (text_of message.now))) + 1 ≤ length dest.old }
    ensures length { result ≡ length (shortest_frame (short (text_of message.now))) + 1 }
    ensures bytes { take result dest.new
        ≡ frame_for sentinel (short (text_of message.now)) ++ (sentinel ∷ []) }
{
    cobs::laws::lengths();
    let end = dest.len() - 1;
    match frame_into_with_sentinel(&Counted(message), &mut dest[..end], sentinel) {
        Ok(n) => {
            dest[n] = sentinel;
            n + 1
        }
        // (it has room)
        Err(_) => unreachable!(),
    }
}

impl FrameSender {
    /// A sender that hasn't written anything, and isn't clean.
    pub fn new(sentinel: u8) -> FrameSender
        ensures clean { is_clean result.clean ≡ false }
        ensures sentinel { result.sentinel ≡ sentinel }
    {
        FrameSender { clean: 0, sentinel }
    }

    /// Writes the bytes of a counted send to the front of `dest`, and returns how many there are.
    ///
    /// They are: a sentinel unless the sender is clean; the shortest frame of the message's length and bytes, as postcard encodes them,
    /// each byte XORed with the sentinel; a sentinel. Then the sender isn't clean until `went_out` says that all of them were sent. So
    /// after a write that failed, or was short, the caller has nothing to do.
    ///
    /// # Errors
    /// `DestBufTooSmallError` exactly if they don't fit. Nothing changes, and the next send writes the same as without this one.
    ///
    /// # Example
    /// ```rust
    /// let mut sender = FrameSender::new(0);
    /// let mut room = [0u8; 6];
    /// check(&rt, sender.send(b"hi", &mut room[..5]).is_err());
    /// check(
    ///     &rt,
    ///     sender.send(b"hi", &mut room) == Ok(6) && room == [0, 4, 2, b'h', b'i', 0],
    /// );
    /// sender.went_out();
    /// ```
    pub fn send(&mut self, message: &[u8], dest: &mut [u8]) -> Result<usize, DestBufTooSmallError>
        ensures length { IfOk result (λ n. n ≡ length
            (sent self.old.sentinel (is_clean self.old.clean) (text_of message.now))) }
        ensures bytes { IfOk result (λ n. take n dest.new
            ≡ sent self.old.sentinel (is_clean self.old.clean) (text_of message.now)) }
        ensures begun { OnOk result (is_clean self.new.clean ≡ false) }
        ensures fits { OnOk result (length
            (sent self.old.sentinel (is_clean self.old.clean) (text_of message.now))
            ≤ length dest.old) }
        ensures too_small { OnErr result (length dest.old < length
            (sent self.old.sentinel (is_clean self.old.clean) (text_of message.now))) }
        ensures unchanged { OnErr result ((self.new ≡ self.old) × (dest.new ≡ dest.old)) }
        ensures sentinel { self.new.sentinel ≡ self.old.sentinel }
    {
        let sentinel = self.sentinel;
        if self.clean != 0 {
            if dest.is_empty() || !fits_counted(message, dest.len() - 1) {
                return Err(DestBufTooSmallError);
            }
            self.clean = 0;
            return Ok(put_counted(message, dest, sentinel));
        }
        if dest.len() < 2 || !fits_counted(message, dest.len() - 2) {
            return Err(DestBufTooSmallError);
        }
        let (front, rest) = dest.split_at_mut(1);
        front[0] = sentinel;
        Ok(put_counted(message, rest, sentinel) + 1)
    }

    /// Writes the bytes of a plain send, of the message without its length, as `send` does, and returns how many there are.
    ///
    /// If such a send is interrupted, it is received as nothing, damaged, too long, or as a message that is a prefix of this one.
    ///
    /// # Errors
    /// `DestBufTooSmallError` exactly if they don't fit. Nothing changes.
    pub fn send_plain(
        &mut self,
        message: &[u8],
        dest: &mut [u8],
    ) -> Result<usize, DestBufTooSmallError>
        ensures length { IfOk result (λ n. n ≡ length
            (framed self.old.sentinel (is_clean self.old.clean) (shortest_frame message.now))) }
        ensures bytes { IfOk result (λ n. take n dest.new
            ≡ framed self.old.sentinel (is_clean self.old.clean)
            (frame_for self.old.sentinel message.now)) }
        ensures begun { OnOk result (is_clean self.new.clean ≡ false) }
        ensures fits { OnOk result (length
            (framed self.old.sentinel (is_clean self.old.clean) (shortest_frame message.now))
            ≤ length dest.old) }
        ensures too_small { OnErr result (length dest.old < length
            (framed self.old.sentinel (is_clean self.old.clean) (shortest_frame message.now))) }
        ensures unchanged { OnErr result ((self.new ≡ self.old) × (dest.new ≡ dest.old)) }
        ensures sentinel { self.new.sentinel ≡ self.old.sentinel }
    {
        let sentinel = self.sentinel;
        if self.clean != 0 {
            if dest.is_empty() || !fits(message, dest.len() - 1) {
                return Err(DestBufTooSmallError);
            }
            self.clean = 0;
            return Ok(put_ended(message, dest, sentinel));
        }
        if dest.len() < 2 || !fits(message, dest.len() - 2) {
            return Err(DestBufTooSmallError);
        }
        let (front, rest) = dest.split_at_mut(1);
        front[0] = sentinel;
        Ok(put_ended(message, rest, sentinel) + 1)
    }

    /// Makes the sender clean. Call it once all the bytes of the last send were sent.
    pub fn went_out(&mut self)
        ensures clean { is_clean self.new.clean ≡ true }
        ensures sentinel { self.new.sentinel ≡ self.old.sentinel }
    {
        self.clean = 1;
    }
}
