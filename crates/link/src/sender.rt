//! Sending values over a line that may fail.
ghost use Rattle.std.specs.Prelude.{◌≡◌, ◌<◌, false};

use crate::framed::frame_into_with_sentinel;
use crate::writing::put_frame;
use line_io::Outlet;
use postcard::Serialize;
use thiserror::Error;

/// Why a value wasn't sent completely.
///
/// # Example
/// ```rust
/// pub fn is_too_long(sent: Result<(), SendError>) -> bool {
///     sent == Err(SendError::Refused(Error::SerializeBufferFull))
/// }
/// ```
#[derive(Clone, Copy, PartialEq, Eq, Debug, Drop, Error)]
pub enum SendError {
    /// The value can't be encoded, or its frame is longer than N bytes (`SerializeBufferFull`); if both hold, either. Nothing was
    /// written, and `is_clean` stays.
    #[error("refused: {0}")]
    Refused(postcard::Error),
    /// A write failed or took nothing. A proper prefix of this send's bytes, perhaps none, was written; the sender isn't clean.
    #[error("line failed")]
    Line,
}

/// Sends values over a line, each as a frame of at most N bytes and a sentinel: zero, unless another is chosen.
///
/// Each byte of a frame is XORed with the sentinel, so none equals it. A sender that isn't clean writes a sentinel first, which ends
/// what an earlier send left on the line. The line must be its own while it is clean: it doesn't see what others write between its
/// sends. Code over a `Sender<W, N>` of any N requires that it fits in memory (`SenderFitsInMemory`); a concrete N costs nothing.
///
/// # Example
/// ```rust
/// let mut sender = Sender::<_, 16>::new(line);
/// println!(rt; "{:?}", sender.send(&reading))?;
/// println!(rt; "{:?}", sender.send(&reading))?;
/// let count = sender.into_inner().moved();
/// ```
#[derive(Drop)]
pub struct Sender<W, const N: usize> {
    writer: W,
    clean: bool,
    sentinel: u8,
    buffer: [u8; N],
    ghost some: { 0 < N },
}

impl<W: Outlet, const N: usize> Sender<W, N> {
    ghost use Rattle.link.specs.Senders.{writer_of, clean_of, sentinel_of, HasSent, OnRefusal, sender_place};

    /// A sender that has written nothing, and isn't clean.
    ///
    /// # Requires
    /// N is at least 1.
    pub fn new(writer: W) -> Sender<W, N>
        requires { 0 < N }
        ensures writer { writer_of result ≡ writer }
        ensures clean { clean_of result ≡ false }
        ensures sentinel { sentinel_of result ≡ 0 }
    {
        Sender::new_with_sentinel(writer, 0)
    }

    /// As `new`, with this sentinel.
    ///
    /// # Requires
    /// N is at least 1.
    pub fn new_with_sentinel(writer: W, sentinel: u8) -> Sender<W, N>
        requires { 0 < N }
        ensures writer { writer_of result ≡ writer }
        ensures clean { clean_of result ≡ false }
        ensures sentinel { sentinel_of result ≡ sentinel }
    {
        Sender {
            writer,
            clean: false,
            sentinel,
            buffer: [0; N],
        }
    }

    /// Whether the last send that wasn't refused completed. If not, or if there was none, the next one begins with a sentinel.
    pub fn is_clean(&self) -> bool
        ensures { result ≡ clean_of self.now }
    {
        self.clean
    }

    /// The writer.
    pub fn get_ref(&self) -> &W
        ensures { result.now ≡ writer_of self.now }
    {
        &self.writer
    }

    /// Replaces the writer and returns the old one. `is_clean` stays, so the new writer must continue the old one's line.
    pub fn replace_inner(&mut self, writer: W) -> W
        ensures before { result ≡ writer_of self.old }
        ensures writer { writer_of self.new ≡ writer }
        ensures clean { clean_of self.new ≡ clean_of self.old }
        ensures sentinel { sentinel_of self.new ≡ sentinel_of self.old }
    {
        std::mem::replace(&mut self.writer, writer)
    }

    /// The writer, after all writes.
    pub fn into_inner(self) -> W
        ensures { result ≡ writer_of self }
    {
        let Sender { writer, .. } = self;
        writer
    }

    /// Sends a value as one frame, followed by a sentinel.
    ///
    /// If the sender isn't clean, a sentinel goes first. The frame is complete in the sender's buffer before its first byte is
    /// written. Allocates nothing and retries nothing: it makes at most N + 2 writes, and none after one that fails.
    ///
    /// # Errors
    /// - `Refused`: the value can't be encoded, or its frame has more than N bytes (`SerializeBufferFull`). Nothing was written, and
    ///   `is_clean` stays.
    /// - `Line`: a write failed or took nothing. A proper prefix of the bytes, perhaps none, was written; the next send begins with
    ///   a sentinel. If the value is sent again, the receiver may get it twice.
    ///
    /// # Example
    /// ```rust
    /// let mut sender = Sender::<_, 6>::new(Out::new(&mut room, 1, None));
    /// let sent = sender.send(&4294967295u32);
    /// let count = sender.into_inner().moved();
    /// let line = [0u8, 6, 0xFF, 0xFF, 0xFF, 0xFF, 0x0F, 0];
    /// ```
    pub fn send<T: Serialize>(&mut self, value: &T) -> Result<(), SendError>
        ensures sent { HasSent N (T.form.writes value.now) (T.form.valid value.now)
            (sender_place W.line self.old) (sender_place W.line self.new) result }
        ensures refused { OnRefusal result (writer_of self.new ≡ writer_of self.old) }
    {
        let n = match frame_into_with_sentinel(value, &mut self.buffer, self.sentinel) {
            Ok(n) => n,
            Err(e) => return Err(SendError::Refused(e)),
        };
        match put_frame(
            &mut self.writer,
            self.clean,
            &mut self.buffer,
            n,
            self.sentinel,
        ) {
            Ok(()) => {
                self.clean = true;
                Ok(())
            }
            Err(_) => {
                self.clean = false;
                Err(SendError::Line)
            }
        }
    }
}
