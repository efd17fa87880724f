//! Encoding values as the bytes of sends.
ghost use Rattle.std.specs.Prelude.{◌≡◌, ◌<◌, ◌^◌, ◌++◌, false, length, OnOk, OnErr};
ghost use Rattle.link.specs.Run.{framed};

use crate::error::EncodeError;
use bytes::BytesMut;
use link::frame_into_with_sentinel;
use postcard::Serialize;
use std::alloc::AllocError;
use std::io;
use tokio_util::codec::Encoder;

/// Writes each value as a `Sender` with frames of at most N bytes sends it: a sentinel before the first one, the frame, a sentinel.
///
/// It holds no buffer: `encode` has one of N bytes among its locals.
///
/// # Errors
/// `Refused` if the value can't be encoded or its frame is longer than N bytes, `Io` if the buffer can't grow. Nothing is written then,
/// and the encoder is unchanged.
///
/// # Allocates
/// What the sink's buffer grows by, at each `encode`.
///
/// # Example
/// ```rust
/// pub type Letters = LinkEncoder<3>;
/// ```
/// ```rust
/// let Ok(mut writer) = FramedWrite::new(rt.alloc(), Paper::new(pieces), Letters::new()) else {
///     return sent;
/// };
/// if writer.start_send("a").is_err() || writer.start_send("b").is_err() {
///     return sent;
/// }
/// ```
#[derive(Clone, Copy, Drop)]
pub struct LinkEncoder<const N: usize> {
    clean: bool,
    sentinel: u8,
    ghost some: { 0 < N },
    ghost fits: { N < 2 ^ 63 },
}

impl<const N: usize> LinkEncoder<N> {
    ghost use Rattle.link_codec.specs.Encoding.{encoder_clean, encoder_sentinel};

    /// An encoder that has written nothing, with the sentinel zero.
    ///
    /// # Requires
    /// N is at least 1 and below 2^63.
    pub fn new() -> LinkEncoder<N>
        requires some { 0 < N }
        requires fits { N < 2 ^ 63 }
        ensures clean { encoder_clean result ≡ false }
        ensures sentinel { encoder_sentinel result ≡ 0 }
    {
        LinkEncoder::new_with_sentinel(0)
    }

    /// As `new`, with this sentinel.
    ///
    /// # Requires
    /// N is at least 1 and below 2^63.
    pub fn new_with_sentinel(sentinel: u8) -> LinkEncoder<N>
        requires some { 0 < N }
        requires fits { N < 2 ^ 63 }
        ensures clean { encoder_clean result ≡ false }
        ensures sentinel { encoder_sentinel result ≡ sentinel }
    {
        LinkEncoder {
            clean: false,
            sentinel,
        }
    }

    /// Whether a value was written. If not, the next one begins with a sentinel.
    pub fn is_clean(&self) -> bool
        ensures { result ≡ encoder_clean self.now }
    {
        self.clean
    }
}

// Appends the sentinel if none was written yet, the frame, and the sentinel; nothing if the buffer can't grow for all.
fn append(dst: &mut BytesMut, clean: bool, frame: &[u8], sentinel: u8) -> Result<(), AllocError>
    ensures ok { OnOk result (dst.new.items ≡ dst.old.items ++ framed sentinel clean frame.now) }
    ensures err { OnErr result ((dst.new.items ≡ dst.old.items)
        × (dst.old.spare < length (framed sentinel clean frame.now))) }
{
    if clean {
        dst.reserve(frame.len() + 1)?;
    } else {
        dst.reserve(frame.len() + 2)?;
        dst.extend_reserved(&[sentinel]);
    }
    dst.extend_reserved(frame);
    dst.extend_reserved(&[sentinel]);
    Ok(())
}

impl<T: Serialize + Drop, const N: usize> Encoder<T> for LinkEncoder<N> {
    ghost use Rattle.link_codec.specs.Encoding.{Encodes, RefusesValue};

    type Error = EncodeError;

    ghost encodes = { λ s item frame t. Encodes s (T.form.writes item) (T.form.valid item)
        frame t };

    ghost refuses = { λ s item spare e. RefusesValue s (T.form.writes item) spare e };

    fn encode(&mut self, item: T, dst: &mut BytesMut) -> Result<(), EncodeError> {
        let mut buffer = [0u8; N];
        let n = match frame_into_with_sentinel(&item, &mut buffer, self.sentinel) {
            Ok(n) => n,
            Err(e) => return Err(EncodeError::Refused(e)),
        };
        match append(dst, self.clean, &buffer[..n], self.sentinel) {
            Ok(()) => {
                self.clean = true;
                Ok(())
            }
            Err(e) => Err(EncodeError::Io(io::Error::from(e))),
        }
    }
}
