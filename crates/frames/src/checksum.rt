//! Messages followed by a checksum.
ghost use Rattle.std.specs.Prelude.{◌≡◌, ◌<◌, ◌≤◌, ◌+◌, ◌++◌, ℕ, List, length, take, drop, OnOk, OnErr, IfOk, IfSome, IsNone};
ghost use Rattle.frames.specs.Seals.{seal_bytes};

use cobs::DestBufTooSmallError;

// The sum of a message, as four bytes.
fn seal_of(message: &[u8]) -> [u8; 4]
    ensures { result ≡ seal_bytes message.now }
{
    let sum = sealed::crc32(message);
    [
        (sum % 256) as u8,
        (sum / 256 % 256) as u8,
        (sum / 256 / 256 % 256) as u8,
        (sum / 256 / 256 / 256 % 256) as u8,
    ]
}

/// Appends the CRC-32 of the first `size` bytes of a buffer to them, as four bytes, the lowest first, and returns how many bytes are
/// to be sent: `size + 4`.
///
/// # Errors
/// `DestBufTooSmallError` exactly if they don't fit; the buffer is unchanged.
pub fn seal(buffer: &mut [u8], size: usize) -> Result<usize, DestBufTooSmallError>
    ensures length { IfOk result (λ n. n ≡ size + 4) }
    ensures sealed { OnOk result (take (size + 4) buffer.new
        ≡ take size buffer.old ++ seal_bytes (take size buffer.old)) }
    ensures rest { OnOk result (drop (size + 4) buffer.new ≡ drop (size + 4) buffer.old) }
    ensures fits { OnOk result (size + 4 ≤ length buffer.old) }
    ensures too_small { OnErr result (length buffer.old < size + 4) }
    ensures unchanged { OnErr result (buffer.new ≡ buffer.old) }
{
    if buffer.len() < size || buffer.len() - size < 4 {
        return Err(DestBufTooSmallError);
    }
    let (message, rest) = buffer.split_at_mut(size);
    let seal = seal_of(message);
    let (place, _) = rest.split_at_mut(4);
    place.copy_from_slice(&seal);
    Ok(size + 4)
}

/// How many bytes of a message precede its sum; `None` if its last four bytes aren't that sum.
pub fn unseal(message: &[u8]) -> Option<usize>
    ensures length { IfSome result (λ n. n + 4 ≡ length message.now) }
    ensures sealed { IfSome result
        (λ n. message.now ≡ take n message.now ++ seal_bytes (take n message.now)) }
    ensures broken { IsNone result → (bytes : List ℕ)
        → message.now ≡ bytes ++ seal_bytes bytes → ⊥ }
{
    if message.len() < 4 {
        return None;
    }
    let (bytes, behind) = message.split_at(message.len() - 4);
    let seal = seal_of(bytes);
    if behind == seal.as_slice() {
        Some(bytes.len())
    } else {
        None
    }
}
