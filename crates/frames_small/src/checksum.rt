//! CRC-32, bit by bit, without a table.
ghost use Rattle.std.specs.Prelude.{◌≡◌, ◌<◌, ◌≤◌, ◌+◌, ◌++◌, ℕ, List, length, take, drop, OnOk, OnErr, IfOk, IfSome, IsNone};
ghost use Rattle.sealed.specs.Checksum.{shifted, behind_byte, behind_bytes, sum_of_bytes};
ghost use Rattle.frames.specs.Seals.{seal_bytes};

use cobs::DestBufTooSmallError;

// The register moved by one bit.
fn add_bit(state: u32) -> u32
    ensures { result ≡ shifted state }
{
    if state % 2 == 0 {
        state / 2
    } else {
        (state / 2) ^ 0xEDB88320
    }
}

// The register after one more byte.
fn add_byte(state: u32, byte: u8) -> u32
    ensures { result ≡ behind_byte state byte }
{
    let mut moved = state ^ u32::from(byte);
    let mut bit: u8 = 0;
    while bit < 8 {
        moved = add_bit(moved);
        bit += 1;
    }
    moved
}

// The register after these bytes.
fn add_bytes(state: u32, bytes: &[u8]) -> u32
    ensures { result ≡ behind_bytes state bytes.now }
{
    let mut state = state;
    for byte in bytes {
        state = add_byte(state, *byte);
    }
    state
}

/// The CRC-32 of bytes, as Ethernet, gzip and PNG have it.
pub fn crc32(bytes: &[u8]) -> u32
    ensures { result ≡ sum_of_bytes bytes.now }
{
    add_bytes(0xFFFF_FFFF, bytes) ^ 0xFFFF_FFFF
}

// The sum of a message, as four bytes.
fn seal_of(message: &[u8]) -> [u8; 4]
    ensures { result ≡ seal_bytes message.now }
{
    let sum = crc32(message);
    [
        (sum % 256) as u8,
        (sum / 256 % 256) as u8,
        (sum / 256 / 256 % 256) as u8,
        (sum / 256 / 256 / 256 % 256) as u8,
    ]
}

/// Appends the CRC-32 of the first `size` bytes of a buffer to them, as four bytes, the lowest first, and returns how many bytes are to
/// be sent: `size + 4`.
///
/// # Errors
/// `DestBufTooSmallError` exactly if they don't fit; the buffer is unchanged.
pub fn seal(buffer: &mut [u8], size: usize) -> Result<usize, DestBufTooSmallError>
    ensures length { IfOk result (λ n. n ≡ size + 4) }
    ensures sealed { OnOk result (take (size + 4) buffer.new
        ≡ take size buffer.old ++ seal_bytes (take size buffer.old)) }
    ensures rest { OnOk result (drop (size + 4) buffer.new ≡ drop (size + 4) buffer.old) }
    ensures fits { OnOk result (size + 4 ≤ length buffer.old) }
    ensures too_small { OnErr result (length buffer.old < size + 4) }
    ensures unchanged { OnErr result (buffer.new ≡ buffer.old) }
{
    if buffer.len() < size || buffer.len() - size < 4 {
        return Err(DestBufTooSmallError);
    }
    let (message, rest) = buffer.split_at_mut(size);
    let seal = seal_of(message);
    let (place, _) = rest.split_at_mut(4);
    place.copy_from_slice(&seal);
    Ok(size + 4)
}

/// How many bytes of a message precede its sum; `None` if its last four bytes aren't that sum.
pub fn unseal(message: &[u8]) -> Option<usize>
    ensures length { IfSome result (λ n. n + 4 ≡ length message.now) }
    ensures sealed { IfSome result
        (λ n. message.now ≡ take n message.now ++ seal_bytes (take n message.now)) }
    ensures broken { IsNone result → (bytes : List ℕ)
        → message.now ≡ bytes ++ seal_bytes bytes → ⊥ }
{
    if message.len() < 4 {
        return None;
    }
    let (bytes, behind) = message.split_at(message.len() - 4);
    let seal = seal_of(bytes);
    if behind == seal.as_slice() {
        Some(bytes.len())
    } else {
        None
    }
}
