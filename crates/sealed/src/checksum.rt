//! The sum CRC-32, as Ethernet, gzip and PNG have it.
ghost use Rattle.std.specs.Prelude.{◌≡◌};
ghost use Rattle.sealed.specs.Checksum.{behind_byte, behind_bytes, sum_of_bytes};

use crate::table::{FOURFOLD, SHIFTED, THRICE, TWICE};

// The register before the first byte.
pub(crate) const FIRST: u32 = 0xFFFF_FFFF;

// The register after one more byte.
pub(crate) fn add_byte(register: u32, byte: u8) -> u32
    ensures { result ≡ behind_byte register byte }
{
    let mixed = register ^ u32::from(byte);
    (mixed / 256) ^ SHIFTED[(mixed % 256) as usize]
}

// The register after four more bytes, by one lookup in each table; none waits for another. A step of one byte waits for the byte
// before it.
#[inline(always)]
fn add_four(register: u32, a: u8, b: u8, c: u8, d: u8) -> u32
    ensures { result ≡ behind_byte (behind_byte (behind_byte (behind_byte register a) b) c) d }
{
    let first = register ^ u32::from(a);
    let second = (first / 256) ^ u32::from(b);
    let third = (second / 256) ^ u32::from(c);
    let fourth = (third / 256) ^ u32::from(d);
    let before = THRICE[(second % 256) as usize] ^ FOURFOLD[(first % 256) as usize];
    let behind = SHIFTED[(fourth % 256) as usize] ^ (TWICE[(third % 256) as usize] ^ before);
    (fourth / 256) ^ behind
}

// The register after these bytes, one by one.
fn add_each(register: u32, bytes: &[u8]) -> u32
    ensures { result ≡ behind_bytes register bytes.now }
{
    let mut register = register;
    for byte in bytes {
        register = add_byte(register, *byte);
    }
    register
}

// The same, four at a time.
pub(crate) fn add_bytes(register: u32, bytes: &[u8]) -> u32
    ensures { result ≡ behind_bytes register bytes.now }
{
    let mut register = register;
    let mut rest = bytes;
    while 4 <= rest.len() {
        register = add_four(register, rest[0], rest[1], rest[2], rest[3]);
        rest = &rest[4..];
    }
    add_each(register, rest)
}

/// Returns the CRC-32 of bytes: `CBF43926` for the text `123456789`.
///
/// # Example
/// ```rust
/// check(
///     &rt,
///     crc32(b"123456789") == 0xCBF4_3926 && crc32(b"") == 0 && crc32(&[0]) == 0xD202_EF8D,
/// );
/// ```
pub fn crc32(bytes: &[u8]) -> u32
    ensures { result ≡ sum_of_bytes bytes.now }
{
    add_bytes(FIRST, bytes) ^ FIRST
}
