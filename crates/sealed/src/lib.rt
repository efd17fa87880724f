//! A message type with a checksum of its bytes: damage that still decodes isn't taken for what was sent.
//!
//! [`Sealed`] holds a value. On the wire it is that value and the CRC-32 of its encoding, as four bytes, the lowest
//! first. It is written and read as every message type is; a value whose sum is wrong isn't read. [`Keyed`] is the
//! same with the sum XORed with a key.
//!
//! A frame says where a message ends and contains no sentinel, but isn't a checksum: with a flipped bit it often
//! decodes as another message. CRC-32 finds every change of up to 32 bits in a row of the encoding that keeps its
//! length. The bits are counted with each byte's lowest bit first, as a serial line sends it:
//! 00 00 00 00 00 and 05 8F F4 6A 70, which differ in 31 bits in a row as printed, have one sum. On a line the damage
//! is of the frame: a flipped bit of a code, or of a count, moves what follows it, so the message changes in several
//! positions. Of such damage, and all other, one case in 2^32 passes.
#![tactic(auto)]

mod checksum;
mod keyed;
pub mod laws;
mod reading;
mod sizes;
mod summing;
mod table;
mod value;

pub use checksum::crc32;
pub use keyed::{AsKeyed, Keyed};
pub use value::{AsSealed, Sealed};
