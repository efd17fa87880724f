//! What a call is told.
ghost use Rattle.std.specs.Prelude.{◌≡◌};
ghost use Rattle.wire_c.specs.Flags.{is_set};

use std::alloc::Global;

/// How frames are read or written: numbers only, so it can be a struct of C. A flag is set if it isn't 0.
///
/// Example: see [`write`](crate::writing::write).
#[repr(C)]
#[derive(Clone, Copy)]
pub struct WireTerms {
    /// The byte that ends each frame, with which its bytes are XORed.
    pub sentinel: u8,
    /// Whether only the frame that writing the value makes is taken.
    pub strict: u8,
    /// Whether the CRC-32 of a message follows it.
    pub crc32: u8,
    /// Whether bytes in messages look as hexadecimal text.
    pub hex: u8,
    /// Whether the stream begins inside a stretch that was reported as too long.
    pub inside: u8,
    /// Whether the stream ends with these bytes.
    pub ends: u8,
}

/// The declarations of types, the words of one, and how its messages are read or written.
///
/// Example: see [`write`](crate::writing::write).
#[derive(Clone, Copy, Drop)]
pub struct Told<'a> {
    /// Where memory is taken.
    pub alloc: Global,
    /// A file of declarations, in Rust.
    pub declarations: &'a [u8],
    /// The words of the type, as `Reading` or `[u8; 4]`.
    pub type_words: &'a [u8],
    /// How frames are read or written.
    pub terms: WireTerms,
}

// Whether a flag is set.
pub(crate) fn is_flag(flag: u8) -> bool
    ensures { result ≡ is_set flag }
{
    flag != 0
}
