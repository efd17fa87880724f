//! Laws of the sum: functions without a body. Call one where a proof needs its contract.
ghost use Rattle.std.specs.Prelude.{◌≡◌, [], ◌∷◌};
ghost use Rattle.sealed.specs.Checksum.{sum_of_bytes};
ghost use Rattle.sealed.specs.Seals.{KeysDiffer};

use postcard::Readable;

/// The sum of the text `123456789` is `CBF43926`, the published value for CRC-32.
pub fn check_value()
    ensures { sum_of_bytes (49 ∷ 50 ∷ 51 ∷ 52 ∷ 53 ∷ 54 ∷ 55 ∷ 56 ∷ 57 ∷ []) ≡ 3421780262 }
{}

/// Bytes that begin with a value of a type under one key don't begin with a value of it under another.
///
/// So a message of another interface, whose bytes are unchanged, isn't read by the same type. By another type it is
/// read as damage is, in one case of 2^32.
pub fn other_key<T: Readable>()
    ensures { KeysDiffer T.form.takes }
{}
