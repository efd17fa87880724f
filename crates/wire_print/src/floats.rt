//! Floats by their bits, and the strings for those that JSON has no number for.
ghost use Rattle.std.specs.Prelude.{◌≡◌, false, true, None, IfOk, IfSome, from_bits, string_bytes};
ghost use Rattle.std.specs.Float.{binary32, binary64, float_is_finite};
ghost use Rattle.schema_table.specs.Floats.{double_word, nan_word, single_word};

use schema_table::looks::{DOUBLE_EXPONENT, DOUBLE_SIGN, EXPONENT, NAN_PREFIX, SIGN};
use std::alloc::{AllocError, Global};

/// Returns the `f32` with these bits, or `None` if it isn't finite.
pub fn single(bits: u32) -> Option<f32>
    ensures some { IfSome result (λ x. (x ≡ from_bits binary32 bits) × (float_is_finite x ≡ true)) }
    ensures none { result ≡ None → float_is_finite (from_bits binary32 bits) ≡ false }
{
    if bits % SIGN > EXPONENT {
        return None;
    }
    let float = f32::from_bits(bits);
    if float.is_finite() { Some(float) } else { None }
}

/// Returns the `f64` with these bits, or `None` if it isn't finite.
pub fn double(bits: u64) -> Option<f64>
    ensures some { IfSome result (λ x. (x ≡ from_bits binary64 bits) × (float_is_finite x ≡ true)) }
    ensures none { result ≡ None → float_is_finite (from_bits binary64 bits) ≡ false }
{
    if bits % DOUBLE_SIGN > DOUBLE_EXPONENT {
        return None;
    }
    let float = f64::from_bits(bits);
    if float.is_finite() { Some(float) } else { None }
}

/// `NaN:` and the hexadecimal digits of these bytes.
fn word_of_nan(alloc: Global, bytes: &[u8]) -> Result<String, AllocError>
    ensures { IfOk result (λ word. string_bytes word ≡ nan_word bytes.now) }
{
    let digits = hex::encode(alloc, bytes)?;
    let mut word = String::from_str(alloc, NAN_PREFIX)?;
    word.push_str(digits.as_str())?;
    Ok(word)
}

/// Returns the string for an `f32` that isn't finite: `Infinity`, `-Infinity`, `NaN`, or with its bits `NaN:7fc00001`.
///
/// # Errors
/// Out of memory.
///
/// # Allocates
/// The string.
pub fn word_of(alloc: Global, bits: u32) -> Result<String, AllocError>
    ensures { IfOk result (λ word. string_bytes word ≡ single_word bits) }
{
    match bits {
        0x7f80_0000 => String::from_str(alloc, "Infinity"),
        0xff80_0000 => String::from_str(alloc, "-Infinity"),
        0x7fc0_0000 => String::from_str(alloc, "NaN"),
        _ => word_of_nan(alloc, &bits.to_be_bytes()),
    }
}

/// Returns the string for an `f64` that isn't finite, as [`word_of`] does.
///
/// # Errors
/// Out of memory.
///
/// # Allocates
/// The string.
pub fn word_of_double(alloc: Global, bits: u64) -> Result<String, AllocError>
    ensures { IfOk result (λ word. string_bytes word ≡ double_word bits) }
{
    match bits {
        0x7ff0_0000_0000_0000 => String::from_str(alloc, "Infinity"),
        0xfff0_0000_0000_0000 => String::from_str(alloc, "-Infinity"),
        0x7ff8_0000_0000_0000 => String::from_str(alloc, "NaN"),
        _ => word_of_nan(alloc, &bits.to_be_bytes()),
    }
}
