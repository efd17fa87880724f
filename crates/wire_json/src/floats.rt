//! Floats by their bits, from JSON numbers and strings.
ghost use Rattle.std.specs.Prelude.{◌≡◌, ◌<◌, ◌%◌, ◌^◌, ℕ, List, false, true, None, Some, IfSome, from_bits, length};
ghost use Rattle.std.specs.Float.{binary32, binary64, float_is_finite};
ghost use Rattle.schema_table.specs.Integers.{type_of};
ghost use Rattle.std.specs.Int.{w32, w64};
ghost use Rattle.wire_json.specs.Floats.{IsNanOf, IsNanWord, IsNearest, NumberMeansFloat, WordMeansDouble, WordMeansFloat, WordMeansSingle};
ghost use Rattle.wire_json.specs.InRange.{IsIntegerOf};
ghost use Rattle.wire_json.specs.Refused.{IfNone, NoneOf};

use schema_table::looks::{DOUBLE_EXPONENT, DOUBLE_SIGN, EXPONENT, NAN_PREFIX, SIGN};
use schema_table::{Integer, IntegerType};

/// Whether a word is `NaN:` and the hexadecimal digits of all these bytes, which it sets.
fn has_bits(word: &str, bytes: &mut [u8]) -> bool
    ensures yes { result ≡ true → IsNanWord word.now bytes.new }
    ensures no { result ≡ false → (bs : List ℕ) → length bs ≡ length bytes.old
        → IsNanWord word.now bs → ⊥ }
{
    match word.strip_prefix(NAN_PREFIX) {
        Some(digits) => hex::decode_to_slice(digits.as_bytes(), bytes).is_ok(),
        None => false,
    }
}

/// The bits of an `f32` that is a NaN, after `NaN:`.
fn bits_of_nan(word: &str) -> Option<u32>
    ensures some { IfSome result
        (λ n. IsNanOf w32 word.now n × (0x7f800000 < n % 2 ^ 31)) }
    ensures none { IfNone result
        ((n : ℕ) → IsNanOf w32 word.now n → 0x7f800000 < n % 2 ^ 31 → ⊥) }
{
    let mut bytes = [0u8; 4];
    if !has_bits(word, &mut bytes) {
        return None;
    }
    let bits = u32::from_be_bytes(bytes);
    if bits % SIGN > EXPONENT {
        Some(bits)
    } else {
        None
    }
}

/// The same of an `f64`.
fn bits_of_nan_double(word: &str) -> Option<u64>
    ensures some { IfSome result
        (λ n. IsNanOf w64 word.now n × (0x7ff0000000000000 < n % 2 ^ 63)) }
    ensures none { IfNone result
        ((n : ℕ) → IsNanOf w64 word.now n → 0x7ff0000000000000 < n % 2 ^ 63 → ⊥) }
{
    let mut bytes = [0u8; 8];
    if !has_bits(word, &mut bytes) {
        return None;
    }
    let bits = u64::from_be_bytes(bytes);
    if bits % DOUBLE_SIGN > DOUBLE_EXPONENT {
        Some(bits)
    } else {
        None
    }
}

/// The bits of an `f32` from its string.
fn bits_of_word(word: &str) -> Option<u32>
    ensures some { IfSome result (WordMeansSingle word.now) }
    ensures none { IfNone result
        (NoneOf (λ n. n < 2 ^ 32) (WordMeansSingle word.now)) }
{
    match word {
        "Infinity" => Some(0x7f80_0000),
        "-Infinity" => Some(0xff80_0000),
        "NaN" => Some(0x7fc0_0000),
        _ => bits_of_nan(word),
    }
}

/// The bits of an `f64` from its string.
fn bits_of_word_of_double(word: &str) -> Option<u64>
    ensures some { IfSome result (WordMeansDouble word.now) }
    ensures none { IfNone result
        (NoneOf (λ n. n < 2 ^ 64) (WordMeansDouble word.now)) }
{
    match word {
        "Infinity" => Some(0x7ff0_0000_0000_0000),
        "-Infinity" => Some(0xfff0_0000_0000_0000),
        "NaN" => Some(0x7ff8_0000_0000_0000),
        _ => bits_of_nan_double(word),
    }
}

/// The bits of an `f32`, if it is finite.
fn single_bits(number: f32) -> Option<u32>
    ensures some { IfSome result
        (λ n. (from_bits binary32 n ≡ number) × (float_is_finite number ≡ true)) }
    ensures none { IfNone result (float_is_finite number ≡ false) }
{
    if number.is_finite() {
        Some(number.to_bits())
    } else {
        None
    }
}

/// The bits of an `f64`, if it is finite.
fn double_bits(number: f64) -> Option<u64>
    ensures some { IfSome result
        (λ n. (from_bits binary64 n ≡ number) × (float_is_finite number ≡ true)) }
    ensures none { IfNone result (float_is_finite number ≡ false) }
{
    if number.is_finite() {
        Some(number.to_bits())
    } else {
        None
    }
}

/// The bits of the `f32` nearest to a number, or `None` if that is an infinity.
fn bits_of_number(text: &str) -> Option<u32>
    ensures some { IfSome result (IsNearest binary32 text.now) }
    ensures none { IfNone result ((n : ℕ) → IsNearest binary32 text.now n → ⊥) }
{
    match fast_float::parse::<f32, &str>(text) {
        Ok(number) => single_bits(number),
        Err(_) => None,
    }
}

/// The bits of the `f64` nearest to a number, or `None` if that is an infinity.
fn bits_of_double(text: &str) -> Option<u64>
    ensures some { IfSome result (IsNearest binary64 text.now) }
    ensures none { IfNone result ((n : ℕ) → IsNearest binary64 text.now n → ⊥) }
{
    match fast_float::parse::<f64, &str>(text) {
        Ok(number) => double_bits(number),
        Err(_) => None,
    }
}

/// Returns the bits of the float nearest to a JSON number, in the width of `of`: `U32` for `f32`, `U64` for `f64`.
///
/// Returns `None` if the nearest float is an infinity, or for another width.
pub fn float_of_number(of: IntegerType, text: &str) -> Option<Integer>
    ensures of_type { IfSome result (λ i. type_of i ≡ of) }
    ensures means { IfSome result (NumberMeansFloat text.now) }
    ensures none { IfNone result (NoneOf (IsIntegerOf of) (NumberMeansFloat text.now)) }
{
    match of {
        IntegerType::U32 => Some(Integer::U32(bits_of_number(text)?)),
        IntegerType::U64 => Some(Integer::U64(bits_of_double(text)?)),
        _ => None,
    }
}

/// Returns the bits of a float from its string, such as `NaN` or `-Infinity`; `None` if it is no such string.
pub fn float_of_word(of: IntegerType, word: &str) -> Option<Integer>
    ensures of_type { IfSome result (λ i. type_of i ≡ of) }
    ensures means { IfSome result (WordMeansFloat word.now) }
    ensures none { IfNone result (NoneOf (IsIntegerOf of) (WordMeansFloat word.now)) }
{
    match of {
        IntegerType::U32 => Some(Integer::U32(bits_of_word(word)?)),
        IntegerType::U64 => Some(Integer::U64(bits_of_word_of_double(word)?)),
        _ => None,
    }
}
