//! Hexadecimal text, and the bytes that take its place.
ghost use Rattle.std.specs.Prelude.{◌≡◌, ℕ, ◌/◌, ◌%◌, ◌<◌, length, take, true, false, Ok, IsErr, IsTrue, IfSome, MatchOption};
ghost use Rattle.hex.specs.Hex.{decode_pairs, hex_digit_value, pair_value};
ghost use Rattle.framed_lib.specs.Program.{DropsLineFeed, StandsFor, IsNotHex};

/// The value of a digit, in either case.
fn value_of(digit: u8) -> Option<u8>
    ensures value { result ≡ hex_digit_value digit }
    ensures small { IfSome result (λ value. value < 16) }
{
    match digit {
        b'A'..=b'F' => Some(digit - b'A' + 10),
        b'a'..=b'f' => Some(digit - b'a' + 10),
        b'0'..=b'9' => Some(digit - b'0'),
        _ => None,
    }
}

/// The byte of two digits.
fn byte_of(high: u8, low: u8) -> Option<u8>
    ensures { (i : ℕ) → MatchOption result (IsErr (pair_value high low i))
        (λ byte. pair_value high low i ≡ Ok byte) }
{
    let high = value_of(high)?;
    Some(high * 16 + value_of(low)?)
}

/// Writes the bytes of digits over their front, and returns whether they are digits. Requires an even number of them.
fn decode_front(digits: &mut [u8]) -> bool
    requires { length digits.old % 2 ≡ 0 }
    ensures ok { IsTrue result
        → decode_pairs 0 digits.old ≡ Ok (take (length digits.old / 2) digits.new) }
    ensures bad { result ≡ false → IsErr (decode_pairs 0 digits.old) }
    ensures same { length digits.new ≡ length digits.old }
{
    for at in 0..digits.len() / 2 {
        match byte_of(digits[2 * at], digits[2 * at + 1]) {
            Some(byte) => digits[at] = byte,
            None => return false,
        }
    }
    true
}

/// The text without the line feed at its end.
fn without_line_feed(text: &[u8]) -> &[u8]
    ensures { DropsLineFeed text.now result.now }
{
    match text {
        [digits @ .., b'\n'] => digits,
        _ => text,
    }
}

/// Replaces a text by the bytes of its hexadecimal digits, and returns whether it is hexadecimal. One line feed at its end is dropped.
///
/// The bytes are written over the text, so no second copy is held.
pub fn decode_hex(text: &mut Vec<u8>) -> bool
    ensures ok { IsTrue result → StandsFor true text.old.items text.new.items }
    ensures bad { result ≡ false → IsNotHex true text.old.items }
{
    let count = without_line_feed(text).len();
    text.truncate(count);
    if count % 2 != 0 || !decode_front(text) {
        return false;
    }
    text.truncate(count / 2);
    text.shrink_to_fit();
    true
}
