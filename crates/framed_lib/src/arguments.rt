ghost use Rattle.std.specs.Prelude.{◌≡◌, ◌≢◌, ℕ, Bool, false, List, ◌∷◌, ◌++◌, map, codes, string_bytes, IfSome, IfNone};
ghost use Rattle.framed_lib.specs.Words.{mode_text, hex_words, NamesSentinel, AreWordsFor};

/// What the program does.
#[derive(Clone, Copy, Debug, PartialEq, Eq, Drop)]
pub enum Mode {
    /// Text lines to frames.
    Pack,
    /// Frames to text lines.
    Unpack,
    /// Frames to text lines; a frame that isn't exactly what sending its text writes is damaged.
    Strict,
}

/// The mode that a word names; `None` for any other word.
fn mode_of(word: &str) -> Option<Mode>
    ensures some { IfSome result (λ mode. word.now ≡ mode_text mode) }
    ensures none { IfNone result ((mode : Mode) → word.now ≢ mode_text mode) }
{
    match word {
        "pack" => Some(Mode::Pack),
        "unpack" => Some(Mode::Unpack),
        "strict" => Some(Mode::Strict),
        _ => None,
    }
}

/// The sentinel that a word such as `sentinel=0a` names; `None` for any other word.
fn sentinel_of(word: &str) -> Option<u8>
    ensures some { IfSome result (λ sentinel. NamesSentinel sentinel word.now) }
    ensures none { IfNone result ((sentinel : ℕ) → NamesSentinel sentinel word.now → ⊥) }
{
    let digits = word.strip_prefix("sentinel=")?;
    let mut sentinel = [0u8];
    hex::decode_to_slice(digits, &mut sentinel).ok()?;
    Some(sentinel[0])
}

/// Whether the first of the words is `hex`, and the words after it.
fn split_hex(words: &[String]) -> (bool, &[String])
    ensures words { map string_bytes words.now
        ≡ hex_words result.0 ++ map string_bytes result.1.now }
    ensures none { result.0 ≡ false → (more : List (List ℕ))
        → map string_bytes words.now ≡ codes "hex" ∷ more → ⊥ }
{
    match words {
        [word, more @ ..] => match word.as_str() {
            "hex" => (true, more),
            _ => (false, words),
        },
        _ => (false, words),
    }
}

/// The mode, whether the framed side is hexadecimal text, and the sentinel; `None` for any other words.
///
/// The words after the program's name are `pack`, `unpack` or `strict`, then `hex` or nothing, and then a word such as `sentinel=0a` or
/// nothing, which means zero.
pub fn arguments(words: &[String]) -> Option<(Mode, bool, u8)>
    ensures some { IfSome result
        (λ found. AreWordsFor found.0 found.1 found.2 (map string_bytes words.now)) }
    ensures none { IfNone result ((mode : Mode) (hex : Bool) (sentinel : ℕ)
        → AreWordsFor mode hex sentinel (map string_bytes words.now) → ⊥) }
{
    let (mode, more) = words.split_first()?;
    let mode = mode_of(mode.as_str())?;
    let (hex, more) = split_hex(more);
    match more {
        [] => Some((mode, hex, 0)),
        [word] => Some((mode, hex, sentinel_of(word.as_str())?)),
        _ => None,
    }
}
