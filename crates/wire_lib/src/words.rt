//! The arguments of the program after the type.
ghost use Rattle.std.specs.Prelude.{◌≡◌, ◌↔◌, ◌<◌, ◌≤◌, ◌++◌, true, [], ◌∷◌, false, None, Ok, codes, IfSome, IfOk, IfErr, IsErr, map, string_bytes, ℕ};
ghost use Rattle.std.specs.List.{All};
ghost use Rattle.hex.specs.Hex.{decode_sized};
ghost use Rattle.wire_lib.specs.Arguments.{WritesNumber, AddsArgument, AreSetBy, IsAmong, IsDepth, IsValueOf, IsValid, IsArgument, HasNoFrames, IsRefusedFor, name_in, names_of};

use crate::DEPTH;

/// The greatest limit of nested nodes that `depth=N` can set.
pub const DEEPEST: u32 = 1000;

/// The default maximum number of elements without bytes in a list; `empty=N` sets another.
pub const EMPTY: u64 = 65536;

/// What is done with the messages of a type.
#[derive(Clone, Copy, Debug, PartialEq, Eq, Drop)]
pub enum Action {
    /// Frames become lines.
    Read,
    /// Lines become frames.
    Write,
    /// Frames become a live view.
    Watch,
}

/// How messages are read or written, by the arguments.
#[derive(Clone, Copy, Debug, PartialEq, Eq, Drop)]
pub struct Options<'a> {
    /// Whether the framed side is hexadecimal text.
    pub hex: bool,
    /// Whether only the frame that sending a value makes is accepted.
    pub strict: bool,
    /// The delimiter.
    pub sentinel: u8,
    /// How many bytes of the stream are skipped.
    pub from: u64,
    /// Whether bytes in messages are printed as hexadecimal text.
    pub digits: bool,
    /// The limit of nested nodes of a value.
    pub depth: u32,
    /// The maximum number of elements without bytes in a list.
    pub empty: u64,
    /// Whether messages have no frames.
    pub raw: bool,
    /// Whether each message is followed by its CRC-32.
    pub summed: bool,
    /// Whether each line has the time in seconds since the program began.
    pub time: bool,
    /// The only variant whose values are shown.
    pub only: Option<&'a str>,
}

/// The options without arguments.
const PLAIN: Options<'static> = Options {
    hex: false,
    strict: false,
    sentinel: 0,
    from: 0,
    digits: false,
    depth: DEPTH,
    empty: EMPTY,
    raw: false,
    summed: false,
    time: false,
    only: None,
};

/// An argument that isn't accepted, and why.
#[derive(Clone, Copy, Debug, PartialEq, Eq, Drop)]
pub struct WrongWord<'a> {
    /// The argument.
    pub word: &'a str,
    /// What is wrong with it, to be printed after it.
    pub why: &'static str,
}

/// The error for an argument that a mode hasn't.
const NO_WORD: &str = "isn't an argument of this mode";

/// The error for `raw` with arguments about frames.
const NO_FRAMES: &str =
    "means that there are no frames, so `sentinel` and `from` can't be combined with it";

/// The byte of two hexadecimal digits.
fn byte_of(digits: &str) -> Option<u8>
    ensures some { IfSome result (λ byte. decode_sized digits.now 1 ≡ Ok (byte ∷ [])) }
    ensures none { result ≡ None → IsErr (decode_sized digits.now 1) }
{
    let mut byte = [0u8; 1];
    match hex::decode_to_slice(digits.as_bytes(), &mut byte) {
        Ok(()) => Some(byte[0]),
        Err(_) => None,
    }
}

/// A limit of nested nodes by its digits, from 1 to `DEEPEST`.
fn depth_of(value: &str) -> Option<u32>
    ensures number { IfSome result (λ n. WritesNumber 32 value.now n) }
    ensures some { IfSome result (λ n. 0 < n) }
    ensures most { IfSome result (λ n. n ≤ 1000) }
    ensures none { result ≡ None → (n : ℕ) → IsDepth value.now n → ⊥ }
{
    let depth = value.parse::<u32>().ok()?;
    if depth == 0 || depth > DEEPEST {
        return None;
    }
    Some(depth)
}

/// Whether a value is `hex`.
fn is_hex(value: &str) -> bool
    ensures { result ≡ true ↔ value.now ≡ codes "hex" }
{
    match value {
        "hex" => true,
        _ => false,
    }
}

/// The options with an argument that has a value after `=`.
fn with_value<'a>(options: Options<'a>, name: &str, value: &'a str) -> Option<Options<'a>>
    ensures sets { IfSome result (λ new.
        AddsArgument (name.now ++ (codes "=" ++ value.now)) options.entry new) }
    ensures none { result ≡ None → IsValueOf name.now value.now → ⊥ }
    ensures valid { IfSome result (λ _. IsValueOf name.now value.now) }
{
    let mut options = options;
    match name {
        "sentinel" => options.sentinel = byte_of(value)?,
        "from" => options.from = value.parse::<u64>().ok()?,
        "bytes" if is_hex(value) => options.digits = true,
        "depth" => options.depth = depth_of(value)?,
        "empty" => options.empty = value.parse::<u64>().ok()?,
        "only" => options.only = Some(value),
        _ => return None,
    }
    Some(options)
}

/// The options with one more argument.
fn with_word<'a>(options: Options<'a>, word: &'a str) -> Option<Options<'a>>
    ensures sets { IfSome result (λ new. AddsArgument word.now options.entry new) }
    ensures none { result ≡ None → IsValid word.now → ⊥ }
    ensures valid { IfSome result (λ _. IsValid word.now) }
{
    let mut options = options;
    match word {
        "hex" => options.hex = true,
        "strict" => options.strict = true,
        "raw" => options.raw = true,
        "crc32" => options.summed = true,
        "time" => options.time = true,
        _ => {
            let (name, value) = word.split_once('=')?;
            return with_value(options, name, value);
        }
    }
    Some(options)
}

/// An argument without `=` and its value.
fn name_of(word: &str) -> &str
    ensures { result.now ≡ name_in word.now }
{
    match word.split_once('=') {
        Some((name, _)) => name,
        None => word,
    }
}

/// The error for an argument of this name with a wrong value after `=`.
fn why_wrong(name: &str) -> &'static str {
    match name {
        "sentinel" => "has an invalid value: write two hexadecimal digits, such as `sentinel=0a`",
        "from" => "has an invalid value: write a number of bytes, such as `from=120`",
        "bytes" => "has an invalid value: write `bytes=hex`",
        "depth" => "has an invalid value: write a number from 1 to 1000, such as `depth=100`",
        "empty" => "has an invalid value: write a number of elements, such as `empty=100`",
        "only" => "has no value: write the name of a variant after it, as in `only=NAME`",
        _ => "has a value, and takes none",
    }
}

/// Whether a mode has an argument of this name.
fn has_word(mode: Action, name: &str) -> bool
    ensures found { result ≡ true → IsAmong name.now (names_of mode) }
    ensures absent { result ≡ false → IsAmong name.now (names_of mode) → ⊥ }
{
    match name {
        "sentinel" | "depth" | "empty" => true,
        "strict" | "bytes" => mode != Action::Write,
        "hex" | "raw" | "crc32" => mode != Action::Watch,
        "from" | "only" | "time" => mode == Action::Read,
        _ => false,
    }
}

/// Returns the options that these arguments set, in any order: `hex`, `strict`, `sentinel=HH`, `from=OFFSET`, `bytes=hex`,
/// `depth=N`, `empty=N`, `raw`, `crc32`, `time`, `only=NAME`.
///
/// # Errors
/// The first argument that the mode hasn't, or whose value is invalid; `raw` with a `sentinel` that isn't 00 or a `from` that isn't 0.
pub fn options_of<'a>(mode: Action, words: &'a [String]) -> Result<Options<'a>, WrongWord<'a>>
    ensures set { IfOk result (λ options. AreSetBy (map string_bytes words.now) options) }
    ensures right { IfOk result (λ _. All (IsArgument mode) (map string_bytes words.now)) }
    ensures combined { IfOk result (λ options. HasNoFrames options → ⊥) }
    ensures refused { IfErr result (λ wrong.
        IsRefusedFor mode (map string_bytes words.now) wrong.word.now) }
{
    let mut options = PLAIN;
    for word in words {
        let word = word.as_str();
        if !has_word(mode, name_of(word)) {
            return Err(WrongWord { word, why: NO_WORD });
        }
        let Some(with) = with_word(options, word) else {
            return Err(WrongWord {
                word,
                why: why_wrong(name_of(word)),
            });
        };
        options = with;
    }
    if options.raw && (options.sentinel != 0 || options.from != 0) {
        return Err(WrongWord {
            word: "raw",
            why: NO_FRAMES,
        });
    }
    Ok(options)
}
