ghost use Rattle.std.specs.Prelude.{◌≡◌, ◌<◌, [], length, ◌++◌, ◌∷◌, MatchOption, IfSome, IsUtf8};
ghost use Rattle.framed_lib.specs.Sending.{LacksMark, lines_in};

use memchr::memchr;

/// The bytes before the first one that is `mark`, and those after it.
#[tactic(auto, using(std::proofs::lemmas::Grind::elements))]
pub fn split_at_mark(bytes: &[u8], mark: u8) -> Option<(&[u8], &[u8])>
    ensures { MatchOption result (LacksMark mark bytes.now)
        (λ p. (bytes.now ≡ p.0.now ++ (mark ∷ p.1.now)) × LacksMark mark p.0.now) }
{
    match memchr(mark, bytes) {
        Some(at) => Some((&bytes[..at], &bytes[at + 1..])),
        None => None,
    }
}

/// The first line of a text, and the text after it. If the whole is UTF-8, so is each of the two.
pub fn next_line(text: &[u8]) -> Option<(&[u8], &[u8])>
    ensures line { MatchOption result (text.now ≡ []) (λ p.
        (lines_in text.now ≡ p.0.now ∷ lines_in p.1.now) × (length p.1.now < length text.now)) }
    ensures utf8 { IsUtf8 text.now → IfSome result (λ p. IsUtf8 p.0.now × IsUtf8 p.1.now) }
{
    if text.is_empty() {
        return None;
    }
    match split_at_mark(text, b'\n') {
        Some((line, after)) => Some((line, after)),
        None => Some((text, &[])),
    }
}
