ghost use Rattle.std.specs.Prelude.{◌≡◌, ℕ, ◌<◌, List, ◌++◌, length, flat_map, OnOk, OnErr, IfSome, MatchOption};
ghost use Rattle.line_io.specs.Transfers.{broken};
ghost use Rattle.framed_lib.specs.Output.{Puts, WritingByFew};
ghost use Rattle.framed_lib.specs.Lines.{escape, value_line, answer_line, has_value};

use crate::output::{Held, put};
use line_io::{Outlet, WriteFault};
use link::Answer;
use memchr::memchr2;

/// The bytes before the first that is escaped, how that one is written, and the bytes after it.
fn split_at_escape(text: &[u8]) -> Option<(&[u8], &[u8], &[u8])>
    ensures written { MatchOption result (flat_map escape text.now ≡ text.now)
        (λ p. flat_map escape text.now ≡ p.0.now ++ (p.1.now ++ flat_map escape p.2.now)) }
    ensures shorter { IfSome result (λ p. length p.2.now < length text.now) }
{
    let Some(at) = memchr2(b'\\', b'\n', text) else {
        return None;
    };
    if text[at] == b'\\' {
        return Some((&text[..at], b"\\\\", &text[at + 1..]));
    }
    Some((&text[..at], b"\\n", &text[at + 1..]))
}

/// Writes the text, with a backslash before each backslash, and each line feed as `\n`.
fn put_escaped<W: Outlet>(outlet: &mut W, held: &mut Held, text: &[u8]) -> Result<(), WriteFault>
    ensures ok { OnOk result (Puts (W.line outlet.old) (W.line outlet.new)
        held.old.items held.new.items (flat_map escape text.now)) }
    ensures err { OnErr result (WritingByFew (W.line outlet.old) (W.line outlet.new) broken
        (held.old.items ++ flat_map escape text.now)) }
{
    let mut rest = text;
    while let Some((run, escaped, after)) = split_at_escape(rest) {
        put(outlet, held, run)?;
        put(outlet, held, escaped)?;
        rest = after;
    }
    put(outlet, held, rest)
}

/// Writes the line of a text.
fn put_value<W: Outlet>(outlet: &mut W, held: &mut Held, text: &[u8]) -> Result<(), WriteFault>
    ensures ok { OnOk result (Puts (W.line outlet.old) (W.line outlet.new)
        held.old.items held.new.items (value_line text.now)) }
    ensures err { OnErr result (WritingByFew (W.line outlet.old) (W.line outlet.new) broken
        (held.old.items ++ value_line text.now)) }
{
    put(outlet, held, b"value ")?;
    put_escaped(outlet, held, text)?;
    put(outlet, held, b"\n")
}

/// Writes the line of a result.
pub fn put_answer<W: Outlet>(
    outlet: &mut W,
    held: &mut Held,
    answer: &Answer<String>,
) -> Result<(), WriteFault>
    ensures ok { OnOk result (Puts (W.line outlet.old) (W.line outlet.new)
        held.old.items held.new.items (answer_line answer.now)) }
    ensures err { OnErr result (WritingByFew (W.line outlet.old) (W.line outlet.new) broken
        (held.old.items ++ answer_line answer.now)) }
{
    match answer {
        Answer::Value(text) => put_value(outlet, held, text.as_bytes()),
        Answer::Damaged => put(outlet, held, b"damaged\n"),
        Answer::TooLong => put(outlet, held, b"too long\n"),
        Answer::Cut => put(outlet, held, b"cut\n"),
    }
}

/// Whether the result is a value.
pub fn is_value(answer: &Answer<String>) -> bool
    ensures { result ≡ has_value answer.now }
{
    match answer {
        Answer::Value(_) => true,
        Answer::Damaged | Answer::TooLong | Answer::Cut => false,
    }
}
