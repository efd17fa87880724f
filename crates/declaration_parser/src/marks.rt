//! Comments that mark a declaration, and those that say how a field is sent.
ghost use Rattle.std.specs.Prelude.{◌≡◌};
ghost use Rattle.declaration_parser.specs.Marked.{is_marking};

/// Whether a line marks the declaration after it.
pub fn is_mark(line: &str) -> bool
    ensures { result ≡ is_marking line.now }
{
    line.as_bytes() == b"// message".as_slice() || line.as_bytes().starts_with(b"// message:")
}

/// What a comment says of how the field after it is sent: `=` and the way, as `// with = "postcard::fixint::le"` does; nothing and
/// all its words, if it is only almost such a comment.
pub fn way_of(comment: &str) -> Option<(&str, &str)> {
    let way = comment.strip_prefix("// with = ").unwrap_or("");
    if way.starts_with('"') && way.ends_with('"') && way.split('"').count() == 3 {
        return Some(("=", way));
    }
    let words = comment.trim_start_matches('/').trim_start();
    let behind_with = words.strip_prefix("with").unwrap_or("").trim_start();
    let names_way = words.contains("fixint::le") || words.contains("fixint::be");
    (names_way || behind_with.starts_with('=')).then_some(("", words))
}
