//! Serde's derives, and those of other crates that are called as these.
use crate::texts::is_listed;
use crate::tokens::{Name, Token, Tokens, Word, Words};

/// Crates that have serde's derives, also by the name that a `Cargo.toml` often gives serde.
const OF_SERDE: &str = "serde serde_core serde_crate serde_derive";

/// Crates that have derives of their own called as serde's are.
const NOT_OF_SERDE: &str = "alkahest deser miniserde rkyv serde_lite simd_json_derive";

/// What is said of a derive that a `use` brings in from a crate that isn't known to have serde's.
pub const OF_OTHER_CRATE: &str =
    "` is brought in by a `use` from another crate than serde: write `serde::` before it in the derive if it is serde's, `rkyv::` if it is rkyv's, else leave the type out";

/// Whether a crate has serde's derives.
pub fn has_serdes(krate: &str) -> bool {
    is_listed(krate, OF_SERDE)
}

/// Whether a crate has derives of its own called as serde's are.
pub fn has_own(krate: &str) -> bool {
    is_listed(krate, NOT_OF_SERDE)
}

/// The last word of a derive's path, unless it is another crate's: serde's derives are passed on by others too.
pub fn derive_of(tokens: &Tokens, path: Words) -> Option<Token> {
    let krate = tokens.nth(path, path.len().saturating_sub(4));
    match path.len() {
        0 | 2 | 3 => None,
        count if count > 1 && has_own(tokens.text(krate.name)) => None,
        _ => Some(tokens.last(path)),
    }
}

/// Whether a derive among these words has this name.
pub fn is_derived(tokens: &Tokens, words: Words, name: Name) -> bool {
    let mut is_derive = false;
    for place in words.from..words.to {
        let token = tokens.at(place);
        match token.word {
            _ if is_derive && token.name == name => return true,
            Word::Derive => is_derive = true,
            Word::Close => is_derive = false,
            _ => {}
        }
    }
    false
}

/// The place of another name of a derive of serde's, or of a crate that has others, which a `use` brings in and a derive has.
pub fn renamed_derive(tokens: &Tokens, words: Words) -> Option<usize> {
    // Whether the `use` that is gone over is of another crate that has such derives.
    let mut is_other = false;
    for place in words.from.saturating_add(2)..words.to {
        let (own, by, name) = (tokens.at(place - 2), tokens.at(place - 1), tokens.at(place));
        let is_own = own.word == if is_other { Word::Own } else { Word::OfSerde };
        if matches!(own.word, Word::Import) {
            is_other = has_own(tokens.text(by.name));
        } else if matches!(by.word, Word::As)
            && !matches!(name.word, Word::OfSerde)
            && (is_own || has_own(tokens.text(own.name)))
            && is_derived(tokens, words, name.name)
        {
            return Some(place);
        }
    }
    None
}
