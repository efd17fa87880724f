//! Texts: letters, and lists of words with blanks between them.

/// Whether a character can be in a word or a number.
pub use unicode_ident::is_xid_continue as is_of_word;

/// The first letter of a word.
pub fn first_letter(word: &str) -> Option<char> {
    word.chars().next()
}

/// Whether a word is in a list, which has blanks between them.
pub fn is_listed(word: &str, list: &str) -> bool {
    for known in list.split_whitespace() {
        if known == word {
            return true;
        }
    }
    false
}

/// What the first of these rows that lists a word says of it. A row is a list, a colon, and what is said.
pub fn row_of(rows: &[&'static str], word: &str) -> Option<&'static str> {
    for row in rows {
        let (words, said) = row.split_once(": ")?;
        if is_listed(word, words) {
            return Some(said);
        }
    }
    None
}

/// How many letters two words have in common at their starts, and at their ends, ignoring case.
pub fn common(word: &str, other: &str) -> usize {
    let mut count: usize = 0;
    for (first, second) in word.chars().zip(other.chars()) {
        if !first.eq_ignore_ascii_case(&second) {
            break;
        }
        count = count.saturating_add(1);
    }
    for (first, second) in word.chars().rev().zip(other.chars().rev()) {
        if !first.eq_ignore_ascii_case(&second) {
            break;
        }
        count = count.saturating_add(1);
    }
    count
}
