//! Lengths: numbers, parameters, constants, and what is computed of these.
use super::types::path_at;
use super::{Builder, Context, DEEPEST, NOWHERE};
use crate::known::is_primitive;
use crate::names::{Found, Path, Space, What};
use declaration_parser::texts::{first_letter, is_listed};
use declaration_parser::tokens::{NO_NAME, Name, Tokens, Word, Words};

/// How many numbers one length may be computed of.
const MOST_NUMBERS: u32 = 10_000;

/// The greatest value of a length.
const GREATEST: u64 = 0xFFFF_FFFF;

/// What is said of constants.
const TWO: &str =
    "` is more than one constant: leave out what isn't meant, or write its module before it";

/// What is said of a length that isn't computed to its end: one of [`DEEPEST`] operands in a row is a number.
const TOO_FAR: &str =
    "a length that nests more than 63 constants or parentheses, or has more than 10000 numbers, isn't computed: write the number";

const ASKED: &str = "` isn't looked for in the files, as types are: write the number";

/// What the types of numbers have at most, and how many bits they have. A `usize` has 32 bits on most devices.
const OF_NUMBERS: &[(&str, (u64, u64))] = &[
    ("u8", (0xFF, 8)),
    ("u16", (0xFFFF, 16)),
    ("u32", (0xFFFF_FFFF, 32)),
    ("u64", (u64::MAX, 64)),
    ("usize", (0xFFFF_FFFF, 0)),
    ("i8", (0x7F, 8)),
    ("i16", (0x7FFF, 16)),
    ("i32", (0x7FFF_FFFF, 32)),
];

/// A number, and the greatest value of its type.
#[derive(Clone, Copy, Drop)]
struct Number {
    value: u64,
    most: u64,
}

/// How many kinds of operators there are: those of products, of sums and of shifts. Each kind binds tighter than the next.
const KINDS: usize = 3;

/// A number, and the words after it; nothing if words are none.
type Computed = Option<(Number, Words)>;

/// What a type of numbers has at most, and how many bits: 0 if devices differ.
fn width_of(word: &str) -> Option<(u64, u64)> {
    for (of, width) in OF_NUMBERS {
        if *of == word {
            return Some(*width);
        }
    }
    None
}

/// A number of a type that has at most so much, if it has this one.
fn number_of(value: u64, most: u64) -> Option<Number> {
    (value <= most).then_some(Number { value, most })
}

/// The operator at the start of words, the place of its kind, and the words after it.
fn operator_at(tokens: &Tokens, words: Words) -> Option<(char, usize, Words)> {
    let (first, rest) = (tokens.first(words).name, words.behind_first());
    let is_double = tokens.first(rest).name == first;
    let operator = first_letter(tokens.text(first))?;
    match operator {
        '*' | '/' | '%' => Some((operator, 0, rest)),
        '+' | '-' => Some((operator, 1, rest)),
        '<' | '>' if is_double => Some((operator, 2, rest.behind_first())),
        _ => None,
    }
}

/// What an operator makes of two numbers, if their type has that. What a shift is by has a type of its own.
fn computed_of(operator: char, first: Number, second: Number) -> Option<Number> {
    let most = match operator {
        '<' | '>' => first.most,
        _ => first.most.min(second.most),
    };
    let (one, other) = (first.value, second.value);
    let power = 1u64.checked_shl(u32::try_from(other).unwrap_or(u32::MAX));
    let value = match operator {
        '<' => one.checked_mul(power?),
        '>' => one.checked_div(power?),
        '+' => one.checked_add(other),
        '-' => one.checked_sub(other),
        '*' => one.checked_mul(other),
        '/' => one.checked_div(other),
        _ => one.checked_rem(other),
    };
    number_of(value?, most)
}

/// A number by its digits, as Rust writes it. It has at most so much, unless the type follows.
fn literal(word: &str, most: u64) -> Option<Number> {
    // a name may begin with `_`
    first_letter(word)?.to_digit(10)?;
    let (radix, front) = match word.get(..2) {
        Some("0x") => (16, 2),
        Some("0b") => (2, 2),
        Some("0o") => (8, 2),
        _ => (10, 0),
    };
    let mut length = front;
    let mut number: Option<u64> = None;
    for character in word.get(front..)?.chars() {
        if let Some(digit) = character.to_digit(radix) {
            let before = number.unwrap_or(0).checked_mul(u64::from(radix))?;
            number = Some(before.checked_add(u64::from(digit))?);
        } else if character != '_' {
            break;
        }
        length = length.saturating_add(1);
    }
    match word.get(length..)? {
        "" => number_of(number?, most),
        suffix => number_of(number?, width_of(suffix)?.0),
    }
}

impl Builder<'_> {
    /// The length that these words are. If they are none, it says why the constant that was looked for last is none, if any, or that
    /// there are too many.
    pub(super) fn length(&mut self, words: Words) -> u64 {
        self.left = MOST_NUMBERS;
        self.doubt = (NO_NAME, "");
        let number = self.value(words, self.at, GREATEST, KINDS, DEEPEST);
        let first = self.tokens.first(words);
        if !words.is_empty() {
            self.words.line = first.line;
        }
        match (number, self.doubt) {
            (Some((number, _)), _) => return number.value,
            (None, (NO_NAME, why)) if !why.is_empty() => self.wrong(&[why]),
            (None, (NO_NAME, _)) if words.len() == 1 => self.refuse(
                first.name,
                "` is no length: write a number of at most 4294967295",
            ),
            (None, (NO_NAME, _)) => self.wrong(&[
                "a length is a number, the name of one, or computed of those: write the number",
            ]),
            (None, (name, why)) => self.refuse(name, why),
        };
        0
    }

    /// The number that words compute there up to an operator that is of none of so many kinds, and the words after it. Numbers have
    /// at most so much which don't say their type.
    #[cycle(lengths)]
    fn value(
        &mut self,
        words: Words,
        at: Context,
        most: u64,
        kinds: usize,
        depth: u32,
    ) -> Computed {
        let (mut number, mut rest) = self.operand(words, at, most, depth)?;
        for _ in words.from..words.to {
            if rest.is_empty() {
                break;
            }
            if self.tokens.front(rest) == Word::As {
                let of = rest.behind_first();
                number = number_of(number.value, self.width(self.tokens.first(of).name)?.0)?;
                rest = of.behind_first();
                continue;
            }
            let (operator, kind, behind) = operator_at(self.tokens, rest)?;
            if kind >= kinds {
                break;
            }
            let (second, behind) = self.value(behind, at, most, kind, depth)?;
            (number, rest) = (computed_of(operator, number, second)?, behind);
        }
        Some((number, rest))
    }

    /// The number at the start, of digits, by a name, or in marks, and the words after it.
    #[cycle(lengths)]
    fn operand(&mut self, words: Words, at: Context, most: u64, depth: u32) -> Computed {
        let (Some(left), Some(depth)) = (self.left.checked_sub(1), depth.checked_sub(1)) else {
            self.doubt = (NO_NAME, TOO_FAR);
            return None;
        };
        self.left = left;
        if let Some((inside, rest)) = self.tokens.group(words)
            && self.tokens.front(words) != Word::Bracket
        {
            // nothing may say their type there, so that they are of `i32`
            let most = most.min(0x7FFF_FFFF);
            return Some((self.value(inside, at, most, KINDS, depth)?.0, rest));
        }
        if let Some(number) = literal(self.tokens.first_text(words), most) {
            return Some((number, words.behind_first()));
        }
        let (path, last, rest) = path_at(self.tokens, words);
        let before = path.before();
        if is_primitive(self.tokens.text(before)) && !self.names.has_namesake(before, true) {
            return Some((self.of_language(at, &path, last)?, rest));
        }
        // a function that is called, or what has fields
        if !rest.is_empty()
            && self.tokens.front(rest) != Word::As
            && operator_at(self.tokens, rest).is_none()
        {
            return None;
        }
        let (words, at, most) = self.constant(at, &path, last)?;
        let (number, _) = self.value(words, at, most, KINDS, depth)?;
        Some((number_of(number.value, most)?, rest))
    }

    /// The words of the parameter or the constant of a name, where they are, and what its type has at most.
    fn constant(&mut self, at: Context, path: &Path, last: Name) -> Option<(Words, Context, u64)> {
        if path.is_empty()
            && let Some(it) = self.given(at, last, true)
        {
            return Some((it.words, it.at, GREATEST));
        }
        match self.found(at, path, last, Space::Constants) {
            Found::In(What::Constant(of, words), scope) => {
                // one of a type that isn't known has at most what all types have
                let most = match self.width(self.tokens.first(of).name) {
                    Some((most, _)) if of.len() == 1 => most,
                    _ => 0x7F,
                };
                let own = NOWHERE;
                return Some((words, Context { scope, own }, most));
            }
            _ if at.scope == self.asked => self.doubt = (last, ASKED),
            Found::Wrong(why) => self.doubt = (last, why),
            Found::Two => self.doubt = (last, TWO),
            _ => {}
        }
        None
    }

    /// What a type of the language has at most, and how many bits, unless a file gives its name to another.
    fn width(&self, name: Name) -> Option<(u64, u64)> {
        if self.names.has(name) {
            return None;
        }
        width_of(self.tokens.text(name))
    }

    /// What a type of the language has under a name, if that is the same on all devices.
    fn of_language(&self, at: Context, path: &Path, last: Name) -> Option<Number> {
        let of = path.before();
        let is_plain = path.count == 1
            || is_listed(self.tokens.text(path.root()), "core std")
                && matches!(self.found(at, path, last, Space::Types), Found::Known(_));
        if !is_plain || self.given(at, of, false).is_some() {
            return None;
        }
        let (greatest, bits) = self.width(of)?;
        match self.tokens.text(last) {
            "MAX" if bits > 0 => number_of(greatest, greatest),
            "BITS" if bits > 0 => number_of(bits, GREATEST),
            _ => None,
        }
    }
}
