//! How lines of test vectors show a value.
use arrayvec::{ArrayString, ArrayVec};
use example_by_hand::DataEnum;
use postcard::fixint::{BE, FixInt, LE};
use std::alloc::{AllocError, Global};
use std::collections::BTreeMap;

/// A value that a line shows.
pub trait Shown {
    /// Appends the value, in the words of a line.
    fn show(&self, text: &mut String) -> Result<(), AllocError>;
}

impl Shown for bool {
    fn show(&self, text: &mut String) -> Result<(), AllocError> {
        write!(text, "{self}")
    }
}

impl Shown for u8 {
    fn show(&self, text: &mut String) -> Result<(), AllocError> {
        write!(text, "{self}")
    }
}

impl Shown for u16 {
    fn show(&self, text: &mut String) -> Result<(), AllocError> {
        write!(text, "{self}")
    }
}

impl Shown for u32 {
    fn show(&self, text: &mut String) -> Result<(), AllocError> {
        write!(text, "{self}")
    }
}

impl Shown for u64 {
    fn show(&self, text: &mut String) -> Result<(), AllocError> {
        write!(text, "{self}")
    }
}

impl Shown for u128 {
    fn show(&self, text: &mut String) -> Result<(), AllocError> {
        write!(text, "{self}")
    }
}

impl Shown for usize {
    fn show(&self, text: &mut String) -> Result<(), AllocError> {
        write!(text, "{self}")
    }
}

impl Shown for i8 {
    fn show(&self, text: &mut String) -> Result<(), AllocError> {
        write!(text, "{self}")
    }
}

impl Shown for i16 {
    fn show(&self, text: &mut String) -> Result<(), AllocError> {
        write!(text, "{self}")
    }
}

impl Shown for i32 {
    fn show(&self, text: &mut String) -> Result<(), AllocError> {
        write!(text, "{self}")
    }
}

impl Shown for i64 {
    fn show(&self, text: &mut String) -> Result<(), AllocError> {
        write!(text, "{self}")
    }
}

impl Shown for i128 {
    fn show(&self, text: &mut String) -> Result<(), AllocError> {
        write!(text, "{self}")
    }
}

impl Shown for isize {
    fn show(&self, text: &mut String) -> Result<(), AllocError> {
        write!(text, "{self}")
    }
}

/// At least four digits of its code.
impl Shown for char {
    fn show(&self, text: &mut String) -> Result<(), AllocError> {
        let code = *self as u32;
        write!(text, "U+{code:04X}")
    }
}

impl Shown for () {
    fn show(&self, text: &mut String) -> Result<(), AllocError> {
        text.push_str("()")
    }
}

/// The bytes of a text.
fn show_text(shown: &str, text: &mut String) -> Result<(), AllocError> {
    text.push_str("s(")?;
    for byte in shown.as_bytes() {
        write!(text, "{byte:02x}")?;
    }
    text.push(')')
}

impl Shown for &str {
    fn show(&self, text: &mut String) -> Result<(), AllocError> {
        show_text(self, text)
    }
}

impl Shown for String {
    fn show(&self, text: &mut String) -> Result<(), AllocError> {
        show_text(self.as_str(), text)
    }
}

impl<const N: usize> Shown for ArrayString<N> {
    fn show(&self, text: &mut String) -> Result<(), AllocError> {
        show_text(self.as_str(), text)
    }
}

/// The elements in order.
fn show_list<T: Shown>(items: &[T], text: &mut String) -> Result<(), AllocError> {
    let mut mark = '[';
    for item in items {
        show_after(mark, item, text)?;
        mark = ',';
    }
    if mark == '[' {
        text.push(mark)?;
    }
    text.push(']')
}

impl<T: Shown> Shown for &[T] {
    fn show(&self, text: &mut String) -> Result<(), AllocError> {
        show_list(self, text)
    }
}

impl<T: Shown> Shown for Vec<T> {
    fn show(&self, text: &mut String) -> Result<(), AllocError> {
        show_list(self.as_slice(), text)
    }
}

impl<T: Shown, const N: usize> Shown for ArrayVec<T, N> {
    fn show(&self, text: &mut String) -> Result<(), AllocError> {
        show_list(self.as_slice(), text)
    }
}

impl<T: Shown, const N: usize> Shown for [T; N] {
    fn show(&self, text: &mut String) -> Result<(), AllocError> {
        show_list(self.as_slice(), text)
    }
}

/// Appends a mark and a value.
fn show_after<T: Shown>(mark: char, value: &T, text: &mut String) -> Result<(), AllocError> {
    text.push(mark)?;
    value.show(text)
}

/// Appends a mark and two values, parted by another mark.
fn show_two<A: Shown, B: Shown>(
    mark: char,
    a: &A,
    between: char,
    b: &B,
    text: &mut String,
) -> Result<(), AllocError> {
    show_after(mark, a, text)?;
    show_after(between, b, text)
}

/// Appends a mark and three values.
fn show_three<A: Shown, B: Shown, C: Shown>(
    mark: char,
    a: &A,
    b: &B,
    c: &C,
    text: &mut String,
) -> Result<(), AllocError> {
    show_after(mark, a, text)?;
    show_two(',', b, ',', c, text)
}

/// Appends a value between what opens it and a parenthesis.
fn show_within<T: Shown>(open: &str, value: &T, text: &mut String) -> Result<(), AllocError> {
    text.push_str(open)?;
    value.show(text)?;
    text.push(')')
}

impl<A: Shown> Shown for (A,) {
    fn show(&self, text: &mut String) -> Result<(), AllocError> {
        show_after('(', &self.0, text)?;
        text.push_str(",)")
    }
}

impl<A: Shown, B: Shown> Shown for (A, B) {
    fn show(&self, text: &mut String) -> Result<(), AllocError> {
        show_two('(', &self.0, ',', &self.1, text)?;
        text.push(')')
    }
}

impl<A: Shown, B: Shown, C: Shown> Shown for (A, B, C) {
    fn show(&self, text: &mut String) -> Result<(), AllocError> {
        show_three('(', &self.0, &self.1, &self.2, text)?;
        text.push(')')
    }
}

impl<A: Shown, B: Shown, C: Shown, D: Shown> Shown for (A, B, C, D) {
    fn show(&self, text: &mut String) -> Result<(), AllocError> {
        show_two('(', &self.0, ',', &self.1, text)?;
        show_two(',', &self.2, ',', &self.3, text)?;
        text.push(')')
    }
}

impl<A: Shown, B: Shown, C: Shown, D: Shown, E: Shown> Shown for (A, B, C, D, E) {
    fn show(&self, text: &mut String) -> Result<(), AllocError> {
        show_two('(', &self.0, ',', &self.1, text)?;
        show_three(',', &self.2, &self.3, &self.4, text)?;
        text.push(')')
    }
}

impl<A: Shown, B: Shown, C: Shown, D: Shown, E: Shown, F: Shown> Shown for (A, B, C, D, E, F) {
    fn show(&self, text: &mut String) -> Result<(), AllocError> {
        show_three('(', &self.0, &self.1, &self.2, text)?;
        show_three(',', &self.3, &self.4, &self.5, text)?;
        text.push(')')
    }
}

impl<T: Shown> Shown for Option<T> {
    fn show(&self, text: &mut String) -> Result<(), AllocError> {
        match self {
            None => text.push_str("none"),
            Some(value) => show_within("some(", value, text),
        }
    }
}

impl<T: Shown, E: Shown> Shown for Result<T, E> {
    fn show(&self, text: &mut String) -> Result<(), AllocError> {
        match self {
            Ok(value) => show_within("ok(", value, text),
            Err(error) => show_within("err(", error, text),
        }
    }
}

/// As its value.
impl<T: Shown> Shown for Box<T> {
    fn show(&self, text: &mut String) -> Result<(), AllocError> {
        let value: &T = self;
        value.show(text)
    }
}

/// In ascending order of keys.
impl<K: Shown + Ord, V: Shown> Shown for BTreeMap<K, V> {
    fn show(&self, text: &mut String) -> Result<(), AllocError> {
        let mut mark = '{';
        for (key, value) in self {
            show_two(mark, key, ':', value, text)?;
            mark = ',';
        }
        if mark == '{' {
            text.push(mark)?;
        }
        text.push('}')
    }
}

impl<T: FixInt + Shown> Shown for LE<T> {
    fn show(&self, text: &mut String) -> Result<(), AllocError> {
        self.0.show(text)
    }
}

impl<T: FixInt + Shown> Shown for BE<T> {
    fn show(&self, text: &mut String) -> Result<(), AllocError> {
        self.0.show(text)
    }
}

/// The variant and its parts.
impl Shown for DataEnum {
    fn show(&self, text: &mut String) -> Result<(), AllocError> {
        match self {
            DataEnum::Bib(n) => show_within("Bib(", n, text),
            DataEnum::Bim(n) => show_within("Bim(", n, text),
            DataEnum::Bap(n) => show_within("Bap(", n, text),
            DataEnum::Kim(parts) => show_pair("Kim", &parts.eight, &parts.sixt, text),
            DataEnum::Chi { a, b } => show_pair("Chi", a, b, text),
            DataEnum::Sho(a, b) => show_pair("Sho", a, b, text),
        }
    }
}

/// The name of a variant, and its two parts.
fn show_pair<A: Shown, B: Shown>(
    name: &str,
    a: &A,
    b: &B,
    text: &mut String,
) -> Result<(), AllocError> {
    text.push_str(name)?;
    show_two('(', a, ',', b, text)?;
    text.push(')')
}

/// A value, in the words of a line.
pub fn in_words<T: Shown>(alloc: Global, value: &T) -> Result<String, AllocError> {
    let mut text = String::new(alloc);
    value.show(&mut text)?;
    Ok(text)
}
