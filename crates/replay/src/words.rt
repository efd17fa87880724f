//! The words of a line.
use hex::FromHexError;
use std::alloc::{AllocError, AllocFailed, Global};

/// Why a line was not replayed to its end.
#[derive(Clone, Copy, Drop)]
pub enum Trouble {
    /// The line isn't one of a known kind and type.
    Unreadable,
    /// A call refused what it has to take by the line.
    Refused,
    /// No memory was found.
    NoMemory,
}

impl From<AllocError> for Trouble {
    fn from(_: AllocError) -> Trouble {
        Trouble::NoMemory
    }
}

impl<T: Drop> From<AllocFailed<T>> for Trouble {
    fn from(_: AllocFailed<T>) -> Trouble {
        Trouble::NoMemory
    }
}

/// The words of a line that are left, parted by single spaces.
#[derive(Drop)]
pub struct Words<'a> {
    rest: Option<&'a str>,
}

impl<'a> Words<'a> {
    /// The words of a line.
    pub fn new(line: &'a str) -> Words<'a> {
        Words { rest: Some(line) }
    }

    /// The next word.
    pub fn next(&mut self) -> Result<&'a str, Trouble> {
        let rest = self.rest.ok_or(Trouble::Unreadable)?;
        match rest.split_once(' ') {
            Some((word, after)) => {
                self.rest = Some(after);
                Ok(word)
            }
            None => {
                self.rest = None;
                Ok(rest)
            }
        }
    }

    /// All that is left after a word `->`.
    pub fn answer(&mut self) -> Result<&'a str, Trouble> {
        if self.next()? != "->" {
            return Err(Trouble::Unreadable);
        }
        self.rest.ok_or(Trouble::Unreadable)
    }

    /// The next word's bytes.
    pub fn bytes(&mut self, alloc: Global) -> Result<Vec<u8>, Trouble> {
        bytes_of(alloc, self.next()?)
    }

    /// The next word's byte.
    pub fn byte(&mut self, alloc: Global) -> Result<u8, Trouble> {
        let bytes = self.bytes(alloc)?;
        match bytes.as_slice() {
            [byte] => Ok(*byte),
            _ => Err(Trouble::Unreadable),
        }
    }

    /// The next word's number.
    pub fn number(&mut self) -> Result<usize, Trouble> {
        number_of(self.next()?)
    }

    /// Refuses a line with a word more.
    pub fn end(&self) -> Result<(), Trouble> {
        if self.rest.is_some() {
            return Err(Trouble::Unreadable);
        }
        Ok(())
    }
}

/// The number of decimal digits.
pub fn number_of(word: &str) -> Result<usize, Trouble> {
    match word.parse::<usize>() {
        Ok(number) => Ok(number),
        Err(_) => Err(Trouble::Unreadable),
    }
}

/// The bytes of hexadecimal digits; a dash is no bytes.
pub fn bytes_of(alloc: Global, word: &str) -> Result<Vec<u8>, Trouble> {
    if word == "-" {
        return Ok(Vec::new(alloc));
    }
    match hex::decode(alloc, word) {
        Ok(bytes) => Ok(bytes),
        Err(FromHexError::OutOfMemory) => Err(Trouble::NoMemory),
        Err(_) => Err(Trouble::Unreadable),
    }
}

/// The digits of bytes; a dash if there are none.
pub fn digits(alloc: Global, bytes: &[u8]) -> Result<String, AllocError> {
    if bytes.is_empty() {
        return String::from_str(alloc, "-");
    }
    hex::encode(alloc, bytes)
}

/// Appends the digits of bytes to a text.
pub fn digits_behind(alloc: Global, front: &str, bytes: &[u8]) -> Result<String, AllocError> {
    let digits = digits(alloc, bytes)?;
    [front, digits.as_str()].concat(alloc)
}
