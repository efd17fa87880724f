//! Standard input and output.
use crate::failure::{Failure, READ_FAULT, WRITE_FAULT, wrong};
use std::alloc::AllocError;
use std::io::{Read, Write};

/// The most bytes of one read.
pub const ROOM: usize = 65536;

/// Writes all of these bytes to standard output before it returns.
pub fn say(rt: &HostRuntime, bytes: &[u8]) -> Result<(), Failure> {
    let mut stdout = rt.stdout();
    if stdout.write_all(bytes).is_err() || stdout.flush().is_err() {
        return Err(WRITE_FAULT);
    }
    Ok(())
}

/// Writes lines to standard error, and clears them.
pub fn say_wrongs(rt: &HostRuntime, wrongs: &mut String) -> Result<(), Failure> {
    if !wrongs.is_empty() && eprint!(rt; "{wrongs}").is_err() {
        return Err(Failure::Fault("standard error: write failed"));
    }
    wrongs.clear();
    Ok(())
}

/// Reads bytes of standard input, and returns how many; 0 at its end.
pub fn read_some(rt: &HostRuntime, room: &mut [u8]) -> Result<usize, Failure> {
    match rt.stdin().read(room) {
        Ok(count) => Ok(count),
        Err(_) => Err(READ_FAULT),
    }
}

/// Reads standard input to its end.
pub fn read_whole(rt: &HostRuntime) -> Result<Vec<u8>, Failure> {
    let mut whole = Vec::new(rt.alloc());
    let mut room = [0u8; ROOM];
    for _ in 0..u64::MAX {
        let count = read_some(rt, &mut room)?;
        if count == 0 {
            break;
        }
        whole.extend_from_slice(room.get(..count).unwrap_or(&[]))?;
    }
    Ok(whole)
}

/// Hexadecimal text that is decoded as it comes; blanks and line ends may be anywhere in it.
#[derive(Drop)]
pub struct Digits {
    /// The digits that aren't decoded: between two pieces at most one.
    digits: Vec<u8>,
    /// The bytes of the last piece.
    bytes: Vec<u8>,
    /// Whether something else than digits came.
    is_wrong: bool,
}

impl Digits {
    /// No text yet.
    pub fn new(rt: &HostRuntime) -> Digits {
        Digits {
            digits: Vec::new(rt.alloc()),
            bytes: Vec::new(rt.alloc()),
            is_wrong: false,
        }
    }

    /// Takes the digits of a piece, up to what is none.
    fn take(&mut self, piece: &[u8]) -> Result<(), AllocError> {
        for byte in piece {
            if byte.is_ascii_hexdigit() {
                self.digits.push(*byte)?;
            } else if !byte.is_ascii_whitespace() {
                self.is_wrong = true;
                break;
            }
        }
        Ok(())
    }

    /// Decodes the next piece of the text: `bytes` are those whose last digit is in it, before what is no digit.
    pub fn push(&mut self, piece: &[u8]) -> Result<(), AllocError> {
        self.take(piece)?;
        let odd = if self.digits.len() % 2 == 1 {
            self.digits.pop()
        } else {
            None
        };
        self.bytes.resize(self.digits.len() / 2, 0)?;
        self.is_wrong |= hex::decode_to_slice(&self.digits, &mut self.bytes).is_err();
        self.digits.clear();
        if let Some(digit) = odd {
            self.digits.push(digit)?;
        }
        Ok(())
    }

    /// The bytes of the last piece.
    pub fn bytes(&self) -> &[u8] {
        &self.bytes
    }

    /// Fails if something else than digits came.
    pub fn check(&self, rt: &HostRuntime) -> Result<(), Failure> {
        if self.is_wrong {
            return Err(wrong(rt, &["standard input isn't hexadecimal text\n"]));
        }
        Ok(())
    }

    /// Fails also if a digit is left over.
    pub fn finish(&mut self, rt: &HostRuntime) -> Result<(), Failure> {
        self.is_wrong |= !self.digits.is_empty();
        self.check(rt)
    }
}
