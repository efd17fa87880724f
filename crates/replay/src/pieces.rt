//! Bytes that come in chunks.
use crate::words::{Trouble, bytes_of};
use std::alloc::Global;
use std::io;
use std::io::Read;

/// The chunks of a word, which commas part.
pub fn pieces_of(alloc: Global, word: &str) -> Result<Vec<Vec<u8>>, Trouble> {
    let mut pieces = Vec::new(alloc);
    for piece in word.split(',') {
        pieces.push(bytes_of(alloc, piece)?)?;
    }
    Ok(pieces)
}

/// A reader in memory that gives chunks as they are cut, and at most so many bytes a call.
#[derive(Drop)]
pub struct Pieces<'a> {
    pieces: &'a [Vec<u8>],
    each: usize,
    given: usize,
}

impl<'a> Pieces<'a> {
    /// A reader of these chunks.
    pub fn new(pieces: &'a [Vec<u8>], each: usize) -> Pieces<'a> {
        Pieces {
            pieces,
            each,
            given: 0,
        }
    }

    /// What is left of the first chunk that was not given whole.
    fn rest(&mut self) -> &'a [u8] {
        let pieces = self.pieces;
        for (i, piece) in pieces.iter().enumerate() {
            let rest = piece.get(self.given..).unwrap_or(&[]);
            if !rest.is_empty() {
                self.pieces = pieces.get(i..).unwrap_or(&[]);
                return rest;
            }
            self.given = 0;
        }
        self.pieces = &[];
        &[]
    }
}

impl Read for Pieces<'_> {
    fn read(&mut self, buf: &mut [u8]) -> io::Result<usize> {
        let rest = self.rest();
        let count = rest.len().min(self.each).min(buf.len());
        buf[..count].copy_from_slice(&rest[..count]);
        self.given = self.given.saturating_add(count);
        Ok(count)
    }
}
