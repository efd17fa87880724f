//! A reader and a writer of std that are in trouble once, count their calls, and hold what went through them.
use line_io::{Reads, Writes};
use std::io;
use std::io::{ErrorKind, Read, Write};

/// Gives its bytes, so many a call, and writes past its answer. It fails once, after so many bytes.
#[derive(Drop)]
pub struct Giving<'a> {
    rest: &'a [u8],
    each: usize,
    pub given: usize,
    before: usize,
    kind: ErrorKind,
    pub calls: usize,
}

impl Read for Giving<'_> {
    fn read(&mut self, buf: &mut [u8]) -> io::Result<usize> {
        self.calls = self.calls.saturating_add(1);
        if self.given == self.before {
            self.before = usize::MAX;
            return Err(io::Error::from(self.kind));
        }
        let count = buf.len().min(self.each).min(self.rest.len());
        let (now, rest) = self.rest.split_at(count);
        buf.fill(b'x');
        buf[..count].copy_from_slice(now);
        self.rest = rest;
        self.given = self.given.saturating_add(count);
        Ok(count)
    }
}

/// A line over a reader that gives so many bytes a call, and fails so after this count of bytes.
pub fn reader_of(rest: &[u8], each: usize, before: usize, kind: ErrorKind) -> Reads<Giving<'_>> {
    Reads::new(Giving {
        rest,
        each,
        given: 0,
        before,
        kind,
        calls: 0,
    })
}

/// Takes so many bytes a call, and holds the first byte of each call, where there is room. It is in trouble once, after so many
/// bytes: it fails so, or takes nothing.
#[derive(Drop)]
pub struct Taking {
    pub first: [u8; 16],
    each: usize,
    pub taken: usize,
    before: usize,
    trouble: Option<ErrorKind>,
    pub calls: usize,
}

impl Write for Taking {
    fn write(&mut self, buf: &[u8]) -> io::Result<usize> {
        self.calls = self.calls.saturating_add(1);
        if self.taken == self.before {
            self.before = usize::MAX;
            return match self.trouble {
                Some(kind) => Err(io::Error::from(kind)),
                None => Ok(0),
            };
        }
        if self.taken < 16 && !buf.is_empty() {
            self.first[self.taken] = buf[0];
        }
        let count = buf.len().min(self.each);
        self.taken = self.taken.saturating_add(count);
        Ok(count)
    }

    fn flush(&mut self) -> io::Result<()> {
        Ok(())
    }
}

/// A line over a writer that takes so many bytes a call, and is in this trouble after that count of bytes.
pub fn writer_of(each: usize, before: usize, trouble: Option<ErrorKind>) -> Writes<Taking> {
    Writes::new(Taking {
        first: [0; 16],
        each,
        taken: 0,
        before,
        trouble,
        calls: 0,
    })
}
