//! A reader and a writer over memory.
ghost use Rattle.std.specs.Prelude.{⊤};

use crate::codec::checks::Front;
use futures::task::{Context, Poll};
use std::io;
use tokio::io::{AsyncRead, AsyncWrite};

/// How many bytes the next chunk has, from 1 to the greatest that is asked for; and whether a poll waits before it.
#[derive(Drop)]
pub struct Pieces {
    most: u8,
    state: u8,
    waits: bool,
    is_ready: bool,
    // so many calls go well before one fails
    before_fault: Option<usize>,
}

/// What a call is to do.
pub enum Step {
    Wait,
    Fail,
    Move(usize),
}

impl Pieces {
    /// Chunks of at most so many bytes, whose lengths this number begins; whether a poll waits before each; and a fault after so many calls
    /// that went well.
    pub fn new(most: u8, seed: u8, waits: bool, before_fault: Option<usize>) -> Pieces {
        Pieces {
            most,
            state: seed,
            waits,
            is_ready: false,
            before_fault,
        }
    }

    fn next(&mut self) -> Step {
        if self.waits && !self.is_ready {
            self.is_ready = true;
            return Step::Wait;
        }
        self.is_ready = false;
        match self.before_fault {
            Some(0) => {
                self.before_fault = None;
                return Step::Fail;
            }
            Some(calls) => self.before_fault = Some(calls.saturating_sub(1)),
            None => {}
        }
        // the greater half of a linear congruential number, as a share of the greatest length
        self.state = self.state.wrapping_mul(77).wrapping_add(101);
        Step::Move(1 + usize::from(self.state) * usize::from(self.most) / 256)
    }
}

/// Gives these bytes in chunks.
#[derive(Drop)]
pub struct Line {
    pub bytes: &'static [u8],
    pub pieces: Pieces,
}

impl AsyncRead for Line {
    ghost reads = { λ _ _ _. ⊤ };

    ghost is_at_end = { λ _. ⊤ };

    ghost reads_nothing = { λ _. tt };

    ghost reads_in_order = { λ _ _ _ _ _ _ _. tt };

    fn poll_read(&mut self, cx: &mut Context<'_>, buf: &mut [u8]) -> Poll<io::Result<usize>> {
        match self.pieces.next() {
            Step::Wait => cx.yield_now(),
            Step::Fail => Poll::Ready(Err(io::ErrorKind::Other.into())),
            Step::Move(most) => {
                let count = most.min(self.bytes.len()).min(buf.len());
                let (front, rest) = self.bytes.split_at(count);
                buf[..count].copy_from_slice(front);
                self.bytes = rest;
                Poll::Ready(Ok(count))
            }
        }
    }
}

/// Takes bytes in chunks, and keeps the first sixteen.
#[derive(Drop)]
pub struct Paper {
    pub(crate) front: Front,
    pieces: Pieces,
}

impl Paper {
    /// With nothing on it.
    pub fn new(pieces: Pieces) -> Paper {
        Paper {
            front: Front::new(),
            pieces,
        }
    }
}

impl AsyncWrite for Paper {
    ghost writes = { λ _ _ _. ⊤ };

    ghost writes_nothing = { λ _. tt };

    ghost writes_in_order = { λ _ _ _ _ _ _ _. tt };

    fn poll_write(&mut self, cx: &mut Context<'_>, buf: &[u8]) -> Poll<io::Result<usize>> {
        match self.pieces.next() {
            Step::Wait => cx.yield_now(),
            Step::Fail => Poll::Ready(Err(io::ErrorKind::Other.into())),
            Step::Move(most) => {
                let count = most.min(buf.len());
                for byte in &buf[..count] {
                    self.front.put(*byte);
                }
                Poll::Ready(Ok(count))
            }
        }
    }

    fn poll_flush(&mut self, _cx: &mut Context<'_>) -> Poll<io::Result<()>> {
        Poll::Ready(Ok(()))
    }

    fn poll_shutdown(&mut self, _cx: &mut Context<'_>) -> Poll<io::Result<()>> {
        Poll::Ready(Ok(()))
    }
}
