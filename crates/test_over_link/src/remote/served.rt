//! An application and what is served to it, over memory.
ghost use Rattle.std.specs.Prelude.{◌≡◌, ◌<◌, ⊤, Some, None};

use calls::{Application, Server, Service};
use line_io::Writes;
use link::Sender;
use std::alloc::Global;

/// The key of adders: the CRC-32 of `adder 1`.
pub const KEY: u32 = 0xD0AD_9B79;

/// A sum, and how many requests were executed.
#[derive(Drop)]
pub struct Adder {
    pub sum: u32,
    pub executed: u32,
}

impl Adder {
    /// Nothing was executed.
    pub fn new() -> Adder {
        Adder {
            sum: 0,
            executed: 0,
        }
    }
}

impl Application<u32, u32> for Adder {
    ghost executes = { λ old asks says new. ⊤ };

    ghost passes = { λ number last. None };

    fn execute(&mut self, request: &u32) -> u32
        ensures { ⊤ }
    {
        self.executed = self.executed.saturating_add(1);
        self.sum = self.sum.wrapping_add(*request);
        self.sum
    }

    fn pass(number: u64, last: u64) -> Option<u32>
        ensures { result ≡ None }
    {
        let _ = (number, last);
        None
    }
}

/// It says what it is asked, and of a call that is passed over the number of the last one.
#[derive(Drop)]
pub struct Echo;

impl Application<u64, u64> for Echo {
    ghost executes = { λ old asks says new. ⊤ };

    ghost passes = { λ number last. Some last };

    fn execute(&mut self, request: &u64) -> u64
        ensures { ⊤ }
    {
        *request
    }

    fn pass(number: u64, last: u64) -> Option<u64>
        ensures { result ≡ Some last }
    {
        let _ = number;
        Some(last)
    }
}

/// A line in memory.
pub type Line = Writes<Vec<u8>>;

/// An empty line.
pub fn line(alloc: Global) -> Line {
    Writes::new(Vec::new(alloc))
}

/// A service of a new adder, over an empty line with this sentinel.
pub fn service(alloc: Global, sentinel: u8) -> Service<Adder, Line, u32, u32, 16> {
    Service {
        application: Adder::new(),
        server: Server::new(sender(alloc, sentinel)),
        unsent: false,
    }
}

/// What sends over an empty line with this sentinel.
pub fn sender<const N: usize>(alloc: Global, sentinel: u8) -> Sender<Line, N>
    requires { 0 < N }
{
    Sender::new_with_sentinel(line(alloc), sentinel)
}
