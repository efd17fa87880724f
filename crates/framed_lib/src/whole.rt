//! Bytes in memory, as a reader that doesn't fail.
ghost use Rattle.std.specs.Prelude.{◌≡◌, ◌-◌, ◌+◌, ◌<◌, ◌≤◌, length, take, drop, Some, IfSome, unwrap_or};
ghost use Rattle.line_io.specs.Device.{LineState, Gave, moved_front, read_faults};

use line_io::Inlet;

/// Gives bytes in order, as many as fit. Its count of faults is zero by definition: `line_io`'s reader from memory can be made to fail, and
/// a contract over any `Inlet` couldn't exclude that.
#[derive(Drop)]
pub struct Whole<'a> {
    rest: &'a [u8],
    calls: u64,
}

impl<'a> Whole<'a> {
    ghost use Rattle.framed_lib.specs.Whole.{whole_line};

    /// A reader that gives these bytes, in more calls than there are bytes.
    pub fn new(rest: &'a [u8]) -> Whole<'a>
        ensures told { (whole_line result).told ≡ Some rest.now }
        ensures calls { length rest.now + 1 < (whole_line result).calls_left }
    {
        Whole {
            rest,
            calls: u64::MAX,
        }
    }
}

impl<'a> Inlet for Whole<'a> {
    ghost use Rattle.framed_lib.specs.Whole.{whole_line};

    ghost line = { whole_line };

    fn read(&mut self, room: &mut [u8]) -> Option<usize> {
        if self.calls == 0 {
            return None;
        }
        self.calls -= 1;
        let count = room.len().min(self.rest.len());
        let (front, rest) = self.rest.split_at(count);
        room[..count].copy_from_slice(front);
        self.rest = rest;
        Some(count)
    }
}
