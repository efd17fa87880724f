ghost use Rattle.std.specs.Prelude.{◌≡◌, ◌+◌, ◌≤◌, [], ◌++◌, length, take, OnOk, OnErr, IfOk};
ghost use Rattle.line_io.specs.Transfers.{whole, broken};
ghost use Rattle.framed_lib.specs.Output.{Puts, WritingByFew};

use arrayvec::ArrayVec;
use line_io::{Outlet, WriteFault, write_all};

/// How many bytes are held, to be written by one write.
pub const ROOM: usize = 65536;

/// Bytes that aren't written yet.
pub type Held = ArrayVec<u8, ROOM>;

/// Appends bytes to those that are held; writes what is held first if they don't fit.
pub fn put<W: Outlet>(outlet: &mut W, held: &mut Held, bytes: &[u8]) -> Result<(), WriteFault>
    ensures ok { OnOk result
        (Puts (W.line outlet.old) (W.line outlet.new) held.old.items held.new.items bytes.now) }
    ensures err { OnErr result (WritingByFew (W.line outlet.old) (W.line outlet.new) broken
        (held.old.items ++ bytes.now)) }
{
    if held.try_extend_from_slice(bytes).is_ok() {
        return Ok(());
    }
    write_all(outlet, held.as_slice())?;
    held.clear();
    if held.try_extend_from_slice(bytes).is_ok() {
        return Ok(());
    }
    write_all(outlet, bytes)
}

/// How many bytes fit after those that are held in a buffer.
pub const PLACE: usize = 2053;

/// Writes what is held at the front of the buffer if it leaves little space after it, and returns how many bytes are held then.
pub fn make_place<W: Outlet>(outlet: &mut W, room: &[u8], held: usize) -> Result<usize, WriteFault>
    requires held { held ≤ length room.now }
    requires room { 2053 ≤ length room.now }
    ensures ok { IfOk result (λ kept. Puts (W.line outlet.old) (W.line outlet.new)
        (take held room.now) (take kept room.now) []) }
    ensures place { IfOk result (λ kept. kept + 2053 ≤ length room.now) }
    ensures err { OnErr result
        (WritingByFew (W.line outlet.old) (W.line outlet.new) broken (take held room.now)) }
{
    if PLACE <= room.len() - held {
        return Ok(held);
    }
    write_all(outlet, &room[..held])?;
    Ok(0)
}
