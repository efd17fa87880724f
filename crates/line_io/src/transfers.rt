ghost use Rattle.std.specs.Prelude.{◌≡◌, ℕ, ◌+◌, ◌-◌, ◌≤◌, List, ◌++◌, length, vec_capacity};
ghost use Rattle.line_io.specs.Transfers.{WentOrBroke, HasRead, HasNoSpace};
ghost use Rattle.line_io.specs.declared.transfers.End.{End};
ghost use Rattle.line_io.specs.declared.transfers.End.TheVariants.{Ended, ReadFault, NoMemory};

use crate::traits::{Inlet, Outlet};

// The maximum of bytes that one read asks for.
const ROOM: usize = 16384;

/// A write failed, was interrupted or took nothing.
///
/// # Example
/// ```rust
/// check(&rt, write_all(&mut out, b"hello") == Err(WriteFault));
/// check(&rt, out.moved() == 4);
/// ```
#[derive(Clone, Copy, Debug, PartialEq, Eq, Drop)]
pub struct WriteFault;

/// Writes all of the bytes, in as many writes as the device needs, at most one for each byte.
///
/// # Errors
/// `WriteFault` at the first fault, or with no call left. A proper prefix of the bytes was written; nothing is
/// retried.
///
/// # Example
/// ```rust
/// let mut room = [0u8; 4];
/// let mut out = Out::new(&mut room, 2, None);
/// check(&rt, write_all(&mut out, b"hi").is_ok());
/// check(&rt, write_all(&mut out, b"hello") == Err(WriteFault));
/// ```
pub fn write_all<W: Outlet>(outlet: &mut W, bytes: &[u8]) -> Result<(), WriteFault>
    ensures { WentOrBroke (W.line outlet.old) (W.line outlet.new) bytes.now result }
{
    let mut rest = bytes;
    while !rest.is_empty() {
        let taken = outlet.write(rest).unwrap_or(0);
        if taken == 0 {
            return Err(WriteFault);
        }
        let (_, more) = rest.split_at(taken);
        rest = more;
    }
    Ok(())
}

/// Why reading ended.
///
/// Example: see [`read_to_end`].
#[derive(Clone, Copy, Debug, PartialEq, Eq, Drop)]
pub enum End {
    /// The reader is at its end.
    Ended,
    /// A read failed, or the reader has no call left.
    ReadFault,
    /// What was read couldn't be allocated.
    NoMemory,
}

/// Appends everything that a reader gives to the vector, and returns why it stopped.
///
/// At `ReadFault` the vector has everything before the fault. At `NoMemory` it has a prefix of what was read; the rest,
/// at most 16384 bytes, is lost. `NoMemory` comes only if all that was read didn't fit the vector's first capacity. It
/// uses at most one call of the reader for each byte that it appends, and one more.
///
/// # Allocates
/// What the vector grows by; 16384 bytes are on the stack.
///
/// # Example
/// ```rust
/// let mut text = Vec::new(rt.alloc());
/// let end = read_to_end(&mut In::new(b"abc", 2, Some(1)), &mut text);
/// check(&rt, end == End::ReadFault && are_bytes(&text, b"a"));
/// ```
pub fn read_to_end<R: Inlet>(inlet: &mut R, bytes: &mut Vec<u8>) -> End
    ensures ended { result ≡ Ended → (text : List ℕ) × (bytes.new.items ≡ bytes.old.items ++ text)
        × HasRead (R.line inlet.old) (R.line inlet.new) Ended text }
    ensures failed { result ≡ ReadFault
        → (text : List ℕ) × (bytes.new.items ≡ bytes.old.items ++ text)
        × HasRead (R.line inlet.old) (R.line inlet.new) ReadFault text }
    ensures memory { result ≡ NoMemory
        → (text : List ℕ) × (lost : List ℕ) × (bytes.new.items ≡ bytes.old.items ++ text)
        × HasRead (R.line inlet.old) (R.line inlet.new) NoMemory (text ++ lost)
        × HasNoSpace (vec_capacity bytes.old) (length bytes.new.items) lost }
    ensures capacity { vec_capacity bytes.old ≤ vec_capacity bytes.new }
    ensures once { (R.line inlet.new).faults ≤ (R.line inlet.old).faults + 1 }
    ensures calls { (R.line inlet.new).calls_left ≤ (R.line inlet.old).calls_left }
    ensures few { (R.line inlet.old).calls_left + length bytes.old.items
        ≤ (R.line inlet.new).calls_left + length bytes.new.items + 1 }
{
    let mut room = [0u8; ROOM];
    loop {
        match inlet.read_over(&mut room) {
            None => return End::ReadFault,
            Some(0) => return End::Ended,
            Some(n) => {
                if bytes.extend_from_slice(&room[..n]).is_err() {
                    return End::NoMemory;
                }
            }
        }
    }
}
