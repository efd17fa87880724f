ghost use Rattle.std.specs.Prelude.{◌≡◌, ℕ, ◌+◌, ◌-◌, ◌<◌, ◌≤◌, ◌^◌, [], length, take, drop, None, Some, IfSome, MatchOption, unwrap_or};
ghost use Rattle.std.specs.Io.KnownBytes.{Keeps, Consumes, IsAtEnd};
ghost use Rattle.line_io.specs.Device.{Gave, moved_front, read_faults};

use crate::traits::Inlet;
use std::io::Read;

// The maximum of bytes that a reader is asked for in one read.
const SCRATCH: usize = 16384;

// A buffer of at most so many bytes is read by way of as many: clearing all of the scratch takes longer than such a
// read.
const FEW: usize = 1024;

// Reads once into the scratch, which isn't empty, and copies what came to the start of the buffer.
fn read_by<R: Read>(reader: &mut R, room: &mut [u8], scratch: &mut [u8]) -> Option<usize>
    requires { 0 < length scratch.old }
    ensures bound { IfSome result (λ n. n ≤ length room.new) }
    ensures most { IfSome result (λ n. n ≤ length scratch.old) }
    ensures past { drop (unwrap_or result 0) room.new ≡ drop (unwrap_or result 0) room.old }
    ensures end { result ≡ Some 0 → 0 < length room.new → IsAtEnd (R.remaining reader.new) }
    ensures bytes { MatchOption result
        (Keeps (R.remaining reader.old) (R.remaining reader.new))
        (λ n. Consumes (R.remaining reader.old) (R.remaining reader.new) (take n room.new)) }
{
    let most = room.len().min(scratch.len());
    let lent = &mut scratch[..most];
    match reader.read(lent) {
        Ok(n) => {
            room[..n].copy_from_slice(&lent[..n]);
            Some(n)
        }
        Err(_) => None,
    }
}

/// Reads once into `room`, and returns how many bytes came; `None` if the read failed or was interrupted.
///
/// It leaves the buffer past these bytes unchanged, and all of it at `None`: a reader of std may write past its
/// result, so the bytes come by way of a buffer on the stack, of 1024 bytes if `room` has at most so many, else of
/// 16384. At most 16384 bytes are read. Into a nonempty buffer, 0 is the end.
pub fn read_front<R: Read>(reader: &mut R, room: &mut [u8]) -> Option<usize>
    ensures bound { IfSome result (λ n. n ≤ length room.new) }
    ensures most { IfSome result (λ n. n ≤ 16384) }
    ensures past { drop (unwrap_or result 0) room.new ≡ drop (unwrap_or result 0) room.old }
    ensures end { result ≡ Some 0 → 0 < length room.new → IsAtEnd (R.remaining reader.new) }
    ensures bytes { MatchOption result
        (Keeps (R.remaining reader.old) (R.remaining reader.new))
        (λ n. Consumes (R.remaining reader.old) (R.remaining reader.new) (take n room.new)) }
{
    if room.len() <= FEW {
        let mut scratch = [0u8; FEW];
        return read_by(reader, room, &mut scratch);
    }
    let mut scratch = [0u8; SCRATCH];
    read_by(reader, room, &mut scratch)
}

/// An [`Inlet`](crate::Inlet) over a reader of std.
///
/// If the reader fails or is interrupted, `read` and `read_over` return `None`; nothing is retried. The bytes to come
/// are reported up to the first fault, if the reader reports them. `read` asks for at most 16384 bytes, and leaves the
/// buffer past its result unchanged, even if the reader writes there. `read_over` hands the whole buffer to the reader.
///
/// # Example
/// ```rust
/// let mut line = Reads::new(b"hi".as_slice());
/// let mut room = [0u8; 8];
/// check(&rt, line.read(&mut room) == Some(2));
/// check(&rt, line.read(&mut room) == Some(0));
/// ```
#[derive(Drop)]
pub struct Reads<R> {
    inner: R,
    faults: u64,
    calls: u64,
    ghost counted: { faults + calls ≤ 2 ^ 64 - 1 },
}

impl<R: Read> Reads<R> {
    ghost use Rattle.line_io.specs.Streams.{inner_reader};

    /// A device over the reader, without faults so far.
    pub fn new(inner: R) -> Reads<R>
        ensures to_come { (⟦<Reads<R> as Inlet>⟧.line result).told ≡ R.remaining inner }
        ensures faults { (⟦<Reads<R> as Inlet>⟧.line result).faults ≡ 0 }
        ensures calls { (⟦<Reads<R> as Inlet>⟧.line result).calls_left ≡ 2 ^ 64 - 1 }
        ensures inner { inner_reader result ≡ inner }
    {
        Reads {
            inner,
            faults: 0,
            calls: u64::MAX,
        }
    }

    /// Returns the reader, as the calls so far left it.
    pub fn into_inner(self) -> R
        ensures inner { result ≡ inner_reader self }
        ensures told { (⟦<Reads<R> as Inlet>⟧.line self).faults ≡ 0
            → R.remaining result ≡ (⟦<Reads<R> as Inlet>⟧.line self).told }
    {
        let Reads { inner, .. } = self;
        inner
    }
}

impl<R: Read> Inlet for Reads<R> {
    ghost use Rattle.line_io.specs.Streams.{inner_reader, reads_line};

    ghost line = { reads_line R.remaining };

    fn read(&mut self, room: &mut [u8]) -> Option<usize>
        ensures bound { IfSome result (λ n. n ≤ length room.new) }
        ensures most { IfSome result (λ n. n ≤ 16384) }
        ensures bytes { Gave (reads_line R.remaining self.old)
            (reads_line R.remaining self.new) (moved_front result room.new) }
        ensures end { result ≡ Some 0 → 0 < length room.new
            → IfSome (reads_line R.remaining self.new).told (λ rest. rest ≡ []) }
        ensures faults { (reads_line R.remaining self.new).faults
            ≡ (reads_line R.remaining self.old).faults
            + read_faults (reads_line R.remaining self.old).calls_left result }
        ensures calls { (reads_line R.remaining self.new).calls_left
            ≡ (reads_line R.remaining self.old).calls_left - 1 }
        ensures spent { (reads_line R.remaining self.old).calls_left ≡ 0 → result ≡ None }
        ensures past { drop (unwrap_or result 0) room.new ≡ drop (unwrap_or result 0) room.old }
        ensures silent { 0 < (reads_line R.remaining self.new).faults
            → (reads_line R.remaining self.new).told ≡ None }
        // The reader itself reports what it will give, after a fault too.
        ensures inner { MatchOption result
            (Keeps (R.remaining (inner_reader self.old)) (R.remaining (inner_reader self.new)))
            (λ n. Consumes (R.remaining (inner_reader self.old))
            (R.remaining (inner_reader self.new)) (take n room.new)) }
        // It has ended only if the reader has, after a fault too.
        ensures inner_end { result ≡ Some 0 → 0 < length room.new
            → IsAtEnd (R.remaining (inner_reader self.new)) }
    {
        if self.calls == 0 {
            return None;
        }
        self.calls -= 1;
        match read_front(&mut self.inner, room) {
            Some(n) => Some(n),
            None => {
                self.faults += 1;
                None
            }
        }
    }

    fn read_over(&mut self, room: &mut [u8]) -> Option<usize>
        ensures bound { IfSome result (λ n. n ≤ length room.new) }
        ensures bytes { Gave (reads_line R.remaining self.old)
            (reads_line R.remaining self.new) (moved_front result room.new) }
        ensures end { result ≡ Some 0 → 0 < length room.new
            → IfSome (reads_line R.remaining self.new).told (λ rest. rest ≡ []) }
        ensures faults { (reads_line R.remaining self.new).faults
            ≡ (reads_line R.remaining self.old).faults
            + read_faults (reads_line R.remaining self.old).calls_left result }
        ensures calls { (reads_line R.remaining self.new).calls_left
            ≡ (reads_line R.remaining self.old).calls_left - 1 }
        ensures spent { (reads_line R.remaining self.old).calls_left ≡ 0 → result ≡ None }
        ensures silent { 0 < (reads_line R.remaining self.new).faults
            → (reads_line R.remaining self.new).told ≡ None }
        ensures inner { MatchOption result
            (Keeps (R.remaining (inner_reader self.old)) (R.remaining (inner_reader self.new)))
            (λ n. Consumes (R.remaining (inner_reader self.old))
            (R.remaining (inner_reader self.new)) (take n room.new)) }
        ensures inner_end { result ≡ Some 0 → 0 < length room.new
            → IsAtEnd (R.remaining (inner_reader self.new)) }
    {
        self.calls = self.calls.checked_sub(1)?;
        match self.inner.read(room) {
            Ok(n) => Some(n),
            Err(_) => {
                self.faults += 1;
                None
            }
        }
    }
}
