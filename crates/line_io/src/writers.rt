ghost use Rattle.std.specs.Prelude.{◌≡◌, ℕ, ◌+◌, ◌-◌, ◌<◌, ◌≤◌, ◌^◌, length, take, None, IfSome, MatchOption};
ghost use Rattle.std.specs.Io.KnownBytes.{Keeps, Appends};
ghost use Rattle.line_io.specs.Device.{Wrote, moved_front, write_faults};

use crate::traits::Outlet;
use std::io::Write;

/// An [`Outlet`](crate::Outlet) over a writer of std.
///
/// If the writer fails or is interrupted, `write` returns `None`; nothing is retried. The bytes are reported up to
/// the first fault, if the writer reports them.
///
/// # Example
/// ```rust
/// let mut line = Writes::new(Vec::new(rt.alloc()));
/// check(&rt, line.write(b"hi") == Some(2));
/// ```
#[derive(Drop)]
pub struct Writes<W> {
    inner: W,
    faults: u64,
    calls: u64,
    ghost counted: { faults + calls ≤ 2 ^ 64 - 1 },
}

impl<W: Write> Writes<W> {
    ghost use Rattle.line_io.specs.Streams.{inner_writer};

    /// A device over the writer, without faults so far.
    pub fn new(inner: W) -> Writes<W>
        ensures written { (⟦<Writes<W> as Outlet>⟧.line result).told ≡ W.contents inner }
        ensures faults { (⟦<Writes<W> as Outlet>⟧.line result).faults ≡ 0 }
        ensures calls { (⟦<Writes<W> as Outlet>⟧.line result).calls_left ≡ 2 ^ 64 - 1 }
        ensures inner { inner_writer result ≡ inner }
    {
        Writes {
            inner,
            faults: 0,
            calls: u64::MAX,
        }
    }

    /// Returns the writer, as the calls so far left it. Nothing is flushed.
    pub fn into_inner(self) -> W
        ensures inner { result ≡ inner_writer self }
        ensures told { (⟦<Writes<W> as Outlet>⟧.line self).faults ≡ 0
            → W.contents result ≡ (⟦<Writes<W> as Outlet>⟧.line self).told }
    {
        let Writes { inner, .. } = self;
        inner
    }
}

impl<W: Write> Outlet for Writes<W> {
    ghost use Rattle.line_io.specs.Streams.{inner_writer, writes_line};

    ghost line = { writes_line W.contents };

    fn write(&mut self, piece: &[u8]) -> Option<usize>
        ensures bound { IfSome result (λ n. n ≤ length piece.now) }
        ensures bytes { Wrote (writes_line W.contents self.old)
            (writes_line W.contents self.new) (moved_front result piece.now) }
        ensures faults { (writes_line W.contents self.new).faults
            ≡ (writes_line W.contents self.old).faults
            + write_faults (writes_line W.contents self.old).calls_left result piece.now }
        ensures calls { (writes_line W.contents self.new).calls_left
            ≡ (writes_line W.contents self.old).calls_left - 1 }
        ensures spent { (writes_line W.contents self.old).calls_left ≡ 0 → result ≡ None }
        ensures silent { 0 < (writes_line W.contents self.new).faults
            → (writes_line W.contents self.new).told ≡ None }
        // The writer itself reports what it holds, after a fault too.
        ensures inner { MatchOption result
            (Keeps (W.contents (inner_writer self.old)) (W.contents (inner_writer self.new)))
            (λ n. Appends (W.contents (inner_writer self.old)) (W.contents (inner_writer self.new))
            (take n piece.now)) }
    {
        if self.calls == 0 {
            return None;
        }
        self.calls -= 1;
        match self.inner.write(piece) {
            Ok(n) => {
                if n == 0 && !piece.is_empty() {
                    self.faults += 1;
                }
                Some(n)
            }
            Err(_) => {
                self.faults += 1;
                None
            }
        }
    }
}
