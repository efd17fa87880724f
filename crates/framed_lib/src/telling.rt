//! Results that are written as they come.
ghost use Rattle.std.specs.Prelude.{◌≡◌, ◌⊎◌, ◌&&◌, [], ◌∷◌, ◌++◌, false, true, OnOk, OnErr};
ghost use Rattle.line_io.specs.Transfers.{whole, broken};
ghost use Rattle.framed_lib.specs.Output.{Puts, WritingByFew};
ghost use Rattle.framed_lib.specs.Lines.{answer_line, has_value};
ghost use Rattle.framed_lib.specs.Telling.{PutsLines, Tells, IsSettled, tells_laws};

use crate::lines::{is_value, put_answer};
use crate::output::Held;
use line_io::{Outlet, WriteFault, write_all};
use link::{Answer, Hearer};

/// Writes a line for each result. After a write failed, nothing more is written.
#[derive(Drop)]
pub struct Telling<W> {
    pub writer: W,
    /// The lines that aren't written yet.
    pub held: Held,
    /// Whether the lines of each read are written at its end, and a failed write ends the reading.
    pub live: bool,
    /// Whether a write failed.
    pub failed: bool,
    /// Whether all results were values.
    pub good: bool,
}

/// Writes what is held; nothing is held then.
fn flush<W: Outlet>(writer: &mut W, held: &mut Held) -> Result<(), WriteFault>
    ensures ok { OnOk result
        (Puts (W.line writer.old) (W.line writer.new) held.old.items held.new.items []) }
    ensures empty { OnOk result (held.new.items ≡ []) }
    ensures err { OnErr result (WritingByFew (W.line writer.old) (W.line writer.new) broken
        (held.old.items ++ [])) }
{
    write_all(writer, held.as_slice())?;
    held.clear();
    Ok(())
}

/// Writes what is held, unless a write failed before.
pub fn write_rest<W: Outlet>(writer: &mut W, failed: bool, held: &Held) -> Result<(), WriteFault>
    ensures ok { OnOk result ((failed ≡ false)
        × WritingByFew (W.line writer.old) (W.line writer.new) whole held.now.items) }
    ensures err { OnErr result (((failed ≡ true) × (writer.new ≡ writer.old))
        ⊎ ((failed ≡ false)
        × WritingByFew (W.line writer.old) (W.line writer.new) broken held.now.items)) }
{
    if failed {
        return Err(WriteFault);
    }
    write_all(writer, held.as_slice())
}

impl<W: Outlet> Telling<W> {
    /// Writes the line of a result.
    fn tell(&mut self, answer: &Answer<String>)
        ensures { PutsLines W.line self.old self.new
            (answer_line answer.now) (has_value answer.now) }
    {
        if !is_value(answer) {
            self.good = false;
        }
        if self.failed {
            return;
        }
        if put_answer(&mut self.writer, &mut self.held, answer).is_err() {
            self.failed = true;
        }
    }
}

impl<W: Outlet> Hearer<String> for Telling<W> {
    ghost hears = { λ old answers new. Tells W.line old answers new };

    ghost laws = { tells_laws W.line };

    ghost enough = { λ t. t.failed && t.live };

    ghost settled = { IsSettled };

    fn hear(&mut self, answer: Answer<String>)
        ensures { Tells W.line self.old (answer ∷ []) self.new }
    {
        self.tell(&answer);
    }

    fn pause(&mut self)
        ensures heard { PutsLines W.line self.old self.new [] true }
        ensures settles { IsSettled self.new }
    {
        if !self.live {
            return;
        }
        if self.failed {
            return;
        }
        if flush(&mut self.writer, &mut self.held).is_err() {
            self.failed = true;
        }
    }

    fn has_enough(&self) -> bool
        ensures { result ≡ (self.now.failed && self.now.live) }
    {
        self.failed & self.live
    }
}
