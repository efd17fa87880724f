ghost use Rattle.std.specs.Prelude.{◌≡◌, ℕ, ◌<◌, List, [], ◌++◌, IfOk, OnOk, OnErr, IsTrue, IsUtf8};
ghost use Rattle.line_io.specs.Transfers.{whole, broken};
ghost use Rattle.framed_lib.specs.Output.{Puts, WritingByFew};
ghost use Rattle.link.specs.Run.{Send};
ghost use Rattle.std.specs.List.{list_all};
ghost use Rattle.framed_lib.specs.Program.{SaysFirst};
ghost use Rattle.framed_lib.specs.Sending.{lines_in, IsSendOfLine, AreSendsOf, is_whole, refusal, refusals, said_of};

use crate::framing::is_sendable;
use crate::output::{Held, put};
use crate::pieces::next_line;
use arrayvec::ArrayVec;
use itoa::Buffer;
use line_io::{Outlet, WriteFault, write_all};

/// Reports that the line with this number is refused, by `itoa`, whose contract gives the digits.
fn refuse<E: Outlet>(faults: &mut E, held: &mut Held, number: usize) -> Result<(), WriteFault>
    ensures ok { OnOk result (Puts (E.line faults.old) (E.line faults.new)
        held.old.items held.new.items (refusal number)) }
    ensures err { OnErr result (WritingByFew (E.line faults.old) (E.line faults.new) broken
        (held.old.items ++ refusal number)) }
{
    put(faults, held, b"line ")?;
    put(faults, held, Buffer::new().format(number).as_bytes())?;
    put(faults, held, b": refused\n")
}

/// Reports the line with this number if it is refused, and returns whether it isn't.
fn judge_line<E: Outlet>(
    line: &[u8],
    is_text: bool,
    number: usize,
    faults: &mut E,
    held: &mut Held,
) -> Result<bool, WriteFault>
    requires { IsTrue is_text → IsUtf8 line.now }
    ensures ok { IfOk result (λ sendable. (x : Send) × IsSendOfLine line.now x
        × (sendable ≡ is_whole x)
        × Puts (E.line faults.old) (E.line faults.new) held.old.items held.new.items
        (said_of number x)) }
    ensures err { OnErr result ((x : Send) × IsSendOfLine line.now x
        × WritingByFew (E.line faults.old) (E.line faults.new) broken
        (held.old.items ++ said_of number x)) }
{
    if is_sendable(line, is_text) {
        return Ok(true);
    }
    refuse(faults, held, number)?;
    Ok(false)
}

/// Reports which lines of the text are refused, and returns whether none is.
fn judge_lines<E: Outlet>(
    text: &[u8],
    is_text: bool,
    faults: &mut E,
    held: &mut Held,
) -> Result<bool, WriteFault>
    requires text { IsTrue is_text → IsUtf8 text.now }
    requires held { held.old.items ≡ [] }
    ensures ok { IfOk result (λ good. (sends : List Send) × AreSendsOf (lines_in text.now) sends
        × (good ≡ list_all is_whole sends)
        × Puts (E.line faults.old) (E.line faults.new) [] held.new.items (refusals 1 sends)) }
    ensures err { OnErr result ((said : List ℕ) × SaysFirst text.now said
        × WritingByFew (E.line faults.old) (E.line faults.new) broken said) }
{
    let mut rest = text;
    let mut lines = 0;
    let mut good = true;
    while let Some((line, after)) = next_line(rest) {
        let sendable = judge_line(line, is_text, lines + 1, faults, held)?;
        good = good & sendable;
        lines += 1;
        rest = after;
    }
    Ok(good)
}

/// Reports which lines of the text are refused, before any is sent, and returns whether none is. The caller may know that the whole is
/// UTF-8.
pub fn say_refusals<E: Outlet>(
    text: &[u8],
    is_text: bool,
    faults: &mut E,
) -> Result<bool, WriteFault>
    requires { IsTrue is_text → IsUtf8 text.now }
    ensures ok { IfOk result (λ good. (sends : List Send) × AreSendsOf (lines_in text.now) sends
        × (good ≡ list_all is_whole sends)
        × WritingByFew (E.line faults.old) (E.line faults.new) whole (refusals 1 sends)) }
    ensures err { OnErr result ((said : List ℕ) × SaysFirst text.now said
        × WritingByFew (E.line faults.old) (E.line faults.new) broken said) }
{
    let mut held: Held = ArrayVec::new();
    let good = judge_lines(text, is_text, faults, &mut held)?;
    write_all(faults, held.as_slice())?;
    Ok(good)
}
