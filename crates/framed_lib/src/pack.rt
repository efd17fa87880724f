ghost use Rattle.std.specs.Prelude.{ℕ, ◌+◌, ◌≤◌, false, List, None, OnOk, OnErr, IsTrue, IsUtf8};
ghost use Rattle.line_io.specs.Transfers.{whole, broken};
ghost use Rattle.link.specs.Each.{HasReadNow, UsesFew};
ghost use Rattle.link.specs.Run.{Send, session_line};
ghost use Rattle.framed_lib.specs.Output.{WritingByFew};
ghost use Rattle.framed_lib.specs.Program.{framed_text};
ghost use Rattle.framed_lib.specs.Sending.{lines_in, AreSendsOf};
ghost use Rattle.framed_lib.specs.Working.{Worked};

use crate::digits::put_end;
use crate::framing::{MOST, show_line};
use crate::output::{ROOM, make_place};
use crate::pieces::next_line;
use crate::refusals::say_refusals;
use crate::stop::{Stop, status_of};
use line_io::{End, Inlet, Outlet, WriteFault, read_to_end, write_all};
use simdutf8::basic;
use std::alloc::Global;

/// Writes what one sender writes for all lines of the text.
///
/// Frames are made one after another in the output buffer of 65536 bytes, which is written once fewer than 2053 are left: the digits of
/// the longest frame, and a line feed. A `Sender` over memory would copy once more, and by its contract could fail.
fn write_frames<W: Outlet>(
    hex: bool,
    sentinel: u8,
    text: &[u8],
    is_text: bool,
    writer: &mut W,
) -> Result<(), WriteFault>
    requires { IsTrue is_text → IsUtf8 text.now }
    ensures ok { OnOk result ((sends : List Send) → AreSendsOf (lines_in text.now) sends
        → WritingByFew (W.line writer.old) (W.line writer.new) whole
        (framed_text hex (session_line sentinel false sends))) }
    ensures err { OnErr result ((sends : List Send) → AreSendsOf (lines_in text.now) sends
        → WritingByFew (W.line writer.old) (W.line writer.new) broken
        (framed_text hex (session_line sentinel false sends))) }
{
    let mut room = [0u8; ROOM];
    let mut frame = [0u8; MOST];
    let mut held = 0;
    let mut clean = false;
    let mut rest = text;
    while let Some((line, after)) = next_line(rest) {
        let place = &mut room[held..];
        let count = show_line(hex, sentinel, line, is_text, clean, &mut frame, place);
        let kept = make_place(writer, &room, held + count)?;
        held = kept;
        clean = clean | (count > 0);
        rest = after;
    }
    let count = put_end(hex, &mut room[held..]);
    write_all(writer, &room[..held + count])
}

/// Reads a text to its end, reports which of its lines are refused, and then sends the others.
///
/// If standard error fails at a refusal, nothing is written. A text that is UTF-8 as a whole is checked once, by `simdutf8`. In another
/// text a line is checked when it is judged, and again when it is framed.
pub fn pack<R: Inlet, W: Outlet, E: Outlet>(
    alloc: Global,
    hex: bool,
    sentinel: u8,
    reader: &mut R,
    writer: &mut W,
    faults: &mut E,
) -> Result<u8, Stop>
    ensures worked { Worked None hex sentinel (HasReadNow (R.line reader.old) (R.line reader.new))
        (WritingByFew (W.line writer.old) (W.line writer.new))
        (WritingByFew (E.line faults.old) (E.line faults.new)) result }
    ensures calls { UsesFew (R.line reader.old) (R.line reader.new) 1 }
    ensures once { (R.line reader.new).faults ≤ (R.line reader.old).faults + 1 }
{
    let mut text = Vec::new(alloc);
    match read_to_end(reader, &mut text) {
        End::Ended => {}
        End::ReadFault => return Err(Stop::ReadFault),
        End::NoMemory => return Err(Stop::NoMemory),
    }
    let is_text = basic::from_utf8(&text).is_ok();
    let good = match say_refusals(&text, is_text, faults) {
        Ok(good) => good,
        Err(_) => return Err(Stop::SayingFault),
    };
    let Ok(()) = write_frames(hex, sentinel, &text, is_text, writer) else {
        return Err(Stop::WriteFault);
    };
    Ok(status_of(good))
}
