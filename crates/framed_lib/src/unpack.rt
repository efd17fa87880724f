ghost use Rattle.std.specs.Prelude.{◌≡◌, ℕ, ◌+◌, ◌≤◌, List, true, false, None, Some, IsErr};
ghost use Rattle.line_io.specs.declared.transfers.End.TheVariants.{ReadFault};
ghost use Rattle.link.specs.Each.{HasReadNow, UsesFew, last_call};
ghost use Rattle.framed_lib.specs.Output.{WritingByFew};
ghost use Rattle.framed_lib.specs.Live.{AnswersLive};
ghost use Rattle.framed_lib.specs.Working.{Worked, TellsAnswers, outcome_of};

use crate::answers::hand_texts;
use crate::decoding::decode_hex;
use crate::stop::{Stop, status_of};
use crate::telling::{Telling, write_rest};
use crate::whole::Whole;
use arrayvec::ArrayVec;
use line_io::{End, Inlet, Outlet, WriteFault, read_to_end, write_all};
use std::alloc::Global;

/// How the work ends, by how the reception ended, whether its lines were written, and whether all results are values. A reception that
/// a failed write ended has no end of its own.
fn outcome(end: Option<End>, written: Result<(), WriteFault>, good: bool) -> Result<u8, Stop>
    ensures { result ≡ outcome_of end written good }
{
    match written {
        Ok(()) => match end {
            Some(End::Ended) => Ok(status_of(good)),
            Some(End::ReadFault) => Err(Stop::ReadFault),
            Some(End::NoMemory) => Err(Stop::NoMemory),
            None => Err(Stop::WriteFault),
        },
        Err(_) => Err(Stop::WriteFault),
    }
}

/// What writing the lines of results leaves.
#[derive(Drop)]
struct Told<W> {
    writer: W,
    /// How the reading ended; `None` if a failed write ended it.
    end: Option<End>,
    /// Whether the lines were written.
    written: Result<(), WriteFault>,
    /// Whether all results are values.
    good: bool,
}

/// Writes the lines of the results of everything that a reader gives. Live, those of each read are written at its end by one write, and a
/// failed write ends the reading; else they may wait, and the reading goes to its end.
fn tell_answers<R: Inlet, W: Outlet>(
    alloc: Global,
    strict: bool,
    sentinel: u8,
    live: bool,
    reader: &mut R,
    writer: W,
) -> Told<W>
    ensures told { (bytes : List ℕ)
        × HasReadNow (R.line reader.old) (R.line reader.new) result.end bytes
        × TellsAnswers strict sentinel result.end bytes result.good result.written
        (WritingByFew (W.line writer) (W.line result.writer)) }
    ensures stopped { result.end ≡ None → (live ≡ true) × IsErr result.written }
    ensures first { live ≡ true → result.end ≡ Some ReadFault → IsErr result.written → ⊥ }
    ensures live { live ≡ true → AnswersLive W.line strict sentinel
        (R.line reader.old, writer) (R.line reader.new, result.writer) }
    ensures once { (R.line reader.new).faults ≤ (R.line reader.old).faults + 1 }
    ensures few { UsesFew (R.line reader.old) (R.line reader.new) (last_call result.end) }
{
    let mut telling = Telling {
        writer,
        held: ArrayVec::new(),
        live,
        failed: false,
        good: true,
    };
    let end = hand_texts(alloc, strict, sentinel, reader, &mut telling);
    let Telling {
        mut writer,
        held,
        live: _,
        failed,
        good,
    } = telling;
    let written = write_rest(&mut writer, failed, &held);
    Told {
        writer,
        end,
        written,
        good,
    }
}

/// Reads a text of digits to its end, and writes the lines of the results of its bytes, once 64 KiB of lines are held. A failed write
/// doesn't end the reading of what is in memory, so the writer has a prefix of all lines.
fn unpack_hex<R: Inlet, W: Outlet, E: Outlet>(
    alloc: Global,
    strict: bool,
    sentinel: u8,
    reader: &mut R,
    writer: W,
    faults: &mut E,
) -> (W, Result<u8, Stop>)
    ensures worked { Worked (Some strict) true sentinel
        (HasReadNow (R.line reader.old) (R.line reader.new))
        (WritingByFew (W.line writer) (W.line result.0))
        (WritingByFew (E.line faults.old) (E.line faults.new)) result.1 }
    ensures calls { UsesFew (R.line reader.old) (R.line reader.new) 1 }
    ensures once { (R.line reader.new).faults ≤ (R.line reader.old).faults + 1 }
{
    let mut text = Vec::new(alloc);
    match read_to_end(reader, &mut text) {
        End::Ended => {}
        End::ReadFault => return (writer, Err(Stop::ReadFault)),
        End::NoMemory => return (writer, Err(Stop::NoMemory)),
    }
    if !decode_hex(&mut text) {
        let Ok(()) = write_all(faults, b"bad hex\n") else {
            return (writer, Err(Stop::SayingFault));
        };
        return (writer, Ok(2));
    }
    let mut device = Whole::new(&text);
    let told = tell_answers(alloc, strict, sentinel, false, &mut device, writer);
    (told.writer, outcome(told.end, told.written, told.good))
}

/// Writes the lines of the results of framed bytes, those of each read at its end, until a write fails; or, with `hex`, of the bytes that
/// the digits of a text encode.
pub fn unpack<R: Inlet, W: Outlet, E: Outlet>(
    alloc: Global,
    strict: bool,
    hex: bool,
    sentinel: u8,
    reader: &mut R,
    writer: W,
    faults: &mut E,
) -> (W, Result<u8, Stop>)
    ensures worked { Worked (Some strict) hex sentinel
        (HasReadNow (R.line reader.old) (R.line reader.new))
        (WritingByFew (W.line writer) (W.line result.0))
        (WritingByFew (E.line faults.old) (E.line faults.new)) result.1 }
    ensures live { hex ≡ false → AnswersLive W.line strict sentinel
        (R.line reader.old, writer) (R.line reader.new, result.0) }
    ensures calls { UsesFew (R.line reader.old) (R.line reader.new) 1 }
    ensures once { (R.line reader.new).faults ≤ (R.line reader.old).faults + 1 }
{
    if hex {
        return unpack_hex(alloc, strict, sentinel, reader, writer, faults);
    }
    let told = tell_answers(alloc, strict, sentinel, true, reader, writer);
    (told.writer, outcome(told.end, told.written, told.good))
}
