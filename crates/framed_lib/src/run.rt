ghost use Rattle.std.specs.Prelude.{◌≡◌, ◌+◌, ◌≤◌, Bool, Some, false};
ghost use Rattle.link.specs.Each.{HasReadNow, UsesFew};
ghost use Rattle.framed_lib.specs.Output.{WritingByFew};
ghost use Rattle.framed_lib.specs.Live.{AnswersLive};
ghost use Rattle.framed_lib.specs.Program.{RunEnds, unpacking};
ghost use Rattle.framed_lib.specs.Working.{Worked, SaysLast, Reports};

use crate::arguments::Mode;
use crate::pack::pack;
use crate::stop::Stop;
use crate::unpack::unpack;
use line_io::{Inlet, Outlet, write_all};
use std::alloc::Global;

/// The status and the devices of a run.
#[derive(Drop)]
pub struct Ran<R, W, E> {
    /// The status that the program ends with, from 0 to 4.
    pub status: u8,
    /// The reader, after this run's reads.
    pub reader: R,
    /// The writer, after this run's writes.
    pub writer: W,
    /// Standard error, after what this run reported.
    pub faults: E,
}

/// Does the work of the program, and returns its status and the devices: reads a text to its end, writes what the mode makes of it, and
/// reports on `faults` what went wrong.
///
/// - `Mode::Pack` sends each line as text, as one sender does. It reports `line K: refused` for a line that isn't UTF-8 or whose frame is
///   longer than 1024 bytes, before the frames are written.
/// - `Mode::Unpack` writes a line for each result: `value` and the text, with a backslash as `\\` and a line feed as `\n`; `damaged`;
///   `too long`, for more than 1024 bytes; or `cut`.
/// - `Mode::Strict` does the same, but a stretch that isn't exactly what sending its text writes is `damaged`.
///
/// With `hex` the framed side is hexadecimal text, written in lower case. A sentinel is on each side of a frame, whose bytes are XORed with
/// it. Unpacking bytes, a run has written the lines of everything before the last read, of at most 1024 bytes, before it makes that read.
/// It makes at most one call of the reader a byte, and one that ends the reading; of a writer at most one for each byte that is to be
/// written. No call of a device follows one that failed.
///
/// # Errors
/// The status is 0; 1 if a line was refused or a result isn't a value; 2 if the text isn't hexadecimal; 3 if a device failed; 4 if out of
/// memory. Statuses 2 to 4 end the run, and the last line on `faults` says why.
///
/// # Allocates
/// The whole text in `Pack` and with `hex`; else a `String` for each value.
pub fn run<R: Inlet, W: Outlet, E: Outlet>(
    alloc: Global,
    mode: Mode,
    hex: bool,
    sentinel: u8,
    mut reader: R,
    writer: W,
    mut faults: E,
) -> Ran<R, W, E>
    ensures ends { RunEnds (unpacking mode) hex sentinel
        (HasReadNow (R.line reader) (R.line result.reader))
        (WritingByFew (W.line writer) (W.line result.writer))
        result.status (WritingByFew (E.line faults) (E.line result.faults)) }
    ensures live { (strict : Bool) → unpacking mode ≡ Some strict → hex ≡ false
        → AnswersLive W.line strict sentinel
        (R.line reader, writer) (R.line result.reader, result.writer) }
    ensures calls { UsesFew (R.line reader) (R.line result.reader) 1 }
    ensures once { (R.line result.reader).faults ≤ (R.line reader).faults + 1 }
{
    let (writer, worked) = work(alloc, mode, hex, sentinel, &mut reader, writer, &mut faults);
    let status = report(&mut faults, worked);
    Ran {
        status,
        reader,
        writer,
        faults,
    }
}

/// Does the work, except for the last line on `faults`.
fn work<R: Inlet, W: Outlet, E: Outlet>(
    alloc: Global,
    mode: Mode,
    hex: bool,
    sentinel: u8,
    reader: &mut R,
    writer: W,
    faults: &mut E,
) -> (W, Result<u8, Stop>)
    ensures worked { Worked (unpacking mode) hex sentinel
        (HasReadNow (R.line reader.old) (R.line reader.new))
        (WritingByFew (W.line writer) (W.line result.0))
        (WritingByFew (E.line faults.old) (E.line faults.new)) result.1 }
    ensures live { (strict : Bool) → unpacking mode ≡ Some strict → hex ≡ false
        → AnswersLive W.line strict sentinel
        (R.line reader.old, writer) (R.line reader.new, result.0) }
    ensures calls { UsesFew (R.line reader.old) (R.line reader.new) 1 }
    ensures once { (R.line reader.new).faults ≤ (R.line reader.old).faults + 1 }
{
    match mode {
        Mode::Pack => {
            let mut writer = writer;
            let worked = pack(alloc, hex, sentinel, reader, &mut writer, faults);
            (writer, worked)
        }
        Mode::Unpack => unpack(alloc, false, hex, sentinel, reader, writer, faults),
        Mode::Strict => unpack(alloc, true, hex, sentinel, reader, writer, faults),
    }
}

/// Reports why the work ended early, and returns the status.
fn report<E: Outlet>(faults: &mut E, worked: Result<u8, Stop>) -> u8
    ensures { Reports (E.line faults.old) (E.line faults.new) worked result }
{
    match worked {
        Ok(status) => status,
        Err(Stop::ReadFault) => say_last(faults, b"read failed\n", 3),
        Err(Stop::WriteFault) => say_last(faults, b"write failed\n", 3),
        Err(Stop::SayingFault) => 3,
        Err(Stop::NoMemory) => say_last(faults, b"no memory\n", 4),
    }
}

/// Reports the last line, and returns the status.
fn say_last<E: Outlet>(faults: &mut E, line: &[u8], status: u8) -> u8
    ensures { SaysLast (E.line faults.old) (E.line faults.new) line.now status result }
{
    match write_all(faults, line) {
        Ok(()) => status,
        Err(_) => 3,
    }
}
