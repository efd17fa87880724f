//! The mode `read`: frames or messages as lines.
use crate::devices::{Digits, ROOM, read_some, read_whole, say};
use crate::failure::{CLOCK_FAULT, Failure, of_read};
use help::{Progress, wants_colour};
use std::io::{BufRead, BufReader};
use std::time::Instant;
use wire_lib::raw::put_message;
use wire_lib::receive::{LinesOfFrames, Reading};
use wire_lib::shown::Shown;
use wire_lib::words::Options;

/// Lines to be written, and which of them are shown.
#[derive(Drop)]
struct Lines {
    shown: Shown,
    /// Whether all lines are shown unchanged.
    is_plain: bool,
    /// When the program began, if lines have the time.
    begin: Option<Instant>,
    /// Lines that aren't written yet, and a buffer for those that are shown.
    lines: Vec<u8>,
    out: Vec<u8>,
}

impl Lines {
    /// No lines. The time begins now.
    fn new(rt: &HostRuntime, options: Options<'_>) -> Result<Lines, Failure> {
        let begin = if options.time {
            match Instant::now(rt) {
                Ok(begin) => Some(begin),
                Err(_) => return Err(CLOCK_FAULT),
            }
        } else {
            None
        };
        let colour = wants_colour(rt);
        Ok(Lines {
            shown: Shown::new(rt.alloc(), options.only, colour)?,
            is_plain: !options.time && options.only.is_none() && !colour,
            begin,
            lines: Vec::new(rt.alloc()),
            out: Vec::new(rt.alloc()),
        })
    }

    /// The time in milliseconds, if lines have it.
    fn time(&self, rt: &HostRuntime) -> Result<Option<u64>, Failure> {
        let Some(begin) = &self.begin else {
            return Ok(None);
        };
        match begin.elapsed(rt) {
            Ok(time) => Ok(Some(u64::try_from(time.as_millis()).unwrap_or(u64::MAX))),
            Err(_) => Err(CLOCK_FAULT),
        }
    }

    /// Writes the lines, and clears them; out of memory those that could be shown.
    fn write(&mut self, rt: &HostRuntime) -> Result<(), Failure> {
        if self.is_plain {
            say(rt, &self.lines)?;
        } else {
            let time = self.time(rt)?;
            let put = self.shown.put(&self.lines, time, &mut self.out);
            say(rt, &self.out)?;
            self.out.clear();
            put?;
        }
        self.lines.clear();
        Ok(())
    }
}

/// Passes bytes on, and writes their lines; out of memory those before what found none.
fn receive(
    rt: &HostRuntime,
    receiver: &mut LinesOfFrames<'_>,
    bytes: &[u8],
    lines: &mut Lines,
) -> Result<(), Failure> {
    let pushed = receiver.push(bytes, &mut lines.lines);
    lines.write(rt)?;
    Ok(pushed?)
}

/// Passes bytes on as they come, writes the lines of each read at its end, and counts the bytes as progress.
fn receive_bytes(
    rt: &HostRuntime,
    receiver: &mut LinesOfFrames<'_>,
    lines: &mut Lines,
    progress: &mut Progress,
) -> Result<(), Failure> {
    let mut room = [0u8; ROOM];
    for _ in 0..u64::MAX {
        let count = read_some(rt, &mut room)?;
        if count == 0 {
            break;
        }
        receive(rt, receiver, room.get(..count).unwrap_or(&[]), lines)?;
        progress.step(rt, count as u64);
    }
    Ok(())
}

/// Does the same with the bytes of hexadecimal text.
fn receive_digits(
    rt: &HostRuntime,
    receiver: &mut LinesOfFrames<'_>,
    lines: &mut Lines,
    progress: &mut Progress,
) -> Result<(), Failure> {
    let mut room = [0u8; ROOM];
    let mut digits = Digits::new(rt);
    for _ in 0..u64::MAX {
        let count = read_some(rt, &mut room)?;
        if count == 0 {
            break;
        }
        digits.push(room.get(..count).unwrap_or(&[]))?;
        receive(rt, receiver, digits.bytes(), lines)?;
        digits.check(rt)?;
        progress.step(rt, count as u64);
    }
    digits.finish(rt)
}

/// Writes a line for each frame.
fn read_frames(
    rt: &HostRuntime,
    reading: Reading<'_>,
    options: Options<'_>,
    lines: &mut Lines,
) -> Result<bool, Failure> {
    let mut receiver = LinesOfFrames::new(reading, options.from)?;
    let mut progress = Progress::new(rt);
    let received = if options.hex {
        receive_digits(rt, &mut receiver, lines, &mut progress)
    } else {
        receive_bytes(rt, &mut receiver, lines, &mut progress)
    };
    progress.end(rt);
    received?;
    let is_good = receiver.finish(&mut lines.lines)?;
    lines.write(rt)?;
    Ok(is_good)
}

/// Writes a line for each message as it comes; each line of hexadecimal text is one.
fn read_lines(rt: &HostRuntime, reading: Reading<'_>, lines: &mut Lines) -> Result<bool, Failure> {
    let mut input = BufReader::with_capacity(rt.alloc(), ROOM, rt.reader()).map_err(of_read)?;
    let mut digits = Digits::new(rt);
    let mut line = Vec::new(rt.alloc());
    let mut value = Vec::new(rt.alloc());
    let mut is_good = true;
    for _ in 0..u64::MAX {
        line.clear();
        if input.read_until(b'\n', &mut line).map_err(of_read)? == 0 {
            break;
        }
        digits.push(&line)?;
        digits.finish(rt)?;
        is_good &= put_message(reading, digits.bytes(), &mut value, &mut lines.lines)?;
        lines.write(rt)?;
    }
    Ok(is_good)
}

/// Writes a line for the message that standard input is, or with `hex` for each of its lines.
fn read_messages(
    rt: &HostRuntime,
    reading: Reading<'_>,
    hex: bool,
    lines: &mut Lines,
) -> Result<bool, Failure> {
    if hex {
        return read_lines(rt, reading, lines);
    }
    let message = read_whole(rt)?;
    let mut value = Vec::new(rt.alloc());
    let is_good = put_message(reading, &message, &mut value, &mut lines.lines)?;
    lines.write(rt)?;
    Ok(is_good)
}

/// Writes a line for each frame or message, and returns whether all were values.
pub fn read(rt: &HostRuntime, reading: Reading<'_>, options: Options<'_>) -> Result<bool, Failure> {
    let mut lines = Lines::new(rt, options)?;
    if options.raw {
        return read_messages(rt, reading, options.hex, &mut lines);
    }
    read_frames(rt, reading, options, &mut lines)
}
