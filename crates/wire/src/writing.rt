//! The mode `write`: lines as frames or messages.
ghost use Rattle.std.specs.Prelude.{◌≡◌, ◌⊎◌, ◌∷◌, ◌++◌, [], ℕ, List};

use crate::devices::{ROOM, read_some, read_whole, say, say_wrongs};
use crate::failure::{Failure, of_read, wrong};
use std::io::{BufRead, BufReader};
use wire_json::wrong::{ParseError, put_wrong};
use wire_lib::raw::message_of;
use wire_lib::send::{FramesOfLines, Sending};
use wire_lib::words::Options;

/// Writes bytes, unchanged or as hexadecimal text, and clears them.
fn put(rt: &HostRuntime, hex: bool, bytes: &mut Vec<u8>) -> Result<(), Failure> {
    if hex {
        let digits = hex::encode(rt.alloc(), bytes.as_slice())?;
        say(rt, digits.as_bytes())?;
    } else {
        say(rt, bytes)?;
    }
    bytes.clear();
    Ok(())
}

/// Writes frames of lines as they come, those of each read at its end.
fn send_reads(
    rt: &HostRuntime,
    sender: &mut FramesOfLines<'_>,
    hex: bool,
    frames: &mut Vec<u8>,
    wrongs: &mut String,
) -> Result<(), Failure> {
    let mut room = [0u8; ROOM];
    for _ in 0..u64::MAX {
        let count = read_some(rt, &mut room)?;
        if count == 0 {
            break;
        }
        let pushed = sender.push(room.get(..count).unwrap_or(&[]), frames, wrongs);
        put(rt, hex, frames)?;
        say_wrongs(rt, wrongs)?;
        pushed?;
    }
    Ok(())
}

/// Writes a frame for each line, a sentinel first, and returns whether all lines were values.
fn write_frames(rt: &HostRuntime, sending: Sending<'_>, hex: bool) -> Result<bool, Failure> {
    let mut frames = Vec::from_elem(rt.alloc(), sending.sentinel, 1)?;
    let mut wrongs = String::new(rt.alloc());
    put(rt, hex, &mut frames)?;
    let mut sender = FramesOfLines::new(sending);
    send_reads(rt, &mut sender, hex, &mut frames, &mut wrongs)?;
    let finished = sender.finish(&mut frames, &mut wrongs);
    put(rt, hex, &mut frames)?;
    say_wrongs(rt, &mut wrongs)?;
    let is_good = finished?;
    if hex {
        say(rt, b"\n")?;
    }
    Ok(is_good)
}

/// Writes the message of a line, or what is wrong with the line, and returns whether it is a value. After digits a line feed follows.
fn write_message(
    rt: &HostRuntime,
    sending: Sending<'_>,
    hex: bool,
    number: u64,
    line: &[u8],
) -> Result<bool, Failure> {
    let mut wrongs = String::new(rt.alloc());
    match message_of(sending, line) {
        Ok(mut message) => {
            put(rt, hex, &mut message)?;
            if hex {
                say(rt, b"\n")?;
            }
            Ok(true)
        }
        Err(ParseError::Wrong(why)) => {
            put_wrong(&mut wrongs, number, &why)?;
            say_wrongs(rt, &mut wrongs)?;
            Ok(false)
        }
        Err(ParseError::OutOfMemory) => Err(Failure::NoMemory),
    }
}

/// A line without the line feed that ends it.
fn without_feed(line: &[u8]) -> &[u8]
    ensures ended { (front : List ℕ) → line.now ≡ front ++ 10 ∷ [] → result.now ≡ front }
    ensures is { (line.now ≡ result.now ++ 10 ∷ []) ⊎ (result.now ≡ line.now) }
{
    match line {
        [front @ .., b'\n'] => front,
        _ => line,
    }
}

/// A line without the carriage return that ends it.
fn without_return(line: &[u8]) -> &[u8]
    ensures ended { (front : List ℕ) → line.now ≡ front ++ 13 ∷ [] → result.now ≡ front }
    ensures is { (line.now ≡ result.now ++ 13 ∷ []) ⊎ (result.now ≡ line.now) }
{
    match line {
        [front @ .., b'\r'] => front,
        _ => line,
    }
}

/// Writes a line of digits for the message of each line as it comes, and returns whether all were values.
fn write_lines(rt: &HostRuntime, sending: Sending<'_>) -> Result<bool, Failure> {
    let mut input = BufReader::with_capacity(rt.alloc(), ROOM, rt.reader()).map_err(of_read)?;
    let mut line = Vec::new(rt.alloc());
    let mut is_good = true;
    let mut number: u64 = 0;
    for _ in 0..u64::MAX {
        line.clear();
        if input.read_until(b'\n', &mut line).map_err(of_read)? == 0 {
            break;
        }
        number = number.saturating_add(1);
        let text = without_return(without_feed(&line));
        is_good &= write_message(rt, sending, true, number, text)?;
    }
    Ok(is_good)
}

/// Writes the message of the only line of standard input, and returns whether it was a value.
fn write_one(rt: &HostRuntime, sending: Sending<'_>) -> Result<bool, Failure> {
    let whole = read_whole(rt)?;
    if let Ok(text) = str::from_utf8(&whole)
        && text.lines().count() != 1
    {
        return Err(wrong(
            rt,
            &["`raw` without `hex` makes one message: standard input has to be one line\n"],
        ));
    }
    write_message(rt, sending, false, 1, without_return(without_feed(&whole)))
}

/// Writes a message for each line; without `hex` only one line is allowed.
fn write_messages(rt: &HostRuntime, sending: Sending<'_>, hex: bool) -> Result<bool, Failure> {
    if hex {
        return write_lines(rt, sending);
    }
    write_one(rt, sending)
}

/// Writes a frame or a message for each line, and returns whether all were values.
pub fn write(
    rt: &HostRuntime,
    sending: Sending<'_>,
    options: Options<'_>,
) -> Result<bool, Failure> {
    if options.raw {
        return write_messages(rt, sending, options.hex);
    }
    write_frames(rt, sending, options.hex)
}
