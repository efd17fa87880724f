//! Stretches that are read where they lie.
use crate::answers::show_answer;
use crate::linked::Line;
use link::read_in_place_with_sentinel;
use postcard::Deserialize;
use replay::{Findings, Shown, Trouble};

/// Compares the answers to stretch after stretch, each with the count of bytes that are left.
pub(crate) fn compare_in_place<'a, T: Deserialize<&'a [u8]> + Shown>(
    line: Line<'_>,
    room: &'a mut [u8],
    findings: &mut Findings,
) -> Result<(), Trouble> {
    let mut text = String::new(line.alloc);
    read_all::<T>(line, room, &mut text)?;
    if text.is_empty() {
        text.push('-')?;
    }
    findings.compare("read_in_place", text.as_str(), line.wanted)?;
    Ok(())
}

/// Reads stretches until none is left. Each takes a byte at least.
fn read_all<'a, T: Deserialize<&'a [u8]> + Shown>(
    line: Line<'_>,
    room: &'a mut [u8],
    text: &mut String,
) -> Result<(), Trouble> {
    let mut rest = room;
    for turn in 0..=line.given.len() {
        let Some((answer, after)) = read_in_place_with_sentinel::<T>(
            line.alloc,
            rest,
            line.sentinel,
        ) else {
            break;
        };
        let Ok(answer) = answer else {
            return Err(Trouble::NoMemory);
        };
        if turn > 0 {
            text.push(';')?;
        }
        show_answer(&answer, text)?;
        let count = after.len();
        write!(text, "+{count}")?;
        rest = after;
    }
    Ok(())
}
