//! Values that are received by an accumulator.
use crate::answers::need_end;
use crate::linked::Line;
use crate::receiving::{By, receive};
use line_io::Inlet;
use link::{Gathered, receive_by_accumulator_with_sentinel};
use postcard::DeserializeOwned;
use replay::{Findings, Shown, Trouble};
use std::alloc::Global;

/// Compares the values of a stream that comes at once, and of one that comes byte by byte.
pub(crate) fn compare_gathered<T: DeserializeOwned + Shown>(
    line: Line<'_>,
    pieces: &[Vec<u8>],
    findings: &mut Findings,
) -> Result<(), Trouble> {
    for each in [usize::MAX, 1] {
        let answer = receive::<T>(line, By::Accumulator, pieces, each);
        findings.check("receive_by_accumulator", answer, line.wanted)?;
    }
    Ok(())
}

/// The values that an accumulator of so many bytes gives.
pub(crate) fn gather<T: DeserializeOwned + Shown, R: Inlet + Drop>(
    line: Line<'_>,
    reader: R,
) -> Result<String, Trouble> {
    let Line {
        alloc,
        sentinel: s,
        ..
    } = line;
    let gathered = match line.limit {
        8 => receive_by_accumulator_with_sentinel::<T, _, 8>(alloc, reader, s),
        16 => receive_by_accumulator_with_sentinel::<T, _, 16>(alloc, reader, s),
        64 => receive_by_accumulator_with_sentinel::<T, _, 64>(alloc, reader, s),
        512 => receive_by_accumulator_with_sentinel::<T, _, 512>(alloc, reader, s),
        1025 => receive_by_accumulator_with_sentinel::<T, _, 1025>(alloc, reader, s),
        _ => return Err(Trouble::Unreadable),
    };
    show(alloc, gathered)
}

/// The values that were gathered, in the words of a line.
fn show<T: Shown + Drop, R: Drop>(
    alloc: Global,
    gathered: Gathered<T, R>,
) -> Result<String, Trouble> {
    let mut text = String::new(alloc);
    for (i, value) in gathered.values.iter().enumerate() {
        if i > 0 {
            text.push(';')?;
        }
        value.show(&mut text)?;
    }
    if text.is_empty() {
        text.push('-')?;
    }
    need_end(gathered.end, &mut text)?;
    Ok(text)
}
