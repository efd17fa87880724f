//! Streams that rows push to a `Receiver` of one limit for one type. A limit that is a part of a type is compiled anew for each type, so
//! only those pairs are asked that a worked row names.
ghost use Rattle.link.specs.Listening.{ReceiverFitsInMemory};

use crate::linked::Line;
use crate::pushing::{add, name_of_end, show};
use link::Receiver;
use postcard::{DeserializeOwned, Exact};
use replay::{Findings, Shown, Trouble};
use std::alloc::Global;

/// Compares what a receiver of the line's limit answers to the chunks, where it is one that a row names.
pub(crate) fn compare_rows(
    line: Line<'_>,
    is_strict: bool,
    pieces: &[Vec<u8>],
    findings: &mut Findings,
) -> Result<(), Trouble> {
    let name = if is_strict { "push_strict" } else { "push" };
    match push_row(line, is_strict, pieces) {
        Some(answer) => findings.check(name, answer, line.wanted),
        None => Ok(()),
    }
}

/// What is answered; nothing where no row names such a receiver.
fn push_row(
    line: Line<'_>,
    is_strict: bool,
    pieces: &[Vec<u8>],
) -> Option<Result<String, Trouble>> {
    match line.limit {
        0 | 1 => push_small_row(line, is_strict, pieces),
        8 => match line.name {
            "bool" => Some(push_all::<bool, 8>(line, is_strict, pieces)),
            "u16" => Some(push_all::<u16, 8>(line, is_strict, pieces)),
            "u32" => Some(push_all::<u32, 8>(line, is_strict, pieces)),
            "Vec<u8>" => Some(push_all::<Vec<u8>, 8>(line, is_strict, pieces)),
            _ => None,
        },
        256 => match line.name {
            "u16" => Some(push_all::<u16, 256>(line, is_strict, pieces)),
            "char" => Some(push_all::<char, 256>(line, is_strict, pieces)),
            "Vec<u8>" => Some(push_all::<Vec<u8>, 256>(line, is_strict, pieces)),
            _ => None,
        },
        1025 => match line.name {
            "String" => Some(push_all::<String, 1025>(line, is_strict, pieces)),
            _ => None,
        },
        _ => None,
    }
}

/// The same of the two least limits.
fn push_small_row(
    line: Line<'_>,
    is_strict: bool,
    pieces: &[Vec<u8>],
) -> Option<Result<String, Trouble>> {
    match line.name {
        "()" => match line.limit {
            0 => Some(push_all::<(), 0>(line, is_strict, pieces)),
            _ => Some(push_all::<(), 1>(line, is_strict, pieces)),
        },
        "bool" => match line.limit {
            0 => Some(push_all::<bool, 0>(line, is_strict, pieces)),
            _ => Some(push_all::<bool, 1>(line, is_strict, pieces)),
        },
        _ => None,
    }
}

/// What a new receiver of so many bytes answers to the chunks and to the end.
fn push_all<T: DeserializeOwned + Exact + Shown, const N: usize>(
    line: Line<'_>,
    is_strict: bool,
    pieces: &[Vec<u8>],
) -> Result<String, Trouble>
    requires { ReceiverFitsInMemory N.row }
{
    let mut receiver = Receiver::<N>::new_with_sentinel(line.sentinel);
    let mut text = String::new(line.alloc);
    for piece in pieces {
        let answers = push_piece::<T, N>(line.alloc, is_strict, &mut receiver, piece)?;
        text.push_str(answers.as_str())?;
        text.push('|')?;
    }
    text.push_str(name_of_end(receiver.finish::<()>()))?;
    Ok(text)
}

/// What it answers to a chunk, and to each rest until none is left.
fn push_piece<T: DeserializeOwned + Exact + Shown, const N: usize>(
    alloc: Global,
    is_strict: bool,
    receiver: &mut Receiver<N>,
    piece: &[u8],
) -> Result<String, Trouble> {
    let mut text = String::new(alloc);
    let mut rest = piece;
    for turn in 0..=piece.len() {
        if turn > 0 && rest.is_empty() {
            break;
        }
        let mut answer = String::new(alloc);
        let used = if is_strict {
            show(receiver.push_strict::<T>(alloc, rest), &mut answer)?
        } else {
            show(receiver.push::<T>(alloc, rest), &mut answer)?
        };
        rest = rest.get(used..).unwrap_or(&[]);
        if !answer.is_empty() {
            let at = piece.len().saturating_sub(rest.len()).saturating_sub(1);
            add(&mut text, at, answer.as_str())?;
        }
    }
    if text.is_empty() {
        text.push('-')?;
    }
    Ok(text)
}
