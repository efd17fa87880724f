//! Streams that are pushed to a receiver.
ghost use Rattle.std.specs.Mem.{FitsInMemory};
ghost use Rattle.link.specs.contracts.reception.Reception.{the_row};

use crate::answers::show_answer;
use crate::linked::Line;
use crate::named::{Asks, ask_named};
use crate::rows::compare_rows;
use link::{Answer, Decoding, OwnedReceiver, Pushed, Receiver, Reception};
use postcard::{Deserialize, DeserializeOwned, Exact, Serialize};
use replay::{Findings, Shown, Trouble, number_of, pieces_of};
use std::alloc::{AllocError, Global};

/// The call that pushes.
#[derive(Clone, Copy, Drop)]
enum Call {
    Push,
    PushRef,
    PushStrict,
}

/// The name of a call.
fn name_of(call: Call) -> &'static str {
    match call {
        Call::Push => "push",
        Call::PushRef => "push_ref",
        Call::PushStrict => "push_strict",
    }
}

/// Compares what new receivers answer to the chunks, and to each rest again, by each call.
pub(crate) fn compare_pushes(
    line: Line<'_>,
    pieces: &[Vec<u8>],
    is_strict: bool,
    findings: &mut Findings,
) -> Result<(), Trouble> {
    if is_strict {
        return compare_call(line, Call::PushStrict, pieces, findings);
    }
    compare_call(line, Call::Push, pieces, findings)?;
    compare_call(line, Call::PushRef, pieces, findings)
}

/// Compares what an `OwnedReceiver` of the line's limit answers, and what a `Receiver` does: for two of the limits of any type, for
/// others of the types that rows name with them.
fn compare_call(
    line: Line<'_>,
    call: Call,
    pieces: &[Vec<u8>],
    findings: &mut Findings,
) -> Result<(), Trouble> {
    let Ok(receiver) = OwnedReceiver::new(line.alloc, line.limit, line.sentinel) else {
        return Err(Trouble::NoMemory);
    };
    let answer = push_to(line, call, receiver, pieces);
    findings.check(name_of(call), answer, line.wanted)?;
    let answer = match line.limit {
        3 => push_to(
            line,
            call,
            Receiver::<3>::new_with_sentinel(line.sentinel),
            pieces,
        ),
        64 => push_to(
            line,
            call,
            Receiver::<64>::new_with_sentinel(line.sentinel),
            pieces,
        ),
        _ => match call {
            Call::Push => return compare_rows(line, false, pieces, findings),
            Call::PushStrict => return compare_rows(line, true, pieces, findings),
            Call::PushRef => return Ok(()),
        },
    };
    findings.check(name_of(call), answer, line.wanted)
}

/// What a receiver answers to the chunks and to the end.
fn push_to<D: Decoding + Drop>(
    line: Line<'_>,
    call: Call,
    receiver: Reception<D>,
    pieces: &[Vec<u8>],
) -> Result<String, Trouble>
    requires { FitsInMemory (the_row D.row) }
{
    let mut receiver = receiver;
    let mut text = push_pieces(line, call, &mut receiver, pieces)?;
    text.push_str(name_of_end(receiver.finish::<()>()))?;
    Ok(text)
}

/// What a receiver answers to the chunks, each with a bar after it.
fn push_pieces<D: Decoding>(
    line: Line<'_>,
    call: Call,
    receiver: &mut Reception<D>,
    pieces: &[Vec<u8>],
) -> Result<String, Trouble> {
    let mut text = String::new(line.alloc);
    for piece in pieces {
        let answers = push_piece(line, call, receiver, piece)?;
        text.push_str(answers.as_str())?;
        text.push('|')?;
    }
    Ok(text)
}

/// The word for what is answered at the end.
pub(crate) fn name_of_end(answer: Option<Answer<()>>) -> &'static str {
    match answer {
        None => "-",
        Some(Answer::Cut) => "cut",
        Some(_) => "another answer",
    }
}

/// Compares what one receiver answers whose limit is set before each part, by each call.
pub(crate) fn compare_parts(
    line: Line<'_>,
    is_strict: bool,
    findings: &mut Findings,
) -> Result<(), Trouble> {
    if is_strict {
        return findings.check(
            "push_strict",
            push_parts(line, Call::PushStrict),
            line.wanted,
        );
    }
    findings.check("push", push_parts(line, Call::Push), line.wanted)?;
    findings.check("push_ref", push_parts(line, Call::PushRef), line.wanted)
}

/// `LIMIT:PIECE,../LIMIT:PIECE,..`: what one receiver answers to all parts.
fn push_parts(line: Line<'_>, call: Call) -> Result<String, Trouble> {
    let Ok(mut receiver) = OwnedReceiver::new(line.alloc, 0, line.sentinel) else {
        return Err(Trouble::NoMemory);
    };
    let mut text = String::new(line.alloc);
    for part in line.given.split('/') {
        if !text.is_empty() {
            // in place of the bar after the last chunk
            text.pop();
            text.push('/')?;
        }
        let answers = push_part(line, call, &mut receiver, part)?;
        text.push_str(answers.as_str())?;
    }
    text.push_str(name_of_end(receiver.finish::<()>()))?;
    Ok(text)
}

/// `LIMIT:PIECE,..`: sets the limit and pushes the chunks.
fn push_part(
    line: Line<'_>,
    call: Call,
    receiver: &mut OwnedReceiver,
    part: &str,
) -> Result<String, Trouble> {
    let (limit, pieces) = part.split_once(':').ok_or(Trouble::Unreadable)?;
    set_limit(receiver, number_of(limit)?)?;
    let pieces = pieces_of(line.alloc, pieces)?;
    push_pieces(line, call, receiver, &pieces)
}

/// Sets a receiver's limit between stretches.
fn set_limit(receiver: &mut OwnedReceiver, limit: usize) -> Result<(), Trouble> {
    if !receiver.is_between() {
        return Err(Trouble::Unreadable);
    }
    match receiver.set_limit(limit) {
        Ok(()) => Ok(()),
        Err(_) => Err(Trouble::NoMemory),
    }
}

/// What a receiver answers to a chunk, and to each rest until none is left.
fn push_piece<D: Decoding>(
    line: Line<'_>,
    call: Call,
    receiver: &mut Reception<D>,
    piece: &[u8],
) -> Result<String, Trouble> {
    let mut text = String::new(line.alloc);
    let mut rest = piece;
    for turn in 0..=piece.len() {
        if turn > 0 && rest.is_empty() {
            break;
        }
        let mut answer = String::new(line.alloc);
        let push = Push {
            alloc: line.alloc,
            call,
            piece: rest,
            text: &mut answer,
        };
        let used = ask_named(line.name, push, receiver)?;
        rest = rest.get(used..).unwrap_or(&[]);
        if !answer.is_empty() {
            let at = piece.len().saturating_sub(rest.len()).saturating_sub(1);
            add(&mut text, at, answer.as_str())?;
        }
    }
    if text.is_empty() {
        text.push('-')?;
    }
    Ok(text)
}

/// Adds an answer with its place to those of a chunk.
pub(crate) fn add(text: &mut String, at: usize, answer: &str) -> Result<(), AllocError> {
    if !text.is_empty() {
        text.push(';')?;
    }
    write!(text, "{at}{answer}")
}

/// A chunk that is pushed for the type that a line names.
#[derive(Drop)]
struct Push<'a> {
    alloc: Global,
    call: Call,
    piece: &'a [u8],
    /// Shows the answer.
    text: &'a mut String,
}

/// Says how many bytes were used.
impl<'r, 'a, D: Decoding> Asks<&'r [u8], &'r mut Reception<D>> for Push<'a> {
    type Answer = Result<usize, Trouble>;

    fn ask<T: Serialize + Deserialize<&'r [u8]> + DeserializeOwned + Shown>(
        self,
        receiver: &'r mut Reception<D>,
    ) -> Result<usize, Trouble> {
        let Push {
            alloc,
            call,
            piece,
            text,
        } = self;
        match call {
            Call::Push => show(receiver.push::<T>(alloc, piece), text),
            Call::PushRef => show(receiver.push_ref::<T>(alloc, piece), text),
            Call::PushStrict => Err(Trouble::Unreadable),
        }
    }

    fn ask_exact<T: Exact + Deserialize<&'r [u8]> + DeserializeOwned + Shown>(
        self,
        receiver: &'r mut Reception<D>,
    ) -> Result<usize, Trouble> {
        match self.call {
            Call::PushStrict => show(receiver.push_strict::<T>(self.alloc, self.piece), self.text),
            _ => self.ask::<T>(receiver),
        }
    }

    fn ask_other(self, _: &str, _: &'r mut Reception<D>) -> Result<usize, Trouble> {
        Err(Trouble::Unreadable)
    }
}

/// Shows the answer of a push, where it has one, and says how many bytes were used.
pub(crate) fn show<T: Shown + Drop>(
    pushed: Pushed<T>,
    text: &mut String,
) -> Result<usize, Trouble> {
    let Pushed { used, answer, .. } = pushed;
    match answer {
        Ok(None) => {}
        Ok(Some(answer)) => show_answer(&answer, text)?,
        Err(_) => return Err(Trouble::NoMemory),
    }
    Ok(used)
}
