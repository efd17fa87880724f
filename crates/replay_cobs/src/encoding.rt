//! Frames of messages.
ghost use Rattle.std.specs.Prelude.{◌<◌};

use crate::lent::{Call, Case, compare_lent};
use cobs::{CobsEncoder, EncoderState, PushResult};
use replay::{Findings, Trouble, Words};
use std::alloc::Global;

/// How many bytes a chunk has, if a message is pushed in chunks.
const PIECE: usize = 100;

/// What a buffer holds that a refused call has to leave unchanged.
const UNTOUCHED: u8 = 0xA5;

/// `MESSAGE FRAME MORE`: the shortest frame of a message, and whether a block 01 more makes another one.
pub(crate) fn replay_encode(
    alloc: Global,
    words: &mut Words<'_>,
    findings: &mut Findings,
) -> Result<(), Trouble> {
    let message = words.bytes(alloc)?;
    let frame = words.bytes(alloc)?;
    compare_encode(alloc, &message, &frame, words, findings)
}

/// Compares the frames that each call makes.
fn compare_encode(
    alloc: Global,
    message: &[u8],
    frame: &[u8],
    words: &mut Words<'_>,
    findings: &mut Findings,
) -> Result<(), Trouble> {
    let more = words.next()?;
    words.end()?;
    let case = Case {
        alloc,
        source: message,
        wanted: frame,
    };
    compare_alone(&case, findings);
    compare_between_zeros(&case, findings);
    encode_pieces(&case, "CobsEncoder", 0, findings);
    refuse(&case, findings);
    compare_longest(&case, more, findings);
    Ok(())
}

/// Compares the frame alone.
fn compare_alone(case: &Case<'_>, findings: &mut Findings) {
    let length = cobs::encoded_length(case.source);
    let noted = findings.compare_number("encoded_length", length, case.wanted.len());
    findings.keep(noted);
    compare_lent(case, "encode", Call::Encode, length, findings);
    let made = cobs::encode_vec(case.alloc, case.source).or(Err(Trouble::NoMemory));
    findings.see_bytes("encode_vec", made, case.wanted);
    let length = case.wanted.len();
    compare_lent(case, "try_encode", Call::TryEncode, length, findings);
}

/// Compares the frame with a zero on each side.
fn compare_between_zeros(case: &Case<'_>, findings: &mut Findings) {
    let Ok(wanted) = [&[0], case.wanted, &[0]].concat(case.alloc) else {
        return findings.give_up(Trouble::NoMemory);
    };
    let zeros = Case {
        wanted: &wanted,
        ..*case
    };
    let length = cobs::encoded_length(case.source) + 2;
    let (name, call) = ("encode_including_sentinels", Call::EncodeIncludingSentinels);
    compare_lent(&zeros, name, call, length, findings);
    let made = cobs::encode_vec_including_sentinels(case.alloc, case.source);
    let made = made.or(Err(Trouble::NoMemory));
    findings.see_bytes("encode_vec_including_sentinels", made, &wanted);
    let name = "try_encode_including_sentinels";
    let call = Call::TryEncodeIncludingSentinels;
    compare_lent(&zeros, name, call, wanted.len(), findings);
}

/// Compares the frames of an encoder to which a message is pushed in chunks.
pub(crate) fn encode_pieces(case: &Case<'_>, name: &str, sentinel: u8, findings: &mut Findings) {
    let Ok(mut room) = vec![in case.alloc; 0; case.wanted.len()] else {
        return findings.give_up(Trouble::NoMemory);
    };
    for piece in [1, PIECE, usize::MAX] {
        room.as_mut_slice().fill(0);
        let count = push_into(room.as_mut_slice(), case.source, piece, sentinel);
        findings.see_front(name, count, &room, case.wanted);
    }
}

/// Returns the length of the frame of a message that is pushed in chunks, with empty pushes between them.
fn push_into(room: &mut [u8], message: &[u8], piece: usize, sentinel: u8) -> Result<usize, Trouble>
    requires { 0 < piece }
{
    if room.is_empty() {
        return Err(Trouble::Unreadable);
    }
    let mut encoder = CobsEncoder::new_with_sentinel(room, sentinel);
    let mut refused = false;
    for bytes in message.chunks(piece) {
        refused |= encoder.push(bytes).is_err();
        refused |= encoder.push(&[]).is_err();
    }
    let told = encoder.frame_length();
    let n = encoder.finalize();
    if refused || told != n {
        return Err(Trouble::Refused);
    }
    Ok(n)
}

/// The calls that refuse a message whose frame is one byte longer than the buffer.
fn refuse(case: &Case<'_>, findings: &mut Findings) {
    let less = case.wanted.len().saturating_sub(1);
    let Ok(mut room) = vec![in case.alloc; UNTOUCHED; less] else {
        return findings.give_up(Trouble::NoMemory);
    };
    let answer = refused(case.source, room.as_mut_slice());
    let noted = findings.compare("try_encode with a byte less", answer, "refused");
    findings.keep(noted);
    let answer = spent(case.source, room.as_mut_slice());
    let noted = findings.compare("CobsEncoder with a byte less", answer, "refused");
    findings.keep(noted);
}

/// What becomes of a message that `try_encode` has to refuse, and of the buffer, which it has to leave unchanged.
fn refused(message: &[u8], room: &mut [u8]) -> &'static str {
    if cobs::try_encode(message, room).is_ok() {
        return "taken";
    }
    for byte in room.iter() {
        if *byte != UNTOUCHED {
            return "refused, and written over the buffer";
        }
    }
    "refused"
}

/// What becomes of a message that an encoder has to refuse, and of all that it is asked afterwards.
fn spent(message: &[u8], room: &mut [u8]) -> &'static str {
    if room.is_empty() {
        return "refused";
    }
    let mut encoder = CobsEncoder::new(room);
    if encoder.push(message).is_ok() {
        return "taken";
    }
    if encoder.push(&[]).is_ok() {
        return "refused, and then something taken";
    }
    if encoder.finalize() != 0 {
        return "refused, and then a frame";
    }
    "refused"
}

/// Compares the longest frame, by the shortest and what the line says of another one.
fn compare_longest(case: &Case<'_>, more: &str, findings: &mut Findings) {
    let behind: &[u8] = match more {
        "=" => &[],
        "+01" => &[1],
        _ => return findings.give_up(Trouble::Unreadable),
    };
    let Ok(longest) = [case.wanted, behind].concat(case.alloc) else {
        return findings.give_up(Trouble::NoMemory);
    };
    let made = keep_buffer(case.alloc, case.source);
    findings.see_bytes("EncoderState", made, &longest);
}

/// The buffer that is kept as an `EncoderState` says.
fn keep_buffer(alloc: Global, message: &[u8]) -> Result<Vec<u8>, Trouble> {
    let mut buffer = vec![in alloc; 0]?;
    fill_buffer(&mut buffer, message)?;
    Ok(buffer)
}

/// Puts the frame of a message after the position of its first code.
fn fill_buffer(buffer: &mut Vec<u8>, message: &[u8]) -> Result<(), Trouble> {
    let mut state = EncoderState::default();
    for byte in message {
        if !state.can_push() {
            return Err(Trouble::NoMemory);
        }
        add_pushed(buffer, state.push(*byte))?;
    }
    let (i, code) = state.finalize();
    set(buffer.as_mut_slice(), i, code)
}

/// Does to the buffer what the state returns for a byte.
fn add_pushed(buffer: &mut Vec<u8>, pushed: PushResult) -> Result<(), Trouble> {
    let added = match pushed {
        PushResult::AddSingle(b) => buffer.extend_from_slice(&[b]),
        PushResult::ModifyFromStartAndSkip((i, code)) => {
            set(buffer.as_mut_slice(), i, code)?;
            buffer.extend_from_slice(&[0])
        }
        PushResult::ModifyFromStartAndPushAndSkip((i, code, b)) => {
            set(buffer.as_mut_slice(), i, code)?;
            buffer.extend_from_slice(&[b, 0])
        }
    };
    Ok(added?)
}

/// Puts a code in its place.
fn set(buffer: &mut [u8], at: usize, code: u8) -> Result<(), Trouble> {
    if at >= buffer.len() {
        return Err(Trouble::Refused);
    }
    buffer[at] = code;
    Ok(())
}
