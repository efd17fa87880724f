//! Values that are sent over a line which may fail.
ghost use Rattle.std.specs.Prelude.{◌≡◌, length};
ghost use Rattle.link.specs.Fates.{SenderFitsInMemory};

use crate::linked::Line;
use crate::receiving::{By, HEARD, receive};
use line_io::Outlet;
use line_io::memory::{Fault, Out};
use link::{Fate, SendError, Sender, send_each_with_sentinel};
use postcard::{DeserializeOwned, Error, Serialize};
use replay::{Findings, Shown, Trouble, bytes_of, digits, in_words, number_of};
use std::alloc::Global;

/// How many bytes the writer takes at most in a call.
const EACH: usize = 7;

/// The call that sends.
#[derive(Clone, Copy, Drop)]
enum Call {
    Send,
    SendEach,
}

/// Compares what the writers took, what became of each send, and what is received of the line, by `send`, and for some of
/// the limits by `send_each`.
pub(crate) fn compare_sent<T: Serialize + DeserializeOwned + Shown>(
    line: Line<'_>,
    findings: &mut Findings,
) -> Result<(), Trouble> {
    let answer = send_sessions::<T>(line, Call::Send, findings);
    findings.check("send", answer, line.wanted)?;
    match line.limit {
        8 | 16 | 64 => {
            let answer = send_sessions::<T>(line, Call::SendEach, findings);
            findings.check("send_each", answer, line.wanted)
        }
        _ => Ok(()),
    }
}

/// What is answered to all sessions, in the words of the line.
fn send_sessions<T: Serialize + DeserializeOwned + Shown>(
    line: Line<'_>,
    call: Call,
    findings: &mut Findings,
) -> Result<String, Trouble> {
    let alloc = line.alloc;
    let mut taken = Vec::new(alloc);
    let mut fates = String::new(alloc);
    for session in line.given.split('/') {
        if !fates.is_empty() {
            fates.push('/')?;
        }
        send_session::<T>(line, call, session, &mut taken, &mut fates, findings)?;
    }
    let mut text = digits(alloc, &taken)?;
    write!(text, " {fates} ")?;
    let heard = hear::<T>(line, taken)?;
    text.push_str(heard.as_str())?;
    Ok(text)
}

/// What is received of a line.
fn hear<T: DeserializeOwned + Shown>(line: Line<'_>, taken: Vec<u8>) -> Result<String, Trouble> {
    let mut pieces = Vec::new(line.alloc);
    pieces.push(taken)?;
    receive::<T>(line, By::Receiver(HEARD), &pieces, usize::MAX)
}

/// `K@VALUE:BYTES;VALUE:BYTES;..`: adds what the writer of a session took, and what became of each send.
fn send_session<T: Serialize + DeserializeOwned + Shown>(
    line: Line<'_>,
    call: Call,
    session: &str,
    taken: &mut Vec<u8>,
    fates: &mut String,
    findings: &mut Findings,
) -> Result<(), Trouble> {
    let (before, values) = session.split_once('@').ok_or(Trouble::Unreadable)?;
    let fault = fault_of(call, before)?;
    let values = values_of::<T>(line.alloc, values, findings)?;
    let mut room = vec![in line.alloc; 0; line.wanted.len()]?;
    let out = Out::new(room.as_mut_slice(), EACH, fault);
    let out = match call {
        Call::Send => send_by_turns(line, out, &values, fates)?,
        Call::SendEach => send_at_once(line, out, &values, fates)?,
    };
    let count = out.moved();
    drop(out);
    taken.extend_from_slice(room.get(..count).unwrap_or(&[]))?;
    Ok(())
}

/// The fault of a session's writer, after so many bytes; a dash where there is none.
fn fault_of(call: Call, before: &str) -> Result<Option<(usize, Fault)>, Trouble> {
    if before == "-" {
        return Ok(None);
    }
    let fault = match call {
        Call::Send => Fault::Fail,
        Call::SendEach => Fault::Nothing,
    };
    Ok(Some((number_of(before)?, fault)))
}

/// The values of a session, each made by reading its bytes.
fn values_of<T: DeserializeOwned + Shown>(
    alloc: Global,
    words: &str,
    findings: &mut Findings,
) -> Result<Vec<T>, Trouble> {
    let mut values = Vec::new(alloc);
    for word in words.split(';') {
        values.push(value_of::<T>(alloc, word, findings)?)?;
    }
    Ok(values)
}

/// `VALUE:BYTES`: the value, made by reading its bytes.
fn value_of<T: DeserializeOwned + Shown>(
    alloc: Global,
    word: &str,
    findings: &mut Findings,
) -> Result<T, Trouble> {
    let Some((wanted, bytes)) = word.rsplit_once(':') else {
        return Err(Trouble::Unreadable);
    };
    let bytes = bytes_of(alloc, bytes)?;
    match postcard::from_bytes_owned::<T>(alloc, &bytes) {
        Ok(value) => {
            let text = in_words(alloc, &value)?;
            findings.compare("from_bytes_owned", text.as_str(), wanted)?;
            Ok(value)
        }
        Err(Error::OutOfMemory) => Err(Trouble::NoMemory),
        Err(_) => Err(Trouble::Unreadable),
    }
}

/// Sends the values by `send` of a new sender of so many bytes.
fn send_by_turns<'a, T: Serialize>(
    line: Line<'_>,
    out: Out<'a>,
    values: &[T],
    fates: &mut String,
) -> Result<Out<'a>, Trouble> {
    let s = line.sentinel;
    match line.limit {
        1 => send_by(Sender::<_, 1>::new_with_sentinel(out, s), values, fates),
        3 => send_by(Sender::<_, 3>::new_with_sentinel(out, s), values, fates),
        8 => send_by(Sender::<_, 8>::new_with_sentinel(out, s), values, fates),
        16 => send_by(Sender::<_, 16>::new_with_sentinel(out, s), values, fates),
        64 => send_by(Sender::<_, 64>::new_with_sentinel(out, s), values, fates),
        256 => send_by(Sender::<_, 256>::new_with_sentinel(out, s), values, fates),
        512 => send_by(Sender::<_, 512>::new_with_sentinel(out, s), values, fates),
        1025 => send_by(Sender::<_, 1025>::new_with_sentinel(out, s), values, fates),
        _ => Err(Trouble::Unreadable),
    }
}

/// Sends the values in turn, and adds what its answers say of each send.
fn send_by<T: Serialize, W: Outlet + Drop, const N: usize>(
    sender: Sender<W, N>,
    values: &[T],
    fates: &mut String,
) -> Result<W, Trouble>
    requires { SenderFitsInMemory W.row N.row }
{
    let mut sender = sender;
    for value in values {
        fates.push(match sender.send(value) {
            Ok(()) => 'D',
            Err(SendError::Refused(_)) => 'R',
            Err(SendError::Line) => 'B',
        })?;
    }
    Ok(sender.into_inner())
}

/// Sends the values by `send_each`, and adds the fates.
fn send_at_once<'a, T: Serialize>(
    line: Line<'_>,
    out: Out<'a>,
    values: &[T],
    fates: &mut String,
) -> Result<Out<'a>, Trouble> {
    let mut became = vec![in line.alloc; Fate::Refused; values.len()]?;
    let out = send_each_by(line, out, values, became.as_mut_slice())?;
    for fate in became.iter() {
        fates.push(match fate {
            Fate::Done => 'D',
            Fate::Refused => 'R',
            Fate::Broken => 'B',
        })?;
    }
    Ok(out)
}

/// Sends the values by a new sender of so many bytes.
fn send_each_by<'a, T: Serialize>(
    line: Line<'_>,
    out: Out<'a>,
    values: &[T],
    fates: &mut [Fate],
) -> Result<Out<'a>, Trouble>
    requires { length values.now ≡ length fates.old }
{
    let s = line.sentinel;
    match line.limit {
        8 => Ok(send_each_with_sentinel::<T, _, 8>(out, values, fates, s)),
        16 => Ok(send_each_with_sentinel::<T, _, 16>(out, values, fates, s)),
        64 => Ok(send_each_with_sentinel::<T, _, 64>(out, values, fates, s)),
        _ => Err(Trouble::Unreadable),
    }
}
