//! A call and its reply.
use crate::messages::{Command, PumpReport};
use crate::{AskedCommand, FRAME, Said};
use calls::{CallError, Client, Noticing, Replies, Waiting};
use line_io::{Reads, Writes};
use link::{End, OfType, Ordinary, Receiver, SendError, Sender};
use sealed::Keyed;
use std::io::{self, Stdin, Stdout};
use std::time::Instant;

// In milliseconds: a reading that ends sooner is taken for the end of its input, such as of a terminal that was hung up.
const AT_ONCE: u128 = 50;

/// The result of a call.
#[derive(Clone, Copy, Drop)]
pub enum CallOutcome {
    /// It was executed, once, and this is its reply.
    Replied(PumpReport),
    /// The device passed it over, because it had executed the call `last`.
    Passed { last: u64 },
    /// No reply came; whether a send of it was interrupted, and whether reading failed.
    Unheard { unsent: bool, unread: bool },
}

// A client that waits for the reply, or the notice that its call was passed over.
type Asking = Replies<Noticing<Waiting<Writes<Stdout>, AskedCommand, Said, FRAME>, Said>>;

// The number of the call that was executed last, if this notice is of the call with this number.
fn passed_behind(said: Option<Said>, of: u64) -> Option<u64> {
    match said {
        Some(Keyed((_, PumpReport::Passed(it)))) if it.number == of => Some(it.last),
        _ => None,
    }
}

// Receives until the reply to the call with this number, or its notice, or the end of reading: then an error that says whether reading
// failed.
fn listen(
    rt: &HostRuntime,
    receiver: &mut Receiver<FRAME>,
    reader: &mut Reads<Stdin>,
    asking: &mut Asking,
    number: u64,
) -> Result<CallOutcome, bool> {
    // replies and notices of earlier calls are dropped
    for _ in 0..u64::MAX {
        let ended = receiver.listen_until_with::<(u64, Said), _, _, _>(
            rt.alloc(),
            &Ordinary(OfType),
            reader,
            asking,
            &mut [0u8; 1024],
        );
        if let Some(Keyed((_, report))) = asking.hearer.hearer.said {
            return Ok(CallOutcome::Replied(report));
        }
        if let Some(last) = passed_behind(asking.hearer.notice.take(), number) {
            return Ok(CallOutcome::Passed { last });
        }
        match ended {
            None => {}
            Some(End::Ended) => return Err(false),
            Some(_) => return Err(true),
        }
    }
    Err(true)
}

// Whether a reading that began then has waited, as one that a terminal's time limit ends.
fn has_waited(rt: &HostRuntime, begin: &io::Result<Instant>) -> bool {
    match begin {
        Ok(begin) => match begin.elapsed(rt) {
            Ok(time) => time.as_millis() >= AT_ONCE,
            Err(_) => false,
        },
        Err(_) => false,
    }
}

/// Calls on standard output, and waits on standard input for the reply. If a reading has waited and ends without it, the call is sent
/// again, at most `again` times: not at the end of the input, nor if reading fails.
///
/// # Errors
/// `Full`: the number is the greatest, which no call has. `Unsent(Refused)`: the call doesn't fit a frame. Nothing was sent.
pub fn ask(
    rt: &HostRuntime,
    number: u64,
    again: u64,
    command: Command,
) -> Result<CallOutcome, CallError> {
    let mut reader = Reads::new(rt.stdin());
    let mut receiver = Receiver::<FRAME>::new();
    let sender = Sender::<_, FRAME>::new(Writes::new(rt.stdout()));
    let mut asking = Replies {
        hearer: Noticing {
            hearer: Waiting {
                client: Client::<_, AskedCommand, FRAME>::new(sender, number),
                said: None,
            },
            notice: None,
        },
    };
    // a call that wasn't sent whole may have been received all the same, so its reply is waited for too
    let mut unsent = match asking.hearer.hearer.client.call(Keyed((number, command))) {
        Ok(_) => false,
        Err(CallError::Unsent(SendError::Line)) => true,
        Err(error) => return Err(error),
    };
    let mut unread = false;
    for sent in 0..=again {
        if sent > 0 {
            unsent |= asking.hearer.hearer.client.again().is_err();
        }
        let begin = Instant::now(rt);
        match listen(rt, &mut receiver, &mut reader, &mut asking, number) {
            Ok(outcome) => return Ok(outcome),
            Err(failed) => unread |= failed,
        }
        if unread || !has_waited(rt, &begin) {
            break;
        }
    }
    Ok(CallOutcome::Unheard { unsent, unread })
}
