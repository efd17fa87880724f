//! Calls and replies, each by itself, and the notice for a call that was passed over.
ghost use Rattle.std.specs.Prelude.{◌<◌};

use crate::checks::{are_equal, check};
use crate::remote::checks::{is_number, is_read, is_reply, letter};
use crate::remote::served::{Adder, Echo, Line, line, sender, service};
use calls::{
    CallError, Client, LastCall, Noticing, Server, Service, Waiting, serve_with, wait_with,
};
use line_io::memory::{Fault, In, Out};
use link::{
    Answer, Decoding, End, Hearer, MessageReader, OfType, Ordinary, OwnedReceiver, Receiver,
    Reception, SendError, Sender, Strict,
};
use std::alloc::Global;

// A client of adders, whose first call has the number 5.
fn client(alloc: Global, sentinel: u8) -> Client<Line, u32, 16> {
    Client::new(sender(alloc, sentinel), 5)
}

// Whether a client that makes these calls writes this.
fn asks(alloc: Global, sentinel: u8, requests: &[u32], wanted: &[u8]) -> bool {
    let mut client = client(alloc, sentinel);
    for request in requests {
        let _ = client.call(*request);
    }
    are_equal(&client.into_inner().into_inner(), wanted)
}

// The call 5 of 7 between zeros, in a frame of two bytes; its reply, of the first sum of an adder, is the same.
const CALL: [u8; 5] = [0, 3, 5, 7, 0];

// What is sent twice has a zero in front alone.
const TWICE: [u8; 9] = [0, 3, 5, 7, 0, 3, 5, 7, 0];

// Noise before, between and after, and a request that is cut.
const NOISY: [u8; 27] = [
    9, 9, 0, 3, 5, 7, 0, 1, 1, 1, 1, 1, 1, 1, 1, 1, 1, 0, 2, 2, 0, 3, 6, 1, 0, 3, 7,
];

const NOISY_REPLIES: [u8; 9] = [0, 3, 5, 7, 0, 3, 6, 8, 0];

// The calls 5 and 6 of 1 and 2, and the replies.
const CALLS: [u8; 9] = [0, 3, 5, 1, 0, 3, 6, 2, 0];

const REPLIES: [u8; 9] = [0, 3, 5, 1, 0, 3, 6, 3, 0];

// The same where the sentinel is A5.
const CALLS_A5: [u8; 9] = [0xA5, 0xA6, 0xA0, 0xA4, 0xA5, 0xA6, 0xA3, 0xA7, 0xA5];

const REPLIES_A5: [u8; 9] = [0xA5, 0xA6, 0xA0, 0xA4, 0xA5, 0xA6, 0xA3, 0xA6, 0xA5];

#[test]
fn calls_are_written_and_sent_again(rt: HostRuntime) {
    let alloc = rt.alloc();
    let are_written = asks(alloc, 0, &[7], &CALL)
        && asks(alloc, 0, &[1, 2], &CALLS)
        && asks(alloc, 0xA5, &[1, 2], &CALLS_A5);
    check(&rt, are_written);
    let mut client = client(alloc, 0);
    check(&rt, client.call(7).is_ok());
    check(&rt, client.again().is_ok());
    check(&rt, are_equal(&client.into_inner().into_inner(), &TWICE));
}

type Adding = Service<Adder, Line, u32, u32, 16>;

// Serves all that the reader gives, strictly or not.
fn serve_in<D: Decoding>(
    alloc: Global,
    receiver: &mut Reception<D>,
    is_strict: bool,
    reader: &mut In<'_>,
    service: &mut Adding,
) -> Option<End> {
    if is_strict {
        return Some(serve_with(alloc, receiver, &Strict(OfType), reader, service));
    }
    Some(serve_with(alloc, receiver, &Ordinary(OfType), reader, service))
}

// The receivers of 8 bytes that serve: one that holds its buffer, one by a sentinel, and one whose buffer is on the heap.
enum By {
    Plain,
    Held(u8),
    Owned(u8),
}

// Serves all that the reader gives, strictly or not; how the reading ended, if there was memory for the receiver.
fn serve_by(
    alloc: Global,
    by: &By,
    is_strict: bool,
    reader: &mut In<'_>,
    service: &mut Adding,
) -> Option<End> {
    match by {
        By::Plain => {
            let mut receiver = Receiver::<8>::new();
            Some(serve_with(alloc, &mut receiver, &Ordinary(OfType), reader, service))
        }
        By::Held(sentinel) => {
            let mut receiver = Receiver::<8>::new_with_sentinel(*sentinel);
            serve_in(alloc, &mut receiver, is_strict, reader, service)
        }
        By::Owned(sentinel) => match OwnedReceiver::new(alloc, 8, *sentinel) {
            Ok(mut receiver) => serve_in(alloc, &mut receiver, is_strict, reader, service),
            Err(_) => None,
        },
    }
}

// What serves requests, and whether strictly; the requests, and how many bytes are read at a time; how many are executed, to which sum;
// and what is replied. A call is executed, one that is sent again once, and noise is passed over.
const SERVED: [(By, bool, &[u8], usize, u32, u32, &[u8]); 6] = [
    (By::Plain, false, &CALL, 1, 1, 7, &CALL),
    (By::Plain, false, &NOISY, 5, 2, 8, &NOISY_REPLIES),
    (By::Held(0), true, &TWICE, 100, 1, 7, &TWICE),
    (By::Held(0xA5), false, &CALLS_A5, 3, 2, 3, &REPLIES_A5),
    (By::Owned(0), false, &CALLS, 3, 2, 3, &REPLIES),
    (By::Owned(0xA5), true, &CALLS_A5, 3, 2, 3, &REPLIES_A5),
];

// Whether each row's requests are served so, and read to their end.
fn are_served(alloc: Global) -> bool {
    for (by, is_strict, requests, each, executed, sum, replies) in &SERVED {
        let sentinel = match by {
            By::Plain => 0,
            By::Held(sentinel) | By::Owned(sentinel) => *sentinel,
        };
        let mut service = service(alloc, sentinel);
        let mut reader = In::new(requests, (*each).max(1), None);
        let end = serve_by(alloc, by, *is_strict, &mut reader, &mut service);
        let is_right = is_read(end)
            && service.application.executed == *executed
            && service.application.sum == *sum
            && are_equal(&service.server.into_inner().into_inner(), replies);
        if !is_right {
            return false;
        }
    }
    true
}

#[test]
fn every_way_of_serving(rt: HostRuntime) {
    check(&rt, are_served(rt.alloc()));
}

type Asking = Waiting<Line, u32, u32, 16>;

// A client that waits for the reply to its call of 7, of the number 5; and whether it called so.
fn calling(alloc: Global) -> (bool, Asking) {
    let mut client = client(alloc, 0);
    let is_right = client.call(7).is_ok() && is_number(client.pending(), 5);
    (is_right, Waiting { client, said: None })
}

// Waits for the reply; how the reading ended, where none was received.
fn wait_by<D: Decoding, M: MessageReader<(u64, u32)>>(
    alloc: Global,
    receiver: &mut Reception<D>,
    messages: &M,
    reader: &mut In<'_>,
    waiting: &mut Waiting<Line, u32, u32, 16>,
) -> Option<End> {
    wait_with(alloc, receiver, messages, reader, waiting, &mut [0u8; 64])
}

// The same, ordinarily.
fn wait_ordinarily<D: Decoding>(
    alloc: Global,
    receiver: &mut Reception<D>,
    reader: &mut In<'_>,
    waiting: &mut Asking,
) -> Option<End> {
    wait_by(alloc, receiver, &Ordinary(OfType), reader, waiting)
}

// Whether a call is replied, and none is pending then; and the reply, which comes so many bytes at a time, isn't found after the next
// call, whose reply doesn't come.
fn is_taken_and_let_go(alloc: Global, each: usize) -> bool
    requires { 0 < each }
{
    let (is_called, mut waiting) = calling(alloc);
    let mut receiver = Receiver::<8>::new();
    let mut reader = In::new(&CALL, each, None);
    let end = wait_ordinarily(alloc, &mut receiver, &mut reader, &mut waiting);
    let is_replied = end.is_none()
        && is_reply(waiting.said, 7)
        && waiting.client.pending().is_none()
        && matches!(waiting.client.again(), Err(CallError::Idle));
    let is_called_again = waiting.client.call(8).is_ok();
    let end = wait_ordinarily(alloc, &mut receiver, &mut reader, &mut waiting);
    is_called && is_replied && is_called_again && end.is_some() && waiting.said.is_none()
}

// A reply with a byte after it.
const LONGER: [u8; 6] = [0, 4, 5, 7, 9, 0];

// Whether it is taken ordinarily, and not strictly; how the reading ended is said, and the call is pending then. Nothing is shown where
// there was no memory for the receiver.
fn takes_ordinarily(alloc: Global) -> bool {
    let Ok(mut receiver) = OwnedReceiver::new(alloc, 8, 0) else {
        return true;
    };
    let (is_called, mut waiting) = calling(alloc);
    let mut reader = In::new(&LONGER, 2, None);
    let ended = wait_by(
        alloc,
        &mut receiver,
        &Strict(OfType),
        &mut reader,
        &mut waiting,
    );
    let is_pending = is_read(ended) && is_number(waiting.client.pending(), 5);
    let mut reader = In::new(&LONGER, 2, None);
    let end = wait_ordinarily(alloc, &mut receiver, &mut reader, &mut waiting);
    is_called && is_pending && end.is_none() && is_reply(waiting.said, 7)
}

#[test]
fn an_old_reply_is_let_go_and_a_longer_one_taken_ordinarily(rt: HostRuntime) {
    let alloc = rt.alloc();
    let are_right = is_taken_and_let_go(alloc, 1)
        && is_taken_and_let_go(alloc, 100)
        && takes_ordinarily(alloc);
    check(&rt, are_right);
}

// Two replies through a room of one byte, which both calls share.
#[test]
fn waiting_in_a_room(rt: HostRuntime) {
    let replies = [0u8, 3, 5, 7, 0, 3, 6, 9, 0];
    let mut waiting: Asking = Waiting {
        client: client(rt.alloc(), 0),
        said: None,
    };
    let mut receiver = Receiver::<8>::new();
    let mut reader = In::new(&replies, 100, None);
    let mut room = [0u8; 1];
    for said in [7u32, 9] {
        check(&rt, waiting.client.call(said).is_ok());
        let end = wait_with(
            rt.alloc(),
            &mut receiver,
            &Ordinary(OfType),
            &mut reader,
            &mut waiting,
            &mut room,
        );
        check(&rt, end.is_none());
        check(&rt, is_reply(waiting.said.take(), said));
    }
}

// Whether no number was left for a call.
fn is_full(sent: Result<(), CallError>) -> bool {
    matches!(sent, Err(CallError::Full))
}

#[test]
fn a_refused_call_is_none_and_the_last_number_is_not_given(rt: HostRuntime) {
    // a call that has no room takes no number, and isn't pending
    let mut client = Client::<Line, u32, 4>::new(sender(rt.alloc(), 0), 5);
    let sent = client.call(u32::MAX);
    check(
        &rt,
        matches!(sent, Err(CallError::Unsent(SendError::Refused(_)))),
    );
    check(&rt, client.pending().is_none());
    check(&rt, client.call(7).is_ok());
    check(&rt, are_equal(&client.into_inner().into_inner(), &CALL));
    let mut client = Client::<Line, u32, 16>::new(sender(rt.alloc(), 0), u64::MAX - 1);
    check(&rt, client.call(1).is_ok());
    check(&rt, is_full(client.call(2)));
    // the earlier call is pending still
    check(&rt, is_number(client.pending(), u64::MAX - 1));
    let said = client.hear(Answer::Value((u64::MAX - 1, 3u32)));
    check(&rt, is_reply(said, 3));
}

// Whether of what is received only the reply by the number 5 is taken, and once.
fn takes_the_reply(client: &mut Client<Line, u32, 16>) -> bool {
    client.hear::<u32>(Answer::Damaged).is_none()
        && client.hear(Answer::Value((4, 3u32))).is_none()
        && client.hear(Answer::Value((6, 3u32))).is_none()
        && is_reply(client.hear(Answer::Value((5, 3u32))), 3)
        && client.hear(Answer::Value((5, 3u32))).is_none()
}

#[test]
fn only_the_reply_and_a_notice_are_taken(rt: HostRuntime) {
    let mut client = client(rt.alloc(), 0);
    let is_taken = client.call(1).is_ok() && takes_the_reply(&mut client);
    let is_called = client.call(1).is_ok();
    client.give_up();
    check(
        &rt,
        is_taken && is_called && client.hear(Answer::Value((6, 3u32))).is_none(),
    );
    // the notice for a call that was passed over: the server says that its last call was 9
    let client = Client::<Line, u64, 16>::new(sender(rt.alloc(), 0), 5);
    let mut asking = Noticing {
        hearer: Waiting { client, said: None },
        notice: None,
    };
    asking.hear(Answer::Value((u64::MAX, 9u64)));
    check(&rt, asking.has_enough());
    check(&rt, is_number(asking.notice.take(), 9));
}

// Whether requests are answered so, and two of them executed: another request by the last number is neither executed nor replied to
// by the reply to the first, which is, again; and an old number is passed over.
fn are_told_apart(server: &mut Server<Line, u32, u32, 16>) -> bool {
    let mut adder = Adder::new();
    letter(server.answer(&mut adder, 9, 4u32)) == 'E'
        && letter(server.answer(&mut adder, 8, 4u32)) == 'P'
        && letter(server.answer(&mut adder, 9, 70u32)) == 'O'
        && letter(server.answer(&mut adder, 9, 4u32)) == 'A'
        && letter(server.answer(&mut adder, 10, 1u32)) == 'E'
        && adder.executed == 2
}

// What is replied to these.
const TOLD_APART: [u8; 13] = [0, 3, 9, 4, 0, 3, 9, 4, 0, 3, 10, 5, 0];

// Whether a server answers each of these requests, by its number, so, and replies this.
fn answers(
    alloc: Global,
    server: &mut Server<Line, u64, u64, 16>,
    requests: &[(u64, u64, char)],
    replies: &[u8],
) -> bool {
    for (number, request, wanted) in requests {
        if letter(server.answer(&mut Echo, *number, *request)) != *wanted {
            return false;
        }
    }
    are_equal(&server.replace_inner(line(alloc)).into_inner(), replies)
}

// By the greatest number nothing is executed and nothing said, and a call is executed then.
const GREATEST: [(u64, u64, char); 3] = [(u64::MAX, 4, 'N'), (1, 4, 'E'), (u64::MAX, 5, 'N')];

// A zero; twice the number of the last call, 9, by the greatest number, which is ten bytes of a u64; and the reply.
const PASSED: [u8; 31] = [
    0, 12, 0xFF, 0xFF, 0xFF, 0xFF, 0xFF, 0xFF, 0xFF, 0xFF, 0xFF, 1, 9, 0, 12, 0xFF, 0xFF, 0xFF,
    0xFF, 0xFF, 0xFF, 0xFF, 0xFF, 0xFF, 1, 9, 0, 3, 9, 4, 0,
];

// A server that goes on after call 9 knows it, and says of what it passes over which call was the last.
const BEHIND: [(u64, u64, char); 3] = [(8, 4, 'p'), (9, 5, 'o'), (9, 4, 'A')];

// The first reply finds a line that fails after two bytes; it is kept, and sent again to the same number.
fn is_kept() -> bool {
    let mut room = [0u8; 32];
    let mut adder = Adder::new();
    let failing = Out::new(&mut room, 1, Some((2, Fault::Fail)));
    let mut server = Server::<Out<'_>, u32, u32, 16>::new(Sender::new(failing));
    let is_sent_again = letter(server.answer(&mut adder, 1, 4u32)) == 'e'
        && letter(server.answer(&mut adder, 1, 4u32)) == 'A'
        && adder.executed == 1
        && server.into_inner().moved() == 7;
    is_sent_again && are_equal(&room[..7], &[0, 3, 0, 3, 1, 4, 0])
}

#[test]
fn servers_answer_by_the_number(rt: HostRuntime) {
    let alloc = rt.alloc();
    let mut server = Server::<Line, u32, u32, 16>::new(sender(alloc, 0));
    let are_told_apart = are_told_apart(&mut server);
    let replies = server.into_inner().into_inner();
    check(
        &rt,
        are_told_apart && are_equal(&replies, &TOLD_APART) && is_kept(),
    );
    let mut server = Server::<Line, u64, u64, 16>::new(sender(alloc, 0));
    let is_no_call = answers(alloc, &mut server, &GREATEST, &[0, 3, 1, 4, 0]);
    let last = LastCall {
        request: 4u64,
        reply: (9, 4u64),
    };
    let mut server = Server::<Line, u64, u64, 16>::resume(sender(rt.alloc(), 0), Some(last));
    check(
        &rt,
        is_no_call && answers(alloc, &mut server, &BEHIND, &PASSED),
    );
}
