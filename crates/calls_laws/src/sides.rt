//! What each side of an exchange does, over memory.
ghost use Rattle.std.specs.Prelude.{◌≡◌, [], ◌<◌, Some, None, IfSome};
ghost use Rattle.link.specs.Listening.{ReceiverFitsInMemory};
ghost use Rattle.link.specs.Senders.{sender_place};
ghost use Rattle.calls.specs.Asking.{asker_of, sender_of};
ghost use Rattle.calls_laws.specs.Exchange.{AsksOnly, ServesLine, TakesReply, Repeats, ClientFitsInMemory, ServerFitsInMemory, ServiceFitsInMemory, WaitingFitsInMemory};

use crate::exchange::{Kept, Way};
use calls::{Application, Client, Server, Service, Waiting, serve_with, wait_with};
use line_io::Outlet;
use line_io::memory::In;
use link::{MessageReader, Receiver, Sender};
use postcard::{Readable, Serialize};
use std::alloc::Global;

// Calls, and sends the call `again` more times.
fn repeat<Q: Serialize + Drop, W: Outlet, const N: usize>(
    client: &mut Client<W, Q, N>,
    request: Q,
    again: usize,
)
    requires { (asker_of client.old).pending ≡ None }
    ensures { Repeats N ⟦<(u64, Q) as Readable>⟧.form.writes
        ⟦<(u64, Q) as Readable>⟧.form.valid
        ((asker_of client.old).next, request) (asker_of client.new).pending
        (sender_place W.line (sender_of client.old))
        (sender_place W.line (sender_of client.new)) }
{
    let _called = client.call(request);
    for _ in 0..again {
        let _repeated = client.again();
    }
}

// A new client that calls, and sends the call `again` more times; and the bytes on its line.
pub(crate) fn ask_all<Q: Serialize + Drop, W: Kept, const N: usize>(
    alloc: Global,
    writer: W,
    sentinel: u8,
    number: u64,
    request: Q,
    again: usize,
) -> (Client<W, Q, N>, Vec<u8>)
    requires some { 0 < N }
    requires empty { (W.line writer).told ≡ Some [] }
    requires client { ClientFitsInMemory W.row Q.row N.row }
    ensures { AsksOnly N sentinel ⟦<(u64, Q) as Readable>⟧.form.writes
        ⟦<(u64, Q) as Readable>⟧.form.valid
        (number, request) (asker_of result.0).pending result.1.items }
{
    let sender = Sender::new_with_sentinel(writer, sentinel);
    let mut client = Client::<W, Q, N>::new(sender, number);
    repeat(&mut client, request, again);
    let taken = client.replace_inner(W::spare(alloc)).into_taken();
    (client, taken)
}

// A new server that serves the requests of a line; and the bytes on its own line.
pub(crate) fn serve_all<
    Q: PartialEq + Drop,
    R: Serialize + Drop,
    A: Application<Q, R>,
    M: MessageReader<(u64, Q)>,
    W: Kept,
    const N: usize,
    const L: usize,
>(
    alloc: Global,
    requests: &[u8],
    messages: &M,
    sentinel: u8,
    each: usize,
    stops: Option<usize>,
    back: Way<W>,
    application: A,
) -> (A, Vec<u8>)
    requires some { 0 < L }
    requires each { 0 < each }
    requires empty { (W.line back.writer).told ≡ Some [] }
    requires receiver { ReceiverFitsInMemory N.row }
    requires server { ServerFitsInMemory W.row Q.row R.row L.row }
    requires service { ServiceFitsInMemory A.row W.row Q.row R.row L.row }
    ensures { ServesLine A.executes Q.eq A.passes
        (M.judging messages.now).holds (M.judging messages.now).reads
        ⟦<(u64, R) as Readable>⟧.form.writes ⟦<(u64, R) as Readable>⟧.form.valid
        N sentinel L back.sentinel application result.0 requests.now result.1.items }
{
    let sender = Sender::new_with_sentinel(back.writer, back.sentinel);
    let server = Server::<W, Q, R, L>::new(sender);
    let mut service = Service {
        application,
        server,
        unsent: false,
    };
    let mut receiver = Receiver::<N>::new_with_sentinel(sentinel);
    let mut reader = In::new(requests, each, stops);
    let _ended = serve_with(alloc, &mut receiver, messages, &mut reader, &mut service);
    let Service {
        application,
        server,
        unsent: _,
    } = service;
    (application, server.into_inner().into_taken())
}

// The reply that a client accepts.
pub(crate) fn take_reply<
    Q: Serialize + Drop,
    R: Drop,
    M: MessageReader<(u64, R)>,
    W: Outlet + Drop,
    const N: usize,
    const L: usize,
>(
    alloc: Global,
    replies: &[u8],
    messages: &M,
    sentinel: u8,
    each: usize,
    stops: Option<usize>,
    client: Client<W, Q, N>,
) -> Option<R>
    requires each { 0 < each }
    requires receiver { ReceiverFitsInMemory L.row }
    requires waiting { WaitingFitsInMemory W.row Q.row R.row N.row }
    ensures { IfSome result (TakesReply (M.judging messages.now).holds
        (M.judging messages.now).reads L sentinel (asker_of client).pending replies.now) }
{
    let mut waiting = Waiting { client, said: None };
    let mut receiver = Receiver::<L>::new_with_sentinel(sentinel);
    let mut reader = In::new(replies, each, stops);
    let mut room = [0u8; 1024];
    let _ended = wait_with(
        alloc,
        &mut receiver,
        messages,
        &mut reader,
        &mut waiting,
        &mut room,
    );
    let Waiting { client: _, said } = waiting;
    said
}
