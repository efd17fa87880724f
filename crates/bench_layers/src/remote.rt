//! Both sides of remote calls over memory as C functions.
//!
//! A request is a `u16` and a `u32`, a reply a `bool` and a `u64`.
ghost use Rattle.std.specs.Prelude.{◌≡◌, ⊤, None};

use crate::answers::Counted;
use calls::{Application, Client, Server, Service, Waiting, serve_with, wait_with};
use line_io::memory::{In, Out};
use link::{OfType, Ordinary, Receiver, Sender};
use std::alloc::Global;

type Request = (u16, u32);

type Reply = (bool, u64);

/// The bytes of a frame at most. The longest message has 21.
const FRAME: usize = 32;

/// How many bytes one write or read moves at most.
const EACH: usize = 1024;

/// What is called: it says whether the first is even, and 2^20 times the second.
#[derive(Drop)]
struct Scale {
    executed: u64,
    sum: u64,
}

impl Application<Request, Reply> for Scale {
    ghost executes = { λ old asks says new. ⊤ };

    ghost passes = { λ number last. None };

    fn execute(&mut self, request: &Request) -> Reply
        ensures { ⊤ }
    {
        let (which, amount) = *request;
        let said = u64::from(amount) * 1_048_576;
        self.executed = self.executed.wrapping_add(1);
        self.sum = self.sum.wrapping_add(said);
        (which % 2 == 0, said)
    }

    fn pass(number: u64, last: u64) -> Option<Reply>
        ensures { result ≡ None }
    {
        let _ = (number, last);
        None
    }
}

/// Serves the requests of a line, and writes the replies to the front of the buffer. Counts the calls that were executed.
#[unsafe(no_mangle)]
pub extern "C" fn calls_c_serve(
    alloc: Global,
    requests: &[u8],
    room: &mut [u8],
    counted: &mut Counted,
) {
    let mut reader = In::new(requests, EACH, None);
    let mut service = Service {
        application: Scale {
            executed: 0,
            sum: 0,
        },
        server: Server::<Out<'_>, Request, Reply, FRAME>::new(Sender::new(Out::new(
            room, EACH, None,
        ))),
        unsent: false,
    };
    let mut receiver = Receiver::<FRAME>::new();
    let _end = serve_with(
        alloc,
        &mut receiver,
        &Ordinary(OfType),
        &mut reader,
        &mut service,
    );
    *counted = Counted {
        calls: service.application.executed,
        sum: service.application.sum,
        written: service.server.into_inner().moved(),
    };
}

/// Makes so many calls, with numbers from `first` on, writes the requests to the front of the buffer, and waits for each reply, of which
/// each read gives `each` bytes. Counts the replies. Nothing is done if `each` is 0.
#[unsafe(no_mangle)]
pub extern "C" fn calls_c_call(
    alloc: Global,
    replies: &[u8],
    each: usize,
    first: u64,
    count: u16,
    room: &mut [u8],
    counted: &mut Counted,
) {
    if each == 0 {
        return;
    }
    let mut reader = In::new(replies, each, None);
    let mut receiver = Receiver::<FRAME>::new();
    let mut waiting: Waiting<Out<'_>, Request, Reply, FRAME> = Waiting {
        client: Client::new(Sender::new(Out::new(room, EACH, None)), first),
        said: None,
    };
    let mut line = [0u8; EACH];
    let mut calls = 0u64;
    let mut sum = 0u64;
    for which in 0..count {
        let _sent = waiting.client.call((which, 65_536 + u32::from(which)));
        let _end = wait_with(
            alloc,
            &mut receiver,
            &Ordinary(OfType),
            &mut reader,
            &mut waiting,
            &mut line,
        );
        if let Some((_, said)) = waiting.said.take() {
            calls = calls.wrapping_add(1);
            sum = sum.wrapping_add(said);
        }
    }
    *counted = Counted {
        calls,
        sum,
        written: waiting.client.into_inner().moved(),
    };
}
