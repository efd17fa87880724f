//! A server that listens read by read as C functions, of requests as they are, and of sealed ones.
//!
//! A request is a `u16` and a `u32`, a reply a `bool` and a `u64`.
ghost use Rattle.std.specs.Prelude.{◌≡◌, ⊤, None};

use crate::answers::Counted;
use calls::{Application, Checked, Numbered, Numbering, Server, Service};
use line_io::memory::{In, Out};
use link::{OfType, Ordinary, Receiver, Sender};
use std::alloc::Global;

type Request = (u16, u32);

type Reply = (bool, u64);

/// The bytes of a frame at most. The longest message has 35.
const FRAME: usize = 48;

/// How many bytes one write or read moves at most.
const EACH: usize = 1024;

/// What is called: it says whether the first is even, and 2^20 times the second.
#[derive(Drop)]
struct Scale {
    executed: u64,
    sum: u64,
}

impl Application<Request, Reply> for Scale {
    ghost executes = { λ old asks says new. ⊤ };

    ghost passes = { λ number last. None };

    fn execute(&mut self, request: &Request) -> Reply
        ensures { ⊤ }
    {
        let (which, amount) = *request;
        let said = u64::from(amount) * 1_048_576;
        self.executed = self.executed.wrapping_add(1);
        self.sum = self.sum.wrapping_add(said);
        (which % 2 == 0, said)
    }

    fn pass(number: u64, last: u64) -> Option<Reply>
        ensures { result ≡ None }
    {
        let _ = (number, last);
        None
    }
}

/// Serves the requests of a line read by read, of which each gives `each` bytes, and writes the replies to the front of the room.
/// Nothing is done where `each` is 0.
#[unsafe(no_mangle)]
pub extern "C" fn calls_c_listen(
    alloc: Global,
    requests: &[u8],
    each: usize,
    room: &mut [u8],
    counted: &mut Counted,
) {
    if each == 0 {
        return;
    }
    let mut reader = In::new(requests, each, None);
    let mut service = Service {
        application: Scale {
            executed: 0,
            sum: 0,
        },
        server: Server::<Out<'_>, Request, Reply, FRAME>::new(Sender::new(Out::new(
            room, EACH, None,
        ))),
        unsent: false,
    };
    let mut receiver = Receiver::<FRAME>::new();
    let mut line = [0u8; EACH];
    for _ in 0..=requests.len() {
        let end = receiver.listen_with(
            alloc,
            &Ordinary(OfType),
            &mut reader,
            &mut service,
            &mut line,
        );
        if end.is_some() {
            break;
        }
    }
    *counted = Counted {
        calls: service.application.executed,
        sum: service.application.sum,
        written: service.server.into_inner().moved(),
    };
}

/// The same of requests that are sealed with their number inside, as the replies are.
#[unsafe(no_mangle)]
pub extern "C" fn calls_c_listen_sealed(
    alloc: Global,
    requests: &[u8],
    each: usize,
    room: &mut [u8],
    counted: &mut Counted,
) {
    if each == 0 {
        return;
    }
    let mut reader = In::new(requests, each, None);
    let mut checked = Checked {
        hearer: Service {
            application: Numbering {
                application: Scale {
                    executed: 0,
                    sum: 0,
                },
            },
            server: Server::<Out<'_>, Numbered<Request, 0>, Numbered<Reply, 0>, FRAME>::new(
                Sender::new(Out::new(room, EACH, None)),
            ),
            unsent: false,
        },
    };
    let mut receiver = Receiver::<FRAME>::new();
    let mut line = [0u8; EACH];
    for _ in 0..=requests.len() {
        let end = receiver.listen_with(
            alloc,
            &Ordinary(OfType),
            &mut reader,
            &mut checked,
            &mut line,
        );
        if end.is_some() {
            break;
        }
    }
    let service = checked.hearer;
    *counted = Counted {
        calls: service.application.application.executed,
        sum: service.application.application.sum,
        written: service.server.into_inner().moved(),
    };
}
