//! Calls whose messages are sealed with their numbers, as bytes.
ghost use Rattle.std.specs.Prelude.{◌<◌};

use crate::checks::{are_equal, check};
use crate::remote::checks::{is_number, is_read};
use crate::remote::served::{Adder, KEY, Line, line, sender};
use calls::{Checked, Client, Numbered, Numbering, Replies, Server, Service, Waiting};
use line_io::memory::In;
use link::{OfType, Ordinary, Receiver};
use sealed::{Keyed, crc32};
use std::alloc::Global;

type Device = Checked<Service<Numbering<Adder>, Line, Numbered<u32, KEY>, Numbered<u32, KEY>, 16>>;

// The call 5 of 7: 5, and 5 and 7 with their sum, which is A2CA7319 as zlib has it, and 7267E860 under the key.
const CALL: [u8; 10] = [0, 8, 5, 5, 7, 0x60, 0xE8, 0x67, 0x72, 0];

// The reply to it, 7: 5, and 6 and 7 with their sum, which is 89E720DA as zlib has it, and 594ABBA3 under the key.
const REPLY: [u8; 10] = [0, 8, 5, 6, 7, 0xA3, 0xBB, 0x4A, 0x59, 0];

// What a sender tells where it sends that twice: a zero in front alone.
const TWICE: [u8; 19] = [
    0, 8, 5, 6, 7, 0xA3, 0xBB, 0x4A, 0x59, 0, 8, 5, 6, 7, 0xA3, 0xBB, 0x4A, 0x59, 0,
];

// Whether a device of a new adder that is given these bytes executes so many calls, and replies this.
fn replies(alloc: Global, bytes: &[u8], calls: u32, wanted: &[u8]) -> bool {
    let application = Numbering {
        application: Adder::new(),
    };
    let mut device: Device = Checked {
        hearer: Service {
            application,
            server: Server::new(sender(alloc, 0)),
            unsent: false,
        },
    };
    let mut reader = In::new(bytes, 3, None);
    let mut receiver = Receiver::<16>::new();
    let _ = receiver.receive_each_with::<(u64, Numbered<u32, KEY>), _, _, _>(
        alloc,
        &Ordinary(OfType),
        &mut reader,
        &mut device,
    );
    let Service {
        application,
        server,
        ..
    } = device.hearer;
    application.application.executed == calls
        && are_equal(&server.into_inner().into_inner(), wanted)
}

// By the number 6 outside, and 5 inside.
const OTHER: [u8; 10] = [0, 8, 6, 5, 7, 0x60, 0xE8, 0x67, 0x72, 0];

// The call 5 of 7, another request by that number, and the call again. The other one is 8, with its sum, which is 32756E88 as zlib has it,
// and E2D8F5F1 under the key.
const CHANGED: [u8; 30] = [
    0, 8, 5, 5, 7, 0x60, 0xE8, 0x67, 0x72, 0, 0, 8, 5, 5, 8, 0xF1, 0xF5, 0xD8, 0xE2, 0, 0, 8, 5, 5,
    7, 0x60, 0xE8, 0x67, 0x72, 0,
];

// The call 5 of 7 under no key, and under that of `adder 2`, which is 49A4CAC3 as zlib has it.
const STRANGE: [u8; 19] = [
    0, 8, 5, 5, 7, 0x19, 0x73, 0xCA, 0xA2, 0, 8, 5, 5, 7, 0xDA, 0xB9, 0x6E, 0xEB, 0,
];

// What a device is given, how many calls it executes, and what it replies: the first sum of an adder is what it was asked to add. A reply is
// no request, though both are of one type; of two numbers that are whole the one inside is compared; and what another interface calls is
// damage.
//
// Another request by the last number is neither executed nor answered by the reply to the first; the first one is, again. (A message that
// ends in its own sum has one sum for all, so that a server that compared sums would take the two for one.)
const GIVEN: [(&[u8], u32, &[u8]); 5] = [
    (&CALL, 1, &REPLY),
    (&REPLY, 0, &[]),
    (&OTHER, 0, &[]),
    (&CHANGED, 1, &TWICE),
    (&STRANGE, 0, &[]),
];

#[test]
fn a_device_executes_what_is_sealed_for_it(rt: HostRuntime) {
    for (bytes, calls, wanted) in GIVEN {
        check(&rt, replies(rt.alloc(), bytes, calls, wanted));
    }
    // a call in which one bit was changed isn't executed
    for place in 1..9usize {
        for bit in 0..8u32 {
            let mut changed = CALL;
            changed[place] ^= 1u8 << bit;
            check(&rt, replies(rt.alloc(), &changed, 0, &[]));
        }
    }
}

type Console = Replies<Waiting<Line, Numbered<u32, KEY>, Numbered<u32, KEY>, 16>>;

// Whether a client that calls 7 by this number takes of these bytes, so many at a time, the reply to it, which is 7; or none. The call by
// the number 5 is sent as its bytes.
fn takes(alloc: Global, number: u64, bytes: &[u8], each: usize, is_reply: bool) -> bool
    requires { 0 < each }
{
    let mut client = Client::new(sender(alloc, 0), number);
    let is_sent = client.call(Keyed((number, 7))).is_ok();
    let asked = client.replace_inner(line(alloc)).into_inner();
    let hearer = Waiting { client, said: None };
    let mut waiting: Console = Replies { hearer };
    let mut receiver = Receiver::<16>::new();
    let end = receiver.listen_until_with::<(u64, Numbered<u32, KEY>), _, _, _>(
        alloc,
        &Ordinary(OfType),
        &mut In::new(bytes, each, None),
        &mut waiting,
        &mut [0u8; 64],
    );
    let Waiting { client, said } = waiting.hearer;
    let is_right = match said {
        Some(Keyed(said)) => is_reply && end.is_none() && said == (6, 7),
        None => !is_reply && is_read(end) && is_number(client.pending(), number),
    };
    is_sent && is_right && (number != 5 || are_equal(&asked, &CALL))
}

// A line that gives back what was sent over it is damage, and a reply by another number isn't taken.
#[test]
fn a_client_takes_its_reply_alone(rt: HostRuntime) {
    let alloc = rt.alloc();
    let are_right = takes(alloc, 5, &REPLY, 1, true)
        && takes(alloc, 5, &CALL, 1, false)
        && takes(alloc, 6, &OTHER, 16, false);
    check(&rt, are_right);
}

// Five bytes that differ from zeros in 31 bits in a row as they are printed, the highest bit of each first, and in 39 as a serial line sends
// them: both have the sum C622F71D.
#[test]
fn a_longer_burst_has_one_sum(rt: HostRuntime) {
    let sums = [crc32(&[0; 5]), crc32(&[0x05, 0x8F, 0xF4, 0x6A, 0x70])];
    check(&rt, sums == [0xC622_F71D; 2]);
}
