//! 10,000 calls over lines that lose, change and double bytes at random. Messages are sealed with their numbers, so that a changed
//! frame that still reads as a message isn't taken for one that was sent.
ghost use Rattle.std.specs.Prelude.{◌≡◌, ⊤, None};

use crate::checks::check;
use crate::remote::served::{KEY, Line, line, sender};
use calls::{Application, Checked, Client, Numbered, Replies, Server, Service, Waiting};
use line_io::memory::In;
use link::{Hearer, OfType, Ordinary, Receiver};
use sealed::Keyed;
use std::alloc::Global;

const CALLS: u32 = 10_000;

// How often each value was executed, and how often one that wasn't called by its number. A value is called by the number above it.
#[derive(Drop)]
struct Counter {
    counts: Vec<u8>,
    strangers: u32,
}

impl Application<Numbered<u32, KEY>, Numbered<u32, KEY>> for Counter {
    ghost executes = { λ old asks says new. ⊤ };

    ghost passes = { λ number last. None };

    fn execute(&mut self, request: &Numbered<u32, KEY>) -> Numbered<u32, KEY>
        ensures { ⊤ }
    {
        let (number, value) = request.0;
        match self.counts.get_mut(value as usize) {
            Some(count) if number == u64::from(value) + 1 => *count = count.saturating_add(1),
            _ => self.strangers = self.strangers.saturating_add(1),
        }
        Keyed((number.wrapping_add(1), value.wrapping_mul(3)))
    }

    fn pass(number: u64, last: u64) -> Option<Numbered<u32, KEY>>
        ensures { result ≡ None }
    {
        let _ = (number, last);
        None
    }
}

type Device = Checked<Service<Counter, Line, Numbered<u32, KEY>, Numbered<u32, KEY>, 48>>;

type Console = Replies<Waiting<Line, Numbered<u32, KEY>, Numbered<u32, KEY>, 48>>;

// Numbers from a seed, by xorshift.
#[derive(Drop)]
struct Noise {
    state: u64,
}

impl Noise {
    fn next(&mut self) -> u64 {
        self.state ^= self.state << 13;
        self.state ^= self.state >> 7;
        self.state ^= self.state << 17;
        self.state
    }

    // The bytes, with about one in 128 lost, as many changed, and as many doubled.
    fn spoil(&mut self, alloc: Global, bytes: &[u8]) -> Vec<u8> {
        let mut spoilt = Vec::new(alloc);
        for byte in bytes {
            let dice = self.next() % 128;
            if dice == 0 {
                continue;
            }
            let change = if dice == 1 {
                1u8 << ((self.next() % 8) as u32)
            } else {
                0
            };
            let _ = spoilt.push(*byte ^ change);
            if dice == 2 {
                let _ = spoilt.push(*byte);
            }
        }
        spoilt
    }
}

// Brings bytes to a side.
fn bring<H: Hearer<(u64, Numbered<u32, KEY>)>>(
    alloc: Global,
    receiver: &mut Receiver<48>,
    bytes: &[u8],
    side: &mut H,
) {
    let mut reader = In::new(bytes, 1024, None);
    let _ = receiver.listen_with::<(u64, Numbered<u32, KEY>), _, _, _>(
        alloc,
        &Ordinary(OfType),
        &mut reader,
        side,
        &mut [0u8; 1024],
    );
}

// The two sides, and what is between them.
#[derive(Drop)]
struct Sides {
    console: Console,
    device: Device,
    noise: Noise,
    to_device: Receiver<48>,
    to_console: Receiver<48>,
}

impl Sides {
    // Brings what the client wrote to the server, and what the server wrote then to the client.
    fn turn(&mut self, alloc: Global) {
        let asked = self.console.hearer.client.replace_inner(line(alloc));
        let came = self.noise.spoil(alloc, &asked.into_inner());
        bring(alloc, &mut self.to_device, &came, &mut self.device);
        let told = self.device.hearer.server.replace_inner(line(alloc));
        let came = self.noise.spoil(alloc, &told.into_inner());
        bring(alloc, &mut self.to_console, &came, &mut self.console);
    }

    // Calls by this value, up to eight times: the number inside and the value of the reply, if one was received.
    fn call(&mut self, alloc: Global, value: u32) -> Option<(u64, u32)> {
        let number = self.console.hearer.client.next();
        let _ = self.console.hearer.client.call(Keyed((number, value)));
        for _ in 0..8 {
            self.turn(alloc);
            if let Some(Keyed(said)) = self.console.hearer.said.take() {
                return Some(said);
            }
            let _ = self.console.hearer.client.again();
        }
        self.console.hearer.client.give_up();
        None
    }
}

// Two sides with nothing between them yet, from this seed.
fn start(alloc: Global, seed: u64) -> Sides {
    let mut counts = Vec::new(alloc);
    for _ in 0..CALLS {
        let _ = counts.push(0u8);
    }
    Sides {
        console: Replies {
            hearer: Waiting {
                client: Client::new(sender(alloc, 0), 1),
                said: None,
            },
        },
        device: Checked {
            hearer: Service {
                application: Counter {
                    counts,
                    strangers: 0,
                },
                server: Server::new(sender(alloc, 0)),
                unsent: false,
            },
        },
        noise: Noise { state: seed },
        to_device: Receiver::<48>::new(),
        to_console: Receiver::<48>::new(),
    }
}

// Whether a value was executed once, and its reply says so by the number and the value that are right.
fn is_right(both: &Sides, value: u32, number: u64, said: u32) -> bool {
    let is_once = match both.device.hearer.application.counts.get(value as usize) {
        Some(count) => *count == 1,
        None => false,
    };
    is_once && number == u64::from(value) + 2 && said == value.wrapping_mul(3)
}

// Whether there is a count for each value, some was executed, none twice, and nothing that wasn't called.
fn is_counted(application: &Counter) -> bool {
    let mut most = 0u8;
    for count in &application.counts {
        most = most.max(*count);
    }
    most == 1 && application.counts.len() == CALLS as usize && application.strangers == 0
}

#[test]
fn calls_over_noisy_lines(rt: HostRuntime) {
    let mut both = start(rt.alloc(), 0x1234_5678_9ABC_DEF1);
    let mut taken = 0u32;
    for value in 0..CALLS {
        if let Some((number, said)) = both.call(rt.alloc(), value) {
            check(&rt, is_right(&both, value, number, said));
            taken = taken.saturating_add(1);
        }
    }
    // most are received in eight tries, and not all
    let is_counted = is_counted(&both.device.hearer.application);
    check(&rt, taken > 9_000 && taken < CALLS && is_counted);
}
