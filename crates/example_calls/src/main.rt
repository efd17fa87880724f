//! A sum that a server keeps: `example_calls` serves, `example_calls NUMBER AMOUNT` calls it by this number.
#![tactic(auto)]

ghost use Rattle.std.specs.Prelude.{◌≡◌, None, ⊤};

use calls::{Application, Checked, Client, Numbered, Numbering, Replies, Server, Service, Waiting};
use line_io::{Reads, Writes};
use link::{End, OfType, Ordinary, Receiver, Sender};
use sealed::Keyed;
use std::{env, io};

// The key of this interface: the CRC-32 of its name and version, `sum 1`. Take another for yours, and change it with its messages.
const KEY: u32 = 0xA0E4_4147;

// A request or a reply, with its number and a sum of both.
type Message = Numbered<u32, KEY>;

// The greatest length of a frame: two numbers of ten bytes, one of five, four of the sum, and one for the frame.
const FRAME: usize = 30;

/// Adds what it is asked to.
#[derive(Drop)]
struct Adder {
    sum: u32,
}

impl Application<u32, u32> for Adder {
    ghost executes = { λ old asks says new. ⊤ };

    ghost passes = { λ number last. None };

    fn execute(&mut self, amount: &u32) -> u32
        ensures { ⊤ }
    {
        self.sum = self.sum.saturating_add(*amount);
        self.sum
    }

    fn pass(_number: u64, _last: u64) -> Option<u32>
        ensures { result ≡ None }
    {
        None
    }
}

// Executes the calls on standard input, and replies on standard output, until the input ends.
fn serve(rt: &HostRuntime) -> Option<End> {
    let mut server = Checked {
        hearer: Service {
            application: Numbering {
                application: Adder { sum: 0 },
            },
            server: Server::<_, Message, Message, FRAME>::new(Sender::new(Writes::new(
                rt.stdout(),
            ))),
            unsent: false,
        },
    };
    Receiver::<FRAME>::new().receive_each_with::<(u64, Message), _, _, _>(
        rt.alloc(),
        &Ordinary(OfType),
        &mut Reads::new(rt.stdin()),
        &mut server,
    )
}

// Calls on standard output, and waits on standard input for the reply; nothing if the line ends before.
fn call(rt: &HostRuntime, number: u64, amount: u32) -> Option<u32> {
    let sender = Sender::new(Writes::new(rt.stdout()));
    let mut asking = Replies {
        hearer: Waiting::<_, Message, Message, FRAME> {
            client: Client::new(sender, number),
            said: None,
        },
    };
    // a call that was not sent whole may have been received all the same
    let _ = asking.hearer.client.call(Keyed((number, amount)));
    let _ = Receiver::<FRAME>::new().listen_until_with::<(u64, Message), _, _, _>(
        rt.alloc(),
        &Ordinary(OfType),
        &mut Reads::new(rt.stdin()),
        &mut asking,
        &mut [0u8; 64],
    );
    match asking.hearer.said {
        Some(Keyed((_, sum))) => Some(sum),
        None => None,
    }
}

// The number and the amount of the arguments.
fn numbers_of(words: &[String]) -> Option<(u64, u32)> {
    match words {
        [number, amount] => Some((number.parse().ok()?, amount.parse().ok()?)),
        _ => None,
    }
}

fn main(rt: HostRuntime) -> io::Result<()> {
    let mut words: Vec<String> = Vec::new(rt.alloc());
    for word in env::args(&rt)?.skip(1) {
        words.push(word)?;
    }
    match numbers_of(&words) {
        Some((number, amount)) => match call(&rt, number, amount) {
            Some(sum) => eprintln!(rt; "the sum is {sum}"),
            None => eprintln!(rt; "no reply: it was added once at most"),
        },
        None => eprintln!(rt; "{:?}", serve(&rt)),
    }
}
