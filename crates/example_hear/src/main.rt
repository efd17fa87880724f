//! Prints each reading that comes over standard input, as soon as its last byte was read; with any argument also where damage lies.
#![tactic(auto)]

mod places;
mod reading;

ghost use Rattle.std.specs.Prelude.{◌≡◌, ⊤};
ghost use Rattle.link.specs.Each.{HeardAnyhow, heard_anyhow};

use line_io::Reads;
use link::{Answer, Hearer, OfType, Ordinary, Receiver};
use places::print_places;
use reading::Reading;
use std::{env, io};

/// Prints results, until a line can't be printed.
#[derive(Drop)]
struct Printing<'a> {
    rt: &'a HostRuntime,
    failed: bool,
}

impl<'a> Hearer<Reading> for Printing<'a> {
    ghost hears = { HeardAnyhow };

    ghost laws = { heard_anyhow };

    ghost enough = { λ it. it.failed };

    ghost settled = { λ _. ⊤ };

    fn hear(&mut self, answer: Answer<Reading>)
        ensures { ⊤ }
    {
        if println!(self.rt; "{answer:?}").is_err() {
            self.failed = true;
        }
    }

    fn pause(&mut self)
        ensures heard { ⊤ }
        ensures settles { ⊤ }
    {}

    fn has_enough(&self) -> bool
        ensures { result ≡ self.now.failed }
    {
        self.failed
    }
}

fn main(rt: HostRuntime) -> io::Result<()> {
    let mut reader = Reads::new(rt.stdin());
    if env::args(&rt)?.len() > 1 {
        return print_places(&rt, &mut reader);
    }
    let mut receiver = Receiver::<16>::new();
    let mut printing = Printing {
        rt: &rt,
        failed: false,
    };
    let end = receiver.receive_each_with(rt.alloc(), &Ordinary(OfType), &mut reader, &mut printing);
    eprintln!(rt; "{end:?}")
}
