//! Three readings over a line, and what is received of them: what a user proves of a program of their own.
#![tactic(auto)]

ghost use Rattle.std.specs.Prelude.{◌≡◌, [], ◌∷◌, Ok, Err};
ghost use Rattle.example_exchange.specs.Broken.{HeardByFront};
ghost use Rattle.example_exchange.specs.declared.reading.Reading.{Reading as Readings};
ghost use Rattle.link.specs.declared.sender.SendError.TheVariants.{Line};
ghost use Rattle.link.specs.declared.receiver.Answer.TheVariants.{Value, Damaged};
ghost use Rattle.line_io.specs.declared.transfers.End.TheVariants.{Ended};

mod reading;

use line_io::memory::{Fault, In, OwnedOut};
use link::{Answer, End, Received, SendError, Sender, receive};
use postcard::Readable;
pub use reading::Reading;
use std::alloc::Global;

/// Readings that are alike are equal.
fn alike()
    ensures { (v w : Readings) → ⟦<Reading as Readable>⟧.form.alike v w → v ≡ w }
{}

/// The results of three sends, and what was received of them.
#[derive(Drop)]
pub struct Exchanged {
    pub first: Result<(), SendError>,
    pub second: Result<(), SendError>,
    pub third: Result<(), SendError>,
    pub answers: Vec<Answer<Reading>>,
    pub end: End,
}

/// Sends three readings over a line that fails once, after so many bytes, or never; and receives what came over it.
///
/// If all three sends return `Ok`, these three readings are received. If only the second is interrupted, what is received of it depends on
/// how many of its bytes were written.
pub fn exchange(
    alloc: Global,
    fault: Option<usize>,
    a: &Reading,
    b: &Reading,
    c: &Reading,
) -> Exchanged
    ensures whole { result.first ≡ Ok tt → result.second ≡ Ok tt → result.third ≡ Ok tt
        → result.end ≡ Ended
        → result.answers.items ≡ Value a.now ∷ Value b.now ∷ Value c.now ∷ [] }
    ensures broken { result.first ≡ Ok tt → result.second ≡ Err Line → result.third ≡ Ok tt
        → result.end ≡ Ended
        → HeardByFront ⟦<Reading as Readable>⟧.form.writes b.now result.answers.items
        (Value a.now ∷ Value c.now ∷ []) (Value a.now ∷ Damaged ∷ Value c.now ∷ [])
        (Value a.now ∷ Value b.now ∷ Value c.now ∷ []) }
{
    alike();
    link_laws::carries::<Reading>();
    let fault = match fault {
        Some(before) => Some((before, Fault::Fail)),
        None => None,
    };
    let mut sender = Sender::<_, 16>::new(OwnedOut::new(Vec::new(alloc), 64, fault));
    let first = sender.send(a);
    let second = sender.send(b);
    let third = sender.send(c);
    let out = sender.into_inner();
    let bytes = out.into_bytes();
    let Received {
        answers,
        end,
        reader: _,
    } = receive::<Reading, _, 16>(alloc, In::new(&bytes, 64, None));
    Exchanged {
        first,
        second,
        third,
        answers,
        end,
    }
}

/// The results of two sends of a reading, and what was received of them.
#[derive(Drop)]
pub struct SentAgain {
    pub first: Result<(), SendError>,
    pub second: Result<(), SendError>,
    pub answers: Vec<Answer<Reading>>,
    pub end: End,
}

/// Sends a reading over a line that fails once, after so many bytes, sends it again, and receives what came, two bytes at a time.
///
/// If only the first send is interrupted, the reading is received once, or after `Damaged`, or twice.
pub fn send_again(alloc: Global, before: usize, reading: &Reading) -> SentAgain
    ensures { result.first ≡ Err Line → result.second ≡ Ok tt → result.end ≡ Ended
        → HeardByFront ⟦<Reading as Readable>⟧.form.writes reading.now result.answers.items
        (Value reading.now ∷ []) (Damaged ∷ Value reading.now ∷ [])
        (Value reading.now ∷ Value reading.now ∷ []) }
{
    alike();
    link_laws::carries::<Reading>();
    let line = OwnedOut::new(Vec::new(alloc), 64, Some((before, Fault::Fail)));
    let mut sender = Sender::<_, 16>::new(line);
    let first = sender.send(reading);
    let second = sender.send(reading);
    let out = sender.into_inner();
    let bytes = out.into_bytes();
    let Received {
        answers,
        end,
        reader: _,
    } = receive::<Reading, _, 16>(alloc, In::new(&bytes, 2, None));
    SentAgain {
        first,
        second,
        answers,
        end,
    }
}

#[cfg(test)]
mod tests;
