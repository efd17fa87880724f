//! Sends a reading twice over a line that interrupts the first send, and prints what is received.
#![tactic(auto)]

ghost use Rattle.postcard_tree.specs.ReadingLaws.{form_as};
ghost use Rattle.postcard_tree.specs.Shapes.{form_matches};

use line_io::memory::{Fault, In, Out};
use link::{Sender, receive};
use postcard::ser_flavors::Flavor;
use postcard::{AsShape, MatchesShape, Readable, Serialize, Serializer, ShapeOf, Shaped};
use std::io;

/// A temperature, in tenths of a degree, and which sensor measured it.
#[derive(Clone, Copy, Debug, PartialEq, Eq, Drop)]
pub struct Reading {
    pub sensor: u16,
    pub temperature: i16,
}

impl Shaped for Reading {
    type Shape = (u16, i16);

    ghost shape = { λ v. (v.sensor, v.temperature) };

    fn from_shape((sensor, temperature): (u16, i16)) -> Reading {
        Reading {
            sensor,
            temperature,
        }
    }
}

impl Serialize for Reading {
    fn serialize<F: Flavor>(&self, serializer: &mut Serializer<F>) -> postcard::Result<()> {
        (&self.sensor, &self.temperature).serialize(serializer)
    }
}

impl Readable for Reading {
    type Form = AsShape;

    ghost form = { form_as ⟦<Self as Shaped>⟧.shape ⟦<ShapeOf<Self> as Readable>⟧.form };
}

impl MatchesShape for Reading {
    ghost matches = { form_matches };
}

fn main(rt: HostRuntime) -> io::Result<()> {
    let reading = Reading {
        sensor: 7,
        temperature: -52,
    };
    // a line that fails once, after three bytes
    let mut bytes = [0u8; 64];
    let line = Out::new(&mut bytes, 64, Some((3, Fault::Fail)));
    let mut sender = Sender::<_, 16>::new(line);
    println!(rt; "{:?}", sender.send(&reading))?;
    println!(rt; "{:?}", sender.send(&reading))?;
    let count = sender.into_inner().moved();
    // what came over it, two bytes at a time
    let reader = In::new(&bytes[..count], 2, None);
    let received = receive::<Reading, _, 16>(rt.alloc(), reader);
    for answer in &received.answers {
        println!(rt; "{answer:?}")?;
    }
    Ok(())
}
