//! `link`: receiving by a reader that is a value.
ghost use Rattle.link.specs.Judged.{HoldsBy};

use crate::checks::{check, is_answer};
use link::{Answer, MessageReader, NoMemory, OfType, Ordinary, OwnedReceiver, Receiver, Strict};
use postcard::Readable;
use std::alloc::Global;

/// Reads a `u32`, strictly where it was told so when the program ran.
#[derive(Clone, Copy, Drop)]
pub struct Chosen {
    pub strict: bool,
}

impl MessageReader<u32> for Chosen {
    ghost judging = { λ r. record {
      holds = HoldsBy r.strict ⟦<u32 as Readable>⟧.form.takes;
      reads = ⟦<u32 as Readable>⟧.form.reads;
      growing = ⟦<u32 as Readable>⟧.form.growing;
    } };

    fn read(&self, alloc: Global, message: &[u8], stretch: usize) -> Result<Option<u32>, NoMemory> {
        if self.strict {
            return Strict(OfType).read(alloc, message, stretch);
        }
        Ordinary(OfType).read(alloc, message, stretch)
    }

    fn show(&self) {
        if self.strict {
            MessageReader::<u32>::show(&Strict(OfType));
        } else {
            MessageReader::<u32>::show(&Ordinary(OfType));
        }
    }
}

// 300 with a byte after it.
const LONGER: [u8; 5] = [4, 0xAC, 2, 7, 0];

#[test]
fn pushed_by_a_reader(rt: HostRuntime) {
    let alloc = rt.alloc();
    let mut receiver = Receiver::<4>::new();
    let pushed = receiver.push_with(alloc, &Chosen { strict: false }, &LONGER);
    check(&rt, pushed.used == 5 && pushed.stretch == 4);
    check(&rt, is_answer(&pushed.answer, &Answer::Value(300)));
    let pushed = receiver.push_with(alloc, &Chosen { strict: true }, &LONGER);
    check(&rt, is_answer(&pushed.answer, &Answer::Damaged));
    let Ok(mut receiver) = OwnedReceiver::new(alloc, 4, 0) else {
        return check(&rt, false);
    };
    let pushed = receiver.push_with(alloc, &Chosen { strict: false }, &LONGER);
    check(&rt, is_answer(&pushed.answer, &Answer::Value(300)));
}
