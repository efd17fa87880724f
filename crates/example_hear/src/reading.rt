//! The message type.
ghost use Rattle.postcard_tree.specs.ReadingLaws.{form_as};
ghost use Rattle.postcard_tree.specs.Shapes.{form_matches};

use postcard::{AsShape, MatchesShape, Readable, ShapeOf, Shaped};

/// A temperature, in tenths of a degree, and which sensor measured it.
#[derive(Clone, Copy, Debug, PartialEq, Eq, Drop)]
pub struct Reading {
    pub sensor: u16,
    pub temperature: i16,
}

impl Shaped for Reading {
    type Shape = (u16, i16);

    ghost shape = { λ v. (v.sensor, v.temperature) };

    fn from_shape((sensor, temperature): (u16, i16)) -> Reading {
        Reading {
            sensor,
            temperature,
        }
    }
}

impl Readable for Reading {
    type Form = AsShape;

    ghost form = { form_as ⟦<Self as Shaped>⟧.shape ⟦<ShapeOf<Self> as Readable>⟧.form };
}

impl MatchesShape for Reading {
    ghost matches = { form_matches };
}
