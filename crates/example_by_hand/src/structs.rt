//! Structs are their fields in order.
ghost use Rattle.postcard_tree.specs.ReadingLaws.{form_as};
ghost use Rattle.postcard_tree.specs.Shapes.{form_matches};
ghost use Rattle.schemas.specs.TypeSchemas.{as_its_shape};

use postcard::ser_flavors::Flavor;
use postcard::{AsShape, MatchesShape, Readable, Result, Serialize, Serializer, ShapeOf, Shaped};
use schemas::SchemaOfShape;

/// Bytes and a text that are borrowed from what was read.
#[derive(Drop)]
pub struct RefStruct<'a> {
    pub bytes: &'a [u8],
    pub text: &'a str,
}

impl<'a> Shaped for RefStruct<'a> {
    type Shape = (&'a [u8], &'a str);

    ghost shape = { λ v. (v.bytes, v.text) };

    fn from_shape((bytes, text): (&'a [u8], &'a str)) -> RefStruct<'a> {
        RefStruct { bytes, text }
    }
}

impl<'a> Readable for RefStruct<'a> {
    type Form = AsShape;

    ghost form = { form_as ⟦<Self as Shaped>⟧.shape ⟦<ShapeOf<Self> as Readable>⟧.form };
}

impl<'a> MatchesShape for RefStruct<'a> {
    ghost matches = { form_matches };
}

impl<'a> Serialize for RefStruct<'a> {
    fn serialize<F: Flavor>(&self, serializer: &mut Serializer<F>) -> Result<()> {
        (&self.bytes, &self.text).serialize(serializer)
    }
}

impl<'a> SchemaOfShape for RefStruct<'a> {
    ghost same = { as_its_shape };
}

/// A number under a name of its own.
#[derive(Clone, Copy, PartialEq, Eq, Drop)]
pub struct NewTypeStruct(pub u32);

impl Shaped for NewTypeStruct {
    type Shape = u32;

    ghost shape = { λ v. v.0 };

    fn from_shape(number: u32) -> NewTypeStruct {
        NewTypeStruct(number)
    }
}

impl Readable for NewTypeStruct {
    type Form = AsShape;

    ghost form = { form_as ⟦<Self as Shaped>⟧.shape ⟦<ShapeOf<Self> as Readable>⟧.form };
}

impl MatchesShape for NewTypeStruct {
    ghost matches = { form_matches };
}

impl Serialize for NewTypeStruct {
    fn serialize<F: Flavor>(&self, serializer: &mut Serializer<F>) -> Result<()> {
        self.0.serialize(serializer)
    }
}

impl SchemaOfShape for NewTypeStruct {
    ghost same = { as_its_shape };
}

/// Two numbers by their places.
#[derive(Clone, Copy, PartialEq, Eq, Drop)]
pub struct TupleStruct(pub u8, pub u16);

impl Shaped for TupleStruct {
    type Shape = (u8, u16);

    ghost shape = { λ v. (v.0, v.1) };

    fn from_shape((first, second): (u8, u16)) -> TupleStruct {
        TupleStruct(first, second)
    }
}

impl Readable for TupleStruct {
    type Form = AsShape;

    ghost form = { form_as ⟦<Self as Shaped>⟧.shape ⟦<ShapeOf<Self> as Readable>⟧.form };
}

impl MatchesShape for TupleStruct {
    ghost matches = { form_matches };
}

impl Serialize for TupleStruct {
    fn serialize<F: Flavor>(&self, serializer: &mut Serializer<F>) -> Result<()> {
        (&self.0, &self.1).serialize(serializer)
    }
}

impl SchemaOfShape for TupleStruct {
    ghost same = { as_its_shape };
}

/// A byte and a number, the payload of a variant of `DataEnum`.
#[derive(Clone, Copy, PartialEq, Eq, Drop)]
pub struct EnumStruct {
    pub eight: u8,
    pub sixt: u16,
}

impl Shaped for EnumStruct {
    type Shape = (u8, u16);

    ghost shape = { λ v. (v.eight, v.sixt) };

    fn from_shape((eight, sixt): (u8, u16)) -> EnumStruct {
        EnumStruct { eight, sixt }
    }
}

impl Readable for EnumStruct {
    type Form = AsShape;

    ghost form = { form_as ⟦<Self as Shaped>⟧.shape ⟦<ShapeOf<Self> as Readable>⟧.form };
}

impl MatchesShape for EnumStruct {
    ghost matches = { form_matches };
}

impl Serialize for EnumStruct {
    fn serialize<F: Flavor>(&self, serializer: &mut Serializer<F>) -> Result<()> {
        (&self.eight, &self.sixt).serialize(serializer)
    }
}

impl SchemaOfShape for EnumStruct {
    ghost same = { as_its_shape };
}
