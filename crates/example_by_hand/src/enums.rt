//! Enums are the variant's index and what the variant holds.
ghost use Rattle.postcard_tree.specs.ReadingLaws.{form_as};
ghost use Rattle.postcard_tree.specs.Shapes.{form_matches};
ghost use Rattle.schemas.specs.TypeSchemas.{as_its_shape};

use crate::structs::EnumStruct;
use postcard::ser_flavors::Flavor;
use postcard::{
    AsShape, Last, MatchesShape, Readable, Result, Serialize, Serializer, ShapeOf, Shaped, Variant,
    Variants4,
};
use schemas::SchemaOfShape;

/// Variants without a payload.
#[derive(Clone, Copy, PartialEq, Eq, Drop)]
pub enum BasicEnum {
    Bib,
    Bim,
    Bap,
}

type BasicEnumShape = Variant<(), Variant<(), Last<()>>>;

impl Shaped for BasicEnum {
    ghost use Rattle.example_by_hand.specs.declared.enums.BasicEnum.TheVariants.{Bib, Bim, Bap};
    ghost use Rattle.postcard_tree.specs.declared.variants.Variant.TheVariants.{This, Other};
    ghost use Rattle.postcard_tree.specs.declared.variants.Last.TheVariants.{Last};

    type Shape = BasicEnumShape;

    ghost shape = { λ v.
        elim v [ Bib ↦ This tt | Bim ↦ Other (This tt) | Bap ↦ Other (Other (Last tt)) ] };

    fn from_shape(it: BasicEnumShape) -> BasicEnum {
        match it {
            Variant::This(()) => BasicEnum::Bib,
            Variant::Other(Variant::This(())) => BasicEnum::Bim,
            Variant::Other(Variant::Other(Last::Last(()))) => BasicEnum::Bap,
        }
    }
}

impl Readable for BasicEnum {
    type Form = AsShape;

    ghost form = { form_as ⟦<Self as Shaped>⟧.shape ⟦<ShapeOf<Self> as Readable>⟧.form };
}

impl MatchesShape for BasicEnum {
    ghost matches = { form_matches };
}

impl Serialize for BasicEnum {
    fn serialize<F: Flavor>(&self, serializer: &mut Serializer<F>) -> Result<()> {
        match self {
            BasicEnum::Bib => serializer.serialize_unit_variant(0),
            BasicEnum::Bim => serializer.serialize_unit_variant(1),
            BasicEnum::Bap => serializer.serialize_unit_variant(2),
        }
    }
}

impl SchemaOfShape for BasicEnum {
    ghost same = { as_its_shape };
}

/// Variants with a payload of each form.
#[derive(Clone, Copy, PartialEq, Eq, Drop)]
pub enum DataEnum {
    Bib(u16),
    Bim(u64),
    Bap(u8),
    Kim(EnumStruct),
    Chi { a: u8, b: u32 },
    Sho(u16, u8),
}

type DataEnumShape = Variants4<u16, u64, u8, EnumStruct, Variant<(u8, u32), Last<(u16, u8)>>>;

impl Shaped for DataEnum {
    ghost use Rattle.example_by_hand.specs.declared.enums.DataEnum.TheVariants.{Bib, Bim, Bap, Kim, Chi, Sho};
    ghost use Rattle.postcard_tree.specs.declared.variants.Variants4.TheVariants.{V0, V1, V2, V3, More};
    ghost use Rattle.postcard_tree.specs.declared.variants.Variant.TheVariants.{This, Other};
    ghost use Rattle.postcard_tree.specs.declared.variants.Last.TheVariants.{Last};

    type Shape = DataEnumShape;

    ghost shape = { λ v. elim v [
      | Bib n ↦ V0 n
      | Bim n ↦ V1 n
      | Bap n ↦ V2 n
      | Kim s ↦ V3 s
      | Chi a b ↦ More (This (a, b))
      | Sho a b ↦ More (Other (Last (a, b)))
    ] };

    fn from_shape(it: DataEnumShape) -> DataEnum {
        match it {
            Variants4::V0(number) => DataEnum::Bib(number),
            Variants4::V1(number) => DataEnum::Bim(number),
            Variants4::V2(byte) => DataEnum::Bap(byte),
            Variants4::V3(fields) => DataEnum::Kim(fields),
            Variants4::More(Variant::This((a, b))) => DataEnum::Chi { a, b },
            Variants4::More(Variant::Other(Last::Last((a, b)))) => DataEnum::Sho(a, b),
        }
    }
}

impl Readable for DataEnum {
    type Form = AsShape;

    ghost form = { form_as ⟦<Self as Shaped>⟧.shape ⟦<ShapeOf<Self> as Readable>⟧.form };
}

impl MatchesShape for DataEnum {
    ghost matches = { form_matches };
}

impl Serialize for DataEnum {
    fn serialize<F: Flavor>(&self, serializer: &mut Serializer<F>) -> Result<()> {
        match self {
            DataEnum::Bib(number) => serializer.serialize_newtype_variant(0, number),
            DataEnum::Bim(number) => serializer.serialize_newtype_variant(1, number),
            DataEnum::Bap(byte) => serializer.serialize_newtype_variant(2, byte),
            DataEnum::Kim(fields) => serializer.serialize_newtype_variant(3, fields),
            DataEnum::Chi { a, b } => serializer.serialize_newtype_variant(4, &(a, b)),
            DataEnum::Sho(a, b) => serializer.serialize_newtype_variant(5, &(a, b)),
        }
    }
}

impl SchemaOfShape for DataEnum {
    ghost same = { as_its_shape };
}
