//! How the message types of the module above are written and read.
// Written by postcard_derive from their declarations: change those, and write this anew.
ghost use Rattle.postcard_tree.specs.ReadingLaws.{form_as};
ghost use Rattle.postcard_tree.specs.Shapes.{form_matches};

use super::{Behind, Command, PumpReport, Refusal};
use postcard::ser_flavors::Flavor;
use postcard::{
    AsShape, Last, MatchesShape, Readable, Serialize, Serializer, ShapeOf, Shaped, Variant,
    Variants4,
};

type CommandShape = Variants4<(), (), (), u32, Variant<u32, Last<()>>>;

impl Shaped for Command {
    ghost use Rattle.pump.specs.declared.messages.Command.TheVariants.{Show, On, Off, Limit, Dose, Reset};
    ghost use Rattle.postcard_tree.specs.declared.variants.Variants4.TheVariants.{V0, V1, V2, V3, More};
    ghost use Rattle.postcard_tree.specs.declared.variants.Variant.TheVariants.{This, Other};
    ghost use Rattle.postcard_tree.specs.declared.variants.Last.TheVariants.{Last};

    type Shape = CommandShape;

    ghost shape = { λ v. elim v [
      | Show ↦ V0 tt
      | On ↦ V1 tt
      | Off ↦ V2 tt
      | Limit x0 ↦ V3 x0
      | Dose x0 ↦ More (This x0)
      | Reset ↦ More (Other (Last tt))
    ] };

    fn from_shape(it: CommandShape) -> Command {
        match it {
            Variants4::V0(()) => Command::Show,
            Variants4::V1(()) => Command::On,
            Variants4::V2(()) => Command::Off,
            Variants4::V3(p0) => Command::Limit(p0),
            Variants4::More(it) => match it {
                Variant::This(p0) => Command::Dose(p0),
                Variant::Other(Last::Last(())) => Command::Reset,
            },
        }
    }
}

impl Readable for Command {
    type Form = AsShape;

    ghost form = { form_as ⟦<Self as Shaped>⟧.shape ⟦<ShapeOf<Self> as Readable>⟧.form };
}

impl MatchesShape for Command {
    ghost matches = { form_matches };
}

impl Serialize for Command {
    fn serialize<F: Flavor>(&self, serializer: &mut Serializer<F>) -> postcard::Result<()> {
        match self {
            Command::Show => serializer.serialize_unit_variant(0),
            Command::On => serializer.serialize_unit_variant(1),
            Command::Off => serializer.serialize_unit_variant(2),
            Command::Limit(p0) => serializer.serialize_newtype_variant(3, p0),
            Command::Dose(p0) => serializer.serialize_newtype_variant(4, p0),
            Command::Reset => serializer.serialize_unit_variant(5),
        }
    }
}

type PumpReportShape = Variant<(bool, u32, u32), Variant<(), Variant<Refusal, Last<Behind>>>>;

impl Shaped for PumpReport {
    ghost use Rattle.pump.specs.declared.messages.PumpReport.TheVariants.{State, Done, Refused, Passed};
    ghost use Rattle.postcard_tree.specs.declared.variants.Variant.TheVariants.{This, Other};
    ghost use Rattle.postcard_tree.specs.declared.variants.Last.TheVariants.{Last};

    type Shape = PumpReportShape;

    ghost shape = { λ v. elim v [
      | State x0 x1 x2 ↦ This (x0, x1, x2)
      | Done ↦ Other (This tt)
      | Refused x0 ↦ Other (Other (This x0))
      | Passed x0 ↦ Other (Other (Other (Last x0)))
    ] };

    fn from_shape(it: PumpReportShape) -> PumpReport {
        match it {
            Variant::This((is_on, limit, used)) => PumpReport::State { is_on, limit, used },
            Variant::Other(Variant::This(())) => PumpReport::Done,
            Variant::Other(Variant::Other(Variant::This(p0))) => PumpReport::Refused(p0),
            Variant::Other(Variant::Other(Variant::Other(Last::Last(p0)))) => PumpReport::Passed(
                p0,
            ),
        }
    }
}

impl Readable for PumpReport {
    type Form = AsShape;

    ghost form = { form_as ⟦<Self as Shaped>⟧.shape ⟦<ShapeOf<Self> as Readable>⟧.form };
}

impl MatchesShape for PumpReport {
    ghost matches = { form_matches };
}

impl Serialize for PumpReport {
    fn serialize<F: Flavor>(&self, serializer: &mut Serializer<F>) -> postcard::Result<()> {
        match self {
            PumpReport::State { is_on, limit, used } => serializer.serialize_newtype_variant(
                0,
                &(is_on, limit, used),
            ),
            PumpReport::Done => serializer.serialize_unit_variant(1),
            PumpReport::Refused(p0) => serializer.serialize_newtype_variant(2, p0),
            PumpReport::Passed(p0) => serializer.serialize_newtype_variant(3, p0),
        }
    }
}

type BehindShape = (u64, u64);

impl Shaped for Behind {
    type Shape = BehindShape;

    ghost shape = { λ v. (v.number, v.last) };

    fn from_shape(it: BehindShape) -> Behind {
        let (number, last) = it;
        Behind { number, last }
    }
}

impl Readable for Behind {
    type Form = AsShape;

    ghost form = { form_as ⟦<Self as Shaped>⟧.shape ⟦<ShapeOf<Self> as Readable>⟧.form };
}

impl MatchesShape for Behind {
    ghost matches = { form_matches };
}

impl Serialize for Behind {
    fn serialize<F: Flavor>(&self, serializer: &mut Serializer<F>) -> postcard::Result<()> {
        (&self.number, &self.last).serialize(serializer)
    }
}

type RefusalShape = Variant<(), Last<()>>;

impl Shaped for Refusal {
    ghost use Rattle.pump.specs.declared.messages.Refusal.TheVariants.{IsOff, OverLimit};
    ghost use Rattle.postcard_tree.specs.declared.variants.Variant.TheVariants.{This, Other};
    ghost use Rattle.postcard_tree.specs.declared.variants.Last.TheVariants.{Last};

    type Shape = RefusalShape;

    ghost shape = { λ v. elim v [
      | IsOff ↦ This tt
      | OverLimit ↦ Other (Last tt)
    ] };

    fn from_shape(it: RefusalShape) -> Refusal {
        match it {
            Variant::This(()) => Refusal::IsOff,
            Variant::Other(Last::Last(())) => Refusal::OverLimit,
        }
    }
}

impl Readable for Refusal {
    type Form = AsShape;

    ghost form = { form_as ⟦<Self as Shaped>⟧.shape ⟦<ShapeOf<Self> as Readable>⟧.form };
}

impl MatchesShape for Refusal {
    ghost matches = { form_matches };
}

impl Serialize for Refusal {
    fn serialize<F: Flavor>(&self, serializer: &mut Serializer<F>) -> postcard::Result<()> {
        match self {
            Refusal::IsOff => serializer.serialize_unit_variant(0),
            Refusal::OverLimit => serializer.serialize_unit_variant(1),
        }
    }
}
