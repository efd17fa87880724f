//! How the message types of the module above are written and read.
// Written by postcard_derive from their declarations: change those, and write this anew.
ghost use Rattle.schemas.specs.TypeSchemas.{as_its_shape};
ghost use Rattle.postcard_tree.specs.ReadingLaws.{form_as};
ghost use Rattle.postcard_tree.specs.Shapes.{form_matches};

use super::{
    Address, BTreeMap, Command, Config, Event, Level, LogRecord, Packet, Ping, Report,
    SensorReading,
};
use postcard::ser_flavors::Flavor;
use postcard::{
    AsShape, Last, MatchesShape, Readable, Serialize, Serializer, ShapeOf, Shaped, Variant,
    Variants4,
};
use schemas::SchemaOfShape;

type SensorReadingShape = (u16, u64, i16, bool);

impl Shaped for SensorReading {
    type Shape = SensorReadingShape;

    ghost shape = { λ v. (v.sensor, v.at, v.celsius, v.valid) };

    fn from_shape(it: SensorReadingShape) -> SensorReading {
        let (sensor, at, celsius, valid) = it;
        SensorReading {
            sensor,
            at,
            celsius,
            valid,
        }
    }
}

impl Readable for SensorReading {
    type Form = AsShape;

    ghost form = { form_as ⟦<Self as Shaped>⟧.shape ⟦<ShapeOf<Self> as Readable>⟧.form };
}

impl MatchesShape for SensorReading {
    ghost matches = { form_matches };
}

impl Serialize for SensorReading {
    fn serialize<F: Flavor>(&self, serializer: &mut Serializer<F>) -> postcard::Result<()> {
        (&self.sensor, &self.at, &self.celsius, &self.valid).serialize(serializer)
    }
}

impl SchemaOfShape for SensorReading {
    ghost same = { as_its_shape };
}

type LevelShape = Variant<(), Variant<(), Last<()>>>;

impl Shaped for Level {
    ghost use Rattle.example_station.specs.declared.messages.Level.TheVariants.{Error, Warning, Info};
    ghost use Rattle.postcard_tree.specs.declared.variants.Variant.TheVariants.{This, Other};
    ghost use Rattle.postcard_tree.specs.declared.variants.Last.TheVariants.{Last};

    type Shape = LevelShape;

    ghost shape = { λ v. elim v [
      | Error ↦ This tt
      | Warning ↦ Other (This tt)
      | Info ↦ Other (Other (Last tt))
    ] };

    fn from_shape(it: LevelShape) -> Level {
        match it {
            Variant::This(()) => Level::Error,
            Variant::Other(Variant::This(())) => Level::Warning,
            Variant::Other(Variant::Other(Last::Last(()))) => Level::Info,
        }
    }
}

impl Readable for Level {
    type Form = AsShape;

    ghost form = { form_as ⟦<Self as Shaped>⟧.shape ⟦<ShapeOf<Self> as Readable>⟧.form };
}

impl MatchesShape for Level {
    ghost matches = { form_matches };
}

impl Serialize for Level {
    fn serialize<F: Flavor>(&self, serializer: &mut Serializer<F>) -> postcard::Result<()> {
        match self {
            Level::Error => serializer.serialize_unit_variant(0),
            Level::Warning => serializer.serialize_unit_variant(1),
            Level::Info => serializer.serialize_unit_variant(2),
        }
    }
}

impl SchemaOfShape for Level {
    ghost same = { as_its_shape };
}

type LogRecordShape = (Level, u64, String, Option<u16>);

impl Shaped for LogRecord {
    type Shape = LogRecordShape;

    ghost shape = { λ v. (v.level, v.at, v.text, v.source) };

    fn from_shape(it: LogRecordShape) -> LogRecord {
        let (level, at, text, source) = it;
        LogRecord {
            level,
            at,
            text,
            source,
        }
    }
}

impl Readable for LogRecord {
    type Form = AsShape;

    ghost form = { form_as ⟦<Self as Shaped>⟧.shape ⟦<ShapeOf<Self> as Readable>⟧.form };
}

impl MatchesShape for LogRecord {
    ghost matches = { form_matches };
}

impl Serialize for LogRecord {
    fn serialize<F: Flavor>(&self, serializer: &mut Serializer<F>) -> postcard::Result<()> {
        (&self.level, &self.at, &self.text, &self.source).serialize(serializer)
    }
}

impl SchemaOfShape for LogRecord {
    ghost same = { as_its_shape };
}

impl Shaped for Address {
    type Shape = u32;

    ghost shape = { λ v. v.0 };

    fn from_shape(p0: u32) -> Address {
        Address(p0)
    }
}

impl Readable for Address {
    type Form = AsShape;

    ghost form = { form_as ⟦<Self as Shaped>⟧.shape ⟦<ShapeOf<Self> as Readable>⟧.form };
}

impl MatchesShape for Address {
    ghost matches = { form_matches };
}

impl Serialize for Address {
    fn serialize<F: Flavor>(&self, serializer: &mut Serializer<F>) -> postcard::Result<()> {
        self.0.serialize(serializer)
    }
}

impl SchemaOfShape for Address {
    ghost same = { as_its_shape };
}

impl Shaped for Ping {
    type Shape = ();

    ghost shape = { λ v. tt };

    fn from_shape((): ()) -> Ping {
        Ping
    }
}

impl Readable for Ping {
    type Form = AsShape;

    ghost form = { form_as ⟦<Self as Shaped>⟧.shape ⟦<ShapeOf<Self> as Readable>⟧.form };
}

impl MatchesShape for Ping {
    ghost matches = { form_matches };
}

impl Serialize for Ping {
    fn serialize<F: Flavor>(&self, serializer: &mut Serializer<F>) -> postcard::Result<()> {
        ().serialize(serializer)
    }
}

impl SchemaOfShape for Ping {
    ghost same = { as_its_shape };
}

type CommandShape = Variants4<
    (),
    SensorReading,
    (i32, i32),
    (u8, u16),
    Variant<String, Last<Vec<SensorReading>>>,
>;

impl Shaped for Command {
    ghost use Rattle.example_station.specs.declared.messages.Command.TheVariants.{Stop, Sample, Move, Both, Say, Many};
    ghost use Rattle.postcard_tree.specs.declared.variants.Variants4.TheVariants.{V0, V1, V2, V3, More};
    ghost use Rattle.postcard_tree.specs.declared.variants.Variant.TheVariants.{This, Other};
    ghost use Rattle.postcard_tree.specs.declared.variants.Last.TheVariants.{Last};

    type Shape = CommandShape;

    ghost shape = { λ v. elim v [
      | Stop ↦ V0 tt
      | Sample x0 ↦ V1 x0
      | Move x0 x1 ↦ V2 (x0, x1)
      | Both x0 x1 ↦ V3 (x0, x1)
      | Say x0 ↦ More (This x0)
      | Many x0 ↦ More (Other (Last x0))
    ] };

    fn from_shape(it: CommandShape) -> Command {
        match it {
            Variants4::V0(()) => Command::Stop,
            Variants4::V1(p0) => Command::Sample(p0),
            Variants4::V2((x, y)) => Command::Move { x, y },
            Variants4::V3((p0, p1)) => Command::Both(p0, p1),
            Variants4::More(it) => match it {
                Variant::This(p0) => Command::Say(p0),
                Variant::Other(Last::Last(p0)) => Command::Many(p0),
            },
        }
    }
}

impl Readable for Command {
    type Form = AsShape;

    ghost form = { form_as ⟦<Self as Shaped>⟧.shape ⟦<ShapeOf<Self> as Readable>⟧.form };
}

impl MatchesShape for Command {
    ghost matches = { form_matches };
}

impl Serialize for Command {
    fn serialize<F: Flavor>(&self, serializer: &mut Serializer<F>) -> postcard::Result<()> {
        match self {
            Command::Stop => serializer.serialize_unit_variant(0),
            Command::Sample(p0) => serializer.serialize_newtype_variant(1, p0),
            Command::Move { x, y } => serializer.serialize_newtype_variant(2, &(x, y)),
            Command::Both(p0, p1) => serializer.serialize_newtype_variant(3, &(p0, p1)),
            Command::Say(p0) => serializer.serialize_newtype_variant(4, p0),
            Command::Many(p0) => serializer.serialize_newtype_variant(5, p0),
        }
    }
}

impl SchemaOfShape for Command {
    ghost same = { as_its_shape };
}

type ConfigShape = (
    String,
    Vec<SensorReading>,
    Option<Level>,
    [u16; 4],
    BTreeMap<u16, String>,
);

impl Shaped for Config {
    type Shape = ConfigShape;

    ghost shape = { λ v. (v.name, v.readings, v.fallback, v.gains, v.labels) };

    fn from_shape(it: ConfigShape) -> Config {
        let (name, readings, fallback, gains, labels) = it;
        Config {
            name,
            readings,
            fallback,
            gains,
            labels,
        }
    }
}

impl Readable for Config {
    type Form = AsShape;

    ghost form = { form_as ⟦<Self as Shaped>⟧.shape ⟦<ShapeOf<Self> as Readable>⟧.form };
}

impl MatchesShape for Config {
    ghost matches = { form_matches };
}

impl Serialize for Config {
    fn serialize<F: Flavor>(&self, serializer: &mut Serializer<F>) -> postcard::Result<()> {
        (
            &self.name,
            &self.readings,
            &self.fallback,
            &self.gains,
            &self.labels,
        )
            .serialize(serializer)
    }
}

impl SchemaOfShape for Config {
    ghost same = { as_its_shape };
}

type PacketShape<'a> = (Address, &'a str, &'a [u8]);

impl<'a> Shaped for Packet<'a> {
    type Shape = PacketShape<'a>;

    ghost shape = { λ v. (v.to, v.text, v.body) };

    fn from_shape(it: PacketShape<'a>) -> Packet<'a> {
        let (to, text, body) = it;
        Packet { to, text, body }
    }
}

impl<'a> Readable for Packet<'a> {
    type Form = AsShape;

    ghost form = { form_as ⟦<Self as Shaped>⟧.shape ⟦<ShapeOf<Self> as Readable>⟧.form };
}

impl<'a> MatchesShape for Packet<'a> {
    ghost matches = { form_matches };
}

impl<'a> Serialize for Packet<'a> {
    fn serialize<F: Flavor>(&self, serializer: &mut Serializer<F>) -> postcard::Result<()> {
        (&self.to, &self.text, &self.body).serialize(serializer)
    }
}

impl<'a> SchemaOfShape for Packet<'a> {
    ghost same = { as_its_shape };
}

type ReportShape = (
    (u8, u16, u32, u64, i8, i16),
    (i32, i64, bool, char, Option<u8>, (u8, u16)),
);

impl Shaped for Report {
    type Shape = ReportShape;

    ghost shape = { λ v. ((v.a, v.b, v.c, v.d, v.e, v.f), (v.g, v.h, v.i, v.j, v.k, v.l)) };

    fn from_shape(it: ReportShape) -> Report {
        let ((a, b, c, d, e, f), (g, h, i, j, k, l)) = it;
        Report {
            a,
            b,
            c,
            d,
            e,
            f,
            g,
            h,
            i,
            j,
            k,
            l,
        }
    }
}

impl Readable for Report {
    type Form = AsShape;

    ghost form = { form_as ⟦<Self as Shaped>⟧.shape ⟦<ShapeOf<Self> as Readable>⟧.form };
}

impl MatchesShape for Report {
    ghost matches = { form_matches };
}

impl Serialize for Report {
    fn serialize<F: Flavor>(&self, serializer: &mut Serializer<F>) -> postcard::Result<()> {
        (
            (&self.a, &self.b, &self.c, &self.d, &self.e, &self.f),
            (&self.g, &self.h, &self.i, &self.j, &self.k, &self.l),
        )
            .serialize(serializer)
    }
}

impl SchemaOfShape for Report {
    ghost same = { as_its_shape };
}

type EventShape = Variants4<
    (),
    (),
    SensorReading,
    (i32, i32),
    Variants4<
        u32,
        char,
        (u8, u8),
        Level,
        Variant<Option<u16>, Variant<(), Variant<(u8, u16), Last<bool>>>>,
    >,
>;

impl Shaped for Event {
    ghost use Rattle.example_station.specs.declared.messages.Event.TheVariants.{Started, Stopped, Measured, Moved, Counted, Named, Pair, Failed, Retried, Cleared, Paired, Reset};
    ghost use Rattle.postcard_tree.specs.declared.variants.Variants4.TheVariants.{V0, V1, V2, V3, More};
    ghost use Rattle.postcard_tree.specs.declared.variants.Variant.TheVariants.{This, Other};
    ghost use Rattle.postcard_tree.specs.declared.variants.Last.TheVariants.{Last};

    type Shape = EventShape;

    ghost shape = { λ v. elim v [
      | Started ↦ V0 tt
      | Stopped ↦ V1 tt
      | Measured x0 ↦ V2 x0
      | Moved x0 x1 ↦ V3 (x0, x1)
      | Counted x0 ↦ More (V0 x0)
      | Named x0 ↦ More (V1 x0)
      | Pair x0 x1 ↦ More (V2 (x0, x1))
      | Failed x0 ↦ More (V3 x0)
      | Retried x0 ↦ More (More (This x0))
      | Cleared ↦ More (More (Other (This tt)))
      | Paired x0 ↦ More (More (Other (Other (This x0))))
      | Reset x0 ↦ More (More (Other (Other (Other (Last x0)))))
    ] };

    fn from_shape(it: EventShape) -> Event {
        match it {
            Variants4::V0(()) => Event::Started,
            Variants4::V1(()) => Event::Stopped,
            Variants4::V2(p0) => Event::Measured(p0),
            Variants4::V3((x, y)) => Event::Moved { x, y },
            Variants4::More(it) => match it {
                Variants4::V0(p0) => Event::Counted(p0),
                Variants4::V1(p0) => Event::Named(p0),
                Variants4::V2((p0, p1)) => Event::Pair(p0, p1),
                Variants4::V3(p0) => Event::Failed(p0),
                Variants4::More(it) => match it {
                    Variant::This(p0) => Event::Retried(p0),
                    Variant::Other(Variant::This(())) => Event::Cleared,
                    Variant::Other(Variant::Other(Variant::This(p0))) => Event::Paired(p0),
                    Variant::Other(Variant::Other(Variant::Other(Last::Last(p0)))) => Event::Reset(
                        p0,
                    ),
                },
            },
        }
    }
}

impl Readable for Event {
    type Form = AsShape;

    ghost form = { form_as ⟦<Self as Shaped>⟧.shape ⟦<ShapeOf<Self> as Readable>⟧.form };
}

impl MatchesShape for Event {
    ghost matches = { form_matches };
}

impl Serialize for Event {
    fn serialize<F: Flavor>(&self, serializer: &mut Serializer<F>) -> postcard::Result<()> {
        match self {
            Event::Started => serializer.serialize_unit_variant(0),
            Event::Stopped => serializer.serialize_unit_variant(1),
            Event::Measured(p0) => serializer.serialize_newtype_variant(2, p0),
            Event::Moved { x, y } => serializer.serialize_newtype_variant(3, &(x, y)),
            Event::Counted(p0) => serializer.serialize_newtype_variant(4, p0),
            Event::Named(p0) => serializer.serialize_newtype_variant(5, p0),
            Event::Pair(p0, p1) => serializer.serialize_newtype_variant(6, &(p0, p1)),
            Event::Failed(p0) => serializer.serialize_newtype_variant(7, p0),
            Event::Retried(p0) => serializer.serialize_newtype_variant(8, p0),
            Event::Cleared => serializer.serialize_unit_variant(9),
            Event::Paired(p0) => serializer.serialize_newtype_variant(10, p0),
            Event::Reset(p0) => serializer.serialize_newtype_variant(11, p0),
        }
    }
}

impl SchemaOfShape for Event {
    ghost same = { as_its_shape };
}
