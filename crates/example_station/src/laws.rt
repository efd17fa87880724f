//! What is written and read back has equal fields, and reading by a type's schema is reading by the type, type by type.
//!
//! Each call but the last writes a value to the start of a buffer and reads it there, as [`postcard::laws::round_trip`] does; its clause
//! says what the value that comes back has in common with the first. Texts are compared by their bytes, lists and maps
//! item by item.
ghost use Rattle.std.specs.Prelude.{◌≡◌, IfOk, string_bytes};
ghost use Rattle.postcard_tree.specs.Alike.{AlikeLists, AlikePairs};
ghost use Rattle.schemas.specs.TypeSchemas.{AgreesWithItsSchemas};
ghost use Rattle.example_station.specs.Kinds.{sensor_reading_kinds, level_kinds, log_record_kinds, address_kinds, ping_kinds, command_kinds, config_kinds, packet_kinds, report_kinds, event_kinds};
ghost use Rattle.example_station.specs.Same.{SameCommand};

use crate::messages::{
    Address, Command, Config, Event, Level, LogRecord, Packet, Ping, Report, SensorReading,
};
use postcard::laws::round_trip;
use postcard::{Readable, Result};
use schemas::laws::reading_by_schemas_agrees;
use std::alloc::Global;

/// All four fields.
pub fn sensor_reading<'a>(
    alloc: Global,
    v: &SensorReading,
    room: &'a mut [u8],
) -> Result<(SensorReading, &'a [u8])>
    ensures { IfOk result (λ p. v.now ≡ p.0) }
{
    round_trip::<SensorReading>(alloc, v, &[], room)
}

/// The variant.
pub fn level<'a>(alloc: Global, v: &Level, room: &'a mut [u8]) -> Result<(Level, &'a [u8])>
    ensures { IfOk result (λ p. v.now ≡ p.0) }
{
    round_trip::<Level>(alloc, v, &[], room)
}

/// The level, the time, the text and the source.
pub fn log_record<'a>(
    alloc: Global,
    v: &LogRecord,
    room: &'a mut [u8],
) -> Result<(LogRecord, &'a [u8])>
    ensures level { IfOk result (λ p. v.now.level ≡ p.0.level) }
    ensures at { IfOk result (λ p. v.now.at ≡ p.0.at) }
    ensures text { IfOk result (λ p. string_bytes v.now.text ≡ string_bytes p.0.text) }
    ensures source { IfOk result (λ p. v.now.source ≡ p.0.source) }
{
    round_trip::<LogRecord>(alloc, v, &[], room)
}

/// The number.
pub fn address<'a>(alloc: Global, v: &Address, room: &'a mut [u8]) -> Result<(Address, &'a [u8])>
    ensures { IfOk result (λ p. v.now ≡ p.0) }
{
    round_trip::<Address>(alloc, v, &[], room)
}

/// Nothing but its name.
pub fn ping<'a>(alloc: Global, v: &Ping, room: &'a mut [u8]) -> Result<(Ping, &'a [u8])>
    ensures { IfOk result (λ p. v.now ≡ p.0) }
{
    round_trip::<Ping>(alloc, v, &[], room)
}

/// The variant, and what it holds.
pub fn command<'a>(alloc: Global, v: &Command, room: &'a mut [u8]) -> Result<(Command, &'a [u8])>
    ensures { IfOk result (λ p. SameCommand ⟦<SensorReading as Readable>⟧.form.alike v.now p.0) }
{
    round_trip::<Command>(alloc, v, &[], room)
}

/// The name, the readings, the fallback, the gains and the labels.
pub fn config<'a>(alloc: Global, v: &Config, room: &'a mut [u8]) -> Result<(Config, &'a [u8])>
    ensures name { IfOk result (λ p. string_bytes v.now.name ≡ string_bytes p.0.name) }
    ensures readings { IfOk result (λ p. AlikeLists ⟦<SensorReading as Readable>⟧.form.alike
        v.now.readings.items p.0.readings.items) }
    ensures fallback { IfOk result (λ p. v.now.fallback ≡ p.0.fallback) }
    ensures gains { IfOk result (λ p. AlikeLists ⟦<u16 as Readable>⟧.form.alike v.now.gains
        p.0.gains) }
    ensures labels { IfOk result
        (λ p. AlikeLists (AlikePairs ⟦<u16 as Readable>⟧.form.alike
        ⟦<String as Readable>⟧.form.alike) v.now.labels.entries p.0.labels.entries) }
{
    postcard_tree::laws::keys_are_compared_alike();
    round_trip::<Config>(alloc, v, &[], room)
}

/// The address, the text and the bytes.
pub fn packet<'a>(
    alloc: Global,
    v: &Packet<'a>,
    room: &'a mut [u8],
) -> Result<(Packet<'a>, &'a [u8])>
    ensures to { IfOk result (λ p. v.now.to ≡ p.0.to) }
    ensures text { IfOk result (λ p. v.now.text.now ≡ p.0.text.now) }
    ensures body { IfOk result (λ p. v.now.body.now ≡ p.0.body.now) }
{
    round_trip::<Packet<'a>>(alloc, v, &[], room)
}

/// All twelve fields.
pub fn report<'a>(alloc: Global, v: &Report, room: &'a mut [u8]) -> Result<(Report, &'a [u8])>
    ensures { IfOk result (λ p. v.now ≡ p.0) }
{
    round_trip::<Report>(alloc, v, &[], room)
}

/// The variant, and what it holds.
pub fn event<'a>(alloc: Global, v: &Event, room: &'a mut [u8]) -> Result<(Event, &'a [u8])>
    ensures { IfOk result (λ p. v.now ≡ p.0) }
{
    round_trip::<Event>(alloc, v, &[], room)
}

/// What is read by a type's schema and what is read by the type are of one tree, and leave the same rest; by the schema it is
/// a value of the type's kinds.
pub fn reading_by_schemas<'a>()
    ensures sensor_reading { AgreesWithItsSchemas ⟦<SensorReading as Readable>⟧.form.takes
        ⟦<SensorReading as Readable>⟧.form.reads ⟦<SensorReading as Readable>⟧.form.refuses
        sensor_reading_kinds }
    ensures level { AgreesWithItsSchemas ⟦<Level as Readable>⟧.form.takes
        ⟦<Level as Readable>⟧.form.reads ⟦<Level as Readable>⟧.form.refuses
        level_kinds }
    ensures log_record { AgreesWithItsSchemas ⟦<LogRecord as Readable>⟧.form.takes
        ⟦<LogRecord as Readable>⟧.form.reads ⟦<LogRecord as Readable>⟧.form.refuses
        log_record_kinds }
    ensures address { AgreesWithItsSchemas ⟦<Address as Readable>⟧.form.takes
        ⟦<Address as Readable>⟧.form.reads ⟦<Address as Readable>⟧.form.refuses
        address_kinds }
    ensures ping { AgreesWithItsSchemas ⟦<Ping as Readable>⟧.form.takes
        ⟦<Ping as Readable>⟧.form.reads ⟦<Ping as Readable>⟧.form.refuses
        ping_kinds }
    ensures command { AgreesWithItsSchemas ⟦<Command as Readable>⟧.form.takes
        ⟦<Command as Readable>⟧.form.reads ⟦<Command as Readable>⟧.form.refuses
        command_kinds }
    ensures config { AgreesWithItsSchemas ⟦<Config as Readable>⟧.form.takes
        ⟦<Config as Readable>⟧.form.reads ⟦<Config as Readable>⟧.form.refuses
        config_kinds }
    ensures packet { AgreesWithItsSchemas ⟦<Packet<'a> as Readable>⟧.form.takes
        ⟦<Packet<'a> as Readable>⟧.form.reads ⟦<Packet<'a> as Readable>⟧.form.refuses
        packet_kinds }
    ensures report { AgreesWithItsSchemas ⟦<Report as Readable>⟧.form.takes
        ⟦<Report as Readable>⟧.form.reads ⟦<Report as Readable>⟧.form.refuses
        report_kinds }
    ensures event { AgreesWithItsSchemas ⟦<Event as Readable>⟧.form.takes
        ⟦<Event as Readable>⟧.form.reads ⟦<Event as Readable>⟧.form.refuses
        event_kinds }
{
    reading_by_schemas_agrees::<SensorReading>();
    reading_by_schemas_agrees::<Level>();
    reading_by_schemas_agrees::<LogRecord>();
    reading_by_schemas_agrees::<Address>();
    reading_by_schemas_agrees::<Ping>();
    reading_by_schemas_agrees::<Command>();
    reading_by_schemas_agrees::<Config>();
    reading_by_schemas_agrees::<Packet<'a>>();
    reading_by_schemas_agrees::<Report>();
    reading_by_schemas_agrees::<Event>();
}
