//! Which tree each message writes: its fields in their places, and its variants by their numbers.
//!
//! The functions do nothing; the contract of each is what it is for. They say what the declarations mean on the wire, so that a
//! field that changed its place, or a variant that changed its number, is refused even if reading and writing agree on it.
ghost use Rattle.std.specs.Prelude.{◌≡◌, ℕ, ℤ, Bool, [], ◌∷◌, Option, Some, map, if◌then◌else◌, string_bytes};
ghost use Rattle.std.specs.Int.{w8, cast_unsigned};
ghost use Rattle.postcard_tree.specs.Tree.{byte, number, character, group, end, parts, group_of, sequence_of, text_of, variant_of, option_writes, zigzag, pair_writes};
ghost use Rattle.example_station.specs.declared.messages.SensorReading.{SensorReading as Readings};
ghost use Rattle.example_station.specs.declared.messages.Level.{Level as Levels};
ghost use Rattle.example_station.specs.declared.messages.Level.TheVariants.{Error, Warning, Info};
ghost use Rattle.example_station.specs.declared.messages.LogRecord.{LogRecord as LogRecords};
ghost use Rattle.example_station.specs.declared.messages.Address.{Address as Addresses};
ghost use Rattle.example_station.specs.declared.messages.Ping.{Ping as Pings};
ghost use Rattle.example_station.specs.declared.messages.Command.TheVariants.{Stop, Sample, Move, Both, Say, Many};
ghost use Rattle.example_station.specs.declared.messages.Config.{Config as Configs};
ghost use Rattle.example_station.specs.declared.messages.Packet.{Packet as Packets};
ghost use Rattle.example_station.specs.declared.messages.Report.{Report as Reports};
ghost use Rattle.example_station.specs.declared.messages.Event.TheVariants.{Started, Stopped, Measured, Moved, Counted, Named, Pair, Failed, Retried, Cleared, Paired, Reset};
ghost use Rattle.example_station.specs.Trees.{reading_tree};

use crate::messages::{
    Address, Command, Config, Event, Level, LogRecord, Packet, Ping, Report, SensorReading,
};
use postcard::Readable;
use std::collections::BTreeMap;

/// The sensor, the time, the hundredths of a degree, and whether they are valid.
pub fn sensor_reading()
    ensures { (v : Readings) → ⟦<SensorReading as Readable>⟧.form.writes v ≡ reading_tree v }
{}

/// The variants by their numbers.
pub fn level()
    ensures error { ⟦<Level as Readable>⟧.form.writes Error ≡ variant_of 0 (Some (group end)) }
    ensures warning { ⟦<Level as Readable>⟧.form.writes Warning ≡ variant_of 1 (Some (group end)) }
    ensures info { ⟦<Level as Readable>⟧.form.writes Info ≡ variant_of 2 (Some (group end)) }
{}

/// The level, the time, the text and the source.
pub fn log_record()
    ensures { (v : LogRecords) → ⟦<LogRecord as Readable>⟧.form.writes v
        ≡ group_of (parts (⟦<Level as Readable>⟧.form.writes v.level ∷ Some (number 64 v.at)
        ∷ Some (text_of (string_bytes v.text))
        ∷ option_writes (λ n. Some (number 16 n)) v.source ∷ [])) }
{}

/// The number.
pub fn address()
    ensures { (v : Addresses) → ⟦<Address as Readable>⟧.form.writes v ≡ Some (number 32 v.0) }
{}

/// Nothing.
pub fn ping()
    ensures { (v : Pings) → ⟦<Ping as Readable>⟧.form.writes v ≡ Some (group end) }
{}

/// The variants by their numbers, each before what it holds.
pub fn command()
    ensures stop { ⟦<Command as Readable>⟧.form.writes Stop ≡ variant_of 0 (Some (group end)) }
    ensures sample { (v : Readings)
        → ⟦<Command as Readable>⟧.form.writes (Sample v) ≡ variant_of 1 (reading_tree v) }
    ensures moved { (x y : ℤ) → ⟦<Command as Readable>⟧.form.writes (Move x y) ≡ variant_of 2
        (group_of (parts (Some (number 32 (zigzag x)) ∷ Some (number 32 (zigzag y)) ∷ []))) }
    ensures both { (a b : ℕ) → ⟦<Command as Readable>⟧.form.writes (Both a b)
        ≡ variant_of 3 (group_of (parts (Some (byte a) ∷ Some (number 16 b) ∷ []))) }
    ensures say { (v : _) → ⟦<Command as Readable>⟧.form.writes (Say v)
        ≡ variant_of 4 (Some (text_of (string_bytes v))) }
    ensures many { (v : _) → ⟦<Command as Readable>⟧.form.writes (Many v)
        ≡ variant_of 5 (sequence_of (parts (map reading_tree v.items))) }
{}

/// The name, the readings, the fallback, the gains and the labels.
pub fn config()
    ensures { (v : Configs) → ⟦<Config as Readable>⟧.form.writes v
        ≡ group_of (parts (Some (text_of (string_bytes v.name))
        ∷ sequence_of (parts (map reading_tree v.readings.items))
        ∷ option_writes ⟦<Level as Readable>⟧.form.writes v.fallback
        ∷ group_of (parts (map (λ n. Some (number 16 n)) v.gains))
        ∷ sequence_of (parts (map (pair_writes (λ n. Some (number 16 n))
        (λ s. Some (text_of (string_bytes s)))) v.labels.entries)) ∷ [])) }
{}

/// The address, the text and the bytes.
pub fn packet<'a>()
    ensures { (v : Packets) → ⟦<Packet<'a> as Readable>⟧.form.writes v
        ≡ group_of (parts (Some (number 32 v.to.0) ∷ Some (text_of v.text.now)
        ∷ sequence_of (parts (map (λ b. Some (byte b)) v.body.now)) ∷ [])) }
{}

/// Twelve fields, as two groups of six: a group has no bytes of its own.
pub fn report()
    ensures { (v : Reports) → ⟦<Report as Readable>⟧.form.writes v
        ≡ group_of (parts (group_of (parts (Some (byte v.a) ∷ Some (number 16 v.b)
        ∷ Some (number 32 v.c) ∷ Some (number 64 v.d) ∷ Some (byte (cast_unsigned w8 v.e))
        ∷ Some (number 16 (zigzag v.f)) ∷ []))
        ∷ group_of (parts (Some (number 32 (zigzag v.g)) ∷ Some (number 64 (zigzag v.h))
        ∷ Some (byte (if v.i then 1 else 0)) ∷ Some (character v.j)
        ∷ option_writes (λ n. Some (byte n)) v.k
        ∷ group_of (parts (Some (byte v.l.0) ∷ Some (number 16 v.l.1) ∷ [])) ∷ [])) ∷ [])) }
{}

/// The variants by their numbers, each before what it holds.
pub fn event()
    ensures started { ⟦<Event as Readable>⟧.form.writes Started ≡ variant_of 0 (Some (group end)) }
    ensures stopped { ⟦<Event as Readable>⟧.form.writes Stopped ≡ variant_of 1 (Some (group end)) }
    ensures measured { (v : Readings)
        → ⟦<Event as Readable>⟧.form.writes (Measured v) ≡ variant_of 2 (reading_tree v) }
    ensures moved { (x y : ℤ) → ⟦<Event as Readable>⟧.form.writes (Moved x y) ≡ variant_of 3
        (group_of (parts (Some (number 32 (zigzag x)) ∷ Some (number 32 (zigzag y)) ∷ []))) }
    ensures counted { (n : ℕ) → ⟦<Event as Readable>⟧.form.writes (Counted n)
        ≡ variant_of 4 (Some (number 32 n)) }
    ensures named { (c : ℕ) → ⟦<Event as Readable>⟧.form.writes (Named c)
        ≡ variant_of 5 (Some (character c)) }
    ensures pair { (a b : ℕ) → ⟦<Event as Readable>⟧.form.writes (Pair a b)
        ≡ variant_of 6 (group_of (parts (Some (byte a) ∷ Some (byte b) ∷ []))) }
    ensures failed { (l : Levels) → ⟦<Event as Readable>⟧.form.writes (Failed l)
        ≡ variant_of 7 (⟦<Level as Readable>⟧.form.writes l) }
    ensures retried { (n : Option ℕ) → ⟦<Event as Readable>⟧.form.writes (Retried n)
        ≡ variant_of 8 (option_writes (λ k. Some (number 16 k)) n) }
    ensures cleared { ⟦<Event as Readable>⟧.form.writes Cleared ≡ variant_of 9 (Some (group end)) }
    ensures paired { (a b : ℕ) → ⟦<Event as Readable>⟧.form.writes (Paired (a, b))
        ≡ variant_of 10 (group_of (parts (Some (byte a) ∷ Some (number 16 b) ∷ []))) }
    ensures reset { (b : Bool) → ⟦<Event as Readable>⟧.form.writes (Reset b)
        ≡ variant_of 11 (Some (byte (if b then 1 else 0))) }
{}
