//! Messages of a weather station.
mod wire;

use std::collections::BTreeMap;

/// What a sensor measured.
// message
#[derive(Clone, Copy, PartialEq, Eq, Drop)]
pub struct SensorReading {
    pub sensor: u16,
    pub at: u64,
    /// In hundredths of a degree.
    pub celsius: i16,
    pub valid: bool,
}

/// How grave a record is.
// message
#[derive(Clone, Copy, PartialEq, Eq, Drop)]
pub enum Level {
    Error,
    Warning,
    Info,
}

/// A line of the log.
// message
#[derive(PartialEq, Eq, Drop)]
pub struct LogRecord {
    pub level: Level,
    pub at: u64,
    pub text: String,
    pub source: Option<u16>,
}

/// A place on the bus.
// message
#[derive(Clone, Copy, PartialEq, Eq, Drop)]
pub struct Address(pub u32);

/// Nothing but its name.
// message
#[derive(Clone, Copy, PartialEq, Eq, Drop)]
pub struct Ping;

/// What the station is to do.
// message
#[derive(PartialEq, Eq, Drop)]
pub enum Command {
    Stop,
    Sample(SensorReading),
    Move { x: i32, y: i32 },
    Both(u8, u16),
    Say(String),
    Many(Vec<SensorReading>),
}

/// How the station is set.
// message
#[derive(Drop)]
pub struct Config {
    pub name: String,
    pub readings: Vec<SensorReading>,
    pub fallback: Option<Level>,
    pub gains: [u16; 4],
    pub labels: BTreeMap<u16, String>,
}

/// A packet that lies where it was read.
// message
#[derive(Drop)]
pub struct Packet<'a> {
    pub to: Address,
    pub text: &'a str,
    pub body: &'a [u8],
}

/// A report with many fields.
// message
#[derive(PartialEq, Eq, Drop)]
pub struct Report {
    pub a: u8,
    pub b: u16,
    pub c: u32,
    pub d: u64,
    pub e: i8,
    pub f: i16,
    pub g: i32,
    pub h: i64,
    pub i: bool,
    pub j: char,
    pub k: Option<u8>,
    pub l: (u8, u16),
}

/// A dozen variants.
// message
#[derive(Clone, Copy, PartialEq, Eq, Drop)]
pub enum Event {
    Started,
    Stopped,
    Measured(SensorReading),
    Moved { x: i32, y: i32 },
    Counted(u32),
    Named(char),
    Pair(u8, u8),
    Failed(Level),
    Retried(Option<u16>),
    Cleared,
    Paired((u8, u16)),
    Reset(bool),
}
