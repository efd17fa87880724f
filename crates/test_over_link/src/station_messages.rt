//! `example_station`: each message type is written as these bytes, and read back.
use crate::checks::{all_true, check, greatest, writes};
use example_station::messages::{
    Address, Command, Config, Event, Level, LogRecord, Packet, Ping, Report, SensorReading,
};
use postcard::experimental::max_size::MaxSize;
use postcard::{
    AsShape, Deserialize, MatchesShape, Readable, Serialize, ShapeOf, Shaped, from_bytes,
    from_bytes_owned,
};
use std::alloc::Global;

const READING: SensorReading = SensorReading {
    sensor: 300,
    at: 1,
    celsius: -1,
    valid: true,
};

// The value of these bytes, if it is written as they are.
fn reread<'a, T: Serialize + Deserialize<&'a [u8]>>(alloc: Global, bytes: &'a [u8]) -> Option<T> {
    match from_bytes::<T>(alloc, bytes) {
        Ok(value) if writes(&value, bytes) => Some(value),
        _ => None,
    }
}

// The same of a message type, by its shape: a caller carries what the shape is read by, once.
fn reread_by_shape<
    'a,
    S: Deserialize<&'a [u8]>,
    M: Shaped<Shape = S> + MatchesShape + Readable<Form = AsShape> + Serialize + Drop,
>(alloc: Global, bytes: &'a [u8]) -> Option<M> {
    reread::<M>(alloc, bytes)
}

// Whether each row's bytes are read as its value, which is written as they are; and whether these bytes are refused, if there are some.
fn are_reread<'a, T: Serialize + Deserialize<&'a [u8]> + PartialEq + Drop>(
    alloc: Global,
    rows: &[(&'a [u8], T)],
    refused: Option<&'a [u8]>,
) -> bool {
    for (bytes, value) in rows {
        match from_bytes::<T>(alloc, bytes) {
            Ok(read) if read == *value && writes(value, bytes) => {}
            _ => return false,
        }
    }
    match refused {
        Some(bytes) => from_bytes::<T>(alloc, bytes).is_err(),
        None => true,
    }
}

// The same of a message type, by its shape; and whether this is its greatest size.
fn are_all<
    'a,
    S: Deserialize<&'a [u8]> + MaxSize,
    M: Shaped<Shape = S> + MatchesShape + Readable<Form = AsShape> + Serialize + PartialEq + Drop,
>(alloc: Global, rows: &[(&'a [u8], M)], refused: Option<&'a [u8]>, size: usize) -> bool {
    are_reread::<M>(alloc, rows, refused) && greatest::<S, M>() == Some(size)
}

const READINGS: [(&[u8], SensorReading); 1] = [(&[0xAC, 2, 1, 1, 1], READING)];

const PINGS: [(&[u8], Ping); 1] = [(&[], Ping)];

const LEVELS: [(&[u8], Level); 1] = [(&[2], Level::Info)];

const EVENTS: [(&[u8], Event); 4] = [
    (&[3, 1, 2], Event::Moved { x: -1, y: 1 }),
    (&[10, 1, 0xAC, 2], Event::Paired((1, 300))),
    (&[9], Event::Cleared),
    (&[11, 1], Event::Reset(true)),
];

const REPORTS: [(&[u8], Report); 1] = [(
    &[1, 2, 3, 4, 5, 6, 7, 8, 1, 1, 122, 1, 9, 10, 11],
    Report {
        a: 1,
        b: 2,
        c: 3,
        d: 4,
        e: 5,
        f: 3,
        g: -4,
        h: 4,
        i: true,
        j: 'z',
        k: Some(9),
        l: (10, 11),
    },
)];

#[test]
fn rows(rt: HostRuntime) {
    let alloc = rt.alloc();
    let are_right = [
        are_all::<ShapeOf<SensorReading>, _>(alloc, &READINGS, Some(&[0xAC, 2, 1, 1, 2]), 17),
        are_all::<ShapeOf<Ping>, _>(alloc, &PINGS, None, 0),
        are_all::<ShapeOf<Level>, _>(alloc, &LEVELS, Some(&[3]), 1),
        are_all::<ShapeOf<Event>, _>(alloc, &EVENTS, Some(&[12]), 18),
        are_all::<ShapeOf<Report>, _>(alloc, &REPORTS, None, 50),
    ];
    check(&rt, all_true(are_right));
}

fn record_is_reread(alloc: Global) -> bool {
    match reread_by_shape::<ShapeOf<LogRecord>, LogRecord>(alloc, &[1, 5, 1, 65, 1, 7]) {
        Some(record) => {
            matches!(record.level, Level::Warning)
                && record.at == 5
                && record.text.as_str() == "A"
                && matches!(record.source, Some(7))
        }
        None => false,
    }
}

fn address_is_reread(alloc: Global) -> bool {
    let read = from_bytes_owned::<Address>(alloc, &[0xAC, 2]);
    writes(&Address(300), &[0xAC, 2])
        && matches!(&read, Ok(Address(300)))
        && greatest::<ShapeOf<Address>, Address>() == Some(5)
}

fn packet_is_reread(alloc: Global) -> bool {
    match reread_by_shape::<ShapeOf<Packet<'_>>, Packet<'_>>(alloc, &[7, 2, 72, 105, 1, 9]) {
        Some(packet) => {
            packet.to == Address(7) && packet.text == "Hi" && matches!(packet.body, [9])
        }
        None => false,
    }
}

// Whether these bytes are those of a command that says Hi, or that moves.
fn command_is_reread(alloc: Global, bytes: &[u8], says: bool) -> bool {
    match &reread_by_shape::<ShapeOf<Command>, Command>(alloc, bytes) {
        Some(Command::Say(text)) => says && text.as_str() == "Hi",
        Some(Command::Move { x: -1, y: 1 }) => !says,
        _ => false,
    }
}

fn is_the_config(it: &Config) -> bool {
    let is_read = match it.readings.as_slice() {
        [reading] => *reading == READING,
        _ => false,
    };
    let is_labeled = match it.labels.get(&9) {
        Some(label) => label.as_str() == "B",
        None => false,
    };
    is_read
        && is_labeled
        && it.name.as_str() == "A"
        && matches!(it.fallback, Some(Level::Info))
        && it.gains == [1, 2, 3, 4]
        && it.labels.len() == 1
}

const CONFIG: [u8; 18] = [1, 65, 1, 0xAC, 2, 1, 1, 1, 1, 2, 1, 2, 3, 4, 1, 9, 1, 66];

fn config_is_reread(alloc: Global) -> bool {
    match reread_by_shape::<ShapeOf<Config>, Config>(alloc, &CONFIG) {
        Some(config) => is_the_config(&config),
        None => false,
    }
}

#[test]
fn values(rt: HostRuntime) {
    let alloc = rt.alloc();
    let are_reread = [
        record_is_reread(alloc),
        address_is_reread(alloc),
        packet_is_reread(alloc),
        command_is_reread(alloc, &[4, 2, 72, 105], true),
        command_is_reread(alloc, &[2, 1, 2], false),
        config_is_reread(alloc),
    ];
    check(&rt, all_true(are_reread));
}
