//! The types of `example_station::nested`, which hold one another, go over a line at three sentinels, and a pair that is lent. The
//! bytes are as postcard's format has them.
use crate::checks::{all_true, check, greatest, writes};
use example_station::nested::{
    Borrower, Deep, Drawing, Holders, Message, Point, Sample, Six, Text,
};
use line_io::memory::{In, Out};
use link::{Answer, Sender, read_in_place_with_sentinel, receive_with_sentinel};
use postcard::fixint::{BE, LE};
use postcard::{
    AsShape, Deserialize, DeserializeOwned, MatchesShape, Readable, Serialize, ShapeOf, Shaped,
    from_bytes, from_bytes_owned,
};
use std::alloc::Global;

/// The sentinels.
const SENTINELS: [u8; 3] = [0, 0x0A, 0xFF];

/// How many bytes a value's frame has on a line, if it was sent.
fn send<T: Serialize>(value: &T, line: &mut [u8; 80], sentinel: u8) -> Option<usize> {
    let mut sender = Sender::<_, 64>::new_with_sentinel(Out::new(line, 80, None), sentinel);
    match sender.send(value) {
        Ok(()) => Some(sender.into_inner().moved()),
        Err(_) => None,
    }
}

/// Whether a value is received alone on a line, read seven bytes at a time, as these bytes where it was sent at a sentinel.
fn crosses_at<T: Serialize + DeserializeOwned>(
    alloc: Global,
    value: &T,
    bytes: &[u8],
    sentinel: u8,
) -> bool {
    let mut line = [0u8; 80];
    let Some(count) = send(value, &mut line, sentinel) else {
        return false;
    };
    let Some(frame) = line.get(..count) else {
        return false;
    };
    let received = receive_with_sentinel::<T, _, 64>(alloc, In::new(frame, 7, None), sentinel);
    match received.answers.as_slice() {
        [Answer::Value(value)] => writes(value, bytes),
        _ => false,
    }
}

/// The value of these bytes, if it is written as they are, and crosses a line at each sentinel.
fn crossed<T: Serialize + DeserializeOwned>(alloc: Global, bytes: &[u8]) -> Option<T> {
    let Ok(value) = from_bytes_owned::<T>(alloc, bytes) else {
        return None;
    };
    let mut is_crossing = writes(&value, bytes);
    for sentinel in SENTINELS {
        is_crossing = is_crossing && crosses_at(alloc, &value, bytes, sentinel);
    }
    if is_crossing { Some(value) } else { None }
}

/// The same of a message type, by its shape: a caller carries what the shape is read by, once.
fn crossed_by_shape<
    S: DeserializeOwned,
    M: Shaped<Shape = S> + MatchesShape + Readable<Form = AsShape> + Serialize + Drop,
>(alloc: Global, bytes: &[u8]) -> Option<M> {
    crossed::<M>(alloc, bytes)
}

/// The same of a type that is six tuples round another one.
fn crossed_by_six<
    T: DeserializeOwned,
    M: Shaped<Shape = ((((((T, u8), u8), u8), u8), u8), u8)>
        + MatchesShape
        + Readable<Form = AsShape>
        + Serialize
        + Drop,
>(alloc: Global, bytes: &[u8]) -> Option<M> {
    crossed_by_shape::<((((((T, u8), u8), u8), u8), u8), u8), M>(alloc, bytes)
}

/// What a text is spelled as.
const TEXT: &[u8] = &[2, 72, 105, 7];

/// Whether it is what its bytes say.
fn is_the_text(text: &Text) -> bool {
    text.text.as_str() == "Hi" && text.kind == 7
}

fn text_crosses(alloc: Global) -> bool {
    match crossed_by_shape::<ShapeOf<Text>, Text>(alloc, TEXT) {
        Some(text) => is_the_text(&text),
        None => false,
    }
}

const DRAWING: &[u8] = &[
    1, 1, 0, 0, 216, 4, 1, 1, 3, 0, 205, 171, 1, 2, 3, 4, 172, 2, 1, 0, 0, 0, 0, 0, 0, 0, 0, 0, 0,
    0, 0, 0, 0, 0,
];

const LEFT: Point = Point {
    x: -1,
    is_seen: true,
};

const ORIGIN: Point = Point {
    x: 0,
    is_seen: false,
};

const RIGHT: Point = Point {
    x: 300,
    is_seen: true,
};

const CENTER: Point = Point {
    x: -2,
    is_seen: false,
};

const THE_DRAWING: Drawing = Drawing {
    corners: [LEFT, ORIGIN, RIGHT],
    center: Some(CENTER),
    short: LE(0xABCD),
    word: BE(0x0102_0304),
    whole: 300,
    long: LE(1),
};

/// Whether it is what its bytes say.
fn is_the_drawing(drawing: &Drawing) -> bool {
    *drawing == THE_DRAWING
}

fn drawing_crosses(alloc: Global) -> bool {
    match crossed_by_shape::<ShapeOf<Drawing>, Drawing>(alloc, DRAWING) {
        Some(drawing) => is_the_drawing(&drawing),
        None => false,
    }
}

/// 300 and -2 as their bytes, and three of its own.
const SAMPLE: &[u8] = &[44, 1, 0, 0, 255, 254, 1, 2, 3];

fn sample_crosses(alloc: Global) -> bool {
    match crossed_by_shape::<ShapeOf<Sample<u8, 3>>, Sample<u8, 3>>(alloc, SAMPLE) {
        Some(sample) => { sample.at == 300 && sample.offset == -2 && sample.levels == [1, 2, 3] }
        None => false,
    }
}

const DEEP: &[u8] = &[2, 72, 105, 7, 1, 2, 3, 4, 5, 6, 7, 8, 9, 10, 11, 12];

/// A message of each variant.
const MESSAGES: [&[u8]; 7] = [
    &[0, 2, 72, 105, 7],
    &[
        1, 1, 1, 0, 0, 216, 4, 1, 1, 3, 0, 205, 171, 1, 2, 3, 4, 172, 2, 1, 0, 0, 0, 0, 0, 0, 0, 0,
        0, 0, 0, 0, 0, 0, 0,
    ],
    &[
        2, 2, 2, 72, 105, 7, 0, 0, 1, 1, 120, 1, 1, 172, 2, 1, 98, 2, 2, 72, 105, 7,
    ],
    &[3, 1, 1, 120, 1, 216, 4, 1],
    // 300 as its bytes, the highest first
    &[4, 0, 0, 0, 0, 0, 0, 1, 44],
    // a seven that is there, and 300 as its bytes, the lowest first
    &[5, 1, 7, 44, 1],
    &[
        6, 1, 2, 3, 4, 10, 0, 0, 0, 0, 0, 0, 0, 0, 0, 0, 0, 0, 0, 0, 0, 128, 1,
    ],
];

/// Whether a text is this one.
fn is_text(text: Option<&Text>, wanted: &str, kind: u8) -> bool {
    match text {
        Some(text) => text.text.as_str() == wanted && text.kind == kind,
        None => false,
    }
}

/// Whether they hold what their bytes say.
fn are_the_holders(it: &Holders) -> bool {
    it.texts.len() == 2
        && is_text(it.texts.get(0), "Hi", 7)
        && is_text(it.first.as_ref(), "x", 1)
        && is_text(it.numbered.get(&300), "b", 2)
        && is_the_text(&it.boxed)
}

/// Whether a message is what the bytes of its variant say.
fn is_the_message(message: &Message, variant: usize) -> bool {
    match message {
        Message::Text(text) => variant == 0 && is_the_text(text),
        Message::Drawing(drawing) => variant == 1 && is_the_drawing(drawing),
        Message::Holders(holders) => variant == 2 && are_the_holders(holders),
        Message::Seen { by, at } => { variant == 3 && is_text(by.as_ref(), "x", 1) && *at == RIGHT }
        Message::Lost(number) => variant == 4 && *number == 300,
        Message::Kept { parts, sum } => variant == 5 && matches!(parts, Some(7)) && *sum == 300,
        Message::Numbers(word, long, whole) => {
            variant == 6 && *word == BE(0x0102_0304) && *long == LE(10) && *whole == 128
        }
    }
}

/// Whether each of these messages crosses, and is what its bytes say.
fn are_crossing(alloc: Global) -> bool {
    for (variant, bytes) in MESSAGES.iter().enumerate() {
        match crossed_by_shape::<ShapeOf<Message>, Message>(alloc, bytes) {
            Some(message) if is_the_message(&message, variant) => {}
            _ => return false,
        }
    }
    true
}

#[test]
fn structs_and_variants(rt: HostRuntime) {
    let alloc = rt.alloc();
    let are_right = [
        text_crosses(alloc),
        drawing_crosses(alloc),
        greatest::<ShapeOf<Drawing>, Drawing>() == Some(12 + 5 + 41),
        sample_crosses(alloc),
        crossed_by_six::<Six, Deep>(alloc, DEEP).is_some(),
        are_crossing(alloc),
    ];
    check(&rt, all_true(are_right));
}

/// Whether the value of these bytes is sent over this line at a sentinel, and what lies there then is lent as these bytes.
fn crosses_over<'a, T: Serialize + Deserialize<&'a [u8]>>(
    alloc: Global,
    bytes: &'a [u8],
    line: &'a mut [u8; 80],
    sentinel: u8,
) -> bool {
    let is_sent = match from_bytes::<T>(alloc, bytes) {
        Ok(value) => send(&value, line, sentinel).is_some(),
        Err(_) => false,
    };
    match read_in_place_with_sentinel::<T>(alloc, line, sentinel) {
        Some((Ok(Answer::Value(value)), _)) => is_sent && writes(&value, bytes),
        _ => false,
    }
}

const BORROWER: &[u8] = &[2, 72, 105, 7, 2, 0, 0, 1, 121, 9, 1, 1, 120, 1];

const LENT_PAIR: &[u8] = &[2, 72, 105, 2, 0, 10];

/// Whether what holds texts that are lent crosses at a sentinel, and a text with bytes.
fn lent_ones_cross(alloc: Global, sentinel: u8) -> bool {
    let mut line = [0u8; 80];
    let mut other = [0u8; 80];
    crosses_over::<Borrower<'_, '_, Text>>(alloc, BORROWER, &mut line, sentinel)
        && crosses_over::<(&str, &[u8])>(alloc, LENT_PAIR, &mut other, sentinel)
}

#[test]
fn lent(rt: HostRuntime) {
    for sentinel in SENTINELS {
        check(&rt, lent_ones_cross(rt.alloc(), sentinel));
    }
}
