//! What is asked of `wire` beside streams: a table as JSON, messages without frames, which lines are shown, words, and the name that
//! was meant. Bytes are by the rules of postcard; the texts were written by hand.
use crate::checks::{are_equal, check, check_row};
use crate::looks::schema_of;
use schema_table::{IntegerType, Named, Names, Node, Schema};
use std::alloc::{AllocError, Global};
use wire_lib::DEPTH;
use wire_lib::raw::{message_of, put_message};
use wire_lib::receive::{LinesOfFrames, Reading};
use wire_lib::send::{FramesOfLines, Sending, frame_of};
use wire_lib::shown::Shown;
use wire_lib::summed::add_summed;
use wire_lib::table_json::table_json;
use wire_lib::watching::picture::{View, picture};
use wire_lib::watching::viewer::Viewer;
use wire_lib::words::{Action, options_of};

/// These names.
fn names(alloc: Global, all: &[&str]) -> Result<Vec<String>, AllocError> {
    let mut names = Vec::new(alloc);
    for name in all {
        names.push(String::from_str(alloc, name)?)?;
    }
    Ok(names)
}

/// These places.
fn places(alloc: Global, all: &[usize]) -> Result<Vec<usize>, AllocError> {
    let mut places = Vec::new(alloc);
    places.extend_from_slice(all)?;
    Ok(places)
}

/// Adds a node, and what its values are called by.
fn add(schema: &mut Schema, node: Node, names: Names) -> Result<(), AllocError> {
    schema.nodes.push(node)?;
    Ok(schema.names.push(names)?)
}

/// Adds a declared type.
fn declare(alloc: Global, schema: &mut Schema, name: &str, line: usize) -> Result<(), AllocError> {
    let name = String::from_str(alloc, name)?;
    Ok(schema.types.push(Named { name, line })?)
}

/// Adds nodes that have parts.
fn add_whole(alloc: Global, schema: &mut Schema) -> Result<(), AllocError> {
    add(
        schema,
        Node::Enum(places(alloc, &[2, 3])?),
        Names::Variants(names(alloc, &["Dark", "Lit"])?),
    )?;
    add(
        schema,
        Node::Struct(places(alloc, &[0, 10])?),
        Names::Fields(names(alloc, &["light", "by_name"])?),
    )?;
    add(schema, Node::Struct(places(alloc, &[])?), Names::Empty)?;
    add(schema, Node::U8, Names::Nothing)?;
    add(schema, Node::Struct(places(alloc, &[])?), Names::Unit)?;
    add(schema, Node::Struct(places(alloc, &[3])?), Names::Newtype)?;
    add(schema, Node::Struct(places(alloc, &[8, 3])?), Names::Tuple)
}

/// Adds nodes of each other kind.
fn add_plain(schema: &mut Schema) -> Result<(), AllocError> {
    add(schema, Node::TextUpTo(8), Names::Nothing)?;
    add(schema, Node::Text, Names::Nothing)?;
    add(schema, Node::Option(3), Names::Nothing)?;
    add(schema, Node::List(6), Names::Map)?;
    add(schema, Node::ListUpTo(4, 3), Names::Nothing)?;
    add(schema, Node::Array(2, 3), Names::Nothing)?;
    add(schema, Node::LE(IntegerType::U32), Names::Float)?;
    add(schema, Node::BE(IntegerType::I16), Names::Nothing)?;
    add(schema, Node::Bytes, Names::Nothing)
}

/// A table with each kind of node.
fn table(alloc: Global) -> Result<Schema, AllocError> {
    let mut schema = Schema {
        types: Vec::new(alloc),
        nodes: Vec::new(alloc),
        names: Vec::new(alloc),
    };
    declare(alloc, &mut schema, "Light", 3)?;
    declare(alloc, &mut schema, "Session", 7)?;
    add_whole(alloc, &mut schema)?;
    add_plain(&mut schema)?;
    Ok(schema)
}

/// It as JSON, in chunks.
const TABLE: [&str; 19] = [
    r#"{"version":1,"types":[{"name":"Light","line":3,"node":0},"#,
    r#"{"name":"Session","line":7,"node":1}],"nodes":["#,
    r#"{"kind":"enum","variants":[{"name":"Dark","node":2},{"name":"Lit","node":3}],"size":2},"#,
    r#"{"kind":"struct","fields":[{"name":"light","node":0},{"name":"by_name","node":10}],"#,
    r#""size":null},"#,
    r#"{"kind":"empty","size":0},"#,
    r#"{"kind":"u8","size":1},"#,
    r#"{"kind":"unit","size":0},"#,
    r#"{"kind":"newtype","node":3,"size":1},"#,
    r#"{"kind":"tuple","nodes":[8,3],"size":null},"#,
    r#"{"kind":"text","most":8,"size":9},"#,
    r#"{"kind":"text","most":null,"size":null},"#,
    r#"{"kind":"option","node":3,"size":2},"#,
    r#"{"kind":"map","most":null,"node":6,"size":null},"#,
    r#"{"kind":"list","most":4,"node":3,"size":5},"#,
    r#"{"kind":"array","count":2,"node":3,"size":2},"#,
    r#"{"kind":"f32","size":4},"#,
    r#"{"kind":"fixed","integer":"i16","order":"big","size":2},"#,
    r#"{"kind":"bytes","size":null}]}"#,
];

/// Texts one after another.
fn joined(alloc: Global, pieces: &[&str]) -> Result<Vec<u8>, AllocError> {
    let mut bytes = Vec::new(alloc);
    for piece in pieces {
        bytes.extend_from_slice(piece.as_bytes())?;
    }
    Ok(bytes)
}

/// Whether the table is said so.
fn is_table_said(alloc: Global) -> Result<bool, AllocError> {
    let said = table_json(alloc, &table(alloc)?)?;
    Ok(are_equal(&said, &joined(alloc, &TABLE)?))
}

#[test]
fn a_table_as_json(rt: HostRuntime) {
    check(&rt, matches!(is_table_said(rt.alloc()), Ok(true)));
}

// A message of a `u16`, whether strictly and how deep it is read, its lines, and whether it is one to its end.
type Message = (&'static [u8], bool, u32, &'static str, bool);

const MESSAGES: [Message; 6] = [
    (&[0xac, 2], false, DEPTH, "{\"value\":300}\n", true),
    (
        &[0xac, 2, 7],
        false,
        DEPTH,
        "{\"value\":300}\n{\"rest\":{\"from\":2,\"to\":3}}\n",
        false,
    ),
    (
        &[0xac],
        false,
        DEPTH,
        "{\"damaged\":{\"from\":0,\"to\":1}}\n",
        false,
    ),
    (&[0x81, 0], false, DEPTH, "{\"value\":1}\n", true),
    (
        &[0x81, 0],
        true,
        DEPTH,
        "{\"damaged\":{\"from\":0,\"to\":2}}\n",
        false,
    ),
    (
        &[0xac, 2],
        false,
        1,
        "{\"too_deep\":{\"from\":0,\"to\":2}}\n",
        false,
    ),
];

/// Whether a message is said so.
fn is_message_said(alloc: Global, schema: &Schema, row: Message) -> bool {
    let (message, strict, depth, wanted, good) = row;
    let reading = Reading {
        alloc,
        schema,
        place: 0,
        hex: false,
        strict,
        depth,
        sentinel: 0,
        summed: false,
    };
    let mut text = Vec::new(alloc);
    let mut lines = Vec::new(alloc);
    let said = put_message(reading, message, &mut text, &mut lines);
    matches!(said, Ok(is_good) if is_good == good) && are_equal(&lines, wanted.as_bytes())
}

/// Whether a line is sent as a message.
fn is_message_sent(alloc: Global, schema: &Schema, line: &str, wanted: &[u8]) -> bool {
    let sending = Sending {
        alloc,
        schema,
        place: 0,
        depth: DEPTH,
        sentinel: 0,
        summed: false,
    };
    match message_of(sending, line.as_bytes()) {
        Ok(message) => are_equal(&message, wanted),
        Err(_) => false,
    }
}

/// A frame of 300 with its sum (CRC-32 of AC 02 is AD658036), and the same with its last bit turned.
const SUMMED: [u8; 8] = [7, 0xac, 2, 0x36, 0x80, 0x65, 0xad, 0];

const SPOILT: [u8; 8] = [7, 0xac, 2, 0x36, 0x80, 0x65, 0xac, 0];

/// What both are read as.
const SUMMED_LINES: &str = "{\"value\":300}\n{\"damaged\":{\"from\":8,\"to\":15}}\n";

/// Whether this frame is what the line is sent as, with its sum.
fn is_sum_sent(alloc: Global, schema: &Schema, line: &str, wanted: &[u8]) -> bool {
    let sending = Sending {
        alloc,
        schema,
        place: 0,
        depth: DEPTH,
        sentinel: 0,
        summed: true,
    };
    match frame_of(sending, line.as_bytes()) {
        Ok(frame) => are_equal(&frame, wanted),
        Err(_) => false,
    }
}

/// Whether both are read so.
fn is_sum_read(alloc: Global, schema: &Schema, place: usize) -> Result<bool, AllocError> {
    let reading = Reading {
        alloc,
        schema,
        place,
        hex: false,
        strict: true,
        depth: DEPTH,
        sentinel: 0,
        summed: true,
    };
    let mut lines = Vec::new(alloc);
    let mut receiver = LinesOfFrames::new(reading, 0)?;
    receiver.push(&SUMMED, &mut lines)?;
    receiver.push(&SPOILT, &mut lines)?;
    let is_good = receiver.finish(&mut lines)?;
    Ok(!is_good && are_equal(&lines, SUMMED_LINES.as_bytes()))
}

/// What the viewer of both has as lines, and its picture.
const VIEWED: &str = "message 300\ndamaged at 8, 7 bytes: 07ac02368065ac\n";

const PICTURE: [&str; 4] = [
    "message              count  last",
    "message                  1  300",
    "no message               1",
    "  damaged at 8, 7 bytes: 07ac02368065ac",
];

/// Whether a picture has these lines.
fn has_lines(shown: &[Vec<u8>], wanted: &[&str]) -> bool {
    if shown.len() != wanted.len() {
        return false;
    }
    for (line, text) in shown.iter().zip(wanted) {
        if !are_equal(line, text.as_bytes()) {
            return false;
        }
    }
    true
}

/// Whether both are viewed so.
fn is_sum_viewed(alloc: Global, schema: &Schema, place: usize) -> Result<bool, AllocError> {
    let reading = Reading {
        alloc,
        schema,
        place,
        hex: false,
        strict: false,
        depth: DEPTH,
        sentinel: 0,
        summed: true,
    };
    let view = View {
        columns: 80,
        kinds: 8,
        window: None,
    };
    let mut lines = Vec::new(alloc);
    let mut viewer = Viewer::new(reading)?;
    viewer.push(&SUMMED, 0, &mut lines)?;
    viewer.push(&SPOILT, 0, &mut lines)?;
    let is_good = viewer.finish(&mut lines)?;
    let shown = picture(alloc, &viewer.table, view)?;
    Ok(!is_good && are_equal(&lines, VIEWED.as_bytes()) && has_lines(&shown, &PICTURE))
}

/// Whether lines become frames: of 300, and of 1 without a line feed; the line between them is refused.
fn are_frames_made(alloc: Global, schema: &Schema) -> Result<bool, AllocError> {
    let sending = Sending {
        alloc,
        schema,
        place: 0,
        depth: DEPTH,
        sentinel: 0,
        summed: false,
    };
    let mut frames = Vec::new(alloc);
    let mut wrongs = String::new(alloc);
    let mut sender = FramesOfLines::new(sending);
    sender.push(b"300\nnull\n1", &mut frames, &mut wrongs)?;
    let is_good = sender.finish(&mut frames, &mut wrongs)?;
    let are_right = are_equal(&frames, &[3, 0xac, 2, 0, 2, 1, 0]);
    Ok(!is_good && are_right && wrongs.as_str() == "line 2: expected a number\n")
}

#[test]
fn lines_as_frames(rt: HostRuntime) {
    let Some(schema) = schema_of(rt.alloc(), "u16") else {
        return check(&rt, false);
    };
    check(
        &rt,
        matches!(are_frames_made(rt.alloc(), &schema), Ok(true)),
    );
}

#[test]
fn sums_behind_messages(rt: HostRuntime) {
    let alloc = rt.alloc();
    let Some(mut schema) = schema_of(alloc, "u16") else {
        return check(&rt, false);
    };
    check(&rt, is_sum_sent(alloc, &schema, "300", &SUMMED));
    let Ok(place) = add_summed(alloc, &mut schema, 0) else {
        return check(&rt, false);
    };
    check(&rt, matches!(is_sum_read(alloc, &schema, place), Ok(true)));
    check(
        &rt,
        matches!(is_sum_viewed(alloc, &schema, place), Ok(true)),
    );
}

#[test]
fn messages_without_frames(rt: HostRuntime) {
    let Some(schema) = schema_of(rt.alloc(), "u16") else {
        return check(&rt, false);
    };
    for row in MESSAGES {
        check_row(&rt, row.3, is_message_said(rt.alloc(), &schema, row));
    }
    check(&rt, is_message_sent(rt.alloc(), &schema, "300", &[0xac, 2]));
}

/// The lines of which some are shown.
const LINES: &str = r#"{"value":"Dark"}
{"value":{"Lit":5}}
{"value":{"Lits":{"Lit":5}}}
{"cut":{"from":7,"to":9}}
"#;

/// The same with damage in red.
const RED_LINES: &str = "{\"value\":\"Dark\"}
{\"value\":{\"Lit\":5}}
{\"value\":{\"Lits\":{\"Lit\":5}}}
\u{1b}[31m{\"cut\":{\"from\":7,\"to\":9}}\u{1b}[0m
";

// The variant that is shown alone, the time, whether damage is red, and what is shown.
type ShownRow = (Option<&'static str>, Option<u64>, bool, &'static str);

const SHOWN: [ShownRow; 5] = [
    (None, None, false, LINES),
    (None, None, true, RED_LINES),
    (
        Some("Dark"),
        None,
        false,
        "{\"value\":\"Dark\"}\n{\"cut\":{\"from\":7,\"to\":9}}\n",
    ),
    (
        Some("Lit"),
        None,
        false,
        "{\"value\":{\"Lit\":5}}\n{\"cut\":{\"from\":7,\"to\":9}}\n",
    ),
    (
        Some("Dark"),
        Some(61_007),
        false,
        "{\"time\":61.007,\"value\":\"Dark\"}\n{\"time\":61.007,\"cut\":{\"from\":7,\"to\":9}}\n",
    ),
];

/// Whether this is shown of the lines.
fn is_shown(alloc: Global, row: ShownRow) -> Result<bool, AllocError> {
    let (only, time, colour, wanted) = row;
    let mut out = Vec::new(alloc);
    Shown::new(alloc, only, colour)?.put(LINES.as_bytes(), time, &mut out)?;
    Ok(are_equal(&out, wanted.as_bytes()))
}

#[test]
fn lines_that_are_shown(rt: HostRuntime) {
    for row in SHOWN {
        check_row(&rt, row.3, matches!(is_shown(rt.alloc(), row), Ok(true)));
    }
}

// A mode, a word, and whether it takes it.
type WordRow = (Action, &'static str, bool);

const WORDS: [WordRow; 14] = [
    (Action::Read, "hex", true),
    (Action::Read, "only=Dark", true),
    (Action::Read, "sentinel=0a", true),
    (Action::Read, "sentinel=a", false),
    (Action::Read, "depth=0", false),
    (Action::Read, "bytes=text", false),
    (Action::Read, "hexx", false),
    (Action::Write, "raw", true),
    (Action::Write, "strict", false),
    (Action::Write, "from=1", false),
    (Action::Watch, "strict", true),
    (Action::Watch, "hex", false),
    (Action::Watch, "raw", false),
    (Action::Watch, "time", false),
];

/// Whether a word is taken or named as this row says.
fn is_word(alloc: Global, row: WordRow) -> Result<bool, AllocError> {
    let (mode, word, taken) = row;
    let words = names(alloc, &[word])?;
    Ok(match options_of(mode, &words) {
        Ok(_) => taken,
        Err(wrong) => !taken && wrong.word == word,
    })
}

#[test]
fn words_of_modes(rt: HostRuntime) {
    for row in WORDS {
        check_row(&rt, row.1, matches!(is_word(rt.alloc(), row), Ok(true)));
    }
}
