//! Messages without frames.
ghost use Rattle.std.specs.Prelude.{◌≡◌, ◌≢◌, ◌⊎◌, ◌↔◌, true, false, codes, IfOk, IfErr, IsTrue};
ghost use Rattle.postcard_de.specs.Answer.{ReadsFront};
ghost use Rattle.postcard_tree.specs.Spelling.{short};
ghost use Rattle.postcard_tree.specs.declared.error.Error.TheVariants.{OutOfMemory};
ghost use Rattle.schema_table.specs.Values.{tree_of};
ghost use Rattle.wire_lib.specs.Received.{read_by};
ghost use Rattle.wire_lib.specs.Raw.{ShowsWhole, ShowsFront, ShowsDamage, ReadsNone, IsMessageToSend};
ghost use Rattle.wire_lib.specs.Said.{OnlyAppended};
ghost use Rattle.wire_json.specs.Refused.{IfWrong};
ghost use Rattle.wire_lib.specs.Sent.{MeansNothing};

use crate::receive::{Reading, put_stretch_line, put_value_line};
use crate::send::Sending;
use crate::summed::{kept, put_sum};
use crate::table::TableReader;
use postcard::{Error, to_allocvec};
use schemas::{Value, take_from_bytes};
use std::alloc::AllocError;
use std::cell::Cell;
use wire_json::parse::parse;
use wire_json::wrong::ParseError;

/// Whether a message is the encoding of a value.
fn is_written(reading: Reading<'_>, value: &Value, message: &[u8]) -> Result<bool, AllocError>
    ensures { IfOk result (λ b. IsTrue b ↔ message.now ≡ short (tree_of value.now)) }
{
    match to_allocvec(reading.alloc, value) {
        Ok(written) => Ok(*written == *message),
        Err(_) => Err(AllocError),
    }
}

/// The word for a message that isn't a value: `damaged` or `too_deep`.
fn what_of(reading: Reading<'_>, error: Error, message: &[u8]) -> &'static str
    ensures { (result.now ≡ codes "damaged") ⊎ (result.now ≡ codes "too_deep") }
{
    let is_deep = Cell::new(false);
    let table = TableReader {
        nodes: &reading.schema.nodes,
        place: reading.place,
        depth: reading.depth,
        is_deep: &is_deep,
        summed: reading.summed,
    };
    if matches!(error, Error::SerdeDeCustom) {
        table.note_depth(reading.alloc, message);
    }
    if is_deep.get() { "too_deep" } else { "damaged" }
}

/// The value at the start of a message, and the bytes after it.
fn take_kept<'a>(reading: Reading<'_>, message: &'a [u8]) -> postcard::Result<(Value, &'a [u8])>
    ensures value { IfOk result
        (λ p. ReadsFront (read_by reading.entry) message.now p.1.now p.0) }
    ensures none { IfErr result (λ e. e ≢ OutOfMemory → ReadsNone reading.entry message.now) }
{
    let Reading {
        alloc,
        schema,
        place,
        depth,
        summed,
        ..
    } = reading;
    let (value, rest) = take_from_bytes(alloc, &schema.nodes, place, depth, message)?;
    match kept(alloc, summed, value) {
        Ok(value) => Ok((value, rest)),
        Err(error) => Err(error),
    }
}

/// Appends the line of the value at the start of a message, and one about the bytes after it, if there are any; returns whether there
/// are none.
fn put_front(
    reading: Reading<'_>,
    value: &Value,
    rest: &[u8],
    message: &[u8],
    text: &mut Vec<u8>,
    lines: &mut Vec<u8>,
) -> Result<bool, AllocError>
    requires read { ReadsFront (read_by reading) message.now rest.now value.now }
    requires exact { reading.strict ≡ true → message.now ≡ short (tree_of value.now) }
    ensures good { IfOk result (λ good. good ≡ true
        → ShowsWhole reading.entry message.now lines.old.items lines.new.items) }
    ensures other { IfOk result (λ good. good ≡ false
        → ShowsFront reading.entry message.now lines.old.items lines.new.items) }
    ensures only { OnlyAppended lines.old.items lines.new.items }
{
    put_value_line(reading, value, text, lines)?;
    if rest.is_empty() {
        return Ok(true);
    }
    let to = message.len() as u64;
    let from = to.saturating_sub(rest.len() as u64);
    put_stretch_line(reading.alloc, "rest", from, to, lines)?;
    Ok(false)
}

/// Appends the line of a message that begins with this value, and one about the bytes after it, if there are any; returns whether
/// there are none.
fn put_taken(
    reading: Reading<'_>,
    value: &Value,
    rest: &[u8],
    message: &[u8],
    text: &mut Vec<u8>,
    lines: &mut Vec<u8>,
) -> Result<bool, AllocError>
    requires { ReadsFront (read_by reading) message.now rest.now value.now }
    ensures good { IfOk result (λ good. good ≡ true
        → ShowsWhole reading.entry message.now lines.old.items lines.new.items) }
    ensures other { IfOk result (λ good. good ≡ false
        → ShowsFront reading.entry message.now lines.old.items lines.new.items
        ⊎ ShowsDamage reading.entry message.now lines.old.items lines.new.items) }
    ensures only { OnlyAppended lines.old.items lines.new.items }
{
    if reading.strict && !is_written(reading, value, message)? {
        put_stretch_line(reading.alloc, "damaged", 0, message.len() as u64, lines)?;
        return Ok(false);
    }
    put_front(reading, value, rest, message, text, lines)
}

/// Appends the line of a message without a frame, and returns whether the whole message is a value of the type.
///
/// The line is `{"value": ..}`, followed by `{"rest": {"from": .., "to": ..}}` if bytes are left over; else `damaged` or `too_deep`
/// with the positions of the whole message. With `strict` a message that isn't the encoding of its value is damaged. `text` is a
/// buffer for the value's text, which is reused.
///
/// # Errors
/// Out of memory; a part of the lines may have been appended.
///
/// # Allocates
/// What `text` and `lines` grow by. The value, and with `strict` its encoding, are freed.
pub fn put_message(
    reading: Reading<'_>,
    message: &[u8],
    text: &mut Vec<u8>,
    lines: &mut Vec<u8>,
) -> Result<bool, AllocError>
    ensures good { IfOk result (λ good. good ≡ true
        → ShowsWhole reading.entry message.now lines.old.items lines.new.items) }
    ensures other { IfOk result (λ good. good ≡ false
        → ShowsFront reading.entry message.now lines.old.items lines.new.items
        ⊎ ShowsDamage reading.entry message.now lines.old.items lines.new.items) }
    ensures only { OnlyAppended lines.old.items lines.new.items }
{
    match take_kept(reading, message) {
        Ok((value, rest)) => put_taken(reading, &value, rest, message, text, lines),
        Err(Error::OutOfMemory) => Err(AllocError),
        Err(error) => {
            let what = what_of(reading, error, message);
            put_stretch_line(reading.alloc, what, 0, message.len() as u64, lines)?;
            Ok(false)
        }
    }
}

/// Returns the encoding of the value that a line of JSON contains, without a frame; with its checksum if there is one.
///
/// # Errors
/// Those of [`parse`](wire_json::parse::parse).
///
/// # Allocates
/// The encoding. The value is freed; of a fault its path is allocated.
pub fn message_of(sending: Sending<'_>, line: &[u8]) -> Result<Vec<u8>, ParseError>
    ensures sent { IfOk result (λ message. IsMessageToSend sending.entry line.now message.items) }
    ensures refused { IfWrong result (MeansNothing sending.entry line.now) }
{
    let Sending {
        alloc,
        schema,
        place,
        depth,
        summed,
        ..
    } = sending;
    let value = parse(alloc, schema, place, depth, line)?;
    let Ok(mut message) = to_allocvec(alloc, &value) else {
        return Err(ParseError::OutOfMemory);
    };
    if summed {
        put_sum(&mut message)?;
    }
    Ok(message)
}
