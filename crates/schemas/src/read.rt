//! Reading a value by a schema.
ghost use Rattle.std.specs.Prelude.{◌≡◌, ◌<◌, [], ◌∷◌, ◌++◌, true, OnOk, vec_len, vec_capacity};
ghost use Rattle.postcard_tree.specs.Reading.{Spelled};
ghost use Rattle.postcard_de.specs.Deserializer.{OutcomeOf};
ghost use Rattle.schema_table.specs.declared.node.Node.TheVariants as kind;
ghost use Rattle.schema_table.specs.Schemas.{SchemaReads, SchemaRefuses};
ghost use Rattle.schemas.specs.Reading.{ReadsNode, ReadsLeaf, ReadsStructOf, ReadsEnumOf};

use crate::{HasIntegerType, IntegerType, Node, Value};
use postcard_de::de_flavors::Flavor;
use postcard_de::{DeserializeOwned, Deserializer};
use postcard_tree::fixint::{BE, LE};
use postcard_tree::{Error, Result};
use std::alloc::AllocError;

// For how many values a list requests memory at the first of them.
const FEW: u64 = 32;

fn read_bool<F: Flavor>(d: &mut Deserializer<F>) -> Result<Value>
    ensures { ReadsLeaf F.source kind.Bool d.old d.new result }
{
    let v = d.deserialize_bool()?;
    Ok(Value::Bool(v))
}

fn read_u8<F: Flavor>(d: &mut Deserializer<F>) -> Result<Value>
    ensures { ReadsLeaf F.source kind.U8 d.old d.new result }
{
    let v = d.deserialize_u8()?;
    Ok(Value::U8(v))
}

fn read_i8<F: Flavor>(d: &mut Deserializer<F>) -> Result<Value>
    ensures { ReadsLeaf F.source kind.I8 d.old d.new result }
{
    let v = d.deserialize_i8()?;
    Ok(Value::I8(v))
}

fn read_u16<F: Flavor>(d: &mut Deserializer<F>) -> Result<Value>
    ensures { ReadsLeaf F.source kind.U16 d.old d.new result }
{
    let v = d.deserialize_u16()?;
    Ok(Value::U16(v))
}

fn read_u32<F: Flavor>(d: &mut Deserializer<F>) -> Result<Value>
    ensures { ReadsLeaf F.source kind.U32 d.old d.new result }
{
    let v = d.deserialize_u32()?;
    Ok(Value::U32(v))
}

fn read_u64<F: Flavor>(d: &mut Deserializer<F>) -> Result<Value>
    ensures { ReadsLeaf F.source kind.U64 d.old d.new result }
{
    let v = d.deserialize_u64()?;
    Ok(Value::U64(v))
}

fn read_u128<F: Flavor>(d: &mut Deserializer<F>) -> Result<Value>
    ensures { ReadsLeaf F.source kind.U128 d.old d.new result }
{
    let v = d.deserialize_u128()?;
    Ok(Value::U128(v))
}

fn read_i16<F: Flavor>(d: &mut Deserializer<F>) -> Result<Value>
    ensures { ReadsLeaf F.source kind.I16 d.old d.new result }
{
    let v = d.deserialize_i16()?;
    Ok(Value::I16(v))
}

fn read_i32<F: Flavor>(d: &mut Deserializer<F>) -> Result<Value>
    ensures { ReadsLeaf F.source kind.I32 d.old d.new result }
{
    let v = d.deserialize_i32()?;
    Ok(Value::I32(v))
}

fn read_i64<F: Flavor>(d: &mut Deserializer<F>) -> Result<Value>
    ensures { ReadsLeaf F.source kind.I64 d.old d.new result }
{
    let v = d.deserialize_i64()?;
    Ok(Value::I64(v))
}

fn read_i128<F: Flavor>(d: &mut Deserializer<F>) -> Result<Value>
    ensures { ReadsLeaf F.source kind.I128 d.old d.new result }
{
    let v = d.deserialize_i128()?;
    Ok(Value::I128(v))
}

// An integer of a named type.
fn little_as<T: HasIntegerType, F: Flavor>(d: &mut Deserializer<F>) -> Result<Value>
    ensures { ReadsLeaf F.source (kind.LE T.which) d.old d.new result }
{
    let read = LE::<T>::deserialize_owned(d)?;
    Ok(Value::LE(read.0.integer()))
}

fn big_as<T: HasIntegerType, F: Flavor>(d: &mut Deserializer<F>) -> Result<Value>
    ensures { ReadsLeaf F.source (kind.BE T.which) d.old d.new result }
{
    let read = BE::<T>::deserialize_owned(d)?;
    Ok(Value::BE(read.0.integer()))
}

fn read_little<F: Flavor>(d: &mut Deserializer<F>, of: IntegerType) -> Result<Value>
    ensures { ReadsLeaf F.source (kind.LE of) d.old d.new result }
{
    match of {
        IntegerType::U16 => little_as::<u16, F>(d),
        IntegerType::U32 => little_as::<u32, F>(d),
        IntegerType::U64 => little_as::<u64, F>(d),
        IntegerType::U128 => little_as::<u128, F>(d),
        IntegerType::I16 => little_as::<i16, F>(d),
        IntegerType::I32 => little_as::<i32, F>(d),
        IntegerType::I64 => little_as::<i64, F>(d),
        IntegerType::I128 => little_as::<i128, F>(d),
    }
}

fn read_big<F: Flavor>(d: &mut Deserializer<F>, of: IntegerType) -> Result<Value>
    ensures { ReadsLeaf F.source (kind.BE of) d.old d.new result }
{
    match of {
        IntegerType::U16 => big_as::<u16, F>(d),
        IntegerType::U32 => big_as::<u32, F>(d),
        IntegerType::U64 => big_as::<u64, F>(d),
        IntegerType::U128 => big_as::<u128, F>(d),
        IntegerType::I16 => big_as::<i16, F>(d),
        IntegerType::I32 => big_as::<i32, F>(d),
        IntegerType::I64 => big_as::<i64, F>(d),
        IntegerType::I128 => big_as::<i128, F>(d),
    }
}

fn read_char<F: Flavor>(d: &mut Deserializer<F>) -> Result<Value>
    ensures { ReadsLeaf F.source kind.Char d.old d.new result }
{
    let v = d.deserialize_char()?;
    Ok(Value::Char(v))
}

fn read_text<F: Flavor>(d: &mut Deserializer<F>) -> Result<Value>
    ensures { ReadsLeaf F.source kind.Text d.old d.new result }
{
    let v = d.deserialize_string()?;
    Ok(Value::Text(v))
}

// A text that is too long is read whole before it is refused.
fn read_text_up_to<F: Flavor>(d: &mut Deserializer<F>, most: u64) -> Result<Value>
    ensures { ReadsLeaf F.source (kind.TextUpTo most) d.old d.new result }
{
    let text = d.deserialize_string()?;
    if text.len() as u64 > most {
        return Err(Error::SerdeDeCustom);
    }
    Ok(Value::Text(text))
}

fn read_bytes<F: Flavor>(d: &mut Deserializer<F>) -> Result<Value>
    ensures { ReadsLeaf F.source kind.Bytes d.old d.new result }
{
    let v = d.deserialize_byte_buf()?;
    Ok(Value::Bytes(v))
}

#[cycle(read)]
fn read_option<F: Flavor>(
    d: &mut Deserializer<F>,
    nodes: &[Node],
    place: usize,
    depth: u32,
) -> Result<Value>
    ensures { ReadsNode F.source depth nodes.now (kind.Option place) d.old d.new result }
{
    if !d.deserialize_option()? {
        return Ok(Value::Absent);
    }
    let value = read_value(d, nodes, place, depth)?;
    match Box::new(d.allocator(), value) {
        Ok(v) => Ok(Value::Present(v)),
        Err(_) => Err(Error::OutOfMemory),
    }
}

// Grows a full list for one more value: an empty one for as many as are to come, but for a few at most; after that it doubles.
#[cold]
#[inline(never)]
fn make_room(items: &mut Vec<Value>, count: u64) -> std::result::Result<(), AllocError>
    ensures items { items.new.items ≡ items.old.items }
    ensures room { OnOk result (vec_len items.new < vec_capacity items.new) }
{
    let more = if items.is_empty() {
        count.clamp(1, FEW)
    } else {
        1
    };
    items.reserve(more as usize)
}

// Appends a value that was read, of so many in all: so a count alone allocates nothing, and a short list allocates once.
#[inline(always)]
fn append(items: &mut Vec<Value>, item: Value, count: u64) -> std::result::Result<(), AllocError>
    ensures { OnOk result (items.new.items ≡ items.old.items ++ item ∷ []) }
{
    if items.len() == items.capacity() {
        make_room(items, count)?;
    }
    items.push_reserved(item);
    Ok(())
}

// Each element is read before its memory is requested.
#[cycle(read)]
fn read_list<F: Flavor>(
    d: &mut Deserializer<F>,
    nodes: &[Node],
    place: usize,
    depth: u32,
) -> Result<Value>
    ensures { ReadsNode F.source depth nodes.now (kind.List place) d.old d.new result }
{
    let count = d.deserialize_u64()?;
    let mut items = Vec::new(d.allocator());
    for _ in 0..count {
        let item = read_value(d, nodes, place, depth)?;
        if append(&mut items, item, count).is_err() {
            return Err(Error::OutOfMemory);
        }
    }
    Ok(Value::List(items))
}

// An element that is one too many is read before it is refused.
#[cycle(read)]
fn read_list_up_to<F: Flavor>(
    d: &mut Deserializer<F>,
    nodes: &[Node],
    most: u64,
    place: usize,
    depth: u32,
) -> Result<Value>
    ensures { ReadsNode F.source depth nodes.now (kind.ListUpTo most place) d.old d.new result }
{
    let count = d.deserialize_u64()?;
    let mut items = Vec::new(d.allocator());
    for i in 0..count {
        let item = read_value(d, nodes, place, depth)?;
        if i == most {
            return Err(Error::SerdeDeCustom);
        }
        if append(&mut items, item, count).is_err() {
            return Err(Error::OutOfMemory);
        }
    }
    Ok(Value::List(items))
}

#[cycle(read)]
fn read_array<F: Flavor>(
    d: &mut Deserializer<F>,
    nodes: &[Node],
    count: u64,
    place: usize,
    depth: u32,
) -> Result<Value>
    ensures { ReadsNode F.source depth nodes.now (kind.Array count place) d.old d.new result }
{
    let mut items = Vec::new(d.allocator());
    for _ in 0..count {
        let item = read_value(d, nodes, place, depth)?;
        if append(&mut items, item, count).is_err() {
            return Err(Error::OutOfMemory);
        }
    }
    Ok(Value::Group(items))
}

#[cycle(read)]
fn read_fields<F: Flavor>(
    d: &mut Deserializer<F>,
    nodes: &[Node],
    fields: &[usize],
    depth: u32,
) -> Result<Value>
    ensures { ReadsStructOf F.source depth nodes.now fields.now d.old d.new result }
{
    let mut items = Vec::new(d.allocator());
    for i in 0..fields.len() {
        let item = read_value(d, nodes, fields[i], depth)?;
        if append(&mut items, item, fields.len() as u64).is_err() {
            return Err(Error::OutOfMemory);
        }
    }
    Ok(Value::Group(items))
}

#[cycle(read)]
fn read_variant<F: Flavor>(
    d: &mut Deserializer<F>,
    nodes: &[Node],
    payloads: &[usize],
    depth: u32,
) -> Result<Value>
    ensures { ReadsEnumOf F.source depth nodes.now payloads.now d.old d.new result }
{
    let index = d.deserialize_enum()?;
    if index as usize >= payloads.len() {
        return Err(Error::SerdeDeCustom);
    }
    let value = read_value(d, nodes, payloads[index as usize], depth)?;
    match Box::new(d.allocator(), value) {
        Ok(v) => Ok(Value::Variant(index, v)),
        Err(_) => Err(Error::OutOfMemory),
    }
}

#[cycle(read)]
fn read_node<F: Flavor>(
    d: &mut Deserializer<F>,
    nodes: &[Node],
    node: &Node,
    depth: u32,
) -> Result<Value>
    ensures { ReadsNode F.source depth nodes.now node.now d.old d.new result }
{
    match node {
        Node::Bool => read_bool(d),
        Node::U8 => read_u8(d),
        Node::I8 => read_i8(d),
        Node::U16 => read_u16(d),
        Node::U32 => read_u32(d),
        Node::U64 => read_u64(d),
        Node::U128 => read_u128(d),
        Node::I16 => read_i16(d),
        Node::I32 => read_i32(d),
        Node::I64 => read_i64(d),
        Node::I128 => read_i128(d),
        Node::LE(of) => read_little(d, *of),
        Node::BE(of) => read_big(d, *of),
        Node::Char => read_char(d),
        Node::Text => read_text(d),
        Node::TextUpTo(most) => read_text_up_to(d, *most),
        Node::Bytes => read_bytes(d),
        Node::Option(inner) => read_option(d, nodes, *inner, depth),
        Node::List(inner) => read_list(d, nodes, *inner, depth),
        Node::ListUpTo(most, inner) => read_list_up_to(d, nodes, *most, *inner, depth),
        Node::Array(count, inner) => read_array(d, nodes, *count, *inner, depth),
        Node::Struct(fields) => read_fields(d, nodes, fields, depth),
        Node::Enum(payloads) => read_variant(d, nodes, payloads, depth),
    }
}

/// Returns a value of the type at that place of the table, which nests in at most `depth` nodes, from any source.
///
/// A value is returned only if a prefix of the bytes encodes a tree that the type accepts.
///
/// # Errors
/// The first error in the order of reading, if the source refuses only past its end; or `OutOfMemory`. A place without a
/// node, and nodes nested deeper than `depth`, are `SerdeDeCustom`.
///
/// # Allocates
/// What the value holds. A count alone allocates nothing: each element is read before its memory is requested.
#[cycle(read)]
pub fn read_value<F: Flavor>(
    d: &mut Deserializer<F>,
    nodes: &[Node],
    place: usize,
    depth: u32,
) -> Result<Value>
    ensures { OutcomeOf F.source d.old d.new result (Spelled (SchemaReads depth nodes.now place))
        (SchemaRefuses depth nodes.now place) true }
{
    if depth == 0 {
        return Err(Error::SerdeDeCustom);
    }
    match nodes.get(place) {
        None => Err(Error::SerdeDeCustom),
        Some(node) => read_node(d, nodes, node, depth - 1),
    }
}
