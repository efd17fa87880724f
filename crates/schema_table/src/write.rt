//! Writing a value.
ghost use Rattle.std.specs.Prelude.{Some, ⊤};
ghost use Rattle.postcard_tree.specs.Tree.{byte, number, sequence, group, end, part};
ghost use Rattle.postcard_tree.specs.ReadingLaws.{only_written};
ghost use Rattle.postcard_ser.specs.Writing.{Writes, WritesAll};
ghost use Rattle.schema_table.specs.Integers.{little_group, big_group, little_tree_of, big_tree_of};
ghost use Rattle.schema_table.specs.Values.{tree_of, trees_in};

use crate::{Integer, Value};
use postcard_ser::ser_flavors::Flavor;
use postcard_ser::{Serialize, Serializer};
use postcard_tree::fixint::{BE, FixInt, LE};
use postcard_tree::{Own, Readable, Result};

/// A value is written as its tree, without its type. It is read by a schema alone.
impl Readable for Value {
    type Form = Own;

    ghost form = { only_written (λ v. Some (tree_of v)) (λ _. ⊤) };
}

impl Serialize for Value {
    fn serialize<F: Flavor>(&self, serializer: &mut Serializer<F>) -> Result<()> {
        write_value(self, serializer)
    }
}

fn write_as_little<T: FixInt, F: Flavor>(n: T, serializer: &mut Serializer<F>) -> Result<()>
    ensures writes { Writes F.took F.refused serializer.old.output
        (Some (little_group T.size (T.bits n))) result serializer.new.output }
    ensures same { F.same serializer.old.output serializer.new.output }
{
    LE(n).serialize(serializer)
}

fn write_little<F: Flavor>(n: Integer, serializer: &mut Serializer<F>) -> Result<()>
    ensures writes { Writes F.took F.refused serializer.old.output (Some (little_tree_of n)) result
        serializer.new.output }
    ensures same { F.same serializer.old.output serializer.new.output }
{
    match n {
        Integer::U16(n) => write_as_little(n, serializer),
        Integer::U32(n) => write_as_little(n, serializer),
        Integer::U64(n) => write_as_little(n, serializer),
        Integer::U128(n) => write_as_little(n, serializer),
        Integer::I16(n) => write_as_little(n, serializer),
        Integer::I32(n) => write_as_little(n, serializer),
        Integer::I64(n) => write_as_little(n, serializer),
        Integer::I128(n) => write_as_little(n, serializer),
    }
}

fn write_as_big<T: FixInt, F: Flavor>(n: T, serializer: &mut Serializer<F>) -> Result<()>
    ensures writes { Writes F.took F.refused serializer.old.output
        (Some (big_group T.size (T.bits n))) result serializer.new.output }
    ensures same { F.same serializer.old.output serializer.new.output }
{
    BE(n).serialize(serializer)
}

fn write_big<F: Flavor>(n: Integer, serializer: &mut Serializer<F>) -> Result<()>
    ensures writes { Writes F.took F.refused serializer.old.output (Some (big_tree_of n)) result
        serializer.new.output }
    ensures same { F.same serializer.old.output serializer.new.output }
{
    match n {
        Integer::U16(n) => write_as_big(n, serializer),
        Integer::U32(n) => write_as_big(n, serializer),
        Integer::U64(n) => write_as_big(n, serializer),
        Integer::U128(n) => write_as_big(n, serializer),
        Integer::I16(n) => write_as_big(n, serializer),
        Integer::I32(n) => write_as_big(n, serializer),
        Integer::I64(n) => write_as_big(n, serializer),
        Integer::I128(n) => write_as_big(n, serializer),
    }
}

#[cycle(write)]
fn write_value<F: Flavor>(v: &Value, serializer: &mut Serializer<F>) -> Result<()>
    ensures writes { Writes F.took F.refused serializer.old.output (Some (tree_of v.now)) result
        serializer.new.output }
    ensures same { F.same serializer.old.output serializer.new.output }
{
    match v {
        Value::Bool(b) => serializer.serialize_bool(*b),
        Value::U8(n) => serializer.serialize_u8(*n),
        Value::I8(n) => serializer.serialize_i8(*n),
        Value::U16(n) => serializer.serialize_u16(*n),
        Value::U32(n) => serializer.serialize_u32(*n),
        Value::U64(n) => serializer.serialize_u64(*n),
        Value::U128(n) => serializer.serialize_u128(*n),
        Value::I16(n) => serializer.serialize_i16(*n),
        Value::I32(n) => serializer.serialize_i32(*n),
        Value::I64(n) => serializer.serialize_i64(*n),
        Value::I128(n) => serializer.serialize_i128(*n),
        Value::LE(n) => write_little(*n, serializer),
        Value::BE(n) => write_big(*n, serializer),
        Value::Char(c) => serializer.serialize_char(*c),
        Value::Text(s) => serializer.serialize_bytes(s.as_bytes()),
        Value::Bytes(bytes) => serializer.serialize_bytes(bytes),
        Value::Absent => serializer.serialize_none(),
        Value::Present(inner) => write_present(inner, serializer),
        Value::List(items) => write_list(items, serializer),
        Value::Group(items) => write_group(items, serializer),
        Value::Variant(index, inner) => write_variant(*index, inner, serializer),
    }
}

#[cycle(write)]
fn write_present<F: Flavor>(inner: &Value, serializer: &mut Serializer<F>) -> Result<()>
    ensures writes { Writes F.took F.refused serializer.old.output
        (Some (group (part (byte 1) (part (tree_of inner.now) end)))) result serializer.new.output }
    ensures same { F.same serializer.old.output serializer.new.output }
{
    serializer.serialize_u8(1)?;
    write_value(inner, serializer)
}

#[cycle(write)]
fn write_variant<F: Flavor>(index: u32, inner: &Value, serializer: &mut Serializer<F>) -> Result<()>
    ensures writes { Writes F.took F.refused serializer.old.output
        (Some (group (part (number 32 index) (part (tree_of inner.now) end)))) result
        serializer.new.output }
    ensures same { F.same serializer.old.output serializer.new.output }
{
    serializer.serialize_u32(index)?;
    write_value(inner, serializer)
}

#[cycle(write)]
fn write_list<F: Flavor>(items: &[Value], serializer: &mut Serializer<F>) -> Result<()>
    ensures writes { Writes F.took F.refused serializer.old.output
        (Some (sequence (trees_in items.now))) result serializer.new.output }
    ensures same { F.same serializer.old.output serializer.new.output }
{
    serializer.serialize_seq(Some(items.len()))?;
    write_values(items, serializer)
}

#[cycle(write)]
fn write_group<F: Flavor>(items: &[Value], serializer: &mut Serializer<F>) -> Result<()>
    ensures writes { Writes F.took F.refused serializer.old.output
        (Some (group (trees_in items.now))) result serializer.new.output }
    ensures same { F.same serializer.old.output serializer.new.output }
{
    write_values(items, serializer)
}

#[cycle(write)]
fn write_values<F: Flavor>(items: &[Value], serializer: &mut Serializer<F>) -> Result<()>
    ensures writes { WritesAll F.took F.refused serializer.old.output (Some (trees_in items.now))
        result serializer.new.output }
    ensures same { F.same serializer.old.output serializer.new.output }
{
    for item in items {
        write_value(item, serializer)?;
    }
    Ok(())
}
