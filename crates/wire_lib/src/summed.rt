//! Messages that are followed by their CRC-32.
ghost use Rattle.std.specs.Prelude.{◌≡◌, ◌⊎◌, OnOk, Decides, IfOk, IfErr};
ghost use Rattle.postcard_tree.specs.declared.error.Error.TheVariants.{OutOfMemory, DeserializeBadCrc};
ghost use Rattle.schema_table.specs.Values.{tree_of};
ghost use Rattle.wire_lib.specs.Summed.{AddsSummed, EndsInSum, IsSummed, with_sum};

use postcard::fixint::LE;
use postcard::{Error, to_allocvec};
use schema_table::{IntegerType, Names, Node, Schema};
use schemas::Value;
use sealed::crc32;
use std::alloc::{AllocError, Global};

/// Whether the last four bytes are the CRC-32 of those before them, in little-endian order.
fn ends_in_sum(bytes: &[u8]) -> bool
    ensures { Decides result (EndsInSum bytes.now) }
{
    let (body, seal) = bytes.split_at(bytes.len().saturating_sub(4));
    let mut room = [0u8; 16];
    *seal == *LE(crc32(body)).put(&mut room)
}

/// Returns the value, if its encoding ends in the checksum of what precedes, or no checksum is asked for.
///
/// # Errors
/// `DeserializeBadCrc`: another checksum. `OutOfMemory`.
pub(crate) fn kept(alloc: Global, summed: bool, value: Value) -> postcard::Result<Value>
    ensures ok { IfOk result (λ v. (v ≡ value) × IsSummed summed (tree_of value)) }
    ensures err { IfErr result (λ e. (e ≡ OutOfMemory)
        ⊎ ((e ≡ DeserializeBadCrc) × (IsSummed summed (tree_of value) → ⊥))) }
{
    if !summed {
        return Ok(value);
    }
    let Ok(written) = to_allocvec(alloc, &value) else {
        return Err(Error::OutOfMemory);
    };
    if ends_in_sum(&written) {
        Ok(value)
    } else {
        Err(Error::DeserializeBadCrc)
    }
}

/// Appends the CRC-32 of a message, in little-endian order.
pub(crate) fn put_sum(message: &mut Vec<u8>) -> Result<(), AllocError>
    ensures { OnOk result (message.new.items ≡ with_sum message.old.items) }
{
    let mut room = [0u8; 16];
    message.extend_from_slice(LE(crc32(message)).put(&mut room))
}

/// Adds to the table the type whose messages are those of the type at index `place` followed by four bytes of checksum, and returns
/// its index: a struct of the value and the checksum, which is printed like the value.
///
/// # Errors
/// Out of memory; nodes without use may have been added.
///
/// # Allocates
/// What the table grows by: two types.
pub fn add_summed(alloc: Global, schema: &mut Schema, place: usize) -> Result<usize, AllocError>
    ensures { IfOk result (AddsSummed schema.old schema.new place) }
{
    let mut parts = Vec::new(alloc);
    parts.push(place)?;
    parts.push(schema.nodes.len())?;
    schema.nodes.push(Node::LE(IntegerType::U32))?;
    schema.names.push(Names::Nothing)?;
    let whole = schema.nodes.len();
    schema.nodes.push(Node::Struct(parts))?;
    schema.names.push(Names::Newtype)?;
    Ok(whole)
}
