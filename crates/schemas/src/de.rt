//! Reading a value from bytes, by a schema.
ghost use Rattle.std.specs.Prelude.{◌≡◌, ◌⊎◌, ℕ, List, true, IfOk, IfErr};
ghost use Rattle.postcard_tree.specs.declared.error.Error.TheVariants.{OutOfMemory};
ghost use Rattle.postcard_de.specs.Answer.{ReadsFront, AnswersFronts, first_of};
ghost use Rattle.schema_table.specs.Schemas.{SchemaTakes, SchemaReads, SchemaRefuses};

use crate::{Node, Value, read_value};
use postcard_de::Deserializer;
use postcard_tree::Result;
use std::alloc::Global;

/// Returns the value at the start of the bytes, of the type at that place of the table. What follows it is ignored.
///
/// `depth` bounds how many nodes the value nests in: 1 is enough for a number, 2 for a list of numbers.
///
/// # Errors
/// The first error in the order of reading, for bytes of which no prefix is accepted; or `OutOfMemory`. A place
/// without a node, and nodes nested deeper than `depth`, are `SerdeDeCustom`.
///
/// # Allocates
/// What the value holds. A count alone allocates nothing: each element is read before its memory is requested.
pub fn from_bytes(
    alloc: Global,
    nodes: &[Node],
    place: usize,
    depth: u32,
    s: &[u8],
) -> Result<Value>
    ensures value { IfOk result (λ v. (rest : List ℕ)
        × ReadsFront (SchemaReads depth nodes.now place) s.now rest v) }
    ensures only { AnswersFronts (SchemaTakes depth nodes.now place)
        (SchemaReads depth nodes.now place) true s.now result }
    ensures first { IfErr result (λ e. (e ≡ OutOfMemory)
        ⊎ SchemaRefuses depth nodes.now place s.now e) }
{
    let mut d = Deserializer::from_bytes(alloc, s);
    read_value(&mut d, nodes, place, depth)
}

/// Returns the value as [`from_bytes`] does, and the rest of the bytes.
///
/// # Errors
/// As [`from_bytes`].
///
/// # Allocates
/// As [`from_bytes`].
///
/// # Example
/// ```rust
/// match take_from_bytes(alloc, nodes, place, DEPTH, bytes) {
///     Ok((value, _)) => is_written_as(alloc, &value, wanted),
///     Err(_) => false,
/// }
/// ```
pub fn take_from_bytes<'a>(
    alloc: Global,
    nodes: &[Node],
    place: usize,
    depth: u32,
    s: &'a [u8],
) -> Result<(Value, &'a [u8])>
    ensures value { IfOk result
        (λ p. ReadsFront (SchemaReads depth nodes.now place) s.now p.1.now p.0) }
    ensures only { AnswersFronts (SchemaTakes depth nodes.now place)
        (SchemaReads depth nodes.now place) true s.now (first_of result) }
    ensures first { IfErr result (λ e. (e ≡ OutOfMemory)
        ⊎ SchemaRefuses depth nodes.now place s.now e) }
{
    let mut d = Deserializer::from_bytes(alloc, s);
    let value = read_value(&mut d, nodes, place, depth)?;
    let rest = d.finalize()?;
    Ok((value, rest))
}
