//! Decoding messages by a table of types, for `link`'s receivers.
ghost use Rattle.std.specs.Prelude.{true, Some};
ghost use Rattle.std.proofs.Common.{ap};
ghost use Rattle.schema_table.specs.Schemas.{SchemaTakes, SchemaReads};
ghost use Rattle.schemas.specs.SchemaLaws.{schema_laws};
ghost use Rattle.link.specs.Judged.{front_laws};
ghost use Rattle.wire_lib.specs.Summed.{TakesSummed, ReadsSummed, summed_laws};

use crate::summed::kept;
use crate::words::DEEPEST;
use link::{ExactReader, FrontReader};
use postcard::Error;
use schemas::{Node, Value, from_bytes};
use std::alloc::Global;
use std::cell::Cell;

/// Reads the messages of a type of a table: a reader for [`Ordinary`](link::Ordinary) and [`Strict`](link::Strict).
///
/// # Example
/// ```rust
/// let pushed = receiver.push_with(alloc, &Ordinary(table), piece);
/// ```
#[derive(Clone, Copy, Drop)]
pub struct TableReader<'a> {
    /// The table.
    pub nodes: &'a [Node],
    /// The index of the type.
    pub place: usize,
    /// The limit of nested nodes of a value.
    pub depth: u32,
    /// Set if a message is refused only since it nests deeper.
    pub is_deep: &'a Cell<bool>,
    /// Whether a message is accepted only if its last four bytes are the CRC-32 of the others.
    pub summed: bool,
}

impl TableReader<'_> {
    /// Sets `is_deep` if a message that was refused is a value that nests deeper, with its checksum if there is one.
    pub(crate) fn note_depth(&self, alloc: Global, message: &[u8]) {
        // a value and its checksum are in a struct
        let deepest = DEEPEST + u32::from(self.summed);
        if let Ok(value) = from_bytes(alloc, self.nodes, self.place, deepest, message)
            && kept(alloc, self.summed, value).is_ok()
        {
            self.is_deep.set(true);
        }
    }
}

impl FrontReader<Value> for TableReader<'_> {
    ghost takes = { λ r. TakesSummed r.summed (SchemaTakes r.depth r.nodes.now r.place) };

    ghost reads = { λ r. ReadsSummed r.summed (SchemaReads r.depth r.nodes.now r.place) };

    ghost growing = { λ _. true };

    ghost laws = { λ r. summed_laws r.summed
        (front_laws (schema_laws r.depth r.nodes.now r.place)) };

    fn read_front(&self, alloc: Global, message: &[u8]) -> postcard::Result<Value> {
        match from_bytes(alloc, self.nodes, self.place, self.depth, message) {
            Ok(value) => kept(alloc, self.summed, value),
            Err(error) => {
                if matches!(error, Error::SerdeDeCustom) {
                    self.note_depth(alloc, message);
                }
                Err(error)
            }
        }
    }
}

impl ExactReader<Value> for TableReader<'_> {
    ghost writes_back = { λ r t v h. ap Some h.0.1 };
}
