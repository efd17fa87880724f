//! Whether names tell the parts of types apart.
ghost use Rattle.std.specs.Prelude.{◌≡◌, ◌↔◌, length, IfOk, IsTrue};
ghost use Rattle.schema_table.specs.Telling.{AreNamesOf, NamesDiffer, NamesTellParts};

use crate::{IntegerType, Names, Node, Schema};
use std::alloc::{AllocError, Global};
use std::collections::HashSet;

/// Whether each part has a name, and no two have the same.
fn differ(alloc: Global, parts: &[usize], names: &[String]) -> Result<bool, AllocError>
    ensures { IfOk result (λ b. IsTrue b
        ↔ (length names.now ≡ length parts.now) × NamesDiffer names.now) }
{
    let all: HashSet<&String> = names.iter().collect(alloc)?;
    Ok(all.len() == names.len() && names.len() == parts.len())
}

/// Whether a type has names as a type of Rust has them.
fn are_names_of(alloc: Global, node: &Node, names: &Names) -> Result<bool, AllocError>
    ensures { IfOk result (λ b. IsTrue b ↔ AreNamesOf node.now names.now) }
{
    Ok(match (node, names) {
        (Node::Struct(parts), Names::Fields(names)) => differ(alloc, parts, names)?,
        (Node::Enum(parts), Names::Variants(names)) => differ(alloc, parts, names)?,
        (Node::Struct(parts), Names::Newtype) => parts.len() <= 1,
        (Node::Struct(parts), Names::Unit | Names::Empty) => parts.is_empty(),
        (Node::Struct(_), _) => matches!(names, Names::Tuple),
        (Node::Enum(_), _) => false,
        (Node::LE(IntegerType::U32 | IntegerType::U64), _) => !matches!(names, Names::Empty),
        (Node::LE(_), _) => !matches!(names, Names::Empty | Names::Float),
        _ => !matches!(names, Names::Empty),
    })
}

impl Schema {
    /// Returns whether each type has names of its kind, as a type of Rust has them: no two fields and no two variants have
    /// one name, and a float has 32 or 64 bits.
    ///
    /// # Errors
    /// `AllocError` when out of memory.
    ///
    /// # Allocates
    /// Room for the names of one type at a time.
    pub fn names_tell_parts(&self, alloc: Global) -> Result<bool, AllocError>
        ensures told { IfOk result (λ b. IsTrue b ↔ NamesTellParts self.now) }
    {
        for (place, node) in self.nodes.iter().enumerate() {
            let Some(names) = self.names.get(place) else {
                return Ok(false);
            };
            if !are_names_of(alloc, node, names)? {
                return Ok(false);
            }
        }
        Ok(true)
    }
}
