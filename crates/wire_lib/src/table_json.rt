//! A table of types as JSON, with the maximum sizes of its types. README.md of the program `wire` documents its form.
ghost use Rattle.std.specs.Prelude.{IfOk};
ghost use Rattle.wire_lib.specs.TableJson.{IsTableText};

use crate::sizes::greatest_sizes;
use schema_table::Schema;
use std::alloc::{AllocError, Global};
use wire_print::table_json::print_table;

/// Returns a table of types as one line of JSON: `{"version":1,"types":[..],"nodes":[..]}`.
///
/// # Errors
/// Out of memory.
///
/// # Allocates
/// The line, and a size for each type, which is freed.
pub fn table_json(alloc: Global, schema: &Schema) -> Result<Vec<u8>, AllocError>
    ensures { IfOk result (λ text. IsTableText schema.now text.items) }
{
    let sizes = greatest_sizes(alloc, &schema.nodes)?;
    let text = print_table(alloc, schema, &sizes)?;
    Ok(text)
}
