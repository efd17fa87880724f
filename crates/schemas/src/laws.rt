//! Laws of every table of types: functions without a body. Call one where a proof needs its contract.
ghost use Rattle.std.specs.Prelude.{ℕ, List};
ghost use Rattle.postcard_tree.specs.ReadingLaws.{ReadingLaws};
ghost use Rattle.schema_table.specs.Values.{AreOneTree};
ghost use Rattle.schema_table.specs.Schemas.{SchemaTakes, SchemaReads, SchemaRefuses};
ghost use Rattle.schemas.specs.TypeSchemas.{AgreesWithItsSchemas};
ghost use Rattle.schema_table.specs.declared.node.Node.{Node as Nodes};

use crate::HasSchema;

/// What `postcard_tree::laws::reading` says of a type, for every type of every table, at every depth.
///
/// Only what is accepted is read, and it is a tree. No encoding of it is a prefix of another's, what is refused has
/// no prefix that is accepted, and two values of one tree are the same.
pub fn reading_by_schemas()
    ensures { (depth : ℕ) (nodes : List Nodes) (place : ℕ)
        → ReadingLaws (SchemaTakes depth nodes place)
        (SchemaReads depth nodes place) (SchemaRefuses depth nodes place) AreOneTree }
{}

/// A type and its schema accept the same trees, and refuse the same bytes with the same errors.
///
/// If both read from the same bytes, they read one tree and leave one rest; by the schema as a value of the type's
/// kinds.
pub fn reading_by_schemas_agrees<T: HasSchema>()
    ensures { AgreesWithItsSchemas T.form.takes T.form.reads T.form.refuses T.kinds }
{}
