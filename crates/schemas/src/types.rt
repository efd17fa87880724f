//! The tables of Rust types.
mod containers;
mod numbers;
mod text;
mod tuples;
mod variants;

ghost use Rattle.std.specs.Prelude.{ℕ, IfOk};
ghost use Rattle.schema_table.specs.declared.value.Value.{Value};
ghost use Rattle.schemas.specs.TypeSchemas.{BeginsWith, TakeTheSame, IsSchemaOf, PayloadsAdded, IsAdded, IsLeaf, LeafTakes, LeafRefuses, LeafHas};

use crate::Node;
use postcard_tree::{AsShape, Readable, ReadableVariants, Shaped};
use std::alloc::{AllocError, Global};

/// A type that is a type of a table: its nodes accept the same trees and refuse the same bytes, and read values of
/// its own kinds.
///
/// Every type of the format has it, and a message type by [`SchemaOfShape`]. A recursive type has none: it would
/// accept every depth.
///
/// # Example
/// ```rust
/// fn by_schema<T: HasSchema>(alloc: Global, bytes: &[u8]) -> Result<String, AllocError> {
///     let (nodes, place) = schema_of::<T>(alloc)?;
///     match take_from_bytes(alloc, &nodes, place, DEPTH, bytes) {
///         Ok((value, rest)) => say_again(alloc, &value, rest.len()),
///         Err(cause) => say_refused(alloc, cause),
///     }
/// }
/// ```
pub trait HasSchema: Readable {
    /// The values that the type is read as, kind by kind: of `i16` those of `Value::I16`, of a struct the groups of
    /// its fields' values, in order.
    ghost kinds: { Value → Type 0 };

    /// Appends the type's nodes to a table, and returns the type's place among them.
    ///
    /// The type is read to a depth of the table's length, or deeper; more nodes may follow.
    ///
    /// # Errors
    /// `AllocError` when out of memory; some of the nodes may have been appended.
    ///
    /// # Allocates
    /// What the table grows by.
    fn add_schema(alloc: Global, nodes: &mut Vec<Node>) -> Result<usize, AllocError>
        ensures kept { BeginsWith nodes.old.items nodes.new.items }
        ensures is_schema { IfOk result (λ place.
            IsSchemaOf Self.form.takes Self.form.refuses Self.kinds nodes.new.items place) };
}

/// How a type has [`HasSchema`], by its form.
///
/// # Example
/// ```rust
/// let added = <Own as SchemaForm<u16>>::add_form_schema(rt.alloc(), &mut nodes);
/// check(&rt, matches!(&added, Ok(0)));
/// ```
pub trait SchemaForm<M: Readable> {
    /// The values that the type is read as.
    ghost form_kinds: { Value → Type 0 };

    /// Appends the type's nodes to a table, as [`HasSchema::add_schema`] does.
    ///
    /// # Errors
    /// As [`HasSchema::add_schema`].
    ///
    /// # Allocates
    /// What the table grows by.
    fn add_form_schema(alloc: Global, nodes: &mut Vec<Node>) -> Result<usize, AllocError>
        ensures kept { BeginsWith nodes.old.items nodes.new.items }
        ensures is_schema { IfOk result (λ place.
            IsSchemaOf M.form.takes M.form.refuses form_kinds nodes.new.items place) };
}

impl<M: Readable> HasSchema for M
where
    M::Form: SchemaForm<M>,
{
    ghost kinds = { M.Form.form_kinds };

    fn add_schema(alloc: Global, nodes: &mut Vec<Node>) -> Result<usize, AllocError> {
        <M::Form as SchemaForm<M>>::add_form_schema(alloc, nodes)
    }
}

/// A message type that has the schema of its shape, which this one line gives it.
///
/// # Example
/// ```rust
/// impl SchemaOfShape for NewTypeStruct {
///     ghost same = { as_its_shape };
/// }
/// ```
pub trait SchemaOfShape: Shaped + Readable
where
    Self::Shape: Readable,
{
    /// It accepts the trees of its shape, and refuses the bytes that its shape refuses.
    ghost same: { TakeTheSame Self.Shape.form.takes Self.form.takes
        Self.Shape.form.refuses Self.form.refuses };
}

impl<M: SchemaOfShape> SchemaForm<M> for AsShape
where
    M::Shape: HasSchema,
{
    ghost form_kinds = { M.Shape.kinds };

    fn add_form_schema(alloc: Global, nodes: &mut Vec<Node>) -> Result<usize, AllocError> {
        <M::Shape as HasSchema>::add_schema(alloc, nodes)
    }
}

/// Variants that are types of a table.
///
/// # Example
/// ```rust
/// let added = <Last<u16> as HasPayloadSchemas>::add_payloads(
///     rt.alloc(),
///     &mut nodes,
///     &mut payloads,
/// );
/// ```
pub trait HasPayloadSchemas: ReadableVariants {
    /// The values that the payload of an index is read as.
    ghost kinds_at: { ℕ → Value → Type 0 };

    /// Appends the nodes of what the variants hold to a table, and their places to `payloads`.
    ///
    /// # Errors
    /// `AllocError` when out of memory; some of them may have been appended.
    ///
    /// # Allocates
    /// What the table and `payloads` grow by.
    fn add_payloads(
        alloc: Global,
        nodes: &mut Vec<Node>,
        payloads: &mut Vec<usize>,
    ) -> Result<(), AllocError>
        ensures kept { BeginsWith nodes.old.items nodes.new.items }
        ensures are_schemas { IfOk result (λ _.
            PayloadsAdded Self.takes_at Self.refuses_at Self.kinds_at nodes.new.items
            payloads.old.items payloads.new.items) };
}

/// Returns a table of the type alone, and the type's place in it.
///
/// A `depth` of the table's length or more accepts every value of the type.
///
/// # Errors
/// `AllocError` when out of memory.
///
/// # Allocates
/// The nodes.
///
/// # Example
/// ```rust
/// let (nodes, place) = schema_of::<T>(alloc)?;
/// match take_from_bytes(alloc, &nodes, place, DEPTH, bytes) {
///     Ok((value, rest)) => say_again(alloc, &value, rest.len()),
///     Err(cause) => say_refused(alloc, cause),
/// }
/// ```
pub fn schema_of<T: HasSchema>(alloc: Global) -> Result<(Vec<Node>, usize), AllocError>
    ensures { IfOk result (λ p. IsSchemaOf T.form.takes T.form.refuses T.kinds p.0.items p.1) }
{
    let mut nodes = Vec::new(alloc);
    let place = T::add_schema(alloc, &mut nodes)?;
    Ok((nodes, place))
}

// Appends a node to a table, and returns its place.
fn add_node(nodes: &mut Vec<Node>, node: Node) -> Result<usize, AllocError>
    ensures kept { BeginsWith nodes.old.items nodes.new.items }
    ensures added { IfOk result (λ place. IsAdded node nodes.old.items nodes.new.items place) }
{
    let place = nodes.len();
    nodes.push(node)?;
    Ok(place)
}

// Appends a node that names no place to a table.
fn add_leaf(nodes: &mut Vec<Node>, node: Node) -> Result<usize, AllocError>
    requires { IsLeaf node }
    ensures kept { BeginsWith nodes.old.items nodes.new.items }
    ensures is_schema { IfOk result (λ place.
        IsSchemaOf (LeafTakes node) (LeafRefuses node) (LeafHas node) nodes.new.items place) }
{
    add_node(nodes, node)
}
