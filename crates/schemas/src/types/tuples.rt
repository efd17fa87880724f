//! Schemas of tuples of one to six parts.
ghost use Rattle.std.specs.Prelude.{IfOk};
ghost use Rattle.schema_table.specs.Schemas.{AtTop, OfGroup};
ghost use Rattle.schemas.specs.TypeSchemas.{BeginsWith, IsStructAdded, NoneHave, OneThenHave};

use super::{HasSchema, SchemaForm, add_node};
use crate::Node;
use postcard_tree::Own;
use std::alloc::{AllocError, Global};

// Appends the struct of these fields to a table, and returns its place.
fn add_struct<const N: usize>(
    alloc: Global,
    nodes: &mut Vec<Node>,
    fields: [usize; N],
) -> Result<usize, AllocError>
    ensures kept { BeginsWith nodes.old.items nodes.new.items }
    ensures added { IfOk result (λ place.
        IsStructAdded fields.entry nodes.old.items nodes.new.items place) }
{
    let held = Vec::from_array(alloc, fields)?;
    add_node(nodes, Node::Struct(held))
}

impl<A: HasSchema> SchemaForm<(A,)> for Own {
    ghost form_kinds = { AtTop (OfGroup (OneThenHave A.kinds NoneHave)) };

    fn add_form_schema(alloc: Global, nodes: &mut Vec<Node>) -> Result<usize, AllocError> {
        let first = A::add_schema(alloc, nodes)?;
        add_struct(alloc, nodes, [first])
    }
}

impl<A: HasSchema, B: HasSchema> SchemaForm<(A, B)> for Own {
    ghost form_kinds = { AtTop (OfGroup (OneThenHave A.kinds (OneThenHave B.kinds NoneHave))) };

    fn add_form_schema(alloc: Global, nodes: &mut Vec<Node>) -> Result<usize, AllocError> {
        let first = A::add_schema(alloc, nodes)?;
        let second = B::add_schema(alloc, nodes)?;
        add_struct(alloc, nodes, [first, second])
    }
}

impl<A: HasSchema, B: HasSchema, C: HasSchema> SchemaForm<(A, B, C)> for Own {
    ghost form_kinds = { AtTop (OfGroup (OneThenHave A.kinds (OneThenHave B.kinds (OneThenHave C.kinds NoneHave)))) };

    fn add_form_schema(alloc: Global, nodes: &mut Vec<Node>) -> Result<usize, AllocError> {
        let first = A::add_schema(alloc, nodes)?;
        let second = B::add_schema(alloc, nodes)?;
        let third = C::add_schema(alloc, nodes)?;
        add_struct(alloc, nodes, [first, second, third])
    }
}

impl<A: HasSchema, B: HasSchema, C: HasSchema, D: HasSchema> SchemaForm<(A, B, C, D)> for Own {
    ghost form_kinds = { AtTop (OfGroup (OneThenHave A.kinds (OneThenHave B.kinds (OneThenHave C.kinds (OneThenHave D.kinds NoneHave))))) };

    fn add_form_schema(alloc: Global, nodes: &mut Vec<Node>) -> Result<usize, AllocError> {
        let first = A::add_schema(alloc, nodes)?;
        let second = B::add_schema(alloc, nodes)?;
        let third = C::add_schema(alloc, nodes)?;
        let fourth = D::add_schema(alloc, nodes)?;
        add_struct(alloc, nodes, [first, second, third, fourth])
    }
}

impl<A: HasSchema, B: HasSchema, C: HasSchema, D: HasSchema, E: HasSchema> SchemaForm<
    (A, B, C, D, E),
> for Own {
    ghost form_kinds = { AtTop (OfGroup (OneThenHave A.kinds (OneThenHave B.kinds (OneThenHave C.kinds (OneThenHave D.kinds (OneThenHave E.kinds NoneHave)))))) };

    fn add_form_schema(alloc: Global, nodes: &mut Vec<Node>) -> Result<usize, AllocError> {
        let first = A::add_schema(alloc, nodes)?;
        let second = B::add_schema(alloc, nodes)?;
        let third = C::add_schema(alloc, nodes)?;
        let fourth = D::add_schema(alloc, nodes)?;
        let fifth = E::add_schema(alloc, nodes)?;
        add_struct(alloc, nodes, [first, second, third, fourth, fifth])
    }
}

impl<A: HasSchema, B: HasSchema, C: HasSchema, D: HasSchema, E: HasSchema, F: HasSchema> SchemaForm<
    (A, B, C, D, E, F),
> for Own {
    ghost form_kinds = { AtTop (OfGroup (OneThenHave A.kinds (OneThenHave B.kinds (OneThenHave C.kinds (OneThenHave D.kinds (OneThenHave E.kinds (OneThenHave F.kinds NoneHave))))))) };

    fn add_form_schema(alloc: Global, nodes: &mut Vec<Node>) -> Result<usize, AllocError> {
        let first = A::add_schema(alloc, nodes)?;
        let second = B::add_schema(alloc, nodes)?;
        let third = C::add_schema(alloc, nodes)?;
        let fourth = D::add_schema(alloc, nodes)?;
        let fifth = E::add_schema(alloc, nodes)?;
        let sixth = F::add_schema(alloc, nodes)?;
        add_struct(alloc, nodes, [first, second, third, fourth, fifth, sixth])
    }
}
