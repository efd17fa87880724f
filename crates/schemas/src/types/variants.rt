//! Schemas of the variants of an enum, which are the shapes of message types.
ghost use Rattle.schema_table.specs.Schemas.{AtTop, OfVariant};
ghost use Rattle.schemas.specs.TypeSchemas.{LastHas, FirstHas};

use super::{HasPayloadSchemas, HasSchema, SchemaForm, add_node};
use crate::Node;
use postcard_tree::{Last, Own, Variant, Variants4};
use std::alloc::{AllocError, Global};

impl<A: HasSchema> HasPayloadSchemas for Last<A> {
    ghost kinds_at = { LastHas A.kinds };

    fn add_payloads(
        alloc: Global,
        nodes: &mut Vec<Node>,
        payloads: &mut Vec<usize>,
    ) -> Result<(), AllocError> {
        let held = A::add_schema(alloc, nodes)?;
        payloads.push(held)?;
        Ok(())
    }
}

impl<A: HasSchema> SchemaForm<Last<A>> for Own {
    ghost form_kinds = { AtTop (OfVariant (LastHas A.kinds)) };

    fn add_form_schema(alloc: Global, nodes: &mut Vec<Node>) -> Result<usize, AllocError> {
        let mut payloads = Vec::new(alloc);
        <Last<A>>::add_payloads(alloc, nodes, &mut payloads)?;
        add_node(nodes, Node::Enum(payloads))
    }
}

impl<A: HasSchema, R: HasPayloadSchemas> HasPayloadSchemas for Variant<A, R> {
    ghost kinds_at = { FirstHas A.kinds R.kinds_at };

    fn add_payloads(
        alloc: Global,
        nodes: &mut Vec<Node>,
        payloads: &mut Vec<usize>,
    ) -> Result<(), AllocError> {
        let held = A::add_schema(alloc, nodes)?;
        payloads.push(held)?;
        R::add_payloads(alloc, nodes, payloads)
    }
}

impl<A: HasSchema, R: HasPayloadSchemas> SchemaForm<Variant<A, R>> for Own {
    ghost form_kinds = { AtTop (OfVariant (FirstHas A.kinds R.kinds_at)) };

    fn add_form_schema(alloc: Global, nodes: &mut Vec<Node>) -> Result<usize, AllocError> {
        let mut payloads = Vec::new(alloc);
        <Variant<A, R>>::add_payloads(alloc, nodes, &mut payloads)?;
        add_node(nodes, Node::Enum(payloads))
    }
}

impl<A: HasSchema, B: HasSchema, C: HasSchema, D: HasSchema, R: HasPayloadSchemas> HasPayloadSchemas
    for Variants4<A, B, C, D, R> {
    ghost kinds_at = { FirstHas A.kinds (FirstHas B.kinds (FirstHas C.kinds (FirstHas D.kinds R.kinds_at))) };

    fn add_payloads(
        alloc: Global,
        nodes: &mut Vec<Node>,
        payloads: &mut Vec<usize>,
    ) -> Result<(), AllocError> {
        <Variant<A, Variant<B, Variant<C, Variant<D, R>>>>>::add_payloads(alloc, nodes, payloads)
    }
}

impl<A: HasSchema, B: HasSchema, C: HasSchema, D: HasSchema, R: HasPayloadSchemas> SchemaForm<
    Variants4<A, B, C, D, R>,
> for Own {
    ghost form_kinds = { AtTop (OfVariant (FirstHas A.kinds (FirstHas B.kinds (FirstHas C.kinds (FirstHas D.kinds R.kinds_at))))) };

    fn add_form_schema(alloc: Global, nodes: &mut Vec<Node>) -> Result<usize, AllocError> {
        <Variant<A, Variant<B, Variant<C, Variant<D, R>>>>>::add_schema(alloc, nodes)
    }
}
