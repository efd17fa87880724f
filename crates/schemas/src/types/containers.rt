//! Schemas of unit, options, results, boxes, sequences, arrays and maps.
ghost use Rattle.schema_table.specs.Schemas.{AtTop, OfOption, OfList, OfGroup, OfVariant, EachHas};
ghost use Rattle.schemas.specs.TypeSchemas.{NoneHave, OneThenHave, LastHas, FirstHas};

use super::{HasSchema, SchemaForm, add_node};
use crate::Node;
use arrayvec::ArrayVec;
use postcard_tree::Own;
use std::alloc::{AllocError, Global};
use std::collections::BTreeMap;

impl SchemaForm<()> for Own {
    ghost form_kinds = { AtTop (OfGroup NoneHave) };

    fn add_form_schema(alloc: Global, nodes: &mut Vec<Node>) -> Result<usize, AllocError> {
        add_node(nodes, Node::Struct(Vec::new(alloc)))
    }
}

impl<T: HasSchema> SchemaForm<Option<T>> for Own {
    ghost form_kinds = { AtTop (OfOption T.kinds) };

    fn add_form_schema(alloc: Global, nodes: &mut Vec<Node>) -> Result<usize, AllocError> {
        let inner = T::add_schema(alloc, nodes)?;
        add_node(nodes, Node::Option(inner))
    }
}

impl<T: HasSchema, E: HasSchema> SchemaForm<std::result::Result<T, E>> for Own {
    ghost form_kinds = { AtTop (OfVariant (FirstHas T.kinds (LastHas E.kinds))) };

    fn add_form_schema(alloc: Global, nodes: &mut Vec<Node>) -> Result<usize, AllocError> {
        let value = T::add_schema(alloc, nodes)?;
        let error = E::add_schema(alloc, nodes)?;
        let payloads = Vec::from_array(alloc, [value, error])?;
        add_node(nodes, Node::Enum(payloads))
    }
}

impl<T: HasSchema> SchemaForm<Box<T>> for Own {
    ghost form_kinds = { T.kinds };

    fn add_form_schema(alloc: Global, nodes: &mut Vec<Node>) -> Result<usize, AllocError> {
        T::add_schema(alloc, nodes)
    }
}

impl<'a, T: HasSchema> SchemaForm<&'a T> for Own {
    ghost form_kinds = { T.kinds };

    fn add_form_schema(alloc: Global, nodes: &mut Vec<Node>) -> Result<usize, AllocError> {
        T::add_schema(alloc, nodes)
    }
}

/// Also of `Vec<u8>`: a list of bytes, which accepts what `Bytes` accepts.
impl<T: HasSchema> SchemaForm<Vec<T>> for Own {
    ghost form_kinds = { AtTop (OfList (EachHas T.kinds)) };

    fn add_form_schema(alloc: Global, nodes: &mut Vec<Node>) -> Result<usize, AllocError> {
        let inner = T::add_schema(alloc, nodes)?;
        add_node(nodes, Node::List(inner))
    }
}

impl<T: HasSchema, const N: usize> SchemaForm<ArrayVec<T, N>> for Own {
    ghost form_kinds = { AtTop (OfList (EachHas T.kinds)) };

    fn add_form_schema(alloc: Global, nodes: &mut Vec<Node>) -> Result<usize, AllocError> {
        let inner = T::add_schema(alloc, nodes)?;
        add_node(nodes, Node::ListUpTo(N as u64, inner))
    }
}

impl<T: HasSchema, const N: usize> SchemaForm<[T; N]> for Own {
    ghost form_kinds = { AtTop (OfGroup (EachHas T.kinds)) };

    fn add_form_schema(alloc: Global, nodes: &mut Vec<Node>) -> Result<usize, AllocError> {
        let inner = T::add_schema(alloc, nodes)?;
        add_node(nodes, Node::Array(N as u64, inner))
    }
}

/// A map is a list of its pairs.
impl<K: HasSchema + Ord, V: HasSchema> SchemaForm<BTreeMap<K, V>> for Own {
    ghost form_kinds = { AtTop (OfList (EachHas (AtTop (OfGroup (OneThenHave K.kinds (OneThenHave V.kinds NoneHave)))))) };

    fn add_form_schema(alloc: Global, nodes: &mut Vec<Node>) -> Result<usize, AllocError> {
        let pair = <(K, V)>::add_schema(alloc, nodes)?;
        add_node(nodes, Node::List(pair))
    }
}
