//! Schemas of truth values and numbers.
ghost use Rattle.schema_table.specs.Schemas.{AtTop, OfBool, OfU8, OfI8, OfU16, OfU32, OfU64, OfU128, OfI16, OfI32, OfI64, OfI128, OfLE, OfBE};

use super::{SchemaForm, add_leaf};
use crate::{HasIntegerType, Node};
use postcard_tree::Own;
use postcard_tree::fixint::{BE, LE};
use std::alloc::{AllocError, Global};

impl SchemaForm<bool> for Own {
    ghost form_kinds = { AtTop OfBool };

    fn add_form_schema(_alloc: Global, nodes: &mut Vec<Node>) -> Result<usize, AllocError> {
        add_leaf(nodes, Node::Bool)
    }
}

impl SchemaForm<u8> for Own {
    ghost form_kinds = { AtTop OfU8 };

    fn add_form_schema(_alloc: Global, nodes: &mut Vec<Node>) -> Result<usize, AllocError> {
        add_leaf(nodes, Node::U8)
    }
}

impl SchemaForm<i8> for Own {
    ghost form_kinds = { AtTop OfI8 };

    fn add_form_schema(_alloc: Global, nodes: &mut Vec<Node>) -> Result<usize, AllocError> {
        add_leaf(nodes, Node::I8)
    }
}

impl SchemaForm<u16> for Own {
    ghost form_kinds = { AtTop OfU16 };

    fn add_form_schema(_alloc: Global, nodes: &mut Vec<Node>) -> Result<usize, AllocError> {
        add_leaf(nodes, Node::U16)
    }
}

impl SchemaForm<u32> for Own {
    ghost form_kinds = { AtTop OfU32 };

    fn add_form_schema(_alloc: Global, nodes: &mut Vec<Node>) -> Result<usize, AllocError> {
        add_leaf(nodes, Node::U32)
    }
}

impl SchemaForm<u64> for Own {
    ghost form_kinds = { AtTop OfU64 };

    fn add_form_schema(_alloc: Global, nodes: &mut Vec<Node>) -> Result<usize, AllocError> {
        add_leaf(nodes, Node::U64)
    }
}

impl SchemaForm<usize> for Own {
    ghost form_kinds = { AtTop OfU64 };

    fn add_form_schema(_alloc: Global, nodes: &mut Vec<Node>) -> Result<usize, AllocError> {
        add_leaf(nodes, Node::U64)
    }
}

impl SchemaForm<u128> for Own {
    ghost form_kinds = { AtTop OfU128 };

    fn add_form_schema(_alloc: Global, nodes: &mut Vec<Node>) -> Result<usize, AllocError> {
        add_leaf(nodes, Node::U128)
    }
}

impl SchemaForm<i16> for Own {
    ghost form_kinds = { AtTop OfI16 };

    fn add_form_schema(_alloc: Global, nodes: &mut Vec<Node>) -> Result<usize, AllocError> {
        add_leaf(nodes, Node::I16)
    }
}

impl SchemaForm<i32> for Own {
    ghost form_kinds = { AtTop OfI32 };

    fn add_form_schema(_alloc: Global, nodes: &mut Vec<Node>) -> Result<usize, AllocError> {
        add_leaf(nodes, Node::I32)
    }
}

impl SchemaForm<i64> for Own {
    ghost form_kinds = { AtTop OfI64 };

    fn add_form_schema(_alloc: Global, nodes: &mut Vec<Node>) -> Result<usize, AllocError> {
        add_leaf(nodes, Node::I64)
    }
}

impl SchemaForm<isize> for Own {
    ghost form_kinds = { AtTop OfI64 };

    fn add_form_schema(_alloc: Global, nodes: &mut Vec<Node>) -> Result<usize, AllocError> {
        add_leaf(nodes, Node::I64)
    }
}

impl SchemaForm<i128> for Own {
    ghost form_kinds = { AtTop OfI128 };

    fn add_form_schema(_alloc: Global, nodes: &mut Vec<Node>) -> Result<usize, AllocError> {
        add_leaf(nodes, Node::I128)
    }
}

impl<T: HasIntegerType> SchemaForm<LE<T>> for Own {
    ghost form_kinds = { AtTop (OfLE T.which) };

    fn add_form_schema(_alloc: Global, nodes: &mut Vec<Node>) -> Result<usize, AllocError> {
        add_leaf(nodes, Node::LE(T::integer_type()))
    }
}

impl<T: HasIntegerType> SchemaForm<BE<T>> for Own {
    ghost form_kinds = { AtTop (OfBE T.which) };

    fn add_form_schema(_alloc: Global, nodes: &mut Vec<Node>) -> Result<usize, AllocError> {
        add_leaf(nodes, Node::BE(T::integer_type()))
    }
}
