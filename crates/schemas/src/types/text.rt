//! Schemas of characters, texts and byte strings.
ghost use Rattle.std.specs.Prelude.{IfOk};
ghost use Rattle.postcard_tree.specs.Reading.{TakesByte, TakesSequence, RefusesByte, RefusesSequence, TakesText, RefusesText};
ghost use Rattle.schema_table.specs.Schemas.{AtTop, OfChar, OfText, OfBytes};
ghost use Rattle.schemas.specs.TypeSchemas.{BeginsWith, IsSchemaOf};

use super::{SchemaForm, add_leaf};
use crate::Node;
use arrayvec::ArrayString;
use postcard_tree::Own;
use std::alloc::{AllocError, Global};

impl SchemaForm<char> for Own {
    ghost form_kinds = { AtTop OfChar };

    fn add_form_schema(_alloc: Global, nodes: &mut Vec<Node>) -> Result<usize, AllocError> {
        add_leaf(nodes, Node::Char)
    }
}

impl SchemaForm<String> for Own {
    ghost form_kinds = { AtTop OfText };

    fn add_form_schema(_alloc: Global, nodes: &mut Vec<Node>) -> Result<usize, AllocError> {
        add_leaf(nodes, Node::Text)
    }
}

impl<const N: usize> SchemaForm<ArrayString<N>> for Own {
    ghost form_kinds = { AtTop OfText };

    fn add_form_schema(_alloc: Global, nodes: &mut Vec<Node>) -> Result<usize, AllocError> {
        add_leaf(nodes, Node::TextUpTo(N as u64))
    }
}

impl<'de> SchemaForm<&'de str> for Own {
    ghost form_kinds = { AtTop OfText };

    fn add_form_schema(_alloc: Global, nodes: &mut Vec<Node>) -> Result<usize, AllocError>
        ensures kept { BeginsWith nodes.old.items nodes.new.items }
        ensures is_schema { IfOk result (λ place.
            IsSchemaOf TakesText RefusesText (AtTop OfText) nodes.new.items place) }
    {
        add_leaf(nodes, Node::Text)
    }
}

impl<'de> SchemaForm<&'de [u8]> for Own {
    ghost form_kinds = { AtTop OfBytes };

    fn add_form_schema(_alloc: Global, nodes: &mut Vec<Node>) -> Result<usize, AllocError>
        ensures kept { BeginsWith nodes.old.items nodes.new.items }
        ensures is_schema { IfOk result (λ place.
            IsSchemaOf (TakesSequence TakesByte) (RefusesSequence TakesByte RefusesByte)
            (AtTop OfBytes) nodes.new.items place) }
    {
        add_leaf(nodes, Node::Bytes)
    }
}
