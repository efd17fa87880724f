//! How the message types of the module above are written and read.
// Written by postcard_derive from their declarations: change those, and write this anew.
ghost use Rattle.postcard_tree.specs.ReadingLaws.{form_as};
ghost use Rattle.postcard_tree.specs.Shapes.{form_matches};

use super::{Node, Nodes};
use postcard::ser_flavors::Flavor;
use postcard::{
    AsShape, Last, MatchesShape, Readable, Serialize, Serializer, ShapeOf, Shaped, Variant,
};

type NodeShape = Variant<u16, Last<()>>;

impl Shaped for Node {
    ghost use Rattle.example_by_hand.specs.declared.menu.Node.TheVariants.{Entry, Both};
    ghost use Rattle.postcard_tree.specs.declared.variants.Variant.TheVariants.{This, Other};
    ghost use Rattle.postcard_tree.specs.declared.variants.Last.TheVariants.{Last};

    type Shape = NodeShape;

    ghost shape = { λ v. elim v [
      | Entry x0 ↦ This x0
      | Both ↦ Other (Last tt)
    ] };

    fn from_shape(it: NodeShape) -> Node {
        match it {
            Variant::This(p0) => Node::Entry(p0),
            Variant::Other(Last::Last(())) => Node::Both,
        }
    }
}

impl Readable for Node {
    type Form = AsShape;

    ghost form = { form_as ⟦<Self as Shaped>⟧.shape ⟦<ShapeOf<Self> as Readable>⟧.form };
}

impl MatchesShape for Node {
    ghost matches = { form_matches };
}

impl Serialize for Node {
    fn serialize<F: Flavor>(&self, serializer: &mut Serializer<F>) -> postcard::Result<()> {
        match self {
            Node::Entry(p0) => serializer.serialize_newtype_variant(0, p0),
            Node::Both => serializer.serialize_unit_variant(1),
        }
    }
}

impl Shaped for Nodes {
    type Shape = Vec<Node>;

    ghost shape = { λ v. v.0 };

    fn from_shape(p0: Vec<Node>) -> Nodes {
        Nodes(p0)
    }
}

impl Readable for Nodes {
    type Form = AsShape;

    ghost form = { form_as ⟦<Self as Shaped>⟧.shape ⟦<ShapeOf<Self> as Readable>⟧.form };
}

impl MatchesShape for Nodes {
    ghost matches = { form_matches };
}

impl Serialize for Nodes {
    fn serialize<F: Flavor>(&self, serializer: &mut Serializer<F>) -> postcard::Result<()> {
        self.0.serialize(serializer)
    }
}
