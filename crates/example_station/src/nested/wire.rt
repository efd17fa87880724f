//! How the message types of the module above are written and read.
// Written by postcard_derive from their declarations: change those, and write this anew.
ghost use Rattle.postcard_tree.specs.ReadingLaws.{form_as};
ghost use Rattle.postcard_tree.specs.Shapes.{form_matches};

use super::{
    BE, BTreeMap, Borrower, Deep, Drawing, Holders, LE, Lent, Message, Point, Sample, Six, Text,
};
use postcard::ser_flavors::Flavor;
use postcard::{
    AsShape, Last, MatchesShape, Readable, Serialize, Serializer, ShapeOf, Shaped, Variant,
    Variants4, fixint,
};

type TextShape = (String, u8);

impl Shaped for Text {
    type Shape = TextShape;

    ghost shape = { λ v. (v.text, v.kind) };

    fn from_shape(it: TextShape) -> Text {
        let (text, kind) = it;
        Text { text, kind }
    }
}

impl Readable for Text {
    type Form = AsShape;

    ghost form = { form_as ⟦<Self as Shaped>⟧.shape ⟦<ShapeOf<Self> as Readable>⟧.form };
}

impl MatchesShape for Text {
    ghost matches = { form_matches };
}

impl Serialize for Text {
    fn serialize<F: Flavor>(&self, serializer: &mut Serializer<F>) -> postcard::Result<()> {
        (&self.text, &self.kind).serialize(serializer)
    }
}

type PointShape = (i16, bool);

impl Shaped for Point {
    type Shape = PointShape;

    ghost shape = { λ v. (v.x, v.is_seen) };

    fn from_shape(it: PointShape) -> Point {
        let (x, is_seen) = it;
        Point { x, is_seen }
    }
}

impl Readable for Point {
    type Form = AsShape;

    ghost form = { form_as ⟦<Self as Shaped>⟧.shape ⟦<ShapeOf<Self> as Readable>⟧.form };
}

impl MatchesShape for Point {
    ghost matches = { form_matches };
}

impl Serialize for Point {
    fn serialize<F: Flavor>(&self, serializer: &mut Serializer<F>) -> postcard::Result<()> {
        (&self.x, &self.is_seen).serialize(serializer)
    }
}

type DrawingShape = ([Point; 3], Option<Point>, LE<u16>, BE<u32>, u128, LE<u128>);

impl Shaped for Drawing {
    type Shape = DrawingShape;

    ghost shape = { λ v. (v.corners, v.center, v.short, v.word, v.whole, v.long) };

    fn from_shape(it: DrawingShape) -> Drawing {
        let (corners, center, short, word, whole, long) = it;
        Drawing {
            corners,
            center,
            short,
            word,
            whole,
            long,
        }
    }
}

impl Readable for Drawing {
    type Form = AsShape;

    ghost form = { form_as ⟦<Self as Shaped>⟧.shape ⟦<ShapeOf<Self> as Readable>⟧.form };
}

impl MatchesShape for Drawing {
    ghost matches = { form_matches };
}

impl Serialize for Drawing {
    fn serialize<F: Flavor>(&self, serializer: &mut Serializer<F>) -> postcard::Result<()> {
        (
            &self.corners,
            &self.center,
            &self.short,
            &self.word,
            &self.whole,
            &self.long,
        )
            .serialize(serializer)
    }
}

type HoldersShape = (Vec<Text>, Option<Text>, BTreeMap<u16, Text>, Box<Text>);

impl Shaped for Holders {
    type Shape = HoldersShape;

    ghost shape = { λ v. (v.texts, v.first, v.numbered, v.boxed) };

    fn from_shape(it: HoldersShape) -> Holders {
        let (texts, first, numbered, boxed) = it;
        Holders {
            texts,
            first,
            numbered,
            boxed,
        }
    }
}

impl Readable for Holders {
    type Form = AsShape;

    ghost form = { form_as ⟦<Self as Shaped>⟧.shape ⟦<ShapeOf<Self> as Readable>⟧.form };
}

impl MatchesShape for Holders {
    ghost matches = { form_matches };
}

impl Serialize for Holders {
    fn serialize<F: Flavor>(&self, serializer: &mut Serializer<F>) -> postcard::Result<()> {
        (&self.texts, &self.first, &self.numbered, &self.boxed).serialize(serializer)
    }
}

type SampleShape<T, const N: usize> = (fixint::LE<u32>, fixint::BE<i16>, [T; N]);

impl<T: Clone, const N: usize> Shaped for Sample<T, N> {
    type Shape = SampleShape<T, N>;

    ghost shape = { λ v. (record { 0 = v.at }, record { 0 = v.offset }, v.levels) };

    fn from_shape(it: SampleShape<T, N>) -> Sample<T, N> {
        let (fixint::LE(at), fixint::BE(offset), levels) = it;
        Sample { at, offset, levels }
    }
}

impl<T: Clone + Readable, const N: usize> Readable for Sample<T, N> {
    type Form = AsShape;

    ghost form = { form_as ⟦<Self as Shaped>⟧.shape ⟦<ShapeOf<Self> as Readable>⟧.form };
}

impl<T: Clone + Readable, const N: usize> MatchesShape for Sample<T, N> {
    ghost matches = { form_matches };
}

impl<T: Clone + Serialize, const N: usize> Serialize for Sample<T, N> {
    fn serialize<F: Flavor>(&self, serializer: &mut Serializer<F>) -> postcard::Result<()> {
        (fixint::LE(self.at), fixint::BE(self.offset), &self.levels).serialize(serializer)
    }
}

type LentShape<'a> = (&'a str, u8);

impl<'a> Shaped for Lent<'a> {
    type Shape = LentShape<'a>;

    ghost shape = { λ v. (v.text, v.kind) };

    fn from_shape(it: LentShape<'a>) -> Lent<'a> {
        let (text, kind) = it;
        Lent { text, kind }
    }
}

impl<'a> Readable for Lent<'a> {
    type Form = AsShape;

    ghost form = { form_as ⟦<Self as Shaped>⟧.shape ⟦<ShapeOf<Self> as Readable>⟧.form };
}

impl<'a> MatchesShape for Lent<'a> {
    ghost matches = { form_matches };
}

impl<'a> Serialize for Lent<'a> {
    fn serialize<F: Flavor>(&self, serializer: &mut Serializer<F>) -> postcard::Result<()> {
        (&self.text, &self.kind).serialize(serializer)
    }
}

type BorrowerShape<'a, 'b, T> = (Lent<'a>, Vec<Lent<'b>>, Option<T>);

impl<'a, 'b, T> Shaped for Borrower<'a, 'b, T> {
    type Shape = BorrowerShape<'a, 'b, T>;

    ghost shape = { λ v. (v.lent, v.all, v.own) };

    fn from_shape(it: BorrowerShape<'a, 'b, T>) -> Borrower<'a, 'b, T> {
        let (lent, all, own) = it;
        Borrower { lent, all, own }
    }
}

impl<'a, 'b, T: Readable> Readable for Borrower<'a, 'b, T> {
    type Form = AsShape;

    ghost form = { form_as ⟦<Self as Shaped>⟧.shape ⟦<ShapeOf<Self> as Readable>⟧.form };
}

impl<'a, 'b, T: Readable> MatchesShape for Borrower<'a, 'b, T> {
    ghost matches = { form_matches };
}

impl<'a, 'b, T: Serialize> Serialize for Borrower<'a, 'b, T> {
    fn serialize<F: Flavor>(&self, serializer: &mut Serializer<F>) -> postcard::Result<()> {
        (&self.lent, &self.all, &self.own).serialize(serializer)
    }
}

impl Shaped for Deep {
    type Shape = ((((((Six, u8), u8), u8), u8), u8), u8);

    ghost shape = { λ v. v.0 };

    fn from_shape(p0: ((((((Six, u8), u8), u8), u8), u8), u8)) -> Deep {
        Deep(p0)
    }
}

impl Readable for Deep {
    type Form = AsShape;

    ghost form = { form_as ⟦<Self as Shaped>⟧.shape ⟦<ShapeOf<Self> as Readable>⟧.form };
}

impl MatchesShape for Deep {
    ghost matches = { form_matches };
}

impl Serialize for Deep {
    fn serialize<F: Flavor>(&self, serializer: &mut Serializer<F>) -> postcard::Result<()> {
        self.0.serialize(serializer)
    }
}

type MessageShape = Variants4<
    Text,
    Drawing,
    Holders,
    (Option<Text>, Point),
    Variant<
        fixint::BE<u64>,
        Variant<(std::option::Option<u8>, fixint::LE<u16>), Last<(BE<u32>, LE<u128>, u128)>>,
    >,
>;

impl Shaped for Message {
    ghost use Rattle.example_station.specs.declared.nested.Message.TheVariants.{Text, Drawing, Holders, Seen, Lost, Kept, Numbers};
    ghost use Rattle.postcard_tree.specs.declared.variants.Variants4.TheVariants.{V0, V1, V2, V3, More};
    ghost use Rattle.postcard_tree.specs.declared.variants.Variant.TheVariants.{This, Other};
    ghost use Rattle.postcard_tree.specs.declared.variants.Last.TheVariants.{Last};

    type Shape = MessageShape;

    ghost shape = { λ v. elim v [
      | Text x0 ↦ V0 x0
      | Drawing x0 ↦ V1 x0
      | Holders x0 ↦ V2 x0
      | Seen x0 x1 ↦ V3 (x0, x1)
      | Lost x0 ↦ More (This (record { 0 = x0 }))
      | Kept x0 x1 ↦ More (Other (This (x0, record { 0 = x1 })))
      | Numbers x0 x1 x2 ↦ More (Other (Other (Last (x0, x1, x2))))
    ] };

    fn from_shape(it: MessageShape) -> Message {
        match it {
            Variants4::V0(p0) => Message::Text(p0),
            Variants4::V1(p0) => Message::Drawing(p0),
            Variants4::V2(p0) => Message::Holders(p0),
            Variants4::V3((by, at)) => Message::Seen { by, at },
            Variants4::More(it) => match it {
                Variant::This(fixint::BE(p0)) => Message::Lost(p0),
                Variant::Other(Variant::This((parts, fixint::LE(sum)))) => Message::Kept {
                    parts,
                    sum,
                },
                Variant::Other(Variant::Other(Last::Last((p0, p1, p2)))) => Message::Numbers(
                    p0, p1, p2,
                ),
            },
        }
    }
}

impl Readable for Message {
    type Form = AsShape;

    ghost form = { form_as ⟦<Self as Shaped>⟧.shape ⟦<ShapeOf<Self> as Readable>⟧.form };
}

impl MatchesShape for Message {
    ghost matches = { form_matches };
}

impl Serialize for Message {
    fn serialize<F: Flavor>(&self, serializer: &mut Serializer<F>) -> postcard::Result<()> {
        match self {
            Message::Text(p0) => serializer.serialize_newtype_variant(0, p0),
            Message::Drawing(p0) => serializer.serialize_newtype_variant(1, p0),
            Message::Holders(p0) => serializer.serialize_newtype_variant(2, p0),
            Message::Seen { by, at } => serializer.serialize_newtype_variant(3, &(by, at)),
            Message::Lost(p0) => serializer.serialize_newtype_variant(4, &fixint::BE(*p0)),
            Message::Kept { parts, sum } => serializer.serialize_newtype_variant(
                5,
                &(parts, fixint::LE(*sum)),
            ),
            Message::Numbers(p0, p1, p2) => serializer.serialize_newtype_variant(6, &(p0, p1, p2)),
        }
    }
}
