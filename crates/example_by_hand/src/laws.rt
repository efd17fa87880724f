//! The tree of each type: what its values write, which of them are alike, and whether reading asks for memory.
ghost use Rattle.std.specs.Prelude.{◌≡◌, ◌↔◌, ℕ, [], ◌∷◌, Some, map, true, false};
ghost use Rattle.postcard_tree.specs.Tree.{Tree, byte, number, group, end, parts, group_of, sequence_of, text_of, variant_of};
ghost use Rattle.example_by_hand.specs.declared.structs.RefStruct.{RefStruct as RefStructs};
ghost use Rattle.example_by_hand.specs.declared.structs.NewTypeStruct.{NewTypeStruct as NewTypeStructs};
ghost use Rattle.example_by_hand.specs.declared.structs.TupleStruct.{TupleStruct as TupleStructs};
ghost use Rattle.example_by_hand.specs.declared.structs.EnumStruct.{EnumStruct as EnumStructs};
ghost use Rattle.example_by_hand.specs.declared.enums.BasicEnum.{BasicEnum as BasicEnums};
ghost use Rattle.example_by_hand.specs.declared.enums.BasicEnum.TheVariants.{Bib as BasicBib, Bim as BasicBim, Bap as BasicBap};
ghost use Rattle.example_by_hand.specs.declared.enums.DataEnum.{DataEnum as DataEnums};
ghost use Rattle.example_by_hand.specs.declared.enums.DataEnum.TheVariants.{Bib, Bim, Bap, Kim, Chi, Sho};
ghost use Rattle.example_by_hand.specs.declared.chain.Chain.{Chain as Chains};
ghost use Rattle.example_by_hand.specs.Chain.{chain_tree, bytes_in};
ghost use Rattle.schemas.specs.TypeSchemas.{AgreesWithItsSchemas};

use crate::chain::Chain;
use crate::enums::{BasicEnum, DataEnum};
use crate::structs::{EnumStruct, NewTypeStruct, RefStruct, TupleStruct};
use postcard::experimental::max_size::MaxSize;
use postcard::{Exact, Readable};
use schemas::HasSchema;
use schemas::laws::reading_by_schemas_agrees;

/// What is read from a tree writes that tree, whichever of these types it has.
pub fn read_as_written<T: Exact>()
    ensures { (t : Tree) (v : _) → T.form.reads t v → T.form.writes v ≡ Some t }
{}

/// Two parts that are borrowed from what was read.
pub fn ref_struct<'a>()
    ensures written { (v : RefStructs) → ⟦<RefStruct<'a> as Readable>⟧.form.writes v
        ≡ group_of (parts (sequence_of (parts (map (λ b. Some (byte b)) v.bytes.now))
        ∷ Some (text_of v.text.now) ∷ [])) }
    ensures alike { (v w : RefStructs) → ⟦<RefStruct<'a> as Readable>⟧.form.alike v w
        ↔ ((v.bytes.now ≡ w.bytes.now) × (v.text.now ≡ w.text.now)) }
    ensures growing { ⟦<RefStruct<'a> as Readable>⟧.form.growing ≡ false }
{}

/// The number itself.
pub fn new_type_struct()
    ensures written { (v : NewTypeStructs)
        → ⟦<NewTypeStruct as Readable>⟧.form.writes v ≡ Some (number 32 v.0) }
    ensures alike { (v w : NewTypeStructs) → ⟦<NewTypeStruct as Readable>⟧.form.alike v w ↔
        (v ≡ w) }
    ensures growing { ⟦<NewTypeStruct as Readable>⟧.form.growing ≡ false }
    ensures greatest { ⟦<NewTypeStruct as MaxSize>⟧.greatest ≡ Some 5 }
{}

/// The two fields in order.
pub fn tuple_struct()
    ensures written { (v : TupleStructs) → ⟦<TupleStruct as Readable>⟧.form.writes v
        ≡ group_of (parts (Some (byte v.0) ∷ Some (number 16 v.1) ∷ [])) }
    ensures alike { (v w : TupleStructs) → ⟦<TupleStruct as Readable>⟧.form.alike v w ↔ (v ≡ w) }
    ensures growing { ⟦<TupleStruct as Readable>⟧.form.growing ≡ false }
    ensures greatest { ⟦<TupleStruct as MaxSize>⟧.greatest ≡ Some 4 }
{}

/// The two fields in order.
pub fn enum_struct()
    ensures written { (v : EnumStructs) → ⟦<EnumStruct as Readable>⟧.form.writes v
        ≡ group_of (parts (Some (byte v.eight) ∷ Some (number 16 v.sixt) ∷ [])) }
    ensures alike { (v w : EnumStructs) → ⟦<EnumStruct as Readable>⟧.form.alike v w ↔ (v ≡ w) }
    ensures growing { ⟦<EnumStruct as Readable>⟧.form.growing ≡ false }
    ensures greatest { ⟦<EnumStruct as MaxSize>⟧.greatest ≡ Some 4 }
{}

/// The index before nothing.
#[tactic(auto, unfolding(postcard_tree::specs::Spelling::varint))]
pub fn basic_enum()
    ensures bib { ⟦<BasicEnum as Readable>⟧.form.writes BasicBib ≡ variant_of 0 (Some (group end)) }
    ensures bim { ⟦<BasicEnum as Readable>⟧.form.writes BasicBim ≡ variant_of 1 (Some (group end)) }
    ensures bap { ⟦<BasicEnum as Readable>⟧.form.writes BasicBap ≡ variant_of 2 (Some (group end)) }
    ensures alike { (v w : BasicEnums) → ⟦<BasicEnum as Readable>⟧.form.alike v w ↔ (v ≡ w) }
    ensures growing { ⟦<BasicEnum as Readable>⟧.form.growing ≡ false }
    ensures greatest { ⟦<BasicEnum as MaxSize>⟧.greatest ≡ Some 1 }
{}

/// The index before what the variant holds.
#[tactic(auto, unfolding(postcard_tree::specs::Spelling::varint))]
pub fn data_enum()
    ensures bib { (n : ℕ) → ⟦<DataEnum as Readable>⟧.form.writes (Bib n)
        ≡ variant_of 0 (Some (number 16 n)) }
    ensures bim { (n : ℕ) → ⟦<DataEnum as Readable>⟧.form.writes (Bim n)
        ≡ variant_of 1 (Some (number 64 n)) }
    ensures bap { (n : ℕ)
        → ⟦<DataEnum as Readable>⟧.form.writes (Bap n) ≡ variant_of 2 (Some (byte n)) }
    ensures kim { (s : EnumStructs) → ⟦<DataEnum as Readable>⟧.form.writes (Kim s)
        ≡ variant_of 3 (group_of (parts (Some (byte s.eight) ∷ Some (number 16 s.sixt) ∷ []))) }
    ensures chi { (a b : ℕ) → ⟦<DataEnum as Readable>⟧.form.writes (Chi a b)
        ≡ variant_of 4 (group_of (parts (Some (byte a) ∷ Some (number 32 b) ∷ []))) }
    ensures sho { (a b : ℕ) → ⟦<DataEnum as Readable>⟧.form.writes (Sho a b)
        ≡ variant_of 5 (group_of (parts (Some (number 16 a) ∷ Some (byte b) ∷ []))) }
    ensures alike { (v w : DataEnums) → ⟦<DataEnum as Readable>⟧.form.alike v w ↔ (v ≡ w) }
    ensures growing { ⟦<DataEnum as Readable>⟧.form.growing ≡ false }
    ensures greatest { ⟦<DataEnum as MaxSize>⟧.greatest ≡ Some 11 }
{}

/// The index 0, or the index 1 before a byte and the rest of the chain.
pub fn chain()
    ensures written { (v : Chains) → ⟦<Chain as Readable>⟧.form.writes v ≡ Some (chain_tree v) }
    ensures alike { (v w : Chains) → ⟦<Chain as Readable>⟧.form.alike v w ↔
        (bytes_in v ≡ bytes_in w) }
    ensures growing { ⟦<Chain as Readable>⟧.form.growing ≡ true }
{}

/// What is read by a type's schema and what is read by the type are of one tree, and leave the same rest; by the schema it is
/// a value of the type's kinds.
pub fn reading_by_schemas<'a>()
    ensures ref_struct { AgreesWithItsSchemas ⟦<RefStruct<'a> as Readable>⟧.form.takes
        ⟦<RefStruct<'a> as Readable>⟧.form.reads ⟦<RefStruct<'a> as Readable>⟧.form.refuses
        ⟦<RefStruct<'a> as HasSchema>⟧.kinds }
    ensures new_type_struct { AgreesWithItsSchemas ⟦<NewTypeStruct as Readable>⟧.form.takes
        ⟦<NewTypeStruct as Readable>⟧.form.reads ⟦<NewTypeStruct as Readable>⟧.form.refuses
        ⟦<NewTypeStruct as HasSchema>⟧.kinds }
    ensures tuple_struct { AgreesWithItsSchemas ⟦<TupleStruct as Readable>⟧.form.takes
        ⟦<TupleStruct as Readable>⟧.form.reads ⟦<TupleStruct as Readable>⟧.form.refuses
        ⟦<TupleStruct as HasSchema>⟧.kinds }
    ensures enum_struct { AgreesWithItsSchemas ⟦<EnumStruct as Readable>⟧.form.takes
        ⟦<EnumStruct as Readable>⟧.form.reads ⟦<EnumStruct as Readable>⟧.form.refuses
        ⟦<EnumStruct as HasSchema>⟧.kinds }
    ensures basic_enum { AgreesWithItsSchemas ⟦<BasicEnum as Readable>⟧.form.takes
        ⟦<BasicEnum as Readable>⟧.form.reads ⟦<BasicEnum as Readable>⟧.form.refuses
        ⟦<BasicEnum as HasSchema>⟧.kinds }
    ensures data_enum { AgreesWithItsSchemas ⟦<DataEnum as Readable>⟧.form.takes
        ⟦<DataEnum as Readable>⟧.form.reads ⟦<DataEnum as Readable>⟧.form.refuses
        ⟦<DataEnum as HasSchema>⟧.kinds }
{
    reading_by_schemas_agrees::<RefStruct<'a>>();
    reading_by_schemas_agrees::<NewTypeStruct>();
    reading_by_schemas_agrees::<TupleStruct>();
    reading_by_schemas_agrees::<EnumStruct>();
    reading_by_schemas_agrees::<BasicEnum>();
    reading_by_schemas_agrees::<DataEnum>();
}
