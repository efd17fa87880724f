//! Laws of messages that hold one another.
//!
//! What is written is read back with equal fields, as [`postcard::laws::round_trip`] says of every type; what is read from
//! bytes writes what was read; and no value's encoding is longer than its type's maximum size.
ghost use Rattle.std.specs.Prelude.{◌≡◌, ℕ, List, IfOk, Some};
ghost use Rattle.postcard_tree.specs.Tree.{Tree};
ghost use Rattle.postcard_de.specs.Answer.{ReadsFront};
ghost use Rattle.postcard.specs.Greatest.{SizeWithin};
ghost use Rattle.example_station.specs.declared.nested.Drawing.{Drawing as Drawings};
ghost use Rattle.example_station.specs.declared.nested.Text.{Text as Texts};

use crate::by_shape::{Four, back_by_eight};
use crate::nested::{Borrower, Deep, Drawing, Message, Sample, Text};
use postcard::experimental::max_size::MaxSize;
use postcard::laws::{round_trip, within_greatest};
use postcard::{Exact, Readable, Result, from_bytes, from_bytes_owned};
use std::alloc::Global;

/// A drawing is a value of numbers alone: the very same one comes back.
pub fn drawing<'a>(alloc: Global, v: &Drawing, room: &'a mut [u8]) -> Result<(Drawing, &'a [u8])>
    ensures center { IfOk result (λ p. v.now.center ≡ p.0.center) }
    ensures whole { IfOk result (λ p. v.now.whole ≡ p.0.whole) }
{
    round_trip::<Drawing>(alloc, v, &[], room)
}

/// Numbers that are sent as their bytes, beside an array of any type and length: here of three bytes.
pub fn sample<'a>(
    alloc: Global,
    v: &Sample<u8, 3>,
    room: &'a mut [u8],
) -> Result<(Sample<u8, 3>, &'a [u8])>
    ensures at { IfOk result (λ p. v.now.at ≡ p.0.at) }
    ensures offset { IfOk result (λ p. v.now.offset ≡ p.0.offset) }
{
    round_trip::<Sample<u8, 3>>(alloc, v, &[], room)
}

/// Texts that borrow from what was read, and one of its own, which is alike as texts are: a clause that quotes the trait of the
/// type within, so a law needs no more words where types are nested deeper.
pub fn borrower<'a>(
    alloc: Global,
    v: &Borrower<'a, 'a, Text>,
    room: &'a mut [u8],
) -> Result<(Borrower<'a, 'a, Text>, &'a [u8])>
    ensures text { IfOk result (λ p. v.now.lent.text.now ≡ p.0.lent.text.now) }
    ensures own { IfOk result (λ p. ⟦<Option<Text> as Readable>⟧.form.alike v.now.own p.0.own) }
{
    round_trip::<Borrower<'a, 'a, Text>>(alloc, v, &[], room)
}

/// Twelve tuples deep.
pub fn deep<'a>(alloc: Global, v: &Deep, room: &'a mut [u8]) -> Result<(Deep, &'a [u8])>
    ensures { IfOk result (λ p. ⟦<Deep as Readable>⟧.form.alike v.now p.0) }
{
    back_by_eight::<Four<Text>, Deep>(alloc, v, room)
}

/// Whichever variant it is.
pub fn message<'a>(alloc: Global, v: &Message, room: &'a mut [u8]) -> Result<(Message, &'a [u8])>
    ensures { IfOk result (λ p. ⟦<Message as Readable>⟧.form.alike v.now p.0) }
{
    round_trip::<Message>(alloc, v, &[], room)
}

/// A type that borrows from two sources is read from one.
pub fn borrower_from_bytes<'a>(alloc: Global, s: &'a [u8]) -> Result<Borrower<'a, 'a, Text>>
    ensures { IfOk result (λ v. (rest : List ℕ)
        × ReadsFront ⟦<Borrower<'a, 'a, Text> as Readable>⟧.form.reads s.now rest v) }
{
    from_bytes::<Borrower<'a, 'a, Text>>(alloc, s)
}

/// What keeps none of the bytes is read from them.
pub fn drawing_from_bytes(alloc: Global, s: &[u8]) -> Result<Drawing>
    ensures { IfOk result
        (λ v. (rest : List ℕ) × ReadsFront ⟦<Drawing as Readable>⟧.form.reads s.now rest v) }
{
    from_bytes_owned::<Drawing>(alloc, s)
}

/// Three points of 4 bytes, an option of one in 5, and numbers of 2, 4, 19 and 16 bytes.
pub fn drawing_size()
    ensures { ⟦<Drawing as MaxSize>⟧.greatest ≡ Some 58 }
{}

/// No drawing takes more bytes.
pub fn drawing_within(v: &Drawing)
    ensures { SizeWithin (⟦<Drawing as Readable>⟧.form.writes v.now)
        ⟦<Drawing as MaxSize>⟧.greatest }
{
    within_greatest(v);
}

/// What is read writes what was read, whichever type it has.
fn read_as_written<T: Exact>()
    ensures { (t : Tree) (v : _) → T.form.reads t v → T.form.writes v ≡ Some t }
{}

/// What is read as a drawing writes what was read.
pub fn drawing_exact()
    ensures { (t : Tree) (v : Drawings) → ⟦<Drawing as Readable>⟧.form.reads t v
        → ⟦<Drawing as Readable>⟧.form.writes v ≡ Some t }
{
    read_as_written::<Drawing>();
}

/// What is read as a text and its kind writes what was read.
pub fn text_exact()
    ensures { (t : Tree) (v : Texts) → ⟦<Text as Readable>⟧.form.reads t v
        → ⟦<Text as Readable>⟧.form.writes v ≡ Some t }
{
    read_as_written::<Text>();
}
