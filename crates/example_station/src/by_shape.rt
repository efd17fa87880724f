//! A message type's law by that of its shape, for a type whose parts are nested deep.
//!
//! A call of a generic function carries what its type is read by, part by part. Here the type is a parameter, and so is its shape:
//! a caller carries only what the shape is read by, once.
ghost use Rattle.std.specs.Prelude.{IfOk};

use postcard::laws::round_trip;
use postcard::{AsShape, Deserialize, Lawful, MatchesShape, Readable, Result, Serialize, Shaped};
use std::alloc::Global;

/// Writes a value of a message type and reads it again, as [`postcard::laws::round_trip`] does: what is read is alike the value.
fn back_by_shape<
    'a,
    S: Lawful + Deserialize<&'a [u8]>,
    M: Shaped<Shape = S> + MatchesShape + Readable<Form = AsShape> + Serialize + Drop,
>(alloc: Global, v: &M, room: &'a mut [u8]) -> Result<(M, &'a [u8])>
    ensures { IfOk result (λ p. M.form.alike v.now p.0) }
{
    round_trip::<M>(alloc, v, &[], room)
}

/// Four tuples round a type.
pub(crate) type Four<T> = ((((T, u8), u8), u8), u8);

/// The same of a type that is four tuples round another one.
fn back_by_four<
    'a,
    T: Lawful + Deserialize<&'a [u8]>,
    M: Shaped<Shape = Four<T>> + MatchesShape + Readable<Form = AsShape> + Serialize + Drop,
>(alloc: Global, v: &M, room: &'a mut [u8]) -> Result<(M, &'a [u8])>
    ensures { IfOk result (λ p. M.form.alike v.now p.0) }
{
    back_by_shape::<Four<T>, M>(alloc, v, room)
}

/// The same of eight tuples, four at a time: a call that adds all of them costs more to prove than two.
pub(crate) fn back_by_eight<
    'a,
    T: Lawful + Deserialize<&'a [u8]>,
    M: Shaped<Shape = Four<Four<T>>> + MatchesShape + Readable<Form = AsShape> + Serialize + Drop,
>(alloc: Global, v: &M, room: &'a mut [u8]) -> Result<(M, &'a [u8])>
    ensures { IfOk result (λ p. M.form.alike v.now p.0) }
{
    back_by_four::<Four<T>, M>(alloc, v, room)
}
