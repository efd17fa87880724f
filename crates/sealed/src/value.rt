//! A value and the sum of its encoding.
ghost use Rattle.std.specs.Prelude.{◌≡◌, Some, IfOk, OnOk, IfSome};
ghost use Rattle.postcard_tree.specs.Spelling.{short};
ghost use Rattle.postcard_tree.specs.ReadingLaws.{seen_as};
ghost use Rattle.postcard_ser.specs.Writing.{Writes};
ghost use Rattle.sealed.specs.Checksum.{sum_of_bytes};
ghost use Rattle.sealed.specs.Seals.{writes_sealed, TakesSealed, ReadsSealed, RefusesSealed, sealed_laws, sealed_back, sealed_written};

use crate::checksum::FIRST;
use crate::summing::Summing;
use postcard::fixint::LE;
use postcard::ser_flavors::Flavor;
use postcard::{
    Exact, ExactForm, Grows, GrowsForm, Lawful, LawfulForm, Readable, Result, Serialize, Serializer,
};

/// A value with the CRC-32 of its encoding, as four bytes, the lowest first.
///
/// The sum is that of the shortest encoding, which is the one that is written. A value is read exactly if the next
/// four bytes are the sum of what it writes. Otherwise reading returns the value's own error,
/// `DeserializeUnexpectedEnd` for fewer than four bytes, or else `DeserializeBadCrc`. Neither writing nor reading
/// allocates for the sum.
///
/// # Example
/// ```rust
/// match postcard::to_slice(&Sealed(300u32), &mut room) {
///     Ok(front) => are_bytes(front, &SEALED),
///     Err(_) => false,
/// }
/// ```
#[derive(PartialEq, Drop)]
pub struct Sealed<T>(pub T);

/// The form of [`Sealed`], for what is implemented by the form of a type.
///
/// # Example
/// ```rust
/// fn is_sealed<T: Readable<Form = AsSealed>>(_value: &T) -> bool {
///     true
/// }
/// ```
pub struct AsSealed;

impl<T: Readable> Readable for Sealed<T> {
    type Form = AsSealed;

    ghost form = { record {
      writes = λ v. writes_sealed 0 (T.form.writes v.0);
      valid = λ v. T.form.valid v.0;
      takes = TakesSealed 0 T.form.takes;
      reads = λ t v. ReadsSealed 0 T.form.reads t v.0;
      refuses = RefusesSealed 0 T.form.takes T.form.refuses;
      alike = λ v w. T.form.alike v.0 w.0;
      growing = T.form.growing;
      laws = seen_as (λ v. v.0) (sealed_laws 0 T.form.laws);
    } };
}

impl<T: Grows> GrowsForm<Sealed<T>> for AsSealed {
    fn form_grows() -> bool {
        T::grows()
    }
}

// Writes a value, hands the borrow back, and returns the sum of what was written.
pub(crate) fn write_summed<'b, T: Serialize, F: Flavor>(
    value: &T,
    output: &'b mut F,
) -> (Result<u32>, &'b mut F)
    ensures writes { Writes F.took F.refused output.entry.now (T.form.writes value.now) result.0
        result.1.now }
    ensures sum { IfOk result.0
        (λ n. IfSome (T.form.writes value.now) (λ t. n ≡ sum_of_bytes (short t))) }
    ensures same { F.same output.entry.now result.1.now }
    ensures valid { OnOk result.0 (T.form.valid value.now) }
    ensures same_reference { result.1.ghost_name ≡ output.entry.ghost_name }
{
    let mut serializer = Serializer {
        output: Summing {
            output,
            register: FIRST,
        },
    };
    let written = value.serialize(&mut serializer);
    let Serializer { output: summing } = serializer;
    let Summing { output, register } = summing;
    match written {
        Ok(()) => (Ok(register ^ FIRST), output),
        Err(e) => (Err(e), output),
    }
}

impl<T: Serialize> Serialize for Sealed<T> {
    fn serialize<F: Flavor>(&self, serializer: &mut Serializer<F>) -> Result<()> {
        let (written, _) = write_summed(&self.0, &mut serializer.output);
        match written {
            Ok(sum) => LE(sum).serialize(serializer),
            Err(e) => Err(e),
        }
    }
}

impl<T: Lawful> LawfulForm<Sealed<T>> for AsSealed {
    ghost form_reads_back = { λ v t h e. sealed_back 0 T.form.reads v.0 (T.form.writes v.0) t
        (λ u k. T.reads_back v.0 u h k) e };
}

impl<T: Exact> ExactForm<Sealed<T>> for AsSealed {
    ghost form_writes_back = { λ t v h. sealed_written 0 T.form.reads T.form.writes T.writes_back t
        v.0 h };
}
