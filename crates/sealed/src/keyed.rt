//! A value and the sum of its encoding, under a key that both sides name.
ghost use Rattle.std.specs.Prelude.{◌≡◌, ◌<◌, ◌^◌, Some, IfOk, IfErr, IfSome, bit_xor};
ghost use Rattle.postcard_tree.specs.declared.error.Error.TheVariants.{DeserializeBadCrc};
ghost use Rattle.postcard_tree.specs.Spelling.{short};
ghost use Rattle.postcard_tree.specs.ReadingLaws.{seen_as};
ghost use Rattle.postcard.specs.Greatest.{sum_of};
ghost use Rattle.sealed.specs.Checksum.{sum_of_bytes};
ghost use Rattle.sealed.specs.Seals.{writes_sealed, TakesSealed, ReadsSealed, RefusesSealed, sealed_laws, sealed_back, sealed_written};

use crate::reading::is_sealed_by;
use crate::value::write_summed;
use postcard::de_flavors::{Bytes, Flavor as Source};
use postcard::experimental::max_size::{MaxSize, MaxSizeForm, MaxWritten, MaxWrittenForm};
use postcard::fixint::LE;
use postcard::ser_flavors::Flavor;
use postcard::{
    Deserialize, DeserializeForm, DeserializeOwned, DeserializeOwnedForm, Deserializer, Error,
    Exact, ExactForm, Grows, GrowsForm, Lawful, LawfulForm, Readable, Result, Serialize,
    Serializer,
};

/// A value with the CRC-32 of its encoding XORed with `KEY`.
///
/// Both sides of a line name one key, which no line carries. A message that was sealed under another one isn't read,
/// just as one whose sum is wrong (`laws::other_key`). With the key 0 it is [`Sealed`](crate::Sealed). Take the
/// CRC-32 of the name and version of your interface, such as `pump 1`, and change it whenever a message type changes.
///
/// # Example
/// ```rust
/// let is_refused = match postcard::to_slice(&Keyed::<u32, KEY>(300), &mut room) {
///     Ok(front) => matches!(
///         postcard::from_bytes::<Sealed<u32>>(rt.alloc(), front),
///         Err(Error::DeserializeBadCrc)
///     ),
///     Err(_) => false,
/// };
/// ```
#[derive(PartialEq, Drop)]
pub struct Keyed<T, const KEY: u32>(pub T);

/// The form of [`Keyed`], for what is implemented by the form of a type.
///
/// # Example
/// ```rust
/// fn is_keyed<T: Readable<Form = AsKeyed>>(_value: &T) -> bool {
///     true
/// }
/// ```
pub struct AsKeyed;

impl<T: Readable, const KEY: u32> Readable for Keyed<T, KEY> {
    type Form = AsKeyed;

    ghost form = { record {
      writes = λ v. writes_sealed KEY (T.form.writes v.0);
      valid = λ v. T.form.valid v.0;
      takes = TakesSealed KEY T.form.takes;
      reads = λ t v. ReadsSealed KEY T.form.reads t v.0;
      refuses = RefusesSealed KEY T.form.takes T.form.refuses;
      alike = λ v w. T.form.alike v.0 w.0;
      growing = T.form.growing;
      laws = seen_as (λ v. v.0) (sealed_laws KEY T.form.laws);
    } };
}

impl<T: Grows, const KEY: u32> GrowsForm<Keyed<T, KEY>> for AsKeyed {
    fn form_grows() -> bool {
        T::grows()
    }
}

impl<T: Serialize, const KEY: u32> Serialize for Keyed<T, KEY> {
    fn serialize<F: Flavor>(&self, serializer: &mut Serializer<F>) -> Result<()> {
        let (written, _) = write_summed(&self.0, &mut serializer.output);
        match written {
            Ok(sum) => LE(KEY ^ sum).serialize(serializer),
            Err(e) => Err(e),
        }
    }
}

impl<T: Lawful, const KEY: u32> LawfulForm<Keyed<T, KEY>> for AsKeyed {
    ghost form_reads_back = { λ v t h e. sealed_back KEY T.form.reads v.0 (T.form.writes v.0) t
        (λ u k. T.reads_back v.0 u h k) e };
}

impl<T: Exact, const KEY: u32> ExactForm<Keyed<T, KEY>> for AsKeyed {
    ghost form_writes_back = { λ t v h. sealed_written KEY T.form.reads T.form.writes
        T.writes_back t v.0 h };
}

// A value, if the number after it is the sum of what the value writes, under the key.
fn keyed_with<T: Serialize + Drop, const KEY: u32>(value: T, seal: u32) -> Result<Keyed<T, KEY>>
    ensures ok { IfOk result (λ v. (v.0 ≡ value) × IfSome (T.form.writes value)
        (λ t. seal ≡ bit_xor KEY (sum_of_bytes (short t)))) }
    ensures err { IfErr result (λ e. (e ≡ DeserializeBadCrc) × IfSome (T.form.writes value) (λ t.
        (bit_xor KEY (sum_of_bytes (short t)) < 2 ^ 32)
        × (seal ≡ bit_xor KEY (sum_of_bytes (short t)) → ⊥))) }
{
    if is_sealed_by(&value, KEY, seal) {
        return Ok(Keyed(value));
    }
    Err(Error::DeserializeBadCrc)
}

impl<B: Bytes, T: Deserialize<B> + Exact, const KEY: u32> DeserializeForm<B, Keyed<T, KEY>>
    for AsKeyed {
    fn deserialize_form<F: Source<Taken = B>>(d: &mut Deserializer<F>) -> Result<Keyed<T, KEY>> {
        match <(T, LE<u32>) as Deserialize<B>>::deserialize(d) {
            Ok(pair) => {
                let (value, LE(seal)) = pair;
                keyed_with(value, seal)
            }
            Err(e) => Err(e),
        }
    }
}

impl<T: DeserializeOwned + Exact, const KEY: u32> DeserializeOwnedForm<Keyed<T, KEY>> for AsKeyed {
    fn deserialize_owned_form<F: Source>(d: &mut Deserializer<F>) -> Result<Keyed<T, KEY>> {
        match <(T, LE<u32>) as DeserializeOwned>::deserialize_owned(d) {
            Ok(pair) => {
                let (value, LE(seal)) = pair;
                keyed_with(value, seal)
            }
            Err(e) => Err(e),
        }
    }
}

impl<T: MaxSize, const KEY: u32> MaxSizeForm<Keyed<T, KEY>> for AsKeyed {
    ghost form_greatest = { sum_of T.greatest (Some 4) };

    fn form_max_size() -> Option<usize> {
        match T::postcard_max_size() {
            Some(size) => size.checked_add(4),
            None => None,
        }
    }
}

impl<T: MaxWritten, const KEY: u32> MaxWrittenForm<Keyed<T, KEY>> for AsKeyed {
    ghost use Rattle.sealed.specs.Sizes.{sealed_within};

    ghost form_longest = { λ v h. sealed_within KEY (T.form.writes v.0) T.greatest
        (T.longest v.0 h) };
}
