//! Reading a value and its sum.
ghost use Rattle.std.specs.Prelude.{◌≡◌, ◌<◌, ◌^◌, IfOk, IfErr, IfSome, bit_xor, true, false};
ghost use Rattle.postcard_tree.specs.declared.error.Error.TheVariants.{DeserializeBadCrc};
ghost use Rattle.postcard_tree.specs.Spelling.{short};
ghost use Rattle.sealed.specs.Checksum.{sum_of_bytes};

use crate::checksum::FIRST;
use crate::summing::{Nowhere, Summing};
use crate::value::{AsSealed, Sealed};
use postcard::de_flavors::{Bytes, Flavor};
use postcard::fixint::LE;
use postcard::{
    Deserialize, DeserializeForm, DeserializeOwned, DeserializeOwnedForm, Deserializer, Error,
    Exact, Result, Serialize, Serializer,
};

// The sum of what a value writes; an error if the value can't be encoded.
fn sum_of<T: Serialize>(value: &T) -> Result<u32>
    ensures ok { IfOk result (λ n. IfSome (T.form.writes value.now)
        (λ t. n ≡ sum_of_bytes (short t))) }
    ensures err { IfErr result (λ e. IfSome (T.form.writes value.now) (λ t. ⊥)) }
{
    let mut serializer = Serializer {
        output: Summing {
            output: Nowhere,
            register: FIRST,
        },
    };
    value.serialize(&mut serializer)?;
    Ok(serializer.output.register ^ FIRST)
}

// Whether a number is the sum of what the value writes, XORed with a key.
pub(crate) fn is_sealed_by<T: Serialize>(value: &T, key: u32, seal: u32) -> bool
    ensures yes { result ≡ true → IfSome (T.form.writes value.now)
        (λ t. seal ≡ bit_xor key (sum_of_bytes (short t))) }
    ensures no { result ≡ false → IfSome (T.form.writes value.now) (λ t.
        (bit_xor key (sum_of_bytes (short t)) < 2 ^ 32)
        × (seal ≡ bit_xor key (sum_of_bytes (short t)) → ⊥)) }
{
    match sum_of(value) {
        Ok(sum) => (key ^ sum) == seal,
        Err(_) => false,
    }
}

// A value, if the number after it is the sum of what the value writes.
fn sealed_with<T: Serialize + Drop>(value: T, seal: u32) -> Result<Sealed<T>>
    ensures ok { IfOk result (λ v. (v.0 ≡ value) × IfSome (T.form.writes value)
        (λ t. seal ≡ bit_xor 0 (sum_of_bytes (short t)))) }
    ensures err { IfErr result (λ e. (e ≡ DeserializeBadCrc) × IfSome (T.form.writes value) (λ t.
        (bit_xor 0 (sum_of_bytes (short t)) < 2 ^ 32)
        × (seal ≡ bit_xor 0 (sum_of_bytes (short t)) → ⊥))) }
{
    if is_sealed_by(&value, 0, seal) {
        return Ok(Sealed(value));
    }
    Err(Error::DeserializeBadCrc)
}

impl<B: Bytes, T: Deserialize<B> + Exact> DeserializeForm<B, Sealed<T>> for AsSealed {
    fn deserialize_form<F: Flavor<Taken = B>>(d: &mut Deserializer<F>) -> Result<Sealed<T>> {
        match <(T, LE<u32>) as Deserialize<B>>::deserialize(d) {
            Ok(pair) => {
                let (value, LE(seal)) = pair;
                sealed_with(value, seal)
            }
            Err(e) => Err(e),
        }
    }
}

impl<T: DeserializeOwned + Exact> DeserializeOwnedForm<Sealed<T>> for AsSealed {
    fn deserialize_owned_form<F: Flavor>(d: &mut Deserializer<F>) -> Result<Sealed<T>> {
        match <(T, LE<u32>) as DeserializeOwned>::deserialize_owned(d) {
            Ok(pair) => {
                let (value, LE(seal)) = pair;
                sealed_with(value, seal)
            }
            Err(e) => Err(e),
        }
    }
}
