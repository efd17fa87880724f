//! Long values, and values that refuse themselves: a text, a byte buffer, a vector and a map of many entries.
use crate::checks::{check, check_all, fails, is_vector};
use postcard::ser_flavors::Flavor;
use postcard::{
    DeserializeOwned, Deserializer, Error, Own, Readable, Serialize, Serializer, from_bytes_owned,
    from_io, to_slice, to_slice_cobs, to_stdvec, to_vec,
};
use std::alloc::{AllocError, Global};
use std::collections::BTreeMap;

// A count of 100,000.
const COUNT: [u8; 3] = [0xA0, 0x8D, 0x06];

// The count, and so many letters.
fn letters(alloc: Global) -> Result<Vec<u8>, AllocError> {
    let mut bytes = Vec::new(alloc);
    bytes.extend_from_slice(&COUNT)?;
    bytes.resize(100_003, b'a')?;
    Ok(bytes)
}

/// Whether a value is read from these bytes, and written as the same.
fn goes_back<T: Serialize + DeserializeOwned + Drop>(alloc: Global, bytes: &[u8]) -> bool {
    match from_bytes_owned::<T>(alloc, bytes) {
        Ok(value) => is_vector(to_stdvec(alloc, &value), bytes),
        Err(_) => false,
    }
}

/// Whether a byte buffer of 100,000 bytes is read, those after the count.
fn is_buffer(alloc: Global, bytes: &[u8]) -> bool {
    match Deserializer::from_bytes(alloc, bytes).deserialize_byte_buf() {
        Ok(buffer) => buffer.len() == 100_000 && bytes.ends_with(&buffer),
        Err(_) => false,
    }
}

// Three hundred numbers, each by itself.
fn three_hundred(alloc: Global) -> Result<BTreeMap<u16, u16>, AllocError> {
    let mut map = BTreeMap::new(alloc);
    for key in 0..300u16 {
        map.insert(key, key)?;
    }
    Ok(map)
}

#[test]
fn a_hundred_thousand_letters_and_a_map(rt: HostRuntime) {
    let alloc = rt.alloc();
    let are_read = match letters(alloc) {
        Ok(bytes) => {
            goes_back::<String>(alloc, &bytes)
                && goes_back::<Vec<u8>>(alloc, &bytes)
                && is_buffer(alloc, &bytes)
        }
        Err(_) => false,
    };
    let is_read = match three_hundred(alloc) {
        Ok(map) => match to_stdvec(alloc, &map) {
            Ok(bytes) => map.len() == 300 && goes_back::<BTreeMap<u16, u16>>(alloc, &bytes),
            Err(_) => false,
        },
        Err(_) => false,
    };
    check(&rt, are_read && is_read);
}

// A count of 4095, and less than one element.
const FEW: [u8; 6] = [0xFF, 0x1F, 1, 2, 3, 4];

// A test that `.ci/refusals` runs: it doesn't allocate.
#[test]
fn a_count_alone_asks_for_nothing(rt: HostRuntime) {
    let (alloc, end) = (rt.alloc(), Error::DeserializeUnexpectedEnd);
    let mut buffer = [0u8; 8];
    let by_reader = from_io::<Vec<[u8; 64]>, _>(alloc, (&FEW[..], &mut buffer));
    let is_refused = match by_reader {
        Ok(_) => false,
        Err(found) => found == end,
    };
    check_all(
        &rt,
        [
            fails(from_bytes_owned::<Vec<[u8; 64]>>(alloc, &FEW), end),
            fails(from_bytes_owned::<String>(alloc, &FEW), end),
            fails(
                Deserializer::from_bytes(alloc, &FEW).deserialize_byte_buf(),
                end,
            ),
            is_refused,
        ],
    );
}

// Refuses itself, by the error that it holds.
#[derive(Drop)]
struct Refusing(Error);

impl Readable for Refusing {
    ghost use Rattle.std.specs.Prelude.{None};
    ghost use Rattle.postcard_tree.specs.ReadingLaws.{only_written};

    type Form = Own;

    ghost form = { only_written (λ _. None) (λ _. Unit {0}) };
}

impl Serialize for Refusing {
    fn serialize<F: Flavor>(&self, _serializer: &mut Serializer<F>) -> postcard::Result<()> {
        Err(self.0)
    }
}

/// Whether each way of writing passes a value's own error on by its name.
fn is_passed_on(own: Error) -> bool {
    let mut room = [0u8; 8];
    let by_slice = fails(to_slice(&Refusing(own), &mut room), own);
    let by_frame = fails(to_slice_cobs(&Refusing(own), &mut room), own);
    by_slice && by_frame && fails(to_vec::<_, 8>(&Refusing(own)), own)
}

#[test]
fn a_value_refuses_itself(rt: HostRuntime) {
    check_all(
        &rt,
        [
            is_passed_on(Error::WontImplement),
            is_passed_on(Error::SerializeSeqLengthUnknown),
            is_passed_on(Error::SerdeSerCustom),
            is_passed_on(Error::OutOfMemory),
        ],
    );
}
