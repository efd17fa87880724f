//! `example_by_hand`: what the types are on the wire, by published bytes.
use crate::checks::{all_true, are_equal, check, check_all, fails, is_slice, is_text};
use example_by_hand::*;
use postcard::{
    Deserialize, DeserializeOwned, Error, Serialize, from_bytes, from_bytes_owned, take_from_bytes,
    to_slice,
};
use std::alloc::{AllocError, Global};

// Whether a value is written as these bytes.
fn writes<T: Serialize>(value: &T, bytes: &[u8]) -> bool {
    let mut room = [0u8; 16];
    is_slice(to_slice(value, &mut room), bytes)
}

// Whether this value was read.
fn is_value<T: PartialEq>(read: &Result<T, Error>, value: &T) -> bool {
    matches!(read, Ok(read) if *read == *value)
}

// Whether a value is written as these bytes, and read from them by each call.
fn is_spelled<'a, T: Serialize + Deserialize<&'a [u8]> + DeserializeOwned + PartialEq>(
    alloc: Global,
    value: &T,
    bytes: &'a [u8],
) -> bool {
    all_true([
        is_value(&from_bytes::<T>(alloc, bytes), value),
        is_value(&from_bytes_owned::<T>(alloc, bytes), value),
        writes(value, bytes),
    ])
}

// A struct of four bytes and a text.
const BORROWED: RefStruct = RefStruct {
    bytes: &[0x01, 0x10, 0x02, 0x20],
    text: "hElLo",
};

// Its bytes.
const SENT: [u8; 11] = [4, 0x01, 0x10, 0x02, 0x20, 5, 0x68, 0x45, 0x6C, 0x4C, 0x6F];

// Whether that struct was read, and all of its bytes.
fn is_borrowed(read: Result<(RefStruct, &[u8]), Error>) -> bool {
    match read {
        Ok((read, rest)) => {
            are_equal(read.bytes, BORROWED.bytes)
                && is_text(read.text, BORROWED.text)
                && rest.is_empty()
        }
        Err(_) => false,
    }
}

/// A newtype is its content, a tuple struct its parts, and a struct of fields is like a tuple of them.
#[test]
fn structs(rt: HostRuntime) {
    let named = EnumStruct {
        eight: 0xF0,
        sixt: 0xACAC,
    };
    check_all(
        &rt,
        [
            is_spelled(rt.alloc(), &NewTypeStruct(5), &[5]),
            is_spelled(rt.alloc(), &TupleStruct(0xA0, 0x1234), &[0xA0, 0xB4, 0x24]),
            is_spelled(rt.alloc(), &named, &[0xF0, 0xAC, 0xD9, 0x02]),
            writes(&BORROWED, &SENT),
            is_borrowed(take_from_bytes::<RefStruct>(rt.alloc(), &SENT)),
        ],
    );
}

// The variants without a payload, and their bytes.
const VARIANTS: [(BasicEnum, &[u8]); 3] = [
    (BasicEnum::Bib, &[0]),
    (BasicEnum::Bim, &[1]),
    (BasicEnum::Bap, &[2]),
];

/// A variant without a payload is its index; an index of none is refused.
#[test]
fn variants_without_payload(rt: HostRuntime) {
    for (value, bytes) in &VARIANTS {
        check(&rt, is_spelled(rt.alloc(), value, bytes));
    }
    check(
        &rt,
        fails(
            from_bytes::<BasicEnum>(rt.alloc(), &[3]),
            Error::SerdeDeCustom,
        ),
    );
}

// A chain of one byte.
fn chain_of(alloc: Global, byte: u8) -> Result<Chain, AllocError> {
    Ok(Chain::More(byte, Box::new(alloc, Chain::End)?))
}

// Whether a chain was made, and is one of a 7.
fn is_chain<E: Drop>(made: Result<Chain, E>) -> bool {
    matches!(&made, Ok(chain) if writes(chain, &[1, 7, 0]))
}

/// A chain of one byte is 01, the byte and the end; one of another variant and one that is cut are refused.
#[test]
fn type_that_holds_itself(rt: HostRuntime) {
    let unknown = from_bytes_owned::<Chain>(rt.alloc(), &[1, 7, 2]);
    let cut = from_bytes_owned::<Chain>(rt.alloc(), &[1, 7, 1]);
    check_all(
        &rt,
        [
            is_chain(chain_of(rt.alloc(), 7)),
            is_chain(from_bytes::<Chain>(rt.alloc(), &[1, 7, 0])),
            fails(unknown, Error::SerdeDeCustom),
            fails(cut, Error::DeserializeUnexpectedEnd),
        ],
    );
}

// A chain of 7 and 8.
const CHAIN: [u8; 5] = [1, 7, 1, 8, 0];

/// If an allocation is refused (by `.ci/refusals`; in the gate none is), a value that holds itself is out of memory, or whole.
#[test]
fn said_by_a_chain(rt: HostRuntime) {
    let is_right = match from_bytes::<Chain>(rt.alloc(), &CHAIN) {
        Ok(chain) => writes(&chain, &CHAIN),
        Err(cause) => cause == Error::OutOfMemory,
    };
    check(&rt, is_right);
}
