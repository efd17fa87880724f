//! The texts of the libraries' errors.
use crate::checks::{check, check_all, is_string};
use cobs::{DecodeError, DecodeVecError, DecoderState, DestBufTooSmallError};
use postcard_tree::Error;
use std::alloc::Global;
use std::fmt::{Debug, Display};

// Whether a value is shown as this text.
fn shows(alloc: Global, value: &impl Display, text: &str) -> bool {
    is_string(format!(in alloc; "{value}"), text)
}

// Whether a value is shown so to a maintainer.
fn names(alloc: Global, value: &impl Debug, text: &str) -> bool {
    is_string(format!(in alloc; "{value:?}"), text)
}

const DECODE_ERRORS: [(DecodeError, &str); 3] = [
    (DecodeError::EmptyFrame, "empty frame"),
    (
        DecodeError::InvalidFrame { decoded_bytes: 12 },
        "invalid frame after 12 bytes",
    ),
    (DecodeError::TargetBufTooSmall, "target buffer too small"),
];

// An error that stops a decoder is shown alike by itself and as one of those that a vector brings.
#[test]
fn of_cobs(rt: HostRuntime) {
    let alloc = rt.alloc();
    for (error, text) in &DECODE_ERRORS {
        let of_vector = DecodeVecError::Decode(*error);
        check(
            &rt,
            shows(alloc, error, text) && shows(alloc, &of_vector, text),
        );
    }
    check_all(
        &rt,
        [
            shows(alloc, &DecodeVecError::OutOfMemory, "no memory"),
            shows(alloc, &DestBufTooSmallError, "destination buffer too small"),
            names(
                alloc,
                &DECODE_ERRORS[1].0,
                "InvalidFrame { decoded_bytes: 12 }",
            ),
            names(alloc, &DecoderState::GrabChain(3), "GrabChain(3)"),
        ],
    );
}

const ERRORS: [(Error, &str); 17] = [
    (
        Error::WontImplement,
        "This is a feature that PostCard will never implement",
    ),
    (
        Error::NotYetImplemented,
        "This is a feature that Postcard intends to support, but does not yet",
    ),
    (Error::SerializeBufferFull, "The serialize buffer is full"),
    (
        Error::SerializeSeqLengthUnknown,
        "The length of a sequence must be known",
    ),
    (
        Error::DeserializeUnexpectedEnd,
        "Hit the end of buffer, expected more data",
    ),
    (
        Error::DeserializeBadVarint,
        "Found a varint that didn't terminate. Is the usize too big for this platform?",
    ),
    (Error::DeserializeBadBool, "Found a bool that wasn't 0 or 1"),
    (Error::DeserializeBadChar, "Found an invalid unicode char"),
    (Error::DeserializeBadUtf8, "Tried to parse invalid utf-8"),
    (
        Error::DeserializeBadOption,
        "Found an Option discriminant that wasn't 0 or 1",
    ),
    (
        Error::DeserializeBadEnum,
        "Found an enum discriminant that was > u32::max_value()",
    ),
    (
        Error::DeserializeBadEncoding,
        "The original data was not well encoded",
    ),
    (Error::DeserializeBadCrc, "Bad CRC while deserializing"),
    (Error::SerdeSerCustom, "Serde Serialization Error"),
    (Error::SerdeDeCustom, "Serde Deserialization Error"),
    (
        Error::CollectStrError,
        "Error while processing `collect_str` during serialization",
    ),
    (Error::OutOfMemory, "No memory was found"),
];

#[test]
fn of_postcard(rt: HostRuntime) {
    for (error, text) in &ERRORS {
        check(&rt, shows(rt.alloc(), error, text));
    }
    check(&rt, names(rt.alloc(), &Error::OutOfMemory, "OutOfMemory"));
}
