//! `postcard_ser`: texts that are formatted.
use crate::checks::{all_true, check_all, is_slice, is_vector};
use postcard_ser::Serializer;
use postcard_ser::ser_flavors::{AllocVec, Flavor, IndexByte, Size, Slice};
use postcard_tree::{Error, Result as Answer};
use std::fmt;
use std::fmt::{Display, Formatter, Write};

// Whether a text's formatting returns this, into this buffer, and leaves these bytes in it.
fn formats<T: Display>(value: &T, room: &mut [u8], answer: Answer<()>, bytes: &[u8]) -> bool {
    let mut serializer = Serializer {
        output: Slice::new(room),
    };
    all_true([
        serializer.collect_str(value) == answer,
        serializer.output.held() == bytes.len(),
        is_slice(serializer.output.finalize(), bytes),
    ])
}

// Whether a text's formatting returns this if it is counted, and counts so many bytes.
fn counts<T: Display>(value: &T, answer: Answer<()>, size: usize) -> bool {
    let mut counter = Serializer {
        output: Size::default(),
    };
    counter.collect_str(value) == answer && counter.output.finalize() == Ok(size)
}

/// A value that can't be formatted.
struct Faulty;

impl Display for Faulty {
    fn fmt<W: Write>(&self, _f: &mut Formatter<W>) -> fmt::Result {
        Err(fmt::Error)
    }
}

/// A value that doesn't report that a chunk of its text was refused.
struct Careless;

impl Display for Careless {
    fn fmt<W: Write>(&self, f: &mut Formatter<W>) -> fmt::Result {
        let _ = f.write_str("abc");
        let _ = f.write_str("d");
        Ok(())
    }
}

#[test]
fn slices_vectors_and_sizes(rt: HostRuntime) {
    let mut serializer = Serializer {
        output: AllocVec::new(rt.alloc()),
    };
    check_all(
        &rt,
        [
            formats(&300u32, &mut [0; 4], Ok(()), &[3, 0x33, 0x30, 0x30]),
            formats(&300u32, &mut [0; 1], Err(Error::CollectStrError), &[3]),
            formats(&300u32, &mut [], Err(Error::SerializeBufferFull), &[]),
            formats(&Careless, &mut [0; 3], Err(Error::CollectStrError), &[4]),
            serializer.collect_str(&300u32).is_ok(),
            is_vector(serializer.output.finalize(), &[3, 0x33, 0x30, 0x30]),
            counts(&300u32, Ok(()), 4),
            counts(&Faulty, Err(Error::CollectStrError), 0),
        ],
    );
}
