//! `postcard`: the flavor that makes a frame.
use crate::checks::{check, check_all, fails, is_array, is_slice, is_vector};
use arrayvec::ArrayVec;
use postcard::ser_flavors::{AllocVec, Cobs, Flavor, HVec, Slice};
use postcard::{Error, Result as Answer, Serialize, Serializer};

/// Writes a value by a flavor that was just made.
fn framed<T: Serialize, F: Flavor>(value: &T, flavor: Answer<F>) -> Answer<F::Output> {
    let mut serializer = Serializer { output: flavor? };
    match value.serialize(&mut serializer) {
        Ok(()) => serializer.output.finalize(),
        Err(cause) => Err(cause),
    }
}

/// Whether a value's frame in a slice is this one.
fn is_framed<T: Serialize>(value: &T, frame: &[u8]) -> bool {
    let mut room = [0u8; 8];
    is_slice(framed(value, Cobs::try_new(Slice::new(&mut room))), frame)
}

/// The frame of a 5 and a zero in an array of so many bytes.
fn framed_in<const N: usize>() -> Answer<ArrayVec<u8, N>> {
    framed(&(5u8, 0u8), Cobs::try_new(HVec::<N>::new()))
}

#[test]
fn arrays_with_and_without_room(rt: HostRuntime) {
    let mut none = [0u8; 0];
    check_all(
        &rt,
        [
            is_array(framed_in::<4>(), &[2, 5, 1, 0]),
            fails(framed_in::<3>(), Error::SerializeBufferFull),
            fails(Cobs::try_new(HVec::<0>::new()), Error::SerializeBufferFull),
            fails(
                Cobs::try_new(Slice::new(&mut none)),
                Error::SerializeBufferFull,
            ),
        ],
    );
}

// Whether a value's frame for the sentinel 10 is that of the bytes AC 02.
fn is_masked<T: Serialize>(value: &T) -> bool {
    let written = framed(value, Cobs::try_new_with_sentinel(HVec::<4>::new(), 0x0A));
    is_array(written, &[0x09, 0xA6, 0x08, 0x0A])
}

// Rows; and a full block, one of nothing after it, and the end.
#[test]
fn rows_and_a_full_block(rt: HostRuntime) {
    let mut frame = [1u8; 257];
    frame[0] = 255;
    frame[256] = 0;
    let written = framed(&[1u8; 254], Cobs::try_new(AllocVec::new(rt.alloc())));
    check_all(
        &rt,
        [
            is_framed(&false, &[1, 1, 0]),
            is_framed(&"Hi!", &[5, 3, 0x48, 0x69, 0x21, 0]),
            is_masked(&300u32),
            is_masked(&(0xACu8, 2u8)),
            is_vector(written, &frame),
        ],
    );
}

/// Each growth that is refused is out of memory, and nothing else.
#[test]
fn out_of_memory(rt: HostRuntime) {
    let is_right = match framed(&[7u8; 100], Cobs::try_new(AllocVec::new(rt.alloc()))) {
        Err(cause) => cause == Error::OutOfMemory,
        Ok(bytes) => bytes.len() == 102,
    };
    check(&rt, is_right);
}
