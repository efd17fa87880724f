//! `postcard_ser`: flavors that are filled, writers that fail, and memory that isn't found.
ghost use Rattle.std.specs.Prelude.{◌≡◌, IfOk, take};
ghost use Rattle.postcard_tree.specs.Spelling.{short};
ghost use Rattle.postcard_tree.specs.Tree.{number};

use crate::checks::{
    all_true, are_equal, check, check_all, fails, is_array, is_full, is_slice, is_vector, succeed,
};
use arrayvec::ArrayVec;
use postcard_ser::ser_flavors::io::WriteFlavor;
use postcard_ser::ser_flavors::{
    AllocVec, ExtendFlavor, Flavor, HVec, IndexByte, Size, Slice, StdVec,
};
use postcard_ser::{Serialize, Serializer};
use postcard_tree::{Error, Result as Answer};
use std::alloc::Global;
use std::io;
use std::io::{ErrorKind, Write};

/// Writes a number into a slice by a borrowed flavor, and returns the whole slice.
fn fill_and_return<'a>(value: u32, room: &'a mut [u8]) -> (&'a mut [u8], Answer<usize>)
    ensures same_reference { result.0.ghost_name ≡ room.entry.ghost_name }
    ensures bytes { IfOk result.1 (λ n. take n result.0.now ≡ short (number 32 value)) }
{
    let mut slice = Slice::new(room);
    let mut serializer = Serializer { output: &mut slice };
    let answer = value.serialize(&mut serializer);
    let n = slice.held();
    let whole = slice.into_inner();
    match answer {
        Ok(()) => (whole, Ok(n)),
        Err(cause) => (whole, Err(cause)),
    }
}

/// Writes a number into a slice. What the slice holds afterwards is known, since it was given back.
fn fill(value: u32, room: &mut [u8]) -> Answer<usize>
    ensures { IfOk result (λ n. take n room.new ≡ short (number 32 value)) }
{
    let (_, answer) = fill_and_return(value, room);
    answer
}

/// Whether a byte that is pushed can be changed.
fn is_patched<B: IndexByte>(flavor: &mut B) -> bool {
    let held = flavor.held();
    if flavor.try_push(1).is_err() || held >= flavor.held() {
        return false;
    }
    flavor.set_byte(held, 9);
    flavor.byte(held) == 9
}

// Whether a flavor of four bytes takes three and no more than one besides, and lets one be changed.
fn fills<B: IndexByte>(flavor: &mut B) -> bool {
    let is_extended = flavor.try_extend(&[1, 2, 3]).is_ok();
    if !is_extended || !is_full(flavor.try_extend(&[4, 5])) || flavor.held() != 3 {
        return false;
    }
    flavor.set_byte(0, 9);
    all_true([
        flavor.byte(0) == 9,
        flavor.try_push(4).is_ok(),
        is_full(flavor.try_push(5)),
    ])
}

#[test]
fn slices_and_sizes(rt: HostRuntime) {
    let mut room = [0u8; 4];
    let mut slice = Slice::new(&mut room);
    let mut given = [9, 2, 3, 4];
    check_all(
        &rt,
        [
            fills(&mut slice),
            is_slice(slice.finalize(), &[9, 2, 3, 4]),
            fill(300, &mut given) == Ok(2),
            are_equal(&given, &[0xAC, 0x02, 3, 4]),
        ],
    );
    let mut size = Size::default();
    check_all(
        &rt,
        [
            size.try_extend(&[0; 300]).is_ok(),
            size.try_push(0).is_ok(),
            size.finalize() == Ok(301),
        ],
    );
}

#[test]
fn arrays(rt: HostRuntime) {
    let mut vec: HVec<4> = HVec::default();
    let mut full: ArrayVec<u8, 2> = ArrayVec::new();
    full.push(7);
    let mut extended = ExtendFlavor::new(full);
    check_all(
        &rt,
        [
            fills(&mut vec),
            is_array(vec.finalize(), &[9, 2, 3, 4]),
            is_full(extended.try_extend(&[8, 9])),
            extended.try_push(8).is_ok(),
            is_array(extended.finalize(), &[7, 8]),
        ],
    );
}

#[test]
fn vectors(rt: HostRuntime) {
    let mut vec: StdVec = AllocVec::new(rt.alloc());
    let mut begun = Vec::new(rt.alloc());
    let is_begun = begun.push(7).is_ok();
    let mut extended = ExtendFlavor::new(begun);
    check_all(
        &rt,
        [
            is_begun,
            vec.try_extend(&[1, 2]).is_ok(),
            is_patched(&mut vec),
            is_vector(vec.finalize(), &[1, 2, 9]),
            extended.try_push(8).is_ok(),
            is_vector(extended.finalize(), &[7, 8]),
        ],
    );
}

// Whether a flavor takes forty bytes, or holds what it held if no memory is found.
fn takes_forty<F: IndexByte>(flavor: &mut F, byte: u8) -> bool {
    let held = flavor.held();
    match flavor.try_extend(&[byte; 40]) {
        Ok(()) => flavor.held().checked_sub(held) == Some(40),
        Err(cause) => cause == Error::OutOfMemory && flavor.held() == held,
    }
}

// Whether a flavor that extends a vector takes forty bytes, or holds none.
fn is_extended(alloc: Global) -> bool {
    let mut extended = ExtendFlavor::new(Vec::new(alloc));
    match extended.try_extend(&[1; 40]) {
        Ok(()) => is_vector(extended.finalize(), &[1; 40]),
        Err(cause) => cause == Error::OutOfMemory && is_vector(extended.finalize(), &[]),
    }
}

/// Where a growth is refused, the flavor holds what it held; so does one that extends a vector.
#[test]
fn out_of_memory(rt: HostRuntime) {
    let mut vec = AllocVec::new(rt.alloc());
    for round in 1..5 {
        check(&rt, takes_forty(&mut vec, round));
    }
    check(&rt, is_extended(rt.alloc()));
}

/// Takes so many bytes, one a call, and then fails.
#[derive(Drop)]
struct Narrow {
    left: usize,
    taken: usize,
    flushes: bool,
}

impl Write for Narrow {
    fn write(&mut self, buf: &[u8]) -> io::Result<usize> {
        if self.left == 0 {
            return Err(io::Error::from(ErrorKind::Other));
        }
        if buf.is_empty() {
            return Ok(0);
        }
        self.left -= 1;
        self.taken = self.taken.saturating_add(1);
        Ok(1)
    }

    fn flush(&mut self) -> io::Result<()> {
        if self.flushes {
            Ok(())
        } else {
            Err(io::Error::from(ErrorKind::Other))
        }
    }
}

// A writer that takes three bytes.
fn writer_of_three(flushes: bool) -> Narrow {
    Narrow {
        left: 3,
        taken: 0,
        flushes,
    }
}

// Whether a number is written once, and then refused.
fn is_written_once<F: Flavor>(serializer: &mut Serializer<F>) -> bool {
    serializer.serialize_u32(300).is_ok() && is_full(serializer.serialize_u32(300))
}

// Whether three bytes are taken of two numbers, and bytes that can't be flushed are refused in the end.
fn are_refused() -> bool {
    let mut serializer = Serializer {
        output: WriteFlavor::new(writer_of_three(true)),
    };
    let mut stuck = WriteFlavor::new(writer_of_three(false));
    all_true([
        is_written_once(&mut serializer),
        matches!(&serializer.output.finalize(), Ok(open) if open.taken == 3),
        stuck.try_push(5).is_ok(),
        fails(stuck.finalize(), Error::SerializeBufferFull),
    ])
}

#[test]
fn writers_that_fail(rt: HostRuntime) {
    let mut serializer = Serializer {
        output: WriteFlavor::new(Vec::new(rt.alloc())),
    };
    let written = [serializer.serialize_u32(300), serializer.output.try_push(5)];
    check(
        &rt,
        succeed(written) && is_vector(serializer.output.finalize(), &[0xAC, 0x02, 5]),
    );
    check(&rt, are_refused());
}
