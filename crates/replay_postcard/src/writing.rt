//! What a value is written as.
use crate::reading::refusal;
use arrayvec::ArrayVec;
use postcard::experimental::serialized_size;
use postcard::{Deserialize, Error, Serialize};
use replay::{Findings, Shown, Trouble, in_words};
use std::alloc::Global;
use std::convert::AsSlice;

/// The capacity of a vector of a fixed one.
const MOST: usize = 4096;

/// How a value is written.
#[derive(Clone, Copy, Drop)]
enum Form {
    Plain,
    Framed,
}

/// A call that writes a value into a vector that grows.
#[derive(Clone, Copy, Drop)]
enum Call {
    ToAllocvec,
    ToStdvec,
    ToExtend,
    ToIo,
    ToAllocvecCobs,
    ToStdvecCobs,
}

/// The calls that frame nothing, by their names.
const PLAIN: [(&'static str, Call); 4] = [
    ("to_allocvec", Call::ToAllocvec),
    ("to_stdvec", Call::ToStdvec),
    ("to_extend", Call::ToExtend),
    ("to_io", Call::ToIo),
];

/// The calls that write a frame, by their names.
const FRAMED: [(&'static str, Call); 2] = [
    ("to_allocvec_cobs", Call::ToAllocvecCobs),
    ("to_stdvec_cobs", Call::ToStdvecCobs),
];

/// Makes the value, which its bytes are read as, and writes it by each call.
pub(crate) fn write<'a, T: Serialize + Deserialize<&'a [u8]> + Shown>(
    alloc: Global,
    wanted: &str,
    bytes: &'a [u8],
    frame: &[u8],
    findings: &mut Findings,
) -> Result<(), Trouble> {
    match postcard::from_bytes::<T>(alloc, bytes) {
        Ok(value) => write_value(alloc, &value, wanted, bytes, frame, findings),
        Err(error) => findings.check("from_bytes", refusal(alloc, error), wanted),
    }
}

/// Compares the value, its size, and what it is written as, as it is and as a frame.
fn write_value<T: Serialize + Shown>(
    alloc: Global,
    value: &T,
    wanted: &str,
    bytes: &[u8],
    frame: &[u8],
    findings: &mut Findings,
) -> Result<(), Trouble> {
    findings.check("from_bytes", Ok(in_words(alloc, value)?), wanted)?;
    compare_size(alloc, serialized_size(value), bytes.len(), findings)?;
    write_form(alloc, Form::Plain, value, bytes, findings)?;
    write_form(alloc, Form::Framed, value, frame, findings)
}

/// Writes a value by each call of a form.
fn write_form<T: Serialize>(
    alloc: Global,
    form: Form,
    value: &T,
    wanted: &[u8],
    findings: &mut Findings,
) -> Result<(), Trouble> {
    write_slice(alloc, form, value, wanted, findings)?;
    write_array(alloc, form, value, wanted, findings)?;
    write_vectors(alloc, form, value, wanted, findings)
}

/// Compares what a call wrote.
fn compare<B: AsSlice<u8> + Drop>(
    alloc: Global,
    call: &str,
    written: Result<B, Error>,
    wanted: &[u8],
    findings: &mut Findings,
) -> Result<(), Trouble> {
    match written {
        Ok(bytes) => findings.compare_bytes(call, bytes.as_slice(), wanted)?,
        Err(error) => return findings.check(call, refusal(alloc, error), ""),
    }
    Ok(())
}

/// Compares the count of a value's bytes.
fn compare_size(
    alloc: Global,
    size: Result<usize, Error>,
    wanted: usize,
    findings: &mut Findings,
) -> Result<(), Trouble> {
    match size {
        Ok(size) => findings.compare_number("serialized_size", size, wanted)?,
        Err(error) => return findings.check("serialized_size", refusal(alloc, error), ""),
    }
    Ok(())
}

/// Writes a value into an exact buffer, and into a byte less, which has to be refused.
fn write_slice<T: Serialize>(
    alloc: Global,
    form: Form,
    value: &T,
    wanted: &[u8],
    findings: &mut Findings,
) -> Result<(), Trouble> {
    let call = match form {
        Form::Plain => "to_slice",
        Form::Framed => "to_slice_cobs",
    };
    let mut room = vec![in alloc; 0; wanted.len()]?;
    let written = slice_of(form, value, room.as_mut_slice());
    compare(alloc, call, written, wanted, findings)?;
    let Some((_, less)) = room.split_last_mut() else {
        return Ok(());
    };
    need_full(call, slice_of(form, value, less), findings)
}

/// What a value is written as into this buffer.
fn slice_of<'a, T: Serialize>(
    form: Form,
    value: &T,
    room: &'a mut [u8],
) -> Result<&'a mut [u8], Error> {
    match form {
        Form::Plain => postcard::to_slice(value, room),
        Form::Framed => postcard::to_slice_cobs(value, room),
    }
}

/// Notes a call that takes what it has to refuse, since the buffer is a byte too short.
fn need_full(
    call: &str,
    written: Result<&mut [u8], Error>,
    findings: &mut Findings,
) -> Result<(), Trouble> {
    match written {
        Err(Error::SerializeBufferFull) => {}
        _ => findings.add(call, "taken with a byte less")?,
    }
    Ok(())
}

/// Writes a value into a vector of a fixed capacity.
fn write_array<T: Serialize>(
    alloc: Global,
    form: Form,
    value: &T,
    wanted: &[u8],
    findings: &mut Findings,
) -> Result<(), Trouble> {
    let (call, written): (&'static str, Result<ArrayVec<u8, MOST>, Error>) = match form {
        Form::Plain => ("to_vec", postcard::to_vec(value)),
        Form::Framed => ("to_vec_cobs", postcard::to_vec_cobs(value)),
    };
    compare(alloc, call, written, wanted, findings)
}

/// Writes a value by each call that writes into a vector that grows.
fn write_vectors<T: Serialize>(
    alloc: Global,
    form: Form,
    value: &T,
    wanted: &[u8],
    findings: &mut Findings,
) -> Result<(), Trouble> {
    let calls: &[(&'static str, Call)] = match form {
        Form::Plain => &PLAIN,
        Form::Framed => &FRAMED,
    };
    for (name, call) in calls {
        compare(
            alloc,
            name,
            vector_of(alloc, *call, value),
            wanted,
            findings,
        )?;
    }
    Ok(())
}

/// The vector that a call writes a value into.
fn vector_of<T: Serialize>(alloc: Global, call: Call, value: &T) -> Result<Vec<u8>, Error> {
    match call {
        Call::ToAllocvec => postcard::to_allocvec(alloc, value),
        Call::ToStdvec => postcard::to_stdvec(alloc, value),
        Call::ToExtend => postcard::to_extend(value, Vec::new(alloc)),
        Call::ToIo => postcard::to_io(value, Vec::new(alloc)),
        Call::ToAllocvecCobs => postcard::to_allocvec_cobs(alloc, value),
        Call::ToStdvecCobs => postcard::to_stdvec_cobs(alloc, value),
    }
}
