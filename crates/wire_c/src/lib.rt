//! Messages of declared types as lines of JSON and back, by calls for C and Python.
//!
//! Each call stands alone: it is told the declarations as a text, the words of a type, and [`WireTerms`](terms::WireTerms). It takes
//! memory from the C library's `malloc`, frees all of it, and keeps nothing: what a stream needs from call to call is a number of bytes
//! that the caller passes again, and a flag. So there is nothing to create, to free or to use too late. None requires anything of its
//! caller but what C's types can't say: that a pointer points to as many bytes as its length, and that what is written overlaps nothing
//! else. The header `bindings/c/wire.h` looks for null pointers.
#![tactic(auto)]

mod answers;
mod calls;
mod reading;
mod status;
mod terms;
#[cfg(test)]
mod typed_calls;
mod types;
mod writing;

pub use crate::answers::WireSaid;
pub use crate::calls::{wire_c_read, wire_c_write};
