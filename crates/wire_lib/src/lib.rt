//! The library of the program `wire`: messages of any device as lines of JSON. Frames as lines, lines as frames, a live view of a
//! stream, tables as JSON, and the program's arguments. `wire_print` makes JSON of values, `wire_json` values of JSON.
#![tactic(auto)]

pub mod laws;
pub mod raw;
pub mod receive;
pub mod send;
pub mod shown;
pub mod sizes;
pub mod summed;
pub mod table;
pub mod table_json;
pub mod watching;
pub mod words;

/// The default limit of nested nodes of a value; `depth=N` sets another.
pub const DEPTH: u32 = 60;
