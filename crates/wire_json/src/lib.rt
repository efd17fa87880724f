//! Values of a table of types from lines of JSON.
#![tactic(auto)]

mod faults;
mod floats;
pub mod laws;
pub mod parse;
pub mod wrong;
