//! Values of a table of types, and the table itself, as JSON.
#![tactic(auto)]

mod floats;
pub mod print;
pub mod table_json;
