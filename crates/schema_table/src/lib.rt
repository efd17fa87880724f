//! What message types are, as one table: its nodes, and the names of their values; and values of such types.
//!
//! `schemas` reads values by a table, and makes the table of a Rust type, `declarations` makes one of Rust's declarations, `wire_print`
//! prints values by the names, `wire_json` reads what is printed. A value is written as every message is.
#![tactic(auto)]

mod integer;
pub mod looks;
mod node;
mod parts;
mod schema;
mod value;
mod write;

pub use integer::{HasIntegerType, Integer, IntegerType};
pub use node::Node;
pub use schema::{Named, Names, Schema};
pub use value::Value;
