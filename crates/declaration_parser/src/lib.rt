//! Declarations of message types, read from Rust: those structs and enums that are marked, by a comment `// message` in a
//! line before one, or by the names `Serialize` and `Deserialize` among its derives.
//!
//! [`with_file`](tokens::Tokens::with_file) reads a text, [`declarations`](reading::declarations) what is declared. What can't be read is
//! reported by its line.
#![tactic(auto)]

pub mod attributes;
pub mod cursor;
pub mod declaration;
pub mod derives;
pub mod faults;
mod head;
pub mod items;
mod marks;
pub mod parser;
mod reader;
pub mod reading;
pub mod sent;
pub mod texts;
pub mod tokens;
mod words;
