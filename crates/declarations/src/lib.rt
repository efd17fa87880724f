//! Schemas from declarations of Rust.
//!
//! [`read_type`] makes the table of one type, given by its words, from the structs and enums of files:
//! [`schema_table::Node`]s with the names of fields and variants beside them. [`check_sources`] tries each declared
//! type. [`read_schema`] makes one table of all types of a text.
#![tactic(auto)]

mod builder;
mod known;
mod names;
mod read;

pub use read::{
    CheckedSources, Error, Source, check_sources, read_schema, read_sources, read_type,
};
pub use schema_table::{Named, Names, Schema};
