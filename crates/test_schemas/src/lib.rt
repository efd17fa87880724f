//! Tests of `schemas`, `declarations`, `wire_print`, `wire_json` and `wire_lib`, by their public calls alone: outside vectors of every
//! kind of node, tables of declarations, values as JSON and back, and errors.
#![tactic(auto)]

#[cfg(test)]
mod asked;
#[cfg(test)]
mod calls;
#[cfg(test)]
mod checks;
#[cfg(test)]
mod looks;
#[cfg(test)]
mod messages;
#[cfg(test)]
mod receiving;
#[cfg(test)]
mod refused_growths;
#[cfg(test)]
mod rows;
#[cfg(test)]
mod saying;
#[cfg(test)]
mod schemas_of;
#[cfg(test)]
mod sizes;
#[cfg(test)]
mod table;
