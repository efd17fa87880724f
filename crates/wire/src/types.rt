//! The types that files declare.
use crate::failure::{Failure, WRITE_FAULT, wrong};
use crate::sources::sources_of;
use declarations::{
    CheckedSources, Error, Names, Schema, Source, check_sources, read_sources, read_type,
};
use std::alloc::{AllocError, Global};

/// The failure for an error in declarations.
fn failure_of(error: Error) -> Failure {
    match error {
        Error::Wrong(lines) => Failure::Plain(lines),
        Error::OutOfMemory => Failure::NoMemory,
    }
}

/// Returns the table of all types of these files.
pub fn schema_of(rt: &HostRuntime, files: &str) -> Result<Schema, Failure> {
    let sources = sources_of(rt, files)?;
    match read_sources(rt.alloc(), &sources) {
        Ok(schema) => Ok(schema),
        Err(error) => Err(failure_of(error)),
    }
}

/// Whether an error is about a file, and not about TYPE.
fn begins_with_file(sources: &[Source], lines: &str) -> bool {
    for it in sources {
        if lines.starts_with(it.file.as_str()) {
            return true;
        }
    }
    false
}

/// As [`failure_of`], if TYPE can be what is wrong.
fn failure_at_type(sources: &[Source], error: Error) -> Failure {
    match error {
        Error::Wrong(lines) => {
            if begins_with_file(sources, lines.as_str()) {
                Failure::Plain(lines)
            } else {
                Failure::Wrong(lines)
            }
        }
        Error::OutOfMemory => Failure::NoMemory,
    }
}

/// Returns the table of the type that `words` name, and its index there.
pub fn type_of(rt: &HostRuntime, files: &str, words: &str) -> Result<(Schema, usize), Failure> {
    let sources = sources_of(rt, files)?;
    match read_type(rt.alloc(), &sources, words) {
        Ok(it) => Ok(it),
        Err(error) => Err(failure_at_type(&sources, error)),
    }
}

/// Returns what these files declare.
pub fn checked_of(rt: &HostRuntime, files: &str) -> Result<CheckedSources, Failure> {
    let sources = sources_of(rt, files)?;
    match check_sources(rt.alloc(), &sources) {
        Ok(checked) => Ok(checked),
        Err(error) => Err(failure_of(error)),
    }
}

/// Prints the maximum size of a declared type, or that it can't be read; nothing of a mark before what is no declaration.
pub fn say_type(
    rt: &HostRuntime,
    name: &str,
    is_readable: bool,
    size: Option<u64>,
) -> Result<(), Failure> {
    if name.is_empty() {
        return Ok(());
    }
    let said = match size {
        _ if !is_readable => println!(rt; "{name}: can't be read"),
        Some(size) => println!(rt; "{name}: {size} bytes at most"),
        None => println!(rt; "{name}: no greatest size"),
    };
    if said.is_err() {
        return Err(WRITE_FAULT);
    }
    Ok(())
}

/// Which variants the type at an index has, as a line.
fn variants_of(alloc: Global, schema: &Schema, place: usize) -> Result<String, AllocError> {
    let mut line = String::new(alloc);
    match schema.names.get(place) {
        Some(Names::Variants(names)) => {
            line.push_str("there are:")?;
            for name in names {
                line.push_str(" ")?;
                line.push_str(name.as_str())?;
            }
        }
        _ => line.push_str("it has none: leave `only=` out")?,
    }
    line.push_str("\n")?;
    Ok(line)
}

/// The failure for a variant that the type at an index doesn't have, with those that it has.
pub fn no_variant(rt: &HostRuntime, schema: &Schema, place: usize, variant: &str) -> Failure {
    match variants_of(rt.alloc(), schema, place) {
        Ok(line) => wrong(
            rt,
            &[
                "`only=",
                variant,
                "`: the type has no such variant\n",
                line.as_str(),
            ],
        ),
        Err(_) => Failure::NoMemory,
    }
}
