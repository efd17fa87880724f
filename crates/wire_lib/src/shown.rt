//! Which lines of a stream are shown, with their time, and in which colour.
ghost use Rattle.std.specs.Prelude.{◌≡◌, ◌++◌, ◌∷◌, [], ◌&&◌, not, ℕ, Bool, List, Option, true, false, codes, string_bytes, IfOk, OnOk, OnErr};
ghost use Rattle.std.specs.Option.{option_map};
ghost use Rattle.schema_table.specs.Telling.{names_at};
ghost use Rattle.wire_json.specs.Meant.{IsOneOf};
ghost use Rattle.wire_lib.specs.Kinds.{HasVariantNamed};
ghost use Rattle.wire_lib.specs.Said.{OnlyAppended};
ghost use Rattle.wire_lib.specs.Shown.{PutsFirst, PutsShown, ShowsBy, is_line_shown, is_value_line, line_coloured, line_shown, line_timed, time_front as front_of};

use crate::watching::screen::{PLAIN, RED};
use cobs::before_sentinel;
use schema_table::{Names, Schema};
use std::alloc::{AllocError, Global};

/// How the line of each value begins.
const VALUE: &[u8] = b"{\"value\":";

/// Selects lines that [`LinesOfFrames`](crate::receive::LinesOfFrames) appended, and puts a time or a colour to them.
#[derive(Drop)]
pub struct Shown {
    alloc: Global,
    /// How the lines of the shown variant begin, without and with a payload; without them all values are shown.
    only: Option<(Vec<u8>, Vec<u8>)>,
    /// Whether damage is red.
    colour: bool,
}

/// How a value's line begins, if its JSON begins with these.
fn joined(alloc: Global, front: &str, name: &str, back: &str) -> Result<Vec<u8>, AllocError>
    ensures { IfOk result (λ bytes. bytes.items
        ≡ codes "{\"value\":" ++ (front.now ++ (name.now ++ back.now))) }
{
    let mut bytes = Vec::new(alloc);
    bytes.extend_from_slice(VALUE)?;
    bytes.extend_from_slice(front.as_bytes())?;
    bytes.extend_from_slice(name.as_bytes())?;
    bytes.extend_from_slice(back.as_bytes())?;
    Ok(bytes)
}

/// Returns whether the type at index `place` is an enum with a variant of this name.
pub fn has_variant(schema: &Schema, place: usize, name: &str) -> bool
    ensures found { result ≡ true → HasVariantNamed (names_at schema.now place) name.now }
    ensures absent { result ≡ false → HasVariantNamed (names_at schema.now place) name.now → ⊥ }
{
    match schema.names.get(place) {
        Some(Names::Variants(names)) => is_among(names, name),
        _ => false,
    }
}

/// Whether `wanted` is one of the names.
fn is_among(names: &[String], wanted: &str) -> bool
    ensures found { result ≡ true → IsOneOf wanted.now names.now }
    ensures absent { result ≡ false → IsOneOf wanted.now names.now → ⊥ }
{
    for name in names {
        if name.as_str() == wanted {
            return true;
        }
    }
    false
}

impl Shown {
    /// Returns what shows all lines, or of the values only those of the variant `only`; with `colour`, damage is red.
    ///
    /// # Errors
    /// Out of memory.
    ///
    /// # Allocates
    /// With `only`, how its lines begin.
    pub fn new(alloc: Global, only: Option<&str>, colour: bool) -> Result<Shown, AllocError>
        ensures { IfOk result (λ s. ShowsBy s (option_map (λ name. name.now) only.entry) colour) }
    {
        Ok(Shown {
            alloc,
            only: match only {
                Some(name) => Some((
                    joined(alloc, "\"", name, "\"}")?,
                    joined(alloc, "{\"", name, "\":")?,
                )),
                None => None,
            },
            colour,
        })
    }

    /// Whether a line is shown; one that isn't a value always is.
    fn is_shown(&self, line: &[u8]) -> bool
        ensures { (only : Option (List ℕ)) (colour : Bool) → ShowsBy self.now only colour
            → result ≡ is_line_shown only line.now }
    {
        match &self.only {
            Some((name, holds)) => {
                !line.starts_with(VALUE) || line.starts_with(name) || line.starts_with(holds)
            }
            None => true,
        }
    }

    /// Appends a line, if it is shown.
    fn put_line(&self, line: &[u8], time: Option<u64>, out: &mut Vec<u8>) -> Result<(), AllocError>
        ensures line { OnOk result ((only : Option (List ℕ)) (colour : Bool)
            → ShowsBy self.now only colour
            → out.new.items ≡ out.old.items ++ line_shown only colour time line.now) }
        ensures unchanged { OnErr result (out.new.items ≡ out.old.items) }
    {
        if !self.is_shown(line) {
            return Ok(());
        }
        let before = out.len();
        let put = self.put_parts(line, time, out);
        if put.is_err() {
            out.truncate(before);
        }
        put
    }

    /// Appends a line that is shown; out of memory maybe a part of it.
    fn put_parts(&self, line: &[u8], time: Option<u64>, out: &mut Vec<u8>) -> Result<(), AllocError>
        ensures line { OnOk result (out.new.items ≡ out.old.items
            ++ (line_coloured (self.now.colour && not (is_value_line line.now))
            (line_timed time line.now) ++ 10 ∷ [])) }
        ensures only { OnlyAppended out.old.items out.new.items }
    {
        let is_red = self.colour && !line.starts_with(VALUE);
        if is_red {
            out.extend_from_slice(RED)?;
        }
        put_timed(self.alloc, line, time, out)?;
        if is_red {
            out.extend_from_slice(PLAIN)?;
        }
        Ok(out.push(b'\n')?)
    }

    /// Appends those of the lines that are shown. With a `time` in milliseconds each line begins with the member `"time"`, in seconds.
    ///
    /// # Errors
    /// Out of memory; what is shown of the lines before that has been appended, and no part of one more.
    ///
    /// # Allocates
    /// What `out` grows by. With a `time` a text at a time is freed.
    pub fn put(&self, lines: &[u8], time: Option<u64>, out: &mut Vec<u8>) -> Result<(), AllocError>
        ensures shown { OnOk result ((only : Option (List ℕ)) (colour : Bool)
            → ShowsBy self.now only colour
            → PutsShown only colour time lines.now out.old.items out.new.items) }
        ensures stopped { OnErr result ((only : Option (List ℕ)) (colour : Bool)
            → ShowsBy self.now only colour
            → PutsFirst only colour time lines.now out.old.items out.new.items) }
    {
        let mut rest = lines;
        while !rest.is_empty() {
            let (line, behind) = rest.split_at(before_sentinel(rest, b'\n'));
            self.put_line(line, time, out)?;
            let [_, left @ ..] = behind else {
                return Ok(());
            };
            rest = left;
        }
        Ok(())
    }
}

/// An object's first member, the time in seconds.
fn time_front(alloc: Global, time: u64) -> Result<String, AllocError>
    ensures { IfOk result (λ text. string_bytes text ≡ front_of time) }
{
    let seconds = time / 1000;
    let (tenths, hundredths) = (time / 100 % 10, time / 10 % 10);
    let rest = time % 10;
    format!(in alloc; "{{\"time\":{seconds}.{tenths}{hundredths}{rest},")
}

/// Appends a line; with a time as the first member of its object, in seconds.
fn put_timed(
    alloc: Global,
    line: &[u8],
    time: Option<u64>,
    out: &mut Vec<u8>,
) -> Result<(), AllocError>
    ensures line { OnOk result (out.new.items ≡ out.old.items ++ line_timed time line.now) }
    ensures only { OnlyAppended out.old.items out.new.items }
{
    let Some(time) = time else {
        return out.extend_from_slice(line);
    };
    let [_, members @ ..] = line else {
        return Ok(());
    };
    let front = time_front(alloc, time)?;
    out.extend_from_slice(front.as_bytes())?;
    out.extend_from_slice(members)
}
