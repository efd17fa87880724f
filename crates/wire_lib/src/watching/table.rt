//! What is kept of a stream: of each kind of messages the number, the rate and the last one's text; and the last damages.
ghost use Rattle.std.specs.Prelude.{◌≡◌, ℕ, ◌+◌, ◌<◌, ◌≤◌, List, [], ◌∷◌, ◌++◌, length, slice_set, slice_index_or, OnOk, OnErr};
ghost use Rattle.wire_lib.specs.Rates.{capped, HasTimed};
ghost use Rattle.wire_lib.specs.Tables.{IsNoted, StaysAs, last_of, row_names};

use crate::watching::rate::Rate;
use std::alloc::{AllocError, Global};

/// How many damages are kept.
pub const DAMAGES: usize = 3;

/// A kind of messages: its name, the number that came, the last one's text, and the rate.
#[derive(Drop)]
pub struct Row {
    /// Its name.
    pub name: String,
    /// How many came; stops at 2^64 - 1.
    pub count: u64,
    /// The last one's text.
    pub last: String,
    /// The rate.
    pub rate: Rate,
}

impl Row {
    /// Returns a kind of which no message came. Doesn't allocate yet.
    pub fn new(name: String, alloc: Global) -> Row
        ensures name { result.name ≡ name }
        ensures count { result.count ≡ 0 }
        ensures rate { HasTimed result.rate [] }
    {
        Row {
            name,
            count: 0,
            last: String::new(alloc),
            rate: Rate::new(),
        }
    }

    /// Counts a message of this kind, with its text.
    pub fn note(&mut self, last: String, window: u64)
        ensures { IsNoted last window self.old self.new }
    {
        self.count = self.count.saturating_add(1);
        self.last = last;
        self.rate.note(window);
    }
}

/// The kinds of messages, the number of damages, and the last ones.
#[derive(Drop)]
pub struct Table {
    /// The kinds, by the index of the variant.
    pub rows: Vec<Row>,
    /// How many damages there were; stops at 2^64 - 1.
    pub damaged: u64,
    /// The texts of the last [`DAMAGES`] of them.
    pub damages: Vec<String>,
}

impl Table {
    /// Counts a message of the kind at index `kind`; does nothing if there is no such kind.
    pub fn note(&mut self, kind: usize, last: String, window: u64)
        ensures noted { kind < length self.old.rows.items → (old new : Row)
            × (old ≡ slice_index_or self.old.rows.items kind old) × IsNoted last window old new
            × (self.new.rows.items ≡ slice_set self.old.rows.items kind new) }
        ensures none { length self.old.rows.items ≤ kind → self.new.rows ≡ self.old.rows }
        ensures kinds { row_names self.new.rows.items ≡ row_names self.old.rows.items }
        ensures damaged { self.new.damaged ≡ self.old.damaged }
        ensures damages { self.new.damages ≡ self.old.damages }
    {
        if kind < self.rows.len() {
            self.rows[kind].note(last, window);
        }
    }

    /// Counts a damage, and keeps its text.
    ///
    /// # Errors
    /// Out of memory; nothing is changed.
    ///
    /// # Allocates
    /// What the list of damages grows by.
    pub fn note_damage(&mut self, told: String) -> Result<(), AllocError>
        ensures damaged { OnOk result (self.new.damaged ≡ capped (self.old.damaged + 1)) }
        ensures damages { length self.old.damages.items ≤ 3 → OnOk result
            (self.new.damages.items ≡ last_of 3 (self.old.damages.items ++ told ∷ [])) }
        ensures rows { self.new.rows ≡ self.old.rows }
        ensures unchanged { OnErr result (StaysAs self.old self.new) }
    {
        self.damages.push(told)?;
        if self.damages.len() > DAMAGES {
            let _ = self.damages.remove(0);
        }
        self.damaged = self.damaged.saturating_add(1);
        Ok(())
    }
}
