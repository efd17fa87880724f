//! The names before the last one of a path.
use declaration_parser::tokens::{NO_NAME, Name};

/// How many names a path that is followed has at most before its last one.
const MOST: usize = 16;

/// The names before the last of a path.
#[derive(Clone, Copy, Default, Drop)]
pub struct Path {
    names: [Name; MOST],
    pub count: usize,
    /// Whether `::` precedes all of them.
    pub is_absolute: bool,
}

impl Path {
    /// Takes a colon, which tells of other crates if a path begins with it.
    pub fn begin(&mut self) {
        self.is_absolute = self.is_absolute || self.count == 0;
    }

    /// Goes on by a name.
    pub fn go(&mut self, name: Name) {
        let count = self.count;
        if let Some(place) = self.names.get_mut(count) {
            *place = name;
        }
        self.count = count.saturating_add(1);
    }

    /// The name at a place; none if there is none, or if there are too many before it.
    pub fn at(&self, place: usize) -> Name {
        match self.names.get(place) {
            Some(name) if place < self.count => *name,
            _ => NO_NAME,
        }
    }

    /// The first name; none if there is none.
    pub fn root(&self) -> Name {
        self.at(0)
    }

    /// The last of these names; none if there is none.
    pub fn before(&self) -> Name {
        self.at(self.count.saturating_sub(1))
    }

    /// The first name, if this one follows.
    pub(super) fn first(&self, last: Name) -> Name {
        if self.count == 0 { last } else { self.root() }
    }

    /// Whether there is no name, nor a `::`.
    pub fn is_empty(&self) -> bool {
        self.count == 0 && !self.is_absolute
    }
}
