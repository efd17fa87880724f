//! The candidates of a step: the items of a name in some scopes.
ghost use Rattle.std.specs.Prelude.{◌≡◌};
ghost use Rattle.std.specs.List.{slice_get};
ghost use Rattle.declarations.specs.Candidates.{is_item_of, is_place_of_step, candidates, TellsOnly};

use super::{Item, Kind, Name, Scope, What};

/// What a name is looked for as.
#[derive(Clone, Copy, PartialEq, Eq, Drop)]
pub enum Space {
    Types,
    Constants,
    /// Types that can be asked for by their names.
    Asked,
    /// What a path may begin with, and go on with: modules and types; to begin with also crates.
    Roots,
    Modules,
}

impl Space {
    /// Whether it is of what precedes `::`.
    pub fn is_way(self) -> bool {
        matches!(self, Space::Roots | Space::Modules)
    }
}

/// A step: the scopes in which a name is looked for.
#[derive(Clone, Copy, Drop)]
pub enum Step {
    /// One alone.
    Scope(usize),
    /// The modules of all files.
    All,
    /// The modules of this name.
    Module(Name),
    /// All bodies.
    Bodies,
}

/// How many candidates a step has.
#[derive(Clone, Copy, Drop)]
pub enum Only {
    Nothing,
    One(Item),
    Two,
}

/// Whether a scope is one of a step's.
pub fn is_within(scopes: &[Scope], step: Step, scope: usize) -> bool
    ensures { result ≡ is_place_of_step step scope (slice_get scopes.now scope) }
{
    let Some(it) = scopes.get(scope) else {
        return false;
    };
    let is_module = matches!(it.kind, Kind::File | Kind::Module);
    match step {
        Step::Scope(own) => scope == own,
        Step::All => is_module,
        Step::Module(name) => is_module && it.name == name,
        Step::Bodies => !is_module,
    }
}

/// Whether an item is what a name is looked for as.
fn is_of(item: &Item, space: Space) -> bool
    ensures { result ≡ is_item_of space item.now.what }
{
    let is_constant = matches!(item.what, What::Constant(..) | What::RefusedConstant(_));
    match space {
        Space::Types | Space::Roots | Space::Modules => !is_constant,
        Space::Constants => is_constant,
        Space::Asked => matches!(item.what, What::Marked(_) | What::Alias(_)),
    }
}

/// The only candidate among items.
pub fn only_of(items: &[Item], scopes: &[Scope], step: Step, name: Name, space: Space) -> Only
    ensures only { TellsOnly result (candidates scopes.now step name space items.now) }
{
    let mut found = None;
    let mut left = items;
    while let [item, rest @ ..] = left {
        if item.name == name && is_of(item, space) && is_within(scopes, step, item.scope) {
            if found.is_some() {
                return Only::Two;
            }
            found = Some(*item);
        }
        left = rest;
    }
    match found {
        Some(item) => Only::One(item),
        None => Only::Nothing,
    }
}
