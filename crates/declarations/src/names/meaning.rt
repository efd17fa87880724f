//! What a name may mean: everything that Rust could take it for. It is taken only if that is one thing.
use super::candidates::{Only, Space, Step, is_within};
use super::{Import, Kind, NO_NAME, Name, Path, Scopes};
use crate::known::{is_everywhere, is_known, is_known_crate, sent_as};
use declaration_parser::tokens::{Word, word_of};

// What is said after a name that isn't taken.
pub(super) const BROUGHT_IN: &str =
    "` is brought in by a `use`: name the file of its declaration too (a crate is called as its folder), or write the type that is on the wire";

const MISNAMED: &str =
    "` is in a module with `#[path]`, which isn't searched: write its declaration into a module without one, or the type that is on the wire";

pub(super) const BY_STAR: &str =
    "` may be what a `use` with `*` or a macro brings in: write its whole path (`::` before a crate), or name the file of its declaration too";

const AT_TIMES: &str =
    "` stands under a condition, without which it is another: call it otherwise, or leave that one out";

const MODULE_AT_TIMES: &str =
    "` is in a module that stands under a condition: write `self::` or `crate::` before its path";

pub(super) const RENAMED: &str =
    "` is another name that a `use` gives: write the name of the declaration, with its module before it";

pub(super) const LOST: &str =
    "` is reached through a module whose file isn't given, such as the crate's `lib.rs`: name that file too";

const HANDED: &str =
    "` may be made by a macro that its module hands it to: write its path, or a `use` of it";

/// All that a name may mean.
#[derive(Clone, Copy, Default, PartialEq, Eq, Drop)]
pub(super) enum Meaning {
    Nothing,
    /// The module at this place.
    Module(usize),
    /// The declaration of the name in this scope.
    Item(usize),
    /// What a known crate has by this name, or that crate.
    Known(Name),
    #[default]
    Outside,
    /// What a `*` may bring in that leads out of the files.
    Open,
    /// Not to be taken, for this reason.
    Wrong(&'static str),
    /// More than one thing.
    Doubtful,
}

impl Meaning {
    /// What a name means that may mean either. What isn't known may be two things.
    pub(super) fn both(self, other: Meaning) -> Meaning {
        match (self, other) {
            (Meaning::Nothing, it) | (it, Meaning::Nothing) => it,
            (Meaning::Wrong(_), _) => self,
            (_, Meaning::Wrong(_)) => other,
            _ if self.is_one() && other.is_one() && self == other => self,
            (Meaning::Open, Meaning::Open) => self,
            (it, Meaning::Open) | (Meaning::Open, it) if it.is_one() => Meaning::Wrong(BY_STAR),
            _ => Meaning::Doubtful,
        }
    }

    /// Whether it is one thing that is known.
    pub(super) fn is_one(self) -> bool {
        matches!(
            self,
            Meaning::Module(_) | Meaning::Item(_) | Meaning::Known(_)
        )
    }

    pub(super) fn is_nothing(self) -> bool {
        matches!(self, Meaning::Nothing)
    }
}

/// From how many scopes a name may come at most.
const MOST: usize = 64;

/// The scopes from which a name may come.
#[derive(Clone, Copy, Drop)]
pub(super) struct Places {
    all: [usize; MOST],
    count: usize,
    /// Whether a `use` leads there by the name, or by a `*`.
    is_by_name: bool,
    is_by_star: bool,
    /// Whether one has the name under a condition, and whether the name may mean another thing there without it.
    is_conditional: bool,
    may_differ: bool,
    /// Whether a `use` by the name is for something else that has it, such as a function, and whether the name may mean another
    /// thing then.
    is_hidden: bool,
    may_be_other: bool,
    /// Whether there are more.
    is_cut: bool,
}

impl Places {
    fn of(scope: usize) -> Places {
        Places {
            all: [scope; MOST],
            count: 1,
            is_by_name: false,
            is_by_star: false,
            is_conditional: false,
            may_differ: false,
            is_hidden: false,
            may_be_other: false,
            is_cut: false,
        }
    }

    /// The one after so many others.
    fn nth(&self, index: usize) -> Option<usize> {
        self.all.get(..self.count)?.get(index).copied()
    }

    /// Whether a scope is one of them, or may be.
    pub(super) fn has(&self, place: usize) -> bool {
        self.is_cut || self.all.get(..self.count).unwrap_or(&[]).contains(&place)
    }

    fn add(&mut self, place: usize) {
        if self.has(place) {
            return;
        }
        let count = self.count;
        match self.all.get_mut(count) {
            Some(it) => {
                *it = place;
                self.count = count.saturating_add(1);
            }
            None => self.is_cut = true,
        }
    }
}

impl<'a> Scopes<'a> {
    /// The module round a body; of others the scope itself.
    pub(super) fn module_of(&self, scope: usize) -> usize {
        let mut at = scope;
        for _ in 0..self.scopes.len() {
            if !self.is_inner(at) {
                break;
            }
            at = self.scope(at).outer;
        }
        at
    }

    /// What a scope declares under a name, and whether under a condition.
    fn declared(&self, scope: usize, name: Name, space: Space) -> (Meaning, bool) {
        if !self.members.contains(&(name, scope)) {
            return (Meaning::Nothing, false);
        }
        let (item, is_conditional) = match self.only(Step::Scope(scope), name, space) {
            Only::Nothing => (Meaning::Nothing, false),
            Only::One(it) => (Meaning::Item(scope), it.is_conditional),
            Only::Two => (Meaning::Doubtful, false),
        };
        if space == Space::Constants {
            return (item, is_conditional);
        }
        let (module, is_at_times) = self.module_in(scope, name);
        (item.both(module), is_conditional || is_at_times)
    }

    /// The module of a name that a scope declares, and whether under a condition.
    fn module_in(&self, scope: usize, name: Name) -> (Meaning, bool) {
        let (mut found, mut is_conditional) = (Meaning::Nothing, false);
        for (place, it) in self.scopes.iter().enumerate() {
            if it.outer != scope || it.name != name {
                continue;
            }
            found = found.both(match it.kind {
                Kind::Module => Meaning::Module(place),
                Kind::Outline => self.file_in(scope, name),
                Kind::Misnamed => Meaning::Wrong(MISNAMED),
                _ => Meaning::Nothing,
            });
            is_conditional = is_conditional || it.kind == Kind::Conditional;
        }
        let is_at_times = matches!(found, Meaning::Module(it) if self.at_times.contains(&it));
        (found, is_conditional || is_at_times)
    }

    /// What a scope has under a name: all that it and the modules say to which `use` leads that may bring the name in. And these.
    pub(super) fn reached(&self, scope: usize, name: Name, space: Space) -> (Meaning, Places) {
        let (mut found, mut places) = (Meaning::Nothing, Places::of(scope));
        for index in 0..MOST {
            let Some(place) = places.nth(index) else {
                break;
            };
            found = found.both(self.said(&mut places, place, name, space));
        }
        let is_module = matches!(found, Meaning::Module(_));
        let may_differ = places.may_differ && (is_module || self.has(name));
        let is_root = space == Space::Roots;
        let found = match found {
            _ if places.is_cut => Meaning::Doubtful,
            _ if places.is_hidden && (places.may_be_other || is_root) => Meaning::Doubtful,
            Meaning::Nothing if places.is_by_name && space.is_way() => Meaning::Doubtful,
            Meaning::Nothing if places.is_by_name => Meaning::Outside,
            Meaning::Module(_) if is_root && places.is_conditional => Meaning::Wrong(
                MODULE_AT_TIMES,
            ),
            _ if found.is_one() && (may_differ || is_root && places.is_conditional) =>
                Meaning::Wrong(AT_TIMES),
            _ => found,
        };
        (found, places)
    }

    /// What one scope says of a name. To which modules its `use` lead that may bring it in is added to the places.
    fn said(&self, places: &mut Places, scope: usize, name: Name, space: Space) -> Meaning {
        let (mut found, mut is_conditional) = self.declared(scope, name, space);
        let by = self.brought_in_by(scope, name, space, found);
        for it in &self.imports {
            if it.scope == scope && it.is_by(by, space) {
                found = found.both(self.brought(places, it, name, space));
                let is_same = it.is_crate && it.name == it.last;
                is_conditional = is_conditional || (by == name && it.is_conditional && !is_same);
            }
        }
        let text = self.tokens.text(name);
        let is_handed = self.is_handed(scope, name);
        let may_differ = is_known(text)
            || self.is_inner(scope)
            || self.has_star(scope)
            || is_handed;
        places.is_conditional = places.is_conditional || is_conditional;
        places.may_differ = places.may_differ || (is_conditional && may_differ);
        places.may_be_other = places.may_be_other || may_differ;
        // of a module each macro that may make a module is as a `*`
        if by == NO_NAME
            && is_handed
            && !(space.is_way() && (!self.is_inner(scope) || is_known_crate(text)))
            && !is_everywhere(text)
        {
            return found.both(Meaning::Open);
        }
        found
    }

    /// By which name a scope's `use` bring in a name: by itself if one does or the scope declares it, else as `*` do.
    fn brought_in_by(&self, scope: usize, name: Name, space: Space, declared: Meaning) -> Name {
        if !declared.is_nothing() {
            return name;
        }
        if self.members.contains(&(name, scope)) {
            for it in &self.imports {
                if it.scope == scope && it.is_by(name, space) && !it.before.is_nothing() {
                    return name;
                }
            }
        }
        NO_NAME
    }

    /// What a `use` brings in under a name, unless a module says it, which is added to the places.
    fn brought(&self, places: &mut Places, it: &Import, name: Name, space: Space) -> Meaning {
        let is_star = it.name == NO_NAME;
        let first = places.nth(0).unwrap_or(it.scope);
        if self.is_kept_from(first, it) {
            return Meaning::Nothing;
        }
        places.is_hidden = places.is_hidden || self.hides(places, it, name, space);
        match it.before {
            Meaning::Nothing | Meaning::Wrong(_) => it.before,
            // the item may be one of another name
            Meaning::Item(_) if it.path.count == 0 && !space.is_way() => Meaning::Wrong(RENAMED),
            before if it.path.count == 0 && !is_star => before,
            Meaning::Module(next)
                if is_star && space == Space::Roots && !self.is_seen(places, it, next, name) =>
                Meaning::Open,
            Meaning::Module(next) if is_star || it.last == it.name => {
                if !is_star || self.may_have(next, name) {
                    places.add(next);
                }
                places.is_by_star = places.is_by_star || is_star;
                places.is_by_name = places.is_by_name || !is_star;
                Meaning::Nothing
            }
            Meaning::Module(next) if space.is_way() => match self.declared(next, it.last, space) {
                (Meaning::Nothing, _) | (_, true) => Meaning::Doubtful,
                (found, _) => found,
            },
            Meaning::Module(_) => Meaning::Wrong(RENAMED),
            Meaning::Known(_) if is_star => self.of_known_crate(name, space),
            Meaning::Known(_) if space != Space::Constants => Meaning::Known(it.last),
            Meaning::Item(_) if is_star && space != Space::Constants => Meaning::Nothing,
            _ if is_star => Meaning::Open,
            _ => Meaning::Outside,
        }
    }

    /// Whether a `use` surely brings nothing into another scope: it isn't `pub`, and that isn't in its module.
    fn is_kept_from(&self, scope: usize, it: &Import) -> bool {
        scope != it.scope
            && matches!(it.shown, Word::Other | Word::Own)
            && matches!(self.root_of(scope), Meaning::Module(_))
            && !self.is_inside(scope, it.scope)
    }

    /// Whether a `use` by a name, or a `*` after one, leads to what the first scope or its own doesn't see. The first name of a
    /// path is that of a crate or of what is round.
    fn hides(&self, places: &Places, it: &Import, name: Name, space: Space) -> bool {
        let is_star = it.name == NO_NAME;
        let last = if is_star { name } else { it.last };
        let Meaning::Module(module) = it.before else {
            return false;
        };
        let has_it = !self.declared(module, last, space).0.is_nothing();
        let first = places.nth(0).unwrap_or(it.scope);
        it.path.count > 0
            && (!is_star || places.is_by_name && has_it)
            && !(self.sees(it.scope, module, last, space) && self.sees(first, module, last, space))
    }

    /// Whether a scope sees what a module has under a name, by itself or by a `*`.
    fn sees(&self, scope: usize, module: usize, name: Name, space: Space) -> bool {
        let (declared, _) = self.declared(module, name, space);
        let by = self.brought_in_by(module, name, space, declared);
        let within = match self.hidden.get(&(by, module)) {
            None => return true,
            Some(Word::Crate) => self.root_of(module),
            Some(Word::Super) => self.around_module(module),
            Some(_) => Meaning::Module(module),
        };
        !matches!(within, Meaning::Module(it) if !self.is_inside(scope, it))
    }

    /// Whether a scope is in a module, or in one that this has.
    fn is_inside(&self, scope: usize, module: usize) -> bool {
        let mut at = Meaning::Module(self.module_of(scope));
        for _ in 0..self.scopes.len() {
            match at {
                Meaning::Module(it) if it == module => return true,
                Meaning::Module(it) => at = self.around_module(it),
                _ => break,
            }
        }
        false
    }

    /// Whether a module may have a name, or have it from elsewhere.
    fn may_have(&self, module: usize, name: Name) -> bool {
        self.members.contains(&(name, module))
            || self.has_star(module)
            || self.is_handed(module, name)
    }

    /// Whether a `*` surely sees what begins a path in a module: if that is round the module that is gone out from, or the root.
    /// Else a crate may be called so.
    fn is_seen(&self, places: &Places, it: &Import, module: usize, name: Name) -> bool {
        let there = Meaning::Module(module);
        let is_round = self.around_module(it.scope) == there || self.root_of(it.scope) == there;
        let is_first = places.nth(0) == Some(it.scope) && is_round && !it.is_conditional;
        is_first || !self.may_have(module, name)
    }

    /// What a known crate may have under a name.
    fn of_known_crate(&self, name: Name, space: Space) -> Meaning {
        let text = self.tokens.text(name);
        match (space, is_known(text)) {
            (Space::Types, true) if !self.has(name) => Meaning::Known(name),
            (Space::Types, false) if sent_as(text).is_none() => Meaning::Nothing,
            (Space::Roots | Space::Modules, _) => Meaning::Nothing,
            _ => Meaning::Open,
        }
    }

    /// What a name means where a scope uses it: what the scope has, or else what is round it.
    pub(super) fn seen(&self, scope: usize, name: Name, space: Space) -> Meaning {
        let mut at = scope;
        for _ in 0..=self.scopes.len() {
            let (found, places) = self.reached(at, name, space);
            let is_inner = self.is_inner(at);
            // what a `*` brings in may not be visible, and something else be meant
            let is_everywhere = is_everywhere(self.tokens.text(name));
            let is_doubtful = places.is_by_star && (is_inner || is_everywhere);
            let is_made = self.is_handed(at, name) && !self.members.contains(&(name, at));
            match found {
                Meaning::Nothing if !is_inner => return self.beyond(at, name, space),
                Meaning::Nothing => at = self.scope(at).outer,
                _ if is_inner && space == Space::Roots => return Meaning::Doubtful,
                Meaning::Open if space == Space::Roots && !self.has_namesake(name, false) =>
                    return self.beyond(at, name, space),
                Meaning::Item(_) | Meaning::Open if is_doubtful => return Meaning::Wrong(BY_STAR),
                Meaning::Open | Meaning::Wrong(_) if is_made && !is_everywhere =>
                    return Meaning::Wrong(HANDED),
                found => return found,
            }
        }
        Meaning::Doubtful
    }

    /// What a name means that its module doesn't have: a crate, or what every file has.
    fn beyond(&self, module: usize, name: Name, space: Space) -> Meaning {
        match space {
            Space::Types if is_everywhere(self.tokens.text(name)) => Meaning::Known(name),
            Space::Roots => match self.crate_of(module, name) {
                Meaning::Nothing => Meaning::Outside,
                found => found,
            },
            _ => Meaning::Nothing,
        }
    }

    /// What the first name of a path means.
    fn root(&self, scope: usize, name: Name, is_absolute: bool) -> Meaning {
        let module = self.module_of(scope);
        match word_of(name) {
            _ if is_absolute => self.beyond(module, name, Space::Roots),
            Word::Own => Meaning::Module(module),
            Word::Super => self.around_module(module),
            Word::Crate => self.root_of(module),
            _ => self.seen(scope, name, Space::Roots),
        }
    }

    /// What a name means after what precedes it.
    pub(super) fn next(&self, before: Meaning, name: Name, space: Space) -> Meaning {
        match (before, word_of(name)) {
            (Meaning::Module(_), Word::Own) => before,
            (Meaning::Module(module), Word::Super) => self.around_module(module),
            (Meaning::Module(_), _) if name == NO_NAME => Meaning::Doubtful,
            (Meaning::Module(module), _) => self.reached(module, name, space).0,
            (Meaning::Known(_), _) if space != Space::Constants => Meaning::Known(name),
            (Meaning::Known(_) | Meaning::Item(_) | Meaning::Nothing, _) => Meaning::Outside,
            _ => before,
        }
    }

    /// What the names before the last of a path mean; without them, what the last one does.
    pub(super) fn way(&self, scope: usize, path: &Path, last: Name) -> Meaning {
        let (mut found, mut count) = (self.root(scope, path.first(last), path.is_absolute), 0);
        if matches!(found, Meaning::Wrong(_)) && word_of(path.root()) == Word::Crate {
            (found, count) = self.file_by_path(scope, path);
        }
        for place in count.saturating_add(1)..path.count {
            found = self.next(found, path.at(place), Space::Modules);
        }
        found
    }

    /// Whether a module of this name is there, which may be a crate.
    pub fn has_namesake(&self, name: Name, may_be_crate: bool) -> bool {
        for place in 0..self.scopes.len() {
            if is_within(&self.scopes, Step::Module(name), place)
                && (may_be_crate || self.root_of(place) != Meaning::Module(place))
            {
                return true;
            }
        }
        false
    }
}
