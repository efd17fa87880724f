//! What a name is answered as.
ghost use Rattle.declarations.specs.Candidates.{TellsOnly};
ghost use Rattle.declarations.specs.NameRule.{IsAnswerOf, IsAnsweredOrPassed, IsNowhereIfNone, IsOnlyOfAStep, IsOnlyThere, candidates_in};
ghost use Rattle.declarations.specs.declared.names.candidates.Space.TheVariants as space;

use super::candidates::{Only, Space, Step, is_within, only_of};
use super::meaning::{BROUGHT_IN, BY_STAR, Meaning};
use super::{Item, Kind, NO_NAME, Name, Path, Scopes, What};
use crate::known::{is_known, is_primitive};
use declaration_parser::faults::Faults;
use declaration_parser::texts::is_listed;
use declaration_parser::tokens::{Word, is_start};

const UNMARKED: &str =
    "` isn't declared and marked here: write `// message` before its declaration, if its fields are what is sent";

/// What a name stands for.
#[derive(Clone, Copy, Drop)]
pub enum Found {
    /// What a scope declares.
    In(What, usize),
    /// A known type by its own name.
    Known(Name),
    /// None, for this reason.
    Wrong(&'static str),
    /// One of two things.
    Two,
    /// What leads out of the files.
    Outside,
    Not,
}

/// What an item is answered as: what it is, unless it isn't taken.
fn found_as(item: &Item) -> Found
    ensures { IsAnswerOf item.now result }
{
    match item.what {
        What::Unmarked => Found::Wrong(UNMARKED),
        What::Refused(why) | What::RefusedConstant(why) => Found::Wrong(why),
        what => Found::In(what, item.scope),
    }
}

impl<'a> Scopes<'a> {
    /// The candidates of a step.
    pub(super) fn only(&self, step: Step, name: Name, space: Space) -> Only
        ensures only { TellsOnly result (candidates_in self.now step name space) }
    {
        only_of(&self.items, &self.scopes, step, name, space)
    }

    /// What a name stands for where a scope uses it.
    pub fn find(&self, scope: usize, name: Name, space: Space) -> Found
        ensures only { IsOnlyThere self.now name space result }
        ensures own { IsAnsweredOrPassed
            (candidates_in self.now (Step.Scope scope) name space) result }
        ensures last { IsNowhereIfNone (candidates_in self.now Step.All name space) result }
    {
        let meaning = self.seen(scope, name, space);
        match (self.only(Step::Scope(scope), name, space), meaning) {
            (Only::Nothing, meaning) => self.answered(meaning, name, space),
            (Only::One(item), Meaning::Item(place)) if place == scope && item.scope == scope =>
                found_as(&item),
            (_, Meaning::Wrong(why)) => Found::Wrong(why),
            _ => Found::Two,
        }
    }

    /// What a name is answered as that means this.
    fn answered(&self, meaning: Meaning, name: Name, space: Space) -> Found
        ensures only { IsOnlyThere self.now name space result }
        ensures last { IsNowhereIfNone (candidates_in self.now Step.All name space) result }
    {
        match meaning {
            Meaning::Item(place) => match self.only(Step::Scope(place), name, space) {
                Only::One(item) if item.scope == place => found_as(&item),
                _ => Found::Two,
            },
            Meaning::Known(known) => Found::Known(known),
            Meaning::Module(_) if is_primitive(self.tokens.text(name)) => Found::Known(name),
            Meaning::Module(_) => Found::Wrong(
                "` is a module here: write the type that is on the wire",
            ),
            Meaning::Outside => Found::Wrong(BROUGHT_IN),
            Meaning::Open => Found::Wrong(BY_STAR),
            Meaning::Wrong(why) => Found::Wrong(why),
            Meaning::Doubtful => Found::Two,
            Meaning::Nothing => match self.only(Step::All, name, space) {
                Only::Nothing if space == Space::Types && is_known(self.tokens.text(name)) =>
                    Found::Known(name),
                Only::Nothing => Found::Not,
                Only::One(_) => Found::Wrong(BY_STAR),
                Only::Two => Found::Two,
            },
        }
    }

    /// What the last name of a path stands for, which a scope uses.
    pub fn find_by_path(&self, scope: usize, path: &Path, name: Name, space: Space) -> Found
        ensures only { IsOnlyThere self.now name space result }
    {
        let before = self.way(scope, path, name);
        match (before, self.next(before, name, space)) {
            _ if self.is_veiled(scope, path) => Found::Wrong(BY_STAR),
            (Meaning::Module(_), Meaning::Nothing) => Found::Wrong(
                "` isn't declared in the module that its path names: name the file of its declaration too",
            ),
            (Meaning::Module(_) | Meaning::Wrong(_), it) => self.answered(it, name, space),
            (Meaning::Known(_), _) => Found::Known(name),
            (Meaning::Doubtful, _) => Found::Two,
            _ => Found::Outside,
        }
    }

    /// Whether a path may begin with a module that a `*` brings in from elsewhere, and not with the crate of its name. In a `use`
    /// Rust refuses that.
    fn is_veiled(&self, scope: usize, path: &Path) -> bool {
        let (root, module) = (path.root(), self.module_of(scope));
        !path.is_absolute
            && !is_start(root)
            && matches!(self.crate_of(module, root), Meaning::Module(_))
            && self.reached(module, root, Space::Modules).0 == Meaning::Open
    }

    /// Whether a module and those round it have the names of a path.
    fn ends_path(&self, module: usize, path: &Path) -> bool {
        let mut it = Meaning::Module(module);
        for place in (0..path.count).rev() {
            let name = path.at(place);
            match it {
                _ if is_start(name) => return place == 0 && path.count > 1,
                Meaning::Module(at) if self.scope(at).name == name => it = self.around_module(at),
                _ => return false,
            }
        }
        true
    }

    /// The module with all names of a path that has this name too.
    fn module_asked(&self, path: &Path, name: Name) -> Meaning {
        let mut found = Meaning::Nothing;
        for (_, place) in self.members.range((name, 0)..=(name, usize::MAX)) {
            if is_within(&self.scopes, Step::All, *place) && self.ends_path(*place, path) {
                found = found.both(Meaning::Module(*place));
            }
        }
        found
    }

    /// What a name that is asked for stands for: a marked type or an alias, outside of bodies if there is one.
    pub fn find_asked(&self, path: &Path, name: Name) -> Found
        ensures only { IsOnlyOfAStep self.now name space.Asked result }
    {
        let module = self.module_asked(path, name);
        for step in [Step::All, Step::Bodies] {
            // a path leads into no body
            let step = match module {
                _ if path.count == 0 => step,
                Meaning::Module(place) => Step::Scope(place),
                Meaning::Nothing => return Found::Not,
                _ => return Found::Two,
            };
            match self.only(step, name, Space::Asked) {
                Only::Nothing => {}
                Only::One(item) => return found_as(&item),
                Only::Two => return Found::Two,
            }
        }
        Found::Not
    }

    /// The name of the module round that of a type, if it tells it from others.
    fn outer_name(&self, item: &Item) -> Name {
        let step = Step::Module(self.scope(item.scope).name);
        let only = self.only(step, item.name, Space::Types);
        match (only, self.around_module(item.scope)) {
            (Only::Two, Meaning::Module(outer)) => self.scope(outer).name,
            _ => NO_NAME,
        }
    }

    /// Appends the paths of what a name may stand for, each once: its module, and what is round that if it has to be told.
    pub fn put_paths(&self, faults: &mut Faults, name: Name) {
        let tokens = self.tokens;
        let mut before = ", as in `";
        let mut last = (NO_NAME, NO_NAME);
        for item in &self.items {
            if item.name != name || !is_within(&self.scopes, Step::All, item.scope) {
                continue;
            }
            let (outer, module) = (self.outer_name(item), self.scope(item.scope).name);
            if module != NO_NAME && (outer, module) != last {
                let colons = if outer == NO_NAME { "" } else { "::" };
                faults.put_all(&[before, tokens.text(outer), colons]);
                faults.put_all(&[tokens.text(module), "::", tokens.text(name), "`"]);
                before = " or `";
                last = (outer, module);
            }
        }
    }

    /// Whether the first name of a path leads to one of these crates, or out of the files, and no `use` or trait says otherwise.
    pub fn is_foreign(&self, scope: usize, root: Name, crates: &str) -> bool {
        let file = self.scope(scope).file;
        for it in &self.imports {
            let is_there = it.is_crate || self.scope(it.scope).file == file;
            let is_one = it.last == root
                && is_listed(self.tokens.text(it.path.first(root)), crates);
            if root != NO_NAME && it.name == root && is_there && !is_one {
                return false;
            }
        }
        let meaning = self.seen(scope, root, Space::Roots);
        matches!(meaning, Meaning::Known(_) | Meaning::Outside)
            && !self.tokens.follows(root, &[Word::Implementation])
    }
}
