//! What `use` brings into a scope, name by name; and derives from other crates than serde by the names of serde's.
use super::candidates::Space;
use super::meaning::Meaning;
use super::{Import, NO_NAME, Name, Scopes, Words};
use crate::known::is_known_crate;
use declaration_parser::derives::{has_own, has_serdes};
use declaration_parser::tokens::{DESERIALIZE, SERIALIZE, Word, word_of};

/// What stands for the names of a file that isn't read: no text has this name.
const INCLUDED: Name = Name::MAX;

impl Import {
    /// Whether it brings in what is looked for under this name, or, without one, all.
    pub(super) fn is_by(&self, name: Name, space: Space) -> bool {
        self.name == name && !(self.is_module && space == Space::Constants)
    }

    /// Whether it may bring in what isn't in these files.
    pub(super) fn leads_out(&self) -> bool {
        !matches!(self.before, Meaning::Module(_) | Meaning::Item(_))
    }
}

impl<'a> Scopes<'a> {
    /// Adds what a `use` brings in by these words, or an `extern crate`.
    pub(super) fn read_use(&mut self, mut import: Import, words: Words) {
        let tokens = self.tokens;
        // The paths before each `{` that is open.
        let mut kept = Vec::new(self.alloc);
        let mut rest = words;
        for _ in 0..words.len() {
            rest = tokens.behind_attributes(rest);
            let token = tokens.first(rest);
            rest = rest.behind_first();
            match token.word {
                Word::Colon => import.path.begin(),
                Word::Brace => self.failed = kept.push(import.path).is_err() || self.failed,
                Word::Close => _ = kept.pop(),
                Word::Comma => import.path = kept.last().copied().unwrap_or_default(),
                Word::Star => self.put_import(import),
                _ if matches!(tokens.front(rest), Word::Colon) => import.path.go(token.name),
                _ if token.name == NO_NAME => break,
                _ => rest = self.read_last(import, token.name, rest),
            }
        }
    }

    /// Adds the last name of a path, which may have another from there on, and gives the words after it.
    fn read_last(&mut self, mut import: Import, last: Name, words: Words) -> Words {
        import.last = last;
        // `self` is what the path before it leads to
        if matches!(word_of(last), Word::Own) && import.path.count > 0 {
            import.is_module = true;
            import.last = import.path.before();
            import.path.count = import.path.count.saturating_sub(1);
        }
        let by = words.behind_first();
        let is_renamed = matches!(self.tokens.front(words), Word::As) && !by.is_empty();
        import.name = if is_renamed {
            self.tokens.first(by).name
        } else {
            import.last
        };
        self.put_import(import);
        if is_renamed { by.behind_first() } else { words }
    }

    fn put_import(&mut self, import: Import) {
        let is_known = import.name == import.last
            && import.path.count > 0
            && is_known_crate(self.tokens.text(import.path.root()));
        self.put_member(import.name, import.scope, import.shown);
        if !is_known {
            self.failed = self.named.insert(import.name).is_err() || self.failed;
        }
        self.failed = self.imports.push(import).is_err() || self.failed;
    }

    /// Adds another file's words, of which nothing is known: once for a row of calls.
    pub(super) fn add_include(&mut self, scope: usize) {
        if let Some(it) = self.imports.last()
            && it.last == INCLUDED
            && it.scope == scope
        {
            return;
        }
        let mut import = Import::default();
        import.scope = scope;
        import.shown = Word::Public;
        import.last = INCLUDED;
        self.put_import(import);
    }

    /// Whether a `use` brings in a derive that isn't serde's: by a path that doesn't begin with a crate that has serde's, also by
    /// another name, or end with its name. Of the crates that a `*` may be of some are known to have one.
    fn brings_other(&self, it: &Import) -> bool {
        let root = it.path.first(it.last);
        if it.name == NO_NAME {
            return has_own(self.tokens.text(root));
        }
        if !matches!(it.name, SERIALIZE | DESERIALIZE) || !it.leads_out() {
            return false;
        }
        let krate = self.crate_by(self.module_of(it.scope), root);
        let is_passed_on = it.path.count > 1 && has_serdes(self.tokens.text(it.path.before()));
        it.last != it.name || !(is_passed_on || has_serdes(self.tokens.text(krate)))
    }

    /// The name of what a module, or `extern crate`, calls so; or the same name.
    fn crate_by(&self, module: usize, name: Name) -> Name {
        for it in &self.imports {
            let is_there = it.scope == module || it.is_crate;
            if it.name == name && is_there && (it.path.count > 0 || it.last != name) {
                return it.last;
            }
        }
        name
    }

    /// Whether the derive of this name that a scope uses may be another crate's, by a `use` that may bring it in there. What a body
    /// brings in hides what is round it.
    pub fn has_other_derive(&self, scope: usize, derive: Name) -> bool {
        let mut at = scope;
        for _ in 0..self.scopes.len() {
            match self.derive_in(at, derive) {
                Some(is_other) => return is_other,
                None if self.is_inner(at) => at = self.scope(at).outer,
                None => break,
            }
        }
        false
    }

    /// Whether the derive of this name that a scope has may be another crate's; nothing if no `use` says it.
    fn derive_in(&self, scope: usize, derive: Name) -> Option<bool> {
        let (_, places) = self.reached(scope, derive, Space::Types);
        let mut is_brought = false;
        for it in &self.imports {
            let is_own = it.scope == scope && it.name == derive;
            let is_star = it.name == NO_NAME && !self.members.contains(&(derive, it.scope));
            let is_one = it.name == derive || is_star;
            if is_one && places.has(it.scope) && self.brings_other(it) {
                return Some(true);
            }
            is_brought = is_brought || (is_own && it.leads_out());
        }
        is_brought.then_some(false)
    }
}
