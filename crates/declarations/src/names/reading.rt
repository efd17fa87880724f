//! What the items of files declare, and what macros seem to, as far as their rules and calls say.
use super::folders::split_last;
use super::meaning::Meaning;
use super::{Import, Item, Kind, NO_NAME, Name, Scopes, Tokens, What, Words};
use crate::known::is_everywhere;
use declaration_parser::items::{self, ItemKind};
use declaration_parser::texts::is_listed;
use declaration_parser::tokens::Word;

/// Macros of other crates that declare no type and no length.
const OF_NO_NAME: &str = "compile_error global_asm lazy_static thread_local";

/// Macros of other crates that make no name but those that they are handed.
const OF_HANDED: &str = "bind_interrupts esp_app_desc timestamp";

/// Why what a macro makes isn't taken.
const MADE: &str =
    "` is made by a macro, which isn't followed: write its declaration out, in a file of its own";

const BITS: &str =
    "` is made by `bitflags!`, and sent as its bits: write the integer behind its name";

/// Whether the rules of a macro declare a type by the first name that they are handed.
fn declares_first(tokens: &Tokens, rules: &items::Item) -> bool {
    let mut first = NO_NAME;
    let mut rest = rules.inside;
    for _ in 0..rules.inside.len() {
        let (word, behind) = (tokens.front(rest), rest.behind_first());
        let is_type = matches!(word, Word::Struct | Word::Enum | Word::Union | Word::Alias);
        let name = tokens.name_at(behind.behind_first());
        if is_type && tokens.front(behind) == Word::Dollar && name == first {
            return true;
        }
        if word == Word::Dollar && first == NO_NAME {
            first = tokens.name_at(behind);
        }
        rest = behind;
    }
    false
}

impl<'a> Scopes<'a> {
    /// Reads the items of all files: calls of macros, or the others. The rules of macros are known wherever they are.
    pub(super) fn read_items(&mut self, items: &[items::Item], are_calls: bool) {
        for item in items {
            if item.kind == ItemKind::Rules && !are_calls {
                self.failed = self.rules.push(*item).is_err() || self.failed;
            }
            if (item.kind == ItemKind::Call) == are_calls {
                self.read_item(item);
            }
        }
    }

    fn read_item(&mut self, item: &items::Item) {
        let (tokens, scope) = (self.tokens, item.scope);
        let is_conditional = item.has(tokens, Word::Condition);
        let is_in_impl = self.scope(scope).kind == Kind::Impl;
        let what = match item.kind {
            ItemKind::Type => match self.marked.get(&item.place) {
                Some(index) => What::Marked(*index),
                None => What::Unmarked,
            },
            ItemKind::Alias => What::Alias(item.words.behind_first()),
            ItemKind::Static => What::RefusedConstant(
                "` is a `static`, whose value isn't read: make it a `const`",
            ),
            ItemKind::Constant => {
                let of = item.words.behind_first().behind_first();
                let value = tokens.up_to(of, &[Word::Equals]);
                What::Constant(of.before(value), value.behind_first())
            }
            ItemKind::Import | ItemKind::Crate => {
                let mut import = Import::default();
                import.scope = scope;
                import.is_crate = item.kind == ItemKind::Crate;
                import.is_conditional = is_conditional;
                import.shown = item.shown;
                return self.read_use(import, item.words);
            }
            ItemKind::Rules if !is_in_impl => {
                self.read_include(item);
                return self.read_made(scope, is_conditional, item.inside, false);
            }
            ItemKind::Call if !is_in_impl => return self.read_call(item),
            // as `#![cfg(..)]`, also in a `cfg_attr`
            ItemKind::Hidden if tokens.has_word(item.inside, Word::Condition) => {
                self.failed = self.at_times.insert(scope).is_err() || self.failed;
                return;
            }
            _ => return,
        };
        self.add(scope, is_conditional, item.shown, item.words, what);
    }

    /// Adds what the first of these words stands for, if it is a name, where something may be imported too.
    fn add(&mut self, scope: usize, is_conditional: bool, shown: Word, words: Words, what: What) {
        let name = self.tokens.name_at(words);
        if name == NO_NAME || self.scope(scope).kind == Kind::Impl {
            return;
        }
        if let What::Marked(index) = what {
            let is_new = self.marked_names.insert((name, scope));
            let stand = (scope, matches!(is_new, Ok(false)));
            let failed = is_new.is_err() || self.stands.insert(index, stand).is_err();
            self.failed = failed || self.failed;
        }
        let item = Item {
            name,
            what,
            scope,
            is_conditional,
        };
        self.failed = self.items.push(item).is_err() || self.failed;
        self.put_member(name, scope, shown);
        self.failed = self.named.insert(name).is_err() || self.failed;
    }

    /// Reads what the call of a macro may bring in or declare. In a module it is as a `*` that leads out, in a body if its rules are here.
    fn read_call(&mut self, item: &items::Item) {
        self.read_include(item);
        let tokens = self.tokens;
        let name = tokens.first(item.words).name;
        let text = tokens.text(name);
        let is_inner = self.is_inner(item.scope);
        let is_own = self.is_own(name);
        let is_check = text.starts_with("assert_") || text.starts_with("const_assert");
        if !is_own && (is_check || is_listed(text, OF_NO_NAME)) {
            return;
        }
        if !is_own && !is_inner && is_listed(text, "endpoints topics") {
            self.failed = self.endpoints.push(item.inside).is_err() || self.failed;
            return;
        }
        let are_bits = text == "bitflags" && !is_own;
        self.read_made(item.scope, false, item.inside, are_bits);
        for place in 0..self.rules.len() {
            if let Some(rules) = self.rules.get(place).copied()
                && is_own
            {
                self.read_rules(item, &rules);
            }
        }
        if is_own || text == "include" || !(is_inner || is_listed(text, OF_HANDED)) {
            self.add_include(item.scope);
        }
        self.read_handed(item);
    }

    /// Reads what the rules of a macro make where one is called that may have them, or call another that has.
    fn read_rules(&mut self, call: &items::Item, rules: &items::Item) {
        let tokens = self.tokens;
        if rules.scope != call.scope && self.are_called(rules, tokens.first(call.words).name) {
            self.read_made(call.scope, false, rules.inside, false);
        }
        if is_everywhere(tokens.text(tokens.name_at(call.inside)))
            && declares_first(tokens, rules)
        {
            let made = What::Refused(MADE);
            self.add(call.scope, false, Word::Public, call.inside, made);
        }
    }

    /// Whether a `use` gives a macro of this name another one.
    fn is_given(&self, name: Name) -> bool {
        for it in &self.imports {
            if it.name == name && it.last != name {
                return true;
            }
        }
        false
    }

    /// Whether a macro of this name has these rules.
    fn are_called(&self, rules: &items::Item, name: Name) -> bool {
        self.tokens.nth(rules.words, 2).name == name || self.is_given(name)
    }

    /// Whether a macro of this name may be one of these files, or one that a `use` renames.
    fn is_own(&self, name: Name) -> bool {
        for it in &self.rules {
            if self.tokens.nth(it.words, 2).name == name {
                return true;
            }
        }
        self.is_given(name)
    }

    /// Reads which files `include!` may bring in, also by another macro: such a file has any of the names round the call.
    fn read_include(&mut self, item: &items::Item) {
        for file in 0..self.tokens.files.len() {
            if self.has_file_name(item, file) {
                self.add_include(file);
            }
        }
    }

    /// Whether a word of a call is a path with the last name of a file, or its end as in `concat!("types", ".rs")`, or for
    /// `include!` one with a `\`.
    fn has_file_name(&self, item: &items::Item, file: usize) -> bool {
        let is_sure = self.tokens.first_text(item.words) == "include";
        let (_, name) = split_last(self.tokens.name_of_file(file));
        for place in item.inside.from..item.inside.to {
            let text = self.tokens.text(self.tokens.at(place).name);
            let (_, last) = split_last(text.trim_matches('"'));
            let may_be_end = last.ends_with(".rs") && name.ends_with(last);
            let may_be_any = is_sure && text.contains('\\');
            if !name.is_empty() && (may_be_end || may_be_any || last == name) {
                return is_sure || !self.is_inner(item.scope);
            }
        }
        false
    }

    /// Reads what a macro makes: names after the words of items, in all groups.
    fn read_made(&mut self, scope: usize, is_at_times: bool, inside: Words, are_bits: bool) {
        let (tokens, mut is_conditional) = (self.tokens, is_at_times);
        let mut rest = inside;
        for _ in 0..inside.len() {
            let front = tokens.front(rest);
            rest = rest.behind_first();
            let what = match front {
                Word::Struct | Word::Enum | Word::Union if are_bits => What::Refused(BITS),
                Word::Struct | Word::Enum | Word::Union | Word::Alias => What::Refused(MADE),
                Word::Constant => What::RefusedConstant(MADE),
                Word::Import => {
                    is_conditional = true;
                    let mut import = Import::default();
                    import.scope = scope;
                    import.is_conditional = true;
                    import.shown = Word::Public;
                    let behind = tokens.up_to(rest, &[Word::Semicolon]);
                    self.read_use(import, rest.before(behind));
                    continue;
                }
                _ => continue,
            };
            self.add(scope, is_conditional, Word::Public, rest, what);
        }
    }

    /// Notes which names a call hands to its macro, and which one first in a module.
    fn read_handed(&mut self, call: &items::Item) {
        let tokens = self.tokens;
        for place in call.inside.from..call.inside.to {
            let handed = (tokens.at(place).name, call.scope);
            self.failed = self.handed.insert(handed).is_err() || self.failed;
        }
        let first = tokens.name_at(call.inside);
        if first != NO_NAME && !self.is_inner(call.scope) {
            self.failed = self.handed_first.insert(first).is_err() || self.failed;
        }
    }

    /// Whether a module hands a name to a macro before others.
    pub fn is_first_handed(&self, name: Name) -> bool {
        self.handed_first.contains(&name)
    }

    /// Whether a scope hands a name to a macro, which may declare it there.
    pub(super) fn is_handed(&self, scope: usize, name: Name) -> bool {
        self.handed.contains(&(name, scope))
    }
}
