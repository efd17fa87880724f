//! Which file a module has, by the folders that both are in.
use super::meaning::{LOST, Meaning};
use super::{Kind, Name, Path, Scopes};
use crate::known::is_known_crate;
use declaration_parser::texts::is_listed;

/// The files that are roots of crates.
const ROOTS: &str = "lib main";

/// A path without its last name, and that name.
pub(super) fn split_last(path: &str) -> (&str, &str) {
    path.rsplit_once('/').unwrap_or(("", path))
}

/// The folder of a file, and its name without the ending.
fn parts_of(file: &str) -> (&str, &str) {
    let (folder, name) = split_last(file);
    (folder, name.rsplit_once('.').unwrap_or((name, "")).0)
}

/// The folder of a module that has this file, and its name: the file's, or its folder's.
fn module_at(file: &str) -> (&str, &str) {
    let (folder, stem) = parts_of(file);
    if stem == "mod" {
        split_last(folder)
    } else {
        (folder, stem)
    }
}

/// The path to the last `src` in the path of a file, and the path from there; no `src` if there is none.
fn parts_at_src(file: &str) -> (&str, &str) {
    match file.rsplit_once("/src/") {
        Some(parts) => parts,
        None => (".", file.strip_prefix("src/").unwrap_or("")),
    }
}

/// The module that a file is: by its name, or by its folder's.
pub fn module_of_file(file: &str) -> &str {
    let (folder, stem) = parts_of(file);
    if is_listed(stem, ROOTS) {
        return split_last(folder.strip_suffix("/src").unwrap_or(folder)).1;
    }
    module_at(file).1
}

impl<'a> Scopes<'a> {
    /// Whether the root of the crate is given whose `src` is in this folder.
    fn has_root(&self, folder: &str) -> bool {
        for file in 0..self.tokens.files.len() {
            let (there, path) = parts_at_src(self.tokens.name_of_file(file));
            if there == folder && matches!(path, "lib.rs" | "main.rs") {
                return true;
            }
        }
        false
    }

    /// Whether a file is the root of a crate by its name or its folder's: in the folders of a `src` those in `bin`, and if the root
    /// of that `src` isn't given, one that is called as roots are.
    pub(super) fn is_root(&self, file: usize) -> bool {
        let name = self.tokens.name_of_file(file);
        let (folder, stem) = parts_of(name);
        let (before, path) = parts_at_src(name);
        let is_inside = path.contains('/') && !path.starts_with("bin/");
        if is_listed(stem, ROOTS) {
            return !is_inside || !self.has_root(before);
        }
        is_listed(split_last(folder).1, "bin examples tests benches") && !is_inside
    }

    /// Whether the files of a module's modules are in this folder.
    fn is_folder_of(&self, module: usize, folder: &str) -> bool {
        let mut it = self.scope(module);
        let mut left = folder;
        for _ in 0..self.scopes.len() {
            if it.kind == Kind::File {
                let (own, stem) = parts_of(self.tokens.name_of_file(it.file));
                let has_own = stem == "mod" || self.is_root(it.file);
                // one that a `#[path]` names has them beside it
                let (before, last) = split_last(left);
                let is_named = before == own && last == stem && !self.is_elsewhere(it.file);
                return left == own && has_own || is_named;
            }
            match split_last(left) {
                _ if it.kind != Kind::Module => {}
                (before, last) if last == self.tokens.text(it.name) => left = before,
                _ => return false,
            }
            it = self.scope(it.outer);
        }
        false
    }

    /// Whether a file is that of a module's module, whose name it has: one that Rust can name.
    fn is_file_in(&self, module: usize, file: usize) -> bool {
        let file = self.tokens.name_of_file(file);
        let (folder, name) = module_at(file);
        !name.contains('-') && self.is_folder_of(module, folder)
    }

    /// The only file of these that a module has for a module of this name.
    pub(super) fn file_in(&self, module: usize, name: Name) -> Meaning {
        let mut found = Meaning::Nothing;
        for file in 0..self.tokens.files.len() {
            let (_, stem) = parts_of(self.tokens.name_of_file(file));
            if self.scope(file).name == name
                && !is_listed(stem, ROOTS)
                && self.is_file_in(module, file)
            {
                found = found.both(Meaning::Module(file));
            }
        }
        match found {
            Meaning::Doubtful | Meaning::Nothing => Meaning::Outside,
            found => found,
        }
    }

    /// How many names after `crate` lead to this file by its path in a `src`; none if they don't.
    fn count_to(&self, file: &str, path: &Path) -> usize {
        let (_, mut rest) = parts_at_src(file);
        for place in 1..path.count {
            match rest.strip_prefix(self.tokens.text(path.at(place))) {
                Some(".rs" | "/mod.rs") => return place,
                Some(more) => rest = more.strip_prefix('/').unwrap_or(""),
                None => break,
            }
        }
        0
    }

    /// The file to which the first names after `crate` lead by the folders of a scope's `src`, if no root of that is given; and how
    /// many names these are.
    pub(super) fn file_by_path(&self, scope: usize, path: &Path) -> (Meaning, usize) {
        let (own, own_path) = parts_at_src(self.tokens.name_of_file(self.scope(scope).file));
        let (mut found, mut least) = (Meaning::Wrong(LOST), path.count);
        // one in no `src`, and one in `bin`, is of another crate
        if own_path.is_empty() || own_path.starts_with("bin/") || self.has_root(own) {
            return (found, least);
        }
        for file in 0..self.tokens.files.len() {
            let name = self.tokens.name_of_file(file);
            let (there, rest) = parts_at_src(name);
            if there != own || rest.starts_with("bin/") {
                continue;
            }
            let count = self.count_to(name, path);
            if count > 0 && count <= least {
                let is_twin = count == least && !matches!(found, Meaning::Wrong(_));
                found = if is_twin {
                    Meaning::Doubtful
                } else {
                    Meaning::Module(file)
                };
                least = count;
            }
        }
        (found, least)
    }

    /// What the name of a crate means to a scope: the only library whose folder has it, a known one, or what `extern crate` says.
    pub(super) fn crate_of(&self, scope: usize, name: Name) -> Meaning {
        let mut found = Meaning::Nothing;
        // a folder may be called so, but not the crate in it
        let is_of_language = is_listed(self.tokens.text(name), "alloc core std");
        for file in 0..self.tokens.files.len() {
            let (_, stem) = parts_of(self.tokens.name_of_file(file));
            let is_library = stem == "lib" && self.is_root(file);
            if self.scope(file).name == name && is_library && !is_of_language {
                found = found.both(Meaning::Module(file));
            }
        }
        if found.is_nothing() && is_known_crate(self.tokens.text(name)) {
            found = Meaning::Known(name);
        }
        for it in &self.imports {
            if it.is_crate && it.name == name {
                let is_ours = self.root_of(scope) == Meaning::Module(it.scope);
                let is_sure = is_ours && !it.is_conditional;
                // elsewhere it may be another crate
                if found.is_nothing() && it.before.is_one() && !is_sure {
                    found = Meaning::Outside;
                }
                found = found.both(it.before);
            }
        }
        found
    }

    /// Whether a module may have a file that isn't where the module's name says.
    fn is_elsewhere(&self, file: usize) -> bool {
        let (_, name) = module_at(self.tokens.name_of_file(file));
        for it in &self.scopes {
            let path = self.tokens.text(it.name).trim_matches('"');
            if it.kind == Kind::Elsewhere && (module_at(path).1 == name || path.contains('\\')) {
                return true;
            }
        }
        false
    }

    /// The module that has a file: doubtful if another may have it too, none if none may.
    fn parent_of(&self, file: usize) -> Meaning {
        let mut found = match self.is_elsewhere(file) {
            true => Meaning::Doubtful,
            false => Meaning::Nothing,
        };
        let (_, stem) = parts_of(self.tokens.name_of_file(file));
        // `mod lib;` makes the root of a crate a module of another too
        let name = match is_listed(stem, ROOTS) {
            true => self.tokens.found_name(stem),
            false => self.scope(file).name,
        };
        for (place, it) in self.scopes.iter().enumerate() {
            let is_named = it.kind == Kind::Outline && it.name == name;
            if is_named && self.is_file_in(it.outer, file) {
                found = found.both(Meaning::Module(place));
            }
        }
        match found {
            Meaning::Module(place) => Meaning::Module(self.scope(place).outer),
            found => found,
        }
    }

    /// The module round another one, if these files have it.
    pub(super) fn around_module(&self, module: usize) -> Meaning {
        let it = self.scope(module);
        let parent = match it.kind {
            Kind::File => self.parent_of(it.file),
            _ => Meaning::Module(self.module_of(it.outer)),
        };
        match parent {
            Meaning::Module(_) => parent,
            _ => Meaning::Wrong(LOST),
        }
    }

    /// The root of the crate whose modules lead to a scope: a file by its name, by its folder, or since it is alone and not in a
    /// `src`. Words in no file are taken as those of the only file.
    pub(super) fn root_of(&self, scope: usize) -> Meaning {
        let count = self.tokens.files.len();
        let own = self.scope(scope).file;
        let mut file = if count == 1 { 0 } else { own };
        for _ in 0..count {
            let is_alone = count == 1 && parts_at_src(self.tokens.name_of_file(file)).1.is_empty();
            match (self.is_root(file) || is_alone, self.parent_of(file)) {
                (true, Meaning::Nothing) if file < count => return Meaning::Module(file),
                (false, Meaning::Module(module)) if file < count => file = self.scope(module).file,
                _ => break,
            }
        }
        Meaning::Wrong(LOST)
    }
}
