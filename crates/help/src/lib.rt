//! What the programs share: `--help` and `--version`, the progress of long work, and whether damage is shown in colour.
#![tactic(auto)]

ghost use Rattle.std.specs.Prelude.{◌≡◌, ◌↔◌, ◌∷◌, [], map, string_bytes, None, Some, IfSome, true};
ghost use Rattle.std.specs.List.{Contains};
ghost use Rattle.help.specs.Words.{help_word, version_word, AsksOfItself};

mod colours;
mod progress;

pub use colours::{moves_cursor, wants_colour};
pub use progress::Progress;
use std::io::{self, Write};

/// The version of all programs; the head of CHANGELOG.md has it and the date.
pub const VERSION: &str = "0.1.0";

/// The day of that version.
pub const DATE: &str = "2026-11-27";

/// What a program says of itself.
#[derive(Clone, Copy, Drop)]
pub struct About {
    /// Its name.
    pub name: &'static str,
    /// What it does.
    pub text: &'static str,
    /// How it is called.
    pub usage: &'static str,
}

/// What a program is asked for in place of its work.
#[derive(Clone, Copy, Debug, PartialEq, Eq, Drop)]
pub enum Asked {
    /// How it is called.
    Help,
    /// Which version it is.
    Version,
}

// Whether a word is `--help`.
fn is_help(word: &String) -> bool
    ensures { result ≡ true ↔ string_bytes word.now ≡ help_word }
{
    match word.as_str() {
        "--help" => true,
        _ => false,
    }
}

/// What the arguments ask for in place of the program's work: help if one of them is `--help`, anywhere; the version if `--version` is
/// the only one. Allocates nothing.
pub fn asked_by(words: &[String]) -> Option<Asked>
    ensures help { result ≡ Some Asked.Help ↔ Contains (map string_bytes words.now) help_word }
    ensures version { result ≡ Some Asked.Version
        ↔ (map string_bytes words.now ≡ version_word ∷ []) }
{
    for word in words {
        if is_help(word) {
            return Some(Asked::Help);
        }
    }
    match words {
        [word] => match word.as_str() {
            "--version" => Some(Asked::Version),
            _ => None,
        },
        _ => None,
    }
}

// Writes what was asked for.
fn say<W: Write>(out: &mut W, about: About, asked: Asked) -> io::Result<()> {
    let About { name, text, usage } = about;
    match asked {
        Asked::Help => {
            writeln!(out, "{name}: {text}")?;
            writeln!(out, "{}", usage.trim_end())?;
            writeln!(out, "       {name} --help | --version")
        }
        Asked::Version => writeln!(out, "{name} {VERSION} ({DATE})"),
    }
}

/// Writes help or the version, if the arguments ask for one of them; returns what came of the write. `None` if they ask for something else.
///
/// # Errors
/// The writer's.
pub fn answer<W: Write>(out: &mut W, about: About, words: &[String]) -> Option<io::Result<()>>
    ensures none { result ≡ None → AsksOfItself (map string_bytes words.now) → ⊥ }
    ensures some { IfSome result (λ _. AsksOfItself (map string_bytes words.now)) }
{
    match asked_by(words) {
        Some(asked) => Some(say(out, about, asked)),
        None => None,
    }
}
