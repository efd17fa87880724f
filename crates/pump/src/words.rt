//! Commands and reports as words.
ghost use Rattle.std.specs.Prelude.{◌≡◌, [], ◌∷◌, map, string_bytes, ℕ, IfSome, IfNone};
ghost use Rattle.pump.specs.Words.{IsNumber, AreWordsOf, AreWordsOfNone};

use crate::arguments::Misuse;
use crate::messages::{Command, PumpReport, Refusal};
use std::fmt;

// What is wrong with a word that is no command.
const NO_COMMAND: &str =
    "isn't a command: `show`, `on`, `off`, `reset`, `limit MILLILITRES` or `dose MILLILITRES`";

// What is wrong if no command follows.
const MISSING: &str =
    "has no command: write `show`, `on`, `off`, `reset`, `limit MILLILITRES` or `dose MILLILITRES` at the end";

// The number that a word is.
fn number_of(word: &str) -> Option<u32>
    ensures some { IfSome result (λ number. IsNumber number word.now) }
    ensures none { IfNone result ((n : ℕ) → IsNumber n word.now → ⊥) }
{
    match word.parse::<u32>() {
        Ok(number) => Some(number),
        Err(_) => None,
    }
}

// The command of one word.
fn command_of_one(word: &str) -> Option<Command>
    ensures some { IfSome result (λ command. AreWordsOf command (word.now ∷ [])) }
    ensures none { IfNone result (AreWordsOfNone (word.now ∷ [])) }
{
    match word {
        "show" => Some(Command::Show),
        "on" => Some(Command::On),
        "off" => Some(Command::Off),
        "reset" => Some(Command::Reset),
        _ => None,
    }
}

// The command of a name and a number.
fn command_of_two(name: &str, number: &str) -> Option<Command>
    ensures some { IfSome result (λ command. AreWordsOf command (name.now ∷ number.now ∷ [])) }
    ensures none { IfNone result (AreWordsOfNone (name.now ∷ number.now ∷ [])) }
{
    match name {
        "limit" => Some(Command::Limit(number_of(number)?)),
        "dose" => Some(Command::Dose(number_of(number)?)),
        _ => None,
    }
}

/// The command of these words: `show`, `on`, `off`, `reset`, or `limit` or `dose` and a number of millilitres. `None` exactly for other
/// words, and for a number that isn't a u32.
pub fn command_of(words: &[String]) -> Option<Command>
    ensures some { IfSome result (λ command. AreWordsOf command (map string_bytes words.now)) }
    ensures none { IfNone result (AreWordsOfNone (map string_bytes words.now)) }
{
    match words {
        [word] => command_of_one(word.as_str()),
        [name, number] => command_of_two(name.as_str(), number.as_str()),
        _ => None,
    }
}

// Why a word after a command is wrong.
fn why_too_many(word: &str) -> &'static str {
    if word.starts_with("--") {
        return "comes too late: write options before the command";
    }
    "is one word too many"
}

// Why a name and the words after it are no command.
fn why_not_with<'a>(name: &'a String, more: &'a [String]) -> Misuse<'a> {
    let takes_number = matches!(name.as_str(), "limit" | "dose");
    let (word, why) = match more {
        [] if takes_number => (
            name.as_str(),
            "has no value: write MILLILITRES after it, a number from 0 to 4294967295",
        ),
        [number] if takes_number => (
            number.as_str(),
            "isn't a number from 0 to 4294967295, as MILLILITRES are",
        ),
        [_, word, ..] if takes_number => (word.as_str(), why_too_many(word.as_str())),
        [word, ..] if matches!(name.as_str(), "show" | "on" | "off" | "reset") => {
            (word.as_str(), why_too_many(word.as_str()))
        }
        _ => (name.as_str(), NO_COMMAND),
    };
    Misuse { word, why }
}

/// Which of these words, of which `command_of` makes no command, is wrong, and why.
pub fn why_no_command(words: &[String]) -> Misuse<'_> {
    match words {
        [name, more @ ..] => why_not_with(name, more),
        [] => Misuse {
            word: "console",
            why: MISSING,
        },
    }
}

impl fmt::Display for Refusal {
    fn fmt<W: fmt::Write>(&self, f: &mut fmt::Formatter<W>) -> fmt::Result {
        match self {
            Refusal::IsOff => write!(f, "it is off"),
            Refusal::OverLimit => write!(f, "over the limit"),
        }
    }
}

impl fmt::Display for PumpReport {
    fn fmt<W: fmt::Write>(&self, f: &mut fmt::Formatter<W>) -> fmt::Result {
        match self {
            PumpReport::State { is_on, limit, used } => {
                let switched = if *is_on { "on" } else { "off" };
                write!(f, "{switched}, {used} of {limit} ml")
            }
            PumpReport::Done => write!(f, "done"),
            PumpReport::Refused(refusal) => write!(f, "refused: {refusal}"),
            PumpReport::Passed(it) => write!(f, "call {} is behind call {}", it.number, it.last),
        }
    }
}
