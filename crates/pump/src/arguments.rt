//! The arguments of a call.
use crate::messages::Command;
use crate::words::{command_of, why_no_command};

/// A wrong argument.
#[derive(Clone, Copy, Drop)]
pub struct Misuse<'a> {
    /// The word that is wrong, or that lacks something.
    pub word: &'a str,
    /// What is wrong with it, and what to write.
    pub why: &'static str,
}

/// What is wrong with a word that isn't a u64.
const NO_NUMBER: &str = "isn't a number from 0 to 18446744073709551615";

// What is wrong with an option that ends the arguments.
const NO_VALUE: &str =
    "has no value: write a FILE after `--numbers`, a NUMBER after `--number`, TIMES after `--again`";

/// Where the call's number comes from.
#[derive(Clone, Copy, Drop)]
pub enum Numbers<'a> {
    /// This is the number.
    Number(u64),
    /// A file of this name holds it.
    In(&'a str),
}

/// The call to make.
#[derive(Clone, Copy, Drop)]
pub struct Arguments<'a> {
    /// Where its number comes from.
    pub numbers: Numbers<'a>,
    /// How often the call may be sent again.
    pub again: u64,
    /// What is called.
    pub command: Command,
}

// The options so far: where the number comes from, and how often the call may be sent again.
#[derive(Clone, Copy, Drop)]
struct Options<'a> {
    numbers: Option<Numbers<'a>>,
    again: Option<u64>,
}

// The number that a word is, or what is wrong with it.
fn number_of(word: &str) -> Result<u64, Misuse<'_>> {
    match word.parse::<u64>() {
        Ok(number) => Ok(number),
        Err(_) => Err(Misuse {
            word,
            why: NO_NUMBER,
        }),
    }
}

impl<'a> Options<'a> {
    // These and one more that says where the number comes from, unless they say that already.
    fn with_numbers(self, name: &'a str, numbers: Numbers<'a>) -> Result<Options<'a>, Misuse<'a>> {
        if self.numbers.is_some() {
            return Err(Misuse {
                word: name,
                why: "is one too many: write `--numbers FILE` or `--number NUMBER`, once",
            });
        }
        Ok(Options {
            numbers: Some(numbers),
            again: self.again,
        })
    }

    // These and one more that says how often the call may be sent again, unless they say that already.
    fn with_again(self, name: &'a str, again: u64) -> Result<Options<'a>, Misuse<'a>> {
        if self.again.is_some() {
            return Err(Misuse {
                word: name,
                why: "is one too many: write it once",
            });
        }
        Ok(Options {
            numbers: self.numbers,
            again: Some(again),
        })
    }

    // These and one more, by its name and value.
    fn with(self, name: &'a str, value: &'a str) -> Result<Options<'a>, Misuse<'a>> {
        match name {
            "--again" => self.with_again(name, number_of(value)?),
            "--number" => self.with_numbers(name, Numbers::Number(number_of(value)?)),
            "--numbers" if value.is_empty() => Err(Misuse {
                word: name,
                why: "has an empty value: write the name of a file after it",
            }),
            "--numbers" => self.with_numbers(name, Numbers::In(value)),
            _ => Err(Misuse {
                word: name,
                why: "isn't an option: `--numbers FILE`, `--number NUMBER` or `--again TIMES`",
            }),
        }
    }
}

// The call of these options, and of the words after them.
fn call_of<'a>(options: Options<'a>, words: &'a [String]) -> Result<Arguments<'a>, Misuse<'a>> {
    let Some(command) = command_of(words) else {
        return Err(why_no_command(words));
    };
    match options.numbers {
        Some(numbers) => Ok(Arguments {
            numbers,
            again: options.again.unwrap_or(0),
            command,
        }),
        None => Err(Misuse {
            word: "console",
            why: "has no number: write `--numbers FILE` or `--number NUMBER` before the command",
        }),
    }
}

/// What the arguments say: options, each a name and a value, and then a command.
///
/// # Errors
/// The first wrong word, and why.
pub fn arguments_of(words: &[String]) -> Result<Arguments<'_>, Misuse<'_>> {
    let mut options = Options {
        numbers: None,
        again: None,
    };
    let mut rest = words;
    for _ in 0..words.len() {
        match rest {
            [name, value, more @ ..] if name.as_str().starts_with("--") => {
                options = options.with(name.as_str(), value.as_str())?;
                rest = more;
            }
            [name] if name.as_str().starts_with("--") => {
                return Err(Misuse {
                    word: name.as_str(),
                    why: NO_VALUE,
                });
            }
            _ => break,
        }
    }
    call_of(options, rest)
}
