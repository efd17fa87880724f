//! The program's arguments.

/// A wrong argument.
#[derive(Clone, Copy, Drop)]
pub struct WrongArgument<'a> {
    /// The word that is wrong, or after which one is missing.
    pub word: &'a str,
    /// Why.
    pub why: &'static str,
}

/// What is to be shown of a log.
#[derive(Clone, Copy, Drop)]
pub struct Wanted<'a> {
    /// The file of the log; standard input if there is none.
    pub path: Option<&'a str>,
    /// The least number of the records.
    pub first: u64,
    /// At most so many of these: the last ones.
    pub last: Option<u64>,
    /// As lines of JSON.
    pub json: bool,
    /// With control characters escaped, for a terminal.
    pub escaped: bool,
}

/// Why a word after the last that a command takes is wrong.
pub const TOO_MANY: &str = "one word too many";

/// Why `repair` takes no word.
pub const NO_FILE: &str = "`repair` reads the log on standard input: write `< FILE` after it";

/// Why a word that begins as an option is wrong. A file of such a name is `./--name`.
pub const NO_OPTION: &str = "no such option";

// The number after a word's beginning, if the word begins so; an error if that is no number.
fn number_behind<'a>(word: &'a str, beginning: &str) -> Option<Result<u64, WrongArgument<'a>>> {
    let number = word.strip_prefix(beginning)?;
    match number.parse::<u64>() {
        Ok(number) => Some(Ok(number)),
        Err(_) => Some(Err(WrongArgument {
            word,
            why: "not a number from 0 to 18446744073709551615",
        })),
    }
}

/// What these arguments ask for, in any order: at most one file, `from=N`, `last=K` and `json`.
///
/// # Errors
/// The first wrong word, and why.
pub fn wanted_by<'a>(words: &[&'a str]) -> Result<Wanted<'a>, WrongArgument<'a>> {
    let mut wanted = Wanted {
        path: None,
        first: 0,
        last: None,
        json: false,
        escaped: false,
    };
    for word in words {
        if *word == "json" {
            wanted.json = true;
        } else if let Some(number) = number_behind(word, "from=") {
            wanted.first = number?;
        } else if let Some(number) = number_behind(word, "last=") {
            wanted.last = Some(number?);
        } else if wanted.path.is_none() {
            wanted.path = Some(*word);
        } else {
            return Err(WrongArgument {
                word: *word,
                why: TOO_MANY,
            });
        }
    }
    Ok(wanted)
}
