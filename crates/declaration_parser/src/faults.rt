//! What is wrong, a line each.
ghost use Rattle.std.specs.Prelude.{◌≡◌, [], false, string_bytes, IfOk, IsTrue};

use std::alloc::{AllocError, Global};
use std::fmt::Write;

/// Lines that are made of pieces. If memory runs out, the calls go on, and [`finished`](Faults::finished) says so at the end.
#[derive(Drop)]
pub struct Faults {
    whole: String,
    failed: bool,
}

impl Faults {
    ghost use Rattle.declaration_parser.specs.Silent.{SaysNothing};

    /// Nothing is wrong.
    pub fn new(alloc: Global) -> Faults
        ensures { SaysNothing result }
    {
        Faults {
            whole: String::new(alloc),
            failed: false,
        }
    }

    /// Appends a piece.
    pub fn put(&mut self, piece: &str)
        ensures silent { SaysNothing self.new → SaysNothing self.old }
        ensures piece { SaysNothing self.new → piece.now ≡ [] }
    {
        let failed = self.whole.push_str(piece).is_err();
        self.note(failed);
    }

    /// Appends these pieces.
    pub fn put_all(&mut self, pieces: &[&str])
        ensures { SaysNothing self.new → SaysNothing self.old }
    {
        for piece in pieces {
            self.put(piece);
        }
    }

    /// Appends a number.
    pub fn put_number(&mut self, number: usize)
        ensures { SaysNothing self.new → SaysNothing self.old }
    {
        let failed = write!(self.whole, "{number}").is_err();
        self.note(failed);
    }

    /// Appends how what is said of a line begins: with its file, if that has a name.
    pub fn put_line(&mut self, file: &str, line: usize)
        ensures { ¬ SaysNothing self.new }
    {
        if !file.is_empty() {
            self.put(file);
            self.put(": ");
        }
        self.put("line ");
        self.put_number(line);
        self.put(": ");
    }

    /// Appends what is said of a word in a line.
    pub fn refuse(&mut self, file: &str, line: usize, word: &str, why: &str)
        ensures { ¬ SaysNothing self.new }
    {
        self.put_line(file, line);
        self.put("`");
        self.put(word);
        self.put(why);
    }

    /// Notes whether memory ran out for something.
    pub fn note(&mut self, failed: bool)
        ensures silent { SaysNothing self.new → SaysNothing self.old }
        ensures failed { SaysNothing self.new → failed ≡ false }
    {
        self.failed = self.failed || failed;
    }

    /// Whether nothing is wrong.
    pub fn is_empty(&self) -> bool
        ensures { SaysNothing self.now → IsTrue result }
    {
        self.whole.is_empty()
    }

    /// The lines. The others note whether there was memory for them.
    pub fn apart_from(self, others: &mut Faults) -> String
        ensures { SaysNothing others.new → SaysNothing others.old }
    {
        others.note(self.failed);
        self.whole
    }

    /// The lines, if there was memory for them.
    pub fn finished(self) -> Result<String, AllocError>
        ensures { IfOk result (λ s. string_bytes s ≡ [] → SaysNothing self) }
    {
        if self.failed {
            return Err(AllocError);
        }
        Ok(self.whole)
    }
}
