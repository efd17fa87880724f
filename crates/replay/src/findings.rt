//! What differs.
ghost use Rattle.std.specs.Prelude.{◌≡◌, ◌≢◌, ◌<◌, ◌≤◌, ◌↔◌, IsTrue, OnOk};
ghost use Rattle.replay.specs.Findings.{noted};

use crate::words::{Trouble, digits};
use std::alloc::{AllocError, Global};

/// The results of a line's calls that differ from the line's.
#[derive(Drop)]
pub struct Findings {
    alloc: Global,
    text: String,
    trouble: Option<Trouble>,
}

impl Findings {
    /// No findings.
    pub fn new(alloc: Global) -> Findings
        ensures { noted result ≡ 0 }
    {
        Findings {
            alloc,
            text: String::new(alloc),
            trouble: None,
        }
    }

    /// Whether nothing was found to differ.
    pub fn is_empty(&self) -> bool
        ensures { IsTrue result ↔ (noted self.now ≡ 0) }
    {
        self.text.is_empty()
    }

    /// Each result that differs, after its call.
    pub fn text(&self) -> &str {
        self.text.as_str()
    }

    /// Notes the result of a call as one that differs.
    pub fn add(&mut self, call: &str, answer: &str) -> Result<(), AllocError>
        ensures adds { OnOk result (0 < noted self.new) }
        ensures kept { noted self.old ≤ noted self.new }
    {
        self.text.push_str(" | ")?;
        self.text.push_str(call)?;
        self.text.push_str(": ")?;
        self.text.push_str(answer)
    }

    /// Compares what a call returned, in the line's words.
    pub fn compare(&mut self, call: &str, answer: &str, wanted: &str) -> Result<(), AllocError>
        ensures equal { answer.now ≡ wanted.now → noted self.new ≡ noted self.old }
        ensures differs { answer.now ≢ wanted.now → OnOk result (0 < noted self.new) }
        ensures kept { noted self.old ≤ noted self.new }
    {
        if answer == wanted {
            return Ok(());
        }
        self.add(call, answer)
    }

    /// Compares the bytes that a call gave.
    pub fn compare_bytes(
        &mut self,
        call: &str,
        answer: &[u8],
        wanted: &[u8],
    ) -> Result<(), AllocError>
        ensures equal { answer.now ≡ wanted.now → noted self.new ≡ noted self.old }
        ensures differs { answer.now ≢ wanted.now → OnOk result (0 < noted self.new) }
        ensures kept { noted self.old ≤ noted self.new }
    {
        if answer == wanted {
            return Ok(());
        }
        let answer = digits(self.alloc, answer)?;
        self.add(call, answer.as_str())
    }

    /// Compares the number that a call gave.
    pub fn compare_number(
        &mut self,
        call: &str,
        answer: usize,
        wanted: usize,
    ) -> Result<(), AllocError>
        ensures equal { answer ≡ wanted → noted self.new ≡ noted self.old }
        ensures differs { answer ≢ wanted → OnOk result (0 < noted self.new) }
        ensures kept { noted self.old ≤ noted self.new }
    {
        if answer == wanted {
            return Ok(());
        }
        let answer = format!(in self.alloc; "{answer}")?;
        self.add(call, answer.as_str())
    }

    /// As [`compare`](Findings::compare), of a result in the line's words that was just made.
    pub fn check(
        &mut self,
        call: &str,
        answer: Result<String, Trouble>,
        wanted: &str,
    ) -> Result<(), Trouble> {
        let noted = match answer {
            Ok(answer) => self.compare(call, answer.as_str(), wanted),
            Err(trouble) => return Err(trouble),
        };
        Ok(noted?)
    }

    /// As [`compare_bytes`](Findings::compare_bytes), of bytes that were just made, or refused.
    pub fn check_bytes(
        &mut self,
        call: &str,
        answer: Result<Vec<u8>, Trouble>,
        wanted: &[u8],
    ) -> Result<(), Trouble> {
        let noted = match answer {
            Ok(bytes) => self.compare_bytes(call, &bytes, wanted),
            Err(Trouble::Refused) => self.add(call, "refused"),
            Err(trouble) => return Err(trouble),
        };
        Ok(noted?)
    }

    /// As [`compare_bytes`](Findings::compare_bytes), of so many bytes at the start of a buffer that a call has just
    /// filled, or refused to. A trouble is noted.
    pub fn see_front(
        &mut self,
        call: &str,
        count: Result<usize, Trouble>,
        room: &[u8],
        wanted: &[u8],
    ) {
        let noted = match count {
            Ok(count) => self.compare_bytes(call, room.get(..count).unwrap_or(room), wanted),
            Err(Trouble::Refused) => self.add(call, "refused"),
            Err(trouble) => return self.give_up(trouble),
        };
        self.keep(noted);
    }

    /// As [`see_front`](Findings::see_front), of bytes that were just made, or refused.
    pub fn see_bytes(&mut self, call: &str, answer: Result<Vec<u8>, Trouble>, wanted: &[u8]) {
        match answer {
            Ok(bytes) => self.see_front(call, Ok(bytes.len()), &bytes, wanted),
            Err(trouble) => self.see_front(call, Err(trouble), &[], wanted),
        }
    }

    /// As [`compare`](Findings::compare), of a result in the line's words that was just made. A trouble is noted.
    pub fn see(&mut self, call: &str, answer: Result<String, AllocError>, wanted: &str) {
        let noted = match answer {
            Ok(answer) => self.compare(call, answer.as_str(), wanted),
            Err(error) => Err(error),
        };
        self.keep(noted);
    }

    /// Notes that memory ran out, if something couldn't be noted or made for that reason.
    pub fn keep(&mut self, noted: Result<(), AllocError>) {
        if noted.is_err() {
            self.give_up(Trouble::NoMemory);
        }
    }

    /// Notes why the line isn't replayed to its end. What was noted first stays.
    pub fn give_up(&mut self, trouble: Trouble) {
        if self.trouble.is_none() {
            self.trouble = Some(trouble);
        }
    }

    /// What was noted of why the line isn't replayed to its end, or else how it ended.
    pub(crate) fn end(&self, answer: Result<(), Trouble>) -> Result<(), Trouble> {
        match self.trouble {
            Some(trouble) => Err(trouble),
            None => answer,
        }
    }
}
