//! Checking a log, and repairing one.
ghost use Rattle.std.specs.Prelude.{◌≡◌, ◌↔◌, ◌<◌, ◌==◌, ◌&&◌, ℕ, is_some, true, false, None, List, [], ◌∷◌, IfOk, IfSome, OnOk, OnErr};
ghost use Rattle.journal_scan.specs.Repairs.{IsRepaired};
ghost use Rattle.journal_scan.specs.Scanning.{told_with_zero};
ghost use Rattle.journal_scan.specs.Tallies.{IsTally, AreMissing};
ghost use Rattle.journal_scan.specs.declared.repairing.Repaired.{Repaired};
ghost use Rattle.records.specs.Checking.{HasKeptStretches, keeps_laws, sealed_number, fault_word, greater_number, does_print, has_only_sealed, greatest_told, is_sealed_record, AreEachOnce, IsSoundLog, HasOneReading};
ghost use Rattle.records.specs.Statuses.{IsFaultStatus, check_status};

use crate::entries::{
    Entry, INPUT, MOST, OUTPUT, open_file, read_input, say_failed, say_no_memory, status_of,
};
use help::{Progress, wants_colour};
use journal::Halt;
use journal::stores::{MemoryStore, Store, Stored};
use journal_scan::{CheckError, Judge, RepairError, Report, Stretch, Tally, Watcher};
use line_io::{Writes, write_all};
use link::Answer;
use postcard_tree::Readable;
use sealed::Sealed;
use std::io;

// The number of a record that counts.
fn number_of(answer: &Answer<(u64, Entry)>) -> Option<u64>
    ensures { result ≡ sealed_number answer.now }
{
    match answer {
        Answer::Value((number, Sealed((sealed, _)))) if *number == *sealed => Some(*number),
        _ => None,
    }
}

// Why a stretch isn't a record that counts, if it isn't.
fn held_against(answer: &Answer<(u64, Entry)>, again: bool) -> Option<&'static str>
    ensures good { result ≡ None ↔ ((is_some (sealed_number answer.now) ≡ true)
        × (again ≡ false)) }
    ensures word { IfSome result (λ what. what.now ≡ fault_word answer.now) }
{
    match answer {
        _ if number_of(answer).is_some() => again.then_some("a number again"),
        Answer::TooLong => Some("too long"),
        _ => Some("damaged"),
    }
}

// The greater of two numbers, or the only one.
fn greater(one: Option<u64>, other: Option<u64>) -> Option<u64>
    ensures { result ≡ greater_number one other }
{
    match (one, other) {
        (Some(one), Some(other)) => Some(one.max(other)),
        (Some(one), None) => Some(one),
        (None, other) => other,
    }
}

// How a line of damage begins and ends: in red, or as it is.
#[derive(Clone, Copy, Drop)]
struct Colour {
    on: &'static str,
    off: &'static str,
}

impl Colour {
    fn new(rt: &HostRuntime) -> Colour {
        if wants_colour(rt) {
            Colour {
                on: "\x1b[31m",
                off: "\x1b[0m",
            }
        } else {
            Colour { on: "", off: "" }
        }
    }
}

fn print_stretch(
    rt: &HostRuntime,
    colour: Colour,
    from: u64,
    to: u64,
    what: &str,
) -> Result<(), Halt> {
    let Colour { on, off } = colour;
    match println!(rt; "{on}bytes {from}..{to}: {what}{off}") {
        Ok(()) => Ok(()),
        Err(_) => Err(Halt),
    }
}

// Where damage is printed.
#[derive(Drop)]
struct Printing<'a> {
    rt: &'a HostRuntime,
    colour: Colour,
    progress: Progress,
    // where the last stretch ended
    at: u64,
}

/// Prints the damage of a log as it is reported, or nothing; and keeps whether each stretch was a record with the sealed number, and
/// the greatest number that counts. Which numbers come again or are missing, the tally of the check says.
#[derive(Drop)]
pub struct Printer<'a> {
    to: Option<Printing<'a>>,
    only_sealed: bool,
    greatest: Option<u64>,
}

impl<'a> Printer<'a> {
    /// Prints to standard output, and shows the progress.
    fn new(rt: &'a HostRuntime) -> Printer<'a>
        ensures prints { does_print result ≡ true }
        ensures sealed { has_only_sealed result ≡ true }
        ensures greatest { greatest_told result ≡ None }
    {
        Printer {
            to: Some(Printing {
                rt,
                colour: Colour::new(rt),
                progress: Progress::new(rt),
                at: 0,
            }),
            only_sealed: true,
            greatest: None,
        }
    }

    /// Prints nothing.
    pub fn silent() -> Printer<'a>
        ensures prints { does_print result ≡ false }
        ensures sealed { has_only_sealed result ≡ true }
        ensures greatest { greatest_told result ≡ None }
    {
        Printer {
            to: None,
            only_sealed: true,
            greatest: None,
        }
    }

    // Takes the progress away.
    fn end(&mut self)
        ensures sealed { has_only_sealed self.new ≡ has_only_sealed self.old }
        ensures greatest { greatest_told self.new ≡ greatest_told self.old }
    {
        if let Some(to) = &mut self.to {
            to.progress.end(to.rt);
        }
    }

    // Shows how far the check is: it is at the end of a stretch.
    fn step(&mut self, at: u64)
        ensures prints { does_print self.new ≡ does_print self.old }
        ensures sealed { has_only_sealed self.new ≡ has_only_sealed self.old }
        ensures greatest { greatest_told self.new ≡ greatest_told self.old }
    {
        if let Some(to) = &mut self.to {
            to.progress.step(to.rt, at.saturating_sub(to.at));
            to.at = at;
        }
    }

    // Keeps what is known of a stretch, and returns what is held against it, if anything is.
    fn keep(&mut self, answer: &Answer<(u64, Entry)>, again: bool) -> Option<&'static str>
        ensures prints { does_print self.new ≡ does_print self.old }
        ensures greatest { greatest_told self.new
            ≡ greater_number (greatest_told self.old) (sealed_number answer.now) }
        ensures sealed { has_only_sealed self.new
            ≡ (has_only_sealed self.old && is_some (sealed_number answer.now)) }
        ensures good { result ≡ None ↔ ((is_some (sealed_number answer.now) ≡ true)
            × (again ≡ false)) }
        ensures word { IfSome result (λ what. what.now ≡ fault_word answer.now) }
    {
        let number = number_of(answer);
        self.only_sealed = self.only_sealed && number.is_some();
        self.greatest = greater(self.greatest, number);
        held_against(answer, again)
    }
}

impl Judge<Entry> for Printer<'_> {
    ghost counted = { λ n v. n == v.0.0 };

    fn counts(&self, number: u64, value: &Entry) -> bool {
        let Sealed((sealed, _)) = value;
        number == *sealed
    }
}

impl Watcher<Entry> for Printer<'_> {
    ghost told = { HasKeptStretches };

    // if a line can't be printed
    ghost halts = { λ p. does_print p ≡ true };

    ghost laws = { keeps_laws };

    fn tell(&mut self, stretch: Stretch<Entry>, again: bool) -> Result<(), Halt>
        ensures told { OnOk result (HasKeptStretches self.old (stretch ∷ []) self.new) }
        ensures halts { OnErr result (does_print self.old ≡ true) }
        ensures sealed { has_only_sealed self.new
            ≡ (has_only_sealed self.old && is_sealed_record stretch) }
    {
        self.step(stretch.to);
        let Some(what) = self.keep(&stretch.answer, again) else {
            return Ok(());
        };
        match &self.to {
            Some(to) => print_stretch(to.rt, to.colour, stretch.from, stretch.to, what),
            None => Ok(()),
        }
    }
}

// Writes why a check stopped before the end of the log, and returns the status.
fn status_at(rt: &HostRuntime, log: &str, e: CheckError) -> u8
    ensures { result ≡ check_status e }
{
    match e {
        CheckError::Read(e) => status_of(rt, log, e),
        CheckError::Halted => say_failed(rt, OUTPUT, &"write failed"),
    }
}

fn print_missing(rt: &HostRuntime, colour: Colour, tally: &Tally) -> io::Result<()> {
    let Colour { on, off } = colour;
    for (first, last) in tally.missing() {
        println!(rt; "{on}records {first}..{last}: missing{off}")?;
    }
    Ok(())
}

fn print_counted(rt: &HostRuntime, records: u64, greatest: Option<u64>) -> io::Result<()> {
    match greatest {
        Some(greatest) => println!(rt; "{records} records, 0..{greatest}"),
        None => println!(rt; "no records"),
    }
}

// Whether no number is missing.
fn misses_none(tally: &Tally) -> bool
    ensures { (numbers : List ℕ) → IsTally numbers tally.now
        → (result ≡ true) ↔ AreMissing numbers [] }
{
    match tally.missing().next() {
        Some(_) => false,
        None => true,
    }
}

// Whether each number was counted once, up to the greatest.
fn counts_each_once(tally: &Tally) -> bool
    ensures { (numbers : List ℕ) → IsTally numbers tally.now
        → (result ≡ true) ↔ AreEachOnce numbers }
{
    misses_none(tally) && tally.counted() == tally.next()
}

// Whether nothing is wrong with a log, all of whose stretches but the unfinished one may be records with the sealed numbers.
fn is_sound(report: &Report<Entry>, only_sealed: bool) -> bool
    ensures { (numbers : List ℕ) → IsTally numbers report.now.tally → (result ≡ true)
        ↔ ((only_sealed ≡ true) × (report.now.unfinished ≡ None) × AreEachOnce numbers) }
{
    match &report.unfinished {
        Some(_) => false,
        None => only_sealed && counts_each_once(&report.tally),
    }
}

// Prints the damage of the log as a whole, and how many records it has. Returns the status.
fn sum_up(
    rt: &HostRuntime,
    report: &Report<Entry>,
    only_sealed: bool,
    greatest: Option<u64>,
) -> io::Result<u8>
    ensures sound { IfOk result (λ status. (numbers : List ℕ) → IsTally numbers report.now.tally
        → (status ≡ 0) ↔ ((only_sealed ≡ true) × (report.now.unfinished ≡ None)
        × AreEachOnce numbers)) }
    ensures status { IfOk result (λ status. status < 2) }
{
    let colour = Colour::new(rt);
    if let Some(last) = &report.unfinished {
        let from = last.from;
        let Colour { on, off } = colour;
        println!(rt; "{on}bytes {from}..: cut{off}")?;
    }
    print_missing(rt, colour, &report.tally)?;
    print_counted(rt, report.tally.counted(), greatest)?;
    if is_sound(report, only_sealed) {
        Ok(0)
    } else {
        Ok(1)
    }
}

// A log is read in one way. Does nothing: the contract is for the proof of `check_in`.
fn one_reading()
    ensures { HasOneReading ⟦<Entry as Readable>⟧.form MOST }
{
    cobs::laws::message_of_a_frame();
    cobs::laws::frames_of_a_message();
    postcard_tree::laws::short_is_a_spelling();
}

// Checks the log of a store, and prints what is wrong with it. Returns the status.
fn check_in<S: Store>(rt: &HostRuntime, log: &str, store: &mut S) -> io::Result<u8>
    ensures sound { IfOk result (λ status. status < 2 → IfSome (S.line store.old).told
        (λ bytes. (status ≡ 0) ↔ IsSoundLog ⟦<Entry as Readable>⟧.form MOST bytes)) }
    ensures failed { IfOk result (λ status. 1 < status → IsFaultStatus status) }
    ensures quiet { IfOk result
        (λ status. status < 2 → (S.line store.new).faults ≡ (S.line store.old).faults) }
    ensures held { (S.line store.new).told ≡ (S.line store.old).told }
{
    one_reading();
    let mut printer = Printer::new(rt);
    let checked = journal_scan::check::<Entry, S, Printer<'_>>(
        rt.alloc(),
        MOST,
        store,
        &mut printer,
    );
    printer.end();
    match checked {
        Ok(report) => sum_up(rt, &report, printer.only_sealed, printer.greatest),
        Err(e) => Ok(status_at(rt, log, e)),
    }
}

/// Prints the damage of a log, the missing numbers and the count of records. Returns the status.
pub fn check(rt: &HostRuntime, path: Option<&str>) -> io::Result<u8>
    ensures { IfOk result (λ status. 1 < status → IsFaultStatus status) }
{
    match path {
        Some(path) => match open_file(rt, path, false) {
            Ok(file) => check_in(rt, path, &mut Stored::new(file)),
            Err(status) => Ok(status),
        },
        None => match read_input(rt) {
            Ok(mut store) => check_in(rt, INPUT, &mut store),
            Err(status) => Ok(status),
        },
    }
}

// Repairs a log into an empty one, and prints that.
fn mend_to(rt: &HostRuntime, from: &mut MemoryStore, to: &mut MemoryStore) -> io::Result<u8>
    ensures repaired { IfOk result (λ status. status ≡ 0 → (r : Repaired)
        × IsRepaired ⟦<Entry as Readable>⟧.form MOST
        (told_with_zero (⟦<MemoryStore as Store>⟧.line from.old).told)
        (⟦<MemoryStore as Store>⟧.line to.old) (⟦<MemoryStore as Store>⟧.line to.new) r) }
    ensures failed { IfOk result (λ status. 0 < status → IsFaultStatus status) }
{
    match journal_scan::repair::<Entry, MemoryStore, MemoryStore>(rt.alloc(), MOST, from, to) {
        Ok(repaired) => {
            if write_all(&mut Writes::new(rt.stdout()), to.bytes()).is_err() {
                return Ok(say_failed(rt, OUTPUT, &"write failed"));
            }
            let count = repaired.records;
            eprintln!(rt; "{count} records")?;
            Ok(0)
        }
        Err(RepairError::Read(e)) => Ok(status_of(rt, INPUT, e)),
        // an append to memory fails only if an allocation does
        Err(_) => Ok(say_no_memory(rt, INPUT)),
    }
}

/// Repairs the log on standard input to standard output. Writes nothing unless all of it was read. Returns the status.
pub fn mend(rt: &HostRuntime) -> io::Result<u8>
    ensures { IfOk result (λ status. 0 < status → IsFaultStatus status) }
{
    match read_input(rt) {
        Ok(mut from) => mend_to(rt, &mut from, &mut MemoryStore::new(Vec::new(rt.alloc()))),
        Err(status) => Ok(status),
    }
}
