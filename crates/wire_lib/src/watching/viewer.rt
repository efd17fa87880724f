//! A stream of frames as a table of what came, and each result as a line.
ghost use Rattle.std.specs.Prelude.{◌≡◌, ℕ, ◌-◌, ◌<◌, ◌≤◌, Bool, false, List, [], ◌++◌, length, take, string_bytes, IfOk, OnOk, OnErr};
ghost use Rattle.link.specs.Decoding.{in_owner};
ghost use Rattle.link.specs.Receivers.{IsBehind};
ghost use Rattle.link.specs.Pushes.{Answered};
ghost use Rattle.link.specs.declared.receiver.Answer.{Answer as Answers};
ghost use Rattle.schema_table.specs.declared.value.Value.{Value as Values};
ghost use Rattle.wire_lib.specs.Damages.{IsDamageWord, KeepsEnd};
ghost use Rattle.wire_lib.specs.Fronts.{dots_after, damage_said};
ghost use Rattle.wire_lib.specs.Kinds.{kinds_of};
ghost use Rattle.wire_lib.specs.Printable.{shown_line};
ghost use Rattle.wire_lib.specs.Said.{OnlyAppended};
ghost use Rattle.wire_lib.specs.Tables.{StaysAs, row_names};
ghost use Rattle.wire_lib.specs.Received.{held_by, read_by, are_all_values};
ghost use Rattle.wire_lib.specs.Rates.{CountsOneMore};
ghost use Rattle.wire_lib.specs.Seen.{HasSeen, HasLost, HasWatched, HasMissed, StandsAfter, TakesEach, CountsThese, CountsToo, CountsMessage, KeepsDamage, KeepsText, NotesMessage, NotesResult, NotesEach, StandsStill, reading_of, names_of, missed_none, added_by_end};
ghost use Rattle.wire_lib.specs.Watched.{AddsText, IsMessageText, SeesEach, SeesEnd, kind_name, message_said};

use crate::receive::{LIMIT, Reading, push_next};
use crate::watching::front::{Front, keep_front};
use crate::watching::kinds::{kind_of, rows_of, text_of};
use crate::watching::printable::printable;
use crate::watching::table::{Row, Table};
use link::{Answer, NoMemory, OwnedReceiver, Pushed};
use schemas::Value;
use std::alloc::{AllocError, Global};
use std::cell::Cell;

/// Reads a stream of frames, in chunks, and keeps a table of what came: a row for each kind of message, and the last damages.
///
/// It keeps for each kind 1024 bytes of text and a few numbers, three damages, and a partial frame of at most [`LIMIT`] bytes.
///
/// # Example
/// ```rust
/// let mut viewer = Viewer::new(reading)?;
/// viewer.push(&SUMMED, 0, &mut lines)?;
/// viewer.push(&SPOILT, 0, &mut lines)?;
/// let is_good = viewer.finish(&mut lines)?;
/// let shown = picture(alloc, &viewer.table, view)?;
/// ```
#[derive(Drop)]
pub struct Viewer<'a> {
    reading: Reading<'a>,
    receiver: OwnedReceiver,
    is_deep: Cell<bool>,
    /// The first bytes of the partial frame.
    front: Front,
    /// How many bytes came.
    at: u64,
    /// Whether no result was lost for want of memory.
    is_whole: bool,
    /// The counts, the last messages and the last damages.
    pub table: Table,
}

impl<'a> Viewer<'a> {
    /// Returns a viewer at the beginning of a stream.
    ///
    /// # Errors
    /// Out of memory.
    ///
    /// # Allocates
    /// A buffer of [`LIMIT`] bytes, and a row for each kind.
    pub fn new(reading: Reading<'a>) -> Result<Viewer<'a>, AllocError>
        ensures seen { IfOk result (λ v. HasSeen v [] []) }
        ensures reading { IfOk result (λ v. reading_of v ≡ reading.entry) }
        ensures kinds { IfOk result (λ v. row_names v.table.rows.items
            ≡ kinds_of reading.entry.schema.now reading.entry.place) }
        ensures damages { IfOk result (λ v. v.table.damages.items ≡ []) }
    {
        let alloc = reading.alloc;
        match OwnedReceiver::new(alloc, LIMIT, reading.sentinel) {
            Ok(receiver) => Ok(Viewer {
                reading,
                receiver,
                is_deep: Cell::new(false),
                front: Front::new(),
                at: 0,
                is_whole: true,
                table: Table {
                    rows: rows_of(alloc, reading.schema, reading.place)?,
                    damaged: 0,
                    damages: Vec::new(alloc),
                },
            }),
            Err(NoMemory) => Err(AllocError),
        }
    }

    /// Counts a message, and appends its line.
    fn hear_value(
        &mut self,
        value: &Value,
        window: u64,
        lines: &mut Vec<u8>,
    ) -> Result<(), AllocError>
        ensures counted { OnOk result (CountsMessage value.now self.old.table self.new.table) }
        ensures noted { OnOk result (NotesMessage (reading_of self.old) window value.now
            self.old.table.rows.items self.new.table.rows.items) }
        ensures line { OnOk result ((text : List ℕ)
            × IsMessageText (reading_of self.old) (names_of self.old) value.now text
            × (lines.new.items ≡ lines.old.items ++ shown_line text)) }
        ensures kinds { row_names self.new.table.rows.items ≡ row_names self.old.table.rows.items }
        ensures damages { self.new.table.damages ≡ self.old.table.damages }
        ensures uncounted { OnErr result (StaysAs self.old.table self.new.table) }
        ensures unchanged { OnErr result (lines.new.items ≡ lines.old.items) }
        ensures same { StandsStill self.old self.new }
    {
        let alloc = self.reading.alloc;
        let kind = kind_of(value);
        let text = text_of(self.reading, value)?;
        put_message(alloc, lines, name_of(&self.table.rows, kind), text.as_str())?;
        self.table.note(kind, text, window);
        Ok(())
    }

    /// Counts a damage, the last `stretch` bytes before the newest one, and appends its line.
    fn hear_damage(
        &mut self,
        what: &str,
        stretch: usize,
        lines: &mut Vec<u8>,
    ) -> Result<(), AllocError>
        ensures damaged { OnOk result
            (CountsOneMore self.old.table.damaged self.new.table.damaged) }
        ensures kept { OnOk result (length self.old.table.damages.items ≤ 3 → KeepsDamage what.now
            (self.old.at - 1 - stretch) stretch self.old.front.items self.old.table
            self.new.table) }
        ensures rows { self.new.table.rows ≡ self.old.table.rows }
        ensures line { OnOk result (lines.new.items ≡ lines.old.items ++ shown_line
            (damage_said what.now (self.old.at - 1 - stretch) stretch self.old.front.items)) }
        ensures uncounted { OnErr result (StaysAs self.old.table self.new.table) }
        ensures unchanged { OnErr result (lines.new.items ≡ lines.old.items) }
        ensures same { StandsStill self.old self.new }
    {
        let alloc = self.reading.alloc;
        let from = self.at.saturating_sub(1).saturating_sub(stretch as u64);
        let told = damage_text(alloc, what, from, stretch, self.front.as_slice())?;
        let line = line_of(alloc, told.as_str())?;
        lines.reserve(line.len())?;
        self.table.note_damage(told)?;
        lines.extend_from_slice(&line)
    }

    /// Counts a result, whose stretch is the last `stretch` bytes before the newest one, and appends its line.
    fn hear(
        &mut self,
        answer: &Answer<Value>,
        stretch: usize,
        window: u64,
        lines: &mut Vec<u8>,
    ) -> Result<(), AllocError>
        ensures counted { OnOk result (CountsToo answer.now self.old.table self.new.table) }
        ensures noted { OnOk result (NotesResult (reading_of self.old) window answer.now
            self.old.table.rows.items self.new.table.rows.items) }
        ensures kept { OnOk result (length self.old.table.damages.items ≤ 3 → KeepsText answer.now
            (self.old.at - 1 - stretch) stretch self.old.front.items self.old.table
            self.new.table) }
        ensures line { OnOk result (AddsText (reading_of self.old) (names_of self.old)
            (λ what. damage_said what (self.old.at - 1 - stretch) stretch self.old.front.items)
            answer.now lines.old.items lines.new.items) }
        ensures kinds { row_names self.new.table.rows.items ≡ row_names self.old.table.rows.items }
        ensures uncounted { OnErr result (StaysAs self.old.table self.new.table) }
        ensures unchanged { OnErr result (lines.new.items ≡ lines.old.items) }
        ensures same { StandsStill self.old self.new }
    {
        match answer {
            Answer::Value(value) => self.hear_value(value, window, lines),
            Answer::Damaged => {
                let what = damaged_word(self.is_deep.replace(false));
                self.hear_damage(what, stretch, lines)
            }
            Answer::TooLong => self.hear_damage("too long", stretch, lines),
            Answer::Cut => self.hear_damage("cut", stretch, lines),
        }
    }

    /// Processes bytes up to the first result, counts it and appends its line, and returns how many were processed.
    fn push_one(
        &mut self,
        rest: &[u8],
        window: u64,
        lines: &mut Vec<u8>,
    ) -> Result<usize, AllocError>
        requires { 0 < length rest.now }
        ensures watched { IfOk result (λ used. (stream : List ℕ) (answers : List (Answers Values))
            → HasWatched self.old stream answers → (more : List (Answers Values))
            × HasWatched self.new (stream ++ take used rest.now) (answers ++ more)
            × TakesEach (reading_of self.old) (stream ++ take used rest.now) answers more
            self.old.table self.new.table
            × NotesEach (reading_of self.old) window more self.old.table.rows.items
            self.new.table.rows.items
            × SeesEach (reading_of self.old) (names_of self.old) (stream ++ rest.now) answers more
            lines.old.items lines.new.items) }
        ensures stopped { OnErr result ((stream : List ℕ) (answers : List (Answers Values))
            → HasWatched self.old stream answers → HasMissed self.new stream rest.now answers) }
        ensures uncounted { OnErr result (StaysAs self.old.table self.new.table) }
        ensures unchanged { OnErr result (lines.new.items ≡ lines.old.items) }
        ensures whole { IfOk result (λ used. missed_none self.new ≡ missed_none self.old) }
        ensures lost { OnErr result (missed_none self.new ≡ false) }
        ensures reading { reading_of self.new ≡ reading_of self.old }
        ensures kinds { row_names self.new.table.rows.items ≡ row_names self.old.table.rows.items }
        ensures only { OnlyAppended lines.old.items lines.new.items }
        ensures within { IfOk result (λ used. used ≤ length rest.now) }
        ensures forward { IfOk result (λ used. 0 < used) }
    {
        let sentinel = self.reading.sentinel;
        let Pushed {
            used,
            stretch,
            answer,
        } = push_next(self.reading, &self.is_deep, &mut self.receiver, rest);
        self.at = self.at.saturating_add(used as u64);
        let (taken, _) = rest.split_at(used);
        let (before, last) = taken.split_at(used - 1);
        keep_front(&mut self.front, sentinel, before);
        match answer {
            Ok(None) => {
                keep_front(&mut self.front, sentinel, last);
                Ok(used)
            }
            Ok(Some(answer)) => {
                let is_whole = self.is_whole;
                self.is_whole = false;
                let heard = self.hear(&answer, stretch, window, lines);
                keep_front(&mut self.front, sentinel, last);
                heard?;
                self.is_whole = is_whole;
                Ok(used)
            }
            Err(NoMemory) => {
                keep_front(&mut self.front, sentinel, last);
                self.is_whole = false;
                Err(AllocError)
            }
        }
    }

    /// Processes the next bytes of the stream, which came in this window of time: counts each result that they complete, and appends a
    /// line for it. Chunk boundaries don't matter.
    ///
    /// # Errors
    /// Out of memory: the results before the one for which there was none are counted and have their lines, that one isn't and has no
    /// part of one. The next call continues after it: that result is lost, with the rest of the chunk.
    ///
    /// # Allocates
    /// What `lines` and the table grow by. A value at a time is freed.
    pub fn push(&mut self, piece: &[u8], window: u64, lines: &mut Vec<u8>) -> Result<(), AllocError>
        ensures seen { OnOk result ((stream : List ℕ) (answers : List (Answers Values))
            → HasSeen self.old stream answers → (more : List (Answers Values))
            × HasSeen self.new (stream ++ piece.now) (answers ++ more)
            × SeesEach (reading_of self.old) (names_of self.old) (stream ++ piece.now) answers more
            lines.old.items lines.new.items) }
        ensures lost { OnErr result ((stream : List ℕ) (answers : List (Answers Values))
            → HasSeen self.old stream answers → (done rest : List ℕ) × (piece.now ≡ done ++ rest)
            × (more : List (Answers Values))
            × HasLost self.new (stream ++ done) rest (answers ++ more)
            × SeesEach (reading_of self.old) (names_of self.old) (stream ++ piece.now) answers more
            lines.old.items lines.new.items) }
        ensures watched { OnOk result ((stream : List ℕ) (answers : List (Answers Values))
            → HasWatched self.old stream answers → (more : List (Answers Values))
            × HasWatched self.new (stream ++ piece.now) (answers ++ more)
            × TakesEach (reading_of self.old) (stream ++ piece.now) answers more
            self.old.table self.new.table
            × NotesEach (reading_of self.old) window more self.old.table.rows.items
            self.new.table.rows.items
            × SeesEach (reading_of self.old) (names_of self.old) (stream ++ piece.now) answers more
            lines.old.items lines.new.items) }
        ensures stopped { OnErr result ((stream : List ℕ) (answers : List (Answers Values))
            → HasWatched self.old stream answers → (done rest : List ℕ)
            × (piece.now ≡ done ++ rest) × (more : List (Answers Values))
            × HasMissed self.new (stream ++ done) rest (answers ++ more)
            × TakesEach (reading_of self.old) (stream ++ done) answers more
            self.old.table self.new.table
            × NotesEach (reading_of self.old) window more self.old.table.rows.items
            self.new.table.rows.items
            × SeesEach (reading_of self.old) (names_of self.old) (stream ++ piece.now) answers more
            lines.old.items lines.new.items) }
        ensures reading { reading_of self.new ≡ reading_of self.old }
        ensures kinds { row_names self.new.table.rows.items ≡ row_names self.old.table.rows.items }
        ensures missed { missed_none self.old ≡ false → missed_none self.new ≡ false }
        ensures only { OnlyAppended lines.old.items lines.new.items }
    {
        let mut rest = piece;
        while !rest.is_empty() {
            let used = self.push_one(rest, window, lines)?;
            let (_, left) = rest.split_at(used);
            rest = left;
        }
        Ok(())
    }

    /// Ends the stream: counts a partial frame as damage and appends its line, and returns whether all results were messages; `false`
    /// if one was lost, out of memory.
    ///
    /// # Errors
    /// Out of memory; the table and `lines` are unchanged.
    ///
    /// # Allocates
    /// What `lines` and the table grow by.
    pub fn finish(&mut self, lines: &mut Vec<u8>) -> Result<bool, AllocError>
        ensures counted { OnOk result ((stream : List ℕ) → StandsAfter self.old stream
            → CountsThese (added_by_end self.old stream) self.old.table self.new.table) }
        ensures good { IfOk result (λ good. (stream : List ℕ) (answers : List (Answers Values))
            → HasSeen self.old stream answers
            → good ≡ are_all_values (answers ++ added_by_end self.old stream)) }
        ensures missed { missed_none self.old ≡ false → IfOk result (λ good. good ≡ false) }
        ensures kept { OnOk result ((stream : List ℕ) → StandsAfter self.old stream
            → KeepsEnd (reading_of self.old).sentinel stream (added_by_end self.old stream)
            self.old.table self.new.table) }
        ensures line { OnOk result ((stream : List ℕ) → StandsAfter self.old stream
            → SeesEnd (reading_of self.old).sentinel stream (added_by_end self.old stream)
            lines.old.items lines.new.items) }
        ensures uncounted { OnErr result (StaysAs self.old.table self.new.table) }
        ensures unchanged { OnErr result (lines.new.items ≡ lines.old.items) }
        ensures rows { self.new.table.rows ≡ self.old.table.rows }
        ensures only { OnlyAppended lines.old.items lines.new.items }
    {
        let begun = self.receiver.begun_bytes();
        if begun == 0 {
            return Ok(self.is_whole & (self.table.damaged == 0));
        }
        self.at = self.at.saturating_add(1);
        self.hear_damage("cut", begun, lines)?;
        Ok(false)
    }
}

/// The name of a row; empty if there is no such row.
fn name_of(rows: &[Row], kind: usize) -> &str
    ensures { result.now ≡ kind_name (row_names rows.now) kind }
{
    match rows.get(kind) {
        Some(row) => row.name.as_str(),
        None => "",
    }
}

/// The word for a stretch that isn't a value of the type.
fn damaged_word(is_deep: bool) -> &'static str
    ensures { IsDamageWord Answer.Damaged result.now }
{
    if is_deep { "too deep" } else { "damaged" }
}

/// Two dots if there are more than these bytes, else nothing.
fn dots(count: usize, front: &[u8]) -> &'static str
    ensures { result.now ≡ dots_after count front.now }
{
    if front.len() < count { ".." } else { "" }
}

/// The text of a damage: what it is, the position of its first byte, its length, and its first bytes in hexadecimal; `..` if there
/// are more.
fn damage_text(
    alloc: Global,
    what: &str,
    from: u64,
    count: usize,
    front: &[u8],
) -> Result<String, AllocError>
    ensures { IfOk result (λ text. string_bytes text ≡ damage_said what.now from count front.now) }
{
    let digits = hex::encode(alloc, front)?;
    let mut text = format!(in alloc; "{what} at {from}, {count} bytes: ")?;
    text.push_str(digits.as_str())?;
    text.push_str(dots(count, front))?;
    Ok(text)
}

/// A text as a printable line, with its line feed.
fn line_of(alloc: Global, text: &str) -> Result<Vec<u8>, AllocError>
    ensures { IfOk result (λ line. line.items ≡ shown_line text.now) }
{
    let mut line = printable(alloc, text, usize::MAX)?;
    line.push(b'\n')?;
    Ok(line)
}

/// Appends the line of a message, by the name of its kind and the text beside it.
fn put_message(alloc: Global, lines: &mut Vec<u8>, name: &str, text: &str) -> Result<(), AllocError>
    ensures line { OnOk result
        (lines.new.items ≡ lines.old.items ++ shown_line (message_said name.now text.now)) }
    ensures unchanged { OnErr result (lines.new.items ≡ lines.old.items) }
{
    let said = message_text(alloc, name, text)?;
    let line = line_of(alloc, said.as_str())?;
    lines.extend_from_slice(&line)
}

/// What a message's line says: the name of its kind, and after a blank the text beside it.
fn message_text(alloc: Global, name: &str, text: &str) -> Result<String, AllocError>
    ensures { IfOk result (λ said. string_bytes said ≡ message_said name.now text.now) }
{
    if text.is_empty() {
        return String::from_str(alloc, name);
    }
    format!(in alloc; "{name} {text}")
}
