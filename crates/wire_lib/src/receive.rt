//! A stream of frames as lines of JSON.
ghost use Rattle.std.specs.Prelude.{◌≡◌, ℕ, ◌<◌, ◌≤◌, ◌-◌, List, [], ◌++◌, length, take, drop, ◌&&◌, true, IfOk, OnOk, OnErr};
ghost use Rattle.link.specs.Decoding.{in_owner};
ghost use Rattle.link.specs.Receivers.{IsBehind, SameTerms};
ghost use Rattle.link.specs.Pushes.{Answered, IsStretchOf};
ghost use Rattle.link.specs.declared.receiver.Answer.{Answer as Answers};
ghost use Rattle.schema_table.specs.declared.value.Value.{Value as Values};
ghost use Rattle.wire_lib.specs.Said.{OnlyAppended, IsTextFor, value_line, stretch_line, known_to, end_said, SaysLine};
ghost use Rattle.wire_lib.specs.Received.{HasCome, HasGot, HasStopped, good_so_far, held_by, read_by, reading_of, skip_of, is_a_value, are_all_values, added_at_end, TellsEach, TellsEnd};

use crate::table::TableReader;
use cobs::before_sentinel;
use json::Writer;
use link::{Answer, NoMemory, Ordinary, OwnedReceiver, Pushed, Strict};
use schema_table::Schema;
use schemas::Value;
use std::alloc::{AllocError, Global};
use std::cell::Cell;
use std::mem;
use wire_print::print::{Look, print_into};

/// The most bytes between two sentinels; more are too long.
pub const LIMIT: usize = 65536;

/// How frames are read and their values printed: the type, the limits, the delimiter.
#[derive(Clone, Copy, Drop)]
pub struct Reading<'a> {
    /// The allocator.
    pub alloc: Global,
    /// The table of types.
    pub schema: &'a Schema,
    /// The index of the messages' type in the table.
    pub place: usize,
    /// Whether bytes are printed as hexadecimal text, else as an array of numbers.
    pub hex: bool,
    /// Whether only the frame that sending the value makes is accepted.
    pub strict: bool,
    /// The limit of nested nodes of a value.
    pub depth: u32,
    /// The sentinel: the delimiter before and after each frame, with which the frame's bytes are XORed.
    pub sentinel: u8,
    /// Whether a message is a value only if its last four bytes are the CRC-32 of the others; see
    /// [`add_summed`](crate::summed::add_summed).
    pub summed: bool,
}

/// Reads a stream of frames, in chunks, and appends one line of JSON for each result.
///
/// | Line | The bytes between two sentinels |
/// |---|---|
/// | `{"value": ..}` | are a value of the type |
/// | `{"damaged": {"from": .., "to": ..}}` | aren't |
/// | `{"too_deep": ..}` | are one with more nested nodes than allowed |
/// | `{"too_long": ..}` | exceed [`LIMIT`]; reported once, in the chunk in which they do |
/// | `{"cut": ..}` | haven't ended when the stream ends |
///
/// `from` and `to` count the bytes of the stream from 0; `to` is exclusive.
///
/// # Example
/// ```rust
/// let mut lines = Vec::new(alloc);
/// let mut receiver = LinesOfFrames::new(reading, 0)?;
/// receiver.push(&SUMMED, &mut lines)?;
/// receiver.push(&SPOILT, &mut lines)?;
/// let is_good = receiver.finish(&mut lines)?;
/// ```
#[derive(Drop)]
pub struct LinesOfFrames<'a> {
    reading: Reading<'a>,
    // its buffer has as many bytes as the limit; positions follow from the bytes that a push used, and its `stretch`
    receiver: OwnedReceiver,
    /// Whether the last message that was refused is only nested too deeply.
    is_deep: Cell<bool>,
    /// How many more bytes are skipped.
    skip: u64,
    /// How many bytes of the stream came, with those that are skipped.
    at: u64,
    /// Whether all results were values, and none was lost.
    is_good: bool,
    /// A buffer for a value's text, which is reused.
    text: Vec<u8>,
}

impl<'a> LinesOfFrames<'a> {
    /// Returns a receiver that skips the first `from` bytes of the stream; positions count them.
    ///
    /// # Errors
    /// Out of memory.
    ///
    /// # Allocates
    /// A buffer of [`LIMIT`] bytes.
    pub fn new(reading: Reading<'a>, from: u64) -> Result<LinesOfFrames<'a>, AllocError>
        ensures got { IfOk result (λ r. HasGot r from [] []) }
        ensures good { IfOk result (λ r. good_so_far r ≡ true) }
        ensures reading { IfOk result (λ r. reading_of r ≡ reading.entry) }
        ensures skip { IfOk result (λ r. skip_of r ≡ from) }
    {
        match OwnedReceiver::new(reading.alloc, LIMIT, reading.sentinel) {
            Ok(receiver) => Ok(LinesOfFrames {
                reading,
                receiver,
                is_deep: Cell::new(false),
                skip: from,
                at: from,
                is_good: true,
                text: Vec::new(reading.alloc),
            }),
            Err(NoMemory) => Err(AllocError),
        }
    }

    /// Appends the line of a result. Its stretch is the last `stretch` bytes before the newest one; `left` is the rest of the chunk.
    fn say(
        &mut self,
        answer: &Answer<Value>,
        stretch: usize,
        left: &[u8],
        lines: &mut Vec<u8>,
    ) -> Result<(), AllocError>
        ensures line { OnOk result (SaysLine (reading_of self.old) answer.now
            (self.old.at - 1 - stretch)
            (end_said answer.now (self.old.at - 1)
            (known_to self.old.at self.old.reading.sentinel left.now))
            lines.old.items lines.new.items) }
        ensures unchanged { OnErr result (lines.new.items ≡ lines.old.items) }
        ensures only { OnlyAppended lines.old.items lines.new.items }
        ensures same { self.new ≡ record self.old { text = self.new.text } }
    {
        let last = self.at.saturating_sub(1);
        let from = last.saturating_sub(stretch as u64);
        match answer {
            Answer::Value(value) => put_value_line(self.reading, value, &mut self.text, lines),
            Answer::Damaged => {
                if self.is_deep.replace(false) {
                    put_stretch_line(self.reading.alloc, "too_deep", from, last, lines)
                } else {
                    put_stretch_line(self.reading.alloc, "damaged", from, last, lines)
                }
            }
            Answer::TooLong => {
                let more = before_sentinel(left, self.reading.sentinel);
                let so_far = self.at.saturating_add(more as u64);
                put_stretch_line(self.reading.alloc, "too_long", from, so_far, lines)
            }
            Answer::Cut => put_stretch_line(self.reading.alloc, "cut", from, last, lines),
        }
    }

    /// Processes bytes up to the first result, appends its line, and returns how many were processed.
    fn push_one(&mut self, rest: &[u8], lines: &mut Vec<u8>) -> Result<usize, AllocError>
        ensures told { IfOk result (λ used. (passed : ℕ) (stream : List ℕ)
            (answers : List (Answers Values)) → HasGot self.old passed stream answers
            → (more : List (Answers Values))
            × HasGot self.new passed (stream ++ take used rest.now) (answers ++ more)
            × (good_so_far self.new ≡ (good_so_far self.old && are_all_values more))
            × TellsEach (reading_of self.old) passed (stream ++ rest.now) answers more
            lines.old.items lines.new.items) }
        ensures stopped { OnErr result ((passed : ℕ) (stream : List ℕ)
            (answers : List (Answers Values)) → HasGot self.old passed stream answers
            → HasStopped self.new passed stream rest.now answers) }
        ensures unchanged { OnErr result (lines.new.items ≡ lines.old.items) }
        ensures only { OnlyAppended lines.old.items lines.new.items }
        ensures within { IfOk result (λ used. used ≤ length rest.now) }
        ensures forward { 0 < length rest.now → IfOk result (λ used. 0 < used) }
        ensures reading { reading_of self.new ≡ reading_of self.old }
        ensures skip { skip_of self.new ≡ skip_of self.old }
    {
        let Pushed {
            used,
            stretch,
            answer,
        } = push_next(self.reading, &self.is_deep, &mut self.receiver, rest);
        let (_, left) = rest.split_at(used);
        self.at = self.at.saturating_add(used as u64);
        match answer {
            Ok(None) => Ok(used),
            Ok(Some(answer)) => {
                let is_good = self.is_good & is_value(&answer);
                self.is_good = false;
                self.say(&answer, stretch, left, lines)?;
                self.is_good = is_good;
                Ok(used)
            }
            Err(NoMemory) => {
                self.is_good = false;
                Err(AllocError)
            }
        }
    }

    /// Processes bytes that aren't skipped.
    fn push_all(&mut self, piece: &[u8], lines: &mut Vec<u8>) -> Result<(), AllocError>
        ensures told { OnOk result ((passed : ℕ) (stream : List ℕ) (answers : List (Answers Values))
            → HasGot self.old passed stream answers → (more : List (Answers Values))
            × HasGot self.new passed (stream ++ piece.now) (answers ++ more)
            × (good_so_far self.new ≡ (good_so_far self.old && are_all_values more))
            × TellsEach (reading_of self.old) passed (stream ++ piece.now) answers more
            lines.old.items lines.new.items) }
        ensures stopped { OnErr result ((passed : ℕ) (stream : List ℕ)
            (answers : List (Answers Values)) → HasGot self.old passed stream answers
            → (done rest : List ℕ) × (piece.now ≡ done ++ rest) × (more : List (Answers Values))
            × HasStopped self.new passed (stream ++ done) rest (answers ++ more)
            × TellsEach (reading_of self.old) passed (stream ++ piece.now) answers more
            lines.old.items lines.new.items) }
        ensures only { OnlyAppended lines.old.items lines.new.items }
        ensures reading { reading_of self.new ≡ reading_of self.old }
        ensures skip { skip_of self.new ≡ skip_of self.old }
    {
        let mut rest = piece;
        while !rest.is_empty() {
            let used = self.push_one(rest, lines)?;
            let (_, left) = rest.split_at(used);
            rest = left;
        }
        Ok(())
    }

    /// The rest of a chunk after the bytes that are skipped.
    fn behind_skipped<'b>(&mut self, piece: &'b [u8]) -> &'b [u8]
        ensures rest { result.now ≡ drop (skip_of self.old) piece.now }
        ensures told { (passed : ℕ) (stream : List ℕ) (answers : List (Answers Values))
            → HasGot self.old passed stream answers → HasGot self.new passed stream answers }
        ensures good { good_so_far self.new ≡ good_so_far self.old }
        ensures reading { reading_of self.new ≡ reading_of self.old }
        ensures skip { skip_of self.new ≡ skip_of self.old - length piece.now }
    {
        let skipped = self.skip.min(piece.len() as u64);
        self.skip -= skipped;
        let (_, rest) = piece.split_at(skipped as usize);
        rest
    }

    /// Processes the next bytes of the stream, and appends one line for each result that they complete, in order.
    ///
    /// Chunk boundaries don't matter. The caller writes the lines of a chunk at once, so that each appears at the end of the read that
    /// brought its last byte. `too_long` has the position up to which the chunk shows the bytes.
    ///
    /// # Errors
    /// Out of memory: the lines of all results before the one for which there was none have been appended, and no part of that one's.
    /// The next call continues after it: that result is lost, with the rest of the chunk, and [`finish`](Self::finish) returns `false`.
    ///
    /// # Allocates
    /// What `lines` grows by. A value at a time is freed.
    pub fn push(&mut self, piece: &[u8], lines: &mut Vec<u8>) -> Result<(), AllocError>
        ensures told { OnOk result ((passed : ℕ) (stream : List ℕ) (answers : List (Answers Values))
            → HasGot self.old passed stream answers → (more : List (Answers Values))
            × HasGot self.new passed (stream ++ drop (skip_of self.old) piece.now)
            (answers ++ more)
            × (good_so_far self.new ≡ (good_so_far self.old && are_all_values more))
            × TellsEach (reading_of self.old) passed (stream ++ drop (skip_of self.old) piece.now)
            answers more lines.old.items lines.new.items) }
        ensures stopped { OnErr result ((passed : ℕ) (stream : List ℕ)
            (answers : List (Answers Values)) → HasGot self.old passed stream answers
            → (done rest : List ℕ) × (drop (skip_of self.old) piece.now ≡ done ++ rest)
            × (more : List (Answers Values))
            × HasStopped self.new passed (stream ++ done) rest (answers ++ more)
            × TellsEach (reading_of self.old) passed (stream ++ drop (skip_of self.old) piece.now)
            answers more lines.old.items lines.new.items) }
        ensures only { OnlyAppended lines.old.items lines.new.items }
        ensures reading { reading_of self.new ≡ reading_of self.old }
        ensures skip { skip_of self.new ≡ skip_of self.old - length piece.now }
    {
        let rest = self.behind_skipped(piece);
        self.push_all(rest, lines)
    }

    /// Ends the stream: appends a line `cut` if a frame was begun, and returns whether all results were values; `false` if one was lost,
    /// out of memory.
    ///
    /// # Errors
    /// Out of memory; `lines` is unchanged.
    ///
    /// # Allocates
    /// What `lines` grows by.
    pub fn finish(self, lines: &mut Vec<u8>) -> Result<bool, AllocError>
        ensures good { IfOk result (λ good. (passed : ℕ) (stream : List ℕ)
            → HasCome self.entry passed stream → good
            ≡ (good_so_far self.entry && are_all_values (added_at_end self.entry stream))) }
        ensures told { OnOk result ((passed : ℕ) (stream : List ℕ)
            → HasCome self.entry passed stream
            → TellsEnd (reading_of self.entry) passed stream (added_at_end self.entry stream)
            lines.old.items lines.new.items) }
        ensures unchanged { OnErr result (lines.new.items ≡ lines.old.items) }
        ensures only { OnlyAppended lines.old.items lines.new.items }
    {
        let begun = self.receiver.begun_bytes() as u64;
        let from = self.at.saturating_sub(begun);
        if self.receiver.finish::<Value>().is_some() {
            put_stretch_line(self.reading.alloc, "cut", from, self.at, lines)?;
            return Ok(false);
        }
        Ok(self.is_good)
    }
}

/// Processes bytes up to the first result.
pub(crate) fn push_next(
    reading: Reading<'_>,
    is_deep: &Cell<bool>,
    receiver: &mut OwnedReceiver,
    rest: &[u8],
) -> Pushed<Value>
    ensures within { result.used ≤ length rest.now }
    ensures forward { 0 < length rest.now → 0 < result.used }
    ensures stands { (limit s : ℕ) (stream : List ℕ) → IsBehind in_owner limit s receiver.old stream
        → IsBehind in_owner limit s receiver.new (stream ++ take result.used rest.now) }
    ensures answers { (limit s : ℕ) (stream : List ℕ)
        → IsBehind in_owner limit s receiver.old stream
        → Answered (held_by reading.entry) (read_by reading.entry)
        limit s stream rest.now result.used result.answer }
    ensures stretch { (limit s : ℕ) (stream : List ℕ)
        → IsBehind in_owner limit s receiver.old stream
        → IsStretchOf s stream rest.now result.used result.answer result.stretch }
    ensures same { SameTerms in_owner receiver.old receiver.new }
{
    let table = TableReader {
        nodes: &reading.schema.nodes,
        place: reading.place,
        depth: reading.depth,
        is_deep,
        summed: reading.summed,
    };
    if reading.strict {
        return receiver.push_with(reading.alloc, &Strict(table), rest);
    }
    receiver.push_with(reading.alloc, &Ordinary(table), rest)
}

/// Whether a result is a value.
fn is_value(answer: &Answer<Value>) -> bool
    ensures { result ≡ is_a_value answer.now }
{
    matches!(answer, Answer::Value(_))
}

/// Appends the line of a value; `text` is a buffer for the line.
pub(crate) fn put_value_line(
    reading: Reading<'_>,
    value: &Value,
    text: &mut Vec<u8>,
    lines: &mut Vec<u8>,
) -> Result<(), AllocError>
    ensures line { OnOk result ((said : List ℕ) × IsTextFor reading.entry value.now said
        × (lines.new.items ≡ lines.old.items ++ value_line said)) }
    ensures unchanged { OnErr result (lines.new.items ≡ lines.old.items) }
    ensures only { OnlyAppended lines.old.items lines.new.items }
{
    write_line(reading, value, text)?;
    lines.extend_from_slice(text)
}

/// Appends the line of a stretch that isn't a value: a word, and its positions in the stream.
pub(crate) fn put_stretch_line(
    alloc: Global,
    what: &str,
    from: u64,
    to: u64,
    lines: &mut Vec<u8>,
) -> Result<(), AllocError>
    ensures line { OnOk result
        (lines.new.items ≡ lines.old.items ++ stretch_line what.now from to) }
    ensures unchanged { OnErr result (lines.new.items ≡ lines.old.items) }
    ensures only { OnlyAppended lines.old.items lines.new.items }
{
    let line = format!(in alloc; "{{\"{what}\":{{\"from\":{from},\"to\":{to}}}}}\n")?;
    lines.extend_from_slice(line.as_bytes())
}

// A value is printed into a buffer of its own, whose line is then appended at once: so out of memory leaves no part of a line. And a
// writer of `json` clears as many bytes ahead as precede it, up to 16 KiB, which cost a tenth of a message's instructions.
// Rejected: printing in place, where each function of `print` would have to state that it leaves what precedes unchanged.
/// Replaces the text by a value's line.
fn write_line(reading: Reading<'_>, value: &Value, text: &mut Vec<u8>) -> Result<(), AllocError>
    ensures { OnOk result ((said : List ℕ) × IsTextFor reading.entry value.now said
        × (text.new.items ≡ value_line said)) }
{
    text.clear();
    text.extend_from_slice(b"{\"value\":")?;
    write_value(reading, value, text)?;
    text.extend_from_slice(b"}\n")
}

/// Appends a value's JSON to the start of a line.
fn write_value(reading: Reading<'_>, value: &Value, text: &mut Vec<u8>) -> Result<(), AllocError>
    ensures { OnOk result ((said : List ℕ) × IsTextFor reading.entry value.now said
        × (text.new.items ≡ text.old.items ++ said)) }
{
    let Reading {
        alloc,
        schema,
        place,
        hex,
        depth,
        ..
    } = reading;
    let mut out = Writer::new(mem::replace(text, Vec::new(alloc)));
    let written = print_into(&mut out, alloc, schema, place, Look { hex, depth }, value);
    *text = out.into_inner();
    written
}
