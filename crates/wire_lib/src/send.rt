//! Lines of JSON as a stream of frames.
ghost use Rattle.std.specs.Prelude.{◌≡◌, ℕ, ◌<◌, ◌≤◌, ◌&&◌, false, List, [], ◌∷◌, ◌++◌, length, take, string_bytes, IfOk, OnOk, OnErr};
ghost use Rattle.wire_json.specs.Refused.{IfWrong, refusal_text};
ghost use Rattle.wire_lib.specs.Said.{OnlyAppended};
ghost use Rattle.wire_lib.specs.Sent.{IsFrameToSend, IsUnsendable, LineMade, IsTextMade, IsLineMade, IsLineWith, AreLinesMade, last_line, is_framed, are_all_framed, number_behind, sending_of, begun_line, HasMade, HaveBecome, AppendedApart};

use crate::raw::message_of;
use crate::receive::LIMIT;
use cobs::{before_sentinel, encode_vec_with_sentinel};
use schema_table::Schema;
use std::alloc::{AllocError, Global};
use std::mem;
use wire_json::wrong::{ParseError, Wrong, put_wrong, refusal};

/// How lines are sent: the type, the limits, the delimiter.
#[derive(Clone, Copy, Drop)]
pub struct Sending<'a> {
    /// The allocator.
    pub alloc: Global,
    /// The table of types.
    pub schema: &'a Schema,
    /// The index of the messages' type in the table.
    pub place: usize,
    /// The limit of nested nodes of a value.
    pub depth: u32,
    /// The sentinel: the delimiter after each frame, with which the frame's bytes are XORed.
    pub sentinel: u8,
    /// Whether each message is followed by its CRC-32, in little-endian order.
    pub summed: bool,
}

type Sent = Result<(), AllocError>;

/// Appends bytes.
fn append(to: &mut Vec<u8>, bytes: &[u8]) -> Sent
    ensures items { OnOk result (to.new.items ≡ to.old.items ++ bytes.now) }
    ensures kept { OnErr result (to.new.items ≡ to.old.items) }
    ensures only { OnlyAppended to.old.items to.new.items }
{
    to.extend_from_slice(bytes)
}

/// Returns the shortest frame of the value that a line of JSON contains, followed by its sentinel.
///
/// # Errors
/// Those of [`parse`](wire_json::parse::parse); `Wrong` too if the frame has more than [`LIMIT`] bytes.
///
/// # Allocates
/// The frame. The value and its encoding are freed; of a fault its path is allocated.
pub fn frame_of(sending: Sending<'_>, line: &[u8]) -> Result<Vec<u8>, ParseError>
    ensures sent { IfOk result (λ frame. IsFrameToSend sending.entry line.now frame.items) }
    ensures refused { IfWrong result (IsUnsendable sending.entry line.now) }
{
    let message = message_of(sending, line)?;
    let Sending {
        alloc,
        sentinel,
        ..
    } = sending;
    let mut frame = encode_vec_with_sentinel(alloc, &message, sentinel)?;
    if frame.len() > LIMIT {
        return Err(refusal("the frame has more than 65536 bytes, the limit of `read`"));
    }
    frame.push(sentinel)?;
    Ok(frame)
}

/// Reads lines of JSON, in chunks, and appends a frame for each, or what is wrong with it.
///
/// # Example
/// ```rust
/// let mut frames = Vec::new(alloc);
/// let mut wrongs = String::new(alloc);
/// let mut sender = FramesOfLines::new(sending);
/// sender.push(b"300\nnull\n1", &mut frames, &mut wrongs)?;
/// let is_good = sender.finish(&mut frames, &mut wrongs)?;
/// ```
#[derive(Drop)]
pub struct FramesOfLines<'a> {
    sending: Sending<'a>,
    /// The begun line, and how many lines precede it.
    line: Vec<u8>,
    number: u64,
    /// Whether all lines were values.
    is_good: bool,
}

impl<'a> FramesOfLines<'a> {
    /// Returns a sender of which no line came. Doesn't allocate.
    pub fn new(sending: Sending<'a>) -> FramesOfLines<'a>
        ensures made { HasMade result [] [] }
        ensures sending { sending_of result ≡ sending.entry }
    {
        FramesOfLines {
            sending,
            line: Vec::new(sending.alloc),
            number: 0,
            is_good: true,
        }
    }

    /// Sends a line, without its line feed.
    fn send(&mut self, line: &[u8], frames: &mut Vec<u8>, wrongs: &mut String) -> Sent
        ensures made { OnOk result ((m : LineMade)
            × IsTextMade self.old.sending self.new.number line.now m
            × AppendedApart frames.old.items frames.new.items (string_bytes wrongs.old)
            (string_bytes wrongs.new) (m ∷ [])
            × (self.new.is_good ≡ (self.old.is_good && is_framed m))) }
        ensures only { OnlyAppended frames.old.items frames.new.items }
        ensures frames { OnErr result (frames.new.items ≡ frames.old.items) }
        ensures wrongs { OnErr result (string_bytes wrongs.new ≡ string_bytes wrongs.old) }
        ensures number { self.new.number ≡ number_behind self.old.number }
        ensures same { (self.new.sending ≡ self.old.sending)
            × (self.new.line.items ≡ self.old.line.items) }
    {
        self.number = self.number.saturating_add(1);
        match frame_of(self.sending, line) {
            Ok(frame) => append(frames, &frame),
            Err(ParseError::Wrong(why)) => self.refuse(&why, wrongs),
            Err(ParseError::OutOfMemory) => Err(AllocError),
        }
    }

    /// Appends why a line isn't sent.
    fn refuse(&mut self, why: &Wrong, wrongs: &mut String) -> Sent
        ensures said { OnOk result ((text : List ℕ) × (string_bytes wrongs.new
            ≡ string_bytes wrongs.old ++ refusal_text self.old.number text)) }
        ensures wrongs { OnErr result (string_bytes wrongs.new ≡ string_bytes wrongs.old) }
        ensures good { self.new ≡ record self.old { is_good = false } }
    {
        self.is_good = false;
        let mut line = String::new(self.sending.alloc);
        put_wrong(&mut line, self.number, why)?;
        wrongs.push_str(line.as_str())
    }

    /// Sends a line of which this is the last part. If the chunk has the whole line it isn't copied.
    fn end(&mut self, part: &[u8], frames: &mut Vec<u8>, wrongs: &mut String) -> Sent
        ensures made { OnOk result ((m : LineMade)
            × IsLineMade self.old.sending self.new.number (self.old.line.items ++ part.now) m
            × AppendedApart frames.old.items frames.new.items (string_bytes wrongs.old)
            (string_bytes wrongs.new) (m ∷ [])
            × (self.new.is_good ≡ (self.old.is_good && is_framed m))
            × (self.new.line.items ≡ [])) }
        ensures only { OnlyAppended frames.old.items frames.new.items }
        ensures frames { OnErr result (frames.new.items ≡ frames.old.items) }
        ensures wrongs { OnErr result (string_bytes wrongs.new ≡ string_bytes wrongs.old) }
        ensures number { OnOk result (self.new.number ≡ number_behind self.old.number) }
        ensures sending { sending_of self.new ≡ sending_of self.old }
    {
        if self.line.is_empty() {
            return self.send(without_return(part), frames, wrongs);
        }
        append(&mut self.line, part)?;
        let mut line = mem::replace(&mut self.line, Vec::new(self.sending.alloc));
        let sent = self.send(without_return(&line), frames, wrongs);
        line.clear();
        self.line = line;
        sent
    }

    /// Processes bytes up to the end of the line, or all of them if it doesn't end, and returns how many.
    fn push_line(
        &mut self,
        rest: &[u8],
        frames: &mut Vec<u8>,
        wrongs: &mut String,
    ) -> Result<usize, AllocError>
        ensures made { IfOk result (λ used. (text : List ℕ) (made : List LineMade)
            → HasMade self.old text made → (more : List LineMade)
            × HasMade self.new (text ++ take used rest.now) (made ++ more)
            × AppendedApart frames.old.items frames.new.items (string_bytes wrongs.old)
            (string_bytes wrongs.new) more) }
        ensures only { OnlyAppended frames.old.items frames.new.items }
        ensures frames { OnErr result (frames.new.items ≡ frames.old.items) }
        ensures wrongs { OnErr result (string_bytes wrongs.new ≡ string_bytes wrongs.old) }
        ensures within { IfOk result (λ used. used ≤ length rest.now) }
        ensures forward { 0 < length rest.now → IfOk result (λ used. 0 < used) }
        ensures sending { sending_of self.new ≡ sending_of self.old }
    {
        let at = before_sentinel(rest, b'\n');
        let (part, behind) = rest.split_at(at);
        if behind.is_empty() {
            append(&mut self.line, part)?;
            return Ok(at);
        }
        self.end(part, frames, wrongs)?;
        Ok(at + 1)
    }

    /// Processes the next bytes, and appends a frame to `frames` for each line that they complete.
    ///
    /// If a line isn't a value of the type, or its frame has more than [`LIMIT`] bytes, `line K: PATH: WHY` is appended to `wrongs`
    /// instead; lines count from 1. Chunk boundaries don't matter.
    ///
    /// # Errors
    /// Out of memory: what the chunk's lines before the one for which there was none became has been appended, and nothing of that
    /// one. The rest of the chunk is lost, so continue with a new sender, at the start of a line.
    ///
    /// # Allocates
    /// What `frames`, `wrongs` and the begun line grow by. A value and its frame at a time are freed.
    pub fn push(&mut self, piece: &[u8], frames: &mut Vec<u8>, wrongs: &mut String) -> Sent
        ensures made { OnOk result ((text : List ℕ) (made : List LineMade)
            → HasMade self.old text made → (more : List LineMade)
            × HasMade self.new (text ++ piece.now) (made ++ more)
            × AppendedApart frames.old.items frames.new.items (string_bytes wrongs.old)
            (string_bytes wrongs.new) more) }
        ensures lost { OnErr result ((text : List ℕ) (made : List LineMade)
            → HasMade self.old text made → (used : ℕ) × (more : List LineMade)
            × HaveBecome (sending_of self.old) (text ++ take used piece.now) (made ++ more)
            × AppendedApart frames.old.items frames.new.items (string_bytes wrongs.old)
            (string_bytes wrongs.new) more) }
        ensures only { OnlyAppended frames.old.items frames.new.items }
        ensures sending { sending_of self.new ≡ sending_of self.old }
    {
        let mut rest = piece;
        while !rest.is_empty() {
            let used = self.push_line(rest, frames, wrongs)?;
            let (_, left) = rest.split_at(used);
            rest = left;
        }
        Ok(())
    }

    /// Sends what is left as the last line.
    fn send_rest(&mut self, frames: &mut Vec<u8>, wrongs: &mut String) -> Sent
        ensures made { OnOk result ((text : List ℕ) (made : List LineMade)
            → HasMade self.old text made → (last : List LineMade)
            × AreLinesMade (sending_of self.old) (length made)
            (last_line (begun_line self.old)) last
            × AppendedApart frames.old.items frames.new.items (string_bytes wrongs.old)
            (string_bytes wrongs.new) last
            × (self.new.is_good ≡ are_all_framed (made ++ last))) }
        ensures frames { OnErr result (frames.new.items ≡ frames.old.items) }
        ensures wrongs { OnErr result (string_bytes wrongs.new ≡ string_bytes wrongs.old) }
        ensures only { OnlyAppended frames.old.items frames.new.items }
    {
        if self.line.is_empty() {
            return Ok(());
        }
        let line = mem::replace(&mut self.line, Vec::new(self.sending.alloc));
        self.send(&line, frames, wrongs)
    }

    /// Ends the text: sends a last line without a line feed, and returns whether all lines became frames.
    ///
    /// # Errors
    /// Out of memory. `frames` and `wrongs` hold what they held.
    ///
    /// # Allocates
    /// What `frames` and `wrongs` grow by. The last value and its frame are freed.
    pub fn finish(mut self, frames: &mut Vec<u8>, wrongs: &mut String) -> Result<bool, AllocError>
        ensures made { IfOk result (λ good. (text : List ℕ) (made : List LineMade)
            → HasMade self.entry text made → (last : List LineMade)
            × AreLinesMade (sending_of self.entry) (length made) (last_line (begun_line self.entry))
            last
            × AppendedApart frames.old.items frames.new.items (string_bytes wrongs.old)
            (string_bytes wrongs.new) last
            × (good ≡ are_all_framed (made ++ last))) }
        ensures frames { OnErr result (frames.new.items ≡ frames.old.items) }
        ensures wrongs { OnErr result (string_bytes wrongs.new ≡ string_bytes wrongs.old) }
        ensures only { OnlyAppended frames.old.items frames.new.items }
    {
        self.send_rest(frames, wrongs)?;
        Ok(self.is_good)
    }
}

/// A line without a carriage return at its end.
fn without_return(line: &[u8]) -> &[u8]
    ensures { IsLineWith result.now line.now }
{
    match line {
        [front @ .., b'\r'] => front,
        _ => line,
    }
}
