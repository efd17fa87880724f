//! Receiving values from a stream that comes in chunks.
ghost use Rattle.std.specs.Prelude.{◌≡◌, ◌≢◌, ℕ, ◌+◌, ◌<◌, ◌≤◌, ◌↔◌, length, slice_index, List, [], take, drop, true, false, OnErr, IsTrue, IfSome, MatchOption};
ghost use Rattle.postcard.specs.Frames.{Holds};
ghost use Rattle.cobs.specs.Frames.{NoZero};
ghost use Rattle.cobs.specs.Sentinel.{masked};
ghost use Rattle.link.specs.Stream.{Begun, kept, begun, HoldsExactly};
ghost use Rattle.link.specs.Steps.{Event, event_at, begun_at, Course, course_of, ahead, RunsOn, RunsPast};
ghost use Rattle.link.specs.Pushes.{begun_length, finished};
ghost use Rattle.link.specs.Finds.{Finds, IsWithin, IsTaken, Brings, Replies, front_of, lent_message};

use crate::decoding::Decoding;
use crate::judging::{MessageReader, OfType, Ordinary, Strict};
use crate::receiver::{Answer, NoMemory, Pushed};
use cobs::before_sentinel;
use postcard::{DeserializeOwned, Exact};
use std::alloc::Global;

// What is found in a chunk. M is what is kept of a frame: the length of its message at the front of the buffer, or the message.
#[derive(Clone, Copy)]
pub(crate) enum Found<M> {
    Nothing,
    Damaged,
    TooLong,
    Whole(M),
}

// How many bytes of a chunk were used, and what was found in them.
#[derive(Clone, Copy)]
pub(crate) struct Taken<M> {
    pub used: usize,
    // how many bytes of its stretch come before the last byte used
    pub stretch: usize,
    pub found: Found<M>,
}

/// Receives values from a stream that comes in chunks, under a limit on the bytes between two sentinels.
///
/// Its results depend on the bytes of the stream alone, however they are split. Each push may name another type. `Receiver` and
/// `OwnedReceiver` are the names of its two kinds; code for both is generic in `D`. Code that holds a `Receiver<N>` of any N by value
/// requires that it fits in memory (`ReceiverFitsInMemory`); a concrete N costs nothing.
///
/// # Example
/// ```rust
/// fn wait_by<D: Decoding, M: MessageReader<(u64, u32)>>(
///     alloc: Global,
///     receiver: &mut Reception<D>,
///     messages: &M,
///     reader: &mut In<'_>,
///     waiting: &mut Waiting<Line, u32, u32, 16>,
/// ) -> Option<End> {
///     wait_with(alloc, receiver, messages, reader, waiting, &mut [0u8; 64])
/// }
/// ```
#[derive(Drop)]
pub struct Reception<D> {
    // Any buffer, not a type for each: so each contract, also that of `push_ref` by hand, is proved once. It has as many bytes as
    // the limit, and holds what is begun of a stretch.
    pub(crate) buffer: D,
    // whether the stretch went past the limit
    pub(crate) past: bool,
    pub(crate) sentinel: u8,
}

// Up to so many bytes are taken byte by byte.
const FEW: usize = 8;

// How many sentinels come before the first other byte. An idle line sends nothing else, and may send it for hours.
fn idle_bytes(bytes: &[u8], sentinel: u8) -> usize
    ensures idle { (limit : ℕ) → course_of limit sentinel (kept []) bytes.now
        ≡ ahead result (course_of limit sentinel (kept []) (drop result bytes.now)) }
    ensures within { result ≤ length bytes.now }
{
    let mut count = 0;
    while count < bytes.len() && bytes[count] == sentinel {
        count += 1;
    }
    count
}

// The result of what was found.
#[inline(always)]
pub(crate) fn read<V, M: MessageReader<V>>(
    messages: &M,
    alloc: Global,
    taken: Taken<&[u8]>,
) -> Result<Option<Answer<V>>, NoMemory>
    ensures replies { (limit : ℕ) (k : Course) → IsTaken limit k lent_message taken.entry
        → Replies (M.judging messages.now).holds (M.judging messages.now).reads k.event result }
    ensures memory { OnErr result ((M.judging messages.now).growing ≡ true) }
{
    messages.show();
    match taken.found {
        Found::Nothing => Ok(None),
        Found::Damaged => Ok(Some(Answer::Damaged)),
        Found::TooLong => Ok(Some(Answer::TooLong)),
        Found::Whole(message) => match messages.read(alloc, message, taken.stretch) {
            Ok(Some(value)) => Ok(Some(Answer::Value(value))),
            Ok(None) => Ok(Some(Answer::Damaged)),
            Err(error) => Err(error),
        },
    }
}

impl<D: Decoding> Reception<D> {
    ghost use Rattle.link.specs.Receivers.{IsAt, IsBehind, OnBegun, SameTerms, buffer_in, count_in, limit_of, sentinel_of, IsBetween};
    ghost use Rattle.link.specs.Lending.{StandsFurther, AnswersPush, TellsStretch};

    /// The greatest number of bytes between two sentinels.
    pub fn limit(&self) -> usize
        ensures { result ≡ limit_of D.inside self.now }
    {
        self.buffer.dest().len()
    }

    /// The byte that ends a stretch.
    pub fn sentinel(&self) -> u8
        ensures { result ≡ sentinel_of self.now }
    {
        self.sentinel
    }

    // Ends a stretch.
    fn close(&mut self) -> Found<usize>
        ensures found { (limit s : ℕ) (p : List ℕ) → IsAt D.inside limit s self.old (kept p)
            → 0 < length p
            → IsAt D.inside limit s self.new (kept [])
            × Finds (front_of (buffer_in D.inside self.new)) (Event.ended p) result }
        ensures within { IsWithin (length (buffer_in D.inside self.new)) result }
        ensures same { SameTerms D.inside self.old self.new }
    {
        match self.buffer.decode_held() {
            Some(size) => Found::Whole(size),
            None => Found::Damaged,
        }
    }

    // Takes a sentinel.
    fn take_sentinel(&mut self) -> Found<usize>
        ensures at { (limit s : ℕ) (b : Begun) → IsAt D.inside limit s self.old b
            → IsAt D.inside limit s self.new (begun_at limit s b s) }
        ensures finds { (limit s : ℕ) (b : Begun) → IsAt D.inside limit s self.old b
            → Finds (front_of (buffer_in D.inside self.new)) (event_at limit s b s) result }
        ensures within { IsWithin (length (buffer_in D.inside self.new)) result }
        ensures same { SameTerms D.inside self.old self.new }
    {
        if self.past {
            self.past = false;
            return Found::Nothing;
        }
        if self.buffer.held() == 0 {
            return Found::Nothing;
        }
        self.close()
    }

    // Takes a run without sentinels. If it exceeds the limit: how many of its bytes were used, with the one past the limit.
    #[inline(always)]
    fn take_run(&mut self, run: &[u8]) -> Option<usize>
        requires { NoZero (masked self.old.sentinel run.now) }
        ensures runs { (limit s : ℕ) (b : Begun) → IsAt D.inside limit s self.old b
            → MatchOption result (RunsOn limit s b run.now (IsAt D.inside limit s self.new))
            (λ used. RunsPast limit s b run.now used (IsAt D.inside limit s self.new)) }
        ensures within { IfSome result (λ used. (0 < used) × (used ≤ length run.now)) }
        ensures same { SameTerms D.inside self.old self.new }
    {
        if self.past {
            return None;
        }
        let left = self.limit() - self.buffer.held();
        if run.len() > left {
            self.past = true;
            self.buffer.clear();
            return Some(left + 1);
        }
        self.buffer.hold(run, self.sentinel);
        None
    }

    // Takes a complete stretch within the limit, without its sentinel; none was begun.
    #[inline(always)]
    fn take_whole(&mut self, stretch: &[u8]) -> Found<usize>
        requires clear { NoZero (masked self.old.sentinel stretch.now) }
        requires within { length stretch.now ≤ limit_of D.inside self.old }
        ensures found { (limit s : ℕ) → IsAt D.inside limit s self.old (kept [])
            → 0 < length stretch.now
            → IsAt D.inside limit s self.new (kept [])
            × Finds (front_of (buffer_in D.inside self.new)) (Event.ended (masked s stretch.now))
            result }
        ensures within { IsWithin (length (buffer_in D.inside self.new)) result }
        ensures same { SameTerms D.inside self.old self.new }
    {
        let Some(size) = self.buffer.decode_whole(stretch, self.sentinel) else {
            return Found::Damaged;
        };
        Found::Whole(size)
    }

    // Takes bytes through the first sentinel, or up to the byte past the limit. Whole runs are taken, and skipped past the limit, which
    // is several times as fast as byte by byte. A stretch that is complete there is decoded from the chunk: one search, one copy.
    #[inline(always)]
    fn take_next(&mut self, bytes: &[u8]) -> Taken<usize>
        ensures brings { (limit s : ℕ) (b : Begun) → IsAt D.inside limit s self.old b
            → Brings limit s b bytes.now (front_of (buffer_in D.inside self.new)) result
            (IsAt D.inside limit s self.new) }
        ensures within { IsWithin (length (buffer_in D.inside self.new)) result.found }
        ensures bound { result.used ≤ length bytes.now }
        ensures forward { 0 < length bytes.now → 0 < result.used }
        ensures same { SameTerms D.inside self.old self.new }
    {
        let sentinel = self.sentinel;
        let between = self.is_between();
        if between {
            let idle = idle_bytes(bytes, sentinel);
            if 0 < idle {
                return Taken {
                    used: idle,
                    stretch: 0,
                    found: Found::Nothing,
                };
            }
        }
        let size = before_sentinel(bytes, sentinel);
        let (run, behind) = bytes.split_at(size);
        if between && !behind.is_empty() && 0 < size && size <= self.limit() {
            return Taken {
                used: size + 1,
                stretch: size,
                found: self.take_whole(run),
            };
        }
        match self.take_run(run) {
            Some(used) => {
                return Taken {
                    used,
                    stretch: self.limit(),
                    found: Found::TooLong,
                };
            }
            None => {}
        }
        if behind.is_empty() {
            return Taken {
                used: size,
                stretch: 0,
                found: Found::Nothing,
            };
        }
        let stretch = self.buffer.held();
        Taken {
            used: size + 1,
            stretch,
            found: self.take_sentinel(),
        }
    }

    // Takes bytes of a chunk, up to the first that gives a result.
    #[inline(always)]
    fn take_many(&mut self, piece: &[u8]) -> Taken<usize>
        ensures at { (limit s : ℕ) (b : Begun) → IsAt D.inside limit s self.old b
            → IsAt D.inside limit s self.new (course_of limit s b piece.now).begun }
        ensures taken { (limit s : ℕ) (b : Begun) → IsAt D.inside limit s self.old b
            → IsTaken limit (course_of limit s b piece.now)
            (front_of (buffer_in D.inside self.new)) result }
        ensures within { IsWithin (length (buffer_in D.inside self.new)) result.found }
        ensures bound { result.used ≤ length piece.now }
        ensures forward { 0 < length piece.now → 0 < result.used }
        ensures same { SameTerms D.inside self.old self.new }
    {
        let mut at = 0;
        while at < piece.len() {
            let (_, rest) = piece.split_at(at);
            let Taken {
                used,
                stretch,
                found,
            } = self.take_next(rest);
            at += used;
            match found {
                Found::Nothing => {}
                found => {
                    return Taken {
                        used: at,
                        stretch,
                        found,
                    };
                }
            }
        }
        Taken {
            used: piece.len(),
            stretch: 0,
            found: Found::Nothing,
        }
    }

    // The same of few bytes, of which the first isn't the sentinel: each is searched and held at once.
    #[inline(always)]
    fn take_few(&mut self, piece: &[u8]) -> Taken<usize>
        requires begun { self.old.past ≡ false }
        requires some { 0 < length piece.now }
        requires first { slice_index piece.now 0 ≢ self.old.sentinel }
        requires room { count_in D.inside self.old + length piece.now
            ≤ limit_of D.inside self.old }
        ensures at { (limit s : ℕ) (b : Begun) → IsAt D.inside limit s self.old b
            → IsAt D.inside limit s self.new (course_of limit s b piece.now).begun }
        ensures taken { (limit s : ℕ) (b : Begun) → IsAt D.inside limit s self.old b
            → IsTaken limit (course_of limit s b piece.now)
            (front_of (buffer_in D.inside self.new)) result }
        ensures within { IsWithin (length (buffer_in D.inside self.new)) result.found }
        ensures bound { result.used ≤ length piece.now }
        ensures forward { 0 < result.used }
        ensures same { SameTerms D.inside self.old self.new }
    {
        let held = self.buffer.hold_until(piece, self.sentinel);
        if held == piece.len() {
            return Taken {
                used: held,
                stretch: 0,
                found: Found::Nothing,
            };
        }
        let stretch = self.buffer.held();
        Taken {
            used: held + 1,
            stretch,
            found: self.take_sentinel(),
        }
    }

    // The same: few bytes that go on with a stretch, or begin one, take a shorter way.
    #[inline(always)]
    pub(crate) fn take(&mut self, piece: &[u8]) -> Taken<usize>
        ensures at { (limit s : ℕ) (b : Begun) → IsAt D.inside limit s self.old b
            → IsAt D.inside limit s self.new (course_of limit s b piece.now).begun }
        ensures taken { (limit s : ℕ) (b : Begun) → IsAt D.inside limit s self.old b
            → IsTaken limit (course_of limit s b piece.now)
            (front_of (buffer_in D.inside self.new)) result }
        ensures within { IsWithin (length (buffer_in D.inside self.new)) result.found }
        ensures bound { result.used ≤ length piece.now }
        ensures forward { 0 < length piece.now → 0 < result.used }
        ensures same { SameTerms D.inside self.old self.new }
    {
        if 0 < piece.len()
            && piece.len() <= FEW
            && piece[0] != self.sentinel
            && !self.past
            && piece.len() <= self.limit() - self.buffer.held()
        {
            return self.take_few(piece);
        }
        self.take_many(piece)
    }

    // The same with the message of a frame, which is at the front of the buffer.
    #[inline(always)]
    pub(crate) fn lend(&self, taken: Taken<usize>) -> Taken<&[u8]>
        requires { IsWithin (length (buffer_in D.inside self.now)) taken.found }
        ensures same { (limit : ℕ) (k : Course)
            → IsTaken limit k (front_of (buffer_in D.inside self.now)) taken
            → IsTaken limit k lent_message result }
        ensures used { result.used ≡ taken.used }
    {
        Taken {
            used: taken.used,
            stretch: taken.stretch,
            found: match taken.found {
                Found::Nothing => Found::Nothing,
                Found::Damaged => Found::Damaged,
                Found::TooLong => Found::TooLong,
                Found::Whole(size) => Found::Whole(&self.buffer.dest()[..size]),
            },
        }
    }

    /// Takes bytes up to the first result, and returns it.
    ///
    /// `used` is how many bytes were taken: push the rest next. Without a result all were. A chunk of at least one byte uses at least
    /// one. A result is reported at the sentinel that ends its stretch, or at the byte past the limit, and is of the stretch as a whole,
    /// also if earlier pushes took its beginning.
    ///
    /// | `answer` | The bytes since the last sentinel |
    /// |---|---|
    /// | `Ok(Some(Value(v)))` | are a frame that holds v |
    /// | `Ok(Some(Damaged))` | aren't |
    /// | `Ok(Some(TooLong))` | exceed the limit; reported once, at the first byte past it |
    /// | `Ok(None)` | aren't ended yet |
    ///
    /// # Errors
    /// `answer` is `NoMemory` if v could not be allocated. That frame is gone; the receiver is ready for the next one.
    ///
    /// # Allocates
    /// What the value needs.
    ///
    /// # Example
    /// ```rust
    /// let pushed = receiver.push::<Reading>(rt.alloc(), &[*byte]);
    /// match pushed.answer {
    ///     Ok(Some(answer)) => tell(rt, answer, at.saturating_sub(pushed.stretch as u64), at)?,
    ///     Ok(None) => {}
    ///     Err(NoMemory) => println!(rt; "no memory")?,
    /// }
    /// ```
    #[inline(always)]
    pub fn push<T: DeserializeOwned>(&mut self, alloc: Global, piece: &[u8]) -> Pushed<T>
        ensures within { result.used ≤ length piece.now }
        ensures forward { 0 < length piece.now → 0 < result.used }
        ensures stands { StandsFurther D.inside self.old self.new (take result.used piece.now) }
        ensures answers { AnswersPush D.inside (Holds T.form.takes) T.form.reads self.old piece.now
            result }
        ensures stretch { TellsStretch D.inside self.old piece.now result }
        ensures memory { OnErr result.answer (T.form.growing ≡ true) }
        ensures same { SameTerms D.inside self.old self.new }
    {
        self.push_with(alloc, &Ordinary(OfType), piece)
    }

    /// As `push`, but only the exact frame that sending a value writes is a `Value`; any other is `Damaged`.
    ///
    /// So equal values come from equal bytes. A map isn't `Exact`: its entries may come in any order.
    ///
    /// # Errors
    /// As [`Reception::push`].
    ///
    /// # Allocates
    /// What the value needs.
    ///
    /// # Example
    /// ```rust
    /// let Pushed { used, answer, .. } = if strict {
    ///     receiver.push_strict::<Vec<u8>>(alloc, piece)
    /// } else {
    ///     receiver.push::<Vec<u8>>(alloc, piece)
    /// };
    /// ```
    #[inline(always)]
    pub fn push_strict<T: DeserializeOwned + Exact>(
        &mut self,
        alloc: Global,
        piece: &[u8],
    ) -> Pushed<T>
        ensures within { result.used ≤ length piece.now }
        ensures forward { 0 < length piece.now → 0 < result.used }
        ensures stands { StandsFurther D.inside self.old self.new (take result.used piece.now) }
        ensures answers { AnswersPush D.inside (HoldsExactly T.form.takes) T.form.reads self.old
            piece.now result }
        ensures stretch { TellsStretch D.inside self.old piece.now result }
        ensures memory { OnErr result.answer (T.form.growing ≡ true) }
        ensures same { SameTerms D.inside self.old self.new }
    {
        self.push_with(alloc, &Strict(OfType), piece)
    }

    /// As `push`, by a reader of messages; each push may name another.
    ///
    /// `push` is this with `Ordinary(OfType)`, and `push_strict` with `Strict(OfType)`.
    ///
    /// # Errors
    /// As [`Reception::push`].
    ///
    /// # Allocates
    /// What the value needs.
    ///
    /// # Example
    /// ```rust
    /// let pushed = receiver.push_with(alloc, &Chosen { strict: false }, &LONGER);
    /// check(&rt, pushed.used == 5 && pushed.stretch == 4);
    /// check(&rt, is_answer(&pushed.answer, &Answer::Value(300)));
    /// let pushed = receiver.push_with(alloc, &Chosen { strict: true }, &LONGER);
    /// check(&rt, is_answer(&pushed.answer, &Answer::Damaged));
    /// ```
    #[inline(always)]
    pub fn push_with<V, M: MessageReader<V>>(
        &mut self,
        alloc: Global,
        messages: &M,
        piece: &[u8],
    ) -> Pushed<V>
        ensures within { result.used ≤ length piece.now }
        ensures forward { 0 < length piece.now → 0 < result.used }
        ensures stands { StandsFurther D.inside self.old self.new (take result.used piece.now) }
        ensures answers { AnswersPush D.inside (M.judging messages.now).holds
            (M.judging messages.now).reads self.old piece.now result }
        ensures stretch { TellsStretch D.inside self.old piece.now result }
        ensures memory { OnErr result.answer ((M.judging messages.now).growing ≡ true) }
        ensures same { SameTerms D.inside self.old self.new }
    {
        let taken = self.take(piece);
        Pushed {
            used: taken.used,
            stretch: taken.stretch,
            answer: read(messages, alloc, self.lend(taken)),
        }
    }

    /// Whether no stretch is begun. After a `TooLong` one is, until its sentinel.
    ///
    /// Example: see [`Receiver`].
    pub fn is_between(&self) -> bool
        ensures state { IsTrue result ↔ IsBetween D.inside self.now }
        ensures begun { OnBegun D.inside self.now (λ b. IsTrue result ↔ (b ≡ kept [])) }
    {
        !self.past && self.buffer.held() == 0
    }

    /// How many bytes a begun stretch has so far: 0 if none is begun, and after a `TooLong`.
    pub fn begun_bytes(&self) -> usize
        ensures { OnBegun D.inside self.now (λ b. result ≡ begun_length b) }
    {
        self.buffer.held()
    }

    // What the end of the stream adds.
    pub(crate) fn ending<T>(&self) -> Option<Answer<T>>
        ensures { OnBegun D.inside self.now (λ b. result ≡ finished b) }
    {
        if self.past {
            return None;
        }
        if self.buffer.held() == 0 {
            return None;
        }
        Some(Answer::Cut)
    }

    /// Ends the stream as `finish` does, and begins a new one with the same limit and sentinel. Allocates nothing.
    ///
    /// # Example
    /// ```rust
    /// match self.decode(src)? {
    ///     Some(answer) => Ok(Some(answer)),
    ///     None => Ok(self.receiver.restart()),
    /// }
    /// ```
    pub fn restart<T>(&mut self) -> Option<Answer<T>>
        ensures answer { OnBegun D.inside self.old (λ b. result ≡ finished b) }
        ensures anew { (limit s : ℕ) (stream : List ℕ) → IsBehind D.inside limit s self.old stream
            → IsBehind D.inside limit s self.new [] }
        ensures between { IsBetween D.inside self.new }
        ensures same { SameTerms D.inside self.old self.new }
    {
        let answer = self.ending();
        self.past = false;
        self.buffer.clear();
        answer
    }
}

impl<D: Decoding + Drop> Reception<D> {
    ghost use Rattle.link.specs.Receivers.{OnBegun};

    /// Ends the stream: `Cut` if a stretch was begun and not reported, else `None`. The receiver is gone then.
    ///
    /// # Example
    /// ```rust
    /// match receiver.finish() {
    ///     Some(answer) => tell(rt, answer, at, at),
    ///     None => Ok(()),
    /// }
    /// ```
    pub fn finish<T>(self) -> Option<Answer<T>>
        ensures { OnBegun D.inside self (λ b. result ≡ finished b) }
    {
        self.ending()
    }
}
