//! Receivers that report each result as soon as its last byte was read.
//!
//! | Call | What it passes to whom | When it ends; out of memory |
//! |---|---|---|
//! | `listen_with` | to the hearer, the results of one read into the caller's buffer | After that read, or at the reader's end or fault. `NoMemory`: only the values without memory are missing from that read. |
//! | `listen_until_with` | to the hearer, the results of each read into the caller's buffer | Once the hearer has enough, or at the reader's end or fault. `NoMemory`: as `listen_with`, after the read that lost a value. |
//! | `receive_each_with` | to the hearer, the results of each read into 1024 bytes of its own, and `Cut` if the stream ends inside a stretch | Once the hearer has enough, or at the reader's end or fault. `NoMemory`: the results before the lost value were passed; the rest of its read is taken and not passed. |
//! | `listen_by`, private | what `listen_with` passes, or with `goes_on` false what `receive_each_with` passes of one read | As `listen_with`. `NoMemory`: by `goes_on`, as either call. |
//! | `listen_each`, private | what `listen_by` passes, read after read | As `listen_until_with`. `NoMemory`: by `goes_on`, as either call. |
//!
//! Each asks the hearer for a pause after the results of a read, also if the read lost a value. `listen_with` doesn't ask whether the
//! hearer has enough; the other two ask before each read. At a fault nothing more is passed. `listen_with` and `listen_until_with` pass
//! nothing at the reader's end: `restart` or `finish` says what the end adds.
ghost use Rattle.std.specs.Prelude.{◌≡◌, ℕ, ◌+◌, ◌-◌, ◌<◌, ◌≤◌, Bool, true, false, List, [], ◌∷◌, ◌++◌, length, drop, Some, None, OnOk, OnErr, IfErr};
ghost use Rattle.line_io.specs.Device.{Gave};
ghost use Rattle.link.specs.Steps.{Course};
ghost use Rattle.link.specs.Finds.{IsTaken, lent_message};
ghost use Rattle.link.specs.Receivers.{SameTerms};
ghost use Rattle.link.specs.Lending.{StandsFurther};
ghost use Rattle.link.specs.Listening.{Hears, IsHeard, IsKeptDue, StopsAt};
ghost use Rattle.link.specs.Each.{Handed, HandsOn, Withholds, HearerLaws, Adds, AddsBy, ListensBy, ListensOnce, ListensUntil, IsAsked, BringsNone, ListensOut, MayLackMemory, hearing, listener_place};
ghost use Rattle.link.specs.declared.receiver.Answer.{Answer};
ghost use Rattle.line_io.specs.declared.transfers.End.TheVariants.{Ended, ReadFault, NoMemory as LacksMemory};

use crate::decoding::Decoding;
use crate::judging::MessageReader;
use crate::receiver::{Answer, NoMemory};
use crate::reception::{Reception, Taken, read};
use line_io::{End, Inlet};
use std::alloc::Global;

// The length of one read's buffer if the caller passes none.
const ROOM: usize = 1024;

/// What a receiver reports its results to, one by one and in order.
///
/// A program that needs no proof of its hearer takes `hears` and `laws` as below. The crate `example_hear` has one to copy.
///
/// # Example
/// ```rust
/// impl<'a> Hearer<Reading> for Printing<'a> {
///     ghost hears = { HeardAnyhow };
///
///     ghost laws = { heard_anyhow };
///
///     ghost enough = { λ it. it.failed };
///
///     ghost settled = { λ _. ⊤ };
///
///     fn hear(&mut self, answer: Answer<Reading>)
///         ensures { ⊤ }
///     {
///         if println!(self.rt; "{answer:?}").is_err() {
///             self.failed = true;
///         }
///     }
/// ```
pub trait Hearer<T> {
    /// What it becomes by these results, in order.
    ghost hears: { Self → List (Answer T) → Self → Type 0 };

    /// No results leave it as it is, and two lists of results make of it what their concatenation makes.
    ghost laws: { HearerLaws hears };

    /// Whether it has had enough.
    ghost enough: { Self → Bool };

    /// That nothing is left to flush.
    ghost settled: { Self → Type 0 };

    /// Takes a result.
    fn hear(&mut self, answer: Answer<T>)
        ensures { hears self.old (answer ∷ []) self.new };

    /// Flushes what was put off: called after the results of a read, or of the end, were reported.
    fn pause(&mut self)
        ensures heard { hears self.old [] self.new }
        ensures settles { settled self.new };

    /// Whether to stop. Asked before each read; the results of a read are all reported.
    fn has_enough(&self) -> bool
        ensures { result ≡ enough self.now };
}

// Passes on the result of what a receiver has found, if there is one.
fn hand<V, M: MessageReader<V>, H: Hearer<V>>(
    alloc: Global,
    messages: &M,
    taken: Taken<&[u8]>,
    hearer: &mut H,
) -> Result<(), NoMemory>
    ensures ok { OnOk result (Handed H.hears hearer.old hearer.new (λ answers.
        (limit : ℕ) (k : Course) → IsTaken limit k lent_message taken.entry
        → HandsOn (M.judging messages.now).holds (M.judging messages.now).reads k.event answers)) }
    ensures err { OnErr result ((hearer.new ≡ hearer.old)
        × ((limit : ℕ) (k : Course) → IsTaken limit k lent_message taken.entry
        → Withholds (M.judging messages.now).holds (M.judging messages.now).reads k.event)) }
    ensures memory { OnErr result ((M.judging messages.now).growing ≡ true) }
{
    match read(messages, alloc, taken) {
        Ok(None) => Ok(()),
        Ok(Some(answer)) => {
            hearer.hear(answer);
            Ok(())
        }
        Err(error) => Err(error),
    }
}

impl<D: Decoding> Reception<D> {
    // Takes a chunk without reporting a result.
    fn pass_over(&mut self, piece: &[u8])
        ensures stands { StandsFurther D.inside self.old self.new piece.now }
        ensures same { SameTerms D.inside self.old self.new }
    {
        let mut rest = piece;
        while !rest.is_empty() {
            let taken = self.take(rest);
            let (_, after) = rest.split_at(taken.used);
            rest = after;
        }
    }

    // Pushes a chunk until it is used up or a value can't be allocated, and passes on the results. Err has the bytes after that value.
    fn hand_on<'p, V, M: MessageReader<V>, H: Hearer<V>>(
        &mut self,
        alloc: Global,
        messages: &M,
        piece: &'p [u8],
        hearer: &mut H,
    ) -> Result<(), &'p [u8]>
        ensures ok { OnOk result (Adds D.inside (M.judging messages.now) H.hears piece.now
            self.old self.new hearer.old hearer.new) }
        ensures err { IfErr result (λ left. Handed H.hears hearer.old hearer.new (λ more.
            (limit s : ℕ) (stream : List ℕ) (given : List (Answer V))
            → Hears D.inside (M.judging messages.now).holds (M.judging messages.now).reads
            limit s self.old given stream
            → StopsAt D.inside (M.judging messages.now).holds (M.judging messages.now).reads
            limit s self.new (given ++ more) stream piece.now left.now)) }
        ensures shorter { IfErr result (λ left. length left.now < length piece.now) }
        ensures memory { OnErr result ((M.judging messages.now).growing ≡ true) }
        ensures same { SameTerms D.inside self.old self.new }
    {
        messages.show();
        let mut rest = piece;
        while !rest.is_empty() {
            let taken = self.take(rest);
            let (_, after) = rest.split_at(taken.used);
            if hand(alloc, messages, self.lend(taken), hearer).is_err() {
                return Err(after);
            }
            rest = after;
        }
        Ok(())
    }

    // The same until the chunk is used up. After a value that couldn't be allocated it continues, or passes no result on.
    fn hand_by<V, M: MessageReader<V>, H: Hearer<V>>(
        &mut self,
        goes_on: bool,
        alloc: Global,
        messages: &M,
        piece: &[u8],
        hearer: &mut H,
    ) -> Result<(), NoMemory>
        ensures ok { OnOk result (Adds D.inside (M.judging messages.now) H.hears piece.now
            self.old self.new hearer.old hearer.new) }
        ensures err { OnErr result (AddsBy D.inside (M.judging messages.now) H.hears goes_on
            piece.now self.old self.new hearer.old hearer.new (Some LacksMemory)) }
        ensures memory { OnErr result ((M.judging messages.now).growing ≡ true) }
        ensures same { SameTerms D.inside self.old self.new }
    {
        let mut rest = match self.hand_on(alloc, messages, piece, hearer) {
            Ok(()) => return Ok(()),
            Err(left) => left,
        };
        if !goes_on {
            self.pass_over(rest);
            return Err(NoMemory);
        }
        loop {
            match self.hand_on(alloc, messages, rest, hearer) {
                Ok(()) => return Err(NoMemory),
                Err(left) => rest = left,
            }
        }
    }

    // Reads once into a buffer, and passes on the results of the bytes.
    fn listen_by<V, M: MessageReader<V>, R: Inlet, H: Hearer<V>>(
        &mut self,
        goes_on: bool,
        alloc: Global,
        messages: &M,
        reader: &mut R,
        hearer: &mut H,
        room: &mut [u8],
    ) -> Option<End>
        requires { 0 < length room.old }
        ensures heard { (l : ListensBy D.inside (M.judging messages.now) H.hears goes_on
            (R.line reader.old) (R.line reader.new) self.old self.new hearer.old hearer.new result)
            × (length l.bytes ≤ length room.old) × BringsNone result l.bytes }
        ensures buffer { (bytes : List ℕ) × Gave (R.line reader.old) (R.line reader.new) bytes
            × (length bytes ≤ length room.old)
            × (room.new ≡ bytes ++ drop (length bytes) room.old) }
        ensures calls { (R.line reader.new).calls_left ≡ (R.line reader.old).calls_left - 1 }
        ensures once { (R.line reader.new).faults ≤ (R.line reader.old).faults + 1 }
        ensures spent { (R.line reader.old).calls_left ≡ 0 → result ≡ Some ReadFault }
        ensures memory { MayLackMemory (M.judging messages.now).growing result }
        ensures fault { result ≡ Some ReadFault → hearer.new ≡ hearer.old }
        ensures kept { result ≡ Some ReadFault → self.new ≡ self.old }
        ensures ended { result ≡ Some Ended → (self.new ≡ self.old) × (hearer.new ≡ hearer.old) }
        ensures settled { H.settled hearer.old → H.settled hearer.new }
        ensures same { SameTerms D.inside self.old self.new }
    {
        match reader.read(room) {
            None => Some(End::ReadFault),
            Some(0) => Some(End::Ended),
            Some(n) => match self.hand_by(goes_on, alloc, messages, &room[..n], hearer) {
                Ok(()) => {
                    hearer.pause();
                    None
                }
                Err(_) => {
                    hearer.pause();
                    Some(End::NoMemory)
                }
            },
        }
    }

    // Reads to the end, or until the hearer has had enough, and passes on the results.
    fn listen_each<V, M: MessageReader<V>, R: Inlet, H: Hearer<V>>(
        &mut self,
        goes_on: bool,
        alloc: Global,
        messages: &M,
        reader: &mut R,
        hearer: &mut H,
        room: &mut [u8],
    ) -> Option<End>
        requires { 0 < length room.old }
        ensures heard { (l : ListensBy D.inside (M.judging messages.now) H.hears goes_on
            (R.line reader.old) (R.line reader.new) self.old self.new hearer.old hearer.new result)
            × IsAsked D.inside (M.judging messages.now) H.hears H.enough H.settled (length room.old)
            (R.line reader.old) (R.line reader.new) result
            self.old hearer.old hearer.new l.adds.answers l.bytes }
        ensures enough { result ≡ None → H.enough hearer.new ≡ true }
        ensures fault { result ≡ Some ReadFault → H.enough hearer.new ≡ false }
        ensures once { (R.line reader.new).faults ≤ (R.line reader.old).faults + 1 }
        ensures settled { H.settled hearer.old → H.settled hearer.new }
        ensures memory { MayLackMemory (M.judging messages.now).growing result }
        ensures same { SameTerms D.inside self.old self.new }
    {
        loop {
            if hearer.has_enough() {
                return None;
            }
            if let Some(end) = self.listen_by(goes_on, alloc, messages, reader, hearer, room) {
                return Some(end);
            }
        }
    }

    // Passes on what the end of the stream adds, if the reader has ended.
    fn conclude_each<V, M: MessageReader<V>, H: Hearer<V>>(
        &self,
        messages: &M,
        hearer: &mut H,
        end: End,
    )
        ensures fault { end ≡ ReadFault → hearer.new ≡ hearer.old }
        ensures settled { H.settled hearer.old → H.settled hearer.new }
        ensures handed { Handed H.hears hearer.old hearer.new (λ more. (limit s : ℕ)
            (stream : List ℕ) (given : List (Answer V))
            → IsHeard D.inside (M.judging messages.now).holds (M.judging messages.now).reads
            limit s false end self.now given stream
            → IsKeptDue (M.judging messages.now).holds (M.judging messages.now).reads
            limit s end (given ++ more) stream) }
    {
        let _ = messages;
        match end {
            End::Ended => match self.ending() {
                Some(answer) => {
                    hearer.hear(answer);
                    hearer.pause();
                }
                None => {}
            },
            End::ReadFault => {}
            End::NoMemory => {}
        }
    }

    /// Reads once into a buffer of the caller, reports the results, and returns `None`; or why reading ended.
    ///
    /// At least one byte was read if it returns `None`. So a loop makes at most one call of the reader a byte, and one that ends
    /// the reading. The buffer may be kept for all reads, and its length bounds what one read brings. The bytes that came are at its
    /// start, as they came; the rest of it is unchanged.
    ///
    /// # Errors
    /// - `ReadFault`: a read failed. Receiver and hearer are unchanged, so a reader that had nothing yet may be listened to again.
    /// - `Ended`: the reader's end. Receiver and hearer are unchanged; `restart` or `finish` says what the end adds.
    /// - `NoMemory`: values could not be allocated. Only these are missing; everything else was reported, and listening may
    ///   continue.
    ///
    /// # Requires
    /// The buffer isn't empty.
    ///
    /// # Allocates
    /// What the values need.
    ///
    /// # Example
    /// ```rust
    /// let room = &mut [0u8; 16];
    /// match receiver.listen_with(alloc, &Ordinary(OfType), &mut line, &mut heard, room) {
    ///     None => {}
    ///     Some(end) => {
    ///         wants.expect(end == End::NoMemory);
    ///         wants.add();
    ///         lost = lost.saturating_add(1);
    ///     }
    /// }
    /// ```
    pub fn listen_with<V, M: MessageReader<V>, R: Inlet, H: Hearer<V>>(
        &mut self,
        alloc: Global,
        messages: &M,
        reader: &mut R,
        hearer: &mut H,
        room: &mut [u8],
    ) -> Option<End>
        requires { 0 < length room.old }
        ensures heard { ListensOnce D.inside (M.judging messages.now) H.hears (length room.old)
            (listener_place R.line reader.old self.old hearer.old)
            (listener_place R.line reader.new self.new hearer.new) result }
        ensures room { (bytes : List ℕ) × Gave (R.line reader.old) (R.line reader.new) bytes
            × (length bytes ≤ length room.old)
            × (room.new ≡ bytes ++ drop (length bytes) room.old) }
        ensures calls { (R.line reader.new).calls_left ≡ (R.line reader.old).calls_left - 1 }
        ensures once { (R.line reader.new).faults ≤ (R.line reader.old).faults + 1 }
        ensures spent { (R.line reader.old).calls_left ≡ 0 → result ≡ Some ReadFault }
        ensures memory { MayLackMemory (M.judging messages.now).growing result }
        ensures fault { result ≡ Some ReadFault → hearer.new ≡ hearer.old }
        ensures kept { result ≡ Some ReadFault → self.new ≡ self.old }
        ensures ended { result ≡ Some Ended → (self.new ≡ self.old) × (hearer.new ≡ hearer.old) }
        ensures settled { H.settled hearer.old → H.settled hearer.new }
        ensures same { SameTerms D.inside self.old self.new }
    {
        self.listen_by(true, alloc, messages, reader, hearer, room)
    }

    /// Listens until the hearer has had enough, and returns `None`; or why reading ended.
    ///
    /// The results of a read are all reported. At most one call of the reader a byte, and one that ends the reading.
    ///
    /// # Errors
    /// `ReadFault`, `Ended` and `NoMemory` as with `listen_with`; listening may continue after each.
    ///
    /// # Requires
    /// The buffer isn't empty.
    ///
    /// # Allocates
    /// What the values need.
    ///
    /// # Example
    /// ```rust
    /// let ordinary = Ordinary(OfType);
    /// let end = receiver.listen_until_with(
    ///     rt.alloc(),
    ///     &ordinary,
    ///     &mut reader,
    ///     &mut wanted,
    ///     &mut room,
    /// );
    /// ```
    pub fn listen_until_with<V, M: MessageReader<V>, R: Inlet, H: Hearer<V>>(
        &mut self,
        alloc: Global,
        messages: &M,
        reader: &mut R,
        hearer: &mut H,
        room: &mut [u8],
    ) -> Option<End>
        requires { 0 < length room.old }
        ensures heard { ListensUntil D.inside (M.judging messages.now)
            (hearing H.hears H.enough H.settled) (length room.old)
            (listener_place R.line reader.old self.old hearer.old)
            (listener_place R.line reader.new self.new hearer.new) result }
        ensures enough { result ≡ None → H.enough hearer.new ≡ true }
        ensures fault { result ≡ Some ReadFault → H.enough hearer.new ≡ false }
        ensures once { (R.line reader.new).faults ≤ (R.line reader.old).faults + 1 }
        ensures settled { H.settled hearer.old → H.settled hearer.new }
        ensures memory { MayLackMemory (M.judging messages.now).growing result }
        ensures same { SameTerms D.inside self.old self.new }
    {
        self.listen_each(true, alloc, messages, reader, hearer, room)
    }

    /// Reports each result once its last byte was read, up to the reader's end, and returns why it ended; `None` if the hearer had
    /// enough.
    ///
    /// It reads at most 1024 bytes at a time and asks the hearer before each read. A receiver that has begun a stretch continues
    /// it, so this may be called again after a fault, or once the hearer had enough.
    ///
    /// # Errors
    /// - `ReadFault`: a read failed; everything read before was reported.
    /// - `NoMemory`: a value could not be allocated. The results before it were reported, and the receiver has taken all that was
    ///   read. To continue after such a value use `listen_with`.
    ///
    /// # Allocates
    /// What the values need; no result is kept.
    ///
    /// # Example
    /// ```rust
    /// let mut receiver = Receiver::<16>::new();
    /// let mut printing = Printing {
    ///     rt: &rt,
    ///     failed: false,
    /// };
    /// let end = receiver.receive_each_with(rt.alloc(), &Ordinary(OfType), &mut reader, &mut printing);
    /// eprintln!(rt; "{end:?}")
    /// ```
    pub fn receive_each_with<V, M: MessageReader<V>, R: Inlet, H: Hearer<V>>(
        &mut self,
        alloc: Global,
        messages: &M,
        reader: &mut R,
        hearer: &mut H,
    ) -> Option<End>
        ensures received { ListensOut D.inside (M.judging messages.now)
            (hearing H.hears H.enough H.settled)
            (listener_place R.line reader.old self.old hearer.old)
            (listener_place R.line reader.new self.new hearer.new) result }
        ensures enough { result ≡ None → H.enough hearer.new ≡ true }
        ensures fault { result ≡ Some ReadFault → H.enough hearer.new ≡ false }
        ensures once { (R.line reader.new).faults ≤ (R.line reader.old).faults + 1 }
        ensures settled { H.settled hearer.old → H.settled hearer.new }
        ensures memory { MayLackMemory (M.judging messages.now).growing result }
        ensures same { SameTerms D.inside self.old self.new }
    {
        match self.listen_each(false, alloc, messages, reader, hearer, &mut [0u8; ROOM]) {
            Some(end) => {
                self.conclude_each(messages, hearer, end);
                Some(end)
            }
            None => None,
        }
    }
}
