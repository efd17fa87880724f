//! What receives the results of a log.
ghost use Rattle.std.specs.Prelude.{◌≡◌, ℕ, List, [], ◌∷◌, ◌++◌, OnOk, OnErr, ⊤};
ghost use Rattle.link.specs.Listening.{IsFilled};
ghost use Rattle.link.specs.declared.receiver.Answer.{Answer};
ghost use Rattle.journal.specs.Visits.{VisitorLaws};

use link::Answer;
use std::alloc::Global;
use thiserror::Error;

/// A visitor wants no more results, for example because it is out of memory.
///
/// Example: see [`Visitor`].
#[derive(Clone, Copy, PartialEq, Eq, Debug, Drop, Error)]
#[error("halted")]
pub struct Halt;

/// Receives the results of a log, in order: it may keep, count, print or copy them.
///
/// # Example
/// ```rust
/// impl Visitor<Entry> for Sum {
///     ghost took = { λ _ _ _. ⊤ };
///
///     ghost halts = { λ _. ⊤ };
///
///     ghost laws = { record { nothing = λ s. tt; more = λ s t u a b p q. tt } };
///
///     fn visit(&mut self, answer: Answer<(u64, Entry)>) -> Result<(), Halt>
///         ensures took { OnOk result ⊤ }
///         ensures halts { OnErr result ⊤ }
///     {
///         let Answer::Value((number, Sealed((sealed, value)))) = answer else {
///             return Err(Halt);
///         };
///         if number == sealed {
///             self.total = self.total.saturating_add(value as u64);
///         }
///         Ok(())
///     }
/// }
/// ```
pub trait Visitor<T> {
    /// It was handed these results in turn: the visitor before, the results, the visitor after.
    ghost took: { Self → List (Answer (ℕ × T)) → Self → Type 0 };

    /// Holds if it may halt; the empty type for one that never does.
    ghost halts: { Self → Type 0 };

    /// Receives the next result.
    ///
    /// # Errors
    /// `Halt`: it wants no more, and reading stops.
    fn visit(&mut self, answer: Answer<(u64, T)>) -> Result<(), Halt>
        ensures took { OnOk result (took self.old (answer ∷ []) self.new) }
        ensures halts { OnErr result (halts self.old) };

    /// Results that were handed on in turn were handed on as one list.
    ghost laws: { VisitorLaws took };
}

/// A visitor that keeps all results. It halts only if no memory is left for the next result, with the list full to its allocated
/// capacity (`IsFilled`).
///
/// # Allocates
/// What the list grows by, at each result.
///
/// # Example
/// ```rust
/// let mut list = Listed::<Entry>::new(alloc);
/// match read_all::<Entry, Strict<OfType>, MemoryStore, Listed<Entry>, N>(
///     alloc,
///     store,
///     0,
///     &Strict(OfType),
///     &mut list,
/// ) {
///     Ok(_) => bits(&list.answers),
///     Err(_) => None,
/// }
/// ```
#[derive(Drop)]
pub struct Listed<T> {
    /// The results so far.
    pub answers: Vec<Answer<(u64, T)>>,
}

impl<T> Listed<T> {
    /// A list of no results. Doesn't allocate yet.
    pub fn new(alloc: Global) -> Listed<T>
        ensures { result.answers.items ≡ [] }
    {
        Listed {
            answers: Vec::new(alloc),
        }
    }
}

impl<T: Drop> Visitor<T> for Listed<T> {
    ghost use Rattle.std.proofs.Common.{sym, ◌∙◌, ap, append_assoc, append-nil};

    ghost took = { λ l a m. m.answers.items ≡ l.answers.items ++ a };

    // as a list with a free place always takes the next result
    ghost halts = { λ l. IsFilled l.answers };

    ghost laws = { record {
      nothing = λ l. sym (append-nil l.answers.items);
      more = λ l m n a b p q. q ∙ ap (λ x. x ++ b) p ∙ append_assoc l.answers.items a b;
    } };

    fn visit(&mut self, answer: Answer<(u64, T)>) -> Result<(), Halt>
        ensures took { OnOk result
            (self.new.answers.items ≡ self.old.answers.items ++ answer ∷ []) }
        ensures halts { OnErr result (IsFilled self.old.answers) }
        ensures kept { OnErr result (self.new.answers.items ≡ self.old.answers.items) }
    {
        match self.answers.push(answer) {
            Ok(()) => Ok(()),
            Err(_) => Err(Halt),
        }
    }
}

/// A visitor that keeps nothing and never halts: for a log that is only appended to.
///
/// Example: see [`Journal::open`].
#[derive(Clone, Copy, Debug, Drop)]
pub struct Unheard;

impl<T: Drop> Visitor<T> for Unheard {
    ghost took = { λ _ _ _. ⊤ };

    ghost halts = { λ _. ⊥ };

    ghost laws = { record { nothing = λ s. tt; more = λ s t u a b p q. tt } };

    fn visit(&mut self, _answer: Answer<(u64, T)>) -> Result<(), Halt>
        ensures took { OnOk result ⊤ }
        ensures halts { OnErr result ⊥ }
    {
        Ok(())
    }
}
