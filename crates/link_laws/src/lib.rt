//! The laws of streams and of runs of sends, whatever is sent and however the bytes are split: what is received of what was sent.
//!
//! The functions do nothing; a proof calls one for its contract, which is the law. `headline` has calls whose contracts join sending and
//! receiving, `rows` worked rows of the definitions. All laws hold for every limit and sentinel.
//!
//! It is a crate of its own, since a program that sends and receives doesn't need it: each call of `link` states its own contract, by the
//! same definitions.
#![tactic(auto)]

ghost use Rattle.cobs.specs.Sentinel.{masked};
ghost use Rattle.std.specs.Prelude.{◌≡◌, ◌↔◌, ℕ, List, Some};
ghost use Rattle.postcard_tree.specs.Tree.{Tree};
ghost use Rattle.postcard.specs.Frames.{Holds};
ghost use Rattle.link.specs.Stream.{Verdict, HoldsExactly, IsAnswer};
ghost use Rattle.link_laws.specs.Answered.{IsToldAs, IsFrameOf};
ghost use Rattle.link_laws.specs.Relational.{IsHeardStepwise, IsUnfinishedPart};
ghost use Rattle.link.specs.Roads.{IsSameInPlace, IsSameByAccumulator};
ghost use Rattle.link_laws.specs.Values.{IsToldByValues, AreGivenBack};
ghost use Rattle.link_laws.specs.Sessions.{CarriesValues};
ghost use Rattle.link_laws.specs.Pieced.{AreOfTheWhole};
ghost use Rattle.link_laws.specs.Limits.{IsSetAnew};
ghost use Rattle.link.specs.Fates.{IsCarried};
ghost use Rattle.link_laws.specs.Crashes.{IsHeardBetween, IsLeft, RunsGoOn};
ghost use Rattle.link.specs.Laws.{IsRunWithin, IsTold, HasOneAnswer, Appends, IsLocal, StartsAnywhere, IsDamagedInFronts, IsInjective, IsLeast, DiffersByBlock};

pub mod headline;
pub mod rows;

use link::Answer;
use postcard::{Exact, Lawful, Readable, Serialize};

/// For every run of sends of a type's trees, by one sender or several in turn, each perhaps interrupted at any byte: the results of its
/// line are exactly what `told` says of the run. The frames are within the receiver's limit.
pub fn told<T: Readable>()
    ensures ordinary { (limit s : ℕ) → IsTold T.form.takes (Holds T.form.takes) limit s }
    ensures strict { (limit s : ℕ) → IsTold T.form.takes (HoldsExactly T.form.takes) limit s }
{
    cobs::laws::message_of_a_frame();
    cobs::laws::frames_of_a_message();
    cobs::laws::nonzero();
    cobs::laws::fronts();
    postcard_tree::laws::short_is_a_spelling();
    postcard::laws::beginnings::<T>();
}

/// As `told`, for the results that a receiver gives: each value is what its tree is read as.
pub fn told_as<T: Readable>(answers: &[Answer<T>])
    ensures ordinary { (limit s : ℕ)
        → IsToldAs T.form.takes (Holds T.form.takes) T.form.reads answers.now limit s }
    ensures strict { (limit s : ℕ)
        → IsToldAs T.form.takes (HoldsExactly T.form.takes) T.form.reads answers.now limit s }
{
    told::<T>();
}

/// As `told`, for a run of a lawful type's values: a receiver's results are, one by one, alike what `told` says of them.
pub fn told_by_values<T: Lawful>(answers: &[Answer<T>])
    ensures ordinary { (limit s : ℕ) → IsToldByValues T.form.takes
        (Holds T.form.takes) T.form.reads T.form.alike T.form.writes T.form.valid answers.now
        limit s }
    ensures strict { (limit s : ℕ) → IsToldByValues T.form.takes
        (HoldsExactly T.form.takes) T.form.reads T.form.alike T.form.writes T.form.valid answers.now
        limit s }
{
    told_as(answers);
}

/// If all sends of a run of a lawful type's values completed, a receiver's results are values, one by one alike those sent.
pub fn given_back<T: Lawful>(answers: &[Answer<T>])
    ensures ordinary { (limit s : ℕ) → AreGivenBack T.form.takes
        (Holds T.form.takes) T.form.reads T.form.alike T.form.writes T.form.valid answers.now
        limit s }
    ensures strict { (limit s : ℕ) → AreGivenBack T.form.takes
        (HoldsExactly T.form.takes) T.form.reads T.form.alike T.form.writes T.form.valid answers.now
        limit s }
{
    told_by_values(answers);
}

/// A session of a lawful type's values is one of trees that the type accepts, as `told` requires.
pub fn carried<T: Lawful>(values: &[T])
    ensures { IsCarried T.form.takes T.form.writes T.form.valid values.now }
{}

/// A line carries a lawful type's values: the type accepts what its valid values are written as, and the results of the line of a run of
/// them are, one by one, alike what `told` says of it. The laws of `specs/Sessions.antt` start here.
pub fn carries<T: Lawful>()
    ensures { CarriesValues T.form.takes T.form.reads T.form.alike T.form.writes T.form.valid }
{
    told::<T>();
}

/// The results of a run have the value of each send that completed, in order, and none that wasn't sent: the completed ones are among
/// those received, and these are among those tried.
pub fn between<T: Readable>()
    ensures ordinary { (limit s : ℕ) → IsHeardBetween T.form.takes (Holds T.form.takes) limit s }
    ensures strict { (limit s : ℕ) → IsHeardBetween T.form.takes
        (HoldsExactly T.form.takes) limit s }
{
    told::<T>();
}

/// A prefix of a run's line, as a crash or a full disk leaves it, is the line of a run: of the sends whose bytes are all there, and an
/// interrupted one. Runs one after another are a run.
pub fn left<T: Readable>()
    ensures front { (limit s : ℕ) → IsLeft T.form.takes limit s }
    ensures goes_on { (limit s : ℕ) → RunsGoOn T.form.takes limit s }
{}

/// What was sent with frames within a limit was sent with frames within every greater limit.
pub fn within<T: Readable>()
    ensures { (s : ℕ) → IsRunWithin T.form.takes s }
{}

/// The results of a stream don't depend on how it is split into chunks.
pub fn over_pieces<T: Readable>()
    ensures ordinary { (limit s : ℕ) → AreOfTheWhole (Holds T.form.takes) limit s }
    ensures strict { (limit s : ℕ) → AreOfTheWhole (HoldsExactly T.form.takes) limit s }
{}

/// If a limit is changed between stretches, the bytes before are received by the old limit, and those after by the new one.
pub fn set_anew<T: Readable>()
    ensures ordinary { (s : ℕ) → IsSetAnew (Holds T.form.takes) s }
    ensures strict { (s : ℕ) → IsSetAnew (HoldsExactly T.form.takes) s }
{}

/// A stream has at most one list of results.
pub fn one_answer<T: Readable>()
    ensures ordinary { (limit s : ℕ) → HasOneAnswer (Holds T.form.takes) limit s }
    ensures strict { (limit s : ℕ) → HasOneAnswer (HoldsExactly T.form.takes) limit s }
{
    cobs::laws::message_of_a_frame();
    cobs::laws::frames_of_a_message();
    postcard_tree::laws::short_is_a_spelling();
}

/// After a sentinel, and at the start, the results of what follows are those that it has alone.
pub fn append<T: Readable>()
    ensures ordinary { (limit s : ℕ) → Appends (Holds T.form.takes) limit s }
    ensures strict { (limit s : ℕ) → Appends (HoldsExactly T.form.takes) limit s }
{}

/// What is changed, lost or added in a line changes no result of what ends before it or begins after the next sentinel.
pub fn local<T: Readable>()
    ensures ordinary { (limit s : ℕ) → IsLocal (Holds T.form.takes) limit s }
    ensures strict { (limit s : ℕ) → IsLocal (HoldsExactly T.form.takes) limit s }
{
    cobs::laws::message_of_a_frame();
    cobs::laws::frames_of_a_message();
    postcard_tree::laws::short_is_a_spelling();
}

/// A receiver that joins a line anywhere receives, from the next sentinel on, what all others receive.
pub fn start_anywhere<T: Readable>()
    ensures ordinary { (limit s : ℕ) → StartsAnywhere (Holds T.form.takes) limit s }
    ensures strict { (limit s : ℕ) → StartsAnywhere (HoldsExactly T.form.takes) limit s }
{}

/// A nonempty proper prefix of a frame that sending writes is `Damaged`.
pub fn fronts_damaged<T: Readable>()
    ensures { (limit : ℕ) → IsDamagedInFronts T.form.takes limit }
{
    cobs::laws::message_of_a_frame();
    cobs::laws::frames_of_a_message();
    cobs::laws::nonzero();
    cobs::laws::fronts();
    postcard_tree::laws::short_is_a_spelling();
    postcard::laws::beginnings::<T>();
}

/// A value that is received for a valid value is alike it.
///
/// # Requires
/// The value that was sent is valid.
pub fn as_sent<T: Lawful>(sent: &T, answered: &T)
    requires { T.form.valid sent.now }
    ensures { (t : Tree) → T.form.writes sent.now ≡ Some t
        → T.form.reads t answered.now → T.form.alike sent.now answered.now }
{}

/// Strictly, a stretch holds the tree of a value of an exact type exactly if it is the frame of that value.
pub fn strict_value<T: Exact>(value: &T)
    ensures { (stretch : List ℕ) (t : Tree) → T.form.reads t value.now
        → HoldsExactly T.form.takes stretch t ↔ IsFrameOf (T.form.writes value.now) stretch }
{}

/// Streams without a leading sentinel or two in a row, each empty or ending in one, and all of whose strict results are values, are
/// equal exactly if these values are.
pub fn strict_injective<T: Readable>()
    ensures { (limit s : ℕ) → IsInjective T.form.takes limit s }
{
    cobs::laws::message_of_a_frame();
    cobs::laws::frames_of_a_message();
    postcard_tree::laws::short_is_a_spelling();
}

/// A stretch whose result is a value is no shorter than the frame that sending writes for it.
pub fn least<T: Readable>()
    ensures { (limit : ℕ) → IsLeast T.form.takes limit }
{
    cobs::laws::message_of_a_frame();
    cobs::laws::frames_of_a_message();
    cobs::laws::thinner();
    postcard_tree::laws::short_is_a_spelling();
    postcard::laws::patterns();
}

/// The results of a stream by its stretches, one by one.
pub fn stepwise<T: Readable>()
    ensures ordinary { (limit : ℕ) (said : List ℕ → List Verdict) (s : ℕ)
        → IsHeardStepwise (IsAnswer (Holds T.form.takes) limit) said s }
    ensures strict { (limit : ℕ) (said : List ℕ → List Verdict) (s : ℕ)
        → IsHeardStepwise (IsAnswer (HoldsExactly T.form.takes) limit) said s }
    ensures unfinished { (s : ℕ) → IsUnfinishedPart s }
{}

/// The frame that postcard's own flavor writes of a value differs from the one that sending writes by at most one block 01.
pub fn sender_roads<T: Serialize>(value: &T)
    ensures { DiffersByBlock (T.form.writes value.now) }
{
    cobs::laws::frames_of_a_message();
}

/// At the sentinel zero, the bytes on the line are unchanged.
pub fn zero_sentinel()
    ensures { (bytes : List ℕ) → masked 0 bytes ≡ bytes }
{}

/// If the ended stretches with their sentinels fit a receiver, its values, those of reading in place and those of an accumulator of that
/// size are the same; for a type that can allocate, the accumulator may lack some.
pub fn roads<T: Readable>(values: &[T])
    ensures in_place { (s : ℕ) → IsSameInPlace (Holds T.form.takes) s }
    ensures accumulator { (s : ℕ) → IsSameByAccumulator T.form.takes T.form.reads T.form.growing
        values.now s }
{
    cobs::laws::message_of_a_frame();
    cobs::laws::frames_of_a_message();
    postcard_tree::laws::short_is_a_spelling();
}
