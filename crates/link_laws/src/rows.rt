//! Worked rows of the definitions: the line of a run, and its results.
#![tactic(auto, unfolding(postcard_tree::specs::Spelling::varint, postcard_tree::specs::Spelling::single))]

ghost use Rattle.std.specs.Prelude.{◌≡◌, List, [], ◌∷◌};
ghost use Rattle.link.specs.Stream.{Verdict, damaged, value, cut};
ghost use Rattle.link.specs.Run.{Send, completed, broken, refused, line, told};
ghost use Rattle.postcard.specs.Frames.{Holds};
ghost use Rattle.postcard_tree.specs.Reading.{TakesNumber};
ghost use Rattle.link.specs.Stream.{Answers};
ghost use Rattle.link_laws.specs.Rows.{t300, t5, true_tree};

/// A send that is interrupted in its frame and repeated.
pub fn broken_and_sent_again()
    ensures line { line 0 ((broken t300 3 ∷ completed t300 ∷ []) ∷ [])
        ≡ 0 ∷ 3 ∷ 172 ∷ 0 ∷ 3 ∷ 172 ∷ 2 ∷ 0 ∷ [] }
    ensures told { told 0 ((broken t300 3 ∷ completed t300 ∷ []) ∷ []) ≡ damaged ∷ value t300 ∷ [] }
{}

/// A send that is interrupted after its whole frame and repeated is received twice.
pub fn whole_and_sent_again()
    ensures line { line 0 ((broken t300 4 ∷ completed t300 ∷ []) ∷ [])
        ≡ 0 ∷ 3 ∷ 172 ∷ 2 ∷ 0 ∷ 3 ∷ 172 ∷ 2 ∷ 0 ∷ [] }
    ensures told { told 0 ((broken t300 4 ∷ completed t300 ∷ []) ∷ [])
        ≡ value t300 ∷ value t300 ∷ [] }
{}

/// Sends that are interrupted before their first byte and after their first sentinel.
pub fn nothing_went_out()
    ensures none { told 0 ((broken t300 0 ∷ completed t300 ∷ []) ∷ []) ≡ value t300 ∷ [] }
    ensures line { line 0 ((broken t300 1 ∷ completed t300 ∷ []) ∷ [])
        ≡ 0 ∷ 0 ∷ 3 ∷ 172 ∷ 2 ∷ 0 ∷ [] }
    ensures sentinel { told 0 ((broken t300 1 ∷ completed t300 ∷ []) ∷ []) ≡ value t300 ∷ [] }
{}

/// Three senders in turn: the first is interrupted in its frame, the second before its first byte.
pub fn three_senders()
    ensures line { line 0 ((broken t300 2 ∷ []) ∷ (broken t5 0 ∷ []) ∷ (completed t5 ∷ []) ∷ [])
        ≡ 0 ∷ 3 ∷ 0 ∷ 2 ∷ 5 ∷ 0 ∷ [] }
    ensures told { told 0 ((broken t300 2 ∷ []) ∷ (broken t5 0 ∷ []) ∷ (completed t5 ∷ []) ∷ [])
        ≡ damaged ∷ value t5 ∷ [] }
    ensures line_later { line 0
        ((broken t300 2 ∷ []) ∷ (broken t5 1 ∷ []) ∷ (completed t5 ∷ []) ∷ [])
        ≡ 0 ∷ 3 ∷ 0 ∷ 0 ∷ 2 ∷ 5 ∷ 0 ∷ [] }
    ensures told_later { told 0
        ((broken t300 2 ∷ []) ∷ (broken t5 1 ∷ []) ∷ (completed t5 ∷ []) ∷ [])
        ≡ damaged ∷ value t5 ∷ [] }
{}

/// A whole frame that no sentinel follows, and one that another sender's sentinel follows.
pub fn whole_frame()
    ensures line { line 0 ((broken t300 4 ∷ []) ∷ []) ≡ 0 ∷ 3 ∷ 172 ∷ 2 ∷ [] }
    ensures told { told 0 ((broken t300 4 ∷ []) ∷ []) ≡ cut ∷ [] }
    ensures line_later { line 0 ((broken t300 4 ∷ []) ∷ (broken t5 1 ∷ []) ∷ [])
        ≡ 0 ∷ 3 ∷ 172 ∷ 2 ∷ 0 ∷ [] }
    ensures told_later { told 0 ((broken t300 4 ∷ []) ∷ (broken t5 1 ∷ []) ∷ []) ≡ value t300 ∷ [] }
{}

/// Another sentinel.
pub fn another_sentinel()
    ensures { line 10 ((completed t300 ∷ []) ∷ []) ≡ 10 ∷ 9 ∷ 166 ∷ 8 ∷ 10 ∷ [] }
{}

/// The results of a receiver of `u32` with a limit of 8 bytes, on the line of three senders.
pub fn heard_of_three_senders()
    ensures { Answers (Holds (TakesNumber 32)) 8 0
        (0 ∷ 3 ∷ 0 ∷ 0 ∷ 2 ∷ 5 ∷ 0 ∷ []) (damaged ∷ value t5 ∷ []) }
{
    crate::told::<u32>();
}

/// A new sender with the sentinel FF that sends true.
pub fn sentinel_of_ones()
    ensures line { line 255 ((completed true_tree ∷ []) ∷ []) ≡ 255 ∷ 253 ∷ 254 ∷ 255 ∷ [] }
    ensures told { told 255 ((completed true_tree ∷ []) ∷ []) ≡ value true_tree ∷ [] }
{}

/// With the sentinel 0A, a send that is interrupted in its frame and repeated by another sender, and the results of a receiver of `u32`
/// with a limit of 8 bytes.
pub fn heard_with_another_sentinel()
    ensures line { line 10 ((broken t300 2 ∷ []) ∷ (completed t300 ∷ []) ∷ [])
        ≡ 10 ∷ 9 ∷ 10 ∷ 9 ∷ 166 ∷ 8 ∷ 10 ∷ [] }
    ensures heard { Answers (Holds (TakesNumber 32)) 8 10
        (10 ∷ 9 ∷ 10 ∷ 9 ∷ 166 ∷ 8 ∷ 10 ∷ []) (damaged ∷ value t300 ∷ []) }
{
    crate::told::<u32>();
}
