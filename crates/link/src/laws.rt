//! Laws: which limit a type's frames need, what strict reception depends on, and what reading in place gives in turn. Each function does
//! nothing; a proof calls it for its contract. The laws of streams and of runs of sends are in the crate `link_laws`.
ghost use Rattle.std.specs.Prelude.{ℕ};
ghost use Rattle.link.specs.Laws.{HasRoom, IsToldByLengths, IsReadInTurn};
ghost use Rattle.link.specs.Link.{IsWithinLengths};

use postcard::Readable;
use postcard::experimental::max_size::MaxWritten;

/// The frame of a value that can be encoded is within every limit that is at least the longest frame of its type's greatest size.
pub fn room<T: MaxWritten>(value: &T)
    ensures { HasRoom T.greatest (T.form.writes value.now) }
{
    postcard::laws::within_greatest(value);
    cobs::laws::lengths();
}

/// The shortest frame of n bytes has at least n + 1 bytes, and one more for each 254 of them at most.
pub fn frame_lengths()
    ensures { IsWithinLengths }
{
    cobs::laws::lengths();
}

/// Two lengths decide whether sending writes a stretch that holds a tree.
pub fn by_lengths<T: Readable>()
    ensures { IsToldByLengths T.form.takes }
{
    cobs::laws::message_of_a_frame();
    cobs::laws::frames_of_a_message();
    postcard_tree::laws::short_is_a_spelling();
    postcard_tree::laws::short_is_the_shortest();
}

/// Repeated `read_in_place`, until nothing is left, gives the results of reading in place, whose values are the receiver's by `roads`
/// of the crate `link_laws`.
pub fn in_turn<T: Readable>()
    ensures { (s : ℕ) → IsReadInTurn T.form.takes T.form.reads s }
{}
