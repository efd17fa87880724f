//! What is received of what is sent. Each function does nothing, and its contract is a law: call it where a proof needs that law.
ghost use Rattle.std.specs.Prelude.{ℕ};
ghost use Rattle.link.specs.Laws.{IsTold};
ghost use Rattle.frames.specs.Events.{TakesCounted, HoldsCounted};
ghost use Rattle.frames.specs.CountedLaws.{IsCountedOnce};
ghost use Rattle.frames.specs.PlainLaws.{IsHeardOfFront, IsHeardOfBroken, IsHeardWhole};

/// States `link`'s main theorem for counted messages.
///
/// Of a run of sends, each possibly interrupted at any byte, a receiver reports what `told` says, and nothing else. What `send` writes
/// is such a send, of a tree that is taken, and is read as the message that was sent.
pub fn counted()
    ensures told { (limit s : ℕ) → IsTold TakesCounted HoldsCounted limit s }
    ensures once { IsCountedOnce }
{
    link_laws::told::<&[u8]>();
}

/// States what is received of a plain send.
///
/// If it is interrupted inside its frame: nothing, damaged, too long, or a message that is a proper prefix of the one sent; what is sent
/// after it is received as it is alone. If its frame was sent whole: its message.
pub fn plain()
    ensures front { IsHeardOfFront }
    ensures broken { IsHeardOfBroken }
    ensures whole { IsHeardWhole }
{
    cobs::laws::nonzero();
    cobs::laws::fronts();
    cobs::laws::frames_of_a_message();
    cobs::laws::message_of_a_frame();
}
