//! What a reply says that came over two lines on which each send may be interrupted.
ghost use Rattle.calls_laws.specs.Headline.{WentOver, RepliesAreRight};

use crate::heard::SentReader;
use postcard::{Lawful, Readable};

/// Over two lines that deliver a prefix of what was written, every send perhaps interrupted at any byte: a reply under a call's
/// number is, by `alike`, what the application said when it executed a request alike the one that was called, and it executed it
/// once.
///
/// That holds whatever the server served before: if it had kept a reply under that number, it may be that one, to a request that is
/// equal by the `==` of its type.
///
/// # Requires
/// The client sends one request under a number (`calls::laws::one_per_number`), the server serves what the first line delivers, and
/// no frame exceeds the receivers' limits. Either reading may have ended in any way, and be ordinary or strict. The greatest number
/// is no call's.
pub fn calls<Q: Lawful, R: Lawful, M: SentReader<(u64, Q)>, K: SentReader<(u64, R)>>(
    requests_by: &M,
    replies_by: &K,
)
    ensures { RepliesAreRight Q.form.alike R.form.alike
        (WentOver ⟦<(u64, Q) as Readable>⟧.form (M.judging requests_by.now))
        (WentOver ⟦<(u64, R) as Readable>⟧.form (K.judging replies_by.now)) }
{
    requests_by.show_sent();
    replies_by.show_sent();
    calls::laws::replied::<Q, R>();
    calls::laws::executes_once::<Q, R>();
}
