//! The results of a stream, as texts.
ghost use Rattle.std.specs.Prelude.{◌≡◌, ◌+◌, ◌≤◌, Some, None, true, false};
ghost use Rattle.framed_lib.specs.Live.{HandsTexts};
ghost use Rattle.line_io.specs.declared.transfers.End.TheVariants.{ReadFault};
ghost use Rattle.link.specs.Each.{hearing, UsesFew, last_call};

use line_io::{End, Inlet};
use link::{Hearer, OfType, Ordinary, Receiver, Strict};
use std::alloc::Global;

/// Reports the results of everything that a reader gives, each once its last byte was read, and returns why the reader ended; `None` if
/// the hearer had enough.
///
/// The hearer is asked before each read, of at most 1024 bytes. Strictly, only a stretch that sending writes is a text.
///
/// # Errors
/// `NoMemory`: the results before the value that could not be allocated were reported.
///
/// # Allocates
/// A `String` for each value. An `ArrayString<1024>` would allocate nothing, but is moved ten times: 78 instructions for each byte of short
/// lines in place of 37.
pub fn hand_texts<R: Inlet, H: Hearer<String>>(
    alloc: Global,
    strict: bool,
    sentinel: u8,
    reader: &mut R,
    hearer: &mut H,
) -> Option<End>
    ensures received { HandsTexts (hearing H.hears H.enough H.settled) strict sentinel
        (R.line reader.old, hearer.old) (R.line reader.new, hearer.new) result }
    ensures enough { result ≡ None → H.enough hearer.new ≡ true }
    ensures fault { result ≡ Some ReadFault → H.enough hearer.new ≡ false }
    ensures settled { H.settled hearer.old → H.settled hearer.new }
    ensures once { (R.line reader.new).faults ≤ (R.line reader.old).faults + 1 }
    ensures few { UsesFew (R.line reader.old) (R.line reader.new) (last_call result) }
{
    let mut receiver = Receiver::<1024>::new_with_sentinel(sentinel);
    if strict {
        return receiver.receive_each_with(alloc, &Strict(OfType), reader, hearer);
    }
    receiver.receive_each_with(alloc, &Ordinary(OfType), reader, hearer)
}
