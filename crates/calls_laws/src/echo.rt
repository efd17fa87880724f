//! What a line that gives back what is sent, as one with two wires does, delivers to either side.
ghost use Rattle.calls_laws.specs.Headline.{WentOver};
ghost use Rattle.calls_laws.specs.Echo.{SaysReplies, NoRequest, NoReply, ServerHearsNothing, ClientHearsNothing};

use crate::heard::SentReader;
use calls::{Application, Numbered};
use postcard::{Lawful, Readable};

/// Whatever requests [`Checked`](calls::Checked) hands on to a new server with [`Numbering`](calls::Numbering): all that it sends
/// is a reply or a notice, whose number inside is the one after the number outside. The same holds for a server that had kept a
/// reply.
pub fn says_replies<A: Application<Q, R>, Q, R, const K: u32>()
    ensures { SaysReplies K A.executes A.passes }
{}

/// A reply is no request, and a request no reply, of any types and under any keys: bytes that begin with one, however they are
/// read, are damage to [`Checked`](calls::Checked), or to [`Replies`](calls::Replies). The two numbers decide it, and no sum.
pub fn told_apart<Q: Readable, R: Readable, const K: u32, const L: u32>()
    ensures server { NoRequest ⟦<(u64, Numbered<R, K>) as Readable>⟧.form.reads
        ⟦<(u64, Numbered<Q, L>) as Readable>⟧.form.reads }
    ensures client { NoReply ⟦<(u64, Numbered<Q, L>) as Readable>⟧.form.reads
        ⟦<(u64, Numbered<R, K>) as Readable>⟧.form.reads }
{}

/// Requests and replies of one type, over a line that delivers a prefix of what was written, every send perhaps interrupted at any
/// byte: a server that receives what servers sent, by [`Checked`](calls::Checked), gets no request and executes nothing; a client
/// that receives what clients asked, by [`Replies`](calls::Replies), gets no reply.
pub fn silence<T: Lawful, M: SentReader<(u64, Numbered<T, K>)>, const K: u32>(messages: &M)
    ensures server { ServerHearsNothing
        (WentOver ⟦<(u64, Numbered<T, K>) as Readable>⟧.form (M.judging messages.now)) }
    ensures client { ClientHearsNothing
        (WentOver ⟦<(u64, Numbered<T, K>) as Readable>⟧.form (M.judging messages.now)) }
{
    messages.show_sent();
}
