//! Serving everything that a reader provides.
ghost use Rattle.std.specs.Prelude.{◌≡◌, Some, false, ⊤};
ghost use Rattle.link.specs.Receivers.{SameTerms};
ghost use Rattle.link.specs.Each.{ListensOut, MayLackMemory, hearing, listener_place};
ghost use Rattle.calls.specs.Serving.{ServiceHears, serving};

use crate::server::Application;
use crate::service::Service;
use line_io::{Inlet, Outlet};
use link::{Decoding, End, MessageReader, Reception};
use postcard::{Readable, Serialize};
use std::alloc::Global;

/// Serves the requests among everything that a reader provides, until it ends or fails, each as soon as its last byte was read.
///
/// Returns why it stopped. The receiver continues in a stream of which it was given a part, so this can be called again after a
/// fault. Whatever bytes come: what is executed are requests whose whole frames came, in their order, each number at most once, and
/// the replies are one session. It uses at most one call of the reader for each byte, and one more.
///
/// # Errors
/// - `ReadFault`: a read failed; everything read before was served.
/// - `NoMemory`: a request couldn't be allocated. The requests before it were served, and at least one result is missing.
///
/// # Allocates
/// What the requests need.
///
/// # Example
/// ```rust
/// let mut receiver = Receiver::<8>::new();
/// Some(serve_with(alloc, &mut receiver, &Ordinary(OfType), reader, service))
/// ```
pub fn serve_with<
    Q: PartialEq + Drop,
    R: Serialize + Drop,
    A: Application<Q, R>,
    M: MessageReader<(u64, Q)>,
    I: Inlet,
    W: Outlet,
    D: Decoding,
    const N: usize,
>(
    alloc: Global,
    receiver: &mut Reception<D>,
    messages: &M,
    reader: &mut I,
    service: &mut Service<A, W, Q, R, N>,
) -> End
    ensures served { ListensOut D.inside (M.judging messages.now)
        (hearing (ServiceHears (serving A.executes Q.eq A.passes) W.line
        ⟦<(u64, R) as Readable>⟧.form) (λ _. false) (λ _. ⊤))
        (listener_place I.line reader.old receiver.old service.old)
        (listener_place I.line reader.new receiver.new service.new) (Some result) }
    ensures memory { MayLackMemory (M.judging messages.now).growing (Some result) }
    ensures same { SameTerms D.inside receiver.old receiver.new }
{
    match receiver.receive_each_with(alloc, messages, reader, service) {
        Some(end) => end,
        None => unreachable!(),
    }
}
