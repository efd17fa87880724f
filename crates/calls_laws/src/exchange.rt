//! One call over two lines, by both of their ends.
//!
//! `call_once` is a client that calls, perhaps repeatedly, a server that serves what came, and the client that waits for the reply.
//! Its contract speaks of the application alone: no line, frame or number is in it.
ghost use Rattle.std.specs.Prelude.{◌≡◌, [], ◌<◌, Some, IfSome};
ghost use Rattle.calls_laws.specs.Exchange.{ExecutedOnce, ExecutedAtMostOnce, SidesFitInMemory};

use crate::headline;
use crate::heard::SentReader;
use crate::sides::{ask_all, serve_all, take_reply};
use calls::Application;
use line_io::Outlet;
use line_io::memory::OwnedOut;
use postcard::Lawful;
use std::alloc::Global;

/// A writer that returns its bytes, whatever faults it met.
///
/// # Example
/// ```rust
/// fn taken<W: Kept>(writer: W) -> Vec<u8> {
///     writer.into_taken()
/// }
/// ```
pub trait Kept: Outlet + Drop {
    /// A writer that replaces another one; nothing more is specified. `OwnedOut` doesn't allocate for it.
    fn spare(alloc: Global) -> Self;

    /// Returns all bytes that it has taken.
    fn into_taken(self) -> Vec<u8>
        ensures { (Self.line self).told ≡ Some result.items };
}

impl Kept for OwnedOut {
    fn spare(alloc: Global) -> OwnedOut {
        OwnedOut::new(Vec::new(alloc), 1, None)
    }

    fn into_taken(self) -> Vec<u8>
        ensures { (⟦<OwnedOut as Outlet>⟧.line self).told ≡ Some result.items }
    {
        self.into_bytes()
    }
}

/// One direction of a line: what takes the bytes, and how they are read.
///
/// Example: see [`call_once`].
#[derive(Drop)]
pub struct Way<W> {
    /// What takes the bytes. It may interrupt each send at any byte.
    pub writer: W,
    /// The byte that ends each frame.
    pub sentinel: u8,
    /// The greatest number of bytes of one read.
    pub each: usize,
    /// After how many bytes a read fails, which ends the reading; never if there is no number.
    pub stops: Option<usize>,
}

/// The result of a call.
///
/// Example: see [`call_once`].
#[derive(Drop)]
pub struct Called<A, R> {
    /// The application of the server.
    pub application: A,
    /// The reply, if the client accepted one.
    pub said: Option<R>,
}

/// Calls under this number, sends the call `again` more times, lets a new server serve what came of that, and waits for the reply.
///
/// Either writer may interrupt each send at any byte, and either reading may end anywhere. A reply that the client accepted is, by
/// `alike`, what the application said when it executed a request alike the one that was called; it executed that once and nothing
/// else. Without a reply it executed it once, or nothing.
///
/// # Requires
/// Both writers have taken nothing, a read gives at least one byte, N and L are at least 1, and both sides fit in memory
/// (`SidesFitInMemory`); concrete types cost nothing.
///
/// # Allocates
/// What the requests, the replies and the spare writers need.
///
/// # Example
/// ```rust
/// fn called_by<M: SentReader<(u64, u32)>>(alloc: Global, messages: &M) -> Called<Adder, u32> {
///     let there = Way {
///         writer: OwnedOut::new(Vec::new(alloc), 3, None),
///         sentinel: 0,
///         each: 64,
///         stops: None,
///     };
/// ```
pub fn call_once<
    Q: Lawful + PartialEq + Drop,
    R: Lawful + Drop,
    A: Application<Q, R>,
    M: SentReader<(u64, Q)>,
    K: SentReader<(u64, R)>,
    W: Kept,
    const N: usize,
    const L: usize,
>(
    alloc: Global,
    requests_by: &M,
    replies_by: &K,
    there: Way<W>,
    back: Way<W>,
    application: A,
    number: u64,
    request: Q,
    again: usize,
) -> Called<A, R>
    requires some_there { 0 < N }
    requires some_back { 0 < L }
    requires empty_there { (W.line there.writer).told ≡ Some [] }
    requires empty_back { (W.line back.writer).told ≡ Some [] }
    requires each_there { 0 < there.each }
    requires each_back { 0 < back.each }
    requires memory { SidesFitInMemory A.row W.row Q.row R.row N.row L.row }
    ensures replied { IfSome result.said (λ taken.
        ExecutedOnce A.executes Q.form.alike application result.application request
        (λ says. R.form.alike says taken)) }
    ensures at_most_once { ExecutedAtMostOnce A.executes Q.form.alike application
        result.application request }
{
    link_laws::carries::<(u64, Q)>();
    link_laws::carries::<(u64, R)>();
    requests_by.show_sent();
    calls::laws::executes_once::<Q, R>();
    headline::calls::<Q, R, M, K>(requests_by, replies_by);
    let (client, requests) = ask_all::<Q, W, N>(
        alloc,
        there.writer,
        there.sentinel,
        number,
        request,
        again,
    );
    let (sentinel, each, stops) = (back.sentinel, back.each, back.stops);
    let (application, replies) = serve_all::<Q, R, A, M, W, N, L>(
        alloc,
        &requests,
        requests_by,
        there.sentinel,
        there.each,
        there.stops,
        back,
        application,
    );
    let said = take_reply::<Q, R, K, W, N, L>(
        alloc, &replies, replies_by, sentinel, each, stops, client,
    );
    Called { application, said }
}
