//! Laws. Each function does nothing; its contract is the statement.
ghost use Rattle.calls.specs.Calls.{ExecutesOnce, ExecutesCalls, MatchesCalls, RepliesToTheSame, RepliesWereSaid, SettlesCalls};
ghost use Rattle.calls.specs.Asking.{AsksOnePerNumber};

/// Whatever requests a server receives, in any order and however often: it executes no number twice.
pub fn executes_once<Q, R>()
    ensures { ExecutesOnce Q R }
{}

/// Whatever requests a server receives: it executes none under the greatest number, which no call has.
pub fn executes_calls<Q, R>()
    ensures { ExecutesCalls Q R }
{}

/// Whatever a server receives, and served before: each reply is to a request with its number that was received. It was said when
/// that request was executed, or kept from before for an equal one.
pub fn replied<Q, R>()
    ensures { RepliesWereSaid Q R }
{}

/// Whatever a new server received before, also other requests under the same number: what it replies to a request was said when
/// that very request, or one that is equal to it, was executed under its number.
pub fn replied_to_the_same<Q, R>()
    ensures { RepliesToTheSame Q R }
{}

/// Whatever a server served before, whatever is lost of the requests and of the replies, and however often a request is sent again:
/// a reply under a call's number is what was said to that call, which was executed; or the server had kept it already, for an equal
/// request.
pub fn matches<Q, R>()
    ensures { MatchesCalls Q R }
{}

/// After a reply neither its number nor a lower one is executed.
pub fn settles<Q, R>()
    ensures { SettlesCalls Q R }
{}

/// A client sends one request under a number, however often it sends it.
pub fn one_per_number<Q>()
    ensures { AsksOnePerNumber Q }
{}
