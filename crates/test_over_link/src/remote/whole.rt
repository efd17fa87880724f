//! Whole exchanges: a call, a server and the reply, over lines that break off.
//!
//! The call 5 of 7 is 00 03 05 07 00 on its line. Its reply, of the first sum, is the same message by another sentinel, as long.
ghost use Rattle.std.specs.Prelude.{◌≡◌, [], ◌<◌, Some};

use crate::checks::check;
use crate::remote::served::Adder;
use calls_laws::exchange::{Called, Kept, Way, call_once};
use calls_laws::heard::SentReader;
use line_io::Outlet;
use line_io::memory::{Fault, OwnedOut};
use link::{OfType, Ordinary, Strict};
use std::alloc::Global;

// What comes of the call by a reader of messages, if it is sent so often again over these lines.
fn called_over<M: SentReader<(u64, u32)>>(
    alloc: Global,
    messages: &M,
    there: Way<OwnedOut>,
    back: Way<OwnedOut>,
    again: usize,
) -> Called<Adder, u32>
    requires empty_there { (⟦<OwnedOut as Outlet>⟧.line there.writer).told ≡ Some [] }
    requires empty_back { (⟦<OwnedOut as Outlet>⟧.line back.writer).told ≡ Some [] }
    requires each_there { 0 < there.each }
    requires each_back { 0 < back.each }
{
    let adder = Adder::new();
    call_once::<u32, u32, Adder, M, M, OwnedOut, 16, 8>(
        alloc, messages, messages, there, back, adder, 5, 7, again,
    )
}

// Whether so many of 7 were executed, and the reply was received, or none was.
fn comes_to(called: &Called<Adder, u32>, is_said: bool, executed: u32) -> bool {
    let is_right = match called.said {
        Some(said) => is_said && said == 7,
        None => !is_said,
    };
    is_right
        && called.application.executed == executed
        && called.application.sum == executed.saturating_mul(7)
}

// Whether a call that is sent so often again comes to this, where the sends of the call and of its reply break off and their readings stop
// after so many bytes.
fn gives(
    alloc: Global,
    breaks: [Option<(usize, Fault)>; 2],
    stops: [Option<usize>; 2],
    again: usize,
    is_said: bool,
    executed: u32,
) -> bool {
    let there = Way {
        writer: OwnedOut::new(Vec::new(alloc), 1, breaks[0]),
        sentinel: 0,
        each: 2,
        stops: stops[0],
    };
    let back = Way {
        writer: OwnedOut::new(Vec::new(alloc), 64, breaks[1]),
        sentinel: 0xA5,
        each: 1,
        stops: stops[1],
    };
    let called = called_over(alloc, &Ordinary(OfType), there, back, again);
    comes_to(&called, is_said, executed)
}

// After how many bytes the readings of the call and of the reply stop, how often the call is sent again, whether it is replied, and how
// often it is executed.
const STOPS: [([Option<usize>; 2], usize, bool, u32); 4] = [
    // whole
    ([None, None], 0, true, 1),
    // the server's reading stops, and the client's
    ([Some(4), None], 0, false, 0),
    ([None, Some(4)], 0, false, 1),
    // a front with the whole call, and one with the whole reply, are enough
    ([Some(5), Some(5)], 2, true, 1),
];

// Whether the send of the call breaks off or that of the reply, how often the call is sent again, whether it is replied, and how often it
// is executed: alone it isn't replied, since a last zero never goes out; sent again it is, and executed once.
const BREAKS: [(bool, usize, bool, u32); 4] = [
    (true, 0, false, 0),
    (true, 1, true, 1),
    (false, 0, false, 1),
    (false, 1, true, 1),
];

// Whether a call comes to what each row says, where a send breaks off after so many bytes.
fn break_off(alloc: Global, before: usize) -> bool {
    let fault = Some((before, Fault::Fail));
    for (is_call, again, is_said, executed) in BREAKS {
        let breaks = if is_call {
            [fault, None]
        } else {
            [None, fault]
        };
        if !gives(alloc, breaks, [None, None], again, is_said, executed) {
            return false;
        }
    }
    true
}

#[test]
fn a_reading_that_stops_and_a_send_that_breaks_off(rt: HostRuntime) {
    for (stops, again, is_said, executed) in STOPS {
        check(
            &rt,
            gives(rt.alloc(), [None, None], stops, again, is_said, executed),
        );
    }
    for before in 0..5usize {
        check(&rt, break_off(rt.alloc(), before));
    }
}

// What comes of the call by a reader of messages, over lines that interrupt nothing; it is sent again three times.
fn called_by<M: SentReader<(u64, u32)>>(alloc: Global, messages: &M) -> Called<Adder, u32> {
    let there = Way {
        writer: OwnedOut::new(Vec::new(alloc), 3, None),
        sentinel: 0,
        each: 64,
        stops: None,
    };
    let back = Way {
        writer: OwnedOut::new(Vec::new(alloc), 3, None),
        sentinel: 10,
        each: 64,
        stops: None,
    };
    called_over(alloc, messages, there, back, 3)
}

// What a writer has taken, whatever faults it met.
fn taken<W: Kept>(writer: W) -> Vec<u8> {
    writer.into_taken()
}

#[test]
fn a_strict_call_and_a_new_writer_that_is_empty(rt: HostRuntime) {
    let alloc = rt.alloc();
    let called = called_by(alloc, &Strict(OfType));
    check(
        &rt,
        comes_to(&called, true, 1) && taken(OwnedOut::spare(alloc)).is_empty(),
    );
}
