//! `link`, sending: the bytes of sends that fit exactly, are refused or are none, and the fates of a session.
//! What plain sends bring on a line are lines of `replay_link`.
use crate::checks::{all_true, are_bytes, are_fates, check, fails_by, holds, is_too_long};
use line_io::memory::Out;
use link::{Fate, Framed, Sender, frame_into, send_each};
use postcard::ser_flavors::Flavor;
use postcard::{Error, serialize_with_flavor};

/// A frame that is as long as the limit; and one that is longer, of which no byte is written.
#[test]
fn fits_exactly_or_is_refused(rt: HostRuntime) {
    let mut room = [9u8; 16];
    let mut sender = Sender::<_, 6>::new(Out::new(&mut room, 1, None));
    let sent = sender.send(&4294967295u32);
    let count = sender.into_inner().moved();
    let line = [0u8, 6, 0xFF, 0xFF, 0xFF, 0xFF, 0x0F, 0];
    let fits = sent.is_ok() && holds(&room, count, &line);
    let mut sender = Sender::<_, 5>::new(Out::new(&mut room, 1, None));
    let was_clean = sender.is_clean();
    let is_refused = is_too_long(sender.send(&4294967295u32));
    let is_clean = was_clean || sender.is_clean();
    let count = sender.into_inner().moved();
    check(&rt, fits && is_refused && !is_clean && count == 0);
}

// The message of 252 ones.
const ONES: [u8; 252] = [1; 252];

// Whether so many bytes of a room are the frame of that message.
fn holds_ones(room: &[u8], count: usize) -> bool {
    match room.get(..count) {
        Some([0xFF, 0xFC, 1, rest @ ..]) => are_bytes(rest, &ONES),
        _ => false,
    }
}

/// A room that the frame fits, and one that lacks a byte.
#[test]
fn writes_the_shortest_frame(rt: HostRuntime) {
    let mut room = [0u8; 300];
    let framed = serialize_with_flavor(&ONES.as_slice(), Framed::new(&mut room));
    check(&rt, matches!(framed, Ok(count) if holds_ones(&room, count)));
    let mut small = [0u8; 254];
    let framed = serialize_with_flavor(&ONES.as_slice(), Framed::new(&mut small));
    check(&rt, fails_by(framed, Error::SerializeBufferFull));
}

// Whether a frame of 300, with another sentinel, fills a buffer of three bytes.
fn frames(room: &mut [u8; 3]) -> bool {
    let mut framed = Framed::new_with_sentinel(room, 0x0A);
    let are_taken = framed.try_extend(&[0xAC]).is_ok() && framed.try_push(2).is_ok();
    let length = framed.finalize();
    are_taken && length == Ok(3)
}

/// No byte after a frame is changed.
#[test]
fn frames_into_a_room(rt: HostRuntime) {
    let mut room = [9u8; 8];
    let is_framed = matches!(frame_into(&300u32, &mut room), Ok(3));
    let mut marked = [0u8; 3];
    let fills = frames(&mut marked);
    let found = [
        is_framed,
        are_bytes(&room, &[3, 0xAC, 2, 9, 9, 9, 9, 9]),
        fills,
        are_bytes(&marked, &[0x09, 0xA6, 0x08]),
    ];
    check(&rt, all_true(found));
}

/// One send of two is refused; and none is asked for.
#[test]
fn tells_each_fate(rt: HostRuntime) {
    let mut room = [0u8; 16];
    let mut fates = [Fate::Broken; 2];
    let out = send_each::<u32, _, 2>(Out::new(&mut room, 16, None), &[300, 5], &mut fates);
    let count = out.moved();
    check(&rt, holds(&room, count, &[0, 2, 5, 0]));
    check(&rt, are_fates(&fates, &[Fate::Refused, Fate::Done]));
    let out = send_each::<u32, _, 2>(Out::new(&mut room, 16, None), &[], &mut []);
    check(&rt, out.moved() == 0);
}
