//! Results by numbers, and a text in front of the caller's room.
ghost use Rattle.std.specs.Prelude.{◌≡◌, ◌≢◌, ◌<◌, ◌≤◌, length, take, false};
ghost use Rattle.wire_c.specs.Flags.{is_set};
ghost use Rattle.wire_c.specs.Texts.{failure_number, failure_text};
ghost use Rattle.wire_c.specs.Status.{done, no_room};

use crate::status::{NO_MEMORY, NO_ROOM, REFUSED, WRONG};
use crate::types::WireFailure;

/// The result of a call.
#[repr(C)]
#[derive(Clone, Copy)]
pub struct WireSaid {
    /// How many bytes the text has. They are in front of the room, unless they don't fit.
    pub length: usize,
    /// How many bytes of a stream are done with; 0 unless it was done.
    pub used: usize,
    /// 0 if it was done, else the error.
    pub status: u8,
    /// Not 0 if the next bytes begin inside a stretch that was reported as too long.
    pub inside: u8,
}

// Puts a text in front of the room, if it fits, with how many bytes of a stream are done with.
pub(crate) fn said(
    text: &[u8],
    status: u8,
    used: usize,
    is_inside: bool,
    room: &mut [u8],
) -> WireSaid
    ensures length { result.length ≡ length text.now }
    ensures fits { length text.now ≤ length room.old → result.status ≡ status }
    ensures status { result.status ≢ no_room → result.status ≡ status }
    ensures longer { status ≢ no_room → result.status ≡ no_room
        → length room.old < length text.now }
    ensures text { result.status ≢ no_room → take result.length room.new ≡ text.now }
    ensures used { result.status ≢ no_room → result.used ≡ used }
    ensures inside { result.status ≢ no_room → is_set result.inside ≡ is_inside }
    ensures within { result.status ≢ no_room → result.length ≤ length room.new }
    ensures too_short { length room.old < length text.now → result.status ≡ no_room }
    ensures unchanged { status ≢ no_room → result.status ≡ no_room → room.new ≡ room.old }
    ensures not_done { status ≢ done → result.status ≢ done }
    ensures unused { result.status ≢ status → result.used ≡ 0 }
    ensures outside { result.status ≢ status → is_set result.inside ≡ false }
    ensures range { status ≤ 4 → result.status ≤ 4 }
    ensures out { is_inside ≡ false → is_set result.inside ≡ false }
    ensures none { used ≡ 0 → result.used ≡ 0 }
    ensures same { length room.new ≡ length room.old }
{
    let inside = if is_inside { 1 } else { 0 };
    if room.len() < text.len() {
        return WireSaid {
            length: text.len(),
            used: 0,
            status: NO_ROOM,
            inside: 0,
        };
    }
    let (front, _) = room.split_at_mut(text.len());
    front.copy_from_slice(text);
    WireSaid {
        length: text.len(),
        used,
        status,
        inside,
    }
}

// Why a call has no result: the lines that say so, if there are some.
pub(crate) fn failed(failure: WireFailure, room: &mut [u8]) -> WireSaid
    ensures length { result.length ≡ length (failure_text failure) }
    ensures text { result.status ≢ no_room → take result.length room.new ≡ failure_text failure }
    ensures number { result.status ≢ no_room → result.status ≡ failure_number failure }
    ensures status { result.status ≢ done }
    ensures range { result.status ≤ 4 }
    ensures outside { is_set result.inside ≡ false }
    ensures longer { result.status ≡ no_room → length room.old < result.length }
    ensures within { result.status ≢ no_room → result.length ≤ length room.new }
    ensures too_short { result.status ≡ no_room → room.new ≡ room.old }
    ensures used { result.used ≡ 0 }
    ensures same { length room.new ≡ length room.old }
{
    match failure {
        WireFailure::Wrong(lines) => said(lines.as_bytes(), WRONG, 0, false, room),
        WireFailure::Refused(lines) => said(lines.as_bytes(), REFUSED, 0, false, room),
        WireFailure::OutOfMemory => said(&[], NO_MEMORY, 0, false, room),
    }
}
