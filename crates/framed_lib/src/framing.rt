//! Frames of lines.
ghost use Rattle.std.specs.Prelude.{◌≡◌, ◌≤◌, length, take, nat_lt, true, IsTrue, IsUtf8, MatchOption};
ghost use Rattle.link.specs.Run.{Send, written};
ghost use Rattle.framed_lib.specs.Program.{shown};
ghost use Rattle.framed_lib.specs.Sending.{IsSendOfLine, is_whole};

use crate::digits::put_digits;
use link::frame_into_with_sentinel;

/// The greatest length of a frame. A text of so many bytes has a longer one.
const LIMIT: usize = 1024;

/// Every line of at most so many bytes has a frame within the limit.
const SHORT: usize = 1017;

/// The longest that a sender writes for a line: a frame between its sentinels.
pub const MOST: usize = LIMIT + 2;

/// The text of a line, if it is UTF-8. It is checked only if that isn't known of it.
fn as_text(line: &[u8], is_text: bool) -> Option<&str>
    requires { IsTrue is_text → IsUtf8 line.now }
    ensures { MatchOption result (IsUtf8 line.now → ⊥)
        (λ text. (text.now ≡ line.now) × IsUtf8 line.now) }
{
    if is_text {
        // SAFETY: `is_text` requires that the line is UTF-8.
        return Some(unsafe { std::str::from_utf8_unchecked(line) });
    }
    match std::str::from_utf8(line) {
        Ok(text) => Some(text),
        Err(_) => None,
    }
}

/// Whether the line is sent and not refused. It is judged without the sentinel, by its text and its length; only a line of the few
/// lengths between the two limits is framed for it.
pub fn is_sendable(line: &[u8], is_text: bool) -> bool
    requires { IsTrue is_text → IsUtf8 line.now }
    ensures { (x : Send) × IsSendOfLine line.now x × (result ≡ is_whole x) }
{
    link::laws::frame_lengths();
    if line.len() >= LIMIT {
        return false;
    }
    if line.len() > SHORT {
        return frame_clean(line, is_text, 0, &mut [0; LIMIT + 1]) > 0;
    }
    match as_text(line, is_text) {
        Some(_) => true,
        None => false,
    }
}

/// Writes what a clean sender writes for a line to the front of the buffer, the frame of its text and a sentinel, and returns how many
/// bytes these are: 0 if the line is refused.
fn frame_clean(line: &[u8], is_text: bool, sentinel: u8, room: &mut [u8]) -> usize
    requires text { IsTrue is_text → IsUtf8 line.now }
    requires room { 1025 ≤ length room.old }
    ensures sent { (x : Send) × IsSendOfLine line.now x
        × (take result room.new ≡ written sentinel true x) × (is_whole x ≡ nat_lt 0 result) }
    ensures within { result ≤ length room.new }
    ensures long { length room.new ≡ length room.old }
{
    let Some(text) = as_text(line, is_text) else {
        return 0;
    };
    let front = &mut room[..LIMIT];
    match frame_into_with_sentinel(&text, front, sentinel) {
        Ok(count) => {
            room[count] = sentinel;
            count + 1
        }
        Err(_) => 0,
    }
}

/// As `frame_clean`, for a sender that may not be clean: then a sentinel comes first.
pub fn frame_line(line: &[u8], is_text: bool, clean: bool, sentinel: u8, room: &mut [u8]) -> usize
    requires text { IsTrue is_text → IsUtf8 line.now }
    requires room { 1026 ≤ length room.old }
    ensures sent { (x : Send) × IsSendOfLine line.now x
        × (take result room.new ≡ written sentinel clean x) × (is_whole x ≡ nat_lt 0 result) }
    ensures within { result ≤ length room.new }
    ensures long { length room.new ≡ length room.old }
{
    if clean {
        return frame_clean(line, is_text, sentinel, room);
    }
    room[0] = sentinel;
    match frame_clean(line, is_text, sentinel, &mut room[1..]) {
        0 => 0,
        count => count + 1,
    }
}

/// As `frame_line`, as bytes or as their digits. For digits the frame is made in a buffer of its own.
pub fn show_line(
    hex: bool,
    sentinel: u8,
    line: &[u8],
    is_text: bool,
    clean: bool,
    frame: &mut [u8],
    room: &mut [u8],
) -> usize
    requires text { IsTrue is_text → IsUtf8 line.now }
    requires frame { length frame.old ≡ 1026 }
    requires room { 2052 ≤ length room.old }
    ensures sent { (x : Send) × IsSendOfLine line.now x
        × (take result room.new ≡ shown hex (written sentinel clean x))
        × (is_whole x ≡ nat_lt 0 result) }
    ensures within { result ≤ length room.new }
    ensures long { length room.new ≡ length room.old }
    ensures frame { length frame.new ≡ length frame.old }
{
    if !hex {
        return frame_line(line, is_text, clean, sentinel, room);
    }
    let count = frame_line(line, is_text, clean, sentinel, frame);
    put_digits(&frame[..count], room)
}
