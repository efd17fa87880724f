//! How long the frame of a counted message is, before a byte of it is written.
ghost use Rattle.std.specs.Prelude.{◌≡◌, ℕ, ◌<◌, ◌≤◌, IsTrue, ◌↔◌, length};
ghost use Rattle.cobs.specs.Frames.{shortest_frame};
ghost use Rattle.postcard_tree.specs.Spelling.{short, varint};
ghost use Rattle.postcard_tree.specs.Tree.{text_of};

use cobs::before_sentinel;
use postcard_tree::varint::varint_usize;

// The most bytes that a count has.
const MOST_COUNT: usize = 10;

// How many bytes the count of so many bytes has.
fn count_bytes(size: usize) -> usize
    ensures bytes { result ≡ length (varint size) }
    ensures most { result ≤ 10 }
{
    postcard_tree::laws::short_is_a_spelling();
    let mut room = [0u8; MOST_COUNT];
    varint_usize(size, &mut room).len()
}

// The length of a counted message's frame, for a message that isn't empty. No byte of its count is zero, so the frame's first zero-free
// run is the count and the message's bytes before its first zero; `cobs` counts the rest.
fn counted_frame_length(message: &[u8]) -> usize
    requires some { 0 < length message.now }
    ensures { result ≡ length (shortest_frame (short (text_of message.now))) }
{
    cobs::laws::lengths();
    cobs::laws::unmasked();
    let before = before_sentinel(message, 0);
    let run = count_bytes(message.len()) + before;
    if before == message.len() {
        return cobs::max_encoding_length(run);
    }
    let (_, behind) = message.split_at(before + 1);
    run + 1 + run / 254 + cobs::encoded_length(behind)
}

// Whether the frame of a counted message fits in `room` bytes. Its length is counted only if the bounds of its length don't decide that.
pub(crate) fn fits_counted(message: &[u8], room: usize) -> bool
    ensures { IsTrue result ↔ (length (shortest_frame (short (text_of message.now))) ≤ room) }
{
    cobs::laws::lengths();
    if message.len() < 128 {
        return message.len() + 2 <= room;
    }
    let size = count_bytes(message.len()) + message.len();
    cobs::max_encoding_length(size) <= room || counted_frame_length(message) <= room
}
