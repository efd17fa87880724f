//! Sending frames over a line on which a send may be interrupted, and messages with a checksum.
ghost use Rattle.std.specs.Prelude.{◌≡◌, ◌≢◌, ◌+◌, ◌<◌, ◌≤◌, ◌++◌, ℕ, List, length, take, drop, true, false};
ghost use Rattle.cobs.specs.Frames.{shortest_frame};
ghost use Rattle.cobs.specs.Sentinel.{frame_for};
ghost use Rattle.postcard_tree.specs.Tree.{text_of};
ghost use Rattle.link.specs.Run.{framed, sent};
ghost use Rattle.sealed.specs.Checksum.{sum_of_bytes};
ghost use Rattle.frames.specs.Sending.{is_clean};
ghost use Rattle.frames.specs.Seals.{seal_bytes};
ghost use Rattle.frames_c.specs.Status.{done, no_room, invalid};

use crate::answers::{FramesWritten, unsealed, written};
use frames::FrameSender;

/// A sender that hasn't written anything, and isn't clean.
#[unsafe(no_mangle)]
pub extern "C" fn frames_c_sender(sentinel: u8) -> FrameSender
    ensures clean { is_clean result.clean ≡ false }
    ensures sentinel { result.sentinel ≡ sentinel }
{
    FrameSender::new(sentinel)
}

/// Writes the bytes of a counted send to the front of `dest`, and returns how many there are.
///
/// They are: a sentinel unless the sender is clean; the shortest frame of the message's length and bytes, as postcard encodes them, each
/// byte XORed with the sentinel; a sentinel. Then the sender isn't clean until `frames_c_sent` says that all of them were sent. So after
/// a write that failed, or was short, the caller has nothing to do.
///
/// # Errors
/// No room exactly if they don't fit. Nothing changes, and the next send writes the same as without this one.
#[unsafe(no_mangle)]
pub extern "C" fn frames_c_send(
    sender: &mut FrameSender,
    message: &[u8],
    dest: &mut [u8],
) -> FramesWritten
    ensures fits { length (sent sender.old.sentinel (is_clean sender.old.clean)
        (text_of message.now)) ≤ length dest.old → result.status ≡ done }
    ensures length { result.status ≡ done → result.length ≡ length
        (sent sender.old.sentinel (is_clean sender.old.clean) (text_of message.now)) }
    ensures bytes { result.status ≡ done → take result.length dest.new
        ≡ sent sender.old.sentinel (is_clean sender.old.clean) (text_of message.now) }
    ensures begun { result.status ≡ done → is_clean sender.new.clean ≡ false }
    ensures too_small { length dest.old < length
        (sent sender.old.sentinel (is_clean sender.old.clean) (text_of message.now))
        → (result.status ≡ no_room) × (result.length ≡ 0) × (dest.new ≡ dest.old)
        × (sender.new ≡ sender.old) }
    ensures sentinel { sender.new.sentinel ≡ sender.old.sentinel }
{
    written(sender.send(message, dest))
}

/// Writes the bytes of a plain send, of the message without its length, as `frames_c_send` does.
///
/// # Errors
/// No room exactly if they don't fit. Nothing changes.
#[unsafe(no_mangle)]
pub extern "C" fn frames_c_send_plain(
    sender: &mut FrameSender,
    message: &[u8],
    dest: &mut [u8],
) -> FramesWritten
    ensures fits { length (framed sender.old.sentinel (is_clean sender.old.clean)
        (shortest_frame message.now)) ≤ length dest.old → result.status ≡ done }
    ensures bytes { result.status ≡ done → take result.length dest.new
        ≡ framed sender.old.sentinel (is_clean sender.old.clean)
        (frame_for sender.old.sentinel message.now) }
    ensures length { result.status ≡ done → result.length ≡ length (framed sender.old.sentinel
        (is_clean sender.old.clean) (shortest_frame message.now)) }
    ensures begun { result.status ≡ done → is_clean sender.new.clean ≡ false }
    ensures too_small { length dest.old < length (framed sender.old.sentinel
        (is_clean sender.old.clean) (shortest_frame message.now))
        → (result.status ≡ no_room) × (result.length ≡ 0) × (dest.new ≡ dest.old)
        × (sender.new ≡ sender.old) }
    ensures sentinel { sender.new.sentinel ≡ sender.old.sentinel }
{
    written(sender.send_plain(message, dest))
}

/// Makes the sender clean. Call it once all the bytes of the last send were sent.
#[unsafe(no_mangle)]
pub extern "C" fn frames_c_sent(sender: &mut FrameSender)
    ensures clean { is_clean sender.new.clean ≡ true }
    ensures sentinel { sender.new.sentinel ≡ sender.old.sentinel }
{
    sender.went_out();
}

/// The CRC-32 of bytes, as Ethernet, gzip and PNG have it: `CBF43926` of the text `123456789`.
#[unsafe(no_mangle)]
pub extern "C" fn frames_c_crc32(bytes: &[u8]) -> u32
    ensures { result ≡ sum_of_bytes bytes.now }
{
    sealed::crc32(bytes)
}

/// Appends the CRC-32 of the first `size` bytes of a buffer to them, as four bytes, the lowest first, and returns how many bytes are to
/// be sent: `size + 4`.
///
/// # Errors
/// No room exactly if they don't fit; the buffer is unchanged.
#[unsafe(no_mangle)]
pub extern "C" fn frames_c_seal(buffer: &mut [u8], size: usize) -> FramesWritten
    ensures fits { size + 4 ≤ length buffer.old → result.status ≡ done }
    ensures length { result.status ≡ done → result.length ≡ size + 4 }
    ensures sealed { result.status ≡ done → take result.length buffer.new
        ≡ take size buffer.old ++ seal_bytes (take size buffer.old) }
    ensures rest { result.status ≡ done
        → drop (size + 4) buffer.new ≡ drop (size + 4) buffer.old }
    ensures too_small { length buffer.old < size + 4
        → (result.status ≡ no_room) × (result.length ≡ 0) × (buffer.new ≡ buffer.old) }
{
    written(frames::seal(buffer, size))
}

/// How many bytes of a message precede its sum.
///
/// # Errors
/// Invalid exactly if its last four bytes aren't that sum.
#[unsafe(no_mangle)]
pub extern "C" fn frames_c_unseal(message: &[u8]) -> FramesWritten
    ensures length { result.status ≡ done → result.length + 4 ≡ length message.now }
    ensures sealed { result.status ≡ done → message.now
        ≡ take result.length message.now ++ seal_bytes (take result.length message.now) }
    ensures refused { result.status ≢ done → (result.status ≡ invalid) × (result.length ≡ 0) }
    ensures broken { result.status ≢ done → (bytes : List ℕ)
        → message.now ≡ bytes ++ seal_bytes bytes → ⊥ }
{
    unsealed(frames::unseal(message))
}
