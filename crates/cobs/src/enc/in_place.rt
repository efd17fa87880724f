//! Encoding a message in place.
ghost use Rattle.std.specs.Prelude.{◌≡◌, ◌+◌, ◌<◌, ◌≤◌, [], length, take, drop};
ghost use Rattle.cobs.specs.Frames.{shortest_frame};
ghost use Rattle.cobs.specs.Codes.{Coding};
ghost use Rattle.cobs.specs.Held.{EncodesStanding};
ghost use Rattle.cobs.specs.Sentinel.{frame_for};

use crate::codes::put_codes_standing;
use crate::moves::mask;

/// Encodes a message of n bytes where it is, after a spare first byte of the buffer, and returns the frame's length,
/// n + 1.
///
/// Every byte of the frame is XORed with `sentinel`. The spare byte may have any value. The bytes after the frame
/// aren't specified.
///
/// # Requires
/// At most 254 bytes, which all are in the buffer.
///
/// # Example
/// ```rust
/// let mut buffer = [0u8, 10, 11, 0, 12];
/// check(&rt, encode_in_place(&mut buffer, 4, 0) == 5);
/// check(&rt, are_equal(&buffer, &[3, 10, 11, 2, 12]));
/// ```
pub fn encode_in_place(buffer: &mut [u8], n: usize, sentinel: u8) -> usize
    requires few { n ≤ 254 }
    requires room { n < length buffer.old }
    ensures plus_one { result ≡ n + 1 }
    ensures length { result ≡ length (shortest_frame (take n (drop 1 buffer.old))) }
    ensures frame { take result buffer.new ≡ frame_for sentinel (take n (drop 1 buffer.old)) }
{
    if n < 64 && sentinel == 0 {
        return encode_standing(buffer, n, sentinel);
    }
    encode_long(buffer, n, sentinel)
}

// The same of a message that is long or masked. As the last call it leaves the caller nothing to save.
#[inline(never)]
fn encode_long(buffer: &mut [u8], n: usize, sentinel: u8) -> usize
    requires few { n ≤ 254 }
    requires room { n < length buffer.old }
    ensures { EncodesStanding sentinel buffer.old n buffer.new result }
{
    encode_standing(buffer, n, sentinel)
}

// The same, compiled into both: in the first a message is known to be short, and takes no step of the loop.
#[inline(always)]
fn encode_standing(buffer: &mut [u8], n: usize, sentinel: u8) -> usize
    requires few { n ≤ 254 }
    requires room { n < length buffer.old }
    ensures { EncodesStanding sentinel buffer.old n buffer.new result }
{
    let mut code_at: usize = 0;
    let mut done: usize = 0;
    while 64 <= n - done {
        code_at = put_codes_standing(buffer, code_at, done + 1, 64);
        done += 64;
    }
    if done < n {
        code_at = put_codes_standing(buffer, code_at, done + 1, n - done);
    }
    let end = n + 1;
    buffer[code_at] = (end - code_at) as u8;
    if sentinel != 0 {
        mask(&mut buffer[..end], sentinel);
    }
    end
}
