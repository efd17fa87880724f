//! Decoding a stretch in place.
ghost use Rattle.std.specs.Prelude.{◌≡◌, ◌<◌, ◌≤◌, ℕ, List, length, take, IfSome, IsNone};
ghost use Rattle.cobs.specs.Frames.{Frame, NoZero};
ghost use Rattle.cobs.specs.Sentinel.{masked};

// Stretches of at most so many bytes are decoded byte by byte: for these the windows of `cobs` cost more before they move a byte.
const SHORT: usize = 32;

// Decodes a short stretch byte by byte, and returns the length of its message if it is a frame.
#[inline(always)]
fn decode_short(front: &mut [u8], sentinel: u8) -> Option<usize>
    requires some { 0 < length front.old }
    requires short { length front.old ≤ 254 }
    ensures frame { IfSome result (λ n. NoZero (masked sentinel front.old)
        → Frame (masked sentinel front.old) (take n front.new)) }
    ensures damaged { IsNone result → NoZero (masked sentinel front.old)
        → (m : List ℕ) → Frame (masked sentinel front.old) m → ⊥ }
    ensures within { IfSome result (λ n. n ≤ length front.new) }
    ensures same { length front.new ≡ length front.old }
{
    cobs::laws::message_of_a_frame();
    let mut left = (sentinel ^ front[0]).saturating_sub(1);
    let mut at = 1;
    while at < front.len() {
        let byte = sentinel ^ front[at];
        if left == 0 {
            front[at - 1] = 0;
            left = byte.saturating_sub(1);
        } else {
            front[at - 1] = byte;
            left -= 1;
        }
        at += 1;
    }
    if left == 0 {
        Some(front.len() - 1)
    } else {
        None
    }
}

// The same for any stretch. It isn't inlined, or a short stretch would pay for the registers that it saves.
#[inline(never)]
fn decode_long(front: &mut [u8], sentinel: u8) -> Option<usize>
    requires some { 0 < length front.old }
    ensures frame { IfSome result (λ n. NoZero (masked sentinel front.old)
        → Frame (masked sentinel front.old) (take n front.new)) }
    ensures damaged { IsNone result → NoZero (masked sentinel front.old)
        → (m : List ℕ) → Frame (masked sentinel front.old) m → ⊥ }
    ensures within { IfSome result (λ n. n ≤ length front.new) }
    ensures same { length front.new ≡ length front.old }
{
    cobs::laws::shorter();
    match cobs::decode_in_place_report_with_sentinel(front, sentinel) {
        Ok(report) => Some(report.frame_size()),
        Err(_) => None,
    }
}

// Decodes a stretch, without its sentinel, in place, and returns the length of its message if it is a frame: the message is then in
// front.
#[inline(always)]
pub(crate) fn decode_kept(front: &mut [u8], sentinel: u8) -> Option<usize>
    requires some { 0 < length front.old }
    ensures frame { IfSome result (λ n. NoZero (masked sentinel front.old)
        → Frame (masked sentinel front.old) (take n front.new)) }
    ensures damaged { IsNone result → NoZero (masked sentinel front.old)
        → (m : List ℕ) → Frame (masked sentinel front.old) m → ⊥ }
    ensures within { IfSome result (λ n. n ≤ length front.new) }
    ensures same { length front.new ≡ length front.old }
{
    if front.len() <= SHORT {
        decode_short(front, sentinel)
    } else {
        decode_long(front, sentinel)
    }
}
