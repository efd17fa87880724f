//! Sending frames without a buffer, byte by byte.
ghost use Rattle.std.specs.Prelude.{◌≡◌, true, false, OnOk, OnErr, ◌+◌, ◌-◌, ◌<◌, ◌≤◌, ◌∷◌, [], ◌++◌, ◌^◌, length, take, drop, slice_index};
ghost use Rattle.cobs.specs.Frames.{NoZero, block};
ghost use Rattle.cobs.specs.Sentinel.{masked, frame_for};
ghost use Rattle.postcard_tree.specs.Tree.{text_of};
ghost use Rattle.postcard_tree.specs.Spelling.{short};
ghost use Rattle.link.specs.Run.{lead, framed, sent};
ghost use Rattle.line_io.specs.Transfers.{WentOrBroke};

use line_io::{Outlet, WriteFault, write_all};
use postcard_tree::varint::varint_usize;

// The byte at position `i` of a message with its count in front: `FRAMES_SMALL_AT`.
fn byte_at(count: &[u8], message: &[u8], i: usize) -> u8
    requires { i < length count.now + length message.now }
    ensures { result ≡ slice_index (count.now ++ message.now) i }
{
    if i < count.len() {
        count[i]
    } else {
        message[i - count.len()]
    }
}

// How many bytes from a position on aren't zero, at most those of a full block. The sender has no buffer, so a block's bytes are read
// once here and once when they are sent.
fn run_at(count: &[u8], message: &[u8], at: usize, end: usize) -> usize
    requires end { end ≡ length count.now + length message.now }
    requires within { at ≤ end }
    ensures few { result ≤ 254 }
    ensures within { at + result ≤ end }
    ensures clear { NoZero (take result (drop at (count.now ++ message.now))) }
    ensures stops { result < 254 → at + result < end
        → slice_index (count.now ++ message.now) (at + result) ≡ 0 }
{
    let mut run = 0;
    while run < 254 {
        if at + run == end {
            return run;
        }
        if byte_at(count, message, at + run) == 0 {
            return run;
        }
        run += 1;
    }
    run
}

// Sends a byte.
fn put<W: Outlet>(outlet: &mut W, byte: u8) -> Result<(), WriteFault>
    ensures { WentOrBroke (W.line outlet.old) (W.line outlet.new) (byte ∷ []) result }
{
    write_all(outlet, &[byte])
}

// Sends bytes from a position on.
fn put_bytes<W: Outlet>(
    outlet: &mut W,
    count: &[u8],
    message: &[u8],
    from: usize,
    run: usize,
    sentinel: u8,
) -> Result<(), WriteFault>
    requires { from + run ≤ length count.now + length message.now }
    ensures { WentOrBroke (W.line outlet.old) (W.line outlet.new)
        (masked sentinel (take run (drop from (count.now ++ message.now)))) result }
{
    let mut sent = 0;
    while sent < run {
        match put(outlet, sentinel ^ byte_at(count, message, from + sent)) {
            Ok(()) => {}
            Err(fault) => return Err(fault),
        }
        sent += 1;
    }
    Ok(())
}

// Sends a block: its code, and the bytes from a position on.
fn put_block<W: Outlet>(
    outlet: &mut W,
    count: &[u8],
    message: &[u8],
    at: usize,
    run: usize,
    sentinel: u8,
) -> Result<(), WriteFault>
    requires within { at + run ≤ length count.now + length message.now }
    requires few { run ≤ 254 }
    ensures { WentOrBroke (W.line outlet.old) (W.line outlet.new)
        (masked sentinel (block (take run (drop at (count.now ++ message.now))))) result }
{
    let code = run as u8 + 1;
    match put(outlet, sentinel ^ code) {
        Ok(()) => put_bytes(outlet, count, message, at, run, sentinel),
        Err(fault) => Err(fault),
    }
}

// Where the next block begins: after the zero that a block ends with, or directly after a full block.
fn behind(at: usize, run: usize) -> usize
    requires { at + run < 2 ^ 64 - 1 }
    ensures zero { run < 254 → result ≡ at + run + 1 }
    ensures full { 254 ≤ run → result ≡ at + run }
{
    if run < 254 { at + run + 1 } else { at + run }
}

// Sends the frame of a message with its count in front, block by block.
fn put_blocks<W: Outlet>(
    outlet: &mut W,
    count: &[u8],
    message: &[u8],
    end: usize,
    sentinel: u8,
) -> Result<(), WriteFault>
    requires { end ≡ length count.now + length message.now }
    ensures { WentOrBroke (W.line outlet.old) (W.line outlet.new)
        (frame_for sentinel (count.now ++ message.now)) result }
{
    let mut at = 0;
    loop {
        let run = run_at(count, message, at, end);
        match put_block(outlet, count, message, at, run, sentinel) {
            Ok(()) => {}
            Err(fault) => return Err(fault),
        }
        if at + run == end {
            return Ok(());
        }
        let next = behind(at, run);
        at = next;
    }
}

// Sends the frame of a message with its count in front, and then the sentinel.
fn put_ended<W: Outlet>(
    outlet: &mut W,
    count: &[u8],
    message: &[u8],
    sentinel: u8,
) -> Result<(), WriteFault>
    ensures { WentOrBroke (W.line outlet.old) (W.line outlet.new)
        (frame_for sentinel (count.now ++ message.now) ++ (sentinel ∷ [])) result }
{
    match put_blocks(
        outlet,
        count,
        message,
        count.len() + message.len(),
        sentinel,
    ) {
        Ok(()) => put(outlet, sentinel),
        Err(fault) => Err(fault),
    }
}

// The same for a counted message.
fn put_counted<W: Outlet>(outlet: &mut W, message: &[u8], sentinel: u8) -> Result<(), WriteFault>
    ensures { WentOrBroke (W.line outlet.old) (W.line outlet.new)
        (frame_for sentinel (short (text_of message.now)) ++ (sentinel ∷ [])) result }
{
    let mut groups = [0; 10];
    let count = varint_usize(message.len(), &mut groups);
    put_ended(outlet, count, message, sentinel)
}

// Sends the sentinel unless the sender is clean.
fn put_lead<W: Outlet>(outlet: &mut W, clean: bool, sentinel: u8) -> Result<(), WriteFault>
    ensures { WentOrBroke (W.line outlet.old) (W.line outlet.new) (lead sentinel clean) result }
{
    if clean {
        return Ok(());
    }
    put(outlet, sentinel)
}

// Sends a counted message.
fn put_message<W: Outlet>(
    outlet: &mut W,
    clean: bool,
    message: &[u8],
    sentinel: u8,
) -> Result<(), WriteFault>
    ensures { WentOrBroke (W.line outlet.old) (W.line outlet.new)
        (sent sentinel clean (text_of message.now)) result }
{
    match put_lead(outlet, clean, sentinel) {
        Ok(()) => put_counted(outlet, message, sentinel),
        Err(fault) => Err(fault),
    }
}

// Sends a plain message.
fn put_plain<W: Outlet>(
    outlet: &mut W,
    clean: bool,
    message: &[u8],
    sentinel: u8,
) -> Result<(), WriteFault>
    ensures { WentOrBroke (W.line outlet.old) (W.line outlet.new)
        (framed sentinel clean (frame_for sentinel message.now)) result }
{
    match put_lead(outlet, clean, sentinel) {
        Ok(()) => put_ended(outlet, &[], message, sentinel),
        Err(fault) => Err(fault),
    }
}

/// A sender's state between calls.
///
/// Example: see [`SmallSender::send`].
#[repr(C)]
#[derive(Clone, Copy)]
pub struct SmallSender {
    /// Whether all of the last send was sent.
    pub clean: bool,
    /// The byte that ends a frame.
    pub sentinel: u8,
}

impl SmallSender {
    /// A sender that hasn't sent anything, and isn't clean.
    pub fn new(sentinel: u8) -> SmallSender
        ensures clean { result.clean ≡ false }
        ensures sentinel { result.sentinel ≡ sentinel }
    {
        SmallSender {
            clean: false,
            sentinel,
        }
    }

    /// Sends a counted message: a sentinel unless all of the last send was sent, the frame, a sentinel. These are the bytes of a send as
    /// `link` defines it, and of `send` of `frames`.
    ///
    /// # Errors
    /// `WriteFault` if a write failed or took nothing: a proper prefix of the bytes, perhaps none, was sent, and the next send begins
    /// with a sentinel.
    ///
    /// # Example
    /// ```rust
    /// let mut sender = SmallSender::new(0);
    /// let mut line = [0u8; 6];
    /// let mut outlet = Out::new(&mut line, 1, None);
    /// check(&rt, sender.send(&mut outlet, b"hi").is_ok());
    /// check(&rt, line == [0, 4, 2, b'h', b'i', 0]);
    /// ```
    pub fn send<W: Outlet>(&mut self, outlet: &mut W, message: &[u8]) -> Result<(), WriteFault>
        ensures went { WentOrBroke (W.line outlet.old) (W.line outlet.new)
            (sent self.old.sentinel self.old.clean (text_of message.now)) result }
        ensures ok { OnOk result (self.new.clean ≡ true) }
        ensures err { OnErr result (self.new.clean ≡ false) }
        ensures sentinel { self.new.sentinel ≡ self.old.sentinel }
    {
        let clean = self.clean;
        self.clean = false;
        match put_message(outlet, clean, message, self.sentinel) {
            Ok(()) => {
                self.clean = true;
                Ok(())
            }
            Err(fault) => Err(fault),
        }
    }

    /// Sends a plain message, its bytes without their length, in the same way.
    ///
    /// # Errors
    /// `WriteFault` if a write failed or took nothing: a proper prefix of the bytes, perhaps none, was sent, and the next send begins
    /// with a sentinel.
    pub fn send_plain<W: Outlet>(
        &mut self,
        outlet: &mut W,
        message: &[u8],
    ) -> Result<(), WriteFault>
        ensures went { WentOrBroke (W.line outlet.old) (W.line outlet.new)
            (framed self.old.sentinel self.old.clean (frame_for self.old.sentinel message.now))
            result }
        ensures ok { OnOk result (self.new.clean ≡ true) }
        ensures err { OnErr result (self.new.clean ≡ false) }
        ensures sentinel { self.new.sentinel ≡ self.old.sentinel }
    {
        let clean = self.clean;
        self.clean = false;
        match put_plain(outlet, clean, message, self.sentinel) {
            Ok(()) => {
                self.clean = true;
                Ok(())
            }
            Err(fault) => Err(fault),
        }
    }
}
