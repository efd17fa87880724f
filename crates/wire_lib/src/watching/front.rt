//! The first bytes of the partial frame at the end of a stream.
ghost use Rattle.std.specs.Prelude.{◌≡◌, [], ◌++◌, ◌∷◌, take, if◌then◌else◌, ◌==◌};
ghost use Rattle.wire_lib.specs.Fronts.{kept_behind, most_kept};

use arrayvec::ArrayVec;

/// How many bytes are kept of a partial frame.
pub const MOST: usize = 24;

/// The first bytes of a partial frame.
pub type Front = ArrayVec<u8, MOST>;

/// Adds a byte to those that are kept; a sentinel ends the frame.
fn keep(bytes: &mut Front, sentinel: u8, byte: u8)
    ensures { bytes.new.items ≡
        (if byte == sentinel then [] else take most_kept (bytes.old.items ++ byte ∷ [])) }
{
    if byte == sentinel {
        bytes.clear();
    } else if !bytes.is_full() {
        bytes.push(byte);
    }
}

/// Updates the first [`MOST`] bytes after the stream's last sentinel by the stream's next chunk.
pub fn keep_front(bytes: &mut Front, sentinel: u8, piece: &[u8])
    ensures { bytes.new.items ≡ kept_behind sentinel bytes.old.items piece.now }
{
    for byte in piece {
        keep(bytes, sentinel, *byte);
    }
}
