//! Sending values in turn.
ghost use Rattle.std.specs.Prelude.{◌≡◌, ◌<◌, ℕ, length};
ghost use Rattle.link.specs.Senders.{writer_of, clean_of, sentinel_of};
ghost use Rattle.link.specs.Fates.{SendsOne, SendsAll, AreSentFrom, SenderFitsInMemory, new_sender};

use crate::sender::{SendError, Sender};
use line_io::Outlet;
use postcard::Serialize;

/// What became of a send.
///
/// Example: see [`send_each`].
#[derive(Clone, Copy, PartialEq, Debug, Drop)]
pub enum Fate {
    /// All its bytes were written.
    Done,
    /// The value can't be encoded, or its frame is longer than N bytes. Nothing was written.
    Refused,
    /// A write failed or took nothing. A proper prefix of this send's bytes, perhaps none, was written.
    Broken,
}

// Sends a value.
fn send_one<T: Serialize, W: Outlet, const N: usize>(sender: &mut Sender<W, N>, value: &T) -> Fate
    ensures one { SendsOne N (sentinel_of sender.old) (T.form.writes value.now)
        (T.form.valid value.now)
        (clean_of sender.old) (clean_of sender.new)
        (W.line (writer_of sender.old)) (W.line (writer_of sender.new)) result }
    ensures sentinel { sentinel_of sender.new ≡ sentinel_of sender.old }
{
    match sender.send(value) {
        Ok(()) => Fate::Done,
        Err(error) => match error {
            SendError::Refused(_) => Fate::Refused,
            SendError::Line => Fate::Broken,
        },
    }
}

// Sends the values in turn.
fn send_all<T: Serialize, W: Outlet, const N: usize>(
    sender: &mut Sender<W, N>,
    values: &[T],
    fates: &mut [Fate],
)
    requires { length values.now ≡ length fates.old }
    ensures { SendsAll N (sentinel_of sender.old) T.form.writes T.form.valid
        (clean_of sender.old) (clean_of sender.new)
        (W.line (writer_of sender.old)) (W.line (writer_of sender.new))
        values.now fates.new }
{
    for i in 0..values.len() {
        fates[i] = send_one(sender, &values[i]);
    }
}

/// Sends the values in turn by a new `Sender` with frames of at most N bytes, stores the fate of each, and returns the writer.
///
/// It continues after refusals and faults, and retries nothing. As many sends are `Broken` as writes failed or took nothing, as
/// long as the writer had a call left. Allocates nothing.
///
/// # Requires
/// As many fates as values (there may be none of either), and N is at least 1. The sender fits in memory
/// (`SenderFitsInMemory`); a concrete N costs nothing.
///
/// # Example
/// ```rust
/// let mut fates = [Fate::Broken; 2];
/// let out = send_each::<u32, _, 2>(Out::new(&mut room, 16, None), &[300, 5], &mut fates);
/// let count = out.moved();
/// check(&rt, holds(&room, count, &[0, 2, 5, 0]));
/// check(&rt, are_fates(&fates, &[Fate::Refused, Fate::Done]));
/// ```
pub fn send_each<T: Serialize, W: Outlet, const N: usize>(
    writer: W,
    values: &[T],
    fates: &mut [Fate],
) -> W
    requires places { length values.now ≡ length fates.old }
    requires some { 0 < N }
    requires fits { SenderFitsInMemory W.row N.row }
    ensures { AreSentFrom T.form N (new_sender 0 (W.line writer)) (W.line result)
        values.now fates.new }
{
    send_each_with_sentinel::<T, W, N>(writer, values, fates, 0)
}

/// As `send_each`, with this sentinel.
///
/// # Requires
/// As [`send_each`].
pub fn send_each_with_sentinel<T: Serialize, W: Outlet, const N: usize>(
    writer: W,
    values: &[T],
    fates: &mut [Fate],
    sentinel: u8,
) -> W
    requires places { length values.now ≡ length fates.old }
    requires some { 0 < N }
    requires fits { SenderFitsInMemory W.row N.row }
    ensures { AreSentFrom T.form N (new_sender sentinel (W.line writer)) (W.line result)
        values.now fates.new }
{
    let mut sender = Sender::<W, N>::new_with_sentinel(writer, sentinel);
    send_all(&mut sender, values, fates);
    sender.into_inner()
}
