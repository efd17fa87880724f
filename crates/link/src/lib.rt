//! Values over a line that may break. A sender writes each value as a frame that ends with a zero. A receiver reports what the bytes
//! between two zeros hold, however reads split them, and continues after any damage.
//!
//! # Example
//! ```rust
//! let mut sender = Sender::<_, 16>::new(line);
//! println!(rt; "{:?}", sender.send(&reading))?;
//! println!(rt; "{:?}", sender.send(&reading))?;
//! let count = sender.into_inner().moved();
//! let reader = In::new(&bytes[..count], 2, None);
//! let received = receive::<Reading, _, 16>(rt.alloc(), reader);
//! ```
//!
//! | To | Use |
//! |---|---|
//! | send values one by one | `Sender` |
//! | send the values of a slice, with the fate of each | `send_each` |
//! | write a value's frame into a buffer, or see whether it fits | `frame_into` |
//! | frame what your own serializer pushes | `Framed`, a flavor of postcard's |
//! | receive from chunks | `Receiver`: `push`; `push_ref` for values that borrow; `push_strict` for exactly what sending writes |
//! | receive with a limit that is set at run time | `OwnedReceiver` |
//! | receive by a reader of messages that is a value, such as a table of types | `push_with`, `listen_with`, `listen_until_with`, `receive_each_with`; `MessageReader` |
//! | act on each result as soon as its last byte was read | a `Hearer`, and `listen_with`, `listen_until_with` or `receive_each_with` |
//! | receive everything that a reader gives | `receive`, `receive_strict`, `receive_owned`, `receive_owned_strict`, `receive_by_accumulator` |
//! | decode a buffer in place | `read_in_place` |
//!
//! A **stretch** is a longest run of bytes that aren't zero. Its result is the value of its frame, `Damaged`, or `TooLong` if it has
//! more bytes than the receiver's limit. The last one, which no zero ends, is `Cut` at the end of the stream. Zeros in a row give no
//! result. Each result depends on its own stretch alone, so damage in one stretch reaches no other.
//!
//! The zero is the line's **sentinel**. A call that ends in `with_sentinel` takes another byte in its place, with which each byte of a
//! frame is XORed. Both ends have to name the same.
//!
//! An interrupted send leaves a prefix of its bytes on the line. The next send that writes, of this sender or another one, begins with
//! a zero and so ends that prefix. The receiver reports it as `Damaged`, or as its value if its whole frame was written; never as
//! another value. The crate `link_laws` states this for every run of sends (`told`), and `link_laws::headline` for the calls.
//!
//! # Allocates
//! A call that allocates takes the allocator first. The calls that receive everything allocate their lists, and an `OwnedReceiver` its
//! buffer; the others allocate only if a value's type does.
//!
//! Contracts speak of bytes as lists, and of a value by its tree: what postcard writes it as, before encoding. `specs/Stream.antt` says
//! what is received, `specs/Run.antt` what is sent and what is received of it.
#![tactic(auto)]

mod decoding;
mod each;
mod framed;
mod gathering;
mod in_place;
mod judging;
pub mod laws;
mod lent;
mod listed;
mod listening;
mod owned;
mod receiver;
mod reception;
mod sender;
mod session;
mod writing;

pub use decoding::{ArrayBuffer, Decoding, OwnedBuffer};
pub use each::Hearer;
pub use framed::{Framed, frame_into, frame_into_with_sentinel};
pub use gathering::{Gathered, receive_by_accumulator, receive_by_accumulator_with_sentinel};
pub use in_place::{read_in_place, read_in_place_with_sentinel};
pub use judging::{ExactReader, FrontReader, MessageReader, OfType, Ordinary, Strict};
pub use line_io::End;
pub use listening::{
    Received, receive, receive_owned, receive_owned_strict, receive_strict,
    receive_strict_with_sentinel, receive_with_sentinel,
};
pub use owned::OwnedReceiver;
pub use receiver::{Answer, NoMemory, Pushed, Receiver};
pub use reception::Reception;
pub use sender::{SendError, Sender};
pub use session::{Fate, send_each, send_each_with_sentinel};
