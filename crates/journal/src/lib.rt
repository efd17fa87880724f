//! A log of framed, numbered records that continues after crashes, torn writes and damage.
//!
//! A record is the encoding of a number and a value, in a COBS frame, and a zero. There is no index, checksum, header or write in
//! place: any reader of COBS and postcard can read a log, and concatenated logs are one.
//!
//! [`Journal::open`] appends a zero, syncs, and only then reads: so what it has handed on stays what is read, whatever comes later,
//! and survives any crash. A journal that failed to append or to sync is spent: open the log again.
//!
//! # Example
//! ```rust
//! let entry = Sealed((journal.next(), value));
//! match journal.append(&entry) {
//!     Ok(number) => match journal.sync() {
//!         Ok(()) => Done::Settled(number),
//!         Err(_) => Done::Failed,
//!     },
//!     Err(AppendError::Refused(_)) => Done::TooLong,
//!     Err(_) => Done::Failed,
//! }
//! ```
#![tactic(auto)]

mod framing;
mod log;
mod numbers;
mod reading;
pub mod stores;
mod visitors;

pub use framing::frame_record;
pub use log::{AppendError, Journal, OpenError, Unopened};
pub use reading::{ReadError, read_all};
pub use visitors::{Halt, Listed, Unheard, Visitor};
