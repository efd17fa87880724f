//! Reading a log stretch by stretch with the position of each, checking it, repairing it, and opening it by its records. A stretch
//! is the bytes between two zeros.
#![tactic(auto)]

mod checking;
mod closing;
pub mod laws;
mod opening;
mod repairing;
mod scanning;
mod tallies;
mod watching;

pub use checking::{CheckError, Report, check};
pub use opening::open_by;
pub use repairing::{RepairError, Repaired, repair};
pub use scanning::{Scan, ScanError, Stretch};
pub use tallies::Tally;
pub use watching::{Judge, Watcher};
