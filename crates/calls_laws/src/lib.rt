//! Laws of calls over two lines, and a call from end to end, whose contract says what a user can rely on.
#![tactic(auto)]

pub mod echo;
pub mod exchange;
pub mod headline;
pub mod heard;
mod sides;
