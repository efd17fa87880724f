//! The messages: commands and reports.
mod wire;

/// A command to the device.
// message
#[derive(Clone, Copy, Debug, PartialEq, Eq, Drop)]
pub enum Command {
    /// Report the state.
    Show,
    /// Switch on.
    On,
    /// Switch off.
    Off,
    /// Dose at most so much in all, in millilitres.
    Limit(u32),
    /// Dose so much more, in millilitres: twice isn't the same as once.
    Dose(u32),
    /// Count from zero again.
    Reset,
}

/// What the device replies.
// message
#[derive(Clone, Copy, Debug, PartialEq, Eq, Drop)]
pub enum PumpReport {
    /// Its state; limit and used in millilitres.
    State { is_on: bool, limit: u32, used: u32 },
    /// It was done.
    Done,
    /// Nothing was done.
    Refused(Refusal),
    /// A call was passed over; it may have been executed before.
    Passed(Behind),
}

/// A call whose number isn't above the last one.
// message
#[derive(Clone, Copy, Debug, PartialEq, Eq, Drop)]
pub struct Behind {
    /// Its number.
    pub number: u64,
    /// The number of the call that was executed last.
    pub last: u64,
}

/// Why nothing was done.
// message
#[derive(Clone, Copy, Debug, PartialEq, Eq, Drop)]
pub enum Refusal {
    /// The device is off.
    IsOff,
    /// It would exceed the limit.
    OverLimit,
}
