//! What the device does.
ghost use Rattle.std.specs.Prelude.{◌≡◌, ◌+◌, ◌<◌, ◌≤◌, false, Some, IfSome, IfNone};
ghost use Rattle.pump.specs.Device.{DeviceStands, Does, Doses};
ghost use Rattle.pump.specs.declared.messages.PumpReport.TheVariants.{Passed};

use crate::messages::{Behind, Command, PumpReport, Refusal};
use calls::Application;

/// A pump that doses, and counts what it has dosed.
#[derive(Clone, Copy, Debug, PartialEq, Eq, Drop)]
pub struct Device {
    /// Whether it is switched on.
    pub is_on: bool,
    /// The most that it doses in all, in millilitres.
    pub limit: u32,
    /// What it has dosed since it last counted from zero, in millilitres.
    pub used: u32,
}

impl Device {
    /// A device that is off, with a limit of 0, that has dosed nothing.
    pub fn new() -> Device
        ensures { DeviceStands result false 0 0 }
    {
        Device {
            is_on: false,
            limit: 0,
            used: 0,
        }
    }

    // Doses so much more, if it is on and its limit allows it.
    fn dose(&mut self, amount: u32) -> PumpReport
        ensures { Doses self.old amount result self.new }
    {
        if !self.is_on {
            return PumpReport::Refused(Refusal::IsOff);
        }
        match used_within(self.limit, self.used, amount) {
            Some(used) => {
                self.used = used;
                PumpReport::Done
            }
            None => PumpReport::Refused(Refusal::OverLimit),
        }
    }
}

// The total with so much more, if the limit allows it.
fn used_within(limit: u32, used: u32, amount: u32) -> Option<u32>
    ensures some { IfSome result (λ more. (more ≡ used + amount) × (used + amount ≤ limit)) }
    ensures none { IfNone result (limit < used + amount) }
{
    match used.checked_add(amount) {
        Some(more) if more <= limit => Some(more),
        _ => None,
    }
}

impl Application<Command, PumpReport> for Device {
    ghost executes = { Does };

    ghost passes = { λ number last. Some (Passed (record { number = number; last = last })) };

    fn execute(&mut self, command: &Command) -> PumpReport
        ensures { Does self.old command.now result self.new }
    {
        match *command {
            Command::Show => {
                return PumpReport::State {
                    is_on: self.is_on,
                    limit: self.limit,
                    used: self.used,
                };
            }
            Command::On => self.is_on = true,
            Command::Off => self.is_on = false,
            Command::Limit(limit) => self.limit = limit,
            Command::Dose(amount) => return self.dose(amount),
            Command::Reset => self.used = 0,
        }
        PumpReport::Done
    }

    fn pass(number: u64, last: u64) -> Option<PumpReport>
        ensures { result ≡ Some (Passed (record { number = number; last = last })) }
    {
        Some(PumpReport::Passed(Behind { number, last }))
    }
}
