//! Laws of scans. Each function does nothing; its contract is the statement.
ghost use Rattle.journal_scan.specs.Scanning.{ScanGoesOn};
ghost use Rattle.journal_scan.specs.Tallies.{StandsAboveAll};

/// A scan of a log is a scan of each longer log that begins with it: called again, it continues with what was appended.
pub fn goes_on()
    ensures { ScanGoesOn }
{}

/// The number that `open_by` continues with is above that of each record that counts, except 2^64 - 1. So a record that can be read
/// keeps its number, and all below it, from being given again; if damage takes the last records, their numbers are given again.
pub fn numbers_rise()
    ensures { StandsAboveAll }
{}
