//! Tests of `stores`, `sealed`, `journal` and `journal_scan`, by their public calls alone.
#![tactic(auto)]

#[cfg(test)]
mod bytes;
#[cfg(test)]
mod checks;
#[cfg(test)]
mod damage;
#[cfg(test)]
mod files;
#[cfg(test)]
mod histories;
#[cfg(test)]
mod logs;
#[cfg(test)]
mod offsets;
#[cfg(test)]
mod reading;
#[cfg(test)]
mod repairs;
#[cfg(test)]
mod seals;
#[cfg(test)]
mod stopping;
#[cfg(test)]
mod tallies;
