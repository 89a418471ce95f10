//! The command `check` over a world of devices: whether the machine accepts a log, and what the log
//! comes to. The log is replayed over a console that nobody sees.
#![tactic(auto)]

mod checking;
mod judging;
mod nowhere;
mod tally;
#[cfg(test)]
mod tests;

pub use checking::check;
pub use tally::Tally;
