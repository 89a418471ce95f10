//! The command that holds a debugging session on a recorded run, over a world of devices.
//!
//! The log and the firmware that its header names are read whole; then commands are read from
//! standard input and answered on standard output, over the part of the log that is accepted.
#![tactic(auto)]

mod debugging;
#[cfg(test)]
mod kept_tests;
mod outcomes;
#[cfg(test)]
mod tests;

pub use debugging::{LOG_LIMIT, debug};
