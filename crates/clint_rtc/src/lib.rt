//! The core-local interruptor, the host's clock as the guest reads it, and the finisher.
//!
//! Offsets count from the start of each device's region. One that no table names reads 0.
#![tactic(auto)]

mod clint;
mod finisher;
mod laws;
mod rtc;
mod words;

pub use clint::Clint;
pub use finisher::Finisher;
pub use laws::{deadline_is_first_moment, first_ending_stays};
pub use rtc::{NeedClock, Rtc};

#[cfg(test)]
mod tests;
