//! A machine through a log: each event is accepted, or the first wrong one is refused.
#![tactic(auto)]

mod laws;
mod log;
mod refusal;
mod runner;
#[cfg(test)]
mod tests;

pub use laws::{end_is_spelled, longest, one_verdict, recorded_is_accepted};
pub use log::{RunLog, run_log};
pub use refusal::{Found, Refusal};
pub use runner::{FeedError, Runner};
