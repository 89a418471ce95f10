//! Plain turns in a row: turns whose instructions need a hart and RAM alone.
//!
//! `run` makes them one after another and counts none, so that a machine can count them together.
#![tactic(auto)]

mod turns;

pub use turns::run;

#[cfg(test)]
mod tests;
