//! A command over a world of devices that runs no machine: the list of a log's events.
#![tactic(auto)]

mod listing;
#[cfg(test)]
mod tests;

pub use listing::list;
