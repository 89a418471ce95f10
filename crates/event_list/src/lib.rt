//! The events of a log, each in a line.
//!
//! `list_events` reads a log as a stream and asks no machine what is due. So it lists a log whose
//! firmware is missing, and one that no run would take.
#![tactic(auto)]

mod laws;
mod listing;
#[cfg(test)]
mod tests;
mod texts;

pub use laws::longest;
pub use listing::{ListEnd, list_events};
pub use texts::{end_text, event_text};
