//! Why a log is refused.

use board::Due;
use event_log::{Event, Rule};

/// What stands where another thing is due.
#[derive(Debug, Drop)]
pub enum Found {
    /// An event that isn't accepted.
    Event(Event),
    /// The first rule that what stands there breaks.
    Rule(Rule),
    /// No whole event: the log is cut.
    Cut,
    /// Something after END.
    MoreBytes,
}

/// The first place of a log that is wrong.
#[derive(Debug, Drop)]
pub struct Refusal {
    /// How many events were accepted before. It stays at 2^64 - 1 where there are more.
    pub index: u64,
    /// Where in the log it stands.
    pub offset: u64,
    /// What is due there: for an INSTRUCTION, after as many of its turns as run.
    pub due: Due,
    pub found: Found,
}
