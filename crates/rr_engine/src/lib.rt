//! Recording: a machine runs, and each of its events goes to a log. Replay: it takes them again.
#![tactic(auto)]

mod checkpoint;
mod ends;
mod inputs;
mod laws;
mod parts;
mod recorder;
mod recording;
mod replayer;
mod replaying;
mod rounds;
#[cfg(test)]
mod tests;

pub use ends::RunEnd;
pub use laws::recorded_log_is_replayable;
pub use parts::RecordParts;
pub use recording::record_one;
pub use replaying::{ReplayEnd, replay_one};
