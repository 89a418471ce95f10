//! Going back and forth in a recorded run: the machine's state at each count of turns, from the
//! snapshot at or below it.
//!
//! `Timeline::open` finds the accepted part of a log and keeps snapshots of it at even distances.
//! `seek`, `step_back`, `step_on`, `run_back` and `run_on` are what a debugger's `replay_seek`,
//! reverse-step, step, reverse-continue and continue want.
#![tactic(auto)]

mod breaks;
mod error;
mod laws;
mod mark;
mod script;
mod snapshots;
mod stride;
mod timeline;
mod walk;
mod waymarks;

pub use error::{OpenTrouble, SeekError};
pub use laws::state_is_the_last_at_its_count;
pub use timeline::Timeline;
