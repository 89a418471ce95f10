//! A monitor of a recorded run: commands in lines, and their answers.
//!
//! The commands are those of QEMU's monitor (`info replay`, `replay_seek`, `replay_break`, `x`) and
//! of a debugger (reverse-step, reverse-continue, step, continue). `session` reads them from a
//! source and writes what each is answered before it reads on.
#![tactic(auto)]

mod answers;
mod breaks;
mod command;
mod debugging;
mod desk;
mod dumps;
mod laws;
mod number;
mod parse;
mod sessions;
#[cfg(test)]
mod tests;
mod words;

pub use command::{Command, LineError};
pub use debugging::{DebugEnd, debug_log};
pub use laws::transcripts_grow;
pub use parse::parse_line;
pub use sessions::{SessionEnd, session};
