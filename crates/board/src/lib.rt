//! The machine: one RV32IMA hart on a board after QEMU's virt, which moves by turns and events.
//!
//! `due` says what comes next. `turn` and `run` make turns where one is due, and `accept` takes
//! every other event, so that the same events always lead to the same state.
#![tactic(auto)]

mod accepting;
mod closing;
mod config;
mod control;
mod deciding;
mod due;
mod firmware;
pub mod laws;
mod machine;
mod pending;
mod running;
mod showing;
mod sprinting;
mod steps;
mod turning;

pub use accepting::AcceptError;
pub use config::Config;
pub use control::{Control, Ending, Window};
pub use due::Due;
pub use machine::Machine;
pub use running::Turned;
pub use steps::Steps;

#[cfg(test)]
mod tests;
