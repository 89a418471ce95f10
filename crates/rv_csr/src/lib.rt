//! The control registers of a hart with machine and user mode: reading and writing by number, the
//! entry of traps and interrupts, the return from them, and which interrupt is due.
#![tactic(auto)]

mod access;
mod bits;
mod counting;
mod csrs;
mod inputs;
mod interrupts;
mod laws;
mod mode;
mod reading;
mod register;
mod status;
mod traps;
mod writing;

pub use access::Illegal;
pub use csrs::Csrs;
pub use inputs::Inputs;
pub use laws::{reads_what_was_written, return_undoes_entry};
pub use mode::Mode;
pub use reading::reads_inputs;

#[cfg(test)]
mod tests;
