//! A 16550 UART whose line never errs and is always ready.
//!
//! The guest reads bytes that wait and writes bytes out. `receive` adds to the first, `take_out`
//! takes the second.
#![tactic(auto)]

mod fifo_control;
mod interrupt_enable;
mod laws;
mod line_control;
mod register;
mod uart;

pub use laws::{fifo_switch_keeps_bytes, level_shows_in_iir};
pub use uart::{NoMemory, Uart};

#[cfg(test)]
mod tests;
