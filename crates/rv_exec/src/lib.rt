//! One instruction of RV32IMA with Zicsr and Zifencei, on a hart and a bus.
#![tactic(auto)]

mod accesses;
pub mod arithmetic;
mod atomics;
mod bus;
mod done;
mod hart;
mod jumps;
pub mod laws;
mod plain;
mod registers;
mod rows;
mod system;
mod traps;

pub use bus::{Bus, BusError};
pub use done::Done;
pub use hart::Hart;
pub use plain::execute_plain;
pub use registers::Regs;
pub use rows::execute;

#[cfg(test)]
mod tests;
