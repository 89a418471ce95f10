//! What a hart's bus reaches: RAM, the devices with their registers and lines, and the virtual clock.
#![tactic(auto)]

mod console;
mod devices;
mod memory;
mod memory_map;
mod time;

pub use console::Console;
pub use devices::Devices;
pub use memory::Memory;
pub use memory_map::{Region, Register, register_at};
use std::alloc::AllocError;
pub use time::Time;

/// Want of memory.
pub type NoMemory = AllocError;
