//! The virtio transport over memory-mapped registers, and its split queues (virtio 1.2, 2.7 and 4.2).
//!
//! What a device reads and writes of RAM goes by a draft, so that want of memory changes nothing.
#![tactic(auto)]

mod chain;
mod error;
mod give_back;
mod law;
mod queue;
mod register;
mod ring;
mod segments;
mod transport;

pub use chain::{Chain, Segment};
pub use error::{BadKind, QueueError};
pub use law::{gathers_its_total, has_its_ranges, names_first_broken};
pub use segments::{gather, last_place, put, scatter, total};
use std::alloc::AllocError;
pub use transport::{Effect, Transport};

/// Want of memory.
pub type NoMemory = AllocError;

#[cfg(test)]
mod tests;
