//! The virtio block device (virtio 1.2, 5.2).
//!
//! A request is parsed at its notify, and acts wholly at its completion.
#![tactic(auto)]

mod block;
mod complete;
mod law;
mod notify;
mod parse;
mod request;

pub use block::Block;
pub use complete::CompleteError;
pub use law::completes_on_one_disk;
pub use request::Request;
use std::alloc::AllocError;

/// Want of memory.
pub type NoMemory = AllocError;

#[cfg(test)]
mod driver;
#[cfg(test)]
mod hostile;
#[cfg(test)]
mod tests;
