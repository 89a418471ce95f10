//! The virtio network device (virtio 1.2, 5.1).
#![tactic(auto)]

mod backlog;
mod law;
mod net;
mod packet;
mod receive;
mod transmit;

pub use law::{notify_is_shown, receive_is_shown, take_is_shown};
pub use net::{Net, NetError};
pub use packet::Packet;
use std::alloc::AllocError;

/// Want of memory.
pub type NoMemory = AllocError;

#[cfg(test)]
mod driver;
#[cfg(test)]
mod tests;
