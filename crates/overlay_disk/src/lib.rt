//! The sectors of a disk that were written over its base image, which stays as it is.
//!
//! A write costs by its own sectors, and a share costs nothing.

#![tactic(auto)]

mod law;
mod overlay;
mod tree;

pub use law::{keeps_length, reads_one_disk, writes_one_disk};
pub use overlay::{Overlay, OverlayError, PastEnd};
use std::alloc::AllocError;

/// Want of memory.
pub type NoMemory = AllocError;

#[cfg(test)]
mod tests;
