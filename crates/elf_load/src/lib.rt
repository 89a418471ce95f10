//! Loads a firmware file: an ELF executable for 32-bit RISC-V, or any other file as it is.
//!
//! `load` answers the pieces of RAM that the file fills and where it is entered, or the first rule
//! that the file breaks.
#![tactic(auto)]

mod error;
mod executable;
mod fields;
mod laws;
mod loader;
mod pieces;
mod program_header;

pub use error::LoadError;
pub use laws::pieces_lie_in_ram;
pub use loader::load;
pub use pieces::{Loaded, Piece, Pieces};
use std::alloc::AllocError;

/// Want of memory.
pub type NoMemory = AllocError;

#[cfg(test)]
mod tests;
