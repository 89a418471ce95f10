//! Instruction words of RV32IMA with Zicsr, Zifencei and machine mode, decoded.
//!
//! `decode(0x40000033)` is `SUB` with the registers 0, 0 and 0, and `decode(0x40001033)` is none.
#![tactic(auto)]

mod cache;
mod decoder;
mod fields;
mod format;
mod ins;
mod laws;
mod op;
mod opcodes;

pub use cache::{DecodeCache, KnownWords};
pub use decoder::decode;
pub use ins::Ins;
pub use laws::rows_decode_to_themselves;
pub use op::Op;
use std::alloc::AllocError;

/// Want of memory.
pub type NoMemory = AllocError;

#[cfg(test)]
mod tests;
