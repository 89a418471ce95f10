//! What a machine reads of the outside while it runs: the bytes of its console, in pieces, and the
//! packets of its network.
//!
//! ```
//! let mut chunks = Chunks::new(world.source(Role::ConsoleIn, None)?);
//! while let Some(piece) = chunks.next(alloc)? {
//!     sink.put_all(piece.as_slice())?;
//! }
//! world.take_source(Role::ConsoleIn, chunks.into_inner());
//! ```
#![tactic(auto)]

mod chunks;
mod frames;
mod packets;
mod pieces;
mod read_error;
#[cfg(test)]
mod tests;

pub use chunks::Chunks;
pub use frames::Frames;
pub use packets::Packets;
pub use pieces::Pieces;
pub use read_error::ReadError;
