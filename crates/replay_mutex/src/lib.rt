//! The hub that threads share: a lock over one slot of a table. Whatever way the threads
//! interleave, their calls stand in one history that a single thread could have made.
//!
//! ```
//! let (hub, mut passes) = Hub::new(alloc, 2, 1, &image)?;
//! let look = hub.look(rt, &mut passes[0]);
//! let history = hub.close(passes);
//! ```
#![tactic(auto)]

mod close;
mod errors;
mod history;
mod hub;
mod lock;
mod machine;
mod open;
mod pass;
mod posting;
mod steps;
#[cfg(test)]
mod tests;
mod view;

pub use errors::{ClaimError, CloseError, PostError, TakeError};
pub use history::History;
pub use hub::Hub;
pub use machine::Look;
pub use outside::NoMemory;
pub use pass::Pass;
pub use plain_hub::{Base, Call, Entry, Flushed, Item, Job, Short, Why};
pub use view::{Joined, View};
