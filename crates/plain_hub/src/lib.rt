//! The hub of one thread: jobs that wait for a worker, items that were posted, the ends of passes,
//! and the history of all calls that left an entry.
//!
//! ```
//! let mut hub = PlainHub::new(alloc, Mark::of(alloc, &image)?)?;
//! hub.issue(Job { id: 0, at: 0, len: 512 })?;
//! let claimed = hub.claim(1);
//! ```
#![tactic(auto)]

mod base;
mod entry;
mod hub;
mod item;
mod job;
mod mark;
mod replies;
mod trouble;

pub use base::Base;
pub use entry::{Call, Entry};
pub use hub::PlainHub;
pub use item::{Item, Short};
pub use job::Job;
pub use mark::Mark;
pub use outside::NoMemory;
pub use replies::{ClaimRefusal, Flushed, PostRefusal, Sight, TakeRefusal};
pub use trouble::Why;
