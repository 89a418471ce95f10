//! The outside of a machine: sources, sinks, images and the host's clock, and the world that
//! opens them and takes them back. Contracts see of each what it holds and how often it failed.
//! Fakes in memory stand beside the adapters to the host.
//!
//! ```
//! let mut sink = Careful::new(world.sink(Role::LogOut, Some("log"))?);
//! let written = sink.put_all(b"header");
//! world.take_sink(Role::LogOut, sink.into_inner());
//! ```
#![tactic(auto)]

mod bytes;
mod calls;
mod careful;
mod counters;
mod devices;
mod faults;
mod files;
mod host_world;
mod list_clock;
mod mem_image;
mod mem_sink;
mod mem_source;
mod mem_world;
mod openings;
mod past;
mod roles;
mod std_clock;
mod std_streams;
mod sure;
#[cfg(test)]
mod tests;
mod world;

pub use bytes::Bytes;
pub use careful::Careful;
pub use devices::{Failed, HostClock, Image, Sink, Source};
pub use files::{FileImage, FileSink, FileSource};
pub use host_world::{HostImage, HostSink, HostSource, HostWorld};
pub use list_clock::ListClock;
pub use mem_image::MemImage;
pub use mem_sink::MemSink;
pub use mem_source::MemSource;
pub use mem_world::MemWorld;
pub use openings::Opening;
pub use past::Past;
pub use roles::{PerRole, Role};
use std::alloc::AllocError;
pub use std_clock::StdClock;
pub use std_streams::{StdSink, StdSource};
pub use sure::{SureImage, SureSink, SureSource};
pub use world::{OpenError, World};

/// Memory was refused.
pub type NoMemory = AllocError;
