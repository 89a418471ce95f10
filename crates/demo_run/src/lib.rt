//! A demonstration: a guest that prints letters is recorded and replayed over devices in memory.
#![tactic(auto)]

mod demo;
mod demo_clock;
mod guests;

pub use demo::demo_text;
