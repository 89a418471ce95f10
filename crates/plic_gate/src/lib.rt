//! The platform-level interrupt controller with 31 sources and one context.
//!
//! A source's gateway forwards one request at a time: it is open where the source is neither
//! pending nor claimed.
#![tactic(auto)]

mod bits;
mod laws;
mod plic;
mod register;

pub use laws::{claim_clears_one, claim_is_best, external_interrupt_stands, waits_for_completion};
pub use plic::Plic;

#[cfg(test)]
mod tests;
