//! What a log that is accepted comes to.

ghost use Rattle.std.specs.Prelude.{◌≡◌, IfOk, string_bytes};
ghost use Rattle.check_command.specs.Checks.{accepted_line};

use std::alloc::{AllocError, Global};

/// What a log that is accepted comes to.
#[derive(Clone, Copy, Debug, PartialEq, Eq)]
pub struct Tally {
    /// Its events, of which END is the last.
    pub events: u64,
    /// The turns that its events stand for.
    pub turns: u64,
    /// Why the run ended, by its END, and the code there.
    pub reason: u8,
    pub code: u32,
}

impl Tally {
    /// The line for it.
    pub(crate) fn line(self, alloc: Global) -> Result<String, AllocError>
        ensures { IfOk result (λ s. string_bytes s ≡ accepted_line self) }
    {
        let Tally {
            events,
            turns,
            reason,
            code,
        } = self;
        format!(in alloc; "accepted: events {events}, turns {turns}, end {reason} {code}\n")
    }
}
