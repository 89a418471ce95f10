//! rrvm records one run of a RISC-V machine in a log, and replays it.
//!
//! `rrvm_main` is the whole program over a world of devices, with its theorem; `main` calls it over
//! the host.
#![tactic(auto)]

mod message;
mod raw_word;
#[cfg(test)]
mod tests;
mod texts;
mod top;
mod words;

use outside::HostWorld;
use raw_word::rrvm_raw;
use std::process::ExitCode;
use top::rrvm_main;
use words::{Given, given_words};

// The world comes first, as it keeps standard streams that are closed.
fn main(rt: HostRuntime) -> ExitCode {
    let mut world = HostWorld::new(rt);
    let Ok(given) = given_words(rt) else {
        return ExitCode::from(30);
    };
    let Given { texts, raw } = given;
    let status = match raw {
        None => rrvm_main(&rt, &texts, &mut world),
        Some(raw) => rrvm_raw(rt.alloc(), &texts, &raw, &mut world),
    };
    ExitCode::from(status.code)
}
