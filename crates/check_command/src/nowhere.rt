//! A console that nobody sees.

ghost use Rattle.std.specs.Prelude.{None};

use outside::{Failed, Sink};

/// A sink that takes all and keeps nothing.
#[derive(Drop)]
pub(crate) struct Nowhere {}

impl Sink for Nowhere {
    ghost use Rattle.std.specs.Prelude.{None};

    ghost role = { λ sink. None };

    ghost taken = { λ sink. None };

    ghost faults = { λ sink. 0 };

    fn write(&mut self, bytes: &[u8]) -> Result<usize, Failed> {
        Ok(bytes.len())
    }
}
