//! The clock of a demonstration.

ghost use Rattle.std.specs.Prelude.{◌≡◌, ℕ, List, replicate, Some, is_some, option_map};
ghost use Rattle.std.specs.declared.option.Option.{Option};

use outside::HostClock;
use std::marker::Model;

/// A clock that stands at 0. Contracts see it as its count of calls: past `u64::MAX` it has none,
/// and the clock tells nothing from then on.
#[derive(Drop)]
pub struct StillClock {
    calls: Option<u64>,
}

impl Model for StillClock {
    ghost Value = { Option ℕ };

    ghost view = { λ c. c.calls };
}

impl StillClock {
    /// A clock that has given nothing yet.
    pub fn new() -> Self
        ensures { result ≡ Some 0 }
    {
        StillClock { calls: Some(0) }
    }

    /// Whether it counted all of its calls.
    pub fn is_counted(&self) -> bool
        ensures { result ≡ is_some self.now }
    {
        self.calls.is_some()
    }
}

impl HostClock for StillClock {
    ghost gave = { λ calls. option_map (λ n. replicate n 0) calls };

    fn now(&mut self) -> u64 {
        self.calls = match self.calls {
            Some(count) => count.checked_add(1),
            None => None,
        };
        0
    }
}
