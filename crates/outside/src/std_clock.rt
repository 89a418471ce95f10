//! The system's clock. It tells no values.
ghost use Rattle.std.specs.Prelude.{◌≡◌, ◌∷◌, [], None, ℕ};
ghost use Rattle.outside.specs.Told.{Takes};

use crate::HostClock;
use std::marker::Model;
use std::time::Clock;

/// The system's clock, in nanoseconds. Where the system gives no value it gives its last again, at
/// first 0. Contracts see it as the value that it gave last.
#[derive(Drop)]
pub struct StdClock {
    rt: HostRuntime,
    last: u64,
}

impl Model for StdClock {
    ghost Value = { ℕ };

    ghost view = { λ c. c.last };
}

impl StdClock {
    /// A clock that gave nothing yet.
    pub fn new(rt: HostRuntime) -> Self
        ensures { result ≡ 0 }
    {
        StdClock { rt, last: 0 }
    }
}

impl HostClock for StdClock {
    ghost gave = { λ _. None };

    fn now(&mut self) -> u64
        ensures told { Takes None None (result ∷ []) }
        ensures last { self.new ≡ result }
    {
        if let Ok(time) = self.rt.monotonic() {
            self.last = u64::try_from(time.as_nanos()).unwrap_or(u64::MAX);
        }
        self.last
    }
}
