//! A clock that gives the values of a list.
ghost use Rattle.std.specs.Prelude.{◌≡◌, ◌∷◌, []};
ghost use Rattle.outside.specs.Fakes.{ClockState, clock_gave, value_at};
ghost use Rattle.outside.specs.Causes.{one_more};
ghost use Rattle.outside.specs.Told.{Takes};

use crate::HostClock;
use std::marker::Model;

/// Gives these values in order, then the last again, and 0 where there is none. It takes no memory.
#[derive(Drop)]
pub struct ListClock {
    values: Vec<u64>,
    calls: usize,
}

impl Model for ListClock {
    ghost Value = { ClockState };

    ghost view = { λ c. record { values = c.values.items; calls = c.calls } };
}

impl ListClock {
    /// A clock that has given nothing yet.
    pub fn new(values: Vec<u64>) -> Self
        ensures { result ≡ record { values = values.items; calls = 0 } }
    {
        ListClock { values, calls: 0 }
    }
}

impl HostClock for ListClock {
    ghost gave = { clock_gave };

    fn now(&mut self) -> u64
        ensures told { Takes (clock_gave self.old) (clock_gave self.new) (result ∷ []) }
        ensures value { result ≡ value_at self.old.values self.old.calls }
        ensures calls { self.new ≡ record self.old { calls = one_more self.old.calls } }
    {
        let last = self.values.len().saturating_sub(1);
        let value = self.values.get(self.calls.min(last)).copied().unwrap_or(0);
        self.calls = self.calls.saturating_add(1);
        value
    }
}
