//! The calls of a fake device, by number.
ghost use Rattle.std.specs.Prelude.{◌≡◌};
ghost use Rattle.outside.specs.Fakes.{NumberedCalls, uncalled, fails, called};
ghost use Rattle.outside.specs.Causes.{one_more};

use std::marker::Model;

/// Counts the calls of a device, from 0, and knows which of them are to fail.
#[derive(Drop)]
pub(crate) struct Calls {
    failing: Vec<u64>,
    made: u64,
    faults: u64,
}

impl Model for Calls {
    ghost Value = { NumberedCalls };

    ghost view = { λ c. record { failing = c.failing.items; made = c.made; faults = c.faults } };
}

impl Calls {
    /// No call was made yet.
    pub(crate) fn new(failing: Vec<u64>) -> Self
        ensures { result ≡ uncalled failing.items }
    {
        Calls {
            failing,
            made: 0,
            faults: 0,
        }
    }

    /// How many calls were made.
    pub(crate) fn made(&self) -> u64
        ensures { result ≡ self.now.made }
    {
        self.made
    }

    /// How many calls failed.
    pub(crate) fn faults(&self) -> u64
        ensures { result ≡ self.now.faults }
    {
        self.faults
    }

    /// Counts a call, and says whether it is to fail.
    pub(crate) fn next_fails(&mut self) -> bool
        ensures fails { result ≡ fails self.old }
        ensures counted { self.new ≡ called result self.old }
    {
        let failed = self.failing.contains(&self.made);
        self.made = self.made.saturating_add(1);
        if failed {
            self.faults = self.faults.saturating_add(1);
        }
        failed
    }

    /// Counts that the call failed for another reason.
    pub(crate) fn fail(&mut self)
        ensures { self.new ≡ record self.old { faults = one_more self.old.faults } }
    {
        self.faults = self.faults.saturating_add(1);
    }
}
