//! The counters of turns and of retired instructions.
ghost use Rattle.std.specs.Prelude.{◌≡◌};
ghost use Rattle.rv_csr.specs.Table.{ticked, ticked_times};

use crate::csrs::Csrs;

impl Csrs {
    /// Counts a turn, and the instruction where it retired. A counter that the turn wrote stays as
    /// written.
    #[inline(always)]
    pub fn tick(&mut self, retired: bool)
        ensures { self.new ≡ ticked self.old retired }
    {
        if !self.cycle_written {
            self.cycle = self.cycle.wrapping_add(1);
        }
        if retired && !self.instret_written {
            self.instret = self.instret.wrapping_add(1);
        }
        self.cycle_written = false;
        self.instret_written = false;
    }
    /// Counts so many turns whose instructions retired.
    #[tactic(auto, using(crate::proofs::Times::times))]
    pub fn tick_times(&mut self, turns: u32)
        ensures { self.new ≡ ticked_times turns self.old }
    {
        if turns == 0 {
            return;
        }
        self.tick(true);
        let more = u64::from(turns - 1);
        self.cycle = self.cycle.wrapping_add(more);
        self.instret = self.instret.wrapping_add(more);
    }
}
