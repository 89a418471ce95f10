//! Turns in a row that are counted together.

ghost use Rattle.std.specs.Prelude.{◌≡◌, ◌≤◌, ◌<◌, ◌+◌, ℕ, true, None};
ghost use Rattle.board.specs.Due.{interrupt_of};
ghost use Rattle.system_bus.specs.Lines.{levels};
ghost use Rattle.board.specs.Sprint.{IsQuiet, HasRoom, IsFree, counted_up, MakesUncounted, SprintsTo};

use crate::control::Window;
use crate::machine::Machine;
use crate::pending::interrupt_at;
use crate::steps::Steps;
use std::sync::ledger::Ledger;

/// Plain turns that were made in a row.
#[derive(Clone, Copy, Debug)]
pub(crate) struct Sprint {
    pub made: u32,
    /// Whether another turn is known to be due, unless it needs the host's clock.
    pub free: bool,
}

impl Machine {
    /// How many turns, of so many that change nothing but RAM, no interrupt is due before.
    #[inline(always)]
    #[tactic(auto, using(crate::proofs::Quiet::deaf_quiet))]
    fn quiet(&self, turns: u32) -> u32
        requires { levels self.now.devices ≡ self.now.devices }
        ensures most { result ≤ turns }
        ensures quiet { (n : ℕ) → n < result → IsQuiet self.now n }
    {
        if !self.hart.csrs.hears(self.hart.mode) {
            return turns;
        }
        match interrupt_at(&self.hart, &self.devices, &self.devices.time) {
            Some(_) => 0,
            None => self.until_the_timer(turns),
        }
    }

    /// The same where none is due now: the timer's alone may come.
    #[inline(never)]
    fn until_the_timer(&self, turns: u32) -> u32
        requires levels { levels self.now.devices ≡ self.now.devices }
        requires none { interrupt_of self.now ≡ None }
        ensures most { result ≤ turns }
        ensures quiet { (n : ℕ) → n < result → IsQuiet self.now n }
    {
        let time = &self.devices.time;
        let span = self.devices.clint.stays_for(time.nanoseconds());
        let most = time.turns_in(span);
        if most < u64::from(turns) {
            most as u32
        } else {
            turns
        }
    }

    /// How many plain turns can be counted together, and none where a mark is set.
    fn room(&self, limit: u32) -> u32
        requires { levels self.now.devices ≡ self.now.devices }
        ensures limit { result ≤ limit }
        ensures room { 0 < result → HasRoom self.now result }
    {
        if self.control.ended.is_some()
            || self.control.trapped
            || self.control.idle
            || self.devices.finisher.ended().is_some()
        {
            return 0;
        }
        let Window::Shut = self.control.window else {
            return 0;
        };
        let turns = self.control.budget - self.devices.time.count();
        let room = limit.min(self.control.slice - self.control.since);
        if turns < u64::from(room) {
            self.quiet(turns as u32)
        } else {
            self.quiet(room)
        }
    }

    /// Makes plain turns, at most `room`, and counts none.
    #[inline(always)]
    fn run_uncounted(&mut self, room: u32) -> u32
        ensures { MakesUncounted self.old room result self.new }
    {
        plain_turns::run(&mut self.hart, &mut self.devices.ram, &self.cache, room)
    }

    /// Counts plain turns that were made. The levels are the devices' lines already, and stay.
    #[tactic(auto, using(crate::proofs::Sprints::counts_up))]
    fn count_up(&mut self, made: u32)
        requires some { 0 < made }
        requires levels { levels self.old.devices ≡ self.old.devices }
        requires count { self.old.devices.time.count + made ≤ self.old.control.budget }
        requires since { self.old.control.since + made ≤ self.old.control.slice }
        ensures { self.new ≡ counted_up made self.old self.old.hart self.old.devices.ram }
    {
        self.hart.csrs.tick_times(made);
        self.devices.time.pass(made);
        self.control.since += made;
    }

    /// Makes plain turns in a row up to the next count, at most `limit`.
    pub(crate) fn sprint<L: Ledger>(&mut self, limit: u32, steps: &mut Steps<L>) -> Sprint
        requires { levels self.old.devices ≡ self.old.devices }
        ensures turns { SprintsTo self.old limit result.made self.new steps.old steps.new }
        ensures free { result.free ≡ true → IsFree self.new }
    {
        let room = self.room(limit);
        let made = self.run_uncounted(room);
        let free = made < room;
        if made == 0 {
            return Sprint { made, free };
        }
        self.count_up(made);
        steps.tick_times(made);
        Sprint { made, free }
    }
}
