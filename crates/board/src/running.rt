//! Turns, as long as one is due.

ghost use Rattle.std.specs.Prelude.{◌≡◌, true};
ghost use Rattle.board.specs.Answers.{Advances, RunsTo, StepsTo, Turns};
ghost use Rattle.board.specs.Due.{due as due_of};
ghost use Rattle.board.specs.Sprint.{IsFree};

use crate::closing::closed;
use crate::control::Window;
use crate::due::Due;
use crate::machine::Machine;
use crate::steps::Steps;
use crate::turning::{Stepped, make, step};
use outside::NoMemory;
use std::alloc::AllocError;
use std::sync::ledger::Ledger;

/// What a turn came to.
#[derive(Clone, Copy, Debug, PartialEq, Eq)]
pub enum Turned {
    Done,
    NoMemory,
}

impl Machine {
    /// A turn where one is due. It closes an open window first.
    #[inline(always)]
    #[tactic(auto, unfolding(crate::specs::Due::due, crate::specs::Turn::turn, crate::specs::Turn::turn_wants_memory, crate::specs::Close::close))]
    pub(crate) fn advance(&mut self) -> Stepped
        ensures { Advances self.old result self.new }
    {
        if let Window::Shut = self.control.window {
            return self.step();
        }
        self.advance_closing()
    }

    /// The same, where a window may be open.
    #[inline(never)]
    #[tactic(auto, unfolding(crate::specs::Due::due, crate::specs::Turn::turn, crate::specs::Turn::turn_wants_memory))]
    fn advance_closing(&mut self) -> Stepped
        ensures { Advances self.old result self.new }
    {
        let before = (self.control, self.devices.time);
        let (control, time) = closed(&self.hart, &self.devices, &self.control);
        self.control = control;
        self.devices.time = time;
        match self.step() {
            Stepped::Turned => Stepped::Turned,
            other => {
                self.control = before.0;
                self.devices.time = before.1;
                other
            }
        }
    }

    /// A turn where one is due and the window is closed.
    #[inline(always)]
    fn step(&mut self) -> Stepped
        ensures { StepsTo self.old result self.new }
    {
        step(
            &mut self.hart,
            &mut self.devices,
            &mut self.control,
            &mut self.cache,
        )
    }

    /// A turn that is known to be due, unless it needs the host's clock.
    #[inline(always)]
    #[tactic(auto, unfolding(crate::specs::Due::due, crate::specs::Turn::turn, crate::specs::Turn::turn_wants_memory, crate::specs::Close::close))]
    fn make_free(&mut self) -> Stepped
        requires { IsFree self.old }
        ensures { Advances self.old result self.new }
    {
        make(
            &mut self.hart,
            &mut self.devices,
            &mut self.control,
            &mut self.cache,
        )
    }

    /// A turn where one is due. `free` tells that one is known to be, unless it needs the clock.
    #[inline(always)]
    fn advance_from(&mut self, free: bool) -> Stepped
        requires { free ≡ true → IsFree self.old }
        ensures { Advances self.old result self.new }
    {
        if free {
            self.make_free()
        } else {
            self.advance()
        }
    }

    /// One turn, which closes an open window first. After `NoMemory` all is as before.
    #[tactic(auto, using(crate::proofs::DueFacts::run_is_run))]
    pub fn turn<L: Ledger>(&mut self, steps: &mut Steps<L>) -> Turned
        requires { due_of self.old ≡ Due.Run }
        ensures { Turns self.old result self.new steps.old steps.new }
    {
        match self.advance() {
            Stepped::Turned => {
                steps.tick();
                Turned::Done
            }
            Stepped::Stopped => unreachable!(),
            Stepped::NoMemory => Turned::NoMemory,
        }
    }

    /// Makes turns as long as one is due, at most `limit`, and answers how many. Where memory is
    /// refused, the turns before stay made.
    #[tactic(auto, using(crate::proofs::RunFacts::run_facts))]
    pub fn run<L: Ledger>(&mut self, limit: u32, steps: &mut Steps<L>) -> Result<u32, NoMemory>
        ensures { RunsTo self.old limit result self.new steps.old steps.new }
    {
        let mut made = 0;
        let mut free = false;
        while made < limit {
            match self.advance_from(free) {
                Stepped::Turned => {
                    steps.tick();
                    made += 1;
                    let sprint = self.sprint(limit - made, steps);
                    made += sprint.made;
                    free = sprint.free;
                }
                Stepped::Stopped => return Ok(made),
                Stepped::NoMemory => return Err(AllocError),
            }
        }
        Ok(limit)
    }
}
