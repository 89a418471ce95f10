//! A whole log.

ghost use Rattle.std.specs.Prelude.{◌≡◌, ◌≤◌, ◌<◌, length, drop, None, IfOk};
ghost use Rattle.std.specs.Result.{result_err};
ghost use Rattle.log_order.specs.Feeding.{starting, CountsTurns};
ghost use Rattle.log_order.specs.Judging.{RunsLog, Judges, Follows};

use crate::refusal::Found;
use crate::runner::{FeedError, Runner};
use board::{Machine, Steps};
use event_log::{ParseError, next_event};
use std::alloc::Global;
use std::sync::ledger::Ledger;

/// Where the first event of a log stands.
const FIRST: usize = 98;

/// How the run of a log ended.
#[derive(Drop)]
pub struct RunLog {
    /// The machine, and the refusal where there is one.
    pub runner: Runner,
    /// None where the log was accepted whole.
    pub end: Option<FeedError>,
}

/// Runs a machine through all bytes of a log, whose header has made it.
pub fn run_log<L: Ledger>(
    alloc: Global,
    bytes: &[u8],
    machine: Machine,
    steps: &mut Steps<L>,
) -> RunLog
    requires { 98 ≤ length bytes.now }
    ensures judged { RunsLog (drop 98 bytes.now) 98 machine result }
    ensures turns { CountsTurns (starting machine) result.runner steps.old steps.new }
{
    let mut runner = Runner::new(machine);
    let end = runner.follow(alloc, bytes, steps).err();
    RunLog { runner, end }
}

impl Runner {
    /// Event after event from the first on, and nothing after END.
    fn follow<L: Ledger>(
        &mut self,
        alloc: Global,
        bytes: &[u8],
        steps: &mut Steps<L>,
    ) -> Result<(), FeedError>
        requires bytes { 98 ≤ length bytes.now }
        requires new { self.old ≡ starting self.old.machine }
        ensures judged { Judges (drop 98 bytes.now) 98 self.old.machine (result_err result)
            self.new }
        ensures turns { CountsTurns self.old self.new steps.old steps.new }
    {
        let mut place = FIRST;
        'events: while self.ended().is_none() {
            place = self.follow_one(alloc, bytes, place, steps)?;
        }
        if place < bytes.len() {
            self.refuse(place as u64, Found::MoreBytes);
            return Err(FeedError::Refused);
        }
        Ok(())
    }

    /// The event at a place of the log, where the run goes on, and the place after it.
    pub fn follow_one<L: Ledger>(
        &mut self,
        alloc: Global,
        bytes: &[u8],
        place: usize,
        steps: &mut Steps<L>,
    ) -> Result<usize, FeedError>
        requires within { place ≤ length bytes.now }
        requires going { self.old.machine.control.ended ≡ None }
        requires unrefused { self.old.refusal ≡ None }
        ensures follows { Follows bytes.now place self.old result self.new }
        ensures ahead { IfOk result (λ next. (place < next) × (next ≤ length bytes.now)) }
        ensures turns { CountsTurns self.old self.new steps.old steps.new }
    {
        match next_event(alloc, bytes, place) {
            Ok((e, next)) => {
                self.feed(e, place as u64, steps)?;
                Ok(next)
            }
            Err(ParseError::NoMemory) => Err(FeedError::NoMemory),
            Err(ParseError::Cut(offset)) => {
                self.refuse(offset, Found::Cut);
                Err(FeedError::Refused)
            }
            Err(ParseError::Bad { offset, rule }) => {
                self.refuse(offset, Found::Rule(rule));
                Err(FeedError::Refused)
            }
        }
    }
}
