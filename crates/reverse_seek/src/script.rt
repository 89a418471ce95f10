//! The accepted part of a log, and the machine that it starts from.

ghost use Rattle.std.specs.Prelude.{◌≡◌, ◌≤◌, ◌^◌, [], length, IfOk};
ghost use Rattle.std.specs.List.{AllByRecursion};

use crate::mark::Mark;
use crate::waymarks::Waymarks;
use board::{Machine, Steps};
use log_order::{FeedError, Found, Refusal, Runner};
use outside::NoMemory;
use std::alloc::{AllocError, Global};
use std::marker::Model;
use std::sync::ledger::Ledger;

/// Where the first event stands in a log, after the header.
pub const FIRST_PLACE: usize = 98;

/// A log, where its accepted part ends, the last count of turns there, and the machine before the
/// first event. Contracts see the events of that part too.
#[derive(Drop)]
pub struct Script {
    start: Machine,
    log: Vec<u8>,
    end: usize,
    last: u64,
}

/// Where the accepted part of a log ends, the last count there, and why no more is accepted.
#[derive(Drop)]
pub struct Part {
    pub end: usize,
    pub last: u64,
    pub refusal: Option<Refusal>,
}

impl Model for Script {
    ghost use Rattle.reverse_seek.specs.Script.{Script as Accepted, IsScript, events_to};

    ghost Value = { Accepted };

    ghost view = { λ s. record {
      start = s.start;
      events = events_to s.end s.log.items;
      log = s.log.items;
      end = s.end;
      last = s.last;
    } };

    ghost invariant = { λ s. IsScript (record {
      start = s.start;
      events = events_to s.end s.log.items;
      log = s.log.items;
      end = s.end;
      last = s.last;
    }) };
}

impl Script {
    ghost use Rattle.reverse_seek.specs.Script.{IsScript, IsPart, Reads, first_place};
    ghost use Rattle.reverse_seek.specs.Mark.{Stands};
    ghost use Rattle.reverse_seek.specs.Waymarks.{AllLie};

    /// The accepted part of a log whose header has made the machine, and why no more of it is
    /// accepted. Waymarks are kept on the way.
    pub fn read<L: Ledger>(
        alloc: Global,
        machine: Machine,
        log: Vec<u8>,
        ways: &mut Waymarks,
        steps: &mut Steps<L>,
    ) -> Result<(Script, Option<Refusal>), NoMemory>
        requires begins { machine.devices.time.count ≡ 0 }
        requires header { first_place ≤ length log.items }
        requires none { ways.old.marks.items ≡ [] }
        ensures reads { IfOk result (λ found. Reads machine log.items found.0 found.1) }
        ensures ways { IfOk result (λ found.
            AllByRecursion (Stands found.0) ways.new.marks.items) }
    {
        let start = machine.share()?;
        let part = Script::part(alloc, log.as_slice(), machine, ways, steps)?;
        let Part { end, last, refusal } = part;
        let script = Script {
            start,
            log,
            end,
            last,
        };
        Ok((script, refusal))
    }

    /// The accepted part of a log, run on a machine, and waymarks on the way.
    #[tactic(auto, using(crate::proofs::Parting::parting))]
    fn part<L: Ledger>(
        alloc: Global,
        log: &[u8],
        machine: Machine,
        ways: &mut Waymarks,
        steps: &mut Steps<L>,
    ) -> Result<Part, NoMemory>
        requires header { first_place ≤ length log.now }
        requires none { ways.old.marks.items ≡ [] }
        ensures is { IfOk result (λ part. IsPart log.now machine part) }
        ensures ways { IfOk result (λ part. AllLie log.now machine part.end ways.new.marks.items) }
    {
        let mut last = machine.count();
        let mut runner = Runner::new(machine);
        let mut end = FIRST_PLACE;
        'events: while runner.ended().is_none() {
            ways.pass(runner.machine(), end)?;
            match runner.follow_one(alloc, log, end, steps) {
                Ok(next) => end = next,
                Err(FeedError::NoMemory) => return Err(AllocError),
                Err(FeedError::Refused) => {
                    let refusal = runner.into_refusal();
                    return Ok(Part { end, last, refusal });
                }
            }
            last = runner.machine().count();
        }
        if end < log.len() {
            runner.refuse(end as u64, Found::MoreBytes);
            let refusal = runner.into_refusal();
            return Ok(Part { end, last, refusal });
        }
        let refusal = runner.into_refusal();
        Ok(Part { end, last, refusal })
    }

    /// A mark before the first event.
    pub fn start(&self) -> Result<Mark, NoMemory>
        ensures stands { IfOk result (λ mark. Stands self.now mark) }
        ensures count { IfOk result (λ mark. mark.machine.devices.time.count ≡ 0) }
    {
        Ok(Mark {
            machine: self.start.share()?,
            place: FIRST_PLACE,
            done: 0,
        })
    }

    /// The whole log.
    pub fn log(&self) -> &[u8]
        ensures { result.now ≡ self.now.log }
    {
        self.log.as_slice()
    }

    /// Where the accepted part ends in the log.
    pub fn end(&self) -> usize
        ensures end { result ≡ self.now.end }
        ensures script { IsScript self.now }
    {
        self.end
    }

    /// The last count of the accepted part.
    pub fn last(&self) -> u64
        ensures last { result ≡ self.now.last }
        ensures script { IsScript self.now }
    {
        self.last
    }
}
