//! A machine that stands somewhere in a script.

ghost use Rattle.std.specs.Prelude.{◌≡◌, ◌≢◌, ◌≤◌, ◌<◌, ◌+◌, ◌-◌, OnOk, IfOk};
ghost use Rattle.event_log.specs.declared.event.Event.{Event as AnEvent};
ghost use Rattle.reverse_seek.specs.Script.{IsScript};
ghost use Rattle.reverse_seek.specs.Mark.{Stands, StandsAt};
ghost use Rattle.reverse_seek.specs.Moves.{ComesNext, Advances, Counts, Arrives, turns_in as turns_of};

use crate::script::Script;
use board::{AcceptError, Machine, Steps};
use event_log::{Event, ParseError, next_event};
use outside::NoMemory;
use std::alloc::{AllocError, Global};
use std::sync::ledger::Ledger;

/// A machine, the place of the event that comes next in the log, and how many turns of it were
/// made.
#[derive(Drop)]
pub struct Mark {
    pub machine: Machine,
    pub place: usize,
    pub done: u32,
}

/// The turns of an INSTRUCTION.
fn turns_in(event: &Event) -> Option<u32>
    ensures { result ≡ turns_of event.now }
{
    match event {
        Event::Instruction(turns) => Some(*turns),
        _ => None,
    }
}

/// The turns that are left, or the room for them where it is less.
fn lesser(left: u32, room: u64) -> u32
    ensures left { result ≤ left }
    ensures room { result ≤ room }
    ensures one { result < left → result ≡ room }
{
    if room < u64::from(left) {
        room as u32
    } else {
        left
    }
}

impl Mark {
    /// A mark that stands where this one does. Later moves of one leave the other alone.
    pub fn share(&self) -> Result<Mark, NoMemory>
        ensures { IfOk result (λ m. m ≡ self.now) }
    {
        Ok(Mark {
            machine: self.machine.share()?,
            place: self.place,
            done: self.done,
        })
    }

    /// The event that comes next, and the place after it.
    fn next(&self, alloc: Global, script: &Script) -> Result<(Event, usize), NoMemory>
        requires stands { Stands script.now self.now }
        requires more { self.now.place ≢ script.now.end }
        ensures { IfOk result (λ found. ComesNext script.now self.now found.0 found.1) }
    {
        let end = script.end();
        prove!(self.place < end);
        match next_event(alloc, script.log(), self.place) {
            Ok(found) => Ok(found),
            Err(ParseError::NoMemory) => Err(AllocError),
            Err(ParseError::Cut(_)) => unreachable!(),
            Err(ParseError::Bad { .. }) => unreachable!(),
        }
    }

    /// Makes the turns that are left of an INSTRUCTION, as far as the count. None are left to make
    /// where it is reached, and the answer is then false.
    fn make_turns<L: Ledger>(
        &mut self,
        script: &Script,
        turns: u32,
        next: usize,
        n: u64,
        steps: &mut Steps<L>,
    ) -> Result<bool, NoMemory>
        requires next { ComesNext script.now self.old (AnEvent.Instruction turns) next }
        requires within { self.old.machine.devices.time.count ≤ n }
        ensures moves { Advances script.now n self.old result self.new }
        ensures counts { Counts n self.old result self.new steps.old steps.new }
    {
        let _end = script.end();
        let left = turns - self.done;
        let room = n - self.machine.count();
        if room == 0 {
            return Ok(false);
        }
        let wanted = lesser(left, room);
        let Ok(_) = self.machine.run(wanted, steps) else {
            return Err(AllocError);
        };
        if wanted < left {
            self.done += wanted;
        } else {
            self.place = next;
            self.done = 0;
        }
        Ok(true)
    }

    /// Takes the next event, or those turns of it that lie within the count. The answer is false
    /// where it stands at the count, before a turn or at the end.
    fn advance<L: Ledger>(
        &mut self,
        alloc: Global,
        script: &Script,
        n: u64,
        steps: &mut Steps<L>,
    ) -> Result<bool, NoMemory>
        requires stands { Stands script.now self.old }
        requires within { self.old.machine.devices.time.count ≤ n }
        requires reach { n ≤ script.now.last }
        ensures moves { Advances script.now n self.old result self.new }
        ensures counts { Counts n self.old result self.new steps.old steps.new }
    {
        if self.place == script.end() {
            return Ok(false);
        }
        let (event, next) = self.next(alloc, script)?;
        if let Some(turns) = turns_in(&event) {
            return self.make_turns(script, turns, next, n, steps);
        }
        match self.machine.accept(&event, &[]) {
            Ok(()) => {
                self.place = next;
                self.done = 0;
                Ok(true)
            }
            Err(AcceptError::NoMemory) => Err(AllocError),
            Err(AcceptError::Wrong(_)) => unreachable!(),
        }
    }

    /// Goes on to a count, past all events before the next turn.
    pub fn go_on<L: Ledger>(
        &mut self,
        alloc: Global,
        script: &Script,
        n: u64,
        steps: &mut Steps<L>,
    ) -> Result<(), NoMemory>
        requires stands { Stands script.now self.old }
        requires within { self.old.machine.devices.time.count ≤ n }
        requires reach { n ≤ script.now.last }
        ensures stands { OnOk result (StandsAt script.now n self.new) }
        ensures counts { Arrives n self.old result steps.old steps.new }
    {
        while self.advance(alloc, script, n, steps)? {}
        Ok(())
    }
}
