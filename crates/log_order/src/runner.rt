//! A machine that is fed the events of a log.

ghost use Rattle.std.specs.Prelude.{◌≡◌, [], None, option_copied, take};
ghost use Rattle.event_log.specs.Spelling.{IsEvent};
ghost use Rattle.board.specs.Taken.{without_out};
ghost use Rattle.board.specs.Effect.{IsNoTurn};
ghost use Rattle.log_order.specs.Feeding.{starting, accepted, refused, refused_first, found_as, Feeds, Advances, CountsTurns};

use crate::refusal::{Found, Refusal};
use board::{AcceptError, Due, Ending, Machine, Steps};
use event_log::Event;
use outside::NoMemory;
use std::marker::Model;
use std::sync::ledger::Ledger;

/// Why an event wasn't accepted.
#[derive(Clone, Copy, Debug, PartialEq, Eq)]
pub enum FeedError {
    /// It is refused, or one before it was: `Runner::refusal` says which and why.
    Refused,
    NoMemory,
}

/// The refusal that ended a log, and how many of the console bytes are of accepted events.
#[derive(Debug, Drop)]
struct Refused {
    refusal: Refusal,
    shown: usize,
}

/// A machine, and how far it came in a log. After a refusal it takes nothing more, and after want
/// of memory it may be given up alone.
#[derive(Drop)]
pub struct Runner {
    machine: Machine,
    index: u64,
    refused: Option<Refused>,
}

// Clauses see the console bytes of accepted events apart from those of refused turns.
impl Model for Runner {
    ghost use Rattle.std.specs.Prelude.{option_map};
    ghost use Rattle.log_order.specs.Feeding.{Progress, accepted_out_of};

    ghost Value = { Progress };

    ghost view = { λ r. record {
      machine = r.machine;
      index = r.index;
      out = accepted_out_of r.machine.devices.uart.out r.refused;
      refusal = option_map (λ refused. refused.refusal) r.refused;
    } };
}

impl Runner {
    /// A machine before the first event of a log.
    pub fn new(machine: Machine) -> Runner
        ensures { result ≡ starting machine }
    {
        Runner {
            machine,
            index: 0,
            refused: None,
        }
    }

    /// Takes the event at this offset of the log, or refuses it. After a refusal each further feed
    /// answers the same; after END each event is refused.
    pub fn feed<L: Ledger>(
        &mut self,
        e: Event,
        offset: u64,
        steps: &mut Steps<L>,
    ) -> Result<(), FeedError>
        requires { IsEvent e }
        ensures fed { Feeds self.old e offset result self.new }
        ensures turns { CountsTurns self.old self.new steps.old steps.new }
    {
        if let Event::Instruction(count) = &e {
            return self.feed_turns(*count, offset, steps);
        }
        self.feed_with(e, offset, &[])
    }

    /// The same for an event other than INSTRUCTION, with the bytes of the base image for a BLOCK
    /// whose request is in flight, and else without.
    pub fn feed_with(&mut self, e: Event, offset: u64, base: &[u8]) -> Result<(), FeedError>
        requires event { IsEvent e }
        requires no_turn { IsNoTurn e }
        requires base { base.now ≡ [] }
        ensures fed { Feeds self.old e offset result self.new }
        ensures turns { CountsTurns self.old self.new 0 0 }
    {
        if self.refused.is_some() {
            return Err(FeedError::Refused);
        }
        match self.machine.accept(&e, base) {
            Ok(()) => {
                self.count_event();
                Ok(())
            }
            Err(AcceptError::Wrong(due)) => {
                let found = self.found(e);
                let shown = self.machine.untaken();
                self.keep(offset, due, found, shown);
                Err(FeedError::Refused)
            }
            Err(AcceptError::NoMemory) => Err(FeedError::NoMemory),
        }
    }

    /// The same for an INSTRUCTION.
    fn feed_turns<L: Ledger>(
        &mut self,
        count: u32,
        offset: u64,
        steps: &mut Steps<L>,
    ) -> Result<(), FeedError>
        requires { IsEvent (Event.Instruction count) }
        ensures fed { Feeds self.old (Event.Instruction count) offset result self.new }
        ensures turns { CountsTurns self.old self.new steps.old steps.new }
    {
        if self.refused.is_some() {
            return Err(FeedError::Refused);
        }
        let shown = self.machine.untaken();
        let found = self.found(Event::Instruction(count));
        let Ok(ran) = self.machine.run(count, steps) else {
            return Err(FeedError::NoMemory);
        };
        let due = self.machine.due();
        if ran == count && !due.is_run() {
            self.count_event();
            return Ok(());
        }
        self.keep(offset, due, found, shown);
        Err(FeedError::Refused)
    }

    /// Refuses what stands at this offset of the log, which is no event to be fed.
    pub fn refuse(&mut self, offset: u64, found: Found)
        ensures { self.new ≡ refused_first self.old.refusal self.old offset found }
    {
        if self.refused.is_some() {
            return;
        }
        let due = self.machine.due();
        let shown = self.machine.untaken();
        self.keep(offset, due, found, shown);
    }

    /// Makes turns as long as one is due, and answers how many: they stand for the accepted
    /// INSTRUCTION of that number, and for no event where there was none.
    pub fn advance<L: Ledger>(&mut self, steps: &mut Steps<L>) -> Result<u32, NoMemory>
        requires { self.old.refusal ≡ None }
        ensures ran { Advances self.old result self.new }
        ensures turns { CountsTurns self.old self.new steps.old steps.new }
    {
        if !self.machine.due().is_run() {
            return Ok(0);
        }
        let count = self.machine.run(u32::MAX, steps)?;
        self.count_event();
        Ok(count)
    }

    /// The console bytes of accepted events since the last call.
    pub fn accepted_out(&mut self) -> Vec<u8>
        ensures bytes { result.items ≡ self.old.out }
        ensures rest { self.new
            ≡ record self.old { machine = without_out self.old.machine; out = [] } }
    {
        let mut out = self.machine.take_out();
        if let Some(refused) = &self.refused {
            out.truncate(refused.shown);
        }
        out
    }

    /// How many events were accepted. A `u64` holds no more than 2^64 - 1.
    pub fn accepted(&self) -> u64
        ensures { result ≡ self.now.index }
    {
        self.index
    }

    /// The machine: after a refused INSTRUCTION it stands after as many of its turns as ran.
    pub fn machine(&self) -> &Machine
        ensures { result.now ≡ self.now.machine }
    {
        &self.machine
    }

    /// How the run ended.
    pub fn ended(&self) -> Option<Ending>
        ensures { result ≡ self.now.machine.control.ended }
    {
        self.machine.ended()
    }

    /// The first wrong event, once one was refused.
    pub fn refusal(&self) -> Option<&Refusal>
        ensures { option_copied result ≡ self.now.refusal }
    {
        match &self.refused {
            Some(refused) => Some(&refused.refusal),
            None => None,
        }
    }

    /// The same, where the runner isn't needed any more.
    pub fn into_refusal(self) -> Option<Refusal>
        ensures { result ≡ self.refusal }
    {
        let Runner { refused, .. } = self;
        match refused {
            Some(refused) => Some(refused.refusal),
            None => None,
        }
    }

    // What an event is found as, where it isn't accepted.
    fn found(&self, e: Event) -> Found
        ensures { result ≡ found_as self.now.machine e }
    {
        if self.machine.ended().is_some() {
            return Found::MoreBytes;
        }
        Found::Event(e)
    }

    // One event more was accepted.
    fn count_event(&mut self)
        requires { self.old.refusal ≡ None }
        ensures { self.new ≡ accepted self.old self.old.machine }
    {
        self.index = self.index.saturating_add(1);
    }

    // The refusal is kept, with how many console bytes are of accepted events.
    fn keep(&mut self, offset: u64, due: Due, found: Found, shown: usize)
        requires { self.old.refusal ≡ None }
        ensures { self.new ≡ record (refused self.old self.old.machine offset due found)
            { out = take shown self.old.machine.devices.uart.out } }
    {
        self.refused = Some(Refused {
            refusal: Refusal {
                index: self.index,
                offset,
                due,
                found,
            },
            shown,
        });
    }
}
