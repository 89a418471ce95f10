//! What is due, round after round.

ghost use Rattle.std.specs.Prelude.{◌≡◌, OnOk, IsSome, false};
ghost use Rattle.board.specs.Due.{due};
ghost use Rattle.board.specs.Bounds.{Counts};
ghost use Rattle.rr_engine.specs.Feed.{source_feed};
ghost use Rattle.rr_engine.specs.Windows.{nothing_left};
ghost use Rattle.rr_engine.specs.Stand.{stand};
ghost use Rattle.rr_engine.specs.Recording.{Goes};
ghost use Rattle.rr_engine.specs.Owed.{Rests};
ghost use Rattle.rr_engine.specs.Rounds.{GoesOn, Rounds};

use crate::ends::Break;
use crate::inputs::Inputs;
use crate::parts::RecordParts;
use crate::recorder::Recorder;
use board::{Due, Steps};
use event_log::Event;
use io_workers::Pieces;
use outside::{HostClock, Sink, Source};
use std::alloc::Global;
use std::sync::ledger::Ledger;

impl<I: Inputs> Recorder<I> {
    /// As many turns as run, as one INSTRUCTION.
    fn turns<S: Source, K: Sink, C: HostClock, L: Ledger>(
        &mut self,
        alloc: Global,
        parts: &mut RecordParts<S, K, C>,
        steps: &mut Steps<L>,
    ) -> Result<(), Break>
        requires due { due self.old.machine ≡ Due.Run }
        requires counts { Counts self.old.machine.control self.old.machine.devices.time }
        requires on { GoesOn (stand I.feed self.old parts.old) }
        ensures { Rounds (stand I.feed self.old parts.old) (stand I.feed self.new parts.new)
            result }
    {
        match self.machine.run(u32::MAX, steps) {
            Ok(count) => self.note(alloc, Event::Instruction(count), parts),
            Err(_) => Err(Break::NoMemory),
        }
    }

    /// A value of the host's clock, as one CLOCK.
    fn clock<S: Source, K: Sink, C: HostClock>(
        &mut self,
        alloc: Global,
        parts: &mut RecordParts<S, K, C>,
    ) -> Result<(), Break>
        requires due { due self.old.machine ≡ Due.Clock }
        requires counts { Counts self.old.machine.control self.old.machine.devices.time }
        requires on { GoesOn (stand I.feed self.old parts.old) }
        ensures { Rounds (stand I.feed self.old parts.old) (stand I.feed self.new parts.new)
            result }
    {
        let value = parts.now();
        self.enter(alloc, Event::Clock(value), parts)
    }

    /// What is due, whatever it is.
    pub fn round<S: Source, K: Sink, C: HostClock, L: Ledger>(
        &mut self,
        alloc: Global,
        parts: &mut RecordParts<S, K, C>,
        steps: &mut Steps<L>,
    ) -> Result<(), Break>
        requires { GoesOn (stand I.feed self.old parts.old) }
        ensures { Rounds (stand I.feed self.old parts.old) (stand I.feed self.new parts.new)
            result }
    {
        match self.machine.due() {
            Due::Run => self.turns(alloc, parts, steps),
            Due::Exception => self.enter(alloc, Event::Exception, parts),
            Due::Interrupt => self.enter(alloc, Event::Interrupt, parts),
            Due::Clock => self.clock(alloc, parts),
            Due::Idle => self.checkpoint(alloc, true, parts),
            Due::Slice => self.checkpoint(alloc, false, parts),
            Due::End { reason, code } => self.conclude(alloc, reason, code, parts),
            Due::Wait | Due::Nothing => unreachable!(),
        }
    }
}

impl Recorder<Pieces> {
    /// Round after round, until the run has ended.
    pub fn run<S: Source, K: Sink, C: HostClock, L: Ledger>(
        &mut self,
        alloc: Global,
        parts: &mut RecordParts<S, K, C>,
        steps: &mut Steps<L>,
    ) -> Result<(), Break>
        requires { GoesOn (stand source_feed self.old parts.old) }
        ensures goes { Goes nothing_left nothing_left (stand source_feed self.old parts.old)
            (stand source_feed self.new parts.new) result }
        ensures works { OnOk result (self.new.log.failed ≡ false) }
        ensures ended { OnOk result (IsSome self.new.machine.control.ended) }
        ensures rests { OnOk result (Rests (stand source_feed self.new parts.new)) }
    {
        'rounds: while self.machine.ended().is_none() {
            match self.round(alloc, parts, steps) {
                Ok(()) => {}
                Err(broke) => return Err(broke),
            }
        }
        Ok(())
    }
}
