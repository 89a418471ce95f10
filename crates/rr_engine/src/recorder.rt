//! A recording that goes on: an event for the machine and the log, bytes for the console.

ghost use Rattle.std.specs.Prelude.{◌≡◌, false};
ghost use Rattle.event_log.specs.Spelling.{text, IsEvent};
ghost use Rattle.rr_engine.specs.Stand.{stand};
ghost use Rattle.board.specs.Effect.{IsNoTurn};
ghost use Rattle.rr_engine.specs.Owed.{IsOwed, Enters};
ghost use Rattle.rr_engine.specs.Outputs.{Notes, Shows};

use crate::ends::Break;
use crate::inputs::Inputs;
use crate::parts::RecordParts;
use board::{AcceptError, Machine};
use event_log::{Event, StreamError, WriteBehind};
use outside::{HostClock, Sink, Source};
use std::alloc::Global;

/// The machine, what has gathered of its log, and what gives its inputs.
#[derive(Drop)]
pub(crate) struct Recorder<I> {
    pub machine: Machine,
    pub log: WriteBehind,
    pub inputs: I,
}

impl<I: Inputs> Recorder<I> {
    /// The machine takes an event that it accepts now, and the log gets it.
    #[tactic(auto, unfolding(board::specs::Runs::step))]
    pub fn enter<S: Source, K: Sink, C: HostClock>(
        &mut self,
        alloc: Global,
        e: Event,
        parts: &mut RecordParts<S, K, C>,
    ) -> Result<(), Break>
        requires works { self.old.log.failed ≡ false }
        requires owed { IsOwed self.old.machine e }
        requires is_no_turn { IsNoTurn e }
        ensures { Enters (stand I.feed self.old parts.old)
            (stand I.feed self.new parts.new) e result }
    {
        match self.machine.accept(&e, &[]) {
            Ok(()) => {}
            Err(AcceptError::NoMemory) => return Err(Break::NoMemory),
            Err(AcceptError::Wrong(_)) => unreachable!(),
        }
        self.note(alloc, e, parts)
    }

    /// The log gets an event.
    #[tactic(auto, using(crate::proofs::Noting::noting))]
    pub fn note<S: Source, K: Sink, C: HostClock>(
        &mut self,
        alloc: Global,
        e: Event,
        parts: &mut RecordParts<S, K, C>,
    ) -> Result<(), Break>
        requires works { self.old.log.failed ≡ false }
        requires spelled { IsEvent e }
        ensures { Notes (stand I.feed self.old parts.old)
            (stand I.feed self.new parts.new) (text e) result }
    {
        match self.log.put(alloc, &e, &mut parts.log) {
            Ok(()) => Ok(()),
            Err(StreamError::NoMemory) => Err(Break::NoMemory),
            Err(StreamError::Failed) => Err(Break::LogWrite),
            Err(StreamError::Parse(_)) | Err(StreamError::TooLong) => unreachable!(),
        }
    }

    /// The console gets the bytes that it hasn't yet.
    pub fn write_out<S: Source, K: Sink, C: HostClock>(
        &mut self,
        alloc: Global,
        parts: &mut RecordParts<S, K, C>,
    ) -> Result<(), Break>
        ensures shows { Shows (stand I.feed self.old parts.old)
            (stand I.feed self.new parts.new) result }
    {
        let out = self.machine.take_out();
        if out.is_empty() {
            return Ok(());
        }
        match parts.out.put_all(&out) {
            Ok(()) => Ok(()),
            Err(_) => Err(Break::ConsoleWrite),
        }
    }
}
