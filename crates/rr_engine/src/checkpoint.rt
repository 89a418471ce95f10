//! Checkpoints and the end: the console is written there, and inputs come at checkpoints.

ghost use Rattle.std.specs.Prelude.{◌≡◌, OnOk, OnErr, [], Bool, true, false, All, map, if◌then◌else◌};
ghost use Rattle.board.specs.Accept.{takes_input};
ghost use Rattle.board.specs.Bounds.{Counts, IsDue};
ghost use Rattle.board.specs.Due.{due};
ghost use Rattle.board.specs.declared.control.Window.TheVariants as Window;
ghost use Rattle.rr_engine.specs.Stand.{stand};
ghost use Rattle.rr_engine.specs.Input.{Entire};
ghost use Rattle.rr_engine.specs.Feed.{IsInput, IsSound, event_of_item};
ghost use Rattle.rr_engine.specs.Windows.{Remainder, Left};
ghost use Rattle.rr_engine.specs.Recording.{Goes, Stops};
ghost use Rattle.rr_engine.specs.Rounds.{GoesOn, Rounds, Fills, TookIn};

use crate::ends::Break;
use crate::inputs::{Inputs, Received, Trouble, event_of};
use crate::parts::RecordParts;
use crate::recorder::Recorder;
use board::Due;
use event_log::Event;
use outside::{HostClock, Sink, Source};
use plain_hub::Item;
use std::alloc::Global;

impl<I: Inputs> Recorder<I> {
    /// A checkpoint that is due: its event, and then what comes in the window.
    pub fn checkpoint<S: Source, K: Sink, C: HostClock>(
        &mut self,
        alloc: Global,
        idle: bool,
        parts: &mut RecordParts<S, K, C>,
    ) -> Result<(), Break>
        requires due { due self.old.machine ≡ (if idle then Due.Idle else Due.Slice) }
        requires counts { Counts self.old.machine.control self.old.machine.devices.time }
        requires on { GoesOn (stand I.feed self.old parts.old) }
        ensures { Rounds (stand I.feed self.old parts.old) (stand I.feed self.new parts.new)
            result }
    {
        match self.enter(alloc, Event::Checkpoint { idle }, parts) {
            Ok(()) => self.show(alloc, idle, parts),
            Err(broke) => Err(broke),
        }
    }

    /// The console's bytes in a window that was just opened, and then its input. Where its sink
    /// fails, the recording is stopped by END 3.
    fn show<S: Source, K: Sink, C: HostClock>(
        &mut self,
        alloc: Global,
        idle: bool,
        parts: &mut RecordParts<S, K, C>,
    ) -> Result<(), Break>
        requires works { self.old.log.failed ≡ false }
        requires open { takes_input self.old.machine.control ≡ true }
        requires sound { IsSound (stand I.feed self.old parts.old).feed }
        requires idle { self.old.machine.control.window ≡ Window.Idle false → idle ≡ true }
        ensures { Fills (stand I.feed self.old parts.old) (stand I.feed self.new parts.new)
            result }
    {
        match self.write_out(alloc, parts) {
            Ok(()) => self.listen(alloc, idle, parts),
            Err(broke) => Err(broke.or_memory(self.stop(alloc, parts))),
        }
    }

    /// What the window receives: its inputs, and then, where a source failed, END 3.
    fn listen<S: Source, K: Sink, C: HostClock>(
        &mut self,
        alloc: Global,
        idle: bool,
        parts: &mut RecordParts<S, K, C>,
    ) -> Result<(), Break>
        requires works { self.old.log.failed ≡ false }
        requires open { takes_input self.old.machine.control ≡ true }
        requires silent { self.old.machine.devices.uart.out ≡ [] }
        requires sound { IsSound (stand I.feed self.old parts.old).feed }
        requires idle { self.old.machine.control.window ≡ Window.Idle false → idle ≡ true }
        ensures { Fills (stand I.feed self.old parts.old) (stand I.feed self.new parts.new)
            result }
    {
        let Received { items, trouble } = parts.receive(alloc, idle, &mut self.inputs);
        match self.take_in(alloc, items, parts) {
            Ok(()) => {}
            Err(broke) => return Err(broke),
        }
        match trouble {
            None => Ok(()),
            Some(Trouble::ConsoleRead) => {
                Err(Break::ConsoleRead.or_memory(self.stop(alloc, parts)))
            }
            Some(Trouble::NoMemory) => Err(Break::NoMemory),
        }
    }

    /// The events of a window's inputs, in order.
    fn take_in<S: Source, K: Sink, C: HostClock>(
        &mut self,
        alloc: Global,
        items: Vec<Item>,
        parts: &mut RecordParts<S, K, C>,
    ) -> Result<(), Break>
        requires works { self.old.log.failed ≡ false }
        requires open { takes_input self.old.machine.control ≡ true }
        requires silent { self.old.machine.devices.uart.out ≡ [] }
        requires inputs { All IsInput items.items }
        ensures goes { (troubled : Bool)
            → Goes (Left (map event_of_item items.items) troubled) (Left [] troubled)
            (stand I.feed self.old parts.old) (stand I.feed self.new parts.new) result }
        ensures some { OnErr result (items.items ≡ [] → ⊥) }
        ensures took { OnOk result (TookIn items.items (stand I.feed self.old parts.old)
            (stand I.feed self.new parts.new)) }
    {
        let mut waiting = items;
        waiting.reverse();
        while let Some(item) = waiting.pop() {
            match self.enter(alloc, event_of(item), parts) {
                Ok(()) => {}
                Err(broke) => return Err(broke),
            }
        }
        Ok(())
    }

    /// END 3 in an open window, and what has gathered of the log. Where the log's sink fails too,
    /// or memory is refused, a front of that is written.
    fn stop<S: Source, K: Sink, C: HostClock>(
        &mut self,
        alloc: Global,
        parts: &mut RecordParts<S, K, C>,
    ) -> Result<(), Break>
        requires works { self.old.log.failed ≡ false }
        requires open { takes_input self.old.machine.control ≡ true }
        requires silent { self.old.machine.devices.uart.out ≡ [] }
        ensures { (before : Remainder) → Stops Entire before (stand I.feed self.old parts.old)
            (stand I.feed self.new parts.new) result }
    {
        let stopped = Event::End { reason: 3, code: 0 };
        match self.enter(alloc, stopped, parts) {
            Ok(()) => self.finish(parts),
            Err(broke) => Err(broke),
        }
    }

    /// An END that is due: the console's bytes, and then its event. Where the console's sink fails,
    /// the log has no END.
    pub fn conclude<S: Source, K: Sink, C: HostClock>(
        &mut self,
        alloc: Global,
        reason: u8,
        code: u32,
        parts: &mut RecordParts<S, K, C>,
    ) -> Result<(), Break>
        requires due { due self.old.machine ≡ Due.End reason code }
        requires kind { IsDue self.old.machine.control false (Due.End reason code) }
        requires counts { Counts self.old.machine.control self.old.machine.devices.time }
        requires on { GoesOn (stand I.feed self.old parts.old) }
        ensures { Rounds (stand I.feed self.old parts.old) (stand I.feed self.new parts.new)
            result }
    {
        match self.write_out(alloc, parts) {
            Ok(()) => self.enter(alloc, Event::End { reason, code }, parts),
            Err(broke) => Err(broke.or_memory(self.finish(parts))),
        }
    }
}
