//! A recording from its start to its end.

ghost use Rattle.std.specs.Prelude.{◌≡◌, None, [], false};
ghost use Rattle.elf_load.specs.Load.{LiesInRam};
ghost use Rattle.event_log.specs.HeaderFormat.{IsHeader, header_text};
ghost use Rattle.event_log.specs.Writing.{none_written};
ghost use Rattle.io_workers.specs.Intake.{none_given};
ghost use Rattle.board.specs.Reset.{start_of};
ghost use Rattle.board.specs.declared.control.Window.TheVariants as Window;
ghost use Rattle.rr_engine.specs.Stand.{stand};
ghost use Rattle.rr_engine.specs.Outputs.{Sent, sent_of};
ghost use Rattle.rr_engine.specs.Runs.{Records, run_end_of};

use crate::ends::{Break, RunEnd};
use crate::inputs::Inputs;
use crate::parts::RecordParts;
use crate::recorder::Recorder;
use board::{Config, Ending, Machine, Steps};
use elf_load::Loaded;
use event_log::{Header, StreamError, WriteBehind};
use io_workers::Pieces;
use outside::{HostClock, Sink, Source};
use std::alloc::Global;
use std::sync::ledger::Ledger;

/// Records the run of a firmware, whose log begins with the header.
///
/// The header is one write. What is recorded goes out whenever 65,536 bytes have gathered, and at
/// the end. The console's bytes are written at each checkpoint and before an END of the machine's
/// own. At each checkpoint the console's input is then read once, as long as its end wasn't met.
/// The first device that fails ends the recording: where it is the console at a checkpoint, by
/// END 3, which the log then has, unless its sink fails too. Where memory is refused for that END,
/// the answer is want of memory.
pub fn record_one<S: Source, K: Sink, C: HostClock, L: Ledger>(
    alloc: Global,
    header: &Header,
    firmware: &Loaded,
    parts: &mut RecordParts<S, K, C>,
    steps: &mut Steps<L>,
) -> RunEnd
    requires header { IsHeader header.now }
    requires firmware { LiesInRam header.now.ram_mib firmware.now }
    ensures { Records (start_of header.now firmware.now) (header_text header.now)
        parts.old parts.new result }
{
    let Ok(machine) = Machine::reset(alloc, &Config::of(header), firmware) else {
        return RunEnd::NoMemory;
    };
    let Ok(log) = WriteBehind::new(alloc) else {
        return RunEnd::NoMemory;
    };
    let mut recorder = Recorder {
        machine,
        log,
        inputs: Pieces::new(),
    };
    run_end(recorder.record(alloc, header, parts, steps))
}

/// How a recording ended, whether by an END or broken off.
fn run_end(recorded: Result<Ending, Break>) -> RunEnd
    ensures { result ≡ run_end_of recorded }
{
    match recorded {
        Ok(ending) => RunEnd::End {
            reason: ending.reason,
            code: ending.code,
        },
        Err(broke) => broke.end(),
    }
}

impl Recorder<Pieces> {
    /// The header, what is due until the run has ended, and the rest of the log.
    fn record<S: Source, K: Sink, C: HostClock, L: Ledger>(
        &mut self,
        alloc: Global,
        header: &Header,
        parts: &mut RecordParts<S, K, C>,
        steps: &mut Steps<L>,
    ) -> Result<Ending, Break>
        requires header { IsHeader header.now }
        requires log { self.old.log ≡ none_written }
        requires unread { self.old.inputs ≡ none_given }
        requires going { self.old.machine.control.ended ≡ None }
        requires shut { self.old.machine.control.window ≡ Window.Shut }
        ensures { Records self.old.machine (header_text header.now) parts.old parts.new
            (run_end_of result) }
    {
        match self.begin(alloc, header, parts) {
            Ok(()) => {}
            Err(broke) => return Err(broke),
        }
        match self.run(alloc, parts, steps) {
            Ok(()) => {}
            Err(broke) => return Err(broke),
        }
        match self.finish(parts) {
            Ok(()) => {}
            Err(broke) => return Err(broke),
        }
        match self.machine.ended() {
            Some(ending) => Ok(ending),
            None => unreachable!(),
        }
    }
}

impl<I: Inputs> Recorder<I> {
    /// The log gets the header.
    fn begin<S: Source, K: Sink, C: HostClock>(
        &mut self,
        alloc: Global,
        header: &Header,
        parts: &mut RecordParts<S, K, C>,
    ) -> Result<(), Break>
        requires header { IsHeader header.now }
        requires log { self.old.log ≡ none_written }
        ensures sent { Sent (stand I.feed self.old parts.old)
            (stand I.feed self.new parts.new) (header_text header.now) result }
        ensures held { self.new.log.held ≡ [] }
    {
        sent(self.log.header(alloc, header, &mut parts.log))
    }

    /// What is held of the log is written.
    pub fn finish<S: Source, K: Sink, C: HostClock>(
        &mut self,
        parts: &mut RecordParts<S, K, C>,
    ) -> Result<(), Break>
        requires { self.old.log.failed ≡ false }
        ensures { Sent (stand I.feed self.old parts.old)
            (stand I.feed self.new parts.new) self.old.log.held result }
    {
        sent(self.log.finish(&mut parts.log))
    }
}

/// What a write to the log came to.
fn sent(written: Result<(), StreamError>) -> Result<(), Break>
    ensures { result ≡ sent_of written }
{
    match written {
        Ok(()) => Ok(()),
        Err(StreamError::NoMemory) => Err(Break::NoMemory),
        Err(_) => Err(Break::LogWrite),
    }
}
