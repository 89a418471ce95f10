//! The walk over a recorded run.

ghost use Rattle.std.specs.Prelude.{◌≡◌, ◌≤◌, ◌+◌, ◌-◌, ◌*◌, ◌/◌, ◌%◌, length, OnOk, OnErr, IfOk};
ghost use Rattle.elf_load.specs.Load.{LiesInRam};
ghost use Rattle.event_log.specs.HeaderFormat.{IsHeader};
ghost use Rattle.board.specs.Reset.{start_of};
ghost use Rattle.board.specs.Runs.{state_at};
ghost use Rattle.reverse_seek.specs.Script.{first_place, Reads};
ghost use Rattle.reverse_seek.specs.Stride.{stride_of as stride_to, kept_of, IsLeastStride};

use crate::mark::Mark;
use crate::script::Script;
use crate::snapshots::Snapshots;
use crate::stride::stride_of;
use crate::waymarks::Waymarks;
use board::{Config, Machine, Steps};
use elf_load::Loaded;
use event_log::Header;
use log_order::Refusal;
use outside::NoMemory;
use std::alloc::Global;
use std::marker::Model;
use std::sync::ledger::Ledger;

/// The accepted part of a log, its snapshots, and a machine at a count of turns.
///
/// The machine is in the state from which the next turn starts, after all events before that turn.
/// A move works on a shared copy, so that want of memory leaves the count and the machine as they
/// were.
#[derive(Drop)]
pub struct Walk {
    script: Script,
    kept: Snapshots,
    mark: Mark,
}

impl Model for Walk {
    ghost use Rattle.std.specs.Prelude.{◌≤◌};
    ghost use Rattle.reverse_seek.specs.Walk.{Walk as Shown};
    ghost use Rattle.reverse_seek.specs.Mark.{StandsAt};
    ghost use Rattle.reverse_seek.specs.Snapshots.{Keeps};

    ghost Value = { Shown };

    ghost view = { λ t. record { script = t.script; at = t.mark.machine.devices.time.count } };

    ghost invariant = { λ t. StandsAt t.script t.mark.machine.devices.time.count t.mark
        × Keeps t.script t.kept.counts.items t.kept.keys.items t.kept.marks
        × (t.mark.machine.devices.time.count ≤ t.script.last) };
}

impl Walk {
    /// The walk over the accepted part of a log, whose header was read, at count 0; and why no more of
    /// the log is accepted, None exactly where it is accepted whole.
    pub fn open<L: Ledger>(
        alloc: Global,
        header: &Header,
        log: Vec<u8>,
        firmware: &Loaded,
        steps: &mut Steps<L>,
    ) -> Result<(Walk, Option<Refusal>), NoMemory>
        requires header { IsHeader header.now }
        requires firmware { LiesInRam header.now.ram_mib firmware.now }
        requires log { first_place ≤ length log.items }
        ensures script { IfOk result (λ opened.
            Reads (start_of header.now firmware.now) log.items opened.0.script opened.1) }
        ensures start { IfOk result (λ opened. opened.0.at ≡ 0) }
    {
        let machine = Machine::reset(alloc, &Config::of(header), firmware)?;
        let mut ways = Waymarks::of(alloc, log.as_slice());
        let (script, refusal) = Script::read(alloc, machine, log, &mut ways, steps)?;
        let kept = Snapshots::of(alloc, &script, script.start()?, &ways, steps)?;
        let mark = kept.number(&script, 0).share()?;
        Ok((Walk { script, kept, mark }, refusal))
    }

    /// The count of turns at which it stands.
    pub fn at(&self) -> u64
        ensures at { result ≡ self.now.at }
        ensures within { result ≤ self.now.script.last }
    {
        self.mark.machine.count()
    }

    /// The last count, which is that of the whole accepted part.
    pub fn last(&self) -> u64
        ensures { result ≡ self.now.script.last }
    {
        self.script.last()
    }

    /// The counts of which a snapshot is kept, rising.
    pub fn kept(&self) -> &[u64]
        ensures { result.now ≡ kept_of self.now.script.last }
    {
        self.kept.counts.as_slice()
    }

    /// The distance between kept counts.
    pub fn stride(&self) -> u64
        ensures stride { result ≡ stride_to self.now.script.last }
        ensures least { IsLeastStride self.now.script.last result }
    {
        stride_of(self.script.last())
    }

    /// The machine, in the state at the count at which it stands.
    pub fn machine(&self) -> &Machine
        ensures { result.now
            ≡ state_at self.now.script.start self.now.script.events self.now.at }
    {
        &self.mark.machine
    }

    /// The snapshot of that number, in the state at its count.
    pub fn snapshot(&self, number: usize) -> &Machine
        requires { number ≤ self.now.script.last / stride_to self.now.script.last }
        ensures { result.now ≡ state_at self.now.script.start self.now.script.events
            (number * stride_to self.now.script.last) }
    {
        &self.kept.number(&self.script, number).machine
    }

    /// Goes to a count from the snapshot at or below it.
    pub fn go_to<L: Ledger>(
        &mut self,
        alloc: Global,
        n: u64,
        steps: &mut Steps<L>,
    ) -> Result<(), NoMemory>
        requires { n ≤ self.old.script.last }
        ensures ok { OnOk result (self.new ≡ record self.old { at = n }) }
        ensures err { OnErr result (self.new ≡ self.old) }
        ensures turns { steps.new ≤ steps.old + n % stride_to self.old.script.last }
    {
        let stride = stride_of(self.script.last());
        let kept = self.kept.number(&self.script, (n / stride) as usize);
        let mut mark = kept.share()?;
        mark.go_on(alloc, &self.script, n, steps)?;
        self.mark = mark;
        Ok(())
    }

    /// Goes to the next count from where it stands.
    pub fn go_on_one<L: Ledger>(
        &mut self,
        alloc: Global,
        n: u64,
        steps: &mut Steps<L>,
    ) -> Result<(), NoMemory>
        requires next { n ≡ self.old.at + 1 }
        requires within { n ≤ self.old.script.last }
        ensures ok { OnOk result (self.new ≡ record self.old { at = n }) }
        ensures err { OnErr result (self.new ≡ self.old) }
        ensures turns { steps.new ≤ steps.old + 1 }
    {
        let mut mark = self.mark.share()?;
        mark.go_on(alloc, &self.script, n, steps)?;
        self.mark = mark;
        Ok(())
    }
}
