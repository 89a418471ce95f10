//! A recorded run in which one goes back and forth.

ghost use Rattle.std.specs.Prelude.{◌≡◌, ◌≤◌, ◌+◌, ◌-◌, ◌*◌, ◌/◌, length, IfOk, IfErr};
ghost use Rattle.elf_load.specs.Load.{LiesInRam};
ghost use Rattle.event_log.specs.HeaderFormat.{IsHeader};
ghost use Rattle.board.specs.Reset.{start_of};
ghost use Rattle.reverse_seek.specs.Backing.{backing, GivesBack};
ghost use Rattle.reverse_seek.specs.Script.{first_place, Reads};
ghost use Rattle.reverse_seek.specs.Stride.{stride_of as stride_to, kept_of, IsLeastStride};
ghost use Rattle.reverse_seek.specs.Timeline.{shows, break_below, break_above};
ghost use Rattle.reverse_seek.specs.Timeline.{Seeks, GoesBack, GoesOn, turns_to};

use crate::breaks::{break_above, break_below};
use crate::error::{OpenTrouble, SeekError};
use crate::walk::Walk;
use board::{Machine, Steps};
use elf_load::Loaded;
use event_log::Header;
use log_order::Refusal;
use outside::Image;
use std::alloc::Global;
use std::marker::Model;
use std::sync::ledger::Ledger;

/// A recorded run, the count of turns at which one stands in it, and the disk's image.
///
/// Its machine is in the state from which the next turn starts, after all events before that turn.
/// After any error the count, the machine and the image's bytes are as they were.
#[derive(Drop)]
pub struct Timeline<I: Image> {
    walk: Walk,
    image: I,
}

impl<I: Image> Model for Timeline<I> {
    ghost use Rattle.reverse_seek.specs.Backing.{backing};
    ghost use Rattle.reverse_seek.specs.Timeline.{Timeline as Shown};

    ghost Value = { Shown };

    ghost view = { λ t. record {
      script = t.walk.script;
      at = t.walk.at;
      image = backing (I.content t.image) (I.size t.image) (I.faults t.image);
    } };
}

impl<I: Image> Timeline<I> {
    /// The timeline of the accepted part of a log, whose header was read, at count 0; and why no
    /// more of the log is accepted, None exactly where it is accepted whole. The image has as many
    /// bytes as the header's disk.
    pub fn open<L: Ledger>(
        alloc: Global,
        header: &Header,
        log: Vec<u8>,
        firmware: &Loaded,
        image: I,
        steps: &mut Steps<L>,
    ) -> Result<(Timeline<I>, Option<Refusal>), OpenTrouble<I>>
        requires header { IsHeader header.now }
        requires firmware { LiesInRam header.now.ram_mib firmware.now }
        requires log { first_place ≤ length log.items }
        requires disk { I.size image ≡ header.now.disk_len }
        ensures script { IfOk result (λ opened.
            Reads (start_of header.now firmware.now) log.items opened.0.script opened.1) }
        ensures start { IfOk result (λ opened. opened.0.at ≡ 0) }
        ensures image { IfOk result (λ opened. opened.0.image
            ≡ backing (I.content image) (I.size image) (I.faults image)) }
        ensures trouble { IfErr result
            (GivesBack (λ i. backing (I.content i) (I.size i) (I.faults i))
            (backing (I.content image) (I.size image) (I.faults image))) }
    {
        match Walk::open(alloc, header, log, firmware, steps) {
            Ok((walk, refusal)) => Ok((Timeline { walk, image }, refusal)),
            Err(_) => Err(OpenTrouble::NoMemory(image)),
        }
    }

    /// The image, as the timeline has it.
    pub fn finish(self) -> I
        ensures { backing (I.content result) (I.size result) (I.faults result) ≡ self.image }
    {
        let Timeline { image, .. } = self;
        image
    }

    /// The count of turns at which it stands.
    pub fn at(&self) -> u64
        ensures at { result ≡ self.now.at }
        ensures within { result ≤ self.now.script.last }
    {
        self.walk.at()
    }

    /// The last count, which is that of the whole accepted part.
    pub fn last(&self) -> u64
        ensures { result ≡ self.now.script.last }
    {
        self.walk.last()
    }

    /// The counts of which a snapshot is kept, rising.
    pub fn kept(&self) -> &[u64]
        ensures { result.now ≡ kept_of self.now.script.last }
    {
        self.walk.kept()
    }

    /// The distance between kept counts.
    pub fn stride(&self) -> u64
        ensures stride { result ≡ stride_to self.now.script.last }
        ensures least { IsLeastStride self.now.script.last result }
    {
        self.walk.stride()
    }

    /// The machine, in the state at the count at which it stands.
    pub fn machine(&self) -> &Machine
        ensures { result.now ≡ shows self.now self.now.at }
    {
        self.walk.machine()
    }

    /// The snapshot of that number, in the state at its count.
    pub fn snapshot(&self, number: usize) -> &Machine
        requires { number ≤ self.now.script.last / stride_to self.now.script.last }
        ensures { result.now ≡ shows self.now (number * stride_to self.now.script.last) }
    {
        self.walk.snapshot(number)
    }

    /// Goes to a count, as a debugger's `replay_seek` does.
    pub fn seek<L: Ledger>(
        &mut self,
        alloc: Global,
        n: u64,
        steps: &mut Steps<L>,
    ) -> Result<(), SeekError>
        ensures place { Seeks n self.old result self.new }
        ensures turns { steps.new ≤ steps.old + turns_to n self.old }
    {
        let last = self.last();
        if n > last {
            return Err(SeekError::PastEnd { asked: n, last });
        }
        Ok(self.walk.go_to(alloc, n, steps)?)
    }

    /// Goes one turn back, as reverse-step does.
    pub fn step_back<L: Ledger>(
        &mut self,
        alloc: Global,
        steps: &mut Steps<L>,
    ) -> Result<(), SeekError>
        ensures place { GoesBack (self.old.at - 1) self.old result self.new }
        ensures turns { steps.new ≤ steps.old + turns_to (self.old.at - 1) self.old }
    {
        let at = self.at();
        if at == 0 {
            return Err(SeekError::AtStart);
        }
        Ok(self.walk.go_to(alloc, at - 1, steps)?)
    }

    /// Goes one turn on, in one turn.
    pub fn step_on<L: Ledger>(
        &mut self,
        alloc: Global,
        steps: &mut Steps<L>,
    ) -> Result<(), SeekError>
        ensures place { GoesOn (self.old.at + 1) self.old result self.new }
        ensures turns { steps.new ≤ steps.old + 1 }
    {
        let at = self.at();
        if at == self.last() {
            return Err(SeekError::AtEnd);
        }
        Ok(self.walk.go_on_one(alloc, at + 1, steps)?)
    }

    /// Goes back to the greatest break below the count, else to 0, as reverse-continue does.
    pub fn run_back<L: Ledger>(
        &mut self,
        alloc: Global,
        breaks: &[u64],
        steps: &mut Steps<L>,
    ) -> Result<(), SeekError>
        ensures place { GoesBack (break_below self.old.at breaks.now) self.old result self.new }
        ensures turns { steps.new
            ≤ steps.old + turns_to (break_below self.old.at breaks.now) self.old }
    {
        let at = self.at();
        if at == 0 {
            return Err(SeekError::AtStart);
        }
        Ok(self.walk.go_to(alloc, break_below(at, breaks), steps)?)
    }

    /// Goes on to the least break above the count, else to the last count, as continue does.
    pub fn run_on<L: Ledger>(
        &mut self,
        alloc: Global,
        breaks: &[u64],
        steps: &mut Steps<L>,
    ) -> Result<(), SeekError>
        ensures place { GoesOn (break_above self.old.at self.old.script.last breaks.now)
            self.old result self.new }
        ensures turns { steps.new
            ≤ steps.old + turns_to (break_above self.old.at self.old.script.last breaks.now)
            self.old }
    {
        let at = self.at();
        let last = self.last();
        if at == last {
            return Err(SeekError::AtEnd);
        }
        Ok(
            self.walk
                .go_to(alloc, break_above(at, last, breaks), steps)?,
        )
    }
}
