//! The snapshots of a script, at all multiples of its stride.

ghost use Rattle.std.specs.Prelude.{◌≡◌, ◌≤◌, ◌*◌, ◌/◌, IfOk, OnOk};
ghost use Rattle.std.specs.List.{AllByRecursion};
ghost use Rattle.reverse_seek.specs.Mark.{Stands, StandsAt};
ghost use Rattle.reverse_seek.specs.Stride.{stride_of as stride_to};
ghost use Rattle.reverse_seek.specs.Snapshots.{Keeps, Adds};

use crate::mark::Mark;
use crate::script::Script;
use crate::stride::stride_of;
use crate::waymarks::Waymarks;
use board::Steps;
use outside::NoMemory;
use slab::Slab;
use std::alloc::{AllocError, Global};
use std::sync::ledger::Ledger;

/// The kept counts, rising, the key of each one's snapshot, and the snapshots under their keys. What
/// a snapshot shares with its neighbours is in memory once.
#[derive(Drop)]
pub struct Snapshots {
    pub counts: Vec<u64>,
    pub keys: Vec<usize>,
    pub marks: Slab<Mark>,
}

impl Snapshots {
    /// Snapshots at all multiples of the stride up to the last count, on the way from the start to
    /// the last of them, over the waymarks.
    pub fn of<L: Ledger>(
        alloc: Global,
        script: &Script,
        start: Mark,
        ways: &Waymarks,
        steps: &mut Steps<L>,
    ) -> Result<Snapshots, NoMemory>
        requires stands { Stands script.now start }
        requires start { start.machine.devices.time.count ≡ 0 }
        requires ways { AllByRecursion (Stands script.now) ways.now.marks.items }
        ensures { IfOk result (λ kept.
            Keeps script.now kept.counts.items kept.keys.items kept.marks) }
    {
        let stride = stride_of(script.last());
        let total = script.last() / stride + 1;
        let mut mark = start;
        let mut kept = Snapshots {
            counts: Vec::new(alloc),
            keys: Vec::new(alloc),
            marks: Slab::new(alloc),
        };
        let mut number = 0;
        while number < total {
            ways.lead(script, &mut mark, number * stride)?;
            kept.go_and_keep(alloc, script, &mut mark, number, stride, steps)?;
            number += 1;
        }
        Ok(kept)
    }

    /// Goes on to that multiple of the stride, and keeps a snapshot there.
    fn go_and_keep<L: Ledger>(
        &mut self,
        alloc: Global,
        script: &Script,
        mark: &mut Mark,
        number: u64,
        stride: u64,
        steps: &mut Steps<L>,
    ) -> Result<(), NoMemory>
        requires stands { Stands script.now mark.old }
        requires within { mark.old.machine.devices.time.count ≤ number * stride }
        requires reach { number * stride ≤ script.now.last }
        ensures mark { OnOk result (StandsAt script.now (number * stride) mark.new) }
        ensures kept { OnOk result (Adds (number * stride) mark.new self.old self.new) }
    {
        let _last = script.last();
        let count = number * stride;
        mark.go_on(alloc, script, count, steps)?;
        self.keep(count, mark.share()?)
    }

    /// Keeps a snapshot.
    fn keep(&mut self, count: u64, mark: Mark) -> Result<(), NoMemory>
        ensures { OnOk result (Adds count mark self.old self.new) }
    {
        let Ok(key) = self.marks.insert(mark) else {
            return Err(AllocError);
        };
        self.counts.push(count)?;
        self.keys.push(key)?;
        Ok(())
    }

    /// The snapshot of that number.
    pub fn number(&self, script: &Script, number: usize) -> &Mark
        requires keeps { Keeps script.now self.now.counts.items self.now.keys.items self.now.marks }
        requires within { number ≤ script.now.last / stride_to script.now.last }
        ensures { StandsAt script.now (number * stride_to script.now.last) result.now }
    {
        match self.marks.get(self.keys[number]) {
            Some(mark) => mark,
            None => unreachable!(),
        }
    }
}
