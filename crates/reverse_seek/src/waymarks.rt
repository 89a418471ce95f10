//! Marks on the one run of a log, from which the counts of the snapshots are soon reached again.

ghost use Rattle.std.specs.Prelude.{◌≡◌, ◌≤◌, length, [], OnOk};
ghost use Rattle.std.specs.List.{AllByRecursion};
ghost use Rattle.reverse_seek.specs.Mark.{Stands};
ghost use Rattle.reverse_seek.specs.Script.{first_place};
ghost use Rattle.reverse_seek.specs.Waymarks.{Passes};

use crate::mark::Mark;
use crate::script::{FIRST_PLACE, Script};
use crate::stride::stride_of;
use board::Machine;
use event_log::{Event, next_event};
use outside::NoMemory;
use std::alloc::Global;

/// How many waymarks are kept at most.
const MOST: usize = 32;

/// The last count that a log may have.
const LAST_COUNT: u64 = 1 << 40;

/// Below each multiple of the stride the first mark before an event within which the multiple may
/// lie.
///
/// The stride is that of a log which is accepted whole. Where a log is refused its own stride is
/// less, and more turns are made from each waymark.
#[derive(Drop)]
pub struct Waymarks {
    pub marks: Vec<Mark>,
    stride: u64,
    longest: u32,
    next: u64,
}

/// What the INSTRUCTIONs of a log say before any of them runs.
struct Told {
    turns: u64,
    longest: u32,
}

/// The turns of all INSTRUCTIONs of a log up to the first place where no event stands, and the most
/// turns of one of them. No turn is made.
fn sum_turns(alloc: Global, log: &[u8]) -> Told
    requires { first_place ≤ length log.now }
{
    let mut turns: u64 = 0;
    let mut longest: u32 = 0;
    let mut place = FIRST_PLACE;
    while let Ok((event, next)) = next_event(alloc, log, place) {
        if let Event::Instruction(more) = event {
            turns = turns.saturating_add(u64::from(more));
            longest = longest.max(more);
        }
        place = next;
    }
    Told { turns, longest }
}

impl Mark {
    /// Moves a mark on to this one, where this one lies ahead of it and not past the count.
    fn lead(&self, script: &Script, mark: &mut Mark, count: u64) -> Result<(), NoMemory>
        requires way { Stands script.now self.now }
        requires stands { Stands script.now mark.old }
        requires within { mark.old.machine.devices.time.count ≤ count }
        ensures stands { OnOk result (Stands script.now mark.new) }
        ensures within { OnOk result (mark.new.machine.devices.time.count ≤ count) }
    {
        let at = self.machine.count();
        if mark.machine.count() < at && at <= count {
            *mark = self.share()?;
        }
        Ok(())
    }
}

impl Waymarks {
    /// No marks yet, for the run of this log.
    pub fn of(alloc: Global, log: &[u8]) -> Waymarks
        requires { first_place ≤ length log.now }
        ensures { result.marks.items ≡ [] }
    {
        let Told { turns, longest } = sum_turns(alloc, log);
        let stride = stride_of(turns.min(LAST_COUNT));
        Waymarks {
            marks: Vec::new(alloc),
            stride,
            longest,
            next: stride,
        }
    }

    /// Comes by the event at a place, and keeps a mark before it where the next multiple may lie
    /// within it.
    pub fn pass(&mut self, machine: &Machine, place: usize) -> Result<(), NoMemory>
        ensures { OnOk result (Passes machine.now place self.old.marks.items self.new.marks.items) }
    {
        let reach = machine.count() + u64::from(self.longest);
        if reach < self.next || self.marks.len() >= MOST {
            return Ok(());
        }
        let machine = machine.share()?;
        self.marks.push(Mark {
            machine,
            place,
            done: 0,
        })?;
        self.next = self.next.saturating_add(self.stride);
        Ok(())
    }

    /// Moves a mark on to the last waymark up to a count, where one lies ahead of it.
    pub fn lead(&self, script: &Script, mark: &mut Mark, count: u64) -> Result<(), NoMemory>
        requires ways { AllByRecursion (Stands script.now) self.now.marks.items }
        requires stands { Stands script.now mark.old }
        requires within { mark.old.machine.devices.time.count ≤ count }
        ensures stands { OnOk result (Stands script.now mark.new) }
        ensures within { OnOk result (mark.new.machine.devices.time.count ≤ count) }
    {
        for way in self.marks.as_slice() {
            way.lead(script, mark, count)?;
        }
        Ok(())
    }
}
