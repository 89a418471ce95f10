//! The calls of the pass 0, the machine's.
ghost use Rattle.std.specs.Prelude.{◌≡◌, None, MatchBool, OnOk, OnErr, IfOk, IfErr};
ghost use Rattle.plain_hub.specs.declared.entry.Call.TheVariants.{Issue, Stop};
ghost use Rattle.plain_hub.specs.Hub.{job_of};
ghost use Rattle.plain_hub.specs.Proper.{LiesIn};
ghost use Rattle.replay_mutex.specs.Shown.{knows, IsPassOf, IsSame, issued_in, has_stop, Makes};
ghost use Rattle.replay_mutex.specs.Answers.{GivesAll, LooksAt, TakesDone, TakeFails, WasStopped};

use crate::lock::{answer, enter, give_up, take_out};
use crate::{Flushed, Hub, Item, Job, Pass, TakeError, Why};
use outside::NoMemory;
use plain_hub::TakeRefusal;
use std::sync::Wait;

/// What the hub had after the first `at` entries of its history: how many posted items waited, how
/// many passes had ended, and the first of them that ended by a fault or without memory.
#[derive(Debug, Drop)]
pub struct Look {
    pub waiting: u64,
    pub ended: u32,
    pub trouble: Option<(u32, Why)>,
    pub at: u64,
}

impl Hub {
    /// Adds a job, whose id is new.
    pub fn issue(&self, rt: &impl Wait, pass: &mut Pass, job: Job) -> Result<(), NoMemory>
        requires own { IsPassOf self.now pass.old }
        requires kind { (knows pass.old).number ≡ 0 }
        requires new { job_of job.id (issued_in (knows pass.old).mine) ≡ None }
        requires lies { LiesIn (knows pass.old).base job }
        ensures same { IsSame pass.old pass.new }
        ensures ok { OnOk result (Makes (knows pass.old) (knows pass.new) (Issue job)) }
        ensures err { OnErr result (knows pass.new ≡ knows pass.old) }
    {
        let top = &self.board.shared;
        let mut hub = take_out(rt, top, &mut pass.seat, pass.number);
        match hub.issue(job) {
            Ok(()) => {
                enter(top, &mut pass.seat, hub);
                Ok(())
            }
            Err(refused) => {
                give_up(top, &mut pass.seat, hub);
                Err(refused)
            }
        }
    }

    /// Takes all posted items in order.
    pub fn flush(&self, rt: &impl Wait, pass: &mut Pass) -> Result<Flushed, NoMemory>
        requires own { IsPassOf self.now pass.old }
        requires kind { (knows pass.old).number ≡ 0 }
        ensures same { IsSame pass.old pass.new }
        ensures ok { IfOk result (λ t. GivesAll (knows pass.old) (knows pass.new) t) }
        ensures err { OnErr result (knows pass.new ≡ knows pass.old) }
    {
        let top = &self.board.shared;
        let mut hub = take_out(rt, top, &mut pass.seat, pass.number);
        match hub.flush() {
            Ok(flushed) => {
                enter(top, &mut pass.seat, hub);
                Ok(flushed)
            }
            Err(refused) => {
                give_up(top, &mut pass.seat, hub);
                Err(refused)
            }
        }
    }

    /// Takes the Done of this id, if it was posted.
    pub fn take_done(&self, rt: &impl Wait, pass: &mut Pass, id: u64) -> Result<Item, TakeError>
        requires own { IsPassOf self.now pass.old }
        requires kind { (knows pass.old).number ≡ 0 }
        ensures same { IsSame pass.old pass.new }
        ensures ok { IfOk result (λ x. TakesDone (knows pass.old) (knows pass.new) id x) }
        ensures err { IfErr result (λ e. TakeFails (knows pass.old) (knows pass.new) id e) }
    {
        let top = &self.board.shared;
        let mut hub = take_out(rt, top, &mut pass.seat, pass.number);
        match hub.take_done(id) {
            Ok(item) => {
                enter(top, &mut pass.seat, hub);
                Ok(item)
            }
            Err(TakeRefusal::NotYet) => {
                let count = answer(top, &mut pass.seat, hub);
                Err(TakeError::NotYet(count))
            }
            Err(TakeRefusal::NoMemory) => {
                answer(top, &mut pass.seat, hub);
                Err(TakeError::NoMemory)
            }
        }
    }

    /// What waits, and who has ended. Takes no memory.
    pub fn look(&self, rt: &impl Wait, pass: &mut Pass) -> Look
        requires own { IsPassOf self.now pass.old }
        ensures same { IsSame pass.old pass.new }
        ensures at { LooksAt (knows pass.old) (knows pass.new) result }
    {
        let top = &self.board.shared;
        let hub = take_out(rt, top, &mut pass.seat, pass.number);
        let sight = hub.look();
        let at = answer(top, &mut pass.seat, hub);
        Look {
            waiting: sight.waiting,
            ended: sight.ended,
            trouble: sight.trouble,
            at,
        }
    }

    /// Stops the hub: from then on nothing is claimed or posted. A second stop leaves the history
    /// as it is. Takes no memory.
    pub fn stop(&self, rt: &impl Wait, pass: &mut Pass)
        requires own { IsPassOf self.now pass.old }
        requires kind { (knows pass.old).number ≡ 0 }
        ensures same { IsSame pass.old pass.new }
        ensures stopped { MatchBool (has_stop (knows pass.old).mine)
            (WasStopped (knows pass.old) (knows pass.new))
            (Makes (knows pass.old) (knows pass.new) Stop) }
    {
        let top = &self.board.shared;
        let mut hub = take_out(rt, top, &mut pass.seat, pass.number);
        if hub.is_stopped() {
            answer(top, &mut pass.seat, hub);
            return;
        }
        hub.stop();
        enter(top, &mut pass.seat, hub);
    }
}
