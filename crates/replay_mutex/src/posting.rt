//! The calls of the workers and readers.
ghost use Rattle.std.specs.Prelude.{◌≡◌, ◌≢◌, false, OnOk, IfOk, IfErr};
ghost use Rattle.plain_hub.specs.declared.entry.Call.TheVariants.{Claim, Post, End};
ghost use Rattle.plain_hub.specs.Hub.{has_end};
ghost use Rattle.plain_hub.specs.Items.{short};
ghost use Rattle.plain_hub.specs.Proper.{LiesIn, MayPost, Owes};
ghost use Rattle.replay_mutex.specs.Shown.{knows, IsPassOf, IsSame, own, Makes};
ghost use Rattle.replay_mutex.specs.Answers.{ClaimFails, PostFails};

use crate::lock::{answer, enter, take_out};
use crate::{ClaimError, Hub, Item, Job, Pass, PostError, Why};
use plain_hub::{ClaimRefusal, PostRefusal};
use std::sync::Wait;

impl Hub {
    /// Takes the first job that nobody has claimed. The pass then owes its Done.
    pub fn claim(&self, rt: &impl Wait, pass: &mut Pass) -> Result<Job, ClaimError>
        requires own { IsPassOf self.now pass.old }
        requires kind { (knows pass.old).number ≢ 0 }
        ensures same { IsSame pass.old pass.new }
        ensures ok { IfOk result (λ j. Makes (knows pass.old) (knows pass.new) (Claim j)) }
        ensures owes { IfOk result (λ j. Owes (knows pass.new).mine (knows pass.new).number j) }
        ensures lies { IfOk result (λ j. LiesIn (knows pass.new).base j) }
        ensures err { IfErr result (λ e. ClaimFails (knows pass.old) (knows pass.new) e) }
    {
        let top = &self.board.shared;
        let mut hub = take_out(rt, top, &mut pass.seat, pass.number);
        let _kept = hub.len();
        match hub.claim(pass.number) {
            Ok(job) => {
                enter(top, &mut pass.seat, hub);
                Ok(job)
            }
            Err(ClaimRefusal::Empty) => {
                let count = answer(top, &mut pass.seat, hub);
                Err(ClaimError::Empty(count))
            }
            Err(ClaimRefusal::Stopped) => {
                let count = answer(top, &mut pass.seat, hub);
                Err(ClaimError::Stopped(count))
            }
            Err(ClaimRefusal::NoMemory) => {
                answer(top, &mut pass.seat, hub);
                Err(ClaimError::NoMemory)
            }
        }
    }

    /// Posts an item. A Done answers a job that this pass has claimed, and is posted once.
    pub fn post(&self, rt: &impl Wait, pass: &mut Pass, item: Item) -> Result<(), PostError>
        requires own { IsPassOf self.now pass.old }
        requires kind { (knows pass.old).number ≢ 0 }
        requires may { MayPost (own (knows pass.old)) (knows pass.old).number item }
        ensures same { IsSame pass.old pass.new }
        ensures ok { OnOk result (Makes (knows pass.old) (knows pass.new) (Post (short item))) }
        ensures err { IfErr result (λ e. PostFails (knows pass.old) (knows pass.new) item e) }
    {
        let top = &self.board.shared;
        let mut hub = take_out(rt, top, &mut pass.seat, pass.number);
        let _kept = hub.len();
        match hub.post(pass.number, item) {
            Ok(()) => {
                enter(top, &mut pass.seat, hub);
                Ok(())
            }
            Err(PostRefusal::Stopped(item)) => {
                let count = answer(top, &mut pass.seat, hub);
                Err(PostError::Stopped(count, item))
            }
            Err(PostRefusal::NoMemory(item)) => {
                answer(top, &mut pass.seat, hub);
                Err(PostError::NoMemory(item))
            }
        }
    }

    /// The pass ends, once. Takes no memory.
    pub fn end(&self, rt: &impl Wait, pass: &mut Pass, why: Why)
        requires own { IsPassOf self.now pass.old }
        requires kind { (knows pass.old).number ≢ 0 }
        requires once { has_end (knows pass.old).number (knows pass.old).mine ≡ false }
        ensures same { IsSame pass.old pass.new }
        ensures made { Makes (knows pass.old) (knows pass.new) (End why) }
    {
        let top = &self.board.shared;
        let mut hub = take_out(rt, top, &mut pass.seat, pass.number);
        hub.end(pass.number, why);
        enter(top, &mut pass.seat, hub);
    }
}
