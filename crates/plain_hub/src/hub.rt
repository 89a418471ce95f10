//! The plain hub, with its history.
ghost use Rattle.std.specs.Prelude.{◌≡◌, ◌≢◌, ◌<◌, Bool, All, position, [], ◌∷◌, ◌++◌, length, false, None, vec_len, if◌then◌else◌, OnOk, OnErr, IfOk, IfErr};
ghost use Rattle.plain_hub.specs.Hub.{state_of, Legal, job_of, has_end};
ghost use Rattle.plain_hub.specs.Items.{short, is_done};
ghost use Rattle.plain_hub.specs.Past.{Past, fresh, and_then};
ghost use Rattle.plain_hub.specs.Proper.{LiesIn, Proper, MayPost, Promised};
ghost use Rattle.plain_hub.specs.Replies.{ClaimRefuses, PostRefuses, TakeRefuses, Gives, Sees};
ghost use Rattle.plain_hub.specs.declared.item.Short.TheVariants.{Done};
ghost use Rattle.plain_hub.specs.declared.entry.Call.TheVariants.{Issue, Claim, Post, Flush, TakeDone, End, Stop};

use crate::trouble::first_trouble;
use crate::{
    Call, ClaimRefusal, Entry, Flushed, Item, Job, Mark, PostRefusal, Sight, TakeRefusal, Why,
};
use outside::NoMemory;
use std::alloc::Global;
use std::collections::VecDeque;
use std::marker::Model;
use std::mem::replace;

// Room for one entry, a stop, and the ends of 17 passes.
const ROOM: usize = 19;

/// The jobs that nobody claimed, the posted items, the ends and the history. Contracts see its
/// base and its history. The history is legal, and each call met its condition.
#[derive(Drop)]
pub struct PlainHub {
    base: Mark,
    jobs: VecDeque<Job>,
    items: Vec<Item>,
    ended: u32,
    trouble: Option<(u32, Why)>,
    stopped: bool,
    history: Vec<Entry>,
    alloc: Global,
}

impl Model for PlainHub {
    ghost use Rattle.plain_hub.specs.Past.{Past};
    ghost use Rattle.plain_hub.specs.Kept.{Kept};

    ghost Value = { Past };

    ghost view = { λ h. record { base = h.base; entries = h.history.items } };

    ghost invariant = { Kept };
}

impl PlainHub {
    /// A hub without jobs and items. It has room for every `end` and for `stop`.
    pub fn new(alloc: Global, base: Mark) -> Result<PlainHub, NoMemory>
        ensures { IfOk result (λ h. h ≡ fresh base) }
    {
        let history = Vec::with_capacity(alloc, ROOM)?;
        Ok(PlainHub {
            base,
            jobs: VecDeque::new(alloc),
            items: Vec::new(alloc),
            ended: 0,
            trouble: None,
            stopped: false,
            history,
            alloc,
        })
    }

    /// How long the history is. It tells as well what the hub keeps.
    pub fn len(&self) -> usize
        ensures value { result ≡ length self.now.entries }
        ensures legal { Legal self.now.entries }
        ensures proper { Proper self.now.base self.now.entries }
    {
        self.history.len()
    }

    /// The history. Takes no memory.
    pub fn into_entries(self) -> Vec<Entry>
        ensures { result.items ≡ self.entries }
    {
        let PlainHub {
            base: _,
            jobs: _,
            items: _,
            ended: _,
            trouble: _,
            stopped: _,
            history,
            alloc: _,
        } = self;
        history
    }

    /// Adds a job, whose id is new.
    pub fn issue(&mut self, job: Job) -> Result<(), NoMemory>
        requires new { job_of job.id (state_of self.old.entries).issued ≡ None }
        requires lies { LiesIn self.old.base job }
        ensures ok { OnOk result (self.new ≡ and_then self.old 0 (Issue job)) }
        ensures err { OnErr result (self.new ≡ self.old) }
    {
        self.history.reserve(ROOM)?;
        self.jobs.reserve(1)?;
        self.jobs.push_back_reserved(job);
        self.history.push_reserved(Entry {
            pass: 0,
            call: Call::Issue(job),
        });
        Ok(())
    }

    /// Takes the first job.
    pub fn claim(&mut self, pass: u32) -> Result<Job, ClaimRefusal>
        requires { pass ≢ 0 }
        ensures ok { IfOk result (λ j. self.new ≡ and_then self.old pass (Claim j)) }
        ensures lies { IfOk result (λ j. LiesIn self.old.base j) }
        ensures err { OnErr result (self.new ≡ self.old) }
        ensures why { IfErr result (λ e. ClaimRefuses (state_of self.old.entries) e) }
    {
        if self.stopped {
            return Err(ClaimRefusal::Stopped);
        }
        if self.jobs.is_empty() {
            return Err(ClaimRefusal::Empty);
        }
        if self.history.reserve(ROOM).is_err() {
            return Err(ClaimRefusal::NoMemory);
        }
        let Some(job) = self.jobs.pop_front() else {
            unreachable!()
        };
        self.history.push_reserved(Entry {
            pass,
            call: Call::Claim(job),
        });
        Ok(job)
    }

    /// Adds an item behind the others.
    pub fn post(&mut self, pass: u32, item: Item) -> Result<(), PostRefusal>
        requires kind { pass ≢ 0 }
        requires may { MayPost self.old pass item }
        ensures ok { OnOk result (self.new ≡ and_then self.old pass (Post (short item))) }
        ensures err { OnErr result (self.new ≡ self.old) }
        ensures why { IfErr result (λ e. PostRefuses (state_of self.old.entries) item e) }
    {
        if self.stopped {
            return Err(PostRefusal::Stopped(item));
        }
        let Ok(kept) = item.shorten(self.alloc) else {
            return Err(PostRefusal::NoMemory(item));
        };
        if self.history.reserve(ROOM).is_err() || self.items.reserve(1).is_err() {
            return Err(PostRefusal::NoMemory(item));
        }
        self.items.push_reserved(item);
        self.history.push_reserved(Entry {
            pass,
            call: Call::Post(kept),
        });
        Ok(())
    }

    /// Takes all items in order.
    pub fn flush(&mut self) -> Result<Flushed, NoMemory>
        ensures ok { IfOk result
            (λ t. self.new ≡ and_then self.old 0 (Flush (vec_len t.items))) }
        ensures gives { IfOk result (λ t. Gives (state_of self.old.entries) t) }
        ensures promised { IfOk result
            (λ t. All (Promised self.new.base self.new.entries) t.items.items) }
        ensures err { OnErr result (self.new ≡ self.old) }
    {
        self.history.reserve(ROOM)?;
        let items = replace(&mut self.items, Vec::new(self.alloc));
        self.history.push_reserved(Entry {
            pass: 0,
            call: Call::Flush(items.len() as u64),
        });
        Ok(Flushed {
            items,
            ended: self.ended,
            trouble: self.trouble,
        })
    }

    /// Takes the Done of this id.
    pub fn take_done(&mut self, id: u64) -> Result<Item, TakeRefusal>
        ensures ok { IfOk result (λ x. (ok : Bool)
            × (short x ≡ Done id ok) × (self.new ≡ and_then self.old 0 (TakeDone id ok))) }
        ensures promised { IfOk result (Promised self.new.base self.new.entries) }
        ensures err { OnErr result (self.new ≡ self.old) }
        ensures why { IfErr result (λ e. TakeRefuses (state_of self.old.entries) id e) }
    {
        let Some(at) = place_of(self.items.as_slice(), id) else {
            return Err(TakeRefusal::NotYet);
        };
        if self.history.reserve(ROOM).is_err() {
            return Err(TakeRefusal::NoMemory);
        }
        let item = self.items.remove(at);
        let ok = item.has_bytes();
        self.history.push_reserved(Entry {
            pass: 0,
            call: Call::TakeDone { id, ok },
        });
        Ok(item)
    }

    /// What waits, and who has ended. Takes no memory.
    pub fn look(&self) -> Sight
        ensures { Sees (state_of self.now.entries) result }
    {
        Sight {
            waiting: self.items.len() as u64,
            ended: self.ended,
            trouble: self.trouble,
        }
    }

    /// Whether the hub is stopped. Takes no memory.
    pub fn is_stopped(&self) -> bool
        ensures { result ≡ (state_of self.now.entries).stopped }
    {
        self.stopped
    }

    /// The pass has ended. Takes no memory.
    pub fn end(&mut self, pass: u32, why: Why)
        requires kind { (pass ≢ 0) × (pass < 17) }
        requires once { has_end pass self.old.entries ≡ false }
        ensures { self.new ≡ and_then self.old pass (End why) }
    {
        self.ended += 1;
        self.trouble = first_trouble(self.trouble, pass, why);
        self.history.push_reserved(Entry {
            pass,
            call: Call::End(why),
        });
    }

    /// Stops the hub. A second stop changes nothing. Takes no memory.
    pub fn stop(&mut self)
        ensures { self.new ≡
            (if (state_of self.old.entries).stopped then self.old else and_then self.old 0 Stop) }
    {
        if !self.stopped {
            self.stopped = true;
            self.history.push_reserved(Entry {
                pass: 0,
                call: Call::Stop,
            });
        }
    }
}

fn place_of(items: &[Item], id: u64) -> Option<usize>
    ensures { result ≡ position (λ x. is_done id x) items.now }
{
    items.iter().position(|item| item.is_done(id))
}
