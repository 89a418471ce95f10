//! What a writer of a log holds behind its events.

ghost use Rattle.std.specs.Prelude.{◌≡◌, ◌++◌, ◌≤◌, length, [], false, true, IfOk, IfErr, OnOk, OnErr};
ghost use Rattle.event_log.specs.declared.stream_error.StreamError.TheVariants.{Failed};
ghost use Rattle.outside.specs.Told.{Takes, TakesFront};
ghost use Rattle.outside.specs.Causes.{Rose};
ghost use Rattle.event_log.specs.HeaderFormat.{header_text, IsHeader};
ghost use Rattle.event_log.specs.Spelling.{text, IsEvent};
ghost use Rattle.event_log.specs.Writing.{writing, none_written, sent, kept, Sends};

use crate::event::Event;
use crate::header::{Header, header_bytes};
use crate::held::{Held, MOST};
use crate::stream_error::StreamError;
use crate::writing::text_of;
use outside::{Careful, NoMemory, Sink};
use std::alloc::Global;
use std::marker::Model;

/// Writes a log to a sink that each call is handed, and holds what wasn't sent yet. A `LogWriter`
/// is this with its sink; take it alone where the sink stays with its owner.
#[derive(Drop)]
pub struct WriteBehind {
    held: Held,
    failed: bool,
}

// Clauses see what is held.
impl Model for WriteBehind {
    ghost use Rattle.event_log.specs.Writing.{Unsent};

    ghost Value = { Unsent };

    ghost view = { λ w. record { held = w.held; failed = w.failed } };
}

impl WriteBehind {
    /// For a sink at the log's beginning.
    pub fn new(alloc: Global) -> Result<WriteBehind, NoMemory>
        ensures { IfOk result (λ w. w ≡ none_written) }
    {
        let held = Held::new(alloc)?;
        Ok(WriteBehind {
            held,
            failed: false,
        })
    }

    /// Sends the header at once. It comes before all events.
    pub fn header<S: Sink>(
        &mut self,
        alloc: Global,
        header: &Header,
        sink: &mut Careful<S>,
    ) -> Result<(), StreamError>
        requires range { IsHeader header.now }
        requires first { self.old.held ≡ [] }
        ensures bytes { Sends (writing (S.taken sink.old) (S.faults sink.old) self.old)
            (writing (S.taken sink.new) (S.faults sink.new) self.new)
            (header_text header.now) [] result }
        ensures held { self.new.held ≡ self.old.held }
        ensures role { S.role sink.new ≡ S.role sink.old }
    {
        if self.failed {
            return Err(StreamError::Failed);
        }
        let bytes = header_bytes(alloc, header)?;
        send(sink, &mut self.failed, &bytes)
    }

    /// Holds the event's spelling, and sends the first 65,536 bytes once so many have gathered,
    /// also where that cuts the spelling.
    pub fn put<S: Sink>(
        &mut self,
        alloc: Global,
        event: &Event,
        sink: &mut Careful<S>,
    ) -> Result<(), StreamError>
        requires { IsEvent event.now }
        ensures bytes { let gathered = self.old.held ++ text event.now in
            Sends (writing (S.taken sink.old) (S.faults sink.old) self.old)
            (writing (S.taken sink.new) (S.faults sink.new) self.new)
            (sent gathered) (kept gathered) result }
        ensures most { length self.new.held ≤ 65536 }
        ensures role { S.role sink.new ≡ S.role sink.old }
    {
        let _held = self.held.len();
        if self.failed {
            return Err(StreamError::Failed);
        }
        let bytes = text_of(alloc, event)?;
        self.gather(&bytes, sink)
    }

    #[tactic(auto, using(crate::proofs::Gathered::gathered))]
    fn gather<S: Sink>(&mut self, bytes: &[u8], sink: &mut Careful<S>) -> Result<(), StreamError>
        requires size { length bytes.now ≤ 65536 }
        requires works { self.old.failed ≡ false }
        ensures bytes { let gathered = self.old.held ++ bytes.now in
            Sends (writing (S.taken sink.old) (S.faults sink.old) self.old)
            (writing (S.taken sink.new) (S.faults sink.new) self.new)
            (sent gathered) (kept gathered) result }
        ensures most { length self.new.held ≤ 65536 }
        ensures role { S.role sink.new ≡ S.role sink.old }
    {
        let room = MOST - self.held.len();
        if bytes.len() < room {
            self.held.append(bytes);
            return Ok(());
        }
        let (front, rest) = bytes.split_at(room);
        self.held.append(front);
        send(sink, &mut self.failed, self.held.as_slice())?;
        self.held.clear();
        self.held.append(rest);
        Ok(())
    }

    /// Sends what is held.
    pub fn finish<S: Sink>(&mut self, sink: &mut Careful<S>) -> Result<(), StreamError>
        ensures bytes { Sends (writing (S.taken sink.old) (S.faults sink.old) self.old)
            (writing (S.taken sink.new) (S.faults sink.new) self.new)
            self.old.held [] result }
        ensures role { S.role sink.new ≡ S.role sink.old }
        ensures no_memory { IfErr result (λ e. e ≡ Failed) }
    {
        if self.failed {
            return Err(StreamError::Failed);
        }
        send(sink, &mut self.failed, self.held.as_slice())?;
        self.held.clear();
        Ok(())
    }
}

// Sends the bytes, and notes where the sink failed.
fn send<S: Sink>(sink: &mut Careful<S>, failed: &mut bool, bytes: &[u8]) -> Result<(), StreamError>
    ensures all { OnOk result (Takes (S.taken sink.old) (S.taken sink.new) bytes.now) }
    ensures works { OnOk result (S.faults sink.new ≡ S.faults sink.old) }
    ensures unmarked { OnOk result (failed.new ≡ failed.old) }
    ensures role { S.role sink.new ≡ S.role sink.old }
    // errors
    ensures error { IfErr result (λ e. e ≡ Failed) }
    ensures front { OnErr result
        (TakesFront (S.taken sink.old) (S.taken sink.new) bytes.now) }
    ensures rose { OnErr result (Rose (S.faults sink.old) (S.faults sink.new)) }
    ensures marked { OnErr result (failed.new ≡ true) }
{
    match sink.put_all(bytes) {
        Ok(()) => Ok(()),
        Err(_) => {
            *failed = true;
            Err(StreamError::Failed)
        }
    }
}
