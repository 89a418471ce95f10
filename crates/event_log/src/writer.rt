//! A log that is written event by event.

ghost use Rattle.std.specs.Prelude.{◌≡◌, ◌++◌, ◌≤◌, length, List, ℕ, [], IfOk, IfErr, Result};
ghost use Rattle.std.specs.declared.option.Option.{Option};
ghost use Rattle.outside.specs.Told.{Takes};
ghost use Rattle.event_log.specs.declared.event.Event.{Event as AnEvent};
ghost use Rattle.event_log.specs.declared.header.Header.{Header as AHeader};
ghost use Rattle.event_log.specs.declared.stream_error.StreamError.{StreamError as AStreamError};
ghost use Rattle.event_log.specs.declared.stream_error.StreamError.TheVariants.{Failed};
ghost use Rattle.event_log.specs.HeaderFormat.{header_text, IsHeader};
ghost use Rattle.event_log.specs.Spelling.{text, IsEvent};
ghost use Rattle.event_log.specs.Writing.{Writer, writing, none_written, sent, kept, Sends, Wrote, Writes};

use crate::event::Event;
use crate::header::Header;
use crate::stream_error::StreamError;
use crate::write_behind::WriteBehind;
use outside::{Careful, NoMemory, Sink};
use std::alloc::Global;
use std::marker::Model;

/// Writes a log to a sink: the header, then each first 65,536 bytes that have gathered, then the
/// rest. After the sink failed it isn't asked again: each call answers `Failed`.
#[derive(Drop)]
pub struct LogWriter<S: Sink> {
    sink: Careful<S>,
    unsent: WriteBehind,
}

// Clauses see the sink's role, what it has taken, and what is held.
impl<S: Sink> Model for LogWriter<S> {
    ghost use Rattle.event_log.specs.Writing.{RoleWriter, writing};

    ghost Value = { RoleWriter };

    ghost view = { λ w. record {
      role = S.role w.sink;
      writer = writing (S.taken w.sink) (S.faults w.sink) w.unsent;
    } };
}

impl<S: Sink + Drop> LogWriter<S> {
    /// A writer that was handed nothing yet. Where memory is refused the sink is dropped: where it
    /// is needed again, take a `WriteBehind` first, and join the two by `over`.
    pub fn new(alloc: Global, sink: S) -> Result<LogWriter<S>, NoMemory>
        ensures { IfOk result (λ w. w ≡ record {
          role = S.role sink;
          writer = writing (S.taken sink) (S.faults sink) none_written;
        }) }
    {
        let unsent = WriteBehind::new(alloc)?;
        Ok(LogWriter {
            sink: Careful::new(sink),
            unsent,
        })
    }
}

impl<S: Sink> LogWriter<S> {
    /// A writer to the sink that goes on where `unsent` stands.
    pub fn over(sink: S, unsent: WriteBehind) -> LogWriter<S>
        ensures { result ≡ record {
          role = S.role sink;
          writer = writing (S.taken sink) (S.faults sink) unsent;
        } }
    {
        LogWriter {
            sink: Careful::new(sink),
            unsent,
        }
    }

    /// Sends the header at once. It comes before all events.
    pub fn header(&mut self, alloc: Global, header: &Header) -> Result<(), StreamError>
        requires range { IsHeader header.now }
        requires first { self.old.writer.unsent.held ≡ [] }
        ensures bytes { Sends self.old.writer self.new.writer (header_text header.now) [] result }
        ensures role { self.new.role ≡ self.old.role }
        ensures held { self.new.writer.unsent.held ≡ self.old.writer.unsent.held }
    {
        self.unsent.header(alloc, header, &mut self.sink)
    }

    /// Holds the event's spelling, and sends the first 65,536 bytes once so many have gathered,
    /// also where that cuts the spelling.
    pub fn put(&mut self, alloc: Global, event: &Event) -> Result<(), StreamError>
        requires { IsEvent event.now }
        ensures bytes { let gathered = self.old.writer.unsent.held ++ text event.now in
            Sends self.old.writer self.new.writer (sent gathered) (kept gathered) result }
        ensures role { self.new.role ≡ self.old.role }
        ensures most { length self.new.writer.unsent.held ≤ 65536 }
    {
        self.unsent.put(alloc, event, &mut self.sink)
    }

    /// Sends what is held.
    pub fn finish(&mut self) -> Result<(), StreamError>
        ensures bytes { Sends self.old.writer self.new.writer self.old.writer.unsent.held [] result }
        ensures role { self.new.role ≡ self.old.role }
        ensures no_memory { IfErr result (λ e. e ≡ Failed) }
    {
        self.unsent.finish(&mut self.sink)
    }

    /// The sink, with what it has taken. What is held is lost.
    pub fn into_inner(self) -> S
        ensures role { S.role result ≡ self.role }
        ensures taken { S.taken result ≡ self.writer.taken }
        ensures faults { S.faults result ≡ self.writer.faults }
    {
        let LogWriter { sink, .. } = self;
        sink.into_inner()
    }
}

/// What goes to the sink and what is held are the bytes that have gathered.
pub fn all_bytes()
    ensures { (bytes : List ℕ) → sent bytes ++ kept bytes ≡ bytes }
{}

/// Whatever was written before, after a call the sink has taken, and the writer holds, just that
/// and what was handed in, in order; or the sink failed, and took a front of it.
pub fn in_order()
    ensures none { (taken : Option (List ℕ)) (faults : ℕ)
        → let start = writing taken faults none_written in Wrote start start [] }
    ensures header { (start old new : Writer) (h : AHeader) (result : Result Unit AStreamError)
        → Wrote start old [] → Sends old new (header_text h) [] result
        → Writes start new [] (header_text h) result }
    ensures event { (start old new : Writer) (bytes : List ℕ) (e : AnEvent)
        → (result : Result Unit AStreamError) → Wrote start old bytes
        → let gathered = old.unsent.held ++ text e in
        Sends old new (sent gathered) (kept gathered) result
        → Writes start new bytes (text e) result }
    ensures rest { (start old new : Writer) (bytes : List ℕ) (result : Result Unit AStreamError)
        → Wrote start old bytes → Sends old new old.unsent.held [] result
        → Writes start new bytes [] result }
    ensures all { (start now : Writer) (bytes : List ℕ)
        → Wrote start now bytes → now.unsent.held ≡ [] → Takes start.taken now.taken bytes }
{}
