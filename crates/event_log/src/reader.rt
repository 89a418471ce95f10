//! A log that is read event by event.

ghost use Rattle.std.specs.Prelude.{◌≡◌, ◌≤◌, length, List, ℕ, IfOk, Result, Some};
ghost use Rattle.event_log.specs.declared.event.Event.{Event as AnEvent};
ghost use Rattle.event_log.specs.declared.stream_error.StreamError.{StreamError as AStreamError};
ghost use Rattle.event_log.specs.HeaderFormat.{IsHeader};
ghost use Rattle.event_log.specs.Reading.{Reader, reading, none_read, ahead, IsAnswer, Heads, Nexts, Ends};

use crate::event::Event;
use crate::header::Header;
use crate::read_ahead::ReadAhead;
use crate::stream_error::StreamError;
use outside::{NoMemory, Source};
use std::alloc::Global;
use std::marker::Model;

/// Reads a log from a source, in whatever pieces it comes. After the source failed it isn't asked
/// again: each call answers `Failed`.
#[derive(Drop)]
pub struct LogReader<S: Source> {
    source: S,
    unread: ReadAhead,
}

// Clauses see what the source has left, and what is held.
impl<S: Source> Model for LogReader<S> {
    ghost use Rattle.event_log.specs.Reading.{Reader, reading};

    ghost Value = { Reader };

    ghost view = { λ r. reading (S.left r.source) (S.faults r.source) r.unread };
}

impl<S: Source + Drop> LogReader<S> {
    /// A reader at the log's beginning. Where memory is refused the source is dropped: where it is
    /// needed again, take a `ReadAhead` first, and join the two by `over`.
    pub fn new(alloc: Global, source: S) -> Result<LogReader<S>, NoMemory>
        ensures { IfOk result (λ r. r ≡ reading (S.left source) (S.faults source) (none_read 0)) }
    {
        let unread = ReadAhead::new(alloc)?;
        Ok(LogReader { source, unread })
    }

    /// A reader behind the header, for a source from which that was taken. Where memory is refused
    /// the source is dropped, as by `new`.
    pub fn resume(alloc: Global, source: S, header: &Header) -> Result<LogReader<S>, NoMemory>
        requires { IsHeader header.now }
        ensures { IfOk result (λ r. r ≡ reading (S.left source) (S.faults source) (none_read 98)) }
    {
        let unread = ReadAhead::resume(alloc, header)?;
        Ok(LogReader { source, unread })
    }
}

impl<S: Source> LogReader<S> {
    /// A reader of the source that goes on where `unread` stands.
    pub fn over(source: S, unread: ReadAhead) -> LogReader<S>
        ensures { result ≡ reading (S.left source) (S.faults source) unread }
    {
        LogReader { source, unread }
    }

    /// The place in the log of what is read next.
    pub fn place(&self) -> u64
        ensures place { result ≡ self.now.unread.place }
        ensures most { length self.now.unread.held ≤ 65536 }
    {
        self.unread.place()
    }

    /// The header, or the first fault. It is read once, before all events.
    pub fn header(&mut self) -> Result<Header, StreamError>
        requires { self.old.unread.place ≡ 0 }
        ensures header { Heads self.old self.new result }
        ensures most { length self.new.unread.held ≤ 65536 }
    {
        self.unread.header(&mut self.source)
    }

    /// The next event and its place, or the first fault.
    pub fn next(&mut self, alloc: Global) -> Result<(Event, u64), StreamError>
        requires { 98 ≤ self.old.unread.place }
        ensures event { Nexts self.old self.new result }
        ensures most { length self.new.unread.held ≤ 65536 }
    {
        self.unread.next(alloc, &mut self.source)
    }

    /// Whether no byte follows.
    pub fn at_end(&mut self) -> Result<bool, StreamError>
        requires { 98 ≤ self.old.unread.place }
        ensures end { Ends self.old self.new result }
        ensures most { length self.new.unread.held ≤ 65536 }
    {
        self.unread.at_end(&mut self.source)
    }

    /// The source, with what it has left. What is held is lost.
    pub fn into_inner(self) -> S
        ensures left { S.left result ≡ self.left }
        ensures faults { S.faults result ≡ self.faults }
    {
        let LogReader { source, .. } = self;
        source
    }
}

/// Two readers with the same bytes ahead answer the same, in whatever pieces these come.
pub fn any_pieces()
    ensures { (old new older newer : Reader) (bytes : List ℕ)
        → (one other : Result (AnEvent × ℕ) AStreamError)
        → ahead old ≡ Some bytes → ahead older ≡ Some bytes → old.unread.place ≡ older.unread.place
        → Nexts old new one → Nexts older newer other
        → IsAnswer one → IsAnswer other → one ≡ other }
{}
