//! What a reader of a log holds ahead of its events.

ghost use Rattle.std.specs.Prelude.{◌≡◌, ◌+◌, ◌^◌, ◌<◌, ◌≤◌, length, false, IfOk};
ghost use Rattle.event_log.specs.HeaderFormat.{IsHeader};
ghost use Rattle.event_log.specs.Reading.{reading, none_read, Waits, Heads, Nexts, Ends, Mores, Parses, HeadParses, IsReady};

use crate::event::Event;
use crate::header::{Header, LENGTH, read_header};
use crate::held::Held;
use crate::parse::{ParseError, next_event};
use crate::stream_error::StreamError;
use outside::{NoMemory, Source};
use std::alloc::Global;
use std::marker::Model;

/// How many bytes of a log are read at most.
const LONGEST: u64 = 1 << 40;

/// Reads a log from a source that each call is handed, and holds what was read ahead of it. A
/// `LogReader` is this with its source; take it alone where the source stays with its owner.
#[derive(Drop)]
pub struct ReadAhead {
    held: Held,
    place: u64,
    failed: bool,
}

// Clauses see what is held, and its place in the log.
impl Model for ReadAhead {
    ghost use Rattle.std.specs.Prelude.{◌≤◌, ◌+◌, ◌^◌, length};
    ghost use Rattle.event_log.specs.Reading.{Unread};

    ghost Value = { Unread };

    ghost view = { λ r. record { held = r.held; place = r.place; failed = r.failed } };

    ghost invariant = { λ r. r.place + length r.held ≤ 2 ^ 40 + 1 };
}

impl ReadAhead {
    /// For a source at the log's beginning.
    pub fn new(alloc: Global) -> Result<ReadAhead, NoMemory>
        ensures { IfOk result (λ r. r ≡ none_read 0) }
    {
        let held = Held::new(alloc)?;
        Ok(ReadAhead {
            held,
            place: 0,
            failed: false,
        })
    }

    /// For a source from which the header was taken.
    pub fn resume(alloc: Global, header: &Header) -> Result<ReadAhead, NoMemory>
        requires { IsHeader header.now }
        ensures { IfOk result (λ r. r ≡ none_read 98) }
    {
        let held = Held::new(alloc)?;
        Ok(ReadAhead {
            held,
            place: LENGTH as u64,
            failed: false,
        })
    }

    /// The place in the log of what is read next.
    pub fn place(&self) -> u64
        ensures place { result ≡ self.now.place }
        ensures most { length self.now.held ≤ 65536 }
    {
        let _held = self.held.len();
        self.place
    }

    /// The header, or the first fault. It is read once, before all events.
    #[tactic(auto, using(crate::proofs::Flow::heads))]
    pub fn header<S: Source>(&mut self, source: &mut S) -> Result<Header, StreamError>
        requires { self.old.place ≡ 0 }
        ensures header { Heads (reading (S.left source.old) (S.faults source.old) self.old)
            (reading (S.left source.new) (S.faults source.new) self.new) result }
        ensures most { length self.new.held ≤ 65536 }
    {
        if !self.wait_for(source, LENGTH)? {
            return Err(StreamError::Parse(ParseError::Cut(0)));
        }
        match self.parsed_header() {
            Ok(header) => Ok(header),
            Err(fault) => Err(StreamError::Parse(fault)),
        }
    }

    /// The next event and its place, or the first fault.
    #[tactic(auto, using(crate::proofs::Flow::nexts))]
    pub fn next<S: Source>(
        &mut self,
        alloc: Global,
        source: &mut S,
    ) -> Result<(Event, u64), StreamError>
        requires { 98 ≤ self.old.place }
        ensures event { Nexts (reading (S.left source.old) (S.faults source.old) self.old)
            (reading (S.left source.new) (S.faults source.new) self.new) result }
        ensures most { length self.new.held ≤ 65536 }
    {
        self.ready()?;
        loop {
            match self.parsed(alloc) {
                Ok(found) => return Ok(found),
                Err(ParseError::NoMemory) => return Err(StreamError::NoMemory),
                Err(ParseError::Bad { offset, rule }) => {
                    return Err(StreamError::Parse(ParseError::Bad { offset, rule }));
                }
                Err(ParseError::Cut(offset)) => {
                    if !self.more(source)? {
                        return Err(StreamError::Parse(ParseError::Cut(offset)));
                    }
                }
            }
        }
    }

    /// Whether no byte follows.
    pub fn at_end<S: Source>(&mut self, source: &mut S) -> Result<bool, StreamError>
        requires { 98 ≤ self.old.place }
        ensures end { Ends (reading (S.left source.old) (S.faults source.old) self.old)
            (reading (S.left source.new) (S.faults source.new) self.new) result }
        ensures most { length self.new.held ≤ 65536 }
    {
        let held = self.wait_for(source, 1)?;
        Ok(!held)
    }

    // Whether the source may be asked.
    fn ready(&self) -> Result<(), StreamError>
        ensures ready { IsReady self.now result }
        ensures most { length self.now.held ≤ 65536 }
    {
        let held = self.held.len() as u64;
        if self.failed {
            return Err(StreamError::Failed);
        }
        if self.place + held > LONGEST {
            return Err(StreamError::TooLong);
        }
        Ok(())
    }

    // Reads until so many bytes are held, or to the end.
    #[tactic(auto, using(crate::proofs::Flow::nexts))]
    fn wait_for<S: Source>(&mut self, source: &mut S, count: usize) -> Result<bool, StreamError>
        requires { count ≤ 65536 }
        ensures bytes { Waits (reading (S.left source.old) (S.faults source.old) self.old)
            (reading (S.left source.new) (S.faults source.new) self.new) count result }
        ensures most { length self.new.held ≤ 65536 }
    {
        self.ready()?;
        while self.held.len() < count {
            if !self.more(source)? {
                return Ok(false);
            }
        }
        Ok(true)
    }

    // Reads a piece.
    fn more<S: Source>(&mut self, source: &mut S) -> Result<bool, StreamError>
        requires room { length self.old.held < 65536 }
        requires works { self.old.failed ≡ false }
        requires short { self.old.place + length self.old.held ≤ 2 ^ 40 }
        ensures bytes { Mores (reading (S.left source.old) (S.faults source.old) self.old)
            (reading (S.left source.new) (S.faults source.new) self.new) result }
        ensures most { length self.new.held ≤ 65536 }
    {
        let most = (LONGEST - self.place - self.held.len() as u64).max(1);
        match self.held.fill(source, most) {
            Err(_) => {
                self.failed = true;
                let _held = self.held.len();
                Err(StreamError::Failed)
            }
            Ok(count) => {
                if self.place + self.held.len() as u64 > LONGEST {
                    return Err(StreamError::TooLong);
                }
                Ok(count > 0)
            }
        }
    }

    // The header at the front of what is held.
    #[tactic(auto, using(crate::proofs::HeaderLaws::header_drop))]
    fn parsed_header(&mut self) -> Result<Header, ParseError>
        requires there { 98 ≤ length self.old.held }
        requires short { self.old.place + length self.old.held ≤ 2 ^ 40 }
        ensures header { HeadParses self.old self.new result }
        ensures most { length self.new.held ≤ 65536 }
    {
        match read_header(self.held.as_slice()) {
            Ok(header) => {
                self.held.skip(LENGTH);
                self.place += LENGTH as u64;
                let _held = self.held.len();
                Ok(header)
            }
            Err(fault) => Err(fault),
        }
    }

    // The event at the front of what is held.
    #[tactic(auto, using(crate::proofs::Widths::event_cut))]
    fn parsed(&mut self, alloc: Global) -> Result<(Event, u64), ParseError>
        ensures event { Parses self.old self.new result }
        ensures most { length self.new.held ≤ 65536 }
    {
        match next_event(alloc, self.held.as_slice(), 0) {
            Ok((event, size)) => {
                let place = self.place;
                self.held.skip(size);
                self.place += size as u64;
                Ok((event, place))
            }
            Err(ParseError::NoMemory) => Err(ParseError::NoMemory),
            Err(ParseError::Bad { rule, .. }) => Err(ParseError::Bad {
                offset: self.place,
                rule,
            }),
            Err(ParseError::Cut(_)) => Err(ParseError::Cut(self.place)),
        }
    }
}
