//! A list of a log's events.

ghost use Rattle.std.specs.Prelude.{◌≡◌, false};
ghost use Rattle.event_list.specs.Listing.{ListsTo, listed, is_end as is_end_of, refusal_of, stopped_as};

use crate::texts::event_line;
use board::Due;
use event_log::{Event, LogReader, ParseError, StreamError};
use log_order::{Found, Refusal};
use outside::{Careful, Sink, Source};
use std::alloc::Global;

/// How a list of a log's events ended.
#[derive(Debug, Drop)]
pub enum ListEnd {
    /// At END, which the log ends with.
    Whole,
    /// What stands next is no event, or stands after END. Nothing is due there, as no machine is
    /// asked.
    Refused(Refusal),
    /// The log's source failed.
    LogRead,
    /// A byte past 2^40 of the log was read.
    LogTooLong,
    /// The sink of the lines failed.
    WriteFault,
    NoMemory,
}

fn is_end(event: Event) -> bool
    ensures { result ≡ is_end_of event }
{
    match event {
        Event::End { .. } => true,
        _ => false,
    }
}

/// The refusal of what stands at a place.
fn refused(index: u64, offset: u64, found: Found) -> ListEnd
    ensures { result ≡ ListEnd.Refused (refusal_of index offset found) }
{
    ListEnd::Refused(Refusal {
        index,
        offset,
        due: Due::Nothing,
        found,
    })
}

/// How a list ends that the log gives no more.
fn stopped(index: u64, error: StreamError) -> ListEnd
    ensures { result ≡ stopped_as index error }
{
    match error {
        StreamError::Parse(ParseError::Cut(offset)) => refused(index, offset, Found::Cut),
        StreamError::Parse(ParseError::Bad { offset, rule }) => {
            refused(index, offset, Found::Rule(rule))
        }
        StreamError::Failed => ListEnd::LogRead,
        StreamError::TooLong => ListEnd::LogTooLong,
        StreamError::Parse(ParseError::NoMemory) | StreamError::NoMemory => ListEnd::NoMemory,
    }
}

/// Writes a line for each event of a log whose header was read, up to END or to the first place
/// that is wrong. An event's line is written before the next one is read.
pub fn list_events<S: Source, K: Sink>(
    alloc: Global,
    log: &mut LogReader<S>,
    out: &mut Careful<K>,
) -> ListEnd
    requires place { log.old.unread.place ≡ 98 }
    requires works { log.old.unread.failed ≡ false }
    ensures lists { ListsTo (listed log.old (K.taken out.old) (K.faults out.old))
        (listed log.new (K.taken out.new) (K.faults out.new)) result }
    ensures role { K.role out.new ≡ K.role out.old }
{
    // What is held is little, so the limit of the log's bytes lies ahead.
    let _place = log.place();
    let mut index = 0;
    let mut over = false;
    while !over {
        match log.next(alloc) {
            Ok((event, offset)) => {
                let Ok(line) = event_line(alloc, index, offset, &event) else {
                    return ListEnd::NoMemory;
                };
                if out.put_all(line.as_bytes()).is_err() {
                    return ListEnd::WriteFault;
                }
                index += 1;
                over = is_end(event);
            }
            Err(error) => return stopped(index, error),
        }
    }
    match log.at_end() {
        Ok(true) => ListEnd::Whole,
        Ok(false) => refused(index, log.place(), Found::MoreBytes),
        Err(error) => stopped(index, error),
    }
}
