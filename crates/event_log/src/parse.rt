//! Reading the event at a place.

ghost use Rattle.std.specs.Prelude.{◌≡◌, ◌≤◌, ◌≢◌, length, List, ℕ, Result, Err};
ghost use Rattle.event_log.specs.declared.event.Event.{Event as AnEvent};
ghost use Rattle.event_log.specs.declared.parse.ParseError.{ParseError as AParseError};
ghost use Rattle.event_log.specs.Log.{Answers, Unless, Stands};

use crate::event::Event;
use crate::reading::event_of;
use crate::rule::Rule;
use crate::stop::Stop;
use std::alloc::Global;
use thiserror::Error;

/// Why no event was read.
#[derive(Debug, Drop, Error)]
pub enum ParseError {
    #[error("the field at {offset} breaks {rule:?}")]
    Bad { offset: u64, rule: Rule },
    #[error("cut at {0}")]
    Cut(u64),
    #[error("no memory")]
    NoMemory,
}

/// The event at a place, and the place after it.
pub fn next_event(alloc: Global, bytes: &[u8], at: usize) -> Result<(Event, usize), ParseError>
    requires { at ≤ length bytes.now }
    // A value stands there, or the first fault.
    ensures answer { Answers bytes.now at result }
{
    match event_of(alloc, &bytes[at..]) {
        Ok((event, rest)) => Ok((event, bytes.len() - rest.len())),
        Err(Stop::NoMemory) => Err(ParseError::NoMemory),
        Err(Stop::Cut) => Err(ParseError::Cut(at as u64)),
        Err(Stop::Bad(rule)) => Err(ParseError::Bad {
            offset: at as u64,
            rule,
        }),
    }
}

/// At most one thing can be answered at a place, besides want of memory.
pub fn one_answer()
    ensures { (bytes : List ℕ) (at : ℕ) (one other : Result (AnEvent × ℕ) AParseError)
        → one ≢ Err ParseError.NoMemory → Answers bytes at one → Answers bytes at other
        → Unless one other }
{}
