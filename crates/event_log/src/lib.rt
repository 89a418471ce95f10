//! The log of a recording: its header and events, their one spelling, and a reader and a writer
//! that hold at most 65,536 bytes of it.
#![tactic(auto)]

mod event;
mod fields;
mod header;
mod held;
mod ids;
mod parse;
mod read_ahead;
mod reader;
mod reading;
mod rule;
mod stop;
mod stream_error;
mod write_behind;
mod writer;
mod writing;

pub use event::Event;
pub use header::{Header, one_header, put_header, read_header};
pub use parse::{ParseError, next_event, one_answer};
pub use read_ahead::ReadAhead;
pub use reader::{LogReader, any_pieces};
pub use rule::Rule;
pub use stream_error::StreamError;
pub use write_behind::WriteBehind;
pub use writer::{LogWriter, all_bytes, in_order};
pub use writing::{front_of_texts, one_spelling, put_event};

#[cfg(test)]
mod tests;
