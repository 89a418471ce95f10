//! What a line asks for.

ghost use Rattle.std.specs.Prelude.{◌≡◌, IfSome, IfNone, Some, None};
ghost use Rattle.std.specs.Str.{bytes_eq};
ghost use Rattle.monitor.specs.Words.{split as split_of, only as only_of};
ghost use Rattle.monitor.specs.Parse.{parsed, plain as plain_of, info as info_of, one_number as one_number_of};
ghost use Rattle.monitor.specs.Parse.{dump as dump_of, ranged as ranged_of, with_words as with_words_of};

use crate::command::{Command, LineError};
use crate::number::{address, number};
use crate::words::split;

/// Whether a word is that name.
fn is(word: &[u8], name: &str) -> bool
    ensures { result ≡ bytes_eq word.now name.now }
{
    word == name.as_bytes()
}

/// A command of one word.
fn plain(name: &[u8]) -> Result<Command, LineError>
    ensures { result ≡ plain_of name.now }
{
    if is(name, "replay_delete_break") {
        Ok(Command::DeleteBreak)
    } else if is(name, "reverse-step") {
        Ok(Command::StepBack)
    } else if is(name, "reverse-continue") {
        Ok(Command::RunBack)
    } else if is(name, "step") {
        Ok(Command::StepOn)
    } else if is(name, "continue") {
        Ok(Command::RunOn)
    } else if is(name, "quit") {
        Ok(Command::Quit)
    } else {
        Err(LineError::UnknownCommand)
    }
}

/// What `info` is asked for.
fn info(what: &[u8]) -> Result<Command, LineError>
    ensures { result ≡ info_of what.now }
{
    if is(what, "replay") {
        Ok(Command::InfoReplay)
    } else if is(what, "registers") {
        Ok(Command::InfoRegisters)
    } else {
        Err(LineError::UnknownCommand)
    }
}

/// A word that is the last of its line.
fn only(line: &[u8]) -> Option<&[u8]>
    ensures some { IfSome result (λ word. only_of (split_of line.now) ≡ Some word.now) }
    ensures none { IfNone result (only_of (split_of line.now) ≡ None) }
{
    match split(line) {
        (word, None) => Some(word),
        (_, Some(_)) => None,
    }
}

/// A count for a break, and no more words.
fn break_at(rest: &[u8]) -> Result<Command, LineError>
    ensures { result ≡ one_number_of (only_of (split_of rest.now)) Command.Break }
{
    let Some(word) = only(rest) else {
        return Err(LineError::UnknownCommand);
    };
    match number(word) {
        Some(n) => Ok(Command::Break(n)),
        None => Err(LineError::BadNumber),
    }
}

/// A count to go to, and no more words.
fn seek_to(rest: &[u8]) -> Result<Command, LineError>
    ensures { result ≡ one_number_of (only_of (split_of rest.now)) Command.Seek }
{
    let Some(word) = only(rest) else {
        return Err(LineError::UnknownCommand);
    };
    match number(word) {
        Some(n) => Ok(Command::Seek(n)),
        None => Err(LineError::BadNumber),
    }
}

/// An address and a length from 1 to 64, and no more words.
fn dump(rest: &[u8]) -> Result<Command, LineError>
    ensures { result ≡ dump_of (split_of rest.now) }
{
    let (at, Some(after)) = split(rest) else {
        return Err(LineError::UnknownCommand);
    };
    let Some(len) = only(after) else {
        return Err(LineError::UnknownCommand);
    };
    ranged(address(at), number(len))
}

/// A dump of so many bytes from an address on, where both are in their ranges.
fn ranged(at: Option<u32>, len: Option<u64>) -> Result<Command, LineError>
    ensures { result ≡ ranged_of at len }
{
    match (at, len) {
        (Some(at), Some(len)) => {
            if 1 <= len && len <= 64 {
                Ok(Command::Dump(at, len as u32))
            } else {
                Err(LineError::BadNumber)
            }
        }
        _ => Err(LineError::BadNumber),
    }
}

/// A command with words after its name.
fn with_words(name: &[u8], rest: &[u8]) -> Result<Command, LineError>
    ensures { result ≡ with_words_of name.now rest.now }
{
    if is(name, "info") {
        info(rest)
    } else if is(name, "replay_break") {
        break_at(rest)
    } else if is(name, "replay_seek") {
        seek_to(rest)
    } else if is(name, "x") {
        dump(rest)
    } else {
        Err(LineError::UnknownCommand)
    }
}

/// What a line asks for, or what is wrong with it. The line has no line feed and no carriage return
/// before one.
#[tactic(auto, unfolding(crate::specs::Parse::parsed))]
pub fn parse_line(line: &[u8]) -> Result<Command, LineError>
    ensures { result ≡ parsed line.now }
{
    if line.len() > 256 {
        return Err(LineError::TooLong);
    }
    if line.is_empty() {
        return Ok(Command::Blank);
    }
    match split(line) {
        (name, None) => plain(name),
        (name, Some(rest)) => with_words(name, rest),
    }
}
