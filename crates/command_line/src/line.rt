//! What the words of a command line are.
ghost use Rattle.std.specs.Prelude.{◌≡◌, ◌+◌, ◌<◌, ◌^◌, length, map, string_bytes};
ghost use Rattle.command_line.specs.Number.{number_in};
ghost use Rattle.command_line.specs.Words.{reading, alone, NamesWord, IsLineInRange};
ghost use Rattle.command_line.specs.Line.{seen_line, seen_given, line_in, quiet_in};

use crate::commands::read_command;
use crate::options::Options;

/// What words ask to record.
#[derive(Clone, Copy, Debug, PartialEq, Eq)]
pub struct RecordWords<'a> {
    /// A turn takes 2^`shift` nanoseconds of the virtual clock. At most 10.
    pub shift: u8,
    /// RAM in MiB, from 1 to 64.
    pub ram_mib: u8,
    /// The turns from a checkpoint to the next, from 1 to 65536.
    pub slice: u32,
    /// The turns after which the run ends, from 1 to 2^40.
    pub budget: u64,
    /// The name of the log's file.
    pub log: &'a str,
    /// The name of the firmware's file.
    pub bios: &'a str,
}

/// What words ask to replay. The log has the budget and the slice, and what isn't given here.
#[derive(Clone, Copy, Debug, PartialEq, Eq)]
pub struct ReplayWords<'a> {
    /// The shift that the log must have. At most 10.
    pub shift: Option<u8>,
    /// The RAM in MiB that the log must have, from 1 to 64.
    pub ram_mib: Option<u8>,
    /// The name of the log's file.
    pub log: &'a str,
    /// The name of the firmware's file.
    pub bios: &'a str,
}

/// A recorded run, as the words of `debug` and `check` name it.
#[derive(Clone, Copy, Debug, PartialEq, Eq)]
pub struct RunWords<'a> {
    /// The name of the log's file.
    pub log: &'a str,
    /// The name of the firmware's file.
    pub bios: &'a str,
}

/// What words are.
#[derive(Clone, Copy, Debug, PartialEq, Eq)]
pub enum Line<'a> {
    Record(RecordWords<'a>),
    Replay(ReplayWords<'a>),
    /// A session on a recorded run, back and forth.
    Debug(RunWords<'a>),
    /// Whether a log is accepted.
    Check(RunWords<'a>),
    /// The events of the log of this name, each in a line.
    Events(&'a str),
    /// A demonstration by the guest that prints so many letters, 1 to 2000.
    Demo(u32),
    Help,
    Version,
    /// The number of the first word, from 0, that no allowed line goes on with.
    BadWord(usize),
    /// An allowed line goes on after the words, which end early.
    WordsMissing,
}

fn alone<'a>(line: Line<'a>, rest: &[String]) -> Line<'a>
    ensures { seen_line result ≡ alone (seen_line line.entry) (map string_bytes rest.now) }
{
    if rest.is_empty() {
        line
    } else {
        Line::BadWord(1)
    }
}

fn read_from<'a>(options: Options<'a>, number: usize, words: &'a [String]) -> Line<'a>
    requires { number + length words.now < 2 ^ 63 }
    ensures { seen_line result
        ≡ reading (seen_given options.entry) number (map string_bytes words.now) }
{
    match words {
        [] => options.at_end(),
        [word] => match options.key(word.as_str()) {
            None => Line::BadWord(number),
            Some(_) => Line::WordsMissing,
        },
        [word, value, rest @ ..] => match options.key(word.as_str()) {
            None => Line::BadWord(number),
            Some(key) => match options.with(key, value.as_str()) {
                None => Line::BadWord(number + 1),
                Some(more) => read_from(more, number + 2, rest),
            },
        },
    }
}

/// What the words of a command line are, the program's own name left out.
pub fn read_line<'a>(words: &'a [String]) -> Line<'a>
    ensures value { seen_line result ≡ line_in words.now }
    ensures named { NamesWord (seen_line result) (length words.now) }
    ensures range { IsLineInRange (seen_line result) }
{
    let [first, rest @ ..] = words else {
        return Line::WordsMissing;
    };
    match first.as_str() {
        "--help" | "-help" | "-h" => alone(Line::Help, rest),
        "--version" | "-version" => alone(Line::Version, rest),
        word => match read_command(word, rest) {
            Some(line) => line,
            None => read_from(Options::none(), 0, words),
        },
    }
}

/// What the words of a quiet command are, the program's own name left out. A quiet command is
/// `debug`, `check`, `events` or `demo`, and needs no threads; another first word is bad.
pub fn read_quiet<'a>(words: &'a [String]) -> Line<'a>
    ensures value { seen_line result ≡ quiet_in words.now }
    ensures named { NamesWord (seen_line result) (length words.now) }
    ensures range { IsLineInRange (seen_line result) }
{
    let [first, rest @ ..] = words else {
        return Line::WordsMissing;
    };
    match read_command(first.as_str(), rest) {
        Some(line) => line,
        None => Line::BadWord(0),
    }
}
