//! The quiet commands, each with its own words.
ghost use Rattle.std.specs.Prelude.{◌≡◌, map, string_bytes, option_map};
ghost use Rattle.command_line.specs.Number.{number_in};
ghost use Rattle.command_line.specs.Words.{demo_reading, events_reading, after_bios, run_option, run_words, DebugCommand, CheckCommand, command_of, command_reading};
ghost use Rattle.command_line.specs.Line.{seen_line, seen_run_words};

use crate::icount::name;
use crate::line::{Line, RunWords};
use crate::number::number;

// A demonstration prints at most so many letters.
const LETTERS_MAX: u64 = 2000;

fn letters(word: &str) -> Option<u32>
    ensures { result ≡ number_in 1 2000 word.now }
{
    Some(number(word, 1, LETTERS_MAX)? as u32)
}

/// What the words after `demo` are.
fn read_demo<'a>(rest: &[String]) -> Line<'a>
    ensures { seen_line result ≡ demo_reading (map string_bytes rest.now) }
{
    let [word, more @ ..] = rest else {
        return Line::WordsMissing;
    };
    match letters(word.as_str()) {
        None => Line::BadWord(1),
        Some(count) if more.is_empty() => Line::Demo(count),
        Some(_) => Line::BadWord(2),
    }
}

/// What the words after `events` are.
fn read_events<'a>(rest: &'a [String]) -> Line<'a>
    ensures { seen_line result ≡ events_reading (map string_bytes rest.now) }
{
    let [word, more @ ..] = rest else {
        return Line::WordsMissing;
    };
    match name(word.as_str()) {
        None => Line::BadWord(1),
        Some(log) if more.is_empty() => Line::Events(log),
        Some(_) => Line::BadWord(2),
    }
}

/// The run, by the words after `-bios`, or what the words are.
fn after_bios<'a>(log: &'a str, rest: &'a [String]) -> Result<RunWords<'a>, Line<'a>>
    ensures { seen_run_words result ≡ after_bios log.now (map string_bytes rest.now) }
{
    let [word, more @ ..] = rest else {
        return Err(Line::WordsMissing);
    };
    match name(word.as_str()) {
        None => Err(Line::BadWord(3)),
        Some(bios) if more.is_empty() => Ok(RunWords { log, bios }),
        Some(_) => Err(Line::BadWord(4)),
    }
}

/// The run, by the words after its log, or what the words are.
fn run_option<'a>(log: &'a str, rest: &'a [String]) -> Result<RunWords<'a>, Line<'a>>
    ensures { seen_run_words result ≡ run_option log.now (map string_bytes rest.now) }
{
    let [word, more @ ..] = rest else {
        return Err(Line::WordsMissing);
    };
    match word.as_str() {
        "-bios" => after_bios(log, more),
        _ => Err(Line::BadWord(2)),
    }
}

/// The run that the words after `debug` and `check` name, or what the words are.
fn run_words<'a>(rest: &'a [String]) -> Result<RunWords<'a>, Line<'a>>
    ensures { seen_run_words result ≡ run_words (map string_bytes rest.now) }
{
    let [word, more @ ..] = rest else {
        return Err(Line::WordsMissing);
    };
    match name(word.as_str()) {
        None => Err(Line::BadWord(1)),
        Some(log) => run_option(log, more),
    }
}

fn read_debug<'a>(rest: &'a [String]) -> Line<'a>
    ensures { seen_line result ≡ command_reading DebugCommand (map string_bytes rest.now) }
{
    match run_words(rest) {
        Ok(run) => Line::Debug(run),
        Err(line) => line,
    }
}

fn read_check<'a>(rest: &'a [String]) -> Line<'a>
    ensures { seen_line result ≡ command_reading CheckCommand (map string_bytes rest.now) }
{
    match run_words(rest) {
        Ok(run) => Line::Check(run),
        Err(line) => line,
    }
}

/// What the words after a quiet command are, where the word is one.
pub(crate) fn read_command<'a>(word: &str, rest: &'a [String]) -> Option<Line<'a>>
    ensures { option_map seen_line result ≡ option_map
        (λ command. command_reading command (map string_bytes rest.now)) (command_of word.now) }
{
    match word {
        "debug" => Some(read_debug(rest)),
        "check" => Some(read_check(rest)),
        "events" => Some(read_events(rest)),
        "demo" => Some(read_demo(rest)),
        _ => None,
    }
}
