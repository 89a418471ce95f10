//! The line that the messages get for an outcome.

ghost use Rattle.std.specs.Prelude.{◌≡◌, ◌++◌, IfOk, map, string_bytes, codes};
ghost use Rattle.std.specs.Fmt.{decimal};
ghost use Rattle.command_line.specs.Line.{seen_line};
ghost use Rattle.rrvm.specs.Messages.{bios_name, log_name, file_name, rule_name, difference_name, word_of, line_of};

use crate::texts::refusal_line;
use command_line::Line;
use commands::Outcome;
use elf_load::LoadError;
use outside::Role;
use run_files::Difference;
use std::alloc::{AllocError, Global};

fn bios<'a>(line: &Line<'a>) -> &'a str
    ensures { result.now ≡ bios_name (seen_line line.now) }
{
    match line {
        Line::Record(words) => words.bios,
        Line::Replay(words) => words.bios,
        Line::Debug(run) | Line::Check(run) => run.bios,
        _ => "",
    }
}

fn log<'a>(line: &Line<'a>) -> &'a str
    ensures { result.now ≡ log_name (seen_line line.now) }
{
    match line {
        Line::Record(words) => words.log,
        Line::Replay(words) => words.log,
        Line::Debug(run) | Line::Check(run) => run.log,
        Line::Events(log) => log,
        _ => "",
    }
}

/// The name of a role's file.
fn file<'a>(line: &Line<'a>, role: Role) -> &'a str
    ensures { result.now ≡ file_name (seen_line line.now) role }
{
    match role {
        Role::Firmware => bios(line),
        _ => log(line),
    }
}

/// The rule's name, in lower case.
fn rule_name(rule: LoadError) -> &'static str
    ensures { result.now ≡ rule_name rule }
{
    match rule {
        LoadError::TooLong => "toolong",
        LoadError::Cut => "cut",
        LoadError::Class => "class",
        LoadError::Encoding => "encoding",
        LoadError::FileType => "filetype",
        LoadError::Machine => "machine",
        LoadError::Entry => "entry",
        LoadError::Headers => "headers",
        LoadError::Sizes => "sizes",
        LoadError::File => "file",
        LoadError::Memory => "memory",
        LoadError::NoMemory => "nomemory",
    }
}

/// What differs, in words.
fn difference_name(difference: Difference) -> &'static str
    ensures { result.now ≡ difference_name difference }
{
    match difference {
        Difference::Shift => "shift",
        Difference::Ram => "ram",
        Difference::Firmware => "firmware",
        Difference::DiskLength => "disk length",
        Difference::Disk => "disk",
    }
}

/// The word of that number, from 0.
pub(crate) fn word(words: &[String], number: usize) -> &str
    ensures { result.now ≡ word_of (map string_bytes words.now) number }
{
    match words.get(number) {
        Some(word) => word.as_str(),
        None => "",
    }
}

fn bad_word(alloc: Global, number: usize, word: &str) -> Result<String, AllocError>
    ensures { IfOk result (λ s. string_bytes s
        ≡ codes "rrvm: bad word " ++ decimal number ++ codes ": " ++ word.now ++ codes "\n") }
{
    format!(in alloc; "rrvm: bad word {number}: {word}\n")
}

fn plain(alloc: Global, text: &str) -> Result<String, AllocError>
    ensures { IfOk result (λ s. string_bytes s ≡ text.now) }
{
    String::from_str(alloc, text)
}

/// The line for an outcome: nothing at status 0.
pub(crate) fn message(
    alloc: Global,
    words: &[String],
    line: &Line<'_>,
    outcome: &Outcome,
) -> Result<String, AllocError>
    ensures { IfOk result (λ s. string_bytes s
        ≡ line_of (map string_bytes words.now) (seen_line line.now) outcome.now) }
{
    match outcome {
        Outcome::Printed | Outcome::GuestEnded(0) => Ok(String::new(alloc)),
        Outcome::GuestEnded(code) => format!(in alloc; "rrvm: guest ended with code {code}\n"),
        Outcome::IdleForEver => plain(alloc, "rrvm: idle for ever\n"),
        Outcome::BudgetReached => plain(alloc, "rrvm: budget reached\n"),
        Outcome::BadWord(number) => bad_word(alloc, *number, word(words, *number)),
        Outcome::WordsMissing => plain(alloc, "rrvm: words end early\n"),
        Outcome::CannotOpen(role) => {
            let name = file(line, *role);
            format!(in alloc; "rrvm: cannot open or read {name}\n")
        }
        Outcome::CannotRead => {
            let name = bios(line);
            format!(in alloc; "rrvm: cannot open or read {name}\n")
        }
        Outcome::ConsoleUnreadable => plain(alloc, "rrvm: console input failed\n"),
        Outcome::ConsoleFailed => plain(alloc, "rrvm: console output failed\n"),
        Outcome::LogFailed => plain(alloc, "rrvm: log output failed\n"),
        Outcome::LogUnreadable => plain(alloc, "rrvm: log input failed\n"),
        Outcome::BadFirmware(rule) => {
            let name = rule_name(*rule);
            format!(in alloc; "rrvm: bad firmware: {name}\n")
        }
        Outcome::RecordingStopped => plain(alloc, "rrvm: recording was stopped\n"),
        Outcome::HeaderRefused(offset) => {
            format!(in alloc; "rrvm: log refused: header at {offset}\n")
        }
        Outcome::LogRefused(refusal) => refusal_line(alloc, refusal),
        Outcome::ImagesDiffer(difference) => {
            let name = difference_name(*difference);
            format!(in alloc; "rrvm: images differ: {name}\n")
        }
        Outcome::LogTooLong => plain(alloc, "rrvm: log too long\n"),
        Outcome::QuietFailed | Outcome::CommandsUnreadable => {
            plain(alloc, "rrvm: input or output failed\n")
        }
        Outcome::TooMuchInput => plain(alloc, "rrvm: too much input\n"),
        Outcome::NoMemory => plain(alloc, "rrvm: no memory\n"),
    }
}
