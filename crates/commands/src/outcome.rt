//! How a call ended, and its status.

use elf_load::LoadError;
use log_order::Refusal;
use outside::Role;
use run_files::Difference;

/// How a call ended.
#[derive(Debug, Drop)]
pub enum Outcome {
    /// What was asked for was printed: a text, or what a quiet command answers.
    Printed,
    /// The guest ended with this code.
    GuestEnded(u32),
    /// The guest waits, and nothing will wake it.
    IdleForEver,
    /// The turns of the budget were made.
    BudgetReached,
    /// The word of this number, from 0, is the first that leaves the grammar.
    BadWord(usize),
    WordsMissing,
    /// The file of this role couldn't be opened.
    CannotOpen(Role),
    /// The firmware's file couldn't be read.
    CannotRead,
    /// The console's input couldn't be read.
    ConsoleUnreadable,
    ConsoleFailed,
    LogFailed,
    /// The log couldn't be read.
    LogUnreadable,
    /// The firmware's file breaks this rule.
    BadFirmware(LoadError),
    /// The recording was stopped by a fault of a device.
    RecordingStopped,
    /// The log's header isn't there, or its field at this offset is out of range.
    HeaderRefused(u64),
    /// The log is refused at its first wrong event.
    LogRefused(Refusal),
    /// The words or the images aren't those of the log's header.
    ImagesDiffer(Difference),
    /// The log has more than 2^40 bytes.
    LogTooLong,
    /// What a quiet command printed wasn't taken whole.
    QuietFailed,
    /// The commands of a debugging session couldn't be read.
    CommandsUnreadable,
    /// More commands came than a debugging session reads.
    TooMuchInput,
    NoMemory,
}

impl Outcome {
    ghost use Rattle.std.specs.Prelude.{◌≡◌};
    ghost use Rattle.commands.specs.Outcomes.{status_of};

    /// The program's exit status.
    pub fn status(&self) -> u8
        ensures { result ≡ status_of self.now }
    {
        match self {
            Outcome::Printed | Outcome::GuestEnded(0) => 0,
            Outcome::GuestEnded(_) => 10,
            Outcome::IdleForEver => 12,
            Outcome::BudgetReached => 13,
            Outcome::BadWord(_) | Outcome::WordsMissing => 1,
            Outcome::CannotOpen(_) | Outcome::CannotRead => 2,
            Outcome::ConsoleUnreadable => 3,
            Outcome::ConsoleFailed => 4,
            Outcome::LogFailed => 5,
            Outcome::LogUnreadable => 6,
            Outcome::BadFirmware(_) => 8,
            Outcome::RecordingStopped => 14,
            Outcome::HeaderRefused(_) | Outcome::LogRefused(_) => 20,
            Outcome::ImagesDiffer(_) => 21,
            Outcome::LogTooLong => 22,
            Outcome::QuietFailed | Outcome::CommandsUnreadable => 9,
            Outcome::TooMuchInput => 23,
            Outcome::NoMemory => 30,
        }
    }
}
