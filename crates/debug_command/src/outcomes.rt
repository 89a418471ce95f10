//! How the parts of a debugging session come out.

ghost use Rattle.std.specs.Prelude.{◌≡◌, ◌≢◌, Some};
ghost use Rattle.monitor.specs.declared.debugging.DebugEnd.TheVariants.{ImageFault};
ghost use Rattle.debug_command.specs.Causes.{log_outcome_of, unheaded_outcome_of, session_outcome_of};

use commands::Outcome;
use event_log::ParseError;
use monitor::DebugEnd;
use outside::Role;
use run_files::FileFault;

/// Why the log wasn't read.
pub fn log_outcome(fault: FileFault) -> Outcome
    ensures { result ≡ log_outcome_of fault }
{
    match fault {
        FileFault::CannotOpen => Outcome::CannotOpen(Role::LogIn),
        FileFault::CannotRead => Outcome::LogUnreadable,
        FileFault::TooLong => Outcome::LogTooLong,
        FileFault::NoMemory => Outcome::NoMemory,
    }
}

/// Why the log has no header.
pub fn unheaded_outcome(error: ParseError) -> Outcome
    ensures { result ≡ unheaded_outcome_of error }
{
    match error {
        ParseError::Bad { offset, .. } => Outcome::HeaderRefused(offset),
        ParseError::Cut(offset) => Outcome::HeaderRefused(offset),
        ParseError::NoMemory => Outcome::NoMemory,
    }
}

/// How the session ended, whose image can't fail.
pub fn session_outcome(end: DebugEnd) -> Outcome
    requires { end ≢ ImageFault }
    ensures { session_outcome_of end ≡ Some result }
{
    match end {
        DebugEnd::Done => Outcome::Printed,
        DebugEnd::Refused(refusal) => Outcome::LogRefused(refusal),
        DebugEnd::ReadFault => Outcome::CommandsUnreadable,
        DebugEnd::WriteFault => Outcome::QuietFailed,
        DebugEnd::TooMuchInput => Outcome::TooMuchInput,
        DebugEnd::ImageFault => unreachable!(),
        DebugEnd::NoMemory => Outcome::NoMemory,
    }
}
