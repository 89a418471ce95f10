//! Why nothing runs: a log's header wasn't read, or the firmware's file isn't the image.

ghost use Rattle.std.specs.Prelude.{◌≡◌};
ghost use Rattle.commands.specs.Asking.{header_outcome_of, image_outcome_of};

use crate::outcome::Outcome;
use event_log::{ParseError, StreamError};
use outside::Role;
use run_files::{Difference, ImageFault};

/// Why no header was read.
pub fn header_outcome(error: StreamError) -> Outcome
    ensures { result ≡ header_outcome_of error }
{
    match error {
        StreamError::Parse(ParseError::Bad { offset, .. }) => Outcome::HeaderRefused(offset),
        StreamError::Parse(ParseError::Cut(offset)) => Outcome::HeaderRefused(offset),
        StreamError::Parse(ParseError::NoMemory) | StreamError::NoMemory => Outcome::NoMemory,
        StreamError::Failed => Outcome::LogUnreadable,
        StreamError::TooLong => Outcome::LogTooLong,
    }
}

/// Why the firmware's file isn't the image.
pub fn image_outcome(fault: ImageFault) -> Outcome
    ensures { result ≡ image_outcome_of fault }
{
    match fault {
        ImageFault::CannotOpen => Outcome::CannotOpen(Role::Firmware),
        ImageFault::CannotRead => Outcome::CannotRead,
        ImageFault::OtherFirmware => Outcome::ImagesDiffer(Difference::Firmware),
        ImageFault::Bad(rule) => Outcome::BadFirmware(rule),
        ImageFault::OtherDiskLength => Outcome::ImagesDiffer(Difference::DiskLength),
        ImageFault::OtherDisk => Outcome::ImagesDiffer(Difference::Disk),
        ImageFault::NoMemory => Outcome::NoMemory,
    }
}
