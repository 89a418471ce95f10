//! Why a reader or writer of a log stopped.

ghost use Rattle.std.specs.Prelude.{◌≡◌};
ghost use Rattle.event_log.specs.declared.stream_error.StreamError.TheVariants.{NoMemory};

use crate::parse::ParseError;
use std::alloc::AllocError;
use thiserror::Error;

/// Why a reader or writer of a log didn't answer. A writer answers neither `Parse` nor `TooLong`.
#[derive(Debug, Drop, Error)]
pub enum StreamError {
    /// What stands in the log breaks a rule, or is cut. It never holds `NoMemory`.
    #[error("{0}")]
    Parse(ParseError),
    /// A byte past the first 2^40 was read.
    #[error("the log is longer than 2^40 bytes")]
    TooLong,
    /// The source or sink failed, now or before.
    #[error("the device failed")]
    Failed,
    /// Memory was refused, and all is as before.
    #[error("no memory")]
    NoMemory,
}

impl From<AllocError> for StreamError {
    ghost from_gives = { λ _ e. e ≡ NoMemory };

    fn from(_error: AllocError) -> StreamError {
        StreamError::NoMemory
    }
}
