//! Why no piece of a source was read.

ghost use Rattle.std.specs.Prelude.{◌≡◌};
ghost use Rattle.io_workers.specs.declared.read_error.ReadError.TheVariants as error;

use outside::{Failed, NoMemory};

/// Why the next piece of a source wasn't read.
#[derive(Clone, Copy, Debug, PartialEq, Eq)]
pub enum ReadError {
    /// The source failed, and gave nothing.
    Failed,
    /// Memory was refused, and all is as before.
    NoMemory,
}

impl From<Failed> for ReadError {
    ghost from_gives = { λ _ e. e ≡ error.Failed };

    fn from(_failed: Failed) -> ReadError {
        ReadError::Failed
    }
}

impl From<NoMemory> for ReadError {
    ghost from_gives = { λ _ e. e ≡ error.NoMemory };

    fn from(_error: NoMemory) -> ReadError {
        ReadError::NoMemory
    }
}
