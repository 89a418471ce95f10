//! Why a timeline isn't opened, and why it stays where it is.

ghost use Rattle.std.specs.Prelude.{◌≡◌};
ghost use Rattle.reverse_seek.specs.declared.error.SeekError.TheVariants.{NoMemory};

use std::alloc::AllocError;

/// Why a timeline isn't opened, and the image that it was to have.
#[derive(Debug, Drop)]
pub enum OpenTrouble<I> {
    /// The image failed in this call, and its count of faults rose.
    ImageFailed(I),
    /// Memory was refused. The image's count of faults is as it was.
    NoMemory(I),
}

/// Why a timeline stays where it is.
#[derive(Clone, Copy, Debug, PartialEq, Eq)]
pub enum SeekError {
    /// The count is above the last one.
    PastEnd { asked: u64, last: u64 },
    /// No turn was made there yet.
    AtStart,
    /// No turn is left there.
    AtEnd,
    /// The disk's image failed in this call, and its count of faults rose.
    ImageFailed,
    /// Memory was refused.
    NoMemory,
}

impl From<AllocError> for SeekError {
    ghost from_gives = { λ _ e. e ≡ NoMemory };

    fn from(_error: AllocError) -> SeekError {
        SeekError::NoMemory
    }
}
