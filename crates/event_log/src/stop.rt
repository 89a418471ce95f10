//! Why an event can't be read.

ghost use Rattle.std.specs.Prelude.{◌≡◌};
ghost use Rattle.event_log.specs.declared.stop.Stop.TheVariants.{NoMemory, Cut};

use crate::fields::CutShort;
use crate::rule::Rule;
use std::alloc::AllocError;

/// Why a reader of an event stopped.
#[derive(Debug, Drop)]
pub enum Stop {
    NoMemory,
    Cut,
    Bad(Rule),
}

impl From<AllocError> for Stop {
    ghost from_gives = { λ _ e. e ≡ NoMemory };

    fn from(_error: AllocError) -> Stop {
        Stop::NoMemory
    }
}

impl From<CutShort> for Stop {
    ghost from_gives = { λ _ e. e ≡ Cut };

    fn from(_error: CutShort) -> Stop {
        Stop::Cut
    }
}
