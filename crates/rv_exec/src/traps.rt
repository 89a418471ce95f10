//! The causes of traps (Privileged ISA, 3.1.15 Machine Cause Register).
ghost use Rattle.std.specs.Prelude.{◌≡◌};

use crate::done::Done;

pub const MISALIGNED_TARGET: u32 = 0;

pub const ILLEGAL: u32 = 2;

pub const BREAKPOINT: u32 = 3;

pub const MISALIGNED_LOAD: u32 = 4;

pub const LOAD_FAULT: u32 = 5;

pub const MISALIGNED_STORE: u32 = 6;

pub const STORE_FAULT: u32 = 7;

pub const CALL_IN_U: u32 = 8;

pub const CALL_IN_M: u32 = 11;

/// A trap with this cause and this value for mtval.
pub fn trap(cause: u32, value: u32) -> Done
    ensures { result ≡ Done.Trap cause value }
{
    Done::Trap { cause, value }
}
