//! Going on: to the next instruction, by a jump, or by a branch.
ghost use Rattle.std.specs.Prelude.{◌%◌, ◌≡◌, ◌≢◌, ◌<◌, false};
ghost use Rattle.rv_exec.specs.Rows.{given, stepped, jumps, branches};

use crate::done::Done;
use crate::hart::Hart;
use crate::traps::{MISALIGNED_TARGET, trap};

/// The instruction retires, and the next one follows.
pub fn step(h: &mut Hart) -> Done
    ensures done { result ≡ Done.Retired false }
    ensures hart { h.new ≡ stepped h.old }
{
    h.pc = h.pc.wrapping_add(4);
    Done::Retired { idle: false }
}

/// The instruction retires with a value for a register.
pub fn retire(h: &mut Hart, rd: u8, value: u32) -> Done
    requires { rd < 32 }
    ensures done { result ≡ Done.Retired false }
    ensures hart { h.new ≡ given h.old rd value }
{
    h.x.set(rd, value);
    step(h)
}

/// A jump that links the next instruction.
#[tactic(auto, unfolding(crate::specs::Rows::jumps))]
pub fn jump(h: &mut Hart, rd: u8, target: u32) -> Done
    requires { rd < 32 }
    ensures done { result ≡ (jumps h.old rd target).done }
    ensures hart { h.new ≡ (jumps h.old rd target).hart }
    ensures memory { result ≢ Done.NoMemory }
{
    if target % 4 == 0 {
        h.x.set(rd, h.pc.wrapping_add(4));
        h.pc = target;
        Done::Retired { idle: false }
    } else {
        trap(MISALIGNED_TARGET, target)
    }
}

/// A branch, which is taken or not.
#[tactic(auto, unfolding(crate::specs::Rows::branches))]
pub fn branch(h: &mut Hart, taken: bool, target: u32) -> Done
    ensures done { result ≡ (branches h.old taken target).done }
    ensures hart { h.new ≡ (branches h.old taken target).hart }
    ensures memory { result ≢ Done.NoMemory }
{
    if !taken {
        step(h)
    } else if target % 4 == 0 {
        h.pc = target;
        Done::Retired { idle: false }
    } else {
        trap(MISALIGNED_TARGET, target)
    }
}
