//! One turn.

ghost use Rattle.std.specs.Prelude.{◌≡◌, ◌≢◌, ◌<◌, ◌^◌, true};
ghost use Rattle.rv_exec.specs.Rows.{Reaches, is_need_clock};
ghost use Rattle.board.specs.Turn.{attempt as attempt_of, entered, settle as settle_of, wants_memory};
ghost use Rattle.board.specs.Bounds.{Counts};
ghost use Rattle.board.specs.Answers.{Refused, StepsTo};
ghost use Rattle.board.specs.Sprint.{is_clear as is_clear_of};

use crate::control::Control;
use crate::deciding::is_clear;
use crate::pending::interrupt_at;
use rv_csr::Mode;
use rv_decode::DecodeCache;
use rv_exec::{Done, Hart, execute};
use system_bus::Devices;

/// The cause of a fetch outside RAM.
const INSTRUCTION_ACCESS_FAULT: u32 = 1;

/// The cause of a word that means no instruction.
const ILLEGAL_INSTRUCTION: u32 = 2;

/// The attempt at the instruction at pc. It leaves the clock as it is.
#[inline(always)]
#[tactic(auto, using(crate::proofs::TimeHeld::attempt_time))]
pub(crate) fn attempt(hart: &mut Hart, devices: &mut Devices, cache: &mut DecodeCache) -> Done
    ensures reached { result ≢ Done.NoMemory →
        Reaches (attempt_of hart.old devices.old) result hart.new devices.new }
    ensures refused { result ≡ Done.NoMemory →
        Refused (attempt_of hart.old devices.old) hart.old devices.old hart.new devices.new }
    ensures clock { result ≡ Done.NeedClock →
        (hart.new ≡ hart.old) × (devices.new ≡ devices.old) }
    ensures wants { result ≡ Done.NoMemory → wants_memory hart.old devices.old ≡ true }
    ensures time { devices.new.time ≡ devices.old.time }
{
    fetch(hart, devices, cache)
}

/// The fetch, the decoding and the execution of the word at pc.
#[inline(always)]
#[tactic(auto, unfolding(crate::specs::Turn::attempt, crate::specs::Turn::wants_memory))]
fn fetch(hart: &mut Hart, devices: &mut Devices, cache: &mut DecodeCache) -> Done
    ensures reached { result ≢ Done.NoMemory →
        Reaches (attempt_of hart.old devices.old) result hart.new devices.new }
    ensures refused { result ≡ Done.NoMemory →
        Refused (attempt_of hart.old devices.old) hart.old devices.old hart.new devices.new }
    ensures clock { result ≡ Done.NeedClock →
        (hart.new ≡ hart.old) × (devices.new ≡ devices.old) }
    ensures wants { result ≡ Done.NoMemory → wants_memory hart.old devices.old ≡ true }
{
    let Some(word) = devices.ram.fetch(hart.pc) else {
        return Done::Trap {
            cause: INSTRUCTION_ACCESS_FAULT,
            value: hart.pc,
        };
    };
    let Some(ins) = cache.decode(hart.pc, word) else {
        return Done::Trap {
            cause: ILLEGAL_INSTRUCTION,
            value: word,
        };
    };
    execute(hart, devices, ins, word)
}

/// What a step came to.
#[derive(Clone, Copy, Debug)]
pub(crate) enum Stepped {
    /// One turn was made.
    Turned,
    /// Another thing than a turn is due.
    Stopped,
    /// Memory was refused, and nothing changed.
    NoMemory,
}

/// A turn where one is due, of a state whose window is closed.
#[inline(always)]
#[tactic(auto, unfolding(crate::specs::Due::due_closed, crate::specs::Due::needs_clock), using(crate::proofs::DueFacts::deciding))]
pub(crate) fn step(
    hart: &mut Hart,
    devices: &mut Devices,
    control: &mut Control,
    cache: &mut DecodeCache,
) -> Stepped
    requires { Counts control.old devices.old.time }
    ensures step { StepsTo
        (record { hart = hart.old; devices = devices.old; control = control.old }) result
        (record { hart = hart.new; devices = devices.new; control = control.new }) }
    ensures counts { Counts control.new devices.new.time }
{
    let interrupt = interrupt_at(hart, devices, &devices.time).is_some();
    if !is_clear(
        control,
        devices.time.count(),
        devices.finisher.ended(),
        interrupt,
    ) {
        return Stepped::Stopped;
    }
    make(hart, devices, control, cache)
}

/// A turn that is due, unless it needs the host's clock. The word is decoded once: whether it does
/// shows in the attempt.
#[inline(always)]
#[tactic(auto, unfolding(crate::specs::Due::due_closed, crate::specs::Due::needs_clock, crate::specs::Turn::turn_closed), using(crate::proofs::DueFacts::deciding, system_bus::proofs::Levels::levels_time))]
pub(crate) fn make(
    hart: &mut Hart,
    devices: &mut Devices,
    control: &mut Control,
    cache: &mut DecodeCache,
) -> Stepped
    requires counts { Counts control.old devices.old.time }
    requires clear { is_clear_of
        (record { hart = hart.old; devices = devices.old; control = control.old }) ≡ true }
    ensures step { StepsTo
        (record { hart = hart.old; devices = devices.old; control = control.old }) result
        (record { hart = hart.new; devices = devices.new; control = control.new }) }
    ensures counts { Counts control.new devices.new.time }
{
    let done = attempt(hart, devices, cache);
    match done {
        Done::NeedClock => Stepped::Stopped,
        Done::NoMemory => Stepped::NoMemory,
        _ => {
            settle(hart, devices, control, done);
            Stepped::Turned
        }
    }
}

/// Enters a trap.
#[inline(never)]
fn enter(hart: &mut Hart, cause: u32, value: u32)
    ensures { hart.new ≡ entered hart.old cause value }
{
    hart.pc = hart.csrs.enter_trap(hart.mode, hart.pc, cause, value);
    hart.mode = Mode::M;
}

/// What is left of a turn that was made: the trap's entry, the counts, and the levels.
#[inline(always)]
pub(crate) fn settle(hart: &mut Hart, devices: &mut Devices, control: &mut Control, done: Done)
    requires count { devices.old.time.count < 2 ^ 40 }
    requires since { control.old.since < 65536 }
    ensures { record { hart = hart.new; devices = devices.new; control = control.new }
        ≡ settle_of
        (record { hart = hart.old; devices = devices.old; control = control.old })
        done hart.old devices.old }
{
    match done {
        Done::Retired { idle } => {
            hart.csrs.tick(true);
            if idle {
                control.idle = true;
            }
        }
        Done::Trap { cause, value } => {
            enter(hart, cause, value);
            hart.csrs.tick(false);
            control.trapped = true;
        }
        Done::NeedClock | Done::NoMemory => return,
    }
    devices.time.tick();
    devices.set_levels();
    control.since += 1;
}
