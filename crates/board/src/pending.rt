//! What stands before the next turn: an interrupt, or a value of the host's clock that it needs.

ghost use Rattle.std.specs.Prelude.{◌≡◌, Some};
ghost use Rattle.ram_pages.specs.Memory.{IsSize};
ghost use Rattle.rv_exec.specs.Rows.{is_need_clock, needs_clock as load_needs_clock};
ghost use Rattle.rv_csr.specs.Traps.{due};
ghost use Rattle.system_bus.specs.Access.{answers, inputs};
ghost use Rattle.board.specs.Turn.{attempt as attempt_of};

use rv_decode::decode;
use rv_exec::Hart;
use rv_exec::laws::load_of;
use system_bus::{Devices, Time};

/// The interrupt that is due, where the clock shows this time. Mostly none is enabled, and then
/// the devices aren't asked.
#[inline(always)]
#[tactic(auto, unfolding(system_bus::specs::Access::inputs), using(crate::proofs::Hearing::deaf))]
pub(crate) fn interrupt_at(hart: &Hart, devices: &Devices, time: &Time) -> Option<u32>
    ensures { result ≡
        due hart.now.csrs hart.now.mode (inputs (record devices.now { time = time.now })) }
{
    if !hart.csrs.hears(hart.mode) {
        return None;
    }
    hart.csrs.due_interrupt(hart.mode, &devices.inputs_at(time))
}

/// Whether a load, aligned or not, needs a value of the host's clock.
fn load_waits(devices: &Devices, _time: &Time, at: u32, size: u32) -> bool
    requires { IsSize size }
    ensures { result ≡
        load_needs_clock answers (record devices.now { time = _time.now }) (Some (at, size)) }
{
    at % size == 0 && devices.waits_for_clock(at, size)
}

/// Whether the next turn reads the host's clock and has no value in hand.
#[tactic(auto, unfolding(crate::specs::Turn::attempt), using(crate::proofs::Clocking::clocking))]
pub(crate) fn needs_clock(hart: &Hart, devices: &Devices, time: &Time) -> bool
    ensures { result ≡
        is_need_clock (attempt_of hart.now (record devices.now { time = time.now })).done }
{
    let Some(word) = devices.ram.fetch(hart.pc) else {
        return false;
    };
    let Some(ins) = decode(word) else {
        return false;
    };
    match load_of(hart, ins) {
        None => false,
        Some((at, size)) => load_waits(devices, time, at, size),
    }
}
