//! Closing a window.

ghost use Rattle.std.specs.Prelude.{◌≡◌, ◌≤◌, false, IfSome};
ghost use Rattle.rv_csr.specs.Control.{has_bit};
ghost use Rattle.system_bus.specs.Time.{nanoseconds, last_deadline};
ghost use Rattle.board.specs.Close.{wakes as wakes_of, deadline as deadline_of, close, Keeps};
ghost use Rattle.system_bus.specs.Time.{skipped as skipped_to};

use crate::control::{Control, Window};
use rv_csr::Mode;
use rv_exec::{Bus, Hart};
use system_bus::{Devices, Time};

/// The number of the control register `mie`.
const MIE: u16 = 0x304;

/// The bit of the machine timer interrupt in `mie`.
const MTIE: u32 = 7;

/// Whether the timer interrupt is enabled.
fn timer_is_enabled(hart: &Hart, devices: &Devices) -> bool
    ensures { result ≡ has_bit hart.now.csrs.mie 7 }
{
    match hart.csrs.read(MIE, Mode::M, &devices.inputs()) {
        Ok(enabled) => enabled >> MTIE & 1 == 1,
        Err(_) => unreachable!(),
    }
}

/// Whether an interrupt is pending and enabled.
fn wakes(hart: &Hart, devices: &Devices) -> bool
    ensures { result ≡ wakes_of hart.now devices.now }
{
    hart.csrs.wakes(&devices.inputs())
}

/// The nanosecond at which the timer will wake the hart.
pub(crate) fn deadline(hart: &Hart, devices: &Devices) -> Option<u64>
    ensures later { IfSome result (λ at. nanoseconds devices.now.time ≤ at) }
    ensures bound { IfSome result (λ at. at ≤ last_deadline) }
    ensures value { result ≡ deadline_of hart.now devices.now }
{
    if timer_is_enabled(hart, devices) {
        devices.clint.deadline(devices.time.nanoseconds())
    } else {
        None
    }
}

/// The control and the clock after the window is closed.
#[tactic(auto, unfolding(crate::specs::Close::close))]
pub(crate) fn closed(hart: &Hart, devices: &Devices, control: &Control) -> (Control, Time)
    ensures keeps { Keeps control.now devices.now.time result.0 result.1 }
    ensures closed { record {
      hart = hart.now;
      devices = record devices.now { time = result.1 };
      control = result.0;
    } ≡ close (record { hart = hart.now; devices = devices.now; control = control.now }) }
{
    match control.window {
        Window::Shut => (*control, devices.time),
        Window::Slice { .. } => (shut(control), devices.time),
        Window::Idle { used } => {
            if wakes(hart, devices) {
                (awake(control), devices.time)
            } else if let Some(at) = deadline(hart, devices) {
                (awake(control), skipped(devices.time, at))
            } else if used {
                (shut(control), devices.time)
            } else {
                (*control, devices.time)
            }
        }
    }
}

/// The window is shut.
fn shut(control: &Control) -> Control
    ensures { result ≡ record control.now { window = Window.Shut } }
{
    Control {
        window: Window::Shut,
        ..*control
    }
}

/// The window is shut, and the hart goes on.
fn awake(control: &Control) -> Control
    ensures { result ≡ record control.now { window = Window.Shut; idle = false } }
{
    Control {
        window: Window::Shut,
        idle: false,
        ..*control
    }
}

/// The clock, after the time up to `at` is skipped.
fn skipped(time: Time, at: u64) -> Time
    requires later { nanoseconds time ≤ at }
    requires bound { at ≤ last_deadline }
    ensures { result ≡ skipped_to time at }
{
    let mut after = time;
    after.skip_to(at);
    after
}
