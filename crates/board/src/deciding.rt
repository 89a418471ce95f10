//! What is due, row by row.

ghost use Rattle.std.specs.Prelude.{◌≡◌, false};
ghost use Rattle.board.specs.Due.{due_by as due_by_of, is_idle_window as is_idle_window_of};
ghost use Rattle.board.specs.Runs.{is_run};
ghost use Rattle.board.specs.Bounds.{IsDue};

use crate::control::{Control, Window};
use crate::due::Due;

/// Whether a turn is due, as far as the marks, the counts and the interrupts say.
#[inline(always)]
pub(crate) fn is_clear(control: &Control, count: u64, code: Option<u32>, interrupt: bool) -> bool
    ensures { result ≡ is_run (due_by_of control.now count code false interrupt false) }
{
    control.ended.is_none()
        && !control.trapped
        && code.is_none()
        && count != control.budget
        && !is_idle_window(control.window)
        && !control.idle
        && control.since != control.slice
        && !interrupt
}

#[inline(always)]
fn is_idle_window(window: Window) -> bool
    ensures { result ≡ is_idle_window_of window }
{
    match window {
        Window::Idle { .. } => true,
        _ => false,
    }
}

/// What is due where the window is closed: the first row that holds.
pub(crate) fn due_by(
    control: &Control,
    count: u64,
    code: Option<u32>,
    in_flight: bool,
    interrupt: bool,
    clock: bool,
) -> Due
    ensures due { result ≡ due_by_of control.now count code in_flight interrupt clock }
    ensures kind { IsDue control.now in_flight result }
{
    if control.ended.is_some() {
        return Due::Nothing;
    }
    if control.trapped {
        return Due::Exception;
    }
    if let Some(code) = code {
        return Due::End { reason: 0, code };
    }
    if count == control.budget {
        return Due::End { reason: 2, code: 0 };
    }
    if let Window::Idle { .. } = control.window {
        return if in_flight {
            Due::Wait
        } else {
            Due::End { reason: 1, code: 0 }
        };
    }
    if control.idle {
        Due::Idle
    } else if control.since == control.slice {
        Due::Slice
    } else if interrupt {
        Due::Interrupt
    } else if clock {
        Due::Clock
    } else {
        Due::Run
    }
}
