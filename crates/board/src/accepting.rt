//! Events other than INSTRUCTION.

ghost use Rattle.std.specs.Prelude.{◌≡◌, ◌⊎◌, [], Some};
ghost use Rattle.event_log.specs.Spelling.{IsEvent};
ghost use Rattle.board.specs.Accept.{Accepts, Takes, TakesDue, AsksWindow, takes_input as takes_input_of, used, interrupted, ended as ended_of};

use crate::closing::closed;
use crate::control::{Control, Ending, Window};
use crate::due::Due;
use crate::machine::Machine;
use crate::pending::interrupt_at;
use event_log::Event;
use rv_csr::Mode;
use rv_exec::Hart;

/// Why an event wasn't accepted.
#[derive(Clone, Copy, Debug, PartialEq, Eq)]
pub enum AcceptError {
    /// The event is refused, and this is due.
    Wrong(Due),
    NoMemory,
}

/// Whether a window is open in a run that hasn't ended.
fn takes_input(control: &Control) -> bool
    ensures { result ≡ takes_input_of control.now }
{
    if control.ended.is_some() {
        return false;
    }
    match control.window {
        Window::Shut => false,
        _ => true,
    }
}

/// The window had an event.
fn used_window(window: Window) -> Window
    ensures { result ≡ used window }
{
    match window {
        Window::Shut => Window::Shut,
        Window::Slice { .. } => Window::Slice { used: true },
        Window::Idle { .. } => Window::Idle { used: true },
    }
}

/// A checkpoint: the turns since the last one begin anew, and a window opens.
fn at_checkpoint(control: Control, window: Window) -> Control
    ensures { result ≡ record control { since = 0; window = window } }
{
    Control {
        since: 0,
        window,
        ..control
    }
}

/// The run ends.
fn at_end(control: Control, reason: u8, code: u32) -> Control
    ensures { result ≡ record control {
      ended = Some (record { reason = reason; code = code });
    } }
{
    Control {
        ended: Some(Ending { reason, code }),
        ..control
    }
}

/// Enters an interrupt before the instruction at pc.
fn interrupt(hart: &mut Hart, which: u32)
    requires { (which ≡ 3) ⊎ (which ≡ 7) ⊎ (which ≡ 11) }
    ensures { hart.new ≡ interrupted hart.old which }
{
    hart.pc = hart.csrs.enter_interrupt(hart.mode, hart.pc, which);
    hart.mode = Mode::M;
}

impl Machine {
    /// Takes an event other than INSTRUCTION, or answers what is due instead. `base` is the base
    /// image's bytes for a BLOCK whose request is in flight, and empty for every other event.
    #[tactic(auto, unfolding(crate::specs::Accept::accept))]
    pub fn accept(&mut self, e: &Event, base: &[u8]) -> Result<(), AcceptError>
        requires event { IsEvent e.now }
        requires base { base.now ≡ [] }
        ensures { Accepts self.old e.now result self.new }
    {
        let taken = self.take(e);
        if taken.is_ok() {
            self.devices.set_levels();
        }
        taken
    }

    /// The same before the levels are set.
    #[tactic(auto, unfolding(crate::specs::Accept::taken))]
    fn take(&mut self, e: &Event) -> Result<(), AcceptError>
        ensures { Takes self.old e.now result self.new }
    {
        match e {
            Event::CharRead(bytes) => {
                self.ask_window()?;
                if self.devices.uart.receive(bytes.as_slice()).is_err() {
                    return Err(AcceptError::NoMemory);
                }
                self.control.window = used_window(self.control.window);
                Ok(())
            }
            Event::Net(_) => {
                self.ask_window()?;
                self.hart.reservation = None;
                self.control.window = used_window(self.control.window);
                Ok(())
            }
            Event::Block { .. } => Err(AcceptError::Wrong(self.due())),
            Event::End { reason: 3, code } => {
                self.ask_window()?;
                self.end(3, *code);
                Ok(())
            }
            _ => self.take_due(e),
        }
    }

    /// Whether an event may come now, or else what is due instead.
    fn ask_window(&self) -> Result<(), AcceptError>
        ensures { AsksWindow self.now result }
    {
        if takes_input(&self.control) {
            Ok(())
        } else {
            Err(AcceptError::Wrong(self.due()))
        }
    }

    fn end(&mut self, reason: u8, code: u32)
        ensures { self.new ≡ ended_of self.old reason code }
    {
        self.control = at_end(self.control, reason, code);
    }

    /// The event that is due, of the state whose window is closed.
    fn take_due(&mut self, e: &Event) -> Result<(), AcceptError>
        ensures { TakesDue self.old e.now result self.new }
    {
        let due = self.due();
        let (control, time) = closed(&self.hart, &self.devices, &self.control);
        match (due, e) {
            (Due::Exception, Event::Exception) => {
                self.control = Control {
                    trapped: false,
                    ..control
                };
            }
            (Due::Interrupt, Event::Interrupt) => {
                let Some(which) = interrupt_at(&self.hart, &self.devices, &time) else {
                    return Err(AcceptError::Wrong(due));
                };
                interrupt(&mut self.hart, which);
                self.control = control;
            }
            (Due::Idle, Event::Checkpoint { idle: true }) => {
                self.control = at_checkpoint(control, Window::Idle { used: false });
            }
            (Due::Slice, Event::Checkpoint { idle: false }) => {
                self.control = at_checkpoint(control, Window::Slice { used: false });
            }
            (Due::Clock, Event::Clock(value)) => {
                self.control = control;
                self.devices.rtc.give(*value);
            }
            (Due::End { reason: r, code: c }, Event::End { reason, code })
                if r == *reason && c == *code => {
                self.control = at_end(control, r, c);
            }
            _ => return Err(AcceptError::Wrong(due)),
        }
        self.devices.time = time;
        Ok(())
    }
}
