//! Which interrupt is due (Privileged ISA, 3.1.9 Machine Interrupt Registers).
ghost use Rattle.std.specs.Prelude.{◌≡◌};
ghost use Rattle.rv_csr.specs.Traps.{due, chosen, hears, is_wanted, takes_interrupts};

use crate::bits::has_bit;
use crate::csrs::Csrs;
use crate::inputs::Inputs;
use crate::mode::Mode;

// The numbers of the interrupts, which are their bits in mie and mip and their causes (Privileged
// ISA, 3.1.15 Machine Cause Register).
pub const SOFTWARE: u32 = 3;

pub const TIMER: u32 = 7;

pub const EXTERNAL: u32 = 11;

impl Csrs {
    /// The first interrupt that is pending and enabled.
    fn chosen(&self, inputs: &Inputs) -> Option<u32>
        ensures { result ≡ chosen self.now inputs.now }
    {
        if inputs.meip && has_bit(self.mie, EXTERNAL) {
            Some(EXTERNAL)
        } else if inputs.msip && has_bit(self.mie, SOFTWARE) {
            Some(SOFTWARE)
        } else if inputs.mtip && has_bit(self.mie, TIMER) {
            Some(TIMER)
        } else {
            None
        }
    }

    /// Whether an interrupt is enabled that would be taken in this mode.
    #[inline(always)]
    pub fn hears(&self, mode: Mode) -> bool
        ensures { result ≡ hears self.now mode }
    {
        self.mie != 0
            && match mode {
                Mode::U => true,
                Mode::M => self.status.mie,
            }
    }

    /// The interrupt that is to be entered before the next instruction.
    pub fn due_interrupt(&self, mode: Mode, inputs: &Inputs) -> Option<u32>
        ensures { result ≡ due self.now mode inputs.now }
    {
        let takes = match mode {
            Mode::U => true,
            Mode::M => self.status.mie,
        };
        if takes { self.chosen(inputs) } else { None }
    }

    /// Whether an interrupt is pending and enabled, which ends a wait.
    pub fn wakes(&self, inputs: &Inputs) -> bool
        ensures { result ≡ is_wanted self.now inputs.now }
    {
        (inputs.meip && has_bit(self.mie, EXTERNAL))
            || (inputs.msip && has_bit(self.mie, SOFTWARE))
            || (inputs.mtip && has_bit(self.mie, TIMER))
    }
}
