//! Entering a trap and returning from it (Privileged ISA, 3.1.6.1 and 3.3.2 Trap-Return
//! Instructions).
ghost use Rattle.std.specs.Prelude.{◌≡◌, ◌+◌, ◌^◌, ◌⊎◌};
ghost use Rattle.rv_csr.specs.Traps.{trapped, base, interrupt_pc, returned};

use crate::bits::has_bit;
use crate::csrs::Csrs;
use crate::mode::Mode;

// The bits of mepc and of the base in mtvec: addresses of instructions are multiples of 4.
const ALIGNED: u32 = 0xffff_fffc;

// The bit of mtvec that gives each interrupt a place of its own.
const VECTORED: u32 = 0;

// The bit of mcause that tells an interrupt from a trap.
const INTERRUPT: u32 = 0x8000_0000;

impl Csrs {
    /// Enters a trap of the instruction at `pc`, and answers where the trap goes.
    pub fn enter_trap(&mut self, mode: Mode, pc: u32, cause: u32, value: u32) -> u32
        ensures registers { self.new ≡ trapped self.old mode pc cause value }
        ensures pc { result ≡ base self.old }
    {
        self.status.mpie = self.status.mie;
        self.status.mpp = mode;
        self.status.mie = false;
        self.mepc = pc & ALIGNED;
        self.mcause = cause;
        self.mtval = value;
        self.mtvec & ALIGNED
    }

    /// Enters an interrupt before the instruction at `pc`, and answers where it goes.
    pub fn enter_interrupt(&mut self, mode: Mode, pc: u32, which: u32) -> u32
        requires { (which ≡ 3) ⊎ (which ≡ 7) ⊎ (which ≡ 11) }
        ensures registers { self.new ≡ trapped self.old mode pc (2 ^ 31 + which) 0 }
        ensures pc { result ≡ interrupt_pc self.old which }
    {
        let vectored = has_bit(self.mtvec, VECTORED);
        let base = self.enter_trap(mode, pc, INTERRUPT + which, 0);
        if vectored {
            base.wrapping_add(4 * which)
        } else {
            base
        }
    }

    /// Returns from a trap: where to, and the mode there.
    pub fn mret(&mut self) -> (u32, Mode)
        ensures registers { self.new ≡ returned self.old }
        ensures pc { result.0 ≡ self.old.mepc }
        ensures mode { result.1 ≡ self.old.status.mpp }
    {
        let mode = self.status.mpp;
        self.status.mie = self.status.mpie;
        self.status.mpie = true;
        self.status.mpp = Mode::U;
        self.status.mprv = match mode {
            Mode::M => self.status.mprv,
            Mode::U => false,
        };
        (self.mepc, mode)
    }
}
