//! Writing a control register by its number.
ghost use Rattle.std.specs.Prelude.{◌≡◌};
ghost use Rattle.rv_csr.specs.Table.{write_of, written, WritesTo};

use crate::access::{Illegal, is_read_only, mode_may};
use crate::bits::{with_high_half, with_low_half};
use crate::csrs::Csrs;
use crate::mode::Mode;
use crate::register::Register;

// The bits that a register keeps of a word that is written to it.
const MIE_BITS: u32 = 0x888;

const MTVEC_BITS: u32 = 0xffff_fffd;

const MCOUNTEREN_BITS: u32 = 7;

const MEPC_BITS: u32 = 0xffff_fffc;

impl Csrs {
    /// Puts a word into a register.
    fn put(&mut self, register: Register, value: u32)
        ensures { self.new ≡ written self.old value register }
    {
        match register {
            Register::Mstatus => self.status.write(value),
            Register::Mie => self.mie = value & MIE_BITS,
            Register::Mtvec => self.mtvec = value & MTVEC_BITS,
            Register::Mcounteren => self.mcounteren = value & MCOUNTEREN_BITS,
            Register::Mscratch => self.mscratch = value,
            Register::Mepc => self.mepc = value & MEPC_BITS,
            Register::Mcause => self.mcause = value,
            Register::Mtval => self.mtval = value,
            Register::Mcycle => {
                self.cycle = with_low_half(self.cycle, value);
                self.cycle_written = true;
            }
            Register::Mcycleh => {
                self.cycle = with_high_half(self.cycle, value);
                self.cycle_written = true;
            }
            Register::Minstret => {
                self.instret = with_low_half(self.instret, value);
                self.instret_written = true;
            }
            Register::Minstreth => {
                self.instret = with_high_half(self.instret, value);
                self.instret_written = true;
            }
            _ => {}
        }
    }

    /// Writes the register with this number.
    pub fn write(&mut self, at: u16, mode: Mode, value: u32) -> Result<(), Illegal>
        ensures { WritesTo (write_of self.old at mode value) self.old result self.new }
    {
        let register = Register::numbered(at).ok_or(Illegal)?;
        if mode_may(at, mode) && !is_read_only(at) {
            self.put(register, value);
            Ok(())
        } else {
            Err(Illegal)
        }
    }
}
