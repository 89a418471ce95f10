//! Reading a control register by its number.
ghost use Rattle.std.specs.Prelude.{◌≡◌, false, ok_or};
ghost use Rattle.rv_csr.specs.Control.{Control};
ghost use Rattle.rv_csr.specs.Table.{counter_may, read_of, shown};
ghost use Rattle.rv_csr.specs.declared.inputs.Inputs.{Inputs as SomeInputs};
ghost use Rattle.rv_csr.specs.declared.mode.Mode.{Mode as SomeMode};

use crate::access::{Illegal, mode_may};
use crate::bits::{has_bit, high_half, low_half};
use crate::csrs::Csrs;
use crate::inputs::{Inputs, pending};
use crate::mode::Mode;
use crate::register::Register;

// RV32 with A, I, M and U (Privileged ISA, 3.1.1 Machine ISA Register).
const ISA: u32 = 0x4010_1101;

// The bits of mcounteren.
const CYCLE: u32 = 0;

const TIME: u32 = 1;

const INSTRET: u32 = 2;

impl Csrs {
    /// Whether U may read this counter.
    fn counter_may(&self, register: Register, mode: Mode) -> bool
        ensures { result ≡ counter_may self.now register mode }
    {
        match mode {
            Mode::M => true,
            Mode::U => match register {
                Register::Cycle | Register::Cycleh => has_bit(self.mcounteren, CYCLE),
                Register::Time | Register::Timeh => has_bit(self.mcounteren, TIME),
                Register::Instret | Register::Instreth => has_bit(self.mcounteren, INSTRET),
                _ => true,
            },
        }
    }

    /// What a register shows.
    fn shown(&self, register: Register, inputs: &Inputs) -> u32
        ensures { result ≡ shown self.now inputs.now register }
    {
        match register {
            Register::Mstatus => self.status.word(),
            Register::Misa => ISA,
            Register::Mie => self.mie,
            Register::Mtvec => self.mtvec,
            Register::Mcounteren => self.mcounteren,
            Register::Mscratch => self.mscratch,
            Register::Mepc => self.mepc,
            Register::Mcause => self.mcause,
            Register::Mtval => self.mtval,
            Register::Mip => pending(inputs),
            Register::Mcycle | Register::Cycle => low_half(self.cycle),
            Register::Mcycleh | Register::Cycleh => high_half(self.cycle),
            Register::Minstret | Register::Instret => low_half(self.instret),
            Register::Minstreth | Register::Instreth => high_half(self.instret),
            Register::Time => low_half(inputs.time),
            Register::Timeh => high_half(inputs.time),
            Register::Identity => 0,
        }
    }

    /// Reads the register with this number.
    pub fn read(&self, at: u16, mode: Mode, inputs: &Inputs) -> Result<u32, Illegal>
        ensures { result ≡ ok_or (read_of self.now at mode inputs.now) record {} }
    {
        let register = Register::numbered(at).ok_or(Illegal)?;
        if mode_may(at, mode) && self.counter_may(register, mode) {
            Ok(self.shown(register, inputs))
        } else {
            Err(Illegal)
        }
    }
}

/// Whether what is read at a number can depend on what comes from outside: mip, time and timeh.
pub fn reads_inputs(at: u16) -> bool
    ensures { result ≡ false → (c : Control) (mode : SomeMode) (i j : SomeInputs)
        → read_of c at mode i ≡ read_of c at mode j }
{
    match at {
        0x344 | 0xc01 | 0xc81 => true,
        _ => false,
    }
}
