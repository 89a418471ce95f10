//! The control registers of a hart.
ghost use Rattle.std.specs.Prelude.{◌≡◌};
ghost use Rattle.rv_csr.specs.Control.{reset};

use crate::mode::Mode;
use crate::status::Status;
use std::marker::Model;

/// All control registers of the hart.
#[derive(Clone, Copy, Debug)]
pub struct Csrs {
    pub(crate) status: Status,
    pub(crate) mie: u32,
    pub(crate) mtvec: u32,
    pub(crate) mcounteren: u32,
    pub(crate) mscratch: u32,
    pub(crate) mepc: u32,
    pub(crate) mcause: u32,
    pub(crate) mtval: u32,
    pub(crate) cycle: u64,
    pub(crate) instret: u64,
    pub(crate) cycle_written: bool,
    pub(crate) instret_written: bool,
}

impl Model for Csrs {
    ghost use Rattle.rv_csr.specs.Control.{Control};
    ghost use Rattle.rv_csr.specs.Fields.{shown_status, inner_status};

    ghost Value = { Control };

    ghost view = { λ c. record {
      status = shown_status c.status;
      mie = c.mie;
      mtvec = c.mtvec;
      mcounteren = c.mcounteren;
      mscratch = c.mscratch;
      mepc = c.mepc;
      mcause = c.mcause;
      mtval = c.mtval;
      cycle = c.cycle;
      instret = c.instret;
      cycle_written = c.cycle_written;
      instret_written = c.instret_written;
    } };

    ghost inverse = { λ c. record {
      status = inner_status c.status;
      mie = c.mie;
      mtvec = c.mtvec;
      mcounteren = c.mcounteren;
      mscratch = c.mscratch;
      mepc = c.mepc;
      mcause = c.mcause;
      mtval = c.mtval;
      cycle = c.cycle;
      instret = c.instret;
      cycle_written = c.cycle_written;
      instret_written = c.instret_written;
    } };
}

impl Csrs {
    /// The registers at reset.
    pub fn new() -> Csrs
        ensures { result ≡ reset }
    {
        Csrs {
            status: Status {
                mie: false,
                mpie: false,
                mpp: Mode::U,
                mprv: false,
                tw: false,
            },
            mie: 0,
            mtvec: 0,
            mcounteren: 0,
            mscratch: 0,
            mepc: 0,
            mcause: 0,
            mtval: 0,
            cycle: 0,
            instret: 0,
            cycle_written: false,
            instret_written: false,
        }
    }
}
