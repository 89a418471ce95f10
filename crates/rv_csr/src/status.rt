//! The register mstatus.
ghost use Rattle.std.specs.Prelude.{◌≡◌};
ghost use Rattle.rv_csr.specs.Control.{status_word};
ghost use Rattle.rv_csr.specs.Fields.{shown_status};
ghost use Rattle.rv_csr.specs.Table.{status_of};

use crate::bits::{bit_if, has_bit};
use crate::mode::Mode;

// The places of the fields.
const MIE: u32 = 3;

const MPIE: u32 = 7;

const MPP: u32 = 11;

const MPRV: u32 = 17;

const TW: u32 = 21;

/// The fields of mstatus.
#[derive(Clone, Copy, PartialEq, Eq, Debug)]
pub struct Status {
    pub mie: bool,
    pub mpie: bool,
    pub mpp: Mode,
    pub mprv: bool,
    pub tw: bool,
}

impl Status {
    /// The fields at their places, and 0 elsewhere.
    pub fn word(&self) -> u32
        ensures { result ≡ status_word (shown_status self.now) }
    {
        let mpp = match self.mpp {
            Mode::U => 0,
            Mode::M => 3 << MPP,
        };
        bit_if(self.mie, MIE)
            | bit_if(self.mpie, MPIE)
            | mpp
            | bit_if(self.mprv, MPRV)
            | bit_if(self.tw, TW)
    }

    /// The fields of a word that is written. A mode that isn't there keeps the old one.
    pub fn write(&mut self, word: u32)
        ensures { shown_status self.new ≡ status_of word (shown_status self.old) }
    {
        self.mie = has_bit(word, MIE);
        self.mpie = has_bit(word, MPIE);
        match word >> MPP & 3 {
            0 => self.mpp = Mode::U,
            3 => self.mpp = Mode::M,
            _ => {}
        }
        self.mprv = has_bit(word, MPRV);
        self.tw = has_bit(word, TW);
    }
}
