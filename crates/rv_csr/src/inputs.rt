//! What comes to the hart from outside.
ghost use Rattle.std.specs.Prelude.{◌≡◌};
ghost use Rattle.rv_csr.specs.Table.{pending};

use crate::bits::bit_if;
use crate::interrupts::{EXTERNAL, SOFTWARE, TIMER};

/// What comes to the hart from outside.
#[derive(Clone, Copy, PartialEq, Eq, Debug)]
pub struct Inputs {
    /// The level of the machine software interrupt.
    pub msip: bool,
    /// The level of the machine timer interrupt.
    pub mtip: bool,
    /// The level of the machine external interrupt.
    pub meip: bool,
    /// The count of mtime.
    pub time: u64,
}

/// The pending interrupts as bits of mip.
pub fn pending(inputs: &Inputs) -> u32
    ensures { result ≡ pending inputs.now }
{
    bit_if(inputs.msip, SOFTWARE) | bit_if(inputs.mtip, TIMER) | bit_if(inputs.meip, EXTERNAL)
}
