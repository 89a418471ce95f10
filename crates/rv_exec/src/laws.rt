//! What an instruction asks of the bus, known before it runs.
ghost use Rattle.std.specs.Prelude.{◌≡◌};
ghost use Rattle.rv_decode.specs.Fields.{IsWithin};
ghost use Rattle.rv_exec.specs.Rows.{load_of};

use crate::hart::Hart;
use rv_decode::{Ins, Op};

/// The address and the size of a load, where the instruction is one.
pub fn load_of(h: &Hart, ins: Ins) -> Option<(u32, u32)>
    requires { IsWithin ins }
    ensures { result ≡ load_of h.now ins ins.op }
{
    let at = h.x.get(ins.rs1).wrapping_add(ins.imm.cast_unsigned());
    match ins.op {
        Op::Lb | Op::Lbu => Some((at, 1)),
        Op::Lh | Op::Lhu => Some((at, 2)),
        Op::Lw => Some((at, 4)),
        _ => None,
    }
}
