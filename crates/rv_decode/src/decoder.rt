//! Words to instructions: the map of opcodes.
ghost use Rattle.std.specs.Prelude.{◌≡◌, ◌≤◌, IfSome, filter, length};
ghost use Rattle.rv_decode.specs.Table.{table, fits};
ghost use Rattle.rv_decode.specs.Fields.{IsWithin, decoded};

use crate::fields::{field, instruction};
use crate::format::Format;
use crate::ins::Ins;
use crate::op::Op;
use crate::opcodes::{
    amo, branch, csr, csr_immediate, immediate, jalr, load, misc_mem, op, privileged, shift, store,
};

// The opcodes (Unprivileged ISA, chapter 24 RV32/64G Instruction Set Listings), under OPCODE.
const OPCODE: u32 = 0x7f;

const LOAD: u32 = 0x03;

const MISC_MEM: u32 = 0x0f;

const OP_IMM: u32 = 0x13;

const AUIPC: u32 = 0x17;

const STORE: u32 = 0x23;

const AMO: u32 = 0x2f;

const OP: u32 = 0x33;

const LUI: u32 = 0x37;

const BRANCH: u32 = 0x63;

const JALR: u32 = 0x67;

const JAL: u32 = 0x6f;

const SYSTEM: u32 = 0x73;

/// The instruction that a word is, or none where it is none of the 68.
#[tactic(auto, using(crate::proofs::OneRow::one_row))]
pub fn decode(w: u32) -> Option<Ins>
    ensures instruction { result ≡ decoded w }
    ensures registers { IfSome result IsWithin }

    // The table gives a word one meaning.
    ensures one_row { length (filter (fits w) table) ≤ 1 }
{
    by_opcode(w)
}

/// The map of opcodes.
#[inline(always)]
fn by_opcode(w: u32) -> Option<Ins>
    ensures instruction { result ≡ decoded w }
    ensures registers { IfSome result IsWithin }
{
    let funct3 = field(w, 12, 3);
    match w & OPCODE {
        LUI => instruction(Some(Op::Lui), Format::U, w),
        AUIPC => instruction(Some(Op::Auipc), Format::U, w),
        JAL => instruction(Some(Op::Jal), Format::J, w),
        JALR => instruction(jalr(funct3), Format::I, w),
        BRANCH => instruction(branch(funct3), Format::B, w),
        LOAD => instruction(load(funct3), Format::I, w),
        STORE => instruction(store(funct3), Format::S, w),
        OP => instruction(op(field(w, 25, 7), funct3), Format::R, w),
        // The shifts have funct3 1 and 5.
        OP_IMM if funct3 % 4 == 1 => {
            instruction(shift(field(w, 25, 7), funct3), Format::Shift, w)
        }
        OP_IMM => instruction(immediate(funct3), Format::I, w),
        MISC_MEM => instruction(misc_mem(funct3), Format::Plain, w),
        SYSTEM if funct3 == 0 => instruction(privileged(w), Format::Plain, w),
        // Zicsr has registers with funct3 1 to 3, and immediates with 5 to 7.
        SYSTEM if funct3 < 4 => instruction(csr(funct3), Format::Csr, w),
        SYSTEM => instruction(csr_immediate(funct3), Format::CsrImmediate, w),
        AMO => instruction(amo(field(w, 27, 5), field(w, 20, 5), funct3), Format::R, w),
        _ => None,
    }
}
