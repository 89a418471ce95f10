//! What each instruction does.
ghost use Rattle.std.specs.Prelude.{◌*◌, ◌^◌, ◌≡◌, ◌≢◌, ◌<◌, ◌%◌, ◌==◌, ◌||◌, IsTrue};
ghost use Rattle.rv_decode.specs.Fields.{IsWithin};
ghost use Rattle.rv_exec.specs.Rows.{meaning, Reaches, Refuses, store_of, wants_memory, load_of, is_need_clock, needs_clock, given, stepped};
ghost use Rattle.rv_exec.specs.Laws.{UnlessRetired};

use crate::accesses::{Extend, load, store};
use crate::arithmetic::{
    is_less_signed, product_high, product_high_mixed, product_high_unsigned, quotient,
    quotient_unsigned, remainder, remainder_unsigned, shift_right_signed, without_bit_zero,
};
use crate::atomics::{load_reserved, modify, store_conditional};
use crate::bus::Bus;
use crate::done::Done;
use crate::hart::Hart;
use crate::jumps::{branch, jump, retire, step};
use crate::system::{Change, call, exchange, return_from_trap, wait};
use crate::traps::{BREAKPOINT, trap};
use rv_decode::{Ins, Op};

/// Executes one instruction, which is the one that `word` means. The word plays a part only as the
/// value of a trap.
#[inline(always)]
pub fn execute<B: Bus>(h: &mut Hart, bus: &mut B, ins: Ins, word: u32) -> Done
    requires { IsWithin ins }
    ensures meaning { result ≢ Done.NoMemory →
        Reaches (meaning B.answers h.old bus.old ins word) result h.new bus.new }
    ensures memory { result ≡ Done.NoMemory →
        Refuses (meaning B.answers h.old bus.old ins word) h.old bus.old h.new bus.new }
    ensures wants { result ≡ Done.NoMemory →
        IsTrue (wants_memory B.answers bus.old (store_of h.old ins ins.op)) }

    // What doesn't retire changes nothing, and only a load may need the clock.
    ensures unchanged { UnlessRetired result ((h.new ≡ h.old) × (bus.new ≡ bus.old)) }
    ensures clock { is_need_clock result
        ≡ needs_clock B.answers bus.old (load_of h.old ins ins.op) }
{
    perform(h, bus, ins, word)
}

/// The row of the instruction.
#[inline(always)]
fn perform<B: Bus>(h: &mut Hart, bus: &mut B, ins: Ins, word: u32) -> Done
    requires { IsWithin ins }
    ensures meaning { result ≢ Done.NoMemory →
        Reaches (meaning B.answers h.old bus.old ins word) result h.new bus.new }
    ensures memory { result ≡ Done.NoMemory →
        Refuses (meaning B.answers h.old bus.old ins word) h.old bus.old h.new bus.new }
    ensures wants { result ≡ Done.NoMemory →
        IsTrue (wants_memory B.answers bus.old (store_of h.old ins ins.op)) }
{
    let a = h.x.get(ins.rs1);
    let b = h.x.get(ins.rs2);
    let imm = ins.imm.cast_unsigned();
    let at = a.wrapping_add(imm);
    let target = h.pc.wrapping_add(imm);
    match ins.op {
        Op::Lui => retire(h, ins.rd, imm),
        Op::Auipc => retire(h, ins.rd, target),
        Op::Jal => jump(h, ins.rd, target),
        Op::Jalr => jump(h, ins.rd, without_bit_zero(at)),
        Op::Beq => branch(h, a == b, target),
        Op::Bne => branch(h, a != b, target),
        Op::Blt => branch(h, is_less_signed(a, b), target),
        Op::Bge => branch(h, !is_less_signed(a, b), target),
        Op::Bltu => branch(h, a < b, target),
        Op::Bgeu => branch(h, a >= b, target),
        Op::Lb => load(h, bus, ins.rd, at, 1, Extend::Byte),
        Op::Lh => load(h, bus, ins.rd, at, 2, Extend::Half),
        Op::Lw => load(h, bus, ins.rd, at, 4, Extend::Zeros),
        Op::Lbu => load(h, bus, ins.rd, at, 1, Extend::Zeros),
        Op::Lhu => load(h, bus, ins.rd, at, 2, Extend::Zeros),
        Op::Sb => store(h, bus, at, 1, b % 256),
        Op::Sh => store(h, bus, at, 2, b % 65536),
        Op::Sw => store(h, bus, at, 4, b),
        Op::Addi => retire(h, ins.rd, at),
        Op::Slti => retire(h, ins.rd, u32::from(is_less_signed(a, imm))),
        Op::Sltiu => retire(h, ins.rd, u32::from(a < imm)),
        Op::Xori => retire(h, ins.rd, a ^ imm),
        Op::Ori => retire(h, ins.rd, a | imm),
        Op::Andi => retire(h, ins.rd, a & imm),
        Op::Slli => retire(h, ins.rd, a.wrapping_shl(imm)),
        Op::Srli => retire(h, ins.rd, a.wrapping_shr(imm)),
        Op::Srai => retire(h, ins.rd, shift_right_signed(a, imm)),
        Op::Add => retire(h, ins.rd, a.wrapping_add(b)),
        Op::Sub => retire(h, ins.rd, a.wrapping_sub(b)),
        Op::Sll => retire(h, ins.rd, a.wrapping_shl(b)),
        Op::Slt => retire(h, ins.rd, u32::from(is_less_signed(a, b))),
        Op::Sltu => retire(h, ins.rd, u32::from(a < b)),
        Op::Xor => retire(h, ins.rd, a ^ b),
        Op::Srl => retire(h, ins.rd, a.wrapping_shr(b)),
        Op::Sra => retire(h, ins.rd, shift_right_signed(a, b)),
        Op::Or => retire(h, ins.rd, a | b),
        Op::And => retire(h, ins.rd, a & b),
        Op::Mul => retire(h, ins.rd, a.wrapping_mul(b)),
        Op::Mulh => retire(h, ins.rd, product_high(a, b)),
        Op::Mulhsu => retire(h, ins.rd, product_high_mixed(a, b)),
        Op::Mulhu => retire(h, ins.rd, product_high_unsigned(a, b)),
        Op::Div => retire(h, ins.rd, quotient(a, b)),
        Op::Divu => retire(h, ins.rd, quotient_unsigned(a, b)),
        Op::Rem => retire(h, ins.rd, remainder(a, b)),
        Op::Remu => retire(h, ins.rd, remainder_unsigned(a, b)),
        Op::Fence | Op::FenceI => step(h),
        Op::Ecall => call(h),
        Op::Ebreak => trap(BREAKPOINT, h.pc),
        Op::Mret => return_from_trap(h, word),
        Op::Wfi => wait(h, &bus.inputs(), word),
        Op::Csrrw => exchange(h, bus, ins, word, Change::Write, u32::from(ins.rs1), a),
        Op::Csrrs => exchange(h, bus, ins, word, Change::Set, u32::from(ins.rs1), a),
        Op::Csrrc => exchange(h, bus, ins, word, Change::Clear, u32::from(ins.rs1), a),
        Op::Csrrwi => exchange(h, bus, ins, word, Change::Write, imm, imm),
        Op::Csrrsi => exchange(h, bus, ins, word, Change::Set, imm, imm),
        Op::Csrrci => exchange(h, bus, ins, word, Change::Clear, imm, imm),
        Op::LrW => load_reserved(h, bus, ins.rd, a),
        Op::ScW => store_conditional(h, bus, ins.rd, a, b),
        Op::AmoaddW => modify(h, bus, ins.rd, a, Op::AmoaddW, b),
        Op::AmoswapW => modify(h, bus, ins.rd, a, Op::AmoswapW, b),
        Op::AmoxorW => modify(h, bus, ins.rd, a, Op::AmoxorW, b),
        Op::AmoorW => modify(h, bus, ins.rd, a, Op::AmoorW, b),
        Op::AmoandW => modify(h, bus, ins.rd, a, Op::AmoandW, b),
        Op::AmominW => modify(h, bus, ins.rd, a, Op::AmominW, b),
        Op::AmomaxW => modify(h, bus, ins.rd, a, Op::AmomaxW, b),
        Op::AmominuW => modify(h, bus, ins.rd, a, Op::AmominuW, b),
        Op::AmomaxuW => modify(h, bus, ins.rd, a, Op::AmomaxuW, b),
    }
}
