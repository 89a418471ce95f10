//! Rows that change no control register and read none: what a run of turns does mostly.
ghost use Rattle.std.specs.Prelude.{◌*◌, ◌^◌, ◌≡◌, ◌<◌, ◌==◌, ◌||◌, IsTrue, IfSome, Some, true};
ghost use Rattle.rv_decode.specs.Fields.{IsWithin};
ghost use Rattle.rv_exec.specs.declared.hart.Hart.{Hart};
ghost use Rattle.rv_exec.specs.Kinds.{extended};
ghost use Rattle.rv_exec.specs.Plain.{is_plain, at_pc, IsAligned, GoesOn, GoesOnLocal};
ghost use Rattle.rv_exec.specs.Arithmetic.{sum};
ghost use Rattle.rv_exec.specs.Registers.{with_register};
ghost use Rattle.rv_exec.specs.Rows.{meaning, address, loads, stores, jumps, branches, reserves, stores_if_reserved, modifies, combined};

use crate::accesses::{Extend, extended, forget_reservation};
use crate::arithmetic::{
    is_less_signed, product_high, product_high_mixed, product_high_unsigned, quotient,
    quotient_unsigned, remainder, remainder_unsigned, shift_right_signed, without_bit_zero,
};
use crate::atomics::{combined, is_reserved};
use crate::bus::Bus;
use crate::hart::Hart;
use rv_decode::{Ins, Op};

/// The next instruction follows, with a value for a register.
#[inline(always)]
fn give(pc: u32, rd: u8, value: u32, h: &mut Hart) -> Option<u32>
    requires { rd < 32 }
    ensures next { result ≡ Some (sum pc 4) }
    ensures hart { h.new ≡ record h.old { x = with_register h.old.x rd value } }
    ensures aligned { IsAligned pc → IfSome result IsAligned }
{
    h.x.set(rd, value);
    follow(pc)
}

/// The next instruction follows.
#[inline(always)]
fn follow(pc: u32) -> Option<u32>
    ensures next { result ≡ Some (sum pc 4) }
    ensures aligned { IsAligned pc → IfSome result IsAligned }
{
    Some(pc.wrapping_add(4))
}

/// A jump that links the next instruction, where its target is a multiple of 4.
#[inline(always)]
#[tactic(auto, unfolding(crate::specs::Rows::jumps))]
fn link(pc: u32, rd: u8, target: u32, h: &mut Hart) -> Option<u32>
    requires { rd < 32 }
    ensures meaning { GoesOnLocal (jumps (at_pc h.old pc) rd target) h.old result h.new }
    ensures aligned { IfSome result IsAligned }
    ensures csrs { h.new.csrs ≡ h.old.csrs }
    ensures mode { h.new.mode ≡ h.old.mode }
{
    if target % 4 != 0 {
        return None;
    }
    h.x.set(rd, pc.wrapping_add(4));
    Some(target)
}

/// A branch, where it isn't taken to a target that is no multiple of 4.
#[inline(always)]
#[tactic(auto, unfolding(crate::specs::Rows::branches))]
fn go(_h: &Hart, pc: u32, taken: bool, imm: u32) -> Option<u32>
    ensures meaning { GoesOnLocal (branches (at_pc _h.now pc) taken (sum pc imm))
        _h.now result _h.now }
    ensures aligned { IsAligned pc → IfSome result IsAligned }
{
    if !taken {
        return follow(pc);
    }
    let target = pc.wrapping_add(imm);
    if target % 4 != 0 {
        return None;
    }
    Some(target)
}

/// The address of an access.
#[inline(always)]
fn address(h: &Hart, ins: &Ins) -> u32
    requires { IsWithin ins.now }
    ensures { result ≡ address h.now ins.now }
{
    h.x.get(ins.rs1).wrapping_add(ins.imm.cast_unsigned())
}

/// A load, where the bus answers.
#[inline(always)]
#[tactic(auto, unfolding(crate::specs::Rows::loads))]
fn read<B: Bus>(
    pc: u32,
    rd: u8,
    at: u32,
    size: u32,
    extend: Extend,
    h: &mut Hart,
    bus: &mut B,
) -> Option<u32>
    requires rd { rd < 32 }
    requires size { IsTrue ((size == 1) || (size == 2) || (size == 4)) }
    requires byte { extend ≡ Extend.Byte → size ≡ 1 }
    requires half { extend ≡ Extend.Half → size ≡ 2 }
    ensures meaning { GoesOn (loads B.answers (at_pc h.old pc) bus.old rd at size (extended extend))
        h.old bus.old result h.new bus.new }
    ensures aligned { IsAligned pc → IfSome result IsAligned }
    ensures csrs { h.new.csrs ≡ h.old.csrs }
    ensures mode { h.new.mode ≡ h.old.mode }
{
    if at % size != 0 {
        return None;
    }
    let Ok(value) = bus.load(at, size) else {
        return None;
    };
    give(pc, rd, extended(extend, value), h)
}

/// A store, where the bus takes it.
#[inline(always)]
#[tactic(auto, unfolding(crate::specs::Rows::stores))]
fn write<B: Bus>(pc: u32, at: u32, size: u32, value: u32, h: &mut Hart, bus: &mut B) -> Option<u32>
    requires size { IsTrue ((size == 1) || (size == 2) || (size == 4)) }
    requires fits { value < 2 ^ (8 * size) }
    ensures meaning { GoesOn (stores B.answers (at_pc h.old pc) bus.old at size value)
        h.old bus.old result h.new bus.new }
    ensures aligned { IsAligned pc → IfSome result IsAligned }
    ensures csrs { h.new.csrs ≡ h.old.csrs }
    ensures mode { h.new.mode ≡ h.old.mode }
{
    if at % size != 0 || bus.store(at, size, value).is_err() {
        return None;
    }
    forget_reservation(h, at);
    follow(pc)
}

/// LR.W, where the word lies in RAM.
#[inline(never)]
#[tactic(auto, unfolding(crate::specs::Rows::reserves))]
fn reserve<B: Bus>(pc: u32, rd: u8, at: u32, h: &mut Hart, bus: &mut B) -> Option<u32>
    requires { rd < 32 }
    ensures meaning { GoesOn (reserves B.answers (at_pc h.old pc) bus.old rd at)
        h.old bus.old result h.new bus.new }
    ensures aligned { IsAligned pc → IfSome result IsAligned }
    ensures csrs { h.new.csrs ≡ h.old.csrs }
    ensures mode { h.new.mode ≡ h.old.mode }
{
    if at % 4 != 0 || !bus.is_ram(at) {
        return None;
    }
    match bus.load(at, 4) {
        Ok(value) => {
            h.reservation = Some(at);
            give(pc, rd, value, h)
        }
        Err(_) => unreachable!(),
    }
}

/// SC.W, where the word lies in RAM.
#[inline(never)]
#[tactic(auto, unfolding(crate::specs::Rows::stores_if_reserved))]
fn store_reserved<B: Bus>(
    pc: u32,
    rd: u8,
    at: u32,
    value: u32,
    h: &mut Hart,
    bus: &mut B,
) -> Option<u32>
    requires { rd < 32 }
    ensures meaning { GoesOn (stores_if_reserved B.answers (at_pc h.old pc) bus.old rd at value)
        h.old bus.old result h.new bus.new }
    ensures aligned { IsAligned pc → IfSome result IsAligned }
    ensures csrs { h.new.csrs ≡ h.old.csrs }
    ensures mode { h.new.mode ≡ h.old.mode }
{
    if at % 4 != 0 || !bus.is_ram(at) {
        return None;
    }
    if !is_reserved(h, at) {
        h.reservation = None;
        return give(pc, rd, 1, h);
    }
    if bus.store(at, 4, value).is_err() {
        return None;
    }
    h.reservation = None;
    give(pc, rd, 0, h)
}

/// An atomic row, where the word lies in RAM.
#[inline(never)]
#[tactic(auto, unfolding(crate::specs::Rows::modifies))]
fn swap<B: Bus>(pc: u32, rd: u8, at: u32, op: Op, b: u32, h: &mut Hart, bus: &mut B) -> Option<u32>
    requires { rd < 32 }
    ensures meaning { GoesOn
        (modifies B.answers (at_pc h.old pc) bus.old rd at (λ old. combined op old b))
        h.old bus.old result h.new bus.new }
    ensures aligned { IsAligned pc → IfSome result IsAligned }
    ensures csrs { h.new.csrs ≡ h.old.csrs }
    ensures mode { h.new.mode ≡ h.old.mode }
{
    if at % 4 != 0 || !bus.is_ram(at) {
        return None;
    }
    let Ok(old) = bus.load(at, 4) else {
        unreachable!()
    };
    if bus.store(at, 4, combined(op, old, b)).is_err() {
        return None;
    }
    forget_reservation(h, at);
    give(pc, rd, old, h)
}

/// Executes an instruction at an address whose row is plain, and answers where the next one stands.
/// None where it isn't plain, or doesn't retire: then nothing changed. The hart's own pc plays no
/// part and stays, so that a loop holds the address in a processor's register, and each row reads
/// the registers that it needs. The atomic rows aren't inlined, so that such a loop stays small.
#[inline(always)]
pub fn execute_plain<B: Bus>(
    h: &mut Hart,
    pc: u32,
    bus: &mut B,
    ins: Ins,
    _word: u32,
) -> Option<u32>
    requires { IsWithin ins }
    ensures plain { IfSome result (λ next. is_plain ins.op ≡ true) }
    ensures meaning { GoesOn (meaning B.answers (at_pc h.old pc) bus.old ins _word)
        h.old bus.old result h.new bus.new }
    ensures aligned { IsAligned pc → IfSome result IsAligned }
    ensures csrs { h.new.csrs ≡ h.old.csrs }
    ensures mode { h.new.mode ≡ h.old.mode }
{
    let rd = ins.rd;
    let rs1 = ins.rs1;
    let rs2 = ins.rs2;
    let imm = ins.imm.cast_unsigned();
    match ins.op {
        Op::Lui => give(pc, rd, imm, h),
        Op::Auipc => give(pc, rd, pc.wrapping_add(imm), h),
        Op::Jal => link(pc, rd, pc.wrapping_add(imm), h),
        Op::Jalr => link(pc, rd, without_bit_zero(address(h, &ins)), h),
        Op::Beq => go(h, pc, h.x.get(rs1) == h.x.get(rs2), imm),
        Op::Bne => go(h, pc, h.x.get(rs1) != h.x.get(rs2), imm),
        Op::Blt => go(h, pc, is_less_signed(h.x.get(rs1), h.x.get(rs2)), imm),
        Op::Bge => go(h, pc, !is_less_signed(h.x.get(rs1), h.x.get(rs2)), imm),
        Op::Bltu => go(h, pc, h.x.get(rs1) < h.x.get(rs2), imm),
        Op::Bgeu => go(h, pc, h.x.get(rs1) >= h.x.get(rs2), imm),
        Op::Lb => read(pc, rd, address(h, &ins), 1, Extend::Byte, h, bus),
        Op::Lh => read(pc, rd, address(h, &ins), 2, Extend::Half, h, bus),
        Op::Lw => read(pc, rd, address(h, &ins), 4, Extend::Zeros, h, bus),
        Op::Lbu => read(pc, rd, address(h, &ins), 1, Extend::Zeros, h, bus),
        Op::Lhu => read(pc, rd, address(h, &ins), 2, Extend::Zeros, h, bus),
        Op::Sb => write(pc, address(h, &ins), 1, h.x.get(rs2) % 256, h, bus),
        Op::Sh => write(pc, address(h, &ins), 2, h.x.get(rs2) % 65536, h, bus),
        Op::Sw => write(pc, address(h, &ins), 4, h.x.get(rs2), h, bus),
        Op::Addi => give(pc, rd, address(h, &ins), h),
        Op::Slti => give(pc, rd, u32::from(is_less_signed(h.x.get(rs1), imm)), h),
        Op::Sltiu => give(pc, rd, u32::from(h.x.get(rs1) < imm), h),
        Op::Xori => give(pc, rd, h.x.get(rs1) ^ imm, h),
        Op::Ori => give(pc, rd, h.x.get(rs1) | imm, h),
        Op::Andi => give(pc, rd, h.x.get(rs1) & imm, h),
        Op::Slli => give(pc, rd, h.x.get(rs1).wrapping_shl(imm), h),
        Op::Srli => give(pc, rd, h.x.get(rs1).wrapping_shr(imm), h),
        Op::Srai => give(pc, rd, shift_right_signed(h.x.get(rs1), imm), h),
        Op::Add => give(pc, rd, h.x.get(rs1).wrapping_add(h.x.get(rs2)), h),
        Op::Sub => give(pc, rd, h.x.get(rs1).wrapping_sub(h.x.get(rs2)), h),
        Op::Sll => give(pc, rd, h.x.get(rs1).wrapping_shl(h.x.get(rs2)), h),
        Op::Slt => give(
            pc,
            rd,
            u32::from(is_less_signed(h.x.get(rs1), h.x.get(rs2))),
            h,
        ),
        Op::Sltu => give(pc, rd, u32::from(h.x.get(rs1) < h.x.get(rs2)), h),
        Op::Xor => give(pc, rd, h.x.get(rs1) ^ h.x.get(rs2), h),
        Op::Srl => give(pc, rd, h.x.get(rs1).wrapping_shr(h.x.get(rs2)), h),
        Op::Sra => give(pc, rd, shift_right_signed(h.x.get(rs1), h.x.get(rs2)), h),
        Op::Or => give(pc, rd, h.x.get(rs1) | h.x.get(rs2), h),
        Op::And => give(pc, rd, h.x.get(rs1) & h.x.get(rs2), h),
        Op::Mul => give(pc, rd, h.x.get(rs1).wrapping_mul(h.x.get(rs2)), h),
        Op::Mulh => give(pc, rd, product_high(h.x.get(rs1), h.x.get(rs2)), h),
        Op::Mulhsu => give(pc, rd, product_high_mixed(h.x.get(rs1), h.x.get(rs2)), h),
        Op::Mulhu => give(pc, rd, product_high_unsigned(h.x.get(rs1), h.x.get(rs2)), h),
        Op::Div => give(pc, rd, quotient(h.x.get(rs1), h.x.get(rs2)), h),
        Op::Divu => give(pc, rd, quotient_unsigned(h.x.get(rs1), h.x.get(rs2)), h),
        Op::Rem => give(pc, rd, remainder(h.x.get(rs1), h.x.get(rs2)), h),
        Op::Remu => give(pc, rd, remainder_unsigned(h.x.get(rs1), h.x.get(rs2)), h),
        Op::Fence | Op::FenceI => follow(pc),
        Op::LrW => reserve(pc, rd, h.x.get(rs1), h, bus),
        Op::ScW => store_reserved(pc, rd, h.x.get(rs1), h.x.get(rs2), h, bus),
        Op::AmoaddW => swap(pc, rd, h.x.get(rs1), Op::AmoaddW, h.x.get(rs2), h, bus),
        Op::AmoswapW => swap(pc, rd, h.x.get(rs1), Op::AmoswapW, h.x.get(rs2), h, bus),
        Op::AmoxorW => swap(pc, rd, h.x.get(rs1), Op::AmoxorW, h.x.get(rs2), h, bus),
        Op::AmoorW => swap(pc, rd, h.x.get(rs1), Op::AmoorW, h.x.get(rs2), h, bus),
        Op::AmoandW => swap(pc, rd, h.x.get(rs1), Op::AmoandW, h.x.get(rs2), h, bus),
        Op::AmominW => swap(pc, rd, h.x.get(rs1), Op::AmominW, h.x.get(rs2), h, bus),
        Op::AmomaxW => swap(pc, rd, h.x.get(rs1), Op::AmomaxW, h.x.get(rs2), h, bus),
        Op::AmominuW => swap(pc, rd, h.x.get(rs1), Op::AmominuW, h.x.get(rs2), h, bus),
        Op::AmomaxuW => swap(pc, rd, h.x.get(rs1), Op::AmomaxuW, h.x.get(rs2), h, bus),
        _ => None,
    }
}
