//! The operations of each opcode, by the fields that tell them apart.
ghost use Rattle.std.specs.Prelude.{◌≡◌, ◌<◌, ◌≤◌, ◌≢◌, ◌+◌, ◌*◌, ◌^◌};
ghost use Rattle.std.specs.Option.{option_or};
ghost use Rattle.rv_decode.specs.declared.format.Format.TheVariants.{R, I, S, B, Shift, Csr, CsrImmediate, Plain};
ghost use Rattle.rv_decode.specs.Table.{funct3_rows, funct7_rows, whole_rows, reserve_rows, atomic_rows};
ghost use Rattle.rv_decode.specs.Keys.{keyed, of_format};

use crate::op::Op;

/// JALR.
#[inline(always)]
pub fn jalr(funct3: u32) -> Option<Op>
    requires { funct3 < 8 }
    ensures { of_format I result ≡ keyed funct3_rows (funct3 * 2 ^ 12 + 0x67) }
{
    match funct3 {
        0 => Some(Op::Jalr),
        _ => None,
    }
}

/// BRANCH.
#[inline(always)]
pub fn branch(funct3: u32) -> Option<Op>
    requires { funct3 < 8 }
    ensures { of_format B result ≡ keyed funct3_rows (funct3 * 2 ^ 12 + 0x63) }
{
    match funct3 {
        0 => Some(Op::Beq),
        1 => Some(Op::Bne),
        4 => Some(Op::Blt),
        5 => Some(Op::Bge),
        6 => Some(Op::Bltu),
        7 => Some(Op::Bgeu),
        _ => None,
    }
}

/// LOAD.
#[inline(always)]
pub fn load(funct3: u32) -> Option<Op>
    requires { funct3 < 8 }
    ensures { of_format I result ≡ keyed funct3_rows (funct3 * 2 ^ 12 + 0x3) }
{
    match funct3 {
        0 => Some(Op::Lb),
        1 => Some(Op::Lh),
        2 => Some(Op::Lw),
        4 => Some(Op::Lbu),
        5 => Some(Op::Lhu),
        _ => None,
    }
}

/// STORE.
#[inline(always)]
pub fn store(funct3: u32) -> Option<Op>
    requires { funct3 < 8 }
    ensures { of_format S result ≡ keyed funct3_rows (funct3 * 2 ^ 12 + 0x23) }
{
    match funct3 {
        0 => Some(Op::Sb),
        1 => Some(Op::Sh),
        2 => Some(Op::Sw),
        _ => None,
    }
}

/// OP-IMM, but for the shifts.
#[inline(always)]
pub fn immediate(funct3: u32) -> Option<Op>
    requires { funct3 < 8 }
    ensures { of_format I result ≡ keyed funct3_rows (funct3 * 2 ^ 12 + 0x13) }
{
    match funct3 {
        0 => Some(Op::Addi),
        2 => Some(Op::Slti),
        3 => Some(Op::Sltiu),
        4 => Some(Op::Xori),
        6 => Some(Op::Ori),
        7 => Some(Op::Andi),
        _ => None,
    }
}

/// The shifts of OP-IMM.
#[inline(always)]
pub fn shift(funct7: u32, funct3: u32) -> Option<Op>
    requires funct7 { funct7 < 128 }
    requires funct3 { funct3 < 8 }
    ensures { let low = funct3 * 2 ^ 12 + 0x13 in
        of_format Shift result ≡ keyed funct7_rows (funct7 * 2 ^ 25 + low) }
{
    match (funct7, funct3) {
        (0x00, 1) => Some(Op::Slli),
        (0x00, 5) => Some(Op::Srli),
        (0x20, 5) => Some(Op::Srai),
        _ => None,
    }
}

/// OP.
#[inline(always)]
pub fn op(funct7: u32, funct3: u32) -> Option<Op>
    requires funct7 { funct7 < 128 }
    requires funct3 { funct3 < 8 }
    ensures { let low = funct3 * 2 ^ 12 + 0x33 in
        of_format R result ≡ keyed funct7_rows (funct7 * 2 ^ 25 + low) }
{
    match funct7 {
        0x00 => base(funct3),
        0x01 => multiply(funct3),
        0x20 => subtract(funct3),
        _ => None,
    }
}

/// OP with funct7 0x00.
#[inline(always)]
fn base(funct3: u32) -> Option<Op>
    requires { funct3 < 8 }
    ensures { of_format R result ≡ keyed funct7_rows (funct3 * 2 ^ 12 + 0x33) }
{
    match funct3 {
        0 => Some(Op::Add),
        1 => Some(Op::Sll),
        2 => Some(Op::Slt),
        3 => Some(Op::Sltu),
        4 => Some(Op::Xor),
        5 => Some(Op::Srl),
        6 => Some(Op::Or),
        7 => Some(Op::And),
        _ => None,
    }
}

/// OP with funct7 0x01, which is M.
#[inline(always)]
fn multiply(funct3: u32) -> Option<Op>
    requires { funct3 < 8 }
    ensures { of_format R result ≡ keyed funct7_rows (0x01 * 2 ^ 25 + (funct3 * 2 ^ 12 + 0x33)) }
{
    match funct3 {
        0 => Some(Op::Mul),
        1 => Some(Op::Mulh),
        2 => Some(Op::Mulhsu),
        3 => Some(Op::Mulhu),
        4 => Some(Op::Div),
        5 => Some(Op::Divu),
        6 => Some(Op::Rem),
        7 => Some(Op::Remu),
        _ => None,
    }
}

/// OP with funct7 0x20.
#[inline(always)]
fn subtract(funct3: u32) -> Option<Op>
    requires { funct3 < 8 }
    ensures { of_format R result ≡ keyed funct7_rows (0x20 * 2 ^ 25 + (funct3 * 2 ^ 12 + 0x33)) }
{
    match funct3 {
        0 => Some(Op::Sub),
        5 => Some(Op::Sra),
        _ => None,
    }
}

/// MISC-MEM.
#[inline(always)]
pub fn misc_mem(funct3: u32) -> Option<Op>
    requires { funct3 < 8 }
    ensures { of_format Plain result ≡ keyed funct3_rows (funct3 * 2 ^ 12 + 0xf) }
{
    match funct3 {
        0 => Some(Op::Fence),
        1 => Some(Op::FenceI),
        _ => None,
    }
}

/// SYSTEM with funct3 0: the word is the instruction.
#[inline(always)]
pub fn privileged(w: u32) -> Option<Op>
    ensures { of_format Plain result ≡ keyed whole_rows w }
{
    match w {
        0x0000_0073 => Some(Op::Ecall),
        0x0010_0073 => Some(Op::Ebreak),
        0x3020_0073 => Some(Op::Mret),
        0x1050_0073 => Some(Op::Wfi),
        _ => None,
    }
}

/// SYSTEM with funct3 1 to 3: Zicsr on registers.
#[inline(always)]
pub fn csr(funct3: u32) -> Option<Op>
    requires { funct3 < 4 }
    ensures { of_format Csr result ≡ keyed funct3_rows (funct3 * 2 ^ 12 + 0x73) }
{
    match funct3 {
        1 => Some(Op::Csrrw),
        2 => Some(Op::Csrrs),
        3 => Some(Op::Csrrc),
        _ => None,
    }
}

/// SYSTEM with funct3 5 to 7: Zicsr with immediates.
#[inline(always)]
pub fn csr_immediate(funct3: u32) -> Option<Op>
    requires below { funct3 < 8 }
    requires from { 4 ≤ funct3 }
    ensures { of_format CsrImmediate result ≡ keyed funct3_rows (funct3 * 2 ^ 12 + 0x73) }
{
    match funct3 {
        5 => Some(Op::Csrrwi),
        6 => Some(Op::Csrrsi),
        7 => Some(Op::Csrrci),
        _ => None,
    }
}

/// AMO. LR.W has no rs2.
#[inline(always)]
pub fn amo(funct5: u32, rs2: u32, funct3: u32) -> Option<Op>
    requires funct5 { funct5 < 32 }
    requires rs2 { rs2 < 32 }
    requires funct3 { funct3 < 8 }
    ensures { let low = funct3 * 2 ^ 12 + 0x2f in
        let reserve = keyed reserve_rows (funct5 * 2 ^ 27 + (rs2 * 2 ^ 20 + low)) in
        let atomic = keyed atomic_rows (funct5 * 2 ^ 27 + low) in
        of_format R result ≡ option_or reserve atomic }
{
    if funct3 != 2 {
        return None;
    }
    match funct5 {
        0x02 if rs2 == 0 => Some(Op::LrW),
        0x03 => Some(Op::ScW),
        0x00 => Some(Op::AmoaddW),
        0x01 => Some(Op::AmoswapW),
        0x04 => Some(Op::AmoxorW),
        0x08 => Some(Op::AmoorW),
        0x0c => Some(Op::AmoandW),
        0x10 => Some(Op::AmominW),
        0x14 => Some(Op::AmomaxW),
        0x18 => Some(Op::AmominuW),
        0x1c => Some(Op::AmomaxuW),
        _ => None,
    }
}
