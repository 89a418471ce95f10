//! The fields of an instruction word.
ghost use Rattle.std.specs.Prelude.{◌≡◌, ◌+◌, ◌^◌, ◌<◌, ◌≤◌, IfSome};
ghost use Rattle.std.specs.Option.{option_map};
ghost use Rattle.rv_decode.specs.Fields.{field as field_of, signed as signed_of, fields as fields_of, IsWithin, imm_i as imm_i_of, imm_s as imm_s_of, imm_b as imm_b_of, imm_u as imm_u_of, imm_j as imm_j_of, csr as csr_of};

use crate::format::Format;
use crate::ins::Ins;
use crate::op::Op;

/// `count` bits of the word from bit `low` on.
#[inline(always)]
pub fn field(w: u32, low: u32, count: u32) -> u32
    requires places { low + count ≤ 32 }
    requires some { low < 32 }
    requires not_all { count < 32 }
    ensures value { result ≡ field_of w low count }
    ensures bound { result < 2 ^ count }
{
    (w >> low) % (1 << count)
}

/// A number of `count` bits as a signed one.
#[inline(always)]
fn signed(x: u32, count: u32) -> i32
    requires count { count < 32 }
    requires positive { 0 < count }
    requires fits { x < 2 ^ count }
    ensures { result ≡ signed_of count x }
{
    if x < 1 << (count - 1) {
        x as i32
    } else {
        !(((1 << count) - 1 - x) as i32)
    }
}

/// The immediate of the format I.
#[inline(always)]
fn imm_i(w: u32) -> i32
    ensures { result ≡ imm_i_of w }
{
    signed(field(w, 20, 12), 12)
}

/// The immediate of the format S.
#[inline(always)]
fn imm_s(w: u32) -> i32
    ensures { result ≡ imm_s_of w }
{
    signed(field(w, 25, 7) * (1 << 5) + field(w, 7, 5), 12)
}

/// The immediate of the format B, which is even.
#[inline(always)]
fn imm_b(w: u32) -> i32
    ensures { result ≡ imm_b_of w }
{
    let high = field(w, 31, 1) * (1 << 12) + field(w, 7, 1) * (1 << 11);
    let low = field(w, 25, 6) * (1 << 5) + field(w, 8, 4) * 2;
    signed(high + low, 13)
}

/// The immediate of the format U, at its place in the word.
#[inline(always)]
fn imm_u(w: u32) -> i32
    ensures { result ≡ imm_u_of w }
{
    (field(w, 12, 20) * (1 << 12)).cast_signed()
}

/// The immediate of the format J, which is even.
#[inline(always)]
fn imm_j(w: u32) -> i32
    ensures { result ≡ imm_j_of w }
{
    let high = field(w, 31, 1) * (1 << 20) + field(w, 12, 8) * (1 << 12);
    let low = field(w, 20, 1) * (1 << 11) + field(w, 21, 10) * 2;
    signed(high + low, 21)
}

/// The number of a control register.
#[inline(always)]
fn csr(w: u32) -> u16
    ensures { result ≡ csr_of w }
{
    field(w, 20, 12) as u16
}

/// The instruction of the operation, if there is one, with the fields that stand in the word.
#[inline(always)]
pub fn instruction(op: Option<Op>, format: Format, w: u32) -> Option<Ins>
    ensures fields { result ≡ option_map (λ op. fields_of op format w) op }
    ensures registers { IfSome result IsWithin }
{
    Some(fields(op?, format, w))
}

/// The instruction whose fields stand in the word.
#[inline(always)]
#[rattlefmt::skip]
#[tactic(auto, unfolding(crate::specs::Fields::fields))]
fn fields(op: Op, format: Format, w: u32) -> Ins
    ensures fields { result ≡ fields_of op format w }
    ensures registers { IsWithin result }
{
    let rd = field(w, 7, 5) as u8;
    let rs1 = field(w, 15, 5) as u8;
    let rs2 = field(w, 20, 5) as u8;
    let plain = Ins { op, rd: 0, rs1: 0, rs2: 0, imm: 0, csr: 0 };
    match format {
        Format::R => Ins { rd, rs1, rs2, ..plain },
        Format::I => Ins { rd, rs1, imm: imm_i(w), ..plain },
        Format::S => Ins { rs1, rs2, imm: imm_s(w), ..plain },
        Format::B => Ins { rs1, rs2, imm: imm_b(w), ..plain },
        Format::U => Ins { rd, imm: imm_u(w), ..plain },
        Format::J => Ins { rd, imm: imm_j(w), ..plain },
        Format::Shift => Ins { rd, rs1, imm: i32::from(rs2), ..plain },
        Format::Csr => Ins { rd, rs1, csr: csr(w), ..plain },
        Format::CsrImmediate => Ins { rd, imm: i32::from(rs1), csr: csr(w), ..plain },
        Format::Plain => plain,
    }
}
