//! A decoded instruction.
use crate::op::Op;

/// An instruction. Fields that its format lacks are 0.
#[derive(Clone, Copy, Debug, PartialEq, Eq)]
pub struct Ins {
    pub op: Op,
    pub rd: u8,
    pub rs1: u8,
    pub rs2: u8,
    /// The immediate: signed, at its place in the word where the format is U, and without sign at a
    /// shift and at CSRRWI, CSRRSI and CSRRCI.
    pub imm: i32,
    /// The number of a control register.
    pub csr: u16,
}
