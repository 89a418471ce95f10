//! The formats of the instructions (Unprivileged ISA, 2.2 Base Instruction Formats).

/// Which fields an instruction has.
#[derive(Clone, Copy, Debug, PartialEq, Eq)]
pub enum Format {
    R,
    I,
    S,
    B,
    U,
    J,
    /// A shift by an immediate, whose amount stands in the place of rs2.
    Shift,
    /// A control register's number in bits 20 to 31.
    Csr,
    /// The same, and an immediate without sign in the place of rs1.
    CsrImmediate,
    /// No fields that play a part.
    Plain,
}
