//! The state of a hart.
use crate::registers::Regs;
use rv_csr::{Csrs, Mode};

/// A hart between two instructions.
#[derive(Clone, Copy, Debug)]
pub struct Hart {
    pub pc: u32,
    pub x: Regs,
    pub mode: Mode,
    pub csrs: Csrs,
    /// The address that LR.W reserved.
    pub reservation: Option<u32>,
}
