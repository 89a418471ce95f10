//! The registers x0 to x31 (Unprivileged ISA, 2.1 Programmers' Model for Base Integer ISA).
ghost use Rattle.std.specs.Prelude.{◌≡◌, ◌<◌, replicate};
ghost use Rattle.rv_exec.specs.Registers.{register, with_register};

use std::marker::Model;

/// The 32 registers, of which register 0 stays 0.
#[derive(Clone, Copy, Debug)]
pub struct Regs {
    x: [u32; 32],
}

impl Model for Regs {
    ghost use Rattle.std.specs.Prelude.{◌≡◌, ℕ, List, slice_index};

    ghost Value = { List ℕ };

    ghost view = { λ r. r.x };

    ghost inverse = { λ x. record { x = x } };

    ghost invariant = { λ r. slice_index r.x 0 ≡ 0 };
}

impl Regs {
    /// All registers are 0.
    pub fn new() -> Regs
        ensures { result ≡ replicate 32 0 }
    {
        Regs { x: [0; 32] }
    }

    /// The value of register `n`.
    pub fn get(&self, n: u8) -> u32
        requires { n < 32 }
        ensures value { result ≡ register self.now n }
        ensures zero { n ≡ 0 → result ≡ 0 }
    {
        self.x[n as usize]
    }

    /// Gives register `n` a value, where it isn't register 0. A second write costs less than a
    /// branch.
    #[tactic(auto, using(crate::proofs::Zero::zeroed))]
    pub fn set(&mut self, n: u8, value: u32)
        requires { n < 32 }
        ensures { self.new ≡ with_register self.old n value }
    {
        self.x[n as usize] = value;
        self.x[0] = 0;
    }
}
