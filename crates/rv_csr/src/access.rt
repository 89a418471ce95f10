//! Which accesses a register's number allows (Privileged ISA, 2.1 CSR Address Mapping Conventions).
ghost use Rattle.std.specs.Prelude.{◌≡◌};
ghost use Rattle.rv_csr.specs.Table.{mode_may, is_read_only};

use crate::mode::Mode;

/// An access to a register that isn't there, or that the mode may not make.
#[derive(Clone, Copy, PartialEq, Eq, Debug)]
pub struct Illegal;

/// Whether the number's bits 8 and 9 allow the mode.
pub fn mode_may(at: u16, mode: Mode) -> bool
    ensures { result ≡ mode_may at mode }
{
    match mode {
        Mode::M => true,
        Mode::U => at / 256 % 4 == 0,
    }
}

/// Whether the number's bits 10 and 11 are both 1.
pub fn is_read_only(at: u16) -> bool
    ensures { result ≡ is_read_only at }
{
    at / 1024 % 4 == 3
}
