//! The modes of the hart (Privileged ISA, 1.2 Privilege Levels).

/// The mode of the hart: user or machine.
#[derive(Clone, Copy, PartialEq, Eq, Debug)]
pub enum Mode {
    U,
    M,
}
