//! What an instruction came to.

/// What an instruction came to.
#[derive(Clone, Copy, PartialEq, Eq, Debug)]
pub enum Done {
    /// It did all that it says. `idle` is set by a WFI that waits.
    Retired { idle: bool },
    /// A trap with its cause and the value for mtval.
    Trap { cause: u32, value: u32 },
    /// The bus has no value of the clock in hand.
    NeedClock,
    NoMemory,
}
