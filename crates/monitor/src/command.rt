//! What a line asks for.

/// A command of the monitor. Counts are of turns, at most 2^40.
#[derive(Clone, Copy, Debug, PartialEq, Eq)]
pub enum Command {
    /// `info replay`
    InfoReplay,
    /// `info registers`
    InfoRegisters,
    /// `replay_break N`
    Break(u64),
    /// `replay_delete_break`, of all breaks
    DeleteBreak,
    /// `replay_seek N`
    Seek(u64),
    /// `reverse-step`
    StepBack,
    /// `reverse-continue`
    RunBack,
    /// `step`
    StepOn,
    /// `continue`
    RunOn,
    /// `x A L`, of 1 to 64 bytes from an address on
    Dump(u32, u32),
    /// `quit`
    Quit,
    /// An empty line.
    Blank,
}

/// What is wrong with a line.
#[derive(Clone, Copy, Debug, PartialEq, Eq)]
pub enum LineError {
    /// No command has this name, or it has another number of words.
    UnknownCommand,
    /// A word isn't a number, or not one in its range.
    BadNumber,
    /// The line has more than 256 bytes.
    TooLong,
}
