//! An event of a log.

use outside::Bytes;

/// What happened to the machine, in the order in which it happened.
#[derive(Debug, Drop)]
pub enum Event {
    /// So many turns ran, at least one.
    Instruction(u32),
    /// The hart took an interrupt.
    Interrupt,
    /// The hart took an exception.
    Exception,
    /// The console gave these bytes, 1 to 256.
    CharRead(Bytes),
    /// The request to the disk with this number was done, or failed.
    Block { id: u64, ok: bool },
    /// A packet of 14 to 1,514 bytes came.
    Net(Bytes),
    /// The host's clock was read, in nanoseconds.
    Clock(u64),
    /// A slice was over, or the hart was idle.
    Checkpoint { idle: bool },
    /// The recording is over. The reason is 0 where the guest ended with this code, and else, with
    /// code 0, it is 1 where the guest is idle for ever, 2 at the budget, 3 at a fault of a device.
    End { reason: u8, code: u32 },
}
