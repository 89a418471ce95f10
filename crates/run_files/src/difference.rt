//! How the images of a replay differ from those that its log's header names.

/// The first thing that differs.
#[derive(Clone, Copy, Debug, PartialEq, Eq)]
pub enum Difference {
    /// The words name another shift.
    Shift,
    /// The words name another size of RAM.
    Ram,
    /// The firmware's file has another SHA-256.
    Firmware,
    /// The disk has another length.
    DiskLength,
    /// The disk has another SHA-256.
    Disk,
}
