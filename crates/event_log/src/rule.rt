//! The rules of the log.

/// The name of a rule that a field breaks.
#[derive(Clone, Copy, Debug, PartialEq, Eq)]
pub enum Rule {
    /// A field of the header is out of range.
    BadField,
    /// No event begins with this byte.
    UnknownId,
    /// No event from outside has this kind.
    UnknownAsync,
    /// No turns were counted.
    BadCount,
    /// There is one console, 0.
    BadDevice,
    /// The console gives 1 to 256 bytes, and a packet has 14 to 1,514.
    BadLength,
    /// A request was done, 0, or failed, 1.
    BadStatus,
    /// There is one network adapter, 0.
    BadAdapter,
    /// No flags of a packet are known.
    BadFlags,
    /// There is one clock, 0.
    BadClock,
    /// A checkpoint is a slice's, 0, or an idle hart's, 1.
    BadKind,
    /// The reasons are 0 to 3.
    BadReason,
    /// Only reason 0 has a code.
    BadCode,
}
