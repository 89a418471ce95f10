//! What a queue refuses.

/// The first rule that a queue or a chain breaks.
#[derive(Clone, Copy, Debug, PartialEq, Eq)]
pub enum BadKind {
    /// A descriptor's number isn't below the queue's size.
    Index,
    /// More descriptors follow than the queue has.
    Loop,
    /// A descriptor names a table of its own, which isn't offered.
    Indirect,
    /// A range that the device reads comes after one that it writes.
    Order,
    /// A range doesn't lie in RAM, or the chain has too little of what its request wants.
    Range,
    /// A ring or the descriptor table doesn't lie in RAM, or the index leads by too much.
    Ring,
}

/// Why a queue gave no chain.
#[derive(Clone, Copy, Debug, PartialEq, Eq)]
pub enum QueueError {
    Bad(BadKind),
    NoMemory,
}
