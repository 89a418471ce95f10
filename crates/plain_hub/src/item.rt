//! What a worker or a reader posts, and what the history keeps of it.
ghost use Rattle.std.specs.Prelude.{◌≡◌, IfOk};
ghost use Rattle.plain_hub.specs.Items.{short, is_done, has_bytes};

use outside::{Bytes, NoMemory};
use std::alloc::Global;

/// What a worker or a reader posts. `read` is None exactly after a failed read.
#[derive(Debug, Drop)]
pub enum Item {
    Done { id: u64, read: Option<Bytes> },
    Console(Bytes),
    Packet(Bytes),
}

/// What the history keeps of an item: of a Done whether it has bytes.
#[derive(Debug, Drop)]
pub enum Short {
    Done { id: u64, ok: bool },
    Console(Bytes),
    Packet(Bytes),
}

impl Item {
    /// Whether it is the Done of this id.
    pub fn is_done(&self, number: u64) -> bool
        ensures { result ≡ is_done number self.now }
    {
        match self {
            Item::Done { id, .. } => *id == number,
            Item::Console(_) | Item::Packet(_) => false,
        }
    }

    /// Whether it is a Done with bytes.
    pub fn has_bytes(&self) -> bool
        ensures { result ≡ has_bytes self.now }
    {
        match self {
            Item::Done { read, .. } => read.is_some(),
            Item::Console(_) | Item::Packet(_) => false,
        }
    }

    /// What the history keeps of it.
    pub fn shorten(&self, alloc: Global) -> Result<Short, NoMemory>
        ensures { IfOk result (λ s. s ≡ short self.now) }
    {
        match self {
            Item::Done { id, read } => Ok(Short::Done {
                id: *id,
                ok: read.is_some(),
            }),
            Item::Console(bytes) => Ok(Short::Console(Bytes::of(alloc, bytes.as_slice())?)),
            Item::Packet(bytes) => Ok(Short::Packet(Bytes::of(alloc, bytes.as_slice())?)),
        }
    }
}
