//! Chains of descriptors (virtio 1.2, 2.7.5).

ghost use Rattle.std.specs.Prelude.{◌≡◌, ◌+◌, ◌*◌, ◌<◌, ◌≤◌, ◌^◌, ◌++◌, MatchResult, OnOk, IfOk, true, false, Ok, Err};
ghost use Rattle.vio_mmio.specs.Ring.{lies_in};
ghost use Rattle.vio_mmio.specs.Descriptors.{goes_on, is_writable, checked, chain_of, GivesChain, readable_of, writable_of};

use crate::NoMemory;
use crate::error::{BadKind, QueueError};
use crate::queue::Queue;
use crate::ring::placed;
use ram_pages::Draft;
use std::alloc::Global;

/// A range of the guest's addresses.
#[derive(Clone, Copy, Debug, PartialEq, Eq)]
pub struct Segment {
    pub at: u64,
    pub len: u32,
}

/// A chain's ranges: those that the device reads, and those that it writes.
#[derive(Drop)]
pub struct Chain {
    pub head: u16,
    pub readable: Vec<Segment>,
    pub writable: Vec<Segment>,
}

/// One entry of the descriptor table.
#[derive(Clone, Copy, Debug, PartialEq, Eq)]
pub(crate) struct Descriptor {
    pub at: u64,
    pub len: u32,
    pub flags: u16,
    pub next: u16,
}

impl Descriptor {
    /// Whether another descriptor follows.
    fn goes_on(&self) -> bool
        ensures { result ≡ goes_on self.now }
    {
        self.flags & NEXT != 0
    }

    /// Whether the device writes its range.
    fn is_writable(&self) -> bool
        ensures { result ≡ is_writable self.now }
    {
        self.flags & WRITE != 0
    }
}

// Flags of a descriptor (2.7.5).
const NEXT: u16 = 0x1;

const WRITE: u16 = 0x2;

const INDIRECT: u16 = 0x4;

/// The descriptor of a number, or the first rule that it breaks. One before it is written by the
/// device where `late`.
#[tactic(auto, unfolding(crate::specs::Descriptors::checked))]
fn read_descriptor(
    queue: &Queue,
    draft: &Draft<'_>,
    number: u16,
    late: bool,
) -> Result<Descriptor, BadKind>
    ensures { result ≡ checked draft.now.bytes queue.now number late }
{
    if number as u32 >= queue.size {
        return Err(BadKind::Index);
    }
    let Some(place) = placed(draft, queue.descriptors, 16 * number as u64, 16) else {
        return Err(BadKind::Ring);
    };
    let flags = draft.read_u16(place + 12);
    if flags & INDIRECT != 0 {
        return Err(BadKind::Indirect);
    }
    if late && flags & WRITE == 0 {
        return Err(BadKind::Order);
    }
    let at = draft.read_u64(place);
    let len = draft.read_u32(place + 8);
    if !draft.holds(at, len as u64) {
        return Err(BadKind::Range);
    }
    let next = draft.read_u16(place + 14);
    Ok(Descriptor {
        at,
        len,
        flags,
        next,
    })
}

/// Adds a descriptor's range to those of its kind.
fn put(found: &mut Chain, d: &Descriptor) -> Result<(), NoMemory>
    ensures readable { OnOk result
        (found.new.readable.items ≡ found.old.readable.items ++ readable_of d.now) }
    ensures writable { OnOk result
        (found.new.writable.items ≡ found.old.writable.items ++ writable_of d.now) }
    ensures head { found.new.head ≡ found.old.head }
{
    let segment = Segment {
        at: d.at,
        len: d.len,
    };
    if d.is_writable() {
        found.writable.push(segment)?;
    } else {
        found.readable.push(segment)?;
    }
    Ok(())
}

/// The chain of a head, or the first rule that it breaks.
pub(crate) fn read_chain(
    alloc: Global,
    queue: &Queue,
    draft: &Draft<'_>,
    head: u16,
) -> Result<Chain, QueueError>
    ensures found { GivesChain result (chain_of draft.now.bytes queue.now head) }
    ensures head { IfOk result (λ chain. chain.head ≡ head) }
{
    let mut found = Chain {
        head,
        readable: Vec::new(alloc),
        writable: Vec::new(alloc),
    };
    let mut number = head;
    let mut late = false;
    for _ in 0..queue.size {
        let d = match read_descriptor(queue, draft, number, late) {
            Ok(d) => d,
            Err(kind) => return Err(QueueError::Bad(kind)),
        };
        match put(&mut found, &d) {
            Ok(()) => (),
            Err(_) => return Err(QueueError::NoMemory),
        }
        if !d.goes_on() {
            return Ok(found);
        }
        number = d.next;
        late = late | d.is_writable();
    }
    if number as u32 >= queue.size {
        Err(QueueError::Bad(BadKind::Index))
    } else {
        Err(QueueError::Bad(BadKind::Loop))
    }
}
