//! The packets that wait for a chain.

ghost use Rattle.std.specs.Prelude.{◌≡◌, ◌≤◌, ◌<◌, ◌++◌, ◌∷◌, [], length, map, drop, take, IfOk, OnOk, OnErr};
ghost use Rattle.circular_buffer.specs.Buffer.{buffer};
ghost use Rattle.virtio_net.specs.Card.{bytes_of, joined, Keeps};

use crate::NoMemory;
use crate::packet::Packet;
use circular_buffer::HeapCircularBuffer;
use std::alloc::Global;

/// How many packets may wait.
pub(crate) const MOST: usize = 16;

/// Takes the first packets away.
pub(crate) fn drop_front(backlog: &mut HeapCircularBuffer<Packet>, count: usize)
    requires { count ≤ length backlog.old.items }
    ensures { backlog.new ≡ buffer (drop count backlog.old.items) backlog.old.capacity }
{
    for _ in 0..count {
        let _gone = backlog.pop_front();
    }
}

/// Adds a packet where there is room.
fn push(backlog: &mut HeapCircularBuffer<Packet>, packet: Packet)
    requires { length backlog.old.items < backlog.old.capacity }
    ensures { backlog.new ≡ buffer (backlog.old.items ++ packet ∷ []) backlog.old.capacity }
{
    let _older = backlog.push_back(packet);
}

/// The same packets once more.
pub(crate) fn shared(
    alloc: Global,
    backlog: &HeapCircularBuffer<Packet>,
) -> Result<HeapCircularBuffer<Packet>, NoMemory>
    requires { length backlog.now.items ≤ 16 }
    ensures items { IfOk result (λ copy. map bytes_of copy.items ≡ map bytes_of backlog.now.items) }
    ensures capacity { IfOk result (λ copy. copy.capacity ≡ 16) }
{
    let mut out = HeapCircularBuffer::with_capacity(alloc, MOST)?;
    for i in 0..backlog.len() {
        let Some(packet) = backlog.get(i) else {
            unreachable!()
        };
        let copy = Packet::of(alloc, packet.bytes.as_slice())?;
        push(&mut out, copy);
    }
    Ok(out)
}

/// Adds a packet behind those that wait. It is dropped where as many wait as may. An `Err` leaves
/// the backlog as it was.
pub(crate) fn join(
    alloc: Global,
    backlog: &mut HeapCircularBuffer<Packet>,
    packet: &[u8],
) -> Result<(), NoMemory>
    requires { backlog.old.capacity ≡ 16 }
    ensures ok { OnOk result
        (map bytes_of backlog.new.items ≡ joined (map bytes_of backlog.old.items) packet.now) }
    ensures err { OnErr result (backlog.new ≡ backlog.old) }
    ensures capacity { backlog.new.capacity ≡ 16 }
    ensures few { length backlog.new.items ≤ 16 }
    ensures lengths { Keeps packet.now backlog.old.items backlog.new.items }
{
    if backlog.len() >= MOST {
        return Ok(());
    }
    let fresh = Packet::of(alloc, packet)?;
    let _older = backlog.push_back(fresh);
    Ok(())
}
