//! Packets for receive chains.

ghost use Rattle.std.specs.Prelude.{◌≡◌, ◌≤◌, ◌<◌, ◌+◌, ◌++◌, ◌^◌, length, map, drop, IfOk, OnOk, true};
ghost use Rattle.std.specs.List.{All};
ghost use Rattle.vio_mmio.specs.Registers.{live_of};
ghost use Rattle.virtio_net.specs.Card.{bytes_of};
ghost use Rattle.virtio_net.specs.Packets.{filled, fill_of, refilled, received_header, parts_of};

use crate::NoMemory;
use crate::packet::Packet;
use circular_buffer::HeapCircularBuffer;
use ram_pages::Draft;
use std::alloc::{AllocError, Global};
use vio_mmio::{Chain, QueueError, Transport, scatter, total};

/// The header of a received packet: all 0 but num_buffers, which is 1 (virtio 1.2, 5.1.6).
const HEADER: [u8; 12] = [0, 0, 0, 0, 0, 0, 0, 0, 0, 0, 1, 0];

/// The header and the packet.
fn framed(alloc: Global, packet: &[u8]) -> Result<Vec<u8>, NoMemory>
    ensures { IfOk result (λ v. v.items ≡ received_header ++ packet.now) }
{
    let mut out = Vec::from_slice(alloc, &HEADER)?;
    out.extend_from_slice(packet)?;
    Ok(out)
}

/// Gives a chain a packet. One that is too short is used with length 0.
fn fill(
    alloc: Global,
    transport: &mut Transport,
    draft: &mut Draft<'_>,
    chain: &Chain,
    packet: &[u8],
) -> Result<(), NoMemory>
    requires { length packet.now ≤ 1514 }
    ensures before { draft.new.before ≡ draft.old.before }
    ensures ok { OnOk result ((draft.new.bytes, transport.new)
        ≡ filled draft.old.bytes transport.old chain.now.head (parts_of chain.now) packet.now) }
{
    let writable = chain.writable.as_slice();
    let size = 12 + packet.len();
    if total(writable) < size as u128 {
        return transport.give_back(0, draft, chain.head, 0);
    }
    let frame = framed(alloc, packet)?;
    scatter(draft, writable, frame.as_slice())?;
    transport.give_back(0, draft, chain.head, size as u32)
}

/// Gives the next receive chain a packet. False where no chain is to be had.
#[tactic(auto, unfolding(crate::specs::Packets::fill_of))]
pub(crate) fn fill_next(
    alloc: Global,
    transport: &mut Transport,
    draft: &mut Draft<'_>,
    packet: &[u8],
) -> Result<bool, NoMemory>
    requires live { live_of transport.old 0 ≡ true }
    requires length { length packet.now ≤ 1514 }
    ensures before { draft.new.before ≡ draft.old.before }
    ensures ok { IfOk result (λ went.
        record { went = went; ram = draft.new.bytes; transport = transport.new }
        ≡ fill_of draft.old.bytes transport.old packet.now) }
{
    match transport.next_chain(alloc, 0, draft) {
        Ok(Some(chain)) => {
            fill(alloc, transport, draft, &chain, packet)?;
            Ok(true)
        }
        Ok(None) => Ok(false),
        Err(QueueError::Bad(_)) => {
            transport.needs_reset();
            Ok(false)
        }
        Err(QueueError::NoMemory) => Err(AllocError),
    }
}

/// Gives at most so many receive chains the packets that wait, in order, and tells how many are
/// gone.
pub(crate) fn refill(
    alloc: Global,
    transport: &mut Transport,
    draft: &mut Draft<'_>,
    backlog: &HeapCircularBuffer<Packet>,
    most: u32,
) -> Result<usize, NoMemory>
    requires { All (λ p. length (bytes_of p) ≤ 1514) backlog.now.items }
    ensures within { IfOk result (λ gone. gone ≤ length backlog.now.items) }
    ensures before { draft.new.before ≡ draft.old.before }
    ensures refilled { IfOk result (λ gone.
        record {
          ram = draft.new.bytes;
          transport = transport.new;
          packets = map bytes_of (drop gone backlog.now.items);
        }
        ≡ refilled most (record {
          ram = draft.old.bytes;
          transport = transport.old;
          packets = map bytes_of backlog.now.items;
        })) }
{
    let mut gone = 0usize;
    for _ in 0..most {
        let Some(packet) = backlog.get(gone) else {
            return Ok(gone);
        };
        if !transport.live(0) {
            return Ok(gone);
        }
        if !fill_next(alloc, transport, draft, packet.bytes.as_slice())? {
            return Ok(gone);
        }
        gone += 1;
    }
    Ok(gone)
}
