//! Packets of transmit chains.

ghost use Rattle.std.specs.Prelude.{◌≡◌, ◌≤◌, ◌<◌, ◌+◌, ◌++◌, ◌^◌, length, map, take, drop, IfOk, OnOk, true};
ghost use Rattle.vio_mmio.specs.Registers.{live_of};
ghost use Rattle.vio_mmio.specs.Spread.{gathered};
ghost use Rattle.virtio_net.specs.Card.{bytes_of};
ghost use Rattle.virtio_net.specs.Packets.{packet_in, SendsNext, drained, onto_sent, parts_of};

use crate::NoMemory;
use crate::packet::{Packet, is_length};
use ram_pages::Draft;
use std::alloc::{AllocError, Global};
use vio_mmio::{Chain, QueueError, Segment, Transport, gather};

/// The bytes behind the header: at most one more than a packet may have.
fn payload(alloc: Global, draft: &Draft<'_>, readable: &[Segment]) -> Result<Vec<u8>, NoMemory>
    ensures { IfOk result
        (λ v. v.items ≡ take 1515 (drop 12 (gathered draft.now.bytes readable.now))) }
{
    let all = gather(alloc, draft, readable, 12 + 1515)?;
    let bytes = all.as_slice();
    let header = 12usize.min(bytes.len());
    Vec::from_slice(alloc, &bytes[header..])
}

/// Adds the packet of a transmit chain, if it has one.
fn add_packet(
    alloc: Global,
    draft: &Draft<'_>,
    chain: &Chain,
    sent: &mut Vec<Packet>,
) -> Result<(), NoMemory>
    ensures packet { OnOk result (map bytes_of sent.new.items
        ≡ map bytes_of sent.old.items ++ packet_in draft.now.bytes (parts_of chain.now)) }
    ensures kept { take (length sent.old.items) sent.new.items ≡ sent.old.items }
{
    let bytes = payload(alloc, draft, chain.readable.as_slice())?;
    if !is_length(bytes.as_slice().len()) {
        return Ok(());
    }
    sent.push(Packet { bytes })?;
    Ok(())
}

/// Sends the next transmit chain. False where no chain is to be had.
#[tactic(auto, unfolding(crate::specs::Packets::send_of))]
fn send_next(
    alloc: Global,
    transport: &mut Transport,
    draft: &mut Draft<'_>,
    sent: &mut Vec<Packet>,
) -> Result<bool, NoMemory>
    requires { live_of transport.old 1 ≡ true }
    ensures before { draft.new.before ≡ draft.old.before }
    ensures sent { IfOk result (λ went. SendsNext went draft.old.bytes draft.new.bytes
        transport.old transport.new (map bytes_of sent.old.items) (map bytes_of sent.new.items)) }
    ensures kept { take (length sent.old.items) sent.new.items ≡ sent.old.items }
{
    match transport.next_chain(alloc, 1, draft) {
        Ok(Some(chain)) => {
            add_packet(alloc, draft, &chain, sent)?;
            transport.give_back(1, draft, chain.head, 0)?;
            Ok(true)
        }
        Ok(None) => Ok(false),
        Err(QueueError::Bad(_)) => {
            transport.needs_reset();
            Ok(false)
        }
        Err(QueueError::NoMemory) => Err(AllocError),
    }
}

/// Sends at most so many transmit chains. After an `Err` the packets from before are still at the
/// front.
pub(crate) fn drain(
    alloc: Global,
    transport: &mut Transport,
    draft: &mut Draft<'_>,
    most: u32,
    sent: &mut Vec<Packet>,
) -> Result<(), NoMemory>
    ensures before { draft.new.before ≡ draft.old.before }
    ensures ok { OnOk result (
        record {
          ram = draft.new.bytes;
          transport = transport.new;
          packets = map bytes_of sent.new.items;
        }
        ≡ onto_sent (map bytes_of sent.old.items) (drained most draft.old.bytes transport.old)) }
    ensures kept { take (length sent.old.items) sent.new.items ≡ sent.old.items }
{
    for _ in 0..most {
        if !transport.live(1) {
            return Ok(());
        }
        if !send_next(alloc, transport, draft, sent)? {
            return Ok(());
        }
    }
    Ok(())
}
