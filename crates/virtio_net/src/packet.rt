//! Packets.

ghost use Rattle.std.specs.Prelude.{◌≡◌, ◌≤◌, length, map, IfOk};
ghost use Rattle.virtio_net.specs.Card.{bytes_of};
ghost use Rattle.virtio_net.specs.Packets.{is_packet};

use crate::NoMemory;
use std::alloc::Global;

/// The bytes of a packet.
#[derive(Drop)]
pub struct Packet {
    pub bytes: Vec<u8>,
}

/// Whether a packet may have so many bytes.
pub(crate) fn is_length(n: usize) -> bool
    ensures { result ≡ is_packet n }
{
    14 <= n && n <= 1514
}

impl Packet {
    /// The packet of these bytes.
    pub(crate) fn of(alloc: Global, bytes: &[u8]) -> Result<Packet, NoMemory>
        ensures { IfOk result (λ p. bytes_of p ≡ bytes.now) }
    {
        let bytes = Vec::from_slice(alloc, bytes)?;
        Ok(Packet { bytes })
    }
}

/// The same packets once more.
pub(crate) fn shared(alloc: Global, packets: &[Packet]) -> Result<Vec<Packet>, NoMemory>
    ensures { IfOk result (λ copy. map bytes_of copy.items ≡ map bytes_of packets.now) }
{
    let mut out = Vec::new(alloc);
    for p in packets {
        let copy = Packet::of(alloc, p.bytes.as_slice())?;
        out.push(copy)?;
    }
    Ok(out)
}
