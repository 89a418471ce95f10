//! Requests that a driver shows.

ghost use Rattle.std.specs.Prelude.{◌≡◌, ◌+◌, ◌++◌, ◌<◌, ◌≤◌, ◌^◌, length, take, map, IfOk, OnOk, IfSome, true, position, ◌==◌};
ghost use Rattle.std.specs.List.{All};
ghost use Rattle.virtio_blk.specs.Requests.{KindFits};
ghost use Rattle.std.specs.Option.{option_map};
ghost use Rattle.vio_mmio.specs.Registers.{live_of, queue_of};
ghost use Rattle.virtio_blk.specs.Notify.{ask_of, flight_of, turn_of, notified, onto_flights};

use crate::NoMemory;
use crate::parse::{Kind, parse};
use ram_pages::Draft;
use std::alloc::{AllocError, Global};
use vio_mmio::{Chain, QueueError, Transport};

/// A request that was parsed.
#[derive(Drop)]
pub(crate) struct Parsed {
    pub id: u64,
    pub kind: Kind,
    pub chain: Chain,
}

impl Parsed {
    /// The same request once more.
    pub(crate) fn share(&self) -> Result<Parsed, NoMemory>
        ensures { IfOk result (λ copy. flight_of copy ≡ flight_of self.now) }
    {
        let readable = self.chain.readable.clone()?;
        let writable = self.chain.writable.clone()?;
        let chain = Chain {
            head: self.chain.head,
            readable,
            writable,
        };
        Ok(Parsed {
            id: self.id,
            kind: self.kind,
            chain,
        })
    }
}

/// The same requests once more.
pub(crate) fn shared(alloc: Global, parsed: &[Parsed]) -> Result<Vec<Parsed>, NoMemory>
    ensures { IfOk result (λ copy. map flight_of copy.items ≡ map flight_of parsed.now) }
{
    let mut out = Vec::new(alloc);
    for p in parsed {
        out.push(p.share()?)?;
    }
    Ok(out)
}

/// Takes the next chain and parses it, under an id. `None` where no other is to be taken.
#[tactic(auto, unfolding(crate::specs::Notify::turn_of))]
fn take_chain(
    alloc: Global,
    transport: &mut Transport,
    draft: &Draft<'_>,
    sectors: u64,
    id: u64,
) -> Result<Option<Parsed>, NoMemory>
    requires { live_of transport.old 0 ≡ true }
    ensures turn { IfOk result (λ found. (transport.new, option_map ask_of found)
        ≡ turn_of draft.now.bytes sectors transport.old) }
    ensures fits { IfOk result
        (λ found. IfSome found (λ p. (p.id ≡ id) × KindFits p.kind sectors)) }
    ensures live { IfOk result (λ found. IfSome found (λ _. live_of transport.new 0 ≡ true)) }
{
    let chain = match transport.next_chain(alloc, 0, draft) {
        Ok(Some(chain)) => chain,
        Ok(None) => return Ok(None),
        Err(QueueError::Bad(_)) => {
            transport.needs_reset();
            return Ok(None);
        }
        Err(QueueError::NoMemory) => return Err(AllocError),
    };
    match parse(alloc, draft, &chain, sectors)? {
        Ok(kind) => Ok(Some(Parsed { id, kind, chain })),
        Err(_) => {
            transport.needs_reset();
            Ok(None)
        }
    }
}

/// Takes at most so many chains, and adds their requests, numbered from an id. After an `Err` those
/// from before are still at the front.
pub(crate) fn take_chains(
    alloc: Global,
    transport: &mut Transport,
    draft: &Draft<'_>,
    sectors: u64,
    most: u32,
    next: u64,
    parsed: &mut Vec<Parsed>,
) -> Result<(), NoMemory>
    requires live { live_of transport.old 0 ≡ true }
    requires few { next + most < 2 ^ 64 }
    requires fit { All (λ p. KindFits p.kind sectors) parsed.old.items }
    ensures ok { OnOk result (onto_flights (map flight_of parsed.old.items)
        (notified draft.now.bytes sectors most next transport.old)
        ≡ record { transport = transport.new; flights = map flight_of parsed.new.items }) }
    ensures fit { All (λ p. KindFits p.kind sectors) parsed.new.items }
    ensures count { length parsed.new.items ≤ length parsed.old.items + most }
    ensures kept { take (length parsed.old.items) parsed.new.items ≡ parsed.old.items }
{
    let mut id = next;
    for _ in 0..most {
        match take_chain(alloc, transport, draft, sectors, id)? {
            Some(ask) => parsed.push(ask)?,
            None => return Ok(()),
        }
        id += 1;
    }
    Ok(())
}

/// Where an id is in flight.
pub(crate) fn place_of(parsed: &[Parsed], id: u64) -> Option<usize>
    ensures { result ≡ position (λ p. p.id == id) parsed.now }
{
    parsed.iter().position(|p| p.id == id)
}
