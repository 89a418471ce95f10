//! What a worker reads for a request.

ghost use Rattle.std.specs.Prelude.{◌≡◌, ◌+◌, ◌*◌, ◌<◌, ◌≤◌, ◌^◌, ◌++◌, length, map, IfOk, OnOk, OnErr};
ghost use Rattle.std.specs.List.{All};
ghost use Rattle.virtio_blk.specs.Drive.{request_for, request_of};
ghost use Rattle.virtio_blk.specs.Notify.{flight_of};
ghost use Rattle.virtio_blk.specs.Requests.{KindFits};

use crate::NoMemory;
use crate::notify::Parsed;
use crate::parse::Kind;
use std::alloc::{AllocError, Global};

/// The base bytes that a worker reads. `len` is 0 where the request reads nothing.
#[derive(Clone, Copy, Debug, PartialEq, Eq)]
pub struct Request {
    pub id: u64,
    pub at: u64,
    pub len: u32,
}

impl Request {
    /// What a worker reads for a request of this kind, of a disk of so many sectors.
    pub(crate) fn of(id: u64, kind: Kind, sectors: u64) -> Request
        requires fits { KindFits kind sectors }
        requires few { sectors < 2 ^ 55 }
        ensures { result ≡ request_for id kind }
    {
        match kind {
            Kind::Read { sector, len } => Request {
                id,
                at: 512 * sector,
                len,
            },
            _ => Request { id, at: 0, len: 0 },
        }
    }
}

/// What workers read for these requests.
pub(crate) fn requests(
    alloc: Global,
    parsed: &[Parsed],
    sectors: u64,
) -> Result<Vec<Request>, NoMemory>
    requires fit { All (λ p. KindFits p.kind sectors) parsed.now }
    requires few { sectors < 2 ^ 55 }
    ensures { IfOk result (λ v. v.items ≡ map (λ p. request_of (flight_of p)) parsed.now) }
{
    let mut out = Vec::new(alloc);
    for p in parsed {
        out.push(Request::of(p.id, p.kind, sectors))?;
    }
    Ok(out)
}

/// The ids of these requests.
fn ids(alloc: Global, parsed: &[Parsed]) -> Result<Vec<u64>, NoMemory>
    ensures { IfOk result (λ ids. ids.items ≡ map (λ p. p.id) parsed.now) }
{
    parsed.iter().map(|p| p.id).collect(alloc)
}

/// What workers read for these requests, whose ids come behind those in flight. An `Err` leaves
/// these as they were.
pub(crate) fn issue(
    alloc: Global,
    parsed: &[Parsed],
    sectors: u64,
    in_flight: &mut Vec<u64>,
) -> Result<Vec<Request>, NoMemory>
    requires fit { All (λ p. KindFits p.kind sectors) parsed.now }
    requires few { sectors < 2 ^ 55 }
    ensures ok { IfOk result (λ v. v.items ≡ map (λ p. request_of (flight_of p)) parsed.now) }
    ensures ids { OnOk result
        (in_flight.new.items ≡ in_flight.old.items ++ map (λ p. p.id) parsed.now) }
    ensures err { OnErr result (in_flight.new.items ≡ in_flight.old.items) }
{
    let requests = requests(alloc, parsed, sectors)?;
    let ids = ids(alloc, parsed)?;
    match in_flight.extend_from_slice(ids.as_slice()) {
        Ok(()) => Ok(requests),
        Err(_) => Err(AllocError),
    }
}
