//! Requests that are done.

ghost use Rattle.std.specs.Prelude.{◌≡◌, ◌+◌, ◌*◌, ◌/◌, ◌%◌, ◌<◌, ◌≤◌, ◌^◌, ◌&&◌, not, length, IfOk, OnOk, OnErr, take, drop};
ghost use Rattle.overlay_disk.specs.Sectors.{sector_of};
ghost use Rattle.virtio_blk.specs.Completed.{is_read, status_of, used_of, answered, look_over, sent_by, disk_after, put_over, BaseIsWhole, written_where};
ghost use Rattle.virtio_blk.specs.Notify.{ask_of};
ghost use Rattle.vio_mmio.specs.Spread.{gathered};
ghost use Rattle.virtio_blk.specs.Requests.{KindFits, is_well_formed};

use crate::NoMemory;
use crate::notify::Parsed;
use crate::parse::{Kind, well_formed};
use overlay_disk::{Overlay, OverlayError};
use ram_pages::{Draft, Ram};
use std::alloc::{AllocError, Global};
use vio_mmio::{Segment, gather, last_place, put, scatter, total};

// The status of a request (virtio 1.2, 5.2.6).
const OK: u8 = 0;

const IOERR: u8 = 1;

const UNSUPP: u8 = 2;

/// Why a completion was refused.
#[derive(Clone, Copy, Debug, PartialEq, Eq)]
pub enum CompleteError {
    /// No request of this id is in flight.
    NotInFlight(u64),
    /// A read that failed is told of a request that reads nothing.
    NotARead(u64),
    NoMemory,
}

fn reads(kind: Kind) -> bool
    ensures { result ≡ is_read kind }
{
    matches!(kind, Kind::Read { .. })
}

/// Whether a failed read is told of a request that reads nothing.
pub(crate) fn is_refused(kind: Kind, ok: bool) -> bool
    ensures { result ≡ (not ok && not (is_read kind)) }
{
    !ok && !reads(kind)
}

/// The status that the guest sees.
pub(crate) fn status(kind: Kind, ok: bool) -> u8
    ensures { result ≡ status_of kind ok }
{
    match kind {
        Kind::Read { .. } => if ok { OK } else { IOERR },
        Kind::Write { .. } => OK,
        Kind::Flush => OK,
        Kind::Refused => IOERR,
        Kind::Unknown => UNSUPP,
    }
}

/// How many bytes are said to be written.
pub(crate) fn used(kind: Kind, ok: bool, writable: &[Segment]) -> u32
    ensures { result ≡ used_of kind ok writable.now }
{
    if ok && reads(kind) {
        (total(writable) % 0x1_0000_0000) as u32
    } else {
        1
    }
}

/// The bytes that a request gives the guest: those of the disk at a read that succeeds, and else
/// none.
pub(crate) fn look(
    alloc: Global,
    disk: &Overlay,
    kind: Kind,
    ok: bool,
    base: &[u8],
) -> Result<Vec<u8>, NoMemory>
    requires fits { KindFits kind (disk.now.len / 512) }
    requires whole { BaseIsWhole kind ok base.now }
    ensures { IfOk result (λ v. v.items ≡ look_over base.now kind ok (sector_of disk.now)) }
{
    match kind {
        Kind::Read { sector, len: _ } => {
            if !ok {
                return Ok(Vec::new(alloc));
            }
            let mut bytes = Vec::from_slice(alloc, base)?;
            match disk.merge(sector, bytes.as_mut_slice()) {
                Ok(()) => Ok(bytes),
                Err(_) => unreachable!(),
            }
        }
        _ => Ok(Vec::new(alloc)),
    }
}

/// Writes the bytes and the status. After an `Err` a part may be written.
pub(crate) fn answer(
    draft: &mut Draft<'_>,
    writable: &[Segment],
    found: &[u8],
    status: u8,
) -> Result<(), NoMemory>
    ensures before { draft.new.before ≡ draft.old.before }
    ensures ok { OnOk result
        (draft.new.bytes ≡ answered draft.old.bytes writable.now found.now status) }
{
    scatter(draft, writable, found)?;
    put(draft, last_place(writable), &[status])?;
    Ok(())
}

/// The bytes that a write gives the disk: at most one more than a write may have.
fn sent(alloc: Global, ram: &Ram, readable: &[Segment]) -> Result<Vec<u8>, NoMemory>
    ensures { IfOk result (λ v. v.items ≡ take 1048577 (drop 16 (gathered ram.now readable.now))) }
{
    let draft = ram.draft();
    let all = gather(alloc, &draft, readable, 16 + 1048577)?;
    let bytes = all.as_slice();
    let header = 16usize.min(bytes.len());
    Vec::from_slice(alloc, &bytes[header..])
}

/// Writes to the disk what a request gives it. An `Err` leaves the disk as it was.
pub(crate) fn write_disk(
    alloc: Global,
    disk: &mut Overlay,
    ram: &Ram,
    parsed: &Parsed,
) -> Result<(), NoMemory>
    ensures len { disk.new.len ≡ disk.old.len }
    ensures ok { OnOk result (sector_of disk.new ≡ disk_after put_over (disk.old.len / 512)
        parsed.now.kind (sent_by ram.now (ask_of parsed.now)) (sector_of disk.old)) }
    ensures err { OnErr result (disk.new ≡ disk.old) }
{
    match parsed.kind {
        Kind::Write { sector } => {
            let fresh = sent(alloc, ram, parsed.chain.readable.as_slice())?;
            write_sent(alloc, disk, sector, fresh.as_slice())
        }
        _ => Ok(()),
    }
}

/// Writes whole sectors to the disk, or nothing where the bytes are no well-formed write.
fn write_sent(alloc: Global, disk: &mut Overlay, sector: u64, fresh: &[u8]) -> Result<(), NoMemory>
    ensures len { disk.new.len ≡ disk.old.len }
    ensures ok { OnOk result (sector_of disk.new ≡ written_where disk.old sector fresh.now) }
    ensures err { OnErr result (disk.new ≡ disk.old) }
{
    if !well_formed(fresh.len() as u128, sector, disk.sectors()) {
        return Ok(());
    }
    match disk.write(alloc, sector, fresh) {
        Ok(()) => Ok(()),
        Err(OverlayError::PastEnd) => unreachable!(),
        Err(OverlayError::NoMemory) => Err(AllocError),
    }
}
