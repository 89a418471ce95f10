//! What a chain asks of the disk.

ghost use Rattle.std.specs.Prelude.{◌≡◌, ◌+◌, ◌*◌, ◌<◌, ◌≤◌, length, IfOk};
ghost use Rattle.virtio_blk.specs.Requests.{is_well_formed, kind_of, asked, KindFits};

use crate::NoMemory;
use byteorder::{ByteOrder, LittleEndian};
use ram_pages::Draft;
use std::alloc::Global;
use vio_mmio::{BadKind, Chain, gather, total};

/// The length of a sector (virtio 1.2, 5.2).
const SECTOR: u128 = 512;

/// How many bytes a request may move at most.
const MOST: u128 = 1 << 20;

// Types of a request (5.2.6).
const IN: u32 = 0;

const OUT: u32 = 1;

const FLUSH: u32 = 4;

/// What is asked.
#[derive(Clone, Copy, Debug, PartialEq, Eq)]
pub(crate) enum Kind {
    Read { sector: u64, len: u32 },
    Write { sector: u64 },
    Flush,
    /// A read or a write that isn't well-formed.
    Refused,
    /// A type that isn't offered.
    Unknown,
}

/// Whether data of this length at a sector may be read or written.
pub(crate) fn well_formed(size: u128, sector: u64, sectors: u64) -> bool
    ensures { result ≡ is_well_formed size sector sectors }
{
    size % SECTOR == 0 && size <= MOST && sector as u128 + size / SECTOR <= sectors as u128
}

/// What the header asks, where so many bytes are readable and writable.
#[tactic(auto, unfolding(crate::specs::Requests::kind_of))]
fn read_kind(header: &[u8], readable: u128, writable: u128, sectors: u64) -> Kind
    requires { 16 ≤ length header.now }
    ensures kind { result ≡ kind_of header.now readable writable sectors }
    ensures fits { KindFits result sectors }
{
    let sector = LittleEndian::read_u64(&header[8..]);
    match LittleEndian::read_u32(header) {
        IN => {
            let data = writable.saturating_sub(1);
            if well_formed(data, sector, sectors) {
                Kind::Read {
                    sector,
                    len: data as u32,
                }
            } else {
                Kind::Refused
            }
        }
        OUT => {
            if well_formed(readable.saturating_sub(16), sector, sectors) {
                Kind::Write { sector }
            } else {
                Kind::Refused
            }
        }
        FLUSH => Kind::Flush,
        _ => Kind::Unknown,
    }
}

/// What a chain asks, or that it is too short.
#[tactic(auto, unfolding(crate::specs::Requests::asked))]
pub(crate) fn parse(
    alloc: Global,
    draft: &Draft<'_>,
    chain: &Chain,
    sectors: u64,
) -> Result<Result<Kind, BadKind>, NoMemory>
    ensures asked { IfOk result (λ found. found
        ≡ asked draft.now.bytes chain.now.readable.items chain.now.writable.items sectors) }
    ensures fits { IfOk result (λ found. IfOk found (λ kind. KindFits kind sectors)) }
{
    let header = gather(alloc, draft, chain.readable.as_slice(), 16)?;
    let writable = total(chain.writable.as_slice());
    if header.len() < 16 || writable == 0 {
        return Ok(Err(BadKind::Range));
    }
    let readable = total(chain.readable.as_slice());
    Ok(Ok(read_kind(header.as_slice(), readable, writable, sectors)))
}
