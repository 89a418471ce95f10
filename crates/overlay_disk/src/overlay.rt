//! The overlay.

ghost use Rattle.std.specs.Prelude.{◌≡◌, ℕ, ◌+◌, ◌*◌, ◌/◌, ◌%◌, ◌<◌, ◌≤◌, ◌^◌, length, slice_index, MatchResult, IfOk, OnOk, OnErr, []};
ghost use Rattle.overlay_disk.specs.Sectors.{Disk, sector_of, over, Writes, WritesIn};
ghost use Rattle.overlay_disk.specs.Trees.{entries_of, sector_in};

use crate::NoMemory;
use crate::tree::{Node, Sector, find, put, shared};
use ram_pages::little::write_bytes;
use std::alloc::Global;
use std::marker::Model;
use std::rc::Rc;

/// A range passes the disk's end.
#[derive(Clone, Copy, Debug, PartialEq, Eq)]
pub struct PastEnd;

/// Why a write was refused.
#[derive(Clone, Copy, Debug, PartialEq, Eq)]
pub enum OverlayError {
    PastEnd,
    NoMemory,
}

/// The sectors that were written.
#[derive(Drop)]
pub struct Overlay {
    len: u64,
    written: Option<Rc<Node>>,
}

impl Model for Overlay {
    ghost use Rattle.overlay_disk.specs.Sectors.{Disk};
    ghost use Rattle.overlay_disk.specs.Trees.{entries_of};

    ghost Value = { Disk };

    ghost view = { λ d. record { len = d.len; written = entries_of d.written } };
}

/// Puts the sectors of a tree over the bytes of a range.
fn merge_sectors(written: &Option<Rc<Node>>, sector: u64, base: &mut [u8])
    requires whole { length base.old % 512 ≡ 0 }
    requires fits { sector + length base.old / 512 < 2 ^ 64 }
    ensures { base.new ≡ over (sector_in written.now) (512 * sector) base.old }
{
    for k in 0..base.len() / 512 {
        match find(written, sector + k as u64) {
            Some(found) => write_bytes(base, 512 * k, &found.bytes),
            None => (),
        }
    }
}

/// A sector of these bytes.
fn sector_of_bytes(alloc: Global, bytes: &[u8]) -> Result<Rc<Sector>, NoMemory>
    requires { length bytes.now ≡ 512 }
    ensures { IfOk result (λ sector. sector.value.bytes ≡ bytes.now) }
{
    let mut fresh = Sector { bytes: [0; 512] };
    fresh.bytes.copy_from_slice(bytes);
    let sector = Rc::new(alloc, fresh)?;
    Ok(sector)
}

/// A tree with these bytes in whole sectors. The one that is passed stays as it is.
fn with_sectors(
    alloc: Global,
    written: &Option<Rc<Node>>,
    sector: u64,
    bytes: &[u8],
) -> Result<Option<Rc<Node>>, NoMemory>
    requires whole { length bytes.now % 512 ≡ 0 }
    requires fits { sector + length bytes.now / 512 < 2 ^ 64 }
    ensures { IfOk result
        (λ after. WritesIn written.now after sector (length bytes.now / 512) bytes.now) }
{
    let mut after = shared(written)?;
    for k in 0..bytes.len() / 512 {
        let fresh = sector_of_bytes(alloc, &bytes[512 * k..512 * k + 512])?;
        put(alloc, &mut after, sector + k as u64, fresh)?;
    }
    Ok(after)
}

/// Writes bytes over whole sectors of a tree: one sector in place, and several on a share of the
/// tree, so that a refusal among them leaves all as it was.
fn write_sectors(
    alloc: Global,
    written: &mut Option<Rc<Node>>,
    sector: u64,
    bytes: &[u8],
) -> Result<(), NoMemory>
    requires whole { length bytes.now % 512 ≡ 0 }
    requires fits { sector + length bytes.now / 512 < 2 ^ 64 }
    ensures ok { OnOk result
        (WritesIn written.old written.new sector (length bytes.now / 512) bytes.now) }
    ensures err { OnErr result (entries_of written.new ≡ entries_of written.old) }
{
    if bytes.len() == 512 {
        let fresh = sector_of_bytes(alloc, bytes)?;
        return put(alloc, written, sector, fresh);
    }
    *written = with_sectors(alloc, written, sector, bytes)?;
    Ok(())
}

impl Overlay {
    /// The overlay of a disk of this length, in which no sector is written. It takes no memory.
    pub fn new(len: u64) -> Overlay
        ensures { result ≡ record { len = len; written = [] } }
    {
        Overlay { len, written: None }
    }

    /// How many whole sectors the disk has.
    pub fn sectors(&self) -> u64
        ensures count { result ≡ self.now.len / 512 }
        ensures few { result < 2 ^ 55 }
    {
        self.len / 512
    }

    /// Puts the sectors that are written over the base's bytes of a range.
    pub fn merge(&self, sector: u64, base: &mut [u8]) -> Result<(), PastEnd>
        requires { length base.old % 512 ≡ 0 }
        ensures { MatchResult result
            (λ _. (sector + length base.old / 512 ≤ self.now.len / 512)
            × (base.new ≡ over (sector_of self.now) (512 * sector) base.old))
            (λ _. (self.now.len / 512 < sector + length base.old / 512)
            × (base.new ≡ base.old)) }
    {
        let count = base.len() / 512;
        let sectors = self.sectors();
        if sector > sectors || count as u64 > sectors - sector {
            return Err(PastEnd);
        }
        merge_sectors(&self.written, sector, base);
        Ok(())
    }

    /// Writes whole sectors. A refusal leaves all as it was.
    pub fn write(&mut self, alloc: Global, sector: u64, bytes: &[u8]) -> Result<(), OverlayError>
        requires { length bytes.now % 512 ≡ 0 }
        ensures { Writes self.old self.new sector bytes.now result }
    {
        let count = bytes.len() as u64 / 512;
        let sectors = self.sectors();
        if sector > sectors || count > sectors - sector {
            return Err(OverlayError::PastEnd);
        }
        match write_sectors(alloc, &mut self.written, sector, bytes) {
            Ok(()) => Ok(()),
            Err(_) => Err(OverlayError::NoMemory),
        }
    }

    /// An overlay of the same sectors. Later writes of one don't show in the other.
    pub fn share(&self) -> Result<Overlay, NoMemory>
        ensures { IfOk result (λ copy. copy ≡ self.now) }
    {
        let written = shared(&self.written)?;
        Ok(Overlay {
            len: self.len,
            written,
        })
    }
}
