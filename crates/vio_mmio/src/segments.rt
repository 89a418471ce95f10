//! Bytes that are spread over ranges of the guest's memory.

ghost use Rattle.std.specs.Prelude.{◌≡◌, ◌+◌, ◌*◌, ◌-◌, ◌<◌, ◌≤◌, ◌^◌, ◌++◌, length, take, drop, IfOk, OnOk};
ghost use Rattle.vio_mmio.specs.Spread.{put_at, got_at, scattered, gathered, total_of, last_of};

use crate::NoMemory;
use crate::chain::Segment;
use ram_pages::{Draft, RamError};
use std::alloc::{AllocError, Global};

/// Writes bytes over a range, if it lies in RAM.
pub fn put(draft: &mut Draft<'_>, at: u64, fresh: &[u8]) -> Result<(), NoMemory>
    ensures before { draft.new.before ≡ draft.old.before }
    ensures ok { OnOk result (draft.new.bytes ≡ put_at draft.old.bytes at fresh.now) }
{
    match draft.copy_in(at, fresh) {
        Ok(()) => Ok(()),
        Err(RamError::Outside) => Ok(()),
        Err(RamError::NoMemory) => Err(AllocError),
    }
}

/// The bytes of a range, or none if it doesn't lie in RAM.
fn get(alloc: Global, draft: &Draft<'_>, at: u64, len: u32) -> Result<Vec<u8>, NoMemory>
    ensures { IfOk result (λ v. v.items ≡ got_at draft.now.bytes at len) }
{
    match draft.copy_out(alloc, at, len) {
        Ok(bytes) => Ok(bytes),
        Err(RamError::Outside) => Ok(Vec::new(alloc)),
        Err(RamError::NoMemory) => Err(AllocError),
    }
}

/// Writes bytes over the ranges in turn, as far as they go.
pub fn scatter(draft: &mut Draft<'_>, segments: &[Segment], fresh: &[u8]) -> Result<(), NoMemory>
    ensures before { draft.new.before ≡ draft.old.before }
    ensures ok { OnOk result (draft.new.bytes ≡ scattered draft.old.bytes segments.now fresh.now) }
{
    let mut rest = fresh;
    for s in segments {
        let count = (s.len as usize).min(rest.len());
        let (front, behind) = rest.split_at(count);
        put(draft, s.at, front)?;
        rest = behind;
    }
    Ok(())
}

/// Adds the bytes of a range, as far as there is room for at most so many in all.
fn gather_more(
    alloc: Global,
    draft: &Draft<'_>,
    s: &Segment,
    most: usize,
    out: &mut Vec<u8>,
) -> Result<(), NoMemory>
    requires { length out.old.items ≤ most }
    ensures { OnOk result (out.new.items
        ≡ take most (out.old.items ++ got_at draft.now.bytes s.now.at s.now.len)) }
{
    if out.len() == most {
        return Ok(());
    }
    let bytes = get(alloc, draft, s.at, s.len)?;
    let count = bytes.len().min(most - out.len());
    let all = bytes.as_slice();
    out.extend_from_slice(&all[..count])?;
    Ok(())
}

/// The first bytes of the ranges, at most so many.
pub fn gather(
    alloc: Global,
    draft: &Draft<'_>,
    segments: &[Segment],
    most: usize,
) -> Result<Vec<u8>, NoMemory>
    ensures { IfOk result (λ v. v.items ≡ take most (gathered draft.now.bytes segments.now)) }
{
    let mut out = Vec::new(alloc);
    for s in segments {
        gather_more(alloc, draft, s, most, &mut out)?;
    }
    Ok(out)
}

/// How many bytes the ranges have.
pub fn total(segments: &[Segment]) -> u128
    ensures { result ≡ total_of segments.now }
{
    let mut sum = 0u128;
    for s in segments {
        sum += s.len as u128;
    }
    sum
}

/// The address of the last byte of the ranges, which a status stands at.
pub fn last_place(segments: &[Segment]) -> u64
    ensures { result ≡ last_of segments.now 0 }
{
    let mut place = 0u64;
    for s in segments {
        if s.len != 0 {
            place = s.at.saturating_add(s.len as u64 - 1);
        }
    }
    place
}
