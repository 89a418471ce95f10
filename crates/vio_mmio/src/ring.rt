//! The rings of a split queue (virtio 1.2, 2.7.6 and 2.7.8).

ghost use Rattle.std.specs.Prelude.{◌≡◌, ◌+◌, ◌<◌, ◌≤◌, ◌^◌, MatchOption, true, false};
ghost use Rattle.vio_mmio.specs.Ring.{lies_in, next_head_of, is_wanted, IsPushed};

use crate::error::{BadKind, QueueError};
use crate::queue::Queue;
use ram_pages::Draft;

/// The flag of the available ring by which a driver asks for no interrupt (2.7.6).
const NO_INTERRUPT: u16 = 0x1;

/// The address of a range that begins some way behind a base, where it lies in RAM.
pub(crate) fn placed(draft: &Draft<'_>, base: u64, offset: u64, len: u64) -> Option<u64>
    ensures { MatchOption result
        (lies_in draft.now.bytes (base + offset) len ≡ false)
        (λ at. (at ≡ base + offset) × (at + len ≤ 2 ^ 32)
        × (lies_in draft.now.bytes (base + offset) len ≡ true)) }
{
    let Some(at) = base.checked_add(offset) else {
        let _small = draft.holds(base, 0);
        return None;
    };
    if draft.holds(at, len) { Some(at) } else { None }
}

/// The head that the available ring shows next, if any.
#[tactic(auto, unfolding(crate::specs::Ring::next_head_of))]
pub(crate) fn next_head(queue: &Queue, draft: &Draft<'_>) -> Result<Option<u16>, BadKind>
    requires { 0 < queue.now.size }
    ensures { result ≡ next_head_of draft.now.bytes queue.now }
{
    let size = queue.size;
    let Some(ring) = placed(draft, queue.available, 0, 4 + 2 * size as u64) else {
        return Err(BadKind::Ring);
    };
    let index = draft.read_u16(ring + 2);
    let ahead = index.wrapping_sub(queue.seen) as u32;
    if ahead > size {
        return Err(BadKind::Ring);
    }
    if ahead == 0 {
        return Ok(None);
    }
    let place = queue.seen as u64 % size as u64;
    Ok(Some(draft.read_u16(ring + 4 + 2 * place)))
}

/// Whether the driver wants an interrupt for a used entry.
pub(crate) fn wants_interrupt(queue: &Queue, draft: &Draft<'_>) -> bool
    ensures { result ≡ is_wanted draft.now.bytes queue.now }
{
    match placed(draft, queue.available, 0, 2) {
        Some(at) => draft.read_u16(at) & NO_INTERRUPT == 0,
        None => true,
    }
}

/// Writes a used entry, and then the used index. After `NoMemory` a part may be written.
pub(crate) fn push_entry(
    queue: &Queue,
    draft: &mut Draft<'_>,
    head: u16,
    len: u32,
) -> Result<(), QueueError>
    requires { 0 < queue.now.size }
    ensures before { draft.new.before ≡ draft.old.before }
    ensures entry { IsPushed draft.old.bytes draft.new.bytes queue.now head len result }
{
    let size = queue.size as u64;
    let Some(ring) = placed(draft, queue.used, 0, 4 + 8 * size) else {
        return Err(QueueError::Bad(BadKind::Ring));
    };
    let entry = ring as u32 + 4 + 8 * (queue.gone as u32 % queue.size);
    if draft.store(entry, 4, head as u32).is_err() {
        return Err(QueueError::NoMemory);
    }
    if draft.store(entry + 4, 4, len).is_err() {
        return Err(QueueError::NoMemory);
    }
    let index = queue.gone.wrapping_add(1);
    if draft.store(ring as u32 + 2, 2, index as u32).is_err() {
        return Err(QueueError::NoMemory);
    }
    Ok(())
}
