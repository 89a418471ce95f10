//! Parts of the tests.
ghost use Rattle.std.specs.Prelude.{◌≡◌, ◌≢◌, [], length, Some, OnOk, IfSome, All};
ghost use Rattle.plain_hub.specs.Base.{told};
ghost use Rattle.plain_hub.specs.Proper.{Owes};
ghost use Rattle.replay_mutex.specs.Shown.{knows, board_of, IsPassOf, IsSame};
ghost use Rattle.replay_mutex.specs.Row.{AreNew};

use crate::{CloseError, History, Hub, Item, Job, Pass, PostError};
use outside::{Bytes, MemImage, NoMemory};
use std::alloc::Global;
use std::sync::Wait;

// An image of length 0.
pub(crate) fn nothing(alloc: Global) -> MemImage
    ensures { result.bytes ≡ [] }
{
    MemImage::new(Vec::new(alloc), Vec::new(alloc))
}

// The last pass of a new row, if it has this number.
pub(crate) fn last_of(
    hub: &Hub,
    image: &MemImage,
    count: u32,
    passes: &mut Vec<Pass>,
    number: u32,
) -> Option<Pass>
    requires { AreNew (board_of hub.now)
        (told (length image.now.bytes) (Some image.now.bytes)) count passes.old.items }
    ensures rest { AreNew (board_of hub.now)
        (told (length image.now.bytes) (Some image.now.bytes)) count passes.new.items }
    ensures own { IfSome result (λ p. IsPassOf hub.now p) }
    ensures number { IfSome result (λ p. (knows p).number ≡ number) }
    ensures new { IfSome result (λ p. (knows p).mine ≡ []) }
{
    let _ = image;
    let pass = passes.pop()?;
    if pass.number() == number {
        Some(pass)
    } else {
        None
    }
}

// Closes a hub without one of its passes, and once that fails with it.
pub(crate) fn closed_late(
    hub: Hub,
    passes: Vec<Pass>,
    left_out: Pass,
) -> Result<Option<History>, NoMemory>
    requires others { All (IsPassOf hub) passes.items }
    requires one { IsPassOf hub left_out }
{
    let Some(back) = refused(hub, passes) else {
        return Ok(None);
    };
    let (hub, mut passes) = back;
    passes.push(left_out)?;
    Ok(hub.close(passes).ok())
}

// All of a hub that was not closed.
fn refused(hub: Hub, passes: Vec<Pass>) -> Option<(Hub, Vec<Pass>)>
    requires { All (IsPassOf hub) passes.items }
    ensures { IfSome result (λ t. (t.0 ≡ hub) × (t.1 ≡ passes)) }
{
    match hub.close(passes) {
        Err(CloseError::NotAll(hub, passes)) => Some((hub, passes)),
        _ => None,
    }
}

// A job that reads nothing.
pub(crate) fn empty_job(id: u64) -> Job
    ensures { result ≡ record { id = id; at = 0; len = 0 } }
{
    Job { id, at: 0, len: 0 }
}

// Posts the Done of a claimed job that reads nothing, or hands the item back.
pub(crate) fn post_empty<R: Wait>(
    rt: &R,
    alloc: Global,
    hub: &Hub,
    pass: &mut Pass,
    job: Job,
) -> Option<PostError>
    requires own { IsPassOf hub.now pass.old }
    requires owes { Owes (knows pass.old).mine (knows pass.old).number job }
    requires kind { (knows pass.old).number ≢ 0 }
    ensures same { IsSame pass.old pass.new }
{
    if job.len != 0 {
        return None;
    }
    let read = Some(Bytes::from_vec(Vec::new(alloc)));
    hub.post(rt, pass, Item::Done { id: job.id, read }).err()
}

// Issues jobs that read nothing, with the ids below `count`.
pub(crate) fn issue_all<R: Wait>(
    rt: &R,
    hub: &Hub,
    machine: &mut Pass,
    count: u64,
) -> Result<(), NoMemory>
    requires own { IsPassOf hub.now machine.old }
    requires kind { (knows machine.old).number ≡ 0 }
    requires new { (knows machine.old).mine ≡ [] }
    ensures same { IsSame machine.old machine.new }
{
    for id in 0..count {
        hub.issue(rt, machine, empty_job(id))?;
    }
    Ok(())
}

// Posts a console item of one byte.
pub(crate) fn post_piece<R: Wait>(
    rt: &R,
    alloc: Global,
    hub: &Hub,
    pass: &mut Pass,
) -> Result<(), PostError>
    requires own { IsPassOf hub.now pass.old }
    requires kind { (knows pass.old).number ≢ 0 }
    ensures same { IsSame pass.old pass.new }
{
    let Ok(piece) = Bytes::of(alloc, b"x") else {
        return Ok(());
    };
    hub.post(rt, pass, Item::Console(piece))
}
