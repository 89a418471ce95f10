//! A hub is made with all its passes.
ghost use Rattle.std.specs.Prelude.{◌≡◌, ◌+◌, ◌≤◌, [], IfOk, vec_len};
ghost use Rattle.plain_hub.specs.Base.{told};
ghost use Rattle.replay_mutex.specs.Views.{newcomer};
ghost use Rattle.replay_mutex.specs.Holding.{IsBoard};
ghost use Rattle.replay_mutex.specs.Shown.{board_of};
ghost use Rattle.replay_mutex.specs.Row.{AreNew};

use crate::steps::{Board, Cut, Place};
use crate::{Hub, Pass};
use atomic_table::Table;
use outside::{Image, NoMemory};
use plain_hub::{Mark, PlainHub};
use std::alloc::{AllocError, Global};
use std::snapshot::Snapshot;

impl Hub {
    /// A hub and its passes: the machine's, then the workers', then the readers'. What the image
    /// tells is the hub's base, for contracts alone. There is room for every `end` and for `stop`.
    pub fn new<I: Image>(
        alloc: Global,
        workers: u32,
        readers: u32,
        base: &I,
    ) -> Result<(Hub, Vec<Pass>), NoMemory>
        requires workers { (1 ≤ workers) × (workers ≤ 8) }
        requires readers { readers ≤ 8 }
        ensures count { IfOk result (λ t. vec_len t.1 ≡ 1 + workers + readers) }
        ensures passes { IfOk result (λ t. AreNew (board_of t.0)
            (told (I.size base.now) (I.content base.now)) (1 + workers + readers) t.1.items) }
    {
        let mark = Mark::of(alloc, base)?;
        make(alloc, mark, 1 + workers + readers)
    }
}

fn make(alloc: Global, mark: Mark, count: u32) -> Result<(Hub, Vec<Pass>), NoMemory>
    requires { (1 ≤ count) × (count ≤ 17) }
    ensures count { IfOk result (λ t. vec_len t.1 ≡ count) }
    ensures passes { IfOk result (λ t. AreNew (board_of t.0) mark count t.1.items) }
{
    let mut passes = Vec::with_capacity(alloc, count as usize)?;
    let (board, mut seat) = open(alloc, mark)?;
    for number in 1..count {
        let seat = board.shared.split_seat::<Cut>(&mut seat);
        passes.push_reserved(Pass {
            number,
            made: 0,
            seat,
        });
    }
    let first = Pass {
        number: 0,
        made: count,
        seat,
    };
    passes.insert(0, first)?;
    Ok((Hub { board }, passes))
}

fn open(alloc: Global, mark: Mark) -> Result<(Board, Place), NoMemory>
    ensures board { IfOk result (λ t. IsBoard t.0.shared.table_id) }
    ensures seat { IfOk result (λ t.
        (t.1.table_id ≡ t.0.shared.table_id) × (t.1.me ≡ (newcomer mark 0 1, []))) }
{
    let key = Snapshot::of(&mark);
    let mut slots = Vec::new(alloc);
    slots.push(Some(PlainHub::new(alloc, mark)?))?;
    match Table::new(alloc, &[0, 0], slots, &key) {
        Ok(opened) => Ok(opened),
        Err(_) => Err(AllocError),
    }
}
