//! The moves of a pass at the table: it takes the hub out, and puts it back with one entry more,
//! with what it saw, or with nothing.
ghost use Rattle.std.specs.Prelude.{◌≡◌, ◌+◌, ◌<◌, ◌^◌, [], ◌∷◌, ◌++◌, length, drop, Some, None, false};
ghost use Rattle.plain_hub.specs.declared.entry.Call.{Call};
ghost use Rattle.plain_hub.specs.Hub.{Legal};
ghost use Rattle.plain_hub.specs.Past.{Past, and_then};
ghost use Rattle.replay_mutex.specs.Views.{knowing};
ghost use Rattle.replay_mutex.specs.Plays.{IsNew, or_none};
ghost use Rattle.replay_mutex.specs.Holding.{IsBoard, Rests, Holds};

use crate::steps::{Back, CountUp, Load, Out, Place, Top};
use plain_hub::PlainHub;
use std::sync::Wait;

// Takes the hub out, once nobody else holds it.
pub(crate) fn take_out<R: Wait>(rt: &R, top: &Top, seat: &mut Place, number: u32) -> PlainHub
    requires top { IsBoard top.now.table_id × (seat.old.table_id ≡ top.now.table_id) }
    requires rests { Rests seat.old.me × (seat.old.me.0.number ≡ number) }
    ensures place { (seat.new.table_id ≡ seat.old.table_id) × (seat.new.id ≡ seat.old.id) }
    ensures new { IsNew seat.old.me.0 result }
    ensures holds { seat.new.me ≡ (
      knowing seat.old.me.0 (Some result.entries) seat.old.me.0.seen seat.old.me.0.mine,
      (0, None) ∷ [],
    ) }
{
    for _ in rt.forever() {
        let found = top.compare_exchange::<Out>(seat, 0, 0, u64::from(number) + 1);
        if found == 0 {
            let Some(hub) = top.exchange(seat, 0, None) else {
                unreachable!()
            };
            return hub;
        }
        if let Ok(holder) = u32::try_from(found) {
            top.park(rt, 0, holder);
        }
    }
    unreachable!()
}

// Puts the hub back as it was.
pub(crate) fn give_up(top: &Top, seat: &mut Place, hub: PlainHub)
    requires top { IsBoard top.now.table_id × (seat.old.table_id ≡ top.now.table_id) }
    requires holds { Holds seat.old.me hub }
    ensures place { (seat.new.table_id ≡ seat.old.table_id) × (seat.new.id ≡ seat.old.id) }
    ensures rests { seat.new.me ≡
        (knowing seat.old.me.0 None seat.old.me.0.seen seat.old.me.0.mine, []) }
{
    drop(top.exchange(seat, 0, Some(hub)));
    top.store::<Back>(seat, 0, 0);
    top.wake_one(0);
}

// Puts the hub back as it was, once its history is seen. Says how long that is.
pub(crate) fn answer(top: &Top, seat: &mut Place, hub: PlainHub) -> u64
    requires top { IsBoard top.now.table_id × (seat.old.table_id ≡ top.now.table_id) }
    requires holds { Holds seat.old.me hub }
    ensures place { (seat.new.table_id ≡ seat.old.table_id) × (seat.new.id ≡ seat.old.id) }
    ensures count { result ≡ length hub.entries }
    ensures rests { seat.new.me ≡
        (knowing seat.old.me.0 None hub.entries seat.old.me.0.mine, []) }
{
    drop(top.exchange(seat, 0, Some(hub)));
    let count = top.load::<Load>(seat, 1);
    top.store::<Back>(seat, 0, 0);
    top.wake_one(0);
    count
}

// Puts the hub back with one entry more.
pub(crate) fn enter(top: &Top, seat: &mut Place, hub: PlainHub)
    requires top { IsBoard top.now.table_id × (seat.old.table_id ≡ top.now.table_id) }
    requires holds { (h : Past) × (c : Call)
        × Holds seat.old.me h × (hub ≡ and_then h seat.old.me.0.number c) }
    ensures place { (seat.new.table_id ≡ seat.old.table_id) × (seat.new.id ≡ seat.old.id) }
    ensures legal { Legal hub.entries }
    ensures rests { seat.new.me ≡ (
      knowing seat.old.me.0 None hub.entries
          (seat.old.me.0.mine ++ drop (length (or_none seat.old.me.0.noted)) hub.entries),
      [],
    ) }
{
    let _count = hub.len();
    drop(top.exchange(seat, 0, Some(hub)));
    top.fetch_add::<CountUp>(seat, 1, 1);
    top.store::<Back>(seat, 0, 0);
    top.wake_one(0);
}
