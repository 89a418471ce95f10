//! The table of a hub, its rule, and what each kind of step tells. All but the table's own types
//! is for contracts alone.
use crate::View;
use atomic_table::{Join, Play, Seat, Shared, Split, Table, TableRule};
use plain_hub::{Mark, PlainHub};
use std::alloc::Global;
use std::snapshot::Snapshot;

pub(crate) struct Law;

impl TableRule<Option<PlainHub>, View, Snapshot<Mark>> for Law {
    ghost use Rattle.replay_mutex.specs.Rule.{Ruled};
    ghost use Rattle.replay_mutex.specs.Views.{newcomer};

    ghost holds = { λ _ s. Ruled s };

    ghost first = { λ key. newcomer key.value 0 1 };
}

// The slot is taken out, or another holds it.
pub(crate) struct Out;

impl Play<Option<PlainHub>, View> for Out {
    ghost use Rattle.replay_mutex.specs.Plays.{Takes};

    ghost then = { Takes };
}

// The history has one entry more.
pub(crate) struct CountUp;

impl Play<Option<PlainHub>, View> for CountUp {
    ghost use Rattle.replay_mutex.specs.Plays.{Counts};

    ghost then = { Counts };
}

// The history is seen.
pub(crate) struct Load;

impl Play<Option<PlainHub>, View> for Load {
    ghost use Rattle.replay_mutex.specs.Plays.{Loads};

    ghost then = { Loads };
}

// The slot goes back.
pub(crate) struct Back;

impl Play<Option<PlainHub>, View> for Back {
    ghost use Rattle.replay_mutex.specs.Plays.{Returns};

    ghost then = { Returns };
}

// A pass is made.
pub(crate) struct Cut;

impl Split<View> for Cut {
    ghost use Rattle.replay_mutex.specs.Views.{newcomer, one_more};

    ghost left = { one_more };

    ghost right = { λ v. newcomer v.base v.made 0 };
}

// A pass is taken in.
pub(crate) struct TakeIn;

impl Join<View> for TakeIn {
    ghost use Rattle.replay_mutex.specs.Views.{taken_in, spent};

    ghost both = { taken_in };

    ghost spent = { spent };
}

pub(crate) type Board = Table<Option<PlainHub>, View, Snapshot<Mark>, Law, Global>;

// What threads share of the table.
pub(crate) type Top = Shared<Option<PlainHub>, View, Snapshot<Mark>, Law>;

// A pass's seat at the table.
pub(crate) type Place = Seat<Option<PlainHub>, View>;
