//! A pass: what a thread calls the hub with.
ghost use Rattle.std.specs.Prelude.{◌≡◌, ◌<◌, [], None, false};
ghost use Rattle.replay_mutex.specs.Views.{calls_by};

use crate::steps::Place;

/// A seat at the hub's table, which holds nothing between calls. It knows what it has seen and
/// called.
#[derive(Drop)]
pub struct Pass {
    pub(crate) number: u32,
    // How many passes there are, where this is the pass 0.
    pub(crate) made: u32,
    pub(crate) seat: Place,
    ghost numbered: { seat.me.0.number ≡ number },
    ghost few: { number < 17 },
    ghost counted: { seat.me.0.made ≡ made },
    ghost empty: { seat.me.1 ≡ [] },
    ghost free: { seat.me.0.noted ≡ None },
    ghost own: { calls_by seat.me.0.number seat.me.0.seen ≡ seat.me.0.mine },
    ghost here: { seat.me.0.spent ≡ false },
}

impl Pass {
    ghost use Rattle.std.specs.Prelude.{◌≡◌};
    ghost use Rattle.replay_mutex.specs.Shown.{knows};

    /// Its number: 0 is the machine's, then come the workers and then the readers. Takes no memory.
    pub fn number(&self) -> u32
        ensures { result ≡ (knows self.now).number }
    {
        self.number
    }
}
