//! The hub.
ghost use Rattle.replay_mutex.specs.Holding.{IsBoard};

use crate::steps::Board;

/// A hub behind a lock. Threads call it by a `&` to it, each with a pass of its own.
#[derive(Drop)]
pub struct Hub {
    pub(crate) board: Board,
    ghost sized: { IsBoard board.shared.table_id },
}
