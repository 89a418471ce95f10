//! Chains given back to the driver.

ghost use Rattle.std.specs.Prelude.{◌≡◌, ◌<◌, OnOk};
ghost use Rattle.vio_mmio.specs.GiveBack.{given_back};

use crate::NoMemory;
use crate::error::QueueError;
use crate::transport::Transport;
use ram_pages::Draft;
use std::alloc::AllocError;

impl Transport {
    /// Gives a chain back as used, or asks for a reset where no used ring lies in RAM. After an
    /// `Err` the draft may hold a part of the entry.
    #[tactic(auto, unfolding(crate::specs::GiveBack::given_back))]
    pub fn give_back(
        &mut self,
        q: u32,
        draft: &mut Draft<'_>,
        head: u16,
        len: u32,
    ) -> Result<(), NoMemory>
        ensures before { draft.new.before ≡ draft.old.before }
        ensures ok { OnOk result
            ((draft.new.bytes, self.new) ≡ given_back draft.old.bytes self.old q head len) }
    {
        if self.queue_size(q) == 0 {
            self.needs_reset();
            return Ok(());
        }
        match self.push_used(q, draft, head, len) {
            Ok(()) => Ok(()),
            Err(QueueError::Bad(_)) => {
                self.needs_reset();
                Ok(())
            }
            Err(QueueError::NoMemory) => Err(AllocError),
        }
    }
}
