//! A law of recordings and replays.

ghost use Rattle.std.specs.Prelude.{List, ℕ};
ghost use Rattle.board.specs.State.{State};
ghost use Rattle.rr_engine.specs.declared.replaying.ReplayEnd.{ReplayEnd as AReplayEnd};
ghost use Rattle.rr_engine.specs.Stand.{Devices};
ghost use Rattle.rr_engine.specs.Runs.{Whole};
ghost use Rattle.rr_engine.specs.Replaying.{Played, Replays};
ghost use Rattle.rr_engine.specs.Replayable.{ReadsBack, EndsAlike};

/// A recorded log is replayable: where a recording wrote its whole log and a replay from the same
/// start reads it back, the replay ends by the same END, with the same console bytes. It refuses
/// nothing, and ends otherwise only where a device of its own fails or memory is refused.
pub fn recorded_log_is_replayable()
    ensures { (start : State) (head : List ℕ) (old new : Devices) (reason code : ℕ)
        (p q : Played) (end : AReplayEnd)
        → Whole start head old new reason code → ReadsBack head old new p
        → Replays start p q end → EndsAlike reason code old new p q end }
{}
