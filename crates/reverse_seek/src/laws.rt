//! What the state at a count is.

ghost use Rattle.std.specs.Prelude.{◌≤◌, ℕ};
ghost use Rattle.board.specs.Runs.{state_at};
ghost use Rattle.reverse_seek.specs.Script.{Script as AScript, IsScript};
ghost use Rattle.reverse_seek.specs.Trace.{states_of, IsLastAt};

/// The state at a count of turns, which a timeline shows there, is the last state with that count of
/// the run in single turns. So all events that come before the next turn were taken.
pub fn state_is_the_last_at_its_count()
    ensures { (s : AScript) → IsScript s → (n : ℕ) → n ≤ s.last
        → IsLastAt (states_of s.start s.events) n (state_at s.start s.events n) }
{}
