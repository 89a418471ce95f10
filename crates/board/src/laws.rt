//! Laws of whole runs.

ghost use Rattle.std.specs.Prelude.{◌≡◌, ◌≤◌, ℕ, List, Some, IfSome, IsSome};
ghost use Rattle.event_log.specs.declared.event.Event.{Event as AnEvent};
ghost use Rattle.board.specs.State.{State};
ghost use Rattle.board.specs.Due.{due};
ghost use Rattle.board.specs.Close.{close};
ghost use Rattle.board.specs.Turn.{turn};
ghost use Rattle.board.specs.Runs.{step, run, turns, state_at};
ghost use Rattle.board.specs.Taken.{Taken, with_taken, map_taken};
ghost use Rattle.elf_load.specs.declared.pieces.Loaded.{Loaded as AnImage};
ghost use Rattle.board.specs.declared.config.Config.{Config as AConfig};
ghost use Rattle.board.specs.Reset.{reset};
ghost use Rattle.board.specs.Effect.{Effect, IsStep, levelled};
ghost use Rattle.board.specs.Laws.{NoLater, IsLaterBy, IdlesUntil, ResumesAt, ShowsLines};

/// What was taken before plays no part in a run.
pub fn taken()
    ensures due { (before : Taken) (g : State) → due (with_taken before g) ≡ due g }
    ensures run { (before : Taken) (es : List AnEvent) (g : State)
        → run (with_taken before g) es ≡ map_taken before (run g es) }
    ensures state { (before : Taken) (es : List AnEvent) (g : State) (n : ℕ)
        → state_at (with_taken before g) es n ≡ with_taken before (state_at g es n) }
{}

/// The virtual clock never falls, in a run and from one of its states to a later one.
pub fn clock_never_falls()
    ensures turn { (g : State) → NoLater g (turn g) }
    ensures run { (es : List AnEvent) (g : State) → IfSome (run g es) (NoLater g) }
    ensures states { (es : List AnEvent) (g : State) (n m : ℕ)
        → n ≤ m → IsSome (run g es) → NoLater (state_at g es n) (state_at g es m) }
{}

/// The count of turns rises by exactly the turns of the events.
pub fn count_is_turns()
    ensures { (es : List AnEvent) (g : State) → IfSome (run g es) (IsLaterBy (turns es) g) }
{}

/// A hart that is idle until a deadline goes on exactly at it.
pub fn resumes_at_deadline()
    ensures { (g : State) (at : ℕ) → IdlesUntil g at → ResumesAt (close g) at }
{}

/// The levels at the PLIC are the devices' lines, at the start and in each state of a run.
pub fn levels_are_the_lines()
    ensures start { (config : AConfig) (firmware : AnImage) → ShowsLines (reset config firmware) }
    ensures turn { (g : State) → ShowsLines g → ShowsLines (turn g) }
    ensures run { (es : List AnEvent) (g : State) → ShowsLines g → IfSome (run g es) ShowsLines }
    ensures states { (es : List AnEvent) (g : State) (n : ℕ)
        → ShowsLines g → ShowsLines (state_at g es n) }
{}

/// An event is accepted exactly where it stands for the turns that run, or has an effect.
pub fn steps_by_cases()
    ensures step { (e : AnEvent) (g h : State) → step g e ≡ Some h → IsStep g e h }
    ensures effect { (e : AnEvent) (g k : State) → Effect g e k → step g e ≡ Some (levelled k) }
{}
