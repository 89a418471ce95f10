//! Laws of logs.

ghost use Rattle.std.specs.Prelude.{◌≡◌, ◌≤◌, length, List, ℕ, Option as AnOption, Some, None, IsSome};
ghost use Rattle.std.specs.List.{AllByRecursion};
ghost use Rattle.event_log.specs.declared.event.Event.{Event as AnEvent};
ghost use Rattle.event_log.specs.Spelling.{texts, IsEvent};
ghost use Rattle.board.specs.State.{State};
ghost use Rattle.board.specs.Runs.{run};
ghost use Rattle.log_order.specs.declared.refusal.Refusal.{Refusal as ARefusal};
ghost use Rattle.log_order.specs.declared.runner.FeedError.{FeedError as AFeedError};
ghost use Rattle.log_order.specs.Order.{Accepted, IsFirstWrong, IsWhole};
ghost use Rattle.log_order.specs.Feeding.{Progress};
ghost use Rattle.log_order.specs.Judging.{Judges, ComesTo};

/// The part before the first wrong place is the longest that is accepted: no list of events that
/// the machine accepts, and whose spellings begin the same bytes, is longer.
pub fn longest()
    ensures refused { (bytes : List ℕ) (at : ℕ) (g mid last : State) (r : ARefusal)
        → IsFirstWrong bytes at g r mid last
        → (events : List AnEvent) (rest : List ℕ) (end : State)
        → Accepted bytes g events rest end → length events ≤ r.index }
    ensures whole { (bytes : List ℕ) (g last : State) (w : IsWhole bytes g last)
        → (events : List AnEvent) (rest : List ℕ) (end : State)
        → Accepted bytes g events rest end → length events ≤ length w.events }
{}

/// Bytes that are accepted whole have no first wrong place, and others have at most one.
pub fn one_verdict()
    ensures whole { (bytes : List ℕ) (at : ℕ) (g mid last end : State) (r : ARefusal)
        → IsFirstWrong bytes at g r mid last → IsWhole bytes g end → ⊥ }
    ensures one { (bytes : List ℕ) (at : ℕ) (g mid last other end : State) (r s : ARefusal)
        → IsFirstWrong bytes at g r mid last → IsFirstWrong bytes at g s other end
        → (r ≡ s) × (mid ≡ other) × (last ≡ end) }
{}

/// What a run recorded is accepted whole: the spellings of events that a machine accepts up to its
/// end. They lead every runner of that machine to that end, with the same console bytes.
pub fn recorded_is_accepted()
    ensures whole { (events : List AnEvent) (g last : State)
        → AllByRecursion IsEvent events → run g events ≡ Some last → IsSome last.control.ended
        → IsWhole (texts events) g last }
    ensures judged { (events : List AnEvent) (at : ℕ) (g last : State)
        (end : AnOption AFeedError) (q : Progress)
        → AllByRecursion IsEvent events → run g events ≡ Some last → IsSome last.control.ended
        → Judges (texts events) at g end q → ComesTo last end q }
{}

/// A run ends by the reason and code of its END event: 0 to 3, and only reason 0 has a code.
pub fn end_is_spelled()
    ensures { (events : List AnEvent) (g last : State) (reason code : ℕ)
        → AllByRecursion IsEvent events → g.control.ended ≡ None → run g events ≡ Some last
        → last.control.ended ≡ Some (record { reason = reason; code = code })
        → (reason ≤ 3) × (1 ≤ reason → code ≡ 0) }
{}
