//! A law of lists.

ghost use Rattle.std.specs.Prelude.{◌≡◌, ◌≤◌, ◌++◌, length, List, ℕ, Some, ⊤};
ghost use Rattle.event_log.specs.declared.event.Event.{Event as AnEvent};
ghost use Rattle.event_log.specs.Reading.{Reader, ahead};
ghost use Rattle.log_order.specs.declared.refusal.Refusal.{Refusal as ARefusal};
ghost use Rattle.event_list.specs.Listing.{Listed, Begins, ListsWhole, ListsToWrong, ListsToLimit};

/// The events that are listed up to END, to the first wrong place or to the limit are the longest
/// list that a log begins with. Each other one, as that before a fault, is a front of it.
pub fn longest()
    ensures whole { (p q : Listed) (bytes : List ℕ) (w : ListsWhole p q)
        → ahead p.log ≡ Some bytes → (events : List AnEvent) → Begins p.log events (λ rest. ⊤)
        → length events ≤ length w.events }
    ensures refused { (p q : Listed) (r : ARefusal) (bytes : List ℕ) → ListsToWrong p q r
        → ahead p.log ≡ Some bytes → (events : List AnEvent) → Begins p.log events (λ rest. ⊤)
        → length events ≤ r.index }
    ensures limit { (p q : Listed) (bytes : List ℕ) (w : ListsToLimit p q)
        → ahead p.log ≡ Some bytes → (events : List AnEvent) → Begins p.log events (λ rest. ⊤)
        → length events ≤ length w.events }
    ensures fronts { (log : Reader) (bytes : List ℕ) (some others : List AnEvent)
        → ahead log ≡ Some bytes → Begins log some (λ rest. ⊤) → Begins log others (λ rest. ⊤)
        → length some ≤ length others → (more : List AnEvent) × (others ≡ some ++ more) }
{}
