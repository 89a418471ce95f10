//! The devices of a recording.

ghost use Rattle.std.specs.Prelude.{◌≡◌};

use crate::inputs::{Inputs, Received};
use outside::{Careful, HostClock, Sink, Source};
use std::alloc::Global;
use std::marker::Model;

/// The devices that a recording uses. Sinks that a world opened are each in its place: the console
/// and the log can't be exchanged.
#[derive(Drop)]
pub struct RecordParts<S: Source, K: Sink, C: HostClock> {
    /// Gives the console's input.
    pub console: S,
    /// Takes the console's bytes.
    pub out: Careful<K>,
    /// Takes the log.
    pub log: Careful<K>,
    /// Gives the values of the CLOCK events, in nanoseconds.
    pub clock: C,
}

// Clauses see what the sinks have taken and the source has left, how often these failed, and the
// values that the clock gave.
impl<S: Source, K: Sink, C: HostClock> Model for RecordParts<S, K, C> {
    ghost use Rattle.outside.specs.declared.roles.Role.TheVariants.{ConsoleOut, LogOut};
    ghost use Rattle.outside.specs.Roles.{IsFor};
    ghost use Rattle.rr_engine.specs.Stand.{Devices};

    ghost Value = { Devices };

    ghost view = { λ p. record {
      log = K.taken p.log;
      log_faults = K.faults p.log;
      console = K.taken p.out;
      console_faults = K.faults p.out;
      input = S.left p.console;
      input_faults = S.faults p.console;
      gave = C.gave p.clock;
    } };

    ghost invariant = { λ p. IsFor (K.role p.out) ConsoleOut × IsFor (K.role p.log) LogOut };
}

impl<S: Source, K: Sink, C: HostClock> RecordParts<S, K, C> {
    ghost use Rattle.std.specs.Prelude.{◌≡◌, ◌∷◌, [], true, None, All, map};
    ghost use Rattle.outside.specs.Told.{Takes};
    ghost use Rattle.rr_engine.specs.Feed.{Receives, IsInput, IsOver, IsSound, event_of_item};

    /// The next value of the clock.
    pub(crate) fn now(&mut self) -> u64
        ensures value { Takes self.old.gave self.new.gave (result ∷ []) }
        ensures rest { self.new ≡ record self.old { gave = self.new.gave } }
    {
        self.clock.now()
    }

    /// What a window receives.
    pub(crate) fn receive<I: Inputs>(
        &mut self,
        alloc: Global,
        idle: bool,
        inputs: &mut I,
    ) -> Received
        requires sound { IsSound (I.feed inputs.old self.old.input self.old.input_faults) }
        ensures receives { Receives (I.feed inputs.old self.old.input self.old.input_faults)
            (I.feed inputs.new self.new.input self.new.input_faults)
            (map event_of_item result.items.items) result.trouble }
        ensures inputs { All IsInput result.items.items }
        ensures quiet { idle ≡ true → result.items.items ≡ [] → result.trouble ≡ None
            → IsOver (I.feed inputs.new self.new.input self.new.input_faults) }
        ensures sound { IsSound (I.feed inputs.new self.new.input self.new.input_faults) }
        ensures rest { self.new
            ≡ record self.old { input = self.new.input; input_faults = self.new.input_faults } }
    {
        inputs.receive(alloc, idle, &mut self.console)
    }
}
