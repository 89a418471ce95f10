//! The commands that need no threads.

ghost use Rattle.std.specs.Prelude.{◌≡◌, ◌<◌, ◌≤◌};
ghost use Rattle.outside.specs.Roles.{at};
ghost use Rattle.outside.specs.declared.roles.Role.TheVariants.{ConsoleOut};
ghost use Rattle.outside.specs.Openings.{OpensFront};
ghost use Rattle.commands.specs.Faults.{NamesFault};
ghost use Rattle.run_files.specs.Ledgers.{only, Balanced};
ghost use Rattle.commands.specs.Openings.{console_openings};
ghost use Rattle.commands.specs.Causes.{DemoCause, IsDemoPrintedFront};

use crate::outcome::Outcome;
use crate::printing::{print, quiet_outcome};
use board::Steps;
use demo_run::demo_text;
use outside::World;
use std::alloc::Global;
use std::sync::ledger::Ledger;

/// Prints the line of a demonstration by n letters.
pub fn demonstrate<W: World, L: Ledger>(
    alloc: Global,
    n: u32,
    world: &mut W,
    steps: &mut Steps<L>,
) -> Outcome
    requires some { 1 ≤ n }
    requires few { n ≤ 2000 }
    ensures cause { DemoCause n (W.ledger world.old) (W.ledger world.new) result }
    ensures front { at (W.ledger world.old).opened ConsoleOut
        < at (W.ledger world.new).opened ConsoleOut
        → IsDemoPrintedFront n (W.ledger world.new) }
    ensures kept { NamesFault result (W.ledger world.old) (W.ledger world.new) }
    ensures openings { OpensFront (W.ledger world.old).openings (W.ledger world.new).openings
        console_openings }
    ensures balanced { Balanced ConsoleOut (W.ledger world.old) (W.ledger world.new) }
    ensures rest { W.ledger world.new ≡ only ConsoleOut (W.ledger world.old) (W.ledger world.new) }
{
    let Ok(text) = demo_text(alloc, n, steps) else {
        return Outcome::NoMemory;
    };
    quiet_outcome(print(text.as_str(), world))
}
