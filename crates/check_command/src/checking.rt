//! A check of a log over the devices of a world.

ghost use Rattle.std.specs.Prelude.{◌≡◌, ◌<◌};
ghost use Rattle.outside.specs.Roles.{at};
ghost use Rattle.outside.specs.declared.roles.Role.TheVariants.{ConsoleOut, LogIn, Firmware as FirmwareRole};
ghost use Rattle.outside.specs.Openings.{OpensFront};
ghost use Rattle.run_files.specs.Ledgers.{Balanced};
ghost use Rattle.commands.specs.Asking.{replaying_of};
ghost use Rattle.commands.specs.Causes.{IfBoth};
ghost use Rattle.commands.specs.Faults.{fault_of, KeptBut};
ghost use Rattle.commands.specs.Openings.{replay_openings};
ghost use Rattle.check_command.specs.Checks.{CheckCause, IsCheckedFront, only_checking};

use crate::judging::judge;
use board::Steps;
use commands::{Outcome, print, quiet_outcome};
use outside::{OpenError, Role, World};
use run_files::open_log;
use std::alloc::Global;
use std::sync::ledger::Ledger;

/// Opens the log, runs it, gives it back, and prints what it comes to where it is accepted whole.
///
/// The log is read as a stream, of at most 2^40 bytes. Standard output is opened for the line alone.
pub fn check<W: World, L: Ledger>(
    alloc: Global,
    log: &str,
    bios: &str,
    world: &mut W,
    steps: &mut Steps<L>,
) -> Outcome
    ensures cause { CheckCause (replaying_of log.now bios.now) (W.ledger world.old)
        (W.ledger world.new) result }
    ensures shown { at (W.ledger world.old).opened ConsoleOut
        < at (W.ledger world.new).opened ConsoleOut
        → IfBoth ((W.ledger world.old).names log.now) ((W.ledger world.old).names bios.now)
        (λ bytes file. IsCheckedFront (replaying_of log.now bios.now) bytes file
        (W.ledger world.new)) }
    ensures kept { KeptBut (fault_of result) (W.ledger world.old) (W.ledger world.new) }
    ensures openings { OpensFront (W.ledger world.old).openings (W.ledger world.new).openings
        (replay_openings (replaying_of log.now bios.now)) }
    ensures balanced_log { Balanced LogIn (W.ledger world.old) (W.ledger world.new) }
    ensures balanced_firmware { Balanced FirmwareRole (W.ledger world.old) (W.ledger world.new) }
    ensures balanced_console { Balanced ConsoleOut (W.ledger world.old) (W.ledger world.new) }
    ensures rest { W.ledger world.new ≡ only_checking (W.ledger world.old) (W.ledger world.new) }
{
    let mut reader = match open_log(alloc, log, world) {
        Ok(reader) => reader,
        Err(OpenError::Failed) => return Outcome::CannotOpen(Role::LogIn),
        Err(OpenError::NoMemory) => return Outcome::NoMemory,
    };
    let verdict = judge(alloc, bios, &mut reader, world, steps);
    world.take_source(Role::LogIn, reader.into_inner());
    let tally = match verdict {
        Ok(tally) => tally,
        Err(outcome) => return outcome,
    };
    let Ok(line) = tally.line(alloc) else {
        return Outcome::NoMemory;
    };
    quiet_outcome(print(line.as_str(), world))
}
