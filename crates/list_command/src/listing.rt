//! A list of a log's events over the devices of a world.

ghost use Rattle.std.specs.Prelude.{◌≡◌, ◌<◌, IfSome, List, ℕ};
ghost use Rattle.outside.specs.Causes.{Rose};
ghost use Rattle.outside.specs.Roles.{at};
ghost use Rattle.outside.specs.declared.roles.Role.TheVariants.{ConsoleOut, LogIn};
ghost use Rattle.outside.specs.Openings.{OpensFront};
ghost use Rattle.event_log.specs.Reading.{ahead, none_read};
ghost use Rattle.run_files.specs.Ledgers.{only, Balanced};
ghost use Rattle.commands.specs.Faults.{fault_of, KeptBut};
ghost use Rattle.commands.specs.Openings.{console_openings};
ghost use Rattle.list_command.specs.Lists.{list_outcome_of, IsShownFront, ListCause, list_openings, only_listing, ListingKeptBut};

use commands::{Outcome, header_outcome};
use event_list::{ListEnd, list_events};
use event_log::LogReader;
use outside::{Careful, OpenError, Role, World};
use run_files::open_log;
use std::alloc::Global;

/// How the list ended.
fn list_outcome(end: ListEnd) -> Outcome
    ensures { result ≡ list_outcome_of end }
{
    match end {
        ListEnd::Whole => Outcome::Printed,
        ListEnd::Refused(refusal) => Outcome::LogRefused(refusal),
        ListEnd::LogRead => Outcome::LogUnreadable,
        ListEnd::LogTooLong => Outcome::LogTooLong,
        ListEnd::WriteFault => Outcome::QuietFailed,
        ListEnd::NoMemory => Outcome::NoMemory,
    }
}

/// Reads the header, and then opens the console, lists the events on it, and gives it back.
#[tactic(auto, using(outside::proofs::Fronts::openings))]
fn list_log<W: World>(alloc: Global, log: &mut LogReader<W::Source>, world: &mut W) -> Outcome
    requires { log.old.unread ≡ none_read 0 }
    ensures cause { (name : List ℕ) → ListCause name (ahead log.old) (W.ledger world.old)
        (W.ledger world.new) (Rose log.old.faults log.new.faults) result }
    ensures shown { at (W.ledger world.old).opened ConsoleOut
        < at (W.ledger world.new).opened ConsoleOut
        → IfSome (ahead log.old)
        (λ bytes. IsShownFront bytes (at (W.ledger world.new).last ConsoleOut)) }
    ensures kept { ListingKeptBut (fault_of result) (W.ledger world.old) (W.ledger world.new)
        log.old.faults log.new.faults }
    ensures openings { OpensFront (W.ledger world.old).openings (W.ledger world.new).openings
        console_openings }
    ensures balanced { Balanced ConsoleOut (W.ledger world.old) (W.ledger world.new) }
    ensures rest { W.ledger world.new ≡ only ConsoleOut (W.ledger world.old) (W.ledger world.new) }
{
    match log.header() {
        Ok(_) => {}
        Err(error) => return header_outcome(error),
    }
    let mut out = match world.sink(Role::ConsoleOut, None) {
        Ok(sink) => Careful::new(sink),
        Err(_) => return Outcome::NoMemory,
    };
    let end = list_events(alloc, log, &mut out);
    world.take_sink(Role::ConsoleOut, out.into_inner());
    list_outcome(end)
}

/// Opens the log, lists its events on the console, and gives both back.
pub fn list<W: World>(alloc: Global, log: &str, world: &mut W) -> Outcome
    ensures cause { ListCause log.now ((W.ledger world.old).names log.now) (W.ledger world.old)
        (W.ledger world.new) (Rose (at (W.ledger world.old).faults LogIn)
        (at (W.ledger world.new).faults LogIn)) result }
    ensures shown { at (W.ledger world.old).opened ConsoleOut
        < at (W.ledger world.new).opened ConsoleOut
        → IfSome ((W.ledger world.old).names log.now)
        (λ bytes. IsShownFront bytes (at (W.ledger world.new).last ConsoleOut)) }
    ensures kept { KeptBut (fault_of result) (W.ledger world.old) (W.ledger world.new) }
    ensures openings { OpensFront (W.ledger world.old).openings (W.ledger world.new).openings
        (list_openings log.now) }
    ensures balanced_log { Balanced LogIn (W.ledger world.old) (W.ledger world.new) }
    ensures balanced_console { Balanced ConsoleOut (W.ledger world.old) (W.ledger world.new) }
    ensures rest { W.ledger world.new ≡ only_listing (W.ledger world.old) (W.ledger world.new) }
{
    let mut reader = match open_log(alloc, log, world) {
        Ok(reader) => reader,
        Err(OpenError::Failed) => return Outcome::CannotOpen(Role::LogIn),
        Err(OpenError::NoMemory) => return Outcome::NoMemory,
    };
    let outcome = list_log(alloc, &mut reader, world);
    world.take_source(Role::LogIn, reader.into_inner());
    outcome
}
