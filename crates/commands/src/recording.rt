//! What the words of a recording come to over a world.

ghost use Rattle.std.specs.Prelude.{◌≡◌, ◌<◌, ◌+◌, ◌^◌};
ghost use Rattle.outside.specs.Roles.{at};
ghost use Rattle.outside.specs.declared.roles.Role.TheVariants.{ConsoleIn, ConsoleOut, LogIn, LogOut, Firmware as FirmwareRole};
ghost use Rattle.command_line.specs.Words.{Records, IsInRange};
ghost use Rattle.event_log.specs.HeaderFormat.{IsHeader};
ghost use Rattle.outside.specs.Openings.{OpensFront};
ghost use Rattle.run_files.specs.Ledgers.{only_run, Balanced, ClocksBalanced, Untouched};
ghost use Rattle.commands.specs.Faults.{NamesFirstFault};
ghost use Rattle.commands.specs.Openings.{record_openings};
ghost use Rattle.commands.specs.Asking.{asked, recording_header, firmware_outcome_of, ending_outcome_of};
ghost use Rattle.commands.specs.Causes.{RecordCause, IfRecords};
ghost use Rattle.commands.specs.Recordings.{IsLogged};

use crate::devices::{RecordingEnd, record};
use crate::outcome::Outcome;
use board::Steps;
use command_line::RecordWords;
use event_log::Header;
use outside::{Role, World};
use run_files::{FirmwareFault, digest, read_firmware};
use std::alloc::Global;
use std::sync::ledger::Ledger;

/// The header of a recording of a firmware with this digest, without a disk.
fn header(words: &RecordWords<'_>, firmware: [u8; 32]) -> Header
    ensures { result ≡ recording_header (asked words.now) firmware }
{
    Header {
        shift: words.shift,
        ram_mib: words.ram_mib,
        slice: words.slice,
        budget: words.budget,
        firmware,
        disk_len: 0,
        disk: digest(&[]),
    }
}

/// Why the firmware's file gave nothing.
fn firmware_outcome(fault: FirmwareFault) -> Outcome
    ensures { result ≡ firmware_outcome_of fault }
{
    match fault {
        FirmwareFault::CannotOpen => Outcome::CannotOpen(Role::Firmware),
        FirmwareFault::CannotRead => Outcome::CannotRead,
        FirmwareFault::Bad(rule) => Outcome::BadFirmware(rule),
        FirmwareFault::NoMemory => Outcome::NoMemory,
    }
}

/// How the recording ended.
fn ending_outcome(end: RecordingEnd) -> Outcome
    ensures { result ≡ ending_outcome_of end }
{
    match end {
        RecordingEnd::End { reason: 0, code } => Outcome::GuestEnded(code),
        RecordingEnd::End { reason: 1, .. } => Outcome::IdleForEver,
        RecordingEnd::End { .. } => Outcome::BudgetReached,
        RecordingEnd::CannotOpenLog => Outcome::CannotOpen(Role::LogOut),
        RecordingEnd::ConsoleUnreadable => Outcome::ConsoleUnreadable,
        RecordingEnd::ConsoleFailed => Outcome::ConsoleFailed,
        RecordingEnd::LogFailed => Outcome::LogFailed,
        RecordingEnd::NoMemory => Outcome::NoMemory,
    }
}

/// Reads the firmware, and records its run.
pub fn run<W: World, L: Ledger>(
    alloc: Global,
    words: &RecordWords<'_>,
    world: &mut W,
    steps: &mut Steps<L>,
) -> Outcome
    requires { IsInRange (asked words.now) }
    ensures cause { RecordCause (asked words.now) (W.ledger world.old) (W.ledger world.new) result }
    ensures log { at (W.ledger world.old).opened LogOut < at (W.ledger world.new).opened LogOut
        → IfRecords (Records (asked words.now)) (W.ledger world.old)
        (λ r file. IsLogged r file (W.ledger world.old) (W.ledger world.new)) }
    ensures kept { NamesFirstFault result (W.ledger world.old) (W.ledger world.new) }
    ensures openings { OpensFront (W.ledger world.old).openings (W.ledger world.new).openings
        (record_openings (asked words.now)) }
    ensures untouched { at (W.ledger world.new).opened LogOut
        ≡ at (W.ledger world.old).opened LogOut → at (W.ledger world.old).opened LogOut < 2 ^ 63
        → Untouched (W.ledger world.old) (W.ledger world.new) }
    ensures balanced_firmware { Balanced FirmwareRole (W.ledger world.old) (W.ledger world.new) }
    ensures balanced_input { Balanced ConsoleIn (W.ledger world.old) (W.ledger world.new) }
    ensures balanced_console { Balanced ConsoleOut (W.ledger world.old) (W.ledger world.new) }
    ensures balanced_log { Balanced LogOut (W.ledger world.old) (W.ledger world.new) }
    ensures balanced_replayed { Balanced LogIn (W.ledger world.old) (W.ledger world.new) }
    ensures balanced_clock { ClocksBalanced (W.ledger world.old) (W.ledger world.new) }
    ensures rest { W.ledger world.new ≡ only_run (W.ledger world.old) (W.ledger world.new) }
{
    let ram_mib = u32::from(words.ram_mib);
    let firmware = match read_firmware(alloc, words.bios, ram_mib, world) {
        Ok(firmware) => firmware,
        Err(fault) => return firmware_outcome(fault),
    };
    let header = header(words, firmware.digest);
    ending_outcome(record(alloc, &header, &firmware.loaded, words.log, world, steps))
}
