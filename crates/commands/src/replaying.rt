//! A replay over the devices of a world.

ghost use Rattle.std.specs.Prelude.{◌≡◌, ◌<◌, false};
ghost use Rattle.outside.specs.Causes.{Rose};
ghost use Rattle.outside.specs.Roles.{at};
ghost use Rattle.outside.specs.declared.roles.Role.TheVariants.{ConsoleIn, ConsoleOut, LogIn, LogOut, Firmware as FirmwareRole};
ghost use Rattle.elf_load.specs.Load.{LiesInRam};
ghost use Rattle.event_log.specs.HeaderFormat.{IsHeader};
ghost use Rattle.event_log.specs.Reading.{ahead, none_read};
ghost use Rattle.outside.specs.Openings.{OpensFront};
ghost use Rattle.board.specs.Reset.{start_of};
ghost use Rattle.commands.specs.Faults.{fault_of, KeptBut};
ghost use Rattle.run_files.specs.Ledgers.{only, only_run, Balanced, ClocksBalanced};
ghost use Rattle.commands.specs.Openings.{replay_openings, played_openings, console_openings};
ghost use Rattle.commands.specs.Asking.{replay_asked, replay_outcome_of};
ghost use Rattle.commands.specs.Replays.{word_difference as word_difference_of, IsShown};
ghost use Rattle.commands.specs.Playing.{ShowsOver, only_playing, PlayingKeptBut};
ghost use Rattle.commands.specs.Causes.{ReplayCause, IfBoth};

use crate::outcome::Outcome;
use crate::refusing::{header_outcome, image_outcome};
use board::Steps;
use command_line::ReplayWords;
use elf_load::Loaded;
use event_log::{Header, LogReader};
use outside::{Careful, OpenError, Role, World};
use rr_engine::{ReplayEnd, replay_one};
use run_files::{Difference, open_log, read_image};
use std::alloc::Global;
use std::sync::ledger::Ledger;

/// What the words give otherwise than the header.
fn word_difference(words: &ReplayWords<'_>, header: &Header) -> Option<Difference>
    ensures { result ≡ word_difference_of (replay_asked words.now) header.now }
{
    if let Some(shift) = words.shift
        && shift != header.shift
    {
        return Some(Difference::Shift);
    }
    if let Some(ram_mib) = words.ram_mib
        && ram_mib != header.ram_mib
    {
        return Some(Difference::Ram);
    }
    None
}

/// How the replay ended.
fn replay_outcome(end: ReplayEnd) -> Outcome
    ensures { result ≡ replay_outcome_of end }
{
    match end {
        ReplayEnd::End {
            reason: 0,
            code,
            ..
        } => Outcome::GuestEnded(code),
        ReplayEnd::End { reason: 1, .. } => Outcome::IdleForEver,
        ReplayEnd::End { reason: 2, .. } => Outcome::BudgetReached,
        ReplayEnd::End { .. } => Outcome::RecordingStopped,
        ReplayEnd::ConsoleWrite => Outcome::ConsoleFailed,
        ReplayEnd::LogRead => Outcome::LogUnreadable,
        ReplayEnd::LogTooLong => Outcome::LogTooLong,
        ReplayEnd::Refused(refusal) => Outcome::LogRefused(refusal),
        ReplayEnd::NoMemory => Outcome::NoMemory,
    }
}

/// Opens the console, replays over it, and gives it back.
#[tactic(auto, using(outside::proofs::Fronts::openings))]
fn show<W: World, L: Ledger>(
    alloc: Global,
    header: &Header,
    firmware: &Loaded,
    log: &mut LogReader<W::Source>,
    world: &mut W,
    steps: &mut Steps<L>,
) -> ReplayEnd
    requires header { IsHeader header.now }
    requires firmware { LiesInRam header.now.ram_mib firmware.now }
    requires place { log.old.unread.place ≡ 98 }
    requires works { log.old.unread.failed ≡ false }
    ensures shown { ShowsOver (start_of header.now firmware.now) log.old log.new
        (W.ledger world.old) (W.ledger world.new) result }
    ensures openings { OpensFront (W.ledger world.old).openings (W.ledger world.new).openings
        console_openings }
    ensures balanced { Balanced ConsoleOut (W.ledger world.old) (W.ledger world.new) }
    ensures rest { W.ledger world.new ≡ only ConsoleOut (W.ledger world.old) (W.ledger world.new) }
{
    let mut out = match world.sink(Role::ConsoleOut, None) {
        Ok(sink) => Careful::new(sink),
        Err(_) => return ReplayEnd::NoMemory,
    };
    let end = replay_one(alloc, header, firmware, log, &mut out, steps);
    world.take_sink(Role::ConsoleOut, out.into_inner());
    end
}

/// The header, the images that it names, and the run.
fn replay_log<W: World, L: Ledger>(
    alloc: Global,
    words: &ReplayWords<'_>,
    log: &mut LogReader<W::Source>,
    world: &mut W,
    steps: &mut Steps<L>,
) -> Outcome
    requires { log.old.unread ≡ none_read 0 }
    ensures cause { ReplayCause (replay_asked words.now) (ahead log.old) (W.ledger world.old)
        (W.ledger world.new) (Rose log.old.faults log.new.faults) result }
    ensures shown { at (W.ledger world.old).opened ConsoleOut
        < at (W.ledger world.new).opened ConsoleOut
        → IfBoth (ahead log.old) ((W.ledger world.old).names (replay_asked words.now).bios)
        (λ bytes file. IsShown (replay_asked words.now) bytes file (W.ledger world.new)) }
    ensures kept { PlayingKeptBut (fault_of result) (W.ledger world.old) (W.ledger world.new)
        log.old.faults log.new.faults }
    ensures openings { OpensFront (W.ledger world.old).openings (W.ledger world.new).openings
        (played_openings (replay_asked words.now).bios) }
    ensures balanced_firmware { Balanced FirmwareRole (W.ledger world.old) (W.ledger world.new) }
    ensures balanced_console { Balanced ConsoleOut (W.ledger world.old) (W.ledger world.new) }
    ensures rest { W.ledger world.new ≡ only_playing (W.ledger world.old) (W.ledger world.new) }
{
    let header = match log.header() {
        Ok(header) => header,
        Err(error) => return header_outcome(error),
    };
    match word_difference(words, &header) {
        None => {}
        Some(difference) => return Outcome::ImagesDiffer(difference),
    }
    match read_image(alloc, words.bios, &header, world) {
        Ok(firmware) => replay_outcome(show(alloc, &header, &firmware, log, world, steps)),
        Err(fault) => image_outcome(fault),
    }
}

/// Opens the log, replays it, and gives it back.
pub fn replay<W: World, L: Ledger>(
    alloc: Global,
    words: &ReplayWords<'_>,
    world: &mut W,
    steps: &mut Steps<L>,
) -> Outcome
    ensures cause { ReplayCause (replay_asked words.now)
        ((W.ledger world.old).names (replay_asked words.now).log) (W.ledger world.old)
        (W.ledger world.new) (Rose (at (W.ledger world.old).faults LogIn)
        (at (W.ledger world.new).faults LogIn)) result }
    ensures shown { at (W.ledger world.old).opened ConsoleOut
        < at (W.ledger world.new).opened ConsoleOut
        → IfBoth ((W.ledger world.old).names (replay_asked words.now).log)
        ((W.ledger world.old).names (replay_asked words.now).bios)
        (λ bytes file. IsShown (replay_asked words.now) bytes file (W.ledger world.new)) }
    ensures kept { KeptBut (fault_of result) (W.ledger world.old) (W.ledger world.new) }
    ensures openings { OpensFront (W.ledger world.old).openings (W.ledger world.new).openings
        (replay_openings (replay_asked words.now)) }
    ensures balanced_firmware { Balanced FirmwareRole (W.ledger world.old) (W.ledger world.new) }
    ensures balanced_input { Balanced ConsoleIn (W.ledger world.old) (W.ledger world.new) }
    ensures balanced_console { Balanced ConsoleOut (W.ledger world.old) (W.ledger world.new) }
    ensures balanced_log { Balanced LogOut (W.ledger world.old) (W.ledger world.new) }
    ensures balanced_replayed { Balanced LogIn (W.ledger world.old) (W.ledger world.new) }
    ensures balanced_clock { ClocksBalanced (W.ledger world.old) (W.ledger world.new) }
    ensures rest { W.ledger world.new ≡ only_run (W.ledger world.old) (W.ledger world.new) }
{
    let mut log = match open_log(alloc, words.log, world) {
        Ok(log) => log,
        Err(OpenError::Failed) => return Outcome::CannotOpen(Role::LogIn),
        Err(OpenError::NoMemory) => return Outcome::NoMemory,
    };
    let outcome = replay_log(alloc, words, &mut log, world, steps);
    world.take_source(Role::LogIn, log.into_inner());
    outcome
}
