//! A recording over the devices of a world.

ghost use Rattle.std.specs.Prelude.{◌≡◌, ◌<◌, ◌≤◌, ◌^◌, ℕ, Some, None, [], IfOk, IfErr, OnOk, OnErr};
ghost use Rattle.outside.specs.Causes.{Rose, Stood};
ghost use Rattle.outside.specs.Ledger.{opens, opens_sink, opens_clock};
ghost use Rattle.outside.specs.Roles.{at};
ghost use Rattle.outside.specs.declared.roles.Role.TheVariants.{ConsoleIn, ConsoleOut, LogOut};
ghost use Rattle.event_log.specs.HeaderFormat.{IsHeader, header_text};
ghost use Rattle.elf_load.specs.Load.{LiesInRam};
ghost use Rattle.outside.specs.Openings.{OpensFront};
ghost use Rattle.outside.specs.declared.openings.Opening.TheVariants.{Sink};
ghost use Rattle.run_files.specs.Ledgers.{only_recording, Balanced, ClocksBalanced, Untouched};
ghost use Rattle.run_files.specs.Files.{FailsToOpen};
ghost use Rattle.commands.specs.Openings.{device_openings};
ghost use Rattle.commands.specs.Recordings.{HasFront, HasWhole, HasStop};
ghost use Rattle.commands.specs.Endings.{IfEnds, IfStops, IsFresh, OpensNothing, KeepsCounts, closed, recording_end_of};

use board::Steps;
use elf_load::Loaded;
use event_log::Header;
use outside::{Careful, OpenError, Role, World};
use rr_engine::{RecordParts, RunEnd, record_one};
use std::alloc::Global;
use std::sync::ledger::Ledger;

/// How a recording over the devices of a world ended.
#[derive(Clone, Copy, Debug, PartialEq, Eq)]
pub enum RecordingEnd {
    /// By the END event of this reason and code.
    End { reason: u8, code: u32 },
    CannotOpenLog,
    ConsoleUnreadable,
    ConsoleFailed,
    LogFailed,
    NoMemory,
}

/// Opens the console, its input first, the clock and the log.
fn open<W: World>(
    log: &str,
    world: &mut W,
) -> Result<RecordParts<W::Source, W::Sink, W::Clock>, RecordingEnd>
    ensures opened { OnOk result (W.ledger world.new
        ≡ opens_sink (opens_clock (opens_sink (opens (W.ledger world.old) ConsoleIn None) ConsoleOut None))
        LogOut (Some log.now)) }
    ensures fresh { IfOk result (IsFresh (W.ledger world.old)) }

    ensures fault { IfErr result OpensNothing }
    ensures unopened { result ≡ Err RecordingEnd.CannotOpenLog → FailsToOpen
        (Sink LogOut (Some log.now)) (W.ledger world.old) (W.ledger world.new) }
    ensures kept { IfErr result
        (λ end. KeepsCounts end (W.ledger world.old) (W.ledger world.new)) }
    ensures log_closed { OnErr result (at (W.ledger world.new).opened LogOut
        ≡ at (W.ledger world.old).opened LogOut) }
    ensures openings { OnErr result (OpensFront (W.ledger world.old).openings
        (W.ledger world.new).openings (device_openings log.now)) }
    ensures untouched { OnErr result (Untouched (W.ledger world.old) (W.ledger world.new)) }
    ensures balanced_log { OnErr result
        (Balanced LogOut (W.ledger world.old) (W.ledger world.new)) }
    ensures balanced_input { OnErr result
        (Balanced ConsoleIn (W.ledger world.old) (W.ledger world.new)) }
    ensures balanced_console { OnErr result
        (Balanced ConsoleOut (W.ledger world.old) (W.ledger world.new)) }
    ensures balanced_clock { OnErr result
        (ClocksBalanced (W.ledger world.old) (W.ledger world.new)) }
    ensures rest { OnErr result (W.ledger world.new
        ≡ only_recording (W.ledger world.old) (W.ledger world.new)) }
{
    let console = match world.source(Role::ConsoleIn, None) {
        Ok(source) => source,
        Err(_) => return Err(RecordingEnd::NoMemory),
    };
    let out = match world.sink(Role::ConsoleOut, None) {
        Ok(sink) => Careful::new(sink),
        Err(_) => {
            world.take_source(Role::ConsoleIn, console);
            return Err(RecordingEnd::NoMemory);
        }
    };
    let clock = world.clock();
    match world.sink(Role::LogOut, Some(log)) {
        Ok(sink) => Ok(RecordParts {
            console,
            out,
            log: Careful::new(sink),
            clock,
        }),
        Err(error) => {
            world.take_source(Role::ConsoleIn, console);
            world.take_sink(Role::ConsoleOut, out.into_inner());
            world.take_clock(clock);
            Err(open_fault(error))
        }
    }
}

/// Why the log wasn't opened.
fn open_fault(error: OpenError) -> RecordingEnd
    ensures failed { error ≡ OpenError.Failed → result ≡ RecordingEnd.CannotOpenLog }
    ensures memory { error ≡ OpenError.NoMemory → result ≡ RecordingEnd.NoMemory }
{
    match error {
        OpenError::Failed => RecordingEnd::CannotOpenLog,
        OpenError::NoMemory => RecordingEnd::NoMemory,
    }
}

/// Gives the devices back.
fn close<W: World>(parts: RecordParts<W::Source, W::Sink, W::Clock>, world: &mut W)
    ensures { W.ledger world.new ≡ closed (W.ledger world.old) parts }
{
    let RecordParts {
        console,
        out,
        log,
        clock,
    } = parts;
    world.take_source(Role::ConsoleIn, console);
    world.take_sink(Role::LogOut, log.into_inner());
    world.take_sink(Role::ConsoleOut, out.into_inner());
    world.take_clock(clock);
}

/// Records the run of a firmware into a log of this name.
pub fn record<W: World, L: Ledger>(
    alloc: Global,
    header: &Header,
    firmware: &Loaded,
    log: &str,
    world: &mut W,
    steps: &mut Steps<L>,
) -> RecordingEnd
    requires header { IsHeader header.now }
    requires firmware { LiesInRam header.now.ram_mib firmware.now }
    ensures whole { IfEnds result (λ reason code.
        HasWhole header.now firmware.now (W.ledger world.old) (W.ledger world.new) reason code) }
    ensures kept { KeepsCounts result (W.ledger world.old) (W.ledger world.new) }
    ensures front { at (W.ledger world.old).opened LogOut < at (W.ledger world.new).opened LogOut
        → HasFront header.now firmware.now (W.ledger world.old) (W.ledger world.new) }

    ensures stopped { Stood (at (W.ledger world.old).faults LogOut)
        (at (W.ledger world.new).faults LogOut)
        → IfStops result (λ shown. HasStop shown header.now firmware.now
        (W.ledger world.old) (W.ledger world.new)) }

    ensures unopened { result ≡ RecordingEnd.CannotOpenLog → FailsToOpen
        (Sink LogOut (Some log.now)) (W.ledger world.old) (W.ledger world.new) }
    ensures input_fault { result ≡ RecordingEnd.ConsoleUnreadable
        → Rose (at (W.ledger world.old).faults ConsoleIn)
        (at (W.ledger world.new).faults ConsoleIn) }
    ensures console_fault { result ≡ RecordingEnd.ConsoleFailed
        → Rose (at (W.ledger world.old).faults ConsoleOut)
        (at (W.ledger world.new).faults ConsoleOut) }
    ensures log_fault { result ≡ RecordingEnd.LogFailed
        → Rose (at (W.ledger world.old).faults LogOut) (at (W.ledger world.new).faults LogOut) }

    ensures openings { OpensFront (W.ledger world.old).openings (W.ledger world.new).openings
        (device_openings log.now) }
    ensures untouched { at (W.ledger world.new).opened LogOut
        ≡ at (W.ledger world.old).opened LogOut → at (W.ledger world.old).opened LogOut < 2 ^ 63
        → Untouched (W.ledger world.old) (W.ledger world.new) }
    ensures balanced_log { Balanced LogOut (W.ledger world.old) (W.ledger world.new) }
    ensures balanced_input { Balanced ConsoleIn (W.ledger world.old) (W.ledger world.new) }
    ensures balanced_console { Balanced ConsoleOut (W.ledger world.old) (W.ledger world.new) }
    ensures balanced_clock { ClocksBalanced (W.ledger world.old) (W.ledger world.new) }
    ensures rest { W.ledger world.new
        ≡ only_recording (W.ledger world.old) (W.ledger world.new) }
{
    let mut parts = match open(log, world) {
        Ok(parts) => parts,
        Err(end) => return end,
    };
    let end = record_one(alloc, header, firmware, &mut parts, steps);
    close(parts, world);
    recording_end(end)
}

/// The same end, as a recording over a world has it.
fn recording_end(end: RunEnd) -> RecordingEnd
    ensures { result ≡ recording_end_of end }
{
    match end {
        RunEnd::End { reason, code } => RecordingEnd::End { reason, code },
        RunEnd::ConsoleRead => RecordingEnd::ConsoleUnreadable,
        RunEnd::ConsoleWrite => RecordingEnd::ConsoleFailed,
        RunEnd::LogWrite => RecordingEnd::LogFailed,
        RunEnd::NoMemory => RecordingEnd::NoMemory,
    }
}
