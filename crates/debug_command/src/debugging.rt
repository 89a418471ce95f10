//! A debugging session on a recorded run: its files are read, its streams opened, and all is given
//! back.

ghost use Rattle.std.specs.Prelude.{◌≡◌, ◌≢◌, ◌<◌, ◌≤◌, ◌^◌, length};
ghost use Rattle.outside.specs.Openings.{OpensFront};
ghost use Rattle.outside.specs.Roles.{at};
ghost use Rattle.outside.specs.declared.roles.Role.TheVariants.{ConsoleIn, ConsoleOut, LogIn, Firmware};
ghost use Rattle.elf_load.specs.Load.{LiesInRam};
ghost use Rattle.event_log.specs.HeaderFormat.{IsHeader};
ghost use Rattle.board.specs.Reset.{start_of};
ghost use Rattle.reverse_seek.specs.Script.{first_place};
ghost use Rattle.monitor.specs.declared.debugging.DebugEnd.TheVariants.{ImageFault};
ghost use Rattle.run_files.specs.Ledgers.{Balanced};
ghost use Rattle.debug_command.specs.Debugs.{HoldsOver, IsUnread, IsShown, stream_openings, debug_openings, only_holding, only_debugging};
ghost use Rattle.commands.specs.Faults.{fault_of, KeptBut};
ghost use Rattle.commands.specs.Causes.{IfBoth};
ghost use Rattle.debug_command.specs.Causes.{DebugCause};

use crate::outcomes::{log_outcome, session_outcome, unheaded_outcome};
use board::Steps;
use commands::{Outcome, image_outcome};
use elf_load::Loaded;
use event_log::{Header, read_header};
use monitor::{DebugEnd, debug_log};
use outside::{Careful, Role, SureImage, World};
use run_files::{read_file, read_image};
use std::alloc::Global;
use std::sync::ledger::Ledger;

/// The most bytes that a log may have.
pub const LOG_LIMIT: usize = 268_435_456;

/// Opens standard input and output, holds the session over them and a disk without bytes, and gives
/// them back.
#[tactic(auto, using(outside::proofs::Fronts::openings))]
fn hold<W: World, L: Ledger>(
    alloc: Global,
    header: &Header,
    log: Vec<u8>,
    firmware: &Loaded,
    world: &mut W,
    steps: &mut Steps<L>,
) -> DebugEnd
    requires header { IsHeader header.now }
    requires firmware { LiesInRam header.now.ram_mib firmware.now }
    requires log { first_place ≤ length log.items }
    requires disk { header.now.disk_len ≡ 0 }
    ensures sound { result ≢ ImageFault }
    ensures held { HoldsOver (start_of header.now firmware.now) log.items result
        (W.ledger world.old) (W.ledger world.new) }
    ensures quiet { at (W.ledger world.new).opened ConsoleOut
        ≡ at (W.ledger world.old).opened ConsoleOut → at (W.ledger world.old).opened ConsoleOut < 2 ^ 63
        → IsUnread (W.ledger world.old) (W.ledger world.new) }
    ensures openings { OpensFront (W.ledger world.old).openings (W.ledger world.new).openings
        stream_openings }
    ensures balanced_input { Balanced ConsoleIn (W.ledger world.old) (W.ledger world.new) }
    ensures balanced_output { Balanced ConsoleOut (W.ledger world.old) (W.ledger world.new) }
    ensures rest { W.ledger world.new ≡ only_holding (W.ledger world.old) (W.ledger world.new) }
{
    let mut input = match world.source(Role::ConsoleIn, None) {
        Ok(source) => source,
        Err(_) => return DebugEnd::NoMemory,
    };
    let mut out = match world.sink(Role::ConsoleOut, None) {
        Ok(sink) => Careful::new(sink),
        Err(_) => {
            world.take_source(Role::ConsoleIn, input);
            return DebugEnd::NoMemory;
        }
    };
    let disk = SureImage::new(Vec::new(alloc));
    let (end, _) = debug_log(
        alloc, header, log, firmware, disk, &mut input, &mut out, steps,
    );
    world.take_source(Role::ConsoleIn, input);
    world.take_sink(Role::ConsoleOut, out.into_inner());
    end
}

/// Reads the log and the firmware that its header names, holds a session over the accepted part,
/// and gives all back.
///
/// The log is read whole and is at most 2^28 bytes long. Standard input and output are opened once
/// the log's header and the firmware were read.
pub fn debug<W: World, L: Ledger>(
    alloc: Global,
    log: &str,
    bios: &str,
    world: &mut W,
    steps: &mut Steps<L>,
) -> Outcome
    ensures cause { DebugCause log.now bios.now (W.ledger world.old) (W.ledger world.new) result }
    ensures shown { at (W.ledger world.old).opened ConsoleOut
        < at (W.ledger world.new).opened ConsoleOut
        → IfBoth ((W.ledger world.old).names log.now) ((W.ledger world.old).names bios.now)
        (λ bytes file. IsShown bytes file (W.ledger world.old) (W.ledger world.new)) }
    ensures quiet { at (W.ledger world.new).opened ConsoleOut
        ≡ at (W.ledger world.old).opened ConsoleOut → at (W.ledger world.old).opened ConsoleOut < 2 ^ 63
        → IsUnread (W.ledger world.old) (W.ledger world.new) }
    ensures kept { KeptBut (fault_of result) (W.ledger world.old) (W.ledger world.new) }
    ensures openings { OpensFront (W.ledger world.old).openings (W.ledger world.new).openings
        (debug_openings log.now bios.now) }
    ensures balanced_log { Balanced LogIn (W.ledger world.old) (W.ledger world.new) }
    ensures balanced_firmware { Balanced Firmware (W.ledger world.old) (W.ledger world.new) }
    ensures balanced_input { Balanced ConsoleIn (W.ledger world.old) (W.ledger world.new) }
    ensures balanced_output { Balanced ConsoleOut (W.ledger world.old) (W.ledger world.new) }
    ensures rest { W.ledger world.new ≡ only_debugging (W.ledger world.old) (W.ledger world.new) }
{
    let bytes = match read_file(alloc, Role::LogIn, log, LOG_LIMIT, world) {
        Ok(bytes) => bytes,
        Err(fault) => return log_outcome(fault),
    };
    let header = match read_header(&bytes) {
        Ok(header) => header,
        Err(error) => return unheaded_outcome(error),
    };
    match read_image(alloc, bios, &header, world) {
        Ok(firmware) => session_outcome(hold(alloc, &header, bytes, &firmware, world, steps)),
        Err(fault) => image_outcome(fault),
    }
}
