//! The texts that are printed alone.

ghost use Rattle.std.specs.Prelude.{◌≡◌, ◌<◌, Some, [], OnOk, IsErrOf};
ghost use Rattle.outside.specs.Causes.{Rose};
ghost use Rattle.outside.specs.Told.{Takes, TakesFront};
ghost use Rattle.outside.specs.Roles.{at};
ghost use Rattle.outside.specs.declared.roles.Role.TheVariants.{ConsoleOut};
ghost use Rattle.outside.specs.Openings.{OpensFront};
ghost use Rattle.run_files.specs.Ledgers.{only, Balanced};
ghost use Rattle.commands.specs.Asking.{quiet_outcome_of};
ghost use Rattle.commands.specs.Faults.{fault_of, KeptBut};
ghost use Rattle.commands.specs.Openings.{console_openings};

use crate::outcome::Outcome;
use outside::{Careful, Role, World};

/// What `--version` prints.
pub const VERSION: &str = "rrvm 0.1\n";

/// What `--help` prints.
pub const HELP: &str = "\
rrvm records one run of a RISC-V machine (RV32IMA, machine and user mode) in a
log that a one-thread machine accepts event by event, and replays it.

usage: rrvm -icount shift=N,rr=record,rrfile=LOG -bios FILE
            [-m MIB] [-budget T] [-slice S]
       rrvm -icount rr=replay,rrfile=LOG[,shift=N] -bios FILE [-m MIB]
       rrvm debug LOG -bios FILE
       rrvm check LOG -bios FILE
       rrvm events LOG
       rrvm demo N
       rrvm --help | --version

  -icount   shift=N     one turn costs 2^N nanoseconds of the guest, 0 to 10
            rr=record   record
            rr=replay   replay the log, and refuse it at its first wrong event
            rrfile=LOG  the log; a recording makes it empty first
  -bios     the firmware: an ELF executable for RV32, or raw bytes at 0x80000000
  -m        RAM in MiB, 1 to 64 (16; of a replay what its log says)
  -budget   the most turns, 1 to 2^40 (1000000000)
  -slice    turns between two checkpoints, 1 to 65536 (10000)
  debug     go back and forth in a recorded run, by commands on standard input:
            info replay, info registers, replay_seek N, replay_break N,
            replay_delete_break, reverse-step, reverse-continue, step, continue,
            x ADDRESS LENGTH, quit
  check     tell whether the machine accepts the log, and what it comes to
  events    list the events of the log, each in a line
  demo N    record and replay in memory a guest that prints N letters, 1 to 2000

The console is standard input and output, messages go to standard error. The
guest ends its run by a write of 0x5555, or CODE * 65536 + 0x3333, to 0x100000.

status
   0  the guest ended with code 0        10  the guest ended with another code
   1  bad words                          12  idle for ever
   2  a file can't be opened or read     13  budget reached
   3  console input failed               14  the recording was stopped
   4  console output failed              20  the log is refused
   5  log output failed                  21  the images aren't those of the log
   6  log input failed                   22  the log is too long
   8  bad firmware                       23  too many commands
   9  a quiet command's streams failed   30  no memory

example: rrvm -icount shift=0,rr=record,rrfile=a.log -bios letter.bin
         rrvm -icount rr=replay,rrfile=a.log -bios letter.bin
         rrvm debug a.log -bios letter.bin
";

/// Why a text wasn't printed.
#[derive(Clone, Copy, Debug, PartialEq, Eq)]
pub enum PrintFault {
    Failed,
    NoMemory,
}

/// Prints a text to standard output.
#[tactic(auto, using(outside::proofs::Fronts::starts, outside::proofs::Fronts::openings))]
pub fn print<W: World>(text: &str, world: &mut W) -> Result<(), PrintFault>
    ensures whole { OnOk result
        (Takes (Some []) (at (W.ledger world.new).last ConsoleOut) text.now) }
    ensures kept { KeptBut (fault_of (quiet_outcome_of result)) (W.ledger world.old)
        (W.ledger world.new) }
    ensures front { at (W.ledger world.old).opened ConsoleOut < at (W.ledger world.new).opened ConsoleOut
        → TakesFront (Some []) (at (W.ledger world.new).last ConsoleOut) text.now }
    ensures failed { IsErrOf result PrintFault.Failed
        → Rose (at (W.ledger world.old).faults ConsoleOut)
        (at (W.ledger world.new).faults ConsoleOut) }
    ensures openings { OpensFront (W.ledger world.old).openings (W.ledger world.new).openings
        console_openings }
    ensures balanced { Balanced ConsoleOut (W.ledger world.old) (W.ledger world.new) }
    ensures rest { W.ledger world.new ≡ only ConsoleOut (W.ledger world.old) (W.ledger world.new) }
{
    let mut console = match world.sink(Role::ConsoleOut, None) {
        Ok(sink) => Careful::new(sink),
        Err(_) => return Err(PrintFault::NoMemory),
    };
    let written = console.put_all(text.as_bytes());
    world.take_sink(Role::ConsoleOut, console.into_inner());
    match written {
        Ok(()) => Ok(()),
        Err(_) => Err(PrintFault::Failed),
    }
}

/// How a quiet command ends whose answer was printed so.
pub fn quiet_outcome(printed: Result<(), PrintFault>) -> Outcome
    ensures { result ≡ quiet_outcome_of printed }
{
    match printed {
        Ok(()) => Outcome::Printed,
        Err(PrintFault::Failed) => Outcome::QuietFailed,
        Err(PrintFault::NoMemory) => Outcome::NoMemory,
    }
}
