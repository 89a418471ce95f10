//! The top call: what the words ask for is done over a world, and the messages say how it ended.

ghost use Rattle.std.specs.Prelude.{◌≡◌, ◌≢◌, ◌<◌, ◌≤◌, ◌^◌, ◌⊎◌, ℕ, List, [], Some, None, Ok, OnOk, OnErr, length, map, string_bytes};
ghost use Rattle.outside.specs.Causes.{Rose, Stood};
ghost use Rattle.outside.specs.Told.{Takes, TakesFront};
ghost use Rattle.outside.specs.Roles.{at};
ghost use Rattle.outside.specs.declared.roles.Role.{Role as ARole};
ghost use Rattle.outside.specs.declared.roles.Role.TheVariants.{ConsoleIn, ConsoleOut, LogIn, LogOut, Messages, Firmware as FirmwareRole};
ghost use Rattle.command_line.specs.Words.{Recording, Replaying, Run, Records, Replays, Debugs, Checks, IsBadLine, IsLineInRange};
ghost use Rattle.command_line.specs.Line.{seen_line, line_in, quiet_in};
ghost use Rattle.elf_load.specs.declared.error.LoadError.{LoadError};
ghost use Rattle.elf_load.specs.declared.error.LoadError.TheVariants as load_error;
ghost use Rattle.outside.specs.Openings.{OpensFront};
ghost use Rattle.run_files.specs.Ledgers.{only, only_run, Balanced, ClocksBalanced, NoDisk, CountsKept, CountsStood, Untouched};
ghost use Rattle.commands.specs.Asking.{replaying_of};
ghost use Rattle.commands.specs.Openings.{console_openings};
ghost use Rattle.rrvm.specs.Openings.{openings_of, message_openings, OpensAsAsked};
ghost use Rattle.commands.specs.Faults.{IsFaultless, NamesFault};
ghost use Rattle.rrvm.specs.Messages.{line_of};
ghost use Rattle.run_files.specs.Firmwares.{IsBadFirmware};
ghost use Rattle.commands.specs.Recordings.{IsGood, IsLogged};
ghost use Rattle.commands.specs.Replays.{IsReplayable, IsRefusable, IsTooLong};
ghost use Rattle.rrvm.specs.ReplayedAlike.{IsReplayedAlike};
ghost use Rattle.commands.specs.Causes.{IfRecords, IsEnded, IfRecording};
ghost use Rattle.rrvm.specs.Causes.{Cause, Names, IsPrinted, Shows};
ghost use Rattle.rrvm.specs.Answers.{Explained, DebugsFreely, IsWordFault, HasRun, ending_status};

use crate::message::message;
use board::Steps;
use check_command::check;
use command_line::{Line, read_line, read_quiet};
use commands::{HELP, Outcome, PrintFault, VERSION, demonstrate, print, replay, run};
use debug_command::debug;
use list_command::list;
use outside::{Careful, Role, World};
use std::alloc::{AllocError, Global};
use std::marker::Brand;
use std::sync::Wait;
use std::sync::ledger::{Blank, Ledger};
use std::thread::Threads;

/// The program's exit status.
#[derive(Clone, Copy, Debug, PartialEq, Eq)]
pub struct Status {
    pub code: u8,
}

/// Writes the line to the messages. A fault there changes nothing.
#[tactic(auto, using(outside::proofs::Fronts::starts, outside::proofs::Fronts::openings))]
pub(crate) fn say<W: World>(text: &[u8], world: &mut W) -> Result<(), AllocError>
    ensures unopened { OnErr result (at (W.ledger world.new).opened Messages
        ≡ at (W.ledger world.old).opened Messages) }
    ensures front { at (W.ledger world.old).opened Messages < at (W.ledger world.new).opened Messages
        → TakesFront (Some []) (at (W.ledger world.new).last Messages) text.now }
    ensures whole { OnOk result
        (Stood (at (W.ledger world.old).faults Messages) (at (W.ledger world.new).faults Messages)
        → Takes (Some []) (at (W.ledger world.new).last Messages) text.now) }
    ensures openings { OpensFront (W.ledger world.old).openings (W.ledger world.new).openings
        message_openings }
    ensures balanced { Balanced Messages (W.ledger world.old) (W.ledger world.new) }
    ensures rest { W.ledger world.new ≡ only Messages (W.ledger world.old) (W.ledger world.new) }
{
    let mut messages = match world.sink(Role::Messages, None) {
        Ok(sink) => Careful::new(sink),
        Err(_) => return Err(AllocError),
    };
    let _ = messages.put_all(text);
    world.take_sink(Role::Messages, messages.into_inner());
    Ok(())
}

/// Says how it ended. Where memory is refused for that, this is how it ended.
fn tell<W: World>(
    alloc: Global,
    words: &[String],
    line: &Line<'_>,
    outcome: Outcome,
    world: &mut W,
) -> Outcome
    ensures which { (result ≡ outcome) ⊎ (result ≡ Outcome.NoMemory) }
    ensures front { at (W.ledger world.old).opened Messages < at (W.ledger world.new).opened Messages
        → TakesFront (Some []) (at (W.ledger world.new).last Messages)
        (line_of (map string_bytes words.now) (seen_line line.now) result) }
    ensures whole { (result ≡ Outcome.NoMemory → ⊥)
        → Stood (at (W.ledger world.old).faults Messages) (at (W.ledger world.new).faults Messages)
        → Takes (Some []) (at (W.ledger world.new).last Messages)
        (line_of (map string_bytes words.now) (seen_line line.now) result) }
    ensures openings { OpensFront (W.ledger world.old).openings (W.ledger world.new).openings
        message_openings }
    ensures balanced { Balanced Messages (W.ledger world.old) (W.ledger world.new) }
    ensures rest { W.ledger world.new ≡ only Messages (W.ledger world.old) (W.ledger world.new) }
{
    let Ok(text) = message(alloc, words, line, &outcome) else {
        return Outcome::NoMemory;
    };
    match say(text.as_bytes(), world) {
        Ok(()) => outcome,
        Err(_) => Outcome::NoMemory,
    }
}

/// Prints a text alone.
fn print_alone<W: World>(text: &str, world: &mut W) -> Outcome
    ensures printed { result ≡ Outcome.Printed
        → Takes (Some []) (at (W.ledger world.new).last ConsoleOut) text.now }
    ensures failed { result ≡ Outcome.ConsoleFailed
        → Rose (at (W.ledger world.old).faults ConsoleOut)
        (at (W.ledger world.new).faults ConsoleOut) }
    ensures which { (result ≡ Outcome.Printed)
        ⊎ ((result ≡ Outcome.ConsoleFailed) ⊎ (result ≡ Outcome.NoMemory)) }
    ensures front { at (W.ledger world.old).opened ConsoleOut < at (W.ledger world.new).opened ConsoleOut
        → TakesFront (Some []) (at (W.ledger world.new).last ConsoleOut) text.now }
    ensures kept { NamesFault result (W.ledger world.old) (W.ledger world.new) }
    ensures openings { OpensFront (W.ledger world.old).openings (W.ledger world.new).openings
        console_openings }
    ensures balanced { Balanced ConsoleOut (W.ledger world.old) (W.ledger world.new) }
    ensures rest { W.ledger world.new ≡ only ConsoleOut (W.ledger world.old) (W.ledger world.new) }
{
    match print(text, world) {
        Ok(()) => Outcome::Printed,
        Err(PrintFault::Failed) => Outcome::ConsoleFailed,
        Err(PrintFault::NoMemory) => Outcome::NoMemory,
    }
}

/// What the words come to over a world. Nobody asks how many turns were made.
fn answer<W: World, L: Ledger>(
    alloc: Global,
    blank: Blank,
    line: &Line<'_>,
    world: &mut W,
) -> Outcome
    requires name { blank.name ≡ L.name }
    requires parts { blank.parts ≡ L.parts }
    requires some { 0 < L.parts }
    requires range { IsLineInRange (seen_line line.now) }
    ensures cause { Cause (seen_line line.now) (W.ledger world.old) (W.ledger world.new) result }
    ensures log { at (W.ledger world.old).opened LogOut < at (W.ledger world.new).opened LogOut
        → IfRecords (seen_line line.now) (W.ledger world.old)
        (λ r file. IsLogged r file (W.ledger world.old) (W.ledger world.new)) }
    ensures shown { at (W.ledger world.old).opened ConsoleOut
        < at (W.ledger world.new).opened ConsoleOut
        → Shows (seen_line line.now) (W.ledger world.old) (W.ledger world.new) }
    ensures bad { IsBadLine (seen_line line.now) → IsWordFault result }
    ensures kept { Names (seen_line line.now) result (W.ledger world.old) (W.ledger world.new) }
    ensures openings { OpensFront (W.ledger world.old).openings (W.ledger world.new).openings
        (openings_of (seen_line line.now)) }
    ensures untouched { IfRecording (seen_line line.now) (at (W.ledger world.new).opened LogOut
        ≡ at (W.ledger world.old).opened LogOut → at (W.ledger world.old).opened LogOut < 2 ^ 63
        → Untouched (W.ledger world.old) (W.ledger world.new)) }
    ensures unchanged { IsBadLine (seen_line line.now) → W.ledger world.new ≡ W.ledger world.old }
    ensures balanced_firmware { Balanced FirmwareRole (W.ledger world.old) (W.ledger world.new) }
    ensures balanced_input { Balanced ConsoleIn (W.ledger world.old) (W.ledger world.new) }
    ensures balanced_console { Balanced ConsoleOut (W.ledger world.old) (W.ledger world.new) }
    ensures balanced_log { Balanced LogOut (W.ledger world.old) (W.ledger world.new) }
    ensures balanced_replayed { Balanced LogIn (W.ledger world.old) (W.ledger world.new) }
    ensures balanced_clock { ClocksBalanced (W.ledger world.old) (W.ledger world.new) }
    ensures rest { W.ledger world.new ≡ only_run (W.ledger world.old) (W.ledger world.new) }
{
    let mut steps: Steps<L> = Steps::open(blank);
    match line {
        Line::Record(words) => run(alloc, words, world, &mut steps),
        Line::Replay(words) => replay(alloc, words, world, &mut steps),
        Line::Debug(words) => debug(alloc, words.log, words.bios, world, &mut steps),
        Line::Check(words) => check(alloc, words.log, words.bios, world, &mut steps),
        Line::Events(log) => list(alloc, log, world),
        Line::Demo(n) => demonstrate(alloc, *n, world, &mut steps),
        Line::Help => print_alone(HELP, world),
        Line::Version => print_alone(VERSION, world),
        Line::BadWord(number) => Outcome::BadWord(*number),
        Line::WordsMissing => Outcome::WordsMissing,
    }
}

/// Does what the words ask for, over a world, and says on its messages how it ended.
///
/// The words are those after the program's name. A recording opens the firmware's file, the
/// console's input, the console, the clock and the log, in this order; a replay the log, the
/// firmware's file and the console. Each device is given back. Of several causes the one that is
/// met first decides.
pub fn rrvm_main<R: Threads + Wait + Sync + AllocGlobal, W: World>(
    rt: &R,
    words: &[String],
    world: &mut W,
) -> Status
    // The status, its cause, and the line on the messages.
    ensures explained { Explained (map string_bytes words.now) (line_in words.now)
        (W.ledger world.old) (W.ledger world.new) result.code }

    // The log that a recording wrote, where the firmware's file tells its bytes: a front of the
    // header; or the header, events that the one-thread machine accepts, and a part of one event.
    // What standard input held and what the clock gave begins with what these events have.
    ensures log { at (W.ledger world.old).opened LogOut < at (W.ledger world.new).opened LogOut
        → IfRecords (line_in words.now) (W.ledger world.old)
        (λ r file. IsLogged r file (W.ledger world.old) (W.ledger world.new)) }

    // What standard output took, where log and firmware tell their bytes. Of a replay: a front of the
    // bytes of a part of the log that the one-thread machine accepts. Of a debugging session: a front
    // of its transcript over the log's accepted part, each answer a state of that machine. Of a check:
    // of the line of a log that is accepted. Of a list: of the lines of events that the log begins
    // with. Of a text: a front of it.
    ensures shown { at (W.ledger world.old).opened ConsoleOut
        < at (W.ledger world.new).opened ConsoleOut
        → Shows (line_in words.now) (W.ledger world.old) (W.ledger world.new) }

    // Each status where it comes.
    ensures bad_words { result.code ≡ 1 → IsBadLine (line_in words.now) }
    ensures bad_words_only { IsBadLine (line_in words.now)
        → (result.code ≡ 1) ⊎ (result.code ≡ 30) }
    ensures unread { result.code ≡ 2
        → Rose (W.ledger world.old).opening_faults (W.ledger world.new).opening_faults
        ⊎ Rose (at (W.ledger world.old).faults FirmwareRole)
        (at (W.ledger world.new).faults FirmwareRole) }
    ensures input_fault { result.code ≡ 3
        → Rose (at (W.ledger world.old).faults ConsoleIn)
        (at (W.ledger world.new).faults ConsoleIn) }
    ensures console_fault { result.code ≡ 4
        → Rose (at (W.ledger world.old).faults ConsoleOut)
        (at (W.ledger world.new).faults ConsoleOut) }
    ensures log_fault { result.code ≡ 5
        → Rose (at (W.ledger world.old).faults LogOut) (at (W.ledger world.new).faults LogOut) }
    ensures replayed_fault { result.code ≡ 6
        → Rose (at (W.ledger world.old).faults LogIn) (at (W.ledger world.new).faults LogIn) }
    ensures bad_firmware { result.code ≡ 8 → IfRecords (line_in words.now) (W.ledger world.old)
        (λ r file. (rule : LoadError) × IsBadFirmware file r.ram_mib rule) }
    ensures bad_firmware_only { (r : Recording) (file : List ℕ) (rule : LoadError)
        → line_in words.now ≡ Records r → (W.ledger world.old).names r.bios ≡ Some file
        → rule ≢ load_error.NoMemory → IsBadFirmware file r.ram_mib rule
        → (result.code ≡ 8) ⊎ ((result.code ≡ 2) ⊎ (result.code ≡ 30)) }
    ensures quiet_fault { result.code ≡ 9
        → Rose (at (W.ledger world.old).faults ConsoleOut)
        (at (W.ledger world.new).faults ConsoleOut)
        ⊎ Rose (at (W.ledger world.old).faults ConsoleIn)
        (at (W.ledger world.new).faults ConsoleIn) }
    ensures idle { result.code ≡ 12
        → IsEnded (line_in words.now) (W.ledger world.old) (W.ledger world.new) 1 0 }
    ensures budget { result.code ≡ 13
        → IsEnded (line_in words.now) (W.ledger world.old) (W.ledger world.new) 2 0 }
    ensures stopped { result.code ≡ 14
        → IsEnded (line_in words.now) (W.ledger world.old) (W.ledger world.new) 3 0 }
    ensures guest { result.code ≡ 10 → (code : ℕ) × (code ≢ 0)
        × IsEnded (line_in words.now) (W.ledger world.old) (W.ledger world.new) 0 code }
    ensures passed { result.code ≡ 0
        → IsPrinted (line_in words.now) (W.ledger world.old) (W.ledger world.new)
        ⊎ IsEnded (line_in words.now) (W.ledger world.old) (W.ledger world.new) 0 0 }

    // A recording completes where nothing fails.
    ensures completes { (r : Recording) (file : List ℕ) → line_in words.now ≡ Records r
        → (W.ledger world.old).names r.bios ≡ Some file → IsGood r file
        → CountsStood (W.ledger world.old) (W.ledger world.new)
        → HasRun result.code ⊎ (result.code ≡ 30) }

    // A recorded log is replayable: where the machine ran to an end, a replay of what the log's sink
    // took, over the same file and by words that give its shift and RAM or none, is never refused. It
    // ends as the recording did, with its console bytes.
    ensures replayable { HasRun result.code → (r : Recording) (log file : List ℕ)
        → line_in words.now ≡ Records r
        → (W.ledger world.old).names r.bios ≡ Some file
        → at (W.ledger world.new).last LogOut ≡ Some log
        → length log ≤ 2 ^ 40
        → (reason : ℕ) × (code : ℕ) × (result.code ≡ ending_status reason code)
        × IsReplayedAlike r log file (W.ledger world.new) reason code }

    // A machine that ran to an end, a text that was printed, or a log that is refused: no device
    // failed, and no opening.
    ensures unfaulted { IsFaultless result.code
        → CountsKept (W.ledger world.old) (W.ledger world.new) }

    // Where nothing fails, a replay of a log that is accepted whole has the status of the log's END;
    // a log that is wrong among its first 2^40 bytes is refused; and a longer one that isn't is too
    // long.
    ensures replays { (r : Replaying) (log file : List ℕ) (reason code : ℕ)
        → line_in words.now ≡ Replays r
        → (W.ledger world.old).names r.log ≡ Some log
        → (W.ledger world.old).names r.bios ≡ Some file
        → IsReplayable r log file reason code
        → CountsStood (W.ledger world.old) (W.ledger world.new)
        → (result.code ≡ ending_status reason code) ⊎ (result.code ≡ 30) }
    ensures refuses { (r : Replaying) (log file : List ℕ) → line_in words.now ≡ Replays r
        → (W.ledger world.old).names r.log ≡ Some log
        → (W.ledger world.old).names r.bios ≡ Some file
        → IsRefusable r log file
        → CountsStood (W.ledger world.old) (W.ledger world.new)
        → (result.code ≡ 20) ⊎ (result.code ≡ 30) }
    ensures too_long { (r : Replaying) (log file : List ℕ) → line_in words.now ≡ Replays r
        → (W.ledger world.old).names r.log ≡ Some log
        → (W.ledger world.old).names r.bios ≡ Some file
        → IsTooLong r log file
        → CountsStood (W.ledger world.old) (W.ledger world.new)
        → (result.code ≡ 22) ⊎ (result.code ≡ 30) }

    // Where nothing fails: a check and a debugging session of a log that is accepted whole pass, and
    // over a log that is wrong among its first 2^40 bytes they end by refusing it.
    ensures checks { (r : Run) (log file : List ℕ) (reason code : ℕ) → line_in words.now ≡ Checks r
        → (W.ledger world.old).names r.log ≡ Some log
        → (W.ledger world.old).names r.bios ≡ Some file
        → IsReplayable (replaying_of r.log r.bios) log file reason code
        → CountsStood (W.ledger world.old) (W.ledger world.new)
        → (result.code ≡ 0) ⊎ (result.code ≡ 30) }
    ensures checks_wrong { (r : Run) (log file : List ℕ) → line_in words.now ≡ Checks r
        → (W.ledger world.old).names r.log ≡ Some log
        → (W.ledger world.old).names r.bios ≡ Some file
        → IsRefusable (replaying_of r.log r.bios) log file
        → CountsStood (W.ledger world.old) (W.ledger world.new)
        → (result.code ≡ 20) ⊎ (result.code ≡ 30) }
    ensures debugs { (r : Run) (log file input : List ℕ) (reason code : ℕ)
        → line_in words.now ≡ Debugs r
        → DebugsFreely r log file input (W.ledger world.old) (W.ledger world.new)
        → IsReplayable (replaying_of r.log r.bios) log file reason code
        → (result.code ≡ 0) ⊎ (result.code ≡ 30) }
    ensures debugs_wrong { (r : Run) (log file input : List ℕ) → line_in words.now ≡ Debugs r
        → DebugsFreely r log file input (W.ledger world.old) (W.ledger world.new)
        → IsRefusable (replaying_of r.log r.bios) log file
        → (result.code ≡ 20) ⊎ (result.code ≡ 30) }

    // What was opened: a front of what the words let be opened, in that order and under the names
    // that they give, and then the messages, or nothing.
    ensures openings { OpensAsAsked (line_in words.now) (W.ledger world.old) (W.ledger world.new) }

    // Where no log is recorded or read: a recording that doesn't open its log shows nothing and
    // reads nothing of standard input, and bad words change the messages alone.
    ensures untouched { (r : Recording) → line_in words.now ≡ Records r
        → at (W.ledger world.new).opened LogOut ≡ at (W.ledger world.old).opened LogOut
        → at (W.ledger world.old).opened LogOut < 2 ^ 63
        → Untouched (W.ledger world.old) (W.ledger world.new) }
    ensures idle_words { IsBadLine (line_in words.now)
        → W.ledger world.new ≡ only Messages (W.ledger world.old) (W.ledger world.new) }

    // Each device is given back.
    ensures balanced { (role : ARole) → Balanced role (W.ledger world.old) (W.ledger world.new) }
    ensures balanced_clock { ClocksBalanced (W.ledger world.old) (W.ledger world.new) }
    ensures no_disk { NoDisk (W.ledger world.old) (W.ledger world.new) }
{
    let alloc = rt.alloc();
    let line = read_line(words);
    let outcome = answer::<W, Brand>(alloc, Blank::new(1), &line, world);
    let told = tell(alloc, words, &line, outcome, world);
    Status {
        code: told.status(),
    }
}

/// Does what the words of a quiet command ask for, which needs no threads and always returns.
///
/// The words are those after the program's name, of which the first is `debug`, `check`, `events` or
/// `demo`: another is bad. What is asked for is printed to standard output; a debugging session reads
/// its commands from standard input.
pub fn rrvm_quiet<W: World>(alloc: Global, words: &[String], world: &mut W) -> Status
    // The status, its cause, and the line on the messages.
    ensures explained { Explained (map string_bytes words.now) (quiet_in words.now)
        (W.ledger world.old) (W.ledger world.new) result.code }

    // What standard output took: a front of a session's transcript, of the line of a check or of a
    // demonstration, or of the lines of a list.
    ensures shown { at (W.ledger world.old).opened ConsoleOut
        < at (W.ledger world.new).opened ConsoleOut
        → Shows (quiet_in words.now) (W.ledger world.old) (W.ledger world.new) }

    // Each status where it comes.
    ensures bad_words { result.code ≡ 1 → IsBadLine (quiet_in words.now) }
    ensures bad_words_only { IsBadLine (quiet_in words.now)
        → (result.code ≡ 1) ⊎ (result.code ≡ 30) }
    ensures unread { result.code ≡ 2
        → Rose (W.ledger world.old).opening_faults (W.ledger world.new).opening_faults
        ⊎ Rose (at (W.ledger world.old).faults FirmwareRole)
        (at (W.ledger world.new).faults FirmwareRole) }
    ensures log_fault { result.code ≡ 6
        → Rose (at (W.ledger world.old).faults LogIn) (at (W.ledger world.new).faults LogIn) }
    ensures quiet_fault { result.code ≡ 9
        → Rose (at (W.ledger world.old).faults ConsoleOut)
        (at (W.ledger world.new).faults ConsoleOut)
        ⊎ Rose (at (W.ledger world.old).faults ConsoleIn)
        (at (W.ledger world.new).faults ConsoleIn) }
    ensures passed { result.code ≡ 0
        → IsPrinted (quiet_in words.now) (W.ledger world.old) (W.ledger world.new) }

    // No device failed, and no opening, where the answer was printed whole or the log is refused.
    ensures unfaulted { IsFaultless result.code
        → CountsKept (W.ledger world.old) (W.ledger world.new) }

    // Where nothing fails: a check and a debugging session of a log that is accepted whole pass, and
    // over a log that is wrong among its first 2^40 bytes they end by refusing it.
    ensures checks { (r : Run) (log file : List ℕ) (reason code : ℕ) → quiet_in words.now ≡ Checks r
        → (W.ledger world.old).names r.log ≡ Some log
        → (W.ledger world.old).names r.bios ≡ Some file
        → IsReplayable (replaying_of r.log r.bios) log file reason code
        → CountsStood (W.ledger world.old) (W.ledger world.new)
        → (result.code ≡ 0) ⊎ (result.code ≡ 30) }
    ensures checks_wrong { (r : Run) (log file : List ℕ) → quiet_in words.now ≡ Checks r
        → (W.ledger world.old).names r.log ≡ Some log
        → (W.ledger world.old).names r.bios ≡ Some file
        → IsRefusable (replaying_of r.log r.bios) log file
        → CountsStood (W.ledger world.old) (W.ledger world.new)
        → (result.code ≡ 20) ⊎ (result.code ≡ 30) }
    ensures debugs { (r : Run) (log file input : List ℕ) (reason code : ℕ)
        → quiet_in words.now ≡ Debugs r
        → DebugsFreely r log file input (W.ledger world.old) (W.ledger world.new)
        → IsReplayable (replaying_of r.log r.bios) log file reason code
        → (result.code ≡ 0) ⊎ (result.code ≡ 30) }
    ensures debugs_wrong { (r : Run) (log file input : List ℕ) → quiet_in words.now ≡ Debugs r
        → DebugsFreely r log file input (W.ledger world.old) (W.ledger world.new)
        → IsRefusable (replaying_of r.log r.bios) log file
        → (result.code ≡ 20) ⊎ (result.code ≡ 30) }

    // What was opened: a front of what the words let be opened, and then the messages, or nothing.
    ensures openings { OpensAsAsked (quiet_in words.now) (W.ledger world.old) (W.ledger world.new) }
    ensures idle_words { IsBadLine (quiet_in words.now)
        → W.ledger world.new ≡ only Messages (W.ledger world.old) (W.ledger world.new) }

    // Each device is given back.
    ensures balanced { (role : ARole) → Balanced role (W.ledger world.old) (W.ledger world.new) }
    ensures balanced_clock { ClocksBalanced (W.ledger world.old) (W.ledger world.new) }
    ensures no_disk { NoDisk (W.ledger world.old) (W.ledger world.new) }
{
    let line = read_quiet(words);
    let outcome = answer::<W, Brand>(alloc, Blank::new(1), &line, world);
    let told = tell(alloc, words, &line, outcome, world);
    Status {
        code: told.status(),
    }
}
