//! A demonstration: the run of a guest is recorded and replayed over devices in memory.

ghost use Rattle.std.specs.Prelude.{◌≡◌, ◌≤◌, ◌^◌, ◌++◌, List, drop, length, IfOk, Ok, Some, string_bytes, codes};
ghost use Rattle.std.specs.Fmt.{decimal};
ghost use Rattle.elf_load.specs.Load.{loaded, LiesInRam};
ghost use Rattle.event_log.specs.declared.event.Event.{Event as AnEvent};
ghost use Rattle.event_log.specs.declared.header.Header.{Header as AHeader};
ghost use Rattle.event_log.specs.HeaderFormat.{IsHeader, header_text};
ghost use Rattle.board.specs.Reset.{start_of};
ghost use Rattle.board.specs.Runs.{turns};
ghost use Rattle.run_files.specs.Headers.{header_of};
ghost use Rattle.run_files.specs.Headers.{HasHeader};
ghost use Rattle.demo_run.specs.Demos.{demo_recording, Demonstration, demo_line, IsRaw, IsRecording, IsRecordedFrom, IsBehindHeader, HasEvents};

use crate::demo_clock::StillClock;
use crate::guests::guest_of;
use board::Steps;
use elf_load::{LoadError, Loaded, load};
use event_log::{Header, LogReader};
use outside::{Careful, NoMemory, SureSink, SureSource};
use rr_engine::{RecordParts, ReplayEnd, RunEnd, record_one, replay_one};
use run_files::digest;
use std::alloc::{AllocError, Global};
use std::sync::ledger::Ledger;

/// The longest log of a demonstration. Where it would be longer memory counts as refused.
const LOG_LIMIT: usize = 1 << 32;

/// What a recording left.
#[derive(Drop)]
struct Recorded {
    log: Vec<u8>,
    console: Vec<u8>,
}

/// What a replay gave.
#[derive(Drop)]
struct Replayed {
    console: Vec<u8>,
    turns: u64,
}

/// The header of a recording of a file with the defaults, without a disk.
fn header(file: &[u8]) -> Header
    ensures same { result ≡ header_of demo_recording file.now }
    ensures is { IsHeader result }
{
    Header {
        shift: 0,
        ram_mib: 16,
        slice: 10_000,
        budget: 1_000_000_000,
        firmware: digest(file),
        disk_len: 0,
        disk: digest(&[]),
    }
}

/// Loads a file that isn't an ELF file, and fits.
fn load_raw(alloc: Global, file: &[u8]) -> Result<Loaded, NoMemory>
    requires { IsRaw file.now }
    ensures loads { IfOk result (λ f. loaded file.now 16 ≡ Ok f) }
    ensures inside { IfOk result (λ f. LiesInRam 16 f) }
{
    match load(alloc, file, 16) {
        Ok(firmware) => Ok(firmware),
        Err(LoadError::NoMemory) => Err(AllocError),
        Err(_) => unreachable!(),
    }
}

/// A copy of what a sink took.
fn taken(alloc: Global, sink: &SureSink) -> Result<Vec<u8>, NoMemory>
    ensures { IfOk result (λ v. sink.now ≡ Some v.items) }
{
    match sink.bytes() {
        Some(bytes) => bytes.to_vec(alloc),
        None => Err(AllocError),
    }
}

/// Records the run of a firmware, without input and over a clock that stands at 0.
fn record<L: Ledger>(
    alloc: Global,
    header: &Header,
    firmware: &Loaded,
    steps: &mut Steps<L>,
) -> Result<Recorded, NoMemory>
    requires header { IsHeader header.now }
    requires firmware { LiesInRam header.now.ram_mib firmware.now }
    ensures recording { IfOk result (λ r. IsRecording (start_of header.now firmware.now)
        (header_text header.now) r.log.items r.console.items) }
    ensures short { IfOk result (λ r. length r.log.items ≤ 2 ^ 32) }
{
    let mut parts = RecordParts {
        console: SureSource::new(Vec::new(alloc)),
        out: Careful::new(SureSink::new(alloc)),
        log: Careful::new(SureSink::new(alloc)),
        clock: StillClock::new(),
    };
    let end = record_one(alloc, header, firmware, &mut parts, steps);
    let RecordParts {
        console: _,
        out,
        log,
        clock,
    } = parts;
    match end {
        RunEnd::End { .. } => {}
        RunEnd::NoMemory => return Err(AllocError),
        RunEnd::ConsoleRead | RunEnd::ConsoleWrite | RunEnd::LogWrite => unreachable!(),
    }
    let log = taken(alloc, &log.into_inner())?;
    let console = taken(alloc, &out.into_inner())?;
    if !clock.is_counted() || log.len() > LOG_LIMIT {
        return Err(AllocError);
    }
    Ok(Recorded { log, console })
}

/// The header of a log, and a reader behind it.
fn open(alloc: Global, log: &[u8]) -> Result<(Header, LogReader<SureSource>), NoMemory>
    requires header { (h : AHeader) × HasHeader log.now h }
    requires short { length log.now ≤ 2 ^ 32 }
    ensures header { IfOk result (λ r. HasHeader log.now r.0) }
    ensures behind { IfOk result (λ r. IsBehindHeader r.1 (drop 98 log.now)) }
{
    let source = SureSource::new(log.to_vec(alloc)?);
    let mut reader = LogReader::new(alloc, source)?;
    match reader.header() {
        Ok(header) => Ok((header, reader)),
        Err(_) => {
            // Its source tells that it never failed.
            let _ = reader.into_inner();
            unreachable!()
        }
    }
}

/// Replays a log that was recorded, and gives what the console took and the turns that were made.
fn replay<L: Ledger>(
    alloc: Global,
    firmware: &Loaded,
    recorded: &Recorded,
    steps: &mut Steps<L>,
) -> Result<Replayed, NoMemory>
    requires recorded { IsRecordedFrom firmware.now
        recorded.now.log.items recorded.now.console.items }
    requires short { length recorded.now.log.items ≤ 2 ^ 32 }
    ensures console { IfOk result (λ r. r.console.items ≡ recorded.now.console.items) }
    ensures turns { IfOk result (λ r. (events : List AnEvent)
        → HasEvents recorded.now.log.items events → r.turns ≡ turns events) }
{
    let (header, mut log) = open(alloc, &recorded.log)?;
    let mut out = Careful::new(SureSink::new(alloc));
    let end = replay_one(alloc, &header, firmware, &mut log, &mut out, steps);
    // The log's source tells that it never failed.
    let _ = log.into_inner();
    match end {
        ReplayEnd::End { turns, .. } => {
            let console = taken(alloc, &out.into_inner())?;
            Ok(Replayed { console, turns })
        }
        ReplayEnd::NoMemory => Err(AllocError),
        _ => unreachable!(),
    }
}

/// The line of a demonstration.
fn line(
    alloc: Global,
    letters: u32,
    turns: u64,
    console: usize,
    log: usize,
) -> Result<String, NoMemory>
    ensures { IfOk result (λ s. string_bytes s
        ≡ codes "demo " ++ decimal letters ++ codes ": turns " ++ decimal turns
        ++ codes ", console " ++ decimal console ++ codes ", log " ++ decimal log
        ++ codes ", replay equal\n") }
{
    format!(in alloc; "demo {letters}: turns {turns}, console {console}, log {log}, replay equal\n")
}

/// The line of a demonstration by the guest that prints n letters: its run is recorded and replayed
/// over devices in memory.
pub fn demo_text<L: Ledger>(alloc: Global, n: u32, steps: &mut Steps<L>) -> Result<String, NoMemory>
    requires some { 1 ≤ n }
    requires few { n ≤ 2000 }
    ensures { IfOk result (λ text. (d : Demonstration n) × (string_bytes text ≡ demo_line n d)) }
{
    let file = guest_of(alloc, n)?;
    let firmware = load_raw(alloc, &file)?;
    let header = header(&file);
    let recorded = record(alloc, &header, &firmware, steps)?;
    let replayed = replay(alloc, &firmware, &recorded, steps)?;
    if replayed.console != recorded.console {
        unreachable!();
    }
    line(
        alloc,
        n,
        replayed.turns,
        recorded.console.len(),
        recorded.log.len(),
    )
}
