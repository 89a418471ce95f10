//! Whole recordings and replays over devices in memory.

ghost use Rattle.std.specs.Prelude.{◌≡◌, ◌<◌, ◌≤◌, ◌^◌};
ghost use Rattle.event_log.specs.HeaderFormat.{IsHeader};

use super::*;
use board::Steps;
use elf_load::load;
use event_log::{Header, LogReader};
use outside::{Careful, ListClock, MemSink, MemSource};
use std::alloc::Global;
use std::marker::Brand;
use std::process::Abort;
use std::sync::ledger::{Blank, Ledger};
use std::test::Fail;

/// Reads three bytes, prints each, and ends the run.
const ECHO: [u32; 13] = [
    0x100002b7, 0x00300413, 0x0052c303, 0x00137313, 0xfe030ce3, 0x0002c303, 0x00628023, 0xfff40413,
    0xfe0414e3, 0x001003b7, 0x00005337, 0x55530313, 0x0063a023,
];

/// Waits for the timer, whose interrupt then ends the run.
const TIMER: [u32; 16] = [
    0x00000297, 0x03028293, 0x30529073, 0x02004337, 0x3e800393, 0x00732023, 0x00032223, 0x08000413,
    0x30441073, 0x30046073, 0x10500073, 0x0000006f, 0x001003b7, 0x00005337, 0x55530313, 0x0063a023,
];

/// The events of ECHO with `abc`, of which first one byte comes and then two.
const TYPED: [u8; 42] = [
    0x00, 0x00, 0x00, 0x00, 0x64, 0x05, 0x00, 0x03, 0x00, 0x00, 0x00, 0x00, 0x00, 0x01, b'a', 0x00,
    0x00, 0x00, 0x00, 0x64, 0x05, 0x00, 0x03, 0x00, 0x00, 0x00, 0x00, 0x00, 0x02, b'b', b'c', 0x00,
    0x00, 0x00, 0x00, 0x13, 0x06, 0x00, 0x00, 0x00, 0x00, 0x00,
];

/// The same, where all three come at once.
const TYPED_AT_ONCE: [u8; 28] = [
    0x00, 0x00, 0x00, 0x00, 0x64, 0x05, 0x00, 0x03, 0x00, 0x00, 0x00, 0x00, 0x00, 0x03, b'a', b'b',
    b'c', 0x00, 0x00, 0x00, 0x00, 0x1a, 0x06, 0x00, 0x00, 0x00, 0x00, 0x00,
];

type Parts = RecordParts<MemSource, MemSink, ListClock>;

fn header(slice: u32, budget: u64) -> Header
    requires slice { (1 ≤ slice) × (slice ≤ 65536) }
    requires budget { (1 ≤ budget) × (budget ≤ 2 ^ 40) }
    ensures header { IsHeader result }
    ensures ram { result.ram_mib ≡ 1 }
{
    Header {
        shift: 0,
        ram_mib: 1,
        slice,
        budget,
        firmware: [0; 32],
        disk_len: 0,
        disk: [0; 32],
    }
}

fn bytes(alloc: Global, guest: &[u32]) -> Result<Vec<u8>, Fail> {
    let mut bytes = Vec::new(alloc);
    for word in guest {
        bytes.extend_from_slice(&word.to_le_bytes())?;
    }
    Ok(bytes)
}

/// Devices whose input comes in these chunks, with the reads and the log's writes that fail.
fn parts(
    alloc: Global,
    input: &[u8],
    chunks: &[usize],
    reads: &[u64],
    writes: &[u64],
) -> Result<Parts, Fail> {
    Ok(RecordParts {
        console: MemSource::new(
            input.to_vec(alloc)?,
            chunks.to_vec(alloc)?,
            reads.to_vec(alloc)?,
        ),
        out: Careful::new(MemSink::new(alloc, Vec::new(alloc))),
        log: Careful::new(MemSink::new(alloc, writes.to_vec(alloc)?)),
        clock: ListClock::new(Vec::new(alloc)),
    })
}

/// The recording of a guest over these devices.
fn record<L: Ledger>(
    alloc: Global,
    guest: &[u32],
    header: &Header,
    parts: &mut Parts,
    steps: &mut Steps<L>,
) -> Result<RunEnd, Fail>
    requires header { IsHeader header.now }
    requires ram { header.now.ram_mib ≡ 1 }
{
    let firmware = load(alloc, &bytes(alloc, guest)?, 1)?;
    Ok(record_one(alloc, header, &firmware, parts, steps))
}

/// The replay of a log, whose bytes come in these chunks, and its console.
fn replay<L: Ledger>(
    alloc: Global,
    guest: &[u32],
    log: &[u8],
    chunks: &[usize],
    steps: &mut Steps<L>,
) -> Result<(ReplayEnd, Vec<u8>), Fail> {
    let source = MemSource::new(log.to_vec(alloc)?, chunks.to_vec(alloc)?, Vec::new(alloc));
    let mut reader = LogReader::new(alloc, source)?;
    let header = reader.header()?;
    let firmware = load(alloc, &bytes(alloc, guest)?, u32::from(header.ram_mib))?;
    let mut out = Careful::new(MemSink::new(alloc, Vec::new(alloc)));
    let end = replay_one(alloc, &header, &firmware, &mut reader, &mut out, steps);
    Ok((end, out.into_inner().bytes().to_vec(alloc)?))
}

/// Each window has the next piece of the input, and a read that fails stops the recording. A replay
/// ends by the END that the log has.
fn typing<L: Ledger>(rt: &impl Abort, alloc: Global, blank: Blank) -> Result<(), Fail>
    requires name { blank.name ≡ L.name }
    requires parts { blank.parts ≡ L.parts }
    requires some { 0 < L.parts }
{
    let mut steps: Steps<L> = Steps::open(blank);
    let end = RunEnd::End { reason: 0, code: 0 };
    let rows: [(&[usize], &[u64], RunEnd, &[u8], &[u8], u8); 3] = [
        (&[1, 2], &[], end, &TYPED, b"abc", 0),
        (&[3], &[], end, &TYPED_AT_ONCE, b"abc", 0),
        (
            &[],
            &[0],
            RunEnd::ConsoleRead,
            b"\0\0\0\0\x64\x05\0\x06\x03\0\0\0\0",
            b"",
            3,
        ),
    ];
    for (chunks, reads, end, events, console, reason) in rows {
        let mut parts = parts(alloc, b"abc", chunks, reads, &[])?;
        let ended = record(alloc, &ECHO, &header(100, 1000), &mut parts, &mut steps)?;
        assert_eq!(rt; ended, end);
        let RecordParts { out, log, .. } = parts;
        let log = log.into_inner();
        assert!(rt; log.bytes().len() > 98);
        assert_eq!(rt; &log.bytes()[98..], events);
        assert_eq!(rt; out.into_inner().bytes(), console);
        let (ended, shown) = replay(alloc, &ECHO, log.bytes(), &[], &mut steps)?;
        let whole =
            matches!(&ended, ReplayEnd::End { reason: again, code: 0, .. } if *again == reason);
        assert!(rt; whole);
        assert_eq!(rt; shown.as_slice(), console);
    }
    Ok(())
}

#[test]
fn input_comes_in_its_windows(rt: HostRuntime) -> Result<(), Fail> {
    typing::<Brand>(&rt, rt.alloc(), Blank::new(1))
}

/// A long log goes out by 65,536 bytes, also where that cuts an event.
fn writing<L: Ledger>(rt: &impl Abort, alloc: Global, blank: Blank) -> Result<(), Fail>
    requires name { blank.name ≡ L.name }
    requires parts { blank.parts ≡ L.parts }
    requires some { 0 < L.parts }
{
    let mut steps: Steps<L> = Steps::open(blank);
    let end = RunEnd::End { reason: 2, code: 0 };
    let rows: [(&[u64], RunEnd, usize, &[u8]); 2] = [
        (&[], end, 120_106, b"\x06\x02\0\0\0\0"),
        (&[2], RunEnd::LogWrite, 65_634, b"\0\0\0\x01\x02\0\0"),
    ];
    for (writes, end, length, last) in rows {
        let mut parts = parts(alloc, b"", &[], &[], writes)?;
        let ended = record(alloc, &[], &header(10_000, 20_000), &mut parts, &mut steps)?;
        assert_eq!(rt; ended, end);
        let log = parts.log.into_inner();
        assert_eq!(rt; log.bytes().len(), length);
        assert!(rt; log.bytes().ends_with(last));
    }
    Ok(())
}

#[test]
fn a_long_log_goes_out_in_pieces(rt: HostRuntime) -> Result<(), Fail> {
    writing::<Brand>(&rt, rt.alloc(), Blank::new(1))
}

/// A log that comes byte by byte is replayed alike.
fn reading<L: Ledger>(rt: &impl Abort, alloc: Global, blank: Blank) -> Result<(), Fail>
    requires name { blank.name ≡ L.name }
    requires parts { blank.parts ≡ L.parts }
    requires some { 0 < L.parts }
{
    let mut steps: Steps<L> = Steps::open(blank);
    let mut parts = parts(alloc, b"", &[], &[], &[])?;
    let ended = record(alloc, &TIMER, &header(10_000, 1000), &mut parts, &mut steps)?;
    assert_eq!(rt; ended, RunEnd::End { reason: 0, code: 0 });
    let log = parts.log.into_inner();
    assert_eq!(rt; log.bytes().len(), 117);
    for chunks in [&[] as &[usize], &[1; 200]] {
        let (end, _) = replay(alloc, &TIMER, log.bytes(), chunks, &mut steps)?;
        let end = format!(in alloc; "{:?}", end)?;
        assert_eq!(rt;
            end.as_str(),
            "End { reason: 0, code: 0, accepted: 5, turns: 15 }"
        );
    }
    Ok(())
}

#[test]
fn a_log_that_comes_byte_by_byte_replays_alike(rt: HostRuntime) -> Result<(), Fail> {
    reading::<Brand>(&rt, rt.alloc(), Blank::new(1))
}
