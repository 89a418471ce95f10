//! The counts that are kept of the demonstration's run.

ghost use Rattle.std.specs.Prelude.{◌≡◌, ◌<◌, ◌≤◌};
ghost use Rattle.elf_load.specs.Load.{LiesInRam};

use board::Steps;
use elf_load::{Loaded, load};
use event_log::Header;
use outside::{Careful, ListClock, SureImage, SureSink, SureSource};
use reverse_seek::Timeline;
use rr_engine::{RecordParts, record_one};
use std::alloc::{AllocError, Global};
use std::marker::Brand;
use std::sync::ledger::{Blank, Ledger};
use std::test::Fail;

/// The demonstration's guest that prints 2000 letters.
const GUEST: [u32; 18] = [
    0x100002b7, 0x7d000413, 0x00100313, 0x3e800493, 0x00231393, 0x00730333, 0x00130313, 0xfff48493,
    0xfe0498e3, 0x00f37393, 0x06138393, 0x00728023, 0xfff40413, 0xfc041ce3, 0x001003b7, 0x00005337,
    0x55530313, 0x0063a023,
];

/// The demonstration's header, but for its digests.
const HEADER: Header = Header {
    shift: 0,
    ram_mib: 16,
    slice: 10_000,
    budget: 1_000_000_000,
    firmware: [0; 32],
    disk_len: 0,
    disk: [0; 32],
};

/// The log of a firmware's run, without input and over a clock that stands at 0.
fn record<L: Ledger>(
    alloc: Global,
    firmware: &Loaded,
    steps: &mut Steps<L>,
) -> Result<Vec<u8>, AllocError>
    requires { LiesInRam 16 firmware.now }
{
    let mut parts = RecordParts {
        console: SureSource::new(Vec::new(alloc)),
        out: Careful::new(SureSink::new(alloc)),
        log: Careful::new(SureSink::new(alloc)),
        clock: ListClock::new(Vec::new(alloc)),
    };
    let _ = record_one(alloc, &HEADER, firmware, &mut parts, steps);
    let RecordParts { log, .. } = parts;
    match log.into_inner().bytes() {
        Some(bytes) => bytes.to_vec(alloc),
        None => Err(AllocError),
    }
}

/// What a timeline over a log tells of its counts.
fn counts<L: Ledger>(
    alloc: Global,
    log: Vec<u8>,
    firmware: &Loaded,
    steps: &mut Steps<L>,
) -> Result<String, AllocError>
    requires { LiesInRam 16 firmware.now }
{
    if log.len() < 98 {
        return Err(AllocError);
    }
    let disk = SureImage::new(Vec::new(alloc));
    let Ok((timeline, _)) = Timeline::open(alloc, &HEADER, log, firmware, disk, steps) else {
        return Err(AllocError);
    };
    let last = timeline.last();
    let stride = timeline.stride();
    let kept = timeline.kept();
    let ends = (kept.first(), kept.last());
    format!(in alloc;
        "{last} turns, {} counts every {stride}, {ends:?}",
        kept.len()
    )
}

/// The counts that are kept of the guest's run.
fn guests_counts<L: Ledger>(alloc: Global, blank: Blank) -> Result<String, AllocError>
    requires name { blank.name ≡ L.name }
    requires parts { blank.parts ≡ L.parts }
    requires some { 0 < L.parts }
{
    let mut steps: Steps<L> = Steps::open(blank);
    let mut file = Vec::new(alloc);
    for word in GUEST {
        file.extend_from_slice(&word.to_le_bytes())?;
    }
    let Ok(firmware) = load(alloc, &file, 16) else {
        return Err(AllocError);
    };
    let log = record(alloc, &firmware, &mut steps)?;
    counts(alloc, log, &firmware, &mut steps)
}

fn told(alloc: Global) -> Result<String, AllocError> {
    guests_counts::<Brand>(alloc, Blank::new(1))
}

/// It makes 5006 turns for each letter, and 7 more. The least doubling of 1000 with at most 32
/// multiples up to there is 512,000, of which 20 fit.
#[test]
fn a_long_run_keeps_20_counts(rt: HostRuntime) -> Result<(), Fail> {
    let told = told(rt.alloc())?;
    assert_eq!(rt;
        told.as_str(),
        "10012007 turns, 20 counts every 512000, (Some(0), Some(9728000))"
    );
    Ok(())
}
