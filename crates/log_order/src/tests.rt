//! Runs through small logs.

ghost use Rattle.std.specs.Prelude.{◌≡◌, ◌<◌};

use super::*;
use board::{Config, Ending, Machine, Steps};
use elf_load::load;
use event_log::Event;
use std::alloc::Global;
use std::marker::Brand;
use std::process::Abort;
use std::sync::ledger::{Blank, Ledger};
use std::test::Fail;

/// Prints A, and ends the run with its seventh turn.
const LETTER: [u32; 7] = [
    0x100002b7, 0x04100313, 0x00628023, 0x001003b7, 0x00005337, 0x55530313, 0x0063a023,
];

/// Waits for the timer, whose interrupt then ends the run.
const TIMER: [u32; 16] = [
    0x00000297, 0x03028293, 0x30529073, 0x02004337, 0x3e800393, 0x00732023, 0x00032223, 0x08000413,
    0x30441073, 0x30046073, 0x10500073, 0x0000006f, 0x001003b7, 0x00005337, 0x55530313, 0x0063a023,
];

/// The guest at its start, in 1 MiB.
fn started(alloc: Global, guest: &[u32]) -> Result<Machine, Fail> {
    let mut words = Vec::new(alloc);
    for word in guest {
        words.extend_from_slice(&word.to_le_bytes())?;
    }
    let config = Config {
        shift: 0,
        ram_mib: 1,
        slice: 10_000,
        budget: 100,
        disk_len: 0,
    };
    let firmware = load(alloc, &words, 1)?;
    Ok(Machine::reset(alloc, &config, &firmware)?)
}

/// The guest through a log of these events.
fn run<L: Ledger>(
    alloc: Global,
    guest: &[u32],
    events: &[u8],
    steps: &mut Steps<L>,
) -> Result<RunLog, Fail> {
    let mut log = Vec::new(alloc);
    log.extend_from_slice(&[0; 98])?;
    log.extend_from_slice(events)?;
    let machine = started(alloc, guest)?;
    Ok(run_log(alloc, &log, machine, steps))
}

/// The first wrong place of each log, and the console bytes that were accepted.
fn judge<L: Ledger>(rt: &impl Abort, alloc: Global, blank: Blank) -> Result<(), Fail>
    requires name { blank.name ≡ L.name }
    requires parts { blank.parts ≡ L.parts }
    requires some { 0 < L.parts }
{
    let mut steps: Steps<L> = Steps::open(blank);
    let rows: [(&[u32], &[u8], &str, &[u8]); 7] = [
        (&LETTER, b"\0\0\0\0\x07\x06\0\0\0\0\0", "None", b"A"),
        (
            &LETTER,
            b"\0\0\0\0\x06\x06\0\0\0\0\0",
            "Some(Refusal { index: 0, offset: 98, due: Run, found: Event(Instruction(6)) })",
            b"",
        ),
        (
            &LETTER,
            b"\0\0\0\0\x08\x06\0\0\0\0\0",
            "Some(Refusal { index: 0, offset: 98, due: End { reason: 0, code: 0 }, \
            found: Event(Instruction(8)) })",
            b"",
        ),
        (
            &LETTER,
            b"\0\0\0\0\x07\x06\0\0\0\0\0\x2a",
            "Some(Refusal { index: 2, offset: 109, due: Nothing, found: MoreBytes })",
            b"A",
        ),
        (
            &LETTER,
            b"\0\0\0\0\x07\x06\0\0\0\0",
            "Some(Refusal { index: 1, offset: 103, due: End { reason: 0, code: 0 }, found: Cut })",
            b"A",
        ),
        (
            &TIMER,
            b"\0\0\0\0\x0b\x05\x01\x01\0\0\0\0\x04\x06\0\0\0\0\0",
            "None",
            b"",
        ),
        (
            &TIMER,
            b"\0\0\0\0\x0b\x05\x01\0\0\0\0\x01\x01\0\0\0\0\x03\x06\0\0\0\0\0",
            "Some(Refusal { index: 2, offset: 105, due: Interrupt, found: Event(Instruction(1)) })",
            b"",
        ),
    ];
    for (guest, events, refusal, out) in rows {
        let RunLog { mut runner, end } = run(alloc, guest, events, &mut steps)?;
        assert_eq!(rt; end.is_some(), refusal != "None");
        let found = format!(in alloc; "{:?}", runner.refusal())?;
        assert_eq!(rt; found.as_str(), refusal);
        assert_eq!(rt; runner.accepted_out().as_slice(), out);
    }
    Ok(())
}

#[test]
fn the_first_wrong_place_is_refused(rt: HostRuntime) -> Result<(), Fail> {
    judge::<Brand>(&rt, rt.alloc(), Blank::new(1))
}

/// Turns that were made stand for their INSTRUCTION, and a refusal stays.
fn go_on<L: Ledger>(rt: &impl Abort, alloc: Global, blank: Blank) -> Result<(), Fail>
    requires name { blank.name ≡ L.name }
    requires parts { blank.parts ≡ L.parts }
    requires some { 0 < L.parts }
{
    let mut steps: Steps<L> = Steps::open(blank);
    let mut runner = Runner::new(started(alloc, &LETTER)?);
    assert_eq!(rt; runner.advance(&mut steps)?, 7);
    assert_eq!(rt; runner.advance(&mut steps)?, 0);
    assert_eq!(rt; runner.machine().count(), 7);
    let end = Event::End { reason: 0, code: 0 };
    assert_eq!(rt; runner.feed(end, 103, &mut steps), Ok(()));
    assert_eq!(rt; runner.ended(), Some(Ending { reason: 0, code: 0 }));

    let refused = Err(FeedError::Refused);
    assert_eq!(rt; runner.feed(Event::Interrupt, 109, &mut steps), refused);
    assert_eq!(rt; runner.feed_with(Event::Exception, 110, &[]), refused);
    runner.refuse(111, Found::Cut);
    let refusal = format!(in alloc; "{:?}", runner.into_refusal())?;
    assert_eq!(rt;
        refusal.as_str(),
        "Some(Refusal { index: 2, offset: 109, due: Nothing, found: MoreBytes })"
    );
    Ok(())
}

#[test]
fn turns_are_an_instruction_and_a_refusal_stays(rt: HostRuntime) -> Result<(), Fail> {
    go_on::<Brand>(&rt, rt.alloc(), Blank::new(1))
}
