//! Sessions over small logs.

ghost use Rattle.std.specs.Prelude.{◌≡◌, ◌<◌};

use super::*;
use board::Steps;
use elf_load::load;
use event_log::{Header, put_header};
use outside::{Careful, MemSink, MemSource, SureImage};
use std::alloc::Global;
use std::marker::Brand;
use std::process::Abort;
use std::sync::ledger::{Blank, Ledger};
use std::test::Fail;

/// Prints A, and ends the run with its seventh turn.
const LETTER: [u32; 7] = [
    0x100002b7, 0x04100313, 0x00628023, 0x001003b7, 0x00005337, 0x55530313, 0x0063a023,
];

const LETTER_LOG: [u8; 11] = [0, 0, 0, 0, 7, 6, 0, 0, 0, 0, 0];

/// Waits for the timer, whose interrupt then ends the run.
const TIMER: [u32; 16] = [
    0x00000297, 0x03028293, 0x30529073, 0x02004337, 0x3e800393, 0x00732023, 0x00032223, 0x08000413,
    0x30441073, 0x30046073, 0x10500073, 0x0000006f, 0x001003b7, 0x00005337, 0x55530313, 0x0063a023,
];

const TIMER_LOG: [u8; 19] = [0, 0, 0, 0, 11, 5, 1, 1, 0, 0, 0, 0, 4, 6, 0, 0, 0, 0, 0];

/// A header whose digests are zeros.
const HEADER: Header = Header {
    shift: 0,
    ram_mib: 1,
    slice: 10_000,
    budget: 1_000_000,
    firmware: [0; 32],
    disk_len: 0,
    disk: [0; 32],
};

/// A log of these events.
fn recorded(alloc: Global, events: &[u8]) -> Result<Vec<u8>, Fail> {
    let mut log = Vec::new(alloc);
    put_header(alloc, &HEADER, &mut log)?;
    log.extend_from_slice(events)?;
    Ok(log)
}

/// What a session over the log of a guest answers to this input, and whether the log is accepted.
fn answered<L: Ledger>(
    rt: &impl Abort,
    alloc: Global,
    guest: &[u32],
    events: &[u8],
    input: &str,
    steps: &mut Steps<L>,
) -> Result<(Vec<u8>, bool), Fail> {
    let mut words = Vec::new(alloc);
    for word in guest {
        words.extend_from_slice(&word.to_le_bytes())?;
    }
    let firmware = load(alloc, &words, 1)?;
    let log = recorded(alloc, events)?;
    assert!(rt; log.len() >= 98);
    let bytes = input.as_bytes().to_vec(alloc)?;
    let mut source = MemSource::new(bytes, Vec::new(alloc), Vec::new(alloc));
    let mut out = Careful::new(MemSink::new(alloc, Vec::new(alloc)));
    let disk = SureImage::new(Vec::new(alloc));
    let (end, _) = debug_log(
        alloc,
        &HEADER,
        log,
        &firmware,
        disk,
        &mut source,
        &mut out,
        steps,
    );
    let accepted = matches!(&end, DebugEnd::Done);
    assert!(rt; accepted || matches!(&end, DebugEnd::Refused(_)));
    Ok((out.into_inner().bytes().to_vec(alloc)?, accepted))
}

/// A letter's run: moves, a dump, lines that are wrong, breaks in both directions, and registers.
fn over_a_letter<L: Ledger>(rt: &impl Abort, alloc: Global, blank: Blank) -> Result<(), Fail>
    requires name { blank.name ≡ L.name }
    requires parts { blank.parts ≡ L.parts }
    requires some { 0 < L.parts }
{
    let mut steps: Steps<L> = Steps::open(blank);
    let rows = [
        (
            "info replay\nreplay_seek 7\nreverse-step\nreplay_seek 0\nreverse-step\n\
            replay_seek 8\r\nx 80000000 5\nx 83000000 1\nfoo\nreplay_seek 08\n\nquit\nstep\n",
            "at 0 of 7, breaks none\nat 7 pc 8000001c\nat 6 pc 80000018\nat 0 pc 80000000\n\
            at the start\npast the end: 8, last 7\n80000000: b7 02 00 10 13\noutside\n\
            unknown command\nbad number\n",
        ),
        (
            "replay_break 2\nreplay_break 5\nreplay_seek 7\nreverse-continue\nreverse-continue\n\
            reverse-continue\nreverse-continue\ncontinue",
            "break 2\nbreak 5\nat 7 pc 8000001c\nat 5 pc 80000014\nat 2 pc 80000008\n\
            at 0 pc 80000000\nat the start\nat 2 pc 80000008\n",
        ),
        (
            "replay_seek 2\nreplay_delete_break\nstep\ninfo registers\n",
            "at 2 pc 80000008\nbreaks deleted\nat 3 pc 8000000c\npc 8000000c mode M count 3\n\
            x0 00000000 x1 00000000 x2 00000000 x3 00000000\n\
            x4 00000000 x5 10000000 x6 00000041 x7 00000000\n\
            x8 00000000 x9 00000000 x10 00000000 x11 00000000\n\
            x12 00000000 x13 00000000 x14 00000000 x15 00000000\n\
            x16 00000000 x17 00000000 x18 00000000 x19 00000000\n\
            x20 00000000 x21 00000000 x22 00000000 x23 00000000\n\
            x24 00000000 x25 00000000 x26 00000000 x27 00000000\n\
            x28 00000000 x29 00000000 x30 00000000 x31 00000000\n\
            mstatus 00000000 mie 00000000 mip 00000000 mtvec 00000000\n\
            mepc 00000000 mcause 00000000 mtval 00000000 mscratch 00000000\n\
            clock 3 warp 0\nconsole 1 bytes\n",
        ),
    ];
    for (input, answer) in rows {
        let (told, accepted) = answered(rt, alloc, &LETTER, &LETTER_LOG, input, &mut steps)?;
        assert!(rt; accepted);
        assert_eq!(rt; told.as_slice(), answer.as_bytes());
    }
    Ok(())
}

#[test]
fn a_letters_run_is_walked_back_and_forth(rt: HostRuntime) -> Result<(), Fail> {
    over_a_letter::<Brand>(&rt, rt.alloc(), Blank::new(1))
}

/// At count 11 the interrupt was taken already: a place lies after the events before its turn. The
/// log is cut in its END, and the session is over the part before that.
fn over_a_timer<L: Ledger>(rt: &impl Abort, alloc: Global, blank: Blank) -> Result<(), Fail>
    requires name { blank.name ≡ L.name }
    requires parts { blank.parts ≡ L.parts }
    requires some { 0 < L.parts }
{
    let mut steps: Steps<L> = Steps::open(blank);
    let input = "replay_seek 11\nreverse-step\n";
    let (told, accepted) = answered(rt, alloc, &TIMER, &TIMER_LOG[..18], input, &mut steps)?;
    assert!(rt; !accepted);
    assert_eq!(rt;
        told.as_slice(),
        b"at 11 pc 80000030\nat 10 pc 80000028\n".as_slice()
    );
    Ok(())
}

#[test]
fn a_place_lies_after_the_events_before_its_turn(rt: HostRuntime) -> Result<(), Fail> {
    over_a_timer::<Brand>(&rt, rt.alloc(), Blank::new(1))
}
